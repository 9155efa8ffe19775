// The larger of two sizes.

#![tactic(auto)]

ghost use Rattle.std.specs.Prelude.{◌≡◌, max};

pub fn larger_size(m: usize, n: usize) -> usize
    ensures { result ≡ max m n }
{
    m.max(n)
}
