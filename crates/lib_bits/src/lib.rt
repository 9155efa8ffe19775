// A word of 64 bits as a set of numbers below 64 (specs/Bits.antt).

#![tactic(auto)]

ghost use Rattle.std.specs.Prelude.{◌≡◌, ◌&&◌, ◌||◌, ℕ, ◌<◌, eqb};
ghost use Rattle.lib_bits.specs.Bits.{bit};
ghost use Rattle.lib_base.specs.Words.{set_bits};

// Whether j is in the set.
pub fn contains(set: u64, j: usize) -> bool
    requires { j < set_bits }
    ensures { result ≡ bit set j }
{
    (set >> j) % 2 == 1
}

// The set with j.
pub fn insert(set: u64, j: usize) -> u64
    requires { j < set_bits }
    ensures { (i : ℕ) → bit result i ≡ bit set i || eqb i j }
{
    set | (1u64 << j)
}

// What is in either.
pub fn union_of(a: u64, b: u64) -> u64
    ensures { (i : ℕ) → bit result i ≡ bit a i || bit b i }
{
    a | b
}

// What is in both.
pub fn common(a: u64, b: u64) -> u64
    ensures { (i : ℕ) → bit result i ≡ bit a i && bit b i }
{
    a & b
}
