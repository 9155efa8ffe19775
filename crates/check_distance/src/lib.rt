// Walks along dependence (rows of 64 bits, crate check_graph) that end at one behaviour i, by their number of steps,
// and a shortest one from i back to i: a breadth-first search, a level for each number of steps, until it is home or a
// level is empty. Time: n levels of n steps at the most.

#![tactic(auto)]

ghost use Rattle.std.specs.Prelude.{◌≡◌, true, ◌&&◌, ◌||◌, ℕ, ◌+◌, ◌-◌, ◌≤◌, ◌<◌, length, eqb};
ghost use Rattle.lib_bits.specs.Bits.{bit};
ghost use Rattle.check_graph.specs.Any.{any_below};
ghost use Rattle.check_graph.specs.First.{FirstOf};
ghost use Rattle.check_graph.specs.Matrix.{cell};
ghost use Rattle.check_graph.specs.Sets.{RowsBelow, bytes_of};
ghost use Rattle.check_distance.specs.Layers.{layer, Leading, Layered, BackIfAny, Walked};
ghost use Rattle.spec_language.specs.Limits.{behaviour_limit};

use check_graph::ROW;

// A level for each number of steps from 0 to 64.
pub const LEVELS: usize = ROW + 1;

// Whether two sets have a number in common.
fn is_common(a: u64, b: u64) -> bool
    ensures { result ≡ any_below behaviour_limit (λ h. bit a h && bit b h) }
{
    a & b != 0
}

// The lowest of the first n that is in both.
fn first_common(a: u64, b: u64, n: usize) -> Option<usize>
    requires { n ≤ behaviour_limit }
    ensures { FirstOf (λ h. bit a h && bit b h) n result }
{
    check_graph::first_of(lib_bits::common(a, b), n)
}

// The set with j, where j needs one of the others.
fn add_leading(set: u64, j: usize, needs: u64, others: u64) -> u64
    requires { j < behaviour_limit }
    ensures { (x : ℕ) → bit result x ≡ bit set x || (any_below behaviour_limit (λ h. bit needs h && bit others h) && eqb x j) }
{
    // the bit is made apart from the set, so that a set of many is not one chain of choices
    let own = if is_common(needs, others) {
        lib_bits::insert(0, j)
    } else {
        0
    };
    lib_bits::union_of(set, own)
}

// Those of the first n that need one of the set.
fn leading_to(rows: &[u64; ROW], set: u64, n: usize) -> u64
    requires { (n ≤ behaviour_limit) × RowsBelow rows.now n }
    ensures { Leading (bytes_of rows.now) n set result }
{
    let mut found = 0;
    for j in 0..n {
        found = add_leading(found, j, rows[j], set);
    }
    found
}

// How many steps lead from i back to i, at most n; none if there is no such walk. Level k is the set of those with a
// walk of k steps to i.
#[tactic(auto, using(crate::proofs::LayerLaws::trying_none))]
pub fn steps_back(
    rows: &[u64; ROW],
    levels: &mut [u64; LEVELS],
    i: usize,
    n: usize,
) -> Option<usize>
    requires { (i < n) × (n ≤ behaviour_limit) × RowsBelow rows.now n }
    ensures { BackIfAny (bytes_of rows.now) n i result levels.new }
{
    levels[0] = lib_bits::insert(0, i);
    for k in 0..n {
        let level = levels[k];
        if level == 0 {
            return None;
        }
        if is_common(rows[i], level) {
            return Some(k + 1);
        }
        levels[k + 1] = leading_to(rows, level, n);
    }
    None
}

// The members of such a walk of r steps, in the first r bytes of the list.
pub fn walk(
    rows: &[u64; ROW],
    levels: &[u64; LEVELS],
    i: usize,
    r: usize,
    n: usize,
    list: &mut [u8],
)
    requires rows_len { (i < n) × (n ≤ behaviour_limit) × (r ≤ n) × (behaviour_limit ≤ length list.old) }
    requires r_nonzero { (0 < r) × Layered (bytes_of rows.now) n i levels.now (r - 1) × (layer (λ a b. cell (bytes_of rows.now) a b) n r i i ≡ true) }
    ensures { Walked (bytes_of rows.now) n r list.old list.new }
{
    let mut at = i;
    for t in 0..r {
        list[t] = at as u8;
        at = first_common(rows[at], levels[r - 1 - t], n).unwrap();
    }
}
