// Dependence of up to 64 behaviours as sets of 64 bits, a row for each (crate lib_bits), j in rows[i]: an order in
// which each comes after its needs, and the transitive closure, what is reached from each. The proofs see both as
// matrices of 64 x 64 bytes (specs/Matrix.antt).

#![tactic(auto)]

ghost use Rattle.std.specs.Prelude.{◌≡◌, ◌+◌, ◌*◌, ◌≤◌, ◌<◌};
ghost use Rattle.lib_bits.specs.Bits.{bit};
ghost use Rattle.check_graph.specs.First.{FirstOf};
ghost use Rattle.check_graph.specs.Placing.{FoundOn, placed, order_on};
ghost use Rattle.check_graph.specs.Sets.{ready_set, RowsBelow, bytes_of, marks_of, TakenIn, PassedThrough, ClosedRows};
ghost use Rattle.spec_language.specs.Limits.{behaviour_limit};

// How many rows there are, and numbers in a row.
pub const ROW: usize = spec_language::limits::BEHAVIOURS;

// Who is placed, and how many were.
#[derive(Drop)]
pub struct Arranged {
    pub set: u64,
    pub count: usize,
}

// The lowest of the first n numbers that is in the set.
pub fn first_of(set: u64, n: usize) -> Option<usize>
    requires { n ≤ behaviour_limit }
    ensures { FirstOf (bit set) n result }
{
    let lowest = set.trailing_zeros() as usize;
    if lowest < n {
        return Some(lowest);
    }
    None
}

// Whether i is not in the set and its needs are.
fn is_ready(needs: u64, set: u64, i: usize) -> bool
    requires { i < behaviour_limit }
    ensures { result ≡ ready_set needs set i }
{
    if lib_bits::contains(set, i) {
        return false;
    }
    needs & set == needs
}

// The lowest of the first n that is ready.
fn find_next(rows: &[u64; ROW], set: u64, n: usize) -> Option<usize>
    requires { (n ≤ behaviour_limit) × RowsBelow rows.now n }
    ensures { FoundOn (bytes_of rows.now) (marks_of set) n result }
{
    for i in 0..n {
        if is_ready(rows[i], set, i) {
            return Some(i);
        }
    }
    None
}

// Places each of the first n that is not in the set and whose needs are, the lowest number first, chosen anew after
// each. Returns who is in the set then, and how many were placed.
pub fn arrange(rows: &[u64; ROW], met: u64, n: usize, out: &mut [u8; ROW]) -> Arranged
    requires { (n ≤ behaviour_limit) × RowsBelow rows.now n }
    ensures { placed result.count (marks_of result.set) out.new ≡ order_on (bytes_of rows.now) n n (marks_of met) 0 out.old }
{
    let mut set = met;
    for count in 0..n {
        let Some(i) = find_next(rows, set, n) else {
            return Arranged { set, count };
        };
        out[count] = i as u8;
        set = lib_bits::insert(set, i);
    }
    Arranged { set, count: n }
}

// What a row needs, and where it needs k what k needs.
fn taken_in(row: u64, through: u64, k: usize) -> u64
    requires { k < behaviour_limit }
    ensures { TakenIn row through k result }
{
    if lib_bits::contains(row, k) {
        return lib_bits::union_of(row, through);
    }
    row
}

// Each of the first n takes in what k needs, if it needs k.
fn pass(rows: &mut [u64; ROW], k: usize, n: usize)
    requires { (k < n) × (n ≤ behaviour_limit) }
    ensures { PassedThrough rows.old k n rows.new }
{
    let through = rows[k];
    for row in rows[..n].iter_mut() {
        *row = taken_in(*row, through, k);
    }
}

// Each of the first n takes in what is reached from it: through each of them in turn (Warshall). Time: n * n.
pub fn close_all(rows: &mut [u64; ROW], n: usize)
    requires { n ≤ behaviour_limit }
    ensures { ClosedRows rows.old n rows.new }
{
    for k in 0..n {
        pass(rows, k, n);
    }
}
