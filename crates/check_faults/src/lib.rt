// The checks of a whole program, on its draft (layout: draft_form, specs/Draft.antt): names that no behaviour has,
// cycles. Time: the names take one pass over the nodes. The cycles take, for each of ev events and for none, a pass
// over the nodes of the entries for their names, and an order of bs behaviours: in all (ev + 1) * (nodes + bs * bs).
// Where one is left out of the order, what is reached from each is worked out, bs * bs steps; and one reaches itself.

#![tactic(auto)]

ghost use Rattle.std.specs.Prelude.{◌≡◌, ℕ, ◌+◌, ◌*◌, ◌≤◌, ◌<◌, ◌&&◌, ◌||◌, not, take, drop, ltb};
ghost use Rattle.std.specs.List.{list_any};
ghost use Rattle.lib_bits.specs.Bits.{bit};
ghost use Rattle.draft_form.specs.Entry.{entry_start, entry_count};
ghost use Rattle.draft_form.specs.Draft.{used_by};
ghost use Rattle.check_graph.specs.First.{FirstOf};
ghost use Rattle.check_graph.specs.Sets.{RowsBelow};
ghost use Rattle.check_faults.specs.Checks.{stray, names_known, node_names, some_node_names, needs_on, RowsAre, PlacedOn};
ghost use Rattle.check_faults.specs.Checks.{LeftClosed, left_round, RoundOn, cyclic_on, RowsInside, AllInside};
ghost use Rattle.draft_form.specs.Sizes.{draft_nodes};
ghost use Rattle.spec_language.specs.Limits.{behaviour_limit, event_limit};

use check_graph::ROW;
use draft_form::{Draft, layout};
use spec_language::limits;

// Whether a node is the name of none of b behaviours.
#[tactic(auto, using(lib_base::proofs::Pick::branches), unfolding(crate::specs::Checks::stray))]
fn is_stray(x: u64, b: usize) -> bool
    ensures { result ≡ stray x b }
{
    draft_form::node_tag(x) == layout::NAME && draft_form::node_word(x) as usize >= b
}

// Whether one of these nodes is the name of none of b behaviours.
fn is_any_stray(nodes: &[u64], b: usize) -> bool
    ensures { result ≡ list_any (λ x. stray x b) nodes.now }
{
    nodes.iter().any(|x| is_stray(*x, b))
}

// Whether every name among the first n nodes is that of one of b behaviours.
#[tactic(auto, using(crate::proofs::NamesAgree::pass_any))]
pub fn names_known(d: &Draft, n: usize, b: usize) -> bool
    requires { n ≤ draft_nodes }
    ensures { result ≡ names_known d.now b n }
{
    !is_any_stray(&d[..n], b)
}

// The set with the name that node x is, if it is one of the first n, but not that of number `but`.
fn add_need(set: u64, but: usize, n: usize, x: u64) -> u64
    requires { n ≤ behaviour_limit }
    ensures { (b : ℕ) → bit result b ≡ bit set b || (ltb b n && node_names but b x) }
{
    // most nodes are no name, and leave at once
    let Some(j) = draft_form::name_of(x) else {
        return set;
    };
    if j < n && j != but {
        return lib_bits::insert(set, j);
    }
    set
}

// The names of the first n in the entry, as behaviour i means them, as a set.
fn need_set(d: &Draft, i: usize, but: usize, n: usize, entry: u64) -> u64
    requires { (i < behaviour_limit) × (n ≤ behaviour_limit) × (entry_start entry + entry_count entry ≤ draft_nodes) }
    ensures { (b : ℕ) → bit result b
        ≡ ltb b n && some_node_names but b (take (entry_count entry) (drop (entry_start entry) (used_by d.now i))) }
{
    let mut set = 0;
    for node in draft_form::nodes_of(d, entry) {
        set = add_need(set, but, n, draft_form::moved_node(d, i, *node));
    }
    set
}

// The needs of behaviour i with this entry among the first n, as a set.
fn row_of(d: &Draft, i: usize, n: usize, entry: u64) -> u64
    requires { (i < behaviour_limit) × (n ≤ behaviour_limit) × (entry_start entry + entry_count entry ≤ draft_nodes) }
    ensures { (b : ℕ) → bit result b ≡ ltb b n && needs_on d.now i entry b }
{
    match draft_form::entry_kind(entry) {
        layout::PASSIVE => need_set(d, i, limits::BEHAVIOURS, n, entry),
        layout::IMMEDIATE => need_set(d, i, i, n, entry),
        _ => 0,
    }
}

// The needs of the first n behaviours on event e, a set for each.
pub fn fill_rows(d: &Draft, e: usize, n: usize, rows: &mut [u64; ROW])
    requires { (e ≤ event_limit) × (n ≤ behaviour_limit) × RowsInside d.now e n }
    ensures { RowsAre d.now e n rows.new }
{
    for i in 0..n {
        rows[i] = row_of(d, i, n, draft_form::entry_of(d, e, i));
    }
}

// Those of the first n behaviours that can be placed, each after its needs: none of them reaches itself.
fn place_all(rows: &[u64; ROW], n: usize) -> u64
    requires { (n ≤ behaviour_limit) × RowsBelow rows.now n }
    ensures { PlacedOn rows.now n result }
{
    let mut order = [0u8; ROW];
    let arranged = check_graph::arrange(rows, 0, n, &mut order);
    arranged.set
}

// The lowest of the first n that is not in the set.
fn first_left(placed: u64, n: usize) -> Option<usize>
    requires { n ≤ behaviour_limit }
    ensures { FirstOf (λ i. not (bit placed i)) n result }
{
    check_graph::first_of(!placed, n)
}

// Where one is not placed, each takes in what is reached from it: else none is asked for it.
fn close_left(rows: &mut [u64; ROW], placed: u64, n: usize)
    requires { n ≤ behaviour_limit }
    ensures { LeftClosed rows.old placed n rows.new }
{
    if first_left(placed, n).is_some() {
        check_graph::close_all(rows, n);
    }
}

// The rows on event e, of which those that are not placed have what is reached from them; and who is placed.
fn reach_all(d: &Draft, e: usize, n: usize, rows: &mut [u64; ROW]) -> u64
    requires { (e ≤ event_limit) × (n ≤ behaviour_limit) × RowsInside d.now e n }
    ensures { RoundOn d.now e n result rows.new }
{
    fill_rows(d, e, n, rows);
    let placed = place_all(rows, n);
    close_left(rows, placed, n);
    placed
}

// Whether b is reached from itself (01: a circle): who is placed is not; of another, its row tells it.
fn reaches_itself(rows: &[u64; ROW], placed: u64, b: usize) -> bool
    requires { b < behaviour_limit }
    ensures { result ≡ left_round placed rows.now b }
{
    !lib_bits::contains(placed, b) && lib_bits::contains(rows[b], b)
}

// Whether, on one of ev events or on none, one of bs behaviours reaches itself: a search over events and behaviours,
// left where one does.
pub fn has_cycle(d: &Draft, ev: usize, bs: usize) -> bool
    requires { (ev ≤ event_limit) × (bs ≤ behaviour_limit) × AllInside d.now ev bs }
    ensures { result ≡ cyclic_on d.now ev bs }
{
    let mut rows = [0u64; ROW];
    let mut found = false;
    'search: for e in 0..=ev {
        let placed = reach_all(d, e, bs, &mut rows);
        for b in 0..bs {
            if reaches_itself(&rows, placed, b) {
                found = true;
                break 'search;
            }
        }
    }
    found
}
