// What each event writes, and what its handlers name, directly or through passives, as sets of behaviours: on the draft
// of a program (layout: draft_form, specs/Draft.antt). Time: a pass over the nodes of the handlers and of the
// passives, and n * n operations on words for the chains of n behaviours.

#![tactic(auto)]

ghost use Rattle.std.specs.Prelude.{◌≡◌, Bool, ◌&&◌, ◌||◌, ℕ, ◌+◌, ◌≤◌, ◌<◌, get_or, eqb, leb};
ghost use Rattle.lib_bits.specs.Bits.{bit, Gathers};
ghost use Rattle.draft_form.specs.Draft.{used_by};
ghost use Rattle.draft_form.specs.Entry.{entry_kind, entry_start, entry_count};
ghost use Rattle.check_graph.specs.Any.{any_below};
ghost use Rattle.check_faults.specs.Checks.{RowsInside, AllInside};
ghost use Rattle.check_reads.specs.Sets.{is_name, named_among, writes_on, handlers_name, passive_on, closed_by, RowsBy, WritesIn, NamedIn};
ghost use Rattle.draft_form.specs.Sizes.{draft_nodes};
ghost use Rattle.spec_language.specs.Limits.{behaviour_limit, event_limit};

use check_graph::ROW;
use draft_form::{Draft, layout};
use spec_language::limits;

// A set of behaviours for each event.
pub type Sets = [u64; limits::EVENTS];

// The set with the name that node x is.
fn add_name(set: u64, x: u64) -> u64
    ensures { (j : ℕ) → j < behaviour_limit → bit result j ≡ bit set j || is_name j x }
{
    // most nodes are no name, and leave at once
    let Some(j) = draft_form::name_of(x) else {
        return set;
    };
    if j < limits::BEHAVIOURS {
        return lib_bits::insert(set, j);
    }
    set
}

// The names in entry v of behaviour i, as i means them.
pub fn names_in(d: &Draft, i: usize, v: u64) -> u64
    requires { (i < behaviour_limit) × (entry_start v + entry_count v ≤ draft_nodes) }
    ensures { Gathers behaviour_limit result (λ j. named_among (used_by d.now i) j (entry_start v) (entry_count v)) }
{
    let mut set = 0;
    for node in draft_form::nodes_of(d, v) {
        set = add_name(set, draft_form::moved_node(d, i, *node));
    }
    set
}

// The set with i where its entry v is a handler.
fn add_writer(set: u64, i: usize, v: u64) -> u64
    requires { i < behaviour_limit }
    ensures { (j : ℕ) → bit result j ≡ bit set j || (leb 2 (entry_kind v) && eqb j i) }
{
    if draft_form::is_handler(v) {
        return lib_bits::insert(set, i);
    }
    set
}

// Which of the first n behaviours have a handler for event e.
fn writes_of(d: &Draft, e: usize, n: usize) -> u64
    requires { n ≤ behaviour_limit }
    ensures { Gathers n result (writes_on d.now e) }
{
    let mut set = 0;
    for i in 0..n {
        set = add_writer(set, i, draft_form::entry_of(d, e, i));
    }
    set
}

// The set with the names in entry v of behaviour i where it is a handler.
fn add_names(d: &Draft, set: u64, i: usize, v: u64) -> u64
    requires { (i < behaviour_limit) × (entry_start v + entry_count v ≤ draft_nodes) }
    ensures { Gathers behaviour_limit result (λ j. bit set j
        || (leb 2 (entry_kind v) && named_among (used_by d.now i) j (entry_start v) (entry_count v))) }
{
    if draft_form::is_handler(v) {
        return lib_bits::union_of(set, names_in(d, i, v));
    }
    set
}

// The names in the handlers of the first n behaviours for event e.
fn handler_names(d: &Draft, e: usize, n: usize) -> u64
    requires { (e ≤ event_limit) × (n ≤ behaviour_limit) × RowsInside d.now e n }
    ensures { Gathers behaviour_limit result (handlers_name d.now e n) }
{
    let mut set = 0;
    for i in 0..n {
        set = add_names(d, set, i, draft_form::entry_of(d, e, i));
    }
    set
}

// The names in entry v of behaviour i where it is a passive's.
fn passive_names(d: &Draft, i: usize, v: u64) -> u64
    requires { (i < behaviour_limit) × (entry_start v + entry_count v ≤ draft_nodes) }
    ensures { Gathers behaviour_limit result (λ j. eqb (entry_kind v) 1 && named_among (used_by d.now i) j (entry_start v) (entry_count v)) }
{
    if draft_form::entry_kind(v) == layout::PASSIVE {
        return names_in(d, i, v);
    }
    0
}

// What each of n behaviours names as a passive: ev is the number of no event.
fn fill_passives(d: &Draft, ev: usize, n: usize, rows: &mut [u64; ROW])
    requires { (ev ≤ event_limit) × (n ≤ behaviour_limit) × RowsInside d.now ev n }
    ensures { RowsBy (passive_on d.now ev) n rows.new }
{
    for i in 0..n {
        rows[i] = passive_names(d, i, draft_form::entry_of(d, ev, i));
    }
}

// The set with i's row where i is among the names.
fn add_row(set: u64, names: u64, i: usize, row: u64) -> u64
    requires { i < behaviour_limit }
    ensures { (j : ℕ) → bit result j ≡ bit set j || (bit names i && bit row j) }
{
    if lib_bits::contains(names, i) {
        return lib_bits::union_of(set, row);
    }
    set
}

// The rows with whatever is reached by a chain, in place.
pub fn close_rows(rows: &mut [u64; ROW], n: usize)
    requires { n ≤ behaviour_limit }
    ensures { (dep : ℕ → ℕ → Bool) → RowsBy dep n rows.old → RowsBy (closed_by n dep) n rows.new }
{
    check_graph::close_all(rows, n);
}

// What each of n behaviours names through passives.
pub fn passive_rows(d: &Draft, ev: usize, n: usize, rows: &mut [u64; ROW])
    requires { (ev ≤ event_limit) × (n ≤ behaviour_limit) × RowsInside d.now ev n }
    ensures { RowsBy (closed_by n (passive_on d.now ev)) n rows.new }
{
    fill_passives(d, ev, n, rows);
    close_rows(rows, n);
}

// The names, and whatever they lead to.
pub fn add_rows(rows: &[u64; ROW], names: u64, n: usize) -> u64
    requires { n ≤ behaviour_limit }
    ensures { Gathers behaviour_limit result (λ j. bit names j || any_below n (λ i. bit names i && bit (get_or rows.now i 0) j)) }
{
    let mut set = names;
    for i in 0..n {
        set = add_row(set, names, i, rows[i]);
    }
    set
}

// Which of the first n behaviours each of ev events writes.
pub fn fill_writes(d: &Draft, ev: usize, n: usize, writes: &mut Sets)
    requires { (ev ≤ event_limit) × (n ≤ behaviour_limit) }
    ensures { WritesIn d.now ev n writes.new }
{
    for e in 0..ev {
        writes[e] = writes_of(d, e, n);
    }
}

// Which its handlers name, where the rows say what is named through passives.
fn fill_names(d: &Draft, ev: usize, n: usize, rows: &[u64; ROW], named: &mut Sets)
    requires { (ev ≤ event_limit)
        × (n ≤ behaviour_limit) × AllInside d.now ev n × RowsBy (closed_by n (passive_on d.now ev)) n rows.now }
    ensures { NamedIn d.now ev n named.new }
{
    for e in 0..ev {
        named[e] = add_rows(rows, handler_names(d, e, n), n);
    }
}

// Which of the first n behaviours the handlers of each of ev events name, directly or through passives.
pub fn fill_named(d: &Draft, ev: usize, n: usize, named: &mut Sets)
    requires { (ev ≤ event_limit) × (n ≤ behaviour_limit) × AllInside d.now ev n }
    ensures { NamedIn d.now ev n named.new }
{
    let mut rows = [0u64; ROW];
    passive_rows(d, ev, n, &mut rows);
    fill_names(d, ev, n, &rows, named);
}
