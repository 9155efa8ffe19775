// Whether two phones agree: whether every two declared events of unequal rank are independent (01, "The meaning of one
// event"; demand 3's last sentence). Time: compile's without writing the table, a pass over the nodes, one closure, and
// a few operations for each pair of events. No recursion; the draft, a matrix and some sets lie on the stack.

#![tactic(auto)]

ghost use Rattle.std.specs.Prelude.{◌≡◌, ◌&&◌, ◌||◌, ℕ, ◌+◌, ◌-◌, ◌≤◌, ◌<◌, get_or};
ghost use Rattle.lib_bits.specs.Bits.{bit};
ghost use Rattle.check_faults.specs.Checks.{AllInside};
ghost use Rattle.ask_agree.specs.Told.{told_difference};
ghost use Rattle.ask_agree.specs.Conflict.{clash, least_in, conflict_with, conflict_from, conflict_by, conflict_on, member};
ghost use Rattle.ask_agree.specs.Agree.{agree_on};
ghost use Rattle.spec_language.specs.Limits.{behaviour_limit, event_limit};

use check_reads::Sets;
use draft_form::{Draft, layout};
use spec_language::limits;

// The answer: this number, and the first event, the second and a behaviour, each in bits of its own.
const PHONES_MAY_DIFFER: u64 = 29;

const FIRST: u64 = 256;

const SECOND: u64 = 65536;

const BEHAVIOUR: u64 = 16777216;
// Where the draft has the priorities.
const PRIORITIES: usize = layout::PRIORITIES;

// Two events that are not independent, and a behaviour that one writes and the other reads or writes.
#[derive(Clone, Copy, PartialEq, Eq, Debug, Drop)]
pub struct Clash {
    pub first: u8,
    pub second: u8,
    pub behaviour: u8,
}

// What one of two events writes and the other writes or names.
fn clash_of(we: u64, ne: u64, wf: u64, nf: u64) -> u64
    ensures { (i : ℕ) → bit result i ≡ clash (bit we i) (bit ne i) (bit wf i) (bit nf i) }
{
    lib_bits::union_of(
        lib_bits::common(we, lib_bits::union_of(wf, nf)),
        lib_bits::common(wf, ne),
    )
}

// The least behaviour in the set, with the events.
pub fn least_in(set: u64, n: usize, e: usize, f: usize) -> Option<Clash>
    requires { (n ≤ behaviour_limit) × (e < event_limit) × (f < event_limit) }
    ensures { told_difference result ≡ least_in set n e f }
{
    let Some(i) = check_graph::first_of(set, n) else {
        return None;
    };
    Some(Clash {
        first: e as u8,
        second: f as u8,
        behaviour: i as u8,
    })
}

// The answer's number; 0 where none clash.
#[tactic(auto, unfolding(crate::specs::Answer::packed_difference))]
pub fn clash_number(clash: Option<Clash>) -> u64
    ensures { result ≡ told_difference clash }
{
    match clash {
        None => 0,
        Some(c) => {
            PHONES_MAY_DIFFER
                + FIRST * u64::from(c.first)
                + SECOND * u64::from(c.second)
                + BEHAVIOUR * u64::from(c.behaviour)
        }
    }
}

// Whether the events e and f clash, of unequal priority.
fn clash_with(d: &Draft, writes: &Sets, named: &Sets, n: usize, e: usize, f: usize) -> Option<Clash>
    requires { (n ≤ behaviour_limit) × (e < event_limit) × (f < event_limit) }
    ensures { told_difference result ≡ conflict_with d.now n (member writes.now) (member named.now) e f }
{
    if d[PRIORITIES + e] == d[PRIORITIES + f] {
        return None;
    }
    least_in(clash_of(writes[e], named[e], writes[f], named[f]), n, e, f)
}

// The first event after e with which it clashes.
fn clash_from(
    d: &Draft,
    writes: &Sets,
    named: &Sets,
    n: usize,
    ev: usize,
    e: usize,
) -> Option<Clash>
    requires { (n ≤ behaviour_limit) × (ev ≤ event_limit) × (e < ev) }
    ensures { told_difference result ≡ conflict_from d.now n (member writes.now) (member named.now) ev e }
{
    for f in e + 1..ev {
        if let Some(clash) = clash_with(d, writes, named, n, e, f) {
            return Some(clash);
        }
    }
    None
}

// The first event that clashes with a later one.
fn clash_by(d: &Draft, writes: &Sets, named: &Sets, n: usize, ev: usize) -> Option<Clash>
    requires { (n ≤ behaviour_limit) × (ev ≤ event_limit) }
    ensures { told_difference result ≡ conflict_by d.now n (member writes.now) (member named.now) ev }
{
    for e in 0..ev {
        if let Some(clash) = clash_from(d, writes, named, n, ev, e) {
            return Some(clash);
        }
    }
    None
}

// The same on a draft of ev events and n behaviours.
fn clash_in(d: &Draft, ev: usize, n: usize) -> Option<Clash>
    requires { (ev ≤ event_limit) × (n ≤ behaviour_limit) × AllInside d.now ev n }
    ensures { told_difference result ≡ conflict_on d.now ev n }
{
    let mut writes = [0u64; limits::EVENTS];
    let mut named = [0u64; limits::EVENTS];
    check_reads::fill_writes(d, ev, n, &mut writes);
    check_reads::fill_named(d, ev, n, &mut named);
    clash_by(d, &writes, &named, n, ev)
}

// compile's number, as with a full table; 0 where every two declared events of unequal rank are independent; else 29,
// the first event times 256, the second times 65,536 and times 2 ^ 24 a behaviour that one writes and the other reads
// or writes.
pub fn agree_at(sheet: &[u8], params: &[u8]) -> u64
    ensures { result ≡ agree_on sheet.now params.now }
{
    let mut draft = [0u64; layout::LENGTH];
    match back_compile::judge_sheet(sheet, params, &mut draft) {
        Ok(counts) => clash_number(clash_in(&draft, counts.events, counts.behaviours)),
        Err(turndown) => u64::from(turndown.number()),
    }
}
