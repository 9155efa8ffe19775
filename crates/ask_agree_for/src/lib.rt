// Whether two phones agree on one behaviour: whether no two declared events of unequal rank meet in what it depends on.
// Time: compile's without writing the table, a few passes over the nodes, two closures, and a few operations for each
// pair of events. No recursion; the draft, two matrices and some sets lie on the stack.

#![tactic(auto)]

ghost use Rattle.std.specs.Prelude.{◌≡◌, ◌&&◌, ◌||◌, ℕ, ◌+◌, ◌-◌, ◌≤◌, ◌<◌, get_or};
ghost use Rattle.lib_bits.specs.Bits.{bit};
ghost use Rattle.spec_language.specs.Syntax.{Program};
ghost use Rattle.check_faults.specs.Checks.{AllInside};
ghost use Rattle.ask_agree.specs.Told.{told_difference};
ghost use Rattle.ask_meets.specs.Meeting.{meeting, in_cone};
ghost use Rattle.ask_agree_for.specs.Encounter.{encounter_with, encounter_from, encounter_by, priority_on, met_by, DraftFor};
ghost use Rattle.ask_agree_for.specs.AgreeFor.{encounter_in, agree_for_in, agree_for_on};
ghost use Rattle.spec_language.specs.Limits.{behaviour_limit, event_limit};

use ask_agree::Clash;
use check_graph::ROW;
use check_reads::Sets;
use draft_form::{Draft, layout};
use spec_language::{answers, limits};

const PRIORITIES: usize = layout::PRIORITIES;

// Where two events meet, by what each writes and is strict about.
fn meet_of(cone: u64, we: u64, se: u64, wf: u64, sf: u64) -> u64
    ensures { (i : ℕ) → bit result i ≡ meeting (bit cone i) (bit we i) (bit se i) (bit wf i) (bit sf i) }
{
    lib_bits::common(
        cone,
        lib_bits::union_of(lib_bits::common(we, sf), lib_bits::common(wf, se)),
    )
}

// Whether the events e and f meet, of unequal priority.
fn meet_with(
    d: &Draft,
    writes: &Sets,
    strict: &Sets,
    cone: u64,
    n: usize,
    e: usize,
    f: usize,
) -> Option<Clash>
    requires { (n ≤ behaviour_limit) × (e < event_limit) × (f < event_limit) }
    ensures { told_difference result ≡ encounter_with (priority_on d.now) n (met_by cone writes.now strict.now) e f }
{
    if d[PRIORITIES + e] == d[PRIORITIES + f] {
        return None;
    }
    ask_agree::least_in(
        meet_of(cone, writes[e], strict[e], writes[f], strict[f]),
        n,
        e,
        f,
    )
}

// The first event after e that it meets.
fn meet_from(
    d: &Draft,
    writes: &Sets,
    strict: &Sets,
    cone: u64,
    n: usize,
    ev: usize,
    e: usize,
) -> Option<Clash>
    requires { (n ≤ behaviour_limit) × (ev ≤ event_limit) × (e < ev) }
    ensures { told_difference result ≡ encounter_from (priority_on d.now) n (met_by cone writes.now strict.now) ev e }
{
    for f in e + 1..ev {
        if let Some(clash) = meet_with(d, writes, strict, cone, n, e, f) {
            return Some(clash);
        }
    }
    None
}

// The first event that meets a later one.
fn meet_by(d: &Draft, writes: &Sets, strict: &Sets, cone: u64, n: usize, ev: usize) -> Option<Clash>
    requires { (n ≤ behaviour_limit) × (ev ≤ event_limit) }
    ensures { told_difference result ≡ encounter_by (priority_on d.now) n (met_by cone writes.now strict.now) ev }
{
    for e in 0..ev {
        if let Some(clash) = meet_from(d, writes, strict, cone, n, ev, e) {
            return Some(clash);
        }
    }
    None
}

// The same on a draft of ev events and n behaviours, in what behaviour b depends on.
fn meet_in(d: &Draft, ev: usize, n: usize, b: usize) -> Option<Clash>
    requires { (ev ≤ event_limit) × (n ≤ behaviour_limit) × (b < n) × AllInside d.now ev n }
    ensures { (p : Program) → DraftFor p d.now ev n → told_difference result ≡ encounter_in p (in_cone p b) }
{
    let mut rows = [0u64; ROW];
    let mut writes = [0u64; limits::EVENTS];
    let mut strict = [0u64; limits::EVENTS];
    let cone = ask_meets::cone_of(d, ev, n, b);
    check_reads::passive_rows(d, ev, n, &mut rows);
    check_reads::fill_writes(d, ev, n, &mut writes);
    ask_meets::fill_strict(d, &rows, n, cone, ev, &mut strict);
    meet_by(d, &writes, &strict, cone, n, ev)
}

// The answer for a sheet that compile accepts.
fn agree_for_of(d: &Draft, ev: usize, n: usize, behaviour: u32) -> u64
    requires { (ev ≤ event_limit) × (n ≤ behaviour_limit) × AllInside d.now ev n }
    ensures { (p : Program) → DraftFor p d.now ev n → result ≡ agree_for_in p behaviour }
{
    if n <= behaviour as usize {
        return answers::NO_BEHAVIOUR;
    }
    ask_agree::clash_number(meet_in(d, ev, n, behaviour as usize))
}

// compile's number, as with a full table; 18 for a number that is no behaviour's; 0 where no two declared events of
// unequal rank meet in what the behaviour depends on; else 29, the first event times 256, the second times 65,536 and
// times 2 ^ 24 the behaviour at which they meet.
pub fn agree_for_at(sheet: &[u8], params: &[u8], behaviour: u32) -> u64
    ensures { result ≡ agree_for_on sheet.now params.now behaviour }
{
    let mut draft = [0u64; layout::LENGTH];
    match back_compile::judge_sheet(sheet, params, &mut draft) {
        Ok(counts) => agree_for_of(&draft, counts.events, counts.behaviours, behaviour),
        Err(turndown) => u64::from(turndown.number()),
    }
}
