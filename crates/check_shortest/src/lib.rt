// A shortest circle of a draft (crate draft_form), over all events and none (02, M-108). Time: for each of ev events
// and for none, and for each of bs behaviours, up to bs levels of bs steps: in all (ev + 1) * bs * bs * bs at the most.

#![tactic(auto)]

ghost use Rattle.std.specs.Prelude.{◌≡◌, true, ℕ, ◌+◌, ◌≤◌, ◌<◌, length, Some};
ghost use Rattle.check_faults.specs.Checks.{cyclic_on, RowsInside, AllInside};
ghost use Rattle.check_shortest.specs.Search.{back_on, event_of_turn, shorter_of, FewestIfAny, EarliestIfAny, Wide, CircleMembers, handed, ShortestFound};
ghost use Rattle.check_shortest.specs.EventNumber.{event_number};
ghost use Rattle.spec_language.specs.Limits.{behaviour_limit, event_limit};
ghost use Rattle.lib_base.specs.Words.{byte_values};

use check_distance::LEVELS;
use check_graph::ROW;
use draft_form::Draft;
use spec_language::answers;

// An answer: the refusal, the event times EVENT, NO_EVENT for none, and how many members times COUNT.
const NO_EVENT: u64 = 255;

const EVENT: u64 = 256;

const COUNT: u64 = 65536;

// A walk of so many steps from a behaviour back to itself, on an event.
#[derive(Clone, Copy, Drop)]
struct Walk {
    steps: usize,
    event: usize,
    behaviour: usize,
}

// The events in turn: none, which is number ev, and then those declared.
#[tactic(auto, using(lib_base::proofs::Pick::branches), unfolding(crate::specs::Search::event_of_turn))]
fn event_of_turn(ev: usize, t: usize) -> usize
    ensures { result ≡ event_of_turn ev t }
{
    if t == 0 {
        return ev;
    }
    t - 1
}

// The walk with fewer steps; the first, if there is one, where the second has no fewer.
#[tactic(auto, using(lib_base::proofs::Pick::branches), unfolding(crate::specs::Search::shorter_of))]
fn shorter(first: Option<Walk>, second: Walk) -> Walk
    ensures { result ≡ shorter_of first second }
{
    match first {
        Some(walk) if walk.steps <= second.steps => walk,
        _ => second,
    }
}

// The shortest of best and of the walks from each behaviour back to itself on event e.
fn best_under(
    d: &Draft,
    e: usize,
    n: usize,
    rows: &mut [u64; ROW],
    levels: &mut [u64; LEVELS],
    best: Option<Walk>,
) -> Option<Walk>
    requires { (e ≤ event_limit) × (n ≤ behaviour_limit) × RowsInside d.now e n }
    ensures earliest { (ev t : ℕ) → e ≡ event_of_turn ev t → EarliestIfAny d.now ev n t 0 best → EarliestIfAny d.now ev n t n result }
    ensures fewest { (ev t : ℕ) → e ≡ event_of_turn ev t → FewestIfAny d.now ev n t 0 best → FewestIfAny d.now ev n t n result }
{
    check_faults::fill_rows(d, e, n, rows);
    let mut shortest = best;
    for i in 0..n {
        let Some(steps) = check_distance::steps_back(rows, levels, i, n) else {
            continue;
        };
        let walk = Walk {
            steps,
            event: e,
            behaviour: i,
        };
        shortest = Some(shorter(shortest, walk));
    }
    shortest
}

// The same over none and ev events.
fn shortest(d: &Draft, ev: usize, n: usize) -> Option<Walk>
    requires { (ev ≤ event_limit) × (n ≤ behaviour_limit) × AllInside d.now ev n }
    ensures { EarliestIfAny d.now ev n (ev + 1) 0 result }
{
    let mut rows = [0u64; ROW];
    let mut levels = [0u64; LEVELS];
    let mut best = None;
    for t in 0..=ev {
        best = best_under(d, event_of_turn(ev, t), n, &mut rows, &mut levels, best);
    }
    best
}

// An event's number in the answer; 255 for none.
#[tactic(auto, using(lib_base::proofs::Pick::branches), unfolding(crate::specs::EventNumber::event_number))]
fn event_number(e: usize, ev: usize) -> u64
    requires { ev ≤ event_limit }
    ensures value { result ≡ event_number e ev }
    ensures upper_bound { result < byte_values }
{
    if e < ev {
        return e as u64;
    }
    NO_EVENT
}

// The behaviours of a shortest walk from i back to i on event e, in the list's first bytes, and how many they are.
fn list_members(d: &Draft, e: usize, i: usize, n: usize, list: &mut [u8; ROW]) -> usize
    requires inside { (e ≤ event_limit) × (n ≤ behaviour_limit) × RowsInside d.now e n }
    requires reached { (i < n) × (back_on d.now e n i ≤ n) }
    ensures members { CircleMembers d.now e n i result list.old list.new }
    ensures upper_bound { result ≤ n }
{
    let mut rows = [0u64; ROW];
    let mut levels = [0u64; LEVELS];
    check_faults::fill_rows(d, e, n, &mut rows);
    let r = check_distance::steps_back(&rows, &mut levels, i, n).unwrap();
    check_distance::walk(&rows, &levels, i, r, n, list);
    r
}

// The first r bytes go to the start of the list, where it has room for them.
fn hand_over(members: &[u8], r: usize, list: &mut [u8])
    requires { r ≤ length members.now }
    ensures { list.new ≡ handed members.now r list.old }
{
    if r <= list.len() {
        list[..r].copy_from_slice(&members[..r]);
    }
}

// A shortest circle, under none where none has one as short: its members in the list's first bytes, where it has room
// for them. 12, its event times 256 and their number times 65,536.
pub fn list_circle(d: &Draft, ev: usize, n: usize, list: &mut [u8]) -> u64
    requires inside { (ev ≤ event_limit) × (n ≤ behaviour_limit) × AllInside d.now ev n }
    requires wide { Wide d.now ev n × (cyclic_on d.now ev n ≡ true) }
    ensures { ShortestFound d.now ev n list.old result list.new }
{
    let walk = shortest(d, ev, n).unwrap();
    let mut members = [0u8; ROW];
    let count = list_members(d, walk.event, walk.behaviour, n, &mut members);
    hand_over(&members, count, list);
    answers::CYCLE + event_number(walk.event, ev) * EVENT + count as u64 * COUNT
}
