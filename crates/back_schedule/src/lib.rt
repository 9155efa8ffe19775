// The check on dependence of one event (003, Figure 3): an order in which each behaviour comes after its needs, or that
// there is none.

#![tactic(auto)]

ghost use Rattle.std.specs.Prelude.{◌≡◌, not, ◌&&◌, ◌||◌, ℕ, ◌≤◌, ◌<◌, eqb};
ghost use Rattle.lib_bits.specs.Bits.{bit};
ghost use Rattle.check_faults.specs.Checks.{RowsInside};
ghost use Rattle.back_schedule.specs.Ordering.{met_mark, MetAre, order_under, OrderHolds, count_turns, Checked};
ghost use Rattle.spec_language.specs.Limits.{behaviour_limit, event_limit};

use check_graph::ROW;
use draft_form::{Draft, layout};

// Whether a behaviour with this entry is met at once: it is no passive and has no immediate handler.
#[tactic(auto, using(lib_base::proofs::Pick::branches), unfolding(crate::specs::Ordering::met_mark))]
fn is_met(entry: u64) -> bool
    ensures { result ≡ not (eqb (met_mark entry) 0) }
{
    !matches!(
        draft_form::entry_kind(entry),
        layout::PASSIVE | layout::IMMEDIATE
    )
}

// The set with i, if behaviour i with the entry is met at once.
fn add_met(set: u64, i: usize, entry: u64) -> u64
    requires { i < behaviour_limit }
    ensures { (j : ℕ) → bit result j ≡ bit set j || (not (eqb (met_mark entry) 0) && eqb j i) }
{
    if is_met(entry) {
        return lib_bits::insert(set, i);
    }
    set
}

// Those of the behaviours that are met at once on the event.
fn met_set(draft: &Draft, event: usize, behaviours: usize) -> u64
    requires { behaviours ≤ behaviour_limit }
    ensures { MetAre draft.now event behaviours result }
{
    let mut set = 0;
    for i in 0..behaviours {
        set = add_met(set, i, draft_form::entry_of(draft, event, i));
    }
    set
}

// Phase one's order of the behaviours on the event, in the first bytes of `order`. Returns how many: those in a circle,
// and whoever needs them, are left out.
pub fn order_under(draft: &Draft, event: usize, behaviours: usize, order: &mut [u8; ROW]) -> usize
    requires { (event ≤ event_limit) × (behaviours ≤ behaviour_limit) × RowsInside draft.now event behaviours }
    ensures { OrderHolds order.new result behaviours (order_under draft.now event behaviours) }
{
    let mut rows = [0u64; ROW];
    check_faults::fill_rows(draft, event, behaviours, &mut rows);
    let met = met_set(draft, event, behaviours);
    check_graph::arrange(&rows, met, behaviours, order).count
}

// How many of the behaviours have their turn in phase one: the passives and the immediate handlers.
fn count_turns(draft: &Draft, event: usize, behaviours: usize) -> usize
    requires { behaviours ≤ behaviour_limit }
    ensures { result ≡ count_turns draft.now event behaviours }
{
    let mut count = 0;
    for i in 0..behaviours {
        if !is_met(draft_form::entry_of(draft, event, i)) {
            count += 1;
        }
    }
    count
}

// The check: how many behaviours have their turn in phase one, if all of them stand in the order; none for a circle.
pub fn check_dependence(
    draft: &Draft,
    event: usize,
    behaviours: usize,
    order: &mut [u8; ROW],
) -> Option<usize>
    requires { (event ≤ event_limit) × (behaviours ≤ behaviour_limit) × RowsInside draft.now event behaviours }
    ensures { Checked draft.now event behaviours result order.new }
{
    let count = order_under(draft, event, behaviours, order);
    if count < count_turns(draft, event, behaviours) {
        return None;
    }
    Some(count)
}
