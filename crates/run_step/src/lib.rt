// Steps on the round's bytes (01 "Handlers and steps"). `&*table` lends the slice anew: the call gets no copy of its
// pointer and length, which would be slow to read back (also in the other calls).

#![tactic(auto)]

ghost use Rattle.std.specs.Prelude.{◌≡◌};
ghost use Rattle.format_layout.specs.Round.{call_result};
ghost use Rattle.run_step.specs.Machine.{step_on};
ghost use Rattle.run_step.specs.Sound.{RoundSound, is_outranked, is_preempted, outranked_after};

use format_layout::round::Round;
use format_layout::table;
use spec_language::answers;

// Whether something in the hand outranks the running event.
pub fn is_outranked(table: &[u8], round: &[u8]) -> bool
    requires { RoundSound table.now round.now }
    ensures { result ≡ is_outranked table.now round.now }
{
    if lib_word::get_word(round, Round::RUNNING) == 0 {
        return false;
    }
    let event = format_layout::event_at(round, Round::RUNNING_WORD);
    let priority = format_layout::event_word(table, event, table::PRIORITY);
    let waiting = lib_word::get_word(round, Round::WAITING) as usize;
    run_queue::is_any_above(&*table, &*round, priority, waiting)
}

// Whether it is after a step with that answer: an instruction leaves the hand, a refused step the round; after any
// other step the best of the hand runs, or nothing does.
#[tactic(auto, using(lib_base::proofs::Pick::branches), unfolding(crate::specs::Sound::outranked_after))]
pub fn is_outranked_after(outranked: bool, answer: u64) -> bool
    ensures { result ≡ outranked_after outranked answer }
{
    outranked && matches!(answer, answers::RAN | answers::FOREIGN)
}

// Whether the running event, outranked or not, is preempted: outranked and unmasked.
fn is_preempted(table: &[u8], round: &[u8], outranked: bool) -> bool
    requires { RoundSound table.now round.now }
    ensures { result ≡ is_preempted table.now round.now outranked }
{
    if !outranked {
        return false;
    }
    let event = format_layout::event_at(round, Round::RUNNING_WORD);
    let length = format_layout::event_word(table, event, table::CODE_LENGTH);
    let members = format_layout::event_word(table, event, table::MEMBERS);
    !run_board::is_masked(length, members, lib_word::get_word(round, Round::POSITION))
}

// One step on a table and a round that are judged; outranked: something in the hand outranks the running event. It does
// the first that fits. 14 where the instruction is foreign.
pub fn step_on(table: &[u8], round: &mut [u8], outranked: bool) -> u64
    requires { RoundSound table.now round.old × (is_outranked table.now round.old ≡ outranked) }
    ensures round_after { call_result result round.new ≡ step_on table.now round.old }
    ensures round_sound { RoundSound table.now round.new
        × (is_outranked table.now round.new ≡ outranked_after outranked result) }
{
    let waiting = lib_word::get_word(round, Round::WAITING) as usize;
    // Unmasked, and something in the hand outranks the running event: that goes back to the hand, its scratch is
    // dropped, the next starts.
    if is_preempted(&*table, round, outranked) {
        let next = run_queue::best_of(&*table, round, waiting);
        return run_dispatch::preempt_at(round, next);
    }
    // Something runs: one instruction.
    if lib_word::get_word(round, Round::RUNNING) != 0 {
        return run_advance::advance_on(&*table, round);
    }
    // Something waits: the next starts.
    if waiting > 0 {
        let next = run_queue::best_of(&*table, round, waiting);
        return run_dispatch::start_at(round, next, waiting - 1);
    }
    // Else idle.
    answers::IDLE
}

// A step judges table and round, looks whether the running event is outranked, and is made. 14 where table, round or
// instruction is foreign.
pub fn step_at(table: &[u8], round: &mut [u8]) -> u64
    ensures { call_result result round.new ≡ step_on table.now round.old }
{
    if !run_validate::is_ours(&*table, round) {
        return answers::FOREIGN;
    }
    let outranked = is_outranked(&*table, round);
    step_on(&*table, round, outranked)
}
