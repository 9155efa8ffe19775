// The next starts, or preempts the running one, in the round's bytes.

#![tactic(auto)]

ghost use Rattle.std.specs.Prelude.{◌≡◌, ◌≤◌, ◌<◌, length};
ghost use Rattle.format_layout.specs.Round.{call_result};
ghost use Rattle.run_dispatch.specs.Dispatch.{run_arrival, start_at, preempt_at};
ghost use Rattle.run_dispatch.specs.Said.{said_of, player_unit};
ghost use Rattle.format_layout.specs.Sizes.{queue_limit, round_bytes};

use format_layout::round::Round;
use spec_language::answers;

// The answer of a kind about an arrival, from its number and the word of its event and player.
pub fn said_of(kind: u64, number: u32, word: u32) -> u64
    requires { kind < player_unit }
    ensures { result ≡ said_of kind number word }
{
    let event = format_layout::event_of(word) as u64;
    let player = format_layout::player_of(word) as u64;
    (number as u64) * answers::ARRIVAL + event * answers::EVENT + player * answers::PLAYER + kind
}

// An arrival runs: none of its instructions done, the evaluation stack empty, no mark.
fn set_running(round: &mut [u8], number: u32, word: u32)
    requires { round_bytes ≤ length round.old }
    ensures { round.new ≡ run_arrival round.old number word }
{
    lib_word::put_word(round, Round::RUNNING, 1);
    lib_word::put_word(round, Round::RUNNING_WORD, word);
    lib_word::put_word(round, Round::RUNNING_NUMBER, number);
    lib_word::put_word(round, Round::POSITION, 0);
    lib_word::put_word(round, Round::DEPTH, 0);
    lib_word::put_word(round, Round::MARK, 0);
}

// What waits in a slot starts, and the last waiting moves into its place.
pub fn start_at(round: &mut [u8], slot: usize, last: usize) -> u64
    requires { (round_bytes ≤ length round.old) × (slot < queue_limit) × (last < queue_limit) }
    ensures { call_result result round.new ≡ start_at round.old slot last }
{
    let number = lib_word::get_word(round, Round::NUMBERS + slot * 2);
    let word = lib_word::get_word(round, Round::WORDS + slot * 2);
    let last_number = lib_word::get_word(round, Round::NUMBERS + last * 2);
    let last_word = lib_word::get_word(round, Round::WORDS + last * 2);
    run_queue::put_slot(round, slot, last_number, last_word);
    lib_word::put_word(round, Round::WAITING, last as u32);
    set_running(round, number, word);
    said_of(answers::STARTED, number, word)
}

// What waits in a slot starts, and the running one goes into its place under its old number.
pub fn preempt_at(round: &mut [u8], slot: usize) -> u64
    requires { (round_bytes ≤ length round.old) × (slot < queue_limit) }
    ensures { call_result result round.new ≡ preempt_at round.old slot }
{
    let number = lib_word::get_word(round, Round::NUMBERS + slot * 2);
    let word = lib_word::get_word(round, Round::WORDS + slot * 2);
    let old_number = lib_word::get_word(round, Round::RUNNING_NUMBER);
    let old_word = lib_word::get_word(round, Round::RUNNING_WORD);
    run_queue::put_slot(round, slot, old_number, old_word);
    set_running(round, number, word);
    said_of(answers::PREEMPTED, number, word)
}
