// One instruction of the running arrival, on the round's bytes.

#![tactic(auto)]

ghost use Rattle.std.specs.Prelude.{◌≡◌, ◌≤◌, ◌<◌, length};
ghost use Rattle.format_layout.specs.Layout.{event_count, running_event, depth};
ghost use Rattle.format_layout.specs.Bounds.{TableBounds};
ghost use Rattle.format_layout.specs.Round.{call_result};
ghost use Rattle.run_advance.specs.Advance.{commit_said, advance_left};
ghost use Rattle.format_layout.specs.Sizes.{queue_limit, round_bytes};

use format_layout::round::Round;
use format_layout::table;
use spec_language::answers;

// The answer of a commit, more where the mark's word is not 0 (02, M-104).
fn commit_of(number: u32, word: u32, mark: u32) -> u64
    ensures { result ≡ commit_said number word mark }
{
    let said = run_dispatch::said_of(answers::COMMITTED, number, word);
    if mark == 0 {
        return said;
    }
    answers::OVER + said
}

// One instruction of the running arrival: the one at its count of instructions done, which then grows by one; after the
// last, nothing runs and the event is committed. 14 where none is left (an event of none, of a damaged table) or the
// instruction may not run.
pub fn advance_on(table: &[u8], round: &mut [u8]) -> u64
    requires { TableBounds table.now × (round_bytes ≤ length round.old) × (depth round.old ≤ queue_limit)
        × (running_event round.old < event_count table.now) }
    ensures { call_result result round.new ≡ advance_left table.now round.old }
{
    let word = lib_word::get_word(round, Round::RUNNING_WORD);
    let number = lib_word::get_word(round, Round::RUNNING_NUMBER);
    let done = lib_word::get_word(round, Round::POSITION);
    let event = format_layout::event_of(word);
    let start = format_layout::event_word(table, event, table::CODE_START);
    let length = format_layout::event_word(table, event, table::CODE_LENGTH);
    if length <= done {
        return answers::FOREIGN;
    }
    if run_stretch::execute_from(&*table, round, (start + done) as usize, 1) != 0 {
        return answers::FOREIGN;
    }
    if done + 1 < length {
        lib_word::put_word(round, Round::POSITION, done + 1);
        return answers::RAN;
    }
    let mark = lib_word::get_word(round, Round::MARK);
    lib_word::put_word(round, Round::RUNNING, 0);
    commit_of(number, word, mark)
}
