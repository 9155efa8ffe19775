// A burst: steps up to the next commit, judged once by the caller. A stretch of instructions without a start, a
// preemption or a commit among them is run at once; every other step is `run_step`'s.

#![tactic(auto)]

ghost use Rattle.std.specs.Prelude.{◌≡◌, ◌≤◌, ◌<◌};
ghost use Rattle.run_step.specs.Sound.{RoundSound, is_outranked};
ghost use Rattle.run_burst.specs.Burst.{unmade, stops, burst, burst_on};
ghost use Rattle.run_burst.specs.Progress.{InstructionsRun, Advanced};

use format_layout::round::Round;
use spec_language::answers;

// The kinds of a step's answer.
const KINDS: u64 = answers::PLAYER;

// Where a burst ended: the last answer, and the steps left.
#[derive(Clone, Copy, PartialEq, Eq, Debug, Drop)]
pub struct Stop {
    pub answer: u64,
    pub left: u32,
}

// Whether a step that answers a is not made: idle, or refused.
#[tactic(auto, using(lib_base::proofs::Pick::branches), unfolding(crate::specs::Burst::unmade))]
pub fn is_unmade(a: u64) -> bool
    ensures { result ≡ unmade a }
{
    a == answers::IDLE || a == answers::FOREIGN
}

// Whether a burst ends where a step answers a.
#[tactic(auto, using(lib_base::proofs::Pick::branches), unfolding(crate::specs::Burst::stops))]
fn is_stop(a: u64) -> bool
    ensures { result ≡ stops a }
{
    is_unmade(a) || a % KINDS == answers::COMMITTED
}

// Up to `most` instructions of the running event, none of them its last, where something runs and is not outranked: how
// many were made, fewer where one may not run. Depth and position are written once.
fn run_most(table: &[u8], round: &mut [u8], most: u32, outranked: bool) -> u32
    requires { RoundSound table.now round.old × (is_outranked table.now round.old ≡ outranked) }
    ensures instructions_run { InstructionsRun table.now round.old result round.new }
    ensures upper_bound { result ≤ most }
{
    if outranked {
        return 0;
    }
    if lib_word::get_word(round, Round::RUNNING) == 0 {
        return 0;
    }
    let position = lib_word::get_word(round, Round::POSITION);
    let event = format_layout::event_at(round, Round::RUNNING_WORD);
    let length = format_layout::event_word(&*table, event, format_layout::table::CODE_LENGTH);
    if length <= position {
        return 0;
    }
    let start = format_layout::event_word(&*table, event, format_layout::table::CODE_START);
    let depth = lib_word::get_word(round, Round::DEPTH);
    let n = most.min(length - position - 1);
    let ran = run_stretch::run_from(&*table, round, (start + position) as usize, n, depth);
    let done = ran.done;
    lib_word::put_word(round, Round::DEPTH, ran.depth);
    lib_word::put_word(round, Round::POSITION, position + done);
    done
}

// Of `left` steps the instructions that can be made at once, and one step more.
fn run_then_step(table: &[u8], round: &mut [u8], left: u32, outranked: bool) -> Stop
    requires { RoundSound table.now round.old × (is_outranked table.now round.old ≡ outranked) × (0 < left) }
    ensures { Advanced table.now outranked left round.old result.answer result.left round.new }
{
    let done = run_most(&*table, round, left, outranked);
    if done == left {
        return Stop {
            answer: answers::RAN,
            left: 0,
        };
    }
    let answer = run_step::step_on(&*table, round, outranked);
    if is_unmade(answer) {
        return Stop {
            answer,
            left: left - done,
        };
    }
    Stop {
        answer,
        left: left - done - 1,
    }
}

// Up to `most` steps, until one commits, is idle or is refused.
pub fn burst_on(table: &[u8], round: &mut [u8], most: u32) -> Stop
    requires { RoundSound table.now round.old }
    ensures round_after { burst result.answer result.left round.new ≡ burst_on table.now most round.old }
    ensures round_sound { RoundSound table.now round.new }
{
    let mut outranked = run_step::is_outranked(&*table, round);
    let mut left = most;
    while left > 0 {
        let stop = run_then_step(&*table, round, left, outranked);
        let answer = stop.answer;
        left = stop.left;
        if is_stop(answer) {
            return Stop { answer, left };
        }
        outranked = run_step::is_outranked_after(outranked, answer);
    }
    Stop {
        answer: answers::RAN,
        left: 0,
    }
}
