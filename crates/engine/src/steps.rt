// Recorded steps in a row: table and round are judged once for all of them.
ghost use Rattle.std.specs.Prelude.{◌≡◌, ◌+◌, ◌*◌, ◌≤◌, ◌<◌, length};
ghost use Rattle.run_step.specs.Sound.{RoundSound};
ghost use Rattle.engine.specs.Kinds.{IsKind};
ghost use Rattle.engine.specs.RowOfSteps.{RowOfSteps};

// The bytes of a recorded call, of which the first is its kind.
pub const CALL_BYTES: usize = 6;

// Any byte but an arrival's and a step's is a board reading's.
#[derive(Clone, Copy, PartialEq, Eq, Debug, Drop)]
pub enum CallKind {
    Arrival,
    Step,
    Board,
}

impl From<u8> for CallKind {
    ghost from_gives = { λ byte kind. IsKind byte kind };

    fn from(byte: u8) -> CallKind {
        match byte {
            0 => CallKind::Arrival,
            1 => CallKind::Step,
            _ => CallKind::Board,
        }
    }
}

// The recorded steps from call i on, up to call n or one of another kind; table and round are judged. Where they end.
fn steps_from(
    table: &[u8],
    round: &mut [u8],
    calls: &[u8],
    i: usize,
    n: usize,
    answers: &mut [u8],
) -> usize
    requires { RoundSound table.now round.old × (i ≤ n) × (n * 6 ≤ length calls.now) × (n * 8 ≤ length answers.old) }
    ensures { RowOfSteps table.now calls.now n i round.old
        answers.old result round.new answers.new }
{
    let mut outranked = run_step::is_outranked(&*table, round);
    for at in i..n {
        let CallKind::Step = CallKind::from(calls[at * CALL_BYTES]) else {
            return at;
        };
        let answer = run_step::step_on(&*table, round, outranked);
        outranked = run_step::is_outranked_after(outranked, answer);
        run_answers::put_answer(answers, at, answer);
    }
    n
}

// Steps in a row are judged once. Where those end that begin at call i: there where call i is none, or table or round
// is foreign.
pub fn past_steps(
    table: &[u8],
    round: &mut [u8],
    calls: &[u8],
    i: usize,
    n: usize,
    answers: &mut [u8],
) -> usize
    requires { (i < n) × (n * 6 ≤ length calls.now) × (n * 8 ≤ length answers.old) }
    ensures { RowOfSteps table.now calls.now n i round.old
        answers.old result round.new answers.new }
{
    let CallKind::Step = CallKind::from(calls[i * CALL_BYTES]) else {
        return i;
    };
    if !run_validate::is_ours(&*table, round) {
        return i;
    }
    steps_from(&*table, round, &*calls, i, n, answers)
}
