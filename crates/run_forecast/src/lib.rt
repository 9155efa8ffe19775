// The steps to idle, read from the table's and the round's bytes: exact while nothing runs, else 01's bound. Refused by
// 14 where table or round is foreign.

#![tactic(auto)]

ghost use Rattle.std.specs.Prelude.{◌≡◌, ◌+◌, ◌*◌, ◌≤◌};
ghost use Rattle.format_layout.specs.Layout.{event_count, waiting_count};
ghost use Rattle.format_layout.specs.Bounds.{TableBounds, Bounds};
ghost use Rattle.run_forecast.specs.Forecast.{forecast_on};
ghost use Rattle.run_forecast.specs.Steps.{steps_in, longest_in};
ghost use Rattle.format_layout.specs.Sizes.{arrival_limit, queue_limit};
ghost use Rattle.spec_language.specs.Limits.{instruction_limit};
ghost use Rattle.spec_language.specs.Verdicts.{told_number};

use format_layout::round::Round;
use format_layout::table;
use spec_language::answers;
use spec_language::refusals::Refusal;

// A start and the instructions of each of the first n waiting.
fn steps_in(table: &[u8], round: &[u8], n: usize) -> u32
    requires { Bounds table.now round.now × (n ≤ waiting_count round.now) }
    ensures { result ≡ steps_in table.now round.now n }
{
    let mut steps = 0;
    for i in 0..n {
        let event = format_layout::event_at(round, Round::WORDS + i * 2);
        steps += format_layout::event_word(table, event, table::CODE_LENGTH) + 1;
    }
    steps
}

// The instructions of the longest of the first n events.
pub fn longest_of(table: &[u8], n: u32) -> u32
    requires { TableBounds table.now × (n ≤ event_count table.now) }
    ensures value { result ≡ longest_in table.now n }
    ensures upper_bound { result ≤ instruction_limit }
{
    let mut longest = 0;
    for event in 0..n {
        longest = format_layout::event_word(table, event, table::CODE_LENGTH).max(longest);
    }
    longest
}

// 01's bound, so many being in hand: (k + 1) * (L + 1), k being the number in hand, L the longest event's instructions.
pub fn bound_of(hand: u32, longest: u32) -> u32
    requires { (hand ≤ queue_limit + 1) × (longest ≤ instruction_limit) }
    ensures value { result ≡ (hand + 1) * (longest + 1) }
    ensures upper_bound { result ≤ arrival_limit }
{
    (hand + 1) * (longest + 1)
}

// The steps to idle if no arrival is taken in meanwhile, or 14.
#[tactic(auto, using(lib_base::proofs::Pick::branches, crate::proofs::Opened::forecast_opened))]
fn read_steps(table: &[u8], round: &[u8]) -> Result<u32, Refusal>
    ensures { told_number result ≡ forecast_on table.now round.now }
{
    if !run_validate::is_ours(&*table, &*round) {
        return Err(Refusal::Foreign);
    }
    let waiting = lib_word::get_word(round, Round::WAITING);
    // Nothing runs: the sum, over the hand, of each event's instructions plus one.
    if lib_word::get_word(round, Round::RUNNING) == 0 {
        return Ok(steps_in(table, round, waiting as usize));
    }
    // Something runs beside those that wait: 01's bound.
    let longest = longest_of(table, lib_word::get_word(table, table::EVENT_COUNT));
    Ok(bound_of(waiting + 1, longest))
}

// The same as a number: 2 ^ 32 and the steps, or 14.
pub fn forecast_at(table: &[u8], round: &[u8]) -> u64
    ensures { result ≡ forecast_on table.now round.now }
{
    answers::answer_of(read_steps(table, round))
}
