// The value that the board would show after an arrival and everything in hand had been run to idle, tried on a copy of
// the round. The arrival judges table and round, and the steps on the copy are not judged again.

#![tactic(auto)]

ghost use Rattle.std.specs.Prelude.{◌≡◌, ◌+◌, ◌≤◌, ◌<◌};
ghost use Rattle.format_layout.specs.Bounds.{TableBounds};
ghost use Rattle.format_layout.specs.Round.{call_result};
ghost use Rattle.run_step.specs.Sound.{RoundSound};
ghost use Rattle.run_preview.specs.Preview.{to_idle, in_hand, preview_steps, shown_in, preview_copy, preview_on};
ghost use Rattle.format_layout.specs.Sizes.{arrival_limit, queue_limit};
ghost use Rattle.spec_language.specs.Verdicts.{told_number};

use format_layout::round::Round;
use spec_language::answers;
use spec_language::refusals::Refusal;

// ---- to idle

// At most so many steps, until one is idle or refused; 14 where none of them was.
fn run_to_idle(table: &[u8], round: &mut [u8], most: u32) -> u64
    requires { RoundSound table.now round.old }
    ensures { call_result result round.new ≡ to_idle table.now most round.old }
{
    let mut left = most;
    while left > 0 {
        let stop = run_burst::burst_on(&*table, round, left);
        let answer = stop.answer;
        left = stop.left;
        if run_burst::is_unmade(answer) {
            return answer;
        }
    }
    answers::FOREIGN
}

// n wait, and one runs where f is not 0.
#[tactic(auto, using(lib_base::proofs::Pick::branches), unfolding(crate::specs::Preview::in_hand))]
pub fn in_hand(n: u32, f: u32) -> u32
    requires { n ≤ queue_limit }
    ensures value { result ≡ in_hand n f }
    ensures upper_bound { result ≤ queue_limit + 1 }
{
    n + u32::from(f != 0)
}

// 01's count of steps to idle.
#[tactic(auto, unfolding(crate::specs::Preview::preview_steps))]
fn count_of(table: &[u8], round: &[u8]) -> u32
    requires { TableBounds table.now × RoundSound table.now round.now }
    ensures value { result ≡ preview_steps table.now round.now }
    ensures upper_bound { result ≤ arrival_limit }
{
    let hand = in_hand(
        lib_word::get_word(round, Round::WAITING),
        lib_word::get_word(round, Round::RUNNING),
    );
    let events = lib_word::get_word(table, format_layout::table::EVENT_COUNT);
    run_forecast::bound_of(hand, run_forecast::longest_of(&*table, events))
}

// ---- the preview

// The copy is run to idle: 01's count of steps, and one more that finds it idle. The behaviour's value then, or 14.
#[tactic(auto, using(lib_base::proofs::Pick::branches), unfolding(crate::specs::Preview::preview_answer, crate::specs::Preview::shown_in))]
fn shown_in(table: &[u8], round: &mut [u8], behaviour: u32) -> Result<u32, Refusal>
    requires { TableBounds table.now × RoundSound table.now round.old × (behaviour < queue_limit) }
    ensures { told_number result
        ≡ shown_in (to_idle table.now (preview_steps table.now round.old + 1) round.old) behaviour }
{
    let most = count_of(&*table, round);
    if run_to_idle(&*table, round, most + 1) != answers::IDLE {
        return Err(Refusal::Foreign);
    }
    Ok(lib_word::get_word(round, Round::STORE + (behaviour as usize)))
}

// The round is the copy. Refused as the arrival is (14, 24, 15, 25, 16, 17), then by 18 and 25, last by 14 where a step
// on the copy is or 01's count runs out.
#[tactic(auto, using(crate::proofs::Opened::after_opened, spec_language::proofs::Refused::refusal_not_0), unfolding(crate::specs::Preview::preview_copy))]
fn preview_copy(
    table: &[u8],
    round: &mut [u8; Round::BYTES],
    event: u32,
    behaviour: u32,
    player: u32,
) -> Result<u32, Refusal>
    ensures { told_number result ≡ preview_copy table.now round.old event behaviour player }
{
    run_arrive::take_in(&*table, round, event, player)?;
    if lib_word::get_word(table, format_layout::table::BEHAVIOUR_COUNT) <= behaviour {
        return Err(Refusal::NoBehaviour);
    }
    if !run_rights::may_see(&*table, behaviour, player) {
        return Err(Refusal::NoRight);
    }
    shown_in(&*table, round, behaviour)
}

// The value of a behaviour once a player's event has arrived and everything in hand is run to idle, or the refusal.
#[tactic(auto, using(lib_base::proofs::Pick::branches), unfolding(crate::specs::Preview::preview_on))]
fn read_preview(
    table: &[u8],
    round: &[u8],
    event: u32,
    behaviour: u32,
    player: u32,
) -> Result<u32, Refusal>
    ensures { told_number result ≡ preview_on table.now round.now event behaviour player }
{
    if round.len() < Round::BYTES {
        return Err(Refusal::Foreign);
    }
    let mut copy = [0u8; Round::BYTES];
    copy.copy_from_slice(&round[0..Round::BYTES]);
    preview_copy(&*table, &mut copy, event, behaviour, player)
}

// The same as a number: 2 ^ 32 and the word; or 14 to 18, 24 or 25.
pub fn preview_at(table: &[u8], round: &[u8], event: u32, behaviour: u32, player: u32) -> u64
    ensures { result ≡ preview_on table.now round.now event behaviour player }
{
    answers::answer_of(read_preview(table, round, event, behaviour, player))
}
