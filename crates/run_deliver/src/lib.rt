// Deliveries: entry `number` of an order is taken in once and in its place. Where the hand is full, steps are made
// until one commits: one commit makes room. And what is taken in and in hand.

#![tactic(auto)]

ghost use Rattle.std.specs.Prelude.{◌≡◌, ◌<◌, IfOk};
ghost use Rattle.format_layout.specs.Bounds.{Bounds};
ghost use Rattle.format_layout.specs.Layout.{taken, event_count, senders_at};
ghost use Rattle.run_step.specs.Sound.{RoundSound};
ghost use Rattle.run_frame.specs.Frame.{frame_said};
ghost use Rattle.run_deliver.specs.Deliver.{delivery_refusal, deliver_full, deliver_known, deliver_on, taken_on};
ghost use Rattle.run_deliver.specs.Delivery.{delivery};
ghost use Rattle.run_deliver.specs.Told.{answer_number};
ghost use Rattle.run_deliver.specs.Outcomes.{delivery_end};
ghost use Rattle.format_layout.specs.Sizes.{arrival_limit};
ghost use Rattle.spec_language.specs.Limits.{event_limit, player_limit};
ghost use Rattle.spec_language.specs.Verdicts.{verdict_number};

use format_layout::round::Round;
use spec_language::answers;
use spec_language::refusals::Refusal;

// How a delivery ends that is not refused: taken in; no room for a commit; a step refused by 14.
#[derive(Clone, Copy, PartialEq, Eq, Debug, Drop)]
pub enum Outcome {
    Delivered = 1,
    NoCommitRoom = 2,
    BrokenOff = 3,
}

// The steps made at most: twice the instructions that a table has room for.
const MOST_STEPS: u32 = 8192;
// What stands above the number taken in, so that it is no refusal's number; and what each in hand counts.
const IN_HAND: u64 = 1099511627776;
// The kinds of a step's answer.
const KINDS: u64 = answers::PLAYER;

const COMMIT_BYTES: usize = run_answers::ANSWER_BYTES;

// The answer of a delivery that is not refused.
fn delivery_answer(outcome: Outcome, made: u32, written: u32) -> u64
    requires { written < 2 }
    ensures { result ≡ frame_said (delivery_end outcome) made written }
{
    run_frame::packed_end(outcome as u64, made, written)
}

// Why a delivery is refused whose table and round are judged: the first of 43, 44, 24, 15, 25 and 17 that fits.
#[tactic(auto, using(lib_base::proofs::Pick::branches), unfolding(run_arrive::specs::Arrivals::sending, crate::specs::Deliver::delivery_refusal))]
fn judge_entry(
    table: &[u8],
    round: &[u8],
    number: u32,
    event: u32,
    player: u32,
) -> Result<(), Refusal>
    requires { Bounds table.now round.now }
    ensures value { verdict_number result
        ≡ delivery_refusal (taken round.now) (event_count table.now) (senders_at table.now event) number event player }
    ensures in_limits { IfOk result (λ u. (player < player_limit) × (event < event_limit) × (number < arrival_limit)) }
{
    let before = lib_word::get_word(round, Round::TAKEN);
    if before < number {
        return Err(Refusal::MissingEntries);
    }
    if number < before {
        return Err(Refusal::TakenBefore);
    }
    run_arrive::judge_sender(table, event, player)?;
    if number >= Round::ARRIVALS {
        return Err(Refusal::Spent);
    }
    Ok(())
}

// Into a full hand: steps until one commits, whose answer is written, and then the entry joins.
#[tactic(auto, using(crate::proofs::Laws::joining), unfolding(crate::specs::Deliver::deliver_after, crate::specs::Deliver::deliver_full))]
fn deliver_full(
    table: &[u8],
    round: &mut [u8],
    number: u32,
    event: u32,
    player: u32,
    commits: &mut [u8],
) -> u64
    requires { RoundSound table.now round.old × (number < arrival_limit) × (event < event_limit) × (player < player_limit) }
    ensures { delivery result round.new commits.new
        ≡ deliver_full table.now round.old number event player commits.old }
{
    if commits.len() < COMMIT_BYTES {
        return delivery_answer(Outcome::NoCommitRoom, 0, 0);
    }
    let stop = run_burst::burst_on(&*table, round, MOST_STEPS);
    let answer = stop.answer;
    let made = MOST_STEPS - stop.left;
    if answer % KINDS != answers::COMMITTED {
        return delivery_answer(Outcome::BrokenOff, made, 0);
    }
    run_arrive::admit(round, number, event, player);
    run_answers::put_answer(commits, 0, answer);
    delivery_answer(Outcome::Delivered, made, 1)
}

// None of the refusals fits.
#[tactic(auto, using(crate::proofs::Laws::joining), unfolding(crate::specs::Deliver::deliver_known))]
fn deliver_known(
    table: &[u8],
    round: &mut [u8],
    number: u32,
    event: u32,
    player: u32,
    commits: &mut [u8],
) -> u64
    requires { RoundSound table.now round.old × (number < arrival_limit) × (event < event_limit) × (player < player_limit) }
    ensures { delivery result round.new commits.new
        ≡ deliver_known table.now round.old number event player commits.old }
{
    let waiting = lib_word::get_word(round, Round::WAITING);
    if run_arrive::is_full(waiting, lib_word::get_word(round, Round::RUNNING)) {
        return deliver_full(&*table, round, number, event, player, commits);
    }
    run_arrive::admit(round, number, event, player);
    delivery_answer(Outcome::Delivered, 0, 0)
}

// Entry `number` of an order, refused by the first of 14, 43, 44, 24, 15, 25 and 17 that fits, and then nothing is
// changed; else how it ended, the commits written and the steps made.
#[tactic(auto, using(spec_language::proofs::Refused::refusal_not_0), unfolding(crate::specs::Deliver::deliver_with, crate::specs::Deliver::deliver_on))]
fn take_entry(
    table: &[u8],
    round: &mut [u8],
    number: u32,
    event: u32,
    player: u32,
    commits: &mut [u8],
) -> Result<u64, Refusal>
    ensures { delivery (answer_number result) round.new commits.new
        ≡ deliver_on table.now round.old number event player commits.old }
{
    if !run_validate::is_ours(&*table, round) {
        return Err(Refusal::Foreign);
    }
    judge_entry(&*table, &*round, number, event, player)?;
    Ok(deliver_known(&*table, round, number, event, player, commits))
}

// The same as a number: a refusal's, or the answer of one that is not refused.
pub fn deliver_at(
    table: &[u8],
    round: &mut [u8],
    number: u32,
    event: u32,
    player: u32,
    commits: &mut [u8],
) -> u64
    ensures { delivery result round.new commits.new
        ≡ deliver_on table.now round.old number event player commits.old }
{
    match take_entry(table, round, number, event, player, commits) {
        Ok(answer) => answer,
        Err(refusal) => u64::from(refusal.number()),
    }
}

// ---- what is taken in

// 2 ^ 32, the number taken in, and 2 ^ 40 for each in hand; or 14.
#[tactic(auto, using(lib_base::proofs::Pick::branches), unfolding(crate::specs::Deliver::taken_on))]
pub fn taken_at(table: &[u8], round: &[u8]) -> u64
    ensures { result ≡ taken_on table.now round.now }
{
    if !run_validate::is_ours(&*table, round) {
        return answers::FOREIGN;
    }
    let hand = run_preview::in_hand(
        lib_word::get_word(round, Round::WAITING),
        lib_word::get_word(round, Round::RUNNING),
    );
    answers::VALUE + (lib_word::get_word(round, Round::TAKEN) as u64) + (hand as u64) * IN_HAND
}
