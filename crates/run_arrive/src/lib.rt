// Arrivals on the round's bytes, refused by 14 where table or round is foreign.

#![tactic(auto)]

ghost use Rattle.std.specs.Prelude.{◌≡◌, false, ◌≤◌, ◌<◌, length, IfOk};
ghost use Rattle.format_layout.specs.Layout.{event_count, senders_at, waiting_count};
ghost use Rattle.format_layout.specs.Bounds.{TableBounds};
ghost use Rattle.format_layout.specs.Round.{call_result};
ghost use Rattle.run_arrive.specs.Arrivals.{sending, queue_full, admit, arrive_on};
ghost use Rattle.format_layout.specs.Sizes.{arrival_limit, queue_limit, round_bytes};
ghost use Rattle.spec_language.specs.Limits.{event_limit, player_limit};
ghost use Rattle.spec_language.specs.Verdicts.{verdict_number};

use format_layout::round::Round;
use format_layout::table;
use spec_language::refusals::Refusal;
use spec_language::{limits, refusals};

// Whether the queue (01: hand) is full, so many waiting, and one running where the flag is not 0.
#[tactic(auto, using(lib_base::proofs::Pick::branches), unfolding(crate::specs::Arrivals::queue_full))]
pub fn is_full(waiting: u32, running: u32) -> bool
    ensures value { result ≡ queue_full waiting running }
    ensures waiting_lt_queue_limit { result ≡ false → waiting < queue_limit }
{
    if running == 0 {
        return waiting >= Round::QUEUE;
    }
    waiting >= Round::QUEUE - 1
}

// Whether a player may send an event: else the first of 24, 15 and 25 that fits.
#[tactic(auto, using(lib_base::proofs::Pick::branches), unfolding(crate::specs::Arrivals::sending))]
pub fn judge_sender(table: &[u8], event: u32, player: u32) -> Result<(), Refusal>
    requires { TableBounds table.now }
    ensures verdict { result ≡ sending (event_count table.now) (senders_at table.now event) event player }
    ensures in_limits { IfOk result (λ u. (player < player_limit) × (event < event_limit)) }
{
    if player >= limits::PLAYERS {
        return Err(Refusal::NoPlayer);
    }
    if lib_word::get_word(table, table::EVENT_COUNT) <= event {
        return Err(Refusal::UndeclaredEvent);
    }
    if !run_rights::may_send(table, event, player) {
        return Err(Refusal::NoRight);
    }
    Ok(())
}

// The event joins the hand, which has room for it, as arrival `number`, and one more is taken in.
pub fn admit(round: &mut [u8], number: u32, event: u32, player: u32)
    requires { (round_bytes ≤ length round.old) × (waiting_count round.old < queue_limit) × (number < arrival_limit) × (event < event_limit)
        × (player < player_limit) }
    ensures { round.new ≡ admit round.old event player (waiting_count round.old) number }
{
    run_queue::join_hand(round, number, player * Round::PLAYER + event);
    lib_word::put_word(round, Round::TAKEN, number + 1);
}

// An event arrives, sent by a player, and is taken in, or refused by the first of 14, 24, 15, 25, 16 and 17 that fits.
// What is taken in waits under the number taken in so far, which then grows by one.
#[tactic(auto, using(lib_base::proofs::Pick::branches, crate::proofs::Opened::arrive_opened), unfolding(crate::specs::Arrivals::sending))]
pub fn take_in(table: &[u8], round: &mut [u8], event: u32, player: u32) -> Result<(), Refusal>
    ensures round_after { call_result (verdict_number result) round.new ≡ arrive_on table.now round.old event player }
    ensures player_lt_player_limit { IfOk result (λ u. player < player_limit) }
{
    if !run_validate::is_ours(&*table, round) {
        return Err(Refusal::Foreign);
    }
    judge_sender(table, event, player)?;
    let waiting = lib_word::get_word(round, Round::WAITING);
    if is_full(waiting, lib_word::get_word(round, Round::RUNNING)) {
        return Err(Refusal::FullQueue);
    }
    let number = lib_word::get_word(round, Round::TAKEN);
    if number >= Round::ARRIVALS {
        return Err(Refusal::Spent);
    }
    admit(round, number, event, player);
    Ok(())
}

// The same as a number: 0 where the event is taken in, or the refusal's.
pub fn arrive_at(table: &[u8], round: &mut [u8], event: u32, player: u32) -> u32
    ensures round_after { call_result result round.new ≡ arrive_on table.now round.old event player }
    ensures player_lt_player_limit { result ≡ 0 → player < player_limit }
{
    refusals::verdict_number(take_in(table, round, event, player))
}
