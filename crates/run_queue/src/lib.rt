// The queue in the round's bytes: the choice of the next, and writing a waiting arrival.

#![tactic(auto)]

ghost use Rattle.std.specs.Prelude.{◌≡◌, ◌+◌, ◌*◌, ◌≤◌, ◌<◌, length};
ghost use Rattle.format_layout.specs.Layout.{event_word, event_at, waiting_count};
ghost use Rattle.run_queue.specs.Queue.{EventsKnown, ahead, best, any_above, put_slot, in_hand_last};
ghost use Rattle.format_layout.specs.Sizes.{queue_limit, round_bytes, table_bytes};
ghost use Rattle.spec_language.specs.Limits.{event_limit};

use format_layout::round::Round;
use format_layout::table;

// Priority p, number n goes before priority q, number m.
fn is_ahead(p: u32, n: u32, q: u32, m: u32) -> bool
    ensures { result ≡ ahead p n q m }
{
    if p < q {
        return false;
    }
    if q < p {
        return true;
    }
    n < m
}

// The priority of what waits in slot i, its event being known: no test for that is made slot by slot.
fn priority_at(table: &[u8], round: &[u8], i: usize) -> u32
    requires { (table_bytes ≤ length table.now) × (round_bytes ≤ length round.now) × (i < queue_limit) × (event_at round.now i < event_limit) }
    ensures { result ≡ event_word table.now (event_at round.now i) 0 }
{
    let event = format_layout::event_at(round, Round::WORDS + i * 2);
    lib_word::get_word(
        table,
        table::EVENTS + (event as usize) * table::EVENT_WORDS + table::PRIORITY,
    )
}

// The slot that goes before all others of the first n.
pub fn best_of(table: &[u8], round: &[u8], n: usize) -> usize
    requires { (table_bytes ≤ length table.now) × (round_bytes ≤ length round.now) × (0 < n) × (n ≤ queue_limit) × EventsKnown round.now n }
    ensures value { result ≡ best table.now round.now n }
    ensures upper_bound { result < queue_limit }
{
    let mut best = 0;
    let mut best_priority = priority_at(&*table, &*round, 0);
    let mut best_number = lib_word::get_word(round, Round::NUMBERS);
    for i in 1..n {
        let priority = priority_at(&*table, &*round, i);
        let number = lib_word::get_word(round, Round::NUMBERS + i * 2);
        if is_ahead(priority, number, best_priority, best_number) {
            best = i;
            best_priority = priority;
            best_number = number;
        }
    }
    best
}

// Whether one of the first n waiting has a priority above p.
pub fn is_any_above(table: &[u8], round: &[u8], p: u32, n: usize) -> bool
    requires { (table_bytes ≤ length table.now) × (round_bytes ≤ length round.now) × (n ≤ queue_limit) × EventsKnown round.now n }
    ensures { result ≡ any_above table.now round.now p n }
{
    for i in (0..n).rev() {
        if p < priority_at(table, round, i) {
            return true;
        }
    }
    false
}

// Arrival `number`, with the word of its event and player, waits in slot i.
pub fn put_slot(round: &mut [u8], i: usize, number: u32, word: u32)
    requires { (round_bytes ≤ length round.old) × (i < queue_limit) }
    ensures { round.new ≡ put_slot round.old i number word }
{
    lib_word::put_word(round, Round::NUMBERS + i * 2, number);
    lib_word::put_word(round, Round::WORDS + i * 2, word);
}

// Arrival `number`, with the word of its event and player, joins the hand, which has room for it.
#[tactic(auto, unfolding(crate::specs::Queue::in_hand_last))]
pub fn join_hand(round: &mut [u8], number: u32, word: u32)
    requires { (round_bytes ≤ length round.old) × (waiting_count round.old < queue_limit) }
    ensures { round.new ≡ in_hand_last round.old (waiting_count round.old) number word }
{
    let waiting = lib_word::get_word(round, Round::WAITING);
    put_slot(round, waiting as usize, number, word);
    lib_word::put_word(round, Round::WAITING, waiting + 1);
}
