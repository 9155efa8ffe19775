// Which rounds are foreign: 01's conditions, on the round's bytes beside the table's.

#![tactic(auto)]

ghost use Rattle.std.specs.Prelude.{◌≡◌, true, ◌≤◌, length};
ghost use Rattle.lib_word.specs.Halves.{swap_bytes};
ghost use Rattle.format_layout.specs.Layout.{event_word, running_flag, running_word, running_event, position};
ghost use Rattle.format_layout.specs.Foreign.{hand_fits, slots_fit, running_fits, ours};
ghost use Rattle.format_layout.specs.Bounds.{Bounds};
ghost use Rattle.format_layout.specs.Sizes.{queue_limit, round_bytes, table_bytes};

use format_layout::round::Round;
use format_layout::table;
use spec_language::limits;

const STACK: u32 = limits::STACK as u32;

// The byte of the first waiting one's word of event and player, and the bytes of a slot of the queue.
const FIRST_SLOT: usize = Round::WORDS * lib_word::WORD_BYTES;

const SLOT_BYTES: usize = 2 * lib_word::WORD_BYTES;

// Whether a word of event and player, its bytes swapped, is that of one of `known` events and one of eight players: the
// event is its highest byte, the player the next, and the others are 0.
fn hand_fits(known: u32, swapped: u32) -> bool
    ensures { result ≡ hand_fits known (swap_bytes swapped) }
{
    (swapped / lib_word::THREE_BYTE_VALUES < known)
        & (swapped % lib_word::HALF_VALUES == 0)
        & (swapped / lib_word::HALF_VALUES % lib_word::BYTE_VALUES < limits::PLAYERS)
}

// Whether the words of the first n waiting are. All are judged, with no way out between them, so that the compiler
// takes several at a time: as they lie in memory, and by steps of a whole slot, which are one load of several.
fn slots_fit(round: &[u8], known: u32, n: usize) -> bool
    requires { (round_bytes ≤ length round.now) × (n ≤ queue_limit) }
    ensures { result ≡ slots_fit round.now known n }
{
    let mut fit = true;
    for i in 0..n {
        let swapped = lib_word::get_little(round, FIRST_SLOT + i * SLOT_BYTES);
        fit &= hand_fits(known, swapped);
    }
    fit
}

// Whether nothing runs, or there is room in the hand for what runs, its word fits, and its position is in its code.
fn running_fits(table: &[u8], round: &[u8], known: u32, waiting: u32) -> bool
    requires { (table_bytes ≤ length table.now) × (round_bytes ≤ length round.now) }
    ensures { result ≡ running_fits waiting (running_flag round.now)
        (hand_fits known (running_word round.now)) (position round.now)
        (event_word table.now (running_event round.now) 2) }
{
    if lib_word::get_word(round, Round::RUNNING) == 0 {
        return true;
    }
    if waiting >= Round::QUEUE {
        return false;
    }
    let swapped = lib_word::get_little(round, Round::RUNNING_WORD * lib_word::WORD_BYTES);
    if !hand_fits(known, swapped) {
        return false;
    }
    let event = format_layout::event_at(round, Round::RUNNING_WORD);
    let length = format_layout::event_word(table, event, table::CODE_LENGTH);
    lib_word::get_word(round, Round::POSITION) < length
}

// Whether neither the table nor the round is foreign (01 "Why a call was turned down").
pub fn is_ours(table: &[u8], round: &[u8]) -> bool
    ensures value { result ≡ ours table.now round.now }
    ensures bounds { result ≡ true → Bounds table.now round.now }
{
    if !format_layout::table_fits(&*table) {
        return false;
    }
    if round.len() < Round::BYTES {
        return false;
    }
    let known = lib_word::get_word(table, table::EVENT_COUNT);
    let waiting = lib_word::get_word(round, Round::WAITING);
    if waiting > Round::QUEUE {
        return false;
    }
    if lib_word::get_word(round, Round::DEPTH) > STACK {
        return false;
    }
    if !running_fits(table, round, known, waiting) {
        return false;
    }
    slots_fit(round, known, waiting as usize)
}
