// The table and the round as words, and which tables are foreign. Layout: specs/Layout.antt.

#![tactic(auto)]

ghost use Rattle.std.specs.Prelude.{◌≡◌, true, ◌+◌, ◌*◌, ◌≤◌, ◌<◌, length};
ghost use Rattle.lib_word.specs.Word.{get};
ghost use Rattle.format_layout.specs.Layout.{event_word, event_of, player_of};
ghost use Rattle.format_layout.specs.Foreign.{code_fits, codes_fit, table_fits};
ghost use Rattle.format_layout.specs.Bounds.{TableBounds};
ghost use Rattle.format_layout.specs.Sizes.{record_length, table_bytes};
ghost use Rattle.lib_base.specs.Words.{word_bytes};
ghost use Rattle.spec_language.specs.Limits.{event_limit};

use round::Round;
use spec_language::limits;

pub mod operations;
pub mod round;
pub mod table;

const EVENTS: u32 = limits::EVENTS as u32;

const BEHAVIOURS: u32 = limits::BEHAVIOURS as u32;

const INSTRUCTIONS: u32 = limits::INSTRUCTIONS as u32;

// Word k of an event's record in the table: its priority, the start of its code, the code's length, the members of C.
pub fn event_word(table: &[u8], event: u32, k: usize) -> u32
    requires { (table_bytes ≤ length table.now) × (k < record_length) }
    ensures { result ≡ event_word table.now event k }
{
    if event < EVENTS {
        return lib_word::get_word(
            table,
            table::EVENTS + (event as usize) * table::EVENT_WORDS + k,
        );
    }
    0
}

// The event and the player of an arrival in hand, from their word.
pub fn event_of(word: u32) -> u32
    ensures { result ≡ event_of word }
{
    word % Round::PLAYER
}

pub fn player_of(word: u32) -> u32
    ensures { result ≡ player_of word }
{
    word / Round::PLAYER
}

// The event of the arrival in hand whose word is word k of the round.
pub fn event_at(round: &[u8], k: usize) -> u32
    requires { k * word_bytes + word_bytes ≤ length round.now }
    ensures { result ≡ event_of (get round.now k) }
{
    event_of(lib_word::get_word(round, k))
}

// Whether code from `start` on, of len instructions, lies within 4,096.
pub fn code_fits(start: u32, len: u32) -> bool
    ensures { result ≡ code_fits start len }
{
    if start > INSTRUCTIONS {
        return false;
    }
    len <= INSTRUCTIONS - start
}

// Whether the code of each of the first n events does.
fn codes_fit(table: &[u8], n: u32) -> bool
    requires { (table_bytes ≤ length table.now) × (n ≤ event_limit) }
    ensures { result ≡ codes_fit table.now n }
{
    for i in (0..n).rev() {
        let start = event_word(table, i, table::CODE_START);
        if !code_fits(start, event_word(table, i, table::CODE_LENGTH)) {
            return false;
        }
    }
    true
}

// Whether a table is not foreign: 01's conditions on it.
pub fn table_fits(table: &[u8]) -> bool
    ensures value { result ≡ table_fits table.now }
    ensures table_bounds { result ≡ true → TableBounds table.now }
{
    if table.len() < table::BYTES {
        return false;
    }
    let events = lib_word::get_word(table, table::EVENT_COUNT);
    if events > EVENTS {
        return false;
    }
    if lib_word::get_word(table, table::BEHAVIOUR_COUNT) > BEHAVIOURS {
        return false;
    }
    codes_fit(table, events)
}
