// Declarations of a sheet's text before its behaviours: parameters and events, and who may send or see. The places of
// the names go to lent arrays, the events' fields to the sheet's bytes. Time: one pass over the text, and each name is
// compared with those before it.

#![tactic(auto)]

ghost use Rattle.std.specs.Prelude.{◌≡◌, [], ◌∷◌, ◌||◌, ℕ, ◌≤◌, ◌+◌, ◌*◌, ◌/◌, ◌%◌, length, set, eqb};
ghost use Rattle.std.proofs.lemmas.List.Edits.{sets};
ghost use Rattle.lib_bits.specs.Bits.{bit};
ghost use Rattle.source_language.specs.Tokens.{sign, param_word, event_keyword};
ghost use Rattle.source_language.specs.Reader.{more_players, players_of, from_of, seen_of, default_of, parameter_of, event_declared};
ghost use Rattle.source_coding.specs.Places.{tokens_from, name_at, names_held};
ghost use Rattle.source_declarations.specs.Players.{players_said, RightsRead, RightsWithin};
ghost use Rattle.source_declarations.specs.Declarations.{ranked_of, ParameterRead, ParameterWithin, TextEventRead, EventWithin};
ghost use Rattle.source_declarations.specs.Declarations.{parameters_declared, events_declared, ParametersRead, EventsReadable, EventsRead, DeclaredWithin};
ghost use Rattle.source_coding.specs.Bounds.{growth, name_limit, text_bytes};
ghost use Rattle.spec_language.specs.Limits.{event_limit, highest_player};

use sheet_write::UNSAID;
use source_coding::faults::{Fault, Kind};
use source_coding::{limits, signs};
use source_due::{Due, Found, name_due, number_due, sign_due};
use source_tokens::Token;
use spec_language::limits as sheet;

// Who may send or see: the place behind it, and the players' bits, 256 where nothing is said.
#[derive(Clone, Copy, Drop)]
pub struct Given {
    pub next: usize,
    pub bits: u64,
}

pub type Rights = Result<Given, Fault>;

// An event: the place of its name, its rank, its players' bits, and the place behind it.
#[derive(Clone, Copy, Drop)]
struct Event {
    place: usize,
    rank: u64,
    bits: u64,
    next: usize,
}

// Declarations of a kind: the place behind them, how many they are, and the end of the bytes written.
#[derive(Clone, Copy, Drop)]
pub struct Declared {
    pub next: usize,
    pub count: usize,
    pub end: usize,
}

// The bits of players, with the one of this player.
fn with_player(bits: u64, player: u64) -> u64
    requires { player ≤ highest_player }
    ensures { (i : ℕ) → bit result i ≡ bit bits i || eqb i player }
{
    lib_bits::insert(bits, player as usize)
}

// Players by number, as many as stand there.
fn more_players(text: &[u8], at: usize) -> Rights
    requires text_len_bound { length text.now ≤ text_bytes }
    requires at_in_bounds { at ≤ length text.now }
    ensures rights_read { RightsRead text.now result (players_said (more_players (tokens_from text.now at))) }
    ensures rights_within { RightsWithin (length text.now) at result }
{
    let mut here = at;
    let mut bits = 0u64;
    while let Token::Number(place, player, next) = source_tokens::token_at(text, here) {
        if limits::LARGEST < player {
            return Err(Fault {
                kind: Kind::LargeNumber,
                place,
            });
        }
        if limits::HIGHEST_PLAYER < player {
            return Err(Fault {
                kind: Kind::OffScale,
                place,
            });
        }
        bits = with_player(bits, player);
        here = next;
    }
    Ok(Given { next: here, bits })
}

// Players: `nobody`, or one or more numbers.
fn players_at(text: &[u8], at: usize) -> Rights
    requires text_len_bound { length text.now ≤ text_bytes }
    requires at_in_bounds { at ≤ length text.now }
    ensures rights_read { RightsRead text.now result (players_said (players_of (tokens_from text.now at))) }
    ensures rights_within { RightsWithin (length text.now) at result }
{
    match source_tokens::token_at(text, at) {
        Token::Number(_, _, _) => more_players(text, at),
        Token::Name(place, _) => Err(Fault {
            kind: Kind::Outside,
            place,
        }),
        Token::Sign(place, c, next) => {
            if c != signs::NOBODY {
                return Err(Fault {
                    kind: Kind::Outside,
                    place,
                });
            }
            Ok(Given { next, bits: 0 })
        }
    }
}

// Who may send an event, `from ..`.
fn from_at(text: &[u8], at: usize) -> Rights
    requires text_len_bound { length text.now ≤ text_bytes }
    requires at_in_bounds { at ≤ length text.now }
    ensures rights_read { RightsRead text.now result (from_of (tokens_from text.now at)) }
    ensures rights_within { RightsWithin (length text.now) at result }
{
    let Ok(from) = sign_due(text, at, signs::FROM) else {
        return Ok(Given {
            next: at,
            bits: UNSAID,
        });
    };
    players_at(text, from.next)
}

// Who may see a behaviour, `seen by ..`.
pub fn seen_at(text: &[u8], at: usize) -> Rights
    requires text_len_bound { length text.now ≤ text_bytes }
    requires at_in_bounds { at ≤ length text.now }
    ensures rights_read { RightsRead text.now result (seen_of (tokens_from text.now at)) }
    ensures rights_within { RightsWithin (length text.now) at result }
{
    let Ok(seen) = sign_due(text, at, signs::SEEN) else {
        return Ok(Given {
            next: at,
            bits: UNSAID,
        });
    };
    let by = sign_due(text, seen.next, signs::BY)?;
    players_at(text, by.next)
}

// The parameter whose name stands at a place, from the place behind that on: its default value, where it has one.
fn default_at(text: &[u8], place: usize, at: usize) -> Due
    requires text_len_bound { length text.now ≤ text_bytes }
    requires at_in_bounds { at ≤ length text.now }
    ensures parameter_read { ParameterRead text.now result (default_of (name_at text.now place) (tokens_from text.now at)) }
    ensures parameter_within { ParameterWithin (length text.now) at result }
{
    let Ok(equals) = sign_due(text, at, signs::EQUALS) else {
        return Ok(Found {
            place,
            number: 0,
            next: at,
        });
    };
    let value = source_due::value_at(text, equals.next)?;
    Ok(Found {
        place,
        number: 0,
        next: value.next,
    })
}

// A parameter, from the place behind its word on, which stands at p: the place of its name, and the place behind it.
fn parameter_at(text: &[u8], p: usize, at: usize, names: &[usize], count: usize) -> Due
    requires text_len_bound { length text.now ≤ text_bytes }
    requires at_in_bounds { at ≤ length text.now }
    requires p_le_at { p ≤ at }
    requires count_in_bounds { count ≤ length names.now }
    ensures parameter_read { ParameterRead text.now result
        (parameter_of (names_held text.now names.now count)
        (sign p param_word ∷ tokens_from text.now at)) }
    ensures parameter_within { ParameterWithin (length text.now) at result }
{
    if sheet::PARAMETERS <= count {
        return Err(Fault {
            kind: Kind::TooMany,
            place: p,
        });
    }
    let Found { place, next, .. } = name_due(text, at)?;
    if source_names::is_among(text, place, names, count) {
        return Err(Fault {
            kind: Kind::DeclaredTwice,
            place,
        });
    }
    default_at(text, place, next)
}

// The parameters from place `at` on. The places of their names are the first of `names`.
pub fn parameters_at(text: &[u8], at: usize, names: &mut [usize]) -> Result<Declared, Fault>
    requires text_len_bound { length text.now ≤ text_bytes }
    requires at_in_bounds { at ≤ length text.now }
    requires names_len { length names.old ≡ name_limit }
    ensures parameters_read { ParametersRead text.now names.new result (parameters_declared (tokens_from text.now at)) }
    ensures declared_within { DeclaredWithin (length text.now) at result }
    ensures names_len_2 { length names.new ≡ name_limit }
{
    let mut here = at;
    let mut count = 0usize;
    while let Ok(word) = sign_due(text, here, signs::PARAM) {
        let parameter = parameter_at(text, word.place, word.next, names, count)?;
        names[count] = parameter.place;
        count += 1;
        here = parameter.next;
    }
    Ok(Declared {
        next: here,
        count,
        end: 0,
    })
}

// The event whose name stands at a place, from the place behind that on.
fn ranked_at(text: &[u8], place: usize, at: usize) -> Result<Event, Fault>
    requires text_len_bound { length text.now ≤ text_bytes }
    requires at_in_bounds { at ≤ length text.now }
    ensures text_event_read { TextEventRead text.now result (ranked_of (name_at text.now place) (tokens_from text.now at)) }
    ensures event_within { EventWithin (length text.now) at result }
{
    let word = sign_due(text, at, signs::RANK)?;
    let rank = number_due(text, word.next, limits::LARGEST)?;
    if (sheet::HIGHEST_PRIORITY as u64) < rank.number {
        return Err(Fault {
            kind: Kind::OffScale,
            place: rank.place,
        });
    }
    let Given { next, bits } = from_at(text, rank.next)?;
    Ok(Event {
        place,
        rank: rank.number,
        bits,
        next,
    })
}

// An event, from the place behind its word on, which stands at p.
fn event_from(
    text: &[u8],
    p: usize,
    at: usize,
    events: &[usize],
    count: usize,
) -> Result<Event, Fault>
    requires text_len_bound { length text.now ≤ text_bytes }
    requires at_in_bounds { at ≤ length text.now }
    requires p_le_at { p ≤ at }
    requires count_in_bounds { count ≤ length events.now }
    ensures text_event_read { TextEventRead text.now result
        (event_declared (names_held text.now events.now count)
        (sign p event_keyword ∷ tokens_from text.now at)) }
    ensures event_within { EventWithin (length text.now) at result }
{
    if sheet::EVENTS <= count {
        return Err(Fault {
            kind: Kind::TooMany,
            place: p,
        });
    }
    let Found { place, next, .. } = name_due(text, at)?;
    if source_names::is_among(text, place, events, count) {
        return Err(Fault {
            kind: Kind::DeclaredTwice,
            place,
        });
    }
    ranked_at(text, place, next)
}

// The events from place `at` on. The places of their names are the first of `events`; their fields are written from
// place n on, as far as there is room for each.
pub fn events_at(
    text: &[u8],
    at: usize,
    events: &mut [usize],
    out: &mut [u8],
    n: usize,
) -> Result<Declared, Fault>
    requires { EventsReadable text.now at events.old n }
    ensures events_read { EventsRead text.now events.new n out.old out.new result
        (events_declared (tokens_from text.now at)) }
    ensures declared_within { DeclaredWithin (length text.now) at result }
    ensures events_len { (length events.new ≡ event_limit) × (length out.new ≡ length out.old) }
{
    let mut here = at;
    let mut count = 0usize;
    let mut end = n;
    while let Ok(word) = sign_due(text, here, signs::EVENT) {
        let event = event_from(text, word.place, word.next, events, count)?;
        events[count] = event.place;
        end = sheet_write::put_event(out, end, event.rank as u8, event.bits);
        count += 1;
        here = event.next;
    }
    Ok(Declared {
        next: here,
        count,
        end,
    })
}
