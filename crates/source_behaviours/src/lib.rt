// Behaviours, and a whole sheet's text, read from left to right; the sheet's bytes written on the way. Time: one pass
// over the text, and each name is compared with those before it.

#![tactic(auto)]

ghost use Rattle.std.specs.Prelude.{◌≡◌, ◌≤◌, length, take};
ghost use Rattle.lib_base.specs.Basics.{All};
ghost use Rattle.source_language.specs.Reader.{read_text};
ghost use Rattle.source_coding.specs.Places.{tokens_from, names_held};
ghost use Rattle.source_names.specs.Known.{meaning_by};
ghost use Rattle.source_due.specs.Due.{DueWithin};
ghost use Rattle.source_handlers.specs.Parts.{DueRead};
ghost use Rattle.source_behaviours.specs.Behaviours.{new_name, closed_cells, counted_cells, cells_said, numbers_taken};
ghost use Rattle.source_behaviours.specs.Behaviours.{NamedAt, CountIs, CellsWithin, ClosedWithin, WordRead};
ghost use Rattle.source_behaviours.specs.Behaviours.{WordWithin, BehaviourRead, BehaviourWithin, BehavioursRead, BehavioursWithin};
ghost use Rattle.source_behaviours.specs.Behaviours.{EndFault};
ghost use Rattle.source_behaviours.specs.Usable.{HeadingUsable, BegunUsable};
ghost use Rattle.source_behaviours.specs.Whole.{LookupUsable, TextRead, EndWithin};
ghost use Rattle.source_coding.specs.Bounds.{first_cells, name_limit, text_bytes};
ghost use Rattle.spec_language.specs.Limits.{behaviour_limit, most_cells, sheet_bytes};

use source_body::kind_at;
use source_coding::faults::{Fault, Kind};
use source_coding::{limits as texts, signs};
use source_due::{Due, Found, sign_due};
use source_field::Cursor;
use source_tokens::Token;
use spec_language::limits;

// The word that begins a row, as what is due tells it, and how many cells one has.
const ROW: u64 = signs::ROW as u64;

const LEAST_CELLS: u64 = limits::LEAST_CELLS as u64;

const MOST_CELLS: u64 = limits::MOST_CELLS as u64;

// A behaviour: the place of its name, its cells, the place behind it, the end of its field, and the first fault of its
// names, if there is one.
#[derive(Clone, Copy, Drop)]
pub struct Behaviour {
    pub place: usize,
    pub cells: usize,
    pub next: usize,
    pub end: usize,
    pub stray: Option<Fault>,
}

// Behaviours: the place behind them, how many names there are with theirs, the end of their fields, and the first fault
// of their names, if there is one.
#[derive(Clone, Copy, Drop)]
pub struct Behaviours {
    pub next: usize,
    pub count: usize,
    pub end: usize,
    pub stray: Option<Fault>,
}

// What a text without a fault of the first pass says: the end of the sheet's bytes, how many parameters, how many
// names, and the first fault of a name in a formula, if there is one.
#[derive(Clone, Copy, Drop)]
pub struct Reading {
    pub end: usize,
    pub params: usize,
    pub count: usize,
    pub stray: Option<Fault>,
}

// A behaviour behind its word: the place there, the word's own place and number, how many cells and names come before,
// the end of the bytes written, and how many of the names' places are in order.
#[derive(Drop)]
pub struct Heading {
    pub at: usize,
    pub place: usize,
    pub word: u64,
    pub cells: usize,
    pub count: usize,
    pub end: usize,
    pub sorted: usize,
}

// Where the behaviours begin, with the end of the bytes written, how many names are taken and how many of their places
// are in order; and the places of the events' names, so many.
#[derive(Drop)]
pub struct Begun {
    pub at: usize,
    pub end: usize,
    pub taken: usize,
    pub sorted: usize,
    pub known: usize,
    pub events: [usize; limits::EVENTS],
}

// A name that is not among the first `count`.
fn name_at(text: &[u8], at: usize, names: &[usize], count: usize) -> Due
    requires text_len_bound { length text.now ≤ text_bytes }
    requires at_in_bounds { at ≤ length text.now }
    requires count_in_bounds { count ≤ length names.now }
    ensures due_read { DueRead (NamedAt text.now) text.now result
        (new_name (names_held text.now names.now count) (tokens_from text.now at)) }
    ensures due_within { DueWithin (length text.now) at result }
{
    let name = source_due::name_due(text, at)?;
    if source_names::is_among(text, name.place, names, count) {
        return Err(Fault {
            kind: Kind::DeclaredTwice,
            place: name.place,
        });
    }
    Ok(name)
}

// A row's count after `[`, behind i cells.
fn count_at(text: &[u8], at: usize, i: usize) -> Due
    requires text_len_bound { length text.now ≤ text_bytes }
    requires at_in_bounds { at ≤ length text.now }
    requires i_le_behaviour_limit { i ≤ behaviour_limit }
    ensures due_read { DueRead CountIs text.now result (counted_cells i (tokens_from text.now at)) }
    ensures cells_within { CellsWithin (length text.now) at i result }
{
    let Found {
        place,
        number,
        next,
    } = source_due::number_due(text, at, texts::LARGEST)?;
    if number < LEAST_CELLS || MOST_CELLS < number {
        return Err(Fault {
            kind: Kind::OffScale,
            place,
        });
    }
    if limits::BEHAVIOURS < i + (number as usize) {
        return Err(Fault {
            kind: Kind::TooMany,
            place,
        });
    }
    closed_at(text, next, place, number)
}

// `]` behind a row's count v, which stands at p.
fn closed_at(text: &[u8], at: usize, p: usize, v: u64) -> Due
    requires text_len_bound { length text.now ≤ text_bytes }
    requires at_in_bounds { at ≤ length text.now }
    ensures due_read { DueRead CountIs text.now result (closed_cells v (tokens_from text.now at)) }
    ensures closed_within { ClosedWithin (length text.now) at v result }
{
    let bracket = sign_due(text, at, signs::UNBRACKET)?;
    Ok(Found {
        place: p,
        number: v,
        next: bracket.next,
    })
}

// A row's count behind i cells; 0 for another behaviour.
fn cells_due(text: &[u8], at: usize, word: u64, i: usize) -> Due
    requires text_len_bound { length text.now ≤ text_bytes }
    requires at_in_bounds { at ≤ length text.now }
    requires i_le_behaviour_limit { i ≤ behaviour_limit }
    ensures due_read { DueRead CountIs text.now result (cells_said i word (tokens_from text.now at)) }
    ensures cells_within { CellsWithin (length text.now) at i result }
{
    if word != ROW {
        return Ok(Found {
            place: at,
            number: 0,
            next: at,
        });
    }
    let bracket = sign_due(text, at, signs::BRACKET)?;
    count_at(text, bracket.next, i)
}

// How many numbers a behaviour takes, by a row's count or 0.
fn numbers_of(cells: usize) -> usize
    requires { cells ≤ most_cells }
    ensures { result ≡ numbers_taken cells }
{
    if cells == 0 {
        return 1;
    }
    cells
}

// A behaviour from behind its word on.
fn behaviour_at(
    text: &[u8],
    heading: Heading,
    names: &[usize],
    places: &[usize],
    meanings: &[usize],
    events: &[usize],
    out: &mut [u8],
) -> Result<Behaviour, Fault>
    requires { HeadingUsable text.now heading names.now places.now meanings.now events.now out.old }
    ensures behaviour_read { BehaviourRead text.now
        (meaning_by text.now places.now heading.sorted meanings.now) events.now
        names.now heading.count heading.cells heading.place heading.word heading.at heading.end
        out.old out.new result }
    ensures behaviour_within { BehaviourWithin (length text.now) heading.at heading.end heading.cells result }
    ensures out_len_unchanged { length out.new ≡ length out.old }
{
    if limits::BEHAVIOURS <= heading.cells {
        return Err(Fault {
            kind: Kind::TooMany,
            place: heading.place,
        });
    }
    let name = name_at(text, heading.at, names, heading.count)?;
    let counted = cells_due(text, name.next, heading.word, heading.cells)?;
    let cells = counted.number as usize;
    let cursor = Cursor {
        at: counted.next,
        end: heading.end,
        sorted: heading.sorted,
        cells,
        room: limits::NESTING,
    };
    let part = kind_at(text, cursor, places, meanings, events, heading.word, out)?;
    Ok(Behaviour {
        place: name.place,
        cells: numbers_of(cells),
        next: part.next,
        end: part.end,
        stray: part.stray,
    })
}

// A word that begins a behaviour, if one stands there: its place, its sign's number, and the place behind it.
#[tactic(auto, using(lib_base::proofs::Pick::branches), unfolding(source_language::specs::Reader::behaviour_begins))]
fn heading_at(text: &[u8], at: usize) -> Option<Found>
    requires text_len_bound { length text.now ≤ text_bytes }
    requires at_in_bounds { at ≤ length text.now }
    ensures word_read { WordRead text.now at result }
    ensures word_within { WordWithin (length text.now) at result }
{
    match source_tokens::token_at(text, at) {
        Token::Sign(place, c @ signs::PASSIVE..=signs::ROW, next) => Some(Found {
            place,
            number: c as u64,
            next,
        }),
        _ => None,
    }
}

// The behaviours from a place on. The places of their names go behind those that are taken of `names`, the numbers of
// their first cells to `starts`, and behind the last how many cells there are.
fn behaviours_at(
    text: &[u8],
    begun: Begun,
    places: &[usize],
    meanings: &[usize],
    names: &mut [usize],
    starts: &mut [usize],
    out: &mut [u8],
) -> Result<Behaviours, Fault>
    requires { BegunUsable text.now begun places.now meanings.now names.old starts.old out.old }
    ensures behaviours_read { BehavioursRead text.now
        (meaning_by text.now places.now begun.sorted meanings.now)
        (take begun.known begun.events) begun.at begun.end out.old out.new
        names.old begun.taken names.new starts.new result }
    ensures behaviours_within { BehavioursWithin (length text.now) begun.end begun.taken result }
    ensures names_len { (length names.new ≡ name_limit)
        × (((length starts.new ≡ first_cells) × All (λ i. i ≤ behaviour_limit) starts.new)
        × (length out.new ≡ length out.old)) }
{
    starts[0] = 0;
    let mut all = Behaviours {
        next: begun.at,
        count: begun.taken,
        end: begun.end,
        stray: None,
    };
    let mut i = 0usize;
    while let Some(word) = heading_at(text, all.next) {
        let heading = Heading {
            at: word.next,
            place: word.place,
            word: word.number,
            cells: i,
            count: all.count,
            end: all.end,
            sorted: begun.sorted,
        };
        let one = behaviour_at(
            text,
            heading,
            names,
            places,
            meanings,
            &begun.events[..begun.known],
            out,
        )?;
        names[all.count] = one.place;
        i += one.cells;
        all = Behaviours {
            next: one.next,
            count: all.count + 1,
            end: one.end,
            stray: all.stray.or(one.stray),
        };
        starts[all.count - begun.taken] = i;
    }
    Ok(all)
}

// The fault where the text does not end.
fn end_fault(text: &[u8], at: usize) -> Option<Fault>
    requires text_len_bound { length text.now ≤ text_bytes }
    requires at_in_bounds { at ≤ length text.now }
    ensures { EndFault text.now at result }
{
    match source_tokens::token_at(text, at) {
        Token::Sign(_, signs::END, _) => None,
        t => Some(Fault {
            kind: Kind::Outside,
            place: source_tokens::place_of(t),
        }),
    }
}

// A text, in which names mean what `places`, `sorted` and `meanings` say. What it declares goes to `names` and
// `starts`: the places of parameters and behaviours in their order, and the number of each behaviour's first cell, last
// of all how many there are.
pub fn read_at(
    text: &[u8],
    places: &[usize],
    sorted: usize,
    meanings: &[usize],
    names: &mut [usize],
    starts: &mut [usize],
    out: &mut [u8],
) -> Result<Reading, Fault>
    requires text_len_bound { length text.now ≤ text_bytes }
    requires lookup_usable { LookupUsable places.now sorted meanings.now }
    requires names_len { (length names.old ≡ name_limit) × (((length starts.old ≡ first_cells) × All (λ i. i ≤ behaviour_limit) starts.old)
        × (length out.old ≤ sheet_bytes)) }
    ensures text_read { TextRead text.now
        (meaning_by text.now places.now sorted meanings.now) out.old
        out.new names.new starts.new result (read_text text.now) }
    ensures end_within { EndWithin (length text.now) result }
    ensures names_len_2 { (length names.new ≡ name_limit)
        × ((length starts.new ≡ first_cells) × (length out.new ≡ length out.old)) }
{
    let params = source_declarations::parameters_at(text, 0, names)?;
    let mut events = [0usize; limits::EVENTS];
    let known = source_declarations::events_at(text, params.next, &mut events, out, 0)?;
    let begun = Begun {
        at: known.next,
        end: known.end,
        taken: params.count,
        sorted,
        known: known.count,
        events,
    };
    let all = behaviours_at(text, begun, places, meanings, names, starts, out)?;
    if let Some(fault) = end_fault(text, all.next) {
        return Err(fault);
    }
    Ok(Reading {
        end: all.end,
        params: params.count,
        count: all.count,
        stray: all.stray,
    })
}
