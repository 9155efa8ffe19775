// The handlers of one behaviour, read from left to right, and their fields written. Time: one pass over the text, and
// each event's name is compared with those declared.

#![tactic(auto)]

ghost use Rattle.std.specs.Prelude.{◌≡◌, ◌≤◌, ◌<◌, ◌+◌, ◌*◌, length};
ghost use Rattle.source_coding.specs.Places.{tokens_from};
ghost use Rattle.source_names.specs.Known.{meaning_by};
ghost use Rattle.source_due.specs.Due.{DueWithin};
ghost use Rattle.source_field.specs.Formula.{Readable};
ghost use Rattle.source_handlers.specs.Parts.{PartWithin, DueRead};
ghost use Rattle.source_handlers.specs.Handlers.{HandledEventRead, HandledEventWithin, PhaseNumbered, PhaseWithin};
ghost use Rattle.source_handlers.specs.Handlers.{ColonRead, phase_declared, HandlerRead, HandlersRead};
ghost use Rattle.source_coding.specs.Bounds.{handled_length, text_bytes};
ghost use Rattle.spec_language.specs.Limits.{event_limit, sheet_bytes};

use sheet_field::{sizes, tags};
use source_coding::faults::{Fault, Kind};
use source_coding::signs;
use source_due::{Due, Found, name_due, sign_due};
use source_field::Cursor;
use source_formula::formula_at;
use spec_language::limits;

const MARKS: usize = limits::EVENTS + 1;

// The phases as a sheet's bytes have them.
const IMMEDIATE: u64 = 0;

const LATER: u64 = 1;

// A part of a text: the place behind it, the end of its bytes, and the first fault of its names, if there is one.
#[derive(Clone, Copy, Drop)]
pub struct Part {
    pub next: usize,
    pub end: usize,
    pub stray: Option<Fault>,
}

// The event that a handler is for: declared, and `handled` has no mark for its number yet.
fn event_due(text: &[u8], at: usize, events: &[usize], handled: &[u8]) -> Due
    requires text_len_bound { length text.now ≤ text_bytes }
    requires at_in_bounds { at ≤ length text.now }
    requires events_len_bound { (length events.now ≤ event_limit) × (length handled.now ≡ handled_length) }
    ensures handled_event_read { HandledEventRead text.now events.now handled.now at result }
    ensures due_within { DueWithin (length text.now) at result }
    ensures handled_event_within { HandledEventWithin (length events.now) result }
{
    let Found { place, next, .. } = name_due(text, at)?;
    let e = source_names::index_of(text, place, events);
    if handled[e] == 1 {
        return Err(Fault {
            kind: Kind::SecondHandler,
            place,
        });
    }
    if e == events.len() {
        return Err(Fault {
            kind: Kind::UnknownName,
            place,
        });
    }
    Ok(Found {
        place,
        number: e as u64,
        next,
    })
}

// The colon before a handler's formula; its number is the phase.
fn colon_due(text: &[u8], at: usize, phase: u64) -> Due
    requires text_len_bound { length text.now ≤ text_bytes }
    requires at_in_bounds { at ≤ length text.now }
    requires phase_bound { phase ≤ 1 }
    ensures colon_read { ColonRead text.now at phase result }
    ensures phase_within { PhaseWithin (length text.now) at result }
{
    let colon = sign_due(text, at, signs::COLON)?;
    Ok(Found {
        number: phase,
        ..colon
    })
}

// The phase and the colon.
fn phase_due(text: &[u8], at: usize) -> Due
    requires text_len_bound { length text.now ≤ text_bytes }
    requires at_in_bounds { at ≤ length text.now }
    ensures due_read { DueRead PhaseNumbered text.now result (phase_declared (tokens_from text.now at)) }
    ensures phase_within { PhaseWithin (length text.now) at result }
{
    let Ok(later) = sign_due(text, at, signs::LATER) else {
        return colon_due(text, at, IMMEDIATE);
    };
    colon_due(text, later.next, LATER)
}

// A handler for event e, from its phase on.
fn body_at(
    text: &[u8],
    cursor: Cursor,
    places: &[usize],
    meanings: &[usize],
    e: u64,
    out: &mut [u8],
) -> Result<Part, Fault>
    requires readable { Readable text.now cursor places.now meanings.now }
    requires e_lt_event_limit { (e < event_limit) × (length out.old ≤ sheet_bytes) }
    ensures handler_read { HandlerRead text.now
        (meaning_by text.now places.now cursor.sorted meanings.now) cursor.cells e
        cursor.at cursor.end out.old out.new result }
    ensures part_within { PartWithin (length text.now) cursor.at cursor.end result }
    ensures out_len_unchanged { length out.new ≡ length out.old }
{
    let n = cursor.end;
    let phase = phase_due(text, cursor.at)?;
    sheet_write::put_handler(out, n, e as u8, phase.number as u8);
    let inner = Cursor {
        at: phase.next,
        end: n + sizes::HANDLER_HEAD,
        ..cursor
    };
    let formula = formula_at(text, inner, places, meanings, out)?;
    sheet_write::enclose(out, n, formula.end, tags::HANDLER);
    Ok(Part {
        next: formula.next,
        end: formula.end,
        stray: formula.stray,
    })
}

// All handlers from the cursor on.
pub fn handlers_at(
    text: &[u8],
    cursor: Cursor,
    places: &[usize],
    meanings: &[usize],
    events: &[usize],
    out: &mut [u8],
) -> Result<Part, Fault>
    requires readable { Readable text.now cursor places.now meanings.now }
    requires events_len_bound { (length events.now ≤ event_limit) × (length out.old ≤ sheet_bytes) }
    ensures handlers_read { HandlersRead text.now
        (meaning_by text.now places.now cursor.sorted meanings.now) cursor.cells
        events.now cursor.at cursor.end out.old out.new result }
    ensures part_within { PartWithin (length text.now) cursor.at cursor.end result }
    ensures out_len_unchanged { length out.new ≡ length out.old }
{
    let mut handled = [0u8; MARKS];
    let mut part = Part {
        next: cursor.at,
        end: cursor.end,
        stray: None,
    };
    while let Ok(on) = sign_due(text, part.next, signs::ON) {
        let event = event_due(text, on.next, events, &handled)?;
        let body = Cursor {
            at: event.next,
            end: part.end,
            ..cursor
        };
        let handler = body_at(text, body, places, meanings, event.number, out)?;
        handled[event.number as usize] = 1;
        part = Part {
            next: handler.next,
            end: handler.end,
            stray: part.stray.or(handler.stray),
        };
    }
    Ok(part)
}
