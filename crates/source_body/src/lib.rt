// A behaviour's body, which is what stands behind its name and count, read from left to right, and its field written.
// Time: one pass over the text, and each name is compared with those declared.

#![tactic(auto)]

ghost use Rattle.std.specs.Prelude.{◌≡◌, ◌≤◌, ◌<◌, ◌+◌, ◌*◌, length};
ghost use Rattle.source_coding.specs.Places.{tokens_from};
ghost use Rattle.source_names.specs.Known.{meaning_by};
ghost use Rattle.source_field.specs.Formula.{Readable};
ghost use Rattle.source_handlers.specs.Parts.{DueRead, PartWithin};
ghost use Rattle.source_body.specs.Body.{body_tag, start_declared, StartWordIs, StartWithin, StateRead};
ghost use Rattle.source_body.specs.Body.{StateWithin, PassiveRead, StateDeclared, KindRead};
ghost use Rattle.lib_base.specs.Words.{byte_values, word_values};
ghost use Rattle.source_coding.specs.Bounds.{growth, text_bytes};
ghost use Rattle.spec_language.specs.Limits.{event_limit, most_cells, sheet_bytes};

use sheet_field::{sizes, tags};
use source_coding::faults::Fault;
use source_coding::signs;
use source_declarations::seen_at;
use source_due::{Due, sign_due, value_at};
use source_field::Cursor;
use source_formula::formula_at;
use source_handlers::{Part, handlers_at};

// The word that begins a passive, as what is due tells it.
const PASSIVE: u64 = signs::PASSIVE as u64;

// The tag of an active's field, or of a row's.
fn tag_of(cells: usize) -> u8
    ensures { result ≡ body_tag cells }
{
    if cells == 0 {
        return tags::ACTIVE;
    }
    tags::ROW
}

// The value that an active or a row starts with, and who may see it.
#[derive(Drop)]
struct Setting {
    start: u64,
    bits: u64,
}

// A passive from behind its name on.
fn passive_at(
    text: &[u8],
    cursor: Cursor,
    places: &[usize],
    meanings: &[usize],
    out: &mut [u8],
) -> Result<Part, Fault>
    requires readable { Readable text.now cursor places.now meanings.now }
    requires out_len_bound { length out.old ≤ sheet_bytes }
    ensures passive_read { PassiveRead text.now
        (meaning_by text.now places.now cursor.sorted meanings.now)
        cursor.at cursor.end out.old out.new result }
    ensures part_within { PartWithin (length text.now) cursor.at cursor.end result }
    ensures out_len_unchanged { length out.new ≡ length out.old }
{
    let n = cursor.end;
    let equals = sign_due(text, cursor.at, signs::EQUALS)?;
    let inner = Cursor {
        at: equals.next,
        end: n + sizes::HEADER,
        cells: 0,
        ..cursor
    };
    let formula = formula_at(text, inner, places, meanings, out)?;
    let seen = seen_at(text, formula.next)?;
    let stop = sheet_write::put_viewers(out, formula.end, seen.bits);
    sheet_write::enclose(out, n, stop, tags::PASSIVE);
    Ok(Part {
        next: seen.next,
        end: stop,
        stray: formula.stray,
    })
}

// An active, or a row of so many cells, from its handlers on.
fn state_with(
    text: &[u8],
    cursor: Cursor,
    places: &[usize],
    meanings: &[usize],
    events: &[usize],
    setting: Setting,
    out: &mut [u8],
) -> Result<Part, Fault>
    requires readable { Readable text.now cursor places.now meanings.now }
    requires growth_bound { (cursor.end + growth ≤ cursor.at * growth) × ((length events.now ≤ event_limit) × ((cursor.cells ≤ most_cells)
        × ((setting.start < word_values) × ((setting.bits ≤ byte_values) × (length out.old ≤ sheet_bytes))))) }
    ensures state_read { StateRead text.now
        (meaning_by text.now places.now cursor.sorted meanings.now)
        events.now cursor.cells setting.start setting.bits cursor.at cursor.end
        out.old out.new result }
    ensures state_within { StateWithin (length text.now) cursor.at cursor.end result }
    ensures out_len_unchanged { length out.new ≡ length out.old }
{
    let n = cursor.end;
    let start = sheet_write::put_start(out, n + sizes::HEADER, setting.start as u32, cursor.cells);
    let inner = Cursor {
        end: start,
        ..cursor
    };
    let handlers = handlers_at(text, inner, places, meanings, events, out)?;
    let last = sheet_write::put_viewers(out, handlers.end, setting.bits);
    sheet_write::enclose(out, n, last, tag_of(cursor.cells));
    Ok(Part {
        next: handlers.next,
        end: last,
        stray: handlers.stray,
    })
}

// The value after `=`.
fn start_due(text: &[u8], at: usize) -> Due
    requires text_len_bound { length text.now ≤ text_bytes }
    requires at_in_bounds { at ≤ length text.now }
    ensures due_read { DueRead StartWordIs text.now result (start_declared (tokens_from text.now at)) }
    ensures start_within { StartWithin (length text.now) at result }
{
    let equals = sign_due(text, at, signs::EQUALS)?;
    value_at(text, equals.next)
}

// An active, or a row of so many cells, from behind its name and count on.
fn state_at(
    text: &[u8],
    cursor: Cursor,
    places: &[usize],
    meanings: &[usize],
    events: &[usize],
    out: &mut [u8],
) -> Result<Part, Fault>
    requires readable { Readable text.now cursor places.now meanings.now }
    requires events_len_bound { (length events.now ≤ event_limit) × ((cursor.cells ≤ most_cells) × (length out.old ≤ sheet_bytes)) }
    ensures state_declared { StateDeclared text.now
        (meaning_by text.now places.now cursor.sorted meanings.now)
        events.now cursor.cells cursor.at cursor.end out.old out.new result }
    ensures part_within { PartWithin (length text.now) cursor.at cursor.end result }
    ensures out_len_unchanged { length out.new ≡ length out.old }
{
    let start = start_due(text, cursor.at)?;
    let seen = seen_at(text, start.next)?;
    let handlers = Cursor {
        at: seen.next,
        ..cursor
    };
    let setting = Setting {
        start: start.number,
        bits: seen.bits,
    };
    state_with(text, handlers, places, meanings, events, setting, out)
}

// A behaviour by its first word, from behind its name and count on.
pub fn kind_at(
    text: &[u8],
    cursor: Cursor,
    places: &[usize],
    meanings: &[usize],
    events: &[usize],
    word: u64,
    out: &mut [u8],
) -> Result<Part, Fault>
    requires readable { Readable text.now cursor places.now meanings.now }
    requires events_len_bound { (length events.now ≤ event_limit) × ((cursor.cells ≤ most_cells) × (length out.old ≤ sheet_bytes)) }
    ensures kind_read { KindRead text.now
        (meaning_by text.now places.now cursor.sorted meanings.now)
        events.now word cursor.cells cursor.at cursor.end out.old out.new result }
    ensures part_within { PartWithin (length text.now) cursor.at cursor.end result }
    ensures out_len_unchanged { length out.new ≡ length out.old }
{
    if word == PASSIVE {
        return passive_at(text, cursor, places, meanings, out);
    }
    state_at(text, cursor, places, meanings, events, out)
}
