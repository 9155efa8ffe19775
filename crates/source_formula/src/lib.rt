// A formula of a sheet's text: read, its names looked up, and written as an expression field, in one walk. Each call
// among these functions has less room to nest in, or the same and a lower place in the list: at most 16 formulas are
// one inside another. Brackets are counted and cost no call.

#![tactic(auto)]

ghost use Rattle.std.specs.Prelude.{◌≡◌, ◌≤◌, ◌<◌, ◌-◌, length};
ghost use Rattle.lib_base.specs.Basics.{All};
ghost use Rattle.source_language.specs.Tokens.{end_sign};
ghost use Rattle.source_language.specs.Reader.{read_primary, read_choice, phrase_within, formula_of};
ghost use Rattle.source_coding.specs.Places.{tokens_from};
ghost use Rattle.source_tokens.specs.Token.{PassedOver};
ghost use Rattle.source_names.specs.Known.{meaning_by};
ghost use Rattle.source_field.specs.Formula.{Readable, FormulaRead, FormulaWithin, FewerLeft, PartRead};
ghost use Rattle.source_formula.specs.Arguments.{FormulaReadable, ArgumentRoom, ArgumentAfter};
ghost use Rattle.lib_signature.specs.Levels.{disjunction};
ghost use Rattle.sheet_field.specs.Sizes.{longest_value};
ghost use Rattle.source_coding.specs.Bounds.{text_bytes};
ghost use Rattle.source_names.specs.Units.{meaning_limit};
ghost use Rattle.spec_language.specs.Limits.{nesting_limit};

use lib_signature::{functions, levels};
use source_coding::faults::{Fault, Kind};
use source_coding::signs::{COMMA, OPENING};
use source_due::sign_due;
use source_field::{Cursor, Formula, Read, close, under};
use source_onward::{Onward, onward_at};
use source_operand::plain_at;
use spec_language::limits;

// The formula that begins at the cursor. The names at `places` are known, so many of them in order; `meanings` has the
// number for each that tells what it means. The field is written to `out`, where it fits.
pub fn formula_at(
    text: &[u8],
    cursor: Cursor,
    places: &[usize],
    meanings: &[usize],
    out: &mut [u8],
) -> Read
    requires readable { Readable text.now cursor places.now meanings.now }
    requires out_len_bound { length out.old ≤ longest_value }
    ensures formula_read { FormulaRead text.now
        (meaning_by text.now places.now cursor.sorted meanings.now) cursor.cells
        cursor.end out.old out.new result
        (formula_of (tokens_from text.now cursor.at)) }
    ensures formula_within { FormulaWithin (length text.now) nesting_limit cursor.at cursor.end result }
    ensures fewer_left { FewerLeft text.now cursor.at result }
    ensures out_len_unchanged { length out.new ≡ length out.old }
{
    let whole = Cursor {
        room: limits::NESTING,
        ..cursor
    };
    phrase(text, whole, levels::DISJUNCTION, places, meanings, out)
}

// A formula of a level that nests at most as deep as there is room.
#[cycle(argument_choice_phrase_primary)]
fn phrase(
    text: &[u8],
    cursor: Cursor,
    level: u64,
    places: &[usize],
    meanings: &[usize],
    out: &mut [u8],
) -> Read
    requires formula_readable { FormulaReadable text.now cursor places.now meanings.now out.old }
    requires level_le_disjunction { (level ≤ disjunction) × (0 < cursor.room) × (cursor.room ≤ nesting_limit) }
    ensures { PartRead text.now
        (meaning_by text.now places.now cursor.sorted meanings.now) cursor.cells
        cursor.room cursor.at cursor.end out.old out.new result
        (phrase_within cursor.room level (tokens_from text.now cursor.at)) }
{
    let brackets = source_onward::brackets_at(text, cursor.at);
    let operand = Cursor {
        at: brackets.first,
        ..cursor
    };
    let mut opened = brackets.opened;
    let mut formula = primary(text, operand, places, meanings, out)?;
    loop {
        match onward_at(
            text,
            formula.next,
            level,
            opened,
            formula.depth,
            cursor.room,
        )? {
            Onward::Ended => return Ok(formula),
            Onward::Closed(next) => {
                opened -= 1;
                formula.next = next;
            }
            Onward::Operator(f, t, next) => {
                let right = Cursor {
                    at: next,
                    end: formula.end,
                    room: cursor.room - 1,
                    ..cursor
                };
                let r = phrase(text, right, t, places, meanings, out);
                formula = close(f, cursor.end, formula.depth, formula.stray, r, out)?;
            }
        }
    }
}

// An operand without brackets around it: `!` and `if` have arguments, which have less room.
#[cycle(argument_choice_phrase_primary)]
fn primary(
    text: &[u8],
    cursor: Cursor,
    places: &[usize],
    meanings: &[usize],
    out: &mut [u8],
) -> Read
    requires formula_readable { FormulaReadable text.now cursor places.now meanings.now out.old }
    requires room_nonzero { (0 < cursor.room) × (cursor.room ≤ nesting_limit) × PassedOver text.now cursor.at cursor.at }
    ensures { PartRead text.now
        (meaning_by text.now places.now cursor.sorted meanings.now) cursor.cells
        cursor.room cursor.at cursor.end out.old out.new result
        (read_primary (phrase_within (cursor.room - 1)) cursor.room (tokens_from text.now cursor.at)) }
{
    let standing = source_onward::sign_before(text, cursor.at);
    let behind = Cursor {
        at: standing.next,
        ..cursor
    };
    if standing.sign == functions::NOT {
        if cursor.room < 2 {
            return Err(Fault {
                kind: Kind::TooDeep,
                place: standing.place,
            });
        }
        let inner = Cursor {
            room: cursor.room - 1,
            ..behind
        };
        let r = phrase(text, inner, 0, places, meanings, out);
        return close(functions::NOT, cursor.end, 0, None, r, out);
    }
    if standing.sign == functions::IF {
        if cursor.room < 2 {
            return Err(Fault {
                kind: Kind::TooDeep,
                place: standing.place,
            });
        }
        return choice(text, behind, places, meanings, out);
    }
    plain_at(text, cursor, places, meanings, out)
}

// The three arguments of an `if`, from the place behind it on.
#[cycle(argument_choice_phrase_primary)]
fn choice(text: &[u8], cursor: Cursor, places: &[usize], meanings: &[usize], out: &mut [u8]) -> Read
    requires formula_readable { FormulaReadable text.now cursor places.now meanings.now out.old }
    requires lt_room { (1 < cursor.room) × (cursor.room ≤ nesting_limit) }
    ensures { PartRead text.now
        (meaning_by text.now places.now cursor.sorted meanings.now) cursor.cells
        cursor.room cursor.at cursor.end out.old out.new result
        (read_choice (phrase_within (cursor.room - 1) disjunction) (tokens_from text.now cursor.at)) }
{
    let none = Ok(Formula {
        next: cursor.at,
        depth: 0,
        end: cursor.end,
        stray: None,
    });
    let one = argument(text, OPENING, cursor, none, places, meanings, out);
    let two = argument(text, COMMA, cursor, one, places, meanings, out);
    let three = argument(text, COMMA, cursor, two, places, meanings, out);
    let r = source_onward::ended(text, three);
    close(functions::IF, cursor.end, 0, None, r, out)
}

// A sign that is due, and an argument; what was read before is r, which goes on where the cursor was.
#[cycle(argument_choice_phrase_primary)]
fn argument(
    text: &[u8],
    sign: u8,
    cursor: Cursor,
    r: Read,
    places: &[usize],
    meanings: &[usize],
    out: &mut [u8],
) -> Read
    requires text_len_bound { (length text.now ≤ text_bytes) × ArgumentRoom (length text.now) r }
    requires sorted_in_bounds { (cursor.sorted ≤ length places.now) × All (λ m. m < meaning_limit) meanings.now × (length out.old ≤ longest_value) }
    requires sign_nonzero { (0 < sign) × (sign < end_sign) }
    requires lt_room { (1 < cursor.room) × (cursor.room ≤ nesting_limit) }
    ensures { ArgumentAfter text.now
        (meaning_by text.now places.now cursor.sorted meanings.now) cursor.cells sign
        cursor.room out.old out.new r result }
{
    let before = r?;
    let due = sign_due(text, before.next, sign)?;
    let inner = Cursor {
        at: due.next,
        end: before.end,
        room: cursor.room - 1,
        ..cursor
    };
    let formula = phrase(text, inner, levels::DISJUNCTION, places, meanings, out);
    under(before.depth, before.stray, formula)
}
