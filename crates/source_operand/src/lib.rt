// The operands of a formula that have no parts: constants, names and cells of rows. Each is read, a name looked up, and
// its field written where it fits.

#![tactic(auto)]

ghost use Rattle.std.specs.Prelude.{◌≡◌, ℕ, ◌≤◌, ◌<◌, List, length, get_or};
ghost use Rattle.lib_base.specs.Basics.{All};
ghost use Rattle.source_language.specs.Meaning.{NameMeaning, a_row, name_term, cell_term};
ghost use Rattle.source_language.specs.Reader.{read_constant, cell_of};
ghost use Rattle.source_coding.specs.Places.{tokens_from, name_at, behaviour_or_row};
ghost use Rattle.source_names.specs.Known.{number_means, meaning_by};
ghost use Rattle.source_tokens.specs.Token.{TokenAt, TokenWithin};
ghost use Rattle.source_due.specs.Due.{DueWithin};
ghost use Rattle.source_field.specs.Formula.{Readable, FormulaRead, FormulaWithin, FewerLeft, PartRead};
ghost use Rattle.source_operand.specs.Operand.{meant_by, MeaningWithin, LeafAs, LeafWithin, leaf_done, leaf_placed};
ghost use Rattle.source_operand.specs.Operand.{CellDue, BracketTold, NoMoreLeft, plain_of, PlaceWithin, SettledRead};
ghost use Rattle.source_coding.specs.Bounds.{text_bytes};
ghost use Rattle.source_field.specs.Ends.{field_end};
ghost use Rattle.source_names.specs.Units.{cell_unit, meaning_limit};
ghost use Rattle.spec_language.specs.Limits.{behaviour_limit};

use sheet_field::{sizes, tags};
use source_coding::faults::{Fault, Kind};
use source_coding::{limits, signs};
use source_due::{Due, Found, number_due, sign_due, value_of};
use source_field::{Cursor, Formula, Read};
use source_names::{CELL, found_in};
use source_tokens::{Token, in_word, pass_over, token_at};
use text_marks::byte_at;

// What a name means: nothing, a parameter, a behaviour, or a row by its first cell and its count. As the definition has
// it (`NameMeaning`): nothing is one of four meanings, so this is no Option of three.
#[derive(Clone, Copy, Drop)]
pub enum Meaning {
    Nothing,
    Parameter(usize),
    Behaviour(usize),
    Row(usize, usize),
}

// A name's field, by its tag and number.
#[derive(Clone, Copy, Drop)]
pub struct Leaf {
    pub tag: u8,
    pub number: usize,
}

// The meaning at a place of the list; 0 past its end.
fn number_in_list(meanings: &[usize], i: usize) -> usize
    requires { All (λ m. m < meaning_limit) meanings.now }
    ensures value { result ≡ get_or meanings.now i 0 }
    ensures upper_bound { result < meaning_limit }
{
    meanings.get(i).copied().unwrap_or(0)
}

// The behaviour or row from a first cell on, by how many cells it has.
fn behaviour_or_row(first: usize, cells: usize) -> Meaning
    requires first_lt_cell_unit { first < cell_unit }
    requires cells_le_behaviour_limit { cells ≤ behaviour_limit }
    ensures result_value { meant_by result ≡ behaviour_or_row first cells }
    ensures meaning_within { MeaningWithin result }
{
    if cells < 2 {
        return Meaning::Behaviour(first);
    }
    Meaning::Row(first, cells)
}

// What a name means, by the number beside its place.
fn meaning_at(number: usize) -> Meaning
    requires { number < meaning_limit }
    ensures result_value { meant_by result ≡ number_means number }
    ensures meaning_within { MeaningWithin result }
{
    if number < CELL {
        return Meaning::Parameter(number);
    }
    behaviour_or_row(number % CELL, number / CELL)
}

// What the name at a place means.
fn meaning_of(text: &[u8], p: usize, places: &[usize], sorted: usize, meanings: &[usize]) -> Meaning
    requires sorted_in_bounds { sorted ≤ length places.now }
    requires all { All (λ m. m < meaning_limit) meanings.now }
    ensures result_value { meant_by result ≡ meaning_by text.now places.now sorted meanings.now (name_at text.now p) }
    ensures meaning_within { MeaningWithin result }
{
    let j = found_in(text, p, places, sorted);
    if places.len() <= j {
        return Meaning::Nothing;
    }
    meaning_at(number_in_list(meanings, j))
}

// The field of a name at p.
fn name_leaf(meaning: Meaning, p: usize) -> Result<Leaf, Fault>
    requires meaning_within { MeaningWithin meaning }
    requires p_le_text_bytes { p ≤ text_bytes }
    ensures leaf_as { LeafAs result (name_term p (meant_by meaning)) }
    ensures leaf_within { LeafWithin result }
{
    match meaning {
        Meaning::Nothing => Err(Fault {
            kind: Kind::UnknownName,
            place: p,
        }),
        Meaning::Parameter(i) => Ok(Leaf {
            tag: tags::PARAMETER,
            number: i,
        }),
        Meaning::Behaviour(i) => Ok(Leaf {
            tag: tags::NAME,
            number: i,
        }),
        Meaning::Row(i, n) => Ok(Leaf {
            tag: tags::NAME,
            number: i,
        }),
    }
}

// The field of cell k of the row of n cells from behaviour i on, in a handler of a row of so many cells, else of 0;
// `[` is at q.
fn row_cell(i: usize, n: usize, k: usize, q: usize, cells: usize) -> Result<Leaf, Fault>
    requires i_lt_cell_unit { i < cell_unit }
    requires n_le_behaviour_limit { n ≤ behaviour_limit }
    requires q_le_text_bytes { q ≤ text_bytes }
    ensures leaf_as { LeafAs result (cell_term cells 0 q k (a_row i n)) }
    ensures leaf_within { LeafWithin result }
{
    if n <= k {
        return Err(Fault {
            kind: Kind::NoSuchCell,
            place: q,
        });
    }
    if k != 0 {
        return Ok(Leaf {
            tag: tags::NAME,
            number: i + k,
        });
    }
    if n == cells {
        return Err(Fault {
            kind: Kind::NoSuchCell,
            place: q,
        });
    }
    Ok(Leaf {
        tag: tags::NAME,
        number: i,
    })
}

// The field of cell k of the name at p, where `[` is at q.
fn cell_leaf(meaning: Meaning, p: usize, q: usize, k: usize, cells: usize) -> Result<Leaf, Fault>
    requires meaning_within { MeaningWithin meaning }
    requires p_le_text_bytes { p ≤ text_bytes }
    requires q_le_text_bytes { q ≤ text_bytes }
    ensures leaf_as { LeafAs result (cell_term cells p q k (meant_by meaning)) }
    ensures leaf_within { LeafWithin result }
{
    match meaning {
        Meaning::Nothing => Err(Fault {
            kind: Kind::UnknownName,
            place: p,
        }),
        Meaning::Parameter(_) | Meaning::Behaviour(_) => Err(Fault {
            kind: Kind::NoSuchCell,
            place: q,
        }),
        Meaning::Row(i, n) => row_cell(i, n, k, q, cells),
    }
}

// A name's field is written, or its fault kept; `to` is the place behind it.
fn put_leaf(to: usize, leaf: Result<Leaf, Fault>, out: &mut [u8], n: usize) -> Read
    requires n_le_field_end { n ≤ field_end }
    requires leaf_within { LeafWithin leaf }
    ensures value { result ≡ leaf_done to n leaf }
    ensures out_after { out.new ≡ leaf_placed n leaf out.old }
{
    match leaf {
        Ok(Leaf { tag, number }) => {
            sheet_write::put_byte_field(out, n, tag, number as u8);
            Ok(Formula {
                next: to,
                depth: 1,
                end: n + sizes::BYTE_FIELD,
                stray: None,
            })
        }
        Err(stray) => Ok(Formula {
            next: to,
            depth: 1,
            end: n + sizes::BYTE_FIELD,
            stray: Some(stray),
        }),
    }
}

// A cell's number, and `]`.
fn cell_number(text: &[u8], at: usize) -> Due
    requires text_len_bound { length text.now ≤ text_bytes }
    requires at_in_bounds { at ≤ length text.now }
    ensures cell_due { CellDue text.now at result }
    ensures due_within { DueWithin (length text.now) at result }
{
    let number = number_due(text, at, limits::LARGEST)?;
    let bracket = sign_due(text, number.next, signs::UNBRACKET)?;
    Ok(Found {
        next: bracket.next,
        ..number
    })
}

// `[`, where that is the first token from a place on; no other token is read.
fn bracket_at(text: &[u8], at: usize) -> Due
    requires text_len_bound { length text.now ≤ text_bytes }
    requires at_in_bounds { at ≤ length text.now }
    ensures bracket_told { BracketTold text.now at result }
    ensures due_within { DueWithin (length text.now) at result }
{
    let p = pass_over(text, at);
    if byte_at(text, p) != b'[' {
        return Err(Fault {
            kind: Kind::Outside,
            place: p,
        });
    }
    sign_due(text, p, signs::BRACKET)
}

// What stands after the name at the cursor: a cell of it, or nothing of it.
fn named_at(
    text: &[u8],
    cursor: Cursor,
    next: usize,
    places: &[usize],
    meanings: &[usize],
    out: &mut [u8],
) -> Read
    requires readable { Readable text.now cursor places.now meanings.now }
    requires at_lt_next { (cursor.at < next) × (next ≤ length text.now) }
    ensures formula_read { FormulaRead text.now
        (meaning_by text.now places.now cursor.sorted meanings.now) cursor.cells
        cursor.end out.old out.new result
        (cell_of cursor.at (name_at text.now cursor.at) (tokens_from text.now next)) }
    ensures formula_within { FormulaWithin (length text.now) 1 cursor.at cursor.end result }
    ensures no_more_left { NoMoreLeft text.now next result }
    ensures out_len_unchanged { length out.new ≡ length out.old }
{
    let p = cursor.at;
    let n = cursor.end;
    let meaning = meaning_of(text, p, places, cursor.sorted, meanings);
    let Ok(bracket) = bracket_at(text, next) else {
        return put_leaf(next, name_leaf(meaning, p), out, n);
    };
    let cell = cell_number(text, bracket.next)?;
    let leaf = cell_leaf(
        meaning,
        p,
        bracket.place,
        cell.number as usize,
        cursor.cells,
    );
    put_leaf(cell.next, leaf, out, n)
}

// A constant, a number or `-` and a number, where the token t stands.
fn constant_of(text: &[u8], at: usize, t: Token, out: &mut [u8], n: usize) -> Read
    requires text_len_bound { length text.now ≤ text_bytes }
    requires token_at { TokenAt text.now at t × TokenWithin (length text.now) at t }
    requires n_le_field_end { n ≤ field_end }
    ensures by_index { (find : List ℕ → NameMeaning) (c : ℕ) → FormulaRead text.now find c n
        out.old out.new result (read_constant (tokens_from text.now at)) }
    ensures formula_within { FormulaWithin (length text.now) 1 at n result }
    ensures fewer_left { (FewerLeft text.now at result) × (length out.new ≡ length out.old) }
{
    let constant = value_of(text, at, t)?;
    sheet_write::put_word_field(out, n, tags::CONSTANT, constant.number as u32);
    Ok(Formula {
        next: constant.next,
        depth: 1,
        end: n + sizes::WORD_FIELD,
        stray: None,
    })
}

// The first token from a place on: one of one byte is told by that and the next.
fn first_token(text: &[u8], at: usize) -> Token
    requires text_len_bound { length text.now ≤ text_bytes }
    requires at_in_bounds { at ≤ length text.now }
    ensures token_at { TokenAt text.now at result }
    ensures token_within { TokenWithin (length text.now) at result }
{
    let b = byte_at(text, at);
    if !in_word(b) {
        return token_at(text, at);
    }
    if in_word(byte_at(text, at + 1)) {
        return token_at(text, at);
    }
    if b <= b'9' {
        return Token::Number(at, (b - b'0') as u64, at + 1);
    }
    Token::Name(at, at + 1)
}

// A constant, a name or a cell, by its first token.
fn leaf_at(
    text: &[u8],
    cursor: Cursor,
    places: &[usize],
    meanings: &[usize],
    out: &mut [u8],
) -> Read
    requires { Readable text.now cursor places.now meanings.now }
    ensures { PartRead text.now
        (meaning_by text.now places.now cursor.sorted meanings.now) cursor.cells
        1 cursor.at cursor.end out.old out.new result
        (plain_of (tokens_from text.now cursor.at)) }
{
    let n = cursor.end;
    let t = first_token(text, cursor.at);
    match t {
        Token::Number(p, v, next) => constant_of(text, cursor.at, t, out, n),
        Token::Name(p, next) => {
            let named = Cursor { at: p, ..cursor };
            named_at(text, named, next, places, meanings, out)
        }
        Token::Sign(p, c, next) => constant_of(text, cursor.at, t, out, n),
    }
}

// What was read, up to the token behind it: blanks and comments there are passed over once, however many formulas end
// there.
fn settled(text: &[u8], r: Read) -> Read
    requires { PlaceWithin (length text.now) r }
    ensures { SettledRead text.now r result }
{
    let formula = r?;
    Ok(Formula {
        next: pass_over(text, formula.next),
        ..formula
    })
}

// An operand that has no parts: a constant, a name or a cell, up to the token behind it.
pub fn plain_at(
    text: &[u8],
    cursor: Cursor,
    places: &[usize],
    meanings: &[usize],
    out: &mut [u8],
) -> Read
    requires { Readable text.now cursor places.now meanings.now }
    ensures { PartRead text.now
        (meaning_by text.now places.now cursor.sorted meanings.now) cursor.cells
        1 cursor.at cursor.end out.old out.new result
        (plain_of (tokens_from text.now cursor.at)) }
{
    let r = leaf_at(text, cursor, places, meanings, out);
    settled(text, r)
}
