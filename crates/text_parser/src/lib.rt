// The reader of formulas: one function a precedence level, from `||` down to `!` and the primaries; brackets and `if`
// call back to the first. Each call has fewer tokens left, or as many and a lower level. What is read is written to
// `out` from place n on, as an expression field. The frames of these functions are what a nested bracket costs in
// stack: `out` is lent as an array, one pointer, and one reading `r` is kept in each.

#![tactic(auto)]

ghost use Rattle.std.specs.Prelude.{◌≡◌, ◌<◌, ◌≤◌, ◌*◌, ◌+◌, length};
ghost use Rattle.text_parser.specs.Parser.{Reading, ReadWithin, ChoiceRead, Argued, ArgumentIn, FieldRoom};
ghost use Rattle.text_phrase.specs.Phrase.{mark_code};
ghost use Rattle.lib_signature.specs.Levels.{conjunction, disjunction, equality};
ghost use Rattle.sheet_field.specs.Sizes.{word_field};
ghost use Rattle.spec_language.specs.Limits.{field_bytes};

use lib_signature::{functions, levels};
use spec_language::limits;
use text_formula::tokens::Token;
use text_phrase::Read;

// The most bytes of a formula's field: a token has a byte or more, and gives at most a constant's seven.
pub const FIELD_BYTES: usize = limits::FORMULA_BYTES * sheet_field::sizes::WORD_FIELD;

// Level 6: `||`, and so a formula.
#[cycle(argument_choice_conjunction_disjunction_equality_operand_ordering_product_sum)]
pub fn disjunction(ts: &[Token], at: usize, out: &mut [u8; FIELD_BYTES], n: usize) -> Option<Read>
    requires n_bound { n ≤ at * word_field }
    requires field_room { FieldRoom ts.now out.old }
    ensures reading { Reading disjunction ts.now at n out.old out.new result }
    ensures read_within { ReadWithin (length ts.now) at n 0 result }
    ensures out_len { length out.new ≡ field_bytes }
{
    let mut r = conjunction(ts, at, out, n);
    while let Some(left) = r {
        let Some(f) = text_phrase::operator_at(ts, left.at, levels::DISJUNCTION) else {
            return r;
        };
        r = conjunction(ts, left.at + 1, out, left.end);
        r = text_phrase::close(f, n, left.depth, r, out);
    }
    r
}

// Level 5: `&&`.
#[cycle(argument_choice_conjunction_disjunction_equality_operand_ordering_product_sum)]
fn conjunction(ts: &[Token], at: usize, out: &mut [u8; FIELD_BYTES], n: usize) -> Option<Read>
    requires n_bound { n ≤ at * word_field }
    requires field_room { FieldRoom ts.now out.old }
    ensures reading { Reading conjunction ts.now at n out.old out.new result }
    ensures read_within { ReadWithin (length ts.now) at n 0 result }
    ensures out_len { length out.new ≡ field_bytes }
{
    let mut r = equality(ts, at, out, n);
    while let Some(left) = r {
        let Some(f) = text_phrase::operator_at(ts, left.at, levels::CONJUNCTION) else {
            return r;
        };
        r = equality(ts, left.at + 1, out, left.end);
        r = text_phrase::close(f, n, left.depth, r, out);
    }
    r
}

// Level 4: `== !=`.
#[cycle(argument_choice_conjunction_disjunction_equality_operand_ordering_product_sum)]
fn equality(ts: &[Token], at: usize, out: &mut [u8; FIELD_BYTES], n: usize) -> Option<Read>
    requires n_bound { n ≤ at * word_field }
    requires field_room { FieldRoom ts.now out.old }
    ensures reading { Reading equality ts.now at n out.old out.new result }
    ensures read_within { ReadWithin (length ts.now) at n 0 result }
    ensures out_len { length out.new ≡ field_bytes }
{
    let mut r = ordering(ts, at, out, n);
    while let Some(left) = r {
        let Some(f) = text_phrase::operator_at(ts, left.at, levels::EQUALITY) else {
            return r;
        };
        r = ordering(ts, left.at + 1, out, left.end);
        r = text_phrase::close(f, n, left.depth, r, out);
    }
    r
}

// Level 3: `> >= < <=`.
#[cycle(argument_choice_conjunction_disjunction_equality_operand_ordering_product_sum)]
fn ordering(ts: &[Token], at: usize, out: &mut [u8; FIELD_BYTES], n: usize) -> Option<Read>
    requires n_bound { n ≤ at * word_field }
    requires field_room { FieldRoom ts.now out.old }
    ensures reading { Reading 3 ts.now at n out.old out.new result }
    ensures read_within { ReadWithin (length ts.now) at n 0 result }
    ensures out_len { length out.new ≡ field_bytes }
{
    let mut r = sum(ts, at, out, n);
    while let Some(left) = r {
        let Some(f) = text_phrase::operator_at(ts, left.at, levels::ORDERING) else {
            return r;
        };
        r = sum(ts, left.at + 1, out, left.end);
        r = text_phrase::close(f, n, left.depth, r, out);
    }
    r
}

// Level 2: `+ -`.
#[cycle(argument_choice_conjunction_disjunction_equality_operand_ordering_product_sum)]
fn sum(ts: &[Token], at: usize, out: &mut [u8; FIELD_BYTES], n: usize) -> Option<Read>
    requires n_bound { n ≤ at * word_field }
    requires field_room { FieldRoom ts.now out.old }
    ensures reading { Reading 2 ts.now at n out.old out.new result }
    ensures read_within { ReadWithin (length ts.now) at n 0 result }
    ensures out_len { length out.new ≡ field_bytes }
{
    let mut r = product(ts, at, out, n);
    while let Some(left) = r {
        let Some(f) = text_phrase::operator_at(ts, left.at, levels::SUM) else {
            return r;
        };
        r = product(ts, left.at + 1, out, left.end);
        r = text_phrase::close(f, n, left.depth, r, out);
    }
    r
}

// Level 1: `* /`.
#[cycle(argument_choice_conjunction_disjunction_equality_operand_ordering_product_sum)]
fn product(ts: &[Token], at: usize, out: &mut [u8; FIELD_BYTES], n: usize) -> Option<Read>
    requires n_bound { n ≤ at * word_field }
    requires field_room { FieldRoom ts.now out.old }
    ensures reading { Reading 1 ts.now at n out.old out.new result }
    ensures read_within { ReadWithin (length ts.now) at n 0 result }
    ensures out_len { length out.new ≡ field_bytes }
{
    let mut r = operand(ts, at, out, n);
    while let Some(left) = r {
        let Some(f) = text_phrase::operator_at(ts, left.at, levels::PRODUCT) else {
            return r;
        };
        r = operand(ts, left.at + 1, out, left.end);
        r = text_phrase::close(f, n, left.depth, r, out);
    }
    r
}

// Level 0: `!`, numbers, names, brackets and `if`.
#[cycle(argument_choice_conjunction_disjunction_equality_operand_ordering_product_sum)]
fn operand(ts: &[Token], at: usize, out: &mut [u8; FIELD_BYTES], n: usize) -> Option<Read>
    requires n_bound { n ≤ at * word_field }
    requires field_room { FieldRoom ts.now out.old }
    ensures reading { Reading 0 ts.now at n out.old out.new result }
    ensures read_within { ReadWithin (length ts.now) at n 0 result }
    ensures out_len { length out.new ≡ field_bytes }
{
    let t = *ts.get(at)?;
    match t {
        Token::Function(functions::NOT) => {
            let r = operand(ts, at + 1, out, n)?;
            text_phrase::close(functions::NOT, n, 0, Some(r), out)
        }
        Token::Function(functions::IF) => choice(ts, at, out, n),
        Token::Opening => {
            let start = Read {
                at,
                end: n,
                depth: 0,
            };
            let r = argument(ts, Token::Opening, start, out);
            text_phrase::ended(ts, r)
        }
        _ => text_phrase::leaf(t, at, out, n),
    }
}

// `if`, which stands at the place, and its three arguments. A call of its own, so that no bracket's frame has room for
// its three readings.
#[inline(never)]
#[cycle(argument_choice_conjunction_disjunction_equality_operand_ordering_product_sum)]
fn choice(ts: &[Token], at: usize, out: &mut [u8; FIELD_BYTES], n: usize) -> Option<Read>
    requires n_bound { n ≤ at * word_field }
    requires at_in_bounds { at < length ts.now }
    requires field_room { FieldRoom ts.now out.old }
    ensures choice_read { ChoiceRead ts.now at n out.old out.new result }
    ensures read_within { ReadWithin (length ts.now) at n 0 result }
    ensures out_len { length out.new ≡ field_bytes }
{
    let start = Read {
        at: at + 1,
        end: n,
        depth: 0,
    };
    let mut r = argument(ts, Token::Opening, start, out)?;
    r = argument(ts, Token::Comma, r, out)?;
    let three = argument(ts, Token::Comma, r, out);
    let last = text_phrase::ended(ts, three);
    text_phrase::close(functions::IF, n, 0, last, out)
}

// A bracket or comma, which is due, and a formula; what was read before is r.
#[cycle(argument_choice_conjunction_disjunction_equality_operand_ordering_product_sum)]
fn argument(ts: &[Token], due: Token, r: Read, out: &mut [u8; FIELD_BYTES]) -> Option<Read>
    requires argument_in { ArgumentIn r }
    requires due_mark { 0 < mark_code due }
    requires field_room { FieldRoom ts.now out.old }
    ensures argued { Argued (mark_code due) ts.now out.old out.new r result }
    ensures out_len { length out.new ≡ field_bytes }
{
    if !text_phrase::stands(ts, r.at, due) {
        return None;
    }
    let q = disjunction(ts, r.at + 1, out, r.end);
    text_phrase::under(r.depth, q)
}
