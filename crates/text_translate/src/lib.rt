// A formula's text becomes an expression field at the start of a lent buffer: 21, 22, 9 and 23, or 2 ^ 32 and the
// field's length.

#![tactic(auto)]

ghost use Rattle.std.specs.Prelude.{◌≡◌, ◌<◌, ◌≤◌, ◌+◌, length};
ghost use Rattle.text_formula.specs.Answer.{answered};
ghost use Rattle.text_formula.specs.Formula.{formula_on};
ghost use Rattle.text_translate.specs.Translate.{any_large, balanced_from, delivered, Translated};
ghost use Rattle.spec_language.specs.Limits.{field_bytes, formula_bytes};

use spec_language::{answers, limits};
use text_formula::tokens::{LARGEST_NUMBER, Token};

// What is added to a field's length, so that it is told from a refusal.
const ACCEPTED: u64 = spec_language::answers::VALUE;

// Whether a number is above 2,147,483,647.
fn any_large(ts: &[Token]) -> bool
    ensures { result ≡ any_large ts.now }
{
    ts.iter()
        .any(|t| matches!(t, Token::Number(n) if LARGEST_NUMBER < *n))
}

// Whether the brackets match. The reader calls itself for each that is open, so a text where they do not is turned down
// before: half of its tokens, at most, are opening ones.
#[tactic(auto, using(crate::proofs::Balance::brackets))]
fn balanced(ts: &[Token]) -> bool
    requires { length ts.now ≤ formula_bytes }
    ensures { result ≡ balanced_from 1 ts.now }
{
    let mut open = 0usize;
    for t in ts {
        match t {
            Token::Opening => open += 1,
            Token::Closing if open == 0 => return false,
            Token::Closing => open -= 1,
            _ => {}
        }
    }
    open == 0
}

// The field of a formula that was read, unless a number is too large, the nesting too deep or the buffer too short.
fn put_result(large: bool, depth: usize, field: &[u8], buffer: &mut [u8]) -> u64
    requires { length field.now ≤ field_bytes }
    ensures { answered result buffer.new ≡ delivered large depth field.now buffer.old }
{
    if large {
        return answers::LARGE_NUMBER;
    }
    if limits::NESTING < depth {
        return answers::TOO_DEEP;
    }
    if buffer.len() < field.len() {
        return answers::SHORT_FIELD;
    }
    buffer[..field.len()].copy_from_slice(field);
    ACCEPTED + (field.len() as u64)
}

// From the tokens on; `out` is where the field is made.
fn from_tokens(ts: &[Token], buffer: &mut [u8]) -> u64
    requires { length ts.now ≤ formula_bytes }
    ensures { Translated ts.now buffer.old (answered result buffer.new) }
{
    if !balanced(ts) {
        return answers::NO_FORMULA;
    }
    let mut out = [0u8; text_parser::FIELD_BYTES];
    let Some(read) = text_parser::disjunction(ts, 0, &mut out, 0) else {
        return answers::NO_FORMULA;
    };
    if read.at != ts.len() {
        return answers::NO_FORMULA;
    }
    put_result(any_large(ts), read.depth, &out[..read.end], buffer)
}

// The formula's field at the start of the buffer: 2 ^ 32 and its length; or 21, 22, 9, 23.
pub fn translate_at(text: &[u8], buffer: &mut [u8]) -> u64
    ensures { answered result buffer.new ≡ formula_on text.now buffer.old }
{
    if limits::FORMULA_BYTES < text.len() {
        return answers::NO_FORMULA;
    }
    // No byte of this token is other than zero, so one memset fills the array. Another token is stored place by place,
    // which takes longer than a short formula's reading.
    let mut tokens = [Token::Number(0); limits::FORMULA_BYTES];
    let Some(n) = text_lexer::scan(text, &mut tokens) else {
        return answers::NO_FORMULA;
    };
    from_tokens(&tokens[..n], buffer)
}
