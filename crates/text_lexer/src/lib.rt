// The tokens of a formula, from left to right, in a lent array.

#![tactic(auto)]

ghost use Rattle.std.specs.Prelude.{◌≡◌, ◌<◌, ◌≤◌, None, length, drop};
ghost use Rattle.text_formula.specs.Reader.{digit_of, name_of, marked_of, word_token, first_of};
ghost use Rattle.text_lexer.specs.Codes.{found};
ghost use Rattle.text_lexer.specs.Marked.{code_of_mark};
ghost use Rattle.text_lexer.specs.Scanned.{Narrow, Scanned, Scans};
ghost use Rattle.spec_language.specs.Limits.{formula_bytes};

use lib_signature::functions;
use spec_language::limits;
use text_formula::tokens::{LAST_NAME, TOO_LARGE, Token};
use text_marks::{byte_at, digit_of, marks};

const TEN: u8 = 10;

// A token, and how many bytes it takes.
#[derive(Clone, Copy, PartialEq, Eq, Debug, Drop)]
pub struct Found {
    pub token: Token,
    pub bytes: usize,
}

// A name, by the bytes after its letter: b0 to b63, without leading zeros.
fn name_found(b: u8, c: u8, d: u8) -> Option<Found>
    ensures { result ≡ name_of None found (digit_of b) (digit_of c) (digit_of d) }
{
    let x = digit_of(b)?;
    let Some(y) = digit_of(c) else {
        return Some(Found {
            token: Token::Name(x),
            bytes: 2,
        });
    };
    if digit_of(d).is_some() {
        return None;
    }
    if x == 0 {
        return None;
    }
    let i = x * TEN + y;
    if LAST_NAME < i {
        return None;
    }
    Some(Found {
        token: Token::Name(i),
        bytes: 3,
    })
}

// A mark as a token.
fn mark_token(mark: u8) -> Token
    ensures { result ≡ code_of_mark mark }
{
    match mark {
        marks::OPENING => Token::Opening,
        marks::CLOSING => Token::Closing,
        marks::COMMA => Token::Comma,
        f => Token::Function(f),
    }
}

// The token that two bytes begin, where it is no name and no number: a mark, the longer one where there is one, or
// `if`.
fn marked_of(b: u8, c: u8) -> Option<Found>
    ensures { result ≡ marked_of None found b c }
{
    if let Some(long) = text_marks::long_mark(b, c) {
        return Some(Found {
            token: mark_token(long),
            bytes: 2,
        });
    }
    if b == b'i' && c == b'f' {
        return Some(Found {
            token: Token::Function(functions::IF),
            bytes: 2,
        });
    }
    let short = text_marks::short_mark(b)?;
    Some(Found {
        token: mark_token(short),
        bytes: 1,
    })
}

// The token at a place that is no number.
fn word_at(text: &[u8], at: usize) -> Option<Found>
    requires { at < formula_bytes }
    ensures { result ≡ word_token None found (drop at text.now) }
{
    let b = byte_at(text, at);
    let c = byte_at(text, at + 1);
    if b == b'b' {
        return name_found(c, byte_at(text, at + 2), byte_at(text, at + 3));
    }
    marked_of(b, c)
}

// The token at a place.
fn token_at(text: &[u8], at: usize) -> Option<Found>
    requires text_len_bound { length text.now ≤ formula_bytes }
    requires at_in_bounds { at < length text.now }
    ensures scanned { Scanned text.now at result (first_of (drop at text.now)) }
    ensures narrow { Narrow result }
{
    if text_marks::is_digit(text[at]) {
        let n = text_marks::digits_at(text, at, TOO_LARGE);
        return Some(Found {
            token: Token::Number(n.value as u32),
            bytes: n.end - at,
        });
    }
    word_at(text, at)
}

// How many tokens a text is made of, spaces passed over; none where it is not made of tokens.
pub fn scan(text: &[u8], tokens: &mut [Token; limits::FORMULA_BYTES]) -> Option<usize>
    requires { length text.now ≤ formula_bytes }
    ensures { Scans text.now tokens.new result }
{
    let mut at = 0;
    let mut n = 0;
    while at < text.len() {
        if text[at] == b' ' {
            at += 1;
        } else {
            let found = token_at(text, at)?;
            tokens[n] = found.token;
            n += 1;
            at += found.bytes;
        }
    }
    Some(n)
}
