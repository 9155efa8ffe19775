// What the readers of a formula alone and of a sheet's text share: bytes, digits, numbers and the marks of a formula.

#![tactic(auto)]

ghost use Rattle.std.specs.Prelude.{◌≡◌, [], ◌∷◌, ◌≤◌, ◌*◌, ◌+◌, length, get_or, drop};
ghost use Rattle.lib_base.specs.Words.{decimal_base, word_values};
ghost use Rattle.text_formula.specs.Tokens.{decimal_value};
ghost use Rattle.text_marks.specs.Digits.{is_decimal, digit_found, leading_digits, capped_to};
ghost use Rattle.text_marks.specs.Marks.{mark_found};

use lib_signature::functions;

pub mod marks;

const TEN: u64 = 10;

// A number as far as it counts, and the place behind its digits.
#[derive(Drop)]
pub struct Digits {
    pub value: u64,
    pub end: usize,
}

// The byte at a place; 0 past the end.
pub fn byte_at(text: &[u8], at: usize) -> u8
    ensures { result ≡ get_or text.now at 0 }
{
    text.get(at).copied().unwrap_or(0)
}

// A decimal digit. Both tests are made, with no branch between them.
pub fn is_digit(b: u8) -> bool
    ensures { result ≡ is_decimal b }
{
    (b'0' <= b) & (b <= b'9')
}

// A digit's number.
pub fn digit_of(b: u8) -> Option<u8>
    ensures { result ≡ digit_found b }
{
    if is_digit(b) {
        return Some(b - b'0');
    }
    None
}

// A number with one more digit, as far as the limit: larger ones are all alike.
fn with_digit(n: u64, d: u8, limit: u64) -> u64
    requires n_le_limit { n ≤ limit }
    requires limit_le_word_values { limit ≤ word_values }
    ensures { result ≡ capped_to limit (n * decimal_base + d) }
{
    (n * TEN + (d as u64)).min(limit)
}

// The number at a place, as far as there are digits.
pub fn digits_at(text: &[u8], at: usize, limit: u64) -> Digits
    requires at_in_bounds { at ≤ length text.now }
    requires limit_le_word_values { limit ≤ word_values }
    ensures value_value { result.value ≡ capped_to limit (decimal_value 0 (leading_digits (drop at text.now))) }
    ensures value_le_limit { result.value ≤ limit }
    ensures end_value { result.end ≡ at + length (leading_digits (drop at text.now)) }
{
    let mut n: u64 = 0;
    for i in at..text.len() {
        let Some(d) = digit_of(text[i]) else {
            return Digits { value: n, end: i };
        };
        n = with_digit(n, d, limit);
    }
    Digits {
        value: n,
        end: text.len(),
    }
}

// The mark of two bytes.
pub fn long_mark(b: u8, c: u8) -> Option<u8>
    ensures { result ≡ mark_found (b ∷ c ∷ []) }
{
    match (b, c) {
        (b'>', b'=') => Some(functions::AT_LEAST),
        (b'<', b'=') => Some(functions::AT_MOST),
        (b'=', b'=') => Some(functions::EQUAL),
        (b'!', b'=') => Some(functions::UNEQUAL),
        (b'|', b'|') => Some(functions::OR),
        (b'&', b'&') => Some(functions::AND),
        _ => None,
    }
}

// The mark of one byte.
pub fn short_mark(b: u8) -> Option<u8>
    ensures { result ≡ mark_found (b ∷ []) }
{
    match b {
        b'!' => Some(functions::NOT),
        b'+' => Some(functions::ADD),
        b'-' => Some(functions::SUBTRACT),
        b'*' => Some(functions::MULTIPLY),
        b'/' => Some(functions::DIVIDE),
        b'>' => Some(functions::ABOVE),
        b'<' => Some(functions::BELOW),
        b'(' => Some(marks::OPENING),
        b')' => Some(marks::CLOSING),
        b',' => Some(marks::COMMA),
        _ => None,
    }
}
