// The token at a place of a text: docs/SHEETS.md "Tokens".

#![tactic(auto)]

ghost use Rattle.std.specs.Prelude.{true, false, Some, None, eqb, ◌≡◌, [], ◌∷◌, ◌≤◌, ◌<◌, ◌+◌, length, get_or, take, drop};
ghost use Rattle.lib_base.specs.Basics.{pick};
ghost use Rattle.source_language.specs.Tokens.{marks, reserved, same, sign_of, is_digit, is_letter, in_word, is_blank, in_comment};
ghost use Rattle.source_language.specs.Scanner.{run_of_kind};
ghost use Rattle.source_tokens.specs.Token.{place_of_token, TokenAt, TokenWithin, TokenBegins, PassedOver, OpeningAt};
ghost use Rattle.source_coding.specs.Bounds.{text_bytes};

use lib_signature::functions;
use source_coding::{limits, signs};
pub use text_marks::byte_at;
use text_marks::is_digit;

// A token with its place and the place behind it: a number as far as 2 ^ 31 + 1 between them, a name, a sign with its
// number between them. The end of the text and a stray byte have their own place behind them.
#[derive(Clone, Copy)]
pub enum Token {
    Number(usize, u64, usize),
    Name(usize, usize),
    Sign(usize, u8, usize),
}

// The place of a token.
pub fn place_of(token: Token) -> usize
    ensures { result ≡ place_of_token token }
{
    match token {
        Token::Number(p, _, _) => p,
        Token::Name(p, _) => p,
        Token::Sign(p, _, _) => p,
    }
}

// A letter or `_`.
fn is_letter(b: u8) -> bool
    ensures { result ≡ is_letter b }
{
    ((b'A' <= b) & (b <= b'Z')) | (((b'a' <= b) & (b <= b'z')) | (b == b'_'))
}

// A letter, a digit or `_`. All tests are made, with no branch between them, which names of mixed bytes would mislead.
pub fn in_word(b: u8) -> bool
    ensures { result ≡ in_word b }
{
    is_letter(b) | is_digit(b)
}

// Space, tab, line feed, carriage return.
#[tactic(auto, using(lib_base::proofs::Pick::branches), unfolding(source_language::specs::Tokens::is_blank))]
fn is_blank(b: u8) -> bool
    ensures { result ≡ is_blank b }
{
    matches!(b, b' ' | b'\n' | b'\t' | b'\r')
}

// Where the line ends that a place is in.
fn line_end(text: &[u8], at: usize) -> usize
    requires { at ≤ length text.now }
    ensures { result ≡ at + length (run_of_kind in_comment (drop at text.now)) }
{
    for i in at..text.len() {
        if text[i] == b'\n' {
            return i;
        }
    }
    text.len()
}

// The first place that is in no blank and no comment.
pub fn pass_over(text: &[u8], at: usize) -> usize
    requires { at ≤ length text.now }
    ensures { PassedOver text.now at result }
{
    let mut i = at;
    while i < text.len() {
        let b = text[i];
        if is_blank(b) {
            i = i + 1;
        } else {
            if b != b'#' {
                return i;
            }
            i = line_end(text, i + 1);
        }
    }
    i
}

// Where the word ends that begins at a place.
pub fn word_end(text: &[u8], at: usize) -> usize
    requires { at ≤ length text.now }
    ensures { result ≡ at + length (run_of_kind in_word (drop at text.now)) }
{
    for i in at..text.len() {
        if !in_word(text[i]) {
            return i;
        }
    }
    text.len()
}

// The sign where a text's n bytes are this word, else the other one.
fn spelled(text: &[u8], at: usize, n: usize, word: &[u8], sign: u8, other: u8) -> u8
    requires { at + n ≤ length text.now }
    ensures { result ≡ pick (same (take n (drop at text.now)) word.now) sign other }
{
    if n != word.len() {
        return other;
    }
    for i in 0..n {
        if text[at + i] != word[i] {
            return other;
        }
    }
    sign
}

// The sign that a word of n bytes is; 0 for a name. No more than two reserved words begin alike.
fn reserved_at(text: &[u8], at: usize, n: usize) -> u8
    requires n_in_bounds { at + n ≤ length text.now }
    requires n_nonzero { 0 < n }
    ensures { result ≡ sign_of (take n (drop at text.now)) reserved }
{
    match text[at] {
        b'a' => spelled(text, at, n, b"active", signs::ACTIVE, 0),
        b'b' => spelled(text, at, n, b"by", signs::BY, 0),
        b'e' => spelled(text, at, n, b"event", signs::EVENT, 0),
        b'f' => spelled(text, at, n, b"from", signs::FROM, 0),
        b'i' => spelled(text, at, n, b"if", functions::IF, 0),
        b'l' => spelled(text, at, n, b"later", signs::LATER, 0),
        b'n' => spelled(text, at, n, b"nobody", signs::NOBODY, 0),
        b'o' => spelled(text, at, n, b"on", signs::ON, 0),
        b'p' => spelled(
            text,
            at,
            n,
            b"param",
            signs::PARAM,
            spelled(text, at, n, b"passive", signs::PASSIVE, 0),
        ),
        b'r' => spelled(
            text,
            at,
            n,
            b"rank",
            signs::RANK,
            spelled(text, at, n, b"row", signs::ROW, 0),
        ),
        b's' => spelled(text, at, n, b"seen", signs::SEEN, 0),
        _ => 0,
    }
}

// The sign of a mark of one byte.
fn short_sign(b: u8) -> Option<u8>
    ensures { result ≡ pick (eqb (sign_of (b ∷ []) marks) 0) None (Some (sign_of (b ∷ []) marks)) }
{
    match b {
        b':' => Some(signs::COLON),
        b'=' => Some(signs::EQUALS),
        b'[' => Some(signs::BRACKET),
        b']' => Some(signs::UNBRACKET),
        _ => text_marks::short_mark(b),
    }
}

// The mark at a place, the longer one where there is one.
pub fn mark_at(text: &[u8], at: usize) -> Token
    requires token_begins { TokenBegins text.now at }
    requires at_value { in_word (get_or text.now at 0) ≡ false }
    ensures token_at { TokenAt text.now at result }
    ensures token_within { TokenWithin (length text.now) at result }
{
    let b = text[at];
    let next = at + 1;
    if let Some(long) = text_marks::long_mark(b, byte_at(text, next)) {
        return Token::Sign(at, long, at + 2);
    }
    if let Some(short) = short_sign(b) {
        return Token::Sign(at, short, next);
    }
    Token::Sign(at, signs::STRAY, at)
}

// The word at a place: reserved, a name, or stray where it is too long.
fn word_at(text: &[u8], at: usize) -> Token
    requires token_begins { TokenBegins text.now at }
    requires at_value { in_word (get_or text.now at 0) ≡ true }
    requires at_value_2 { is_digit (get_or text.now at 0) ≡ false }
    ensures token_at { TokenAt text.now at result }
    ensures token_within { TokenWithin (length text.now) at result }
{
    let next = word_end(text, at);
    let n = next - at;
    if limits::NAME_BYTES < n {
        return Token::Sign(at, signs::STRAY, at);
    }
    let sign = reserved_at(text, at, n);
    if sign == 0 {
        return Token::Name(at, next);
    }
    Token::Sign(at, sign, next)
}

// The token that begins at a place.
fn token_of(text: &[u8], at: usize) -> Token
    requires { TokenBegins text.now at }
    ensures token_at { TokenAt text.now at result }
    ensures token_within { TokenWithin (length text.now) at result }
{
    let b = text[at];
    if is_digit(b) {
        let n = text_marks::digits_at(text, at, limits::TOO_LARGE);
        return Token::Number(at, n.value, n.end);
    }
    if in_word(b) {
        return word_at(text, at);
    }
    mark_at(text, at)
}

// The first token from a place on.
pub fn token_at(text: &[u8], at: usize) -> Token
    requires text_len_bound { length text.now ≤ text_bytes }
    requires at_in_bounds { at ≤ length text.now }
    ensures token_at { TokenAt text.now at result }
    ensures token_within { TokenWithin (length text.now) at result }
{
    let p = pass_over(text, at);
    if p < text.len() {
        return token_of(text, p);
    }
    Token::Sign(p, signs::END, p)
}

// The place behind an opening bracket, where that is the first token from a place on; else 0. No other token is read.
pub fn opening_at(text: &[u8], at: usize) -> usize
    requires text_len_bound { length text.now ≤ text_bytes }
    requires at_in_bounds { at ≤ length text.now }
    ensures { OpeningAt text.now at result }
{
    let p = pass_over(text, at);
    if byte_at(text, p) == b'(' {
        return p + 1;
    }
    0
}
