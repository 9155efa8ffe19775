// What is due at a place of a text: a sign, a name, a number up to a bound, a constant.

#![tactic(auto)]

ghost use Rattle.std.specs.Prelude.{◌≡◌, ◌≤◌, ◌<◌, ◌-◌, ◌%◌, length};
ghost use Rattle.source_language.specs.Tokens.{end_sign};
ghost use Rattle.source_language.specs.Faults.{outside};
ghost use Rattle.source_tokens.specs.Token.{place_of_token, TokenAt, TokenWithin};
ghost use Rattle.source_due.specs.Due.{SignTold, NameTold, NumberTold, ValueTold, DueWithin};
ghost use Rattle.lib_base.specs.Words.{word_values};
ghost use Rattle.source_coding.specs.Bounds.{largest_negated, text_bytes};
ghost use Rattle.source_coding.specs.FaultWords.{fault_of};

use lib_signature::functions;
use source_coding::faults::{Fault, Kind};
use source_coding::limits;
use source_tokens::{Token, place_of, token_at};
use text_formula::tokens;

// What is due: its place, its number (of a sign, a number or a constant; 0 for a name) and the place behind it.
#[derive(Clone, Copy, PartialEq, Eq, Debug, Drop)]
pub struct Found {
    pub place: usize,
    pub number: u64,
    pub next: usize,
}

pub type Due = Result<Found, Fault>;

// The fault that something else is due than the token t.
fn unexpected(t: Token) -> Fault
    ensures { result ≡ fault_of outside (place_of_token t) }
{
    Fault {
        kind: Kind::Outside,
        place: place_of(t),
    }
}

// This sign, where the token t stands.
fn sign_of(text: &[u8], at: usize, t: Token, sign: u8) -> Due
    requires text_len_bound { length text.now ≤ text_bytes }
    requires token_at { TokenAt text.now at t }
    requires token_within { TokenWithin (length text.now) at t }
    requires sign_lt_end_sign { (sign < end_sign) × (0 < sign) }
    ensures sign_told { SignTold text.now at sign result }
    ensures due_within { DueWithin (length text.now) at result }
{
    let Token::Sign(place, c, next) = t else {
        return Err(unexpected(t));
    };
    if c != sign {
        return Err(unexpected(t));
    }
    Ok(Found {
        place,
        number: c as u64,
        next,
    })
}

// This sign.
pub fn sign_due(text: &[u8], at: usize, sign: u8) -> Due
    requires text_len_bound { length text.now ≤ text_bytes }
    requires at_in_bounds { at ≤ length text.now }
    requires sign_lt_end_sign { sign < end_sign }
    requires sign_nonzero { 0 < sign }
    ensures sign_told { SignTold text.now at sign result }
    ensures due_within { DueWithin (length text.now) at result }
{
    sign_of(text, at, token_at(text, at), sign)
}

// A name.
pub fn name_due(text: &[u8], at: usize) -> Due
    requires text_len_bound { length text.now ≤ text_bytes }
    requires at_in_bounds { at ≤ length text.now }
    ensures name_told { NameTold text.now at result }
    ensures due_within { DueWithin (length text.now) at result }
{
    let t = token_at(text, at);
    let Token::Name(place, next) = t else {
        return Err(unexpected(t));
    };
    Ok(Found {
        place,
        number: 0,
        next,
    })
}

// A number of at most `top`, where the token t stands.
fn number_of(text: &[u8], at: usize, t: Token, top: u64) -> Due
    requires text_len_bound { length text.now ≤ text_bytes }
    requires token_at { TokenAt text.now at t }
    requires token_within { TokenWithin (length text.now) at t }
    requires top_le_largest_negated { top ≤ largest_negated }
    ensures number_told { NumberTold text.now at top result }
    ensures due_within { DueWithin (length text.now) at result }
{
    let Token::Number(place, number, next) = t else {
        return Err(unexpected(t));
    };
    if top < number {
        return Err(Fault {
            kind: Kind::LargeNumber,
            place,
        });
    }
    Ok(Found {
        place,
        number,
        next,
    })
}

// A number of at most `top`.
pub fn number_due(text: &[u8], at: usize, top: u64) -> Due
    requires text_len_bound { length text.now ≤ text_bytes }
    requires at_in_bounds { at ≤ length text.now }
    requires top_le_largest_negated { top ≤ largest_negated }
    ensures number_told { NumberTold text.now at top result }
    ensures due_within { DueWithin (length text.now) at result }
{
    number_of(text, at, token_at(text, at), top)
}

// The word of a negative constant, 2 ^ 32 less than which it is.
fn negated(n: u64) -> u64
    requires { n ≤ word_values }
    ensures { result ≡ (word_values - n) % word_values }
{
    (tokens::WORDS - n) % tokens::WORDS
}

// A constant, a number or `-` and a number, where the token t stands.
pub fn value_of(text: &[u8], at: usize, t: Token) -> Due
    requires text_len_bound { length text.now ≤ text_bytes }
    requires token_at { TokenAt text.now at t }
    requires token_within { TokenWithin (length text.now) at t }
    ensures value_told { ValueTold text.now at result }
    ensures due_within { DueWithin (length text.now) at result }
{
    let Ok(minus) = sign_of(text, at, t, functions::SUBTRACT) else {
        return number_of(text, at, t, limits::LARGEST);
    };
    let value = number_due(text, minus.next, limits::LARGEST_NEGATED)?;
    Ok(Found {
        place: minus.place,
        number: negated(value.number),
        next: value.next,
    })
}

// A constant.
pub fn value_at(text: &[u8], at: usize) -> Due
    requires text_len_bound { length text.now ≤ text_bytes }
    requires at_in_bounds { at ≤ length text.now }
    ensures value_told { ValueTold text.now at result }
    ensures due_within { DueWithin (length text.now) at result }
{
    value_of(text, at, token_at(text, at))
}
