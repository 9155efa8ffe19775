// How a formula of a sheet's text goes on: the brackets before its first operand, and what follows an operand.

#![tactic(auto)]

ghost use Rattle.std.specs.Prelude.{false, ◌≡◌, ◌+◌, ◌≤◌, ◌<◌, length, get_or};
ghost use Rattle.source_language.specs.Tokens.{in_word};
ghost use Rattle.source_coding.specs.Places.{tokens_from};
ghost use Rattle.source_tokens.specs.Token.{TokenBegins, PassedOver};
ghost use Rattle.source_onward.specs.Onward.{StandsFor, SignStands, LoneMark, NotBegins, IfBegins};
ghost use Rattle.source_onward.specs.Onward.{SignBefore, SignAhead, BracketsOpened};
ghost use Rattle.source_onward.specs.Onward.{joins_in, onward_of, OnwardRead, ReadInside, EndedRead};
ghost use Rattle.lib_signature.specs.Levels.{disjunction};
ghost use Rattle.source_coding.specs.Bounds.{text_bytes};

use lib_signature::{functions, levels};
use source_coding::faults::{Fault, Kind};
use source_coding::signs;
use source_due::sign_due;
use source_field::{Formula, Read};
use source_tokens::{Token, in_word, mark_at, opening_at, pass_over};
use text_marks::byte_at;

// The place of a token, its sign's number, 0 for another token, and the place behind it.
#[derive(Drop)]
pub struct Standing {
    pub place: usize,
    pub sign: u8,
    pub next: usize,
}

// The place where no bracket opens, and how many do before it.
#[derive(Drop)]
pub struct Brackets {
    pub first: usize,
    pub opened: usize,
}

// What follows an operand: nothing of its formula; the `)` of a bracket of it, with the place behind; or an operator,
// with the level of its right operand and the place behind.
#[derive(Clone, Copy, Drop)]
pub enum Onward {
    Ended,
    Closed(usize),
    Operator(u8, u64, usize),
}

// A token's place, sign and place behind it.
fn standing_of(token: Token) -> Standing
    ensures { StandsFor token result.place result.sign result.next }
{
    match token {
        Token::Number(p, v, next) => Standing {
            place: p,
            sign: 0,
            next,
        },
        Token::Name(p, next) => Standing {
            place: p,
            sign: 0,
            next,
        },
        Token::Sign(p, c, next) => Standing {
            place: p,
            sign: c,
            next,
        },
    }
}

// The sign of a token that begins with `!`.
fn not_before(text: &[u8], at: usize) -> Standing
    requires text_len_bound { length text.now ≤ text_bytes }
    requires not_begins { NotBegins text.now at }
    ensures { SignBefore text.now at result.place result.sign result.next }
{
    if byte_at(text, at + 1) != b'=' {
        return Standing {
            place: at,
            sign: functions::NOT,
            next: at + 1,
        };
    }
    standing_of(mark_at(text, at))
}

// The sign of a token that begins with `i`: `if`, or 0 for a name, of which no more than three bytes are read.
fn if_sign(text: &[u8], at: usize) -> u8
    requires text_len_bound { length text.now ≤ text_bytes }
    requires if_begins { IfBegins text.now at }
    ensures { SignBefore text.now at at result (at + 2) }
{
    if byte_at(text, at + 1) != b'f' {
        return 0;
    }
    if in_word(byte_at(text, at + 2)) {
        return 0;
    }
    functions::IF
}

// The sign at a token's place, as far as an operand begins by it: `!` and `if` do, and of a token with another first
// byte no more is read.
pub fn sign_before(text: &[u8], at: usize) -> Standing
    requires text_len_bound { length text.now ≤ text_bytes }
    requires passed_over { PassedOver text.now at at }
    ensures { SignBefore text.now at result.place result.sign result.next }
{
    let b = byte_at(text, at);
    if b == b'!' {
        return not_before(text, at);
    }
    if b != b'i' {
        return Standing {
            place: at,
            sign: 0,
            next: at,
        };
    }
    Standing {
        place: at,
        sign: if_sign(text, at),
        next: at + 2,
    }
}

// The sign of a mark that begins no longer one, where most formulas go on by it; 0 for any other byte.
fn lone_mark(b: u8) -> u8
    ensures { LoneMark b result }
{
    match b {
        b'+' => functions::ADD,
        b'-' => functions::SUBTRACT,
        b'*' => functions::MULTIPLY,
        b'/' => functions::DIVIDE,
        b')' => signs::CLOSING,
        _ => 0,
    }
}

// The sign ahead, as far as a formula goes on by it: it does by no word, of which only the first byte is read, and
// mostly by a mark that is told by its byte. Behind a sign is the place of the next token, for all formulas that end
// there.
fn sign_ahead(text: &[u8], at: usize) -> Standing
    requires text_len_bound { length text.now ≤ text_bytes }
    requires at_in_bounds { at ≤ length text.now }
    ensures { SignAhead text.now at result.place result.sign result.next }
{
    let lone = lone_mark(byte_at(text, at));
    if lone != 0 {
        return Standing {
            place: at,
            sign: lone,
            next: pass_over(text, at + 1),
        };
    }
    let p = pass_over(text, at);
    let none = Standing {
        place: p,
        sign: 0,
        next: p,
    };
    if text.len() <= p {
        return none;
    }
    if in_word(text[p]) {
        return none;
    }
    let standing = standing_of(mark_at(text, p));
    Standing {
        place: standing.place,
        sign: standing.sign,
        next: pass_over(text, standing.next),
    }
}

// The brackets that open from a place on, and the token behind them. A byte above `(` begins another token.
pub fn brackets_at(text: &[u8], at: usize) -> Brackets
    requires text_len_bound { length text.now ≤ text_bytes }
    requires at_in_bounds { at ≤ length text.now }
    ensures { BracketsOpened text.now at result.first result.opened }
{
    if b'(' < byte_at(text, at) {
        return Brackets {
            first: at,
            opened: 0,
        };
    }
    let mut first = at;
    let mut opened = 0;
    loop {
        let next = opening_at(text, first);
        if next == 0 {
            return Brackets {
                first: pass_over(text, first),
                opened: opened,
            };
        }
        first = next;
        opened = opened + 1;
    }
}

// An operator of level t goes on with a formula of a level, inside so many brackets of its own.
fn joins(t: u64, level: u64, opened: usize) -> bool
    ensures { result ≡ joins_in t level opened }
{
    if t == 0 {
        return false;
    }
    if opened == 0 {
        return t <= level;
    }
    t <= levels::DISJUNCTION
}

#[tactic(auto, using(lib_base::proofs::Pick::branches), unfolding(crate::specs::Onward::onward_of))]
// What follows an operand that nests so deep, by the sign there.
fn onward_of(
    place: usize,
    sign: u8,
    next: usize,
    level: u64,
    opened: usize,
    depth: usize,
    room: usize,
) -> Result<Onward, Fault>
    requires { place ≤ text_bytes }
    ensures { result ≡ onward_of place sign next level opened depth room }
{
    let t = lib_signature::level_of(sign);
    if joins(t, level, opened) {
        if depth < room {
            return Ok(Onward::Operator(sign, t - 1, next));
        }
        return Err(Fault {
            kind: Kind::TooDeep,
            place,
        });
    }
    if opened == 0 {
        return Ok(Onward::Ended);
    }
    if sign == signs::CLOSING {
        return Ok(Onward::Closed(next));
    }
    Err(Fault {
        kind: Kind::Outside,
        place,
    })
}

// What follows an operand that nests so deep, in a formula of a level, inside so many brackets of its own. One of the
// lowest level is an operand alone.
pub fn onward_at(
    text: &[u8],
    at: usize,
    level: u64,
    opened: usize,
    depth: usize,
    room: usize,
) -> Result<Onward, Fault>
    requires text_len_bound { length text.now ≤ text_bytes }
    requires at_in_bounds { at ≤ length text.now }
    requires level_le_disjunction { level ≤ disjunction }
    ensures onward_read { OnwardRead text.now at level opened depth room result }
    ensures nonzero { 0 < length (tokens_from text.now at) }
{
    if level == 0 {
        if opened == 0 {
            return Ok(Onward::Ended);
        }
    }
    let standing = sign_ahead(text, at);
    onward_of(
        standing.place,
        standing.sign,
        standing.next,
        level,
        opened,
        depth,
        room,
    )
}

// A closing bracket is due after what was read.
pub fn ended(text: &[u8], r: Read) -> Read
    requires text_len_bound { length text.now ≤ text_bytes }
    requires read_inside { ReadInside (length text.now) r }
    ensures { EndedRead text.now r result }
{
    let formula = r?;
    let closing = sign_due(text, formula.next, signs::CLOSING)?;
    Ok(Formula {
        next: pass_over(text, closing.next),
        ..formula
    })
}
