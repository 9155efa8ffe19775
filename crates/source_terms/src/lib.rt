// An expression's bytes written as text: each token is handed to the pen, unless the text is over its length; which
// first cell a name has is looked up. Time: one pass over the expression's bytes.

#![tactic(auto)]

ghost use Rattle.std.specs.Prelude.{◌≡◌, [], ◌∷◌, ◌<◌, ◌≤◌, leb, length, drop};
ghost use Rattle.lib_signature.specs.Signature.{level as tightness};
ghost use Rattle.source_rendering.specs.Describe.{described_constant, unless, value_tokens};
ghost use Rattle.source_walk.specs.Heads.{HeadsOf};
ghost use Rattle.source_terms.specs.Terms.{cell_tokens, head_tokens, between_tokens, first_level, second_level, leaf_tokens, term_tokens};
ghost use Rattle.source_terms.specs.Put.{TokensPut};
ghost use Rattle.lib_base.specs.Words.{byte_values, word_values};
ghost use Rattle.source_pen.specs.Lengths.{pen_limit};
ghost use Rattle.source_pen.specs.Kinds.{IsSign, Writable, token_of};

use lib_signature::{functions, levels};
use sheet_field::{sizes, tags};
use sheet_walk::{after_field, byte_from, onward, word_from};
use source_coding::{limits as texts, signs};
use source_pen::Token::{Name, Number, Sign};
use source_pen::{Pen, Token};
use source_walk::BYTE;

// A token; nothing where the text is over its length, as no accepted sheet's is.
#[inline(always)]
pub fn write(pen: &mut Pen, token: Token)
    requires { (pen.old.at ≤ pen_limit) × Writable token }
    ensures { TokensPut pen.old pen.new (token_of token ∷ []) }
{
    if pen.at <= texts::TEXT_BYTES {
        pen.put(token);
    }
}

// The first word that is a negative constant.
const NEGATIVE: u64 = lib_arith::NEGATIVE as u64;

// A constant.
pub fn write_value(pen: &mut Pen, w: u64)
    requires { (pen.old.at ≤ pen_limit) × (w < word_values) }
    ensures { TokensPut pen.old pen.new (value_tokens (described_constant w) []) }
{
    if w < NEGATIVE {
        write(pen, Number(w));
    } else {
        write(pen, Sign(functions::SUBTRACT));
        write(pen, Number(lib_word::WORD_VALUES - w));
    }
}

// The first letters of behaviours' and parameters' names.
pub const BEHAVIOUR: u8 = b'b';

pub const PARAMETER: u8 = b'p';

// Behaviour i, whose field has the first cell h.
fn put_cell(pen: &mut Pen, h: usize, i: usize)
    requires { (pen.old.at ≤ pen_limit) × (h ≤ i) × (i < byte_values) }
    ensures { TokensPut pen.old pen.new (cell_tokens h i) }
{
    write(pen, Name(BEHAVIOUR, h));
    if h < i {
        write(pen, Sign(signs::BRACKET));
        write(pen, Number((i - h) as u64));
        write(pen, Sign(signs::UNBRACKET));
    }
}

// An expression that is no application: a constant, a name or a parameter. The behaviours stand from `first` on, as
// the contract says; which first cells they have is looked up in `heads`. So it is in what follows.
fn write_leaf(s: &[u8], first: usize, heads: &[u8; BYTE], at: usize, pen: &mut Pen)
    requires first_in_bounds { (first ≤ length s.now) × (at ≤ length s.now) × HeadsOf s.now first heads.now }
    requires at_le_pen_limit { pen.old.at ≤ pen_limit }
    ensures { TokensPut pen.old pen.new (leaf_tokens (length s.now) (drop first s.now) (drop at s.now)) }
{
    let i = byte_from(s, at, sizes::HEADER) as usize;
    match byte_from(s, at, 0) {
        tags::CONSTANT => write_value(pen, word_from(s, onward(s, at, sizes::HEADER))),
        tags::NAME => put_cell(pen, heads[i] as usize, i),
        _ => write(pen, Name(PARAMETER, i)),
    }
}

// The level that is due for a function's first argument.
fn first_level(f: u8) -> u64
    ensures { result ≡ first_level f }
{
    match f {
        functions::IF => levels::DISJUNCTION,
        _ => lib_signature::level_of(f),
    }
}

// And for the second: one tighter, for operators group to the left.
fn second_level(f: u8) -> u64
    ensures { result ≡ second_level f }
{
    match f {
        functions::IF => levels::DISJUNCTION,
        _ => lib_signature::level_of(f).saturating_sub(1),
    }
}

// A bracket, unless the operator is tight enough to do without.
#[inline(always)]
fn put_unless(pen: &mut Pen, f: u8, level: u64, c: u8)
    requires { (pen.old.at ≤ pen_limit) × IsSign c }
    ensures { TokensPut pen.old pen.new (unless (leb (tightness f) level) c []) }
{
    if level < lib_signature::level_of(f) {
        write(pen, Sign(c));
    }
}

// Before the first argument of a function.
fn put_head(pen: &mut Pen, f: u8, level: u64)
    requires { pen.old.at ≤ pen_limit }
    ensures { TokensPut pen.old pen.new (head_tokens f level) }
{
    match f {
        functions::NOT => write(pen, Sign(f)),
        functions::IF => {
            write(pen, Sign(f));
            write(pen, Sign(signs::OPENING));
        }
        _ => put_unless(pen, f, level, signs::OPENING),
    }
}

// Between its first two.
fn put_between(pen: &mut Pen, f: u8)
    requires { pen.old.at ≤ pen_limit }
    ensures { TokensPut pen.old pen.new (between_tokens f) }
{
    match f {
        functions::IF => write(pen, Sign(signs::COMMA)),
        1..=functions::LAST => write(pen, Sign(f)),
        _ => {}
    }
}

// The level of the loosest operators: where it is due, nothing is in brackets.
pub const LOOSEST: u64 = levels::DISJUNCTION;

// An expression's place, how deep it may nest, and the level that is due.
#[derive(Drop)]
pub struct Expression {
    pub at: usize,
    pub room: usize,
    pub level: u64,
}

// The expression at its place.
pub fn put_term(s: &[u8], first: usize, heads: &[u8; BYTE], due: Expression, pen: &mut Pen)
    requires first_in_bounds { (first ≤ length s.now) × (due.at ≤ length s.now) × HeadsOf s.now first heads.now }
    requires at_le_pen_limit { pen.old.at ≤ pen_limit }
    ensures { TokensPut pen.old pen.new
        (term_tokens (length s.now) (drop first s.now) due.room due.level (drop due.at s.now)) }
{
    if due.room == 0 {
        return;
    }
    if byte_from(s, due.at, 0) != tags::APPLICATION {
        write_leaf(s, first, heads, due.at, pen);
        return;
    }
    let room = due.room - 1;
    let f = byte_from(s, due.at, sizes::HEADER);
    let one = onward(s, due.at, sizes::BYTE_HEAD);
    put_head(pen, f, due.level);
    put_term(
        s,
        first,
        heads,
        Expression {
            at: one,
            room,
            level: first_level(f),
        },
        pen,
    );
    if f == functions::NOT {
        return;
    }
    let two = after_field(s, one);
    put_between(pen, f);
    put_term(
        s,
        first,
        heads,
        Expression {
            at: two,
            room,
            level: second_level(f),
        },
        pen,
    );
    if f != functions::IF {
        put_unless(pen, f, due.level, signs::CLOSING);
        return;
    }
    let three = after_field(s, two);
    write(pen, Sign(signs::COMMA));
    put_term(
        s,
        first,
        heads,
        Expression {
            at: three,
            room,
            level: LOOSEST,
        },
        pen,
    );
    write(pen, Sign(signs::CLOSING));
}
