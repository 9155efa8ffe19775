// What stands at a place of a formula's tokens, and what a reading has come to: the parts of the level functions that
// do not call them.

#![tactic(auto)]

ghost use Rattle.std.specs.Prelude.{true, IsSome, ◌≡◌, ◌<◌, ◌≤◌, ◌+◌, length, eqb};
ghost use Rattle.text_phrase.specs.Phrase.{operator_in, mark_code, bracket_at, under_of, closed_of, wrapped_in, ended_in, leaf_read, leaf_out, Closable};
ghost use Rattle.sheet_field.specs.Sizes.{longest_value};
ghost use Rattle.spec_language.specs.Limits.{formula_bytes};

use sheet_field::{sizes, tags};
use text_formula::tokens::Token;

// What a reading has come to: the place of the next token, the end of the bytes written and the nesting.
#[derive(Clone, Copy, PartialEq, Eq, Debug, Drop)]
pub struct Read {
    pub at: usize,
    pub end: usize,
    pub depth: usize,
}

// The two-sided operator of a level, 1 for `* /` to 6 for `||`, where one stands at a place.
#[tactic(auto, using(lib_base::proofs::Pick::branches), unfolding(crate::specs::Phrase::operator_in))]
pub fn operator_at(ts: &[Token], at: usize, level: u64) -> Option<u8>
    ensures value { result ≡ operator_in ts.now at level }
    ensures at_in_bounds { IsSome result → at < length ts.now }
{
    match ts.get(at) {
        Some(Token::Function(f)) if lib_signature::level_of(*f) == level => Some(*f),
        _ => None,
    }
}

// A bracket or the comma stands at a place.
#[tactic(auto, unfolding(crate::specs::Phrase::bracket_at))]
pub fn stands(ts: &[Token], at: usize, mark: Token) -> bool
    requires { 0 < mark_code mark }
    ensures value { result ≡ eqb (bracket_at ts.now at) (mark_code mark) }
    ensures at_in_bounds { result ≡ true → at < length ts.now }
{
    ts.get(at) == Some(&mark)
}

// A reading after others of nesting d.
pub fn under(d: usize, r: Option<Read>) -> Option<Read>
    ensures { result ≡ under_of d r }
{
    let read = r?;
    Some(Read {
        depth: lib_order::larger_size(d, read.depth),
        ..read
    })
}

// The arguments from `start` on become an application of function f; those before r's nest d deep.
pub fn close(f: u8, start: usize, d: usize, r: Option<Read>, out: &mut [u8]) -> Option<Read>
    requires closable { Closable start d (length out.old) r }
    requires out_len_bound { length out.old ≤ longest_value }
    ensures value { result ≡ closed_of d r }
    ensures out_after { out.new ≡ wrapped_in f start r out.old }
{
    let r = r?;
    sheet_write::wrap_application(out, start, r.end, f);
    Some(Read {
        at: r.at,
        end: r.end + sizes::BYTE_HEAD,
        depth: lib_order::larger_size(d, r.depth) + 1,
    })
}

// A closing bracket is due.
#[tactic(auto, using(lib_base::proofs::Pick::branches))]
pub fn ended(ts: &[Token], r: Option<Read>) -> Option<Read>
    ensures { result ≡ ended_in ts.now r }
{
    let r = r?;
    if !stands(ts, r.at, Token::Closing) {
        return None;
    }
    Some(Read { at: r.at + 1, ..r })
}

// A number or a name, or no expression.
#[tactic(auto, unfolding(crate::specs::Phrase::leaf_read, crate::specs::Phrase::leaf_out))]
pub fn leaf(t: Token, at: usize, out: &mut [u8], n: usize) -> Option<Read>
    requires n_le_longest_value { n ≤ longest_value }
    requires at_lt_formula_bytes { at < formula_bytes }
    ensures value { result ≡ leaf_read t at n }
    ensures out_after { out.new ≡ leaf_out t n out.old }
{
    match t {
        Token::Number(v) => {
            sheet_write::put_word_field(out, n, tags::CONSTANT, v);
            Some(Read {
                at: at + 1,
                end: n + sizes::WORD_FIELD,
                depth: 1,
            })
        }
        Token::Name(i) => {
            sheet_write::put_byte_field(out, n, tags::NAME, i);
            Some(Read {
                at: at + 1,
                end: n + sizes::BYTE_FIELD,
                depth: 1,
            })
        }
        _ => None,
    }
}
