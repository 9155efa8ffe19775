// The reader of expressions.

#![tactic(auto)]

ghost use Rattle.std.specs.Prelude.{◌≡◌, ◌<◌, ◌≤◌, ◌*◌, ◌+◌, ◌-◌, ◌^◌, length};
ghost use Rattle.draft_form.specs.Draft.{draft_length};
ghost use Rattle.front_field.specs.Expression.{head_at, head_of, expression_value, HeadIn, out, close_at, expr_of, ReadIn, CloseIn};
ghost use Rattle.sheet_field.specs.Sizes.{byte_field};
ghost use Rattle.spec_language.specs.Limits.{sheet_bytes};

use draft_form::{Draft, layout};
use lib_signature::functions;
use sheet_field::{places, sizes, tags};
use spec_language::refusals::Refusal;

const LAST_PARAMETER: u8 = spec_language::limits::PARAMETERS as u8 - 1;

// What an expression field begins with: a leaf's node and size, or an application's function.
#[derive(Clone, Copy, PartialEq, Eq, Debug, Drop)]
pub enum Head {
    Leaf(u64, usize),
    Apply(u8),
}

// What a reading gives: the bytes that it takes, and the next free place for a node. That place goes beside the draft,
// not into one struct with it: a fault leaves nodes in the draft and has no next place.
#[derive(Clone, Copy, PartialEq, Eq, Debug, Drop)]
pub struct Done {
    pub size: usize,
    pub next: usize,
}

pub type Read = Result<Done, Refusal>;

// What a field with tag t and value v begins, with `left` levels of nesting left.
#[tactic(auto, using(lib_base::proofs::Pick::branches), unfolding(crate::specs::Expression::head_at))]
fn head_of(left: usize, t: u8, v: &[u8]) -> Result<Head, Refusal>
    ensures value { result ≡ head_at left t v.now }
    ensures head_in { HeadIn left (length v.now) result }
{
    if left == 0 {
        return Err(Refusal::TooDeep);
    }
    match t {
        tags::CONSTANT => {
            if v.len() != sizes::WORD {
                return Err(Refusal::WrongLength);
            }
            Ok(Head::Leaf(
                layout::CONSTANT_NODE + (lib_word::get_at(v, 0) as u64),
                sizes::WORD_FIELD,
            ))
        }
        tags::NAME => {
            if v.len() != sizes::BYTE {
                return Err(Refusal::WrongLength);
            }
            Ok(Head::Leaf(
                layout::NAME_NODE + (v[places::NUMBER] as u64),
                sizes::BYTE_FIELD,
            ))
        }
        tags::PARAMETER => {
            if v.len() != sizes::BYTE {
                return Err(Refusal::WrongLength);
            }
            if LAST_PARAMETER < v[places::NUMBER] {
                return Err(Refusal::OffScale);
            }
            Ok(Head::Leaf(
                layout::PARAMETER_NODE + (v[places::NUMBER] as u64),
                sizes::BYTE_FIELD,
            ))
        }
        _ => {
            if v.len() == 0 {
                return Err(Refusal::WrongLength);
            }
            if v[places::FUNCTION] == 0 || functions::LAST < v[places::FUNCTION] {
                return Err(Refusal::OffScale);
            }
            Ok(Head::Apply(v[places::FUNCTION]))
        }
    }
}

// What the expression field at the front of s begins.
fn read_head(left: usize, s: &[u8]) -> Result<Head, Refusal>
    ensures value { result ≡ head_of left s.now }
    ensures head_in { HeadIn left (length (expression_value s.now)) result }
    ensures s_in_bounds { length (expression_value s.now) ≤ length s.now - 3 }
{
    let a = sheet_field::field_answer(s, tags::CONSTANT, tags::PARAMETER);
    let Ok(header) = a else {
        return Err(a.unwrap_err());
    };
    head_of(
        left,
        header.tag,
        sheet_field::field_value(s, tags::CONSTANT, tags::PARAMETER),
    )
}

// The node of an application whose arguments end at `at`, in a value of `size` bytes.
#[tactic(auto, using(lib_base::proofs::Pick::branches), unfolding(crate::specs::Expression::close_at))]
fn close_at(f: u8, size: usize, at: usize, draft: &mut Draft, m: usize) -> Read
    requires m_in_bounds { m < draft_length }
    requires at_bound { at + 3 < 2 ^ 64 }
    ensures draft_after { out result draft.new ≡ close_at f size at draft.old m }
    ensures close_in { CloseIn size at m result }
{
    if at != size {
        return Err(Refusal::WrongLength);
    }
    draft[m] = layout::APPLICATION_NODE + (f as u64);
    Ok(Done {
        size: at + sizes::HEADER,
        next: m + 1,
    })
}

// One expression at the front of s, with `left` levels of nesting left. Its nodes go into the draft from place n on.
pub fn read_expr(left: usize, s: &[u8], draft: &mut Draft, n: usize) -> Read
    requires { n * byte_field + length s.now ≤ sheet_bytes }
    ensures draft_after { out result draft.new ≡ expr_of left s.now draft.old n }
    ensures read_in { ReadIn (length s.now) n result }
{
    match read_head(left, s)? {
        Head::Leaf(node, size) => {
            draft[n] = node;
            Ok(Done { size, next: n + 1 })
        }
        Head::Apply(f) => {
            let v = sheet_field::field_value(s, tags::CONSTANT, tags::PARAMETER);
            let mut at = places::ARGUMENTS;
            let mut m = n;
            for _ in 0..lib_signature::arity_of(f) {
                let argument = read_expr(left - 1, &v[at..], draft, m)?;
                at += argument.size;
                m = argument.next;
            }
            close_at(f, v.len(), at, draft, m)
        }
    }
}
