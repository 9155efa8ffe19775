// The end of a behaviour's value: who may see it, from a field 08 or from nothing (02, M-107).

#![tactic(auto)]

ghost use Rattle.std.specs.Prelude.{◌≡◌, ◌<◌};
ghost use Rattle.front_field.specs.Expression.{out};
ghost use Rattle.front_viewers.specs.Ending.{viewer_at, viewer_of, ending_of, EndIn};
ghost use Rattle.spec_language.specs.Limits.{behaviour_limit};

use draft_form::{Draft, layout};
use front_field::{Done, Read};
use sheet_field::{places, sizes, tags};
use spec_language::refusals::Refusal;

// The value v of a field 08 at the front of `left` bytes: who may see behaviour i. The behaviour's field takes `all`
// bytes, the next node goes to place n.
#[tactic(auto, using(lib_base::proofs::Pick::branches), unfolding(crate::specs::Ending::viewer_at))]
fn take_viewer(v: &[u8], left: usize, i: usize, draft: &mut Draft, all: usize, n: usize) -> Read
    requires { i < behaviour_limit }
    ensures draft_after { out result draft.new ≡ viewer_at v.now left i draft.old all n }
    ensures end_in { EndIn all n result }
{
    if v.len() != sizes::BYTE || left != sizes::BYTE_FIELD {
        return Err(Refusal::WrongLength);
    }
    draft[layout::VIEWERS + i] = v[places::VIEWERS] as u64;
    Ok(Done { size: all, next: n })
}

// A field 08 at the front of s.
#[tactic(auto, using(lib_base::proofs::Pick::branches), unfolding(crate::specs::Ending::viewer_of))]
fn read_viewer(s: &[u8], i: usize, draft: &mut Draft, all: usize, n: usize) -> Read
    requires { i < behaviour_limit }
    ensures draft_after { out result draft.new ≡ viewer_of s.now i draft.old all n }
    ensures end_in { EndIn all n result }
{
    let a = sheet_field::field_answer(s, tags::VIEWERS, tags::VIEWERS);
    let Ok(_) = a else {
        return Err(a.unwrap_err());
    };
    take_viewer(
        sheet_field::field_value(s, tags::VIEWERS, tags::VIEWERS),
        s.len(),
        i,
        draft,
        all,
        n,
    )
}

// What is left of behaviour i's value after its own part: a field 08 and nothing else, or nothing.
#[tactic(auto, using(lib_base::proofs::Pick::branches), unfolding(crate::specs::Ending::ending_of))]
pub fn read_ending(s: &[u8], i: usize, draft: &mut Draft, all: usize, n: usize) -> Read
    requires { i < behaviour_limit }
    ensures draft_after { out result draft.new ≡ ending_of s.now i draft.old all n }
    ensures end_in { EndIn all n result }
{
    if s.len() == 0 {
        draft[layout::VIEWERS + i] = layout::EVERYONE;
        return Ok(Done { size: all, next: n });
    }
    if s[0] != tags::VIEWERS {
        return Err(Refusal::WrongLength);
    }
    read_viewer(s, i, draft, all, n)
}
