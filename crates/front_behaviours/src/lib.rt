// The reader of one behaviour and its handlers: from the bytes of its field to its place in the draft, the first fault
// met from left to right.

#![tactic(auto)]

ghost use Rattle.std.specs.Prelude.{◌≡◌, ◌<◌, ◌≤◌, ◌*◌, ◌+◌, length};
ghost use Rattle.front_field.specs.Expression.{out, ReadIn};
ghost use Rattle.front_behaviours.specs.Handler.{entry_at, handler_at, handler_of, handlers_of, BodyIn, EntryPlaced, InLimits, RowInLimits};
ghost use Rattle.front_behaviours.specs.Behaviour.{passive_of, active_body, active_of, cells_of, row_of, value_at, behaviour_of, Counted};
ghost use Rattle.sheet_field.specs.Sizes.{byte_field, word_field};
ghost use Rattle.spec_language.specs.Limits.{behaviour_limit, event_limit, sheet_bytes};

use draft_form::{Draft, layout};
use front_field::{Done, Read};
use sheet_field::{places, sizes, tags};
use spec_language::limits;
use spec_language::refusals::Refusal;

// An expression that fills v, of nesting at most 16; its entry goes to `place`. The field has `over` bytes before v.
#[tactic(auto, using(lib_base::proofs::Pick::branches), unfolding(crate::specs::Handler::entry_at))]
fn read_entry(v: &[u8], draft: &mut Draft, n: usize, place: usize, kind: u64, over: usize) -> Read
    requires v_bound { n * byte_field + length v.now ≤ sheet_bytes }
    requires entry_placed { EntryPlaced place kind over }
    ensures draft_after { out result draft.new ≡ entry_at v.now draft.old n place kind over }
    ensures body_in { BodyIn (length v.now + over) n result }
{
    let Done { size, next: m } = front_field::read_expr(limits::NESTING, v, draft, n)?;
    if size != v.len() {
        return Err(Refusal::WrongLength);
    }
    draft[place] = draft_form::pack_entry(kind, n, m - n);
    Ok(Done {
        size: size + over,
        next: m,
    })
}

// A handler's value: event, phase, doubled, expression. `events` are declared; the handler is one of behaviour i.
#[tactic(auto, using(lib_base::proofs::Pick::branches), unfolding(crate::specs::Handler::handler_at))]
fn read_handler_value(v: &[u8], events: usize, i: usize, draft: &mut Draft, n: usize) -> Read
    requires v_bound { n * byte_field + length v.now ≤ sheet_bytes }
    requires in_limits { InLimits events i }
    ensures draft_after { out result draft.new ≡ handler_at v.now events i draft.old n }
    ensures body_in { BodyIn (length v.now + 3) n result }
{
    if v.len() == 0 {
        return Err(Refusal::WrongLength);
    }
    let e = v[places::EVENT] as usize;
    if events <= e {
        return Err(Refusal::OffScale);
    }
    if v.len() == places::PHASE {
        return Err(Refusal::WrongLength);
    }
    let phase = v[places::PHASE];
    if 1 < phase {
        return Err(Refusal::OffScale);
    }
    let place = layout::HANDLERS + i * limits::EVENTS + e;
    if draft[place] != 0 {
        return Err(Refusal::Doubled);
    }
    read_entry(
        &v[places::REACTION..],
        draft,
        n,
        place,
        layout::IMMEDIATE + u64::from(phase),
        sizes::HANDLER_HEAD,
    )
}

// A handler at the front of s.
#[tactic(auto, using(lib_base::proofs::Pick::branches), unfolding(crate::specs::Handler::handler_of))]
fn read_handler(s: &[u8], events: usize, i: usize, draft: &mut Draft, n: usize) -> Read
    requires s_bound { n * byte_field + length s.now ≤ sheet_bytes }
    requires in_limits { InLimits events i }
    ensures draft_after { out result draft.new ≡ handler_of s.now events i draft.old n }
    ensures read_in { ReadIn (length s.now) n result }
{
    let a = sheet_field::field_answer(s, tags::HANDLER, tags::HANDLER);
    let Ok(_) = a else {
        return Err(a.unwrap_err());
    };
    read_handler_value(
        sheet_field::field_value(s, tags::HANDLER, tags::HANDLER),
        events,
        i,
        draft,
        n,
    )
}

// The handlers of behaviour i, whose value is v, after its start, up to the end or a tag 08: the place after them.
fn read_handlers(v: &[u8], events: usize, i: usize, draft: &mut Draft, n: usize) -> Read
    requires word_field_in_bounds { word_field ≤ length v.now }
    requires v_bound { n * byte_field + length v.now ≤ sheet_bytes }
    requires in_limits { InLimits events i }
    ensures draft_after { out result draft.new ≡ handlers_of (length v.now) v.now word_field events i draft.old n }
    ensures read_in { ReadIn (length v.now) n result }
{
    let mut at = sizes::WORD_FIELD;
    let mut m = n;
    // a field's size tells where the next one stands: there is no count to go by
    while at != v.len() {
        if v[at] == tags::VIEWERS {
            return Ok(Done { size: at, next: m });
        }
        let handler = read_handler(&v[at..], events, i, draft, m)?;
        at += handler.size;
        m = handler.next;
    }
    Ok(Done { size: at, next: m })
}

// What follows an active's start in its value v: its handlers, then who may see it.
#[tactic(auto, using(lib_base::proofs::Pick::branches), unfolding(crate::specs::Behaviour::active_body))]
fn read_body(v: &[u8], events: usize, i: usize, draft: &mut Draft, n: usize) -> Read
    requires word_field_in_bounds { word_field ≤ length v.now }
    requires v_bound { n * byte_field + length v.now ≤ sheet_bytes }
    requires in_limits { InLimits events i }
    ensures draft_after { out result draft.new ≡ active_body v.now events i draft.old n }
    ensures body_in { BodyIn (length v.now + 3) n result }
{
    let Done { size: at, next: m } = read_handlers(v, events, i, draft, n)?;
    front_viewers::read_ending(&v[at..], i, draft, v.len() + sizes::HEADER, m)
}

// An active's value: its start, then its handlers and who may see it.
#[tactic(auto, using(lib_base::proofs::Pick::branches), unfolding(crate::specs::Behaviour::active_of))]
fn read_active(v: &[u8], events: usize, i: usize, draft: &mut Draft, n: usize) -> Read
    requires v_bound { n * byte_field + length v.now ≤ sheet_bytes }
    requires in_limits { InLimits events i }
    ensures draft_after { out result draft.new ≡ active_of v.now events i draft.old n }
    ensures body_in { BodyIn (length v.now + 3) n result }
{
    let a = sheet_field::field_answer(v, tags::START, tags::START);
    let Ok(header) = a else {
        return Err(a.unwrap_err());
    };
    if header.size != sizes::WORD {
        return Err(Refusal::WrongLength);
    }
    let w = sheet_field::field_value(v, tags::START, tags::START);
    draft[layout::STARTS + i] = lib_word::get_at(w, 0) as u64;
    read_body(v, events, i, draft, n)
}

// A passive's value: its expression, then who may see it.
#[tactic(auto, using(lib_base::proofs::Pick::branches), unfolding(crate::specs::Behaviour::passive_of))]
fn read_passive(v: &[u8], i: usize, draft: &mut Draft, n: usize) -> Read
    requires v_bound { n * byte_field + length v.now ≤ sheet_bytes }
    requires i_lt_behaviour_limit { i < behaviour_limit }
    ensures draft_after { out result draft.new ≡ passive_of v.now i draft.old n }
    ensures body_in { BodyIn (length v.now + 3) n result }
{
    let Done { size, next: m } = front_field::read_expr(limits::NESTING, v, draft, n)?;
    draft[layout::PASSIVES + i] = draft_form::pack_entry(layout::PASSIVE, n, m - n);
    front_viewers::read_ending(&v[size..], i, draft, v.len() + sizes::HEADER, m)
}

// A row of count cells from behaviour i on, with the value v after the count: the first is read as an active, the
// others are its copies.
#[tactic(auto, using(lib_base::proofs::Pick::branches), unfolding(crate::specs::Behaviour::cells_of))]
fn read_cells(v: &[u8], count: usize, events: usize, i: usize, draft: &mut Draft, n: usize) -> Read
    requires v_bound { n * byte_field + length v.now ≤ sheet_bytes }
    requires row_in_limits { RowInLimits events i count }
    ensures draft_after { out result draft.new ≡ cells_of v.now count events i draft.old n }
    ensures body_in { BodyIn (length v.now + byte_field) n result }
{
    let Done { size, next: m } = read_active(v, events, i, draft, n)?;
    front_rows::copy_row(draft, i, count);
    Ok(Done {
        size: size + 1,
        next: m,
    })
}

// A row's value: its cell count, then as an active.
#[tactic(auto, using(lib_base::proofs::Pick::branches), unfolding(crate::specs::Behaviour::row_of))]
fn read_row(v: &[u8], events: usize, i: usize, draft: &mut Draft, n: usize) -> Read
    requires v_bound { n * byte_field + length v.now ≤ sheet_bytes }
    requires in_limits { InLimits events i }
    ensures draft_after { out result draft.new ≡ row_of v.now events i draft.old n }
    ensures body_in { BodyIn (length v.now + 3) n result }
{
    if v.len() == 0 {
        return Err(Refusal::WrongLength);
    }
    let count = v[places::CELLS] as usize;
    if count < limits::LEAST_CELLS || limits::MOST_CELLS < count {
        return Err(Refusal::OffScale);
    }
    if limits::BEHAVIOURS < i + count {
        return Err(Refusal::Crowded);
    }
    read_cells(&v[places::START..], count, events, i, draft, n)
}

// The value of a behaviour's field with tag t.
#[tactic(auto, using(lib_base::proofs::Pick::branches), unfolding(crate::specs::Behaviour::value_at))]
fn read_value(t: u8, v: &[u8], events: usize, i: usize, draft: &mut Draft, n: usize) -> Read
    requires v_bound { n * byte_field + length v.now ≤ sheet_bytes }
    requires events_le_event_limit { events ≤ event_limit }
    ensures draft_after { out result draft.new ≡ value_at t v.now events i draft.old n }
    ensures body_in { BodyIn (length v.now + 3) n result }
    ensures counted { Counted i result }
{
    if limits::BEHAVIOURS <= i {
        return Err(Refusal::Crowded);
    }
    match t {
        tags::PASSIVE => read_passive(v, i, draft, n),
        tags::ROW => read_row(v, events, i, draft, n),
        _ => read_active(v, events, i, draft, n),
    }
}

// Behaviour i at the front of s.
#[tactic(auto, using(lib_base::proofs::Pick::branches), unfolding(crate::specs::Behaviour::behaviour_of))]
pub fn read_behaviour(s: &[u8], events: usize, i: usize, draft: &mut Draft, n: usize) -> Read
    requires s_bound { n * byte_field + length s.now ≤ sheet_bytes }
    requires events_le_event_limit { events ≤ event_limit }
    ensures draft_after { out result draft.new ≡ behaviour_of s.now events i draft.old n }
    ensures read_in { ReadIn (length s.now) n result }
    ensures counted { Counted i result }
{
    let lo = front_rows::least_tag(s, tags::PASSIVE);
    let hi = front_rows::most_tag(s);
    let a = sheet_field::field_answer(s, lo, hi);
    let Ok(header) = a else {
        return Err(a.unwrap_err());
    };
    read_value(
        header.tag,
        sheet_field::field_value(s, lo, hi),
        events,
        i,
        draft,
        n,
    )
}
