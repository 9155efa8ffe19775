// The reader: from the bytes of a program to its draft, the first fault met from left to right.

#![tactic(auto)]

ghost use Rattle.std.specs.Prelude.{◌≡◌, ◌<◌, ◌≤◌, ◌+◌, length};
ghost use Rattle.front_sheet.specs.Whole.{event_read, signal_at, priority_at, read_event, events_out, read_events, finished, behaviours_of, read_on, EventIn, EventsIn};
ghost use Rattle.spec_language.specs.Limits.{event_limit, sheet_bytes};

use draft_form::{Draft, layout};
use sheet_field::{places, sizes, tags};
use spec_language::limits;
use spec_language::refusals::Refusal;

// What stands where an event or the first behaviour is due: an event's field of so many bytes, or another field.
pub type Event = Result<Option<usize>, Refusal>;

// A program's numbers of events, behaviours and nodes.
#[derive(Clone, Copy, PartialEq, Eq, Debug, Drop)]
pub struct Counts {
    pub events: usize,
    pub behaviours: usize,
    pub nodes: usize,
}

// Where a program's events end, and how many there are.
#[derive(Clone, Copy, PartialEq, Eq, Debug, Drop)]
pub struct Events {
    pub end: usize,
    pub count: usize,
}

// The value v of event e: its priority, and who may send it where a second byte says so.
#[tactic(auto, using(lib_base::proofs::Pick::branches), unfolding(crate::specs::Whole::signal_at))]
fn take_event(v: &[u8], e: usize, draft: &mut Draft) -> Event
    requires e_lt_event_limit { e < event_limit }
    ensures draft_after { event_read result draft.new ≡ signal_at v.now e draft.old }
    ensures event_in { EventIn (length v.now + 3) e result }
{
    if v.len() == 0 || sizes::PAIR < v.len() {
        return Err(Refusal::WrongLength);
    }
    if limits::HIGHEST_PRIORITY < v[places::RANK] {
        return Err(Refusal::OffScale);
    }
    draft[layout::PRIORITIES + e] = v[places::RANK] as u64;
    if v.len() == sizes::BYTE {
        draft[layout::SENDERS + e] = layout::EVERYONE;
        return Ok(Some(sizes::BYTE_FIELD));
    }
    draft[layout::SENDERS + e] = v[places::SENDERS] as u64;
    Ok(Some(sizes::PAIR_FIELD))
}

// A field with tag t and value v where event e or the first behaviour is due.
#[tactic(auto, using(lib_base::proofs::Pick::branches), unfolding(crate::specs::Whole::priority_at))]
fn read_priority(t: u8, v: &[u8], e: usize, draft: &mut Draft) -> Event
    requires e_le_event_limit { e ≤ event_limit }
    ensures draft_after { event_read result draft.new ≡ priority_at t v.now e draft.old }
    ensures event_in { EventIn (length v.now + 3) e result }
{
    if t != tags::EVENT {
        return Ok(None);
    }
    if limits::EVENTS <= e {
        return Err(Refusal::Crowded);
    }
    take_event(v, e, draft)
}

// Event e, or the first behaviour, at the front of s.
#[tactic(auto, using(lib_base::proofs::Pick::branches), unfolding(crate::specs::Whole::read_event))]
fn read_event(s: &[u8], e: usize, draft: &mut Draft) -> Event
    requires e_le_event_limit { e ≤ event_limit }
    ensures draft_after { event_read result draft.new ≡ read_event s.now e draft.old }
    ensures event_in { EventIn (length s.now) e result }
{
    let lo = front_rows::least_tag(s, tags::EVENT);
    let hi = front_rows::most_tag(s);
    let a = sheet_field::field_answer(s, lo, hi);
    let Ok(header) = a else {
        return Err(a.unwrap_err());
    };
    read_priority(header.tag, sheet_field::field_value(s, lo, hi), e, draft)
}

// The events of s.
fn read_events(s: &[u8], draft: &mut Draft) -> Result<Events, Refusal>
    requires s_len_bound { length s.now ≤ sheet_bytes }
    ensures draft_after { events_out result draft.new ≡ read_events (length s.now) s.now 0 0 draft.old }
    ensures events_in { EventsIn (length s.now) result }
{
    let mut at = 0;
    let mut e = 0;
    // a field's size tells where the next one stands: there is no count to go by
    while at != s.len() {
        let Some(size) = read_event(&s[at..], e, draft)? else {
            return Ok(Events { end: at, count: e });
        };
        at += size;
        e += 1;
    }
    Ok(Events { end: at, count: e })
}

// The behaviours of s, from `from` on.
fn read_behaviours(
    s: &[u8],
    from: usize,
    events: usize,
    draft: &mut Draft,
) -> Result<Counts, Refusal>
    requires s_len_bound { length s.now ≤ sheet_bytes }
    requires from_in_bounds { from ≤ length s.now }
    requires events_le_event_limit { events ≤ event_limit }
    ensures { finished result draft.new ≡ behaviours_of (length s.now) s.now from events 0 draft.old 0 }
{
    let mut at = from;
    let mut i = 0;
    let mut n = 0;
    // a field's size tells where the next one stands: there is no count to go by
    while at != s.len() {
        let behaviour = front_behaviours::read_behaviour(&s[at..], events, i, draft, n)?;
        i += front_rows::cells_at(&s[at..]);
        at += behaviour.size;
        n = behaviour.next;
    }
    Ok(Counts {
        events,
        behaviours: i,
        nodes: n,
    })
}

// The program in s: its draft, or the first fault.
#[tactic(auto, using(lib_base::proofs::Pick::branches), unfolding(crate::specs::Whole::read_on))]
pub fn read_program(s: &[u8], draft: &mut Draft) -> Result<Counts, Refusal>
    requires s_len_bound { length s.now ≤ sheet_bytes }
    ensures { finished result draft.new ≡ read_on s.now draft.old }
{
    let events = read_events(s, draft)?;
    read_behaviours(s, events.end, events.count, draft)
}
