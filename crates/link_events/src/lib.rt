// The events of two sheets joined by number (02, M-111), from the sheets' bytes: their fields, the place where they
// end, and whether two ranks differ. Time: at most 32 turns, a field of each sheet a turn.

#![tactic(auto)]

ghost use Rattle.std.specs.Prelude.{◌≡◌, ◌≤◌, ◌+◌, ◌-◌, length};
ghost use Rattle.link_events.specs.Merging.{width_at, rank_at, sender_at, merged, pair_bytes, events_from, end_from, agree_from};
ghost use Rattle.link_events.specs.Written.{BytesWritten};
ghost use Rattle.link_events.specs.Sizes.{events_room};
ghost use Rattle.sheet_field.specs.Sizes.{pair_field};
ghost use Rattle.spec_language.specs.Limits.{event_limit};

use sheet_field::{places, sizes, tags};
use spec_language::limits;

// Where an event's field has its priority and who may send it.
const RANK: usize = sizes::HEADER + places::RANK;

const SENDER: usize = sizes::HEADER + places::SENDERS;

// What stands for that byte where it is missing: no byte's value.
const ANYONE: usize = sheet_write::UNSAID as usize;

// How many bytes the event's field at place i has, by the field reader; 0 where none stands.
fn width(s: &[u8], i: usize) -> usize
    requires { i ≤ length s.now }
    ensures value { result ≡ width_at s.now i }
    ensures result_in_bounds { i + result ≤ length s.now }
{
    let Ok(header) = sheet_field::field_answer(&s[i..], tags::EVENT, tags::EVENT) else {
        return 0;
    };
    header.size + sizes::HEADER
}

// The priority in a field of w bytes.
fn rank(s: &[u8], i: usize, w: usize) -> u8
    requires { i + w ≤ length s.now }
    ensures { result ≡ rank_at s.now i w }
{
    if w < sizes::BYTE_FIELD {
        return 0;
    }
    s[i + RANK]
}

// Who may send it, 256 where no byte says it.
fn sender(s: &[u8], i: usize, w: usize) -> usize
    requires { i + w ≤ length s.now }
    ensures { result ≡ sender_at s.now i w }
{
    if w == sizes::PAIR_FIELD {
        return s[i + SENDER] as usize;
    }
    ANYONE
}

// Who may send by both.
fn merge(x: usize, y: usize) -> usize
    ensures { result ≡ merged x y }
{
    if x == ANYONE {
        return y;
    }
    if y == ANYONE {
        return x;
    }
    x & y
}

// Where an event's field stands in its sheet, and how many bytes it has: none where there is no event.
#[derive(Drop)]
struct Event {
    at: usize,
    size: usize,
}

// The field of event a of s and event b of t.
fn put_pair(s: &[u8], a: Event, t: &[u8], b: Event, out: &mut [u8], k: usize) -> usize
    requires { (a.at + a.size ≤ length s.now) × (b.at + b.size ≤ length t.now)
        × (k + pair_field ≤ length out.old) × (k ≤ events_room) }
    ensures bytes_written { BytesWritten out.old k
        (pair_bytes s.now a.at a.size t.now b.at b.size) out.new result }
    ensures upper_bound { result ≤ k + pair_field }
{
    let m = merge(sender(s, a.at, a.size), sender(t, b.at, b.size));
    if a.size != 0 {
        return sheet_write::put_event(out, k, rank(s, a.at, a.size), m as u64);
    }
    if b.size != 0 {
        return sheet_write::put_event(out, k, rank(t, b.at, b.size), m as u64);
    }
    k
}

// The events of both, from the buffer's start on.
pub fn put_events(s: &[u8], t: &[u8], out: &mut [u8]) -> usize
    requires { events_room ≤ length out.old }
    ensures bytes_written { BytesWritten out.old 0 (events_from event_limit s.now 0 t.now 0) out.new result }
    ensures upper_bound { result ≤ events_room }
{
    let mut i = 0;
    let mut j = 0;
    let mut k = 0;
    for _ in 0..limits::EVENTS {
        let a = width(s, i);
        let b = width(t, j);
        let first = Event { at: i, size: a };
        let second = Event { at: j, size: b };
        k = put_pair(s, first, t, second, out, k);
        i += a;
        j += b;
    }
    k
}

// The place after the events.
pub fn events_end(s: &[u8]) -> usize
    ensures value { result ≡ end_from event_limit s.now 0 }
    ensures upper_bound { result ≤ length s.now }
{
    let mut i = 0;
    for _ in 0..limits::EVENTS {
        i += width(s, i);
    }
    i
}

// Whether every event that both declare has one rank.
pub fn ranks_agree(s: &[u8], t: &[u8]) -> bool
    ensures { result ≡ agree_from event_limit s.now 0 t.now 0 }
{
    let mut i = 0;
    let mut j = 0;
    for _ in 0..limits::EVENTS {
        let a = width(s, i);
        let b = width(t, j);
        if a == 0 {
            return true;
        }
        if b == 0 {
            return true;
        }
        if rank(s, i, a) != rank(t, j, b) {
            return false;
        }
        i += a;
        j += b;
    }
    true
}
