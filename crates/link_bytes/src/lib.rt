// The bytes of two accepted sheets joined into one (02, M-111): their events by number, the behaviours of the first,
// then those of the second with their names moved up. Time: one pass over the bytes of both, and at most 64 turns to
// count the behaviours of the first.

#![tactic(auto)]

ghost use Rattle.std.specs.Prelude.{◌≡◌, ◌≤◌, ◌+◌, ◌-◌, length, drop};
ghost use Rattle.link_events.specs.Written.{BytesWritten};
ghost use Rattle.link_bytes.specs.Splice.{count_from, moved_byte, scan, spliced};
ghost use Rattle.link_bytes.specs.Sizes.{most_written};
ghost use Rattle.link_events.specs.Sizes.{events_room};
ghost use Rattle.spec_language.specs.Limits.{behaviour_limit};

use sheet_field::tags;
use sheet_walk::Scanner;
use spec_language::limits;

const BYTE: usize = lib_word::BYTE_VALUES as usize;

// How many behaviours stand from place i on.
fn count(s: &[u8], i: usize) -> usize
    requires { i ≤ length s.now }
    ensures value { result ≡ count_from behaviour_limit (drop i s.now) 0 }
    ensures upper_bound { result ≤ most_written }
{
    let mut c = 0usize;
    for at in sheet_walk::field_places(s, i).take(limits::BEHAVIOURS) {
        c += sheet_walk::cells_at(s, at);
    }
    c
}

// A byte, moved up where it is a name's, as the scanner before it says.
#[tactic(auto, using(lib_base::proofs::Pick::branches), unfolding(crate::specs::Splice::moved_byte))]
fn lift(scanner: &Scanner, m: usize, b: u8) -> u8
    requires { m ≤ most_written }
    ensures { result ≡ moved_byte m scanner.now.tag scanner.now.left b }
{
    if scanner.is_number(tags::NAME) {
        return (((b as usize) + m) % BYTE) as u8;
    }
    b
}

// The behaviours from place i on, their names moved up by m, from place k of the buffer on.
fn put_moved(s: &[u8], i: usize, m: usize, out: &mut [u8], k: usize) -> usize
    requires { (i ≤ length s.now) × (m ≤ most_written) × (k + (length s.now - i) ≤ length out.old) }
    ensures bytes_written { BytesWritten out.old k (scan m 0 0 (drop i s.now)) out.new result }
    ensures value { result ≡ k + (length s.now - i) }
{
    let mut to = k;
    let mut scanner = Scanner::default();
    for &b in &s[i..] {
        out[to] = lift(&scanner, m, b);
        scanner.pass(b);
        to += 1;
    }
    to
}

// Both sheets' bytes joined, from the buffer's start on.
pub fn splice(s: &[u8], t: &[u8], out: &mut [u8]) -> usize
    requires { length s.now + length t.now + events_room ≤ length out.old }
    ensures bytes_written { BytesWritten out.old 0 (spliced s.now t.now) out.new result }
    ensures upper_bound { result ≤ length s.now + length t.now + events_room }
{
    let i = link_events::events_end(s);
    let j = link_events::events_end(t);
    let a = link_events::put_events(s, t, out);
    let b = put_moved(s, i, 0, out, a);
    put_moved(t, j, count(s, i), out, b)
}
