// Whether a hidden value may leak to a player: M-107's condition of a sheet. Time: compile's without writing the table,
// and a pass over the nodes of what the player sees. No recursion; the draft lies on the stack.

#![tactic(auto)]

ghost use Rattle.std.specs.Prelude.{◌≡◌, not, ◌&&◌, ◌||◌, ℕ, ◌+◌, ◌≤◌, ◌<◌, eqb, get_or};
ghost use Rattle.lib_base.specs.Basics.{pick};
ghost use Rattle.lib_bits.specs.Bits.{bit, Gathers};
ghost use Rattle.spec_language.specs.Rights.{may};
ghost use Rattle.check_faults.specs.Checks.{AllInside};
ghost use Rattle.check_reads.specs.First.{first_from};
ghost use Rattle.ask_leak.specs.Leaking.{leak_at, leak_from, leak_by, names_any, hidden_on, leaking_on, leak_for};
ghost use Rattle.ask_leak.specs.Answer.{packed_leak};
ghost use Rattle.ask_leak.specs.Told.{told_leak};
ghost use Rattle.ask_leak.specs.Leak.{leak_on};
ghost use Rattle.spec_language.specs.Limits.{behaviour_limit, event_limit, player_limit};

use draft_form::{Draft, layout};
use spec_language::answers;

// The answer: this number, and the behaviour that is seen and the hidden one, each in bits of its own.
const MAY_LEAK: u64 = 30;

const SEEN: u64 = 256;

const HIDDEN: u64 = 65536;

// A behaviour that is seen and a hidden one that it names.
#[derive(Clone, Copy, PartialEq, Eq, Debug, Drop)]
pub struct Leak {
    pub seen: u8,
    pub hidden: u8,
}

const LAST_PLAYER: u32 = spec_language::limits::PLAYERS - 1;
// Where the draft has who may see each behaviour.
const VIEWERS: usize = layout::VIEWERS;

// The names in behaviour i, its expression or its handlers for ev events.
pub fn names_of(d: &Draft, ev: usize, i: usize, n: usize) -> u64
    requires { (ev ≤ event_limit) × (n ≤ behaviour_limit) × (i < n) × AllInside d.now ev n }
    ensures { Gathers behaviour_limit result (names_any d.now ev i) }
{
    let mut set = 0;
    for e in 0..=ev {
        let v = draft_form::entry_of(d, e, i);
        set = lib_bits::union_of(set, check_reads::names_in(d, i, v));
    }
    set
}

// The set with j, hidden from the player by the byte of who may see it.
fn add_hidden(set: u64, j: usize, byte: u64, player: usize) -> u64
    requires { (j < behaviour_limit) × (player < player_limit) }
    ensures { (h : ℕ) → bit result h ≡ bit set h || (not (may byte player) && eqb h j) }
{
    if player == 0 {
        return set;
    }
    if lib_bits::contains(byte, player) {
        return set;
    }
    lib_bits::insert(set, j)
}

// Which of the first n behaviours are hidden from the player.
fn hidden_of(d: &Draft, n: usize, player: usize) -> u64
    requires { (n ≤ behaviour_limit) × (player < player_limit) }
    ensures { Gathers n result (hidden_on d.now player) }
{
    let mut set = 0;
    for j in 0..n {
        set = add_hidden(set, j, d[VIEWERS + j], player);
    }
    set
}

// The least behaviour in the set, with the one that names it.
fn least_leak(set: u64, n: usize, i: usize) -> Option<Leak>
    requires { (n ≤ behaviour_limit) × (i < behaviour_limit) }
    ensures { told_leak result ≡ first_from n 0 (λ j. pick (bit set j) (packed_leak i j) 0) }
{
    let Some(j) = check_graph::first_of(set, n) else {
        return None;
    };
    Some(Leak {
        seen: i as u8,
        hidden: j as u8,
    })
}

// The hidden behaviour that i names, where i is not hidden.
fn leak_from(d: &Draft, ev: usize, n: usize, hidden: u64, i: usize) -> Option<Leak>
    requires { (ev ≤ event_limit) × (n ≤ behaviour_limit) × (i < n) × AllInside d.now ev n }
    ensures { told_leak result ≡ leak_from n (bit hidden) (names_any d.now ev) i }
{
    if lib_bits::contains(hidden, i) {
        return None;
    }
    least_leak(lib_bits::common(names_of(d, ev, i, n), hidden), n, i)
}

// The first behaviour that is seen and names a hidden one.
fn leak_by(d: &Draft, ev: usize, n: usize, hidden: u64) -> Option<Leak>
    requires { (ev ≤ event_limit) × (n ≤ behaviour_limit) × AllInside d.now ev n }
    ensures { told_leak result ≡ leak_by n (bit hidden) (names_any d.now ev) }
{
    for i in 0..n {
        if let Some(leak) = leak_from(d, ev, n, hidden, i) {
            return Some(leak);
        }
    }
    None
}

// The same on a draft of ev events and n behaviours, for a player.
fn leak_in(d: &Draft, ev: usize, n: usize, player: usize) -> Option<Leak>
    requires { (ev ≤ event_limit) × (n ≤ behaviour_limit) × (player < player_limit) × AllInside d.now ev n }
    ensures { told_leak result ≡ leaking_on d.now ev n player }
{
    leak_by(d, ev, n, hidden_of(d, n, player))
}

// The answer's number; 0 where nothing leaks.
#[tactic(auto, unfolding(crate::specs::Answer::packed_leak))]
fn leak_number(leak: Option<Leak>) -> u64
    ensures { result ≡ told_leak leak }
{
    match leak {
        None => 0,
        Some(l) => MAY_LEAK + SEEN * u64::from(l.seen) + HIDDEN * u64::from(l.hidden),
    }
}

// The answer for a sheet that compile accepts.
fn leak_of(d: &Draft, ev: usize, n: usize, player: u32) -> u64
    requires { (ev ≤ event_limit) × (n ≤ behaviour_limit) × AllInside d.now ev n }
    ensures { result ≡ leak_for d.now ev n player }
{
    if player > LAST_PLAYER {
        return answers::NO_PLAYER;
    }
    leak_number(leak_in(d, ev, n, player as usize))
}

// compile's number, as with a full table; 24 for a player above 7; 0 where no behaviour that the player sees depends on
// a hidden one; else 30, a behaviour that it sees times 256 and times 65,536 a hidden one that this names.
pub fn leak_at(sheet: &[u8], params: &[u8], player: u32) -> u64
    ensures { result ≡ leak_on sheet.now params.now player }
{
    let mut draft = [0u64; layout::LENGTH];
    match back_compile::judge_sheet(sheet, params, &mut draft) {
        Ok(counts) => leak_of(&draft, counts.events, counts.behaviours, player),
        Err(turndown) => u64::from(turndown.number()),
    }
}
