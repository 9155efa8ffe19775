// What two events share: whether they are independent, and else a behaviour at which they meet or that they share.
// Time: compile's without writing the table, a few passes over the nodes and a closure. No recursion; the draft, a
// matrix and some sets lie on the stack.

#![tactic(auto)]

ghost use Rattle.std.specs.Prelude.{◌≡◌, ◌&&◌, ◌||◌, ℕ, ◌+◌, ◌≤◌, ◌<◌, get_or};
ghost use Rattle.lib_base.specs.Basics.{pick};
ghost use Rattle.lib_bits.specs.Bits.{bit, Gathers};
ghost use Rattle.spec_language.specs.Syntax.{Program};
ghost use Rattle.check_faults.specs.Checks.{AllInside};
ghost use Rattle.ask_agree_for.specs.Encounter.{DraftFor};
ghost use Rattle.ask_pair.specs.Pair.{everyone, weight, flags_at, packed_pair, pair_by, pair_by_sets, pair_of, pair_in, pair_on};
ghost use Rattle.ask_pair.specs.Flags.{all_flags};
ghost use Rattle.spec_language.specs.Limits.{behaviour_limit, event_limit};

use check_graph::ROW;
use check_reads::Sets;
use draft_form::{Draft, layout};
use spec_language::{answers, limits};

// The answer: this number, the behaviour, and the flags times 256.
const FLAGS: u64 = 256;

const FIRST_WRITES: u64 = 1;

const SECOND_WRITES: u64 = 2;

const FIRST_READS: u64 = 4;

const SECOND_READS: u64 = 8;

const BOTH_ADD: u64 = 16;

const MEET: u64 = 32;

// The first n behaviours.
fn all_of(n: usize) -> u64
    requires { n ≤ behaviour_limit }
    ensures { Gathers n result everyone }
{
    let mut set = 0;
    for i in 0..n {
        set = lib_bits::insert(set, i);
    }
    set
}

// What is in the first two, or in the second two.
fn cross(a: u64, b: u64, c: u64, d: u64) -> u64
    ensures { (i : ℕ) → bit result i ≡ (bit a i && bit b i) || (bit c i && bit d i) }
{
    lib_bits::union_of(lib_bits::common(a, b), lib_bits::common(c, d))
}

// The flag's weight where i is in the set.
fn weight_of(set: u64, i: usize, k: u64) -> u64
    requires { i < behaviour_limit }
    ensures value { result ≡ weight (bit set i) k }
    ensures upper_bound { result ≤ k }
{
    if lib_bits::contains(set, i) {
        return k;
    }
    0
}

// Who writes behaviour i and who reads it.
fn flags_at(we: u64, wf: u64, re: u64, rf: u64, i: usize) -> u64
    requires { i < behaviour_limit }
    ensures value { result ≡ flags_at (bit we) (bit wf) (bit re) (bit rf) i }
    ensures upper_bound { result ≤ all_flags }
{
    let a = weight_of(we, i, FIRST_WRITES);
    let b = weight_of(wf, i, SECOND_WRITES);
    let c = weight_of(re, i, FIRST_READS);
    let d = weight_of(rf, i, SECOND_READS);
    a + (b + (c + d))
}

// The answer for behaviour i.
fn pack(we: u64, wf: u64, re: u64, rf: u64, kind: u64, i: usize) -> u64
    requires { (i < behaviour_limit) × (kind ≤ event_limit) }
    ensures { result ≡ packed_pair (bit we) (bit wf) (bit re) (bit rf) kind i }
{
    answers::VALUE + (i as u64 + FLAGS * (flags_at(we, wf, re, rf, i) + kind))
}

// The answer, by what each of the two writes and reads, where they meet and what they share.
fn pair_by(we: u64, wf: u64, re: u64, rf: u64, met: u64, shared: u64, n: usize) -> u64
    requires { n ≤ behaviour_limit }
    ensures { result ≡ pair_by (bit we) (bit wf) (bit re) (bit rf) n (bit met) (bit shared) }
{
    if let Some(i) = check_graph::first_of(met, n) {
        return pack(we, wf, re, rf, MEET, i);
    }
    if let Some(i) = check_graph::first_of(shared, n) {
        return pack(we, wf, re, rf, BOTH_ADD, i);
    }
    0
}

// The same of events e and f, by what each event writes, names and is strict about.
fn pair_of(writes: &Sets, named: &Sets, strict: &Sets, n: usize, e: usize, f: usize) -> u64
    requires { (n ≤ behaviour_limit) × (e < event_limit) × (f < event_limit) }
    ensures { result ≡ pair_by_sets writes.now named.now strict.now n e f }
{
    let we = writes[e];
    let wf = writes[f];
    let re = named[e];
    let rf = named[f];
    let met = cross(we, strict[f], wf, strict[e]);
    let shared = cross(we, lib_bits::union_of(wf, rf), wf, re);
    pair_by(we, wf, re, rf, met, shared, n)
}

// The same on a draft of ev events and n behaviours.
fn pair_in(d: &Draft, ev: usize, n: usize, e: usize, f: usize) -> u64
    requires { (ev ≤ event_limit) × (n ≤ behaviour_limit) × (e < ev) × (f < ev) × AllInside d.now ev n }
    ensures { (p : Program) → DraftFor p d.now ev n → result ≡ pair_of p e f }
{
    let mut rows = [0u64; ROW];
    let mut writes = [0u64; limits::EVENTS];
    let mut named = [0u64; limits::EVENTS];
    let mut strict = [0u64; limits::EVENTS];
    check_reads::passive_rows(d, ev, n, &mut rows);
    check_reads::fill_writes(d, ev, n, &mut writes);
    check_reads::fill_named(d, ev, n, &mut named);
    let all = all_of(n);
    ask_meets::fill_strict(d, &rows, n, all, ev, &mut strict);
    pair_of(&writes, &named, &strict, n, e, f)
}

// The answer for a sheet that compile accepts.
fn pair_for(d: &Draft, ev: usize, n: usize, first: u32, second: u32) -> u64
    requires { (ev ≤ event_limit) × (n ≤ behaviour_limit) × AllInside d.now ev n }
    ensures { (p : Program) → DraftFor p d.now ev n → result ≡ pair_in p first second }
{
    if (first as usize) < ev {
        if (second as usize) < ev {
            return pair_in(d, ev, n, first as usize, second as usize);
        }
    }
    answers::UNDECLARED_EVENT
}

// compile's number, as with a full table; 15 where either is not declared; 0 where the two events are independent; else
// 2 ^ 32, a behaviour and 256 times flags.
pub fn pair_at(sheet: &[u8], params: &[u8], first: u32, second: u32) -> u64
    ensures { result ≡ pair_on sheet.now params.now first second }
{
    let mut draft = [0u64; layout::LENGTH];
    match back_compile::judge_sheet(sheet, params, &mut draft) {
        Ok(counts) => pair_for(&draft, counts.events, counts.behaviours, first, second),
        Err(turndown) => u64::from(turndown.number()),
    }
}
