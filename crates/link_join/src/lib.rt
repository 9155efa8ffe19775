// One sheet from two accepted ones (02, M-111): compile's number for each, 26, compile's number for the joined one, 27,
// or 2 ^ 32 and its length. Time: that of compile for each of the three, and one pass over the bytes of both.

#![tactic(auto)]

ghost use Rattle.std.specs.Prelude.{◌≡◌, ◌≢◌, ◌≤◌, IfOk, MatchResult};
ghost use Rattle.back_compile.specs.Number.{number_on};
ghost use Rattle.link_join.specs.Join.{join_on};
ghost use Rattle.link_join.specs.Joined.{joined};
ghost use Rattle.link_join.specs.Told.{join_answer};
ghost use Rattle.link_join.specs.Sizes.{join_room};

use spec_language::{answers, limits};

// The most bytes of a joined sheet: those of both, and five for each event.
const JOINED_BYTES: usize = limits::SHEET_BYTES * 2
    + limits::EVENTS * sheet_field::sizes::PAIR_FIELD;

// Whether compile takes a sheet; else its number.
fn accept(sheet: &[u8], params: &[u8]) -> Result<(), u64>
    ensures { MatchResult result (λ _. number_on sheet.now params.now ≡ 0)
        (λ n. (n ≡ number_on sheet.now params.now) × (n ≢ 0)) }
{
    match back_compile::compile_number(sheet, params) {
        0 => Ok(()),
        n => Err(n as u64),
    }
}

// The joined sheet's bytes at the start of the buffer; how many they are, or the number that turns them down.
fn put_joined(first: &[u8], second: &[u8], params: &[u8], buffer: &mut [u8]) -> Result<usize, u64>
    ensures answer { joined (join_answer result) buffer.new ≡ join_on first.now second.now params.now buffer.old }
    ensures upper_bound { IfOk result (λ n. n ≤ join_room) }
{
    accept(first, params)?;
    accept(second, params)?;
    if !link_events::ranks_agree(first, second) {
        return Err(answers::UNLIKE_RANKS);
    }
    let mut out = [0u8; JOINED_BYTES];
    let n = link_bytes::splice(first, second, &mut out);
    let sheet = &out[..n];
    accept(sheet, params)?;
    if buffer.len() < n {
        return Err(answers::SHORT_JOIN);
    }
    buffer[..n].copy_from_slice(sheet);
    Ok(n)
}

// The same as one number: 2 ^ 32 and how many bytes; or compile's number, 26, 27.
pub fn join_at(first: &[u8], second: &[u8], params: &[u8], buffer: &mut [u8]) -> u64
    ensures { joined result buffer.new ≡ join_on first.now second.now params.now buffer.old }
{
    match put_joined(first, second, params, buffer) {
        Ok(n) => answers::VALUE + (n as u64),
        Err(number) => number,
    }
}
