// The desk program's format: how its fields are judged, and the lines that it prints. 01 "The desk program". Tags are
// 20 to 23 in hexadecimal, 32 to 35 in decimal.

#![tactic(auto)]

ghost use Rattle.std.specs.Prelude.{◌≡◌};
ghost use Rattle.sheet_field.specs.Header.{header_of, HeaderWithin};
ghost use Rattle.desk_format.specs.Script.{due, play_verdict, value_verdict, ends_after};
ghost use Rattle.spec_language.specs.Verdicts.{verdict_number};
ghost use Rattle.desk_format.specs.Script.{argument_number};
ghost use Rattle.desk_format.specs.Sizes.{sharp, space};

use sheet_field::Field;
use spec_language::refusals::{self, Refusal};

pub mod lines;
pub mod tags;

// A field's header: 4 where fewer than 3 bytes were there, 5 for another tag; else its tag and the size that it states.
pub fn header(head: &[u8]) -> Field
    ensures value { result ≡ header_of head.now space sharp }
    ensures header_within { HeaderWithin head.now result }
{
    sheet_field::header_answer(head, tags::SHEET, tags::SHOW)
}

// The length that an arrival, a count of steps or a show has.
#[tactic(auto, using(lib_base::proofs::Pick::branches), unfolding(crate::specs::Script::due))]
fn due_length(tag: u8) -> usize
    ensures { result ≡ due tag }
{
    match tag {
        tags::ARRIVAL => 1,
        tags::STEPS => 2,
        _ => 0,
    }
}

// An arrival, a count of steps or a show that is whole; `ready` says whether a sheet was accepted.
#[tactic(auto, using(lib_base::proofs::Pick::branches), unfolding(crate::specs::Script::play_verdict))]
fn judge_play(size: usize, length: usize, ready: bool) -> Result<(), Refusal>
    ensures { verdict_number result ≡ play_verdict size length ready }
{
    if size != length {
        return Err(Refusal::WrongLength);
    }
    if !ready {
        return Err(Refusal::Foreign);
    }
    Ok(())
}

// What a field's value is refused for: 4 where fewer bytes were there than its size; 6 and 14 for an arrival, a count
// of steps or a show.
#[tactic(auto, using(lib_base::proofs::Pick::branches), unfolding(crate::specs::Script::value_verdict))]
pub fn judge_value(tag: u8, size: usize, got: usize, ready: bool) -> Result<(), Refusal>
    ensures { verdict_number result ≡ value_verdict tag size got ready }
{
    if got < size {
        return Err(Refusal::Torn);
    }
    if tag == tags::SHEET {
        return Ok(());
    }
    judge_play(size, due_length(tag), ready)
}

// Whether the program ends after a field of this verdict: a refusal's number, or 0.
#[tactic(auto, using(lib_base::proofs::Pick::branches), unfolding(crate::specs::Script::ends_after))]
pub fn ends(verdict: u32) -> bool
    ensures { result ≡ ends_after verdict }
{
    verdict != 0 && verdict != refusals::FOREIGN
}

// The event byte of an arrival, or the two-byte count of steps.
#[tactic(auto, using(lib_base::proofs::Pick::branches), unfolding(crate::specs::Script::argument_number, lib_word::specs::Halves::get_half))]
pub fn number_in(value: &[u8]) -> u32
    ensures { result ≡ argument_number value.now }
{
    match value {
        [event] => u32::from(*event),
        [high, low] => u32::from(u16::from_be_bytes([*high, *low])),
        _ => 0,
    }
}
