// A sheet's fields: their tags and sizes, and the reader of one field (01, "The sheet"). The value is a part of the
// caller's own sheet; where the reader refuses, an empty part, and the answer beside it has the refusal.

#![tactic(auto)]

ghost use Rattle.std.specs.Prelude.{◌≡◌, ◌≤◌, ◌-◌, length};
ghost use Rattle.sheet_field.specs.Field.{field_of, part_of, field_size, FieldWithin};
ghost use Rattle.sheet_field.specs.Header.{header_of, HeaderWithin};

use spec_language::refusals::Refusal;

pub mod places;
pub mod sizes;
pub mod tags;

// A field's header: its tag, and the size of its value.
#[derive(Clone, Copy, PartialEq, Eq, Debug, Drop)]
pub struct Header {
    pub tag: u8,
    pub size: usize,
}

// What stands where a field is due.
pub type Field = Result<Header, Refusal>;

// The answer to a header alone, where a tag from `lo` to `hi` is due: the size is the one that it states.
#[tactic(auto, using(lib_base::proofs::Pick::branches), unfolding(crate::specs::Header::header_of, lib_word::specs::Halves::get_half))]
pub fn header_answer(s: &[u8], lo: u8, hi: u8) -> Field
    ensures value { result ≡ header_of s.now lo hi }
    ensures header_within { HeaderWithin s.now result }
{
    if s.len() < sizes::HEADER {
        return Err(Refusal::Torn);
    }
    if s[0] < lo || hi < s[0] {
        return Err(Refusal::WrongTag);
    }
    Ok(Header {
        tag: s[0],
        size: lib_word::get_half(s, places::LENGTH) as usize,
    })
}

// The answer of the field reader, where a tag from `lo` to `hi` is due.
pub fn field_answer(s: &[u8], lo: u8, hi: u8) -> Field
    ensures value { result ≡ field_of s.now lo hi }
    ensures field_within { FieldWithin s.now result }
{
    let header = header_answer(s, lo, hi)?;
    if s.len() - sizes::HEADER < header.size {
        return Err(Refusal::Torn);
    }
    Ok(header)
}

// The value as a part of the caller's own slice; an empty part where the reader refuses.
pub fn field_value(s: &[u8], lo: u8, hi: u8) -> &[u8]
    ensures result_value { result.now ≡ part_of s.now (field_of s.now lo hi) }
    ensures result_len { length result.now ≡ field_size (field_of s.now lo hi) }
    ensures result_in_bounds { length result.now ≤ length s.now - 3 }
{
    let Ok(header) = field_answer(s, lo, hi) else {
        return &s[..0];
    };
    &s[sizes::HEADER..header.size + sizes::HEADER]
}
