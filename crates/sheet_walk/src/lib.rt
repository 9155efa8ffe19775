// A sheet's bytes from field to field, and from tag to tag: what stands at a place, the place behind a field or
// several, how many behaviours a field stands for; and, byte by byte, which is a tag and which the number of a name or
// a parameter. Time: a field is passed in one step. A place is how many bytes stand before it; a byte past the end
// counts as 0.

#![tactic(auto)]

ghost use Rattle.std.specs.Prelude.{◌≡◌, ◌<◌, ◌≤◌, ◌+◌, ◌-◌, length, get_or, drop};
ghost use Rattle.std.specs.Iterator.{at_most};
ghost use Rattle.sheet_walk.specs.Fields.{after_field, word_in_front, past_fields, cells_in_front, FieldGiven};
ghost use Rattle.sheet_walk.specs.Scanner.{until_tag, left_after, tag_after, is_number};
ghost use Rattle.lib_base.specs.Words.{highest_byte, word_values};

use sheet_field::{places, sizes, tags};

// Where a row's cells stand in its field.
const CELLS: usize = sizes::HEADER + places::CELLS;

// Byte k from a place on.
pub fn byte_from(s: &[u8], at: usize, k: usize) -> u8
    requires { at ≤ length s.now }
    ensures { result ≡ get_or (drop at s.now) k 0 }
{
    s[at..].get(k).copied().unwrap_or(0)
}

// The place n bytes on, or the end.
pub fn onward(s: &[u8], at: usize, n: usize) -> usize
    requires { at ≤ length s.now }
    ensures s_value { drop result s.now ≡ drop n (drop at s.now) }
    ensures upper_bound { result ≤ length s.now }
{
    at.saturating_add(n).min(s.len())
}

// The place behind the field at a place, by the field reader, whatever its tag; the end where the reader finds none.
pub fn after_field(s: &[u8], at: usize) -> usize
    requires { at ≤ length s.now }
    ensures s_value { drop result s.now ≡ after_field (drop at s.now) }
    ensures upper_bound { result ≤ length s.now }
{
    let Ok(header) = sheet_field::field_answer(&s[at..], 0, u8::MAX) else {
        return s.len();
    };
    at + header.size + sizes::HEADER
}

// The four bytes from a place on as a word.
pub fn word_from(s: &[u8], at: usize) -> u64
    requires { at ≤ length s.now }
    ensures value { result ≡ word_in_front (drop at s.now) }
    ensures upper_bound { result < word_values }
{
    let bytes = [
        byte_from(s, at, 0),
        byte_from(s, at, 1),
        byte_from(s, at, 2),
        byte_from(s, at, 3),
    ];
    u32::from_be_bytes(bytes) as u64
}

// The walk over a sheet's fields: the place of each from `at` on, whatever its tag, to the sheet's end.
#[derive(Drop)]
pub struct FieldPlaces<'a> {
    pub sheet: &'a [u8],
    pub at: usize,
    ghost inside: { at ≤ length sheet.now },
}

impl<'a> Iterator for FieldPlaces<'a> {
    type Item = usize;

    ghost next_gives = { λ it r other. FieldGiven it.sheet.now it.at r other.sheet.now other.at };

    ghost remaining = { λ it. at_most (length it.sheet.now - it.at) };

    fn next(&mut self) -> Option<usize> {
        let at = self.at;
        if at == self.sheet.len() {
            return None;
        }
        self.at = after_field(self.sheet, at);
        Some(at)
    }
}

// The fields' places from a place on.
pub fn field_places(sheet: &[u8], from: usize) -> FieldPlaces
    requires { from ≤ length sheet.now }
    ensures sheet { result.sheet.now ≡ sheet.now }
    ensures place { result.at ≡ from }
{
    FieldPlaces { sheet, at: from }
}

// The place behind the fields of a tag that stand there.
pub fn past_fields(s: &[u8], from: usize, tag: u8) -> usize
    requires { from ≤ length s.now }
    ensures s_value { drop result s.now ≡ past_fields tag (length s.now) (drop from s.now) }
    ensures upper_bound { result ≤ length s.now }
{
    for at in field_places(s, from) {
        if byte_from(s, at, 0) != tag {
            return at;
        }
    }
    s.len()
}

// How many behaviours the field at a place stands for.
#[tactic(auto, using(lib_base::proofs::Pick::branches))]
pub fn cells_at(s: &[u8], at: usize) -> usize
    requires { at ≤ length s.now }
    ensures value { result ≡ cells_in_front (drop at s.now) }
    ensures upper_bound { result ≤ highest_byte }
{
    if byte_from(s, at, 0) == tags::ROW {
        return byte_from(s, at, CELLS) as usize;
    }
    1
}

// How many bytes stand behind a tag before the next one: the length alone; a row's cells, or a byte of value, beside
// it; a handler's event and phase; a word.
const LENGTH: usize = sizes::HEADER - 1;

const LENGTH_AND_BYTE: usize = sizes::BYTE_HEAD - 1;

const LENGTH_AND_PAIR: usize = sizes::HANDLER_HEAD - 1;

const LENGTH_AND_WORD: usize = sizes::WORD_FIELD - 1;

// How many bytes stand behind this tag before the next.
#[tactic(auto, using(lib_base::proofs::Pick::branches), unfolding(crate::specs::Scanner::until_tag))]
fn until_tag(b: u8) -> usize
    ensures { result ≡ until_tag b }
{
    match b {
        tags::CONSTANT | tags::START => LENGTH_AND_WORD,
        tags::HANDLER => LENGTH_AND_PAIR,
        _ if b < tags::START => LENGTH,
        _ => LENGTH_AND_BYTE,
    }
}

// A walk from byte to byte: the tag met last, and how many bytes stand before the next one. It begins at a tag, with
// none before it.
#[derive(Drop, Default)]
pub struct Scanner {
    pub tag: u8,
    pub left: usize,
}

impl Scanner {
    // Whether the byte that comes is the number in a field of the tag `of`: the last byte behind that tag.
    #[tactic(auto, using(lib_base::proofs::Pick::branches), unfolding(crate::specs::Scanner::is_number))]
    pub fn is_number(&self, of: u8) -> bool
        ensures { result ≡ is_number of self.now.tag self.now.left }
    {
        self.left == 1 && self.tag == of
    }

    // Past one more byte, which is a tag where none stood before it.
    #[tactic(auto, using(lib_base::proofs::Pick::branches), unfolding(crate::specs::Scanner::left_after, crate::specs::Scanner::tag_after))]
    pub fn pass(&mut self, b: u8)
        ensures tag { self.new.tag ≡ tag_after self.old.tag self.old.left b }
        ensures left { self.new.left ≡ left_after self.old.left b }
    {
        if self.left == 0 {
            self.tag = b;
            self.left = until_tag(b);
        } else {
            self.left -= 1;
        }
    }
}
