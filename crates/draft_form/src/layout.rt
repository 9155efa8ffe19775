// The draft's numbers, for the code (specs/Draft.antt, specs/Entry.antt): how many it has, where its parts begin, and
// how nodes, entries and places are packed.
pub const LENGTH: usize = 4416;
// How many nodes it holds at the most; they stand from 0 on.
pub const NODES: usize = 2048;
// An entry for behaviour i and event e at HANDLERS + i * EVENTS + e; one for each passive.
pub const HANDLERS: usize = 2048;

pub const PASSIVES: usize = 4096;
// A number for each behaviour or event.
pub const STARTS: usize = 4160;

pub const PRIORITIES: usize = 4224;

pub const VIEWERS: usize = 4256;

pub const SENDERS: usize = 4320;

pub const PLACES: usize = 4352;
// What stands for viewers and senders where the sheet says nothing.
pub const EVERYONE: u64 = 255;
// A node is kind * WORD + word, its kind the tag of its field.
pub const WORD: u64 = lib_word::WORD_VALUES;

pub const CONSTANT: u64 = sheet_field::tags::CONSTANT as u64;

pub const NAME: u64 = sheet_field::tags::NAME as u64;

pub const APPLICATION: u64 = sheet_field::tags::APPLICATION as u64;

pub const PARAMETER: u64 = sheet_field::tags::PARAMETER as u64;
// The nodes of these kinds with word 0.
pub const CONSTANT_NODE: u64 = CONSTANT * WORD;

pub const NAME_NODE: u64 = NAME * WORD;

pub const APPLICATION_NODE: u64 = APPLICATION * WORD;

pub const PARAMETER_NODE: u64 = PARAMETER * WORD;
// An entry is (count * FIRSTS + start) * KINDS + kind.
pub const KINDS: u64 = 4;

pub const PASSIVE: u64 = 1;

pub const IMMEDIATE: u64 = 2;

pub const LATER: u64 = 3;

pub const FIRSTS: u64 = 4096;

pub const COUNTS: u64 = FIRSTS * KINDS;
// A place in a row is cell count * CELLS + place.
pub const CELLS: u64 = 16;
