// The limits of a text, for the code: docs/SHEETS.md "Sheets as text".
pub const TEXT_BYTES: usize = 65536;

pub const NAME_BYTES: usize = 32;

pub const HIGHEST_PLAYER: u64 = 7;

// The largest number, and after a `-` that makes a constant; larger ones are all told from it by one more.
pub const LARGEST: u64 = 2147483647;

pub const LARGEST_NEGATED: u64 = 2147483648;

pub const TOO_LARGE: u64 = 2147483649;

// The names of parameters and behaviours, which share one set.
pub const NAMES: usize = 72;

// The numbers of behaviours' first cells, and last how many cells there are.
pub const FIRST_CELLS: usize = 65;
