// The tokens of a formula, for the code. The definition's tokens (specs/Tokens.antt) are these by text_lexer,
// specs/Codes.antt.
use spec_language::limits;

// A number is as far as it counts: all above the largest are one more.
#[derive(Clone, Copy, PartialEq, Eq, Debug, Drop)]
pub enum Token {
    Number(u32),
    Name(u8),
    Function(u8),
    Opening,
    Closing,
    Comma,
}

pub const LAST_NAME: u8 = limits::BEHAVIOURS as u8 - 1;
// The largest number that a formula may hold, 2^31 - 1; the scanner counts no further than one above it.
pub const LARGEST_NUMBER: u32 = 2147483647;

pub const TOO_LARGE: u64 = 2147483648;
// How many values a word has.
pub const WORDS: u64 = 4294967296;
