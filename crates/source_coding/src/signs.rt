// The numbers of the signs, for the code: operators and `if` have 01's function numbers, which are below 64, the others
// numbers of their own from 64 on (source_language/specs/Tokens.antt).
use text_marks::marks;

pub const OPENING: u8 = marks::OPENING;

pub const CLOSING: u8 = marks::CLOSING;

pub const COMMA: u8 = marks::COMMA;

pub const COLON: u8 = 67;

pub const EQUALS: u8 = 68;

pub const BRACKET: u8 = 69;

pub const UNBRACKET: u8 = 70;

pub const RANK: u8 = 71;

pub const FROM: u8 = 72;

pub const BY: u8 = 73;

pub const NOBODY: u8 = 74;

pub const LATER: u8 = 75;

pub const SEEN: u8 = 76;

pub const ON: u8 = 77;

pub const PARAM: u8 = 78;

pub const EVENT: u8 = 79;

pub const PASSIVE: u8 = 80;

pub const ACTIVE: u8 = 81;

pub const ROW: u8 = 82;

// The end of the text, and a byte where no token begins.
pub const END: u8 = 83;

pub const STRAY: u8 = 84;
