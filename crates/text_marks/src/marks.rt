// The numbers of a formula's marks that are no functions: a function's number is below them.
pub const OPENING: u8 = 64;

pub const CLOSING: u8 = 65;

pub const COMMA: u8 = 66;
