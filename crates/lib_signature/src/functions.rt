// The functions' numbers, and the last of them. 01 "Functions 1 to 14".
pub const OR: u8 = 1;

pub const AND: u8 = 2;

pub const NOT: u8 = 3;

pub const ADD: u8 = 4;

pub const SUBTRACT: u8 = 5;

pub const MULTIPLY: u8 = 6;

pub const DIVIDE: u8 = 7;

pub const ABOVE: u8 = 8;

pub const AT_LEAST: u8 = 9;

pub const BELOW: u8 = 10;

pub const AT_MOST: u8 = 11;

pub const EQUAL: u8 = 12;

pub const UNEQUAL: u8 = 13;

pub const IF: u8 = 14;

pub const LAST: u8 = IF;
