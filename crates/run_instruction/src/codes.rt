// The words of the functions' applications: operation * SLOTS + function.
use format_layout::operations;
use lib_signature::functions;

const APPLY: u32 = operations::APPLY * operations::SLOTS;

pub const OR: u32 = APPLY + functions::OR as u32;

pub const AND: u32 = APPLY + functions::AND as u32;

pub const NOT: u32 = APPLY + functions::NOT as u32;

pub const ADD: u32 = APPLY + functions::ADD as u32;

pub const SUBTRACT: u32 = APPLY + functions::SUBTRACT as u32;

pub const MULTIPLY: u32 = APPLY + functions::MULTIPLY as u32;

pub const DIVIDE: u32 = APPLY + functions::DIVIDE as u32;

pub const ABOVE: u32 = APPLY + functions::ABOVE as u32;

pub const AT_LEAST: u32 = APPLY + functions::AT_LEAST as u32;

pub const BELOW: u32 = APPLY + functions::BELOW as u32;

pub const AT_MOST: u32 = APPLY + functions::AT_MOST as u32;

pub const EQUAL: u32 = APPLY + functions::EQUAL as u32;

pub const UNEQUAL: u32 = APPLY + functions::UNEQUAL as u32;

pub const IF: u32 = APPLY + functions::IF as u32;
