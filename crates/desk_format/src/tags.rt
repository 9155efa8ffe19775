// The tags of the desk program's fields, for the code (specs/Script.antt). 01 "The desk program".
pub const SHEET: u8 = 0x20;

pub const ARRIVAL: u8 = 0x21;

pub const STEPS: u8 = 0x22;

pub const SHOW: u8 = 0x23;
