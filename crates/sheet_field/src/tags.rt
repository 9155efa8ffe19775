// The tags of fields, for the code. 01 "The sheet"; 02, M-103, M-107, M-110.
pub const EVENT: u8 = 0x01;

pub const PASSIVE: u8 = 0x02;

pub const ACTIVE: u8 = 0x03;

pub const START: u8 = 0x04;

pub const HANDLER: u8 = 0x05;

pub const ROW: u8 = 0x06;

pub const VIEWERS: u8 = 0x08;

pub const CONSTANT: u8 = 0x10;

pub const NAME: u8 = 0x11;

pub const APPLICATION: u8 = 0x12;

pub const PARAMETER: u8 = 0x13;
