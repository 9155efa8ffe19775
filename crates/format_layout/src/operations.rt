// The operations of instructions, for the code (format_image, specs/Image.antt): an instruction's first word is
// operation * SLOTS + slot, its second a constant.
pub const SLOTS: u32 = 256;

pub const OFF: u32 = 1;

pub const ON: u32 = 2;

pub const COPY: u32 = 3;

pub const RESTORE: u32 = 4;

pub const PUSH: u32 = 5;

pub const LOAD: u32 = 6;

pub const FETCH: u32 = 7;

pub const APPLY: u32 = 8;

pub const SAVE: u32 = 9;

pub const DEFER: u32 = 10;

pub const MOVE: u32 = 11;
