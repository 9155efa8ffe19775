// The first words of the instructions for slot 0.
use format_layout::operations;

pub const OFF: u32 = operations::OFF * operations::SLOTS;

pub const ON: u32 = operations::ON * operations::SLOTS;

pub const COPY: u32 = operations::COPY * operations::SLOTS;

pub const RESTORE: u32 = operations::RESTORE * operations::SLOTS;

pub const PUSH: u32 = operations::PUSH * operations::SLOTS;

pub const LOAD: u32 = operations::LOAD * operations::SLOTS;

pub const FETCH: u32 = operations::FETCH * operations::SLOTS;

pub const APPLY: u32 = operations::APPLY * operations::SLOTS;

pub const SAVE: u32 = operations::SAVE * operations::SLOTS;

pub const DEFER: u32 = operations::DEFER * operations::SLOTS;

pub const MOVE: u32 = operations::MOVE * operations::SLOTS;
