// Where the parts of a field stand, for the code (01, "The sheet"; 02, M-107, M-110).
// In a field: its length, the high byte first.
pub const LENGTH: usize = 1;

pub const LOW_LENGTH: usize = LENGTH + 1;
// In an event's value: its rank, and who may send it.
pub const RANK: usize = 0;

pub const SENDERS: usize = 1;
// In the value of a field 08.
pub const VIEWERS: usize = 0;
// In a handler's value.
pub const EVENT: usize = 0;

pub const PHASE: usize = 1;

pub const REACTION: usize = 2;
// In a row's value: how many cells it has, and what goes on as an active's.
pub const CELLS: usize = 0;

pub const START: usize = 1;
// In the value of a name or a parameter.
pub const NUMBER: usize = 0;
// In an application's value.
pub const FUNCTION: usize = 0;

pub const ARGUMENTS: usize = 1;
