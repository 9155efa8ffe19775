// The limits of sheets and rounds, for the code. 01 "The sheet", "Handlers and steps"; 02, M-103, M-105, M-107, M-110.
pub const EVENTS: usize = 32;

pub const BEHAVIOURS: usize = 64;

pub const SHEET_BYTES: usize = 8192;

pub const HIGHEST_PRIORITY: u8 = 15;
// How deep an expression may nest.
pub const NESTING: usize = 16;
// All events' instructions together.
pub const INSTRUCTIONS: usize = 4096;

pub const STACK: usize = 64;

pub const PLAYERS: u32 = 8;

pub const PARAMETERS: usize = 8;

pub const PARAMETER_BYTES: usize = 32;
// A row's cells.
pub const LEAST_CELLS: usize = 2;

pub const MOST_CELLS: usize = 16;

pub const FORMULA_BYTES: usize = 1024;
