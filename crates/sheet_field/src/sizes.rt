// How many bytes a field and its parts take, for the code (01, "The sheet").
// A length is HIGH * its first byte and its second.
pub const HIGH: usize = lib_word::BYTE_VALUES as usize;
// Tag and length: the value stands behind them.
pub const HEADER: usize = 3;
// The value of a constant or a start; of a name, a parameter, a viewer or an event; of an event that has both.
pub const WORD: usize = 4;

pub const BYTE: usize = 1;

pub const PAIR: usize = 2;
// The fields of a constant or a start; of a name, a parameter, a viewer, or an event of one byte; of an event of two.
pub const WORD_FIELD: usize = HEADER + WORD;

pub const BYTE_FIELD: usize = HEADER + BYTE;

pub const PAIR_FIELD: usize = HEADER + PAIR;
// What stands before an application's arguments or a row's start: tag and length, function or cells.
pub const BYTE_HEAD: usize = HEADER + 1;
// What stands before a handler's expression: tag and length, event and phase.
pub const HANDLER_HEAD: usize = HEADER + 2;
