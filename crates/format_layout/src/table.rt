// Where the words of a table stand, for the code (specs/Layout.antt).
pub const BYTES: usize = 34816;

pub const EVENT_COUNT: usize = 0;

pub const BEHAVIOUR_COUNT: usize = 1;
// The records of the events, and the words of a record.
pub const EVENTS: usize = 8;

pub const EVENT_WORDS: usize = 4;

pub const PRIORITY: usize = 0;

pub const CODE_START: usize = 1;

pub const CODE_LENGTH: usize = 2;

pub const MEMBERS: usize = 3;
// A word for each behaviour: its value in a fresh round, who may see it.
pub const VALUES: usize = 136;

pub const VIEWERS: usize = 200;
// A word for each event: who may send it.
pub const SENDERS: usize = 264;
// A word for each behaviour: 1 for a passive; then the stretch of instructions that works the passives out.
pub const KINDS: usize = 296;

pub const PASSIVES_START: usize = 360;

pub const PASSIVES_LENGTH: usize = 361;
// The instructions, of two words each: operation and slot, and a constant.
pub const CODE: usize = 512;

pub const CONSTANTS: usize = 513;
