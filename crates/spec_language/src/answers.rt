// The kinds of a step's answer (specs/Answers.antt has their words), for the code.
ghost use Rattle.std.specs.Prelude.{◌≡◌};
ghost use Rattle.spec_language.specs.Verdicts.{told_number};

use crate::refusals::Refusal;

pub const IDLE: u64 = 0;

pub const RAN: u64 = 1;

pub const STARTED: u64 = 2;

pub const COMMITTED: u64 = 3;

pub const PREEMPTED: u64 = 4;
// What player, event and arrival number weigh in the answer of a start or a commit, and how much more a commit answers
// where an application ran over (02, M-104): 2 ^ 56.
pub const PLAYER: u64 = 16;

pub const EVENT: u64 = 256;

pub const ARRIVAL: u64 = 65536;

pub const OVER: u64 = 72057594037927936;
// How much more than its value an answer is that carries one: 2 ^ 32.
pub const VALUE: u64 = 4294967296;
// The refusals where an answer has 64 bits (src/refusals.rt).
pub const CYCLE: u64 = Refusal::Cycle as u64;

pub const FOREIGN: u64 = Refusal::Foreign as u64;

pub const LARGE_NUMBER: u64 = Refusal::LargeNumber as u64;

pub const NO_BEHAVIOUR: u64 = Refusal::NoBehaviour as u64;

pub const NO_FORMULA: u64 = Refusal::NoFormula as u64;

pub const NO_PLAYER: u64 = Refusal::NoPlayer as u64;

pub const SHORT_FIELD: u64 = Refusal::ShortField as u64;

pub const SHORT_JOIN: u64 = Refusal::ShortJoin as u64;

pub const TOO_DEEP: u64 = Refusal::TooDeep as u64;

pub const UNDECLARED_EVENT: u64 = Refusal::UndeclaredEvent as u64;

pub const UNLIKE_RANKS: u64 = Refusal::UnlikeRanks as u64;

// What a call answers that reads a word: 2 ^ 32 and the word, or the refusal's number.
pub fn answer_of(reading: Result<u32, Refusal>) -> u64
    ensures { result ≡ told_number reading }
{
    match reading {
        Ok(word) => VALUE + u64::from(word),
        Err(refusal) => u64::from(refusal.number()),
    }
}
