// The round's own type: what a fresh one is, its limits, and where its words stand in its bytes (specs/Layout.antt).
ghost use Rattle.std.specs.Prelude.{◌≡◌};
ghost use Rattle.format_layout.specs.Fresh.{fresh_of};

use spec_language::limits;

// A round (01's word) as it begins: number taken in, waiting count, whether one runs, the store. Its other words are 0.
#[derive(Clone, PartialEq, Eq, Debug, Drop)]
pub struct Round {
    pub taken: u32,
    pub waiting: u32,
    pub running: u32,
    pub store: [u32; limits::BEHAVIOURS],
}

impl Round {
    // At most so many in the queue (01: hand), the running one included.
    pub const QUEUE: u32 = 64;

    // At most so many arrivals are taken in.
    pub const ARRIVALS: u32 = 1000000;

    pub const BYTES: usize = 2048;

    pub const WORD_COUNT: usize = 512;

    pub const TAKEN: usize = 0;

    pub const WAITING: usize = 1;

    // Whether one runs; its event and player, its number, its count of instructions done, the depth of the evaluation
    // stack, its mark.
    pub const RUNNING: usize = 2;

    pub const RUNNING_WORD: usize = 3;

    pub const RUNNING_NUMBER: usize = 4;

    pub const POSITION: usize = 5;

    pub const DEPTH: usize = 6;

    pub const MARK: usize = 7;

    // The queue (01: the waiting of the hand), of each its number, and its event and player.
    pub const NUMBERS: usize = 8;

    pub const WORDS: usize = 9;

    // Sixty-four words each: the store (01: board), scratch, deferred values (01: places), the evaluation stack.
    pub const STORE: usize = 136;

    pub const SCRATCH: usize = 200;

    pub const DEFERRED: usize = 264;

    pub const STACK: usize = 328;

    // Event and player of an arrival are one word: what the player weighs in it.
    pub const PLAYER: u32 = 256;

    // 01 "A fresh round": these values, an empty hand.
    pub fn fresh(store: [u32; limits::BEHAVIOURS]) -> Self
        ensures { result ≡ fresh_of store }
    {
        Self {
            taken: 0,
            waiting: 0,
            running: 0,
            store,
        }
    }
}
