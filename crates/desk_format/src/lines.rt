// The lines that the program prints, each by its Display. Nothing is allocated: a line has no memory that can fail.
ghost use Rattle.std.specs.Prelude.{Some, ◌≡◌, false, []};
ghost use Rattle.desk_format.specs.Script.{refusal_line, commit_line, step_line, board_line};

use spec_language::answers;
use std::fmt;

// A step's answer: its kind, then from these factors on the event and the arrival's number, with so many of each.
const KINDS: u64 = answers::PLAYER;

const EVENT: u64 = answers::EVENT;

const EVENTS: u64 = 256;

const NUMBER: u64 = answers::ARRIVAL;

const NUMBERS: u64 = 1099511627776;

// A refusal: R and its number.
#[derive(Clone, Copy, Drop)]
pub struct Refused(pub u64);

impl fmt::Display for Refused {
    ghost output = { λ line. Some (refusal_line line.0) };

    fn fmt<W: fmt::Write>(&self, f: &mut fmt::Formatter<W>) -> fmt::Result {
        let number = self.0;
        write!(f, "R {number}\n")
    }
}

// A commit: C, the arrival's number and the event's.
#[derive(Clone, Copy, Drop)]
struct Committed {
    arrival: u64,
    event: u64,
}

impl fmt::Display for Committed {
    ghost output = { λ line. Some (commit_line line.arrival line.event) };

    fn fmt<W: fmt::Write>(&self, f: &mut fmt::Formatter<W>) -> fmt::Result {
        let Committed { arrival, event } = *self;
        write!(f, "C {arrival} {event}\n")
    }
}

// What a step's answer prints; nothing where it is neither a refusal nor a commit.
#[derive(Clone, Copy, Drop)]
pub struct Stepped(pub u64);

impl Stepped {
    // Whether there is a line. To print nothing takes as long as to print a line: most steps are spared it.
    #[tactic(auto, using(lib_base::proofs::Pick::branches), unfolding(crate::specs::Script::step_line))]
    pub fn has_line(self) -> bool
        ensures { result ≡ false → step_line self.0 ≡ [] }
    {
        self.0 == answers::FOREIGN || self.0 % KINDS == answers::COMMITTED
    }
}

impl fmt::Display for Stepped {
    ghost output = { λ line. Some (step_line line.0) };

    fn fmt<W: fmt::Write>(&self, f: &mut fmt::Formatter<W>) -> fmt::Result {
        let answer = self.0;
        if answer == answers::FOREIGN {
            return Refused(answers::FOREIGN).fmt(f);
        }
        if answer % KINDS == answers::COMMITTED {
            let arrival = answer / NUMBER % NUMBERS;
            let event = answer / EVENT % EVENTS;
            return Committed { arrival, event }.fmt(f);
        }
        Ok(())
    }
}

// A show: B and the values in order, each the signed number that a 32-bit word stands for.
#[derive(Clone, Copy, Drop)]
pub struct Board<'a>(pub &'a [u32]);

impl fmt::Display for Board<'_> {
    ghost output = { λ line. Some (board_line line.0.now) };

    fn fmt<W: fmt::Write>(&self, f: &mut fmt::Formatter<W>) -> fmt::Result {
        f.write_str("B")?;
        for &word in self.0 {
            let value = word.cast_signed();
            write!(f, " {value}")?;
        }
        f.write_str("\n")
    }
}
