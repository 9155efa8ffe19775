// Faults of a text, each with its kind and its place (specs/Faults.antt has the kinds' words).
ghost use Rattle.std.specs.Prelude.{◌≡◌};
ghost use Rattle.source_coding.specs.FaultWords.{number};

// The kinds, each with its number. docs/SHEETS.md "Faults".
#[derive(Clone, Copy, PartialEq, Eq, Debug, Drop)]
pub enum Kind {
    Outside = 31,
    LargeNumber = 32,
    OffScale = 33,
    TooMany = 34,
    DeclaredTwice = 35,
    SecondHandler = 36,
    TooDeep = 37,
    UnknownName = 38,
    NoSuchCell = 39,
    LongSheet = 40,
    ShortBuffer = 41,
    LongText = 42,
}

impl Kind {
    pub fn number(self) -> u64
        ensures { result ≡ number self }
    {
        self as u64
    }
}

// A fault: its kind, and how many bytes of the text stand before it.
#[derive(Clone, Copy, PartialEq, Eq, Debug, Drop)]
pub struct Fault {
    pub kind: Kind,
    pub place: usize,
}

// The number of a buffer that is too short, which the printing of a sheet answers alone.
pub const SHORT_BUFFER: u64 = Kind::ShortBuffer as u64;

// What the kind and the line weigh beside the column in assemble's answer.
pub const TOLD_KIND: u64 = 72057594037927936;

pub const TOLD_LINE: u64 = 268435456;
