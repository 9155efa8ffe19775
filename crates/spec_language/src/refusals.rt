// Why a call was turned down: a case for each, with the number that 01 and 02 give it (specs/Numbers.antt;
// specs/Refusals.antt has the papers' words).
ghost use Rattle.std.specs.Prelude.{◌≡◌};
ghost use Rattle.spec_language.specs.Numbers.{refusal_number};
ghost use Rattle.spec_language.specs.Verdicts.{verdict_number};

#[derive(Clone, Copy, PartialEq, Eq, Debug, Drop)]
pub enum Refusal {
    ShortTable = 1,
    LongSheet = 3,
    Torn = 4,
    WrongTag = 5,
    WrongLength = 6,
    Crowded = 7,
    OffScale = 8,
    TooDeep = 9,
    Doubled = 10,
    UnknownName = 11,
    Cycle = 12,
    Overlong = 13,
    Foreign = 14,
    UndeclaredEvent = 15,
    FullQueue = 16,
    Spent = 17,
    NoBehaviour = 18,
    Settling = 19,
    NoParameters = 20,
    NoFormula = 21,
    LargeNumber = 22,
    ShortField = 23,
    NoPlayer = 24,
    NoRight = 25,
    UnlikeRanks = 26,
    ShortJoin = 27,
    UndeclaredInHand = 28,
    MissingEntries = 43,
    TakenBefore = 44,
}

impl Refusal {
    // The number that the papers give it: what a call answers.
    pub fn number(self) -> u32
        ensures { result ≡ refusal_number self }
    {
        self as u32
    }
}

// A call's own answer is the number: `?` and `.into()` go through it.
impl From<Refusal> for u32 {
    ghost from_gives = { λ r n. n ≡ refusal_number r };

    fn from(r: Refusal) -> u32 {
        r.number()
    }
}

// What a call answers that refuses or has nothing to tell: the refusal's number, or 0.
pub fn verdict_number(verdict: Result<(), Refusal>) -> u32
    ensures { result ≡ verdict_number verdict }
{
    match verdict {
        Ok(()) => 0,
        Err(refusal) => refusal.number(),
    }
}

// The number alone, where a word is told apart by it.
pub const FOREIGN: u32 = Refusal::Foreign as u32;
