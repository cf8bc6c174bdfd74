// Why a dossier is refused.
ghost use Rattle.std.specs.Prelude.{◌≡◌};
ghost use Rattle.alc.specs.Shown.{number_of};

// The refusals, in the order of their numbers.
#[derive(Clone, Copy, PartialEq, Eq)]
pub enum Refusal {
    // the text has over 65,535 bytes
    TooLong = 1,
    // a bad byte, an empty line, a last line not ended, a word not allowed at its place, a wrong count of fields or a bad number
    Malformed = 2,
    // a number outside its range
    OutOfRange = 3,
    // an equal concept line, a name placed twice, a fact said twice
    Repeated = 4,
    // the 257th concept, the 65th claim, the 1,025th step
    TooMany = 5,
    // the entry isn't of the step's kind
    OtherKind = 6,
    // a needed claim isn't there
    Missing = 7,
    // a name isn't new
    NotNew = 8,
    // a step when no goal is open
    NoGoal = 9,
    // a premise would have over 64 claims
    GoalFull = 10,
    // a 17th goal would wait
    TooManyWait = 11,
    // the end comes too early, or a claim's name is unplaced
    Unfinished = 12,
    // the model doesn't falsify
    NotFalsified = 13,
    // the lent room has under 1,088 records
    RoomTooSmall = 14,
}

impl Refusal {
    // Its number in the list.
    pub fn number(self) -> u8
        ensures { result ≡ number_of self }
    {
        self as u8
    }
}
