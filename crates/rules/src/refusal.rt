// Why a call is refused: document 01's numbers but 0, by their names.
ghost use Rattle.std.specs.Prelude.{◌≡◌};
ghost use Rattle.rules.specs.Refusals.{number_of, said};

use crate::numbers;

// A reason to refuse, in the order in which they are tested.
#[derive(Clone, Copy, Debug, PartialEq, Eq)]
pub enum Refusal {
    Lent = 1,
    Unsound = 2,
    Stale = 3,
    Ended = 4,
    NoCell = 5,
    Full = 6,
    LogFull = 7,
    Busy = 8,
    Conflict = 9,
    BadLog = 10,
    Unknown = 11,
    NoOrder = 12,
}

impl Refusal {
    // Its number in document 01.
    pub fn number(self) -> u8
        ensures { result ≡ number_of self }
    {
        self as u8
    }
}

// The number that an answer gives back: 0 where nothing refuses.
pub fn said(answer: Result<(), Refusal>) -> u8
    ensures { result ≡ said answer }
{
    match answer {
        Ok(()) => numbers::GRANTED,
        Err(refusal) => refusal.number(),
    }
}
