// Why a call is refused: a reason of the one table of refusals, and a position. Every format's crates stand on it.
#![tactic(auto)]

ghost use Rattle.std.specs.Prelude.{◌≡◌, Result};
ghost use Rattle.refusals.specs.Refusals.{Fault, number_of, found, fault_of, refusal_at};

use std::fmt;

// The table of refusals, by number (R-1 to R-19, R-30 to R-35, R-41). Each number has one meaning: 13 and 14 say that what was
// asked for is not there, the track (of a DSK image also the side), and the revolution or the sector.
#[derive(Clone, Copy, Debug, PartialEq, Eq)]
pub enum Reason {
    Size = 1,
    Sign = 2,
    Width = 3,
    Revolutions = 4,
    Span = 5,
    Heads = 6,
    Footer = 7,
    String = 8,
    Slot = 9,
    Track = 10,
    Flux = 11,
    Sum = 12,
    Absent = 13,
    Revolution = 14,
    Places = 15,
    Time = 16,
    Words = 17,
    Shared = 18,
    Text = 19,
    DskSign = 30,
    DskGeometry = 31,
    DskLength = 32,
    DskBlock = 33,
    DskSectors = 34,
    DskData = 35,
    DskLayout = 41,
}

// Why a call is refused, and where (RO-1).
#[derive(Clone, Copy, Debug, PartialEq, Eq)]
pub struct Refusal {
    pub reason: Reason,
    pub position: u64,
}

impl Reason {
    // The same number of a DSK image: the sector is not there.
    pub const NO_SECTOR: Reason = Reason::Revolution;

    // The reason's number in the table.
    pub fn number(self) -> u32
        ensures { result ≡ number_of self }
    {
        self as u32
    }

    // A refusal for this reason, at a position.
    pub fn at(self, position: u64) -> Refusal
        ensures { result ≡ refusal_at self position }
    {
        Refusal {
            reason: self,
            position,
        }
    }
}

// The number and the position of what a test found; both are 0 where it found nothing to refuse (RO-1).
pub fn number_and_position(found: Result<(), Refusal>) -> (u32, u64)
    ensures { result ≡ ((fault_of found).number, (fault_of found).position) }
{
    match found {
        Ok(()) => (0, 0),
        Err(refusal) => (refusal.reason.number(), refusal.position),
    }
}

impl fmt::Display for Refusal {
    fn fmt<W: fmt::Write>(&self, f: &mut fmt::Formatter<W>) -> fmt::Result {
        let number = self.reason.number();
        let position = self.position;
        write!(f, "refused {number} at {position}")
    }
}

impl std::error::Error for Refusal {}
