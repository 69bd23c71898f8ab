// Refusals.
ghost use Rattle.std.specs.Prelude.{◌≡◌, Some};
ghost use Rattle.telegram.specs.Refusal.{reason_number, fault_number, told};

use std::error::Error;
use std::fmt;

// Why a call is refused, and by which number.
#[derive(Clone, Copy, Debug, PartialEq, Eq)]
pub enum Reason {
    // The input is empty or too long.
    Size = 1,
    // The envelope is wrong.
    Envelope = 2,
    // The checksum is wrong.
    Checksum = 3,
    // The catalogue has no such type and name.
    Unknown = 4,
    // The body ends before or inside an item.
    Cut = 5,
    // An item is not spelt as its kind, or its blank is missing.
    Misspelt = 6,
    // A count, an amount, a length or a flag passes its limit.
    Limit = 7,
    // Bytes are left over.
    Rest = 8,
    // The output is too short.
    Room = 9,
}

// A reason, and its place: a byte of the whole input; of an output that is too short, the length needed.
#[derive(Clone, Copy, Debug, PartialEq, Eq)]
pub struct Refusal {
    pub reason: Reason,
    pub place: usize,
}

// What can be wrong with the spelling of one item.
#[derive(Clone, Copy)]
pub enum Fault {
    Cut,
    Misspelt,
}

impl Reason {
    pub fn number(self) -> u8
        ensures { result ≡ reason_number self }
    {
        self as u8
    }

    // The refusal for this reason at a place.
    pub fn at(self, place: usize) -> Refusal
        ensures { result ≡ record { reason = self; place = place } }
    {
        Refusal {
            reason: self,
            place,
        }
    }
}

impl From<Fault> for Reason {
    ghost from_gives = { λ fault reason. reason_number reason ≡ fault_number fault };

    fn from(fault: Fault) -> Reason {
        match fault {
            Fault::Cut => Reason::Cut,
            Fault::Misspelt => Reason::Misspelt,
        }
    }
}

// The number of a refusal, and its place.
impl fmt::Display for Refusal {
    ghost output = { λ refusal. Some (told refusal) };

    fn fmt<W: fmt::Write>(&self, f: &mut fmt::Formatter<W>) -> fmt::Result {
        let number = self.reason.number();
        let place = self.place;
        write!(f, "refused {number} {place}")
    }
}

impl Error for Refusal {}
