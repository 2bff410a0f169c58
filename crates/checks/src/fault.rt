// Why a sheet, a list of corrections or what a host lends is turned back, and where.
ghost use Rattle.std.specs.Prelude.{◌≡◌, Some};
ghost use Rattle.checks.specs.Faults.{fault_number, refusal_text};

use std::fmt;

// A case for each refusal, with its number in the documents.
#[derive(Clone, Copy, Debug, PartialEq, Eq)]
pub enum Fault {
    DistancesShort = 1,
    NotHead = 2,
    SizeOutOfLimits = 3,
    RoadBits = 4,
    RoadPlaces = 5,
    RoadOrder = 6,
    RoadWeight = 7,
    NotSample = 8,
    SampleSpareBit = 9,
    LineCount = 10,
    LineFields = 11,
    LineParameter = 12,
    LineTooShort = 13,
    NotEnd = 14,
    OutputShort = 15,
    BytesRefused = 16,
    WideHead = 17,
    TooManyPlaces = 18,
    CorrectionFaulty = 19,
    CorrectionsClash = 20,
}

// A fault, and the index of the word at which it is told.
#[derive(Clone, Copy, Debug, PartialEq, Eq)]
pub struct Refusal {
    pub fault: Fault,
    pub place: usize,
}

impl Fault {
    pub fn number(self) -> u64
        ensures { result ≡ fault_number self }
    {
        self as u64
    }

    // It is told at this place.
    pub fn at(self, place: usize) -> Refusal
        ensures { result ≡ record { fault = self; place = place } }
    {
        Refusal { fault: self, place }
    }
}

// As the programs print it: its number, then its place.
impl fmt::Display for Refusal {
    ghost output = { λ refusal. Some (refusal_text refusal) };

    fn fmt<W: fmt::Write>(&self, f: &mut fmt::Formatter<W>) -> fmt::Result {
        write!(f, "{} {}", self.fault.number(), self.place)
    }
}
