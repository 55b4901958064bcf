// The refusals: what a call says of arguments that it does not take, by the numbers of document 01. A public call that can
// refuse returns a `Result` whose error is one of these types, or `listing::NotListed`.
#![tactic(auto)]

ghost use Rattle.std.specs.Prelude.{◌≡◌, Some};
ghost use Rattle.refusals.specs.Refusals.{number, PlaceZero, printed, printed_with_place};

use std::error::Error;
use std::fmt;

// A refusal; its number is that of the documents. Of a catalog: 1 to 11. Of a map: 20 to 26. Of a model: 27 to 29. Of a list: 30.
// Of a write: 31 to 35. Of a value: 40 to 46. Of an input: 50 to 52.
#[derive(Clone, Copy, Debug, PartialEq, Eq)]
pub enum Refusal {
    PartOfFrame = 1,
    TooManyFrames = 2,
    MalformedFrame = 3,
    FrameOutOfPlace = 4,
    TooManyLevels = 5,
    BadNumber = 6,
    BadType = 7,
    BadScale = 8,
    BadCount = 9,
    EmptyGroup = 10,
    OpenModel = 11,
    TooManyRegisters = 20,
    NoMarker = 21,
    NoHeader = 22,
    FirstModelNotCommon = 23,
    ZeroId = 24,
    BadLength = 25,
    PastTheMap = 26,
    ShortModel = 27,
    UnimplementedCount = 28,
    LengthNotSize = 29,
    ShortList = 30,
    NoSuchPoint = 31,
    ReadOnly = 32,
    OverFourRegisters = 33,
    UnimplementedPoint = 34,
    NoValueOfPoint = 35,
    NotDecodable = 40,
    NoBitfield = 41,
    NoBits = 42,
    NotScalable = 43,
    NoValue = 44,
    BadScaleFactor = 45,
    ShortBuffer = 46,
    BadLine = 50,
    NoEmptyLine = 51,
    OverCapacity = 52,
}

impl Refusal {
    // The number that the documents give it.
    pub fn number(self) -> u16
        ensures { result ≡ number self }
    {
        self as u16
    }
}

// Its number.
impl fmt::Display for Refusal {
    ghost output = { λ refusal. Some (printed refusal) };

    fn fmt<W: fmt::Write>(&self, f: &mut fmt::Formatter<W>) -> fmt::Result {
        write!(f, "{}", self.number())
    }
}

impl Error for Refusal {}

// A refusal and its place, which document 01 names for each: a frame's index, an address, a line, a count, or 0.
#[derive(Clone, Copy, Debug, PartialEq, Eq)]
pub struct Refused {
    pub refusal: Refusal,
    pub place: usize,
}

// A refusal for which no place is named is at place 0.
impl From<Refusal> for Refused {
    ghost from_gives = { PlaceZero };

    fn from(refusal: Refusal) -> Refused {
        Refused { refusal, place: 0 }
    }
}

// As in `5 at 3`.
impl fmt::Display for Refused {
    ghost output = { λ refused. Some (printed_with_place refused) };

    fn fmt<W: fmt::Write>(&self, f: &mut fmt::Formatter<W>) -> fmt::Result {
        write!(f, "{} at {}", self.refusal, self.place)
    }
}

impl Error for Refused {}

#[cfg(test)]
mod tests {
    use super::*;

    #[test]
    fn numbers_are_those_of_the_documents(rt: HostRuntime) {
        assert_eq!(rt; Refusal::OpenModel.number(), 11, "the last of a catalog");
        assert_eq!(rt; Refusal::LengthNotSize.number(), 29, "the last of a model");
        assert_eq!(rt; Refusal::OverCapacity.number(), 52, "the last of an input");
        assert_eq!(rt; Refused::from(Refusal::ReadOnly).place, 0, "no place");
    }
}
