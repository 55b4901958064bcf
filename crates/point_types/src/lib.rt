// The point types: the code's table of rows, proved to be that of specs/Rows.antt, and what is looked up in it; and
// the presence of a point, which decides whether an accumulator's 0 is a value.
// Every public call takes any arguments and carries an equation with the definitions of specs/.
#![tactic(auto)]

ghost use Rattle.std.specs.Prelude.{◌≡◌};
ghost use Rattle.point_types.specs.Rows.{may_scale, registers_of, row_of, unimplemented_for};
ghost use Rattle.point_types.specs.CodeTypes.{to_spec_presence, to_spec_count, to_spec_found, to_spec_unimplemented, to_spec_row, Means};

use crate::Format::{Binary32, Binary64};
use crate::Kind::{Accumulator, Float, Signed, Unsigned};
use crate::Range::{NotNan, Only, ScaleFactor, UpTo, Whole};

// Whether a model must have a point.
#[derive(Clone, Copy, Debug, PartialEq, Eq)]
pub enum Presence {
    Mandatory,
    Optional,
}

// The formats of IEEE 754 for float32 and float64.
#[derive(Clone, Copy, Debug, PartialEq, Eq)]
pub enum Format {
    Binary32,
    Binary64,
}

// How the bits of a value are read; those of an accumulator as unsigned.
#[derive(Clone, Copy, Debug, PartialEq, Eq)]
pub enum Kind {
    Signed,
    Unsigned,
    Accumulator,
    Float(Format),
}

// The patterns in range. ScaleFactor is -10 to 10 in one register.
#[derive(Clone, Copy, Debug, PartialEq, Eq)]
pub enum Range {
    Whole,
    UpTo(u64),
    Only(u64),
    ScaleFactor,
    NotNan,
}

// A type row. Its code is there for the proofs: by it they state that the row is one of the table. Its unimplemented
// pattern, if it has one, is that of an optional point.
#[derive(Clone, Copy, Debug, PartialEq, Eq)]
pub struct TypeRow {
    pub code: u16,
    pub fewest: u16,
    pub most: u16,
    pub scalable: bool,
    pub kind: Kind,
    pub unimplemented: Option<u64>,
    pub range: Range,
}

// The number of registers of a point of a type: from fewest to most.
#[derive(Clone, Copy, Debug, PartialEq, Eq)]
pub struct RegisterCount {
    pub fewest: u16,
    pub most: u16,
}

// Patterns of 64 bits in the table: all ones, all ones but the highest bit, and the NaN that marks a float64
// as unimplemented.
const ONES_64: u64 = 0xFFFFFFFFFFFFFFFF;

const ONES_63: u64 = 0x7FFFFFFFFFFFFFFF;

const NAN_64: u64 = 0x7FF8000000000000;

// The row of a type code.
#[tactic(auto, using(crate::proofs::Table::no_row_outside), unfolding(crate::specs::Rows::rows, crate::specs::Rows::row_among))]
pub fn row_of(type_code: u16) -> Option<TypeRow>
    ensures { to_spec_found result ≡ row_of type_code }
{
    // The codes stay numbers and are no enum: public calls take any code, also one that no type has.
    let (fewest, most, scalable, kind, unimplemented, range) = match type_code {
        1 => (1, 1, true, Signed, Some(0x8000), Whole), // int16
        2 => (1, 1, true, Unsigned, Some(0xFFFF), Whole), // uint16
        3 => (1, 1, true, Accumulator, Some(0), Whole), // acc16
        4 => (1, 1, false, Unsigned, Some(0xFFFF), Whole), // enum16
        5 => (1, 1, false, Unsigned, Some(0xFFFF), UpTo(0x7FFF)), // bitfield16
        6 => (1, 1, false, Unsigned, None, Only(0x8000)), // pad
        7 => (1, 1, false, Unsigned, None, Whole), // raw16
        8 => (1, 1, false, Signed, Some(0x8000), ScaleFactor), // sunssf
        9 => (2, 2, true, Signed, Some(0x80000000), Whole), // int32
        10 => (2, 2, true, Unsigned, Some(0xFFFFFFFF), Whole), // uint32
        11 => (2, 2, true, Accumulator, Some(0), Whole), // acc32
        12 => (2, 2, false, Unsigned, Some(0xFFFFFFFF), Whole), // enum32
        13 => (2, 2, false, Unsigned, Some(0xFFFFFFFF), UpTo(0x7FFFFFFF)), // bitfield32
        14 => (2, 2, false, Float(Binary32), Some(0x7FC00000), NotNan), // float32
        15 => (2, 2, false, Unsigned, Some(0), Whole), // ipaddr
        16 => (4, 4, true, Signed, Some(0x8000000000000000), Whole), // int64
        17 => (4, 4, true, Unsigned, Some(ONES_64), Whole), // uint64
        18 => (4, 4, true, Accumulator, Some(0), UpTo(ONES_63)), // acc64
        19 => (1, 64, false, Unsigned, Some(0), Whole), // string
        20 => (8, 8, false, Unsigned, Some(0), Whole), // ipv6addr
        21 => (4, 4, false, Unsigned, Some(ONES_64), UpTo(ONES_63)), // bitfield64
        22 => (4, 4, false, Float(Binary64), Some(NAN_64), NotNan), // float64
        _ => return None,
    };
    Some(TypeRow {
        code: type_code,
        fewest,
        most,
        scalable,
        kind,
        unimplemented,
        range,
    })
}

// What word 6 of a point frame means: 1 is mandatory. (Checking refuses any other than 0 and 1.)
impl From<u16> for Presence {
    ghost from_gives = { Means };

    fn from(word: u16) -> Presence {
        match word {
            1 => Presence::Mandatory,
            _ => Presence::Optional,
        }
    }
}

// The unimplemented pattern of a point of the row's type: a mandatory accumulator has none.
pub fn unimplemented_for(row: TypeRow, presence: Presence) -> Option<u64>
    ensures { to_spec_unimplemented result ≡ unimplemented_for (to_spec_row row) (to_spec_presence presence) }
{
    match (row.kind, presence) {
        (Accumulator, Presence::Mandatory) => None,
        _ => row.unimplemented,
    }
}

// The number of registers of a point of this type.
#[tactic(auto, unfolding(crate::specs::Rows::registers_of))]
pub fn register_count(type_code: u16) -> Option<RegisterCount>
    ensures { to_spec_count result ≡ registers_of type_code }
{
    let row = row_of(type_code)?;
    Some(RegisterCount {
        fewest: row.fewest,
        most: row.most,
    })
}

// May a point of this type carry a scale factor?
#[tactic(auto, unfolding(crate::specs::Rows::may_scale))]
pub fn scalable(type_code: u16) -> bool
    ensures { result ≡ may_scale type_code }
{
    row_of(type_code).is_some_and(|row| row.scalable)
}
