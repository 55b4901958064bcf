// Values of SunSpec points: the class of a raw value under its type, `decode`, and the integer that a scale
// factor multiplies.
// Every public call takes any arguments and carries an equation with the definitions of specs/.
#![tactic(auto)]

mod classes;
mod unscaled;

ghost use Rattle.std.specs.Prelude.{◌≡◌, true, false, ◌*◌, ◌-◌, ◌^◌, ◌≤◌, ◌<◌};
ghost use Rattle.std.specs.Float.Ieee.{top, nan_bits, of_bits};
ghost use Rattle.point_types.specs.CodeTypes.{to_spec_presence, to_spec_format, to_spec_row};
ghost use Rattle.values.specs.Classes.{twos_complement, in_range};
ghost use Rattle.values.specs.Decoding.{float, number_of, value_of, decoded};
ghost use Rattle.values.specs.CodeTypes.{to_spec_value, to_spec_decoded};

use classes::Pattern;
pub use classes::{classify, is_value, is_value_in, scale_factor_in_range};
pub use point_types::Presence;
use point_types::{Format, Kind, row_of};
use refusals::Refusal;
use registers::{all_ones, raw_value};
pub use unscaled::unscaled_value;

// A pattern of a type is a value, marks the point as unimplemented, or is out of the type's range.
#[derive(Clone, Copy, Debug, PartialEq, Eq)]
pub enum Class {
    Value,
    Unimplemented,
    OutOfRange,
}

// Why `classify` gives a raw value no class. A string's width is that of the longest string: for a point of
// another size, call `too_wide` as well.
#[derive(Clone, Copy, Debug, PartialEq, Eq)]
pub enum Unclassified {
    TooWide,
    UnknownType,
}

// What the registers of a decodable type hold: a number, an integer or a float of 32 or 64 bits, or none.
#[derive(Clone, Copy, Debug, PartialEq)]
pub enum Value {
    Signed(i64),
    Unsigned(u64),
    Float(f32),
    Double(f64),
    Unimplemented,
    OutOfRange,
}

// The integer that a scale factor multiplies, by its sign and magnitude; negative is below 0.
#[derive(Clone, Copy, Debug, PartialEq, Eq)]
pub struct Integer {
    pub negative: bool,
    pub magnitude: u64,
}

// The value in the first registers, for a point of this presence; the type decides how many are read. Refused
// unless the code is 1–18, 21 or 22. (string and ipv6addr are types, but may take more than four registers.)
#[tactic(auto, using(crate::proofs::ClassCases::too_long, crate::proofs::ClassCases::no_row_lem, crate::proofs::FoundRow::result_of))]
pub fn decode(type_code: u16, presence: Presence, registers: [u16; 4]) -> Result<Value, Refusal>
    ensures { to_spec_decoded result ≡ decoded type_code (to_spec_presence presence) registers }
{
    let row = row_of(type_code).ok_or(Refusal::NotDecodable)?;
    if 4 < row.most {
        return Err(Refusal::NotDecodable);
    }
    let raw = raw_value(&registers[..usize::from(row.most)]);
    Ok(Pattern { row, raw }.value_of(presence))
}

impl Pattern {
    // Its value, for a point of this presence.
    #[tactic(auto, using(crate::proofs::ThreeClasses::value_in_range), unfolding(crate::specs::Decoding::value_of))]
    fn value_of(self, presence: Presence) -> Value
        ensures { to_spec_value result ≡ value_of (to_spec_row self.row) (to_spec_presence presence) self.raw }
    {
        match self.class_in(presence) {
            Class::Value => self.number_of(),
            Class::Unimplemented => Value::Unimplemented,
            Class::OutOfRange => Value::OutOfRange,
        }
    }

    // Its number, if it is in its type's range.
    #[tactic(auto, unfolding(crate::specs::Decoding::number_of))]
    fn number_of(self) -> Value
        requires { in_range (to_spec_row self.row) self.raw ≡ true }
        ensures { to_spec_value result ≡ number_of (to_spec_row self.row) self.raw }
    {
        match self.row.kind {
            Kind::Signed => Value::Signed(twos_complement(self.row.most, self.raw)),
            Kind::Unsigned | Kind::Accumulator => Value::Unsigned(self.raw),
            Kind::Float(format) => float_of(format, self.raw),
        }
    }
}

// The float of a pattern that is not a NaN's.
fn float_of(format: Format, raw: u64) -> Value
    requires raw_bound { raw < 2 * top (to_spec_format format) }
    requires raw_value { nan_bits (to_spec_format format) raw ≡ false }
    ensures { to_spec_value result ≡ float (to_spec_format format) (of_bits (to_spec_format format) raw) }
{
    match format {
        Format::Binary32 => Value::Float(f32::from_bits(raw as u32)),
        Format::Binary64 => Value::Double(f64::from_bits(raw)),
    }
}

// Two's complement of one to four registers. -1 - (ones - raw) stays within 64 bits at every width.
#[tactic(auto, using(registers::proofs::Joining::four_ones, crate::proofs::MachineIntegers::upper_pattern))]
fn twos_complement(count: u16, raw: u64) -> i64
    requires le_count { (1 ≤ count) × (count ≤ 4) }
    requires raw_bound { raw < 2 ^ (16 * count) }
    ensures { result ≡ twos_complement (16 * count) raw }
{
    let ones = all_ones(count);
    if raw <= ones / 2 {
        raw as i64
    } else {
        -1 - ((ones - raw) as i64)
    }
}
