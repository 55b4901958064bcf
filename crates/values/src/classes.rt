// The class of a raw value under its type.
ghost use Rattle.std.specs.Prelude.{◌≡◌};
ghost use Rattle.point_types.specs.Rows.{Listed};
ghost use Rattle.point_types.specs.CodeTypes.{to_spec_presence, to_spec_kind, to_spec_row};
ghost use Rattle.values.specs.Classes.{PatternOf, twos_complement, in_range, is_scale_factor, holds_nan, is_value, class_of, classified};
ghost use Rattle.values.specs.CodeTypes.{to_spec_class, to_spec_classified};

use crate::{Class, Unclassified};
use point_types::{Format, Kind, Presence, Range, TypeRow, row_of, unimplemented_for};
use registers::too_wide;

// A raw value that fits the registers of a type with this row.
#[derive(Clone, Copy)]
pub(crate) struct Pattern {
    pub(crate) row: TypeRow,
    pub(crate) raw: u64,
    pub(crate) ghost fits: { PatternOf (to_spec_row row) raw },
}

// The class of a raw value under a type code, for a point of this presence.
#[tactic(auto, using(point_types::proofs::Table::own_code, point_types::proofs::Table::listed), unfolding(crate::specs::Classes::classified))]
pub fn classify(type_code: u16, presence: Presence, raw: u64) -> Result<Class, Unclassified>
    ensures { to_spec_classified result ≡ classified type_code (to_spec_presence presence) raw }
{
    let row = row_of(type_code).ok_or(Unclassified::UnknownType)?;
    classified_in(row, presence, raw)
}

// The class of a raw value under the row's type.
#[tactic(auto, unfolding(registers::specs::Registers::too_wide, crate::specs::Classes::classified))]
pub(crate) fn classified_in(
    row: TypeRow,
    presence: Presence,
    raw: u64,
) -> Result<Class, Unclassified>
    requires { Listed (to_spec_row row) }
    ensures { to_spec_classified result ≡ classified row.code (to_spec_presence presence) raw }
{
    if too_wide(row.most, raw) {
        Err(Unclassified::TooWide)
    } else {
        Ok(Pattern { row, raw }.class_in(presence))
    }
}

// Is a raw value a value of its type, for a point of this presence?
pub fn is_value(type_code: u16, presence: Presence, raw: u64) -> bool
    ensures { result ≡ is_value (classified type_code (to_spec_presence presence) raw) }
{
    is_value_in(classify(type_code, presence, raw))
}

// Is it classified as a value?
pub fn is_value_in(classified: Result<Class, Unclassified>) -> bool
    ensures { result ≡ is_value (to_spec_classified classified) }
{
    matches!(classified, Ok(Class::Value))
}

impl Pattern {
    // Its class: unimplemented wins over out of range.
    #[tactic(auto, unfolding(crate::specs::Classes::class_of))]
    pub(crate) fn class_in(self, presence: Presence) -> Class
        ensures { to_spec_class result ≡ class_of (to_spec_row self.row) (to_spec_presence presence) self.raw }
    {
        if unimplemented_for(self.row, presence) == Some(self.raw) {
            Class::Unimplemented
        } else if self.in_range() {
            Class::Value
        } else {
            Class::OutOfRange
        }
    }

    // Is it in its type's range?
    #[tactic(auto, using(crate::proofs::Ranges::in_whole, crate::proofs::Ranges::in_up_to, crate::proofs::Ranges::in_only, crate::proofs::Ranges::in_scale_factor, crate::proofs::Ranges::in_not_nan))]
    fn in_range(self) -> bool
        ensures { result ≡ in_range (to_spec_row self.row) self.raw }
    {
        match self.row.range {
            Range::Whole => true,
            Range::UpTo(high) => self.raw <= high,
            Range::Only(pattern) => self.raw == pattern,
            Range::ScaleFactor => scale_factor_in_range(self.raw as u16),
            Range::NotNan => !holds_nan(self.row.kind, self.raw),
        }
    }
}

// Is a scale factor, in two's complement of one register, from -10 to 10?
pub fn scale_factor_in_range(scale: u16) -> bool
    ensures { result ≡ is_scale_factor (twos_complement 16 scale) }
{
    (-10..=10).contains(&scale.cast_signed())
}

// Is it the pattern of a NaN of its type's kind: without its sign bit, above infinity's? Integers have none. The
// bits are compared as numbers, since the library's `from_bits` takes no NaN.
fn holds_nan(kind: Kind, raw: u64) -> bool
    ensures { result ≡ holds_nan (to_spec_kind kind) raw }
{
    match kind {
        Kind::Float(Format::Binary32) => 0x7F800000 < raw % 0x80000000,
        Kind::Float(Format::Binary64) => 0x7FF0000000000000 < raw % 0x8000000000000000,
        _ => false,
    }
}
