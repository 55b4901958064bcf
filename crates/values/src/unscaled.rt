// The integer of a raw value, not scaled.
ghost use Rattle.std.specs.Prelude.{◌≡◌};
ghost use Rattle.point_types.specs.CodeTypes.{to_spec_presence, to_spec_row};
ghost use Rattle.values.specs.Classes.{integer};
ghost use Rattle.values.specs.Unscaled.{unscaled};
ghost use Rattle.values.specs.CodeTypes.{to_code_unscaled, to_code_integer};

use crate::classes::{Pattern, classified_in, is_value_in};
use crate::{Integer, twos_complement};
use point_types::{Kind, Presence, row_of};
use refusals::Refusal;

// The integer that a scale factor multiplies, for a type code, the point's presence and a raw value.
#[tactic(auto, using(point_types::proofs::Table::own_code, point_types::proofs::Table::listed), unfolding(crate::specs::Unscaled::unscaled))]
pub fn unscaled_value(type_code: u16, presence: Presence, raw: u64) -> Result<Integer, Refusal>
    ensures { result ≡ to_code_unscaled (unscaled type_code (to_spec_presence presence) raw) }
{
    let row = row_of(type_code).ok_or(Refusal::NotScalable)?;
    if !row.scalable {
        return Err(Refusal::NotScalable);
    }
    if !is_value_in(classified_in(row, presence, raw)) {
        return Err(Refusal::NoValue);
    }
    Ok(Pattern { row, raw }.integer_of())
}

impl Pattern {
    // Its integer. Only signed types have negative ones.
    #[tactic(auto, unfolding(crate::specs::Classes::integer))]
    fn integer_of(self) -> Integer
        ensures { result ≡ to_code_integer (integer (to_spec_row self.row) self.raw) }
    {
        match self.row.kind {
            Kind::Signed => {
                let value = twos_complement(self.row.most, self.raw);
                Integer {
                    negative: value < 0,
                    magnitude: value.unsigned_abs(),
                }
            }
            _ => Integer {
                negative: false,
                magnitude: self.raw,
            },
        }
    }
}
