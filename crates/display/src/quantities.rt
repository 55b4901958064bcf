// Reading a quantity: its number, and the power of ten that scales it.
ghost use Rattle.std.specs.Prelude.{◌≡◌, MatchResult};
ghost use Rattle.refusals.specs.Refusals.{number};
ghost use Rattle.display.specs.Amounts.{refused};
ghost use Rattle.display.specs.CodeTypes.{quantity_amount};
ghost use Rattle.display.specs.InternalParts.{IsAmount};

use crate::Quantity;
use refusals::Refusal;
use values::Integer;

// An integer times 10 ^ exponent.
#[derive(Clone, Copy, Debug, PartialEq, Eq)]
pub(crate) struct ScaledNumber {
    pub(crate) integer: Integer,
    pub(crate) exponent: i32,
}

// Accepts or refuses a quantity. The type is tested first, then the value, then the scale factor.
#[tactic(auto, using(crate::proofs::AmountCases::refused_unscaled, crate::proofs::AmountCases::refused_scale, crate::proofs::AmountCases::accepted_parts), unfolding(crate::specs::Amounts::amount_of))]
pub(crate) fn accept(quantity: Quantity) -> Result<ScaledNumber, Refusal>
    ensures { MatchResult result (λ parts. IsAmount (quantity_amount quantity) parts) (λ r. quantity_amount quantity ≡ refused (number r) 0) }
{
    let integer = values::unscaled_value(quantity.type_code, quantity.presence, quantity.raw)?;
    if !values::scale_factor_in_range(quantity.scale) {
        return Err(Refusal::BadScaleFactor);
    }
    let exponent = i32::from(quantity.scale.cast_signed());
    Ok(ScaledNumber { integer, exponent })
}
