// Whether two quantities are the same amount.
ghost use Rattle.std.specs.Prelude.{◌≡◌, ◌*◌, ◌^◌, eqb};
ghost use Rattle.display.specs.Equality.{equality};
ghost use Rattle.display.specs.CodeTypes.{quantity_amount, to_spec_equality};
ghost use Rattle.display.specs.InternalParts.{is_same_by_parts};

use crate::Quantity;
use crate::quantities::{ScaledNumber, accept};
use refusals::Refusal;

// Is value × 10 ^ scale the same number for both? The first quantity's refusal comes before the second's.
#[tactic(auto, using(crate::proofs::EqualityCases::both_accepted), unfolding(crate::specs::Equality::equality))]
pub fn equal_quantities(a: Quantity, b: Quantity) -> Result<bool, Refusal>
    ensures { to_spec_equality result ≡ equality (quantity_amount a) (quantity_amount b) }
{
    let x = accept(a)?;
    let y = accept(b)?;
    Ok(is_same(x, y))
}

// The same sign, and the same magnitude at the lesser exponent.
#[tactic(auto, using(crate::proofs::SameAmount::first_larger, crate::proofs::SameAmount::second_larger), unfolding(crate::specs::InternalParts::is_same_by_parts))]
fn is_same(x: ScaledNumber, y: ScaledNumber) -> bool
    ensures { result ≡ is_same_by_parts x y }
{
    let shift = x.exponent.abs_diff(y.exponent);
    x.integer.negative == y.integer.negative
        && if y.exponent <= x.exponent {
            is_shifted(x.integer.magnitude, shift, y.integer.magnitude)
        } else {
            is_shifted(y.integer.magnitude, shift, x.integer.magnitude)
        }
}

// Is m = n × 10 ^ k? The power and the product may need more than 64 bits.
fn is_shifted(n: u64, k: u32, m: u64) -> bool
    ensures { result ≡ eqb (n * 10 ^ k) m }
{
    match 10u64.checked_pow(k) {
        Some(power) => n.checked_mul(power) == Some(m),
        None => n == 0 && m == 0,
    }
}
