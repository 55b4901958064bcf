// Exact decimal text.
ghost use Rattle.std.specs.Prelude.{◌≡◌, ◌+◌, ◌*◌, ◌^◌, ◌≤◌, ◌∷◌, [], length, IfOk};
ghost use Rattle.point_types.specs.CodeTypes.{to_spec_presence};
ghost use Rattle.display.specs.Decimals.{last_digits, digit_count, digits_of, unsigned_text, stored};
ghost use Rattle.display.specs.CodeTypes.{decimal_into, length_of, to_spec_decimal, to_code_digits};
ghost use Rattle.display.specs.InternalParts.{TenAtMost, parts_text, HasRoom, Added};

use crate::quantities::{ScaledNumber, accept};
use crate::{Digits, MOST_DIGITS, Presence, Quantity};
use refusals::Refusal;

// The least length of a buffer, whatever the text.
const LEAST_BUFFER: usize = 32;

// Writes value × 10 ^ scale, exact, at the start of `out`, and returns the length of the text. On a refusal it
// writes nothing.
#[tactic(auto, using(crate::proofs::AmountCases::parts_within, crate::proofs::DecimalCases::long_buffer), unfolding(crate::specs::Decimals::decimal_of))]
pub fn decimal(
    type_code: u16,
    presence: Presence,
    raw: u64,
    scale: u16,
    out: &mut [u8],
) -> Result<usize, Refusal>
    ensures result_value { to_spec_decimal result ≡ length_of (decimal_into type_code (to_spec_presence presence) raw scale out.old) }
    ensures out_after { out.new ≡ stored (decimal_into type_code (to_spec_presence presence) raw scale out.old) out.old }
    ensures length_fits { IfOk result (λ n. n ≤ length out.new) }
{
    let amount = accept(Quantity {
        type_code,
        presence,
        raw,
        scale,
    })?;
    if out.len() < LEAST_BUFFER {
        return Err(Refusal::ShortBuffer);
    }
    let mut text = Text { out, length: 0 };
    text.amount(amount);
    Ok(text.length)
}

// The digits of n, without a leading zero; 0 is one digit.
pub fn digits_of(n: u64) -> Digits
    ensures value { result ≡ to_code_digits n }
    ensures count_in_bounds { result.count ≤ length result.bytes }
{
    let mut bytes = [0u8; MOST_DIGITS];
    let mut text = Text {
        out: &mut bytes,
        length: 0,
    };
    text.number(n);
    let count = text.length;
    Digits { bytes, count }
}

// A text that grows at the start of a buffer. (`report` has a like one: these functions need room, and a public
// function has no `requires`.)
#[derive(Drop)]
struct Text<'a> {
    out: &'a mut [u8],
    length: usize,
}

impl<'a> Text<'a> {
    // Appends the sign, the whole part and the places.
    fn amount(&mut self, amount: ScaledNumber)
        requires room { HasRoom self.old 32 }
        requires ten_at_most { TenAtMost amount.exponent }
        ensures added { Added self.old self.new (parts_text amount) }
        ensures upper_bound { self.new.length ≤ self.old.length + 32 }
    {
        let ScaledNumber { integer, exponent } = amount;
        if integer.negative {
            self.byte(b'-');
        }
        if exponent < 0 {
            self.places(integer.magnitude, exponent.unsigned_abs());
        } else {
            self.whole(integer.magnitude, exponent.unsigned_abs());
        }
    }

    // Appends n × 10 ^ zeros: its digits and the zeros, but one 0 for zero.
    fn whole(&mut self, n: u64, zeros: u32)
        requires { (zeros ≤ 10) × HasRoom self.old 30 }
        ensures added { Added self.old self.new (unsigned_text (n * 10 ^ zeros) 0) }
        ensures upper_bound { self.new.length ≤ self.old.length + 30 }
    {
        self.number(n);
        if n != 0 {
            self.digits(zeros as usize, 0);
        }
    }

    // Appends n / 10 ^ places: the whole part, the point and the last digits.
    #[tactic(auto, using(crate::proofs::PowersOfTen::fits))]
    fn places(&mut self, n: u64, places: u32)
        requires { (1 ≤ places) × (places ≤ 10) × HasRoom self.old 31 }
        ensures added { Added self.old self.new (unsigned_text n places) }
        ensures upper_bound { self.new.length ≤ self.old.length + 31 }
    {
        self.number(n / 10u64.pow(places));
        self.byte(b'.');
        self.digits(places as usize, n);
    }

    // Appends the digits of n without a leading zero.
    fn number(&mut self, n: u64)
        requires { HasRoom self.old 20 }
        ensures added { Added self.old self.new (digits_of n) }
        ensures upper_bound { self.new.length ≤ self.old.length + 20 }
    {
        self.digits(digit_count(n), n);
    }

    // Appends the last `count` digits of n.
    fn digits(&mut self, count: usize, n: u64)
        requires { (count ≤ 20) × HasRoom self.old count }
        ensures added { Added self.old self.new (last_digits count n) }
        ensures value { self.new.length ≡ self.old.length + count }
    {
        let end = self.length + count;
        let mut rest = n;
        for i in (self.length..end).rev() {
            self.out[i] = b'0' + (rest % 10) as u8;
            rest /= 10;
        }
        self.length = end;
    }

    // Appends a byte.
    fn byte(&mut self, byte: u8)
        requires { HasRoom self.old 1 }
        ensures { Added self.old self.new (byte ∷ []) }
    {
        self.out[self.length] = byte;
        self.length += 1;
    }
}

// The number of digits of n.
#[tactic(auto, using(crate::proofs::DigitCount::one_digit, crate::proofs::DigitCount::from_power))]
fn digit_count(n: u64) -> usize
    ensures value { result ≡ digit_count n }
    ensures upper_bound { result ≤ 20 }
{
    n.checked_ilog10().map_or(1, |k| k as usize + 1)
}
