// Hexadecimal digits of any case.
ghost use Rattle.std.specs.Prelude.{◌≡◌, ◌<◌, get_or};
ghost use Rattle.input.specs.Digits.{digit_value, digit_or0, are_digits, word};
ghost use Rattle.input.specs.CodeTypes.{to_spec_digit};

// The value of `byte` as a hexadecimal digit; none for any other byte.
#[tactic(auto, unfolding(crate::specs::Digits::digit_value))]
pub fn digit_of(byte: u8) -> Option<u16>
    ensures { to_spec_digit result ≡ digit_value byte }
{
    Some(char::from(byte).to_digit(16)? as u16)
}

// Are all these bytes digits?
#[tactic(auto, unfolding(crate::specs::Digits::is_digit, crate::specs::Digits::digit_value))]
pub(crate) fn are_digits(bytes: &[u8]) -> bool
    ensures { result ≡ are_digits bytes.now }
{
    bytes.iter().all(u8::is_ascii_hexdigit)
}

// The value of a digit; 0 for any other byte.
#[tactic(auto, unfolding(crate::specs::Digits::digit_or0, crate::specs::Digits::digit_value))]
fn digit_or_0(byte: u8) -> u16
    ensures value { result ≡ digit_or0 byte }
    ensures upper_bound { result < 16 }
{
    digit_of(byte).unwrap_or(0)
}

// The word of four digits.
pub(crate) fn word_of(digits: &[u8; 4]) -> u16
    ensures { result ≡ word (get_or digits.now 0 0) (get_or digits.now 1 0) (get_or digits.now 2 0) (get_or digits.now 3 0) }
{
    let [a, b, c, d] = digits.map(digit_or_0);
    ((a * 16 + b) * 16 + c) * 16 + d
}
