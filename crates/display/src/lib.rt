// What a screen shows of a SunSpec point: an exact decimal number, and whether two quantities are the same
// amount. The text of a string and the bits of an event field are re-exported from crates of their own. Every
// public call takes any arguments and carries an equation with the definitions of specs/.
#![tactic(auto)]

ghost use Rattle.std.specs.Prelude.{◌≡◌, take};

mod comparison;
mod decimals;
mod quantities;

pub use comparison::equal_quantities;
pub use decimals::{decimal, digits_of};
pub use event_fields::{EventBits, event_bits};
pub use point_types::Presence;
pub use strings::text;

// The most digits of a 64-bit number.
pub const MOST_DIGITS: usize = 20;

// The digits of a number, at the start of `bytes`, and their number. The bytes after them are 0.
#[derive(Clone, Copy, Debug, PartialEq, Eq)]
pub struct Digits {
    pub bytes: [u8; MOST_DIGITS],
    pub count: usize,
}

impl Digits {
    // The digits alone: the first `count` bytes. A count above that of the bytes gives them all.
    pub fn as_slice(&self) -> &[u8]
        ensures { result.now ≡ take self.now.count self.now.bytes }
    {
        &self.bytes[..self.count.min(MOST_DIGITS)]
    }
}

// A raw value under its type, of a mandatory or an optional point, and its scale factor as a register: in two's
// complement.
#[derive(Clone, Copy, Debug, PartialEq, Eq)]
pub struct Quantity {
    pub type_code: u16,
    pub presence: Presence,
    pub raw: u64,
    pub scale: u16,
}
