// The fields of a line. A field is one space and at least one byte after it, up to the next space or the line's end.
ghost use Rattle.std.specs.Prelude.{◌^◌, ◌<◌, ◌≤◌, length};

use display::Quantity;
use point_types::Presence;

// The most words that a line can give as a catalog: one frame more than a catalog may have.
pub(crate) const CATALOG_CAPACITY: usize = 32776;

// The most words that a line can give as a map: one more than a map may have.
pub(crate) const MAP_CAPACITY: usize = 65537;

// The fields of a line that are still to be read. Each method reads the next field; None where it is bad, or where there is
// none.
#[derive(Drop)]
pub(crate) struct Fields<'a> {
    rest: &'a [u8],
}

impl<'a> Fields<'a> {
    // The word that a line begins with, and the fields after it.
    pub(crate) fn of_line(line: &'a [u8]) -> (&'a [u8], Fields<'a>) {
        let (word, rest) = line.split_at(length_to_space(line));
        (word, Fields { rest })
    }

    // The bytes of the field.
    fn field(&mut self) -> Option<&'a [u8]> {
        let rest = self.rest.strip_prefix(b" ")?;
        let (field, rest) = rest.split_at(length_to_space(rest));
        self.rest = rest;
        (!field.is_empty()).then_some(field)
    }

    // A decimal number of 64 bits,
    pub(crate) fn number(&mut self) -> Option<u64> {
        let mut value: u64 = 0;
        for digit in self.field()? {
            let digit = char::from(*digit).to_digit(10)?;
            value = value.checked_mul(10)?.checked_add(u64::from(digit))?;
        }
        Some(value)
    }

    // and of 16 bits.
    pub(crate) fn word(&mut self) -> Option<u16> {
        u16::try_from(self.number()?).ok()
    }

    // The field M: 1 for a mandatory point, 0 for an optional one.
    pub(crate) fn presence(&mut self) -> Option<Presence> {
        match self.number()? {
            0 => Some(Presence::Optional),
            1 => Some(Presence::Mandatory),
            _ => None,
        }
    }

    // The fields CODE M RAW SCALE.
    pub(crate) fn quantity(&mut self) -> Option<Quantity> {
        Some(Quantity {
            type_code: self.word()?,
            presence: self.presence()?,
            raw: self.number()?,
            scale: self.word()?,
        })
    }

    // Stores words of four hexadecimal digits each at the start of `out`, and returns them; `-` is no words. Where the field
    // is bad, some words may have been stored.
    pub(crate) fn words<'b>(&mut self, out: &'b mut [u16]) -> Option<&'b mut [u16]> {
        let chunks = self.chunks::<4>()?;
        let words = out.get_mut(..chunks.len())?;
        for (word, [a, b, c, d]) in words.iter_mut().zip(chunks) {
            *word = u16::from_be_bytes([byte(*a, *b)?, byte(*c, *d)?]);
        }
        Some(words)
    }

    // The same for bytes of two digits each. (One function for both got no proof: a bound `Fn(&[u8; N])` is not covered.)
    pub(crate) fn bytes<'b>(&mut self, out: &'b mut [u8]) -> Option<&'b mut [u8]> {
        let chunks = self.chunks::<2>()?;
        let bytes = out.get_mut(..chunks.len())?;
        for (stored, [a, b]) in bytes.iter_mut().zip(chunks) {
            *stored = byte(*a, *b)?;
        }
        Some(bytes)
    }

    // The field in chunks of N digits; `-` is no digits.
    fn chunks<const N: usize>(&mut self) -> Option<&'a [[u8; N]]>
        requires { (0 < N) × (N < 2 ^ 63) }
    {
        let digits = match self.field()? {
            b"-" => &[],
            digits => digits,
        };
        let (chunks, []) = digits.as_chunks() else {
            return None;
        };
        Some(chunks)
    }

    // Some where the line is read to its end. Anything left would be a surplus field.
    pub(crate) fn end(self) -> Option<()> {
        self.rest.is_empty().then_some(())
    }
}

// The number of bytes before the first space, or of all bytes if there is none.
fn length_to_space(s: &[u8]) -> usize
    ensures { result ≤ length s.now }
{
    s.iter().position(|b| *b == b' ').unwrap_or(s.len())
}

// The byte with these hexadecimal digits, of either case.
fn byte(high: u8, low: u8) -> Option<u8> {
    Some(digit(high)? << 4 | digit(low)?)
}

// The value of a hexadecimal digit.
fn digit(b: u8) -> Option<u8> {
    Some(char::from(b).to_digit(16)? as u8)
}
