// The text in a string's registers.
#![tactic(auto)]

ghost use Rattle.std.specs.Prelude.{◌≡◌, length};
ghost use Rattle.strings.specs.Text.{has_string, until_zero_byte, text_at};

use registers::all_zero;

// The text in the `size` registers from `address` on, as a part of the map; or the fallback if the map has no
// such string or only zeros in it.
#[tactic(auto, using(crate::proofs::TextPart::text_prefix), unfolding(crate::specs::Text::text_at))]
pub fn text<'a>(map: &'a [u16], address: usize, size: usize, fallback: &'a [u16]) -> &'a [u16]
    ensures { result.now ≡ text_at map.now address size fallback.now }
{
    if !has_string(map.len(), address, size) {
        return fallback;
    }
    let string = &map[address..address + size];
    if all_zero(string) {
        return fallback;
    }
    &string[..text_length(string)]
}

// Does a map of `registers` registers have a string of `size` registers, 1 to 64, at `address`? The code
// subtracts the size from the map's length, since address + size could be more than a usize holds.
#[tactic(auto, using(crate::proofs::TextPart::string_end))]
fn has_string(registers: usize, address: usize, size: usize) -> bool
    ensures { result ≡ has_string registers address size }
{
    (1..=64).contains(&size) && size <= registers && address <= registers - size
}

// The number of registers of the text: those before the first with a zero byte, and that one if only its low
// byte is zero.
#[tactic(auto, using(crate::proofs::TextPart::text_stops, crate::proofs::TextPart::text_ends, crate::proofs::TextPart::text_on, crate::proofs::TextPart::text_end))]
fn text_length(string: &[u16]) -> usize
    ensures { result ≡ length (until_zero_byte string.now) }
{
    for (i, register) in string.iter().enumerate() {
        if *register < 256 {
            return i;
        }
        if *register % 256 == 0 {
            return i + 1;
        }
    }
    string.len()
}
