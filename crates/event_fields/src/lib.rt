// The bits of an event field.
#![tactic(auto)]

ghost use Rattle.std.specs.Prelude.{◌≡◌};
ghost use Rattle.event_fields.specs.Events.{is_bitfield, event_bits};
ghost use Rattle.event_fields.specs.CodeTypes.{to_spec_event_bits};

use point_types::Presence;
use refusals::Refusal;

// The number of bits that are set and the lowest set position, 64 if none.
#[derive(Clone, Copy, Debug, PartialEq, Eq)]
pub struct EventBits {
    pub count: u32,
    pub lowest: u32,
}

// The bits that are set in a bitfield's value, of a mandatory or an optional point.
#[tactic(auto, using(crate::proofs::SetPositions::count_of_ones, crate::proofs::SetPositions::lowest_position), unfolding(crate::specs::Events::event_bits))]
pub fn event_bits(type_code: u16, raw: u64) -> Result<EventBits, Refusal>
    ensures { to_spec_event_bits result ≡ event_bits type_code raw }
{
    if !is_bitfield(type_code) {
        return Err(Refusal::NoBitfield);
    }
    // A bitfield is no accumulator, so its presence does not matter.
    if !values::is_value(type_code, Presence::Optional, raw) {
        return Err(Refusal::NoBits);
    }
    Ok(EventBits {
        count: raw.count_ones(),
        lowest: raw.trailing_zeros(),
    })
}

// Is it the code of bitfield16, bitfield32 or bitfield64? The codes stay numbers: public calls take any code.
fn is_bitfield(type_code: u16) -> bool
    ensures { result ≡ is_bitfield type_code }
{
    matches!(type_code, 5 | 13 | 21)
}
