// The headers of a register map (refusals 20 to 26). No catalog is needed.
#![tactic(auto)]

ghost use Rattle.std.specs.Prelude.{◌≡◌, ◌+◌, eqb, drop};
ghost use Rattle.register_map.specs.Headers as Headers;
ghost use Rattle.register_map.specs.CodeTypes.{to_spec_header, to_spec_opening};

use refusals::Refusal;

// The largest number of registers in a map.
const MOST_REGISTERS: usize = 65536;

// The first two registers of a map.
const FIRST_REGISTER: u16 = 0x5375;

const SECOND_REGISTER: u16 = 0x6E53;

// The address of the first header.
pub const FIRST_HEADER: usize = 2;

// The id of the end marker. A header's other ids are the models' own, so it is a number like them.
const END_ID: u16 = 0xFFFF;

// What is found at a header: a model with its id and length, or the end marker.
#[derive(Clone, Copy, Debug, PartialEq, Eq)]
pub enum Header {
    Model { id: u16, length: u16 },
    End,
}

// Checks the map as a whole (20 and 21).
#[tactic(auto, unfolding(crate::specs::Headers::opening))]
pub fn opened(map: &[u16]) -> Result<(), Refusal>
    ensures { to_spec_opening result ≡ Headers.opening map.now }
{
    if MOST_REGISTERS < map.len() {
        return Err(Refusal::TooManyRegisters);
    }
    match map {
        [FIRST_REGISTER, SECOND_REGISTER, ..] => Ok(()),
        _ => Err(Refusal::NoMarker),
    }
}

// The header at address `at`, or the first of the refusals 22 to 26 that applies. Any two registers there are read as a header;
// at address 2 it is the first one.
pub fn header_at(map: &[u16], at: usize) -> Result<Header, Refusal>
    ensures { to_spec_header result ≡ Headers.header_at (eqb at 2) (drop at map.now) }
{
    let Some([id, length, rest @ ..]) = map.get(at..) else {
        return Err(Refusal::NoHeader);
    };
    if at == FIRST_HEADER && *id != 1 {
        return Err(Refusal::FirstModelNotCommon);
    }
    match (*id, *length) {
        (0, _) => Err(Refusal::ZeroId),
        (END_ID, 0) => Ok(Header::End),
        (END_ID, _) | (_, 0) => Err(Refusal::BadLength),
        (_, length) if rest.len() < length as usize => Err(Refusal::PastTheMap),
        (id, length) => Ok(Header::Model { id, length }),
    }
}

// The address of the register at `offset` in the body of the model whose header is at `header`. If `offset` is the
// model's length, it is the address of the next header.
pub fn body_address(header: u32, offset: u32) -> usize
    ensures { result ≡ header + 2 + offset }
{
    header as usize + 2 + offset as usize
}
