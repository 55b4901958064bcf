// The text of a catalog and a register map, as words (refusals 50 to 52).
#![tactic(auto)]

mod digits;
mod lines;

ghost use Rattle.std.specs.Prelude.{◌≡◌};
ghost use Rattle.input.specs.Parsing.{stored_catalog, stored_map};
ghost use Rattle.input.specs.CodeTypes as CodeTypes;
ghost use Rattle.input.specs.CodeTypes.{to_spec_parsed, parsed_into, CountsFit};

pub use digits::digit_of;
use lines::{store_words, survey_catalog, survey_map};
use refusals::Refused;

// The words of a frame: the same number as `FRAME_WORDS` of `catalog_frames`, on which this crate does not depend.
pub const FRAME_WORDS: usize = 8;

// The number of frames and of registers of a text.
#[derive(Clone, Copy, Debug, PartialEq, Eq)]
pub struct Parsed {
    pub frames: usize,
    pub registers: usize,
}

// Stores the catalog and the map of `text` at the start of the two lists; the lengths of the lists are the capacity for
// frames and registers. All lines are checked before anything is stored, so a refusal changes neither list. Its place is a
// line, counted from 1.
pub fn parse(text: &[u8], catalog: &mut [u16], map: &mut [u16]) -> Result<Parsed, Refused>
    ensures result_value { to_spec_parsed result ≡ CodeTypes.result (parsed_into text.now catalog.old map.old) }
    ensures catalog_after { catalog.new ≡ stored_catalog (parsed_into text.now catalog.old map.old) catalog.old }
    ensures map_after { map.new ≡ stored_map (parsed_into text.now catalog.old map.old) map.old }
    ensures counts_fit { CountsFit catalog.new map.new result }
{
    let (frames, rest) = survey_catalog(text, catalog.len() / FRAME_WORDS)?;
    let registers = survey_map(rest, frames + 2, map.len())?;
    store_words(text, &mut catalog[..frames * FRAME_WORDS]);
    store_words(rest, &mut map[..registers]);
    Ok(Parsed { frames, registers })
}
