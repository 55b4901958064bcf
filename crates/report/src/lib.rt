// What `readplant` does between reading its input and writing its output: it makes the text of a listing, or of a
// refusal, from the text of a catalog and a map.
#![tactic(auto)]

mod text;

ghost use Rattle.std.specs.Prelude.{◌≡◌, ◌≤◌, length};
ghost use Rattle.listing.specs.Listing.{stored};
ghost use Rattle.input.specs.Parsing.{stored_catalog, stored_map};
ghost use Rattle.report.specs.Program.{parsed_input, found, output, stored_text, stored_list};
ghost use Rattle.report.specs.InternalContracts.{Answered};
ghost use Rattle.report.specs.CodeTypes.{to_code_report, written_by, length_of};

use input::{FRAME_WORDS, parse};
use listing::{Listed, WIDTH};
use refusals::Refused;
use text::{put_listing, put_refusal};

// Only the first 74,818 bytes of an input decide the output (proofs/EnoughInput.antt): 33 for each of 1,024 frames, 5 for
// each of 8,192 registers, the empty line, and 65 of the next line, which is a bad line if it is that long.
pub const INPUT_BYTES: usize = 74818;

// The most frames of a catalog, and the words of that many frames.
const FRAMES: usize = 1024;

pub const CATALOG_WORDS: usize = FRAMES * FRAME_WORDS;

// The most registers of a map.
pub const MAP_REGISTERS: usize = 8192;

// The most records of a listing, and the entries of an output list for that many records.
const RECORDS: usize = 400;

pub const ENTRIES: usize = RECORDS * WIDTH;

// The longest text: 64 bytes for the first line, and for each entry 20 digits and a space or LF.
pub const TEXT_BYTES: usize = 64 + ENTRIES * 21;

// The longest output: `refused ` and a text.
pub const OUTPUT_BYTES: usize = 8 + TEXT_BYTES;

// The length of the text that `read_plant` made: of a listing, or of what follows `refused ` in the line of a refusal.
#[derive(Clone, Copy, Debug, PartialEq, Eq)]
pub enum Report {
    Listing(usize),
    Refusal(usize),
}

// Reads a catalog and a map from `input`, lists the map, and puts the text of the listing or of the refusal into `out`.
// The arrays are working memory: their contents at the call do not matter.
pub fn read_plant(
    input: &[u8],
    catalog: &mut [u16; CATALOG_WORDS],
    map: &mut [u16; MAP_REGISTERS],
    list: &mut [u64; ENTRIES],
    out: &mut [u8; TEXT_BYTES],
) -> Report
    ensures out_after { written_by result out.new ≡ output input.now }
    ensures value { result ≡ to_code_report (found input.now) }
    ensures result_in_bounds { length_of result ≤ length out.new }
    ensures out_after_2 { out.new ≡ stored_text (found input.now) out.old }
    ensures catalog_after { catalog.new ≡ stored_catalog (parsed_input input.now) catalog.old }
    ensures map_after { map.new ≡ stored_map (parsed_input input.now) map.old }
    ensures list_after { list.new ≡ stored_list (parsed_input input.now) list.old }
    ensures out_len_unchanged { length out.new ≡ length out.old }
{
    match list_input(input, catalog, map, list) {
        Ok(listed) => Report::Listing(put_listing(out, listed, list)),
        Err(refused) => Report::Refusal(put_refusal(out, refused)),
    }
}

// Reads a catalog and a map from `input`, and lists the map.
fn list_input(
    input: &[u8],
    catalog: &mut [u16; CATALOG_WORDS],
    map: &mut [u16; MAP_REGISTERS],
    list: &mut [u64; ENTRIES],
) -> Result<Listed, Refused>
    ensures value { Answered (found input.now) result }
    ensures catalog_after { catalog.new ≡ stored_catalog (parsed_input input.now) catalog.old }
    ensures map_after { map.new ≡ stored_map (parsed_input input.now) map.old }
    ensures list_after { list.new ≡ stored (found input.now) list.old }
{
    let parsed = parse(input, catalog, map)?;
    let frames = &catalog[..parsed.frames * FRAME_WORDS];
    let registers = &map[..parsed.registers];
    Ok(listing::list(frames, registers, list)?)
}
