// The command `parse BYTES`: the catalog and the map in the bytes of an input, with the capacity of `readplant`.
use crate::fields::Fields;
use crate::output::{Results, Words};
use input::{FRAME_WORDS, Parsed};

// The most bytes that a line can give: more than any input that is not refused.
const INPUT_CAPACITY: usize = 81920;

// The capacity for the words of the catalog, and for the registers of the map.
const PARSED_CAPACITY: usize = 8192;

// Runs the command on its fields. None, with nothing written, where they are bad.
pub(crate) fn run(results: &mut Results, mut fields: Fields) -> Option<()> {
    let mut text = [0; INPUT_CAPACITY];
    let text = fields.bytes(&mut text)?;
    fields.end()?;
    let mut catalog = [0; PARSED_CAPACITY];
    let mut map = [0; PARSED_CAPACITY];
    match input::parse(text, &mut catalog, &mut map) {
        Ok(Parsed { frames, registers }) => {
            let catalog = Words(&catalog[..frames * FRAME_WORDS]);
            let map = Words(&map[..registers]);
            results.print(format_args!("parsed {catalog} {map}"));
        }
        Err(refused) => results.refused(refused),
    }
    Some(())
}
