// The command `text ADDRESS SIZE FALLBACK MAP`: the words of a text in a register map, or of the fallback.
use crate::fields::Fields;
use crate::output::{Results, Words};

// The most words that a line can give as the fallback.
const FALLBACK_CAPACITY: usize = 1024;

// The most words that a line can give as the map.
const MAP_CAPACITY: usize = 65536;

// Runs the command on its fields. None, with nothing written, where they are bad.
pub(crate) fn run(results: &mut Results, mut fields: Fields) -> Option<()> {
    let mut fallback = [0; FALLBACK_CAPACITY];
    let mut map = [0; MAP_CAPACITY];
    let address = fields.number()? as usize;
    let size = fields.number()? as usize;
    let fallback = fields.words(&mut fallback)?;
    let map = fields.words(&mut map)?;
    fields.end()?;
    results.print(Words(display::text(map, address, size, fallback)));
    Some(())
}
