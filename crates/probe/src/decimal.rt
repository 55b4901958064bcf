// The command `decimal CODE M RAW SCALE LENGTH`: a scaled number as text, in a buffer of LENGTH bytes.
use crate::fields::Fields;
use crate::output::Results;

// The longest buffer that a line can ask for.
const LONGEST_BUFFER: usize = 64;

// Runs the command on its fields. None, with nothing written, where they are bad.
pub(crate) fn run(results: &mut Results, mut fields: Fields) -> Option<()> {
    let quantity = fields.quantity()?;
    let mut buffer = [0; LONGEST_BUFFER];
    let out = buffer.get_mut(..fields.number()? as usize)?;
    fields.end()?;
    match display::decimal(
        quantity.type_code,
        quantity.presence,
        quantity.raw,
        quantity.scale,
        out,
    ) {
        Ok(length) => results.bytes(&out[..length]),
        Err(refusal) => results.refused(refusal),
    }
    Some(())
}
