// The command `equal CODE M RAW SCALE CODE M RAW SCALE`: whether two quantities are the same amount.
use crate::fields::Fields;
use crate::output::Results;

// Runs the command on its fields. None, with nothing written, where they are bad.
pub(crate) fn run(results: &mut Results, mut fields: Fields) -> Option<()> {
    let a = fields.quantity()?;
    let b = fields.quantity()?;
    fields.end()?;
    match display::equal_quantities(a, b) {
        Ok(true) => results.print("yes"),
        Ok(false) => results.print("no"),
        Err(refusal) => results.refused(refusal),
    }
    Some(())
}
