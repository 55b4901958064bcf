// The command `check CATALOG`: the number of models in a catalog, or the refusal.
use crate::fields::{CATALOG_CAPACITY, Fields};
use crate::output::Results;

// Runs the command on its fields. None, with nothing written, where they are bad.
pub(crate) fn run(results: &mut Results, mut fields: Fields) -> Option<()> {
    let mut catalog = [0; CATALOG_CAPACITY];
    let catalog = fields.words(&mut catalog)?;
    fields.end()?;
    match catalog::check(catalog) {
        Ok(models) => results.print(format_args!("models {models}")),
        Err(refused) => results.refused(refused),
    }
    Some(())
}
