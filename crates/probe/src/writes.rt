// The command `write MODEL POINT I2 I3 I4 RAW CATALOG MAP`: writes RAW to a point of a register map, by the index of
// its model, its number and its instance numbers at levels 2, 3 and 4.
use crate::fields::{CATALOG_CAPACITY, Fields, MAP_CAPACITY};
use crate::output::{Results, Words};
use listing::InstancePath;

// Runs the command on its fields. None, with nothing written, where they are bad.
pub(crate) fn run(results: &mut Results, mut fields: Fields) -> Option<()> {
    let mut catalog = [0; CATALOG_CAPACITY];
    let mut map = [0; MAP_CAPACITY];
    let model = fields.number()? as usize;
    let point = fields.word()?;
    let instances = [fields.word()?, fields.word()?, fields.word()?];
    let raw = fields.number()?;
    let catalog = fields.words(&mut catalog)?;
    let map = fields.words(&mut map)?;
    fields.end()?;
    match writing::write(catalog, map, model, point, InstancePath { instances }, raw) {
        Ok(()) => {
            let map = Words(map);
            results.print(format_args!("written {map}"));
        }
        Err(refused) => results.refused(refused),
    }
    Some(())
}
