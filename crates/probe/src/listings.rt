// The command `list ENTRIES CATALOG MAP`: the points of a register map by a catalog, stored in a list of ENTRIES
// numbers.
use crate::fields::{CATALOG_CAPACITY, Fields, MAP_CAPACITY};
use crate::output::Results;
use listing::{Listed, WIDTH};

// The longest list that a line can ask for.
const LIST_CAPACITY: usize = 20000;

// Runs the command on its fields. None, with nothing written, where they are bad.
pub(crate) fn run(results: &mut Results, mut fields: Fields) -> Option<()> {
    let mut list = [0; LIST_CAPACITY];
    let mut catalog = [0; CATALOG_CAPACITY];
    let mut map = [0; MAP_CAPACITY];
    let list = list.get_mut(..fields.number()? as usize)?;
    let catalog = fields.words(&mut catalog)?;
    let map = fields.words(&mut map)?;
    fields.end()?;
    match listing::list(catalog, map, list) {
        Ok(Listed { points, headers }) => {
            results.print(format_args!("points {points} headers {headers}"));
            for record in list.chunks_exact(WIDTH).take(points) {
                results.print(" /");
                for number in record {
                    results.print(format_args!(" {number}"));
                }
            }
        }
        Err(not_listed) => results.refused(not_listed),
    }
    Some(())
}
