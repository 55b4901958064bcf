// The points in scope: a table with the first register of each point, by the point's number. A number belongs to one
// point of a model, so an instance only overwrites entries that an earlier instance or an earlier model left.
ghost use Rattle.std.specs.Prelude.{◌≡◌, length, get_or, set};
ghost use Rattle.catalog.specs.Rules.{run};
ghost use Rattle.layout.specs.FrameWalk.{onward};
ghost use Rattle.layout.specs.PointTables.{table_with, present_within};

use definition_frames::points_from;

// The length of a table with an entry for each number: a number is 16 bits.
pub const NUMBERS: usize = 65536;

// Records the first register of each point of an instance in the table. The points are the run of point frames from
// frame `first` on, placed from `offset` in the body. Stops at the end of the body, so a pad that is left out is not
// recorded; a number that the table lacks is skipped.
#[tactic(auto, using(crate::proofs::RecordSteps::record_ends))]
pub fn record_run(catalog: &[u16], first: usize, body: &[u16], offset: usize, table: &mut [u16])
    ensures { table.new
        ≡ table_with body.now offset
        (present_within (length body.now) offset (run (onward catalog.now first))) table.old }
{
    let mut at = offset;
    for point in points_from(catalog, first) {
        let Some(register) = body.get(at) else {
            return;
        };
        set_entry(table, point.number, *register);
        at += usize::from(point.size);
    }
}

// Sets the entry of `number`, if the table has one.
fn set_entry(table: &mut [u16], number: u16, register: u16)
    ensures { table.new ≡ set table.old number register }
{
    let place = usize::from(number);
    if place < table.len() {
        table[place] = register;
    }
}

// The entry of `number`; 0 where the table has none.
pub(crate) fn entry_of(table: &[u16], number: u16) -> u16
    ensures { result ≡ get_or table.now number 0 }
{
    table.get(usize::from(number)).copied().unwrap_or(0)
}
