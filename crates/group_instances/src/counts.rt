// The number of instances of a group.
ghost use Rattle.std.specs.Prelude.{◌≡◌, ◌&&◌, ◌≤◌, max, eqb};
ghost use Rattle.catalog_frames.specs.Frames.{count_by_point};
ghost use Rattle.catalog_frames.specs.CodeTypes.{to_spec_head};
ghost use Rattle.layout.specs.Layout.{count_of};
ghost use Rattle.layout.specs.PointTables.{scope_in};
ghost use Rattle.group_instances.specs.Fills.{filled, to_spec_fill};

use crate::tables::entry_of;
use catalog::{CONSTANT_COUNT, COUNT_BY_POINT, Head};

// The number of instances of the group `head`. `fill` is the count of a fill group.
pub fn count_of(table: &[u16], head: Head, fill: usize) -> usize
    ensures value { result ≡ count_of (scope_in table.now) fill (to_spec_head head) }
    ensures upper_bound { result ≤ max fill 65535 }
{
    match head.count_kind {
        CONSTANT_COUNT => usize::from(head.count),
        COUNT_BY_POINT => usize::from(entry_of(table, head.count)),
        _ => fill,
    }
}

// Does the count point of the group `head` read FFFF?
pub fn is_unimplemented(table: &[u16], head: Head) -> bool
    ensures { result
        ≡ (eqb (to_spec_head head).count_kind count_by_point && eqb (scope_in table.now (to_spec_head head).count) 0xFFFF) }
{
    head.count_kind == COUNT_BY_POINT && entry_of(table, head.count) == 0xFFFF
}

// The count of a fill group whose instances have `size` registers, in a model of `length` registers of which `rest`
// are outside the fill group, or `None` if the length does not fit (29). Where there is no fill group, `size` is 0 and the length
// must be the rest.
pub fn fill_count(length: usize, rest: usize, size: usize) -> Option<usize>
    ensures { to_spec_fill result ≡ filled length rest size }
{
    let left = length.checked_sub(rest)?;
    if size == 0 {
        (left == 0).then_some(0)
    } else {
        (left % size == 0).then_some(left / size)
    }
}
