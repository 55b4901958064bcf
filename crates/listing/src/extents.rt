// The number of registers and points of a model by its definition, computed before anything is written.
ghost use Rattle.std.specs.Prelude.{◌≡◌, ◌+◌, ◌*◌, ◌≤◌, min};
ghost use Rattle.catalog_frames.specs.CodeTypes.{to_spec_head};
ghost use Rattle.layout.specs.PointTables.{scope_in};
ghost use Rattle.layout.specs.InternalWalks.{content_from, past_end, AtGroups};
ghost use Rattle.listing.specs.InternalContracts.{ExtentOf, WithGroup};

use crate::Table;
use catalog::{FILL, Head};
use definition_frames::{Run, group_at, run_extent};
use group_instances::{count_of, is_unimplemented};

// A size with nested counts may need more than 64 bits. No map has more registers than CAP, so sizes and numbers
// of points are capped at it.
const CAP: usize = 65536;

// A number of registers and a number of points.
#[derive(Clone, Copy, Default)]
pub(crate) struct Size {
    pub(crate) registers: usize,
    pub(crate) points: usize,
}

impl Size {
    // This and `count` times `instance`, capped.
    fn plus(self, count: usize, instance: Size) -> Size
        requires sum_bound { (self.registers ≤ 268435456) × (self.points ≤ 268435456) }
        requires instance_bound { (count ≤ 65535) × (instance.registers ≤ 65536) × (instance.points ≤ 65536) }
        ensures registers { result.registers ≡ min (self.registers + count * instance.registers) 65536 }
        ensures points { result.points ≡ min (self.points + count * instance.points) 65536 }
    {
        Size {
            registers: (self.registers + count * instance.registers).min(CAP),
            points: (self.points + count * instance.points).min(CAP),
        }
    }
}

// Sibling groups: their size, without a fill group; the size of one instance of the fill group, if there is one; whether
// a count point is unimplemented; and the frame after the end frame of the group that contains them.
// An unimplemented count is no error here: a search takes the sizes alone, since its survey has decided 28.
#[derive(Clone, Copy)]
pub(crate) struct Extent {
    pub(crate) size: Size,
    pub(crate) fill: Option<Size>,
    pub(crate) unimplemented: bool,
    pub(crate) next: usize,
}

// The extent of the groups from frame `first` on, in a group that may hold `levels` further levels. Reads each frame once.
pub(crate) fn groups_extent(catalog: &[u16], table: &Table, levels: usize, first: usize) -> Extent
    requires at_groups { AtGroups catalog.now first levels }
    requires levels_bound { levels ≤ 3 }
    ensures extent_of { ExtentOf (scope_in table.now) (content_from catalog.now first).groups result }
    ensures next_value { result.next ≡ past_end catalog.now first }
{
    let mut sum = Extent {
        size: Size::default(),
        fill: None,
        unimplemented: false,
        next: first,
    };
    while let Some(head) = group_at(catalog, sum.next) {
        let run = run_extent(catalog, sum.next + 1);
        let inside = groups_extent(catalog, table, levels - 1, run.next);
        sum = with_group(sum, table, head, run, inside);
    }
    Extent {
        next: sum.next + 1,
        ..sum
    }
}

// The extent `sum` and one more group: its head, its points and the groups in it.
fn with_group(sum: Extent, table: &Table, head: Head, run: Run, inside: Extent) -> Extent
    requires size_bound { (sum.size.registers ≤ 65536) × (sum.size.points ≤ 65536) × (inside.size.registers ≤ 65536) × (inside.size.points ≤ 65536) }
    requires size_bound_2 { (run.size ≤ 268435456) × (run.points ≤ 4096) }
    ensures { WithGroup sum (scope_in table.now) (to_spec_head head) run inside result }
{
    let own = Size {
        registers: run.size,
        points: run.points,
    };
    let instance = own.plus(1, inside.size);
    Extent {
        size: sum.size.plus(count_of(table, head, 0), instance),
        fill: if head.count_kind == FILL {
            Some(instance)
        } else {
            sum.fill
        },
        unimplemented: sum.unimplemented || inside.unimplemented || is_unimplemented(table, head),
        next: inside.next,
    }
}
