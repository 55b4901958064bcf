// Finds one point of a model by arithmetic on its definition: each frame is read a few times, and no instance is walked.
ghost use Rattle.std.specs.Prelude.{◌≡◌, ◌+◌, ◌-◌, ◌≤◌};
ghost use Rattle.std.proofs.Math.Option.{some};
ghost use Rattle.catalog_frames.specs.Frames.{frame_in};
ghost use Rattle.catalog_frames.specs.CodeTypes.{to_spec_head};
ghost use Rattle.layout.specs.Layout.{count_of};
ghost use Rattle.layout.specs.FrameWalk.{head_of};
ghost use Rattle.layout.specs.PointTables.{scope_in, present_within};
ghost use Rattle.layout.specs.InternalWalks.{content_from, ParsesAt, level_of, AtGroups};
ghost use Rattle.layout.specs.Locating.{located_among, located_own, located_in};
ghost use Rattle.listing.specs.InternalCodeTypes.{to_spec_located};
ghost use Rattle.listing.specs.InternalContracts.{ModelAsks, located_within, LocateAsks, ShapeOf};

use crate::Table;
use crate::checked::CheckedCatalog;
use crate::extents::groups_extent;
use catalog::{Head, Point};
use definition_frames::{group_at, points_from, run_extent};
use group_instances::{InstancePath, LOWER_LEVELS, count_of};

// The search key: a point's number and its instance path.
#[derive(Clone, Copy)]
pub(crate) struct Key {
    pub(crate) number: u16,
    pub(crate) path: InstancePath,
}

// A search in one model: the catalog that has its definition, the points in scope, the count of its fill group, and the key.
#[derive(Clone, Copy)]
pub(crate) struct Search<'a> {
    pub(crate) catalog: CheckedCatalog<'a>,
    pub(crate) table: &'a Table,
    pub(crate) fill: usize,
    pub(crate) key: Key,
    pub(crate) ghost few_instances: { fill ≤ 65535 },
}

// A point that was located: its offset in the body, and its definition in the catalog.
#[derive(Clone, Copy)]
pub(crate) struct Location {
    pub(crate) offset: usize,
    pub(crate) point: Point,
}

// A frame of the definition, and the offset in the body where its points or groups begin.
#[derive(Clone, Copy)]
pub(crate) struct Position {
    pub(crate) frame: usize,
    pub(crate) offset: usize,
}

// A group: the number of its instances, the registers of one instance's own points and of one whole instance, the frame of the
// groups in it, and the frame after its end frame.
#[derive(Clone, Copy)]
struct Shape {
    count: usize,
    own_size: usize,
    size: usize,
    inside: usize,
    next: usize,
}

impl Search<'_> {
    // Looks for the point in a model with a body of `length` registers, whose definition begins at frame `first` and whose top
    // points are in the table. A pad that is left out begins at the end of the body, so it is not found.
    pub(crate) fn locate_model(&self, length: usize, first: usize) -> Option<Location>
        requires { ModelAsks self.now.catalog.words.now self.now.table.now length first self.now.fill }
        ensures { to_spec_located result ≡ located_within (count_of (scope_in self.now.table.now) self.now.fill) self.now.key.number self.now.key.path.instances length (content_from self.now.catalog.words.now first) }
    {
        let top = Position {
            frame: first,
            offset: 0,
        };
        if let Some(location) = self.locate_own(top, length, LOWER_LEVELS) {
            return Some(location);
        }
        let run = run_extent(self.catalog.words, first);
        let groups = Position {
            frame: run.next,
            offset: run.size,
        };
        self.locate_groups(LOWER_LEVELS, groups)
    }

    // Looks for the point in sibling groups from `start` on, in a group that may hold `levels` further levels. Of each group only
    // the instance with the path's number can have it: among its own points, or in the groups in it.
    fn locate_groups(&self, levels: usize, start: Position) -> Option<Location>
        requires { LocateAsks self.now.catalog.words.now self.now.table.now self.now.fill levels start.frame start.offset }
        ensures { to_spec_located result ≡ located_in (count_of (scope_in self.now.table.now) self.now.fill) self.now.key.number self.now.key.path.instances (level_of levels) start.offset (content_from self.now.catalog.words.now start.frame).groups }
    {
        let mut at = start;
        while let Some(head) = group_at(self.catalog.words, at.frame) {
            let shape = self.shape_of(levels, at.frame, head);
            let j = self.key.path.number_at(LOWER_LEVELS - levels);
            if j < shape.count {
                let own = Position {
                    frame: at.frame + 1,
                    offset: at.offset + j * shape.size,
                };
                let lower = Position {
                    frame: shape.inside,
                    offset: own.offset + shape.own_size,
                };
                if let Some(location) = self.locate_own(own, lower.offset, levels - 1) {
                    return Some(location);
                }
                if let Some(location) = self.locate_groups(levels - 1, lower) {
                    return Some(location);
                }
            }
            at = Position {
                frame: shape.next,
                offset: at.offset + shape.count * shape.size,
            };
        }
        None
    }

    // The shape of the group at frame `frame`, by its head, its points and the groups in it.
    fn shape_of(&self, levels: usize, frame: usize, head: Head) -> Shape
        requires at_groups { AtGroups self.now.catalog.words.now frame levels }
        requires levels_bound { levels ≤ 3 }
        requires frame_value { head_of (frame_in self.now.catalog.words.now frame) ≡ some (to_spec_head head) }
        ensures { ShapeOf self.now.catalog.words.now (count_of (scope_in self.now.table.now) self.now.fill) (to_spec_head head) frame result }
    {
        // A slice is lent of a local alone, not of a field.
        let table = self.table;
        let run = run_extent(self.catalog.words, frame + 1);
        let inside = groups_extent(self.catalog.words, table, levels - 1, run.next);
        Shape {
            count: count_of(table, head, self.fill),
            own_size: run.size,
            size: run.size + inside.size.registers,
            inside: run.next,
            next: inside.next,
        }
    }

    // Looks for the point among the own points of an instance that may hold `levels` further levels. Their path has number 0 at
    // every deeper level.
    fn locate_own(&self, start: Position, limit: usize, levels: usize) -> Option<Location>
        requires parses_at { ParsesAt self.now.catalog.words.now start.frame }
        requires limit_bound { (limit ≤ 65536) × (levels ≤ 3) }
        ensures { to_spec_located result ≡ located_own self.now.key.number self.now.key.path.instances (4 - levels) start.offset (present_within limit start.offset (content_from self.now.catalog.words.now start.frame).points) }
    {
        if !self.key.path.is_zero_from(LOWER_LEVELS - levels) {
            return None;
        }
        self.locate_run(start, limit)
    }

    // Looks for the point with number `number` among the points from `start` on. Ends at offset `limit`, so that a pad that is
    // left out is not found.
    fn locate_run(&self, start: Position, limit: usize) -> Option<Location>
        requires parses_at { ParsesAt self.now.catalog.words.now start.frame }
        requires limit_bound { limit ≤ 65536 }
        ensures { to_spec_located result ≡ located_among self.now.key.number start.offset (present_within limit start.offset (content_from self.now.catalog.words.now start.frame).points) }
    {
        let mut offset = start.offset;
        for point in points_from(self.catalog.words, start.frame) {
            if limit <= offset {
                return None;
            }
            if point.number == self.key.number {
                return Some(Location { offset, point });
            }
            offset += usize::from(point.size);
        }
        None
    }
}
