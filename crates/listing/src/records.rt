// Walks over the points of one model and writes their records into the output list.
ghost use Rattle.std.specs.Prelude.{◌≡◌, [], ◌∷◌, ◌+◌, ◌*◌, ◌-◌, ◌≤◌, ◌<◌, length};
ghost use Rattle.std.proofs.lemmas.List.Edits.{sets};
ghost use Rattle.model_definitions.specs.Definitions.{group_frames};
ghost use Rattle.model_definitions.specs.Soundness as Soundness;
ghost use Rattle.catalog_frames.specs.CodeTypes.{to_spec_point};
ghost use Rattle.layout.specs.Points.{point_at};
ghost use Rattle.layout.specs.Layout.{within, count_of, points_at, groups_at};
ghost use Rattle.layout.specs.PointTables.{scope_in, table_with};
ghost use Rattle.layout.specs.InternalWalks.{content_from, level_of, instance_in, AgreeExcept, points_of, HasPoints, Ready, read_in, present_points};
ghost use Rattle.listing.specs.Listing.{record_width};
ghost use Rattle.listing.specs.InternalAccepted.{SixteenBits};
ghost use Rattle.listing.specs.InternalContracts.{written, PointFits, RunAsks, AfterRun, GroupsAsk, AfterGroups};

use crate::Table;
use crate::checked::CheckedCatalog;
use crate::surveys::Survey;
use catalog::Point;
use definition_frames::{after_group, group_at, points_from};
use group_instances::{InstancePath, LOWER_LEVELS, count_of, record_run};
use register_map::body_address;
use registers::part;
use shown_points::show;

// The number of entries that a record takes.
pub const WIDTH: usize = 10;

// The visited model: its index, its id, and the address of its header.
#[derive(Clone, Copy)]
pub(crate) struct Visit {
    pub(crate) index: usize,
    pub(crate) id: u16,
    pub(crate) address: usize,
}

// The visited model as its records are written: the catalog that has its definition, its body, and its survey.
#[derive(Clone, Copy)]
pub(crate) struct Model<'a> {
    pub(crate) catalog: CheckedCatalog<'a>,
    pub(crate) visit: Visit,
    pub(crate) body: &'a [u16],
    pub(crate) survey: Survey,
    pub(crate) ghost registers: { SixteenBits body.now },
    pub(crate) ghost short: { length body.now ≤ 65535 },
    pub(crate) ghost address: { visit.address ≤ 65536 },
    pub(crate) ghost few_instances: { survey.fill ≤ 65535 },
}

// The progress of the walk: the number of records written, the offset in the body, and the frame.
#[derive(Clone, Copy)]
pub(crate) struct Progress {
    pub(crate) records: usize,
    pub(crate) offset: usize,
    pub(crate) frame: usize,
}

impl Model<'_> {
    // Writes the records of a model whose top points are in the table. Returns the number of records written so far.
    pub(crate) fn put_points(&self, table: &mut Table, out: &mut [u64], records: usize) -> usize
        requires ready { Ready self.now.catalog.words.now self.now.visit.id self.now.body.now table.old self.now.survey.first self.now.survey.fill }
        requires has_points { HasPoints (read_in self.now.catalog.words.now self.now.visit.id self.now.body.now) }
        requires capacity { record_width * (records + length (points_of (read_in self.now.catalog.words.now self.now.visit.id self.now.body.now))) ≤ length out.old }
        ensures value { result ≡ records + length (points_of (read_in self.now.catalog.words.now self.now.visit.id self.now.body.now)) }
        ensures out_after { out.new ≡ written self.now.visit records (points_of (read_in self.now.catalog.words.now self.now.visit.id self.now.body.now)) out.old }
    {
        let top = InstancePath {
            instances: [0, 0, 0],
        };
        let start = Progress {
            records,
            offset: 0,
            frame: self.survey.first,
        };
        let after_points = self.put_run(table, out, top, start);
        if after_points.offset == self.body.len() {
            return after_points.records;
        }
        self.put_groups(table, out, LOWER_LEVELS, top, after_points)
            .records
    }

    // Writes the points of an instance. Ends at the end of the body, so that a pad that is left out has no record.
    fn put_run(
        &self,
        table: &Table,
        out: &mut [u64],
        path: InstancePath,
        start: Progress,
    ) -> Progress
        requires { RunAsks self.now.catalog.words.now self.now.body.now out.old start (present_points self.now.catalog.words.now self.now.body.now start.offset start.frame) }
        ensures after_run { AfterRun start (present_points self.now.catalog.words.now self.now.body.now start.offset start.frame) result }
        ensures out_after { out.new ≡ written self.now.visit start.records (points_at self.now.body.now (instance_in table.now path.instances) start.offset (present_points self.now.catalog.words.now self.now.body.now start.offset start.frame)) out.old }
    {
        let mut at = start;
        for point in points_from(self.catalog.words, start.frame) {
            if self.body.len() <= at.offset {
                return at;
            }
            self.put_record(table, out, path, at, point);
            at = Progress {
                records: at.records + 1,
                offset: at.offset + usize::from(point.size),
                frame: at.frame + 1,
            };
        }
        at
    }

    // Writes sibling groups from `start` on, in a group that may hold `levels` further levels: for each instance its own
    // points first, then the groups in it. Each instance reads the frames of its group again.
    fn put_groups(
        &self,
        table: &mut Table,
        out: &mut [u64],
        levels: usize,
        path: InstancePath,
        start: Progress,
    ) -> Progress
        requires { GroupsAsk self.now.catalog.words.now self.now.body.now table.old out.old self.now.survey.fill levels start }
        ensures after_groups { AfterGroups (content_from self.now.catalog.words.now start.frame).groups (count_of (scope_in table.old) self.now.survey.fill) start result }
        ensures out_after { out.new ≡ written self.now.visit start.records (groups_at self.now.body.now (count_of (scope_in table.old) self.now.survey.fill) (level_of levels) (instance_in table.old path.instances) start.offset (content_from self.now.catalog.words.now start.frame).groups) out.old }
        ensures agree_except { AgreeExcept (Soundness.numbers_of (group_frames (content_from self.now.catalog.words.now start.frame).groups)) table.old table.new }
    {
        let mut at = start;
        while let Some(head) = group_at(self.catalog.words, at.frame) {
            let frame = at.frame;
            for j in 0..count_of(table, head, self.survey.fill) {
                let within = path.with_number(LOWER_LEVELS - levels, j as u16);
                let own = self.put_own(table, out, within, Progress { frame, ..at });
                at = self.put_groups(table, out, levels - 1, within, own);
            }
            at = Progress {
                frame: after_group(self.catalog.words, frame),
                ..at
            };
        }
        at
    }

    // Records the own points of an instance, which begin after the group frame, in the table, and then writes them.
    fn put_own(
        &self,
        table: &mut Table,
        out: &mut [u64],
        path: InstancePath,
        at: Progress,
    ) -> Progress
        requires { RunAsks self.now.catalog.words.now self.now.body.now out.old (record { records = at.records; offset = at.offset; frame = at.frame + 1 }) (content_from self.now.catalog.words.now (at.frame + 1)).points }
        ensures after_run { AfterRun (record { records = at.records; offset = at.offset; frame = at.frame + 1 }) (content_from self.now.catalog.words.now (at.frame + 1)).points result }
        ensures out_after { out.new ≡ written self.now.visit at.records (points_at self.now.body.now (record { scope = within self.now.body.now at.offset (content_from self.now.catalog.words.now (at.frame + 1)).points (scope_in table.old); path = path.instances }) at.offset (content_from self.now.catalog.words.now (at.frame + 1)).points) out.old }
        ensures table_after { table.new ≡ table_with self.now.body.now at.offset (content_from self.now.catalog.words.now (at.frame + 1)).points table.old }
    {
        let first = Progress {
            frame: at.frame + 1,
            ..at
        };
        record_run(
            self.catalog.words,
            first.frame,
            self.body,
            first.offset,
            table,
        );
        self.put_run(table, out, path, first)
    }

    // Writes the record of a point.
    fn put_record(
        &self,
        table: &Table,
        out: &mut [u64],
        path: InstancePath,
        at: Progress,
        point: Point,
    )
        requires point_fits { PointFits self.now.body.now at.offset (to_spec_point point) }
        requires records_in_bounds { record_width * (at.records + 1) ≤ length out.old }
        ensures { out.new ≡ written self.now.visit at.records (point_at self.now.body.now (instance_in table.now path.instances) at.offset (to_spec_point point) ∷ []) out.old }
    {
        let registers = part(self.body, at.offset, point.size as usize);
        let shown = show(point, registers, table[point.scale as usize]);
        let [level2, level3, level4] = path.instances;
        let numbers = [
            self.visit.index as u64,
            self.visit.id as u64,
            point.number as u64,
            level2 as u64,
            level3 as u64,
            level4 as u64,
            body_address(self.visit.address as u32, at.offset as u32) as u64,
            shown.status.number(),
            shown.raw,
            shown.scale,
        ];
        put(out, WIDTH * at.records, &numbers);
    }
}

// Writes `numbers` into consecutive entries of `out`, from entry `at` on.
fn put(out: &mut [u64], at: usize, numbers: &[u64])
    requires { at + length numbers.now ≤ length out.old }
    ensures { out.new ≡ sets out.old at numbers.now }
{
    out[at..at + numbers.len()].copy_from_slice(numbers);
}
