// What the check records of the frames so far, and what it says of the next one. `frame_rules` has the tests for each
// kind of frame.
ghost use Rattle.std.specs.Prelude.{◌≡◌, ◌-◌, ◌<◌, ◌≤◌};
ghost use Rattle.lists.specs.Tests.{first_broken};
ghost use Rattle.catalog_frames.specs.Frames.{frame_at, word};
ghost use Rattle.frame_rules.specs.CodeTypes.{to_spec_fault};
ghost use Rattle.catalog.specs.InternalTracking.{DepthAllows, IdFits, Within, code_rules};
ghost use Rattle.catalog.specs.InternalMarks.{AfterModelFrame, BlankAtModel, NoneTaken, Recorded, Taken};

use crate::frame_at::FrameAt;
use crate::scans::{first_uncounted, mark_number, mark_scales, take_numbers_out};
use crate::state::State;
use catalog_frames::{Frame, MODEL, POINT, read_frame};
use frame_rules::{end_fault, group_fault, model_fault, point_fault};
use number_sets::NumberSet;
use refusals::Refusal;

// What is recorded of the frames so far: `ids` are the model ids, `numbers` the numbers used in the open model, `scales`
// the scale factors in scope, `uncounted` is the first group frame of the model that names a count point that is not in
// the top group, if there is one.
#[derive(Drop)]
pub(crate) struct Tracking {
    pub(crate) state: State,
    ids: NumberSet,
    numbers: NumberSet,
    scales: NumberSet,
    uncounted: Option<usize>,
}

impl Tracking {
    // Before the first frame.
    pub(crate) fn new() -> Tracking
        ensures { NoneTaken result }
    {
        Tracking {
            state: State::at_start(),
            ids: NumberSet::new(),
            numbers: NumberSet::new(),
            scales: NumberSet::new(),
            uncounted: None,
        }
    }

    // Checks the frame: the error is the first rule that it breaks. The frames before it are recorded.
    pub(crate) fn judge(&self, frame: FrameAt) -> Result<(), Refusal>
        requires { Recorded frame.catalog.now frame.index self.now }
        ensures result_value { to_spec_fault result ≡ first_broken (code_rules frame.entry.catalog.now self.now.ids frame.entry.index self.now.state (frame_at frame.entry.catalog.now frame.entry.index)) }
        ensures id_fits { IdFits (frame_at frame.entry.catalog.now frame.entry.index) }
    {
        let state = self.state;
        match read_frame(frame.catalog, frame.index).ok_or(Refusal::MalformedFrame)? {
            Frame::Model(id) => model_fault(&self.ids, state.depth, id),
            Frame::Group(head) => {
                let counted = self.uncounted != Some(frame.index);
                group_fault(&self.numbers, state.depth, state.has_fill, head, counted)
            }
            Frame::Point(point) => {
                point_fault(
                    &self.numbers,
                    &self.scales,
                    state.depth,
                    state.has_group,
                    point,
                )
            }
            Frame::End => {
                let first = FrameAt {
                    catalog: frame.catalog,
                    index: state.innermost(),
                };
                end_fault(state.depth, state.has_group, first.kind() != POINT)
            }
        }
    }

    // Records the frame, which breaks no rule.
    pub(crate) fn take_in(&mut self, frame: FrameAt)
        requires small { frame.index < 4096 }
        requires within { Within frame.index self.old.state }
        requires blank_at_model { BlankAtModel frame.catalog.now frame.index self.old.scales }
        requires depth_allows { DepthAllows (word frame.catalog.now frame.index 0) self.old.state }
        ensures { Taken frame.entry.catalog.now frame.entry.index self.old self.new }
    {
        let inner = self.state.innermost();
        self.begin_model(frame, inner);
        mark_number(frame, &mut self.numbers, true);
        mark_scales(frame, &mut self.scales, inner);
        self.state = self.state.after(frame);
    }

    // If the frame is a model frame: records its id, removes the numbers of the previous model, whose top group begins
    // at frame `first`, and finds the first uncounted group of the new model. Any other frame changes nothing.
    fn begin_model(&mut self, frame: FrameAt, first: usize)
        requires before { first ≤ frame.index }
        requires blank_at_model { BlankAtModel frame.catalog.now frame.index self.old.scales }
        ensures begun { AfterModelFrame frame.entry.catalog.now frame.entry.index first self.old.uncounted self.new.uncounted self.old.ids self.new.ids self.old.numbers self.new.numbers self.old.scales self.new.scales }
        ensures state { self.new.state ≡ self.old.state }
    {
        if frame.kind() == MODEL {
            self.ids.mark(frame.number(), true);
            take_numbers_out(frame.catalog, &mut self.numbers, first, frame.index);
            self.uncounted = first_uncounted(frame.catalog, &mut self.scales, frame.index + 1);
        }
    }
}
