// What the check knows between two frames.
ghost use Rattle.std.specs.Prelude.{◌≡◌, ◌||◌, ◌-◌, ◌<◌, ◌≤◌, get_or};
ghost use Rattle.catalog_frames.specs.Frames.{word};
ghost use Rattle.catalog.specs.InternalTracking.{DepthAllows, code_start, with_opened, with_ended, state_of};

use crate::frame_at::FrameAt;
use catalog_frames::{END, FILL, GROUP, MODEL};
use frame_rules::LEVELS;

// `models` is the number of models so far, an open one included; `depth` the number of open groups; `firsts` the first
// frame inside each open group, the top group's first. `has_group` says whether a group is directly in the innermost
// open group, `has_fill` whether a fill group is in the top group.
// `firsts` is an array beside its count `depth`, and no slice: fixed memory, the rules read the depth, and at depth 0
// `innermost` still reads the last top group's first frame.
#[derive(Clone, Copy)]
pub(crate) struct State {
    pub(crate) models: usize,
    pub(crate) depth: usize,
    pub(crate) firsts: [usize; LEVELS],
    pub(crate) has_group: bool,
    pub(crate) has_fill: bool,
}

impl State {
    // The state before the first frame.
    pub(crate) fn at_start() -> State
        ensures { result ≡ code_start }
    {
        State {
            models: 0,
            depth: 0,
            firsts: [0; LEVELS],
            has_group: false,
            has_fill: false,
        }
    }

    // The first frame inside the innermost open group. If none is open, the first frame inside the last top group.
    pub(crate) fn innermost(self) -> usize
        requires { self.depth ≤ 4 }
        ensures { result ≡ get_or self.firsts (self.depth - 1) 0 }
    {
        self.firsts[self.depth.saturating_sub(1)]
    }

    // The state after the frame, which breaks no rule.
    pub(crate) fn after(self, frame: FrameAt) -> State
        requires small { (frame.index < 4096) × (self.models ≤ frame.index) }
        requires depth_allows { DepthAllows (word frame.catalog.now frame.index 0) self }
        ensures { result ≡ state_of (word frame.entry.catalog.now frame.entry.index 0) (word frame.entry.catalog.now frame.entry.index 3) frame.entry.index self }
    {
        let i = frame.index;
        match frame.kind() {
            MODEL => self.opened(i, self.models + 1, false),
            GROUP => {
                let has_fill = self.has_fill || frame.count_kind() == FILL;
                self.opened(i, self.models, has_fill)
            }
            END => self.ended(),
            _ => self,
        }
    }

    // The state after frame i opens a group: a group in the innermost open one, or the top group of a model.
    fn opened(self, i: usize, models: usize, has_fill: bool) -> State
        requires { (i < 4096) × (self.depth < 4) }
        ensures { result ≡ with_opened self i models has_fill }
    {
        let mut firsts = self.firsts;
        firsts[self.depth] = i + 1;
        State {
            models,
            depth: self.depth + 1,
            firsts,
            has_group: false,
            has_fill,
        }
    }

    // The state after the innermost open group ends. The group around it now has a group.
    fn ended(self) -> State
        requires { 1 ≤ self.depth }
        ensures { result ≡ with_ended self }
    {
        State {
            depth: self.depth - 1,
            has_group: true,
            ..self
        }
    }
}
