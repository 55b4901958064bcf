// The run of points from a frame on: its registers, its number of points, and whether it ends with a pad.
ghost use Rattle.std.specs.Prelude.{◌≡◌, take};
ghost use Rattle.catalog_frames.specs.Frames.{frame_in};
ghost use Rattle.catalog.specs.Rules.{run};
ghost use Rattle.layout.specs.FrameWalk.{head_of, onward};
ghost use Rattle.definition_frames.specs.CodeTypes.{lacks_pad, to_spec_run, run_of};

use crate::frames::group_at;
use crate::points::points_from;
use catalog::{FRAMES, PAD};

// A run of points: its registers, its number of points, the frame after it, and whether its last point is a pad.
#[derive(Clone, Copy, Debug, PartialEq, Eq)]
pub struct Run {
    pub size: usize,
    pub points: usize,
    pub next: usize,
    pub ends_with_pad: bool,
}

// The run of point frames from frame `first` on, or its first 4,096 frames if it is longer than any catalog.
pub fn run_extent(catalog: &[u16], first: usize) -> Run
    ensures { to_spec_run result ≡ run_of (take 4096 (run (onward catalog.now first))) first }
{
    let mut run = Run {
        size: 0,
        points: 0,
        next: first,
        ends_with_pad: false,
    };
    for point in points_from(catalog, first).take(FRAMES) {
        run = Run {
            size: run.size + usize::from(point.size),
            points: run.points + 1,
            next: run.next + 1,
            ends_with_pad: point.type_code == PAD,
        };
    }
    run
}

// Is the last pad of a model left out? `run` is its top points. Only in model 1 without groups, where `length` is one
// short of the registers of these points.
pub fn is_pad_left_out(catalog: &[u16], id: u16, run: Run, length: usize) -> bool
    ensures { result ≡ lacks_pad id (to_spec_run run) (head_of (frame_in catalog.now run.next)) length }
{
    id == 1
        && run.ends_with_pad
        && run.size.checked_sub(length) == Some(1)
        && group_at(catalog, run.next).is_none()
}
