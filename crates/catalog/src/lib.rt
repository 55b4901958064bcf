// Checks a catalog of model definitions (refusals 1 to 11). `check` accepts any words and writes nothing.
#![tactic(auto)]

mod frame_at;
mod scans;
mod state;
mod tracking;

ghost use Rattle.std.specs.Prelude.{◌≡◌, ◌/◌, ◌≤◌, length};
ghost use Rattle.catalog.specs.Checking.{checked, frames_checked};
ghost use Rattle.catalog.specs.CodeTypes.{to_spec_checked};

use catalog_frames::FRAME_WORDS;
pub use catalog_frames::{
    CONSTANT_COUNT, COUNT_BY_POINT, FILL, FIXED_SCALE, Frame, Head, PAD, Point, READ_ONLY,
    SCALE_BY_POINT, SUNSSF, read_frame,
};
use frame_at::FrameAt;
use refusals::{Refusal, Refused};
use tracking::Tracking;

// The largest number of frames in a catalog.
pub const FRAMES: usize = 4096;

// Checks a catalog: 1 and 2 first, then frame by frame. Gives the number of models, or a refusal (1 to 11) and its
// place: the index of the frame, the number of frames for 11, and 0 for 1 and 2.
pub fn check(catalog: &[u16]) -> Result<usize, Refused>
    ensures { to_spec_checked result ≡ checked catalog.now }
{
    if catalog.len() % FRAME_WORDS != 0 {
        return Err(Refusal::PartOfFrame.into());
    }
    if FRAMES < catalog.len() / FRAME_WORDS {
        return Err(Refusal::TooManyFrames.into());
    }
    check_frames(catalog)
}

// Checks the frames in order: the first fault decides, and at the end no model may be open. The time is linear in the
// number of frames: each is read for its own rules, and a few more times with its model, its run of points, its group.
fn check_frames(catalog: &[u16]) -> Result<usize, Refused>
    requires { length catalog.now / 8 ≤ 4096 }
    ensures { to_spec_checked result ≡ frames_checked catalog.now }
{
    let frames = catalog.len() / FRAME_WORDS;
    let mut tracking = Tracking::new();
    for index in 0..frames {
        let frame = FrameAt { catalog, index };
        tracking.judge(frame).map_err(|refusal| Refused {
            refusal,
            place: index,
        })?;
        tracking.take_in(frame);
    }
    let state = tracking.state;
    if state.depth != 0 {
        return Err(Refused {
            refusal: Refusal::OpenModel,
            place: frames,
        });
    }
    Ok(state.models)
}
