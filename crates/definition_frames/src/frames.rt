// Reading the frames of a definition: the point or group of a frame, and the frame after a group.
ghost use Rattle.std.specs.Prelude.{◌≡◌, ◌+◌, ◌/◌, ◌≤◌, length};
ghost use Rattle.catalog_frames.specs.Frames.{frame_in};
ghost use Rattle.layout.specs.FrameWalk.{point_of, head_of, open_after, onward, frames_of_group};
ghost use Rattle.definition_frames.specs.CodeTypes.{to_spec_point_or, to_spec_group_or};

use catalog::{Frame, Head, Point, read_frame};
use catalog_frames::FRAME_WORDS;

// The point of frame i, if it is a point frame.
pub fn point_at(catalog: &[u16], i: usize) -> Option<Point>
    ensures { to_spec_point_or result ≡ point_of (frame_in catalog.now i) }
{
    match read_frame(catalog, i)? {
        Frame::Point(point) => Some(point),
        _ => None,
    }
}

// The head of frame i, if it is a group frame.
pub fn group_at(catalog: &[u16], i: usize) -> Option<Head>
    ensures { to_spec_group_or result ≡ head_of (frame_in catalog.now i) }
{
    match read_frame(catalog, i)? {
        Frame::Group(head) => Some(head),
        _ => None,
    }
}

// The index of the frame after the group whose group frame is frame i. Where the frames end first, the number of
// frames; where there is no frame i, i itself.
#[tactic(auto, using(crate::proofs::GroupSteps::group_steps))]
pub fn after_group(catalog: &[u16], i: usize) -> usize
    ensures { result ≡ i + frames_of_group (onward catalog.now i) }
{
    let frames = catalog.len() / FRAME_WORDS;
    if frames <= i {
        return i;
    }
    let mut depth = 1;
    for at in i + 1..frames {
        if depth == 0 {
            return at;
        }
        depth = depth_after(catalog, at, depth);
    }
    frames
}

// The number of groups that are open after the frame `at`, where `depth` are open before it.
fn depth_after(catalog: &[u16], at: usize, depth: usize) -> usize
    requires { (1 ≤ depth) × (depth ≤ length catalog.now / 8) }
    ensures { result ≡ open_after (frame_in catalog.now at) depth }
{
    match read_frame(catalog, at) {
        Some(Frame::Group(_)) => depth + 1,
        Some(Frame::End) => depth - 1,
        _ => depth,
    }
}
