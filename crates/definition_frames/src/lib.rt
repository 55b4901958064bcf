// The frames of a model's definition as a walk visits them: the point or group of a frame, the frame after a group,
// and the run of points from a frame on. Every public function accepts any arguments.
#![tactic(auto)]

mod frames;
mod points;
mod runs;

pub use frames::{after_group, group_at, point_at};
pub use points::{Points, points_from};
pub use runs::{Run, is_pad_left_out, run_extent};
