// The points of an unbroken run of point frames, one by one.
ghost use Rattle.std.specs.Prelude.{◌≡◌};
ghost use Rattle.std.specs.Iterator.{YieldsFirstBy, item_count};
ghost use Rattle.catalog_frames.specs.CodeTypes.{to_spec_point};
ghost use Rattle.catalog.specs.Rules.{run};
ghost use Rattle.layout.specs.FrameWalk.{onward};
ghost use Rattle.definition_frames.specs.CodeTypes.{points_left};

use crate::frames::point_at;
use catalog::Point;

// The points of the run of point frames from frame `frame` on.
#[derive(Drop)]
pub struct Points<'a> {
    catalog: &'a [u16],
    frame: usize,
}

// The points of the run of point frames from frame `first` on.
pub fn points_from<'a>(catalog: &'a [u16], first: usize) -> Points<'a>
    ensures { points_left result ≡ run (onward catalog.now first) }
{
    Points {
        catalog,
        frame: first,
    }
}

impl Iterator for Points<'_> {
    type Item = Point;

    ghost next_gives = { YieldsFirstBy to_spec_point points_left };

    ghost remaining = { item_count points_left };

    #[tactic(auto, using(crate::proofs::RunSteps::run_steps))]
    fn next(&mut self) -> Option<Point> {
        let point = point_at(self.catalog, self.frame)?;
        self.frame += 1;
        Some(point)
    }
}
