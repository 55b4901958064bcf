// Rules 4 to 10 for a single frame, given facts about the frames around it. For each kind of frame a function's error is
// the first rule that the frame breaks. `depth` is the number of open groups.
#![tactic(auto)]

ghost use Rattle.std.specs.Prelude.{◌≡◌, ◌||◌, eqb};
ghost use Rattle.lists.specs.Tests.{first_broken, one_holds};
ghost use Rattle.number_sets.specs.NumberSets.{in_set};
ghost use Rattle.catalog_frames.specs.Frames.{point_frame};
ghost use Rattle.catalog_frames.specs.CodeTypes.{to_spec_head, to_spec_point};
ghost use Rattle.frame_rules.specs.FrameTests.{is_size_of, has_bad_type, count_tests, end_tests, group_tests, model_tests, point_tests, scale_tests};
ghost use Rattle.frame_rules.specs.CodeTypes.{to_spec_fault};

use catalog_frames::{
    CONSTANT_COUNT, COUNT_BY_POINT, FILL, FIXED_SCALE, Head, NO_SCALE, Point, SCALE_BY_POINT,
};
use number_sets::NumberSet;
use point_types::{register_count, scalable};
use refusals::Refusal;
use values::scale_factor_in_range;

// The largest number of levels. The top group is level 1.
pub const LEVELS: usize = 4;

// The first rule that a model frame breaks. `ids` is the set of the model ids so far.
pub fn model_fault(ids: &NumberSet, depth: usize, id: u16) -> Result<(), Refusal>
    ensures { to_spec_fault result ≡ first_broken (model_tests depth (in_set ids.now id) id) }
{
    if depth != 0 {
        Err(Refusal::FrameOutOfPlace)
    } else if id == 0 || id == 65535 || ids.contains(id) {
        Err(Refusal::BadNumber)
    } else {
        Ok(())
    }
}

// The first rule that a group frame breaks. `numbers` is the set of the numbers used in the model. `counted` says
// whether the point that gives the count is in the top group; it matters only if a point gives the count.
pub fn group_fault(
    numbers: &NumberSet,
    depth: usize,
    has_fill: bool,
    head: Head,
    counted: bool,
) -> Result<(), Refusal>
    ensures { to_spec_fault result ≡ first_broken (group_tests depth has_fill (in_set numbers.now head.number) (one_holds (count_tests counted (eqb depth 1) (to_spec_head head))) (to_spec_head head)) }
{
    if depth == 0 || depth == 1 && has_fill {
        Err(Refusal::FrameOutOfPlace)
    } else if LEVELS <= depth {
        Err(Refusal::TooManyLevels)
    } else if has_bad_number(numbers, head.number) {
        Err(Refusal::BadNumber)
    } else if 1 < head.group_type {
        Err(Refusal::BadType)
    } else if has_bad_count(depth, head, counted) {
        Err(Refusal::BadCount)
    } else {
        Ok(())
    }
}

// The first rule that a point frame breaks. `scales` is the set of the scale factors in scope.
pub fn point_fault(
    numbers: &NumberSet,
    scales: &NumberSet,
    depth: usize,
    has_group: bool,
    point: Point,
) -> Result<(), Refusal>
    ensures { to_spec_fault result ≡ first_broken (point_tests depth has_group (in_set numbers.now point.number) (one_holds (scale_tests (in_set scales.now point.scale) (to_spec_point point))) (to_spec_point point)) }
{
    if depth == 0 || has_group {
        Err(Refusal::FrameOutOfPlace)
    } else if has_bad_number(numbers, point.number) {
        Err(Refusal::BadNumber)
    } else if has_bad_type(point) {
        Err(Refusal::BadType)
    } else if has_bad_scale(scales, point) {
        Err(Refusal::BadScale)
    } else {
        Ok(())
    }
}

// The first rule that an end frame breaks. `empty` says whether the group that ends has no point of its own. Points
// come first in a group, so the caller sees that from its first frame.
pub fn end_fault(depth: usize, has_group: bool, empty: bool) -> Result<(), Refusal>
    ensures { to_spec_fault result ≡ first_broken (end_tests depth has_group empty) }
{
    if depth == 0 {
        Err(Refusal::FrameOutOfPlace)
    } else if empty && !(depth == 1 && has_group) {
        Err(Refusal::EmptyGroup)
    } else {
        Ok(())
    }
}

// Is the number of a point or group 0, or already used in this model?
fn has_bad_number(numbers: &NumberSet, number: u16) -> bool
    ensures { result ≡ eqb number 0 || in_set numbers.now number }
{
    number == 0 || numbers.contains(number)
}

// Is the type unknown, the size wrong, or mandatory or access not 0 or 1?
fn has_bad_type(point: Point) -> bool
    ensures { result ≡ has_bad_type (point_frame (to_spec_point point)) }
{
    !is_size_of(point.type_code, point.size) || 1 < point.mandatory || 1 < point.access
}

// Is `size` a size that the type may have?
#[tactic(auto, unfolding(crate::specs::FrameTests::is_size_of))]
fn is_size_of(type_code: u16, size: u16) -> bool
    ensures { result ≡ is_size_of type_code size }
{
    register_count(type_code).is_some_and(|count| (count.fewest..=count.most).contains(&size))
}

// Does a point break rule 8? A point that gives the scale factor must be in `scales`.
fn has_bad_scale(scales: &NumberSet, point: Point) -> bool
    ensures { result ≡ one_holds (scale_tests (in_set scales.now point.scale) (to_spec_point point)) }
{
    match point.scale_kind {
        NO_SCALE => point.scale != 0,
        FIXED_SCALE => !scalable(point.type_code) || !scale_factor_in_range(point.scale),
        SCALE_BY_POINT => !scalable(point.type_code) || !scales.contains(point.scale),
        _ => true,
    }
}

// Does a group break rule 9? `counted` says whether the point that gives the count is in the top group.
fn has_bad_count(depth: usize, head: Head, counted: bool) -> bool
    ensures { result ≡ one_holds (count_tests counted (eqb depth 1) (to_spec_head head)) }
{
    match head.count_kind {
        CONSTANT_COUNT => head.count == 0,
        COUNT_BY_POINT => !counted,
        FILL => depth != 1 || head.count != 0,
        _ => true,
    }
}
