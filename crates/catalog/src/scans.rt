// Scans over the frames that record in a set what they find. A scan reads each frame at most once.
ghost use Rattle.std.specs.Prelude.{◌≡◌, false, ◌+◌, ◌-◌, ◌/◌, ◌<◌, ◌≤◌, length};
ghost use Rattle.lists.specs.Members.{among};
ghost use Rattle.number_sets.specs.NumberSets.{Marks, Blank};
ghost use Rattle.catalog_frames.specs.InternalWords.{point_words};
ghost use Rattle.catalog.specs.InternalScans.{has_number, is_of_kind, is_target, numbers_in};
ghost use Rattle.catalog.specs.InternalMarks.{Counted, ScalesAfter, in_run, is_uncounted, unchanged, uncounted_from};

use crate::frame_at::FrameAt;
use catalog_frames::{
    COUNT_BY_POINT, END, FRAME_WORDS, GROUP, MODEL, POINT, READ_ONLY, SUNSSF, UINT16,
};
use number_sets::NumberSet;

// The kind of point that a reference names. A predicate as a parameter would not be plainer: a contract would have to
// say, for each call, which points it holds for.
#[derive(Clone, Copy)]
pub(crate) enum Target {
    ScaleFactor,
    CountPoint,
}

// ---- The numbers used in a model

// If the frame is a group or point frame: puts its number into the set, or takes it out if not `present`.
pub(crate) fn mark_number(frame: FrameAt, numbers: &mut NumberSet, present: bool)
    ensures { Marks numbers.old numbers.new (λ n. has_number frame.entry.catalog.now n frame.entry.index) present }
{
    if matches!(frame.kind(), GROUP | POINT) {
        numbers.mark(frame.number(), present);
    }
}

// Takes the numbers of the groups and points of the frames from `first` up to, not including, `end` out of the set.
pub(crate) fn take_numbers_out(catalog: &[u16], numbers: &mut NumberSet, first: usize, end: usize)
    requires { (first ≤ end) × (end ≤ length catalog.now / 8) }
    ensures { Marks numbers.old numbers.new (λ n. among n (numbers_in catalog.now first (end - first))) false }
{
    for index in first..end {
        mark_number(FrameAt { catalog, index }, numbers, false);
    }
}

// ---- Points that a reference may name

// Is the frame's point of the kind that the reference names?
fn is_of_kind(frame: FrameAt, target: Target) -> bool
    ensures { result ≡ is_of_kind target (point_words frame.entry.catalog.now frame.entry.index) }
{
    match target {
        Target::ScaleFactor => frame.type_code() == SUNSSF,
        Target::CountPoint => frame.type_code() == UINT16 && frame.access() == READ_ONLY,
    }
}

// If the frame's point is of the kind `target`: puts its number into the set, or takes it out if not `present`.
fn mark_point(frame: FrameAt, set: &mut NumberSet, target: Target, present: bool)
    ensures { Marks set.old set.new (λ n. is_target target n (point_words frame.entry.catalog.now frame.entry.index)) present }
{
    if is_of_kind(frame, target) {
        set.mark(frame.number(), present);
    }
}

// Does the same for each point of the unbroken run of point frames from frame `from` on.
fn mark_run(catalog: &[u16], set: &mut NumberSet, from: usize, target: Target, present: bool)
    ensures { Marks set.old set.new (in_run catalog.now from target) present }
{
    for index in from..catalog.len() / FRAME_WORDS {
        let frame = FrameAt { catalog, index };
        if frame.kind() != POINT {
            return;
        }
        mark_point(frame, set, target, present);
    }
}

// The scale factors in scope after the frame. A model or group frame adds those of the run of points after it; an end
// frame removes those of the group that ends. `inner` is the first frame inside the innermost open group.
pub(crate) fn mark_scales(frame: FrameAt, scales: &mut NumberSet, inner: usize)
    ensures { ScalesAfter frame.entry.catalog.now frame.entry.index inner scales.old scales.new }
{
    let catalog = frame.catalog;
    match frame.kind() {
        POINT => {}
        END => mark_run(catalog, scales, inner, Target::ScaleFactor, false),
        _ => mark_run(catalog, scales, frame.index + 1, Target::ScaleFactor, true),
    }
}

// ---- Groups whose count a point gives

// Is the frame a group frame that names a count point that is not in the set `counts`?
fn is_uncounted(frame: FrameAt, counts: &NumberSet) -> bool
    ensures { result ≡ is_uncounted frame.entry.catalog.now counts.now frame.entry.index }
{
    frame.kind() == GROUP && frame.count_kind() == COUNT_BY_POINT && !counts.contains(frame.count())
}

// The first frame from frame `from` on where `is_uncounted` holds, if it is before the next model frame.
fn uncounted_from(catalog: &[u16], counts: &NumberSet, from: usize) -> Option<usize>
    requires { from ≤ length catalog.now / 8 }
    ensures { result ≡ uncounted_from catalog.now counts.now from (length catalog.now / 8 - from) }
{
    let frames = catalog.len() / FRAME_WORDS;
    (from..frames)
        .take_while(
            |&index|
                requires { index < length catalog.now / 8 }
            { FrameAt { catalog, index }.kind() != MODEL },
        )
        .find(
            |&index|
                requires { index < length catalog.now / 8 }
            { is_uncounted(FrameAt { catalog, index }, counts) },
        )
}

// The first group frame that names a count point that is not in the top group, in the model whose top group begins at
// frame `from`. The set is empty before the call and after it.
pub(crate) fn first_uncounted(catalog: &[u16], set: &mut NumberSet, from: usize) -> Option<usize>
    requires from_in_bounds { from ≤ length catalog.now / 8 }
    requires blank { Blank set.old }
    ensures counted { Counted catalog.now result from from }
    ensures unchanged { unchanged set.old set.new }
{
    mark_run(catalog, set, from, Target::CountPoint, true);
    let uncounted = uncounted_from(catalog, set, from);
    mark_run(catalog, set, from, Target::CountPoint, false);
    uncounted
}
