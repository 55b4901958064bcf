// The frames of a catalog: eight words each; word 0 is the kind. `read_frame` accepts any words.
#![tactic(auto)]

ghost use Rattle.std.specs.Prelude.{◌≡◌, get_or};
ghost use Rattle.catalog_frames.specs.Frames.{frame_in, frame_of};
ghost use Rattle.catalog_frames.specs.CodeTypes.{to_spec_frame};

// The number of words in a frame.
pub const FRAME_WORDS: usize = 8;

// The kinds of frames (word 0). These and the words below stay numbers and no enums: checking takes any words, also those
// that no kind has, and says which rule they break.
pub const MODEL: u16 = 1;

pub const GROUP: u16 = 2;

pub const POINT: u16 = 3;

pub const END: u16 = 4;

// The scale kinds of a point: none, fixed, a point's value.
pub const NO_SCALE: u16 = 0;

pub const FIXED_SCALE: u16 = 1;

pub const SCALE_BY_POINT: u16 = 2;

// The count kinds of a group: a constant, a point's value, fill (repeated to fill the model's length).
pub const CONSTANT_COUNT: u16 = 0;

pub const COUNT_BY_POINT: u16 = 1;

pub const FILL: u16 = 2;

// The type codes that checking and listing test for, and the access of a count point.
pub const PAD: u16 = 6;

pub const UINT16: u16 = 2;

pub const SUNSSF: u16 = 8;

pub const READ_ONLY: u16 = 0;

// The named words of a point frame. `scale` is the fixed scale factor or the number of the point that gives it.
#[derive(Clone, Copy, Debug, PartialEq, Eq)]
pub struct Point {
    pub number: u16,
    pub type_code: u16,
    pub size: u16,
    pub scale_kind: u16,
    pub scale: u16,
    pub mandatory: u16,
    pub access: u16,
}

// The named words of a group frame. `count` is the constant count or the number of the point that gives it.
#[derive(Clone, Copy, Debug, PartialEq, Eq)]
pub struct Head {
    pub number: u16,
    pub group_type: u16,
    pub count_kind: u16,
    pub count: u16,
}

// A frame by its kind.
#[derive(Clone, Copy, Debug, PartialEq, Eq)]
pub enum Frame {
    Model(u16),
    Group(Head),
    Point(Point),
    End,
}

// Frame i, or `None` if it is malformed or the catalog has no whole frame i. Inlined, so that a search that asks for one
// kind of frame reads no other word of the others.
#[inline(always)]
pub fn read_frame(catalog: &[u16], i: usize) -> Option<Frame>
    ensures { to_spec_frame result ≡ frame_in catalog.now i }
{
    let (frames, _) = catalog.as_chunks();
    frame_of(frames.get(i)?)
}

// The frame with these words, or `None` if it is malformed: its kind is not 1 to 4, or a word that its kind does not name is not 0.
#[inline(always)]
#[tactic(auto, unfolding(crate::specs::Frames::frame_of))]
fn frame_of(words: &[u16; FRAME_WORDS]) -> Option<Frame>
    ensures { to_spec_frame result ≡ frame_of (get_or words.now 0 0) (get_or words.now 1 0) (get_or words.now 2 0) (get_or words.now 3 0) (get_or words.now 4 0) (get_or words.now 5 0) (get_or words.now 6 0) (get_or words.now 7 0) }
{
    match *words {
        [MODEL, id, 0, 0, 0, 0, 0, 0] => Some(Frame::Model(id)),
        [GROUP, number, group_type, count_kind, count, 0, 0, 0] => Some(Frame::Group(Head {
            number,
            group_type,
            count_kind,
            count,
        })),
        [
            POINT,
            number,
            type_code,
            size,
            scale_kind,
            scale,
            mandatory,
            access,
        ] => {
            Some(Frame::Point(Point {
                number,
                type_code,
                size,
                scale_kind,
                scale,
                mandatory,
                access,
            }))
        }
        [END, 0, 0, 0, 0, 0, 0, 0] => Some(Frame::End),
        _ => None,
    }
}
