// The words of a frame, read one by one: the scans need a few of each. They stay numbers, since any words are accepted,
// and a `match` on the constants of catalog_frames needs no conversion that can fail.
ghost use Rattle.std.specs.Prelude.{◌≡◌, ◌/◌, ◌<◌, length};
ghost use Rattle.catalog_frames.specs.Frames.{word};

use catalog_frames::FRAME_WORDS;

// A whole frame of a catalog, by its index.
#[derive(Clone, Copy)]
pub(crate) struct FrameAt<'a> {
    pub(crate) catalog: &'a [u16],
    pub(crate) index: usize,
    ghost whole: { index < length catalog.now / 8 },
}

impl FrameAt<'_> {
    // The kind of the frame.
    pub(crate) fn kind(self) -> u16
        ensures { result ≡ word self.entry.catalog.now self.entry.index 0 }
    {
        self.word(0)
    }

    // The number of a point or group, or the id of a model.
    pub(crate) fn number(self) -> u16
        ensures { result ≡ word self.entry.catalog.now self.entry.index 1 }
    {
        self.word(1)
    }

    // The type code of a point.
    pub(crate) fn type_code(self) -> u16
        ensures { result ≡ word self.entry.catalog.now self.entry.index 2 }
    {
        self.word(2)
    }

    // The access of a point.
    pub(crate) fn access(self) -> u16
        ensures { result ≡ word self.entry.catalog.now self.entry.index 7 }
    {
        self.word(7)
    }

    // The count kind of a group.
    pub(crate) fn count_kind(self) -> u16
        ensures { result ≡ word self.entry.catalog.now self.entry.index 3 }
    {
        self.word(3)
    }

    // The constant count of a group, or the number of the point that gives it.
    pub(crate) fn count(self) -> u16
        ensures { result ≡ word self.entry.catalog.now self.entry.index 4 }
    {
        self.word(4)
    }

    // Word k.
    fn word(self, k: usize) -> u16
        requires { k < 8 }
        ensures { result ≡ word self.entry.catalog.now self.entry.index k }
    {
        self.catalog[FRAME_WORDS * self.index + k]
    }
}
