// Searches a catalog for the definition of a model.
ghost use Rattle.std.specs.Prelude.{◌≡◌};
ghost use Rattle.catalog_frames.specs.Frames.{frame_in};
ghost use Rattle.model_definitions.specs.Definitions.{definitions};
ghost use Rattle.layout.specs.Reading.{top_of};
ghost use Rattle.layout.specs.InternalWalks.{is_model_of};
ghost use Rattle.listing.specs.InternalCodeTypes.{to_spec_found};
ghost use Rattle.listing.specs.InternalContracts.{FoundParses};

use crate::checked::CheckedCatalog;
use catalog::{Frame, read_frame};
use catalog_frames::FRAME_WORDS;

// The frame where the definition of `id` begins, right after its model frame, if the catalog has it. Searches the frames in order.
pub(crate) fn find_model(catalog: &CheckedCatalog, id: u16) -> Option<usize>
    ensures result_value { to_spec_found catalog.now.words.now result ≡ top_of id (definitions catalog.now.words.now) }
    ensures found_parses { FoundParses catalog.now.words.now result }
{
    let frames = catalog.words.len() / FRAME_WORDS;
    (0..frames)
        .find(|i| is_model(catalog.words, *i, id))
        .map(|i| i + 1)
}

// Is frame i the model frame of `id`?
fn is_model(catalog: &[u16], i: usize, id: u16) -> bool
    ensures { result ≡ is_model_of id (frame_in catalog.now i) }
{
    read_frame(catalog, i) == Some(Frame::Model(id))
}
