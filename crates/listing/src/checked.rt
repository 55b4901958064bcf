// A plant that was checked: neither 1 to 11 nor 20 or 21 arises.
ghost use Rattle.std.specs.Prelude.{◌≡◌, ◌/◌, ◌≤◌, length};
ghost use Rattle.std.proofs.Math.Option.{none};
ghost use Rattle.register_map.specs.Headers.{opening};
ghost use Rattle.listing.specs.InternalAccepted.{IsAccepted, SixteenBits};

// A catalog that was accepted, so it has at most 4,096 frames: none of 1 to 11 arises.
#[derive(Clone, Copy)]
pub(crate) struct CheckedCatalog<'a> {
    pub(crate) words: &'a [u16],
    pub(crate) ghost accepted: { IsAccepted words.now },
    pub(crate) ghost few: { length words.now / 8 ≤ 4096 },
    pub(crate) ghost sixteen_bits: { SixteenBits words.now },
}

// A catalog that was accepted and a map that can be read.
#[derive(Clone, Copy)]
pub(crate) struct CheckedPlant<'a> {
    pub(crate) catalog: CheckedCatalog<'a>,
    pub(crate) map: &'a [u16],
    pub(crate) ghost opens: { opening map.now ≡ none },
}
