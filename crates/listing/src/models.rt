// Walks over the models of a map, header by header.
ghost use Rattle.std.specs.Prelude.{◌≡◌, ◌+◌, ◌-◌, ◌≤◌, length, take, drop};
ghost use Rattle.listing.specs.InternalAccepted.{SixteenBits};

use crate::checked::CheckedPlant;
use register_map::{FIRST_HEADER, Header, body_address, header_at};
use registers::part;

// A model of a map: the address of its header, its id and its body.
#[derive(Clone, Copy)]
pub(crate) struct ModelAt<'a> {
    pub(crate) address: usize,
    pub(crate) id: u16,
    pub(crate) body: &'a [u16],
    pub(crate) ghost sixteen_bits: { SixteenBits body.now },
    pub(crate) ghost low: { address ≤ 65536 },
    pub(crate) ghost short: { length body.now ≤ 65535 },
}

// The models of a map from the header at address `at` on, up to the first header of no model.
#[derive(Clone, Copy)]
pub(crate) struct Models<'a> {
    map: &'a [u16],
    at: usize,
}

impl<'a> Models<'a> {
    ghost use Rattle.listing.specs.InternalModels.{CanWalk, StartsAt};

    // All models of a map.
    pub(crate) fn new(plant: &CheckedPlant<'a>) -> Models<'a>
        ensures can_walk { CanWalk result }
        ensures starts_at { StartsAt plant.now.map.now result }
    {
        Models {
            map: plant.map,
            at: FIRST_HEADER,
        }
    }
}

impl<'a> Iterator for Models<'a> {
    ghost use Rattle.std.specs.Iterator.{at_most};
    ghost use Rattle.listing.specs.InternalModels.{CanWalk, GivesModel};

    type Item = ModelAt<'a>;

    ghost can_next = { CanWalk };

    ghost next_gives = { GivesModel };

    ghost remaining = { λ s. at_most (length s.map.now - s.at) };

    fn next(&mut self) -> Option<ModelAt<'a>> {
        let address = self.at;
        let Ok(Header::Model { id, length }) = header_at(self.map, address) else {
            return None;
        };
        self.at = body_address(address as u32, u32::from(length));
        Some(model_at(self.map, address, id, length))
    }
}

// The model with the header at `address`, by its id and its length.
pub(crate) fn model_at(map: &[u16], address: usize, id: u16, count: u16) -> ModelAt
    requires { (address + 2 + count ≤ length map.now) × (length map.now ≤ 65536) }
    ensures address { result.address ≡ address }
    ensures id { result.id ≡ id }
    ensures body { result.body.now ≡ take count (drop (address + 2) map.now) }
{
    let body = part(map, address + 2, count as usize);
    ModelAt { address, id, body }
}
