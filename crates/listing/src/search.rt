// Finds one point of a register map by its model's index, its number and its instance path.
ghost use Rattle.std.specs.Prelude.{◌≡◌, ◌≤◌};
ghost use Rattle.lists.specs.Tests.{first_with};
ghost use Rattle.model_definitions.specs.Definitions.{definitions};
ghost use Rattle.catalog_frames.specs.CodeTypes.{to_spec_point};
ghost use Rattle.layout.specs.Paths.{is_point};
ghost use Rattle.layout.specs.Reading.{reading};
ghost use Rattle.layout.specs.InternalWalks.{points_of, read_in};
ghost use Rattle.listing.specs.Listing as Listings;
ghost use Rattle.listing.specs.Finding as Findings;
ghost use Rattle.listing.specs.CodeTypes.{to_spec_target, to_spec_finding};
ghost use Rattle.listing.specs.InternalContracts.{target_at, result_at, IsListed};

use crate::checked::{CheckedCatalog, CheckedPlant};
use crate::locating::{Key, Location, Search};
use crate::models::{ModelAt, Models};
use crate::surveys::survey_model;
use crate::{Table, checked_plant, survey_map};
use catalog::Point;
use group_instances::{InstancePath, NUMBERS};
use refusals::Refused;
use register_map::body_address;
use registers::{part, raw_value};

// A point: its address, its definition in the catalog, and its raw value (0 if it has over four registers).
#[derive(Clone, Copy, Debug, PartialEq, Eq)]
pub struct Target {
    pub address: usize,
    pub point: Point,
    pub raw: u64,
}

// Finds a point, if there is such a point. All refusals (1 to 29) are decided first, as for listing; then the point is
// located in its model.
pub fn find(
    catalog: &[u16],
    map: &[u16],
    model: usize,
    point: u16,
    path: InstancePath,
) -> Result<Option<Target>, Refused>
    ensures { to_spec_finding result ≡ Findings.result (Findings.finding catalog.now map.now model point path.instances) }
{
    let plant = checked_plant(catalog, map)?;
    let mut table = [0; NUMBERS];
    survey_map(&plant, &mut table)?;
    let key = Key {
        number: point,
        path,
    };
    Ok(search_map(&plant, &mut table, model, key))
}

// Looks for the point in model `model` of a map that was surveyed without a refusal.
fn search_map(plant: &CheckedPlant, table: &mut Table, model: usize, key: Key) -> Option<Target>
    requires { IsListed (Listings.walked (reading (definitions plant.now.catalog.words.now)) plant.now.map.now) }
    ensures { to_spec_finding (Ok result) ≡ Findings.result (Findings.finding_in model key.number key.path.instances (Listings.walked (reading (definitions plant.now.catalog.words.now)) plant.now.map.now)) }
{
    let found = Models::new(plant).nth(model)?;
    search_model(&plant.catalog, table, &found, key)
}

// Looks for the point in one model.
fn search_model(
    catalog: &CheckedCatalog,
    table: &mut Table,
    model: &ModelAt,
    key: Key,
) -> Option<Target>
    ensures { to_spec_finding (Ok result) ≡ result_at model.now.address (first_with (is_point key.number key.path.instances) (points_of (read_in catalog.now.words.now model.now.id model.now.body.now))) }
{
    let Ok(Some(survey)) = survey_model(catalog, table, model) else {
        return None;
    };
    let search = Search {
        catalog: *catalog,
        table,
        fill: survey.fill,
        key,
    };
    let location = search.locate_model(model.body.len(), survey.first)?;
    Some(target_at(model.address, model.body, location))
}

// The result for a point that was located in `body`, in the model whose header is at address `at`.
fn target_at(at: usize, body: &[u16], location: Location) -> Target
    requires { (at ≤ 65536) × (location.offset ≤ 65536) }
    ensures { to_spec_target result ≡ target_at at body.now (record { offset = location.offset; definition = to_spec_point location.point }) }
{
    let point = location.point;
    Target {
        address: body_address(at as u32, location.offset as u32),
        point,
        raw: raw_value(part(body, location.offset, point.size as usize)),
    }
}
