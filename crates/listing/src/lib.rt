// Lists the points of a register map by a catalog of model definitions (refusals 1 to 11 and 20 to 30), and finds
// one of them.
#![tactic(auto)]

mod checked;
mod extents;
mod frames;
mod locating;
mod models;
mod records;
mod search;
mod surveys;

ghost use Rattle.std.specs.Prelude.{MatchResult, Some, ◌≡◌, ◌+◌, ◌*◌, ◌≤◌, length};
ghost use Rattle.std.proofs.Math.ListN as Lists;
ghost use Rattle.refusals.specs.Refusals.{number};
ghost use Rattle.model_definitions.specs.Definitions.{definitions};
ghost use Rattle.layout.specs.Reading.{reading};
ghost use Rattle.layout.specs.InternalWalks.{points_of, read_in};
ghost use Rattle.listing.specs.Listing as Listings;
ghost use Rattle.listing.specs.CodeTypes.{to_spec_listing, HeadersCounted, WithoutHeaders, BeforeHeaders, AtStart, printed_with_headers};
ghost use Rattle.listing.specs.Calls.{ListCall};
ghost use Rattle.listing.specs.InternalContracts.{written, visit_of, WalkFits};

use catalog::check;
use checked::{CheckedCatalog, CheckedPlant};
pub use group_instances::InstancePath;
use group_instances::NUMBERS;
use models::{ModelAt, Models, model_at};
pub use records::WIDTH;
use records::{Model, Visit};
use refusals::{Refusal, Refused};
use register_map::{FIRST_HEADER, Header, body_address, header_at, opened};
pub use search::{Target, find};
use std::error::Error;
use std::fmt;
use surveys::survey_model;

// The points in scope: the first register of each, by the point's number.
pub(crate) type Table = [u16; NUMBERS];

// What `list` returns of a map that it lists: the count of points and the number of headers.
#[derive(Clone, Copy, Debug, PartialEq, Eq)]
pub struct Listed {
    pub points: usize,
    pub headers: usize,
}

// What `list` returns otherwise: the refusal, its place, and the number of headers before the refused one, with 30 all of them.
#[derive(Clone, Copy, Debug, PartialEq, Eq)]
pub struct NotListed {
    pub refusal: Refusal,
    pub place: usize,
    pub headers: usize,
}

// As in `5 at 3 headers 0`.
impl fmt::Display for NotListed {
    ghost output = { λ not_listed. Some (printed_with_headers not_listed) };

    fn fmt<W: fmt::Write>(&self, f: &mut fmt::Formatter<W>) -> fmt::Result {
        let refused = Refused::from(*self);
        write!(f, "{refused} headers {}", self.headers)
    }
}

impl Error for NotListed {}

// The refusal and its place.
impl From<NotListed> for Refused {
    ghost from_gives = { WithoutHeaders };

    fn from(not_listed: NotListed) -> Refused {
        Refused {
            refusal: not_listed.refusal,
            place: not_listed.place,
        }
    }
}

// A refusal of the catalog is before the first header.
impl From<Refused> for NotListed {
    ghost from_gives = { BeforeHeaders };

    fn from(refused: Refused) -> NotListed {
        NotListed {
            refusal: refused.refusal,
            place: refused.place,
            headers: 0,
        }
    }
}

// So is a refusal of the map as a whole; its place is 0.
impl From<Refusal> for NotListed {
    ghost from_gives = { AtStart };

    fn from(refusal: Refusal) -> NotListed {
        NotListed::from(Refused::from(refusal))
    }
}

// Lists the points of a map into `out`, ten numbers a record. All refusals and the count of points are decided
// before anything is written. The last `ensures` is the first two as one fact, which the claims on two calls assume.
// Apart from checking the catalog, the time is at most proportional to the map's registers times the catalog's
// frames: each model searches the catalog for its id, each instance reads the frames of its group again, and no
// point needs a search.
pub fn list(catalog: &[u16], map: &[u16], out: &mut [u64]) -> Result<Listed, NotListed>
    ensures result_value { to_spec_listing result ≡ Listings.result (Listings.listing catalog.now map.now (length out.old)) }
    ensures out_after { out.new ≡ Listings.stored (Listings.listing catalog.now map.now (length out.old)) out.old }
    ensures headers_counted { HeadersCounted map.now result }
    ensures list_call { ListCall catalog.now map.now out.old result out.new }
{
    let plant = checked_plant(catalog, map)?;
    let mut table = [0; NUMBERS];
    let listed = survey_map(&plant, &mut table)?;
    if out.len() / WIDTH < listed.points {
        return refused(Refusal::ShortList, listed.points, listed.headers);
    }
    put_map(&plant, &mut table, out);
    Ok(listed)
}

// The plant, if none of 1 to 11, 20 and 21 arises.
fn checked_plant<'a>(catalog: &'a [u16], map: &'a [u16]) -> Result<CheckedPlant<'a>, NotListed>
    ensures { MatchResult result (λ plant. (plant.catalog.words.now ≡ catalog.now) × (plant.map.now ≡ map.now)) (λ refused. to_spec_listing (Err refused) ≡ Listings.result (Listings.all_records catalog.now map.now)) }
{
    check(catalog)?;
    opened(map)?;
    Ok(CheckedPlant {
        catalog: CheckedCatalog { words: catalog },
        map,
    })
}

// 22 to 29 at the headers, or the count of points of all known models and the number of headers.
fn survey_map(plant: &CheckedPlant, table: &mut Table) -> Result<Listed, NotListed>
    ensures { to_spec_listing result ≡ Listings.result (Listings.walked (reading (definitions plant.now.catalog.words.now)) plant.now.map.now) }
{
    let mut at = FIRST_HEADER;
    let mut headers = 0;
    let mut points = 0;
    // No `for` over `Models`, since the header after the last model decides too: the end marker or a refusal.
    loop {
        match header_at(plant.map, at) {
            Ok(Header::Model { id, length }) => {
                let model = model_at(plant.map, at, id, length);
                match survey_model(&plant.catalog, table, &model) {
                    Ok(survey) => points += survey.map_or(0, |survey| survey.points),
                    Err(refusal) => return refused(refusal, at, headers),
                }
                at = after_model(at, length);
                headers += 1;
            }
            Ok(Header::End) => {
                return Ok(Listed {
                    points,
                    headers: headers + 1,
                });
            }
            Err(refusal) => return refused(refusal, at, headers),
        }
    }
}

// The address of the header after a model.
fn after_model(at: usize, length: u16) -> usize
    requires { at ≤ 65538 }
    ensures { result ≡ at + (2 + length) }
{
    body_address(at as u32, u32::from(length))
}

// The refusal with its place and its number of headers.
fn refused(refusal: Refusal, place: usize, headers: usize) -> Result<Listed, NotListed>
    ensures { to_spec_listing result ≡ Listings.refused_result (number refusal) place headers 0 }
{
    Err(NotListed {
        refusal,
        place,
        headers,
    })
}

// Writes the records of the known models of a map that was surveyed.
fn put_map(plant: &CheckedPlant, table: &mut Table, out: &mut [u64])
    requires { WalkFits (Listings.walked (reading (definitions plant.now.catalog.words.now)) plant.now.map.now) out.old }
    ensures { out.new ≡ Listings.stored (Listings.walked (reading (definitions plant.now.catalog.words.now)) plant.now.map.now) out.old }
{
    let mut records = 0;
    for (index, model) in Models::new(plant).enumerate() {
        records = put_known(&plant.catalog, table, out, index, &model, records);
    }
}

// Writes the records of a model if the catalog knows it; its index is `index`. Returns the number of records written so far.
fn put_known(
    catalog: &CheckedCatalog,
    table: &mut Table,
    out: &mut [u64],
    index: usize,
    model: &ModelAt,
    records: usize,
) -> usize
    requires { Listings.record_width * (records + Lists.length (points_of (read_in catalog.now.words.now model.now.id model.now.body.now))) ≤ Lists.length out.old }
    ensures value { result ≡ records + Lists.length (points_of (read_in catalog.now.words.now model.now.id model.now.body.now)) }
    ensures out_after { out.new ≡ written (visit_of index model.now) records (points_of (read_in catalog.now.words.now model.now.id model.now.body.now)) out.old }
{
    let Ok(Some(survey)) = survey_model(catalog, table, model) else {
        return records;
    };
    let visit = Visit {
        index,
        id: model.id,
        address: model.address,
    };
    let model = Model {
        catalog: *catalog,
        visit,
        body: model.body,
        survey,
    };
    model.put_points(table, out, records)
}
