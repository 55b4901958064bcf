// Surveys one model by a catalog before anything is written: 27 to 29, or the number of its points.
ghost use Rattle.std.specs.Prelude.{◌≡◌, ◌+◌, ◌≤◌, length};
ghost use Rattle.std.proofs.Math.Option.{some};
ghost use Rattle.model_definitions.specs.Definitions.{definitions};
ghost use Rattle.layout.specs.Reading.{read_by, top_of};
ghost use Rattle.layout.specs.InternalWalks.{content_from, ParsesAt, surveyed, read_in};
ghost use Rattle.listing.specs.InternalCodeTypes.{to_spec_survey, to_spec_known};
ghost use Rattle.listing.specs.InternalContracts.{ReadyBy, KnownReadyBy, fitted_by, points_or0};

use crate::Table;
use crate::checked::CheckedCatalog;
use crate::extents::{Extent, groups_extent};
use crate::frames::find_model;
use crate::models::ModelAt;
use definition_frames::{Run, is_pad_left_out, run_extent};
use group_instances::{LOWER_LEVELS, fill_count, record_run};
use refusals::Refusal;

// What a survey says of a model: the frame where its definition begins, the number of its points and the count of its fill group.
#[derive(Clone, Copy)]
pub(crate) struct Survey {
    pub(crate) first: usize,
    pub(crate) points: usize,
    pub(crate) fill: usize,
}

// Surveys a model, if the catalog has its id; refuses it by 27 to 29. After a survey the table holds the points of its top group.
pub(crate) fn survey_model(
    catalog: &CheckedCatalog,
    table: &mut Table,
    model: &ModelAt,
) -> Result<Option<Survey>, Refusal>
    ensures result_value { to_spec_survey result ≡ surveyed (read_in catalog.now.words.now model.now.id model.now.body.now) }
    ensures ready_by { ReadyBy catalog.now.words.now model.now.id model.now.body.now table.new result }
{
    let Some(first) = find_model(catalog, model.id) else {
        return Ok(None);
    };
    survey_known(catalog, table, model, first).map(Some)
}

// Surveys a model by the definition that begins at frame `first`.
fn survey_known(
    catalog: &CheckedCatalog,
    table: &mut Table,
    model: &ModelAt,
    first: usize,
) -> Result<Survey, Refusal>
    requires { ParsesAt catalog.now.words.now first × (top_of model.now.id (definitions catalog.now.words.now) ≡ some (content_from catalog.now.words.now first)) }
    ensures result_value { to_spec_known result ≡ surveyed (read_by model.now.id (content_from catalog.now.words.now first) model.now.body.now) }
    ensures ready_by { KnownReadyBy catalog.now.words.now model.now.id model.now.body.now table.new result }
{
    let body = model.body;
    let run = run_extent(catalog.words, first);
    if is_pad_left_out(catalog.words, model.id, run, body.len()) {
        record_run(catalog.words, first, body, 0, table);
        return Ok(Survey {
            first,
            points: run.points - 1,
            fill: 0,
        });
    }
    if body.len() < run.size {
        return Err(Refusal::ShortModel);
    }
    record_run(catalog.words, first, body, 0, table);
    let groups = groups_extent(catalog.words, table, LOWER_LEVELS, run.next);
    if groups.unimplemented {
        return Err(Refusal::UnimplementedCount);
    }
    fitted(first, run, groups, body.len())
}

// 29 unless `length` is the model's size; with a fill group, 29 if it is below the rest or leaves a remainder. Else the
// number of points.
fn fitted(first: usize, run: Run, groups: Extent, length: usize) -> Result<Survey, Refusal>
    requires size_in_bounds { (run.size ≤ length) × (length ≤ 65535) × (run.points ≤ 4096) }
    requires size_bound { (groups.size.registers ≤ 65536) × (groups.size.points ≤ 65536) × (points_or0 groups.fill ≤ 65536) }
    ensures { result ≡ fitted_by first run groups length }
{
    let rest = run.size + groups.size.registers;
    let instance = groups.fill.unwrap_or_default();
    let fill = fill_count(length, rest, instance.registers).ok_or(Refusal::LengthNotSize)?;
    Ok(Survey {
        first,
        points: run.points + groups.size.points + fill * instance.points,
        fill,
    })
}
