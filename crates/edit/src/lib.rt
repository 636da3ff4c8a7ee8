// One cabinet changed: tables kept of a sheet are made those of the changed sheet, from the changed cabinet up to the root, and the plan that they then
// tell of is checked before it is handed out.
#![tactic(auto)]

ghost use Rattle.std.specs.Prelude.{◌≡◌, length};
ghost use Rattle.checker.specs.Check.{checked};
ghost use Rattle.records.specs.Told.{told};
ghost use Rattle.edit.specs.Calls.{called};
ghost use Rattle.edit.specs.Edits.{Edits};
ghost use Rattle.edit.specs.Inner.Parts.{Loaded, Parted, Reworks, accepted_at, handed, output_of};

use lending::Span;
use planner::{Found, Unplanned};
use records::Records;
use sheet::{Refusal, Sheet};

// Hands a plan out, if the check accepts it at just the cost found; else the tables are not those of such a sheet.
#[tactic(auto, unfolding(sheet::specs::Refusals::refusal))]
fn hand_out(
    sheet: &[u8],
    places: &[u16],
    found: Found,
    output: &mut [u16],
) -> Result<Found, Unplanned>
    requires { length output.old ≡ length places.now }
    ensures answer { result ≡ handed (checked sheet.now places.now) found.cost found.count }
    ensures output { output.new ≡ output_of result places.now output.old }
{
    if checker::check(sheet, places) != Ok(found.cost) {
        return Err(Unplanned::from(Refusal::NOT_ACCEPTED));
    }
    output.copy_from_slice(places);
    Ok(found)
}

// Updates the tables, in exactly as much memory as is needed, and has the plan checked.
fn rework(
    sheet: &[u8],
    records: &Records,
    cabinet: usize,
    output: &mut [u16],
    costs: &mut [u64],
    choices: &mut [u16],
) -> Result<Found, Unplanned>
    requires loaded { Loaded sheet.now records.now }
    requires parts { Parted (told records.now) cabinet output.old costs.old choices.old }
    ensures { Reworks sheet.now (told records.now) cabinet output.old output.new costs.old costs.new choices.old choices.new result }
{
    let mut plan = [0u16; Sheet::MAX_SERVICES];
    let r = records.services;
    let kept = solver::update(records, cabinet, &mut plan[..r], costs, choices);
    let found = planner::answer_of(kept)?;
    hand_out(sheet, &plan[..r], found, output)
}

// Makes the tables kept of a sheet in the span those of this one, which differs in this cabinet's record alone, its parent excepted, and writes the
// first of the cheapest plans to the output. The span may hold anything: a plan that the check does not accept at its cost is not handed out.
pub fn edit(
    sheet: &[u8],
    cabinet: usize,
    output: &mut [u16],
    costs: &mut [u64],
    choices: &mut [u16],
    span: Span,
) -> Result<Found, Unplanned>
    ensures { Edits (called sheet.now cabinet output.old costs.old choices.old span result output.new costs.new choices.new) }
{
    let prepared = planner::prepare(sheet, output.len(), costs.len(), choices.len(), span)?;
    let records = &prepared.records;
    let first = prepared.first;
    let end = prepared.end;
    if records.cabinets <= cabinet {
        return Err(Unplanned::from(Refusal::NO_SUCH_CABINET));
    }
    rework(
        sheet,
        records,
        cabinet,
        &mut output[..records.services],
        &mut costs[first..end],
        &mut choices[first..end],
    )
}
