// The planner: the first of the cheapest plans of a sheet, with the count of the splits weighed for it, and the bound of that count.
#![tactic(auto)]

ghost use Rattle.std.specs.Prelude.{◌≡◌, length};
ghost use Rattle.sheet.specs.Instance.{instance};
ghost use Rattle.planner.specs.Answers.{planned};
ghost use Rattle.planner.specs.Lent.{front_after, table_after, OutputAfter};
ghost use Rattle.planner.specs.Kept.{kept_costs, kept_choices};
ghost use Rattle.planner.specs.Bounds.{split_bound};
ghost use Rattle.planner.specs.Inner.Decided.{uncounted, planned_of};
ghost use Rattle.planner.specs.Inner.Prepared.{Prepares};

use lending::Span;
use records::Records;
use sheet::{Refusal, Sheet};
use solver::Kept;

// A plan that was found: its cost, and the count of the splits weighed for it.
#[derive(Clone, Copy, PartialEq, Eq)]
pub struct Found {
    pub cost: u64,
    pub count: u64,
}

// Why there is no plan: who can cause the refusal and its number, and the count of the splits weighed.
#[derive(Clone, Copy, PartialEq, Eq)]
pub struct Unplanned {
    pub refusal: Refusal,
    pub count: u64,
}

// A refusal before any split was weighed.
impl From<Refusal> for Unplanned {
    ghost from_gives = { λ f u. u ≡ uncounted f };

    fn from(refusal: Refusal) -> Unplanned {
        Unplanned { refusal, count: 0 }
    }
}

// The records of a sheet, and where the rows that they need stand in both tables lent.
#[derive(Clone, Copy)]
pub struct Prepared {
    pub records: Records,
    pub first: usize,
    pub end: usize,
}

// The planner's answer for the core's. The core refuses no records of a sheet.
#[tactic(auto, unfolding(sheet::specs::Refusals::refusal))]
pub fn answer_of(kept: Kept) -> Result<Found, Unplanned>
    ensures { result ≡ planned_of kept }
{
    match kept {
        Kept::Plan { cost, count } => Ok(Found { cost, count }),
        Kept::NoPlan { count: weighed } => Err(Unplanned {
            refusal: Refusal::NO_PLAN,
            count: weighed,
        }),
        Kept::Unfit => Err(Unplanned::from(Refusal::SHORT_SPAN)),
    }
}

// Reads a sheet, and measures memory of these lengths for it. The rows stand at the front of the span.
pub fn prepare(
    sheet: &[u8],
    output: usize,
    costs: usize,
    choices: usize,
    span: Span,
) -> Result<Prepared, Refusal>
    ensures { Prepares sheet.now output costs choices span result }
{
    let answer = records::load(sheet);
    // Let else, and no `?`: 01 has check and planner take the reader's answer apart so.
    let Ok(loaded) = answer else {
        return Err(answer.unwrap_err());
    };
    let records = loaded.records;
    let entries = records.cabinets * subsets::sets_of(records.services);
    lending::measure(records.services, entries, output, costs, choices, span)?;
    let first = span.first;
    Ok(Prepared {
        records,
        first,
        end: first + entries,
    })
}

// Writes the first of the cheapest plans of the sheet to the output. In the span each table has one row a cabinet, with an entry for every set of
// services; no entry outside the span is touched. Output, tables and span are lent apart, here and below, as C lends them.
pub fn plan(
    sheet: &[u8],
    output: &mut [u16],
    costs: &mut [u64],
    choices: &mut [u16],
    span: Span,
) -> Result<Found, Unplanned>
    ensures answer { result ≡ planned sheet.now (length output.old) (length costs.old) (length choices.old) span }
    ensures output { OutputAfter (instance sheet.now) result output.old output.new }
    ensures costs { costs.new ≡ table_after (instance sheet.now) result span costs.old }
    ensures choices { choices.new ≡ table_after (instance sheet.now) result span choices.old }
{
    let prepared = prepare(sheet, output.len(), costs.len(), choices.len(), span)?;
    let records = &prepared.records;
    let first = prepared.first;
    let end = prepared.end;
    answer_of(solver::solve(
        records,
        &mut output[..records.services],
        &mut costs[first..end],
        &mut choices[first..end],
    ))
}

// The same as `plan`, but both tables are kept as they were filled. The core's call is all that differs: handed in as a closure it would have the
// contracts speak of what a closure leaves in two parts of two tables.
pub fn keep(
    sheet: &[u8],
    output: &mut [u16],
    costs: &mut [u64],
    choices: &mut [u16],
    span: Span,
) -> Result<Found, Unplanned>
    ensures answer { result ≡ planned sheet.now (length output.old) (length costs.old) (length choices.old) span }
    ensures output { OutputAfter (instance sheet.now) result output.old output.new }
    ensures costs { costs.new ≡ front_after (instance sheet.now) result span (kept_costs (instance sheet.now)) costs.old }
    ensures choices { choices.new ≡ front_after (instance sheet.now) result span (kept_choices (instance sheet.now)) choices.old }
{
    let prepared = prepare(sheet, output.len(), costs.len(), choices.len(), span)?;
    let records = &prepared.records;
    let first = prepared.first;
    let end = prepared.end;
    answer_of(solver::keep(
        records,
        &mut output[..records.services],
        &mut costs[first..end],
        &mut choices[first..end],
    ))
}

// The bound of the count for so many services and cabinets.
#[tactic(auto, unfolding(crate::specs::Bounds::split_bound, sheet::specs::Refusals::refusal), using(crate::proofs::Powers::power_there, crate::proofs::Powers::few_splits))]
pub fn bound(services: usize, cabinets: usize) -> Result<u64, Refusal>
    ensures { result ≡ split_bound services cabinets }
{
    if Sheet::MAX_SERVICES < services || cabinets < 1 || Sheet::MAX_CABINETS < cabinets {
        return Err(Refusal::BEYOND_LIMITS);
    }
    // Within these limits every power is there.
    let pairs = subsets::power_of_three(services).ok_or(Refusal::BEYOND_LIMITS)?;
    Ok((cabinets - 1) as u64 * pairs)
}
