// The planner's core: both tables filled for the records of a tree, row by row; the root's row decides, and a plan is read back.
// All public calls are for any records and any tables: what they ask for is tested at their heads.
#![tactic(auto)]

ghost use Rattle.std.specs.Prelude.{◌≡◌, ◌^◌, ◌≤◌, true, length, slice_index};
ghost use Rattle.subsets.specs.Inner.Masks.{full};
ghost use Rattle.solver.specs.Tables.{fitting, read_answer, PlacedBy, Keeps, Solves, Updates};

use records::Records;
use rows::SUMS;
use subsets::sets_of;

mod back; // back.rt: the placing read back from the choice table
mod sound; // sound.rt: whether records are those of a tree within the limits
mod sums; // sums.rt: sums over every set of services
mod tables; // tables.rt: both tables filled, and the counts in them

use back::read_places;
use sound::is_sound;
use sums::sum_sets;
use tables::{count_joins, fill};

// What the core answers: the cost of a cheapest plan, or that there is none, and the count of the splits weighed; or that the records are no tree
// within the limits or the memory lent is not of the size that they need. Three cases, as neither an Option nor a Result has.
#[derive(Clone, Copy)]
pub enum Kept {
    Plan { cost: u64, count: u64 },
    NoPlan { count: u64 },
    Unfit,
}

// Whether the records are sound, and the memory lent is of exactly the size that they need.
#[tactic(auto, using(crate::proofs::Sounding::few_services, crate::proofs::Sounding::few_entries), unfolding(crate::specs::Tables::fitting))]
fn fits(records: &Records, output: usize, costs: usize, choices: usize) -> bool
    ensures { result ≡ fitting records.now output costs choices }
{
    if !is_sound(records) {
        return false;
    }
    let entries = records.cabinets * sets_of(records.services);
    output == records.services && costs == entries && choices == entries
}

// The answer that filled tables tell of, with this count: the cost of all services on the whole tree, and the placing that the choices name.
#[tactic(auto, using(crate::proofs::Deciding::fits_services, crate::proofs::Deciding::fits_sets, crate::proofs::Deciding::fits_root, crate::proofs::Deciding::fits_reading))]
fn decide(records: &Records, output: &mut [u16], costs: &[u64], choices: &[u16], count: u64) -> Kept
    requires { fitting records.now (length output.old) (length costs.now) (length choices.now) ≡ true }
    ensures answer { result ≡ read_answer (slice_index costs.now (full records.now.services)) count }
    ensures output { PlacedBy records.now choices.now result output.old output.new }
{
    let all = sets_of(records.services) - 1;
    let cost = costs[all];
    if subsets::LIMIT < cost {
        return Kept::NoPlan { count };
    }
    read_places(output, records, choices);
    Kept::Plan { cost, count }
}

// Plans, and keeps both tables filled: the first of the cheapest plans is read back.
#[tactic(auto, using(crate::proofs::Deciding::fits_services, crate::proofs::Deciding::fits_filling, crate::proofs::Deciding::keeps))]
pub fn keep(records: &Records, output: &mut [u16], costs: &mut [u64], choices: &mut [u16]) -> Kept
    ensures { Keeps records.now output.old output.new costs.old costs.new choices.old choices.new result }
{
    if !fits(records, output.len(), costs.len(), choices.len()) {
        return Kept::Unfit;
    }
    let size = sets_of(records.services);
    let count = fill(costs, choices, records, size);
    decide(records, output, costs, choices, count)
}

// Plans, and clears both tables.
pub fn solve(records: &Records, output: &mut [u16], costs: &mut [u64], choices: &mut [u16]) -> Kept
    ensures { Solves records.now output.old output.new costs.old costs.new choices.old choices.new result }
{
    let answer = keep(records, output, costs, choices);
    if !matches!(answer, Kept::Unfit) {
        costs.fill(0);
        choices.fill(0);
    }
    answer
}

// Updates tables that are kept of records which differ in cabinet e alone, and plans: their rows are rebuilt from e up to the root. The tables may
// hold anything.
#[tactic(auto, using(crate::proofs::Deciding::fits_services, crate::proofs::Deciding::fits_filling, crate::proofs::Filling::ready_services))]
pub fn update(
    records: &Records,
    e: usize,
    output: &mut [u16],
    costs: &mut [u64],
    choices: &mut [u16],
) -> Kept
    ensures { Updates records.now e output.old output.new costs.old costs.new choices.old choices.new result }
{
    if records.cabinets <= e || !fits(records, output.len(), costs.len(), choices.len()) {
        return Kept::Unfit;
    }
    let size = sets_of(records.services);
    let mut sums = [0u32; SUMS];
    sum_sets(&mut sums, records, size);
    rows::rebuild_path(costs, choices, records, &sums, e);
    let count = count_joins(choices, records.cabinets, size);
    decide(records, output, costs, choices, count)
}
