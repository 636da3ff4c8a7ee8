// Both tables filled, and the counts that stand in the choice table.
ghost use Rattle.std.specs.Prelude.{◌≡◌, ◌*◌, ◌<◌, ◌≤◌, length, nat_lt};
ghost use Rattle.finite.specs.Below.{only, sum_below};
ghost use Rattle.sheet.specs.Limits.{max_cabinets};
ghost use Rattle.rows.specs.Rebuilds.{entry};
ghost use Rattle.solver.specs.Tables.{Ready, Filled};

use crate::sums::sum_sets;
use records::Records;
use rows::SUMS;

// Fills both tables, the root's choices with 0, since it is no child. Gives the splits counted.
#[tactic(auto, using(crate::proofs::Filling::first_row, crate::proofs::Filling::ready_services))]
pub(crate) fn fill(costs: &mut [u64], choices: &mut [u16], records: &Records, size: usize) -> u64
    requires { Ready records.now size costs.old choices.old }
    ensures { Filled records.now costs.new choices.new result }
{
    let mut sums = [0u32; SUMS];
    sum_sets(&mut sums, records, size);
    choices[..size].fill(0);
    rows::fill(costs, choices, records, &sums)
}

// The sum of the counts of all joins: each stands in the row of its child as the choice of the empty set.
#[tactic(auto, using(crate::proofs::Counting::counted_one, crate::proofs::Counting::counted_next))]
pub(crate) fn count_joins(choices: &[u16], cabinets: usize, size: usize) -> u64
    requires { (0 < size) × (1 ≤ cabinets) × (cabinets ≤ max_cabinets) × (cabinets * size ≤ length choices.now) }
    ensures { result ≡ sum_below cabinets (λ c. only (nat_lt 0 c) (entry size choices.now c 0)) }
{
    let mut count = 0;
    for c in 1..cabinets {
        count += u64::from(choices[c * size]);
    }
    count
}
