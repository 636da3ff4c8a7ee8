// The check of a plan against a sheet: any bytes and any plan get the plan's cost, or one refusal. And the load of one link.
#![tactic(auto)]

ghost use Rattle.std.specs.Prelude.{◌≡◌};
ghost use Rattle.checker.specs.Check.{checked};

mod cabinets; // cabinets.rt: what the plan puts on cabinets, and what they charge
mod links; // links.rt: the walk over the links, and what they charge
pub mod loads; // loads.rt: what the plan's streams put on one link
mod places; // places.rt: the places of a plan, and a plan beside the records that it fits
mod streams; // streams.rt: what runs through one link, stream by stream

use places::{Placing, is_in_range};
use sheet::Refusal;

// Checks a plan, one cabinet number a service: the plan's cost exactly when no refusal applies, else the first refusal that applies.
pub fn check(bytes: &[u8], plan: &[u16]) -> Result<u64, Refusal>
    ensures { result ≡ checked bytes.now plan.now }
{
    let answer = records::load(bytes);
    // Let else, and no `?`: 01 has check and planner take the reader's answer apart so.
    let Ok(loaded) = answer else {
        return Err(answer.unwrap_err());
    };
    let records = &loaded.records;
    if plan.len() != records.services {
        return Err(Refusal::WRONG_PLACES);
    }
    if !is_in_range(plan, records.cabinets) {
        return Err(Refusal::NO_SUCH_CABINET);
    }
    let placing = Placing { records, plan };
    if !placing.are_bars_kept() {
        return Err(Refusal::BARRED_PLACE);
    }
    if !placing.are_cabinets_kept() {
        return Err(Refusal::OVERFULL_CABINET);
    }
    placing.walk_links()
}
