// The walk over the links: refusal 16, and the links' part of the cost.
ghost use Rattle.std.specs.Prelude.{◌≡◌, ◌||◌, ltb};
ghost use Rattle.records.specs.Flows.{load_of};
ghost use Rattle.records.specs.Told.{told};
ghost use Rattle.embedding.specs.Plan.{place};
ghost use Rattle.checker.specs.Inner.Walk.{walked};

use crate::loads::mark_under;
use crate::places::Placing;
use crate::streams::Flows;
use sheet::{Cabinet, Refusal};

// A direction of the link above a cabinet has a load above its capacity.
fn is_overfull(link: Cabinet, flows: Flows) -> bool
    ensures { result ≡ ltb link.up_capacity (load_of flows.up) || ltb link.down_capacity (load_of flows.down) }
{
    link.up_capacity < flows.up.load() || link.down_capacity < flows.down.load()
}

impl Placing<'_> {
    // The walk over the links: refusal 16 at the first one that is overfull, else the plan's cost.
    pub(crate) fn walk_links(&self) -> Result<u64, Refusal>
        ensures { result ≡ walked (told self.now.records.now) (place self.now.plan.now) }
    {
        'walk: {
            let mut cost = self.cabinets_cost();
            for c in 1..self.records.cabinets {
                let link = self.records.cabinet(c);
                let marks = mark_under(self.records, c);
                let mut flows = Flows::NONE;
                for j in 0..self.records.streams {
                    flows = flows.with_stream(self.records, self.plan, &marks, j);
                    if is_overfull(link, flows) {
                        break 'walk Err(Refusal::OVERFULL_LINK);
                    }
                }
                cost += u64::from(flows.up.demand) * link.up_price
                    + u64::from(flows.down.demand) * link.down_price;
            }
            Ok(cost)
        }
    }
}
