// What a plan puts on cabinets: refusals 20 and 15, and the cabinets' part of the cost.
ghost use Rattle.std.specs.Prelude.{◌≡◌, eqb};
ghost use Rattle.records.specs.Told.{told};
ghost use Rattle.embedding.specs.Plan.{place, demand_of, bars_keep, rooms_keep, joints_keep, cabinets_keep, cabinets_cost};

use crate::places::{Placing, place_of};
use records::field;
use subsets::only_if;

impl Placing<'_> {
    // No service sits on a cabinet that it is barred from.
    pub(crate) fn are_bars_kept(&self) -> bool
        ensures { result ≡ bars_keep (told self.now.records.now) (place self.now.plan.now) }
    {
        (0..self.records.services).all(|i| !self.records.is_barred(i, place_of(self.plan, i)))
    }

    // The demand that the plan puts on cabinet c.
    fn placed_demand(&self, c: usize) -> u64
        ensures { result ≡ demand_of (told self.now.records.now) (λ i. eqb (place self.now.plan.now i) c) }
    {
        let mut sum = 0;
        for i in 0..self.records.services {
            sum += only_if(
                place_of(self.plan, i) == c,
                u64::from(field(&self.records.demand, self.records.services, i)),
            );
        }
        sum
    }

    // No cabinet is overfull.
    fn are_rooms_kept(&self) -> bool
        ensures { result ≡ rooms_keep (told self.now.records.now) (place self.now.plan.now) }
    {
        let records = self.records;
        (0..records.cabinets).all(|c| self.placed_demand(c) <= records.cabinet(c).capacity)
    }

    // No service sits on a joint.
    fn are_joints_kept(&self) -> bool
        ensures { result ≡ joints_keep (told self.now.records.now) (place self.now.plan.now) }
    {
        (0..self.records.services).all(|i| !self.records.is_joint(place_of(self.plan, i)))
    }

    // No cabinet is overfull, and none that is a joint has a service.
    #[tactic(auto, unfolding(embedding::specs::Plan::cabinets_keep))]
    pub(crate) fn are_cabinets_kept(&self) -> bool
        ensures { result ≡ cabinets_keep (told self.now.records.now) (place self.now.plan.now) }
    {
        self.are_rooms_kept() && self.are_joints_kept()
    }

    // What the cabinets charge for the services: each one's demand times the price of its cabinet.
    pub(crate) fn cabinets_cost(&self) -> u64
        ensures { result ≡ cabinets_cost (told self.now.records.now) (place self.now.plan.now) }
    {
        let mut cost = 0;
        for i in 0..self.records.services {
            cost += self.records.service(i).demand
                * self.records.cabinet(place_of(self.plan, i)).price;
        }
        cost
    }
}
