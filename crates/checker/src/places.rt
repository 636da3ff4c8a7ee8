// The places of a plan, and a plan beside the records that it fits.
ghost use Rattle.std.specs.Prelude.{◌≡◌, true, ltb, length};
ghost use Rattle.finite.specs.Below.{all_below};
ghost use Rattle.sheet.specs.Instance.{WellFormed};
ghost use Rattle.records.specs.Told.{told};
ghost use Rattle.embedding.specs.Plan.{place, in_range};

use records::Records;

// The cabinet that a plan gives service i; 0 where it has no place for it.
pub(crate) fn place_of(plan: &[u16], i: usize) -> usize
    ensures { result ≡ place plan.now i }
{
    plan.get(i).map_or(0, |c| usize::from(*c))
}

// Every cabinet number of the plan is below the number of cabinets.
pub(crate) fn is_in_range(plan: &[u16], cabinets: usize) -> bool
    ensures { result ≡ all_below (length plan.now) (λ i. ltb (place plan.now i) cabinets) }
{
    plan.iter().all(|c| usize::from(*c) < cabinets)
}

// A plan with a cabinet for each service of the records, which are those of a well-formed sheet.
#[derive(Clone, Copy)]
pub(crate) struct Placing<'a> {
    pub(crate) records: &'a Records,
    pub(crate) plan: &'a [u16],
    ghost well_formed: { WellFormed (told records.now) },
    ghost places: { length plan.now ≡ (told records.now).r },
    ghost range: { in_range (told records.now) (place plan.now) ≡ true },
}
