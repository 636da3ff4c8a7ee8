// The memory that is lent to a call that plans: the span of both tables that it may use, and whether that and the output are enough.
#![tactic(auto)]

ghost use Rattle.std.specs.Prelude.{◌≡◌};
ghost use Rattle.sheet.specs.Refusals.{first_applying};
ghost use Rattle.lending.specs.Spans.{whole, runs_past};
ghost use Rattle.lending.specs.Rules.{lender_rules, room};

use sheet::Refusal;

// The entries that a call may use, the same of both tables: so many, from the first on.
#[derive(Clone, Copy)]
pub struct Span {
    pub first: usize,
    pub number: usize,
}

impl Span {
    // All entries of the shorter of two tables.
    pub fn whole(costs: usize, choices: usize) -> Span
        ensures { result ≡ whole costs choices }
    {
        Span {
            first: 0,
            number: costs.min(choices),
        }
    }

    // Whether the span ends past a table of so many entries. First and number may sum to more than 64 bits hold, so they are not summed.
    pub fn runs_past(self, table: usize) -> bool
        ensures { result ≡ runs_past self table }
    {
        table < self.first || table - self.first < self.number
    }
}

// Measures an output and two tables of these lengths, for a plan that needs so many places and so many entries of the span: whether they are enough, or
// the lender's refusal.
#[tactic(auto, unfolding(sheet::specs::Refusals::first_applying, sheet::specs::Refusals::refusal))]
pub fn measure(
    places: usize,
    entries: usize,
    output: usize,
    costs: usize,
    choices: usize,
    span: Span,
) -> Result<(), Refusal>
    ensures { result ≡ room (first_applying (lender_rules places entries output costs choices span)) }
{
    if output < places {
        return Err(Refusal::SHORT_OUTPUT);
    }
    if span.runs_past(costs) || span.runs_past(choices) {
        return Err(Refusal::SPAN_OUTSIDE);
    }
    if span.number < entries {
        return Err(Refusal::SHORT_SPAN);
    }
    Ok(())
}
