// The entry points of the planner, which clears the tables or keeps them, and of the bound.
ghost use Rattle.std.specs.Prelude.{◌≡◌};
ghost use Rattle.sheet.specs.Instance.{instance};
ghost use Rattle.lending.specs.Spans.{span_of};
ghost use Rattle.planner.specs.Answers.{number as plan_number};
ghost use Rattle.planner.specs.Lent.{front_after, table_after, OutputAfter};
ghost use Rattle.planner.specs.Kept.{kept_costs, kept_choices};
ghost use Rattle.planner.specs.Bounds.{split_bound, number as bound_number};
ghost use Rattle.gazrieksne.specs.Plans.{whole_of, answer_with, plan_answer, bound_answer};

use lending::Span;
use planner::{Found, Unplanned};

// The refusal's number, 0 for none; group, cost and count are written.
pub(crate) fn tell(answered: Result<Found, Unplanned>, answer: &mut [u64; 3]) -> u64
    ensures refusal { result ≡ plan_number answered }
    ensures answer { answer.new ≡ plan_answer answered }
{
    match answered {
        Ok(plan) => {
            *answer = [0, plan.cost, plan.count];
            0
        }
        Err(unplanned) => {
            *answer = [unplanned.refusal.group(), 0, unplanned.count];
            u64::from(unplanned.refusal.number())
        }
    }
}

// The planner's call on the whole of the shorter table, with its answer as numbers.
#[unsafe(no_mangle)]
pub extern "C" fn gz_plan(
    bytes: &[u8],
    output: &mut [u16],
    costs: &mut [u64],
    choices: &mut [u16],
    answer: &mut [u64; 3],
) -> u64
    ensures refusal { result ≡ plan_number (answer_with bytes.now output.old costs.old choices.old (whole_of costs.old choices.old)) }
    ensures answer { answer.new ≡ plan_answer (answer_with bytes.now output.old costs.old choices.old (whole_of costs.old choices.old)) }
    ensures output { OutputAfter (instance bytes.now) (answer_with bytes.now output.old costs.old choices.old (whole_of costs.old choices.old)) output.old output.new }
    ensures costs { costs.new ≡ table_after (instance bytes.now) (answer_with bytes.now output.old costs.old choices.old (whole_of costs.old choices.old)) (whole_of costs.old choices.old) costs.old }
    ensures choices { choices.new ≡ table_after (instance bytes.now) (answer_with bytes.now output.old costs.old choices.old (whole_of costs.old choices.old)) (whole_of costs.old choices.old) choices.old }
{
    let all = Span::whole(costs.len(), choices.len());
    let answered = planner::plan(bytes, output, costs, choices, all);
    tell(answered, answer)
}

// The planner's call on a span, with its answer as numbers.
#[unsafe(no_mangle)]
pub extern "C" fn gz_plan_span(
    bytes: &[u8],
    output: &mut [u16],
    costs: &mut [u64],
    choices: &mut [u16],
    first: usize,
    number: usize,
    answer: &mut [u64; 3],
) -> u64
    ensures refusal { result ≡ plan_number (answer_with bytes.now output.old costs.old choices.old (span_of first number)) }
    ensures answer { answer.new ≡ plan_answer (answer_with bytes.now output.old costs.old choices.old (span_of first number)) }
    ensures output { OutputAfter (instance bytes.now) (answer_with bytes.now output.old costs.old choices.old (span_of first number)) output.old output.new }
    ensures costs { costs.new ≡ table_after (instance bytes.now) (answer_with bytes.now output.old costs.old choices.old (span_of first number)) (span_of first number) costs.old }
    ensures choices { choices.new ≡ table_after (instance bytes.now) (answer_with bytes.now output.old costs.old choices.old (span_of first number)) (span_of first number) choices.old }
{
    let span = Span { first, number };
    let answered = planner::plan(bytes, output, costs, choices, span);
    tell(answered, answer)
}

// The keeping call on the whole of the shorter table, with its answer as numbers.
#[unsafe(no_mangle)]
pub extern "C" fn gz_keep(
    bytes: &[u8],
    output: &mut [u16],
    costs: &mut [u64],
    choices: &mut [u16],
    answer: &mut [u64; 3],
) -> u64
    ensures refusal { result ≡ plan_number (answer_with bytes.now output.old costs.old choices.old (whole_of costs.old choices.old)) }
    ensures answer { answer.new ≡ plan_answer (answer_with bytes.now output.old costs.old choices.old (whole_of costs.old choices.old)) }
    ensures output { OutputAfter (instance bytes.now) (answer_with bytes.now output.old costs.old choices.old (whole_of costs.old choices.old)) output.old output.new }
    ensures costs { costs.new ≡ front_after (instance bytes.now) (answer_with bytes.now output.old costs.old choices.old (whole_of costs.old choices.old)) (whole_of costs.old choices.old) (kept_costs (instance bytes.now)) costs.old }
    ensures choices { choices.new ≡ front_after (instance bytes.now) (answer_with bytes.now output.old costs.old choices.old (whole_of costs.old choices.old)) (whole_of costs.old choices.old) (kept_choices (instance bytes.now)) choices.old }
{
    let all = Span::whole(costs.len(), choices.len());
    let answered = planner::keep(bytes, output, costs, choices, all);
    tell(answered, answer)
}

// The keeping call on a span, with its answer as numbers.
#[unsafe(no_mangle)]
pub extern "C" fn gz_keep_span(
    bytes: &[u8],
    output: &mut [u16],
    costs: &mut [u64],
    choices: &mut [u16],
    first: usize,
    number: usize,
    answer: &mut [u64; 3],
) -> u64
    ensures refusal { result ≡ plan_number (answer_with bytes.now output.old costs.old choices.old (span_of first number)) }
    ensures answer { answer.new ≡ plan_answer (answer_with bytes.now output.old costs.old choices.old (span_of first number)) }
    ensures output { OutputAfter (instance bytes.now) (answer_with bytes.now output.old costs.old choices.old (span_of first number)) output.old output.new }
    ensures costs { costs.new ≡ front_after (instance bytes.now) (answer_with bytes.now output.old costs.old choices.old (span_of first number)) (span_of first number) (kept_costs (instance bytes.now)) costs.old }
    ensures choices { choices.new ≡ front_after (instance bytes.now) (answer_with bytes.now output.old costs.old choices.old (span_of first number)) (span_of first number) (kept_choices (instance bytes.now)) choices.old }
{
    let span = Span { first, number };
    let answered = planner::keep(bytes, output, costs, choices, span);
    tell(answered, answer)
}

// The refusal's number, 0 for none; group and bound are written.
#[unsafe(no_mangle)]
pub extern "C" fn gz_bound(services: usize, cabinets: usize, answer: &mut [u64; 2]) -> u64
    ensures refusal { result ≡ bound_number (split_bound services cabinets) }
    ensures answer { answer.new ≡ bound_answer (split_bound services cabinets) }
{
    match planner::bound(services, cabinets) {
        Ok(n) => {
            *answer = [0, n];
            0
        }
        Err(refusal) => {
            *answer = [refusal.group(), 0];
            u64::from(refusal.number())
        }
    }
}
