// The entry points of the call that edits kept tables.
ghost use Rattle.std.specs.Prelude.{◌≡◌};
ghost use Rattle.lending.specs.Spans.{span_of};
ghost use Rattle.planner.specs.Answers.{Planned, number as plan_number};
ghost use Rattle.edit.specs.Calls.{called};
ghost use Rattle.edit.specs.Edits.{Edits};
ghost use Rattle.gazrieksne.specs.Plans.{whole_of, plan_answer};

use crate::plans::tell;
use lending::Span;

// The editing call on the whole of the shorter table, with its answer as numbers.
#[unsafe(no_mangle)]
pub extern "C" fn gz_edit(
    bytes: &[u8],
    cabinet: usize,
    output: &mut [u16],
    costs: &mut [u64],
    choices: &mut [u16],
    answer: &mut [u64; 3],
) -> u64
    ensures { (a : Planned) × Edits (called bytes.now cabinet output.old costs.old choices.old (whole_of costs.old choices.old) a output.new costs.new choices.new) × (result ≡ plan_number a) × (answer.new ≡ plan_answer a) }
{
    let all = Span::whole(costs.len(), choices.len());
    let answered = edit::edit(bytes, cabinet, output, costs, choices, all);
    tell(answered, answer)
}

// The editing call on a span, with its answer as numbers.
#[unsafe(no_mangle)]
pub extern "C" fn gz_edit_span(
    bytes: &[u8],
    cabinet: usize,
    output: &mut [u16],
    costs: &mut [u64],
    choices: &mut [u16],
    first: usize,
    number: usize,
    answer: &mut [u64; 3],
) -> u64
    ensures { (a : Planned) × Edits (called bytes.now cabinet output.old costs.old choices.old (span_of first number) a output.new costs.new choices.new) × (result ≡ plan_number a) × (answer.new ≡ plan_answer a) }
{
    let span = Span { first, number };
    let answered = edit::edit(bytes, cabinet, output, costs, choices, span);
    tell(answered, answer)
}
