// The program's text: the planner's answer to a sheet, or the refusal of too many bytes.
#![tactic(auto)]

ghost use Rattle.std.specs.Prelude.{◌≡◌, ◌≤◌, length, take};
ghost use Rattle.io.specs.Counts.{IsPrefixLen};
ghost use Rattle.report.specs.Inner.Room.{room};
ghost use Rattle.report.specs.Text.{refusal_line, answer_text, sheet_text, printed};
ghost use Rattle.sheet.specs.Limits.{max_services};
ghost use Rattle.sheet.specs.Reading.{reading, services};

use lending::Span;
use planner::{Found, Unplanned};
use sheet::Sheet;

mod lines; // lines.rt: pieces, numbers and lines, put into the text

use lines::{put_line, put_services};

// The most bytes that are taken as a sheet.
pub const LONGEST: usize = 4096;

// The number of the refusal of more bytes: the program's own, which is in no group.
const TOO_LONG: u64 = 17;

// The entries of each table that is lent to the planner.
const ENTRIES: usize = 4096;

// Bytes that suffice for every text.
pub const TEXT: usize = 512;

// How many services the sheet has, 0 where it is refused.
fn services_of(sheet: &[u8]) -> usize
    ensures { (result ≤ max_services) × (result ≡ services (reading sheet.now)) }
{
    match sheet::read(sheet) {
        Ok(accepted) => accepted.services(),
        Err(_) => 0,
    }
}

// Puts the text of an answer, with the plan that was written.
fn put_answer(text: &mut [u8], answer: Result<Found, Unplanned>, plan: &[u16]) -> usize
    requires { (length text.old ≡ room) × (length plan.now ≤ max_services) }
    ensures position { result ≤ room }
    ensures text { take result text.new ≡ answer_text answer plan.now }
{
    match answer {
        Ok(found) => {
            let weighed = put_line(text, 0, b"cost", found.cost);
            let services = put_line(text, weighed, b"weighed", found.count);
            put_services(text, services, plan)
        }
        Err(unplanned) => put_line(text, 0, b"refused", u64::from(unplanned.refusal.number())),
    }
}

// Plans the sheet, and puts the text of the answer.
fn answer(sheet: &[u8], text: &mut [u8]) -> usize
    requires { length text.old ≡ room }
    ensures position { result ≤ room }
    ensures text { take result text.new ≡ sheet_text sheet.now }
{
    let mut output = [0u16; Sheet::MAX_SERVICES];
    let mut costs = [0u64; ENTRIES];
    let mut choices = [0u16; ENTRIES];
    let r = services_of(sheet);
    let span = Span::whole(ENTRIES, ENTRIES);
    let planned = planner::plan(sheet, &mut output, &mut costs, &mut choices, span);
    put_answer(text, planned, &output[..r])
}

// Puts the line of a refusal at the start of `text`, and answers its length: the same line for every program.
pub fn refuse(number: u16, text: &mut [u8; TEXT]) -> usize
    ensures length { IsPrefixLen result text.new }
    ensures text { take result text.new ≡ refusal_line number }
{
    put_line(text, 0, b"refused", u64::from(number))
}

// Puts the text for a sheet at the start of `text`, and answers its length.
pub fn respond(sheet: &[u8], text: &mut [u8; TEXT]) -> usize
    ensures length { IsPrefixLen result text.new }
    ensures text { take result text.new ≡ printed sheet.now }
{
    if LONGEST < sheet.len() {
        return put_line(text, 0, b"refused", TOO_LONG);
    }
    answer(sheet, text)
}
