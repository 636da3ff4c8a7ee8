// What a plan's streams put on one link: the link above cabinet c carries the streams that leave the cabinets under c upwards, and
// those that enter them downwards. Their framing is part of the load.
ghost use Rattle.std.specs.Prelude.{◌≡◌, ◌≤◌, ◌<◌};
ghost use Rattle.sheet.specs.Limits.{max_cabinets};
ghost use Rattle.records.specs.Told.{told};
ghost use Rattle.embedding.specs.Plan.{place};
ghost use Rattle.checker.specs.Loads.{has_link, loads};
ghost use Rattle.checker.specs.Inner.Records.{Marked};

use crate::streams::Flows;
use records::{Records, field, is_marked};
use sheet::Sheet;

// The load of each direction of a link.
#[derive(Clone, Copy)]
pub struct Loads {
    pub up: u64,
    pub down: u64,
}

// Marks the cabinets under c: c itself, and each one whose parent is marked before it.
pub(crate) fn mark_under(records: &Records, c: usize) -> [bool; Sheet::MAX_CABINETS]
    requires { (0 < c) × (c < (told records.now).s) × ((told records.now).s ≤ max_cabinets) }
    ensures { Marked (told records.now) c result }
{
    let mut marks = [false; Sheet::MAX_CABINETS];
    marks[c] = true;
    for d in c + 1..records.cabinets {
        let parent = usize::from(field(&records.parent, records.cabinets, d));
        marks[d] = is_marked(&marks, parent);
    }
    marks
}

// Whether there is a link above c, in records whose counts are within the limits.
#[tactic(auto, unfolding(records::specs::Told::told, crate::specs::Loads::has_link))]
fn has_link(records: &Records, c: usize) -> bool
    ensures { result ≡ has_link (told records.now) c }
{
    (0 < c)
        & (c < records.cabinets)
        & (records.cabinets <= Sheet::MAX_CABINETS)
        & (records.streams <= Sheet::MAX_STREAMS)
}

// What the plan puts on the link above c; nothing where there is no such link. Any records and any plan will do.
pub fn link_loads(records: &Records, plan: &[u16], c: usize) -> Loads
    ensures { result ≡ loads (told records.now) (place plan.now) c }
{
    if !has_link(records, c) {
        return Loads { up: 0, down: 0 };
    }
    let marks = mark_under(records, c);
    let mut flows = Flows::NONE;
    for j in 0..records.streams {
        flows = flows.with_stream(records, plan, &marks, j);
    }
    Loads {
        up: flows.up.load(),
        down: flows.down.load(),
    }
}
