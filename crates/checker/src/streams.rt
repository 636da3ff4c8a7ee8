// What runs through the link above a cabinet, stream by stream: a stream that leaves the cabinets under it runs upwards, and one that enters
// them downwards.
ghost use Rattle.std.specs.Prelude.{◌≡◌, ◌^◌, ◌+◌, ◌<◌};
ghost use Rattle.sheet.specs.Limits.{max_streams};
ghost use Rattle.records.specs.Told.{told};
ghost use Rattle.embedding.specs.Plan.{place};
ghost use Rattle.checker.specs.Inner.Flows.{Few, crosses, joined, with_stream};

use crate::places::place_of;
use records::flows::{Flow, frames_of};
use records::{Records, field, is_marked};

// The flows of both directions of a link.
#[derive(Clone, Copy)]
pub(crate) struct Flows {
    pub(crate) up: Flow,
    pub(crate) down: Flow,
}

// Whether a stream leaves the marked cabinets.
fn leaves(marks: &[bool], plan: &[u16], from: usize, to: usize) -> bool
    ensures { result ≡ crosses marks.now (place plan.now from) (place plan.now to) }
{
    is_marked(marks, place_of(plan, from)) & !is_marked(marks, place_of(plan, to))
}

// A flow with a stream of so much demand more, where it is in it.
#[tactic(auto, unfolding(finite::specs::Below::only))]
fn join(flow: Flow, is_in: bool, demand: u16) -> Flow
    requires { (flow.demand < 2 ^ 31) × (flow.frames < 2 ^ 31) }
    ensures { result ≡ joined flow is_in demand }
{
    if !is_in {
        return flow;
    }
    Flow {
        demand: flow.demand + u32::from(demand),
        frames: flow.frames + u32::from(frames_of(demand)),
    }
}

impl Flows {
    // No stream.
    pub(crate) const NONE: Flows = Flows {
        up: Flow {
            demand: 0,
            frames: 0,
        },
        down: Flow {
            demand: 0,
            frames: 0,
        },
    };

    // The flows with stream j, which comes after j others; the marks are those of the cabinets under the link.
    // The records and the plan are any, as link_loads takes them, and so no Placing.
    pub(crate) fn with_stream(
        self,
        records: &Records,
        plan: &[u16],
        marks: &[bool],
        j: usize,
    ) -> Flows
        requires { Few j self × (j < max_streams) }
        ensures flows { result ≡ with_stream (told records.now) (place plan.now) marks.now self j }
        ensures few { Few (j + 1) result }
    {
        let from = usize::from(field(&records.from, records.streams, j));
        let to = usize::from(field(&records.to, records.streams, j));
        let demand = field(&records.load, records.streams, j);
        Flows {
            up: join(self.up, leaves(marks, plan, from, to), demand),
            down: join(self.down, leaves(marks, plan, to, from), demand),
        }
    }
}
