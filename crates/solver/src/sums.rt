// Sums over every set of services: what it demands, what runs out of it and what runs into it.
ghost use Rattle.std.specs.Prelude.{◌≡◌, ◌<◌, ◌≤◌, not, ◌&&◌, length};
ghost use Rattle.sheet.specs.Limits.{max_services, max_streams};
ghost use Rattle.rows.specs.Charges.{max_sets, all_sums, into_row};
ghost use Rattle.subsets.specs.Sets.{has};
ghost use Rattle.solver.specs.Sums.{demand_in, flow_out, put, SumsOf};

use records::Records;
use records::flows::{Flow, frames_of};
use rows::{INTO, OUT, SETS};
use sheet::Sheet;
use subsets::member;

// Whether a stream runs out of x.
fn runs_out(x: usize, from: usize, to: usize) -> bool
    ensures { result ≡ has x from && not (has x to) }
{
    member(x, from) && !member(x, to)
}

// The demand of the services in x.
#[tactic(auto, using(crate::proofs::Summing::no_demand, crate::proofs::Summing::demand_taken, crate::proofs::Summing::demand_left))]
fn demand_of(demand: &[u16; Sheet::MAX_SERVICES], r: usize, x: usize) -> u32
    requires { r ≤ max_services }
    ensures { result ≡ demand_in demand.now r x }
{
    let mut sum = 0;
    for i in 0..r {
        if member(x, i) {
            sum += u32::from(demand[i]);
        }
    }
    sum
}

// The streams that run out of x: their demand and their frames.
#[tactic(auto, using(crate::proofs::Summing::no_flow, crate::proofs::Summing::flow_taken, crate::proofs::Summing::flow_left))]
fn flow_of<'a>(
    from: &'a [u16; Sheet::MAX_STREAMS],
    to: &'a [u16; Sheet::MAX_STREAMS],
    load: &'a [u16; Sheet::MAX_STREAMS],
    q: usize,
    x: usize,
) -> Flow
    requires { q ≤ max_streams }
    ensures { result ≡ flow_out from.now to.now load.now q x }
{
    let mut flow = Flow {
        demand: 0,
        frames: 0,
    };
    for j in 0..q {
        if runs_out(x, usize::from(from[j]), usize::from(to[j])) {
            flow.demand += u32::from(load[j]);
            flow.frames += u32::from(frames_of(load[j]));
        }
    }
    flow
}

// Writes what runs for the set x into an array of sums: its demand into this row, its frames into the next.
#[tactic(auto, unfolding(crate::specs::Sums::put))]
fn put_flow(of: &mut [u32], row: usize, x: usize, flow: Flow)
    requires { (row ≤ into_row) × (x < max_sets) × (all_sums ≤ length of.old) }
    ensures { of.new ≡ put of.old row x flow }
{
    let demand = row * SETS + x;
    let frames = demand + SETS;
    of[demand] = flow.demand;
    of[frames] = flow.frames;
}

// The sums of all sets below size.
#[tactic(auto, using(crate::proofs::Summing::summed_next))]
pub(crate) fn sum_sets(of: &mut [u32], records: &Records, size: usize)
    requires { (size ≤ max_sets) × (records.now.services ≤ max_services) × (records.now.streams ≤ max_streams) × (length of.old ≡ all_sums) }
    ensures { SumsOf records.now size of.new }
{
    let r = records.services;
    let q = records.streams;
    for x in 0..size {
        let out = flow_of(&records.from, &records.to, &records.load, q, x);
        let into = flow_of(&records.to, &records.from, &records.load, q, x);
        of[x] = demand_of(&records.demand, r, x);
        put_flow(of, OUT, x, out);
        put_flow(of, INTO, x, into);
    }
}
