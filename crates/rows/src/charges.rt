// What cabinets and links charge for every set of services.
ghost use Rattle.std.specs.Prelude.{◌≡◌, cond, ℕ, ◌*◌, ◌≤◌, ◌<◌, length, get_or};
ghost use Rattle.std.specs.Int.Bits.{bit_and};
ghost use Rattle.sheet.specs.Limits.{max_cabinets};
ghost use Rattle.rows.specs.Cabinets.{own_of, link_of};
ghost use Rattle.rows.specs.Charges.{max_sets, all_sums, into_row, own_figure, link_figure, demanded, flow_at, run_out, run_in};

use crate::{INTO, OUT, SETS};
use records::Records;
use records::flows::Flow;
use subsets::NONE;

// So much demand at a price: 32 bits times 16 bits.
fn priced(sum: u32, price: u16) -> u64
    ensures { (result ≡ sum * price) × (result < 281474976710656) }
{
    u64::from(sum) * u64::from(price)
}

// What runs for the set x: its demand stands in this row of the sums, its frames in the next.
fn flow_at(sums: &[u32], row: usize, x: usize) -> Flow
    requires { (row ≤ into_row) × (x < max_sets) × (all_sums ≤ length sums.now) }
    ensures { result ≡ flow_at sums.now row x }
{
    let demand = row * SETS + x;
    let frames = demand + SETS;
    Flow {
        demand: sums[demand],
        frames: sums[frames],
    }
}

// What a cabinet itself lets in, and at what price; the services barred from it are a set. A joint lets none in.
#[derive(Clone, Copy)]
pub(crate) struct Own {
    capacity: u16,
    price: u16,
    barred: u16,
    joint: bool,
}

impl Own {
    // What cabinet c of these records lets in.
    pub(crate) fn of(records: &Records, c: usize) -> Own
        requires { (c < records.now.cabinets) × (records.now.cabinets ≤ max_cabinets) }
        ensures { result ≡ own_of records.now c }
    {
        Own {
            capacity: records.capacity[c],
            price: records.price[c],
            barred: records.barred[c],
            joint: records.joint[c],
        }
    }

    // Those of the services x that it does not let in, whatever their demand: on a joint all of them, else those barred from it.
    fn kept_off(self, x: u32) -> u32
        ensures { result ≡ cond self.joint x (bit_and x self.barred) }
    {
        if self.joint {
            return x;
        }
        x & u32::from(self.barred)
    }

    // What it charges for the services of x, of so much demand.
    fn charge(self, x: u32, demand: u32) -> u64
        ensures { result ≡ own_figure self x demand }
    {
        if u32::from(self.capacity) < demand {
            return NONE;
        }
        if self.kept_off(x) != 0 {
            return NONE;
        }
        priced(demand, self.price)
    }

    // The row of the cabinet alone.
    pub(crate) fn fill(self, row: &mut [u64], sums: &[u32])
        requires { (length row.old ≤ max_sets) × (all_sums ≤ length sums.now) }
        ensures { (x : ℕ) → x < length row.old → get_or row.new x 0 ≡ own_figure self x (demanded sums.now x) }
    {
        for (x, figure) in row.iter_mut().enumerate() {
            *figure = self.charge(x as u32, sums[x]);
        }
    }
}

// What the link above a cabinet lets through each way, and at what price.
#[derive(Clone, Copy)]
pub(crate) struct Link {
    up_capacity: u16,
    up_price: u16,
    down_capacity: u16,
    down_price: u16,
}

impl Link {
    // What the link above cabinet c of these records lets through.
    pub(crate) fn above(records: &Records, c: usize) -> Link
        requires { (c < records.now.cabinets) × (records.now.cabinets ≤ max_cabinets) }
        ensures { result ≡ link_of records.now c }
    {
        Link {
            up_capacity: records.up_capacity[c],
            up_price: records.up_price[c],
            down_capacity: records.down_capacity[c],
            down_price: records.down_price[c],
        }
    }

    // What it charges for what runs upwards and downwards: the load is tested, the demand is priced.
    fn charge(self, up: Flow, down: Flow) -> u64
        ensures { result ≡ link_figure self up down }
    {
        if u64::from(self.up_capacity) < up.load() {
            return NONE;
        }
        if u64::from(self.down_capacity) < down.load() {
            return NONE;
        }
        priced(up.demand, self.up_price) + priced(down.demand, self.down_price)
    }

    // What it charges for every set below size.
    pub(crate) fn fill(self, row: &mut [u64], sums: &[u32], size: usize)
        requires { (size ≤ length row.old) × (size ≤ max_sets) × (all_sums ≤ length sums.now) }
        ensures { (x : ℕ) → x < size → get_or row.new x 0 ≡ link_figure self (run_out sums.now x) (run_in sums.now x) }
    {
        for x in 0..size {
            let up = flow_at(sums, OUT, x);
            let down = flow_at(sums, INTO, x);
            row[x] = self.charge(up, down);
        }
    }
}
