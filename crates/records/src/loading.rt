// The records of an accepted sheet, read into arrays.
ghost use Rattle.std.specs.Prelude.{◌≡◌, ◌^◌, ◌<◌, ◌≤◌, Ok};
ghost use Rattle.std.specs.Int.Bits.{bit_or};
ghost use Rattle.sheet.specs.Limits.{max_services, max_cabinets, max_streams};
ghost use Rattle.sheet.specs.Instance.{instance};
ghost use Rattle.sheet.specs.Reading.{reading};
ghost use Rattle.records.specs.Told.{told, blank};
ghost use Rattle.records.specs.Inner.Loading.{Loading, Barring, Jointed};

use crate::{MARKS, Records};
use sheet::Sheet;

// So many services, cabinets and streams, with nothing in their records yet.
fn blank_records(services: usize, cabinets: usize, streams: usize) -> Records
    ensures { result ≡ blank services cabinets streams }
{
    Records {
        services,
        cabinets,
        streams,
        demand: [0u16; Sheet::MAX_SERVICES],
        parent: [0u16; Sheet::MAX_CABINETS],
        capacity: [0u16; Sheet::MAX_CABINETS],
        price: [0u16; Sheet::MAX_CABINETS],
        up_capacity: [0u16; Sheet::MAX_CABINETS],
        up_price: [0u16; Sheet::MAX_CABINETS],
        down_capacity: [0u16; Sheet::MAX_CABINETS],
        down_price: [0u16; Sheet::MAX_CABINETS],
        barred: [0u16; Sheet::MAX_CABINETS],
        joint: [false; MARKS],
        from: [0u16; Sheet::MAX_STREAMS],
        to: [0u16; Sheet::MAX_STREAMS],
        load: [0u16; Sheet::MAX_STREAMS],
    }
}

// The set x with service i.
fn with_service(x: u16, i: usize) -> u16
    requires { i < 16 }
    ensures { result ≡ bit_or x (2 ^ i) }
{
    x | (1u16 << i)
}

// Which cabinets are joints: those of capacity 0.
fn joints(capacity: &[u16; Sheet::MAX_CABINETS]) -> [bool; MARKS]
    ensures { Jointed capacity.now max_cabinets result }
{
    let mut marks = [false; MARKS];
    for c in 0..Sheet::MAX_CABINETS {
        marks[c] = capacity[c] == 0;
    }
    marks
}

// The bytes of an accepted sheet, and what the reader says of them.
#[derive(Clone, Copy)]
pub(crate) struct Accepted<'a> {
    pub sheet: Sheet,
    pub bytes: &'a [u8],
    ghost accepted: { reading bytes.now ≡ Ok sheet },
}

impl Accepted<'_> {
    // All records of the sheet.
    pub(crate) fn records(&self) -> Records
        ensures { told result ≡ instance self.now.bytes.now }
    {
        let mut records = blank_records(
            self.sheet.services(),
            self.sheet.cabinets(),
            self.sheet.streams(),
        );
        self.load_services(&mut records);
        self.load_cabinets(&mut records);
        self.load_streams(&mut records);
        records.barred = self.barred_sets();
        records.joint = joints(&records.capacity);
        records
    }

    fn load_services(&self, records: &mut Records)
        requires loaded { Loading (instance self.now.bytes.now) 0 0 0 records.old }
        requires limit { self.now.sheet.services ≤ max_services }
        ensures { Loading (instance self.now.bytes.now) (instance self.now.bytes.now).r 0 0 records.new }
    {
        for i in 0..self.sheet.services() {
            let service = self.sheet.service(self.bytes, i).unwrap();
            records.demand[i] = service.demand as u16;
        }
    }

    fn load_cabinets(&self, records: &mut Records)
        requires loaded { Loading (instance self.now.bytes.now) (instance self.now.bytes.now).r 0 0 records.old }
        requires limit { self.now.sheet.cabinets ≤ max_cabinets }
        ensures { Loading (instance self.now.bytes.now) (instance self.now.bytes.now).r (instance self.now.bytes.now).s 0 records.new }
    {
        for c in 0..self.sheet.cabinets() {
            let k = self.sheet.cabinet(self.bytes, c).unwrap();
            records.parent[c] = k.parent as u16;
            records.capacity[c] = k.capacity as u16;
            records.price[c] = k.price as u16;
            records.up_capacity[c] = k.up_capacity as u16;
            records.up_price[c] = k.up_price as u16;
            records.down_capacity[c] = k.down_capacity as u16;
            records.down_price[c] = k.down_price as u16;
        }
    }

    fn load_streams(&self, records: &mut Records)
        requires loaded { Loading (instance self.now.bytes.now) (instance self.now.bytes.now).r (instance self.now.bytes.now).s 0 records.old }
        requires limit { self.now.sheet.streams ≤ max_streams }
        ensures { Loading (instance self.now.bytes.now) (instance self.now.bytes.now).r (instance self.now.bytes.now).s (instance self.now.bytes.now).q
            records.new }
    {
        for j in 0..self.sheet.streams() {
            let stream = self.sheet.stream(self.bytes, j).unwrap();
            records.from[j] = stream.from as u16;
            records.to[j] = stream.to as u16;
            records.load[j] = stream.demand as u16;
        }
    }

    // The services barred from each cabinet: those that some pair names with it.
    fn barred_sets(&self) -> [u16; Sheet::MAX_CABINETS]
        ensures { Barring self.now.sheet self.now.bytes.now self.now.sheet.pairs result }
    {
        let mut sets = [0u16; Sheet::MAX_CABINETS];
        for n in 0..self.sheet.pairs() {
            let pair = self.sheet.pair(self.bytes, n).unwrap();
            let c = pair.cabinet;
            sets[c] = with_service(sets[c], pair.service);
        }
        sets
    }
}
