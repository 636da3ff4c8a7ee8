// The records of a sheet in arrays of 16-bit numbers, for check and planner alike.
#![tactic(auto)]

ghost use Rattle.std.specs.Prelude.{◌≡◌, false, ltb, get_or, IfOk};
ghost use Rattle.finite.specs.Below.{only};
ghost use Rattle.subsets.specs.Sets.{has};
ghost use Rattle.sheet.specs.Instance.{instance};
ghost use Rattle.sheet.specs.Reading.{reading};
ghost use Rattle.sheet.specs.Inner.Fields.{service_of, cabinet_of, stream_of};
ghost use Rattle.records.specs.Told.{told, answer_of};

use sheet::{Cabinet, Refusal, Service, Sheet, Stream};
use subsets::member;

pub mod flows; // flows.rt: what runs through one direction of a link
mod loading; // loading.rt: the records of an accepted sheet, read into arrays

use loading::Accepted;

// Places for marks of cabinets, more than cabinets: records are lent, and copied only where `load` answers and where the planner keeps them in what
// it prepares; some processors are slow at copies between places a little less than 4,096 bytes apart, and with so many marks records take more.
pub const MARKS: usize = 256;

// The records of a road and of a request; fields past the counts mean nothing. An array for each field and not one of structs: a copy's blocks, the
// tests of the limits and the lists of children read one field of all records, each by one function for every field. The services barred from a
// cabinet are a set: service i is barred where digit i of the number is 1. Whether a cabinet is a joint stands apart from its capacity.
#[derive(Clone, Copy)]
pub struct Records {
    pub services: usize,
    pub cabinets: usize,
    pub streams: usize,
    pub demand: [u16; Sheet::MAX_SERVICES],
    pub parent: [u16; Sheet::MAX_CABINETS],
    pub capacity: [u16; Sheet::MAX_CABINETS],
    pub price: [u16; Sheet::MAX_CABINETS],
    pub up_capacity: [u16; Sheet::MAX_CABINETS],
    pub up_price: [u16; Sheet::MAX_CABINETS],
    pub down_capacity: [u16; Sheet::MAX_CABINETS],
    pub down_price: [u16; Sheet::MAX_CABINETS],
    pub barred: [u16; Sheet::MAX_CABINETS],
    pub joint: [bool; MARKS],
    pub from: [u16; Sheet::MAX_STREAMS],
    pub to: [u16; Sheet::MAX_STREAMS],
    pub load: [u16; Sheet::MAX_STREAMS],
}

// An accepted sheet, with its records.
#[derive(Clone, Copy)]
pub struct Loaded {
    pub sheet: Sheet,
    pub records: Records,
}

// Reads a sheet, and loads its records.
pub fn load(bytes: &[u8]) -> Result<Loaded, Refusal>
    ensures answer { answer_of result ≡ reading bytes.now }
    ensures records { IfOk result (λ loaded. told loaded.records ≡ instance bytes.now) }
{
    let sheet = sheet::read(bytes)?;
    Ok(Loaded {
        sheet,
        records: Accepted { sheet, bytes }.records(),
    })
}

// Field i of so many records; 0 where there is no such record. For a loop, which lends it the one array that it reads.
#[tactic(auto, unfolding(finite::specs::Below::only))]
pub fn field(column: &[u16], count: usize, i: usize) -> u16
    ensures { result ≡ only (ltb i count) (get_or column.now i 0) }
{
    if count <= i {
        return 0;
    }
    column.get(i).copied().unwrap_or(0)
}

// Whether service i is in the set of cabinet c, of so many cabinets; not where there is no such cabinet. For a loop, in the same way.
pub fn is_in_set(sets: &[u16], count: usize, c: usize, i: usize) -> bool
    ensures { result ≡ has (only (ltb c count) (get_or sets.now c 0)) i }
{
    member(usize::from(field(sets, count, c)), i)
}

// Whether number i is marked; none past the marks is.
pub fn is_marked(marks: &[bool], i: usize) -> bool
    ensures { result ≡ get_or marks.now i false }
{
    marks.get(i).copied().unwrap_or(false)
}

impl Records {
    // Service i; zeros where there is none.
    #[tactic(auto, unfolding(crate::specs::Told::told))]
    pub fn service(&self, i: usize) -> Service
        ensures { result ≡ service_of (told self.now) i }
    {
        Service {
            demand: u64::from(field(&self.demand, self.services, i)),
        }
    }

    // Cabinet c; zeros where there is none.
    #[tactic(auto, unfolding(crate::specs::Told::told))]
    pub fn cabinet(&self, c: usize) -> Cabinet
        ensures { result ≡ cabinet_of (told self.now) c }
    {
        let n = self.cabinets;
        Cabinet {
            parent: usize::from(field(&self.parent, n, c)),
            capacity: u64::from(field(&self.capacity, n, c)),
            price: u64::from(field(&self.price, n, c)),
            up_capacity: u64::from(field(&self.up_capacity, n, c)),
            up_price: u64::from(field(&self.up_price, n, c)),
            down_capacity: u64::from(field(&self.down_capacity, n, c)),
            down_price: u64::from(field(&self.down_price, n, c)),
        }
    }

    // Stream j; zeros where there is none.
    #[tactic(auto, unfolding(crate::specs::Told::told))]
    pub fn stream(&self, j: usize) -> Stream
        ensures { result ≡ stream_of (told self.now) j }
    {
        let n = self.streams;
        Stream {
            from: usize::from(field(&self.from, n, j)),
            to: usize::from(field(&self.to, n, j)),
            demand: u64::from(field(&self.load, n, j)),
        }
    }

    // Whether service i is barred from cabinet c; not where either isn't there.
    pub fn is_barred(&self, i: usize, c: usize) -> bool
        ensures { result ≡ (told self.now).barred i c }
    {
        if self.services <= i {
            return false;
        }
        is_in_set(&self.barred, self.cabinets, c, i)
    }

    // Whether cabinet c is a joint; not where it isn't there.
    #[tactic(auto, unfolding(crate::specs::Told::told))]
    pub fn is_joint(&self, c: usize) -> bool
        ensures { result ≡ (told self.now).joint c }
    {
        if self.cabinets <= c {
            return false;
        }
        is_marked(&self.joint, c)
    }
}
