// The reader of planning sheets: any bytes get the counts and records of a sheet, or one refusal.
#![tactic(auto)]

ghost use Rattle.std.specs.Prelude.{◌≡◌};
ghost use Rattle.sheet.specs.Reading.{reading};
ghost use Rattle.sheet.specs.Records.{service_record, cabinet_record, stream_record, pair_record};
ghost use Rattle.sheet.specs.Refusals.{number_of, group_of};

mod blocks; // blocks.rt: where the four blocks lie
mod conditions; // conditions.rt: the limits, and the conditions of refusals 6 to 9 and 19 over all records
mod draft; // draft.rt: a sheet that is being read, and refusals 4 to 9, 18 and 19 in their order
mod records; // records.rt: words, the header, and one record of a block

use conditions::is_beyond_limits;
use draft::Draft;
use records::{is_there, read_cabinet, read_header, read_pair, read_service, read_stream, word};

// Who can cause a refusal, with the refusal's number. 01 gives refusals this form; a number in another group than its own can be said, and is refused
// (the edits `wrong_group` and `group_of_23`).
#[derive(Clone, Copy, PartialEq, Eq)]
pub enum Refusal {
    SheetWriter(u16),
    Lender(u16),
    Road(u16),
    PlanWriter(u16),
}

// An accepted sheet: what the record calls need to find a record in its bytes.
#[derive(Clone, Copy)]
pub struct Sheet {
    services: usize,
    cabinets: usize,
    streams: usize,
    services_at: usize,
    cabinets_at: usize,
    streams_at: usize,
    pairs: usize,
    pairs_at: usize,
}

#[derive(Clone, Copy)]
pub struct Service {
    pub demand: u64,
}

// "Up" runs from the cabinet to its parent, "down" from the parent to it.
#[derive(Clone, Copy)]
pub struct Cabinet {
    pub parent: usize,
    pub capacity: u64,
    pub price: u64,
    pub up_capacity: u64,
    pub up_price: u64,
    pub down_capacity: u64,
    pub down_price: u64,
}

// From one service to another.
#[derive(Clone, Copy)]
pub struct Stream {
    pub from: usize,
    pub to: usize,
    pub demand: u64,
}

// The service is barred from the cabinet.
#[derive(Clone, Copy)]
pub struct Pair {
    pub service: usize,
    pub cabinet: usize,
}

// Reads a sheet: accepted exactly when no refusal applies, else refused with the first that applies. Here 1 to 3.
#[tactic(auto, unfolding(crate::specs::Reading::reading, crate::specs::Reading::rules, crate::specs::Reading::answered, crate::specs::Refusals::first_applying, crate::specs::Refusals::refusal), using(crate::proofs::Passed::bounded))]
pub fn read(bytes: &[u8]) -> Result<Sheet, Refusal>
    ensures { result ≡ reading bytes.now }
{
    if bytes.len() < Sheet::HEADER {
        return Err(Refusal::TOO_SHORT);
    }
    let sheet = read_header(bytes);
    if is_beyond_limits(sheet) {
        return Err(Refusal::BEYOND_LIMITS);
    }
    if usize::from(word(bytes, 12)) != bytes.len() {
        return Err(Refusal::WRONG_LENGTH);
    }
    Draft { bytes, sheet }.read_blocks()
}

impl Refusal {
    // Fewer bytes than a header has.
    pub const TOO_SHORT: Refusal = Refusal::SheetWriter(1);

    // Services, cabinets or streams outside their limits.
    pub const BEYOND_LIMITS: Refusal = Refusal::SheetWriter(2);

    // The length word is not the sheet's length.
    pub const WRONG_LENGTH: Refusal = Refusal::SheetWriter(3);

    // A block starts in the header or ends past the length.
    pub const BLOCK_OUTSIDE: Refusal = Refusal::SheetWriter(4);

    // Two blocks share a byte.
    pub const BLOCKS_SHARE: Refusal = Refusal::SheetWriter(5);

    // A demand, capacity or price above its limit.
    pub const AMOUNT_TOO_HIGH: Refusal = Refusal::SheetWriter(6);

    // The root has a parent, or another cabinet's has no smaller number.
    pub const WRONG_PARENT: Refusal = Refusal::SheetWriter(7);

    // A stream ends at no service, or where it starts.
    pub const WRONG_ENDS: Refusal = Refusal::SheetWriter(8);

    // The root has a link.
    pub const ROOT_LINKED: Refusal = Refusal::SheetWriter(9);

    // The block of pairs lies wrong or has too many.
    pub const WRONG_PAIRS_BLOCK: Refusal = Refusal::SheetWriter(18);

    // A pair names no service or no cabinet.
    pub const WRONG_PAIR: Refusal = Refusal::SheetWriter(19);

    // The output has too few places.
    pub const SHORT_OUTPUT: Refusal = Refusal::Lender(10);

    // The span has too few entries.
    pub const SHORT_SPAN: Refusal = Refusal::Lender(11);

    // The output is too short for the copy.
    pub const SHORT_COPY: Refusal = Refusal::Lender(21);

    // A tariff beyond its limits, or too few places for the lines.
    pub const UNFIT_BILL: Refusal = Refusal::Lender(22);

    // The span ends past a table.
    pub const SPAN_OUTSIDE: Refusal = Refusal::Lender(24);

    // No plan is valid.
    pub const NO_PLAN: Refusal = Refusal::Road(12);

    // The plan has not one place for each service.
    pub const WRONG_PLACES: Refusal = Refusal::PlanWriter(13);

    // There is no such cabinet.
    pub const NO_SUCH_CABINET: Refusal = Refusal::PlanWriter(14);

    // A cabinet is overfull, or a joint holds a service.
    pub const OVERFULL_CABINET: Refusal = Refusal::PlanWriter(15);

    // A link direction is overfull.
    pub const OVERFULL_LINK: Refusal = Refusal::PlanWriter(16);

    // A service is on a cabinet that it is barred from.
    pub const BARRED_PLACE: Refusal = Refusal::PlanWriter(20);

    // The tables are not those of such a sheet.
    pub const NOT_ACCEPTED: Refusal = Refusal::PlanWriter(23);

    pub fn number(self) -> u16
        ensures { result ≡ number_of self }
    {
        match self {
            Refusal::SheetWriter(n) => n,
            Refusal::Lender(n) => n,
            Refusal::Road(n) => n,
            Refusal::PlanWriter(n) => n,
        }
    }

    // 1 to 4, in the order of the groups above.
    pub fn group(self) -> u64
        ensures { result ≡ group_of self }
    {
        match self {
            Refusal::SheetWriter(_) => 1,
            Refusal::Lender(_) => 2,
            Refusal::Road(_) => 3,
            Refusal::PlanWriter(_) => 4,
        }
    }
}

impl Sheet {
    pub const MAX_SERVICES: usize = 10;

    pub const MAX_CABINETS: usize = 200;

    pub const MAX_STREAMS: usize = 100;

    pub const MAX_PAIRS: usize = 2000;

    pub const MAX_AMOUNT: u64 = 10000;

    // Bytes of the header, and of one record of each kind.
    pub const HEADER: usize = 16;

    pub const SERVICE: usize = 2;

    pub const CABINET: usize = 14;

    pub const STREAM: usize = 6;

    pub const PAIR: usize = 4;

    // Bytes of the count before the pairs.
    pub const COUNT: usize = 2;

    pub fn services(self) -> usize
        ensures { result ≡ self.services }
    {
        self.services
    }

    pub fn cabinets(self) -> usize
        ensures { result ≡ self.cabinets }
    {
        self.cabinets
    }

    pub fn streams(self) -> usize
        ensures { result ≡ self.streams }
    {
        self.streams
    }

    pub fn pairs(self) -> usize
        ensures { result ≡ self.pairs }
    {
        self.pairs
    }

    // Service i; nothing where the sheet has none, or the bytes end before it does. A call for each kind of record and no generic one: each has a
    // contract of its own, and C calls each by its name.
    #[tactic(auto, unfolding(crate::specs::Records::service_record, crate::specs::Layout::service), using(crate::proofs::There::there_fits))]
    pub fn service(self, bytes: &[u8], i: usize) -> Option<Service>
        ensures { result ≡ service_record self bytes.now i }
    {
        let at = self.services_at;
        if !is_there(self.services, Sheet::SERVICE, at, bytes.len(), i) {
            return None;
        }
        Some(read_service(&bytes[at..], i))
    }

    // Cabinet c, in the same way.
    #[tactic(auto, unfolding(crate::specs::Records::cabinet_record, crate::specs::Layout::cabinet), using(crate::proofs::There::there_fits))]
    pub fn cabinet(self, bytes: &[u8], c: usize) -> Option<Cabinet>
        ensures { result ≡ cabinet_record self bytes.now c }
    {
        let at = self.cabinets_at;
        if !is_there(self.cabinets, Sheet::CABINET, at, bytes.len(), c) {
            return None;
        }
        Some(read_cabinet(&bytes[at..], c))
    }

    // Stream j, in the same way.
    #[tactic(auto, unfolding(crate::specs::Records::stream_record, crate::specs::Layout::stream), using(crate::proofs::There::there_fits))]
    pub fn stream(self, bytes: &[u8], j: usize) -> Option<Stream>
        ensures { result ≡ stream_record self bytes.now j }
    {
        let at = self.streams_at;
        if !is_there(self.streams, Sheet::STREAM, at, bytes.len(), j) {
            return None;
        }
        Some(read_stream(&bytes[at..], j))
    }

    // Barred pair n, in the same way.
    #[tactic(auto, unfolding(crate::specs::Records::pair_record, crate::specs::Layout::pair), using(crate::proofs::There::there_fits, crate::proofs::There::none_past))]
    pub fn pair(self, bytes: &[u8], n: usize) -> Option<Pair>
        ensures { result ≡ pair_record self bytes.now n }
    {
        let at = self.pairs_at;
        if bytes.len() < at {
            return None;
        }
        if !is_there(self.pairs, Sheet::PAIR, Sheet::COUNT, bytes.len() - at, n) {
            return None;
        }
        Some(read_pair(&bytes[at..], n))
    }
}
