// Where the blocks of a copy start and end.
ghost use Rattle.std.specs.Prelude.{◌≡◌, ◌≤◌, ◌<◌};
ghost use Rattle.sheet.specs.Limits.{max_pairs};
ghost use Rattle.records.specs.Told.{told};
ghost use Rattle.tidy.specs.Copy.{cabinets_from, streams_from, streams_end, fourth_size, fourth_from, length_with};
ghost use Rattle.tidy.specs.Inner.Limited.{Limited};
ghost use Rattle.tidy.specs.Inner.Counted.{Counted};

use crate::pairs::count_pairs;
use records::Records;
use sheet::Sheet;

// The counts of a copy, within the limits of a sheet.
#[derive(Clone, Copy)]
pub(crate) struct Layout {
    pub services: usize,
    pub cabinets: usize,
    pub streams: usize,
    pub pairs: usize,
    ghost limited: { Limited services cabinets streams },
    ghost few_pairs: { pairs ≤ max_pairs },
}

impl Layout {
    // The counts of a copy of the records.
    pub(crate) fn of(records: &Records) -> Self
        requires { Limited (told records.now).r (told records.now).s (told records.now).q }
        ensures { Counted (told records.now) result.services result.cabinets result.streams result.pairs }
    {
        Layout {
            services: records.services,
            cabinets: records.cabinets,
            streams: records.streams,
            pairs: count_pairs(records),
        }
    }

    pub(crate) fn cabinets_from(&self) -> usize
        ensures { result ≡ cabinets_from self.now.services }
    {
        Sheet::HEADER + Sheet::SERVICE * self.services
    }

    pub(crate) fn streams_from(&self) -> usize
        ensures { result ≡ streams_from self.now.services self.now.cabinets }
    {
        self.cabinets_from() + Sheet::CABINET * self.cabinets
    }

    pub(crate) fn streams_end(&self) -> usize
        ensures { result ≡ streams_end self.now.services self.now.cabinets self.now.streams }
    {
        self.streams_from() + Sheet::STREAM * self.streams
    }

    // The bytes of the fourth block.
    fn fourth_size(&self) -> usize
        ensures { result ≡ fourth_size self.now.pairs }
    {
        if self.pairs == 0 {
            return 0;
        }
        Sheet::COUNT + Sheet::PAIR * self.pairs
    }

    // The eighth word.
    pub(crate) fn fourth_from(&self) -> usize
        ensures { result ≡ fourth_from self.now.services self.now.cabinets self.now.streams self.now.pairs }
    {
        if 0 < self.pairs {
            return self.streams_end();
        }
        0
    }

    // The length of a copy, which is a word.
    pub(crate) fn length(&self) -> usize
        ensures value { result ≡ length_with self.now.services self.now.cabinets self.now.streams self.now.pairs }
        ensures word { result < 65536 }
    {
        self.streams_end() + self.fourth_size()
    }
}
