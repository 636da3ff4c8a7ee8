// Where the four blocks lie: the conditions of refusals 4, 5 and 18. A block is told by its start and its size, as `outside` and `share` take it.
ghost use Rattle.std.specs.Prelude.{◌≡◌, ◌+◌, ◌<◌, ◌^◌, length};
ghost use Rattle.sheet.specs.Conditions.{outside, some_block_outside, share, some_blocks_share, shared_by_pairs, pairs_block_wrong};

use crate::Sheet;
use crate::draft::Draft;

// The block starts in the header or ends past the length.
#[tactic(auto, unfolding(crate::specs::Conditions::outside))]
fn is_outside(len: usize, at: usize, size: usize) -> bool
    requires { at + size < 2 ^ 64 }
    ensures { result ≡ outside len at size }
{
    at < Sheet::HEADER || len < at + size
}

// Two blocks share a byte: the later one has a byte, and starts before the earlier one ends.
#[tactic(auto, using(crate::proofs::Sharing::share_first, crate::proofs::Sharing::share_second))]
fn do_share(a: usize, m: usize, b: usize, n: usize) -> bool
    ensures { result ≡ share a m b n }
{
    if a <= b {
        return n != 0 && b - a < m;
    }
    m != 0 && a - b < n
}

impl Draft<'_> {
    // Refusal 4.
    #[tactic(auto, unfolding(crate::specs::Conditions::some_block_outside))]
    pub(crate) fn any_outside(&self) -> bool
        ensures { result ≡ some_block_outside self.now.sheet (length self.now.bytes.now) }
    {
        let Draft { bytes, sheet } = *self;
        let len = bytes.len();
        let x = is_outside(len, sheet.services_at, Sheet::SERVICE * sheet.services);
        let y = is_outside(len, sheet.cabinets_at, Sheet::CABINET * sheet.cabinets);
        let z = is_outside(len, sheet.streams_at, Sheet::STREAM * sheet.streams);
        x || y || z
    }

    // Refusal 5.
    #[tactic(auto, unfolding(crate::specs::Conditions::some_blocks_share))]
    pub(crate) fn any_share(&self) -> bool
        ensures { result ≡ some_blocks_share self.now.sheet }
    {
        let sheet = self.sheet;
        let services = Sheet::SERVICE * sheet.services;
        let cabinets = Sheet::CABINET * sheet.cabinets;
        let streams = Sheet::STREAM * sheet.streams;
        let x = do_share(sheet.services_at, services, sheet.cabinets_at, cabinets);
        let y = do_share(sheet.services_at, services, sheet.streams_at, streams);
        let z = do_share(sheet.cabinets_at, cabinets, sheet.streams_at, streams);
        x || y || z
    }

    // The fourth block shares a byte with one of the others.
    #[tactic(auto, unfolding(crate::specs::Conditions::shared_by_pairs))]
    fn do_pairs_share(&self) -> bool
        ensures { result ≡ shared_by_pairs self.now.sheet }
    {
        let sheet = self.sheet;
        let services = Sheet::SERVICE * sheet.services;
        let cabinets = Sheet::CABINET * sheet.cabinets;
        let streams = Sheet::STREAM * sheet.streams;
        let pairs = Sheet::COUNT + Sheet::PAIR * sheet.pairs;
        let x = do_share(sheet.services_at, services, sheet.pairs_at, pairs);
        let y = do_share(sheet.cabinets_at, cabinets, sheet.pairs_at, pairs);
        let z = do_share(sheet.streams_at, streams, sheet.pairs_at, pairs);
        x || y || z
    }

    // Refusal 18.
    #[tactic(auto, unfolding(crate::specs::Conditions::pairs_block_wrong))]
    pub(crate) fn is_pairs_block_wrong(&self) -> bool
        ensures { result ≡ pairs_block_wrong self.now.sheet (length self.now.bytes.now) }
    {
        let Draft { bytes, sheet } = *self;
        if sheet.pairs_at == 0 {
            return false;
        }
        let size = Sheet::COUNT + Sheet::PAIR * sheet.pairs;
        let x = is_outside(bytes.len(), sheet.pairs_at, size);
        let y = self.do_pairs_share();
        x || Sheet::MAX_PAIRS < sheet.pairs || y
    }
}
