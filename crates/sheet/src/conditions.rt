// Refusals 2, 6 to 9 and 19: limits, and the conditions on records over a whole block.
ghost use Rattle.std.specs.Prelude.{◌≡◌, length};
ghost use Rattle.sheet.specs.Inner.Within.{PairsInside};
ghost use Rattle.sheet.specs.Conditions.{beyond_limits, cabinet_too_high, some_amount_too_high, wrong_parent, some_parent_wrong, wrong_ends, some_ends_wrong, linked, root_linked, wrong_pair, some_pair_wrong};

use crate::draft::{Blocks, Draft};
use crate::records::{read_cabinet, read_pair, read_service, read_stream};
use crate::{Cabinet, Pair, Sheet, Stream};

#[tactic(auto, unfolding(crate::specs::Conditions::cabinet_too_high))]
fn is_cabinet_too_high(k: Cabinet) -> bool
    ensures { result ≡ cabinet_too_high k }
{
    Sheet::MAX_AMOUNT < k.capacity
        || Sheet::MAX_AMOUNT < k.price
        || Sheet::MAX_AMOUNT < k.up_capacity
        || Sheet::MAX_AMOUNT < k.up_price
        || Sheet::MAX_AMOUNT < k.down_capacity
        || Sheet::MAX_AMOUNT < k.down_price
}

#[tactic(auto, unfolding(crate::specs::Conditions::wrong_parent))]
fn is_wrong_parent(c: usize, k: Cabinet) -> bool
    ensures { result ≡ wrong_parent c k }
{
    if c == 0 {
        return k.parent != 65535;
    }
    c <= k.parent
}

#[tactic(auto, unfolding(crate::specs::Conditions::wrong_ends))]
fn are_wrong_ends(services: usize, t: Stream) -> bool
    ensures { result ≡ wrong_ends services t }
{
    services <= t.from || services <= t.to || t.from == t.to
}

#[tactic(auto, unfolding(crate::specs::Conditions::linked))]
fn is_linked(k: Cabinet) -> bool
    ensures { result ≡ linked k }
{
    k.up_capacity != 0 || k.up_price != 0 || k.down_capacity != 0 || k.down_price != 0
}

#[tactic(auto, unfolding(crate::specs::Conditions::wrong_pair))]
fn is_wrong_pair(services: usize, cabinets: usize, p: Pair) -> bool
    ensures { result ≡ wrong_pair services cabinets p }
{
    services <= p.service || cabinets <= p.cabinet
}

// Refusal 2.
#[tactic(auto, unfolding(crate::specs::Conditions::beyond_limits))]
pub(crate) fn is_beyond_limits(sheet: Sheet) -> bool
    ensures { result ≡ beyond_limits sheet }
{
    Sheet::MAX_SERVICES < sheet.services
        || sheet.cabinets < 1
        || Sheet::MAX_CABINETS < sheet.cabinets
        || Sheet::MAX_STREAMS < sheet.streams
}

impl Blocks<'_> {
    // Refusal 6. Each block is read as the part of the sheet that starts at its offset.
    pub(crate) fn is_amount_too_high(&self) -> bool
        ensures { result ≡ some_amount_too_high self.now.draft.sheet self.now.draft.bytes.now }
    {
        let Draft { bytes, sheet } = self.draft;
        let services = &bytes[sheet.services_at..];
        let cabinets = &bytes[sheet.cabinets_at..];
        let streams = &bytes[sheet.streams_at..];
        let x = (0..sheet.services).any(|i| Sheet::MAX_AMOUNT < read_service(services, i).demand);
        let y = (0..sheet.cabinets).any(|c| is_cabinet_too_high(read_cabinet(cabinets, c)));
        let z = (0..sheet.streams).any(|j| Sheet::MAX_AMOUNT < read_stream(streams, j).demand);
        x || y || z
    }

    // Refusal 7.
    pub(crate) fn is_parent_wrong(&self) -> bool
        ensures { result ≡ some_parent_wrong self.now.draft.sheet self.now.draft.bytes.now }
    {
        let Draft { bytes, sheet } = self.draft;
        let cabinets = &bytes[sheet.cabinets_at..];
        (0..sheet.cabinets).any(|c| is_wrong_parent(c, read_cabinet(cabinets, c)))
    }

    // Refusal 8.
    pub(crate) fn is_end_wrong(&self) -> bool
        ensures { result ≡ some_ends_wrong self.now.draft.sheet self.now.draft.bytes.now }
    {
        let Draft { bytes, sheet } = self.draft;
        let streams = &bytes[sheet.streams_at..];
        (0..sheet.streams).any(|j| are_wrong_ends(sheet.services, read_stream(streams, j)))
    }

    // Refusal 9.
    #[tactic(auto, unfolding(crate::specs::Conditions::root_linked, crate::specs::Layout::cabinet))]
    pub(crate) fn is_root_linked(&self) -> bool
        ensures { result ≡ root_linked self.now.draft.sheet self.now.draft.bytes.now }
    {
        let Draft { bytes, sheet } = self.draft;
        is_linked(read_cabinet(&bytes[sheet.cabinets_at..], 0))
    }
}

impl Draft<'_> {
    // Refusal 19.
    pub(crate) fn is_pair_wrong(&self) -> bool
        requires { PairsInside self.now.sheet (length self.now.bytes.now) }
        ensures { result ≡ some_pair_wrong self.now.sheet self.now.bytes.now }
    {
        let Draft { bytes, sheet } = *self;
        let pairs = &bytes[sheet.pairs_at..];
        (0..sheet.pairs).any(|n| is_wrong_pair(sheet.services, sheet.cabinets, read_pair(pairs, n)))
    }
}
