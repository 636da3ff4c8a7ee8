// Words, the header, and one record of a block. A block is the part of the sheet that starts at its offset.
ghost use Rattle.std.specs.Prelude.{◌≡◌, ◌+◌, ◌*◌, ◌≤◌, ◌<◌, length};
ghost use Rattle.sheet.specs.Records.{there};
ghost use Rattle.sheet.specs.Layout.{word_at, header_size, pairs_count, header, service_in, cabinet_in, stream_in, pair_in};

use crate::{Cabinet, Pair, Service, Sheet, Stream};

// The 16-bit word that starts at a byte.
pub(crate) fn word(part: &[u8], at: usize) -> u16
    requires { at + 1 < length part.now }
    ensures { result ≡ word_at part.now at }
{
    u16::from_le_bytes([part[at], part[at + 1]])
}

// The count that the fourth block starts with, 0 where there is none or it does not lie within the bytes.
#[tactic(auto, unfolding(crate::specs::Layout::pairs_count, finite::specs::Below::only))]
fn read_count(bytes: &[u8], at: usize) -> usize
    requires { at < 65536 }
    ensures { (result ≡ pairs_count at bytes.now) × (result < 65536) }
{
    if at == 0 {
        return 0;
    }
    if bytes.len() < at + Sheet::COUNT {
        return 0;
    }
    usize::from(word(&bytes[at..], 0))
}

// The counts and the offsets.
#[tactic(auto, unfolding(crate::specs::Layout::header))]
pub(crate) fn read_header(bytes: &[u8]) -> Sheet
    requires { header_size ≤ length bytes.now }
    ensures { (result ≡ header bytes.now) × (result.services_at < 65536) × (result.cabinets_at < 65536) × (result.streams_at < 65536) × (result.pairs < 65536) × (result.pairs_at < 65536) }
{
    let pairs_at = usize::from(word(bytes, 14));
    let pairs = read_count(bytes, pairs_at);
    Sheet {
        services: usize::from(word(bytes, 0)),
        cabinets: usize::from(word(bytes, 2)),
        streams: usize::from(word(bytes, 4)),
        services_at: usize::from(word(bytes, 6)),
        cabinets_at: usize::from(word(bytes, 8)),
        streams_at: usize::from(word(bytes, 10)),
        pairs,
        pairs_at,
    }
}

#[tactic(auto, unfolding(crate::specs::Layout::service_in))]
pub(crate) fn read_service(block: &[u8], i: usize) -> Service
    requires { 2 * i + 2 ≤ length block.now }
    ensures { result ≡ service_in block.now i }
{
    Service {
        demand: u64::from(word(block, Sheet::SERVICE * i)),
    }
}

#[tactic(auto, unfolding(crate::specs::Layout::cabinet_in))]
pub(crate) fn read_cabinet(block: &[u8], c: usize) -> Cabinet
    requires { 14 * c + 14 ≤ length block.now }
    ensures { result ≡ cabinet_in block.now c }
{
    let at = Sheet::CABINET * c;
    Cabinet {
        parent: usize::from(word(block, at)),
        capacity: u64::from(word(block, at + 2)),
        price: u64::from(word(block, at + 4)),
        up_capacity: u64::from(word(block, at + 6)),
        up_price: u64::from(word(block, at + 8)),
        down_capacity: u64::from(word(block, at + 10)),
        down_price: u64::from(word(block, at + 12)),
    }
}

#[tactic(auto, unfolding(crate::specs::Layout::stream_in))]
pub(crate) fn read_stream(block: &[u8], j: usize) -> Stream
    requires { 6 * j + 6 ≤ length block.now }
    ensures { result ≡ stream_in block.now j }
{
    let at = Sheet::STREAM * j;
    Stream {
        from: usize::from(word(block, at)),
        to: usize::from(word(block, at + 2)),
        demand: u64::from(word(block, at + 4)),
    }
}

#[tactic(auto, unfolding(crate::specs::Layout::pair_in))]
pub(crate) fn read_pair(block: &[u8], n: usize) -> Pair
    requires { 4 * n + 6 ≤ length block.now }
    ensures { result ≡ pair_in block.now n }
{
    let at = Sheet::PAIR * n;
    Pair {
        service: usize::from(word(block, at + 2)),
        cabinet: usize::from(word(block, at + 4)),
    }
}

// Record i of so many of a size is there: its number is in the block, and it ends within the bytes.
#[tactic(auto, unfolding(crate::specs::Records::there), using(crate::proofs::There::past_end, crate::proofs::There::ends_within))]
pub(crate) fn is_there(count: usize, size: usize, at: usize, len: usize, i: usize) -> bool
    requires { 0 < size }
    ensures { result ≡ there count size at len i }
{
    if count <= i {
        return false;
    }
    if len < at {
        return false;
    }
    i < (len - at) / size
}
