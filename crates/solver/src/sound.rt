// Whether records are those of a tree within the limits.
ghost use Rattle.std.specs.Prelude.{◌≡◌, ◌≤◌, length};
ghost use Rattle.sheet.specs.Limits.{max_services, max_cabinets, max_streams};
ghost use Rattle.rows.specs.Cabinets as cabinets;
ghost use Rattle.solver.specs.Sound as sounds;

use records::Records;
use sheet::Sheet;

// The largest amount of a sheet.
const AMOUNT: u16 = Sheet::MAX_AMOUNT as u16;

// Whether the first n amounts are within the limit.
fn amounts(l: &[u16], n: usize) -> bool
    requires { n ≤ length l.now }
    ensures { result ≡ sounds.amounts n l.now }
{
    l[..n].iter().all(|amount| *amount <= AMOUNT)
}

// Whether each of the first n cabinets but the root has a parent of smaller number.
fn falling(parent: &[u16; Sheet::MAX_CABINETS], n: usize) -> bool
    requires { (1 ≤ n) × (n ≤ max_cabinets) }
    ensures { result ≡ cabinets.falling n parent.now }
{
    (1..n).all(|c| usize::from(parent[c]) < c)
}

// Whether a stream runs between two services below r.
#[tactic(auto, unfolding(crate::specs::Sound::between))]
fn between(r: usize, from: u16, to: u16) -> bool
    ensures { result ≡ sounds.between r from to }
{
    usize::from(from) < r && usize::from(to) < r && from != to
}

// Whether each of the first n streams does.
fn running<'a>(
    from: &'a [u16; Sheet::MAX_STREAMS],
    to: &'a [u16; Sheet::MAX_STREAMS],
    r: usize,
    n: usize,
) -> bool
    requires { n ≤ max_streams }
    ensures { result ≡ sounds.running r n from.now to.now }
{
    (0..n).all(|j| between(r, from[j], to[j]))
}

// Whether the root has no link.
#[tactic(auto, unfolding(crate::specs::Sound::rooted))]
fn rooted(records: &Records) -> bool
    ensures { result ≡ sounds.rooted records.now }
{
    records.up_capacity[0] == 0
        && records.up_price[0] == 0
        && records.down_capacity[0] == 0
        && records.down_price[0] == 0
}

// Whether all amounts of cabinets are within the limit.
#[tactic(auto, unfolding(crate::specs::Sound::cabinets_sound))]
fn cabinets_sound(records: &Records) -> bool
    requires { records.now.cabinets ≤ max_cabinets }
    ensures { result ≡ sounds.cabinets_sound records.now }
{
    let n = records.cabinets;
    amounts(&records.capacity, n)
        && amounts(&records.price, n)
        && amounts(&records.up_capacity, n)
        && amounts(&records.up_price, n)
        && amounts(&records.down_capacity, n)
        && amounts(&records.down_price, n)
}

// Whether all that the records hold is within the limits, where the counts are.
#[tactic(auto, unfolding(crate::specs::Sound::fields_sound))]
fn fields_sound(records: &Records) -> bool
    requires { (records.now.services ≤ max_services) × (1 ≤ records.now.cabinets) × (records.now.cabinets ≤ max_cabinets) × (records.now.streams ≤ max_streams) }
    ensures { result ≡ sounds.fields_sound records.now }
{
    let r = records.services;
    let q = records.streams;
    amounts(&records.demand, r)
        && falling(&records.parent, records.cabinets)
        && cabinets_sound(records)
        && amounts(&records.load, q)
        && running(&records.from, &records.to, r, q)
        && rooted(records)
}

// Whether the records are those of a tree within the limits.
#[tactic(auto, unfolding(crate::specs::Sound::sound))]
pub(crate) fn is_sound(records: &Records) -> bool
    ensures { result ≡ sounds.sound records.now }
{
    records.services <= Sheet::MAX_SERVICES
        && 1 <= records.cabinets
        && records.cabinets <= Sheet::MAX_CABINETS
        && records.streams <= Sheet::MAX_STREAMS
        && fields_sound(records)
}
