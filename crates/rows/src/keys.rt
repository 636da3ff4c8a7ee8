// Keys of placings: the weights of sets, and the keys of a cabinet alone and of a child with all under it.
ghost use Rattle.std.specs.Prelude.{◌≡◌, ℕ, ◌+◌, ◌^◌, ◌≤◌, ◌<◌, length};
ghost use Rattle.subsets.specs.Inner.Folds.{plus};
ghost use Rattle.subsets.specs.Inner.Net.{Net};
ghost use Rattle.subsets.specs.Inner.Keys.{key_parts};
ghost use Rattle.sheet.specs.Limits.{max_services, max_cabinets};
ghost use Rattle.rows.specs.Keys.{base, low_digits, key_in, weight_key, weight_at, service_weight, set_weight, times_key};
ghost use Rattle.rows.specs.Joins.{Addable};
ghost use Rattle.rows.specs.Reads.{Weighted, Reads, Started};
ghost use Rattle.rows.specs.Rebuilds.{entry};

use crate::children::Children;
use crate::{LOW_DIGITS, NO_KEY};
use sheet::Sheet;
use subsets::{Key, member};

// The sum of two keys, part by part.
pub(crate) fn plus(first: Key, second: Key) -> Key
    requires { Addable first × Addable second }
    ensures { result ≡ plus first second }
{
    Key {
        high: first.high + second.high,
        low: first.low + second.low,
    }
}

// A power of the base, which is no less than the number of cabinets.
#[tactic(auto, using(crate::proofs::Weighing::power_le))]
fn power(exponent: usize) -> u64
    requires { exponent < low_digits }
    ensures { result ≡ base ^ exponent }
{
    (Sheet::MAX_CABINETS as u64).pow(exponent as u32)
}

// The weight of service i of r: service 0 has the first digit.
#[tactic(auto, using(crate::proofs::Weighing::near_weight, crate::proofs::Weighing::far_weight))]
fn weight_of(r: usize, i: usize) -> Key
    requires { (i < r) × (r ≤ max_services) }
    ensures { result ≡ service_weight r i }
{
    let exponent = r - 1 - i;
    if exponent < LOW_DIGITS {
        return Key {
            high: 0,
            low: power(exponent),
        };
    }
    Key {
        high: power(exponent - LOW_DIGITS),
        low: 0,
    }
}

// The weight of the services of x.
fn weight_in(r: usize, x: usize) -> Key
    requires { r ≤ max_services }
    ensures { result ≡ set_weight r x }
{
    let mut sum = NO_KEY;
    for i in 0..r {
        if member(x, i) {
            sum = plus(sum, weight_of(r, i));
        }
    }
    sum
}

// The weight of a set: its services' key where all are on cabinet 1. Its parts have 32 bits and not a key's 64, since the list of them is cleared at each
// call: with 64, filling tables of 40 rows for 4 services took 8 in 100 longer.
#[derive(Clone, Copy)]
pub(crate) struct Weight {
    high: u32,
    low: u32,
}

impl Weight {
    // The weight of no service.
    pub(crate) const NONE: Weight = Weight { high: 0, low: 0 };

    // The key of the set where all its services are on cabinet n.
    fn times(self, n: usize) -> Key
        requires { n < max_cabinets }
        ensures { result ≡ times_key (weight_key self) n }
    {
        Key {
            high: u64::from(self.high) * n as u64,
            low: u64::from(self.low) * n as u64,
        }
    }
}

// The weights of all sets below size.
#[tactic(auto, using(crate::proofs::Weighing::set_weight_le))]
pub(crate) fn weigh_sets(weights: &mut [Weight], r: usize, size: usize)
    requires { (r ≤ max_services) × (size ≤ length weights.old) }
    ensures { Weighted r size weights.new }
{
    for x in 0..size {
        let key = weight_in(r, x);
        weights[x] = Weight {
            high: key.high as u32,
            low: key.low as u32,
        };
    }
}

// The keys of cabinet p alone: each set's weight, p times over.
pub(crate) fn own_keys(keys: &mut [Key], weights: &[Weight], p: usize)
    requires { (length keys.old ≤ length weights.now) × (p < max_cabinets) }
    ensures { (x : ℕ) → x < length keys.old → key_in keys.new x ≡ times_key (weight_at weights.now x) p }
{
    for (x, key) in keys.iter_mut().enumerate() {
        *key = weights[x].times(p);
    }
}

// What keys are read back from: the choices, a row of `size` entries a cabinet; the children as lists; and the weight of each set.
#[derive(Clone, Copy)]
pub(crate) struct Placings<'a> {
    pub(crate) choices: &'a [u16],
    pub(crate) children: &'a Children,
    pub(crate) weights: &'a [Weight],
    pub(crate) size: usize,
}

impl<'a> Placings<'a> {
    // The key of the placing that the choices name for x on p, those of its children that the list from c on has, and all cabinets under these. Each
    // child takes those that its entry does not keep: where there are none it is passed, where there is nothing else the walk goes on under it, and
    // else those kept are read for themselves.
    pub(crate) fn key(&self, p: usize, c: usize, x: usize) -> Key
        requires { (N : Net) × (k : ℕ) × Reads N self.now × Started N self.now.size k p c x }
        ensures { (N : Net) (k : ℕ) → Reads N self.now → Started N self.now.size k p c x
            → result ≡ key_parts base low_digits N (entry self.now.size self.now.choices.now) p k x }
    {
        let mut sum = NO_KEY;
        let mut here = p;
        let mut next = c;
        let mut set = x;
        while 0 < next {
            let child = next;
            let stays = usize::from(self.choices[child * self.size + set]) & set;
            let rest = set - stays;
            if rest == 0 {
                next = usize::from(self.children.prior[child]);
                continue;
            }
            if stays == 0 {
                here = child;
                next = usize::from(self.children.last[child]);
                set = rest;
                continue;
            }
            let sibling = usize::from(self.children.prior[child]);
            let part = self.key(here, sibling, stays);
            sum = plus(sum, part);
            here = child;
            next = usize::from(self.children.last[child]);
            set = rest;
        }
        plus(sum, self.weights[set].times(here))
    }

    // The keys of all sets on c and all cabinets under it, as the choices name them.
    pub(crate) fn write_keys(&self, keys: &mut [Key], c: usize)
        requires { (N : Net) × Reads N self.now × (c < N.s) × (self.now.size ≤ length keys.old) }
        ensures { (N : Net) → Reads N self.now → c < N.s → (x : ℕ) → x < self.now.size
            → key_in keys.new x ≡ key_parts base low_digits N (entry self.now.size self.now.choices.now) c N.s x }
    {
        let child = usize::from(self.children.last[c]);
        for x in 0..self.size {
            keys[x] = self.key(c, child, x);
        }
    }
}
