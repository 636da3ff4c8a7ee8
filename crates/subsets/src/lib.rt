// Weighing a split, settling ties, the powers of three, and sets of services as the binary digits of a number.
#![tactic(auto)]

ghost use Rattle.std.specs.Prelude.{◌<◌, ◌^◌, ◌≡◌, ◌-◌, min, if◌then◌else◌, bit_and};
ghost use Rattle.finite.specs.Below.{only};
ghost use Rattle.subsets.specs.Sets.{has, set_count};
ghost use Rattle.subsets.specs.Figures.{is_cost, weighing};
ghost use Rattle.subsets.specs.Powers.{power_of_three};
ghost use Rattle.subsets.specs.Inner.Folds.{may_tie, is_tie, key_before};

// The largest figure that is a cost. Any number above it is 'none'.
pub const LIMIT: u64 = 1000000000000000;

// The figure that stands for 'none' where no other is given. A figure and no Option: 01 and C have costs and 'none' in one number, and any may come.
pub const NONE: u64 = 1000000000000001;

// What weighing a split answers: the best cost now, and whether the split counts: 1 or 0 and no bool, as C takes a number here and the count is their sum.
#[derive(Clone, Copy)]
pub struct Weighed {
    pub best: u64,
    pub counted: u64,
}

// The best split of a set among those seen: its cost, the subset that it places, and how many splits counted.
#[derive(Clone, Copy)]
pub struct Best {
    pub cost: u64,
    pub chosen: usize,
    pub counted: u64,
}

// The key of a placing, by which ties are settled: a number in two parts, its first digits and its others. Keys are ordered by the first digits, then by
// the others.
#[derive(Clone, Copy, PartialEq, Eq, PartialOrd, Ord)]
pub struct Key {
    pub high: u64,
    pub low: u64,
}

// Whether a figure is a cost.
fn is_cost(figure: u64) -> bool
    ensures { result ≡ is_cost figure }
{
    figure <= LIMIT
}

// The lesser of the best and the number where that is allowed, else the best.
fn lower(best: u64, number: u64, allowed: bool) -> u64
    ensures { result ≡ (if allowed then min best number else best) }
{
    if allowed { best.min(number) } else { best }
}

// Weighs one split: the lesser of `best` and the sum of the other three figures, and 1 where `placed` is a cost.
// The sum is taken before the figures are tested, so that no branch depends on them; only a sum of costs is used.
#[tactic(auto, unfolding(crate::specs::Figures::weighing, crate::specs::Figures::lesser_figure, finite::specs::Below::only))]
pub fn weigh(best: u64, placed: u64, rest: u64, link: u64) -> Weighed
    ensures { result ≡ weighing best placed rest link }
{
    let sum = placed.wrapping_add(rest).wrapping_add(link);
    let costs = is_cost(placed) & is_cost(rest) & is_cost(link);
    Weighed {
        best: lower(best, sum, costs),
        counted: is_cost(placed) as u64,
    }
}

// Whether the three figures, costs or not, sum to the best. Where they do not there is no tie. Where they do, and none of them is above NONE, there is one,
// or no split was found yet.
#[tactic(auto, unfolding(crate::specs::Inner::Folds::may_tie))]
pub fn may_tie(best: u64, placed: u64, rest: u64, link: u64) -> bool
    ensures { result ≡ may_tie best placed rest link }
{
    placed.wrapping_add(rest).wrapping_add(link) == best
}

// Whether a split costs just as much as the best: its three figures are costs, and their sum is the best.
#[tactic(auto, unfolding(crate::specs::Inner::Folds::is_tie, crate::specs::Inner::Folds::may_tie), using(crate::proofs::Ties::tie_sum))]
pub fn is_tie(best: u64, placed: u64, rest: u64, link: u64) -> bool
    ensures { result ≡ is_tie best placed rest link }
{
    is_cost(placed) & is_cost(rest) & is_cost(link) & may_tie(best, placed, rest, link)
}

// Whether the first key comes before the second.
#[tactic(auto, unfolding(crate::specs::Inner::Folds::key_before))]
pub fn comes_before(first: Key, second: Key) -> bool
    ensures { result ≡ key_before first second }
{
    first < second
}

// 3^r, where it fits 64 bits, by repeated multiplication. It is left as soon as a power would not fit.
#[tactic(auto, using(crate::proofs::Powers::power_fits, crate::proofs::Powers::power_past))]
pub fn power_of_three(r: usize) -> Option<u64>
    ensures { result ≡ power_of_three r }
{
    let mut power = 1u64;
    for _ in 0..r {
        power = power.checked_mul(3)?;
    }
    Some(power)
}

// How many sets of r services there are, where 64 bits hold it; else 0.
#[tactic(auto, unfolding(crate::specs::Sets::set_count))]
pub fn sets_of(r: usize) -> usize
    ensures count { result ≡ set_count r }
    ensures power { r < 64 → result ≡ 2 ^ r }
{
    if r < 64 { 1 << r } else { 0 }
}

// The largest subset of x below a, where a is a subset of x and not empty.
pub fn next_subset(a: usize, x: usize) -> usize
    ensures { result ≡ bit_and (a - 1) x }
{
    a.saturating_sub(1) & x
}

// Whether service i is in the set x.
#[tactic(auto, using(crate::proofs::Sets::has_bit, crate::proofs::Sets::past_64))]
pub fn member(x: usize, i: usize) -> bool
    ensures { result ≡ has x i }
{
    i < 64 && (x >> i) & 1 == 1
}

// n where the test passes, else 0.
#[tactic(auto, unfolding(finite::specs::Below::only))]
pub fn only_if(test: bool, n: u64) -> u64
    ensures { result ≡ only test n }
{
    if test { n } else { 0 }
}
