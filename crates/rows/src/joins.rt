// A child's row joined into its parent's, by the best split of every set; ties are settled by keys. That keys are small enough to be added stands in
// clauses and in no type: each speaks of another part of a row that is being written.
ghost use Rattle.std.specs.Prelude.{◌≡◌, ◌&&◌, ◌+◌, ◌^◌, ◌≤◌, ◌<◌, length};
ghost use Rattle.subsets.specs.Inner.Folds.{plus, by_key, is_tie, after};
ghost use Rattle.rows.specs.Charges.{max_sets};
ghost use Rattle.rows.specs.Keys.{key_in};
ghost use Rattle.rows.specs.Joins.{Small, best_of, Joined};

use crate::keys::plus;
use subsets::{Best, Key, NONE, Weighed, comes_before, is_tie, may_tie, next_subset, weigh};

// A child to be joined: its row, what the link above it charges, and its keys, by sets.
#[derive(Clone, Copy)]
pub(crate) struct Child<'a> {
    pub(crate) row: &'a [u64],
    pub(crate) link: &'a [u64],
    pub(crate) keys: &'a [Key],
}

// The split of a set that places the subset a: the figures of what is placed, of what is left to the child, and of its link.
#[derive(Clone, Copy)]
struct Split {
    a: usize,
    placed: u64,
    rest: u64,
    link: u64,
}

// The best so far, once the split that places a was weighed; `won` says that it wins a tie.
fn better(best: Best, a: usize, weighed: Weighed, won: bool) -> Best
    requires { best.counted + weighed.counted < 2 ^ 64 }
    ensures { result ≡ after best a weighed won }
{
    let counted = best.counted + weighed.counted;
    if won | (weighed.best < best.cost) {
        Best {
            cost: weighed.best,
            chosen: a,
            counted,
        }
    } else {
        Best {
            cost: weighed.best,
            chosen: best.chosen,
            counted,
        }
    }
}

// The key of the split that places a and leaves the rest to the child.
fn split_key(keys: &[Key], child_keys: &[Key], a: usize, rest: usize) -> Key
    requires places { (a < length keys.now) × (rest < length child_keys.now) }
    requires small { Small (a + 1) keys.now × Small (rest + 1) child_keys.now }
    ensures { result ≡ plus (key_in keys.now a) (key_in child_keys.now rest) }
{
    plus(keys[a], child_keys[rest])
}

// Whether a split of x ties with the best and wins against it. Keys are looked at only where the sums are the same: that test comes first, so that one
// branch settles nearly all splits.
#[tactic(auto, using(subsets::proofs::Ties::no_tie))]
fn wins_tie(best: Best, split: Split, keys: &[Key], child_keys: &[Key], x: usize) -> bool
    requires places { (split.a ≤ x) × (best.chosen ≤ x) × (x < length keys.now) × (x < length child_keys.now) }
    requires small { Small (x + 1) keys.now × Small (x + 1) child_keys.now }
    ensures { result ≡ by_key (key_in keys.now) (key_in child_keys.now) x split.a best.chosen && is_tie best.cost split.placed split.rest split.link }
{
    if may_tie(best.cost, split.placed, split.rest, split.link) {
        let key = split_key(keys, child_keys, split.a, x - split.a);
        let other = split_key(keys, child_keys, best.chosen, x - best.chosen);
        return comes_before(key, other) & is_tie(best.cost, split.placed, split.rest, split.link);
    }
    false
}

// The best split of x: every subset a of it is weighed, in falling order.
fn best_split<'a>(row: &'a [u64], keys: &'a [Key], child: Child<'a>, x: usize) -> Best
    requires figures { (x < length row.now) × (x < length child.row.now) × (x < length child.link.now) × (x < max_sets) }
    requires places { (x < length keys.now) × (x < length child.keys.now) }
    requires small { Small (x + 1) keys.now × Small (x + 1) child.keys.now }
    ensures { result ≡ best_of row.now child.entry.row.now child.entry.link.now keys.now child.entry.keys.now x }
{
    let mut best = Best {
        cost: NONE,
        chosen: 0,
        counted: 0,
    };
    let mut a = x;
    loop {
        let rest = x - a;
        let split = Split {
            a,
            placed: row[a],
            rest: child.row[rest],
            link: child.link[rest],
        };
        let weighed = weigh(best.cost, split.placed, split.rest, split.link);
        let won = wins_tie(best, split, keys, child.keys, x);
        best = better(best, a, weighed, won);
        if a == 0 {
            break;
        }
        a = next_subset(a, x);
    }
    best
}

// Joins a child's row and keys into the row and its keys, from the last set down, so that all are updated in place: a subset of x is no larger
// a number. The subsets that stay go into the child's choices. Gives the splits counted.
pub(crate) fn join<'a>(
    row: &mut [u64],
    choice: &mut [u16],
    keys: &mut [Key],
    child: Child<'a>,
) -> u64
    requires rows { (length row.old ≤ max_sets) × (length choice.old ≡ length row.old) × (length keys.old ≡ length row.old) }
    requires figures { (length row.old ≤ length child.row.now) × (length row.old ≤ length child.link.now) × (length row.old ≤ length child.keys.now) }
    requires small { Small (length row.old) keys.old × Small (length row.old) child.keys.now }
    ensures { Joined row.old child.entry.row.now child.entry.link.now keys.old child.entry.keys.now row.new choice.new keys.new result }
{
    let mut count: u64 = 0;
    for x in (0..row.len()).rev() {
        let best = best_split(&row[..], &keys[..], child, x);
        let stays = best.chosen;
        row[x] = best.cost;
        choice[x] = stays as u16;
        keys[x] = split_key(&keys[..], child.keys, stays, x - stays);
        count += best.counted;
    }
    count
}
