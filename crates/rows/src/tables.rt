// Rows of the cost table and the choice table: 2^r entries for each cabinet, in cabinet order. Whatever the tables hold.
ghost use Rattle.std.specs.Prelude.{◌≡◌, cond, ℕ, ◌-◌, ◌*◌, ◌%◌, ◌^◌, ◌≤◌, ◌<◌, ltb, length, get_or};
ghost use Rattle.subsets.specs.Inner.Net.{Net};
ghost use Rattle.subsets.specs.Inner.Keys.{key_parts};
ghost use Rattle.sheet.specs.Limits.{max_cabinets};
ghost use Rattle.rows.specs.Cabinets.{link_of};
ghost use Rattle.rows.specs.Charges.{all_sums};
ghost use Rattle.rows.specs.Keys.{base, low_digits, key_in};
ghost use Rattle.rows.specs.Reads.{Reads};
ghost use Rattle.rows.specs.Joins.{Addable, Small};
ghost use Rattle.rows.specs.Rebuilds.{entry, key_entry, JoinRoom, JoinsChild};

use crate::charges::Link;
use crate::children::Children;
use crate::joins::{Child, join};
use crate::keys::{Placings, Weight};
use crate::{KEYS, SETS};
use records::Records;
use subsets::Key;

// What rows are rebuilt from: the records, the sums over sets, the children as lists, and the weight of each set. A row of a table has `size` entries.
#[derive(Clone, Copy)]
pub(crate) struct Sources<'a> {
    pub(crate) records: &'a Records,
    pub(crate) sums: &'a [u32],
    pub(crate) children: &'a Children,
    pub(crate) weights: &'a [Weight],
    pub(crate) size: usize,
}

// Room on the way: for the rows of keys that are kept, and for a child's row and what the link above it charges. The child's keys stand apart from it: a row
// of keys is copied there, which in one struct would be a copy within one piece of memory, and need memmove of whoever links the archive.
#[derive(Drop)]
pub(crate) struct Room {
    pub(crate) keys: [Key; KEYS],
    pub(crate) child: [u64; SETS],
    pub(crate) link: [u64; SETS],
}

// Which rows of keys are kept while the row of p is rebuilt: there is room for `rows`, that of cabinet d is row d % rows, and those of the cabinets
// after p and below p + near are there.
#[derive(Clone, Copy)]
pub(crate) struct Kept {
    pub(crate) rows: usize,
    pub(crate) near: usize,
}

impl Kept {
    // The keys of p's child c: copied where its row of keys is kept, else read back from the choices.
    pub(crate) fn fetch_keys<'a>(
        self,
        child_keys: &mut [Key],
        keys: &'a [Key],
        placings: &Placings<'a>,
        p: usize,
        c: usize,
    )
        requires readable { (N : Net) × Reads N placings.now × (c < N.s) × (p < c) }
        requires room { (placings.now.size ≤ length child_keys.old) × (0 < self.rows) × (self.rows * placings.now.size ≤ length keys.now) }
        ensures { (N : Net) → Reads N placings.now → c < N.s → (x : ℕ) → x < placings.now.size
            → key_in child_keys.new x
            ≡ cond (ltb (c - p) self.near) (key_entry placings.now.size keys.now (c % self.rows) x)
            (key_parts base low_digits N (entry placings.now.size placings.now.choices.now) c N.s x) }
    {
        if c - p < self.near {
            let size = placings.size;
            let at = (c % self.rows) * size;
            let end = at + size;
            child_keys[..size].copy_from_slice(&keys[at..end]);
        } else {
            placings.write_keys(child_keys, c);
        }
    }
}

// Joins the row of p's child c, whose keys are at hand, into that of p, whose keys are row q of those kept. The child's row is copied first, since two
// rows of one table cannot be lent at once. The count takes the choice of the empty set, which is never asked for.
pub(crate) fn join_child<'a>(
    costs: &mut [u64],
    choices: &mut [u16],
    room: &mut Room,
    child_keys: &[Key; SETS],
    from: Sources<'a>,
    p: usize,
    c: usize,
    q: usize,
) -> u64
    requires room { JoinRoom from.size p c q costs.old choices.old room.old.keys }
    requires cabinet { (c < from.records.now.cabinets) × (from.records.now.cabinets ≤ max_cabinets) × (all_sums ≤ length from.sums.now) }
    requires small { Small from.size child_keys.now × ((x : ℕ) → x < from.size → Addable (key_entry from.size room.old.keys q x)) }
    ensures length { length room.new.keys ≡ length room.old.keys }
    ensures joined { JoinsChild (link_of from.entry.records.now c) from.entry.size p c q from.entry.sums.now (key_in child_keys.now)
        costs.old costs.new choices.old choices.new room.old.keys room.new.keys result }
{
    let size = from.size;
    let at = p * size;
    let end = at + size;
    let below = c * size;
    let below_end = below + size;
    let first = q * size;
    let first_end = first + size;
    room.child[..size].copy_from_slice(&costs[below..below_end]);
    Link::above(from.records, c).fill(&mut room.link, from.sums, size);
    let count = join(
        &mut costs[at..end],
        &mut choices[below..below_end],
        &mut room.keys[first..first_end],
        Child {
            row: &room.child,
            link: &room.link,
            keys: child_keys,
        },
    );
    choices[below] = count as u16;
    count
}
