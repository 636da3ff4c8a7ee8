// The rows of the planner's two tables rebuilt: each its own charges, then its children joined. For any records and tables.
#![tactic(auto)]

ghost use Rattle.std.specs.Prelude.{◌≡◌, true, length, ◌+◌, ◌%◌, ◌^◌, ◌≤◌, ◌<◌};
ghost use Rattle.rows.specs.Charges.{all_sums};
ghost use Rattle.rows.specs.Keys.{tree};
ghost use Rattle.rows.specs.Reads.{Readable};
ghost use Rattle.rows.specs.Rebuilds.{source, has_rows, RebuildRoom, KeysKept, Rebuilds, FillRoom, FillsRows, RootKey};
ghost use Rattle.rows.specs.Paths.{next_row, rows_near, RebuildsRows, ClimbsRows};

use records::Records;
use sheet::Sheet;
use subsets::{Key, sets_of};

mod charges; // charges.rt: what a cabinet and a link charge for every set of services
mod children; // children.rt: the children of each cabinet as lists
mod joins; // joins.rt: a child's row joined into its parent's
mod keys; // keys.rt: keys of placings, by which ties are settled
mod tables; // tables.rt: one row of both tables

use charges::Own;
use children::{Children, children_of};
use keys::{Placings, Weight, own_keys, weigh_sets};
use tables::{Kept, Room, Sources, join_child};

// How many sets of services there can be.
pub const SETS: usize = 1 << Sheet::MAX_SERVICES;

// Rows of sums over sets, each of SETS places: the demand; what runs out, by demand and frames; and what runs in, in the same way. One array, as it is
// lent to this crate, where any sums will do.
pub const SUMS: usize = 5 * SETS;

// The row of the demand of what runs out; its frames stand in the row after it.
pub const OUT: usize = 1;

// The row of the demand of what runs in; its frames stand in the row after it.
pub const INTO: usize = 3;

// So many digits are the low part of a key.
pub const LOW_DIGITS: usize = Sheet::MAX_SERVICES / 2;

// Places for rows of keys: so many rows of 2^r sets are kept as fit.
const KEYS: usize = 2 * SETS;

// The key of a placing of nothing.
const NO_KEY: Key = Key { high: 0, low: 0 };

// Whether the counts are within the arrays, and sums and tables of so many entries have all that is needed.
fn are_rows(services: usize, cabinets: usize, sums: usize, costs: usize, choices: usize) -> bool
    ensures { result ≡ has_rows services cabinets sums costs choices }
{
    if Sheet::MAX_SERVICES < services {
        return false;
    }
    if Sheet::MAX_CABINETS < cabinets {
        return false;
    }
    if sums < SUMS {
        return false;
    }
    let entries = cabinets * sets_of(services);
    if costs < entries {
        return false;
    }
    entries <= choices
}

// Rebuilds the row of p: its own charges and keys, then its children joined, in rising order. Gives the splits counted.
fn rebuild<'a>(
    costs: &mut [u64],
    choices: &mut [u16],
    room: &mut Room,
    child_keys: &mut [Key; SETS],
    from: Sources<'a>,
    kept: Kept,
    p: usize,
) -> u64
    requires tables { RebuildRoom from.records.now from.size p costs.old choices.old }
    requires sums { all_sums ≤ length from.sums.now }
    requires readable { Readable (tree from.records.now) from.size choices.old from.children.now from.weights.now }
    requires kept { KeysKept from.records.now from.size p kept.rows kept.near choices.old room.old.keys }
    ensures length { length room.new.keys ≡ length room.old.keys }
    ensures rebuilt { Rebuilds (source from.entry.records.now from.entry.size p from.entry.sums.now costs.old choices.old) from.entry.size p (p % kept.rows)
        from.entry.records.now.cabinets costs.old costs.new choices.old choices.new room.old.keys room.new.keys result }
{
    let size = from.size;
    let q = p % kept.rows;
    let first = q * size;
    let first_end = first + size;
    let at = p * size;
    let end = at + size;
    Own::of(from.records, p).fill(&mut costs[at..end], from.sums);
    own_keys(&mut room.keys[first..first_end], from.weights, p);
    // No child comes after the last. Where there is no child this is 1, and nothing is joined.
    let past_last = usize::from(from.children.last[p]) + 1;
    let mut count: u64 = 0;
    for d in p + 1..past_last {
        if usize::from(from.records.parent[d]) != p {
            continue;
        }
        let placings = Placings {
            choices: &choices[..],
            children: from.children,
            weights: from.weights,
            size,
        };
        kept.fetch_keys(child_keys, &room.keys, &placings, p, d);
        count += join_child(costs, choices, room, child_keys, from, p, d, q);
    }
    count
}

// The row that is rebuilt after that of q, which is not the root: that before it where the whole table is rebuilt, else its parent's. For `whole` see
// `rebuild_rows`.
fn next_row(whole: bool, parent: usize, q: usize) -> usize
    requires { 0 < q }
    ensures { result ≡ next_row whole parent q }
{
    if whole {
        return q - 1;
    }
    parent
}

// So many rows from p on have their keys kept, where `rows` rows of keys are kept and that of q was rebuilt last: all of them where the whole table is
// rebuilt; else those of p and q where q is next to p, as on a chain, and of p alone where it is not.
fn rows_near(whole: bool, rows: usize, p: usize, q: usize) -> usize
    requires { p < q }
    ensures { result ≡ rows_near whole rows p q }
{
    if whole {
        return rows;
    }
    if q == p + 1 {
        return 2;
    }
    1
}

// Rebuilds the row of `first`, and after it those before it, down to the root's: all of them, or its parent's, the parent's of that, and so on. Gives
// the splits counted. `whole` chooses within one loop, since with two callers `rebuild` is no part of the loop's code, and a tenth slower.
fn rebuild_rows<'a>(
    costs: &mut [u64],
    choices: &mut [u16],
    records: &Records,
    sums: &'a [u32],
    children: &'a Children,
    size: usize,
    first: usize,
    whole: bool,
) -> u64
    requires room { FillRoom records.now size costs.old choices.old sums.now children.now }
    requires cabinet { (first < records.now.cabinets) × (whole ≡ true → first + 1 ≡ records.now.cabinets) }
    ensures { RebuildsRows whole records.now size first sums.now costs.old costs.new choices.old choices.new result }
{
    let mut weights = [Weight::NONE; SETS];
    weigh_sets(&mut weights, records.services, size);
    let rows = KEYS / size;
    let mut room = Room {
        keys: [NO_KEY; KEYS],
        child: [0; SETS],
        link: [0; SETS],
    };
    let mut child_keys = [NO_KEY; SETS];
    let from = Sources {
        records,
        sums,
        children,
        weights: &weights,
        size,
    };
    let mut near = 1;
    let mut count: u64 = 0;
    let mut q = first;
    loop {
        let kept = Kept { rows, near };
        count += rebuild(costs, choices, &mut room, &mut child_keys, from, kept, q);
        if q == 0 {
            break;
        }
        let p = next_row(whole, usize::from(records.parent[q]), q);
        near = rows_near(whole, rows, p, q);
        q = p;
    }
    count
}

// Fills both tables, a row a cabinet, but the root's choices, which stay: it is no child. Gives the splits counted. Where there is no tree or no room
// nothing is done.
pub fn fill(costs: &mut [u64], choices: &mut [u16], records: &Records, sums: &[u32]) -> u64
    ensures { FillsRows records.now sums.now costs.old costs.new choices.old choices.new result }
{
    let n = records.cabinets;
    if !are_rows(records.services, n, sums.len(), costs.len(), choices.len()) {
        return 0;
    }
    let Some(children) = children_of(&records.parent, n) else {
        return 0;
    };
    if n < 1 {
        return 0;
    }
    let size = sets_of(records.services);
    rebuild_rows(costs, choices, records, sums, &children, size, n - 1, true)
}

// Rebuilds the rows of both tables from cabinet e up to the root: its own and those above it, with the choices of all their children. All other rows
// stay. Where there is no such cabinet, no tree or no room nothing is done.
pub fn rebuild_path(
    costs: &mut [u64],
    choices: &mut [u16],
    records: &Records,
    sums: &[u32],
    e: usize,
)
    ensures { ClimbsRows records.now e sums.now costs.old costs.new choices.old choices.new }
{
    let n = records.cabinets;
    if n <= e {
        return;
    }
    if !are_rows(records.services, n, sums.len(), costs.len(), choices.len()) {
        return;
    }
    let Some(children) = children_of(&records.parent, n) else {
        return;
    };
    let size = sets_of(records.services);
    rebuild_rows(costs, choices, records, sums, &children, size, e, false);
}

// The key of the placing of all services on the whole tree, as the choices name it. Gives 0 where there is no cabinet, no tree or no room.
pub fn root_key(records: &Records, choices: &[u16]) -> Key
    ensures { RootKey records.now choices.now result }
{
    let n = records.cabinets;
    let entries = choices.len();
    if n < 1 {
        return NO_KEY;
    }
    if !are_rows(records.services, n, SUMS, entries, entries) {
        return NO_KEY;
    }
    let Some(children) = children_of(&records.parent, n) else {
        return NO_KEY;
    };
    let size = sets_of(records.services);
    let mut weights = [Weight::NONE; SETS];
    weigh_sets(&mut weights, records.services, size);
    let child = usize::from(children.last[0]);
    let placings = Placings {
        choices,
        children: &children,
        weights: &weights,
        size,
    };
    placings.key(0, child, size - 1)
}
