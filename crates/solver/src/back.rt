// The placing of all services read back from a choice table, whatever it holds: its key is read, and the key's digits are the services' cabinets.
ghost use Rattle.std.specs.Prelude.{◌≡◌, ℕ, ◌^◌, ◌<◌, slice_index};
ghost use Rattle.subsets.specs.Inner.Masks.{full};
ghost use Rattle.subsets.specs.Inner.Back.{seat};
ghost use Rattle.subsets.specs.Inner.Keys.{digit, digit_in};
ghost use Rattle.rows.specs.Keys.{base, low_digits};
ghost use Rattle.rows.specs.Rebuilds.{entry};
ghost use Rattle.solver.specs.Tables.{netted, Readable};

use records::Records;
use rows::{LOW_DIGITS, root_key};
use sheet::Sheet;
use subsets::Key;

// A key has a digit for each cabinet there can be.
const BASE: u64 = Sheet::MAX_CABINETS as u64;

// The digit of a number with so many digits after it.
#[tactic(auto, using(crate::proofs::Placing::next_quotient))]
fn digit_of(number: u64, after: usize) -> u64
    ensures { (result ≡ digit base number after) × (result < base) }
{
    let mut rest = number;
    for _ in 0..after {
        rest /= BASE;
    }
    rest % BASE
}

// The digit of a key with so many digits after it: the last digits are in its low part.
fn place_in(key: Key, after: usize) -> u64
    ensures { (result ≡ digit_in base low_digits key after) × (result < base) }
{
    if after < LOW_DIGITS {
        digit_of(key.low, after)
    } else {
        digit_of(key.high, after - LOW_DIGITS)
    }
}

// The placing of all services on the whole tree, one place a service: the digits of its key, in the order of the services.
#[tactic(auto, using(crate::proofs::Placing::root_digit))]
pub(crate) fn read_places(output: &mut [u16], records: &Records, choices: &[u16])
    requires { Readable records.now output.old choices.now }
    ensures { (i : ℕ) → i < records.now.services → slice_index output.new i
        ≡ seat (netted records.now) (entry (2 ^ records.now.services) choices.now) 0 records.now.cabinets (full records.now.services) i }
{
    let key = root_key(records, choices);
    let r = output.len();
    for (i, place) in output.iter_mut().enumerate() {
        *place = place_in(key, r - 1 - i) as u16;
    }
}
