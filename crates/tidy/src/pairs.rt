// The fourth block of a copy: the barred pairs in rising order, service before cabinet, each once.
ghost use Rattle.std.specs.Prelude.{◌≡◌, ◌+◌, ◌*◌, ◌≤◌, ◌<◌, length};
ghost use Rattle.sheet.specs.Limits.{max_services, max_cabinets, max_pairs};
ghost use Rattle.records.specs.Told.{told};
ghost use Rattle.tidy.specs.Copy.{pair_words, service_count, pair_count, fourth_size, fourth_words};
ghost use Rattle.tidy.specs.Inner.Put.{put};

use crate::words::put_words;
use records::{Records, is_in_set};
use sheet::Sheet;

// How many cabinets service i is barred from.
fn count_of_service(records: &Records, i: usize) -> usize
    requires { i < (told records.now).r }
    ensures { result ≡ service_count (told records.now) i }
{
    let n = records.cabinets;
    (0..n)
        .filter(|c| is_in_set(&records.barred, n, *c, i))
        .count()
}

// How many barred pairs there are, each counted once.
pub(crate) fn count_pairs(records: &Records) -> usize
    requires { ((told records.now).r ≤ max_services) × ((told records.now).s ≤ max_cabinets) }
    ensures { result ≡ pair_count (told records.now) }
{
    let mut count = 0;
    for i in 0..records.services {
        count += count_of_service(records, i);
    }
    count
}

// Writes all pairs.
fn put_all(out: &mut [u8], at: usize, records: &Records)
    requires { ((told records.now).r ≤ max_services) × ((told records.now).s ≤ max_cabinets) × (at + 4 * pair_count (told records.now) ≤ length out.old) }
    ensures { out.new ≡ put out.old at (pair_words (told records.now)) }
{
    let mut next = at;
    for i in 0..records.services {
        for c in 0..records.cabinets {
            if is_in_set(&records.barred, records.cabinets, c, i) {
                put_words(out, next, &[i as u16, c as u16]);
                next += Sheet::PAIR;
            }
        }
    }
}

// Writes the count and the pairs; nothing without a pair.
pub(crate) fn put_fourth(out: &mut [u8], at: usize, records: &Records, pairs: usize)
    requires { ((told records.now).r ≤ max_services) × ((told records.now).s ≤ max_cabinets) × (pairs ≡ pair_count (told records.now)) × (pairs ≤ max_pairs) × (at + fourth_size pairs ≤ length out.old) }
    ensures { out.new ≡ put out.old at (fourth_words (told records.now)) }
{
    if pairs == 0 {
        return;
    }
    put_words(out, at, &[pairs as u16]);
    put_all(out, at + Sheet::COUNT, records);
}
