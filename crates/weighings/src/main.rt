// Prints the weighing call on every combination of seven figures, and the powers of three: all that fit 64 bits, two past them, and that of
// the largest number.
#![tactic(auto)]

use output::Output;
use std::io::Error;

// The figures tried: small costs, the numbers around 10^15, and large numbers.
const FIGURES: [u64; 7] = [
    0,
    1,
    999999999999999,
    1000000000000000,
    1000000000000001,
    9223372036854775808,
    18446744073709551615,
];

// The four figures, the best after weighing, and the flag.
fn weighing(rt: &impl Print, best: u64, placed: u64, rest: u64, link: u64) -> Result<(), Error> {
    let w = subsets::weigh(best, placed, rest, link);
    println!(rt; "{best} {placed} {rest} {link} {} {}", w.best, w.counted)
}

fn weighings(rt: &impl Print) -> Result<(), Error> {
    for best in FIGURES {
        for placed in FIGURES {
            for rest in FIGURES {
                for link in FIGURES {
                    weighing(rt, best, placed, rest, link)?;
                }
            }
        }
    }
    Ok(())
}

fn power(rt: &impl Print, r: usize) -> Result<(), Error> {
    match subsets::power_of_three(r) {
        Some(n) => println!(rt; "{r} {n}"),
        None => println!(rt; "{r} outside"),
    }
}

fn powers(rt: &impl Print) -> Result<(), Error> {
    for r in 0..43 {
        power(rt, r)?;
    }
    power(rt, usize::MAX)
}

fn all(rt: &impl Print) -> Result<(), Error> {
    weighings(rt)?;
    powers(rt)
}

fn main() {
    // An output that takes no more is no failure of this program.
    let _ = all(&Output);
}
