// Prints texts around the room that `output` has for a line, by each of its calls: what is longer has to come whole and in order.
#![tactic(auto)]

use output::Output;
use std::io::Error;

// Lines that end a byte before the room is full, at its end and behind it; the same of twice the room; and one of three parts.
fn lines(rt: &impl Print) -> Result<(), Error> {
    println!(rt; "")?;
    println!(rt; "{:>126}", 126u64)?;
    println!(rt; "{:>127}", 127u64)?;
    println!(rt; "{:>128}", 128u64)?;
    println!(rt; "{:>129}", 129u64)?;
    println!(rt; "{:>255}", 255u64)?;
    println!(rt; "{:>256}", 256u64)?;
    println!(rt; "{:>257}", 257u64)?;
    println!(rt; "{:>100} {:>100} {:>100}", 1u64, 2u64, 3u64)
}

// The same without an end of the line, and bytes as they are.
fn texts(rt: &impl Print) -> Result<(), Error> {
    print!(rt; "{:>128}", 128u64)?;
    print!(rt; "{:>129}", 129u64)?;
    print!(rt; "{:>257}", 257u64)?;
    rt.write_all(b" bytes\n")
}

fn main() {
    // An output that takes no more is no failure of this program.
    let _ = lines(&Output);
    let _ = texts(&Output);
}
