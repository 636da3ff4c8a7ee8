// The program that tidies: a sheet comes from standard input, and its tidy copy goes to standard output.
use crate::{STDERR, STDIN, give};

// Says on standard error what is refused.
fn refuse(number: u16) {
    let mut text = [0u8; report::TEXT];
    let n = report::refuse(number, &mut text);
    io::write_all(STDERR, &text[..n]);
}

// Says whether a copy was written. The buffer has one byte more than the longest sheet: what is longer has a wrong length word.
pub fn run() -> bool {
    let mut bytes = io::large_buffer();
    let mut copy = [0u8; tidy::LONGEST];
    let read = io::read_full(STDIN, &mut bytes);
    match tidy::tidy(&bytes[..read], &mut copy) {
        Ok(n) => give(&copy[..n], b"tidy: standard output could not be written\n"),
        Err(refusal) => {
            refuse(refusal.number());
            false
        }
    }
}
