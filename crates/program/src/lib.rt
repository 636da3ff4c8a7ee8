// The programs. They read and write by the kit's io: both are exported to C, and an export is given no handle to print by. Here the one that
// plans: a sheet comes from standard input, and its text goes to standard output.
#![tactic(auto)]

pub mod tidying; // tidying.rt: the program that writes tidy copies

// The numbers of the standard streams.
pub(crate) const STDIN: i32 = 0;

const STDOUT: i32 = 1;

pub(crate) const STDERR: i32 = 2;

// Writes to standard output, and says whether all of it was written. If it was not, a line on standard error says so too.
pub(crate) fn give(bytes: &[u8], complaint: &[u8]) -> bool {
    if io::write_all(STDOUT, bytes) {
        return true;
    }
    io::write_all(STDERR, complaint);
    false
}

// Says whether all of the text was written.
pub fn run() -> bool {
    let mut bytes = [0u8; report::LONGEST + 1];
    let mut text = [0u8; report::TEXT];
    let read = io::read_full(STDIN, &mut bytes);
    let n = report::respond(&bytes[..read], &mut text);
    give(&text[..n], b"plan: standard output could not be written\n")
}
