// Standard output for programs that print by formats. It stands on the kit's io, and so on no C function but those that the other programs stand on: what
// std prints through asks besides for the number of an error, of which nothing is proved.
#![tactic(auto)]

ghost use Rattle.std.specs.Prelude.{◌≡◌, Ok};

use std::fmt::{self, Display, Write};
use std::io::Error;

// The number of the standard stream.
const STDOUT: i32 = 1;

// Bytes that most lines fit in.
const ROOM: usize = 128;

// A line on its way to standard output.
#[derive(Drop)]
struct Line {
    bytes: [u8; ROOM],
    len: usize,
}

impl Line {
    const EMPTY: Line = Line {
        bytes: [0; ROOM],
        len: 0,
    };

    // Writes what is there. What cannot be written is dropped, and what comes after it is tried.
    fn give(&mut self) {
        let len = self.len.min(ROOM);
        io::write_all(STDOUT, &self.bytes[..len]);
        self.len = 0;
    }

    // Puts a byte behind the others, which are written first where there is no more room.
    fn put(&mut self, byte: u8) {
        if ROOM <= self.len {
            self.give();
        }
        if let Some(place) = self.bytes.get_mut(self.len) {
            *place = byte;
            self.len += 1;
        }
    }
}

impl Write for Line {
    fn write_str(&mut self, text: &str) -> fmt::Result {
        for byte in text.as_bytes() {
            self.put(*byte);
        }
        Ok(())
    }
}

// What to print by in place of the handle: each text is written by one call, if it has at most ROOM bytes, and an output that takes no more is no failure.
pub struct Output;

impl Print for Output {
    fn print<D: Display + Drop>(&self, value: D) -> Result<(), Error>
        ensures { result ≡ Ok tt }
    {
        let mut line = Line::EMPTY;
        let _ = line.write(value);
        line.give();
        Ok(())
    }

    fn println<D: Display + Drop>(&self, value: D) -> Result<(), Error>
        ensures { result ≡ Ok tt }
    {
        let mut line = Line::EMPTY;
        let _ = line.writeln(value);
        line.give();
        Ok(())
    }

    fn write_all(&self, bytes: &[u8]) -> Result<(), Error>
        ensures { result ≡ Ok tt }
    {
        io::write_all(STDOUT, bytes);
        Ok(())
    }
}
