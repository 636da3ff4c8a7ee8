// Runs the reader on sheets made from road M and prints the refusal of each, 0 for an accepted sheet.
#![tactic(auto)]

use output::Output;
use std::io::Error;

mod pairs; // pairs.rt: sheets with a fourth block

// Road M.
const M: [u8; 68] = [
    2, 0, 3, 0, 1, 0, 16, 0, 20, 0, 62, 0, 68, 0, 0, 0, 2, 0, 2, 0, 255, 255, 4, 0, 5, 0, 0, 0, 0,
    0, 0, 0, 0, 0, 0, 0, 3, 0, 1, 0, 6, 0, 2, 0, 6, 0, 1, 0, 0, 0, 3, 0, 2, 0, 2, 0, 1, 0, 6, 0, 1,
    0, 0, 0, 1, 0, 3, 0,
];

// The smallest sheet: no service, one cabinet, no stream.
const SMALLEST: [u8; 30] = [
    0, 0, 1, 0, 0, 0, 16, 0, 16, 0, 30, 0, 30, 0, 0, 0, 255, 255, 0, 0, 0, 0, 0, 0, 0, 0, 0, 0, 0,
    0,
];

// A label, and the words of a sheet that are changed, each by its number with its new value.
type Change = (&'static str, &'static [(u8, u16)]);

const COUNTS: [Change; 8] = [
    ("M", &[]),
    ("r is 11", &[(0, 11)]),
    ("no cabinet", &[(1, 0)]),
    ("s is 201", &[(1, 201)]),
    ("q is 101", &[(2, 101)]),
    ("the eighth word is 1", &[(7, 1)]),
    ("the length word is 67", &[(6, 67)]),
    ("the length word is 69", &[(6, 69)]),
];

const BLOCKS: [Change; 14] = [
    ("services at 15", &[(3, 15)]),
    ("cabinets at 27 end past the length", &[(4, 27)]),
    (
        "cabinets at 26 end at the length, on the stream",
        &[(4, 26)],
    ),
    ("cabinets at 65530", &[(4, 65530)]),
    ("streams at 63", &[(5, 63)]),
    ("streams at 68", &[(5, 68)]),
    ("services at 18", &[(3, 18)]),
    ("services on the stream", &[(3, 64)]),
    ("r is 10", &[(0, 10)]),
    ("no stream, at the length", &[(2, 0), (5, 68)]),
    ("no stream, past the length", &[(2, 0), (5, 69)]),
    ("no stream, at 16", &[(2, 0), (5, 16)]),
    ("no stream, inside the cabinets", &[(2, 0), (5, 40)]),
    ("no stream, at 15", &[(2, 0), (5, 15)]),
];

// Changes of the smallest sheet.
const EMPTY: [Change; 5] = [
    ("the smallest sheet", &[]),
    ("its services inside the cabinet", &[(3, 20)]),
    ("its services at the length", &[(3, 30)]),
    ("its services past the length", &[(3, 31)]),
    ("its services at 15", &[(3, 15)]),
];

const PARENTS: [Change; 5] = [
    ("cabinet 0 under 0", &[(10, 0)]),
    ("cabinet 1 under 1", &[(17, 1)]),
    ("cabinet 2 under 2", &[(24, 2)]),
    ("cabinet 2 under 65535", &[(24, 65535)]),
    ("cabinet 2 under 1", &[(24, 1)]),
];

const ENDS: [Change; 3] = [
    ("a stream from 2", &[(31, 2)]),
    ("a stream to 2", &[(32, 2)]),
    ("a stream from 1 to 1", &[(31, 1)]),
];

// The lowest over the whole sheet, not the first record's.
const SEVERAL: [Change; 7] = [
    ("r and the length", &[(6, 67), (0, 11)]),
    ("the length and an offset", &[(3, 15), (6, 67)]),
    ("an offset and a shared byte", &[(3, 18), (5, 63)]),
    ("a shared byte and an amount", &[(33, 10001), (3, 18)]),
    (
        "a parent of cabinet 1 and the stream's demand",
        &[(17, 1), (33, 10001)],
    ),
    (
        "a link field of cabinet 0 and the stream's ends",
        &[(13, 1), (31, 1)],
    ),
    ("the stream's ends and the last parent", &[(31, 1), (24, 2)]),
];

// Puts a part of a sheet from a byte on, as far as there is room.
fn put(bytes: &mut [u8], at: usize, part: &[u8]) {
    for (place, byte) in bytes.iter_mut().skip(at).zip(part) {
        *place = *byte;
    }
}

// A word, low byte first.
fn put_word(bytes: &mut [u8], at: usize, word: u16) {
    put(bytes, at, &word.to_le_bytes());
}

// The sheet with these words changed.
fn with<const N: usize>(mut sheet: [u8; N], words: &[(u8, u16)]) -> [u8; N] {
    for (word, value) in words {
        put_word(&mut sheet, 2 * usize::from(*word), *value);
    }
    sheet
}

fn refusal(bytes: &[u8]) -> u16 {
    match sheet::read(bytes) {
        Ok(_) => 0,
        Err(refusal) => refusal.number(),
    }
}

fn say(rt: &impl Print, label: &str, bytes: &[u8]) -> Result<(), Error> {
    println!(rt; "{label}: {}", refusal(bytes))
}

// The first bytes of a sheet.
fn say_first(rt: &impl Print, label: &str, sheet: &[u8], n: usize) -> Result<(), Error> {
    match sheet.get(..n) {
        Some(first) => say(rt, label, first),
        None => Ok(()),
    }
}

fn say_changed<const N: usize>(
    rt: &impl Print,
    sheet: [u8; N],
    changes: &[Change],
) -> Result<(), Error> {
    for (label, words) in changes {
        say(rt, label, &with(sheet, words))?;
    }
    Ok(())
}

// M with each of these values in a word, which end the label.
fn say_values(rt: &impl Print, label: &str, word: u8, values: [u16; 2]) -> Result<(), Error> {
    for value in values {
        println!(rt; "{label} {value}: {}", refusal(&with(M, &[(word, value)])))?;
    }
    Ok(())
}

// The most that an amount may be, and one more.
fn amounts(rt: &impl Print) -> Result<(), Error> {
    let values = [10000, 10001];
    say_values(rt, "a service of", 8, values)?;
    for word in 25..31 {
        say_values(rt, "a cabinet's amount of", word, values)?;
    }
    say_values(rt, "a stream of", 33, values)
}

fn root(rt: &impl Print) -> Result<(), Error> {
    for word in 13..17 {
        say_values(rt, "a link field of cabinet 0 is", word, [1, 10001])?;
    }
    Ok(())
}

fn truncated(rt: &impl Print) -> Result<(), Error> {
    for n in 0..=M.len() {
        say_first(rt, "M cut short", &M, n)?;
    }
    Ok(())
}

// M and 65,536 bytes after it: no 16-bit word is this length.
fn long(rt: &impl Print) -> Result<(), Error> {
    let mut bytes = [0u8; 65604];
    put(&mut bytes, 0, &M);
    say(rt, "M with 65536 bytes more", &bytes)
}

fn run(rt: &impl Print) -> Result<(), Error> {
    say_changed(rt, M, &COUNTS)?;
    say_changed(rt, M, &BLOCKS)?;
    say_changed(rt, SMALLEST, &EMPTY)?;
    amounts(rt)?;
    say_changed(rt, M, &PARENTS)?;
    say_changed(rt, M, &ENDS)?;
    root(rt)?;
    say_changed(rt, M, &SEVERAL)?;
    truncated(rt)?;
    long(rt)?;
    pairs::run(rt)
}

fn main() {
    // An output that takes no more is no failure of this program.
    let _ = run(&Output);
}
