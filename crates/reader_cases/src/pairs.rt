// Runs the reader on sheets with a fourth block and prints the refusal of each, 0 for an accepted sheet; then reads the barred pairs of one.
ghost use Rattle.std.specs.Prelude.{◌<◌};

use crate::{Change, M, SMALLEST, put, put_word, say, say_changed, say_first, with};
use sheet::Sheet;
use std::io::Error;

// Where the header has the length, and where it has the start of the fourth block.
const LENGTH: usize = 12;

const FOURTH: usize = 14;

// Where a fourth block after road M starts.
const AFTER: u16 = 68;

// Room for road M and a fourth block of 2,001 pairs.
const ROOM: usize = 8074;

// Not even the count lies within the sheet.
const WITHOUT_COUNT: [Change; 4] = [
    ("a fourth block at 67", &[(7, 67)]),
    ("a fourth block at the length", &[(7, 68)]),
    ("a fourth block past the length", &[(7, 69)]),
    ("a fourth block at 65535", &[(7, 65535)]),
];

// The first in the order of giving, in which 18 and 19 come after 9.
const SEVERAL: [Change; 5] = [
    (
        "the length and a fourth block in the header",
        &[(6, 67), (7, 1)],
    ),
    (
        "an offset and a fourth block in the header",
        &[(3, 15), (7, 1)],
    ),
    (
        "a shared byte and a fourth block in the header",
        &[(3, 18), (7, 1)],
    ),
    (
        "an amount and a fourth block in the header",
        &[(33, 10001), (7, 1)],
    ),
    (
        "a link field of cabinet 0 and a fourth block in the header",
        &[(13, 1), (7, 1)],
    ),
];

// Puts a fourth block of so many pairs (0, 0) into a sheet of so many bytes.
fn put_fourth(bytes: &mut [u8], len: u16, at: u16, count: u16) {
    put_word(bytes, LENGTH, len);
    put_word(bytes, FOURTH, at);
    put_word(bytes, usize::from(at), count);
}

// Puts a pair into a fourth block after M.
fn put_pair(bytes: &mut [u8], number: u16, service: u16, cabinet: u16) {
    let at = usize::from(AFTER) + Sheet::COUNT + Sheet::PAIR * usize::from(number);
    put_word(bytes, at, service);
    put_word(bytes, at + 2, cabinet);
}

// M and a fourth block after it, in a sheet of so many bytes.
fn road<const N: usize>(len: u16, count: u16) -> [u8; N] {
    let mut bytes = [0u8; N];
    put(&mut bytes, 0, &M);
    put_fourth(&mut bytes, len, AFTER, count);
    bytes
}

fn headers(rt: &impl Print) -> Result<(), Error> {
    for at in 1..16 {
        say(rt, "a fourth block in the header", &with(M, &[(7, at)]))?;
    }
    Ok(())
}

// M and a fourth block of so many pairs after it, in a sheet of so many bytes.
fn after(rt: &impl Print, label: &str, count: u16, len: u16) -> Result<(), Error> {
    let bytes = road::<ROOM>(len, count);
    say_first(rt, label, &bytes, usize::from(len))
}

fn lengths(rt: &impl Print) -> Result<(), Error> {
    after(rt, "no pairs, up to the length", 0, 70)?;
    after(rt, "no pairs, a byte short", 0, 69)?;
    after(rt, "no pairs, a byte to spare", 0, 71)?;
    after(rt, "three pairs, up to the length", 3, 82)?;
    after(rt, "three pairs, a byte short", 3, 81)?;
    after(rt, "three pairs, a byte to spare", 3, 83)
}

fn counts(rt: &impl Print) -> Result<(), Error> {
    after(rt, "2000 pairs", 2000, 8070)?;
    after(rt, "2001 pairs", 2001, 8074)?;
    after(rt, "16384 pairs, whose size would wrap to 2", 16384, 70)?;
    after(rt, "65535 pairs, whose end would wrap to 66", 65535, 70)
}

// M with its blocks moved apart: services 24 to 28, cabinets 36 to 78, streams 86 to 92, in 100 bytes; and a fourth block among them.
fn among(rt: &impl Print, label: &str, at: u16, count: u16) -> Result<(), Error> {
    let mut bytes = [0u8; 100];
    put(&mut bytes, 0, &M[..16]);
    put(&mut bytes, 24, &M[16..20]);
    put(&mut bytes, 36, &M[20..62]);
    put(&mut bytes, 86, &M[62..]);
    let mut apart = with(bytes, &[(3, 24), (4, 36), (5, 86)]);
    put_fourth(&mut apart, 100, at, count);
    say(rt, label, &apart)
}

// A pair and its count are 6 bytes.
fn touching(rt: &impl Print) -> Result<(), Error> {
    among(rt, "a pair right after the header", 16, 1)?;
    among(rt, "a pair right before the services", 18, 1)?;
    among(rt, "a pair right after the services", 28, 1)?;
    among(rt, "a pair right before the cabinets", 30, 1)?;
    among(rt, "a pair right after the cabinets", 78, 1)?;
    among(rt, "a pair right before the streams", 80, 1)?;
    among(rt, "a pair right after the streams", 92, 1)
}

// A count that starts on another block's last byte is 0, as that byte is.
fn sharing(rt: &impl Print) -> Result<(), Error> {
    among(rt, "a pair on the first byte of the services", 19, 1)?;
    among(rt, "no pairs on the last byte of the services", 27, 0)?;
    among(rt, "a pair on the first byte of the cabinets", 31, 1)?;
    among(rt, "no pairs on the last byte of the cabinets", 77, 0)?;
    among(rt, "a pair on the first byte of the streams", 81, 1)?;
    among(rt, "no pairs on the last byte of the streams", 91, 0)?;
    among(rt, "three pairs around the services", 18, 3)?;
    among(rt, "no pairs inside the cabinets", 42, 0)
}

// The smallest sheet with its services inside the fourth block, which has so many pairs.
fn no_service(rt: &impl Print, label: &str, count: u16, len: u16) -> Result<(), Error> {
    let mut bytes = [0u8; 36];
    put(&mut bytes, 0, &SMALLEST);
    put_fourth(&mut bytes, len, 30, count);
    let inside = with(bytes, &[(3, 31)]);
    say_first(rt, label, &inside, usize::from(len))
}

fn empty_blocks(rt: &impl Print) -> Result<(), Error> {
    let inside = with(road::<74>(74, 1), &[(2, 0), (5, 71)]);
    say(rt, "no stream, inside the fourth block", &inside)?;
    no_service(rt, "no service, inside the fourth block", 0, 32)?;
    no_service(rt, "no service, and a pair", 1, 36)
}

// M and a fourth block of so many pairs after it, all (0, 0) but for one.
fn pair(
    rt: &impl Print,
    label: &str,
    count: u16,
    number: u16,
    service: u16,
    cabinet: u16,
) -> Result<(), Error>
    requires { count < 2002 }
{
    let len = AFTER + 2 + 4 * count;
    let mut bytes = road::<ROOM>(len, count);
    put_pair(&mut bytes, number, service, cabinet);
    say_first(rt, label, &bytes, usize::from(len))
}

fn names(rt: &impl Print) -> Result<(), Error> {
    pair(rt, "a pair with service 1 and cabinet 2", 1, 0, 1, 2)?;
    pair(rt, "a pair with service 2", 1, 0, 2, 0)?;
    pair(rt, "a pair with cabinet 3", 1, 0, 0, 3)?;
    pair(rt, "a pair with service 65535", 1, 0, 65535, 0)?;
    pair(rt, "a pair with cabinet 65535", 1, 0, 0, 65535)?;
    pair(rt, "service 2 in the first of three pairs", 3, 0, 2, 0)?;
    pair(rt, "service 2 in the last of three pairs", 3, 2, 2, 0)?;
    pair(rt, "cabinet 3 in the last of three pairs", 3, 2, 0, 3)?;
    pair(rt, "cabinet 3 in the last of 2000 pairs", 2000, 1999, 0, 3)
}

fn after_pairs(rt: &impl Print) -> Result<(), Error> {
    let mut bytes = road::<78>(78, 1);
    put_pair(&mut bytes, 1, 2, 3);
    say(rt, "service 2 and cabinet 3 after the last pair", &bytes)
}

// M with service 2 in a pair, and these words changed.
fn pair_and(rt: &impl Print, label: &str, words: &[(u8, u16)]) -> Result<(), Error> {
    let mut bytes = road::<74>(74, 1);
    put_pair(&mut bytes, 0, 2, 0);
    say(rt, label, &with(bytes, words))
}

fn several(rt: &impl Print) -> Result<(), Error> {
    say_changed(rt, M, &SEVERAL)?;
    pair(rt, "2001 pairs, the first with service 2", 2001, 0, 2, 0)?;
    pair_and(rt, "an amount and service 2 in a pair", &[(33, 10001)])?;
    pair_and(
        rt,
        "a link field of cabinet 0 and service 2 in a pair",
        &[(13, 1)],
    )
}

// The longest sheet, with a fourth block near its end.
fn late(rt: &impl Print, label: &str, at: u16, count: u16) -> Result<(), Error> {
    let mut bytes = [0u8; 65535];
    put(&mut bytes, 0, &M);
    put_fourth(&mut bytes, 65535, at, count);
    say(rt, label, &bytes)
}

fn longest(rt: &impl Print) -> Result<(), Error> {
    late(rt, "no pairs at 65533 of 65535 bytes", 65533, 0)?;
    late(rt, "no pairs at 65534, whose end would wrap to 0", 65534, 0)?;
    late(rt, "a pair at 65529", 65529, 1)?;
    late(rt, "a pair at 65530, whose end would wrap to 0", 65530, 1)?;
    late(
        rt,
        "2000 pairs at 57633, whose end would wrap to 99",
        57633,
        2000,
    )
}

// Pair n as it stands in the bytes.
fn print_pair(rt: &impl Print, sheet: Sheet, bytes: &[u8], n: usize) -> Result<(), Error> {
    match sheet.pair(bytes, n) {
        Some(p) => println!(rt; "pair {n}: {} {}", p.service, p.cabinet),
        None => println!(rt; "pair {n}: none"),
    }
}

fn print_pairs(rt: &impl Print, bytes: &[u8]) -> Result<(), Error> {
    let Ok(sheet) = sheet::read(bytes) else {
        return Ok(());
    };
    println!(rt; "pairs: {}", sheet.pairs())?;
    for n in 0..4 {
        print_pair(rt, sheet, bytes, n)?;
    }
    Ok(())
}

fn repeated(rt: &impl Print) -> Result<(), Error> {
    let mut bytes = road::<82>(82, 3);
    put_pair(&mut bytes, 0, 1, 2);
    put_pair(&mut bytes, 1, 0, 1);
    put_pair(&mut bytes, 2, 1, 2);
    say(rt, "a pair repeated", &bytes)?;
    print_pairs(rt, &bytes)
}

// A sheet of three pairs, asked for them in other bytes, which end before the last pair does.
fn cut_pairs(rt: &impl Print) -> Result<(), Error> {
    let Ok(sheet) = sheet::read(&road::<82>(82, 3)) else {
        return Ok(());
    };
    let cut = [0u8; 81];
    print_pair(rt, sheet, &cut, 1)?;
    print_pair(rt, sheet, &cut, 2)
}

pub(crate) fn run(rt: &impl Print) -> Result<(), Error> {
    headers(rt)?;
    say_changed(rt, M, &WITHOUT_COUNT)?;
    lengths(rt)?;
    counts(rt)?;
    touching(rt)?;
    sharing(rt)?;
    empty_blocks(rt)?;
    names(rt)?;
    after_pairs(rt)?;
    several(rt)?;
    longest(rt)?;
    repeated(rt)?;
    print_pairs(rt, &M)?;
    cut_pairs(rt)
}
