// Reads a planning sheet from standard input and prints its counts and records, or the refusal.
#![tactic(auto)]

use output::Output;
use sheet::Sheet;
use std::io::Error;

// The most bytes that are taken as a sheet.
const LONGEST: usize = 4096;

// The refusal of more bytes than these: the program's own, which is in no group.
const TOO_LONG: u16 = 17;

fn print_counts(rt: &impl Print, sheet: Sheet) -> Result<(), Error> {
    println!(rt; "services {}", sheet.services())?;
    println!(rt; "cabinets {}", sheet.cabinets())?;
    println!(rt; "streams {}", sheet.streams())?;
    println!(rt; "barred pairs {}", sheet.pairs())
}

fn print_services(rt: &impl Print, sheet: Sheet, bytes: &[u8]) -> Result<(), Error> {
    for i in 0..sheet.services() {
        if let Some(k) = sheet.service(bytes, i) {
            println!(rt; "service {i}: {}", k.demand)?;
        }
    }
    Ok(())
}

fn print_cabinets(rt: &impl Print, sheet: Sheet, bytes: &[u8]) -> Result<(), Error> {
    for c in 0..sheet.cabinets() {
        if let Some(k) = sheet.cabinet(bytes, c) {
            println!(rt;
                "cabinet {c}: {} {} {} {} {} {} {}",
                k.parent,
                k.capacity,
                k.price,
                k.up_capacity,
                k.up_price,
                k.down_capacity,
                k.down_price,
            )?;
        }
    }
    Ok(())
}

fn print_streams(rt: &impl Print, sheet: Sheet, bytes: &[u8]) -> Result<(), Error> {
    for j in 0..sheet.streams() {
        if let Some(t) = sheet.stream(bytes, j) {
            println!(rt; "stream {j}: {} {} {}", t.from, t.to, t.demand)?;
        }
    }
    Ok(())
}

fn print_pairs(rt: &impl Print, sheet: Sheet, bytes: &[u8]) -> Result<(), Error> {
    for n in 0..sheet.pairs() {
        if let Some(p) = sheet.pair(bytes, n) {
            println!(rt; "barred {n}: {} {}", p.service, p.cabinet)?;
        }
    }
    Ok(())
}

// The sheet, or the number of the refusal.
fn read(bytes: &[u8]) -> Result<Sheet, u16> {
    if LONGEST < bytes.len() {
        return Err(TOO_LONG);
    }
    sheet::read(bytes).map_err(|refusal| refusal.number())
}

fn describe(rt: &impl Print, bytes: &[u8]) -> Result<(), Error> {
    let sheet = match read(bytes) {
        Ok(sheet) => sheet,
        Err(number) => return println!(rt; "refused {number}"),
    };
    print_counts(rt, sheet)?;
    print_services(rt, sheet, bytes)?;
    print_cabinets(rt, sheet, bytes)?;
    print_streams(rt, sheet, bytes)?;
    print_pairs(rt, sheet, bytes)
}

fn main() {
    let mut bytes = [0u8; LONGEST + 1];
    let n = io::read_full(0, &mut bytes);
    // An output that takes no more is no failure of this program.
    let _ = describe(&Output, &bytes[..n]);
}
