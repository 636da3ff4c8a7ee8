// Prints what the check answers on road M with a fourth block of barred pairs.
use crate::{ROAD_M, put, put_all, report, two};

// M with one pair barred.
fn put_barred(bytes: &mut [u8], service: usize, cabinet: usize) {
    put_all(bytes, &ROAD_M);
    put(bytes, 12, 74);
    put(bytes, 14, 68);
    put(bytes, 68, 1);
    put(bytes, 70, service);
    put(bytes, 72, cabinet);
}

// The plan (a, b) on M with one pair barred.
fn barred(service: usize, cabinet: usize, a: u16, b: u16) {
    let mut bytes = [0u8; 74];
    put_barred(&mut bytes, service, cabinet);
    two(&bytes, a, b);
}

fn root_barred() {
    barred(0, 0, 0, 1);
    barred(0, 0, 1, 2);
    barred(0, 0, 1, 0);
}

// A bar is on its own service and its own cabinet.
fn other_pairs() {
    barred(0, 1, 0, 1);
    barred(1, 0, 0, 1);
    barred(1, 1, 0, 1);
}

// The bar beside an overfull cabinet, an overfull link, and a cabinet that is not there.
fn several() {
    barred(0, 1, 1, 1);
    barred(0, 2, 2, 0);
    barred(1, 0, 3, 0);
}

// The last of two pairs is barred too.
fn last_pair() {
    let mut bytes = [0u8; 78];
    put_barred(&mut bytes, 0, 2);
    put(&mut bytes, 12, 78);
    put(&mut bytes, 68, 2);
    put(&mut bytes, 74, 1);
    put(&mut bytes, 76, 1);
    two(&bytes, 0, 1);
    two(&bytes, 2, 0);
    two(&bytes, 1, 2);
}

// A block of no pairs bars nothing.
fn no_pairs() {
    let mut bytes = [0u8; 70];
    put_all(&mut bytes, &ROAD_M);
    put(&mut bytes, 12, 70);
    put(&mut bytes, 14, 68);
    two(&bytes, 0, 1);
    two(&bytes, 1, 2);
    two(&bytes, 1, 0);
    two(&bytes, 0, 0);
    two(&bytes, 1, 1);
    two(&bytes, 2, 0);
    two(&bytes, 3, 0);
}

// Plans of another length: on M with the root barred, with a pair of service 2, and with a block that ends past the length.
fn lengths() {
    let mut bytes = [0u8; 74];
    let one = [0u16];
    let three = [0u16, 1, 0];
    put_barred(&mut bytes, 0, 0);
    report(&bytes, &one);
    report(&bytes, &three);
    put_barred(&mut bytes, 2, 0);
    report(&bytes, &one);
    put(&mut bytes, 68, 2);
    report(&bytes, &one);
}

pub(crate) fn run() {
    root_barred();
    other_pairs();
    several();
    last_pair();
    no_pairs();
    lengths();
}
