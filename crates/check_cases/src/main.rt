// Prints what the check answers on the measured roads, on sums above 65,535, on long roads, a chain and a star of 200 cabinets with 100 streams, with
// barred pairs, and where framing fills a link. By the kit's io, so that no handle has to go through every case.
#![tactic(auto)]

ghost use Rattle.std.specs.Prelude.{◌≡◌, ◌+◌, ◌<◌, length};

mod bars; // bars.rt: road M with barred pairs
mod framing; // framing.rt: road M with streams whose framing fills a link
mod joints; // joints.rt: road M with services of demand 0 and with joints

use sheet::Refusal;

const ROAD_M: [u16; 34] = [
    2, 3, 1, 16, 20, 62, 68, 0, 2, 2, 65535, 4, 5, 0, 0, 0, 0, 0, 3, 1, 6, 2, 6, 1, 0, 3, 2, 2, 1,
    6, 1, 0, 1, 3,
];

// Road M with two streams of one pair: together, with their framing, they fill the up capacity of cabinet 1.
const PAIR_FITS: [u16; 37] = [
    2, 3, 2, 16, 20, 62, 74, 0, 2, 2, 65535, 4, 5, 0, 0, 0, 0, 0, 3, 1, 6, 2, 6, 1, 0, 3, 2, 2, 1,
    6, 1, 0, 1, 1, 0, 1, 1,
];

// The same with one unit too much.
const PAIR_TOO_MUCH: [u16; 37] = [
    2, 3, 2, 16, 20, 62, 74, 0, 2, 2, 65535, 4, 5, 0, 0, 0, 0, 0, 3, 1, 6, 2, 6, 1, 0, 3, 2, 2, 1,
    6, 1, 0, 1, 1, 0, 1, 2,
];

// Case Z: the root is a joint, and service 2 has demand 0.
const ROAD_Z: [u16; 38] = [
    3, 3, 2, 16, 22, 64, 76, 0, 2, 2, 0, 65535, 0, 5, 0, 0, 0, 0, 0, 3, 1, 6, 2, 6, 1, 0, 3, 2, 2,
    1, 6, 1, 2, 0, 3, 2, 1, 3,
];

// Seven services of 10,000 for one cabinet of 10,000: the demands sum to 70,000.
const CROWD: [u16; 22] = [
    7, 1, 0, 16, 30, 44, 44, 0, 10000, 10000, 10000, 10000, 10000, 10000, 10000, 65535, 10000, 1,
    0, 0, 0, 0,
];

// One service of 10,000 at a price of 10,000.
const DEAR: [u16; 16] = [
    1, 1, 0, 16, 18, 32, 32, 0, 10000, 65535, 10000, 10000, 0, 0, 0, 0,
];

// The plan for the long roads.
const SPREAD: [u16; 10] = [5, 42, 79, 116, 153, 190, 27, 64, 101, 138];

fn print_group(refusal: Refusal) {
    match refusal {
        Refusal::SheetWriter(_) => io::write_all(1, b" sheet writer\n"),
        Refusal::Lender(_) => io::write_all(1, b" lender\n"),
        Refusal::Road(_) => io::write_all(1, b" road\n"),
        Refusal::PlanWriter(_) => io::write_all(1, b" plan writer\n"),
    };
}

fn print_refusal(refusal: Refusal) {
    io::write_all(1, b"refused ");
    io::print_decimal(1, u64::from(refusal.number()));
    print_group(refusal);
}

fn print_cost(cost: u64) {
    io::write_all(1, b"cost ");
    io::print_decimal(1, cost);
    io::write_all(1, b"\n");
}

fn report(bytes: &[u8], plan: &[u16]) {
    match checker::check(bytes, plan) {
        Ok(cost) => print_cost(cost),
        Err(refusal) => print_refusal(refusal),
    }
}

fn put_byte(bytes: &mut [u8], at: usize, byte: u8) {
    if let Some(place) = bytes.get_mut(at) {
        *place = byte;
    }
}

// A word, low byte first. The byte after it.
fn put(bytes: &mut [u8], at: usize, word: usize) -> usize
    requires { at < 4096 }
    ensures { result ≡ at + 2 }
{
    let [low, high] = ((word % 65536) as u16).to_le_bytes();
    put_byte(bytes, at, low);
    put_byte(bytes, at + 1, high);
    at + 2
}

fn put_all(bytes: &mut [u8], words: &[u16])
    requires { length words.now < 2000 }
{
    for (i, word) in words.iter().enumerate() {
        put(bytes, 2 * i, usize::from(*word));
    }
}

fn two(bytes: &[u8], a: u16, b: u16) {
    let plan = [a, b];
    report(bytes, &plan);
}

fn road_m() {
    let mut bytes = [0u8; 68];
    put_all(&mut bytes, &ROAD_M);
    two(&bytes, 0, 1);
    two(&bytes, 1, 2);
    two(&bytes, 1, 0);
    two(&bytes, 0, 0);
    two(&bytes, 1, 1);
    two(&bytes, 2, 0);
    two(&bytes, 3, 0);
}

// The first n bytes alone.
fn cut(bytes: &[u8], n: usize, plan: &[u16]) {
    if n <= bytes.len() {
        report(&bytes[..n], plan);
    }
}

// Plans of another length, and sheets that the reader refuses.
fn refusals() {
    let mut bytes = [0u8; 68];
    put_all(&mut bytes, &ROAD_M);
    let one = [3u16];
    let three = [0u16, 1, 0];
    report(&bytes, &one);
    report(&bytes, &three);
    cut(&bytes, 15, &one);
    cut(&bytes, 67, &one);
    put(&mut bytes, 66, 10001);
    report(&bytes, &one);
}

fn pairs() {
    let mut bytes = [0u8; 74];
    put_all(&mut bytes, &PAIR_FITS);
    two(&bytes, 1, 0);
    put_all(&mut bytes, &PAIR_TOO_MUCH);
    two(&bytes, 1, 0);
}

fn road_z() {
    let mut bytes = [0u8; 76];
    put_all(&mut bytes, &ROAD_Z);
    let on_the_root = [1u16, 2, 0];
    report(&bytes, &on_the_root);
    let beside_it = [1u16, 2, 1];
    report(&bytes, &beside_it);
}

fn sums() {
    let mut crowd = [0u8; 44];
    put_all(&mut crowd, &CROWD);
    let together = [0u16; 7];
    report(&crowd, &together);
    let mut dear = [0u8; 32];
    put_all(&mut dear, &DEAR);
    let alone = [0u16];
    report(&dear, &alone);
}

// How the cabinets of a long road hang: all from the root, or each from the one before it.
#[derive(Clone, Copy)]
enum Shape {
    Star,
    Chain,
}

// The parent of cabinet c.
fn parent(shape: Shape, c: usize) -> usize {
    if c == 0 {
        return 65535;
    }
    match shape {
        Shape::Star => 0,
        Shape::Chain => c - 1,
    }
}

// n, but 0 for the root, which has no link.
fn linked(c: usize, n: usize) -> usize {
    if c == 0 { 0 } else { n }
}

fn put_cabinet(bytes: &mut [u8], shape: Shape, c: usize, up_capacity: usize)
    requires { c < 200 }
{
    let mut at = 36 + 14 * c;
    at = put(bytes, at, parent(shape, c));
    at = put(bytes, at, 10000);
    at = put(bytes, at, c + 1);
    at = put(bytes, at, linked(c, up_capacity));
    at = put(bytes, at, linked(c, 10000 - c));
    at = put(bytes, at, linked(c, 10000));
    put(bytes, at, linked(c, 9000 + c));
}

fn put_stream(bytes: &mut [u8], j: usize)
    requires { j < 100 }
{
    let mut at = 2836 + 6 * j;
    at = put(bytes, at, j % 10);
    at = put(bytes, at, (j % 10 + 1 + j / 10 % 9) % 10);
    put(bytes, at, 2 * j + 2);
}

fn capacity(c: usize, narrow: usize, capacity: usize) -> usize {
    if c == narrow { capacity } else { 10000 }
}

fn put_cabinets(bytes: &mut [u8], shape: Shape, narrow: usize, up_capacity: usize) {
    for c in 0..200 {
        put_cabinet(bytes, shape, c, capacity(c, narrow, up_capacity));
    }
}

fn put_streams(bytes: &mut [u8]) {
    for j in 0..100 {
        put_stream(bytes, j);
    }
}

const LONG_HEADER: [u16; 18] = [
    10, 200, 100, 16, 36, 2836, 3436, 0, 1000, 1001, 1002, 1003, 1004, 1005, 1006, 1007, 1008, 1009,
];

// A road of 200 cabinets, with the up capacity of one of them given.
fn long_road(shape: Shape, narrow: usize, up_capacity: usize) {
    let mut bytes = io::buffer();
    put_all(&mut bytes, &LONG_HEADER);
    put_cabinets(&mut bytes, shape, narrow, up_capacity);
    put_streams(&mut bytes);
    cut(&bytes, 3436, &SPREAD);
}

// What the plan puts on the up direction of cabinet 100 of the chain, 27 streams and their framing.
const CHAIN_LOAD: usize = 2786;

// What it puts on the up direction of cabinet 5 of the star, 10 streams and their framing.
const STAR_LOAD: usize = 940;

fn main() {
    road_m();
    refusals();
    pairs();
    road_z();
    sums();
    long_road(Shape::Chain, 100, 10000);
    long_road(Shape::Chain, 100, CHAIN_LOAD);
    long_road(Shape::Chain, 100, CHAIN_LOAD - 1);
    long_road(Shape::Star, 5, 10000);
    long_road(Shape::Star, 5, STAR_LOAD);
    long_road(Shape::Star, 5, STAR_LOAD - 1);
    bars::run();
    framing::run();
    joints::run();
}
