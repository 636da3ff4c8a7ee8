// Prints what the check answers on road M with services of demand 0 and with joints, cabinets of capacity 0.
ghost use Rattle.std.specs.Prelude.{◌<◌};

use crate::{ROAD_M, put, put_all, report, two};

// Where the capacities of the three cabinets stand.
const ROOT: usize = 22;

const FIRST: usize = 36;

const SECOND: usize = 50;

// M with services of demand 0.
fn put_idle(bytes: &mut [u8]) {
    put_all(bytes, &ROAD_M);
    put(bytes, 16, 0);
    put(bytes, 18, 0);
}

// The plan (a, b) on that road with a joint, by the place of its capacity.
fn joint(at: usize, a: u16, b: u16)
    requires { at < 4096 }
{
    let mut bytes = [0u8; 68];
    put_idle(&mut bytes);
    put(&mut bytes, at, 0);
    two(&bytes, a, b);
}

// A service on the joint, also each alone; the stream through it; and both services beside it.
fn at_the_root() {
    joint(ROOT, 0, 1);
    joint(ROOT, 1, 0);
    joint(ROOT, 0, 0);
    joint(ROOT, 1, 2);
    joint(ROOT, 1, 1);
}

// A joint at a leaf; with the link up from it overfull too, which is 16 where it is no joint.
fn at_a_leaf() {
    joint(SECOND, 0, 2);
    joint(SECOND, 2, 0);
    joint(FIRST, 2, 0);
    joint(SECOND, 0, 1);
}

// The joint beside a cabinet that is not there, and beside a plan of another length.
fn before_it() {
    let mut bytes = [0u8; 68];
    let one = [0u16];
    put_idle(&mut bytes);
    put(&mut bytes, ROOT, 0);
    two(&bytes, 0, 3);
    report(&bytes, &one);
}

// The joint barred too.
fn barred() {
    let mut bytes = [0u8; 74];
    put_idle(&mut bytes);
    put(&mut bytes, ROOT, 0);
    put(&mut bytes, 12, 74);
    put(&mut bytes, 14, 68);
    put(&mut bytes, 68, 1);
    put(&mut bytes, 70, 0);
    put(&mut bytes, 72, 0);
    two(&bytes, 0, 1);
    two(&bytes, 1, 0);
}

// Joints only.
fn everywhere() {
    let mut bytes = [0u8; 68];
    put_idle(&mut bytes);
    put(&mut bytes, ROOT, 0);
    put(&mut bytes, FIRST, 0);
    put(&mut bytes, SECOND, 0);
    two(&bytes, 1, 1);
    two(&bytes, 1, 2);
}

pub(crate) fn run() {
    at_the_root();
    at_a_leaf();
    before_it();
    barred();
    everywhere();
}
