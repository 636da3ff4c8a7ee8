// Prints what the check answers for the plan (1, 0) on road M with other streams, where their load just fits a link, and where it is one too much.
ghost use Rattle.std.specs.Prelude.{◌<◌};

use crate::{ROAD_M, put, put_all, two};

// M with an up capacity of cabinet 1 and so many streams, which are still to be put.
fn put_road(bytes: &mut [u8], up_capacity: usize, streams: usize)
    requires { streams < 101 }
{
    put_all(bytes, &ROAD_M);
    put(bytes, 4, streams);
    put(bytes, 12, 62 + 6 * streams);
    put(bytes, 40, up_capacity);
}

fn put_stream(bytes: &mut [u8], j: usize, from: usize, to: usize, demand: usize)
    requires { j < 100 }
{
    let mut at = 62 + 6 * j;
    at = put(bytes, at, from);
    at = put(bytes, at, to);
    put(bytes, at, demand);
}

// One stream, upwards.
fn one(up_capacity: usize, demand: usize) {
    let mut bytes = [0u8; 68];
    put_road(&mut bytes, up_capacity, 1);
    put_stream(&mut bytes, 0, 0, 1, demand);
    two(&bytes, 1, 0);
}

// A stream of 1 upwards, and one of 2 between the services given.
fn beside(up_capacity: usize, from: usize, to: usize) {
    let mut bytes = [0u8; 74];
    put_road(&mut bytes, up_capacity, 2);
    put_stream(&mut bytes, 0, 0, 1, 1);
    put_stream(&mut bytes, 1, from, to, 2);
    two(&bytes, 1, 0);
}

fn put_hundred(bytes: &mut [u8], demand: usize) {
    for j in 0..100 {
        put_stream(bytes, j, 0, 1, demand);
    }
}

// A hundred streams, upwards.
fn hundred(up_capacity: usize, demand: usize) {
    let mut bytes = [0u8; 662];
    put_road(&mut bytes, up_capacity, 100);
    put_hundred(&mut bytes, demand);
    two(&bytes, 1, 0);
}

pub(crate) fn run() {
    one(5, 3);
    one(4, 3);
    one(0, 0);
    one(3, 1);
    one(2, 1);
    beside(7, 0, 1);
    beside(6, 0, 1);
    beside(3, 1, 0);
    beside(2, 1, 0);
    hundred(300, 1);
    hundred(299, 1);
    hundred(10000, 98);
    hundred(10000, 99);
    hundred(0, 0);
}
