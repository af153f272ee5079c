//! A filling that is dropped.

use crate::test_calls::{clear, fill, finds_full, misses, open_last, publish, shape_of};

// Keys of the only place, at its first and its second generation.
const FIRST: u64 = 16777216;

const AGAIN: u64 = 33554432;

#[test]
fn a_dropped_filling_gives_its_place_back(rt: HostRuntime) {
    let (pool, mut lane) = open_last(&rt, rt.alloc(), shape_of(1, 1, 1));
    let filling = fill(&rt, &pool, &mut lane, FIRST, b"a");
    pool.discard(&mut lane, filling);
    misses(&rt, &pool, &mut lane, FIRST);
    clear(&rt, &pool, &mut lane, FIRST, false);
    publish(&rt, &pool, &mut lane, AGAIN, b"b");
}

#[test]
fn a_dropped_filling_of_the_last_generation_ends_its_place(rt: HostRuntime) {
    let mut shape = shape_of(1, 1, 1);
    shape.last_generation = 1;
    let (pool, mut lane) = open_last(&rt, rt.alloc(), shape);
    let filling = fill(&rt, &pool, &mut lane, FIRST, b"a");
    pool.discard(&mut lane, filling);
    misses(&rt, &pool, &mut lane, FIRST);
    finds_full(&rt, &pool, &mut lane);
}
