// What no clause says: a box comes out as the one that was put in, and may be brought again; also from a place that gets
// no object any more.
ghost use Rattle.std.specs.Prelude.{◌≡◌};
ghost use Rattle.shardpool.specs.Lanes.{Owns, refs};

use crate::{Held, clear, get, release};
use keybits::Shape;
use shardpool::{Lane, Pool, open};
use slotcell::{ByteBuf, Clear};
use std::alloc::Global;
use std::process::Abort;
use std::test::Fail;

const SHAPE: Shape = Shape {
    lanes: 1,
    first_page: 1,
    pages: 1,
    last_generation: 2,
    tag: 0,
    guests: 0,
};

// A pool of one lane, with that lane.
fn opened<R: Abort>(rt: &R, alloc: Global) -> (Pool<Held<ByteBuf>>, Lane<Held<ByteBuf>>)
    ensures { Owns result.0 result.1 × (refs result.1 ≡ 0) }
{
    let Ok((pool, lanes)) = open(alloc, SHAPE) else {
        panic!(rt; "no pool")
    };
    let mut lanes = lanes;
    let Some(lane) = lanes.pop() else {
        panic!(rt; "no lane")
    };
    (pool, lane)
}

// A box with a word.
fn boxed<R: Abort>(rt: &R, alloc: Global, word: &[u8]) -> Box<ByteBuf> {
    let mut buffer = ByteBuf::fresh(alloc);
    let _ = buffer.append(word);
    let Ok(boxed) = Box::new(alloc, buffer) else {
        panic!(rt; "no memory")
    };
    boxed
}

// Publishes what a box holds. Answers its key.
fn put<R: Abort>(
    rt: &R,
    pool: &Pool<Held<ByteBuf>>,
    lane: &mut Lane<Held<ByteBuf>>,
    spare: Box<ByteBuf>,
) -> u64
    requires { Owns pool.now lane.old }
    ensures owns { Owns pool.now lane.new }
    ensures refs { refs lane.new ≡ refs lane.old }
{
    let Ok(mut filling) = pool.create(lane) else {
        panic!(rt; "no place is free")
    };
    drop(filling.value_mut().put(spare));
    pool.publish(lane, filling)
}

fn shows(out: &Option<Box<ByteBuf>>, word: &[u8]) -> bool {
    match out {
        Some(boxed) => boxed.as_slice() == word,
        None => false,
    }
}

#[test]
fn what_was_cleared_comes_out(rt: HostRuntime) -> Result<(), Fail> {
    let alloc = rt.alloc();
    let (pool, mut lane) = opened(&rt, alloc);
    let key = put(&rt, &pool, &mut lane, boxed(&rt, alloc, b"word"));
    let (found, none) = get(&pool, &mut lane, key);
    let Some(reference) = found else {
        panic!(rt; "the key isn't found")
    };
    assert!(rt; none.is_none());
    let (marked, none) = clear(&pool, &mut lane, key);
    assert!(rt; marked && none.is_none());
    let out = release(&pool, &mut lane, reference);
    assert!(rt; shows(&out, b"word"));
    let Some(spare) = out else {
        panic!(rt; "nothing came out")
    };
    let key = put(&rt, &pool, &mut lane, spare);
    let (marked, out) = clear(&pool, &mut lane, key);
    assert!(rt; marked && shows(&out, b"word"));
    let (found, none) = get(&pool, &mut lane, key);
    if let Some(reference) = found {
        reference.forget();
        panic!(rt; "the key is found")
    }
    assert!(rt; none.is_none());
    Ok(())
}
