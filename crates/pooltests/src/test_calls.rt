//! Calls of a pool as tests make them: with what they ask of a lane, and what they leave of it.
ghost use Rattle.std.specs.Prelude.{◌≡◌, ◌+◌, ◌<◌, ◌≤◌, ℕ};
ghost use Rattle.steplaws.specs.Facts.{most_references};
ghost use Rattle.shardpool.specs.Tokens.{LaneOf};
ghost use Rattle.shardpool.specs.Lanes.{Owns, Made, holds, refs};
ghost use Rattle.guards.specs.Here.{HoldNothing};

use crate::contents::shows;
use guards::{Opened, open_lanes, open_lanes_wide};
use keybits::Shape;
use shardpool::{Census, CreateFault, Filling, Lane, Pool, Ref};
use slotcell::{ByteBuf, Clear};
use std::alloc::Global;
use std::fmt::Debug;
use std::process::Abort;

pub(crate) const NO_PLACE: Census = Census {
    free: 0,
    unopened: 0,
    filling: 0,
    present: 0,
    marked: 0,
    retired: 0,
};

/// A pool of so many lanes, of so many pages, of which the first has so many places.
pub(crate) const fn shape_of(lanes: u32, first_page: u32, pages: u32) -> Shape
    ensures { result.guests ≡ 0 }
{
    Shape {
        lanes,
        first_page,
        pages,
        last_generation: u32::MAX,
        tag: 0,
        guests: 0,
    }
}

/// A pool of this shape, with its lanes.
pub(crate) fn open_of<T: Clear + Drop, R: Abort>(rt: &R, alloc: Global, shape: Shape) -> Opened<T>
    requires { shape.guests ≡ 0 }
    ensures { HoldNothing result.lanes }
{
    let Ok(opened) = open_lanes(alloc, shape) else {
        panic!(rt; "no pool")
    };
    opened
}

/// The lane of this number, which is here.
pub(crate) fn take<T: Clear + Drop, R: Abort>(
    rt: &R,
    opened: &mut Opened<T>,
    number: u32,
) -> Lane<T>
    requires { HoldNothing opened.old.lanes }
    ensures pool { opened.new.pool ≡ opened.old.pool }
    ensures nothing { HoldNothing opened.new.lanes }
    ensures lane { Owns opened.new.pool result × (refs result ≡ 0) }
{
    let Some(lane) = opened.lanes.take(number) else {
        panic!(rt; "lane {number} is missing")
    };
    lane
}

/// What a close counts, of which no lane is missing.
pub(crate) fn close_all<T: Clear + Drop, R: Abort>(rt: &R, opened: Opened<T>) -> Census {
    let Ok(census) = opened.close() else {
        panic!(rt; "a lane is missing")
    };
    census
}

/// A pool of so many lanes of this shape, and the last of them.
pub(crate) fn open_last<T: Clear + Drop, R: Abort>(
    rt: &R,
    alloc: Global,
    shape: Shape,
) -> (Pool<T>, Lane<T>)
    requires { shape.guests ≡ 0 }
    ensures { Owns result.0 result.1 × (refs result.1 ≡ 0) }
{
    let mut opened = open_of(rt, alloc, shape);
    let lane = take(rt, &mut opened, shape.lanes.saturating_sub(1));
    (opened.pool, lane)
}

/// A pool of this wide shape, with its last lane, which has no reference.
pub(crate) fn open_wide_last<T: Clear + Drop, R: Abort>(
    rt: &R,
    alloc: Global,
    shape: Shape,
) -> (Pool<T>, Lane<T>)
    requires { shape.guests ≡ 0 }
    ensures { Owns result.0 result.1 × (refs result.1 ≡ 0) }
{
    let Ok(mut opened) = open_lanes_wide(alloc, shape) else {
        panic!(rt; "no pool")
    };
    let lane = take(rt, &mut opened, shape.lanes.saturating_sub(1));
    (opened.pool, lane)
}

/// A pool of two lanes with a place each, and the lanes.
pub(crate) fn open_pair<R: Abort>(
    rt: &R,
    alloc: Global,
) -> (Pool<ByteBuf>, Lane<ByteBuf>, Lane<ByteBuf>)
    ensures first { Owns result.0 result.1 × (refs result.1 ≡ 0) }
    ensures second { Owns result.0 result.2 × (refs result.2 ≡ 0) }
{
    let mut opened = open_of(rt, alloc, shape_of(2, 1, 1));
    let first = take(rt, &mut opened, 0);
    let second = take(rt, &mut opened, 1);
    (opened.pool, first, second)
}

/// A filling of a pool that gives one.
pub(crate) fn create<T: Clear + Drop, R: Abort>(
    rt: &R,
    pool: &Pool<T>,
    lane: &mut Lane<T>,
) -> Filling<T>
    requires { Owns pool.now lane.old }
    ensures owns { Owns pool.now lane.new }
    ensures refs { refs lane.new ≡ refs lane.old }
    ensures made { Made lane.new result }
{
    let Ok(filling) = pool.create(lane) else {
        panic!(rt; "no filling")
    };
    filling
}

/// A create that finds no place.
pub(crate) fn finds_full<T: Clear + Drop, R: Abort>(rt: &R, pool: &Pool<T>, lane: &mut Lane<T>)
    requires { Owns pool.now lane.old }
    ensures { Owns pool.now lane.new }
{
    match pool.create(lane) {
        Ok(filling) => {
            filling.forget();
            panic!(rt; "a place is free")
        }
        Err(fault) => {
            same(rt, &fault, &CreateFault::Full);
            same(rt, &fault.number(), &21);
        }
    }
}

/// Bytes are appended to a filling.
pub(crate) fn write<R: Abort>(rt: &R, filling: &mut Filling<ByteBuf>, bytes: &[u8])
    ensures key { filling.new.key ≡ filling.old.key }
    ensures made { (lane : LaneOf) → Made lane filling.old → Made lane filling.new }
{
    filling
        .value_mut()
        .append(bytes)
        .expect(rt, "memory for the bytes");
}

/// A filling of this key, which was empty, with these bytes.
pub(crate) fn fill<R: Abort>(
    rt: &R,
    pool: &Pool<ByteBuf>,
    lane: &mut Lane<ByteBuf>,
    key: u64,
    bytes: &[u8],
) -> Filling<ByteBuf>
    requires { Owns pool.now lane.old }
    ensures owns { Owns pool.now lane.new }
    ensures refs { refs lane.new ≡ refs lane.old }
    ensures made { Made lane.new result }
{
    let mut filling = create(rt, pool, lane);
    same(rt, &filling.key(), &key);
    same(rt, &filling.value().len(), &0);
    write(rt, &mut filling, bytes);
    filling
}

/// A filling of this key is published with these bytes.
pub(crate) fn publish<R: Abort>(
    rt: &R,
    pool: &Pool<ByteBuf>,
    lane: &mut Lane<ByteBuf>,
    key: u64,
    bytes: &[u8],
)
    requires { Owns pool.now lane.old }
    ensures owns { Owns pool.now lane.new }
    ensures refs { refs lane.new ≡ refs lane.old }
{
    let filling = fill(rt, pool, lane, key, bytes);
    same(rt, &pool.publish(lane, filling), &key);
}

/// An object that is left empty is published with a reference.
pub(crate) fn hold<T: Clear + Drop, R: Abort>(rt: &R, pool: &Pool<T>, lane: &mut Lane<T>) -> Ref<T>
    requires owns { Owns pool.now lane.old }
    requires room { refs lane.old < 1000 }
    ensures owns { Owns pool.now lane.new }
    ensures refs { refs lane.new ≡ refs lane.old + 1 }
    ensures held { 1 ≤ holds lane.new result.key }
{
    let filling = create(rt, pool, lane);
    pool.downgrade(lane, filling)
}

/// A reference is given back.
pub(crate) fn release<T: Clear + Drop>(pool: &Pool<T>, lane: &mut Lane<T>, reference: Ref<T>)
    requires owns { Owns pool.now lane.old }
    requires held { 1 ≤ holds lane.old reference.key }
    ensures owns { Owns pool.now lane.new }
    ensures refs { refs lane.new + 1 ≡ refs lane.old }
{
    pool.release(lane, reference);
}

/// A get that finds the key.
pub(crate) fn get<T: Clear + Drop, R: Abort>(
    rt: &R,
    pool: &Pool<T>,
    lane: &mut Lane<T>,
    key: u64,
) -> Ref<T>
    requires owns { Owns pool.now lane.old }
    requires room { refs lane.old < most_references }
    ensures owns { Owns pool.now lane.new }
    ensures refs { refs lane.new ≡ refs lane.old + 1 }
    ensures key { result.key ≡ key }
    ensures here { 1 ≤ holds lane.new key }
{
    let Some(reference) = pool.get(lane, key) else {
        panic!(rt; "{key} is not found")
    };
    same(rt, &reference.key(), &key);
    reference
}

/// A get that doesn't find the key.
pub(crate) fn misses<T: Clear + Drop, R: Abort>(
    rt: &R,
    pool: &Pool<T>,
    lane: &mut Lane<T>,
    key: u64,
)
    requires owns { Owns pool.now lane.old }
    requires room { refs lane.old < most_references }
    ensures owns { Owns pool.now lane.new }
    ensures refs { refs lane.new ≡ refs lane.old }
    ensures held { (k : ℕ) → holds lane.new k ≡ holds lane.old k }
{
    if let Some(reference) = pool.get(lane, key) {
        reference.forget();
        panic!(rt; "{key} is found");
    }
}

/// A clear, with this answer.
pub(crate) fn clear<T: Clear + Drop, R: Abort>(
    rt: &R,
    pool: &Pool<T>,
    lane: &mut Lane<T>,
    key: u64,
    marks: bool,
)
    requires { Owns pool.now lane.old }
    ensures owns { Owns pool.now lane.new }
    ensures refs { refs lane.new ≡ refs lane.old }
    ensures held { (k : ℕ) → holds lane.new k ≡ holds lane.old k }
{
    same(rt, &pool.clear(lane, key), &marks);
}

/// A reference shows these bytes.
pub(crate) fn reads<R: Abort>(rt: &R, lane: &Lane<ByteBuf>, reference: &Ref<ByteBuf>, bytes: &[u8])
    requires { 1 ≤ holds lane.now reference.now.key }
{
    assert!(rt;
        shows(lane, reference, bytes),
        "{} shows other bytes",
        reference.key()
    );
}

/// A lane tells another what it has seen.
pub(crate) fn tell<T: Clear + Drop>(pool: &Pool<T>, teller: &mut Lane<T>, hearer: &mut Lane<T>)
    requires teller { Owns pool.now teller.old }
    requires hearer { Owns pool.now hearer.old }
    ensures teller { Owns pool.now teller.new }
    ensures owns { Owns pool.now hearer.new }
    ensures refs { refs hearer.new ≡ refs hearer.old }
{
    let note = pool.tell(teller);
    pool.hear(hearer, note);
}

/// Stops the test unless these are equal. A call of this is proved much faster than the comparison written out.
pub(crate) fn same<T: PartialEq + Debug, R: Abort>(rt: &R, left: &T, right: &T) {
    assert_eq!(rt; *left, *right);
}
