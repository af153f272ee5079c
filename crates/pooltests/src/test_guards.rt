//! Closures and guards over the calls of a pool, and the objects of several keys at once.
ghost use Rattle.std.specs.Prelude.{◌≡◌};
ghost use Rattle.shardpool.specs.Lanes.{Owns, refs};

use crate::test_calls::{clear, open_last, publish, same, shape_of};
use guards::{FillGuard, ReadGuard, create_with, with, with_four, with_three, with_two};
use shardpool::{CreateFault, Lane, Pool};
use slotcell::{ByteBuf, Record};

/// The key of a new object, which a closure fills.
fn create_two_bytes(pool: &Pool<ByteBuf>, lane: &mut Lane<ByteBuf>) -> Result<u64, CreateFault>
    requires { Owns pool.now lane.old }
    ensures { Owns pool.now lane.new × (refs lane.new ≡ refs lane.old) }
{
    create_with(pool, lane, |bytes: &mut ByteBuf| {
        let _ = bytes.append(b"hi");
    })
}

#[test]
fn closures_run_between_the_calls(rt: HostRuntime) {
    let (pool, mut lane) = open_last(&rt, rt.alloc(), shape_of(1, 2, 1));
    same(&rt, &create_two_bytes(&pool, &mut lane), &Ok(16777216));
    let length = with(&pool, &mut lane, 16777216, |bytes: &ByteBuf| bytes.len());
    same(&rt, &length, &Some(2));
    clear(&rt, &pool, &mut lane, 16777216, true);
    let behind = with(&pool, &mut lane, 16777216, |_: &ByteBuf| {
        panic!(&rt; "it runs behind a clear")
    });
    same(&rt, &behind, &None::<u64>);
}

#[test]
fn no_closure_runs_where_a_call_finds_nothing(rt: HostRuntime) {
    let (pool, mut lane) = open_last(&rt, rt.alloc(), shape_of(1, 1, 1));
    let one = with(&pool, &mut lane, 16777216, |_: &ByteBuf| {
        panic!(&rt; "it runs without an object")
    });
    same(&rt, &one, &None::<u64>);
    publish(&rt, &pool, &mut lane, 16777216, b"a");
    let two = with_two(
        &pool,
        &mut lane,
        (16777216, 33554432),
        |_: &ByteBuf, _: &ByteBuf| { panic!(&rt; "it runs with one object of two") },
    );
    same(&rt, &two, &None::<u64>);
    let full = create_with(&pool, &mut lane, |_: &mut ByteBuf| {
        panic!(&rt; "it runs without a place")
    });
    same(&rt, &full, &Err(CreateFault::Full));
}

/// Fills a place by a guard. Without a number the guard is dropped in the middle.
fn filled(
    pool: &Pool<Record>,
    lane: &mut Lane<Record>,
    number: Option<u64>,
) -> Result<u64, CreateFault>
    requires { Owns pool.now lane.old }
    ensures { Owns pool.now lane.new × (refs lane.new ≡ refs lane.old) }
{
    let mut guard = FillGuard::new(lane, pool)?;
    let Some(number) = number else {
        return Err(CreateFault::Memory);
    };
    guard.value_mut().push(number);
    Ok(guard.key())
}

/// The first number of a key's record. Without one the guard is dropped in the middle.
fn first_of(pool: &Pool<Record>, lane: &mut Lane<Record>, key: u64) -> Option<u64>
    requires { Owns pool.now lane.old × (refs lane.old ≡ 0) }
    ensures { Owns pool.now lane.new × (refs lane.new ≡ 0) }
{
    let guard = ReadGuard::new(lane, pool, key)?;
    let first = guard.value().as_slice().first()?;
    Some(*first)
}

/// A guard that fills becomes one that reads. The key of its object.
fn downgraded(pool: &Pool<Record>, lane: &mut Lane<Record>) -> Result<u64, CreateFault>
    requires { Owns pool.now lane.old × (refs lane.old ≡ 0) }
{
    let guard = FillGuard::new(lane, pool)?.downgrade();
    Ok(guard.key())
}

#[test]
fn guards_end_by_themselves(rt: HostRuntime) {
    let (pool, mut lane) = open_last(&rt, rt.alloc(), shape_of(1, 4, 1));
    same(
        &rt,
        &filled(&pool, &mut lane, None),
        &Err(CreateFault::Memory),
    );
    same(&rt, &filled(&pool, &mut lane, Some(7)), &Ok(16777217));
    same(&rt, &first_of(&pool, &mut lane, 16777216), &None);
    same(&rt, &first_of(&pool, &mut lane, 16777217), &Some(7));
    same(&rt, &downgraded(&pool, &mut lane), &Ok(16777218));

    // A guard that was dropped has given its reference back: the only place can be had again behind a clear.
    let (pool, mut lane) = open_last(&rt, rt.alloc(), shape_of(1, 1, 1));
    same(&rt, &filled(&pool, &mut lane, Some(7)), &Ok(16777216));
    same(&rt, &first_of(&pool, &mut lane, 16777216), &Some(7));
    clear(&rt, &pool, &mut lane, 16777216, true);
    same(&rt, &filled(&pool, &mut lane, Some(8)), &Ok(33554432));
}

#[test]
fn several_objects_are_lent_at_once(rt: HostRuntime) {
    let (pool, mut lane) = open_last(&rt, rt.alloc(), shape_of(1, 2, 1));
    publish(&rt, &pool, &mut lane, 16777216, b"a");
    publish(&rt, &pool, &mut lane, 16777217, b"bc");
    let two = with_two(
        &pool,
        &mut lane,
        (16777216, 16777217),
        |x: &ByteBuf, y: &ByteBuf| (x.len(), y.len()),
    );
    same(&rt, &two, &Some((1, 2)));
    let three = with_three(
        &pool,
        &mut lane,
        (16777216, 16777217, 16777216),
        |x: &ByteBuf, y: &ByteBuf, z: &ByteBuf| (x.len(), y.len(), z.len()),
    );
    same(&rt, &three, &Some((1, 2, 1)));
    let four = with_four(
        &pool,
        &mut lane,
        (16777217, 16777216, 16777216, 16777217),
        |x: &ByteBuf, y: &ByteBuf, z: &ByteBuf, w: &ByteBuf| (x.len(), y.len(), z.len(), w.len()),
    );
    same(&rt, &four, &Some((2, 1, 1, 2)));
}
