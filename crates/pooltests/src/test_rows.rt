//! What calls of one thread answer, one after another.
ghost use Rattle.std.specs.Prelude.{◌<◌, ◌≤◌};
ghost use Rattle.shardpool.specs.Lanes.{Owns, holds, refs};

use crate::test_calls::{
    clear, create, fill, finds_full, get, misses, open_last, open_pair, open_wide_last, publish,
    reads, release, same, shape_of, tell,
};
use shardpool::{Lane, Pool, Ref};
use slotcell::ByteBuf;
use std::alloc::Global;
use std::process::Abort;

// Keys of place 0 of shard 0, at its first and its second generation.
const FIRST: u64 = 16777216;

const AGAIN: u64 = 33554432;

// The places of a lane of the largest shape.
const PLACES: u32 = 4032;

/// Both lanes read on after a clear, until each gives its reference back.
fn read_on<R: Abort>(
    rt: &R,
    pool: &Pool<ByteBuf>,
    first: &mut Lane<ByteBuf>,
    second: &mut Lane<ByteBuf>,
    one: Ref<ByteBuf>,
    other: Ref<ByteBuf>,
)
    requires first { Owns pool.now first.old × (refs first.old < 2000) × (1 ≤ holds first.old one.key) }
    requires second { Owns pool.now second.old × (1 ≤ holds second.old other.key) }
{
    clear(rt, pool, first, FIRST, true);
    misses(rt, pool, first, FIRST);
    reads(rt, first, &one, b"a");
    release(pool, first, one);
    clear(rt, pool, second, FIRST, false);
    reads(rt, second, &other, b"a");
    release(pool, second, other);
    let filling = fill(rt, pool, first, AGAIN, b"");
    filling.forget();
}

fn clear_under_two<R: Abort>(
    rt: &R,
    pool: &Pool<ByteBuf>,
    first: &mut Lane<ByteBuf>,
    second: &mut Lane<ByteBuf>,
)
    requires first { Owns pool.now first.old × (refs first.old < 1000) }
    requires second { Owns pool.now second.old × (refs second.old < 1000) }
{
    publish(rt, pool, first, FIRST, b"a");
    let one = get(rt, pool, first, FIRST);
    let other = get(rt, pool, second, FIRST);
    reads(rt, first, &one, b"a");
    reads(rt, second, &other, b"a");
    read_on(rt, pool, first, second, one, other);
}

fn return_and_publish<R: Abort>(
    rt: &R,
    pool: &Pool<ByteBuf>,
    first: &mut Lane<ByteBuf>,
    second: &mut Lane<ByteBuf>,
)
    requires first { Owns pool.now first.old × (refs first.old < 1000) }
    requires second { Owns pool.now second.old × (refs second.old < 1000) }
{
    publish(rt, pool, first, FIRST, b"");
    let reference = get(rt, pool, second, FIRST);
    clear(rt, pool, first, FIRST, true);
    release(pool, second, reference);
    publish(rt, pool, first, AGAIN, b"");
}

fn clear_of_a_held_key<R: Abort>(
    rt: &R,
    pool: &Pool<ByteBuf>,
    first: &mut Lane<ByteBuf>,
    second: &mut Lane<ByteBuf>,
)
    requires first { Owns pool.now first.old × (refs first.old < 1000) }
    requires second { Owns pool.now second.old }
{
    let filling = fill(rt, pool, first, FIRST, b"z");
    let reference = pool.downgrade(first, filling);
    clear(rt, pool, second, FIRST, true);
    misses(rt, pool, first, FIRST);
    reads(rt, first, &reference, b"z");
    reference.forget();
}

fn hear_and_get<R: Abort>(
    rt: &R,
    pool: &Pool<ByteBuf>,
    first: &mut Lane<ByteBuf>,
    second: &mut Lane<ByteBuf>,
)
    requires first { Owns pool.now first.old }
    requires second { Owns pool.now second.old × (refs second.old < 1000) }
{
    publish(rt, pool, first, FIRST, b"hi");
    tell(pool, first, second);
    let reference = get(rt, pool, second, FIRST);
    reads(rt, second, &reference, b"hi");
    reference.forget();
}

fn hear_and_create<R: Abort>(
    rt: &R,
    pool: &Pool<ByteBuf>,
    first: &mut Lane<ByteBuf>,
    second: &mut Lane<ByteBuf>,
)
    requires first { Owns pool.now first.old }
    requires second { Owns pool.now second.old × (refs second.old < 1000) }
{
    publish(rt, pool, first, FIRST, b"");
    let reference = get(rt, pool, second, FIRST);
    clear(rt, pool, first, FIRST, true);
    release(pool, second, reference);
    tell(pool, second, first);
    let filling = fill(rt, pool, first, AGAIN, b"");
    filling.forget();
}

/// What two lanes of a pool do, one after the other.
#[derive(Clone, Copy)]
enum Calls {
    ReadOnAfterAClear,
    PublishAReturnedPlace,
    ReadWhatAnotherCleared,
    FindAKeyHeardOf,
    CreateWhatWasReturned,
}

/// These calls of two lanes with a place each.
fn call_in_turn<R: Abort>(
    rt: &R,
    pool: &Pool<ByteBuf>,
    first: &mut Lane<ByteBuf>,
    second: &mut Lane<ByteBuf>,
    calls: Calls,
)
    requires first { Owns pool.now first.old × (refs first.old < 1000) }
    requires second { Owns pool.now second.old × (refs second.old < 1000) }
{
    match calls {
        Calls::ReadOnAfterAClear => clear_under_two(rt, pool, first, second),
        Calls::PublishAReturnedPlace => return_and_publish(rt, pool, first, second),
        Calls::ReadWhatAnotherCleared => clear_of_a_held_key(rt, pool, first, second),
        Calls::FindAKeyHeardOf => hear_and_get(rt, pool, first, second),
        Calls::CreateWhatWasReturned => hear_and_create(rt, pool, first, second),
    }
}

/// Two lanes of a pool with a place each make these calls.
fn call<R: Abort>(rt: &R, alloc: Global, calls: Calls) {
    let (pool, mut first, mut second) = open_pair(rt, alloc);
    call_in_turn(rt, &pool, &mut first, &mut second, calls);
}

#[test]
fn two_lanes_call_in_turn(rt: HostRuntime) {
    call(&rt, rt.alloc(), Calls::ReadOnAfterAClear);
    call(&rt, rt.alloc(), Calls::PublishAReturnedPlace);
    call(&rt, rt.alloc(), Calls::ReadWhatAnotherCleared);
    call(&rt, rt.alloc(), Calls::FindAKeyHeardOf);
    call(&rt, rt.alloc(), Calls::CreateWhatWasReturned);
}

/// A filling of each of so many places of a lane, those of these numbers with these keys; then no place is free.
fn fill_all<R: Abort>(
    rt: &R,
    pool: &Pool<ByteBuf>,
    lane: &mut Lane<ByteBuf>,
    places: u32,
    keys: &[(u32, u64)],
)
    requires pool { Owns pool.now lane.old }
    requires places { places ≤ 44992 }
{
    let mut rest = keys;
    for number in 1..=places {
        let filling = create(rt, pool, lane);
        if let [(next, key), others @ ..] = rest
            && *next == number
        {
            same(rt, &filling.key(), key);
            rest = others;
        }
        filling.forget();
    }
    same(rt, &rest.len(), &0);
    finds_full(rt, pool, lane);
}

/// The keys of some places of a lane of the largest shape, by their numbers.
fn keys_of(shard: u64) -> [(u32, u64); 6]
    requires { shard ≤ 983040 }
{
    [
        (1, shard + 16777216),
        (64, shard + 16777279),
        (65, shard + 16781312),
        (192, shard + 16781439),
        (193, shard + 16785408),
        (4032, shard + 16799743),
    ]
}

/// All places of the last of so many lanes are filled.
fn fill_last<R: Abort>(rt: &R, alloc: Global, lanes: u32, keys: &[(u32, u64)]) {
    let (pool, mut lane) = open_last(rt, alloc, shape_of(lanes, 64, 6));
    fill_all(rt, &pool, &mut lane, PLACES, keys);
}

#[test]
fn fills_all_places_of_a_lane(rt: HostRuntime) {
    // Those of lane 0, and of lane 15.
    fill_last(&rt, rt.alloc(), 1, &keys_of(0));
    fill_last(&rt, rt.alloc(), 16, &keys_of(983040));
}

#[test]
fn fills_all_places_of_a_wide_lane(rt: HostRuntime) {
    let pages = [
        (4032, 16865279),
        (4033, 16867328),
        (8128, 16871423),
        (8129, 16871424),
        (44992, 16908287),
    ];
    let (pool, mut lane) = open_wide_last(&rt, rt.alloc(), shape_of(2, 64, 16));
    fill_all(&rt, &pool, &mut lane, 44992, &pages);

    // The last of 64 lanes.
    let (pool, mut lane) = open_wide_last(&rt, rt.alloc(), shape_of(64, 1, 2));
    fill_all(
        &rt,
        &pool,
        &mut lane,
        3,
        &[(1, 20905984), (2, 20910080), (3, 20910081)],
    );
}

/// A key is got, its reference stays with the lane, its bytes are read where the get tells, and it is cleared by the
/// other lane and given back, by its number alone.
fn call_by_key<R: Abort>(
    rt: &R,
    pool: &Pool<ByteBuf>,
    first: &mut Lane<ByteBuf>,
    second: &mut Lane<ByteBuf>,
)
    requires first { Owns pool.now first.old × (refs first.old < 1000) }
    requires second { Owns pool.now second.old }
{
    let bytes: &[u8] = b"k";
    publish(rt, pool, first, FIRST, bytes);
    let Some(start) = pool.get_at(first, FIRST) else {
        panic!(rt; "{FIRST} isn't found")
    };
    same(rt, &first.start_of_key(FIRST), &Some(start));
    clear(rt, pool, second, FIRST, true);
    same(rt, &first.read_at(start, FIRST).as_slice(), &bytes);
    pool.release_at(first, start, FIRST);
    pool.meet(first, second);
}

#[test]
fn calls_by_key(rt: HostRuntime) {
    let (pool, mut first, mut second) = open_pair(&rt, rt.alloc());
    call_by_key(&rt, &pool, &mut first, &mut second);
}
