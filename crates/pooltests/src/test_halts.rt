//! Lanes that stop inside a call.
ghost use Rattle.std.specs.Prelude.{◌≡◌};
ghost use Rattle.shardpool.specs.Lanes.{Owns, holds, refs};

use crate::test_calls::{clear, get, hold, open_pair, release, same};
use shardpool::{CreateFault, Lane, LastCall, Pool};
use slotcell::ByteBuf;
use std::process::Abort;

/// The key of the place that a create gives, which is never published; 0 where no place is free.
fn created_key<R: Abort>(rt: &R, pool: &Pool<ByteBuf>, lane: &mut Lane<ByteBuf>) -> u64
    requires { Owns pool.now lane.old }
    ensures { Owns pool.now lane.new }
{
    match pool.create(lane) {
        Ok(filling) => {
            let key = filling.key();
            filling.forget();
            key
        }
        Err(fault) => {
            same(rt, &fault, &CreateFault::Full);
            0
        }
    }
}

/// Whether a get of a key finds it. The reference is given back.
fn finds<R: Abort>(rt: &R, pool: &Pool<ByteBuf>, lane: &mut Lane<ByteBuf>, key: u64) -> bool
    requires { Owns pool.now lane.old }
    ensures { Owns pool.now lane.new }
{
    assert!(rt; lane.refs() < 2);
    match pool.get(lane, key) {
        Some(reference) => {
            same(rt, &reference.key(), &key);
            release(pool, lane, reference);
            true
        }
        None => false,
    }
}

/// Lane 0 finds no key, and clears none. The key that it then creates.
fn create_after_miss<R: Abort>(
    rt: &R,
    pool: &Pool<ByteBuf>,
    lane: &mut Lane<ByteBuf>,
    key: u64,
) -> u64
    requires { Owns pool.now lane.old }
{
    assert!(rt; !finds(rt, pool, lane, key));
    clear(rt, pool, lane, key, false);
    created_key(rt, pool, lane)
}

/// Lane 1 stops in a get of a key that lane 0 has cleared, and lane 0 gives its last reference to the key back. The key
/// that it then creates.
fn create_after_get<R: Abort>(
    rt: &R,
    pool: &Pool<ByteBuf>,
    first: &mut Lane<ByteBuf>,
    second: Lane<ByteBuf>,
    limit: u32,
) -> u64
    requires first { Owns pool.now first.old × (refs first.old ≡ 0) }
    requires second { Owns pool.now second × (refs second ≡ 0) }
{
    let reference = hold(rt, pool, first);
    same(rt, &reference.key(), &16777216);
    clear(rt, pool, first, 16777216, true);
    pool.halt(second, LastCall::Get(16777216), limit).forget();
    release(pool, first, reference);
    create_after_miss(rt, pool, first, 16777216)
}

/// Lane 1 stops in a clear of a key to which lane 0 refers. Whether lane 0 then finds the key.
fn finds_after_clear<R: Abort>(
    rt: &R,
    pool: &Pool<ByteBuf>,
    first: &mut Lane<ByteBuf>,
    second: Lane<ByteBuf>,
    limit: u32,
) -> bool
    requires first { Owns pool.now first.old × (refs first.old ≡ 0) }
    requires second { Owns pool.now second × (refs second ≡ 0) }
{
    let reference = hold(rt, pool, first);
    pool.halt(second, LastCall::Clear(reference.key()), limit)
        .forget();
    let found = finds(rt, pool, first, reference.key());
    assert_eq!(rt; first.refs(), 1);
    reference.forget();
    found
}

/// Lane 1 stops in a release of the last reference to a key that is cleared. The key that lane 0 then creates.
fn create_after_release<R: Abort>(
    rt: &R,
    pool: &Pool<ByteBuf>,
    first: &mut Lane<ByteBuf>,
    mut second: Lane<ByteBuf>,
    limit: u32,
) -> u64
    requires first { Owns pool.now first.old × (refs first.old ≡ 0) }
    requires second { Owns pool.now second × (refs second ≡ 0) }
{
    let reference = hold(rt, pool, first);
    let other = get(rt, pool, &mut second, reference.key());
    release(pool, first, reference);
    clear(rt, pool, first, other.key(), true);
    pool.halt(second, LastCall::Release(other), limit).forget();
    created_key(rt, pool, first)
}

/// Lane 1 stops in a create, after lane 0 has returned its place. Lane 0 goes on.
fn stop_in_create<R: Abort>(
    rt: &R,
    pool: &Pool<ByteBuf>,
    first: &mut Lane<ByteBuf>,
    mut second: Lane<ByteBuf>,
    limit: u32,
)
    requires first { Owns pool.now first.old × (refs first.old ≡ 0) }
    requires second { Owns pool.now second × (refs second ≡ 0) }
{
    let reference = hold(rt, pool, &mut second);
    let key = reference.key();
    same(rt, &key, &16842752);
    release(pool, &mut second, reference);
    clear(rt, pool, first, key, true);
    let halted = pool.halt(second, LastCall::Create, limit);
    assert!(rt; !finds(rt, pool, first, key));
    same(rt, &created_key(rt, pool, first), &16777216);
    halted.forget();
}

#[test]
fn a_halted_get_keeps_its_enter(rt: HostRuntime) {
    for (limit, created) in [(0, 33554432), (1, 0), (100, 33554432)] {
        let (pool, mut first, second) = open_pair(&rt, rt.alloc());
        same(
            &rt,
            &create_after_get(&rt, &pool, &mut first, second, limit),
            &created,
        );
    }
}

#[test]
fn a_halted_clear_marks_or_not(rt: HostRuntime) {
    for (limit, found) in [(0, true), (100, false)] {
        let (pool, mut first, second) = open_pair(&rt, rt.alloc());
        same(
            &rt,
            &finds_after_clear(&rt, &pool, &mut first, second, limit),
            &found,
        );
    }
}

#[test]
fn a_halted_release_keeps_its_reference_or_not(rt: HostRuntime) {
    for (limit, created) in [(0, 0), (100, 33554432)] {
        let (pool, mut first, second) = open_pair(&rt, rt.alloc());
        same(
            &rt,
            &create_after_release(&rt, &pool, &mut first, second, limit),
            &created,
        );
    }
}

#[test]
fn a_halted_create_stops(rt: HostRuntime) {
    for limit in [0, 100] {
        let (pool, mut first, second) = open_pair(&rt, rt.alloc());
        stop_in_create(&rt, &pool, &mut first, second, limit);
    }
}
