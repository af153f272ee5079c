// What no clause says: owners on other threads read what was published, also behind a clear; a loan ends with its last
// owner, and not before; and its object is then emptied, so that its place is free.
ghost use Rattle.std.specs.Prelude.{◌≡◌};
ghost use Rattle.shardpool.specs.Lanes.{Owns, refs};
ghost use Rattle.guards.specs.Here.{HoldNothing};

use crate::contents::shows;
use guards::{Opened, open_lanes};
use keybits::Shape;
use lendings::{Lender, Owned};
use shardpool::{Census, Lane, Pool};
use slotcell::ByteBuf;
use std::alloc::Global;
use std::process::Abort;
use std::test::Fail;
use std::thread;

const SHAPE: Shape = Shape {
    lanes: 2,
    first_page: 2,
    pages: 1,
    last_generation: u32::MAX,
    tag: 0,
    guests: 0,
};

fn opened<R: Abort>(rt: &R, alloc: Global) -> Opened<ByteBuf>
    ensures { HoldNothing result.lanes }
{
    let Ok(opened) = open_lanes(alloc, SHAPE) else {
        panic!(rt; "no pool")
    };
    opened
}

// The lane of this number, which is here.
fn taken<R: Abort>(rt: &R, opened: &mut Opened<ByteBuf>, number: u32) -> Lane<ByteBuf>
    requires { HoldNothing opened.old.lanes }
    ensures pool { opened.new.pool ≡ opened.old.pool }
    ensures nothing { HoldNothing opened.new.lanes }
    ensures lane { Owns opened.new.pool result × (refs result ≡ 0) }
{
    let Some(lane) = opened.lanes.take(number) else {
        panic!(rt; "lane {number} is missing")
    };
    lane
}

fn lender_of<R: Abort>(rt: &R, alloc: Global, lane: Lane<ByteBuf>) -> Lender<ByteBuf>
    ensures { result.lane ≡ lane }
{
    let Ok(lender) = Lender::of(alloc, lane) else {
        panic!(rt; "the lane has a reference")
    };
    lender
}

// Publishes a word. Answers its key.
fn put<R: Abort>(rt: &R, pool: &Pool<ByteBuf>, lane: &mut Lane<ByteBuf>, word: &[u8]) -> u64
    requires { Owns pool.now lane.old }
    ensures { Owns pool.now lane.new }
{
    let Ok(mut filling) = pool.create(lane) else {
        panic!(rt; "no place is free")
    };
    let _ = filling.value_mut().append(word);
    pool.publish(lane, filling)
}

// An owner of the object of a key, which is found.
fn own<R: Abort>(
    rt: &R,
    pool: &Pool<ByteBuf>,
    lender: &mut Lender<ByteBuf>,
    key: u64,
) -> Owned<ByteBuf>
    requires { Owns pool.now lender.old.lane }
    ensures { Owns pool.now lender.new.lane }
{
    let Ok(Some(owned)) = lender.own(pool, key) else {
        panic!(rt; "the key isn't found")
    };
    owned
}

// What a thread without a lane does: reads, and reads by a clone. Both owners are dropped.
fn reads_and_clones(owned: Owned<ByteBuf>) -> bool {
    let Ok(clone) = owned.clone() else {
        return false;
    };
    let shown = shows(&owned, b"word");
    drop(owned);
    shown && shows(&clone, b"word")
}

// What the close counts, once both lanes are back.
fn closed<R: Abort>(
    rt: &R,
    opened: Opened<ByteBuf>,
    one: Lane<ByteBuf>,
    other: Lane<ByteBuf>,
) -> Census
    requires one { Owns opened.lanes.pool one }
    requires other { Owns opened.lanes.pool other }
{
    let mut opened = opened;
    drop(opened.lanes.give(one));
    drop(opened.lanes.give(other));
    let Ok(census) = opened.close() else {
        panic!(rt; "a lane is missing")
    };
    census
}

#[test]
fn a_loan_ends_with_its_last_owner(rt: HostRuntime) -> Result<(), Fail> {
    let alloc = rt.alloc();
    let mut opened = opened(&rt, alloc);
    let lane = taken(&rt, &mut opened, 0);
    let mut other = taken(&rt, &mut opened, 1);
    let pool = &opened.pool;
    let mut lender = lender_of(&rt, alloc, lane);
    let key = put(&rt, pool, &mut other, b"word");
    let first = own(&rt, pool, &mut lender, key);
    let second = own(&rt, pool, &mut lender, key);
    assert!(rt; first.key() == key && first.lane() == 0);
    assert!(rt; lender.outstanding() == 1);
    assert!(rt; pool.clear(&mut other, key));
    let Ok(child) = thread::spawn(&rt, move || reads_and_clones(second)) else {
        panic!(rt; "no thread")
    };
    assert!(rt; shows(&first, b"word"));
    assert!(rt; child.join(&rt));
    let Ok(third) = first.clone() else {
        panic!(rt; "too many owners")
    };
    assert!(rt; matches!(lender.disown(pool, first), Ok(false)));
    assert!(rt; shows(&third, b"word"));
    assert!(rt; matches!(lender.disown(pool, third), Ok(true)));
    assert!(rt; lender.outstanding() == 0);
    assert!(rt; matches!(lender.own(pool, key), Ok(None)));
    Ok(())
}

#[test]
fn a_sweep_finds_what_was_dropped(rt: HostRuntime) -> Result<(), Fail> {
    let alloc = rt.alloc();
    let mut opened = opened(&rt, alloc);
    let lane = taken(&rt, &mut opened, 0);
    let mut other = taken(&rt, &mut opened, 1);
    let mut lender = lender_of(&rt, alloc, lane);
    let one = put(&rt, &opened.pool, &mut other, b"one");
    let two = put(&rt, &opened.pool, &mut other, b"two");
    let dropped = own(&rt, &opened.pool, &mut lender, one);
    let kept = own(&rt, &opened.pool, &mut lender, two);
    assert!(rt; opened.pool.clear(&mut other, one));
    assert!(rt; lender.sweep(&opened.pool) == 0);
    drop(dropped);
    assert!(rt; lender.sweep(&opened.pool) == 1);
    let Err(lender) = lender.close(&opened.pool) else {
        panic!(rt; "an owner is left")
    };
    assert!(rt; shows(&kept, b"two"));
    drop(kept);
    let Ok(lane) = lender.close(&opened.pool) else {
        panic!(rt; "no owner is left")
    };
    let census = closed(&rt, opened, lane, other);
    assert!(rt; census.present == 1 && census.marked == 0 && census.free == 1);
    Ok(())
}

#[test]
fn an_owner_of_another_lane_comes_back(rt: HostRuntime) -> Result<(), Fail> {
    let alloc = rt.alloc();
    let mut opened = opened(&rt, alloc);
    let mut lane = taken(&rt, &mut opened, 0);
    let other = taken(&rt, &mut opened, 1);
    let pool = &opened.pool;
    let key = put(&rt, pool, &mut lane, b"word");
    let mut one = lender_of(&rt, alloc, lane);
    let mut two = lender_of(&rt, alloc, other);
    let owned = own(&rt, pool, &mut one, key);
    let same = own(&rt, pool, &mut two, key);
    let Err(owned) = two.disown(pool, owned) else {
        panic!(rt; "it is of lane 0")
    };
    assert!(rt; shows(&owned, b"word"));
    assert!(rt; matches!(one.disown(pool, owned), Ok(true)));
    assert!(rt; matches!(two.disown(pool, same), Ok(true)));
    assert!(rt; one.outstanding() == 0 && two.outstanding() == 0);
    Ok(())
}

#[test]
fn all_that_were_dropped_end_at_once(rt: HostRuntime) -> Result<(), Fail> {
    let alloc = rt.alloc();
    let mut opened = opened(&rt, alloc);
    let lane = taken(&rt, &mut opened, 0);
    let mut other = taken(&rt, &mut opened, 1);
    let pool = &opened.pool;
    let mut lender = lender_of(&rt, alloc, lane);
    let one = put(&rt, pool, &mut other, b"one");
    let two = put(&rt, pool, &mut other, b"two");
    drop(own(&rt, pool, &mut lender, one));
    drop(own(&rt, pool, &mut lender, two));
    assert!(rt; lender.outstanding() == 2);
    assert!(rt; lender.sweep(pool) == 2);
    assert!(rt; lender.outstanding() == 0 && lender.close(pool).is_ok());
    Ok(())
}
