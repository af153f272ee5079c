//! Places that a guest claims, and that the lane of their shard takes back.
ghost use Rattle.std.specs.Prelude.{◌≡◌, ◌≤◌, IfSome};
ghost use Rattle.poolsteps.specs.Shares.{room_of};
ghost use Rattle.shardpool.specs.Lanes.{Owns, OwnsGuest};
ghost use Rattle.shardpool.specs.Opened.{AreFirstLanes};

use crate::test_calls::{create, finds_full, same};
use keybits::{Shape, generation_of, place_of, shard_of};
use shardpool::{Claimed, Ended, Guest, Lane, Pool, open_with_guests};
use slotcell::{ByteBuf, Clear};
use std::alloc::Global;
use std::process::Abort;
use std::test::Fail;

/// The first of the lanes of a pool that was just opened.
fn first_of<T: Clear + Drop>(pool: &Pool<T>, lanes: Vec<Lane<T>>) -> Option<Lane<T>>
    requires { AreFirstLanes pool.now lanes.items }
    ensures { IfSome result (Owns pool.now) }
{
    lanes.into_iter().next()
}

/// A pool of this shape, with its first lane and its first guest.
fn open_visited<T: Clear + Drop, R: Abort>(
    rt: &R,
    alloc: Global,
    shape: Shape,
) -> (Pool<T>, Lane<T>, Guest<T>)
    ensures { Owns result.0 result.1 × OwnsGuest result.0 result.2 }
{
    let Ok((pool, lanes, guests)) = open_with_guests(alloc, shape) else {
        panic!(rt; "no pool")
    };
    let mut guests = guests;
    let Some(lane) = first_of(&pool, lanes) else {
        panic!(rt; "no lane")
    };
    let Some(guest) = pool.deal(&mut guests) else {
        panic!(rt; "no guest")
    };
    (pool, lane, guest)
}

/// Publishes so many objects. Answers the key of this one.
fn publish_all<T: Clear + Drop, R: Abort>(
    rt: &R,
    pool: &Pool<T>,
    lane: &mut Lane<T>,
    count: u32,
    which: u32,
) -> u64
    requires { Owns pool.now lane.old }
    ensures { Owns pool.now lane.new }
{
    let mut key = 0;
    for number in 0..count {
        let filling = create(rt, pool, lane);
        let published = pool.publish(lane, filling);
        if number == which {
            key = published;
        }
    }
    key
}

/// The place of a key that a guest clears, and to which nobody else refers.
fn claim<T: Clear + Drop, R: Abort>(rt: &R, pool: &Pool<T>, guest: Guest<T>, key: u64) -> Claimed<T>
    requires { OwnsGuest pool.now guest }
    ensures owns { OwnsGuest pool.now result.guest × (result.directory ≡ pool.now.directory) }
    ensures room { room_of result.guest.book.seen result.guest.book.rooms result.place ≤ T.room result.object }
{
    let (marked, ended) = pool.clear_or_keep_by(guest, key);
    assert!(rt; marked);
    match ended {
        Ended::Kept(claimed) => claimed,
        Ended::Free(_) => panic!(rt; "nothing was claimed"),
    }
}

/// What a test does: in a pool whose shards have a first page of so many places, and so many pages, a lane publishes so many
/// objects, which are all that its shard has. A guest clears this one, and claims its place, which the lane takes back. It
/// fills it again, up to the last generation.
#[derive(Drop)]
struct Claiming {
    first_page: u32,
    pages: u32,
    count: u32,
    which: u32,
    last_generation: u32,
}

fn takes_back<T: Clear + Drop, R: Abort>(rt: &R, alloc: Global, claiming: &Claiming) {
    let shape = Shape {
        lanes: 2,
        first_page: claiming.first_page,
        pages: claiming.pages,
        last_generation: claiming.last_generation,
        tag: 0,
        guests: 1,
    };
    let (pool, mut lane, guest) = open_visited::<T, R>(rt, alloc, shape);
    let key = publish_all(rt, &pool, &mut lane, claiming.count, claiming.which);
    let mut claimed = claim(rt, &pool, guest, key);
    if shard_of(claimed.place()) != lane.number() {
        panic!(rt; "the place is of another shard")
    }
    claimed.object_mut().clear();
    drop(pool.take_back(&mut lane, claimed));
    if claiming.last_generation > 1 {
        let filling = create(rt, &pool, &mut lane);
        same(rt, &place_of(filling.key()), &place_of(key));
        same(rt, &generation_of(filling.key()), &2);
        filling.forget();
    }
    finds_full(rt, &pool, &mut lane);
}

#[test]
fn a_place_that_is_taken_back_is_filled_again(rt: HostRuntime) -> Result<(), Fail> {
    // (by first page, pages, objects, which one, last generation: the ends of rows and of pages, and a place that retires)
    let rows = [
        (1, 1, 1, 0, 2),
        (1, 1, 1, 0, 1),
        (64, 1, 64, 63, 2),
        (64, 2, 192, 64, 2),
        (64, 2, 192, 191, 2),
    ];
    for (first_page, pages, count, which, last_generation) in rows {
        let claiming = Claiming {
            first_page,
            pages,
            count,
            which,
            last_generation,
        };
        takes_back::<ByteBuf, _>(&rt, rt.alloc(), &claiming);
    }
    Ok(())
}
