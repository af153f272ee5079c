//! A guest's calls, in a pool of one lane.
ghost use Rattle.std.specs.Prelude.{◌≡◌, IfSome};
ghost use Rattle.shardpool.specs.Lanes.{Owns, OwnsGuest, SameLane};
ghost use Rattle.shardpool.specs.Opened.{AreFirstLanes};

use crate::pools::{BYTES, PLACES, put};
use keybits::Shape;
use seatcalls::Guest;
use shardpool::{Lane, Pool, open_with_guests};
use slotcell::ByteBuf;
use std::alloc::Global;

/// How many objects are read in turn.
const MANY: usize = 16;

/// How many guests the pool has.
const GUESTS: u32 = 8;

/// What a guest does.
#[derive(Clone, Copy)]
pub enum Visit {
    /// Each of 16 objects is read in turn.
    Many,
    /// The same, two rounds one after the other from two places of call.
    Two,
    /// The lane puts an object, and the guest takes it away.
    Cycle,
    /// The same, two rounds one after the other from two places of call.
    CycleTwo,
}

impl Visit {
    /// Does it so many rounds. Answers a number by which one sees that they were done. Apart from the other cases, so that
    /// they are compiled as without it.
    #[inline(never)]
    pub fn run(self, alloc: Global, rounds: u64) -> u64 {
        let shape = Shape {
            lanes: 1,
            first_page: PLACES,
            pages: 1,
            last_generation: u32::MAX,
            tag: 0,
            guests: GUESTS,
        };
        let Ok((pool, lanes, mut guests)) = open_with_guests(alloc, shape) else {
            return 0;
        };
        let Some(mut lane) = first_of(&pool, lanes) else {
            return 0;
        };
        let Some(guest) = pool.deal(&mut guests) else {
            return 0;
        };
        match self {
            Visit::Many => read_many(&pool, &mut lane, guest, rounds),
            Visit::Two => read_two(&pool, &mut lane, guest, rounds),
            Visit::Cycle => cycle(&pool, &mut lane, guest, rounds),
            Visit::CycleTwo => cycle_two(&pool, &mut lane, guest, rounds),
        }
    }
}

/// The first of the lanes.
fn first_of(pool: &Pool<ByteBuf>, lanes: Vec<Lane<ByteBuf>>) -> Option<Lane<ByteBuf>>
    requires first { AreFirstLanes pool.now lanes.items }
    ensures owns { IfSome result (Owns pool.now) }
{
    lanes.into_iter().next()
}

fn read_many(
    pool: &Pool<ByteBuf>,
    lane: &mut Lane<ByteBuf>,
    guest: Guest<ByteBuf>,
    rounds: u64,
) -> u64
    requires lane { Owns pool.now lane.old }
    requires guest { OwnsGuest pool.now guest }
{
    let mut keys = [0; MANY];
    for key in &mut keys {
        *key = put(pool, lane).unwrap_or(0);
    }
    let mut guest = guest;
    let mut bytes = 0u64;
    for round in 0..rounds {
        let key = keys[(round % MANY as u64) as usize];
        let (length, after) = read(pool, guest, key);
        guest = after;
        bytes = bytes.wrapping_add(length as u64);
    }
    bytes
}

fn read_two(
    pool: &Pool<ByteBuf>,
    lane: &mut Lane<ByteBuf>,
    guest: Guest<ByteBuf>,
    rounds: u64,
) -> u64
    requires lane { Owns pool.now lane.old }
    requires guest { OwnsGuest pool.now guest }
{
    let mut keys = [0; MANY];
    for key in &mut keys {
        *key = put(pool, lane).unwrap_or(0);
    }
    let mut guest = guest;
    let mut bytes = 0u64;
    for round in 0..rounds / 2 {
        let first = (round % (MANY as u64 / 2)) as usize;
        let (length, between) = read(pool, guest, keys[first]);
        bytes = bytes.wrapping_add(length as u64);
        let (length, after) = read(pool, between, keys[first + MANY / 2]);
        guest = after;
        bytes = bytes.wrapping_add(length as u64);
    }
    bytes
}

/// Gets an object, reads how long it is, and gives the reference back.
#[inline]
fn read(pool: &Pool<ByteBuf>, guest: Guest<ByteBuf>, key: u64) -> (usize, Guest<ByteBuf>)
    requires guest { OwnsGuest pool.now guest }
    ensures guest { OwnsGuest pool.now result.1 }
{
    match pool.get_by(guest, key) {
        Ok(reference) => {
            let length = reference.read().len();
            (length, pool.release_of(reference))
        }
        Err(guest) => (0, guest),
    }
}

fn cycle(pool: &Pool<ByteBuf>, lane: &mut Lane<ByteBuf>, guest: Guest<ByteBuf>, rounds: u64) -> u64
    requires lane { Owns pool.now lane.old }
    requires guest { OwnsGuest pool.now guest }
{
    let mut guest = guest;
    let mut taken = 0u64;
    for _ in 0..rounds {
        let (marked, after) = turn_over(pool, lane, guest);
        guest = after;
        taken = taken.wrapping_add(u64::from(marked));
    }
    taken
}

/// The lane puts an object, and the guest takes it away.
#[inline]
fn turn_over(
    pool: &Pool<ByteBuf>,
    lane: &mut Lane<ByteBuf>,
    guest: Guest<ByteBuf>,
) -> (bool, Guest<ByteBuf>)
    requires lane { Owns pool.now lane.old }
    requires guest { OwnsGuest pool.now guest }
    ensures lane { SameLane lane.old lane.new }
    ensures guest { OwnsGuest pool.now result.1 }
{
    match put_gathering(pool, lane) {
        Some(key) => pool.clear_by(guest, key),
        None => (false, guest),
    }
}

fn cycle_two(
    pool: &Pool<ByteBuf>,
    lane: &mut Lane<ByteBuf>,
    guest: Guest<ByteBuf>,
    rounds: u64,
) -> u64
    requires lane { Owns pool.now lane.old }
    requires guest { OwnsGuest pool.now guest }
{
    let mut guest = guest;
    let mut taken = 0u64;
    for _ in 0..rounds / 2 {
        let (marked, between) = turn_over(pool, lane, guest);
        taken = taken.wrapping_add(u64::from(marked));
        let (marked, after) = turn_over(pool, lane, between);
        guest = after;
        taken = taken.wrapping_add(u64::from(marked));
    }
    taken
}

/// Publishes an object in a place that may be one that guests returned. A filling whose bytes find no memory is left.
#[inline]
fn put_gathering(pool: &Pool<ByteBuf>, lane: &mut Lane<ByteBuf>) -> Option<u64>
    requires owns { Owns pool.now lane.old }
    ensures same { SameLane lane.old lane.new }
{
    let Ok(mut filling) = pool.create_gathering(lane) else {
        return None;
    };
    if filling.value_mut().append(&BYTES).is_err() {
        filling.forget();
        return None;
    }
    Some(pool.publish(lane, filling))
}
