//! Guests on threads of their own, over one pool of eight lanes.
ghost use Rattle.std.specs.Prelude.{◌≡◌, IfOk};
ghost use Rattle.shardpool.specs.Lanes.{Owns};
ghost use Rattle.guards.specs.Rows.{AreLanesOf, AreGuestsOf, IsDealerOf};

use crate::test_calls::{NO_PLACE, same};
use crossbeam_channel::{Receiver, Sender, bounded, unbounded};
use guards::{PoolName, Visitor, close_rows};
use keybits::Shape;
use seatcalls::Guest;
use shardpool::{Census, Guests, Lane, Pool, open_with_guests};
use slotcell::ByteBuf;
use std::alloc::{AllocError, Global};
use std::marker::{Brand, PhantomData};
use std::process::Abort;
use std::sync::Wait;
use std::sync::atomic::{AtomicU64, Ordering};
use std::thread;
use std::thread::Threads;

/// How many threads get, read and clear. Each has two guests, of which one reads while the other clears.
const THREADS: u32 = 200;

/// How many keys a lane publishes: its places are emptied by guests alone, and filled again, several times.
const KEYS: u32 = 3_000;

/// How many keys may wait for a thread. With those that threads have they fit into any one lane.
const WAITING: usize = 64;

const SHAPE: Shape = Shape {
    lanes: 8,
    first_page: 8,
    pages: 6,
    last_generation: u32::MAX,
    tag: 0,
    guests: 2 * THREADS,
};

/// A lane that publishes keys.
#[derive(Drop)]
struct Filler<'p, N: PoolName> {
    pool: &'p Pool<ByteBuf>,
    lane: Lane<ByteBuf>,
    of: PhantomData<N>,
    ghost pool_is: { pool.now ≡ N.pool },
    ghost owns: { Owns N.pool lane },
}

impl<'p, N: PoolName> Filler<'p, N> {
    /// An object is published with the bytes of its key, the lowest first. None where there is no place.
    fn put(&mut self) -> Option<u64> {
        let Ok(mut filling) = self.pool.create_gathering(&mut self.lane) else {
            return None;
        };
        let key = filling.key();
        let _ = filling.value_mut().append(key.to_le_bytes().as_slice());
        Some(self.pool.publish(&mut self.lane, filling))
    }

    fn into_lane(self) -> Lane<ByteBuf>
        ensures { Owns N.pool result }
    {
        self.lane
    }
}

/// What comes back at the end.
#[derive(Drop)]
enum Back<'p, N: PoolName> {
    Filler(Filler<'p, N>),
    Visitor(Visitor<'p, N, ByteBuf>),
}

/// What a thread of guests has: where keys come from, and where its guests go at last.
#[derive(Drop)]
struct Ways<'p, N: PoolName> {
    keys: Receiver<u64, Global>,
    back: Sender<Back<'p, N>, Global>,
}

/// A lane's keys are published, and handed to whoever takes them.
fn fill_all<'p, N: PoolName, R: Wait + Abort>(
    rt: &R,
    filler: Filler<'p, N>,
    keys: Sender<u64, Global>,
    back: Sender<Back<'p, N>, Global>,
) {
    let mut filler = filler;
    for _ in 0..KEYS {
        let Some(key) = filler.put() else {
            panic!(rt; "no place")
        };
        if keys.send(rt, key).is_err() {
            panic!(rt; "nobody takes keys")
        }
    }
    let _ = back.send(rt, Back::Filler(filler));
}

/// A key is got by one guest and cleared by another, while the first reads: so its release is the last, and empties the
/// object. Answers the guests.
fn take<'p, N: PoolName, R: Abort>(
    rt: &R,
    key: u64,
    reading: Visitor<'p, N, ByteBuf>,
    clearing: Visitor<'p, N, ByteBuf>,
) -> (Visitor<'p, N, ByteBuf>, Visitor<'p, N, ByteBuf>) {
    let Ok(visit) = reading.get(key) else {
        panic!(rt; "{key} is not found")
    };
    let (first, clearing) = clearing.clear(key);
    let well = visit.read().as_slice() == key.to_le_bytes().as_slice();
    let reading = visit.release();
    let (again, clearing) = clearing.clear(key);
    same(rt, &(first, well, again), &(true, true, false));
    (clearing, reading)
}

/// Keys are taken until there are no more. The guests go back.
fn take_all<'p, N: PoolName, R: Wait + Abort>(
    rt: &R,
    ways: Ways<'p, N>,
    reading: Visitor<'p, N, ByteBuf>,
    clearing: Visitor<'p, N, ByteBuf>,
) {
    let mut guests = (reading, clearing);
    for _ in rt.forever() {
        let Ok(key) = ways.keys.recv(rt) else {
            break;
        };
        guests = take(rt, key, guests.0, guests.1);
    }
    let _ = ways.back.send(rt, Back::Visitor(guests.0));
    let _ = ways.back.send(rt, Back::Visitor(guests.1));
}

/// The next guest of a pool.
fn visitor<'p, N: PoolName, R: Abort>(
    rt: &R,
    pool: &'p Pool<ByteBuf>,
    undealt: &mut Guests<ByteBuf>,
) -> Visitor<'p, N, ByteBuf>
    requires pool { pool.now ≡ N.pool }
    requires undealt { IsDealerOf N.pool undealt.old }
    ensures undealt { IsDealerOf N.pool undealt.new }
{
    let Some(guest) = pool.deal(undealt) else {
        panic!(rt; "no guest is left")
    };
    Visitor::new(pool, guest)
}

/// Each lane fills in a thread of its own, and the guests take in theirs. What comes back.
fn run_all<'p, N: PoolName + Send, R: Threads + Wait + Abort + Sync>(
    rt: &R,
    alloc: Global,
    pool: &'p Pool<ByteBuf>,
    lanes: Vec<Lane<ByteBuf>>,
    undealt: &mut Guests<ByteBuf>,
) -> Result<Receiver<Back<'p, N>, Global>, AllocError>
    requires pool { pool.now ≡ N.pool }
    requires lanes { AreLanesOf N.pool lanes.items }
    requires undealt { IsDealerOf N.pool undealt.old }
    ensures undealt { IsDealerOf N.pool undealt.new }
{
    let (told, keys) = bounded(alloc, WAITING)?;
    let (back, came) = unbounded(alloc)?;
    let mut fillers = Vec::new(alloc);
    for filler in fillers_of(alloc, pool, lanes)? {
        fillers.push((filler, told.clone()?, back.clone()?))?;
    }
    drop(told);
    let mut guests = Vec::new(alloc);
    for _ in 0..THREADS {
        let ways = Ways {
            keys: keys.clone()?,
            back: back.clone()?,
        };
        guests.push((ways, visitor(rt, pool, undealt), visitor(rt, pool, undealt)))?;
    }
    drop(keys);
    drop(back);
    run_each(rt, fillers, guests);
    Ok(came)
}

/// What publishes, with where its keys and at last itself go.
type Publishing<'p, N> = (
    Filler<'p, N>,
    Sender<u64, Global>,
    Sender<Back<'p, N>, Global>,
);

/// Two guests, with where keys come from and they go at last.
type Taking<'p, N> = (
    Ways<'p, N>,
    Visitor<'p, N, ByteBuf>,
    Visitor<'p, N, ByteBuf>,
);

/// Runs each in a thread of its own, until all have ended.
fn run_each<'p, N: PoolName + Send, R: Threads + Wait + Abort + Sync>(
    rt: &R,
    fillers: Vec<Publishing<'p, N>>,
    guests: Vec<Taking<'p, N>>,
) {
    thread::scope(thread::scope_env(), rt, move |scope| {
        for (filler, told, back) in fillers {
            let run = move || fill_all(rt, filler, told, back);
            if let Err(refused) = scope.spawn(run) {
                (refused.value)();
            }
        }
        for (ways, reading, clearing) in guests {
            let run = move || take_all(rt, ways, reading, clearing);
            if let Err(refused) = scope.spawn(run) {
                (refused.value)();
            }
        }
    });
}

/// What publishes by each lane.
fn fillers_of<'p, N: PoolName>(
    alloc: Global,
    pool: &'p Pool<ByteBuf>,
    lanes: Vec<Lane<ByteBuf>>,
) -> Result<Vec<Filler<'p, N>>, AllocError>
    requires pool { pool.now ≡ N.pool }
    requires lanes { AreLanesOf N.pool lanes.items }
{
    let mut fillers = Vec::with_capacity(alloc, lanes.len())?;
    for lane in lanes {
        fillers.push(Filler {
            pool,
            lane,
            of: PhantomData,
        })?;
    }
    Ok(fillers)
}

/// The lanes and the guests that came back.
fn rows_of<N: PoolName, R: Wait>(
    rt: &R,
    alloc: Global,
    came: Receiver<Back<'_, N>, Global>,
) -> Result<(Vec<Lane<ByteBuf>>, Vec<Guest<ByteBuf>>), AllocError>
    ensures lanes { IfOk result (λ rows. AreLanesOf N.pool rows.0.items) }
    ensures guests { IfOk result (λ rows. AreGuestsOf N.pool rows.1.items) }
{
    let mut lanes = Vec::new(alloc);
    let mut guests = Vec::new(alloc);
    for _ in rt.forever() {
        match came.recv(rt) {
            Ok(Back::Filler(filler)) => add_lane(&mut lanes, filler)?,
            Ok(Back::Visitor(visitor)) => add_guest(&mut guests, visitor)?,
            Err(_) => break,
        }
    }
    Ok((lanes, guests))
}

/// A lane more of the pool.
fn add_lane<N: PoolName>(
    lanes: &mut Vec<Lane<ByteBuf>>,
    filler: Filler<'_, N>,
) -> Result<(), AllocError>
    requires { AreLanesOf N.pool lanes.old.items }
    ensures { AreLanesOf N.pool lanes.new.items }
{
    lanes.push(filler.into_lane())?;
    Ok(())
}

/// A guest more of the pool.
#[tactic(auto, using(crate::proofs::PoolRows::guests_more))]
fn add_guest<N: PoolName>(
    guests: &mut Vec<Guest<ByteBuf>>,
    visitor: Visitor<'_, N, ByteBuf>,
) -> Result<(), AllocError>
    requires { AreGuestsOf N.pool guests.old.items }
    ensures { AreGuestsOf N.pool guests.new.items }
{
    guests.push(visitor.into_guest())?;
    Ok(())
}

/// A pool with its lanes and its guests.
fn opened<R: Abort>(rt: &R, alloc: Global) -> (Pool<ByteBuf>, Vec<Lane<ByteBuf>>, Guests<ByteBuf>)
    ensures shape { result.0.shape ≡ SHAPE }
    ensures lanes { AreLanesOf result.0 result.1.items }
    ensures undealt { IsDealerOf result.0 result.2 }
{
    let Ok((pool, lanes, undealt)) = open_with_guests(alloc, SHAPE) else {
        panic!(rt; "no pool")
    };
    (pool, lanes, undealt)
}

/// Runs all, and closes the pool.
fn census_of<N: PoolName + Send, R: Threads + Wait + Abort + Sync>(
    rt: &R,
    alloc: Global,
    opened: (Pool<ByteBuf>, Vec<Lane<ByteBuf>>, Guests<ByteBuf>),
) -> Result<Census, AllocError>
    requires pool { opened.0 ≡ N.pool }
    requires shape { N.pool.shape ≡ SHAPE }
    requires lanes { AreLanesOf N.pool opened.1.items }
    requires undealt { IsDealerOf N.pool opened.2 }
{
    let (pool, lanes, mut undealt) = opened;
    let came = run_all::<N, R>(rt, alloc, &pool, lanes, &mut undealt)?;
    let (lanes, guests) = rows_of(rt, alloc, came)?;
    let Ok(census) = close_rows(pool, &SHAPE, lanes, undealt, guests) else {
        panic!(rt; "a lane or a guest is missing")
    };
    Ok(census)
}

/// The same, of a pool of its own.
fn storm<R: Threads + Wait + Abort + Sync>(rt: &R, alloc: Global) -> Result<Census, AllocError> {
    census_of::<Brand, R>(rt, alloc, opened(rt, alloc))
}

#[test]
fn two_hundred_threads_read_and_clear_by_guests(rt: HostRuntime) {
    let census = storm(&rt, rt.alloc()).expect(&rt, "memory for the channels");
    same(
        &rt,
        &(u64::from(census.free) + u64::from(census.unopened)),
        &4032,
    );
    let rest = Census {
        free: 0,
        unopened: 0,
        ..census
    };
    same(&rt, &rest, &NO_PLACE);
}
