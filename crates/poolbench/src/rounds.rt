//! What a thread does in each round.
ghost use Rattle.std.specs.Prelude.{◌≡◌};

use crate::fills::read_large;
use crate::openings::{LARGEST, ONE_LANE, TILL_LAST_PAGE, open_and_close};
use crate::owners::read_clones;
use crate::passes::Ways;
use crate::pools::{PLACES, Worker};
use crate::stores::look_many;
use crate::visits::Visit;
use keybits::Shape;
use std::alloc::Global;
use std::sync::Wait;
use std::sync::atomic::{AtomicU64, Ordering};

/// How many own objects are read in turn.
const MANY: usize = 16;

/// How many objects are live in a churn.
const LIVE: usize = 24;

/// What is done without a pool that the threads share.
#[derive(Clone, Copy)]
pub enum Solo {
    /// Two fetch_adds on a word of the thread's own.
    Bare,
    /// A step of a random number generator, in registers alone.
    Alu,
    /// The largest pool is opened and closed.
    Open,
    /// The largest pool of one lane is opened, used till its last page is opened, and closed.
    Page,
    /// Objects are read at random in the largest pool, each of whose places has one.
    Large,
    /// An owned reference is cloned, and the object is read by the clone.
    Clone,
    /// Each of 16 objects is read in turn, by a lane that lies in a store and is had for the one call.
    Look,
    /// A guest does it.
    Guest(Visit),
}

/// What is done with objects of the lane's own.
#[derive(Clone, Copy)]
pub enum Own {
    /// Each of 16 objects is read in turn.
    GetMany,
    /// The same, two rounds one after the other from two places of call.
    GetTwo,
    /// An object is put and taken away.
    Cycle,
    /// The same, two rounds one after the other from two places of call.
    CycleTwo,
    /// 24 objects are live: the oldest is taken away, and a new one put.
    Churn,
    /// An object is put, and taken away while it is read.
    Held,
    /// An object that was taken away is taken away again.
    Miss,
    /// No place is free, as a create finds.
    Full,
}

/// Whose objects the threads read.
#[derive(Clone, Copy)]
pub enum Whose {
    /// Each its own.
    Own,
    /// All that of the first.
    Shared,
    /// Each that of the next.
    Others,
}

/// What is done with a pool that the threads share.
#[derive(Clone, Copy)]
pub enum Deed {
    /// Something with objects of the lane's own.
    Own(Own),
    /// One object is read.
    Get(Whose),
    /// An object is put by one lane, and taken away by another.
    Pass,
}

/// What the threads share beside the pool.
#[derive(Drop)]
pub struct Shared {
    /// The keys of the first objects of the lanes.
    pub keys: Vec<u64>,
    pub ways: Ways,
}

impl Solo {
    /// How many lanes the pools have that it opens.
    pub fn lanes(self) -> u32 {
        match self {
            Solo::Bare | Solo::Alu => 0,
            Solo::Open | Solo::Large => LARGEST.lanes,
            Solo::Page => ONE_LANE.lanes,
            Solo::Clone | Solo::Look | Solo::Guest(_) => 1,
        }
    }

    /// Does it so many rounds. Answers a number by which one sees that they were done.
    pub fn run(self, alloc: Global, rounds: u64) -> u64 {
        match self {
            Solo::Bare => bare(rounds),
            Solo::Alu => alu(rounds),
            Solo::Open => open(alloc, LARGEST, 0, rounds),
            Solo::Page => open(alloc, ONE_LANE, TILL_LAST_PAGE, rounds),
            Solo::Large => read_large(alloc, rounds),
            Solo::Clone => read_clones(alloc, rounds),
            Solo::Look => look_many(alloc, rounds),
            Solo::Guest(visit) => visit.run(alloc, rounds),
        }
    }
}

impl Deed {
    /// How many lanes so many threads use.
    pub fn lanes(self, threads: u32) -> u32 {
        match self {
            Deed::Own(_) | Deed::Get(_) => threads,
            Deed::Pass => threads.max(2),
        }
    }

    /// Does it so many rounds. Answers a number by which one sees that they were done.
    pub fn run<R: Wait>(self, rt: &R, worker: &mut Worker, shared: &Shared, rounds: u64) -> u64 {
        match self {
            Deed::Own(own) => own.run(worker, rounds),
            Deed::Get(whose) => {
                let key = whose.key(worker.number(), &shared.keys);
                get(worker, key, rounds)
            }
            Deed::Pass if worker.number() % 2 == 0 => give(rt, worker, &shared.ways, rounds),
            Deed::Pass => take(rt, worker, &shared.ways, rounds),
        }
    }
}

impl Own {
    fn run(self, worker: &mut Worker, rounds: u64) -> u64 {
        match self {
            Own::GetMany => get_many(worker, rounds),
            Own::GetTwo => get_two(worker, rounds),
            Own::Cycle => cycle(worker, rounds),
            Own::CycleTwo => cycle_two(worker, rounds),
            Own::Churn => churn(worker, rounds),
            Own::Held => held(worker, rounds),
            Own::Miss => miss(worker, rounds),
            Own::Full => full(worker, rounds),
        }
    }
}

impl Whose {
    /// The key of the object that a lane reads, of the keys of all lanes. 0, which is no key, where there is none.
    fn key(self, lane: u32, keys: &[u64]) -> u64 {
        let from = match self {
            Whose::Own => lane as usize,
            Whose::Shared => 0,
            Whose::Others => (lane as usize + 1) % keys.len().max(1),
        };
        keys.get(from).copied().unwrap_or(0)
    }
}

fn bare(rounds: u64) -> u64 {
    let word = AtomicU64::new(0);
    let mut found = 0u64;
    for _ in 0..rounds {
        found = found.wrapping_add(word.fetch_add(1, Ordering::SeqCst));
        found = found.wrapping_add(word.fetch_add(1, Ordering::SeqCst));
    }
    found
}

fn alu(rounds: u64) -> u64 {
    let mut word = 1u64;
    for _ in 0..rounds {
        word ^= word << 13;
        word ^= word >> 7;
        word ^= word << 17;
    }
    word
}

/// Pools are opened, given so many objects and closed. Answers how many places they then had with an object or
/// unopened.
fn open(alloc: Global, shape: Shape, objects: u32, rounds: u64) -> u64
    requires { shape.guests ≡ 0 }
{
    let mut places = 0u64;
    for _ in 0..rounds {
        places = places.wrapping_add(u64::from(open_and_close(alloc, shape, objects)));
    }
    places
}

fn get_many(worker: &mut Worker, rounds: u64) -> u64 {
    let mut keys = [0; MANY];
    worker.put_all(&mut keys);
    let mut bytes = 0u64;
    for round in 0..rounds {
        let key = keys[(round % MANY as u64) as usize];
        bytes = bytes.wrapping_add(worker.read(key) as u64);
    }
    bytes
}

fn get_two(worker: &mut Worker, rounds: u64) -> u64 {
    let mut keys = [0; MANY];
    worker.put_all(&mut keys);
    let mut bytes = 0u64;
    for round in 0..rounds / 2 {
        let first = (round % (MANY as u64 / 2)) as usize;
        bytes = bytes.wrapping_add(worker.read(keys[first]) as u64);
        bytes = bytes.wrapping_add(worker.read(keys[first + MANY / 2]) as u64);
    }
    bytes
}

fn cycle(worker: &mut Worker, rounds: u64) -> u64 {
    let mut taken = 0u64;
    for _ in 0..rounds {
        if let Some(key) = worker.put() {
            taken = taken.wrapping_add(u64::from(worker.take(key)));
        }
    }
    taken
}

fn cycle_two(worker: &mut Worker, rounds: u64) -> u64 {
    let mut taken = 0u64;
    for _ in 0..rounds / 2 {
        if let Some(key) = worker.put() {
            taken = taken.wrapping_add(u64::from(worker.take(key)));
        }
        if let Some(key) = worker.put() {
            taken = taken.wrapping_add(u64::from(worker.take(key)));
        }
    }
    taken
}

fn churn(worker: &mut Worker, rounds: u64) -> u64 {
    let mut keys = [0; LIVE];
    worker.put_all(&mut keys);
    let mut taken = 0u64;
    for round in 0..rounds {
        let oldest = &mut keys[(round % LIVE as u64) as usize];
        taken = taken.wrapping_add(u64::from(worker.take(*oldest)));
        *oldest = worker.put().unwrap_or(0);
    }
    taken
}

fn held(worker: &mut Worker, rounds: u64) -> u64 {
    let mut bytes = 0u64;
    for _ in 0..rounds {
        if let Some(key) = worker.put() {
            bytes = bytes.wrapping_add(worker.read_last(key) as u64);
        }
    }
    bytes
}

fn miss(worker: &mut Worker, rounds: u64) -> u64 {
    let key = worker.put().unwrap_or(0);
    let mut taken = 0u64;
    for _ in 0..rounds {
        taken = taken.wrapping_add(u64::from(worker.take(key)));
    }
    taken
}

fn full(worker: &mut Worker, rounds: u64) -> u64 {
    worker.put_all(&mut [0; PLACES as usize]);
    let mut full = 0u64;
    for _ in 0..rounds {
        full = full.wrapping_add(u64::from(worker.put().is_none()));
    }
    full
}

fn get(worker: &mut Worker, key: u64, rounds: u64) -> u64 {
    let mut bytes = 0u64;
    for _ in 0..rounds {
        bytes = bytes.wrapping_add(worker.read(key) as u64);
    }
    bytes
}

fn give<R: Wait>(rt: &R, worker: &mut Worker, ways: &Ways, rounds: u64) -> u64 {
    let lane = worker.number();
    for round in 0..rounds {
        ways.send(rt, lane, round, worker.put().unwrap_or(0));
    }
    0
}

fn take<R: Wait>(rt: &R, worker: &mut Worker, ways: &Ways, rounds: u64) -> u64 {
    let lane = worker.number();
    let mut taken = 0u64;
    for round in 0..rounds {
        let key = ways.receive(rt, lane, round);
        taken = taken.wrapping_add(u64::from(worker.take(key)));
    }
    taken
}

/// Objects are put by one worker and taken away by another, on this thread. Answers how many.
pub fn pass_alone(workers: &mut [Worker], rounds: u64) -> u64 {
    let Some((from, others)) = workers.split_first_mut() else {
        return 0;
    };
    let Some((to, _)) = others.split_first_mut() else {
        return 0;
    };
    let mut taken = 0u64;
    for _ in 0..rounds {
        if let Some(key) = from.put() {
            taken = taken.wrapping_add(u64::from(to.take(key)));
        }
    }
    taken
}
