//! Pools of which each place has an object.
use crate::fault::Fault;
use crate::openings::{LARGEST, LARGEST_SHARD};
use crate::pools::{Worker, workers};
use keybits::{LARGEST_FIRST_PAGE, MOST_LANES, MOST_PAGES, Shape};
use shardpool::{open, open_wide};
use std::alloc::{AllocError, Global};
use std::thread;
use std::thread::Threads;

/// The largest pool that is wide.
const WIDEST: Shape = Shape {
    lanes: MOST_LANES,
    first_page: LARGEST_FIRST_PAGE,
    pages: MOST_PAGES,
    last_generation: u32::MAX,
    tag: 0,
    guests: 0,
};

/// How many places a shard of it has: pages of 64, 128 and so on to 2,048 places, and ten of 4,096.
const WIDEST_SHARD: u32 = 44_992;

/// One lane of the largest narrow pool reads objects at random, of which each place has one.
pub fn read_large(alloc: Global, rounds: u64) -> u64 {
    let Ok((pool, lanes)) = open(alloc, LARGEST) else {
        return 0;
    };
    let Ok(mut all) = workers(alloc, &pool, lanes) else {
        return 0;
    };
    let Ok(keys) = put_all(alloc, &mut all, LARGEST_SHARD) else {
        return 0;
    };
    match all.split_first_mut() {
        Some((worker, _)) => read_at_random(worker, &keys, rounds),
        None => 0,
    }
}

fn read_at_random(worker: &mut Worker, keys: &[u64], rounds: u64) -> u64 {
    let count = keys.len() as u64;
    let mut word = 88_172_645_463_325_252u64;
    let mut bytes = 0u64;
    for _ in 0..rounds {
        word ^= word << 13;
        word ^= word >> 7;
        word ^= word << 17;
        let at = (word >> 32).wrapping_mul(count) >> 32;
        let key = keys.get(at as usize).copied().unwrap_or(0);
        bytes = bytes.wrapping_add(worker.read(key) as u64);
    }
    bytes
}

/// The largest wide pool is filled and emptied so many times, by so many threads. Answers how many objects were read and
/// taken away.
pub fn fill<R: Threads + Sync>(
    rt: &R,
    alloc: Global,
    threads: u32,
    rounds: u64,
) -> Result<Vec<u64>, Fault> {
    let (pool, lanes) = open_wide(alloc, WIDEST)?;
    let shares = deal(alloc, workers(alloc, &pool, lanes)?, threads)?;
    Ok(thread::map_vec(
        rt,
        shares,
        &|mut share: Vec<Worker>| { turn_over(alloc, &mut share, rounds) },
    )?)
}

/// Each of so many threads gets a share of the workers.
fn deal<'a>(
    alloc: Global,
    workers: Vec<Worker<'a>>,
    threads: u32,
) -> Result<Vec<Vec<Worker<'a>>>, AllocError> {
    let mut shares = Vec::new(alloc);
    for _ in 0..threads {
        shares.push(Vec::new(alloc))?;
    }
    for worker in workers {
        let at = worker.number() % threads.max(1);
        if let Some(share) = shares.get_mut(at as usize) {
            share.push(worker)?;
        }
    }
    Ok(shares)
}

/// The shards of these workers are filled, and emptied by the first of them. Answers how many objects were read and taken
/// away.
fn turn_over(alloc: Global, workers: &mut [Worker], rounds: u64) -> u64 {
    let mut taken = 0u64;
    for _ in 0..rounds {
        if let Ok(keys) = put_all(alloc, workers, WIDEST_SHARD) {
            taken = taken.wrapping_add(take_all(workers, &keys));
        }
    }
    taken
}

/// Each worker publishes so many objects, or as many as there are places or is memory for. Answers their keys.
fn put_all(alloc: Global, workers: &mut [Worker], most: u32) -> Result<Vec<u64>, AllocError> {
    let mut keys = Vec::new(alloc);
    for worker in workers {
        put_shard(worker, most, &mut keys)?;
    }
    Ok(keys)
}

fn put_shard(worker: &mut Worker, most: u32, keys: &mut Vec<u64>) -> Result<(), AllocError> {
    for _ in 0..most {
        if let Some(key) = worker.put() {
            keys.push(key)?;
        }
    }
    Ok(())
}

/// The first worker reads the objects of these keys, and takes them away. Answers how many.
fn take_all(workers: &mut [Worker], keys: &[u64]) -> u64 {
    let Some((worker, _)) = workers.split_first_mut() else {
        return 0;
    };
    let mut taken = 0u64;
    for key in keys {
        if worker.read(*key) > 0 {
            taken = taken.wrapping_add(u64::from(worker.take(*key)));
        }
    }
    taken
}
