//! How a plan is done.
use crate::cases::{Case, Plan};
use crate::fault::Fault;
use crate::fills::fill;
use crate::passes::Ways;
use crate::pools::{Worker, open_pool, put_each, workers};
use crate::rounds::{Deed, Shared, Solo, pass_alone};
use std::alloc::{AllocError, Global};
use std::sync::Wait;
use std::thread;
use std::thread::Threads;

/// Does a plan. Answers the sum of what its threads counted.
pub fn run_plan<R: Threads + Wait + Sync>(rt: &R, alloc: Global, plan: Plan) -> Result<u64, Fault> {
    let Plan {
        case,
        threads,
        rounds,
    } = plan;
    match case {
        Case::Solo(solo) => Ok(run_solo(rt, alloc, solo, threads, rounds)?),
        Case::Fill => Ok(sum_of(&fill(rt, alloc, threads, rounds)?)),
        Case::Pool(deed) | Case::Pool16(deed) | Case::Pool64(deed) => {
            let (pool, lanes) = open_pool(alloc, case.lanes(threads))?;
            let mut workers = workers(alloc, &pool, lanes)?;
            workers.truncate(deed.lanes(threads) as usize);
            Ok(run_deed(rt, alloc, deed, workers, threads, rounds)?)
        }
    }
}

/// Does something on so many threads without a pool between them.
fn run_solo<R: Threads + Sync>(
    rt: &R,
    alloc: Global,
    solo: Solo,
    threads: u32,
    rounds: u64,
) -> Result<u64, AllocError> {
    let counts = thread::map_indices(
        rt,
        alloc,
        threads as usize,
        &|_: usize| solo.run(alloc, rounds),
    )?;
    Ok(sum_of(&counts))
}

/// What the workers of a deed share beside the pool.
fn share(
    alloc: Global,
    deed: Deed,
    workers: &mut [Worker],
    threads: u32,
) -> Result<Shared, AllocError> {
    let ways = Ways::new(alloc, threads)?;
    let keys = match deed {
        Deed::Get(_) => put_each(alloc, workers)?,
        Deed::Own(_) | Deed::Pass => Vec::new(alloc),
    };
    Ok(Shared { keys, ways })
}

/// Does a deed with these workers, each on a thread of its own; on one thread the only worker, or two that pass
/// objects.
fn run_deed<R: Threads + Wait + Sync>(
    rt: &R,
    alloc: Global,
    deed: Deed,
    mut workers: Vec<Worker>,
    threads: u32,
    rounds: u64,
) -> Result<u64, AllocError> {
    if let (Deed::Pass, 1) = (deed, threads) {
        return Ok(pass_alone(&mut workers, rounds));
    }
    let shared = share(alloc, deed, &mut workers, threads)?;
    let counts = thread::map_vec(
        rt,
        workers,
        &|mut worker: Worker| { deed.run(rt, &mut worker, &shared, rounds) },
    )?;
    Ok(sum_of(&counts))
}

/// The sum of these numbers, modulo 2^64.
fn sum_of(numbers: &[u64]) -> u64 {
    let mut sum = 0u64;
    for number in numbers {
        sum = sum.wrapping_add(*number);
    }
    sum
}
