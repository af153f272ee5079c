//! Workers on threads, one for each lane.
ghost use Rattle.std.specs.Prelude.{◌≡◌, ◌≤◌, [], length, IfOk, IfErr};
ghost use Rattle.std.specs.Vec.{vec_capacity};
ghost use Rattle.workers.specs.Works.{MayWork, MayBegin, Answer, Answers};
ghost use Rattle.workers.specs.Begins.{Pairs, Holds, AllHold, IsBegun, IsFinished};

use crate::begun::{Begun, Promised};
use crate::gate::Gate;
use crate::jobs::{Done, Job};
use crate::working::work;
use shardpool::Pool;
use slotcell::ByteBuf;
use std::alloc::Global;
use std::snapshot::Snapshot;
use std::sync::Wait;
use std::thread;
use std::thread::{Scope, Threads};

/// Begins a job in a thread of its own. Where none can be started the job is run here.
fn begin<'s, E: 's, G: Gate + Sync>(
    scope: &Scope<'s, E>,
    alloc: Global,
    pool: &'s Pool<ByteBuf>,
    job: Job,
    gate: &'s G,
) -> Begun<G>
    requires may { MayWork pool.now job.lane }
    ensures begun { IsBegun G.says gate.now job result }
{
    let here = Promised {
        job: Snapshot::of(&job),
        gate: Snapshot::of(gate),
    };
    let there = Promised {
        job: Snapshot::of(&job),
        gate: Snapshot::of(gate),
    };
    let Job { lane, script } = job;
    let run = move || -> Done
        requires may { MayWork pool.now lane }
        ensures answer { Answer (G.says gate.entry.now) (record { lane = lane; script = script }) result }
    { work(alloc, pool, lane, script, gate) };
    match scope.spawn_with(there, run) {
        Ok(handle) => Begun::There(handle),
        Err(refused) => Begun::Here((refused.value)(), here),
    }
}

/// Waits for the end of a job.
fn finish<R: Threads, G: Gate>(rt: &R, begun: Begun<G>) -> Done
    requires holds { Holds G.says begun }
    ensures answer { IsFinished G.says begun result }
{
    match begun {
        Begun::There(handle) => handle.join(rt),
        Begun::Here(done, _) => done,
    }
}

/// Begins each job, in their order.
fn begin_all<'s, E: 's, G: Gate + Sync>(
    scope: &Scope<'s, E>,
    alloc: Global,
    pool: &'s Pool<ByteBuf>,
    jobs: Vec<Job>,
    gate: &'s G,
    begun: Vec<Begun<G>>,
) -> Vec<Begun<G>>
    requires may { MayBegin pool.now jobs.items }
    requires room { (begun.items ≡ []) × (length jobs.items ≤ vec_capacity begun) }
    ensures begun { Pairs (IsBegun G.says gate.now) jobs.items result.items }
{
    let mut begun = begun;
    for job in jobs {
        begun.push_reserved(begin(scope, alloc, pool, job, gate));
    }
    begun
}

/// Waits for the end of each job, in their order.
fn finish_all<R: Threads, G: Gate>(rt: &R, begun: Vec<Begun<G>>, dones: Vec<Done>) -> Vec<Done>
    requires hold { AllHold G.says begun.items }
    requires room { (dones.items ≡ []) × (length begun.items ≤ vec_capacity dones) }
    ensures finished { Pairs (IsFinished G.says) begun.items result.items }
{
    let mut dones = dones;
    for one in begun {
        dones.push_reserved(finish(rt, one));
    }
    dones
}

/// Runs each job in a thread of its own, all at the same time, and waits for their ends. A job whose thread can't be
/// started is run in the caller's. The answers stand in the order of the jobs.
///
/// # Errors
///
/// The jobs, where a row of handles or of answers was refused. Then none was begun.
pub fn run_workers<R: Threads + Wait + Sync, G: Gate + Sync>(
    rt: &R,
    alloc: Global,
    pool: &Pool<ByteBuf>,
    jobs: Vec<Job>,
    gate: &G,
) -> Result<Vec<Done>, Vec<Job>>
    requires may { MayBegin pool.now jobs.items }
    ensures answers { IfOk result (λ dones. Answers (G.says gate.now) jobs.items dones.items) }
    ensures back { IfErr result (λ back. back.items ≡ jobs.items) }
{
    let Ok(begun) = Vec::with_capacity(alloc, jobs.len()) else {
        return Err(jobs);
    };
    let Ok(dones) = Vec::with_capacity(alloc, jobs.len()) else {
        return Err(jobs);
    };
    Ok(thread::scope(
        thread::scope_env(),
        rt,
        move |scope| -> Vec<Done>
            requires may { MayBegin pool.now jobs.items }
            requires begun { (begun.items ≡ []) × (length jobs.items ≤ vec_capacity begun) }
            requires dones { (dones.items ≡ []) × (length jobs.items ≤ vec_capacity dones) }
            ensures answers { Answers (G.says gate.entry.now) jobs.items result.items }
        {
            let begun = begin_all(scope, alloc, pool, jobs, gate, begun);
            finish_all(rt, begun, dones)
        },
    ))
}
