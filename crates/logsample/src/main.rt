//! A log of requests: workers publish entries, and a collector reads and clears them, each on a lane of a pool, in a
//! thread of its own. What a caller can conclude is in the contracts of `log`, `read`, `collect` and `close_log`.
#![tactic(auto)]

ghost use Rattle.std.specs.Prelude.{◌≡◌, IfOk, List, map, Some};
ghost use Rattle.shardpool.specs.Tokens.{LaneOf};
ghost use Rattle.guards.specs.Here.{HoldNothing};
ghost use Rattle.logsample.specs.Closed.{IsSettled};
ghost use Rattle.logsample.specs.Tasks.{AreTasks, AreReports};

mod calls;
mod entries;
mod tasks;

use crate::entries::Entry;
use crate::tasks::{Report, Task};
use anyhow::anyhow;
use crossbeam_channel::bounded;
use guards::{Missing, Opened, PoolName, open_lanes, run_lanes};
use keybits::Shape;
use poollaws::close_law;
use shardpool::Census;
use std::alloc::Global;
use std::marker::Brand;
use std::sync::Wait;
use std::thread::Threads;

/// How many workers there are. The collector has a lane of its own.
const WORKERS: u32 = 4;

/// Each lane has a page of 8 places: a worker has at most 6 entries that aren't cleared yet.
const SHAPE: Shape = Shape {
    lanes: WORKERS + 1,
    first_page: 8,
    pages: 1,
    last_generation: u32::MAX,
    tag: 0,
    guests: 0,
};

/// How many messages wait in the channel.
const WAITING: usize = 4;

/// Closes the log. Each entry that was published is cleared then, or counted as present.
///
/// # Errors
///
/// As `Opened::close`.
pub fn close_log(opened: Opened<Entry>) -> Result<Census, Missing<Entry>>
    ensures settled { IfOk result (λ census. (lanes : List LaneOf) × (opened.lanes.slots ≡ map Some lanes)
        × IsSettled opened.pool lanes census) }
{
    close_law();
    opened.close()
}

/// The tasks of all lanes: the workers', and last the collector's.
///
/// # Errors
///
/// Where memory was refused.
fn all_tasks<N: PoolName>(alloc: Global) -> anyhow::Result<Vec<Task<N>>>
    ensures { IfOk result (λ tasks. AreTasks tasks.items) }
{
    let (to, from) = bounded(alloc, WAITING)?;
    let mut tasks = Vec::new(alloc);
    for worker in 0..WORKERS {
        tasks.push(Task::Work(worker, to.clone()?))?;
    }
    tasks.push(Task::Collect(from))?;
    Ok(tasks)
}

/// Runs the tasks of all lanes, each in a thread of its own. All lanes are then here again.
///
/// # Errors
///
/// Where memory was refused, or a lane isn't here.
fn run_all<N: PoolName + Send, R: Threads + Wait + Sync>(
    rt: &R,
    alloc: Global,
    opened: &mut Opened<Entry>,
) -> anyhow::Result<Vec<Report>>
    requires pool { opened.old.pool ≡ N.pool }
    requires nothing { HoldNothing opened.old.lanes }
    ensures reports { IfOk result (λ reports. AreReports reports.items) }
{
    let tasks = all_tasks::<N>(alloc)?;
    match run_lanes::<N, Entry, Task<N>, R>(rt, alloc, opened, tasks) {
        Ok(reports) => Ok(reports),
        Err(_) => Err(anyhow!("the lanes couldn't be run")),
    }
}

/// Opens a log, runs it, and closes it.
fn serve<R: Threads + Wait + Sync>(rt: &R, alloc: Global) -> anyhow::Result<(Vec<Report>, Census)> {
    let mut opened = open_lanes(alloc, SHAPE)?;
    let reports = run_all::<Brand, R>(rt, alloc, &mut opened);
    match close_log(opened) {
        Ok(census) => Ok((reports?, census)),
        Err(missing) => Err(anyhow!("lane {} is missing", missing.number)),
    }
}

// Nothing is printed before the pool is closed: a failed print that ends main would leave the lanes to be dropped.
fn main(rt: HostRuntime) -> anyhow::Result<()> {
    let (reports, census) = serve(&rt, rt.alloc())?;
    for report in &reports {
        println!(rt; "{report:?}")?;
    }
    println!(rt; "{census:?}")?;
    Ok(())
}
