//! A run of a script file.
ghost use Rattle.std.specs.Prelude.{◌≡◌, ◌≢◌, ◌↔◌, true, false, length, IfOk, IfErr, OnOk, IsErrOf};
ghost use Rattle.keybits.specs.Shapes.{IsNarrow};
ghost use Rattle.poolprogram.specs.Runs.{IsRunOf, IsRun, WritesRun, IsRunFault, RefusesRun};

use crate::opening::open_pool;
use crate::run_fault::RunFault;
use crate::texts::{census_line, replies_text};
use scripts::{Plan, parse};
use shardpool::close;
use std::alloc::Global;
use std::io::Write;
use std::sync::Wait;
use std::thread::Threads;
use streams::{Watched, write_and_flush};
use workers::{Gate, jobs_of, parts_of, run_workers};

/// Lets every line pass.
struct Passing;

impl Gate for Passing {
    ghost use Rattle.poolprogram.specs.Runs.{LetsPass};

    ghost says = { λ gate. LetsPass };

    fn pass(&self, _worker: u32, _line: u32) -> bool {
        true
    }
}

/// The text of a run of a plan: the pool is opened, each worker runs on a thread, and the pool is closed.
fn run_plan<R: Threads + Wait + Sync>(
    rt: &R,
    alloc: Global,
    plan: Plan,
) -> Result<Vec<u8>, RunFault>
    requires shape { IsNarrow plan.shape }
    requires count { length plan.scripts ≡ plan.shape.lanes }
    ensures ok { IfOk result (λ text. IsRunOf plan text.items) }
    ensures err { IfErr result (λ fault. IsRunFault fault) }
{
    let Plan { shape, scripts } = plan;
    let (pool, lanes) = open_pool(alloc, shape)?;
    let jobs = jobs_of(alloc, lanes, scripts.into_vec())?;
    let Ok(dones) = run_workers(rt, alloc, &pool, jobs, &Passing) else {
        return Err(RunFault::Memory);
    };
    let replies = replies_text(alloc, dones.as_slice());
    let (lanes, _) = parts_of(alloc, dones)?;
    let census = close(pool, lanes);
    let mut text = replies?;
    let line = census_line(alloc, &census)?;
    text.extend_from_slice(line.as_bytes())?;
    Ok(text)
}

/// The text of a run of a script file.
fn run_file<R: Threads + Wait + Sync>(
    rt: &R,
    alloc: Global,
    file: &[u8],
) -> Result<Vec<u8>, RunFault>
    ensures ok { IfOk result (λ text. IsRun file.now text.items) }
    ensures err { IfErr result (RefusesRun file.now) }
{
    let plan = parse(alloc, file).map_err(RunFault::Read)?;
    run_plan(rt, alloc, plan)
}

/// Runs a script file: opens a pool of its shape, runs the script of each lane as a worker on a thread of its own,
/// closes the pool, and then writes the replies of each worker, by rising number, and a line with the census of the
/// pool's places. The errors: `Read` as `parse` answers it, and with `Memory` where the report of a worker was refused;
/// `Open` where memory was refused for the pool; `Memory` where it was refused for a row of jobs, workers or lanes, or
/// for the text. These come before the first byte; `Output` comes exactly where `out` failed, and then it isn't said
/// how much went out.
pub fn run_text<R: Threads + Wait + Sync, W: Write>(
    rt: &R,
    alloc: Global,
    file: &[u8],
    out: &mut Watched<W>,
) -> Result<(), RunFault>
    requires { out.old.failed ≡ false }
    ensures ok { OnOk result (WritesRun file.now (W.contents out.old.inner) (W.contents out.new.inner)) }
    ensures output { IsErrOf result RunFault.Output ↔ (out.new.failed ≡ true) }
    ensures refused { IfErr result (λ fault. fault ≢ RunFault.Output
        → (out.new ≡ out.old) × RefusesRun file.now fault) }
{
    let text = run_file(rt, alloc, file)?;
    write_and_flush(text.as_slice(), out)?;
    Ok(())
}
