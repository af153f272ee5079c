//! Jobs on the lanes of a pool, each in a thread of its own.
ghost use Rattle.std.specs.Prelude.{◌≡◌, ℕ, length, IfOk, IfErr, IfSome, IfNone};
ghost use Rattle.guards.specs.Here.{AreHereBelow, HoldNothing};
ghost use Rattle.guards.specs.Runs.{AllRan, IsFirstUnseated};

use crate::jobs::Job;
use crate::lanes::Opened;
use crate::named::PoolName;
use crate::posts::{seat_all, unseat_all, work_all};
use slotcell::Clear;
use std::alloc::Global;
use std::sync::Wait;
use std::thread::Threads;

/// Jobs that were not begun.
#[derive(Drop)]
pub struct Unrun<J> {
    pub jobs: Vec<J>,
    /// The number of the first job whose lane isn't here. None where memory was refused.
    pub missing: Option<u32>,
}

/// Runs each job on the lane of its number, in a thread of its own, all at the same time, and waits for their ends. A
/// job whose thread can't be started is run in another's. All lanes are then here again, also where a job stopped by an
/// error; the answers stand in the order of the jobs.
///
/// # Errors
///
/// The jobs, where one has no lane here, or memory was refused. Then none was begun.
pub fn run_lanes<
    N: PoolName + Send,
    T: Clear + Drop + Send + Sync,
    J: Job<N, T>,
    R: Threads + Wait + Sync,
>(rt: &R, alloc: Global, opened: &mut Opened<T>, jobs: Vec<J>) -> Result<Vec<J::Answer>, Unrun<J>>
    requires pool { opened.old.pool ≡ N.pool }
    requires nothing { HoldNothing opened.old.lanes }
    ensures pool { opened.new.pool ≡ opened.old.pool }
    ensures ran { IfOk result (λ answers. AllRan J.does opened.old.lanes opened.new.lanes jobs.items answers.items) }
    ensures here { (count : ℕ) → AreHereBelow opened.old.lanes count → AreHereBelow opened.new.lanes count }
    ensures nothing { HoldNothing opened.new.lanes }
    ensures back { IfErr result (λ unrun. (unrun.jobs.items ≡ jobs.items) × (opened.new.lanes ≡ opened.old.lanes)) }
    ensures missing { IfErr result (λ unrun. IfSome unrun.missing (IsFirstUnseated opened.old.lanes (length jobs.items))) }
    ensures refused { IfErr result (λ unrun. IfNone unrun.missing (AreHereBelow opened.old.lanes (length jobs.items))) }
{
    let here = opened.lanes.count_here();
    if (here as usize) < jobs.len() {
        return Err(Unrun {
            jobs,
            missing: Some(here),
        });
    }
    let Ok(posts) = Vec::with_capacity(alloc, jobs.len()) else {
        return Err(Unrun {
            jobs,
            missing: None,
        });
    };
    let Ok(answers) = Vec::with_capacity(alloc, jobs.len()) else {
        return Err(Unrun {
            jobs,
            missing: None,
        });
    };
    let mut posts = seat_all::<N, T, J>(&opened.pool, &mut opened.lanes, jobs, posts);
    work_all::<N, T, J, R>(rt, &mut posts);
    Ok(unseat_all::<N, T, J>(&mut opened.lanes, posts, answers))
}
