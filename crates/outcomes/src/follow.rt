//! Where a turn leads from a state.
ghost use Rattle.std.specs.Prelude.{◌≡◌, ◌++◌, ◌∷◌, [], ℕ, true, IfOk, MatchOption};
ghost use Rattle.traces.specs.Lawful.{world_of, is_finished, IsLawful};
ghost use Rattle.shortening.specs.Replays.{AreScriptsOf};
ghost use Rattle.outcomes.specs.Search.{IsReached, IsNext};

use crate::reached::{Reached, mark_of};
use coresteps::run;
use keybits::Shape;
use shortening::copy_scripts;
use std::alloc::{AllocError, Global};
use traces::{Script, Trace};

/// A schedule with an entry more.
fn with_entry(alloc: Global, schedule: &[u32], lane: u32) -> Result<Vec<u32>, AllocError>
    ensures { IfOk result (λ longer. longer.items ≡ schedule.now ++ lane ∷ []) }
{
    let mut longer = Vec::with_capacity(alloc, schedule.len().saturating_add(1))?;
    longer.extend_from_slice(schedule)?;
    longer.push(lane)?;
    Ok(longer)
}

/// The trace of scripts over a schedule.
fn trace_of(
    alloc: Global,
    shape: &Shape,
    scripts: &[Script],
    schedule: &[u32],
) -> Result<Trace, AllocError>
    requires { AreScriptsOf shape.now scripts.now }
    ensures { IfOk result (λ trace. IsLawful shape.now scripts.now schedule.now trace) }
{
    let copies = copy_scripts(alloc, scripts)?;
    match run(alloc, *shape, copies, schedule) {
        Ok(trace) => Ok(trace),
        Err(_) => Err(AllocError),
    }
}

/// The state that a turn of a lane leads to from another; none where the lane's script is at its end.
pub(crate) fn follow(
    alloc: Global,
    shape: &Shape,
    scripts: &[Script],
    from: &Reached,
    lane: u32,
) -> Result<Option<Reached>, AllocError>
    requires { AreScriptsOf shape.now scripts.now }
    ensures { IfOk result (λ next. (size : ℕ) → IsReached shape.now scripts.now size from.now
        → MatchOption next (is_finished shape.now (world_of shape.now scripts.now from.now.trace) lane ≡ true)
        (IsNext shape.now scripts.now size from.now lane)) }
{
    let schedule = with_entry(alloc, from.schedule.as_slice(), lane)?;
    let trace = trace_of(alloc, shape, scripts, schedule.as_slice())?;
    if trace.as_slice().len() < schedule.len() {
        return Ok(None);
    }
    let mark = mark_of(trace.as_slice(), shape.lanes);
    let ways = from.ways.copy(alloc)?;
    Ok(Some(Reached {
        schedule,
        trace,
        ways,
        mark,
    }))
}
