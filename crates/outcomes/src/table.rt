//! The outcomes found so far.
ghost use Rattle.std.specs.Prelude.{◌≡◌, ℕ, List, true, IfOk, OnOk, Some, slice_get, MatchOption};
ghost use Rattle.traces.specs.declared.script.Command.{Command};
ghost use Rattle.traces.specs.declared.reply.Reply.{Reply};
ghost use Rattle.traces.specs.Lawful.{world_of, is_finished};
ghost use Rattle.outcomes.specs.declared.outcome.Outcome.{Outcome};
ghost use Rattle.outcomes.specs.declared.reached.Reached.{Reached};
ghost use Rattle.outcomes.specs.Outcomes.{LackReplies};
ghost use Rattle.outcomes.specs.Search.{IsReached, AreShown, IsSameOutcome, IsTold, IsOutcomeOf, IsConcluded, all_ways};

use crate::count::Count;
use crate::lanes::{all_lanes, are_same};
use crate::order::comes_before;
use crate::outcome::Outcome;
use crate::reached::Reached;
use keybits::Shape;
use std::alloc::{AllocError, Global};
use traces::Replies;

/// Where in a table an outcome of these replies is.
fn find(table: &[Outcome], replies: &[Replies]) -> Option<usize>
    ensures { MatchOption result (LackReplies replies.now table.now)
        (λ i. (same : Outcome) × (slice_get table.now i ≡ Some same) × (same.replies.items ≡ replies.now)) }
{
    for i in 0..table.len() {
        let other = &table[i];
        if are_same(other.replies.as_slice(), replies) {
            return Some(i);
        }
    }
    None
}

/// Joins an outcome with another of the same replies: the schedule that comes first is kept, and those of both count.
fn join(alloc: Global, kept: &mut Outcome, other: Outcome) -> Result<(), AllocError>
    ensures { OnOk result (IsSameOutcome kept.old other kept.new) }
{
    kept.ways.add(alloc, &other.ways)?;
    if comes_before(other.schedule.as_slice(), kept.schedule.as_slice()) {
        kept.schedule = other.schedule;
    }
    Ok(())
}

/// Adds an outcome to a table, or joins it with the one of the same replies.
fn add_outcome(alloc: Global, table: &mut Vec<Outcome>, one: Outcome) -> Result<(), AllocError>
    ensures { OnOk result (IsTold table.old.items one table.new.items) }
{
    match find(table.as_slice(), one.replies.as_slice()) {
        Some(i) => {
            join(alloc, &mut table[i], one)?;
            Ok(())
        }
        None => {
            table.push(one)?;
            Ok(())
        }
    }
}

/// The outcome of a state behind which every lane's script is at its end.
fn outcome_of(alloc: Global, shape: &Shape, state: &Reached) -> Result<Outcome, AllocError>
    ensures { IfOk result (IsOutcomeOf shape.now state.now) }
{
    let schedule = Vec::from_slice(alloc, state.schedule.as_slice())?;
    let replies = all_lanes(alloc, shape, state.trace.as_slice())?;
    let ways = state.ways.copy(alloc)?;
    Ok(Outcome {
        schedule,
        replies,
        ways,
    })
}

/// Adds the outcome of a state behind which every lane's script is at its end.
pub(crate) fn conclude(
    alloc: Global,
    shape: &Shape,
    state: &Reached,
    table: &mut Vec<Outcome>,
) -> Result<(), AllocError>
    ensures { OnOk result ((scripts : List (List Command)) (size : ℕ) → IsReached shape.now scripts size state.now
        → ((lane : ℕ) → is_finished shape.now (world_of shape.now scripts state.now.trace) lane ≡ true)
        → AreShown shape.now scripts table.old.items
        → IsConcluded shape.now scripts state.now table.old.items table.new.items) }
{
    let outcome = outcome_of(alloc, shape, state)?;
    add_outcome(alloc, table, outcome)?;
    Ok(())
}

/// How many schedules end in all.
pub(crate) fn all_ways(alloc: Global, table: &[Outcome]) -> Result<Count, AllocError>
    ensures { IfOk result (λ ways. ways ≡ all_ways table.now) }
{
    let mut ways = Count::zero(alloc);
    for outcome in table {
        ways.add(alloc, &outcome.ways)?;
    }
    Ok(ways)
}
