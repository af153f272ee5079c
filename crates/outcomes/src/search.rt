//! The search for every outcome: by states, a layer for each number of turns.
ghost use Rattle.std.specs.Prelude.{◌≡◌, ◌+◌, ◌≤◌, [], ℕ, false, IfOk, IfErr, OnOk, if◌then◌else◌};
ghost use Rattle.traces.specs.declared.script.Command.{Command};
ghost use Rattle.traces.specs.Lawful.{world_of, is_finished};
ghost use Rattle.shortening.specs.Replays.{AreScriptsOf};
ghost use Rattle.outcomes.specs.declared.outcome.Outcome.{Outcome};
ghost use Rattle.outcomes.specs.declared.reached.Reached.{Reached};
ghost use Rattle.outcomes.specs.Outcomes.{AreOutcomes, IsUnlisted};
ghost use Rattle.outcomes.specs.Search.{IsReached, AreReached, AreShown, IsTried, AreTried, IsVisited, AreVisited};

use crate::count::Count;
use crate::fault::Unlisted;
use crate::follow::follow;
use crate::layer::add_state;
use crate::outcome::Outcome;
use crate::reached::{Reached, first_state};
use crate::table::{all_ways, conclude};
use keybits::Shape;
use std::alloc::{AllocError, Global};
use traces::Script;

/// Every outcome of scripts.
#[derive(Drop)]
pub struct Outcomes {
    /// Each outcome once.
    pub outcomes: Vec<Outcome>,
    /// How many states the search went through.
    pub states: u64,
    /// How many schedules run the scripts to their ends.
    pub ways: Count,
}

/// Adds the state that a turn of a lane leads to, and tells whether there is one.
fn try_lane(
    alloc: Global,
    shape: &Shape,
    scripts: &[Script],
    from: &Reached,
    lane: u32,
    next: &mut Vec<Reached>,
) -> Result<bool, AllocError>
    requires { AreScriptsOf shape.now scripts.now }
    ensures { IfOk result (λ went. (size : ℕ) → IsReached shape.now scripts.now size from.now
        → AreReached shape.now scripts.now (size + 1) next.old.items
        → IsTried shape.now scripts.now size from.now lane next.old.items next.new.items went) }
{
    let found = follow(alloc, shape, scripts, from, lane)?;
    match found {
        Some(state) => {
            add_state(alloc, shape, next, state)?;
            Ok(true)
        }
        None => Ok(false),
    }
}

/// Whether no lane went on, by whether none did before.
fn still_ended(ended: bool, went: bool) -> bool
    ensures { result ≡ (if went then false else ended) }
{
    if went { false } else { ended }
}

/// Adds the states that turns lead to from a state, and tells whether there are none.
fn try_lanes(
    alloc: Global,
    shape: &Shape,
    scripts: &[Script],
    from: &Reached,
    next: &mut Vec<Reached>,
) -> Result<bool, AllocError>
    requires { AreScriptsOf shape.now scripts.now }
    ensures { IfOk result (λ ended. (size : ℕ) → IsReached shape.now scripts.now size from.now
        → AreReached shape.now scripts.now (size + 1) next.old.items
        → AreTried shape.now scripts.now size from.now shape.now.lanes next.old.items next.new.items ended) }
{
    let mut ended = true;
    for lane in 0..shape.lanes {
        let went = try_lane(alloc, shape, scripts, from, lane, next)?;
        ended = still_ended(ended, went);
    }
    Ok(ended)
}

/// Adds the states that turns lead to from a state; its outcome, where there are none.
fn visit(
    alloc: Global,
    shape: &Shape,
    scripts: &[Script],
    from: &Reached,
    next: &mut Vec<Reached>,
    table: &mut Vec<Outcome>,
) -> Result<(), AllocError>
    requires { AreScriptsOf shape.now scripts.now }
    ensures { OnOk result ((size : ℕ) → IsReached shape.now scripts.now size from.now
        → AreReached shape.now scripts.now (size + 1) next.old.items
        → AreShown shape.now scripts.now table.old.items
        → IsVisited shape.now scripts.now size from.now next.old.items table.old.items next.new.items table.new.items) }
{
    let ended = try_lanes(alloc, shape, scripts, from, next)?;
    if !ended {
        return Ok(());
    }
    conclude(alloc, shape, from, table)?;
    Ok(())
}

/// The states behind one turn more than those of a layer; the outcomes of those that end there go into the table.
fn next_layer(
    alloc: Global,
    shape: &Shape,
    scripts: &[Script],
    layer: &[Reached],
    table: &mut Vec<Outcome>,
) -> Result<Vec<Reached>, AllocError>
    requires { AreScriptsOf shape.now scripts.now }
    ensures { IfOk result (λ next. (size : ℕ) → AreReached shape.now scripts.now size layer.now
        → AreShown shape.now scripts.now table.old.items
        → AreVisited shape.now scripts.now size layer.now table.old.items [] next.items table.new.items) }
{
    let mut next = Vec::new(alloc);
    for from in layer {
        visit(alloc, shape, scripts, from, &mut next, table)?;
    }
    Ok(next)
}

/// Every outcome of scripts, one for each lane, over whatever schedule. The errors: `TooMany` where there are more than
/// so many states; `Memory`.
pub fn all_outcomes(
    alloc: Global,
    shape: &Shape,
    scripts: &[Script],
    most: u64,
) -> Result<Outcomes, Unlisted>
    requires { AreScriptsOf shape.now scripts.now }
    ensures ok { IfOk result (λ found. AreOutcomes shape.now scripts.now found.outcomes.items found.ways) }
    ensures most { IfOk result (λ found. found.states ≤ most) }
    ensures err { IfErr result (IsUnlisted most) }
{
    let start = first_state(alloc)?;
    let mut layer = Vec::new(alloc);
    layer.push(start)?;
    let mut table = Vec::new(alloc);
    let mut states: u64 = 0;
    while !layer.is_empty() {
        let count = layer.len() as u64;
        if count > most - states {
            return Err(Unlisted::TooMany(states.saturating_add(count)));
        }
        states += count;
        layer = next_layer(alloc, shape, scripts, layer.as_slice(), &mut table)?;
    }
    let told = table.as_slice();
    let ways = all_ways(alloc, told)?;
    Ok(Outcomes {
        outcomes: table,
        states,
        ways,
    })
}
