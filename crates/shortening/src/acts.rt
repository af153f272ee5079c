//! The acts of a trace.
ghost use Rattle.std.specs.Prelude.{◌≡◌, ◌++◌, IfOk, OnOk};
ghost use Rattle.traces.specs.Books.{act_list};
ghost use Rattle.traces.specs.TurnLaws.{all_acts};

use seqpool::Act;
use std::alloc::{AllocError, Global};
use traces::Turn;

/// Appends a turn's act once more, where it has one.
fn push_act(alloc: Global, act: &Option<Act>, acts: &mut Vec<Act>) -> Result<(), AllocError>
    ensures { OnOk result (acts.new.items ≡ acts.old.items ++ act_list act.now) }
{
    if let Some(act) = act {
        let act = act.copy(alloc)?;
        acts.push(act)?;
    }
    Ok(())
}

/// The acts of a trace, once more.
pub fn acts_of(alloc: Global, turns: &[Turn]) -> Result<Vec<Act>, AllocError>
    ensures { IfOk result (λ acts. acts.items ≡ all_acts turns.now) }
{
    let mut acts = Vec::new(alloc);
    for turn in turns {
        push_act(alloc, &turn.act, &mut acts)?;
    }
    Ok(acts)
}
