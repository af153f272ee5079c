//! The states behind so many turns.
ghost use Rattle.std.specs.Prelude.{◌≡◌, ◌∷◌, ℕ, List, true, Some, slice_get, IfSome, OnOk};
ghost use Rattle.keybits.specs.Shapes.{IsShape};
ghost use Rattle.traces.specs.declared.script.Command.{Command};
ghost use Rattle.standings.specs.Behind.{AreSameBehind};
ghost use Rattle.outcomes.specs.declared.reached.Reached.{Reached};
ghost use Rattle.outcomes.specs.Search.{IsReached, AreReached, Item, going, with_states, Become};

use crate::reached::{Reached, join};
use keybits::Shape;
use standings::same_standing;
use std::alloc::{AllocError, Global};

/// Whether a state stands for another: the same can come after both, and the lanes got the same replies.
fn stands_for(shape: &Shape, other: &Reached, one: &Reached) -> bool
    requires shape { IsShape shape.now }
    requires alone { shape.now.guests ≡ 0 }
    ensures { result ≡ true → AreSameBehind shape.now other.now.trace one.now.trace }
{
    let same_marks = other.mark == one.mark;
    same_marks && same_standing(*shape, other.trace.as_slice(), one.trace.as_slice())
}

/// Where in a layer a state is that stands for another.
fn find(shape: &Shape, layer: &[Reached], one: &Reached) -> Option<usize>
    requires shape { IsShape shape.now }
    requires alone { shape.now.guests ≡ 0 }
    ensures { IfSome result (λ i. (same : Reached) × (slice_get layer.now i ≡ Some same)
        × AreSameBehind shape.now same.trace one.now.trace) }
{
    for i in 0..layer.len() {
        let other = &layer[i];
        if stands_for(shape, other, one) {
            return Some(i);
        }
    }
    None
}

/// Adds a state to a layer, or joins it with one that stands for it.
pub(crate) fn add_state(
    alloc: Global,
    shape: &Shape,
    layer: &mut Vec<Reached>,
    one: Reached,
) -> Result<(), AllocError>
    requires shape { IsShape shape.now }
    requires alone { shape.now.guests ≡ 0 }
    ensures { OnOk result ((scripts : List (List Command)) (size : ℕ) → AreReached shape.now scripts size layer.old.items
        → IsReached shape.now scripts size one
        → AreReached shape.now scripts size layer.new.items
        × ((rest : List Item) → Become shape.now scripts (going 0 one ∷ with_states layer.old.items rest)
        (with_states layer.new.items rest))) }
{
    match find(shape, layer.as_slice(), &one) {
        Some(i) => {
            join(alloc, &mut layer[i], one)?;
            Ok(())
        }
        None => {
            layer.push(one)?;
            Ok(())
        }
    }
}
