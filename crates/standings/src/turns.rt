//! The turns of a lane, and whether two are alike.
ghost use Rattle.std.specs.Prelude.{◌≡◌, ◌≢◌, ◌⊎◌, ◌<◌, true, [], ◌∷◌, length, MatchOption};
ghost use Rattle.traces.specs.TurnLaws.{turns_of};
ghost use Rattle.standings.specs.Alike.{IsAlikeTurn};

use crate::acts::same_acts;
use crate::replies::same_replies;
use crate::steps::{are_alike_steps, same_steps};
use traces::Turn;

/// The first turn of a lane, and the turns behind it.
pub(crate) fn own_turn(turns: &[Turn], lane: u32) -> Option<(&Turn, &[Turn])>
    ensures { MatchOption result (turns_of lane turns.now ≡ []) (λ p. (turns_of lane turns.now ≡ p.0.now ∷ turns_of lane p.1.now)
        × (length p.1.now < length turns.now)) }
{
    let mut rest = turns;
    while let Some((turn, more)) = rest.split_first() {
        if turn.lane == lane {
            return Some((turn, more));
        }
        rest = more;
    }
    None
}

/// Whether two turns are alike: with the same replies and the same act, and with a step of the same kind on the same
/// word.
pub(crate) fn are_alike(turn: &Turn, other: &Turn) -> bool
    ensures { result ≡ true → IsAlikeTurn turn.now other.now }
{
    same_replies(turn.before.as_slice(), other.before.as_slice())
        && are_alike_steps(&turn.step, &other.step)
        && same_acts(&turn.act, &other.act)
        && same_replies(turn.after.as_slice(), other.after.as_slice())
}

/// Whether the steps of a call under way are the same behind two turns, by whether they were before: a reply ends a
/// call.
pub(crate) fn stay_same(same: bool, turn: &Turn, other: &Turn) -> bool
    ensures { result ≡ true → (turn.now.after ≢ [])
        ⊎ ((turn.now.step ≡ other.now.step) × ((same ≡ true) ⊎ (turn.now.before ≢ []))) }
{
    let begun = same || !turn.before.as_slice().is_empty();
    let stepped = begun && same_steps(&turn.step, &other.step);
    stepped || !turn.after.as_slice().is_empty()
}
