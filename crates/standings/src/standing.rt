//! Whether two traces leave the same behind.
ghost use Rattle.std.specs.Prelude.{◌≡◌, ◌<◌, ℕ, true};
ghost use Rattle.keybits.specs.Shapes.{IsShape};
ghost use Rattle.standings.specs.Alike.{AreSameLanes};
ghost use Rattle.standings.specs.Behind.{AreSameBehind};

use crate::contents::same_contents;
use crate::lanes::same_lane;
use crate::words::same_words;
use keybits::Shape;
use traces::Turn;

/// Whether all lanes went the same way in both.
fn same_lanes(lanes: u32, turns: &[Turn], others: &[Turn]) -> bool
    ensures { result ≡ true → (lane : ℕ) → lane < lanes → AreSameLanes lane turns.now others.now }
{
    for lane in 0..lanes {
        if !same_lane(turns, others, lane) {
            return false;
        }
    }
    true
}

/// Whether two traces of the same scripts leave the same behind: the pool, the words, the books, and what each lane
/// replied. Where it answers false they may do so still.
pub fn same_standing(shape: Shape, turns: &[Turn], others: &[Turn]) -> bool
    requires shape { IsShape shape }
    requires alone { shape.guests ≡ 0 }
    ensures { result ≡ true → AreSameBehind shape turns.now others.now }
{
    same_words(turns, others)
        && same_contents(turns, others)
        && same_lanes(shape.lanes, turns, others)
}
