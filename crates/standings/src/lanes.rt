//! Whether a lane went the same way in two traces.
ghost use Rattle.std.specs.Prelude.{◌≡◌, true};
ghost use Rattle.standings.specs.Alike.{AreSameLanes};

use crate::turns::{are_alike, own_turn, stay_same};
use traces::Turn;

/// Whether a lane has the same replies and acts in both, and the same steps of its call under way.
pub(crate) fn same_lane(turns: &[Turn], others: &[Turn], lane: u32) -> bool
    ensures { result ≡ true → AreSameLanes lane turns.now others.now }
{
    let mut rest = turns;
    let mut other = others;
    let mut same = true;
    while let Some((turn, more)) = own_turn(rest, lane) {
        let Some((twin, left)) = own_turn(other, lane) else {
            return false;
        };
        if !are_alike(turn, twin) {
            return false;
        }
        same = stay_same(same, turn, twin);
        rest = more;
        other = left;
    }
    same && own_turn(other, lane).is_none()
}
