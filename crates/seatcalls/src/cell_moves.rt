//! The moves of whole cells. Each is made by a lane that has all shares of the place, and makes moves of that place
//! alone.
ghost use Rattle.keybits.specs.Shapes.{callers};
ghost use Rattle.std.specs.Prelude.{◌≡◌, ◌≢◌, ◌<◌, ℕ, []};
ghost use Rattle.poolsteps.specs.declared.view.Status.TheVariants.{Untouched, Emptied};
ghost use Rattle.poolsteps.specs.Layout.{spots_at};
ghost use Rattle.poolsteps.specs.Views.{the_lane, status_of};
ghost use Rattle.poolsteps.specs.Told.{LeftAlone, MayRenew};
ghost use Rattle.poolsteps.specs.Moved.{stored_of};
ghost use Rattle.seatcalls.specs.Carried.{AreEmptied, AreAtRest, MayMoveCell, MovesCell, IsKnown};

use poolsteps::{Grid, Hand, Rest, Share, Spot, Whole, shares_law};
use slotcell::Clear;

/// Takes all shares of a place out of its slots, in which the lane left them alone: they are the whole cell that the
/// lane knows. It takes two looks, and no memory.
pub fn take_cell<T: Clear + Drop>(
    grid: &Grid<T>,
    hand: &mut Hand<T>,
    spot: Spot,
    lane: u32,
) -> Whole<T>
    requires may { MayMoveCell grid.now hand.old spot lane }
    requires bare { hand.old.me.1 ≡ [] }
    requires slots { LeftAlone grid.now.shape (the_lane hand.old.me.0) spot.place }
    ensures moves { MovesCell grid.now spot.place 2 hand.old hand.new }
    ensures slots { AreEmptied grid.now.shape (the_lane hand.new.me.0) spot.place }
    ensures cell { IsKnown grid.now T.content T.room spot.place (the_lane hand.old.me.0) result }
{
    shares_law();
    grid.out_all(hand, spot, lane).into_whole()
}

/// Takes the only share of a place at rest out of its slot: it is the whole cell that the lane knows. It takes two
/// looks, and no memory.
pub fn take_resting<T: Clear + Drop>(
    grid: &Grid<T>,
    hand: &mut Hand<T>,
    spot: Spot,
    lane: u32,
) -> Whole<T>
    requires may { MayMoveCell grid.now hand.old spot lane }
    requires slots { AreAtRest grid.now.shape (the_lane hand.old.me.0) spot.place }
    ensures moves { MovesCell grid.now spot.place 2 hand.old hand.new }
    ensures slots { AreEmptied grid.now.shape (the_lane hand.new.me.0) spot.place }
    ensures cell { IsKnown grid.now T.content T.room spot.place (the_lane hand.old.me.0) result }
{
    shares_law();
    Rest::of_last(grid.out_whole(hand, spot, lane)).into_whole()
}

/// Puts a whole cell into the slots of a place, which the lane has emptied: a share into each. It takes two looks, and
/// no memory.
pub fn spread_cell<T: Clear + Drop>(
    grid: &Grid<T>,
    hand: &mut Hand<T>,
    spot: Spot,
    lane: u32,
    whole: Whole<T>,
)
    requires may { MayMoveCell grid.now hand.old spot lane }
    requires bare { hand.old.me.1 ≡ [] }
    requires slots { AreEmptied grid.now.shape (the_lane hand.old.me.0) spot.place }
    requires at { whole.spot ≡ spots_at grid.now.objects.ptr grid.now.shape spot.place }
    ensures moves { MovesCell grid.now spot.place 2 hand.old hand.new }
    ensures slots { LeftAlone grid.now.shape (the_lane hand.new.me.0) spot.place }
    ensures cell { IsKnown grid.now T.content T.room spot.place (the_lane hand.new.me.0) whole }
{
    shares_law();
    grid.back_all(
        hand,
        spot,
        lane,
        whole.lend((grid.shape.lanes + grid.shape.guests) as usize),
    );
}

/// Puts the shares of a whole cell into the slots of a place, which the lane has emptied, and takes the lane's own out
/// again, which it answers: the place may then be published with a reference. It takes four looks, and no memory.
pub fn spread_others<T: Clear + Drop>(
    grid: &Grid<T>,
    hand: &mut Hand<T>,
    spot: Spot,
    lane: u32,
    whole: Whole<T>,
) -> Share<T>
    requires may { MayMoveCell grid.now hand.old spot lane }
    requires bare { hand.old.me.1 ≡ [] }
    requires slots { AreEmptied grid.now.shape (the_lane hand.old.me.0) spot.place }
    requires at { whole.spot ≡ spots_at grid.now.objects.ptr grid.now.shape spot.place }
    ensures moves { MovesCell grid.now spot.place 4 hand.old hand.new }
    ensures others { (number : ℕ) → number < callers grid.now.shape → number ≢ lane
        → status_of (the_lane hand.new.me.0) spot.place number ≡ Untouched }
    ensures own { status_of (the_lane hand.new.me.0) spot.place lane ≡ Emptied }
    ensures share { (result.number ≡ lane) × (result.of ≡ callers grid.now.shape) × (T.content result.object ≡ T.content whole.object)
        × (T.room result.object ≡ T.room whole.object) × (result.spot ≡ spots_at grid.now.objects.ptr grid.now.shape spot.place) }
    ensures cell { MayRenew grid.now.shape hand.new.me.0 spot.place (stored_of T.content T.room result) }
{
    shares_law();
    spread_cell(grid, hand, spot, lane, whole);
    grid.out(hand, spot, lane, lane)
}

/// Puts a whole cell to rest in the slot of its place's shard, where the lane has emptied all slots of the place. It
/// takes two looks, and no memory.
pub fn rest_cell<T: Clear + Drop>(
    grid: &Grid<T>,
    hand: &mut Hand<T>,
    spot: Spot,
    lane: u32,
    whole: Whole<T>,
)
    requires may { MayMoveCell grid.now hand.old spot lane }
    requires slots { AreEmptied grid.now.shape (the_lane hand.old.me.0) spot.place }
    requires at { whole.spot ≡ spots_at grid.now.objects.ptr grid.now.shape spot.place }
    ensures moves { MovesCell grid.now spot.place 2 hand.old hand.new }
    ensures slots { AreAtRest grid.now.shape (the_lane hand.new.me.0) spot.place }
    ensures cell { IsKnown grid.now T.content T.room spot.place (the_lane hand.new.me.0) whole }
{
    shares_law();
    grid.back_whole(hand, spot, lane, whole.lend(1).into_share());
}
