//! The publish of a filling, without a reference or with one.
ghost use Rattle.keybits.specs.Shapes.{callers};
ghost use Rattle.std.specs.Prelude.{◌≡◌, ◌<◌, true, false, []};
ghost use Rattle.keybits.specs.Keys.{place_of};
ghost use Rattle.seqpool.specs.declared.act.Act.TheVariants as acts;
ghost use Rattle.poolsteps.specs.declared.view.Status.TheVariants.{Emptied};
ghost use Rattle.poolsteps.specs.Shares.{room_of};
ghost use Rattle.steplaws.specs.Calls.Call.{Publishing};
ghost use Rattle.poolsteps.specs.Layout.{spots_at};
ghost use Rattle.poolsteps.specs.Views.{the_lane, status_of, known_of, IsOne};
ghost use Rattle.poolsteps.specs.Grids.{IsSpot, IsOf, SameSeat};
ghost use Rattle.poolsteps.specs.Told.{MayPublish, LeftAlone};
ghost use Rattle.poolsteps.specs.Moved.{stored_of};
ghost use Rattle.seatcalls.specs.Bounds.{most_call_looks};
ghost use Rattle.seatcalls.specs.Carried.{AreEmptied, ShowsCell};
ghost use Rattle.seatcalls.specs.Called.{Called, MadeOne};
ghost use Rattle.steplaws.specs.Facts.{most_references};
ghost use Rattle.shardpool.specs.Lanes.{Owns, Made, refs};
ghost use Rattle.shardpool.specs.AfterCalls.{AfterPublish, AfterDowngrade};

use crate::create::Filling;
use crate::get::{Ref, add_first_reference};
use crate::pool::{Lane, Pool};
use keybits::place_of;
use poolsteps::{Grid, Hand, Share, Spot, Whole, shares_law};
use seatcalls::{spread_cell, spread_others};
use slotcell::Clear;

impl<T: Clear + Drop> Pool<T> {
    /// Publishes a filling: a get of its key finds the content that was written last. Answers the key.
    pub fn publish(&self, lane: &mut Lane<T>, filling: Filling<T>) -> u64
        requires owns { Owns self.now lane.old }
        requires made { Made lane.old filling }
        ensures { AfterPublish T.content T.room self.now filling lane.old lane.new result }
    {
        let (key, start, written) = filling.spend();
        let spot = Spot {
            place: place_of(key),
            start,
        };
        let number = lane.state.number;
        publish(&self.grid, &mut lane.hand, spot, number, key, written);
        key
    }

    /// Publishes a filling as `publish` does, and answers a reference to its key.
    pub fn downgrade(&self, lane: &mut Lane<T>, filling: Filling<T>) -> Ref<T>
        requires owns { Owns self.now lane.old }
        requires made { Made lane.old filling }
        requires room { refs lane.old < most_references }
        ensures { AfterDowngrade T.content T.room self.now filling lane.old lane.new result }
    {
        let (key, start, whole) = filling.spend();
        let spot = Spot {
            place: place_of(key),
            start,
        };
        let number = lane.state.number;
        let share = downgrade(&self.grid, &mut lane.hand, spot, number, key, whole);
        add_first_reference(&mut lane.state, spot.start as usize, key, share);
        Ref::to(key, start, &lane.state.places)
    }
}

/// Publishes the content of a whole cell under a key whose place is with the lane, which emptied its slots: a share
/// goes into each, and PUBLISH follows. It takes no memory.
pub(crate) fn publish<T: Clear + Drop>(
    grid: &Grid<T>,
    hand: &mut Hand<T>,
    spot: Spot,
    lane: u32,
    key: u64,
    whole: Whole<T>,
)
    requires hand { IsOf grid.now hand.old × IsOne hand.old.me.0 }
    requires bare { hand.old.me.1 ≡ [] }
    requires spot { IsSpot grid.now.shape spot (place_of key) }
    requires lane { (lane ≡ (the_lane hand.old.me.0).lane) × (lane < grid.now.shape.lanes) }
    requires may { MayPublish grid.now.shape hand.old.me.0 key }
    requires slots { AreEmptied grid.now.shape (the_lane hand.old.me.0) (place_of key) }
    requires at { whole.spot ≡ spots_at grid.now.objects.ptr grid.now.shape (place_of key) }
    ensures hand { SameSeat hand.old hand.new }
    ensures called { Called grid.now.shape (Publishing key (T.content whole.object) false) most_call_looks hand.old.me hand.new.me }
    ensures acts { MadeOne hand.old.me.0 hand.new.me.0 (acts.Publish lane key (T.content whole.object) false) }
    ensures room { room_of hand.new.me.0.seen hand.new.me.0.rooms (place_of key) ≡ T.room whole.object }
    ensures slots { LeftAlone grid.now.shape (the_lane hand.new.me.0) (place_of key) }
    ensures cell { ShowsCell T.content T.room (spots_at grid.now.objects.ptr grid.now.shape) (place_of key)
        (known_of (the_lane hand.new.me.0) (place_of key)) whole }
{
    shares_law();
    spread_cell(grid, hand, spot, lane, whole);
    grid.publish(hand, spot, key);
}

/// Publishes the content of a whole cell as `publish` does, with a reference: the lane's own share is then in its hands.
/// It takes no memory.
pub(crate) fn downgrade<T: Clear + Drop>(
    grid: &Grid<T>,
    hand: &mut Hand<T>,
    spot: Spot,
    lane: u32,
    key: u64,
    whole: Whole<T>,
) -> Share<T>
    requires hand { IsOf grid.now hand.old × IsOne hand.old.me.0 }
    requires bare { hand.old.me.1 ≡ [] }
    requires spot { IsSpot grid.now.shape spot (place_of key) }
    requires lane { (lane ≡ (the_lane hand.old.me.0).lane) × (lane < grid.now.shape.lanes) }
    requires may { MayPublish grid.now.shape hand.old.me.0 key }
    requires slots { AreEmptied grid.now.shape (the_lane hand.old.me.0) (place_of key) }
    requires at { whole.spot ≡ spots_at grid.now.objects.ptr grid.now.shape (place_of key) }
    ensures hand { SameSeat hand.old hand.new }
    ensures called { Called grid.now.shape (Publishing key (T.content whole.object) true) most_call_looks hand.old.me hand.new.me }
    ensures acts { MadeOne hand.old.me.0 hand.new.me.0 (acts.Publish lane key (T.content whole.object) true) }
    ensures room { room_of hand.new.me.0.seen hand.new.me.0.rooms (place_of key) ≡ T.room whole.object }
    ensures slot { status_of (the_lane hand.new.me.0) (place_of key) lane ≡ Emptied }
    ensures share { (result.number ≡ lane) × (result.of ≡ callers grid.now.shape) × (T.content result.object ≡ T.content whole.object)
        × (result.spot ≡ spots_at grid.now.objects.ptr grid.now.shape (place_of key)) }
    ensures cell { known_of (the_lane hand.new.me.0) (place_of key) ≡ stored_of T.content T.room result }
{
    shares_law();
    let share = spread_others(grid, hand, spot, lane, whole);
    grid.publish_held(hand, spot, key, &share);
    share
}
