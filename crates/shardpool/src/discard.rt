//! A filling that is dropped.
ghost use Rattle.std.specs.Prelude.{◌≡◌, IsNone, IfSome, true, false, Some};
ghost use Rattle.keybits.specs.Keys.{place_of, generation_of};
ghost use Rattle.poolsteps.specs.AtOnce.{unpublished};
ghost use Rattle.poolsteps.specs.Layout.{spots_at};
ghost use Rattle.poolsteps.specs.Views.{the_lane, known_of};
ghost use Rattle.poolsteps.specs.Grids.{SameSeat};
ghost use Rattle.poolsteps.specs.Told.{LeftAlone, MayPublish, Publishes, Sees};
ghost use Rattle.poolsteps.specs.declared.view.View.{View};
ghost use Rattle.atomic_table.specs.Table.{Me};
ghost use Rattle.seatcalls.specs.AtPlace.{MayAct};
ghost use Rattle.seatcalls.specs.Bounds.{most_call_looks};
ghost use Rattle.shardpool.specs.Clears.{Clears};
ghost use Rattle.shardpool.specs.Lanes.{Owns, Made};
ghost use Rattle.shardpool.specs.Discards.{MayDiscardAndKeep, DiscardsAndKeeps, AfterDiscard};

use crate::clear::clear_and_keep;
use crate::create::Filling;
use crate::pool::{Lane, LaneState, Pool};
use crate::reclaim::{keep_reclaimed, reclaim_place};
use keybits::{Life, State, generation_of, place_of};
use poolsteps::{Grid, Hand, Spot, Whole, shares_law};
use seatcalls::{At, InPlace, Reclaimed, spread_cell};
use slotcell::Clear;

impl<T: Clear + Drop> Pool<T> {
    /// Drops a filling: its key is published and cleared, so no get finds it any more, and it isn't given out again. The
    /// object is cleared in place, and its place goes to the end of the lane's own list, to be filled again. Both are one
    /// operation, so that nobody ever finds the key, unless another caller is at work on the key's place meanwhile: then
    /// they are two calls, `publish` and `clear`, and whoever found the key between them gives the place back. It takes
    /// no memory, and waits for nobody.
    pub fn discard(&self, lane: &mut Lane<T>, filling: Filling<T>)
        requires owns { Owns self.now lane.old }
        requires made { Made lane.old filling }
        ensures { AfterDiscard T.content T.room self.now filling lane.old lane.new }
    {
        let (key, start, whole) = filling.spend();
        discard_and_keep(
            &self.grid,
            &mut lane.hand,
            &mut lane.state,
            start,
            key,
            whole,
        );
    }
}

/// Publishes a whole cell under a key whose place is with the lane, and clears the key; the lane keeps what becomes of the
/// place.
fn discard_and_keep<T: Clear + Drop>(
    grid: &Grid<T>,
    hand: &mut Hand<T>,
    state: &mut LaneState<T>,
    start: u32,
    key: u64,
    whole: Whole<T>,
)
    requires call { MayDiscardAndKeep T.content T.room grid.now hand.old state.old start key whole }
    ensures hand { SameSeat hand.old hand.new }
    ensures discards { DiscardsAndKeeps T.content T.room grid.now.shape key whole.object grid.now.objects.ptr hand.old.me hand.new.me
        state.old state.new }
{
    shares_law();
    let spot = Spot {
        place: place_of(key),
        start,
    };
    spread_cell(grid, hand, spot, state.number, whole);
    let mut in_place = InPlace;
    let Some(reclaimed) = try_withdraw(grid, hand, state.at_spot(spot), key, &mut in_place) else {
        grid.publish(hand, spot, key);
        clear_and_keep(grid, hand, state, start, key, &mut in_place);
        return;
    };
    keep_reclaimed(state, spot, Some(reclaimed));
}

/// Publishes a key and clears it at once, and answers what became of its place. None where an ENTER is counted there: then
/// it looked, and did nothing. It takes no memory.
#[inline(always)]
fn try_withdraw<T: Clear + Drop>(
    grid: &Grid<T>,
    hand: &mut Hand<T>,
    at: At,
    key: u64,
    in_place: &mut InPlace,
) -> Option<Reclaimed<T>>
    requires act { MayAct grid.now hand.old (place_of key) at }
    requires may { MayPublish grid.now.shape hand.old.me.0 key }
    requires slots { LeftAlone grid.now.shape (the_lane hand.old.me.0) (place_of key) }
    ensures hand { SameSeat hand.old hand.new }
    ensures withdraws { IfSome result (λ reclaimed. (published : Me _ View)
        × Publishes grid.now.shape key (known_of (the_lane hand.old.me.0) (place_of key)) false hand.old.me
        (unpublished (generation_of key)) published
        × Clears T.content T.room grid.now.shape (spots_at grid.now.objects.ptr grid.now.shape (place_of key)) key at.entry.lane
        most_call_looks published hand.new.me true (Some reclaimed)) }
    ensures looks { IsNone result → Sees grid.now.shape hand.old.me hand.new.me }
{
    let generation = generation_of(key);
    let found = grid.withdraw(hand, at.spot, key);
    if found == unpublished(generation) {
        let reclaimed = reclaim_place(grid, hand, at, generation, in_place);
        return Some(reclaimed);
    }
    None
}

/// The word of a place whose key of this generation isn't published yet, and where no ENTER is counted.
#[inline]
fn unpublished(generation: u32) -> u64
    ensures { result ≡ unpublished generation }
{
    let life = Life {
        generation,
        count: 0,
        state: State::Idle,
    };
    life.word()
}
