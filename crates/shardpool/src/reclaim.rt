//! What follows the LEAVE of a place: its claim, and what becomes of it.
ghost use Rattle.std.specs.Prelude.{◌≡◌, ◌<◌, [], Some, None, IfSome, if◌then◌else◌, false, true, ◌+◌, length};
ghost use Rattle.keybits.specs.Words.{generation_in, owes_claim};
ghost use Rattle.steplaws.specs.StepLaws.{owed_after};
ghost use Rattle.poolsteps.specs.Shares.{room_of};
ghost use Rattle.poolsteps.specs.Layout.{spots_at, shard_start};
ghost use Rattle.poolsteps.specs.Views.{the_lane, known_of, IsOne};
ghost use Rattle.poolsteps.specs.Grids.{IsOf, SameSeat, IsSpot};
ghost use Rattle.poolsteps.specs.Told.{HasPlace, LeftAlone, claimed_under};
ghost use Rattle.seatcalls.specs.AtPlace.{IsAt, MayAct};
ghost use Rattle.seatcalls.specs.Called.{EndsWithActs, TailActs, IsLawful, Ends, Tails, IsReclaimed, StandsAt, GivesHome, MadeHome};
ghost use Rattle.steplaws.specs.declared.pending.Pending.TheVariants.{Returns};
ghost use Rattle.poolsteps.specs.Returned.{IsAtRest};
ghost use Rattle.keybits.specs.Keys.{place_of};
ghost use Rattle.keybits.specs.Shapes.{IsShape, shard_places};
ghost use Rattle.shardpool.specs.Finishes.{MayFinishAndKeep, Finishes};
ghost use Rattle.keybits.specs.Places.{shard_of};
ghost use Rattle.freelists.specs.Shards.{place_numbered};
ghost use Rattle.freelists.specs.Queues.{IsAway};
ghost use Rattle.poolsteps.specs.Whole.{Whole as Cell};
ghost use Rattle.seatcalls.specs.declared.at.Reclaimed.TheVariants.{Own};
ghost use Rattle.shardpool.specs.Stores.{Keeps};
ghost use Rattle.shardpool.specs.Handed.{HandsOut};
ghost use Rattle.seatcalls.specs.Carried.{AreEmptied, AreAtRest, MayMoveCell, MovesCell};

use crate::pool::LaneState;
use crate::stores::keep;
use keybits::{Life, claimable, link_to, owes_claim, place_of, shard_of};
use poolsteps::{Grid, Hand, Spot, Whole, shares_law};
use seatcalls::{At, Emptier, Reclaimed, owed_by, rest_cell, take_cell};
use slotcell::Clear;
use std::alloc::Global;
use std::mem;

/// What follows the LEAVE of a key's place that found this word, and what the lane keeps of it: nothing, unless the
/// call is the last to leave a marked place. Inlined, for what is seldom done stands apart.
#[inline(always)]
pub(crate) fn finish_if_owed<T: Clear + Drop, E: Emptier<T>>(
    grid: &Grid<T>,
    hand: &mut Hand<T>,
    state: &mut LaneState<T>,
    spot: Spot,
    key: u64,
    found: u64,
    emptier: &mut E,
)
    requires call { MayFinishAndKeep T.content T.room grid.now hand.old state.old spot.start key found }
    ensures hand { SameSeat hand.old hand.new }
    ensures finishes { Finishes T.content T.room grid.now.shape (place_of key) found hand.old.me hand.new.me state.old state.new }
    ensures hands { HandsOut E.takes hand.old.me.0 hand.new.me.0 emptier.old emptier.new }
{
    if owes_claim(found) {
        finish(grid, hand, state, spot.start, key, found, emptier);
    }
}

/// What the last to leave a marked place does. Away from the calls' own paths: few calls come here, so it takes what
/// they have at hand, and answers nothing.
#[cold]
#[inline(never)]
fn finish<T: Clear + Drop, E: Emptier<T>>(
    grid: &Grid<T>,
    hand: &mut Hand<T>,
    state: &mut LaneState<T>,
    start: u32,
    key: u64,
    found: u64,
    emptier: &mut E,
)
    requires call { MayFinishAndKeep T.content T.room grid.now hand.old state.old start key found }
    ensures hand { SameSeat hand.old hand.new }
    ensures finishes { Finishes T.content T.room grid.now.shape (place_of key) found hand.old.me hand.new.me state.old state.new }
    ensures hands { HandsOut E.takes hand.old.me.0 hand.new.me.0 emptier.old emptier.new }
{
    let spot = Spot {
        place: place_of(key),
        start,
    };
    let reclaimed = finish_leave(grid, hand, state.at_spot(spot), found, emptier);
    keep_reclaimed(state, spot, reclaimed);
}

impl<T> LaneState<T> {
    /// Where a call of this lane acts.
    #[inline(always)]
    pub(crate) fn at_spot(&self, spot: Spot) -> At<'_>
        ensures spot { result.spot ≡ spot }
        ensures lane { result.lane ≡ self.now.number }
        ensures tops { result.tops.now.items ≡ self.now.last_pushed.items }
    {
        At {
            spot,
            lane: self.number,
            tops: &self.last_pushed,
            alloc: self.alloc,
        }
    }
}

/// What follows a LEAVE that found this word: where it left (g, MARKED, 0), the CLAIM of g; and where that succeeded,
/// the place's object is emptied, and a place of another shard returned. None where no place was reclaimed. It takes no
/// memory.
#[inline(always)]
pub(crate) fn finish_leave<T: Clear + Drop, E: Emptier<T>>(
    grid: &Grid<T>,
    hand: &mut Hand<T>,
    at: At,
    found: u64,
    emptier: &mut E,
) -> Option<Reclaimed<T>>
    requires act { MayAct grid.now hand.old at.spot.place at }
    requires seen { IsLawful grid.now.shape hand.old.me.0 }
    requires owes { (the_lane hand.old.me.0).under ≡ owed_after at.spot.place found }
    ensures hand { SameSeat hand.old hand.new }
    ensures ends { Ends grid.now.shape at.entry.spot.place found hand.old.me hand.new.me }
    ensures acts { EndsWithActs grid.now.shape at.entry.spot.place [] hand.old.me.0 hand.new.me.0 result }
    ensures reclaimed { IfSome result (IsReclaimed T.content T.room grid.now.shape at.entry.spot.place at.entry.lane hand.new.me.0) }
    ensures at { StandsAt (spots_at grid.now.objects.ptr grid.now.shape at.entry.spot.place) result }
    ensures hands { HandsOut E.takes hand.old.me.0 hand.new.me.0 emptier.old emptier.new }
{
    let generation = owed_by(found)?;
    let word = grid.claim(hand, at.spot, generation);
    if word != claimable(generation) {
        return None;
    }
    Some(reclaim_place(grid, hand, at, generation, emptier))
}

/// What follows a CLAIM of this generation that succeeded.
#[inline(always)]
pub(crate) fn reclaim_place<T: Clear + Drop, E: Emptier<T>>(
    grid: &Grid<T>,
    hand: &mut Hand<T>,
    at: At,
    generation: u32,
    emptier: &mut E,
) -> Reclaimed<T>
    requires act { MayAct grid.now hand.old at.spot.place at }
    requires under { (the_lane hand.old.me.0).under ≡ claimed_under grid.now.shape at.lane at.spot.place generation }
    requires place { HasPlace grid.now.shape hand.old.me.0 at.spot.place × LeftAlone grid.now.shape (the_lane hand.old.me.0) at.spot.place }
    requires room { (known_of (the_lane hand.old.me.0) at.spot.place).room ≡ room_of hand.old.me.0.seen hand.old.me.0.rooms at.spot.place }
    ensures hand { SameSeat hand.old hand.new }
    ensures tails { Tails grid.now.shape at.entry.spot.place generation hand.old.me hand.new.me }
    ensures acts { TailActs grid.now.shape at.entry.spot.place generation hand.old.me.0 hand.new.me.0 result }
    ensures reclaimed { IsReclaimed T.content T.room grid.now.shape at.entry.spot.place at.entry.lane hand.new.me.0 result }
    ensures at { StandsAt (spots_at grid.now.objects.ptr grid.now.shape at.entry.spot.place) (Some result) }
    ensures took { E.takes emptier.old (known_of (the_lane hand.old.me.0) at.entry.spot.place).content emptier.new }
{
    shares_law();
    let mut whole = take_cell(grid, hand, at.spot, at.lane);
    if generation == grid.shape.last_generation {
        retire(grid, hand, at, whole, emptier);
        return Reclaimed::Retired;
    }
    emptier.empty(whole.get_mut(grid.objects, at.spot.start as usize));
    if shard_of(at.spot.place) == at.lane {
        return Reclaimed::Own(whole);
    }
    rest_cell(grid, hand, at.spot, at.lane, whole);
    give_home(grid, hand, at);
    Reclaimed::Returned
}

/// Hands over the object of a place that gets none any more: an empty one then rests there until the pool is closed.
/// Apart, for each place comes here once at most.
#[cold]
#[inline(never)]
fn retire<T: Clear + Drop, E: Emptier<T>>(
    grid: &Grid<T>,
    hand: &mut Hand<T>,
    at: At,
    mut whole: Whole<T>,
    emptier: &mut E,
)
    requires may { MayMoveCell grid.now hand.old at.spot at.lane }
    requires slots { AreEmptied grid.now.shape (the_lane hand.old.me.0) at.spot.place }
    requires whole { whole.spot ≡ spots_at grid.now.objects.ptr grid.now.shape at.spot.place }
    ensures moves { MovesCell grid.now at.entry.spot.place 2 hand.old hand.new }
    ensures slots { AreAtRest grid.now.shape (the_lane hand.new.me.0) at.entry.spot.place }
    ensures took { E.takes emptier.old (T.content whole.object) emptier.new }
{
    let object = whole.get_mut(grid.objects, at.spot.start as usize);
    emptier.retire(mem::replace(object, T::fresh(at.alloc)));
    rest_cell(grid, hand, at.spot, at.lane, whole);
}

/// Returns a place of another shard, which is at rest: LINK and PUSH from the word that the lane last pushed there, and
/// once more from an empty stack where that was taken. It takes no memory.
pub(crate) fn give_home<T: Clear>(grid: &Grid<T>, hand: &mut Hand<T>, at: At)
    requires hand { IsOf grid.now hand.old × IsOne hand.old.me.0 }
    requires at { IsAt grid.now.shape hand.old.me.0 at.spot.place at }
    requires returns { (the_lane hand.old.me.0).under ≡ Returns at.spot.place None false }
    requires place { HasPlace grid.now.shape hand.old.me.0 at.spot.place }
    requires rests { IsAtRest grid.now.shape hand.old.me.0 at.spot.place }
    ensures hand { SameSeat hand.old hand.new }
    ensures acts { MadeHome at.entry.spot.place hand.old.me.0 hand.new.me.0 }
    ensures gives { GivesHome grid.now.shape at.entry.spot.place hand.old.me hand.new.me }
{
    shares_law();
    let top = at.top();
    grid.link(hand, at.spot, top);
    if grid.push(hand, at.spot, at.lane, top) != top {
        grid.link(hand, at.spot, 0);
        grid.push(hand, at.spot, at.lane, 0);
    }
}

/// What became of a place that was reclaimed is kept: the object of an own place, and of a place that was returned its
/// word.
#[inline(always)]
pub(crate) fn keep_reclaimed<T: Drop>(
    state: &mut LaneState<T>,
    spot: Spot,
    reclaimed: Option<Reclaimed<T>>,
)
    requires shape { IsShape state.old.shape }
    requires spot { IsSpot state.old.shape spot spot.place }
    requires narrow { length state.old.objects.items ≡ shard_places state.old.shape }
    requires wide { length state.old.last_pushed.items ≡ state.old.shape.lanes }
    requires begins { state.old.objects.first ≡ shard_start state.old.shape state.old.free.shard }
    requires at { StandsAt (spots_at state.old.objects.directory state.old.shape spot.place) reclaimed }
    requires away { (whole : Cell T) → reclaimed ≡ Some (Own whole) → IsAway state.old.free (place_numbered spot.place) }
    ensures { Keeps spot.place reclaimed state.old state.new }
{
    match reclaimed {
        Some(Reclaimed::Own(whole)) => {
            keep(state, spot, whole);
        }
        Some(Reclaimed::Returned) => {
            state.last_pushed[shard_of(spot.place) as usize] = link_to(spot.place);
        }
        Some(Reclaimed::Retired) | None => {}
    }
}
