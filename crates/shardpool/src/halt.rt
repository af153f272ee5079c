//! How a lane's last call is ended for good, as that of a thread which stops inside a call.
ghost use Rattle.std.specs.Prelude.{◌≡◌, ◌<◌, ◌≤◌, false, map, ◌≢◌, ℕ, [], ◌∷◌, None, true};
ghost use Rattle.keybits.specs.Places.{number_of};
ghost use Rattle.keybits.specs.Keys.{is_key, place_of};
ghost use Rattle.steplaws.specs.Calls.Call.{Getting, Releasing, Clearing, Creating};
ghost use Rattle.steplaws.specs.Facts.{most_references};
ghost use Rattle.poolsteps.specs.Views.{the_lane, status_of, known_of, IsOne};
ghost use Rattle.poolsteps.specs.Told.{references_seen, HasPlace, LeftAlone, MayLeave, claimed_under};
ghost use Rattle.shardpool.specs.Halted.{CalledWithin, LeavesWithin, EndsWithin, TailsWithin, GivesWithin, FollowsWithin};
ghost use Rattle.shardpool.specs.Lanes.{Owns};
ghost use Rattle.shardpool.specs.Halts.{MayMakeLast, HaltsIn, AreParts};
ghost use Rattle.poolsteps.specs.declared.view.Status.TheVariants.{Untouched};
ghost use Rattle.poolsteps.specs.Shares.{room_of};
ghost use Rattle.steplaws.specs.declared.pending.Pending.TheVariants.{Returns};
ghost use Rattle.steplaws.specs.StepLaws.{owed_after};
ghost use Rattle.poolsteps.specs.Grids.{IsSpot, IsOf, SameSeat};
ghost use Rattle.poolsteps.specs.Returned.{IsAtRest, rest_of};
ghost use Rattle.seatcalls.specs.AtPlace.{IsAt, MayAct, MayCall};
ghost use Rattle.seatcalls.specs.Called.{IsLawful};

use crate::get::Ref;
use crate::pool::{Lane, LaneState, Pool};
use crate::release::return_last_share;
use keybits::{claimable, is_hit, linked_place, place_of, shard_of};
use poolsteps::{Grid, Hand, Purpose, Spot, shares_law};
use seatcalls::{At, owed_by, rest_cell, take_cell};
use slotcell::Clear;
use std::marker::Model;
use steplaws::home_law;

/// A call that a lane makes last.
pub enum LastCall<T> {
    /// A get of a key.
    Get(u64),
    /// A clear of a key.
    Clear(u64),
    /// A release of a reference.
    Release(Ref<T>),
    /// A create.
    Create,
}

/// A lane whose last call was ended for good. It must be left.
pub struct Halted<T: Clear> {
    pub(crate) hand: Hand<T>,
    pub(crate) state: LaneState<T>,
}

impl<T: Clear> Model for Halted<T> {
    ghost use Rattle.shardpool.specs.Halts.{HaltedOf};

    ghost Value = { HaltedOf };

    ghost view = { λ h. record { table = h.hand.table_id; shape = h.state.shape; number = h.state.number; book = h.hand.me.0 } };
}

impl<T: Clear + Drop> Halted<T> {
    /// The lane ends, and the pool isn't told: what it had under way stays so, and so do its references and its places.
    pub fn forget(self) {
        let Halted { hand, state } = self;
        drop(hand);
        drop(state);
    }
}

impl<T: Clear + Drop> Pool<T> {
    /// Makes a call of a lane, and ends it for good after so many atomic steps, or at its end where it has no more. A
    /// reference or a filling that it gained is left, and a reference that it was to give back stays held where no step
    /// is made.
    ///
    /// What the lane had under way stays so, and a pool with such a lane can't be closed.
    pub fn halt(&self, lane: Lane<T>, call: LastCall<T>, limit: u32) -> Halted<T>
        requires owns { Owns self.now lane }
        requires may { MayMakeLast lane call }
        ensures same { (result.table ≡ lane.table) × (result.shape ≡ lane.shape) × (result.number ≡ lane.number) }
        ensures halts { HaltsIn lane call limit result }
    {
        let Lane {
            mut hand,
            mut state,
            row,
            ..
        } = lane;
        drop(row);
        match call {
            LastCall::Get(key) => self.halt_get(&mut hand, &state, key, limit),
            LastCall::Clear(key) => self.halt_clear(&mut hand, &state, key, limit),
            LastCall::Release(reference) => {
                self.halt_release(&mut hand, &mut state, reference.spend(), limit);
            }
            LastCall::Create => self.halt_create(&mut hand, &state, limit),
        }
        Halted { hand, state }
    }

    /// A get that ends after so many steps.
    fn halt_get(&self, hand: &mut Hand<T>, state: &LaneState<T>, key: u64, limit: u32)
        requires parts { AreParts T.content T.room self.now hand.old state.now }
        requires room { state.now.references < most_references }
        ensures table { hand.new.table_id ≡ hand.old.table_id }
        ensures outside { is_key self.now.shape key ≡ false → hand.new.me ≡ hand.old.me }
        ensures called { CalledWithin self.now.shape (Getting key) limit hand.old.me hand.new.me }
    {
        let Some(spot) = self.find(key) else {
            return;
        };
        get_within(&self.grid, hand, state.at_spot(spot), key, limit);
    }

    /// A clear that ends after so many steps.
    fn halt_clear(&self, hand: &mut Hand<T>, state: &LaneState<T>, key: u64, limit: u32)
        requires parts { AreParts T.content T.room self.now hand.old state.now }
        ensures table { hand.new.table_id ≡ hand.old.table_id }
        ensures outside { is_key self.now.shape key ≡ false → hand.new.me ≡ hand.old.me }
        ensures called { CalledWithin self.now.shape (Clearing key) limit hand.old.me hand.new.me }
    {
        let Some(spot) = self.find(key) else {
            return;
        };
        clear_within(&self.grid, hand, state.at_spot(spot), key, limit);
    }

    /// A release that ends after so many steps.
    fn halt_release(&self, hand: &mut Hand<T>, state: &mut LaneState<T>, key: u64, limit: u32)
        requires parts { AreParts T.content T.room self.now hand.old state.old }
        requires held { 1 ≤ references_seen self.now.shape hand.old.me.0 key }
        ensures table { hand.new.table_id ≡ hand.old.table_id }
        ensures state { state.new ≡ record state.old { rows = state.new.rows } }
        ensures called { CalledWithin self.now.shape (Releasing key) limit hand.old.me hand.new.me }
    {
        if limit == 0 {
            return;
        }
        let spot = self.grid.spot(place_of(key));
        return_last_share(&self.grid, hand, state, spot, key);
        release_within(&self.grid, hand, state.at_spot(spot), key, limit);
    }

    /// A create that ends after so many steps. It makes none where the lane's own list has a place, and none where
    /// nothing hangs and no page is opened.
    fn halt_create(&self, hand: &mut Hand<T>, state: &LaneState<T>, limit: u32)
        requires parts { AreParts T.content T.room self.now hand.old state.now }
        ensures table { hand.new.table_id ≡ hand.old.table_id }
        ensures called { CalledWithin self.now.shape
            (Creating (map number_of state.now.free.own) (the_lane hand.old.me.0).chain state.now.pages.opened) limit hand.old.me
            hand.new.me }
    {
        if state.free.len() > 0 {
            return;
        }
        if let Some(first) = state.free.chain() {
            let spot = self.grid.spot(first.number());
            follow_within(&self.grid, hand, spot, limit);
            return;
        }
        if state.pages.opened() > 0 {
            collect_within(&self.grid, hand, state.number, limit);
        }
    }
}

/// A get of a key that ends after so many steps.
pub(crate) fn get_within<T: Clear + Drop>(
    grid: &Grid<T>,
    hand: &mut Hand<T>,
    at: At,
    key: u64,
    limit: u32,
)
    requires call { MayCall grid.now hand.old key at }
    requires key { is_key grid.now.shape key ≡ true }
    requires seen { IsLawful grid.now.shape hand.old.me.0 }
    requires room { references_seen grid.now.shape hand.old.me.0 key < most_references }
    ensures hand { SameSeat hand.old hand.new }
    ensures called { CalledWithin grid.now.shape (Getting key) limit hand.old.me hand.new.me }
{
    if limit == 0 {
        return;
    }
    let found = grid.enter(hand, at.spot, key, Purpose::ToGet);
    if !is_hit(key, found) {
        leave_within(grid, hand, at, key, limit - 1);
    }
}

/// A release of a key to which the lane has a reference, that ends after so many steps; its share is back in its slot
/// where that reference is the last and a step is made.
pub(crate) fn release_within<T: Clear + Drop>(
    grid: &Grid<T>,
    hand: &mut Hand<T>,
    at: At,
    key: u64,
    limit: u32,
)
    requires call { MayCall grid.now hand.old key at }
    requires seen { IsLawful grid.now.shape hand.old.me.0 }
    requires held { 0 < references_seen grid.now.shape hand.old.me.0 key }
    requires share { 0 < limit → status_of (the_lane hand.old.me.0) (place_of key) at.lane ≢ Untouched
        → 1 < references_seen grid.now.shape hand.old.me.0 key }
    ensures hand { SameSeat hand.old hand.new }
    ensures called { CalledWithin grid.now.shape (Releasing key) limit hand.old.me hand.new.me }
{
    leave_within(grid, hand, at, key, limit);
}

/// A clear of a key that ends after so many steps.
pub(crate) fn clear_within<T: Clear + Drop>(
    grid: &Grid<T>,
    hand: &mut Hand<T>,
    at: At,
    key: u64,
    limit: u32,
)
    requires call { MayCall grid.now hand.old key at }
    requires key { is_key grid.now.shape key ≡ true }
    requires seen { IsLawful grid.now.shape hand.old.me.0 }
    ensures hand { SameSeat hand.old hand.new }
    ensures called { CalledWithin grid.now.shape (Clearing key) limit hand.old.me hand.new.me }
{
    if limit == 0 {
        return;
    }
    let found = grid.enter(hand, at.spot, key, Purpose::ToClear);
    if !is_hit(key, found) {
        leave_within(grid, hand, at, key, limit - 1);
        return;
    }
    if limit == 1 {
        return;
    }
    grid.mark(hand, at.spot, key);
    leave_within(grid, hand, at, key, limit - 2);
}

/// TAKEs as a create makes them, and the FOLLOW behind one that found places, up to so many steps.
pub(crate) fn collect_within<T: Clear>(grid: &Grid<T>, hand: &mut Hand<T>, lane: u32, limit: u32)
    requires hand { IsOf grid.now hand.old × IsOne hand.old.me.0 }
    requires lane { (lane ≡ (the_lane hand.old.me.0).lane) × (lane < grid.now.shape.lanes) }
    requires seen { IsLawful grid.now.shape hand.old.me.0 }
    requires chain { (the_lane hand.old.me.0).chain ≡ [] }
    ensures hand { SameSeat hand.old hand.new }
    ensures called { (opened : ℕ) → 0 < opened → CalledWithin grid.now.shape (Creating [] [] opened) limit hand.old.me hand.new.me }
{
    home_law();
    let mut left = limit;
    for from in 0..grid.shape.lanes {
        if left == 0 {
            return;
        }
        if from != lane {
            let found = grid.take(hand, lane, from);
            left -= 1;
            if found != 0 {
                let first = grid.spot(linked_place(lane, found));
                follow_within(grid, hand, first, left);
                return;
            }
        }
    }
}

/// FOLLOW of the first place of a taken chain, where at least one step may be made.
pub(crate) fn follow_within<T: Clear>(grid: &Grid<T>, hand: &mut Hand<T>, spot: Spot, limit: u32)
    requires hand { IsOf grid.now hand.old × IsOne hand.old.me.0 }
    requires spot { IsSpot grid.now.shape spot spot.place }
    requires lane { (the_lane hand.old.me.0).lane < grid.now.shape.lanes }
    requires chain { (the_lane hand.old.me.0).chain ≡ spot.place ∷ rest_of (the_lane hand.old.me.0).chain }
    requires seen { IsLawful grid.now.shape hand.old.me.0 }
    ensures hand { SameSeat hand.old hand.new }
    ensures called { (opened : ℕ) → CalledWithin grid.now.shape (Creating [] (the_lane hand.old.me.0).chain opened) limit hand.old.me
        hand.new.me }
    ensures follows { FollowsWithin grid.now.shape limit hand.old.me hand.new.me }
{
    if limit > 0 {
        grid.follow(hand, spot);
    }
}

/// LEAVE of a key's place and what follows it, up to so many steps.
fn leave_within<T: Clear + Drop>(grid: &Grid<T>, hand: &mut Hand<T>, at: At, key: u64, limit: u32)
    requires act { MayAct grid.now hand.old (place_of key) at }
    requires may { 0 < limit → MayLeave grid.now.shape hand.old.me.0 key }
    ensures hand { SameSeat hand.old hand.new }
    ensures leaves { LeavesWithin grid.now.shape key limit hand.old.me hand.new.me }
{
    if limit == 0 {
        return;
    }
    let found = grid.leave(hand, at.spot, key);
    finish_leave_within(grid, hand, at, found, limit - 1);
}

/// What follows a LEAVE that found this word, up to so many steps.
fn finish_leave_within<T: Clear + Drop>(
    grid: &Grid<T>,
    hand: &mut Hand<T>,
    at: At,
    found: u64,
    limit: u32,
)
    requires act { MayAct grid.now hand.old at.spot.place at }
    requires seen { IsLawful grid.now.shape hand.old.me.0 }
    requires owes { (the_lane hand.old.me.0).under ≡ owed_after at.spot.place found }
    ensures hand { SameSeat hand.old hand.new }
    ensures ends { EndsWithin grid.now.shape at.entry.spot.place found limit hand.old.me hand.new.me }
{
    if limit == 0 {
        return;
    }
    let Some(generation) = owed_by(found) else {
        return;
    };
    let word = grid.claim(hand, at.spot, generation);
    if word != claimable(generation) {
        return;
    }
    if limit > 1 {
        reclaim_place_within(grid, hand, at, generation, limit - 1);
    }
}

/// What follows a CLAIM of this generation that succeeded, up to so many steps. A place that isn't returned stays as it
/// is.
fn reclaim_place_within<T: Clear + Drop>(
    grid: &Grid<T>,
    hand: &mut Hand<T>,
    at: At,
    generation: u32,
    limit: u32,
)
    requires act { MayAct grid.now hand.old at.spot.place at }
    requires seen { IsLawful grid.now.shape hand.old.me.0 }
    requires under { (the_lane hand.old.me.0).under ≡ claimed_under grid.now.shape at.lane at.spot.place generation }
    requires place { HasPlace grid.now.shape hand.old.me.0 at.spot.place × LeftAlone grid.now.shape (the_lane hand.old.me.0) at.spot.place }
    requires room { (known_of (the_lane hand.old.me.0) at.spot.place).room ≡ room_of hand.old.me.0.seen hand.old.me.0.rooms at.spot.place }
    requires some { 0 < limit }
    ensures hand { SameSeat hand.old hand.new }
    ensures tails { TailsWithin grid.now.shape at.entry.spot.place generation limit hand.old.me hand.new.me }
{
    if generation == grid.shape.last_generation || shard_of(at.spot.place) == at.lane {
        return;
    }
    shares_law();
    let start = at.spot.start as usize;
    let mut whole = take_cell(grid, hand, at.spot, at.lane);
    whole.get_mut(grid.objects, start).clear();
    rest_cell(grid, hand, at.spot, at.lane, whole);
    give_home_within(grid, hand, at, limit);
}

/// The return of a place of another shard, which is at rest, up to so many steps.
fn give_home_within<T: Clear>(grid: &Grid<T>, hand: &mut Hand<T>, at: At, limit: u32)
    requires hand { IsOf grid.now hand.old × IsOne hand.old.me.0 }
    requires at { IsAt grid.now.shape hand.old.me.0 at.spot.place at }
    requires returns { (the_lane hand.old.me.0).under ≡ Returns at.spot.place None false }
    requires place { HasPlace grid.now.shape hand.old.me.0 at.spot.place }
    requires rests { IsAtRest grid.now.shape hand.old.me.0 at.spot.place }
    requires some { 0 < limit }
    ensures hand { SameSeat hand.old hand.new }
    ensures gives { GivesWithin grid.now.shape at.entry.spot.place limit hand.old.me hand.new.me }
{
    shares_law();
    let top = at.top();
    grid.link(hand, at.spot, top);
    if limit == 1 {
        return;
    }
    let found = grid.push(hand, at.spot, at.lane, top);
    if found == top || limit == 2 {
        return;
    }
    grid.link(hand, at.spot, 0);
    if limit > 3 {
        grid.push(hand, at.spot, at.lane, 0);
    }
}
