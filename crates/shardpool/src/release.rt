//! The release of a reference.
ghost use Rattle.std.specs.Prelude.{◌<◌, ◌≤◌, true, ◌≡◌, ◌≢◌, ◌==◌, ◌+◌, ◌-◌, Some, None, IsSome, slice_get, slice_set, length, if◌then◌else◌};
ghost use Rattle.keybits.specs.Keys.{place_of, generation_of};
ghost use Rattle.poolsteps.specs.Grids.{IsSpot, IsOf, SameSeat};
ghost use Rattle.poolsteps.specs.Layout.{slot_start};
ghost use Rattle.shardpool.specs.Lanes.{Owns, holds};
ghost use Rattle.shardpool.specs.AfterCalls.{AfterRelease};
ghost use Rattle.poolsteps.specs.Told.{references_seen};
ghost use Rattle.shardpool.specs.HeldKeys.{HeldKey as Shown};
ghost use Rattle.shardpool.specs.LaneStates.{Fits};
ghost use Rattle.shardpool.specs.Lendings.{LendsHome};
ghost use Rattle.shardpool.specs.Handed.{HandsOut};

use crate::get::Ref;
use crate::pool::{HeldKey, Lane, LaneState, Pool};
use crate::reclaim::finish_if_owed;
use keybits::place_of;
use poolsteps::{Grid, Hand, Slot, Spot, shares_law};
use seatcalls::{Emptier, InPlace};
use slotcell::Clear;
use std::mem;

impl<T: Clear + Drop> Pool<T> {
    /// Gives a reference back. Where it was the last to a key that is cleared, the object is cleared in place.
    #[inline(always)]
    pub fn release(&self, lane: &mut Lane<T>, reference: Ref<T>)
        requires owns { Owns self.now lane.old }
        requires held { 1 ≤ holds lane.old reference.key }
        ensures { AfterRelease T self.now reference.key lane.old lane.new }
    {
        let start = lane.state.start_of(&reference);
        self.release_at(lane, start, reference.spend());
    }

    /// As `release`. The object of a place that it reclaims is handed to the emptier.
    #[inline(always)]
    pub fn release_with<E: Emptier<T>>(
        &self,
        lane: &mut Lane<T>,
        reference: Ref<T>,
        emptier: &mut E,
    )
        requires owns { Owns self.now lane.old }
        requires held { 1 ≤ holds lane.old reference.key }
        ensures released { AfterRelease T self.now reference.key lane.old lane.new }
        ensures hands { HandsOut E.takes lane.old.book lane.new.book emptier.old emptier.new }
    {
        let start = lane.state.start_of(&reference);
        self.release_at_with(lane, start, reference.spend(), emptier);
    }

    /// As `release`, of a reference that stays with the lane, to a key whose place stands here, as `get_at` answers.
    #[inline(always)]
    pub fn release_at(&self, lane: &mut Lane<T>, start: u32, key: u64)
        requires owns { Owns self.now lane.old }
        requires held { 1 ≤ holds lane.old key }
        requires start { start ≡ slot_start self.now.shape (place_of key) }
        ensures { AfterRelease T self.now key lane.old lane.new }
    {
        let mut in_place = InPlace;
        self.release_at_with(lane, start, key, &mut in_place);
    }

    /// As `release_at`, with an emptier.
    #[inline(always)]
    fn release_at_with<E: Emptier<T>>(
        &self,
        lane: &mut Lane<T>,
        start: u32,
        key: u64,
        emptier: &mut E,
    )
        requires owns { Owns self.now lane.old }
        requires held { 1 ≤ holds lane.old key }
        requires start { start ≡ slot_start self.now.shape (place_of key) }
        ensures released { AfterRelease T self.now key lane.old lane.new }
        ensures hands { HandsOut E.takes lane.old.book lane.new.book emptier.old emptier.new }
    {
        let spot = Spot {
            place: place_of(key),
            start,
        };
        self.release_from(lane, spot, key, emptier);
    }

    /// Gives back a reference to a key, whose place stands here.
    #[inline(always)]
    fn release_from<E: Emptier<T>>(&self, lane: &mut Lane<T>, spot: Spot, key: u64, emptier: &mut E)
        requires owns { Owns self.now lane.old }
        requires spot { IsSpot self.now.shape spot (place_of key) }
        requires held { 1 ≤ holds lane.old key }
        ensures released { AfterRelease T self.now key lane.old lane.new }
        ensures hands { HandsOut E.takes lane.old.book lane.new.book emptier.old emptier.new }
    {
        return_last_share(&self.grid, &mut lane.hand, &mut lane.state, spot, key);
        drop_reference(&mut lane.state, spot.start as usize);
        let left = self.grid.leave(&mut lane.hand, spot, key);
        finish_if_owed(
            &self.grid,
            &mut lane.hand,
            &mut lane.state,
            spot,
            key,
            left,
            emptier,
        );
    }
}

/// The share under the last reference to a key goes back into its slot, in front of a release. Where the lane has more
/// references to the key, nothing is moved.
#[inline]
pub(crate) fn return_last_share<T: Clear + Drop>(
    grid: &Grid<T>,
    hand: &mut Hand<T>,
    state: &mut LaneState<T>,
    spot: Spot,
    key: u64,
)
    requires hand { IsOf grid.now hand.old }
    requires fits { Fits T.content T.room grid.now.shape hand.old.me.0 state.old }
    requires directory { state.old.objects.directory ≡ grid.now.objects.ptr }
    requires spot { IsSpot grid.now.shape spot (place_of key) }
    requires held { 0 < references_seen grid.now.shape hand.old.me.0 key }
    ensures hand { SameSeat hand.old hand.new }
    ensures lends { LendsHome grid.now.shape key hand.old.me hand.new.me state.old state.new }
{
    shares_law();
    let number = state.number;
    let last = take_last_share(state, spot.start as usize);
    grid.settle(hand, spot, number, number, last);
}

/// The share of a row with one reference, which is taken out of it; the tally stays. None where the row has more, and
/// nothing is changed.
#[inline]
pub(crate) fn take_last_share<T: Drop>(state: &mut LaneState<T>, at: usize) -> Slot<T>
    requires at { at < length state.old.rows.items }
    ensures some { (row : Shown T) → slice_get state.old.rows.items at ≡ Some row → row.count ≡ 1
        → (result ≡ row.share) × (state.new.rows.items ≡ slice_set state.old.rows.items at (record row { share = None })) }
    ensures none { (row : Shown T) → slice_get state.old.rows.items at ≡ Some row → row.count ≢ 1 → (result ≡ None)
        × (state.new.rows.items ≡ state.old.rows.items) }
    ensures rest { state.new ≡ record state.old { rows = state.new.rows } }
{
    let row = &mut state.rows[at];
    let HeldKey { tally, share } = mem::replace(row, HeldKey::none());
    let (last, share) = share.deal(&tally);
    *row = HeldKey { tally, share };
    last
}

/// The row has one reference less.
#[inline]
pub(crate) fn drop_reference<T: Drop>(state: &mut LaneState<T>, at: usize)
    requires at { at < length state.old.rows.items }
    requires more { (row : Shown T) → slice_get state.old.rows.items at ≡ Some row → 0 < row.count }
    requires within { 0 < state.old.references }
    ensures rows { (row : Shown T) → slice_get state.old.rows.items at ≡ Some row
        → state.new.rows.items ≡ slice_set state.old.rows.items at (record row { count = row.count - 1 }) }
    ensures rest { state.new ≡ record state.old { rows = state.new.rows; references = state.old.references - 1 } }
{
    let row = &mut state.rows[at];
    let HeldKey { tally, share } = mem::replace(row, HeldKey::none());
    *row = HeldKey {
        tally: tally.lose(),
        share,
    };
    state.references -= 1;
}
