//! The get of a key.
ghost use Rattle.std.specs.Prelude.{◌≡◌, ◌⊎◌, ℕ, ◌<◌, option_map, IfSome, ◌+◌, ◌-◌, ◌≤◌, Some, None, slice_get, slice_set, length, []};
ghost use Rattle.keybits.specs.Keys.{place_of, generation_of};
ghost use Rattle.poolsteps.specs.Layout.{slot_start, spots_at};
ghost use Rattle.poolsteps.specs.declared.view.Status.TheVariants.{Untouched, Emptied};
ghost use Rattle.poolsteps.specs.Told.{MayTouch};
ghost use Rattle.shardpool.specs.Lendings.{Gains};
ghost use Rattle.steplaws.specs.Facts.{most_references};
ghost use Rattle.shardpool.specs.Lanes.{Owns, holds, refs};
ghost use Rattle.shardpool.specs.AfterCalls.{AfterGet};
ghost use Rattle.shardpool.specs.HeldKeys.{HeldKey as Shown};
ghost use Rattle.poolsteps.specs.Views.{the_lane, status_of, IsOne};
ghost use Rattle.poolsteps.specs.Grids.{IsSpot, IsOf, SameSeat};
ghost use Rattle.shardpool.specs.Finishes.{MayMiss, Misses};
ghost use Rattle.shardpool.specs.Handed.{HandsOut};
ghost use Rattle.seqpool.specs.Histories.{PublishedAt};

use crate::pool::{HeldKey, Lane, LaneState, Places, Pool};
use crate::reclaim::finish_if_owed;
use keybits::{generation_of, is_hit, place_of};
use poolsteps::{Grid, Hand, Purpose, Share, Slot, Spot, Tally, shares_law};
use seatcalls::{Emptier, InPlace};
use slotcell::Clear;
use std::marker::{Model, PhantomData};
use std::mem;

/// A reference to a published object. It must be spent, by a release or `forget`.
pub struct Ref<T> {
    pub(crate) key: u64,
    /// Where the key's place stands in the pool that answered the reference.
    pub(crate) start: u32,
    /// In which pools it stands there.
    pub(crate) code: u32,
    pub(crate) of: PhantomData<T>,
}

impl<T> Model for Ref<T> {
    ghost use Rattle.shardpool.specs.Rows.{StandsIn};
    ghost use Rattle.shardpool.specs.Tokens.{RefOf};

    ghost Value = { RefOf };

    ghost view = { λ r. record { key = r.key } };

    ghost invariant = { λ r. StandsIn r.code r.key r.start };
}

impl<T> Ref<T> {
    ghost use Rattle.std.specs.Prelude.{◌≡◌};
    ghost use Rattle.keybits.specs.Keys.{place_of};
    ghost use Rattle.poolsteps.specs.Layout.{slot_start};

    /// A reference to this key, whose place stands here among these.
    #[inline]
    pub(crate) fn to(key: u64, start: u32, places: &Places) -> Ref<T>
        requires { start ≡ slot_start places.now.shape (place_of key) }
        ensures { result.key ≡ key }
    {
        Ref {
            key,
            start,
            code: places.code,
            of: PhantomData,
        }
    }

    /// The key of the object.
    pub fn key(&self) -> u64
        ensures { result ≡ self.now.key }
    {
        self.key
    }

    /// The token's key.
    pub(crate) fn spend(self) -> u64
        ensures { result ≡ self.key }
    {
        let Ref {
            key,
            start: _,
            code: _,
            of: _,
        } = self;
        key
    }

    /// The token ends, and the pool isn't told: the reference stays held by its lane until the pool is closed.
    pub fn forget(self) {
        self.spend();
    }
}

impl<T: Clear + Drop> Pool<T> {
    /// A reference to the object of a key, where it is published and not cleared. None otherwise, and for a number that
    /// is no key of the pool, without a step.
    #[inline(always)]
    pub fn get(&self, lane: &mut Lane<T>, key: u64) -> Option<Ref<T>>
        requires owns { Owns self.now lane.old }
        requires room { refs lane.old < most_references }
        ensures { AfterGet T self.now key lane.old lane.new result }
    {
        let start = self.get_at(lane, key)?;
        Some(Ref::to(key, start, &lane.state.places))
    }

    /// As `get`. The object of a place that a miss reclaims is handed to the emptier.
    #[inline(always)]
    pub fn get_with<E: Emptier<T>>(
        &self,
        lane: &mut Lane<T>,
        key: u64,
        emptier: &mut E,
    ) -> Option<Ref<T>>
        requires owns { Owns self.now lane.old }
        requires room { refs lane.old < most_references }
        ensures got { AfterGet T self.now key lane.old lane.new result }
        ensures hands { HandsOut E.takes lane.old.book lane.new.book emptier.old emptier.new }
    {
        let start = self.get_at_with(lane, key, emptier)?;
        Some(Ref::to(key, start, &lane.state.places))
    }

    /// A get whose reference stays with the lane, for who keeps keys in place of references: answers where
    /// `Lane::read_at` finds the object without looking for the key's place again.
    #[inline]
    pub fn get_at(&self, lane: &mut Lane<T>, key: u64) -> Option<u32>
        requires owns { Owns self.now lane.old }
        requires room { refs lane.old < most_references }
        ensures got { AfterGet T self.now key lane.old lane.new (option_map (λ at. record { key = key }) result) }
        ensures stands { IfSome result (λ at. at ≡ slot_start self.now.shape (place_of key)) }
    {
        let mut in_place = InPlace;
        self.get_at_with(lane, key, &mut in_place)
    }

    /// As `get_at`, with an emptier.
    #[inline(always)]
    fn get_at_with<E: Emptier<T>>(
        &self,
        lane: &mut Lane<T>,
        key: u64,
        emptier: &mut E,
    ) -> Option<u32>
        requires owns { Owns self.now lane.old }
        requires room { refs lane.old < most_references }
        ensures got { AfterGet T self.now key lane.old lane.new (option_map (λ at. record { key = key }) result) }
        ensures stands { IfSome result (λ at. at ≡ slot_start self.now.shape (place_of key)) }
        ensures hands { HandsOut E.takes lane.old.book lane.new.book emptier.old emptier.new }
    {
        shares_law();
        let number = lane.state.number;
        let spot = self.find(key)?;
        let found = self.grid.enter(&mut lane.hand, spot, key, Purpose::ToGet);
        if !is_hit(key, found) {
            end_miss(
                &self.grid,
                &mut lane.hand,
                &mut lane.state,
                spot,
                key,
                emptier,
            );
            return None;
        }
        gain_reference(&self.grid, &mut lane.hand, &mut lane.state, spot, key);
        Some(spot.start)
    }
}

/// One reference more to a key whose ENTER hit: the lane's share is under it, which comes out of its slot where this is
/// the first.
#[inline]
pub(crate) fn gain_reference<T: Clear + Drop>(
    grid: &Grid<T>,
    hand: &mut Hand<T>,
    state: &mut LaneState<T>,
    spot: Spot,
    key: u64,
)
    requires hand { IsOf grid.now hand.old × IsOne hand.old.me.0 }
    requires spot { IsSpot grid.now.shape spot spot.place }
    requires number { state.old.number < grid.now.shape.lanes }
    requires at { spot.start < length state.old.rows.items }
    requires room { state.old.references < most_references }
    requires may { MayTouch grid.now.shape hand.old.me.0 spot.place state.old.number }
    requires left { (status_of (the_lane hand.old.me.0) spot.place state.old.number ≡ Untouched)
        ⊎ (status_of (the_lane hand.old.me.0) spot.place state.old.number ≡ Emptied) }
    ensures hand { SameSeat hand.old hand.new }
    ensures gains { (row : Shown T) → slice_get state.old.rows.items spot.start ≡ Some row
        → Gains T.content T.room (spots_at grid.now.objects.ptr grid.now.shape) grid.now.shape spot key row hand.old.me hand.new.me
        state.old state.new }
    ensures rest { state.new ≡ record state.old { rows = state.new.rows; references = state.old.references + 1 } }
{
    let number = state.number;
    let row = &mut state.rows[spot.start as usize];
    let HeldKey { tally, share } = mem::replace(row, HeldKey::none());
    let share = grid.fetch(hand, spot, number, number, share);
    *row = HeldKey {
        tally: tally.gain(generation_of(key)),
        share,
    };
    state.references += 1;
}

/// The row has the first reference to a key, with the share under it.
#[inline]
pub(crate) fn add_first_reference<T: Drop>(
    state: &mut LaneState<T>,
    at: usize,
    key: u64,
    share: Share<T>,
)
    requires at { at < length state.old.rows.items }
    requires room { state.old.references < most_references }
    ensures rows { state.new.rows.items
        ≡ slice_set state.old.rows.items at (record { generation = generation_of key; count = 1; share = Some share }) }
    ensures rest { state.new ≡ record state.old { rows = state.new.rows; references = state.old.references + 1 } }
{
    state.rows[at] = HeldKey {
        tally: Tally::none().gain(generation_of(key)),
        share: Slot::filled(share),
    };
    state.references += 1;
}

/// The end of a call whose ENTER missed: its LEAVE, and what follows that. Apart from the call's own path, so that the
/// hit is likely there.
#[cold]
#[inline(never)]
pub(crate) fn end_miss<T: Clear + Drop, E: Emptier<T>>(
    grid: &Grid<T>,
    hand: &mut Hand<T>,
    state: &mut LaneState<T>,
    spot: Spot,
    key: u64,
    emptier: &mut E,
)
    requires hand { IsOf grid.now hand.old × IsOne hand.old.me.0 }
    requires bare { hand.old.me.1 ≡ [] }
    requires spot { IsSpot grid.now.shape spot (place_of key) }
    requires may { MayMiss T.content T.room grid.now.shape key grid.now.objects.ptr hand.old.me state.old }
    ensures hand { SameSeat hand.old hand.new }
    ensures misses { Misses T.content T.room grid.now.shape key hand.old.me hand.new.me state.old state.new }
    ensures hands { HandsOut E.takes hand.old.me.0 hand.new.me.0 emptier.old emptier.new }
{
    let left = grid.leave(hand, spot, key);
    finish_if_owed(grid, hand, state, spot, key, left, emptier);
}

impl<T: Clear> Lane<T> {
    /// The object of a key to which the lane has a reference: its content is that with which the key was published.
    pub fn read<'a>(&'a self, reference: &Ref<T>) -> &'a T
        requires { 1 ≤ holds self.now reference.now.key }
        ensures { (j : ℕ) × PublishedAt self.now.book.seen j reference.now.key (T.content result.now) }
    {
        self.read_at(self.state.start_of(reference), reference.key)
    }

    /// As `read`, of a key to which the lane has a reference, and whose place stands here, as `Pool::get_at` answers.
    pub fn read_at(&self, start: u32, key: u64) -> &T
        requires held { 1 ≤ holds self.now key }
        requires start { start ≡ slot_start self.now.shape (place_of key) }
        ensures { (j : ℕ) × PublishedAt self.now.book.seen j key (T.content result.now) }
    {
        self.state.rows[start as usize]
            .share
            .read(self.state.objects.base(), start as usize)
    }
}

impl<T> LaneState<T> {
    ghost use Rattle.std.specs.Prelude.{◌≡◌, true};
    ghost use Rattle.keybits.specs.Keys.{place_of, is_key};
    ghost use Rattle.poolsteps.specs.Layout.{slot_start};

    /// Where the place of a reference's key stands, which is one of the pool: as the reference tells, unless it comes
    /// from a pool whose places stand elsewhere.
    #[inline]
    pub(crate) fn start_of(&self, reference: &Ref<T>) -> u32
        requires { is_key self.now.places.shape reference.now.key ≡ true }
        ensures { result ≡ slot_start self.now.places.shape (place_of reference.now.key) }
    {
        if reference.code == self.places.code {
            reference.start
        } else {
            self.searched(reference.key)
        }
    }

    /// Where the place of a key of the pool stands, by its page.
    #[cold]
    #[inline(never)]
    fn searched(&self, key: u64) -> u32
        requires { is_key self.now.places.shape key ≡ true }
        ensures { result ≡ slot_start self.now.places.shape (place_of key) }
    {
        self.places.start(place_of(key))
    }
}
