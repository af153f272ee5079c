//! The clear of a key.
ghost use Rattle.std.specs.Prelude.{[], ◌≡◌, ◌==◌, ◌+◌, ℕ, IsNone, IfSome, true, ◌<◌};
ghost use Rattle.keybits.specs.Keys.{place_of, is_key};
ghost use Rattle.keybits.specs.Words.{state_in};
ghost use Rattle.steplaws.specs.declared.pending.Pending.TheVariants.{Undo};
ghost use Rattle.poolsteps.specs.Layout.{spots_at};
ghost use Rattle.poolsteps.specs.Views.{the_lane, IsOne};
ghost use Rattle.poolsteps.specs.Grids.{IsSpot, IsOf, SameSeat};
ghost use Rattle.poolsteps.specs.AtOnce.{unreferred};
ghost use Rattle.seatcalls.specs.AtPlace.{MayCall};
ghost use Rattle.seatcalls.specs.Bounds.{most_call_looks};
ghost use Rattle.seatcalls.specs.Called.{MarksAtLast};
ghost use Rattle.shardpool.specs.Clears.{Clears, LooksTwice};
ghost use Rattle.shardpool.specs.Finishes.{MayClearAndKeep, ClearsAndKeeps};
ghost use Rattle.shardpool.specs.Lanes.{Owns};
ghost use Rattle.shardpool.specs.AfterCalls.{AfterClear};
ghost use Rattle.shardpool.specs.Handed.{HandsOut};

use crate::pool::{Lane, LaneState, Pool};
use crate::reclaim::{finish_leave, keep_reclaimed, reclaim_place};
use keybits::{Life, ONE_COUNT, State, generation_of, is_hit, is_present, owes_claim, place_of};
use poolsteps::{Grid, Hand, Purpose, Spot};
use seatcalls::{At, Emptier, InPlace, Reclaimed};
use slotcell::Clear;

impl<T: Clear + Drop> Pool<T> {
    /// Clears the object of a key: true where it is this call that marked the key, which a get then finds no more. The
    /// last that refers to the object clears it in place. False for a key that is marked or not published, and for a
    /// number that is no key of the pool, without a step.
    pub fn clear(&self, lane: &mut Lane<T>, key: u64) -> bool
        requires owns { Owns self.now lane.old }
        ensures { AfterClear T self.now key lane.old lane.new result }
    {
        let mut in_place = InPlace;
        self.clear_with(lane, key, &mut in_place)
    }

    /// As `clear`. The object of a place that it reclaims is handed to the emptier.
    #[inline(always)]
    pub fn clear_with<E: Emptier<T>>(&self, lane: &mut Lane<T>, key: u64, emptier: &mut E) -> bool
        requires owns { Owns self.now lane.old }
        ensures cleared { AfterClear T self.now key lane.old lane.new result }
        ensures hands { HandsOut E.takes lane.old.book lane.new.book emptier.old emptier.new }
    {
        let Some(spot) = self.find(key) else {
            lane.seen_law();
            return false;
        };
        clear_and_keep(
            &self.grid,
            &mut lane.hand,
            &mut lane.state,
            spot.start,
            key,
            emptier,
        )
    }
}

/// A clear of a key whose place stands here, and what the lane keeps of it. Answers whether it is the one that marked
/// the key.
#[inline(always)]
pub(crate) fn clear_and_keep<T: Clear + Drop, E: Emptier<T>>(
    grid: &Grid<T>,
    hand: &mut Hand<T>,
    state: &mut LaneState<T>,
    start: u32,
    key: u64,
    emptier: &mut E,
) -> bool
    requires call { MayClearAndKeep T.content T.room grid.now hand.old state.old start key }
    ensures hand { SameSeat hand.old hand.new }
    ensures clears { ClearsAndKeeps T.content T.room grid.now.shape key grid.now.objects.ptr (most_call_looks + 2) hand.old.me hand.new.me
        state.old state.new result }
    ensures hands { HandsOut E.takes hand.old.me.0 hand.new.me.0 emptier.old emptier.new }
{
    let spot = Spot {
        place: place_of(key),
        start,
    };
    let Some((marked, reclaimed)) = try_clear(grid, hand, state.at_spot(spot), key, emptier) else {
        return clear_by_steps_and_keep(grid, hand, state, start, key, emptier);
    };
    keep_reclaimed(state, spot, reclaimed);
    marked
}

/// The same where another lane stepped on the key's word meanwhile: step by step. Away from the call's own path, for
/// few clears come here.
#[cold]
#[inline(never)]
fn clear_by_steps_and_keep<T: Clear + Drop, E: Emptier<T>>(
    grid: &Grid<T>,
    hand: &mut Hand<T>,
    state: &mut LaneState<T>,
    start: u32,
    key: u64,
    emptier: &mut E,
) -> bool
    requires call { MayClearAndKeep T.content T.room grid.now hand.old state.old start key }
    ensures hand { SameSeat hand.old hand.new }
    ensures clears { ClearsAndKeeps T.content T.room grid.now.shape key grid.now.objects.ptr most_call_looks hand.old.me hand.new.me
        state.old state.new result }
    ensures hands { HandsOut E.takes hand.old.me.0 hand.new.me.0 emptier.old emptier.new }
{
    let spot = Spot {
        place: place_of(key),
        start,
    };
    let (marked, reclaimed) = clear_by_steps(grid, hand, state.at_spot(spot), key, emptier);
    keep_reclaimed(state, spot, reclaimed);
    marked
}

/// A clear of a key whose steps are one operation. Answers whether it is the one that marked the key, and what became
/// of its place where that was reclaimed. None where another lane stepped on the key's word meanwhile: then it looked,
/// and did nothing. It takes no memory.
#[inline(always)]
pub(crate) fn try_clear<T: Clear + Drop, E: Emptier<T>>(
    grid: &Grid<T>,
    hand: &mut Hand<T>,
    at: At,
    key: u64,
    emptier: &mut E,
) -> Option<(bool, Option<Reclaimed<T>>)>
    requires call { MayCall grid.now hand.old key at }
    requires key { is_key grid.now.shape key ≡ true }
    ensures hand { SameSeat hand.old hand.new }
    ensures clears { IfSome result
        (λ answer. Clears T.content T.room grid.now.shape (spots_at grid.now.objects.ptr grid.now.shape (place_of key)) key at.entry.lane
        (most_call_looks + 1)
        hand.old.me hand.new.me answer.0 answer.1) }
    ensures looks { IsNone result → LooksTwice grid.now.shape hand.old.me hand.new.me }
    ensures hands { IfSome result (λ _. HandsOut E.takes hand.old.me.0 hand.new.me.0 emptier.old emptier.new) }
    ensures kept { IsNone result → emptier.new ≡ emptier.old }
{
    let generation = generation_of(key);
    let found = grid.sweep(hand, at.spot, key);
    if found == unreferred(generation) {
        let reclaimed = reclaim_place(grid, hand, at, generation, emptier);
        return Some((true, Some(reclaimed)));
    }
    if is_hit(key, found) {
        if grid.strike(hand, at.spot, key, found) == found {
            return Some((true, None));
        }
        return None;
    }
    if owes_claim(found.wrapping_add(ONE_COUNT)) {
        return None;
    }
    Some((false, None))
}

/// A clear of a key, each of whose steps is an operation. Answers whether it is the one that marked the key, and what
/// became of its place where that was reclaimed. It takes no memory.
#[inline(always)]
pub(crate) fn clear_by_steps<T: Clear + Drop, E: Emptier<T>>(
    grid: &Grid<T>,
    hand: &mut Hand<T>,
    at: At,
    key: u64,
    emptier: &mut E,
) -> (bool, Option<Reclaimed<T>>)
    requires call { MayCall grid.now hand.old key at }
    requires key { is_key grid.now.shape key ≡ true }
    ensures hand { SameSeat hand.old hand.new }
    ensures clears { Clears T.content T.room grid.now.shape (spots_at grid.now.objects.ptr grid.now.shape (place_of key)) key
        at.entry.lane most_call_looks
        hand.old.me hand.new.me result.0 result.1 }
    ensures hands { HandsOut E.takes hand.old.me.0 hand.new.me.0 emptier.old emptier.new }
{
    let found = grid.enter(hand, at.spot, key, Purpose::ToClear);
    let marked = is_hit(key, found) && mark(grid, hand, at.spot, key, found);
    let left = grid.leave(hand, at.spot, key);
    (marked, finish_leave(grid, hand, at, left, emptier))
}

/// The word of a place whose key of this generation is published and unmarked, and to which nobody refers.
#[inline]
fn unreferred(generation: u32) -> u64
    ensures { result ≡ unreferred generation }
{
    let life = Life {
        generation,
        count: 0,
        state: State::Present,
    };
    life.word()
}

/// MARK, after the ENTER of a clear that hit and found this word. Where nobody stepped on the word since, it is one
/// compare-exchange; else that was a look. Answers whether it is this clear that marked the key.
#[inline(always)]
fn mark<T: Clear>(grid: &Grid<T>, hand: &mut Hand<T>, spot: Spot, key: u64, entered: u64) -> bool
    requires present { state_in entered ≡ 1 }
    requires hand { IsOf grid.now hand.old × IsOne hand.old.me.0 }
    requires spot { IsSpot grid.now.shape spot (place_of key) }
    requires under { (the_lane hand.old.me.0).under ≡ Undo key true }
    ensures hand { SameSeat hand.old hand.new }
    ensures marks { (word : ℕ) × MarksAtLast grid.now.shape key hand.old.me word hand.new.me × (result ≡ (state_in word == 1)) }
{
    let expected = entered.wrapping_add(ONE_COUNT);
    let found = grid.mark_from(hand, spot, key, expected);
    if found == expected {
        return true;
    }
    is_present(grid.mark(hand, spot, key))
}
