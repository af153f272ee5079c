//! How a pool is closed.
ghost use Rattle.std.specs.Prelude.{◌≡◌, ◌+◌, ◌-◌, ◌<◌, ◌≤◌, List, [], ◌++◌, length, Option};
ghost use Rattle.atomic_table.specs.declared.shared.Seat.{Seat};
ghost use Rattle.poolsteps.specs.Share.{Share};
ghost use Rattle.poolsteps.specs.declared.view.View.{View};
ghost use Rattle.std.specs.Vec.{vec_capacity};
ghost use Rattle.std.specs.Mem.Slots.{IsFull};
ghost use Rattle.keybits.specs.declared.shape.TheConstants.{MOST_LANES, MOST_GUESTS};
ghost use Rattle.keybits.specs.Shapes.{all_places, callers};
ghost use Rattle.shardpool.specs.Closings.{AreAllLanes, AreLanes, AreGuests, Closes, ClosesWithGuests, places_counted};
ghost use Rattle.shardpool.specs.Partings.{IsParted, AreParted, AreHandsOf, AreUndealtHands};

use crate::census::{Census, take_census};
use crate::guests::Guests;
use crate::pool::{Lane, LaneState, Pool};
use crate::returned_shares::hand_back;
use atomic_table::Closed;
use keybits::{MOST_GUESTS, MOST_LANES};
use poolsteps::{Hand, Slot, close_directory};
use seatcalls::Guest;
use slotcell::Clear;
use std::alloc::Global;

/// A row with room for the hands of all callers of a pool. Each lane has one, for the call that closes the pool. A hand
/// has no bytes, so the row takes none.
#[derive(Drop)]
pub(crate) struct HandRow<T: Clear> {
    hands: Vec<Hand<T>>,
    ghost empty: { (length hands.items ≡ 0) × (MOST_LANES + MOST_GUESTS ≤ vec_capacity hands) },
}

impl<T: Clear> HandRow<T> {
    /// An empty row. None where memory was refused.
    pub(crate) fn new(alloc: Global) -> Option<HandRow<T>> {
        let hands = Vec::with_capacity(alloc, (MOST_LANES + MOST_GUESTS) as usize).ok()?;
        Some(HandRow { hands })
    }
}

/// Closes a pool, with all its lanes, and answers what its places were. It takes no memory.
///
/// Tokens that were left stay counted: the place of a filling as filling, and a key with a reference as present, or as
/// marked where it was cleared. Each object is dropped that the pool has: with a lane, under a key, or with a returned
/// place.
pub fn close<T: Clear + Drop>(pool: Pool<T>, lanes: Vec<Lane<T>>) -> Census
    requires lanes { AreLanes pool lanes.items }
    ensures closes { Closes pool lanes.items result }
    ensures adds { places_counted result ≡ all_places pool.shape }
{
    let undealt = Guests::none(&pool);
    let dealt = Vec::new(pool.alloc);
    close_with_guests(pool, lanes, undealt, dealt)
}

/// Closes a pool, with all its lanes and all its guests: those that were never dealt, and the others, in any order. It
/// answers what the pool's places were, as `close` does, and takes no memory. What guests returned and nobody gathered
/// counts as free.
pub fn close_with_guests<T: Clear + Drop>(
    pool: Pool<T>,
    lanes: Vec<Lane<T>>,
    undealt: Guests<T>,
    dealt: Vec<Guest<T>>,
) -> Census
    requires lanes { AreAllLanes pool lanes.items }
    requires guests { AreGuests pool undealt dealt.items }
    ensures closes { ClosesWithGuests pool lanes.items undealt dealt.items result }
    ensures adds { places_counted result ≡ all_places pool.shape }
{
    let Pool {
        grid,
        directory,
        states,
        mut rights,
        alloc,
    } = pool;
    let shape = grid.shape;
    let objects = grid.objects;
    let (hands, mut states) = take_apart(lanes, states);
    // That so many are left tells that there is room for their hands.
    let _ = undealt.left();
    let hands = with_undealt(with_dealt(hands, dealt), undealt);
    let mut closed = grid.end(hands);
    let mut words = closed.words;
    let mut slots = closed.slots;
    hand_back(&shape, &mut states, &mut slots);
    let census = take_census(objects, &shape, states, &mut words, &mut slots, &mut rights);
    closed.words = words;
    closed.slots = slots;
    free(closed);
    close_directory(alloc, directory, rights);
    census
}

/// These hands, and behind them those of the guests.
fn with_dealt<T: Clear + Drop>(mut hands: Vec<Hand<T>>, guests: Vec<Guest<T>>) -> Vec<Hand<T>>
    requires { length hands.items + length guests.items ≤ vec_capacity hands }
    ensures hands { (more : List (Seat (Option (Share T)) View)) × (result.items ≡ hands.items ++ more) × AreHandsOf guests.items more }
    ensures room { vec_capacity result ≡ vec_capacity hands }
{
    for guest in guests {
        let (hand, _) = guest.into_hand();
        hands.push_reserved(hand);
    }
    hands
}

/// These hands, and behind them that of the guests that were never dealt, if there are any.
fn with_undealt<T: Clear + Drop>(mut hands: Vec<Hand<T>>, guests: Guests<T>) -> Vec<Hand<T>>
    requires { length hands.items + (callers guests.shape - guests.next) ≤ vec_capacity hands }
    ensures { (more : List (Seat (Option (Share T)) View)) × (result.items ≡ hands.items ++ more) × AreUndealtHands guests more }
{
    let Guests { hand, .. } = guests;
    if let Some(hand) = hand {
        hands.push_reserved(hand);
    }
    hands
}

/// The hands of these lanes, and their states in a row with room for all.
fn take_apart<T: Clear + Drop>(
    mut lanes: Vec<Lane<T>>,
    mut states: Vec<LaneState<T>>,
) -> (Vec<Hand<T>>, Vec<LaneState<T>>)
    requires lanes { (0 < length lanes.items) × (length lanes.items ≤ MOST_LANES) }
    requires states { (states.items ≡ []) × (length lanes.items ≤ vec_capacity states) }
    ensures parted { AreParted T.content T.room lanes.items result.0.items result.1.items }
    ensures room { MOST_LANES + MOST_GUESTS ≤ vec_capacity result.0 }
{
    let Some(last) = lanes.pop() else {
        unreachable!()
    };
    let (hand, state, HandRow { mut hands }) = taken_apart(last);
    for lane in lanes {
        let (hand, state, _) = taken_apart(lane);
        hands.push_reserved(hand);
        states.push_reserved(state);
    }
    hands.push_reserved(hand);
    states.push_reserved(state);
    (hands, states)
}

/// The hand of a lane, its state and its row.
fn taken_apart<T: Clear>(lane: Lane<T>) -> (Hand<T>, LaneState<T>, HandRow<T>)
    ensures { IsParted T.content T.room lane result.0 result.1 }
{
    let Lane {
        hand,
        state,
        row,
        ..
    } = lane;
    // A look at the list tells that its places are the lane's.
    let _ = state.free.len();
    (hand, state, row)
}

/// Drops each slot of a table, and frees its memory.
fn free<T: Drop>(mut closed: Closed<Slot<T>, Global>)
    requires { IsFull closed.slots }
{
    for index in 0..closed.slot_count() {
        drop(closed.take(index));
    }
    closed.free();
}
