//! The stores of a lane: the free places of its shard, and their objects.
ghost use Rattle.std.specs.Prelude.{◌≡◌, ◌+◌, ◌<◌, ◌≤◌, ℕ, true, Some, None, IsSome, length, slice_get, All, Contains, MatchOption, []};
ghost use Rattle.keybits.specs.declared.place.Place.{Place as Shown};
ghost use Rattle.keybits.specs.declared.place.TheConstants.{SHARD_NUMBERS};
ghost use Rattle.keybits.specs.declared.shape.TheConstants.{MOST_LANES};
ghost use Rattle.keybits.specs.Places.{shard_of, page_of, number_of};
ghost use Rattle.keybits.specs.Shapes.{IsShape, is_place, index_of, page_size, shard_places};
ghost use Rattle.keybits.specs.Links.{linked_place};
ghost use Rattle.freelists.specs.Shards.{shape_of, place_numbered};
ghost use Rattle.freelists.specs.Queues.{IsAway, GoesOnBy};
ghost use Rattle.poolsteps.specs.Grids.{IsSpot};
ghost use Rattle.poolsteps.specs.Layout.{slot_start, shard_start, spots_at};
ghost use Rattle.shardpool.specs.Stores.{KeepsOwn, TakesOwn, Hangs, FollowsOn};
ghost use Rattle.shardpool.specs.Openings.{OpensNext};

use crate::pool::LaneState;
use keybits::{Place, linked_place, shard_of};
use poolsteps::{Spot, Whole};
use slotcell::Clear;

/// An emptied object of an own place rests with the lane, and the place goes to the end of the lane's list.
#[inline(always)]
pub(crate) fn keep<T: Drop>(state: &mut LaneState<T>, spot: Spot, whole: Whole<T>)
    requires shape { IsShape state.old.shape }
    requires spot { IsSpot state.old.shape spot spot.place }
    requires begins { state.old.objects.first ≡ shard_start state.old.shape (shard_of spot.place) }
    requires narrow { length state.old.objects.items ≡ shard_places state.old.shape }
    requires away { IsAway state.old.free (place_numbered spot.place) }
    requires at { whole.spot ≡ spots_at state.old.objects.directory state.old.shape spot.place }
    ensures { KeepsOwn spot.place whole.object state.old state.new }
{
    state.objects.keep(spot.start as usize, whole);
    state.free.push_number(spot.place);
}

/// An empty object of an own place, which never had one, rests with the lane, and the place goes to the end of the
/// lane's list.
fn list<T: Drop>(state: &mut LaneState<T>, place: u32, object: T)
    requires shape { IsShape state.old.shape }
    requires placed { state.old.places.shape ≡ state.old.shape }
    requires place { is_place state.old.shape place ≡ true }
    requires begins { state.old.objects.first ≡ shard_start state.old.shape (shard_of place) }
    requires narrow { length state.old.objects.items ≡ shard_places state.old.shape }
    requires away { IsAway state.old.free (place_numbered place) }
    requires right { slice_get state.old.objects.rights (index_of state.old.shape place) ≡ Some true }
    ensures { KeepsOwn place object state.old state.new }
{
    let first = state.objects.first() as u32;
    let start = state.places.start_from(first, place);
    state.objects.fill(start as usize, object);
    state.free.push_number(place);
}

/// The first place of the lane's list, where it stands, and its cell. None where the list is empty, which changes
/// nothing.
#[inline]
pub(crate) fn take_own<T: Drop>(state: &mut LaneState<T>) -> Option<(Spot, Whole<T>)>
    requires shape { IsShape state.old.shape }
    requires lane { state.old.free.shard < state.old.shape.lanes }
    requires lists { state.old.free.shape ≡ shape_of state.old.shape.first_page state.old.shape.pages }
    requires placed { state.old.places.shape ≡ state.old.shape }
    requires begins { state.old.objects.first ≡ shard_start state.old.shape state.old.free.shard }
    requires objects { (place : Shown) → Contains state.old.free.own place
        → (object : T) × (slice_get state.old.objects.items (index_of state.old.shape (number_of place)) ≡ Some (Some object)) }
    ensures { MatchOption result ((state.old.free.own ≡ [])
        × (state.new ≡ state.old)) (λ taken. TakesOwn (place_numbered taken.0.place) taken.1.object state.old state.new
        × (taken.0.start ≡ slot_start state.old.shape taken.0.place)
        × (taken.1.spot ≡ spots_at state.old.objects.directory state.old.shape taken.0.place)) }
{
    let place = state.free.pop_number()?;
    let first = state.objects.first() as u32;
    let start = state.places.start_from(first, place);
    match state.objects.take(start as usize) {
        Some(whole) => Some((Spot { place, start }, whole)),
        None => unreachable!(),
    }
}

/// The taken chain goes on by this link word behind its first place.
#[inline]
pub(crate) fn follow_on<T: Drop>(state: &mut LaneState<T>, link: u64)
    requires chain { IsSome state.old.free.chain }
    requires goes { GoesOnBy state.old.free link }
    ensures { FollowsOn link state.old state.new }
{
    state.free.follow(link);
}

/// The place that a word leads to becomes the first of the taken chain.
pub(crate) fn hang<T: Drop>(state: &mut LaneState<T>, found: u64)
    requires shard { state.old.number < MOST_LANES }
    requires word { (1 ≤ found) × (found ≤ SHARD_NUMBERS) }
    requires free { state.old.free.chain ≡ None }
    requires away { IsAway state.old.free (place_numbered (linked_place state.old.number found)) }
    ensures { Hangs found state.old state.new }
{
    let first = linked_place(state.number, found);
    state.free.hang(Place::of_number(first));
}

/// The next page is opened: its places, each with the object given for it, are the lane's list.
pub(crate) fn open_next<T: Clear + Drop>(state: &mut LaneState<T>, objects: Vec<T>)
    requires shape { IsShape state.old.shape }
    requires lane { state.old.number < state.old.shape.lanes }
    requires lists { (state.old.free.shard ≡ state.old.number)
        × (state.old.free.shape ≡ shape_of state.old.shape.first_page state.old.shape.pages) }
    requires paged { state.old.pages.shape ≡ shape_of state.old.shape.first_page state.old.shape.pages }
    requires placed { state.old.places.shape ≡ state.old.shape }
    requires begins { state.old.objects.first ≡ shard_start state.old.shape state.old.number }
    requires narrow { length state.old.objects.items ≡ shard_places state.old.shape }
    requires unopened { state.old.pages.opened < state.old.shape.pages }
    requires own { state.old.free.own ≡ [] }
    requires chain { state.old.free.chain ≡ None }
    requires count { length objects.items ≡ page_size state.old.shape state.old.pages.opened }
    requires empty { All (λ object. T.content object ≡ []) objects.items }
    requires rights { (place : ℕ) → is_place state.old.shape place ≡ true → shard_of place ≡ state.old.number
        → page_of place ≡ state.old.pages.opened
        → slice_get state.old.objects.rights (index_of state.old.shape place) ≡ Some true }
    ensures { OpensNext T.content T.room state.old state.new }
{
    let page = state.pages.opened();
    state.pages.open_next();
    for object in objects {
        let place = Place {
            shard: state.number as u8,
            page: page as u8,
            slot: state.free.len() as u16,
        };
        list(state, place.number(), object);
    }
}
