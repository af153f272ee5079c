//! How the cell of a place is taken out of its slots at a close.
ghost use Rattle.std.specs.Prelude.{◌≡◌, ◌<◌, ◌⊎◌, true, Some, None, IsSome, IfSome, slice_get};
ghost use Rattle.core.specs.Mem.Slots.{slots_items, IsFull};
ghost use Rattle.keybits.specs.Shapes.{IsShape, is_place, position_of};
ghost use Rattle.keybits.specs.Words.{state_in};
ghost use Rattle.poolsteps.specs.Layout.{spots_at};
ghost use Rattle.poolsteps.specs.Joins.{IsSlotRow, HasAt, IsSet, IsSpread, IsResting, HasCell, IsUnspread, IsUnrested, HasNoCell, Drains};

use crate::cells::{Base, Rest, Share, Slot, Whole};
use crate::layout::slot_at;
use core::slots::Slots;
use keybits::{Life, Shape, State, shard_of};

/// The share in the slot at this index, which is then empty.
fn lift<T: Drop>(index: usize, slots: &mut Slots<Slot<T>>) -> Share<T>
    requires full { IsFull slots.old }
    requires share { HasAt (slots_items slots.old) index }
    ensures share { slice_get (slots_items slots.old) index ≡ Some (Some result) }
    ensures slots { IsSet index None slots.old slots.new }
{
    let slot = slots.take(index);
    slots.put(index, Slot::empty());
    slot.into_share()
}

/// Takes out the cell that the slots of a place have, by the place's lifecycle word: where that is 0 or
/// retired the one that rests there, and where the place is published the one whose shares are all there. Of other places
/// the slots have none.
pub fn out_cell<T: Drop>(
    directory: Base<T>,
    shape: &Shape,
    place: u32,
    position: usize,
    word: u64,
    slots: &mut Slots<Slot<T>>,
) -> Option<Whole<T>>
    requires shape { IsShape shape.now }
    requires place { is_place shape.now place ≡ true }
    requires position { position ≡ position_of shape.now place }
    requires row { IsSlotRow shape.now slots.old }
    requires cell { HasCell (spots_at directory.ptr shape.now) shape.now (slots_items slots.old) place word }
    ensures whole { IfSome result (λ whole. whole.spot ≡ spots_at directory.ptr shape.now place) }
    ensures some { (word ≡ 0) ⊎ ((state_in word ≡ 1) ⊎ ((state_in word ≡ 2) ⊎ (state_in word ≡ 3))) → IsSome result }
    ensures drains { Drains shape.now place slots.old slots.new }
    ensures gone { HasNoCell shape.now (slots_items slots.new) place word }
{
    if word == 0 {
        return Some(out_resting(directory, shape, place, position, slots));
    }
    match Life::of_word(word).state {
        State::Present | State::Marked => {
            Some(out_spread(directory, shape, place, position, slots))
        }
        State::Retired => Some(out_resting(directory, shape, place, position, slots)),
        State::Idle => None,
    }
}

/// Takes out the cell of a place whose shares all lie in its slots, which then are empty.
fn out_spread<T: Drop>(
    directory: Base<T>,
    shape: &Shape,
    place: u32,
    position: usize,
    slots: &mut Slots<Slot<T>>,
) -> Whole<T>
    requires shape { IsShape shape.now }
    requires place { is_place shape.now place ≡ true }
    requires position { position ≡ position_of shape.now place }
    requires row { IsSlotRow shape.now slots.old }
    requires spread { IsSpread (spots_at directory.ptr shape.now) shape.now (slots_items slots.old) place }
    ensures whole { result.spot ≡ spots_at directory.ptr shape.now place }
    ensures drains { Drains shape.now place slots.old slots.new }
    ensures gone { IsUnspread shape.now (slots_items slots.new) place }
{
    let _ = directory;
    let last = shape.lanes + shape.guests - 1;
    let mut rest = Rest::of_last(lift(slot_at(shape, place, position, last), slots));
    let mut number = last;
    while number > 0 {
        number -= 1;
        rest.merge(lift(slot_at(shape, place, position, number), slots));
    }
    rest.into_whole()
}

/// Takes out the cell of a place whose only share lies in the slot of its shard, which then is empty.
fn out_resting<T: Drop>(
    directory: Base<T>,
    shape: &Shape,
    place: u32,
    position: usize,
    slots: &mut Slots<Slot<T>>,
) -> Whole<T>
    requires shape { IsShape shape.now }
    requires place { is_place shape.now place ≡ true }
    requires position { position ≡ position_of shape.now place }
    requires row { IsSlotRow shape.now slots.old }
    requires resting { IsResting (spots_at directory.ptr shape.now) shape.now (slots_items slots.old) place }
    ensures whole { result.spot ≡ spots_at directory.ptr shape.now place }
    ensures drains { Drains shape.now place slots.old slots.new }
    ensures gone { IsUnrested shape.now (slots_items slots.new) place }
{
    let _ = directory;
    let slot = slot_at(shape, place, position, shard_of(place));
    let rest = Rest::of_last(lift(slot, slots));
    rest.into_whole()
}
