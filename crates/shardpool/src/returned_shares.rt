//! How the shares under references go back into their slots when a pool is closed.
ghost use Rattle.std.specs.Prelude.{◌≡◌, ◌+◌, ◌*◌, ◌<◌, List, Option, Some, None, length, slice_get, slice_set};
ghost use Rattle.core.specs.declared.slots.Slots.{Slots as SlotsOf};
ghost use Rattle.core.specs.Mem.Slots.{slots_len, IsFull};
ghost use Rattle.keybits.specs.Shapes.{IsShape, shard_places};
ghost use Rattle.poolsteps.specs.Share.{Share};
ghost use Rattle.poolsteps.specs.Layout.{slot_row};
ghost use Rattle.poolsteps.specs.Joins.{IsSlotRow};
ghost use Rattle.shardpool.specs.HeldKeys.{HeldKey as Row};
ghost use Rattle.shardpool.specs.declared.pool.LaneState.{LaneState as Shown};
ghost use Rattle.shardpool.specs.Remains.{GivesRow, GivesTo, GivesBack, MayHandBack, IsStripped, HandsBack, AreStripped};

use crate::pool::{HeldKey, LaneState};
use core::slots::Slots;
use keybits::Shape;
use poolsteps::{Slot, shard_start, slot_row};
use std::mem;

/// The shares under all references go back into their slots. The rows of the lanes then are gone.
pub(crate) fn hand_back<T: Drop>(
    shape: &Shape,
    states: &mut Vec<LaneState<T>>,
    slots: &mut Slots<Slot<T>>,
)
    requires shape { IsShape shape.now }
    requires states { MayHandBack shape.now states.old.items }
    requires row { IsSlotRow shape.now slots.old }
    ensures states { AreStripped states.old.items states.new.items }
    ensures slots { HandsBack shape.now states.old.items slots.old slots.new }
{
    for index in 0..states.len() {
        let (number, rows) = take_rows(states, index);
        give_back(shape, number, rows, slots);
    }
}

/// The number of a lane, and its rows, which are taken out of its state.
fn take_rows<T: Drop>(states: &mut Vec<LaneState<T>>, index: usize) -> (u32, Vec<HeldKey<T>>)
    requires { index < length states.old.items }
    ensures taken { (state : Shown T) → slice_get states.old.items index ≡ Some state → (result.0 ≡ state.number)
        × (result.1.items ≡ state.rows.items) }
    ensures left { (state : Shown T) → slice_get states.old.items index ≡ Some state
        → (left : Shown T) × IsStripped state left × (states.new.items ≡ slice_set states.old.items index left) }
{
    let state = &mut states[index];
    let none = Vec::new(state.alloc);
    (state.number, mem::replace(&mut state.rows, none))
}

/// The shares under a lane's references go back into the lane's slots.
fn give_back<T: Drop>(
    shape: &Shape,
    number: u32,
    mut rows: Vec<HeldKey<T>>,
    slots: &mut Slots<Slot<T>>,
)
    requires shape { IsShape shape.now }
    requires number { number < shape.now.lanes }
    requires wide { length rows.items ≡ slot_row shape.now }
    requires row { IsSlotRow shape.now slots.old }
    ensures { GivesBack shape.now number rows.items slots.old slots.new }
{
    for shard in 0..shape.lanes {
        give_shard(shape, number, shard, &mut rows, slots);
    }
}

/// The shares under a lane's references to the places of a shard go back into the lane's slots.
fn give_shard<T: Drop>(
    shape: &Shape,
    number: u32,
    shard: u32,
    rows: &mut Vec<HeldKey<T>>,
    slots: &mut Slots<Slot<T>>,
)
    requires shape { IsShape shape.now }
    requires lanes { (number < shape.now.lanes) × (shard < shape.now.lanes) }
    requires wide { length rows.old.items ≡ slot_row shape.now }
    requires row { IsSlotRow shape.now slots.old }
    ensures wide { length rows.new.items ≡ slot_row shape.now }
    ensures row { IsSlotRow shape.now slots.new }
    ensures gives { (all : List (Row T)) (first : SlotsOf (Option (Share T)))
        → GivesTo shape.now number all (shard * shard_places shape.now) rows.old.items first slots.old
        → GivesTo shape.now number all ((shard + 1) * shard_places shape.now) rows.new.items first slots.new }
{
    let places = shape.shard_places() as usize;
    let start = shard_start(shape, shard);
    let wide = slot_row(shape);
    for index in 0..places {
        // (Which place it is, is asked for the proof alone: a division for each would take longer than all else.)
        let _ = shape.place_at(shard as usize * places + index);
        let row = take_row(rows, start + index);
        give_row(number as usize * wide + (start + index), row, slots);
    }
}

/// The row at this index, in whose stead there is then one without a reference.
fn take_row<T: Drop>(rows: &mut Vec<HeldKey<T>>, index: usize) -> HeldKey<T>
    requires { index < length rows.old.items }
    ensures taken { (row : Row T) → slice_get rows.old.items index ≡ Some row → result ≡ row }
    ensures left { rows.new.items ≡ slice_set rows.old.items index (record { generation = 0; count = 0; share = None }) }
{
    mem::replace(&mut rows[index], HeldKey::none())
}

/// The share of a row that counts a reference goes into the slot at this index.
fn give_row<T: Drop>(index: usize, row: HeldKey<T>, slots: &mut Slots<Slot<T>>)
    requires full { IsFull slots.old }
    requires index { index < slots_len slots.old }
    ensures { GivesRow index row slots.old slots.new }
{
    let HeldKey { tally, share } = row;
    let left = slots.take(index);
    slots.put(index, share.under(&tally).or(left));
}
