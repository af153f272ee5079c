//! A pool's lanes, into their slots.
ghost use Rattle.std.specs.Prelude.{◌≡◌, length, IsTrue, IsFalse};
ghost use Rattle.poolffi.specs.Exports.{Opens, AnyHasLane, NoneHasLane, AreLowered};

use crate::slots::{FULL_LANE, LANES, MEMORY, OK, SHAPE, lower};
use keybits::Shape;
use poolhandle::handle::Handle;
use poolhandle::open_handles;
use poolhandle::slot::Slot;
use shardpool::OpenFault;
use std::alloc::Global;

/// Whether any of these slots has a lane. They stay as they are.
fn any_has_lane(slots: &mut [Slot]) -> bool
    ensures same { slots.new ≡ slots.old }
    ensures yes { IsTrue result → AnyHasLane slots.old }
    ensures no { IsFalse result → NoneHasLane slots.old }
{
    for index in 0..slots.len() {
        if slots[index].is_full() {
            return true;
        }
    }
    false
}

/// Puts handles into as many slots.
fn lower_all(slots: &mut [Slot], handles: Vec<Box<Handle>>)
    requires { length handles.items ≡ length slots.old }
    ensures count { length slots.new ≡ length slots.old }
    ensures lowered { AreLowered handles.items slots.new }
{
    let mut index = 0;
    for handle in handles {
        lower(&mut slots[index], handle);
        index += 1;
    }
}

/// Opens a pool into empty slots.
pub(crate) fn open_slots(alloc: Global, shape: Shape, number: u64, slots: &mut [Slot]) -> u32
    requires { shape.guests ≡ 0 }
    ensures { Opens shape number slots.old slots.new result }
{
    if slots.len() != shape.lanes as usize {
        return LANES;
    }
    if any_has_lane(slots) {
        return FULL_LANE;
    }
    match open_handles(alloc, shape, number) {
        Ok(handles) => {
            lower_all(slots, handles);
            OK
        }
        Err(OpenFault::Memory) => MEMORY,
        Err(OpenFault::Shape(_)) => SHAPE,
    }
}
