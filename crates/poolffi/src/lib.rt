//! A pool of byte buffers for C and for Rust: one export for each call.
//!
//! Each lane stands in a slot of two words that the program keeps. A filling and a reference are named by their key.
#![tactic(auto)]

ghost use Rattle.std.specs.Prelude.{◌≡◌};
ghost use Rattle.poolhandle.specs.Calls.{Appends, Rooms, Wrote, Publishes, Downgrades, Leaves, Releases, Clears};
ghost use Rattle.poolffi.specs.Exports.{Calls, WritesAtOk, CreatesKey, PutsKey, Lends, Reads, TellsNumbers, JoinsSlots, ClosesSlot, AreCounts, Opens, shape_of};

mod attach;
mod caller;
mod closing;
mod found;
mod lanes;
mod opening;
mod pool_slot;
mod refusal;
mod slots;
mod visits;

use crate::lanes::open_slots;
use crate::slots::{EMPTY_LANE, OK, code, code_of, lift, lower, tell, write_over};
use keybits::Shape;
use poolhandle::slot::Slot;
use poolhandle::{close, join};
use shardpool::Census;
use std::alloc::Global;

/// What a pool is opened with.
#[repr(C)]
#[derive(Drop)]
pub struct PoolShape {
    pub lanes: u32,
    pub first_page: u32,
    pub pages: u32,
    pub last_generation: u32,
    pub tag: u32,
}

/// How many places were what when the pool was closed.
#[repr(C)]
#[derive(Drop)]
pub struct PoolCensus {
    pub free: u32,
    pub unopened: u32,
    pub filling: u32,
    pub present: u32,
    pub marked: u32,
    pub retired: u32,
}

/// Opens a pool, and puts a lane into each slot, by rising number. By its own number, which no other pool has, a join
/// knows its lanes.
#[unsafe(no_mangle)]
pub extern "C" fn pardz_open_numbered(
    alloc: Global,
    shape: &PoolShape,
    slots: &mut [Slot],
    number: u64,
) -> u32
    ensures { Opens (shape_of shape.now) number slots.old slots.new result }
{
    open_slots(alloc, shape_of(shape), number, slots)
}

/// The shape that a foreign one is.
fn shape_of(shape: &PoolShape) -> Shape
    ensures { result ≡ shape_of shape.now }
{
    Shape {
        lanes: shape.lanes,
        first_page: shape.first_page,
        pages: shape.pages,
        last_generation: shape.last_generation,
        tag: shape.tag,
        guests: 0,
    }
}

/// A place to be filled, by the key under which it will be published.
#[unsafe(no_mangle)]
pub extern "C" fn pardz_create(slot: &mut Slot, key: &mut u64) -> u32
    ensures calls { Calls (CreatesKey key.new) slot.old.items slot.new.items result }
    ensures writes { WritesAtOk result key.old key.new }
{
    let Some(handle) = slot.lend() else {
        return EMPTY_LANE;
    };
    match handle.create() {
        Ok(made) => {
            *key = made;
            OK
        }
        Err(refusal) => code_of(refusal),
    }
}

/// Appends to a filling.
#[unsafe(no_mangle)]
pub extern "C" fn pardz_append(slot: &mut Slot, key: u64, bytes: &[u8]) -> u32
    ensures { Calls (Appends key bytes.now) slot.old.items slot.new.items result }
{
    let Some(handle) = slot.lend() else {
        return EMPTY_LANE;
    };
    code(handle.append(key, bytes))
}

/// Gives room for so many bytes behind the content of a filling.
#[unsafe(no_mangle)]
pub extern "C" fn pardz_room(slot: &mut Slot, key: u64, count: usize, at: &mut *mut u8) -> u32
    ensures calls { Calls (Rooms key count) slot.old.items slot.new.items result }
    ensures writes { WritesAtOk result at.old at.new }
    ensures none { count ≡ 0 → at.new ≡ at.old }
{
    let Some(handle) = slot.lend() else {
        return EMPTY_LANE;
    };
    match handle.room(key, count) {
        Ok(begins) => {
            if count != 0 {
                *at = begins;
            }
            OK
        }
        Err(refusal) => code_of(refusal),
    }
}

/// The first so many bytes of the room belong to the filling, and the others don't.
#[unsafe(no_mangle)]
pub extern "C" fn pardz_wrote(slot: &mut Slot, key: u64, count: usize) -> u32
    ensures { Calls (Wrote key count) slot.old.items slot.new.items result }
{
    let Some(handle) = slot.lend() else {
        return EMPTY_LANE;
    };
    code(handle.wrote(key, count))
}

/// Publishes a filling under its key.
#[unsafe(no_mangle)]
pub extern "C" fn pardz_publish(slot: &mut Slot, key: u64) -> u32
    ensures { Calls (Publishes key) slot.old.items slot.new.items result }
{
    let Some(handle) = slot.lend() else {
        return EMPTY_LANE;
    };
    code(handle.publish(key))
}

/// Publishes a filling under its key, to which the lane then has a reference.
#[unsafe(no_mangle)]
pub extern "C" fn pardz_downgrade(slot: &mut Slot, key: u64) -> u32
    ensures { Calls (Downgrades key) slot.old.items slot.new.items result }
{
    let Some(handle) = slot.lend() else {
        return EMPTY_LANE;
    };
    code(handle.downgrade(key))
}

/// Publishes these bytes in a place of their own, and tells the key: a create, an append and a publish in one.
#[unsafe(no_mangle)]
pub extern "C" fn pardz_put(slot: &mut Slot, bytes: &[u8], key: &mut u64) -> u32
    ensures calls { Calls (PutsKey bytes.now key.new) slot.old.items slot.new.items result }
    ensures writes { WritesAtOk result key.old key.new }
{
    let Some(handle) = slot.lend() else {
        return EMPTY_LANE;
    };
    match handle.put(bytes) {
        Ok(published) => {
            *key = published;
            OK
        }
        Err(refusal) => code_of(refusal),
    }
}

/// A reference more to a key, and where its bytes are: they may be read until the lane has given back all its
/// references to it.
#[unsafe(no_mangle)]
pub extern "C" fn pardz_get(slot: &mut Slot, key: u64, at: &mut *const u8, len: &mut usize) -> u32
    ensures calls { Calls (Lends key len.new) slot.old.items slot.new.items result }
    ensures writes { WritesAtOk result at.old at.new × WritesAtOk result len.old len.new }
    ensures none { len.new ≡ 0 → at.new ≡ at.old }
{
    let Some(handle) = slot.lend() else {
        return EMPTY_LANE;
    };
    match handle.get(key) {
        Ok(start) => {
            tell(at, len, handle.bytes_at(start, key));
            OK
        }
        Err(refusal) => code_of(refusal),
    }
}

/// Where the bytes of a key are to which the lane has a reference.
#[unsafe(no_mangle)]
pub extern "C" fn pardz_read(slot: &mut Slot, key: u64, at: &mut *const u8, len: &mut usize) -> u32
    ensures calls { Calls (Reads key len.new) slot.old.items slot.new.items result }
    ensures writes { WritesAtOk result at.old at.new × WritesAtOk result len.old len.new }
    ensures none { len.new ≡ 0 → at.new ≡ at.old }
{
    let Some(handle) = slot.lend() else {
        return EMPTY_LANE;
    };
    match handle.read(key) {
        Ok(bytes) => {
            tell(at, len, bytes);
            OK
        }
        Err(refusal) => code_of(refusal),
    }
}

/// Gives a reference back.
#[unsafe(no_mangle)]
pub extern "C" fn pardz_release(slot: &mut Slot, key: u64) -> u32
    ensures { Calls (Releases key) slot.old.items slot.new.items result }
{
    let Some(handle) = slot.lend() else {
        return EMPTY_LANE;
    };
    code(handle.release(key))
}

/// Clears the object of a key.
#[unsafe(no_mangle)]
pub extern "C" fn pardz_clear(slot: &mut Slot, key: u64) -> u32
    ensures { Calls (Clears key) slot.old.items slot.new.items result }
{
    let Some(handle) = slot.lend() else {
        return EMPTY_LANE;
    };
    code(handle.clear(key))
}

/// A filling ends unpublished.
#[unsafe(no_mangle)]
pub extern "C" fn pardz_leave(slot: &mut Slot, key: u64) -> u32
    ensures { Calls (Leaves key) slot.old.items slot.new.items result }
{
    let Some(handle) = slot.lend() else {
        return EMPTY_LANE;
    };
    code(handle.leave(key))
}

/// Tells of the lane and its pool, as far as there is room: the shape, the lane's number, how many references and fillings
/// it has, and how many lanes were joined to it. It makes no step.
#[unsafe(no_mangle)]
pub extern "C" fn pardz_numbers(slot: &mut Slot, numbers: &mut [u32]) -> u32
    ensures calls { Calls (TellsNumbers numbers.old numbers.new) slot.old.items slot.new.items result }
    ensures writes { WritesAtOk result numbers.old numbers.new }
{
    let Some(handle) = slot.lend() else {
        return EMPTY_LANE;
    };
    write_over(numbers, &handle.numbers());
    OK
}

/// Gives the lane of a slot to that of lane 0, which is to close the pool: the last lane first, and then the one before
/// it.
#[unsafe(no_mangle)]
pub extern "C" fn pardz_join(alloc: Global, into: &mut Slot, slot: &mut Slot) -> u32
    ensures { JoinsSlots into.old.items slot.old.items into.new.items slot.new.items result }
{
    let Some(handle) = into.lend() else {
        return EMPTY_LANE;
    };
    let Some(other) = lift(alloc, slot) else {
        return EMPTY_LANE;
    };
    match join(handle, other) {
        Ok(()) => OK,
        Err((refusal, other)) => {
            lower(slot, other);
            code_of(refusal)
        }
    }
}

/// Closes a pool whose lane 0 was given all others.
#[unsafe(no_mangle)]
pub extern "C" fn pardz_close(alloc: Global, slot: &mut Slot, census: &mut PoolCensus) -> u32
    ensures closes { ClosesSlot slot.old.items slot.new.items census.new result }
    ensures writes { WritesAtOk result census.old census.new }
{
    let Some(handle) = lift(alloc, slot) else {
        return EMPTY_LANE;
    };
    match close(handle) {
        Ok(counts) => {
            *census = counted(&counts);
            OK
        }
        Err((refusal, Some(handle))) => {
            lower(slot, handle);
            code_of(refusal)
        }
        Err((refusal, None)) => code_of(refusal),
    }
}

fn counted(counts: &Census) -> PoolCensus
    ensures { AreCounts counts.now result }
{
    PoolCensus {
        free: counts.free,
        unopened: counts.unopened,
        filling: counts.filling,
        present: counts.present,
        marked: counts.marked,
        retired: counts.retired,
    }
}
