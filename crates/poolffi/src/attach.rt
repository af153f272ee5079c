//! A pool that any number of threads call, each by a slot of its own, and each call by a lane that it has for its own time.
ghost use Rattle.std.specs.Prelude.{◌≡◌, [], ◌∷◌, IfSome, IsNone};
ghost use Rattle.poolffi.specs.Callers.{Clears, Releases};
ghost use Rattle.poolffi.specs.Attached.{code_of, answer_code, CallsPool, PutsKey, Lends, AreTold, Attaches, SharesSlots, Unshares, Detaches, HasNoPool};
ghost use Rattle.poolffi.specs.Exports.{WritesAtOk, shape_of};

use crate::caller::Caller;
use crate::closing::close;
use crate::found::Found;
use crate::opening::open_caller;
use crate::pool_slot::PoolSlot;
use crate::refusal::Refusal;
use crate::slots::{
    EMPTY_LANE, FULL, FULL_LANE, GONE, MEMORY, NO_REFERENCE, OK, REFERENCES, SHAPE, SHARED,
};
use crate::{PoolCensus, PoolShape, counted, shape_of};
use boxplace::Unboxed;
use keybits::Shape;
use shardpool::OpenFault;
use std::alloc::Global;
use std::mem::replace;

const BUSY: u32 = 15;

/// A reference to a key, with where its bytes are, and which lane keeps it.
#[repr(C)]
#[derive(Drop)]
pub struct PoolLent {
    pub at: *const u8,
    pub len: usize,
    pub key: u64,
    pub lane: u32,
}

/// Opens a pool into an empty slot.
#[unsafe(no_mangle)]
pub extern "C" fn pardz_attach(alloc: Global, shape: &PoolShape, pool: &mut PoolSlot) -> u32
    ensures { Attaches (shape_of shape.now) pool.old.items pool.new.items result }
{
    attach_slot(alloc, shape_of(shape), pool)
}

/// Puts another caller of a slot's pool into an empty slot, for another thread.
#[unsafe(no_mangle)]
pub extern "C" fn pardz_share(alloc: Global, pool: &mut PoolSlot, other: &mut PoolSlot) -> u32
    ensures { SharesSlots pool.old.items other.old.items pool.new.items other.new.items result }
{
    let Some(caller) = pool.lend() else {
        return EMPTY_LANE;
    };
    if other.is_full() {
        return FULL_LANE;
    }
    match caller.share(alloc) {
        Ok(made) => {
            lower(other, made);
            OK
        }
        Err(refusal) => code_of(refusal),
    }
}

/// Publishes these bytes in a place of their own, and tells the key.
#[unsafe(no_mangle)]
pub extern "C" fn pardz_pool_put(pool: &mut PoolSlot, from: u32, bytes: &[u8], key: &mut u64) -> u32
    ensures calls { CallsPool (PutsKey bytes.now key.new) pool.old.items pool.new.items result }
    ensures writes { WritesAtOk result key.old key.new }
{
    let Some(caller) = pool.lend() else {
        return EMPTY_LANE;
    };
    match caller.put(from, bytes) {
        Ok(published) => {
            *key = published;
            OK
        }
        Err(refusal) => code_of(refusal),
    }
}

/// A reference more to a key, where its bytes are, and which lane keeps it.
#[unsafe(no_mangle)]
pub extern "C" fn pardz_pool_get(
    pool: &mut PoolSlot,
    from: u32,
    key: u64,
    lent: &mut PoolLent,
) -> u32
    ensures calls { CallsPool (Lends key lent.new) pool.old.items pool.new.items result }
    ensures writes { WritesAtOk result lent.old lent.new }
    ensures none { lent.new.len ≡ 0 → lent.new.at ≡ lent.old.at }
{
    let Some(caller) = pool.lend() else {
        return EMPTY_LANE;
    };
    match caller.get(from, key) {
        Ok(found) => {
            tell(lent, key, found);
            OK
        }
        Err(refusal) => code_of(refusal),
    }
}

/// Gives a reference back to the lane that keeps it.
#[unsafe(no_mangle)]
pub extern "C" fn pardz_pool_release(pool: &mut PoolSlot, lent: &PoolLent) -> u32
    ensures { CallsPool (Releases lent.now.lane lent.now.key) pool.old.items pool.new.items result }
{
    let Some(caller) = pool.lend() else {
        return EMPTY_LANE;
    };
    code(caller.release(lent.lane, lent.key))
}

/// Clears the object of a key.
#[unsafe(no_mangle)]
pub extern "C" fn pardz_pool_clear(pool: &mut PoolSlot, from: u32, key: u64) -> u32
    ensures { CallsPool (Clears key) pool.old.items pool.new.items result }
{
    let Some(caller) = pool.lend() else {
        return EMPTY_LANE;
    };
    code(caller.clear(from, key))
}

/// Empties a slot whose pool others share.
#[unsafe(no_mangle)]
pub extern "C" fn pardz_unshare(alloc: Global, pool: &mut PoolSlot) -> u32
    ensures { Unshares pool.old.items pool.new.items result }
{
    let Some(caller) = lift(alloc, pool) else {
        return EMPTY_LANE;
    };
    drop(caller);
    OK
}

/// Closes a pool that one slot alone has.
#[unsafe(no_mangle)]
pub extern "C" fn pardz_detach(alloc: Global, pool: &mut PoolSlot, census: &mut PoolCensus) -> u32
    ensures detaches { Detaches pool.old.items pool.new.items census.new result }
    ensures writes { WritesAtOk result census.old census.new }
{
    let Some(caller) = lift(alloc, pool) else {
        return EMPTY_LANE;
    };
    match close(caller) {
        Ok(counts) => {
            *census = counted(&counts);
            OK
        }
        Err((refusal, Some(caller))) => {
            lower(pool, caller);
            code_of(refusal)
        }
        Err((refusal, None)) => code_of(refusal),
    }
}

/// Opens a pool of this shape into an empty slot.
fn attach_slot(alloc: Global, shape: Shape, pool: &mut PoolSlot) -> u32
    requires { shape.guests ≡ 0 }
    ensures { Attaches shape pool.old.items pool.new.items result }
{
    if pool.is_full() {
        return FULL_LANE;
    }
    match open_caller(alloc, shape) {
        Ok(caller) => {
            lower(pool, caller);
            OK
        }
        Err(OpenFault::Memory) => MEMORY,
        Err(OpenFault::Shape(_)) => SHAPE,
    }
}

/// Writes what a get found: the address where there are bytes.
fn tell(lent: &mut PoolLent, key: u64, found: Found)
    ensures told { AreTold key found lent.new }
    ensures none { lent.new.len ≡ 0 → lent.new.at ≡ lent.old.at }
{
    let Found { at, len, lane } = found;
    lent.key = key;
    lent.lane = lane;
    lent.len = len;
    if len != 0 {
        lent.at = at;
    }
}

/// The caller out of a full slot, which is then empty. An empty slot stays as it was.
fn lift(alloc: Global, pool: &mut PoolSlot) -> Option<Box<Caller>>
    ensures full { IfSome result (λ caller. (pool.old.items ≡ caller.value ∷ []) × (pool.new.items ≡ [])) }
    ensures empty { IsNone result → (pool.new ≡ pool.old) × HasNoPool pool.old.items }
{
    if !pool.is_full() {
        return None;
    }
    Some(replace(pool, PoolSlot::empty()).take(alloc).into_box())
}

/// The caller into a slot.
fn lower(pool: &mut PoolSlot, caller: Box<Caller>)
    ensures { pool.new.items ≡ caller.value ∷ [] }
{
    *pool = PoolSlot::fill(Unboxed::from_box(caller));
}

/// The code of a refusal.
#[cold]
#[inline(never)]
fn code_of(refusal: Refusal) -> u32
    ensures { result ≡ code_of refusal }
{
    match refusal {
        Refusal::Memory => MEMORY,
        Refusal::Full => FULL,
        Refusal::NoReference => NO_REFERENCE,
        Refusal::Gone => GONE,
        Refusal::References => REFERENCES,
        Refusal::Shared => SHARED,
        Refusal::Busy => BUSY,
    }
}

/// The code of an answer.
fn code(answer: Result<(), Refusal>) -> u32
    ensures { result ≡ answer_code answer }
{
    match answer {
        Ok(()) => OK,
        Err(refusal) => code_of(refusal),
    }
}
