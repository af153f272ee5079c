//! A handle out of its slot, and into one; and the codes.
ghost use Rattle.std.specs.Prelude.{◌≡◌, [], ◌∷◌, length, IfSome, IsNone};
ghost use Rattle.poolffi.specs.Codes.{code_of, answer_code};
ghost use Rattle.poolffi.specs.Exports.{HasNoLane, written_over};

use boxplace::Unboxed;
use poolhandle::Refusal;
use poolhandle::handle::Handle;
use poolhandle::slot::Slot;
use std::alloc::Global;
use std::mem::replace;

pub(crate) const OK: u32 = 0;

pub(crate) const MEMORY: u32 = 1;

pub(crate) const EMPTY_LANE: u32 = 2;

pub(crate) const FULL_LANE: u32 = 3;

pub(crate) const FULL: u32 = 4;

pub(crate) const FILLINGS: u32 = 5;

pub(crate) const NO_FILLING: u32 = 6;

pub(crate) const NO_REFERENCE: u32 = 7;

pub(crate) const GONE: u32 = 8;

pub(crate) const REFERENCES: u32 = 9;

pub(crate) const OTHER_POOL: u32 = 10;

pub(crate) const LANES: u32 = 11;

pub(crate) const SHAPE: u32 = 12;

pub(crate) const ROOM: u32 = 13;

pub(crate) const SHARED: u32 = 14;

/// The handle out of a full slot, which is then empty. An empty slot stays as it was.
pub(crate) fn lift(alloc: Global, slot: &mut Slot) -> Option<Box<Handle>>
    ensures full { IfSome result (λ handle. (slot.old.items ≡ handle.value ∷ []) × (slot.new.full ≡ 0) × (slot.new.items ≡ [])) }
    ensures empty { IsNone result → (slot.new ≡ slot.old) × HasNoLane slot.old.items }
{
    if !slot.is_full() {
        return None;
    }
    Some(replace(slot, Slot::empty()).take(alloc).into_box())
}

/// The handle into a slot.
pub(crate) fn lower(slot: &mut Slot, handle: Box<Handle>)
    ensures { (slot.new.full ≡ 1) × (slot.new.items ≡ handle.value ∷ []) }
{
    *slot = Slot::fill(Unboxed::from_box(handle));
}

/// Writes how many bytes there are, and where: the address where there are any.
pub(crate) fn tell(at: &mut *const u8, len: &mut usize, bytes: &[u8])
    ensures told { len.new ≡ length bytes.now }
    ensures none { len.new ≡ 0 → at.new ≡ at.old }
{
    *len = bytes.len();
    if !bytes.is_empty() {
        *at = std::ptr::from_ref(&bytes[0]);
    }
}

/// Writes what is told over the first numbers, as far as there are so many.
pub(crate) fn write_over(numbers: &mut [u32], told: &[u32])
    ensures { numbers.new ≡ written_over told.now numbers.old }
{
    let count = told.len().min(numbers.len());
    numbers[..count].copy_from_slice(&told[..count]);
}

/// The code of a refusal. Away from the calls' own paths: what leads only here needs no registers there.
#[cold]
#[inline(never)]
pub(crate) fn code_of(refusal: Refusal) -> u32
    ensures { result ≡ code_of refusal }
{
    match refusal {
        Refusal::Memory => MEMORY,
        Refusal::Full => FULL,
        Refusal::Fillings => FILLINGS,
        Refusal::NoFilling => NO_FILLING,
        Refusal::NoReference => NO_REFERENCE,
        Refusal::Gone => GONE,
        Refusal::References => REFERENCES,
        Refusal::OtherPool => OTHER_POOL,
        Refusal::Lanes => LANES,
        Refusal::Room => ROOM,
        Refusal::Shared => SHARED,
    }
}

/// The code of an answer.
pub(crate) fn code(answer: Result<(), Refusal>) -> u32
    ensures { result ≡ answer_code answer }
{
    match answer {
        Ok(()) => OK,
        Err(refusal) => code_of(refusal),
    }
}
