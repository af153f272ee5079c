//! What a foreign program keeps of a caller.
ghost use Rattle.std.specs.Prelude.{◌≡◌, ◌==◌, ℕ, List, [], ◌∷◌, length, IfSome, IsNone};
ghost use Rattle.std.specs.Borrow.{sem};
ghost use base.Stored.{coded_list};
ghost use Rattle.poolffi.specs.declared.caller.Caller.{Caller as Kept};
ghost use Rattle.poolffi.specs.contracts.caller.Caller.{the_row as caller_row};
ghost use Rattle.poolhandle.specs.Slot.{slot_owns};

use crate::caller::Caller;
use boxplace::Unboxed;
use std::alloc::Global;
use std::marker::Model;

/// A slot that the program keeps: empty, or with a caller on the heap. In C `struct { void *at; uint64_t full; }`. The
/// pointer's type is gone, since no type that leads to an `Arc` may stand in an export.
#[repr(C)]
#[derive(Drop)]
pub struct PoolSlot {
    at: *mut u8,
    pub full: u64,
    pub ghost items: { List Kept } by { coded_list caller_row.coded },
    pub ghost counted: { full ≡ length items },
}

impl Model for PoolSlot {
    ghost also_owns = { λ s. slot_owns caller_row s.at s.items };
}

impl PoolSlot {
    ghost use Rattle.poolffi.specs.PoolSlots.{LendsCaller, LendsIfFull};

    /// An empty slot.
    pub fn empty() -> PoolSlot
        ensures { (result.full ≡ 0) × (result.items ≡ []) }
    {
        PoolSlot {
            at: std::ptr::null_mut(),
            full: 0,
        }
    }

    /// Whether the slot is full. It stays as it is.
    #[inline]
    pub fn is_full(&mut self) -> bool
        ensures { (self.new ≡ self.old) × (result ≡ (self.old.full == 1)) }
    {
        self.full == 1
    }

    /// The caller of a full slot, where it stands.
    #[inline]
    fn caller_mut(&mut self) -> &mut Caller
        requires { self.old.full ≡ 1 }
        ensures* writes_back { sem 𝓛 (LendsCaller self.entry result) }
        ensures caller { self.old.items ≡ result.now ∷ [] }
    {
        unsafe { &mut *(self.at as *mut Caller) }
    }

    /// The caller, where the slot is full.
    #[inline]
    pub fn lend(&mut self) -> Option<&mut Caller>
        ensures* writes_back { sem 𝓛 (LendsIfFull self.entry result) }
        ensures some { IfSome result (λ caller. self.old.items ≡ caller.now ∷ []) }
        ensures none { IsNone result → (caller : Kept) → self.old.items ≡ caller ∷ [] → ⊥ }
    {
        if self.is_full() {
            Some(self.caller_mut())
        } else {
            None
        }
    }

    /// A slot with this caller.
    pub fn fill(whole: Unboxed<Caller, Global>) -> PoolSlot
        ensures { (result.full ≡ 1) × (result.items ≡ whole.object ∷ []) }
    {
        let Unboxed { at, alloc: _ } = whole;
        PoolSlot {
            at: at as *mut u8,
            full: 1,
        }
    }

    /// The caller of a full slot.
    pub fn take(self, alloc: Global) -> Unboxed<Caller, Global>
        requires { self.full ≡ 1 }
        ensures { self.items ≡ result.object ∷ [] }
    {
        let PoolSlot { at, full: _ } = self;
        Unboxed {
            at: at as *mut Caller,
            alloc,
        }
    }
}

unsafe impl Send for PoolSlot {}

fn sent<S: Send>(value: S) -> S
    ensures { result ≡ value }
{
    value
}

/// A slot crosses threads.
pub fn crosses(slot: PoolSlot) -> PoolSlot
    ensures { result ≡ slot }
{
    sent(slot)
}
