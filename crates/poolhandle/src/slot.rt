//! What a foreign program keeps of a handle.
ghost use Rattle.std.specs.Prelude.{◌≡◌, ◌==◌, ℕ, List, [], ◌∷◌, length, IfSome, IsNone};
ghost use Rattle.std.specs.Borrow.{sem};
ghost use base.Stored.{coded_list};
ghost use Rattle.poolhandle.specs.declared.handle.Handle.{Handle as Kept};
ghost use Rattle.poolhandle.specs.contracts.handle.Handle.{the_row as handle_row};
ghost use Rattle.poolhandle.specs.Slot.{slot_owns};

use crate::handle::Handle;
use boxplace::Unboxed;
use std::alloc::Global;
use std::marker::Model;

/// A slot that the program keeps: empty, or with a handle on the heap. In C `struct { void *at; uint64_t full; }`. The
/// pointer's type is gone, since no type that leads to an `Arc` may stand in an export.
#[repr(C)]
#[derive(Drop)]
pub struct Slot {
    at: *mut u8,
    pub full: u64,
    pub ghost items: { List Kept } by { coded_list handle_row.coded },
    pub ghost counted: { full ≡ length items },
}

impl Model for Slot {
    ghost also_owns = { λ s. slot_owns handle_row s.at s.items };
}

impl Slot {
    ghost use Rattle.poolhandle.specs.SlotLends.{LendsHandle, LendsIfFull};

    /// An empty slot.
    pub fn empty() -> Slot
        ensures { (result.full ≡ 0) × (result.items ≡ []) }
    {
        Slot {
            at: std::ptr::null_mut(),
            full: 0,
        }
    }

    /// Whether the slot is full. It stays as it is.
    #[inline]
    pub fn is_full(&mut self) -> bool
        ensures { (self.new ≡ self.old) × (result ≡ (self.old.full == 1)) }
    {
        self.full == 1
    }

    /// The handle of a full slot, where it stands.
    #[inline]
    fn handle_mut(&mut self) -> &mut Handle
        requires { self.old.full ≡ 1 }
        ensures* writes_back { sem 𝓛 (LendsHandle self.entry result) }
        ensures handle { self.old.items ≡ result.now ∷ [] }
    {
        unsafe { &mut *(self.at as *mut Handle) }
    }

    /// The handle, where the slot is full.
    #[inline]
    pub fn lend(&mut self) -> Option<&mut Handle>
        ensures* writes_back { sem 𝓛 (LendsIfFull self.entry result) }
        ensures some { IfSome result (λ handle. self.old.items ≡ handle.now ∷ []) }
        ensures none { IsNone result → (handle : Kept) → self.old.items ≡ handle ∷ [] → ⊥ }
    {
        if self.is_full() {
            Some(self.handle_mut())
        } else {
            None
        }
    }

    /// A slot with this handle.
    pub fn fill(whole: Unboxed<Handle, Global>) -> Slot
        ensures { (result.full ≡ 1) × (result.items ≡ whole.object ∷ []) }
    {
        let Unboxed { at, alloc: _ } = whole;
        Slot {
            at: at as *mut u8,
            full: 1,
        }
    }

    /// The handle of a full slot.
    pub fn take(self, alloc: Global) -> Unboxed<Handle, Global>
        requires { self.full ≡ 1 }
        ensures { self.items ≡ result.object ∷ [] }
    {
        let Slot { at, full: _ } = self;
        Unboxed {
            at: at as *mut Handle,
            alloc,
        }
    }
}

unsafe impl Send for Slot {}

fn sent<S: Send>(value: S) -> S
    ensures { result ≡ value }
{
    value
}

/// A slot crosses threads.
pub fn crosses(slot: Slot) -> Slot
    ensures { result ≡ slot }
{
    sent(slot)
}
