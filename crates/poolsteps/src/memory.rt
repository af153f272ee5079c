//! Memory by the right to it, over raw pointers, in functions of a few lines that are proved by hand: a value that
//! nobody else reaches, a part of one that is lent, values side by side, the right to free them.
ghost use Rattle.std.specs.Prelude.{◌≡◌, ℕ, ◌+◌, ◌-◌, ◌^◌, ◌<◌, ◌≤◌, Bool, true, false, ◌||◌, List, ◌∷◌, length};
ghost use Rattle.std.specs.Borrow.{sem};
ghost use denote.RawPtr.{Ptr, coded_ptr};
ghost use Rattle.poolsteps.specs.Portion.{loose_owns, loose_shares, cell_owns, cell_shares};
ghost use Rattle.core.specs.Mem.Slots.{slots_items, slots_ptr, slots_len, IsFull};
ghost use Rattle.poolsteps.specs.Run.{run_at};
ghost use base.Fml.{ftrue};

use crate::cells::Base;
use core::slots::{Lease, Slots};
use std::alloc::Allocator;
use std::marker::{Model, PhantomData, Send, Sync};

// The value `object` at this index of a row that begins at `base`.
#[derive(Drop)]
pub(crate) struct Loose<T> {
    pub(crate) mark: PhantomData<*const T>,
    pub(crate) ghost base: { Ptr } by { coded_ptr },
    pub(crate) ghost index: { ℕ },
    pub(crate) ghost object: { T },
}

impl<T> Model for Loose<T> {
    ghost also_owns = { λ l. loose_owns T.row l.base l.index l.object };

    ghost also_shares = { λ l _ κ. loose_shares T.row l.base l.index l.object κ };
}

impl<T> Loose<T> {
    ghost use Rattle.poolsteps.specs.Loose.{LendsObject};

    // The value, which stands at this index from the base on.
    pub(crate) fn get(&self, base: Base<T>, index: usize) -> &T
        requires { (base.ptr ≡ self.now.base) × (index ≡ self.now.index) }
        ensures { result.now ≡ self.now.object }
    {
        unsafe { &*base.ptr.add(index) }
    }

    pub(crate) fn get_mut(&mut self, base: Base<T>, index: usize) -> &mut T
        requires { (base.ptr ≡ self.old.base) × (index ≡ self.old.index) }
        ensures* writes_back { sem 𝓛 (LendsObject T.row self.entry result) }
        ensures value { result.now ≡ self.old.object }
    {
        unsafe { &mut *base.ptr.add(index) }
    }
}

unsafe impl<T: Send> Send for Loose<T> {}

unsafe impl<T: Sync> Sync for Loose<T> {}

// Some of the 2^63 equal parts of a cell that is lent, `parts` of them. Each part is a right to read. Whoever has all,
// with the right of the one `owner` to the memory, ends the loan.
#[derive(Drop)]
pub(crate) struct Portion<T> {
    pub(crate) mark: PhantomData<*const T>,
    pub(crate) ghost base: { Ptr } by { coded_ptr },
    pub(crate) ghost index: { ℕ },
    pub(crate) ghost object: { T },
    pub(crate) ghost cell: { ℕ },
    pub(crate) ghost lifetime: { ℕ },
    pub(crate) ghost parts: { ℕ },
    pub(crate) ghost owner: { Bool },
    pub(crate) ghost number: { ℕ },
    pub(crate) ghost of: { ℕ },
}

impl<T> Model for Portion<T> {
    ghost also_owns = { λ p. cell_owns T.row p.base p.index p.object p.lifetime p.cell p.parts p.owner };

    ghost also_shares = { λ p _ κ. cell_shares T.row p.base p.index p.object p.lifetime p.cell κ };
}

impl<T> Portion<T> {
    // All the parts of a new cell, which is to have `of` shares. The next share to be cut off has the number 0.
    pub(crate) fn lend(loose: Loose<T>, of: usize) -> Portion<T>
        ensures { (result.base ≡ loose.base) × (result.index ≡ loose.index) × (result.object ≡ loose.object) × (result.parts ≡ 2 ^ 63)
            × (result.owner ≡ true) × (result.number ≡ 0) × (result.of ≡ of) }
    {
        let Loose { mark: _ } = loose;
        Portion { mark: PhantomData }
    }

    // Ends the loan of which these are all parts.
    pub(crate) fn recover(self) -> Loose<T>
        requires { (self.parts ≡ 2 ^ 63) × (self.owner ≡ true) }
        ensures { (result.base ≡ self.base) × (result.index ≡ self.index) × (result.object ≡ self.object) }
    {
        let Portion { mark: _ } = self;
        Loose { mark: PhantomData }
    }

    // Cuts so many parts off, under the next number.
    pub(crate) fn cut(&mut self, count: usize) -> Portion<T>
        requires { (0 < count) × (count < self.old.parts) × (self.old.parts ≤ 2 ^ 63) }
        ensures { (self.new ≡ record self.old { parts = self.old.parts - count; number = self.old.number + 1 })
            × (result ≡ record self.old { parts = count; owner = false }) }
    {
        Portion { mark: PhantomData }
    }

    // Takes in a portion of the same cell, which has the same object.
    pub(crate) fn merge(&mut self, other: Portion<T>)
        requires { (other.cell ≡ self.old.cell) × (0 < self.old.parts) × (self.old.parts + other.parts ≤ 2 ^ 63) }
        ensures { (other.object ≡ self.old.object)
            × (self.new ≡ record self.old { parts = self.old.parts + other.parts; owner = self.old.owner || other.owner }) }
    {
        let Portion { mark: _ } = other;
    }
}

unsafe impl<T: Send + Sync> Send for Portion<T> {}

unsafe impl<T: Send + Sync> Sync for Portion<T> {}

// The values of a row of `total` from the index `first` on.
pub(crate) struct Run<T> {
    pub(crate) ptr: *mut T,
    pub(crate) ghost total: { ℕ },
    pub(crate) ghost first: { ℕ },
    pub(crate) ghost items: { List T },
}

impl<T> Model for Run<T> {
    ghost also_owns = { λ r. run_at T.row r.ptr r.total r.first r.items };
}

impl<T> Run<T> {
    pub(crate) fn of(row: Slots<T>) -> Run<T>
        requires { IsFull row }
        ensures { (result.ptr ≡ slots_ptr row) × (result.total ≡ slots_len row) × (result.first ≡ 0) × (result.items ≡ slots_items row) }
    {
        let parts = unsafe { row.into_raw_parts() };
        Run { ptr: parts.0 }
    }

    pub(crate) fn into_slots(self, len: usize) -> Slots<T>
        requires { (self.first ≡ 0) × (len ≡ length self.items) × (self.total ≡ len) }
        ensures { (slots_ptr result ≡ self.ptr) × (slots_len result ≡ len) × (slots_items result ≡ self.items) × IsFull result }
    {
        let Run { ptr } = self;
        unsafe { Slots::from_raw_parts(ptr, len) }
    }

    pub(crate) fn base(&mut self) -> Base<T>
        ensures { (result.ptr ≡ self.old.ptr) × (self.new ≡ self.old) }
    {
        Base { ptr: self.ptr }
    }

    pub(crate) fn cut(&mut self) -> Loose<T>
        requires { 0 < length self.old.items }
        ensures { (result.base ≡ self.old.ptr) × (result.index ≡ self.old.first)
            × (self.old ≡ record self.new { first = self.old.first; items = result.object ∷ self.new.items })
            × (self.new.first ≡ self.old.first + 1) }
    {
        Loose { mark: PhantomData }
    }

    pub(crate) fn merge(&mut self, loose: Loose<T>)
        requires { (loose.base ≡ self.old.ptr) × (loose.index + 1 ≡ self.old.first) }
        ensures { self.new ≡ record self.old { first = loose.index; items = loose.object ∷ self.old.items } }
    {
        let Loose { mark: _ } = loose;
    }
}

unsafe impl<T: Send> Send for Run<T> {}

unsafe impl<T: Send> Sync for Run<T> {}

pub(crate) struct HeldLease<T, A: Allocator> {
    pub(crate) lease: Lease<T, A>,
}

impl<T, A: Allocator> Model for HeldLease<T, A> {
    ghost also_owns = { λ _. ftrue };
}

impl<T, A: Allocator> HeldLease<T, A> {
    pub(crate) fn new(lease: Lease<T, A>) -> HeldLease<T, A>
        ensures { result.lease ≡ lease }
    {
        HeldLease { lease }
    }

    pub(crate) fn into_lease(self) -> Lease<T, A>
        ensures { result ≡ self.lease }
    {
        let HeldLease { lease } = self;
        lease
    }
}

unsafe impl<T, A: Allocator + Send> Send for HeldLease<T, A> {}

unsafe impl<T, A: Allocator + Send> Sync for HeldLease<T, A> {}
