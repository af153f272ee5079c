//! A cell that is lent to readers, in equal parts.
ghost use Rattle.std.specs.Prelude.{◌≡◌, ℕ, ◌+◌, ◌-◌, ◌^◌, ◌<◌, ◌≤◌, Bool, true, false, ◌||◌};
ghost use Rattle.slotcell.specs.Portion.{portion_owns, portion_shares};

use crate::unboxed::Unboxed;
use std::alloc::Global;
use std::marker::Model;

// Some of the 2^63 equal parts of a cell that is lent, `parts` of them. Each part is a right to read. Whoever has all,
// with the right of the one `owner` to the box, ends the loan. At run time there is only the pointer.
#[derive(Drop)]
pub(crate) struct Portion<T> {
    at: *mut T,
    pub(crate) ghost object: { T },
    pub(crate) ghost cell: { ℕ },
    pub(crate) ghost lifetime: { ℕ },
    pub(crate) ghost parts: { ℕ },
    pub(crate) ghost owner: { Bool },
    pub(crate) ghost number: { ℕ },
    pub(crate) ghost of: { ℕ },
}

impl<T> Model for Portion<T> {
    ghost also_owns = { λ p. portion_owns T.row p.at p.object p.lifetime p.cell p.parts p.owner };

    ghost also_shares = { λ p _ κ. portion_shares T.row p.at p.object p.lifetime p.cell κ };
}

impl<T> Portion<T> {
    // All the parts of a new cell, which is to have `of` shares. The next share to be cut off has the number 0.
    pub(crate) fn lend(whole: Unboxed<T, Global>, of: usize) -> Portion<T>
        ensures { (result.object ≡ whole.object) × (result.parts ≡ 2 ^ 63) × (result.owner ≡ true) × (result.number ≡ 0)
            × (result.of ≡ of) }
    {
        let Unboxed { at, alloc: _ } = whole;
        Portion { at }
    }

    // Ends the loan of which these are all parts.
    pub(crate) fn recover(self, alloc: Global) -> Unboxed<T, Global>
        requires { (self.parts ≡ 2 ^ 63) × (self.owner ≡ true) }
        ensures { result.object ≡ self.object }
    {
        let Portion { at } = self;
        Unboxed { at, alloc }
    }

    pub(crate) fn read(&self) -> &T
        ensures { result.now ≡ self.now.object }
    {
        unsafe { &*self.at }
    }

    // Cuts one part off, under the next number.
    pub(crate) fn cut(&mut self) -> Portion<T>
        requires { (1 < self.old.parts) × (self.old.parts ≤ 2 ^ 63) }
        ensures { (self.new ≡ record self.old { parts = self.old.parts - 1; number = self.old.number + 1 })
            × (result ≡ record self.old { parts = 1; owner = false }) }
    {
        Portion { at: self.at }
    }

    // Takes in a portion of the same cell, which has the same object.
    pub(crate) fn merge(&mut self, other: Portion<T>)
        requires { (other.cell ≡ self.old.cell) × (0 < self.old.parts) × (self.old.parts + other.parts ≤ 2 ^ 63) }
        ensures { (other.object ≡ self.old.object)
            × (self.new ≡ record self.old { parts = self.old.parts + other.parts; owner = self.old.owner || other.owner }) }
    {
        let Portion { at: _ } = other;
    }
}

unsafe impl<T: Send + Sync> Send for Portion<T> {}

unsafe impl<T: Send + Sync> Sync for Portion<T> {}
