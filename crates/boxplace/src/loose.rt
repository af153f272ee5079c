//! A box, or none, as its pointer alone.
ghost use Rattle.std.specs.Prelude.{◌≡◌, Option, None, Some, option_map};
ghost use Rattle.std.specs.Coded.{coded_option};
ghost use Rattle.boxplace.specs.Places.{loose_owns};

use crate::unboxed::Unboxed;
use std::alloc::Global;
use std::marker::Model;
use std::ptr::null_mut;

/// A box of the heap as its pointer; or none, as null.
pub(crate) struct Loose<X> {
    pub(crate) at: *mut X,
    pub(crate) ghost item: { Option X } by { coded_option X.code },
}

impl<X> Model for Loose<X> {
    ghost also_owns = { λ l. loose_owns X.row l.at l.item };
}

impl<X> Loose<X> {
    /// No box.
    pub(crate) fn none() -> Loose<X>
        ensures { result.item ≡ None }
    {
        Loose { at: null_mut() }
    }

    /// This box.
    pub(crate) fn of(boxed: Unboxed<X, Global>) -> Loose<X>
        ensures { result.item ≡ Some boxed.object }
    {
        let Unboxed { at, alloc: _ } = boxed;
        Loose { at }
    }

    /// The box, if it is one.
    pub(crate) fn into_unboxed(self, alloc: Global) -> Option<Unboxed<X, Global>>
        ensures { self.item ≡ option_map (λ boxed. boxed.object) result }
    {
        let Loose { at } = self;
        if at.is_null() {
            None
        } else {
            Some(Unboxed { at, alloc })
        }
    }
}
