//! The place of a box.
ghost use Rattle.std.specs.Prelude.{◌≡◌, IfSome};
ghost use Rattle.boxplace.specs.Places.{heap_handle, place_owns, place_shares};

use crate::loose::Loose;
use crate::unboxed::Unboxed;
use std::alloc::Global;
use std::marker::{Brand, Move, Owns};
use std::sync::atomic::Ordering::SeqCst;
use std::sync::atomic::raw;

/// A fact about each object that lies in a place, by the tag that the place was made with.
pub trait Fits {
    type Tag;

    ghost fits: { Self.Tag → Self → Type 0 };
}

/// A place for a box, which is there or had by somebody. In a clause it is its tag.
pub struct Place<X: Fits> {
    at: *mut X,
    alloc: Global,
}

impl<X: Fits> Owns for Place<X> {
    ghost Value = { X.Tag };

    ghost coded = { X.Tag.code };

    ghost shr_at = { λ tag p κ. place_shares X.row (X.fits tag) p κ };
}

impl<X: Fits> Move for Place<X> {
    ghost own_val = { λ tag vs. place_owns X.row (X.fits tag) (λ p. Fields.own_val (record { at = p; alloc = heap_handle }) vs) };
}

impl<X: Fits> Place<X> {
    /// A place with this box in it, or with none.
    fn of(loose: Loose<X>, alloc: Global, tag: &X::Tag) -> Place<X>
        requires { IfSome loose.item (X.fits tag.now) }
        ensures { result ≡ tag.now }
    {
        let _ = tag;
        let Loose { at } = loose;
        Place { at, alloc }
    }

    /// What lies in the place.
    fn into_parts(self) -> (Loose<X>, Global)
        ensures { IfSome result.0.item (X.fits self) }
    {
        let Place { at, alloc } = self;
        (Loose { at }, alloc)
    }

    /// Leaves this in the place, and answers what lay there.
    fn swap(&self, loose: Loose<X>) -> Loose<X>
        requires { IfSome loose.item (X.fits self.now) }
        ensures { IfSome result.item (X.fits self.now) }
    {
        let Loose { at: new } = loose;
        let at = unsafe { raw::ptr::swap::<X, Brand>(&raw const self.at, new, SeqCst) };
        Loose { at }
    }
}

impl<X: Fits + Drop> Place<X> {
    /// A place with this box in it.
    pub fn new(boxed: Box<X>, tag: &X::Tag) -> Place<X>
        requires { X.fits tag.now boxed.value }
        ensures { result ≡ tag.now }
    {
        let alloc = *Box::allocator(&boxed);
        Place::of(Loose::of(Unboxed::from_box(boxed)), alloc, tag)
    }

    /// The box, if nobody has it.
    pub fn into_inner(self) -> Option<Box<X>>
        ensures { IfSome result (λ boxed. X.fits self boxed.value) }
    {
        let (loose, alloc) = self.into_parts();
        Some(loose.into_unboxed(alloc)?.into_box())
    }

    /// Takes the box out. None where somebody has it.
    #[inline]
    pub fn take(&self, alloc: Global) -> Option<Box<X>>
        ensures { IfSome result (λ boxed. X.fits self.now boxed.value) }
    {
        Some(self.swap(Loose::none()).into_unboxed(alloc)?.into_box())
    }

    /// Puts a box in, and answers what lay there.
    #[inline]
    pub fn give(&self, boxed: Box<X>) -> Option<Box<X>>
        requires { X.fits self.now boxed.value }
        ensures { IfSome result (λ other. X.fits self.now other.value) }
    {
        let alloc = *Box::allocator(&boxed);
        let other = self.swap(Loose::of(Unboxed::from_box(boxed)));
        Some(other.into_unboxed(alloc)?.into_box())
    }
}

impl<X: Fits + Drop> Drop for Place<X> {
    fn drop(self) {
        drop(self.into_inner());
    }
}

unsafe impl<X: Fits + Send> Send for Place<X> {}

unsafe impl<X: Fits + Send> Sync for Place<X> {}
