//! The value that a reference showed, for proofs alone.
ghost use Rattle.std.specs.Prelude.{◌≡◌};
ghost use base.Fml.{ftrue};

use std::marker::{Model, PhantomData, Send, Sync};

// As the library's `Snapshot`, and it goes from thread to thread.
#[derive(Drop)]
pub(crate) struct KeptSnapshot<T> {
    marker: PhantomData<T>,
    pub(crate) ghost value: { T },
}

impl<T> Model for KeptSnapshot<T> {
    ghost also_owns = { λ _. ftrue };
}

impl<T> KeptSnapshot<T> {
    pub(crate) fn of(x: &T) -> KeptSnapshot<T>
        ensures { result.value ≡ x.now }
    {
        let _ = x;
        KeptSnapshot {
            marker: PhantomData,
        }
    }
}

unsafe impl<T> Send for KeptSnapshot<T> {}

unsafe impl<T> Sync for KeptSnapshot<T> {}
