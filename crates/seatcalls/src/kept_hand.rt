//! The hand of a guest that has a reference.
ghost use Rattle.std.specs.Prelude.{◌≡◌};
ghost use base.Fml.{ftrue};

use poolsteps::Hand;
use std::marker::{Model, Send, Sync};

// A hand by which nobody acts while it is kept: a `&` to it gives nothing, so it goes to any thread.
#[derive(Drop)]
pub(crate) struct KeptHand<T> {
    pub(crate) hand: Hand<T>,
}

impl<T> Model for KeptHand<T> {
    ghost also_owns = { λ _. ftrue };
}

impl<T> KeptHand<T> {
    pub(crate) fn new(hand: Hand<T>) -> KeptHand<T>
        ensures { result.hand ≡ hand }
    {
        KeptHand { hand }
    }

    pub(crate) fn into_hand(self) -> Hand<T>
        ensures { result ≡ self.hand }
    {
        let KeptHand { hand } = self;
        hand
    }
}

unsafe impl<T: Send + Sync> Send for KeptHand<T> {}

unsafe impl<T: Send + Sync> Sync for KeptHand<T> {}
