//! References of guests.

use crate::kept_hand::KeptHand;
use crate::kept_snapshot::KeptSnapshot;
use keybits::Shape;
use poolsteps::{Base, Slot};
use slotcell::Clear;
use std::marker::Model;

/// A reference to a key, with the guest that has it: any thread reads the object, by no more than this, and any thread
/// gives the reference back. One that is dropped or forgotten keeps its guest, whose pool then isn't closed.
#[derive(Drop)]
pub struct GuestRef<T: Clear> {
    pub(crate) hand: KeptHand<T>,
    pub(crate) number: u32,
    pub(crate) shape: KeptSnapshot<Shape>,
    /// Where the key's place stands.
    pub(crate) start: u32,
    pub(crate) key: u64,
    /// Where the objects of the pool stand.
    pub(crate) directory: Base<T>,
    pub(crate) share: Slot<T>,
}

impl<T: Clear> Model for GuestRef<T> {
    ghost use Rattle.std.specs.Prelude.{◌≡◌, [], Some};
    ghost use Rattle.poolsteps.specs.Share.{Share as Shown};
    ghost use Rattle.seatcalls.specs.Visitors.{GuestRefOf, IsReferring};

    ghost Value = { GuestRefOf };

    ghost view = { λ r. record {
      guest = record { table = r.hand.hand.table_id; shape = r.shape.value; number = r.number; book = r.hand.hand.me.0 };
      directory = r.directory.ptr;
      key = r.key;
    } };

    ghost invariant = { λ r. (r.hand.hand.me.1 ≡ []) × (share : Shown T) × (r.share ≡ Some share)
        × IsReferring T.content T.room
        (record { table = r.hand.hand.table_id; shape = r.shape.value; number = r.number; book = r.hand.hand.me.0 })
        r.directory.ptr r.key r.start share };
}

impl<T: Clear> GuestRef<T> {
    ghost use Rattle.std.specs.Prelude.{◌≡◌, ℕ, true};
    ghost use Rattle.keybits.specs.Keys.{is_key};
    ghost use Rattle.seqpool.specs.Pool.{IsLegal};
    ghost use Rattle.seqpool.specs.Histories.{PublishedAt, acts_of};
    ghost use Rattle.poolsteps.specs.Views.{the_lane};
    ghost use Rattle.seatcalls.specs.Visitors.{HasOneReference};

    /// The key of the object.
    pub fn key(&self) -> u64
        ensures { result ≡ self.now.key }
    {
        self.key
    }

    /// The object, which nobody writes while the reference is there: its content is that with which the key was published.
    pub fn read(&self) -> &T
        ensures { (j : ℕ) × PublishedAt self.now.guest.book.seen j self.now.key (T.content result.now) }
    {
        self.share.read(self.directory, self.start as usize)
    }

    /// As a law: the key is one of the pool, to which the guest has this one reference and else none; what it has seen is a
    /// legal history of the pool, with just those of its acts that it made.
    pub fn seen_law(&self)
        ensures key { is_key self.now.guest.shape self.now.key ≡ true }
        ensures one { HasOneReference self.now.guest.shape self.now.guest.book self.now.key }
        ensures legal { IsLegal self.now.guest.shape self.now.guest.book.seen }
        ensures own { (the_lane self.now.guest.book).mine ≡ acts_of self.now.guest.number self.now.guest.book.seen }
    {
        // A proof knows the invariant of a reference once a field of it is seen.
        let _ = &self.hand;
    }
}
