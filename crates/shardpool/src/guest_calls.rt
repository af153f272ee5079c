//! The calls of guests, by their pool.
ghost use Rattle.std.specs.Prelude.{◌≡◌, ◌≢◌, ◌≤◌, ◌↔◌, true, false, Some, None, ◌∷◌, [], ℕ, List, IfOk, IfErr, IsTrue, IsFalse};
ghost use Rattle.keybits.specs.Keys.{is_key, place_of};
ghost use Rattle.keybits.specs.Places.{shard_of};
ghost use Rattle.steplaws.specs.Facts.{guest_home};
ghost use Rattle.seqpool.specs.declared.act.Act.TheVariants as acts;
ghost use Rattle.poolsteps.specs.Shares.{room_of};
ghost use Rattle.seatcalls.specs.declared.ended.Ended.TheVariants.{Free};
ghost use Rattle.seatcalls.specs.Guests.{given_acts};
ghost use Rattle.seatcalls.specs.Visitors.{Visits};
ghost use Rattle.seatcalls.specs.Endings.{Ends, Settles};
ghost use Rattle.seatcalls.specs.Sightings.{Found, Missed, Cleared, HasPassed};
ghost use Rattle.shardpool.specs.Lanes.{OwnsGuest};

use crate::pool::Pool;
use seatcalls::{Claimed, Ended, Guest, GuestRef};
use slotcell::Clear;

impl<T: Clear + Drop> Pool<T> {
    /// A get of a key by a guest: a reference, which takes the guest with it. It takes no memory, and waits for nobody.
    ///
    /// # Errors
    ///
    /// The guest, where the key is marked or not published, or the number is no key of the pool. The last that refers to a
    /// key that is cleared has its place: where that is the guest, the object is cleared in place, and the place given back.
    #[inline(always)]
    pub fn get_by(&self, guest: Guest<T>, key: u64) -> Result<GuestRef<T>, Guest<T>>
        requires owns { OwnsGuest self.now guest }
        ensures outside { IfErr result (λ after. is_key guest.shape key ≡ false → after ≡ guest) }
        ensures key { IfOk result (λ reference. (is_key guest.shape key ≡ true) × (reference.key ≡ key)
            × (reference.directory ≡ self.now.directory)) }
        ensures gets { IfOk result (λ reference. (content : List ℕ)
            × Visits (acts.Get guest.number key (Some content) ∷ []) 1 2 guest reference.guest) }
        ensures found { IfOk result (λ reference. Found key guest reference.guest) }
        ensures misses { IfErr result (λ after. is_key guest.shape key ≡ true
            → Settles (place_of key) (acts.Get guest.number key None ∷ []) 4 4 guest after) }
        ensures missed { IfErr result (λ after. is_key guest.shape key ≡ true → Missed key guest after) }
    {
        guest.get(&self.grid, key, self.alloc)
    }

    /// As `get_by`. Where the guest claims the key's place, it keeps it, with its object.
    #[inline(always)]
    pub fn get_or_keep_by(&self, guest: Guest<T>, key: u64) -> Result<GuestRef<T>, Ended<T>>
        requires owns { OwnsGuest self.now guest }
        ensures outside { IfErr result (λ ended. is_key guest.shape key ≡ false → ended ≡ Free guest) }
        ensures key { IfOk result (λ reference. (is_key guest.shape key ≡ true) × (reference.key ≡ key)
            × (reference.directory ≡ self.now.directory)) }
        ensures gets { IfOk result (λ reference. (content : List ℕ)
            × Visits (acts.Get guest.number key (Some content) ∷ []) 1 2 guest reference.guest) }
        ensures misses { IfErr result (λ ended. is_key guest.shape key ≡ true
            → Ends T.content T.room self.now.directory (place_of key) (acts.Get guest.number key None ∷ []) 3 2 guest ended) }
    {
        guest.get_or_keep(&self.grid, key)
    }

    /// Gives a guest's reference back, and answers the guest. Where it was the last to a key that is cleared, the object is
    /// cleared in place, and the place given back. It takes no memory, and waits for nobody.
    #[inline(always)]
    pub fn release_of(&self, reference: GuestRef<T>) -> Guest<T>
        requires owns { OwnsGuest self.now reference.guest }
        requires directory { reference.directory ≡ self.now.directory }
        ensures { Settles (place_of reference.key) (acts.Release reference.guest.number reference.key ∷ []) 3 6 reference.guest result }
    {
        reference.release(&self.grid, self.alloc)
    }

    /// As `release_of`. Where the guest claims the key's place, it keeps it, with its object.
    #[inline(always)]
    pub fn release_or_keep_of(&self, reference: GuestRef<T>) -> Ended<T>
        requires owns { OwnsGuest self.now reference.guest }
        requires directory { reference.directory ≡ self.now.directory }
        ensures { Ends T.content T.room self.now.directory (place_of reference.key)
            (acts.Release reference.guest.number reference.key ∷ []) 2 4 reference.guest result }
    {
        reference.release_or_keep(&self.grid)
    }

    /// Clears the object of a key by a guest: true where it is this call that marked the key, which a get then finds no
    /// more. The last that refers to the object clears it in place, and gives its place back. False for a key that is marked
    /// or not published, and for a number that is no key of the pool, without a step. It takes no memory, and waits for
    /// nobody.
    #[inline(always)]
    pub fn clear_by(&self, guest: Guest<T>, key: u64) -> (bool, Guest<T>)
        requires owns { OwnsGuest self.now guest }
        ensures outside { is_key guest.shape key ≡ false → (result.0 ≡ false) × (result.1 ≡ guest) }
        ensures clears { is_key guest.shape key ≡ true
            → Settles (place_of key) (acts.Clear guest.number key result.0 ∷ []) 5 6 guest result.1 }
        ensures cleared { IsTrue result.0 → Cleared key guest result.1 }
        ensures missed { IsFalse result.0 → is_key guest.shape key ≡ true → Missed key guest result.1 }
    {
        guest.clear(&self.grid, key, self.alloc)
    }

    /// As `clear_by`. Where the guest claims the key's place, it keeps it, with its object.
    #[inline(always)]
    pub fn clear_or_keep_by(&self, guest: Guest<T>, key: u64) -> (bool, Ended<T>)
        requires owns { OwnsGuest self.now guest }
        ensures outside { is_key guest.shape key ≡ false → (result.0 ≡ false) × (result.1 ≡ Free guest) }
        ensures clears { is_key guest.shape key ≡ true
            → Ends T.content T.room self.now.directory (place_of key) (acts.Clear guest.number key result.0 ∷ []) 4 4 guest result.1 }
    {
        guest.clear_or_keep(&self.grid, key)
    }

    /// Whether a key is gone: its place has gone on to a later key, so no get finds it any more. So is a number that is no
    /// key of the pool. False says no more than that the place hadn't gone on: the key may be marked. It makes a look and no
    /// step, in front of a get that would most likely miss.
    pub fn is_gone_by(&self, guest: &mut Guest<T>, key: u64) -> bool
        requires owns { OwnsGuest self.now guest.old }
        ensures outside { is_key guest.old.shape key ≡ false → (result ≡ true) × (guest.new ≡ guest.old) }
        ensures gone { is_key guest.old.shape key ≡ true → IsTrue result ↔ HasPassed guest.old.shape guest.new.book.seen key }
        ensures looks { is_key guest.old.shape key ≡ true → Visits [] 0 1 guest.old guest.new }
    {
        guest.is_gone(&self.grid, key)
    }

    /// Gives a claimed place back, whose object is empty and has no less room than it had when it was published: by one
    /// step it is home, for the lane of its shard to gather. Where its last generation is over, it gets no object any more;
    /// this one is dropped.
    pub fn give_back(&self, claimed: Claimed<T>) -> Guest<T>
        requires owns { OwnsGuest self.now claimed.guest }
        requires directory { claimed.directory ≡ self.now.directory }
        requires empty { T.content claimed.object ≡ [] }
        requires room { room_of claimed.guest.book.seen claimed.guest.book.rooms claimed.place ≤ T.room claimed.object }
        ensures gives { Visits (given_acts claimed.guest.shape claimed.guest.number claimed.place claimed.generation) 1 2
            claimed.guest result }
        ensures home { claimed.generation ≢ claimed.guest.shape.last_generation
            → guest_home claimed.guest.shape result.book.seen (shard_of claimed.place) claimed.place ≡ true }
    {
        claimed.give_back(&self.grid, self.alloc)
    }
}
