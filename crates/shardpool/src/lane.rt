//! Lanes: each owns a shard of a pool.

use crate::create::Filling;
use crate::get::Ref;
use crate::pool::Lane;
use keybits::place_of;
use slotcell::Clear;

/// The most references of a lane.
pub const MOST_REFERENCES: u32 = 1_048_575;

impl<T: Clear> Lane<T> {
    ghost use Rattle.keybits.specs.Shapes.{callers};
    ghost use Rattle.std.specs.Prelude.{◌≡◌, ◌≢◌, ◌<◌, ◌≤◌, ◌⊎◌, ◌↔◌, ℕ, true, false, IsTrue, IsNone, IsSome, IfSome, [], length, Contains};
    ghost use Rattle.keybits.specs.declared.place.Place.{Place};
    ghost use Rattle.keybits.specs.Places.{shard_of, page_of, number_of};
    ghost use Rattle.keybits.specs.Shapes.{is_place};
    ghost use Rattle.keybits.specs.Keys.{is_key, place_of};
    ghost use Rattle.poolsteps.specs.Layout.{slot_start, slot_row};
    ghost use Rattle.freelists.specs.Queues.{numbers};
    ghost use Rattle.seqpool.specs.Pool.{with, has, NoRepeats, pool_after, IsLegal};
    ghost use Rattle.seqpool.specs.Histories.{acts_of};
    ghost use Rattle.poolsteps.specs.Owners.{ArePublishedByOwners};
    ghost use Rattle.poolsteps.specs.Views.{the_lane};
    ghost use Rattle.poolsteps.specs.Told.{IsIdle};
    ghost use Rattle.shardpool.specs.Lanes.{AreHeld, IsKept, holds, refs, first_place};

    /// The lane's number, which is that of its shard.
    pub fn number(&self) -> u32
        ensures { result ≡ self.now.number }
    {
        self.state.number
    }

    /// How many references the lane has.
    pub fn refs(&self) -> u32
        ensures { result ≡ refs self.now }
    {
        self.state.references
    }

    /// Whether the lane's own list has a place, or a taken place is still to be followed. A create then succeeds.
    pub fn has_free(&self) -> bool
        ensures { IsTrue result ↔ ((self.now.free.own ≢ []) ⊎ IsSome self.now.free.chain) }
    {
        self.state.free.len() > 0 || self.state.free.chain().is_some()
    }

    /// How many places there are where a place of the pool may stand: from 0 on.
    pub fn places(&self) -> usize
        ensures { result ≡ slot_row self.now.shape }
    {
        self.state.rows.len()
    }

    /// Where the place of a key stands, as `Pool::get_at` answers it. None for a number that is no key of the pool.
    pub fn start_of_key(&self, key: u64) -> Option<u32>
        ensures some { IsSome result ↔ is_key self.now.shape key ≡ true }
        ensures at { IfSome result (λ start. start ≡ slot_start self.now.shape (place_of key)) }
    {
        if keybits::fits(key, &self.state.shape) {
            Some(self.state.places.start(place_of(key)))
        } else {
            None
        }
    }

    /// A reference to a key to which the lane has one: so a program may keep keys in place of references.
    pub fn reference_to(&self, key: u64) -> Ref<T>
        requires { 1 ≤ holds self.now key }
        ensures { result.key ≡ key }
    {
        let places = &self.state.places;
        Ref::to(key, places.start(place_of(key)), places)
    }

    /// As a law: the lane has nothing under way, and what it has seen is a legal history of the pool, with a room
    /// beside each act, and with just those of the lane's acts that it made; each publish in it, by any lane, is by the
    /// owner of the key's shard. In a pool of one lane it has no other acts, so that each reply is that of a pool of one
    /// thread, and each key that was cleared and not yet reclaimed has a reference.
    pub fn seen_law(&self)
        ensures legal { IsLegal self.now.shape self.now.book.seen }
        ensures owners { ArePublishedByOwners self.now.book.seen }
        ensures own { (the_lane self.now.book).mine ≡ acts_of self.now.number self.now.book.seen }
        ensures number { ((the_lane self.now.book).lane ≡ self.now.number) × (self.now.number < self.now.shape.lanes) }
        ensures idle { IsIdle self.now.book }
        ensures rooms { length self.now.book.rooms ≡ length self.now.book.seen }
        ensures alone { callers self.now.shape ≡ 1 → self.now.book.seen ≡ (the_lane self.now.book).mine }
        ensures held { callers self.now.shape ≡ 1 → AreHeld self.now }
    {
        // A proof knows the invariant of a lane once a field of it is seen.
        let _ = &self.state;
    }

    /// As a law: the places of the lane's own list and of its taken chain are of its shard, of opened pages and with
    /// the lane, and no place stands there twice; the chain hangs by its first place; each place of an unopened page is
    /// with the lane; and the references to a key are among all that the lane has.
    pub fn places_law(&self)
        ensures listed { (place : Place) → Contains self.now.free.own place
            → IsKept self.now.shape self.now.book.seen self.now (number_of place) }
        ensures chained { (place : ℕ) → has (the_lane self.now.book).chain place ≡ true
            → IsKept self.now.shape self.now.book.seen self.now place }
        ensures once { NoRepeats (numbers self.now.free.own) × NoRepeats (the_lane self.now.book).chain }
        ensures apart { (place : Place) → Contains self.now.free.own place → has (the_lane self.now.book).chain (number_of place) ≡ false }
        ensures first { self.now.free.chain ≡ first_place (the_lane self.now.book).chain }
        ensures unopened { (place : ℕ) → is_place self.now.shape place ≡ true → shard_of place ≡ self.now.number
            → self.now.pages.opened ≤ page_of place
            → (pool_after self.now.shape self.now.book.seen place).phase ≡ with self.now.number }
        ensures held { (key : ℕ) → holds self.now key ≤ refs self.now }
    {
        // A proof knows that the lane's free places are sound once their number is asked.
        let _ = self.state.free.len();
    }
}

impl<T: Clear + Drop> Lane<T> {
    ghost use Rattle.std.specs.Prelude.{◌≡◌};
    ghost use Rattle.shardpool.specs.Lanes.{Made};

    /// A filling ends unpublished, and the pool isn't told: its place stays filling until the pool is closed, as after
    /// `Filling::forget`. The object is dropped.
    pub fn leave(&mut self, filling: Filling<T>)
        requires { Made self.old filling }
        ensures { self.new ≡ self.old }
    {
        let (_, start, mut whole) = filling.spend();
        let at = start as usize;
        *whole.get_mut(self.state.objects.base(), at) = T::fresh(self.state.alloc);
        self.state.objects.bring_back(at, whole);
    }
}
