//! A lane's look whether a key is gone.
ghost use Rattle.std.specs.Prelude.{◌≡◌, ◌≤◌, ◌+◌, ◌↔◌, ℕ, true, false, IsTrue, []};
ghost use mathlib.Core.List.{IsPrefix};
ghost use Rattle.keybits.specs.Keys.{is_key};
ghost use Rattle.seatcalls.specs.Sightings.{HasPassed};
ghost use Rattle.shardpool.specs.Tokens.{FillingOf};
ghost use Rattle.shardpool.specs.Lanes.{Owns, Made, Did, holds, refs};

use crate::pool::{Lane, Pool};
use keybits::generation_of;
use slotcell::Clear;

impl<T: Clear + Drop> Pool<T> {
    /// Whether a key is gone: its place has gone on to a later key, so no get finds it any more. So is a number that is no
    /// key of the pool. False says no more than that the place hadn't gone on: the key may be marked. It makes a look and no
    /// step, in front of a get that would most likely miss.
    pub fn is_gone(&self, lane: &mut Lane<T>, key: u64) -> bool
        requires owns { Owns self.now lane.old }
        ensures outside { is_key self.now.shape key ≡ false → (result ≡ true) × (lane.new ≡ lane.old) }
        ensures gone { is_key self.now.shape key ≡ true → IsTrue result ↔ HasPassed self.now.shape lane.new.book.seen key }
        ensures goes { is_key self.now.shape key ≡ true → Did [] lane.old lane.new }
        ensures seen { IsPrefix lane.old.book.seen lane.new.book.seen }
        ensures owns { Owns self.now lane.new }
        ensures steps { lane.new.book.steps ≡ lane.old.book.steps }
        ensures looks { lane.new.book.looks ≤ lane.old.book.looks + 1 }
        ensures refs { refs lane.new ≡ refs lane.old }
        ensures held { (key : ℕ) → holds lane.new key ≡ holds lane.old key }
        ensures fillings { (filling : FillingOf T) → Made lane.old filling → Made lane.new filling }
    {
        let Some(spot) = self.grid.find_key(key) else {
            return true;
        };
        generation_of(key) < self.grid.generation(&mut lane.hand, spot)
    }
}
