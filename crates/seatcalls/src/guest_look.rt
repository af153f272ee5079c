//! A guest's look whether a key is gone.

use crate::guests::Guest;
use keybits::generation_of;
use poolsteps::Grid;
use slotcell::Clear;

impl<T: Clear + Drop> Guest<T> {
    ghost use Rattle.std.specs.Prelude.{◌≡◌, ◌↔◌, true, false, IsTrue, []};
    ghost use Rattle.keybits.specs.Keys.{is_key};
    ghost use Rattle.seatcalls.specs.Visitors.{Visits};
    ghost use Rattle.seatcalls.specs.Sightings.{HasPassed};

    /// Whether a key is gone: its place has gone on to a later key, so no get finds it any more. So is a number that is no
    /// key of the pool. False says no more than that the place hadn't gone on: the key may be marked. It makes a look and no
    /// step, in front of a get that would most likely miss.
    pub fn is_gone(&mut self, grid: &Grid<T>, key: u64) -> bool
        requires of { (self.old.table ≡ grid.now.table.shared.table_id) × (self.old.shape ≡ grid.now.shape) }
        ensures outside { is_key self.old.shape key ≡ false → (result ≡ true) × (self.new ≡ self.old) }
        ensures gone { is_key self.old.shape key ≡ true → IsTrue result ↔ HasPassed self.old.shape self.new.book.seen key }
        ensures looks { is_key self.old.shape key ≡ true → Visits [] 0 1 self.old self.new }
    {
        let Some(spot) = grid.find_key(key) else {
            return true;
        };
        generation_of(key) < grid.generation(&mut self.hand, spot)
    }
}
