//! What guests tell others, and are told.
ghost use Rattle.std.specs.Prelude.{◌≡◌, []};

use crate::guests::Guest;
use poolsteps::{Grid, Hand};
use slotcell::Clear;

impl<T: Clear + Drop> Guest<T> {
    ghost use Rattle.std.specs.Prelude.{◌≡◌, []};
    ghost use Rattle.poolsteps.specs.Grids.{IsOf};
    ghost use Rattle.poolsteps.specs.Seats.{note_of, looked_once, heard_of, HasHeard, SawLonger};
    ghost use Rattle.seatcalls.specs.Visitors.{Visits};

    /// A note of all that the guest has seen, which any caller of the grid takes in. It makes a look and no step.
    pub fn tell(&mut self, grid: &Grid<T>) -> Hand<T>
        requires of { self.old.table ≡ grid.now.table.shared.table_id }
        ensures note { IsOf grid.now result × (result.me ≡ (note_of self.old.book, [])) }
        ensures guest { self.new ≡ record self.old { book = looked_once self.old.book } }
    {
        grid.note(&mut self.hand)
    }

    /// Takes in a note: what the guest has then seen begins with what it saw, and with what the note has, and so do the
    /// rooms beside it. It makes a look, and no step.
    pub fn hear(&mut self, grid: &Grid<T>, note: Hand<T>)
        requires of { (self.old.table ≡ grid.now.table.shared.table_id) × (self.old.shape ≡ grid.now.shape) }
        requires note { IsOf grid.now note × (note.me.1 ≡ []) }
        ensures heard { HasHeard self.new.book (heard_of note.me.0) }
        ensures goes { Visits [] 0 1 self.old self.new }
    {
        let number = self.number;
        grid.hear(&mut self.hand, number, note);
    }

    /// Takes in a note as `hear` does, and sees no further: what the guest has then seen is the longer of what it saw and
    /// what the note has.
    pub fn meet(&mut self, grid: &Grid<T>, note: Hand<T>)
        requires of { (self.old.table ≡ grid.now.table.shared.table_id) × (self.old.shape ≡ grid.now.shape) }
        requires note { IsOf grid.now note × (note.me.1 ≡ []) }
        ensures met { SawLonger self.old.book (heard_of note.me.0) self.new.book }
        ensures heard { HasHeard self.new.book (heard_of note.me.0) }
        ensures goes { Visits [] 0 1 self.old self.new }
    {
        let number = self.number;
        grid.meet(&mut self.hand, number, note);
    }
}
