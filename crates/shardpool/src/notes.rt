//! What lanes tell each other.
ghost use Rattle.std.specs.Prelude.{◌≡◌, ◌+◌, ℕ, []};
ghost use mathlib.Core.List.{IsPrefix};
ghost use Rattle.poolsteps.specs.Seats.{longer, looked_once};
ghost use Rattle.shardpool.specs.Tokens.{FillingOf};
ghost use Rattle.shardpool.specs.Lanes.{Owns, Issued, Made, Did, holds, refs};

use crate::pool::{Lane, Pool};
use poolsteps::Hand;
use slotcell::Clear;
use std::marker::Model;

/// What a lane has seen, to be told to another.
#[derive(Drop)]
pub struct Note<T> {
    pub(crate) hand: Hand<T>,
}

impl<T> Model for Note<T> {
    ghost use Rattle.std.specs.Prelude.{◌≡◌, []};
    ghost use Rattle.shardpool.specs.Tokens.{NoteOf};

    ghost Value = { NoteOf };

    ghost view = { λ n. record { table = n.hand.table_id; book = n.hand.me.0 } };

    ghost invariant = { λ n. n.hand.me.1 ≡ [] };
}

impl<T: Clear + Drop> Pool<T> {
    /// A note of all that a lane has seen. It makes a look and no step, and leaves the lane else as it was.
    pub fn tell(&self, lane: &mut Lane<T>) -> Note<T>
        requires { Owns self.now lane.old }
        ensures note { Issued self.now result × (result.book.seen ≡ lane.old.book.seen) }
        ensures rooms { result.book.rooms ≡ lane.old.book.rooms }
        ensures lane { lane.new ≡ record lane.old { book = looked_once lane.old.book } }
        ensures fillings { (filling : FillingOf T) → Made lane.old filling → Made lane.new filling }
    {
        Note {
            hand: self.grid.note(&mut lane.hand),
        }
    }

    /// Takes in a note: what the lane has then seen begins with what it saw, and with what the note has, and so do the
    /// rooms beside it. It makes a look, and no step.
    pub fn hear(&self, lane: &mut Lane<T>, note: Note<T>)
        requires owns { Owns self.now lane.old }
        requires note { Issued self.now note }
        ensures owns { Owns self.now lane.new }
        ensures heard { IsPrefix note.book.seen lane.new.book.seen × IsPrefix lane.old.book.seen lane.new.book.seen }
        ensures rooms { IsPrefix note.book.rooms lane.new.book.rooms × IsPrefix lane.old.book.rooms lane.new.book.rooms }
        ensures goes { Did [] lane.old lane.new }
        ensures steps { lane.new.book.steps ≡ lane.old.book.steps }
        ensures looks { lane.new.book.looks ≡ lane.old.book.looks + 1 }
        ensures refs { refs lane.new ≡ refs lane.old }
        ensures held { (key : ℕ) → holds lane.new key ≡ holds lane.old key }
        ensures fillings { (filling : FillingOf T) → Made lane.old filling → Made lane.new filling }
    {
        let number = lane.state.number;
        self.grid.hear(&mut lane.hand, number, note.hand);
    }

    /// Two lanes tell each other what they have seen: it is then one history, which begins with what each saw, with the
    /// same rooms beside it. Each makes two looks, and no step.
    pub fn meet(&self, one: &mut Lane<T>, other: &mut Lane<T>)
        requires one { Owns self.now one.old }
        requires other { Owns self.now other.old }
        ensures one { Owns self.now one.new }
        ensures other { Owns self.now other.new }
        ensures met { one.new.book.seen ≡ other.new.book.seen }
        ensures rooms { one.new.book.rooms ≡ other.new.book.rooms }
        ensures heard { IsPrefix one.old.book.seen one.new.book.seen × IsPrefix other.old.book.seen other.new.book.seen }
        ensures goes { Did [] one.old one.new × Did [] other.old other.new }
        ensures refs { (refs one.new ≡ refs one.old) × (refs other.new ≡ refs other.old) }
        ensures one_held { (key : ℕ) → holds one.new key ≡ holds one.old key }
        ensures other_held { (key : ℕ) → holds other.new key ≡ holds other.old key }
        ensures steps { (one.new.book.steps ≡ one.old.book.steps) × (other.new.book.steps ≡ other.old.book.steps) }
        ensures looks { (one.new.book.looks ≡ one.old.book.looks + 2) × (other.new.book.looks ≡ other.old.book.looks + 2) }
        ensures one_fillings { (filling : FillingOf T) → Made one.old filling → Made one.new filling }
        ensures other_fillings { (filling : FillingOf T) → Made other.old filling → Made other.new filling }
    {
        let note = self.tell(other);
        self.meet_by(one, note);
        let note = self.tell(one);
        self.meet_by(other, note);
    }

    /// Takes in a note as `hear` does, and sees no further: what the lane has then seen is the longer of what it saw
    /// and what the note has.
    fn meet_by(&self, lane: &mut Lane<T>, note: Note<T>)
        requires owns { Owns self.now lane.old }
        requires note { Issued self.now note }
        ensures owns { Owns self.now lane.new }
        ensures met { lane.new.book.seen ≡ longer lane.old.book.seen note.book.seen }
        ensures rooms_met { lane.new.book.rooms ≡ longer lane.old.book.rooms note.book.rooms }
        ensures heard { IsPrefix note.book.seen lane.new.book.seen × IsPrefix lane.old.book.seen lane.new.book.seen }
        ensures rooms { IsPrefix note.book.rooms lane.new.book.rooms }
        ensures goes { Did [] lane.old lane.new }
        ensures steps { lane.new.book.steps ≡ lane.old.book.steps }
        ensures looks { lane.new.book.looks ≡ lane.old.book.looks + 1 }
        ensures refs { refs lane.new ≡ refs lane.old }
        ensures held { (key : ℕ) → holds lane.new key ≡ holds lane.old key }
        ensures fillings { (filling : FillingOf T) → Made lane.old filling → Made lane.new filling }
    {
        let number = lane.state.number;
        self.grid.meet(&mut lane.hand, number, note.hand);
    }
}
