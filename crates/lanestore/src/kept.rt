//! The fillings that a lane keeps for its callers, each under its key.
ghost use Rattle.std.specs.Prelude.{◌≡◌, ◌<◌, ◌≤◌, [], length, slice_index_or, IfSome, IsNone, IsTrue, MatchOption, ◌↔◌};
ghost use Rattle.std.specs.Vec.{vec_capacity};
ghost use Rattle.lanestore.specs.declared.kept.Kept.{Kept as One};
ghost use Rattle.lanestore.specs.declared.kept.TheConstants.{MOST_FILLINGS};
ghost use Rattle.shardpool.specs.Tokens.{LaneOf};
ghost use Rattle.shardpool.specs.Lanes.{Made};
ghost use Rattle.lanestore.specs.Fillings.{AreMade, AreDistinct, HaveNot, Gain, Lose};

use shardpool::Filling;
use slotcell::Clear;
use std::alloc::Global;

/// The most fillings that a lane keeps at once.
pub const MOST_FILLINGS: usize = 64;

/// A filling that a lane keeps, which is left where it is dropped.
pub struct Kept<T: Clear> {
    pub(crate) filling: Filling<T>,
}

impl<T: Clear + Drop> Kept<T> {
    ghost use Rattle.std.specs.Prelude.{◌≡◌};

    pub(crate) fn into_filling(self) -> Filling<T>
        ensures { result ≡ self.filling }
    {
        let Kept { filling } = self;
        filling
    }
}

impl<T: Clear + Drop> Drop for Kept<T> {
    fn drop(self) {
        self.into_filling().forget();
    }
}

/// The fillings that a lane keeps, at most `MOST_FILLINGS`, each under its own key.
#[derive(Drop)]
pub struct Fillings<T: Clear> {
    pub(crate) list: Vec<Kept<T>>,
    ghost few: { length list.items ≤ MOST_FILLINGS },
    ghost roomy: { MOST_FILLINGS ≤ vec_capacity list },
    ghost distinct: { AreDistinct list.items },
}

impl<T: Clear + Drop> Fillings<T> {
    /// No filling is kept. None where memory was refused.
    pub(crate) fn new(alloc: Global) -> Option<Fillings<T>>
        ensures { IfSome result (λ fillings. fillings.list.items ≡ []) }
    {
        let list = Vec::with_capacity(alloc, MOST_FILLINGS).ok()?;
        Some(Fillings { list })
    }

    /// Whether one more can be kept.
    pub(crate) fn has_room(&self) -> bool
        ensures { IsTrue result ↔ (length self.now.list.items < MOST_FILLINGS) }
    {
        self.list.len() < MOST_FILLINGS
    }

    /// Where the filling of a key stands. None where there is none.
    fn find(&self, key: u64) -> Option<usize>
        ensures some { IfSome result (λ index. (index < length self.now.list.items)
            × ((d : One T) → (slice_index_or self.now.list.items index d).filling.key ≡ key)) }
        ensures none { IsNone result → HaveNot key self.now.list.items }
    {
        for index in 0..self.list.len() {
            if self.list[index].filling.key() == key {
                return Some(index);
            }
        }
        None
    }

    /// Takes out the filling of a key. None where there is none.
    pub(crate) fn take(&mut self, key: u64) -> Option<Filling<T>>
        ensures taken { MatchOption result (HaveNot key self.old.list.items × (self.new ≡ self.old)) (λ filling. (filling.key ≡ key)
            × Lose filling self.old.list.items self.new.list.items × (length self.new.list.items < MOST_FILLINGS)) }
        ensures made { (lane : LaneOf) → AreMade lane self.old.list.items → AreMade lane self.new.list.items }
        ensures own { IfSome result (λ filling. (lane : LaneOf) → AreMade lane self.old.list.items → Made lane filling) }
    {
        let index = self.find(key)?;
        Some(self.list.swap_remove(index).into_filling())
    }

    /// Keeps a filling, whose key no other has.
    pub(crate) fn keep(&mut self, filling: Filling<T>)
        requires room { length self.old.list.items < MOST_FILLINGS }
        requires apart { HaveNot filling.key self.old.list.items }
        ensures gains { Gain filling self.old.list.items self.new.list.items }
        ensures made { (lane : LaneOf) → Made lane filling → AreMade lane self.old.list.items → AreMade lane self.new.list.items }
    {
        self.list.push_reserved(Kept { filling });
    }
}
