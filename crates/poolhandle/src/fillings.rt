//! The places that a lane fills.
ghost use Rattle.std.specs.Prelude.{◌≡◌, ◌<◌, ◌≤◌, [], ◌∷◌, ◌++◌, length, take, replicate, slice_index_or, IfSome, IsNone, IsTrue, IsFalse, if◌then◌else◌};
ghost use Rattle.std.specs.Vec.{vec_capacity};
ghost use Rattle.std.specs.List.Sorted.{IsPermutation};
ghost use Rattle.poolhandle.specs.declared.kept.Kept.{Kept as One};
ghost use Rattle.poolhandle.specs.declared.fillings.TheConstants.{MOST_FILLINGS};
ghost use Rattle.poolhandle.specs.Filled.{AreDistinct, HaveNot, Changes, MustGrow, content_of, room_of};

use crate::kept::Kept;
use std::alloc::Global;

/// The most places that a lane fills at once.
pub const MOST_FILLINGS: usize = 16;

/// The places that a lane fills, at most `MOST_FILLINGS`, each under its own key.
#[derive(Drop)]
pub struct Fillings {
    pub list: Vec<Kept>,
    ghost few: { length list.items ≤ MOST_FILLINGS },
    ghost roomy: { MOST_FILLINGS ≤ vec_capacity list },
    ghost distinct: { AreDistinct list.items },
}

impl Fillings {
    /// No place is filled. None where memory was refused.
    pub(crate) fn new(alloc: Global) -> Option<Fillings>
        ensures { IfSome result (λ fillings. fillings.list.items ≡ []) }
    {
        let list = Vec::with_capacity(alloc, MOST_FILLINGS).ok()?;
        Some(Fillings { list })
    }

    /// Whether no place can be filled any more.
    pub(crate) fn is_full(&self) -> bool
        ensures full { IsTrue result → MOST_FILLINGS ≤ length self.now.list.items }
        ensures more { IsFalse result → length self.now.list.items < MOST_FILLINGS }
    {
        self.list.len() >= MOST_FILLINGS
    }

    /// Where the filling of a key stands. None where there is none.
    pub(crate) fn find(&self, key: u64) -> Option<usize>
        ensures some { IfSome result (λ index. (index < length self.now.list.items)
            × ((d : One) → (slice_index_or self.now.list.items index d).filling.key ≡ key)) }
        ensures none { IsNone result → HaveNot key self.now.list.items }
    {
        for index in 0..self.list.len() {
            if self.list[index].filling.key() == key {
                return Some(index);
            }
        }
        None
    }

    /// Takes a filling out.
    pub(crate) fn take(&mut self, index: usize) -> Kept
        requires { index < length self.old.list.items }
        ensures is { result ≡ slice_index_or self.old.list.items index result }
        ensures rest { IsPermutation self.old.list.items (result ∷ self.new.list.items) }
        ensures apart { HaveNot result.filling.key self.new.list.items }
    {
        self.list.swap_remove(index)
    }

    /// Puts a filling in, whose key no other has.
    pub(crate) fn keep(&mut self, kept: Kept)
        requires room { length self.old.list.items < MOST_FILLINGS }
        requires apart { HaveNot kept.filling.key self.old.list.items }
        ensures { self.new.list.items ≡ self.old.list.items ++ kept ∷ [] }
    {
        self.list.push_reserved(kept);
    }

    /// Appends to a filling: whether there was memory.
    pub(crate) fn append(&mut self, index: usize, bytes: &[u8]) -> bool
        requires { index < length self.old.list.items }
        ensures changes { Changes index (λ old new. (new.filling.object.bytes
            ≡ (if result then content_of old ++ bytes.now else content_of old)) × (new.room ≡ 0)) self.old.list.items self.new.list.items }
        ensures grown { IsFalse result → (d : One) → MustGrow (slice_index_or self.old.list.items index d) (length bytes.now) }
    {
        self.list[index].append(bytes)
    }

    /// Gives room behind the content of a filling: whether there was memory.
    pub(crate) fn grow(&mut self, index: usize, count: usize) -> bool
        requires { index < length self.old.list.items }
        ensures changes { Changes index (λ old new. (content_of new ≡ content_of old) × (room_of new ≡ replicate new.room 0)
            × (new.room ≡ (if result then count else 0))) self.old.list.items self.new.list.items }
        ensures grown { IsFalse result → (d : One) → MustGrow (slice_index_or self.old.list.items index d) count }
    {
        self.list[index].grow(count)
    }

    /// Where the room of a filling begins.
    pub(crate) fn room_address(&mut self, index: usize) -> *mut u8
        requires { index < length self.old.list.items }
        ensures { self.new ≡ self.old }
    {
        self.list[index].room_address()
    }

    /// The first so many bytes of the room of a filling are content: whether there are so many.
    pub(crate) fn wrote(&mut self, index: usize, count: usize) -> bool
        requires { index < length self.old.list.items }
        ensures yes { IsTrue result → Changes index (λ old new. (count ≤ old.room)
            × (content_of new ≡ content_of old ++ take count (room_of old)) × (new.room ≡ 0)) self.old.list.items self.new.list.items }
        ensures no { IsFalse result → (self.new ≡ self.old) × ((d : One) → (slice_index_or self.old.list.items index d).room < count) }
    {
        self.list[index].wrote(count)
    }
}
