//! Where a call acts and for which lane, and what became of a place that it reclaimed.
ghost use Rattle.std.specs.Prelude.{◌≡◌, Some, None, if◌then◌else◌};
ghost use Rattle.keybits.specs.Words.{generation_in, owes_claim};

use keybits::{Life, owes_claim, shard_of};
use poolsteps::{Spot, Whole};
use std::alloc::Global;

/// What became of a place that a call reclaimed.
#[derive(Drop)]
pub enum Reclaimed<T> {
    /// It is of the lane's own shard: its object, which was emptied.
    Own(Whole<T>),
    /// It is of another shard, and was returned there.
    Returned,
    /// Its last generation was over: it is retired, its object was handed over, and an empty one is at rest there.
    Retired,
}

/// The place at which a call acts, and the lane that makes it.
#[derive(Clone, Copy)]
pub struct At<'a> {
    /// Where the words and the slots of the place stand.
    pub spot: Spot,
    /// The lane's number.
    pub lane: u32,
    /// For each shard the word that the lane last pushed there; 0 where it pushed none.
    pub tops: &'a Vec<u64>,
    pub alloc: Global,
}

impl At<'_> {
    ghost use Rattle.std.specs.Prelude.{◌≡◌, ◌<◌, length, slice_index};
    ghost use Rattle.keybits.specs.Places.{shard_of as shard_number};

    /// The word that the lane last pushed to the place's shard. Only the return of a place reads it.
    #[inline]
    pub fn top(&self) -> u64
        requires { shard_number self.now.spot.place < length self.now.tops.now.items }
        ensures { result ≡ slice_index self.now.tops.now.items (shard_number self.now.spot.place) }
    {
        self.tops[shard_of(self.spot.place) as usize]
    }
}

/// The generation whose claim a LEAVE that found this word owes, where it owes one.
#[inline(always)]
pub fn owed_by(found: u64) -> Option<u32>
    ensures { result ≡ (if owes_claim found then Some (generation_in found) else None) }
{
    if owes_claim(found) {
        Some(Life::of_word(found).generation)
    } else {
        None
    }
}
