//! A shard, and its places by their indexes.
ghost use Rattle.std.specs.Prelude.{◌≡◌, ◌<◌, ◌≤◌};
ghost use Rattle.keybits.specs.Places.{number_of};
ghost use Rattle.keybits.specs.Links.{linked_place};
ghost use Rattle.freelists.specs.Shards.{place_numbered};

use keybits::{MOST_LANES, Place, SHARD_NUMBERS, Shape, linked_place};

/// A shard, with a shape that tells the sizes of its pages.
#[derive(Clone, Copy)]
pub(crate) struct Shard {
    /// The shard's number, 0 to 63.
    pub(crate) number: u8,
    /// The shape. What it says beside the pages is the same for each shard.
    pub(crate) shape: Shape,
}

impl Shard {
    ghost use Rattle.std.specs.Prelude.{◌≡◌, ◌<◌};
    ghost use Rattle.keybits.specs.declared.place.Place.{Place};
    ghost use Rattle.keybits.specs.Places.{number_of};
    ghost use Rattle.keybits.specs.Shapes.{index_of, shard_places};
    ghost use Rattle.freelists.specs.Shards.{shape_of, IsShardOf, IsOwn, place_numbered};

    /// The shard of this number, whose first page has this many places, and which has this many pages.
    #[inline]
    pub(crate) fn new(number: u8, first_page: u32, pages: u32) -> Shard
        ensures { result ≡ record { number = number; shape = shape_of first_page pages } }
    {
        let shape = Shape {
            lanes: MOST_LANES,
            first_page,
            pages,
            last_generation: 1,
            tag: 0,
            guests: 0,
        };
        Shard { number, shape }
    }

    /// The number of an own place.
    #[inline]
    pub(crate) fn number_of(&self, place: Place) -> u32
        requires shard { IsShardOf self.now.number self.now.shape }
        requires own { IsOwn self.now.number self.now.shape place }
        ensures number { result ≡ number_of place }
        ensures back { place_numbered result ≡ place }
    {
        place.number()
    }

    /// Which of the shard's places an own place is, counted from 0.
    #[inline]
    pub(crate) fn index(&self, place: Place) -> usize
        requires shard { IsShardOf self.now.number self.now.shape }
        requires own { IsOwn self.now.number self.now.shape place }
        ensures index { result ≡ index_of self.now.shape (number_of place) }
        ensures below { result < shard_places self.now.shape }
    {
        self.shape.index(place.number())
    }

    /// The own place that has this index. It is the inverse of `index`.
    #[inline]
    pub(crate) fn place(&self, index: usize) -> Place
        requires shard { IsShardOf self.now.number self.now.shape }
        requires index { index < shard_places self.now.shape }
        ensures own { IsOwn self.now.number self.now.shape result }
        ensures index { index_of self.now.shape (number_of result) ≡ index }
        ensures inverse { (place : Place) → IsOwn self.now.number self.now.shape place
            → index_of self.now.shape (number_of place) ≡ index → result ≡ place }
    {
        let before = u32::from(self.number) * self.shape.shard_places();
        Place::of_number(self.shape.place_at(before as usize + index))
    }
}

/// The place of a shard that a link or stack word from 1 to 65536 stands for.
#[inline]
pub(crate) fn place_of_word(shard: u8, word: u64) -> Place
    requires shard { shard < MOST_LANES }
    requires place { 1 ≤ word }
    requires in_range { word ≤ SHARD_NUMBERS }
    ensures place { result ≡ place_numbered (linked_place shard word) }
    ensures number { number_of result ≡ linked_place shard word }
    ensures shard { result.shard ≡ shard }
{
    Place::of_number(linked_place(u32::from(shard), word))
}
