//! Where a key's place stands, and its words and slots; and the word at which a lane looks.
ghost use Rattle.std.specs.Prelude.{◌≡◌, ◌/◌, ◌↔◌, true, IfSome, IsSome, ◌<◌, None, Option, Some, ◌-◌};
ghost use Rattle.keybits.specs.declared.step.Word.TheVariants as words;
ghost use Rattle.poolsteps.specs.Layout.{page_row, index_in, look_word, slot_index};
ghost use Rattle.keybits.specs.declared.place.TheConstants.{PAGE_NUMBERS};
ghost use Rattle.keybits.specs.Shapes.{callers, is_place};
ghost use Rattle.keybits.specs.Keys.{is_key, place_of};
ghost use Rattle.poolsteps.specs.Grids.{IsSpot};

use crate::grid::{Grid, Spot};
use crate::layout::PageRow;
use keybits::{MOST_LANES, PAGE_NUMBERS, place_of};
use slotcell::Clear;

/// How many words stand between two that different lanes change by themselves.
pub(crate) const WORDS_APART: usize = 16;

/// Where the lifecycle words begin: behind the very first word and, as far apart, one for each of the most lanes.
pub(crate) const LIVES_START: usize = WORDS_APART * (1 + MOST_LANES as usize);

/// Where the word stands that a lane looks at.
pub(crate) fn look_word(lane: u32) -> usize
    ensures { result ≡ look_word lane }
{
    WORDS_APART * (1 + (lane % MOST_LANES) as usize)
}

impl<T: Clear> Grid<T> {
    /// Where the words and the slots of a key's place stand. None for a number that is no key of the pool.
    #[inline]
    pub fn find_key(&self, key: u64) -> Option<Spot>
        ensures some { IfSome result (λ spot. IsSpot self.now.shape spot (place_of key)) }
        ensures none { IsSome result ↔ is_key self.now.shape key ≡ true }
    {
        // In front of the first key of its place a number's distance to it wraps, and is longer than any to a key.
        let behind = (key >> 24).wrapping_sub(self.first_key);
        if behind >= u64::from(self.last_generation()) {
            return None;
        }
        self.find(place_of(key))
    }

    /// The last generation of each place. A call, since a proof knows of its answer that it fits 32 bits.
    #[inline]
    fn last_generation(&self) -> u32
        ensures { result ≡ self.now.shape.last_generation }
    {
        self.shape.last_generation
    }

    /// Where the words and the slots of a place stand. None where the pool has no place of this number.
    #[inline]
    pub fn find(&self, place: u32) -> Option<Spot>
        ensures some { IfSome result (λ spot. IsSpot self.now.shape spot place) }
        ensures none { IsSome result ↔ is_place self.now.shape place ≡ true }
    {
        let page = self.pages.get((place / PAGE_NUMBERS) as usize)?;
        if place % PAGE_NUMBERS < page.places {
            Some(self.spot_in(page, place))
        } else {
            None
        }
    }

    /// Where the words and the slots of a place of the pool stand.
    #[inline]
    pub fn spot(&self, place: u32) -> Spot
        requires { is_place self.now.shape place ≡ true }
        ensures { IsSpot self.now.shape result place }
    {
        self.spot_in(&self.pages[(place / PAGE_NUMBERS) as usize], place)
    }

    /// Where the words and the slots of a place stand, by the row of its page.
    #[inline]
    fn spot_in(&self, page: &PageRow, place: u32) -> Spot
        requires place { is_place self.now.shape place ≡ true }
        requires page { page.now ≡ page_row self.now.shape (place / PAGE_NUMBERS) }
        ensures { IsSpot self.now.shape result place }
    {
        Spot {
            place,
            start: page.start + place % PAGE_NUMBERS,
        }
    }

    /// Where the link word of a place stands.
    #[inline]
    pub(crate) fn link_of(&self, spot: Spot) -> usize
        requires { IsSpot self.now.shape spot spot.place }
        ensures { result ≡ index_in self.now.shape (words.Link spot.place) }
    {
        self.links + spot.start as usize
    }

    /// Where the slot of a place and a lane stands.
    #[inline]
    pub(crate) fn slot_of(&self, spot: Spot, number: u32) -> usize
        requires spot { IsSpot self.now.shape spot spot.place }
        requires number { number < callers self.now.shape }
        ensures { result ≡ slot_index self.now.shape spot.place number }
    {
        self.slot_in(self.row, spot, number)
    }

    /// The same, by how many slots stand between those of neighbouring lanes, for who goes over several.
    #[inline]
    pub(crate) fn slot_in(&self, row: usize, spot: Spot, number: u32) -> usize
        requires row { row ≡ self.now.row }
        requires spot { IsSpot self.now.shape spot spot.place }
        requires number { number < callers self.now.shape }
        ensures { result ≡ slot_index self.now.shape spot.place number }
    {
        number as usize * row + spot.start as usize
    }
}
