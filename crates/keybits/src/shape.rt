//! Shapes of pools: their limits, and the places that they have.
ghost use Rattle.std.specs.Prelude.{◌↔◌, IsTrue};
ghost use Rattle.keybits.specs.Shapes.{IsFirstPage};

use crate::place::{page_of, shard_of, slot_of};
use std::error::Error;
use std::fmt;

/// The most lanes of a shape of the wide limits.
pub const MOST_LANES: u32 = 64;

/// The most guests of a checked shape.
pub const MOST_GUESTS: u32 = 268_435_456;

/// The most lanes of a shape of the narrow limits.
pub const NARROW_LANES: u32 = 16;

/// The most places that the first page of a checked shape has.
pub const LARGEST_FIRST_PAGE: u32 = 64;

/// The most pages of a shape of the wide limits.
pub const MOST_PAGES: u32 = 16;

/// The most places of a page, which a slot's bits in a key have room for.
pub const MOST_PAGE_PLACES: u32 = 4096;

/// The most pages of a shape of the narrow limits.
pub const NARROW_PAGES: u32 = 6;

/// The greatest tag of a checked shape.
pub const GREATEST_TAG: u32 = 255;

/// How large a pool is. Its limits are the narrow ones of `Shape::check` for scripts and histories, and the wide ones of
/// `Shape::check_wide` for a running pool. A checked shape is one that is within the wide limits.
#[derive(Clone, Copy, Debug, PartialEq, Eq)]
pub struct Shape {
    /// How many lanes there are; lane i owns shard i.
    pub lanes: u32,
    /// How many places the first page of a shard has. Each further page is twice as large as the one before, up to 4096
    /// places.
    pub first_page: u32,
    /// How many pages a shard has.
    pub pages: u32,
    /// The generation after which a place retires.
    pub last_generation: u32,
    /// The pool's tag, which each of its keys carries.
    pub tag: u32,
    /// How many guests there are: callers that own no shard. Their numbers follow those of the lanes.
    pub guests: u32,
}

/// What is wrong with a shape: the first of its fields, in this order, that is outside its limits. Its numbers and its
/// text are those of the narrow limits.
#[derive(Clone, Copy, Debug, PartialEq, Eq)]
pub enum ShapeFault {
    /// The lanes are not from 1 to 16.
    Lanes,
    /// The first page has not 1, 2, 4, 8, 16, 32 or 64 places.
    FirstPage,
    /// The pages are not from 1 to 6.
    Pages,
    /// The last generation is 0.
    Generation,
    /// The tag is over 255.
    Tag,
}

impl ShapeFault {
    ghost use Rattle.std.specs.Prelude.{◌≡◌};
    ghost use Rattle.keybits.specs.ShapeFaults.{shape_fault_number};
    ghost use Rattle.keybits.specs.FaultNames.{shape_fault_name};

    /// The fault's number: 1 for the lanes, 2 for the first page, 3 for the pages, 4 for the last
    /// generation and 6 for the tag.
    pub fn number(&self) -> u32
        ensures { result ≡ shape_fault_number self.now }
    {
        match self {
            ShapeFault::Lanes => 1,
            ShapeFault::FirstPage => 2,
            ShapeFault::Pages => 3,
            ShapeFault::Generation => 4,
            ShapeFault::Tag => 6,
        }
    }

    /// The fault's name.
    pub fn name(&self) -> &'static str
        ensures { result.now ≡ shape_fault_name self.now }
    {
        match self {
            ShapeFault::Lanes => "Lanes",
            ShapeFault::FirstPage => "FirstPage",
            ShapeFault::Pages => "Pages",
            ShapeFault::Generation => "Generation",
            ShapeFault::Tag => "Tag",
        }
    }
}

impl fmt::Display for ShapeFault {
    fn fmt<W: fmt::Write>(&self, f: &mut fmt::Formatter<W>) -> fmt::Result {
        f.write_str(match self {
            ShapeFault::Lanes => "the number of lanes is not from 1 to 16",
            ShapeFault::FirstPage => "the size of the first page is not 1, 2, 4, 8, 16, 32 or 64",
            ShapeFault::Pages => "the number of pages is not from 1 to 6",
            ShapeFault::Generation => "the last generation is 0",
            ShapeFault::Tag => "the tag is over 255",
        })
    }
}

impl Error for ShapeFault {}

impl Shape {
    ghost use Rattle.std.specs.Prelude.{◌≡◌, ℕ, ◌^◌, ◌<◌, ◌≤◌, ◌↔◌, IsTrue, IsOk, IsErrOf};
    ghost use Rattle.keybits.specs.declared.shape.ShapeFault.{ShapeFault};
    ghost use Rattle.keybits.specs.Places.{shard_of};
    ghost use Rattle.keybits.specs.Shapes.{IsShape, IsNarrow, IsInPage, page_size, page_start, shard_places, all_places, is_place, index_of, position_of, callers};
    ghost use Rattle.keybits.specs.declared.shape.TheConstants.{MOST_GUESTS};
    ghost use Rattle.keybits.specs.ShapeFaults.{IsWithin, IsFirstOutside, IsFirstFault, IsFirstWideFault};

    /// Tests the fields by the narrow limits, in this order: the lanes are from 1 to 16, the first page has 1, 2, 4, 8,
    /// 16, 32 or 64 places, the pages are from 1 to 6, the last generation is at least 1, the tag is at most 255. The
    /// error names the first field that is outside its limits.
    pub fn check(&self) -> Result<(), ShapeFault>
        requires { self.now.guests ≡ 0 }
        ensures ok { IsOk result ↔ IsNarrow self.now }
        ensures err { (fault : ShapeFault) → IsErrOf result fault ↔ IsFirstFault self.now fault }
    {
        self.check_within(NARROW_LANES, NARROW_PAGES)
    }

    /// Tests the fields as `check` does, by the wide limits: the lanes are from 1 to 64 and the pages from 1 to 16.
    pub fn check_wide(&self) -> Result<(), ShapeFault>
        requires { self.now.guests ≤ MOST_GUESTS }
        ensures ok { IsOk result ↔ IsShape self.now }
        ensures err { (fault : ShapeFault) → IsErrOf result fault ↔ IsFirstWideFault self.now fault }
    {
        self.check_within(MOST_LANES, MOST_PAGES)
    }

    /// Tests the fields, where there may be so many lanes and pages.
    fn check_within(&self, most_lanes: u32, most_pages: u32) -> Result<(), ShapeFault>
        ensures ok { IsOk result ↔ ((fault : ShapeFault) → IsWithin most_lanes most_pages self.now fault) }
        ensures err { (fault : ShapeFault) → IsErrOf result fault ↔ IsFirstOutside most_lanes most_pages self.now fault }
    {
        if self.lanes == 0 || self.lanes > most_lanes {
            return Err(ShapeFault::Lanes);
        }
        if !is_first_page(self.first_page) {
            return Err(ShapeFault::FirstPage);
        }
        if self.pages == 0 || self.pages > most_pages {
            return Err(ShapeFault::Pages);
        }
        if self.last_generation == 0 {
            return Err(ShapeFault::Generation);
        }
        if self.tag > GREATEST_TAG {
            return Err(ShapeFault::Tag);
        }
        Ok(())
    }

    /// How many callers there are: lanes and guests.
    #[inline]
    pub fn callers(&self) -> u32
        requires { IsShape self.now }
        ensures { result ≡ callers self.now }
    {
        self.lanes + self.guests
    }

    /// How many places a page of a checked shape has.
    #[inline]
    pub fn page_size(&self, page: u32) -> u32
        requires shape { IsShape self.now }
        requires page { page < self.now.pages }
        ensures { result ≡ page_size self.now page }
    {
        (self.first_page << page).min(MOST_PAGE_PLACES)
    }

    /// How many places each shard of a checked shape has.
    #[inline]
    pub fn shard_places(&self) -> u32
        requires { IsShape self.now }
        ensures { result ≡ shard_places self.now }
    {
        self.places_before(self.pages)
    }

    /// How many places a checked shape has.
    #[inline]
    pub fn all_places(&self) -> usize
        requires { IsShape self.now }
        ensures { result ≡ all_places self.now }
    {
        (self.lanes * self.shard_places()) as usize
    }

    /// Whether this is the number of a place of the shape. The shape need not be checked.
    #[inline]
    pub fn is_place(&self, place: u32) -> bool
        ensures { result ≡ is_place self.now place }
    {
        let page = page_of(place);
        shard_of(place) < self.lanes
            && page < self.pages
            && u64::from(slot_of(place)) < self.slots(page)
    }

    /// Which place of its shard a place of a checked shape is, counted from 0.
    #[inline]
    pub fn index(&self, place: u32) -> usize
        requires shape { IsShape self.now }
        requires place { IsTrue (is_place self.now place) }
        ensures index { result ≡ index_of self.now place }
        ensures below { result < shard_places self.now }
    {
        (self.places_before(page_of(place)) + slot_of(place)) as usize
    }

    /// Which place of all a place of a checked shape is, counted from 0, shard after shard.
    #[inline]
    pub fn position(&self, place: u32) -> usize
        requires shape { IsShape self.now }
        requires place { IsTrue (is_place self.now place) }
        ensures position { result ≡ position_of self.now place }
        ensures below { result < all_places self.now }
    {
        (shard_of(place) * self.shard_places()) as usize + self.index(place)
    }

    /// The place of a checked shape that has this position. It is the inverse of `position`.
    pub fn place_at(&self, position: usize) -> u32
        requires shape { IsShape self.now }
        requires position { position < all_places self.now }
        ensures place { IsTrue (is_place self.now result) }

        // Each the other's inverse.
        ensures position { position_of self.now result ≡ position }
        ensures inverse { (place : ℕ) → IsTrue (is_place self.now place)
            → position_of self.now place ≡ position → result ≡ place }
    {
        let position = position as u32;
        let places = self.shard_places();
        self.place_in_shard(position / places, position % places)
    }

    /// The place of a shard of a checked shape that has this index.
    fn place_in_shard(&self, shard: u32, index: u32) -> u32
        requires shape { IsShape self.now }
        requires shard { shard < self.now.lanes }
        requires index { index < shard_places self.now }
        ensures place { IsTrue (is_place self.now result) }
        ensures shard { shard_of result ≡ shard }
        ensures index { index_of self.now result ≡ index }
    {
        let page = self.page_at(index);
        (shard << 16) + (page << 12) + (index - self.places_before(page))
    }

    /// The page of a shard of a checked shape in which the place with this index is.
    fn page_at(&self, index: u32) -> u32
        requires shape { IsShape self.now }
        requires index { index < shard_places self.now }
        ensures { IsInPage self.now.first_page self.now.pages result index }
    {
        let past = index + self.first_page;
        if past < 2 * MOST_PAGE_PLACES {
            (past / self.first_page).ilog2()
        } else {
            // Pages have 4096 = 2^12 places from number 12 - log2(first_page) on, and 11 is one less.
            past / MOST_PAGE_PLACES + 11 - self.first_page.ilog2()
        }
    }

    /// How many places of a shard of a checked shape come before a page.
    #[inline]
    fn places_before(&self, page: u32) -> u32
        requires shape { IsShape self.now }
        requires page { page ≤ MOST_PAGES }
        ensures { result ≡ page_start self.now page }
    {
        let size = self.first_page << page;
        if size <= MOST_PAGE_PLACES {
            size - self.first_page
        } else {
            (page + self.first_page.ilog2() - 11) * MOST_PAGE_PLACES - self.first_page
        }
    }

    /// How many slots a page has; the shape need not be checked.
    #[inline]
    fn slots(&self, page: u32) -> u64
        requires { page < 16 }
        ensures { result ≡ page_size self.now page }
    {
        (u64::from(self.first_page) << page).min(u64::from(MOST_PAGE_PLACES))
    }
}

/// Whether a first page may have this size.
fn is_first_page(size: u32) -> bool
    ensures { IsTrue result ↔ IsFirstPage size }
{
    size <= LARGEST_FIRST_PAGE && size.is_power_of_two()
}
