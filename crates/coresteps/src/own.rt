//! A lane's own free places, in the order in which they are handed out.
ghost use Rattle.std.specs.Prelude.{◌≡◌, ◌<◌, ◌≤◌, ◌+◌, ◌-◌, ◌/◌, ℕ, List, [], ◌∷◌, ◌++◌, drop, length, None, Some, ◌≢◌, MatchOption, MatchBool};
ghost use Rattle.keybits.specs.Shapes.{IsShape, shard_places};
ghost use Rattle.keybits.specs.Places.{place_at};
ghost use Rattle.traces.specs.Books.{page_places};
ghost use Rattle.coresteps.specs.OwnLists.{IsOwnList, own_places, unused_places, next_in_ring};

use keybits::{MOST_LANES, PAGE_NUMBERS, Place, SHARD_NUMBERS, Shape};

/// A lane's own free places, in the order in which they are handed out: those of the page opened last that were never
/// handed out, then those of a ring, and last the one that the step under way reclaimed. The ring itself, with room for
/// each place of the shard, is the lane's and stands beside this.
#[derive(Clone, Copy)]
pub(crate) struct OwnList {
    /// How many pages are opened.
    pub(crate) opened: u32,
    /// The first slot of the page opened last that wasn't handed out.
    pub(crate) unused: u32,
    /// Where the places of the ring begin.
    pub(crate) first: usize,
    /// How many places of the ring there are.
    pub(crate) length: usize,
    /// A place that is not in the ring yet.
    pub(crate) added: Option<u32>,
}

impl OwnList {
    /// No places, and no page opened.
    pub(crate) fn new() -> OwnList
        ensures { result ≡ record { opened = 0; unused = 0; first = 0; length = 0; added = None } }
    {
        OwnList {
            opened: 0,
            unused: 0,
            first: 0,
            length: 0,
            added: None,
        }
    }

    /// Takes the first place.
    pub(crate) fn take(&mut self, shape: &Shape, lane: u32, ring: &[u32]) -> Option<u32>
        requires shape { IsShape shape.now }
        requires lane { lane < shape.now.lanes }
        requires list { IsOwnList shape.now ring.now self.old }
        ensures place { MatchOption result
            ((own_places shape.now lane ring.now self.old ≡ []) × (self.new ≡ self.old))
            (λ place. own_places shape.now lane ring.now self.old ≡ place ∷ own_places shape.now lane ring.now self.new) }
        ensures list { IsOwnList shape.now ring.now self.new }
        ensures opened { self.new.opened ≡ self.old.opened }
        ensures settled { self.old.added ≡ None → self.new.added ≡ None }
    {
        if let Some(place) = self.take_unused(shape, lane) {
            return Some(place);
        }
        if self.length == 0 {
            return self.added.take();
        }
        let place = ring[self.first];
        self.first = after(self.first, ring.len());
        self.length -= 1;
        Some(place)
    }

    /// Whether there is no place.
    pub(crate) fn is_empty(&self, shape: &Shape) -> bool
        requires shape { IsShape shape.now }
        requires pages { self.now.opened ≤ shape.now.pages }
        ensures { (lane : ℕ) (ring : List ℕ) → IsOwnList shape.now ring self.now
            → MatchBool result (own_places shape.now lane ring self.now ≡ []) (own_places shape.now lane ring self.now ≢ []) }
    {
        let none_unused = self.opened == 0 || self.unused >= shape.page_size(self.opened - 1);
        none_unused && self.length == 0 && self.added.is_none()
    }

    /// Takes the first place of the page opened last that was never handed out.
    fn take_unused(&mut self, shape: &Shape, lane: u32) -> Option<u32>
        requires shape { IsShape shape.now }
        requires lane { lane < shape.now.lanes }
        requires pages { self.old.opened ≤ shape.now.pages }
        ensures place { MatchOption result
            ((unused_places shape.now lane self.old.opened self.old.unused ≡ []) × (self.new ≡ self.old))
            (λ place. (unused_places shape.now lane self.old.opened self.old.unused ≡ place
            ∷ unused_places shape.now lane self.new.opened self.new.unused)
            × (self.new ≡ record self.old { unused = self.old.unused + 1 })) }
    {
        if self.opened == 0 {
            return None;
        }
        let page = self.opened - 1;
        if self.unused >= shape.page_size(page) {
            return None;
        }
        let place = place_number(lane, page, self.unused);
        self.unused += 1;
        Some(place)
    }

    /// Opens the next page, hands out its first place, and keeps the others; nothing where all pages are opened.
    pub(crate) fn open_page(&mut self, shape: &Shape, lane: u32, ring: &[u32]) -> Option<u32>
        requires shape { IsShape shape.now }
        requires lane { lane < shape.now.lanes }
        requires list { IsOwnList shape.now ring.now self.old }
        requires empty { own_places shape.now lane ring.now self.old ≡ [] }
        ensures place { MatchOption result
            ((shape.now.pages ≤ self.old.opened) × (self.new ≡ self.old))
            (λ place. (self.old.opened < shape.now.pages) × (place ≡ place_at lane self.old.opened 0)
            × (self.new.opened ≡ self.old.opened + 1)
            × (own_places shape.now lane ring.now self.new ≡ drop 1 (page_places shape.now lane self.old.opened))) }
        ensures list { IsOwnList shape.now ring.now self.new }
        ensures settled { self.old.added ≡ None → self.new.added ≡ None }
    {
        let page = self.opened;
        if page >= shape.pages {
            return None;
        }
        self.opened += 1;
        self.unused = 1;
        Some(place_number(lane, page, 0))
    }

    /// Adds a place at the end, where none was added since the last one was put into the ring.
    pub(crate) fn add(&mut self, place: u32)
        ensures { self.new ≡ record self.old { added = Some place } }
    {
        self.added = Some(place);
    }

    /// Puts the place that was added into the ring.
    pub(crate) fn put_added(&mut self, ring: &mut [u32])
        requires length { (place : ℕ) → self.old.added ≡ Some place → self.old.length < length ring.old }
        requires first { self.old.first < length ring.old }
        ensures places { (z : Shape) (lane : ℕ) → own_places z lane ring.new self.new ≡ own_places z lane ring.old self.old }
        ensures added { self.new.added ≡ None }
        ensures opened { self.new.opened ≡ self.old.opened }
        ensures list { (z : Shape) → IsOwnList z ring.old self.old → IsOwnList z ring.new self.new }
        ensures ring { length ring.new ≡ length ring.old }
    {
        let Some(place) = self.added.take() else {
            return;
        };
        let mut end = self.first + self.length;
        if end >= ring.len() {
            end -= ring.len();
        }
        ring[end] = place;
        self.length += 1;
    }
}

/// The number after this one in a ring of this length.
fn after(at: usize, length: usize) -> usize
    requires { at < length }
    ensures { result ≡ next_in_ring length at }
{
    if at + 1 == length { 0 } else { at + 1 }
}

/// The number of a lane's place.
fn place_number(lane: u32, page: u32, slot: u32) -> u32
    requires lane { lane < MOST_LANES }
    requires page { page < SHARD_NUMBERS / PAGE_NUMBERS }
    requires slot { slot < PAGE_NUMBERS }
    ensures { result ≡ place_at lane page slot }
{
    let place = Place {
        shard: lane as u8,
        page: page as u8,
        slot: slot as u16,
    };
    place.number()
}
