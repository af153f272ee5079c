//! The pages of a shard.
use crate::shard::Shard;
use keybits::{MOST_LANES, Place};
use std::marker::Model;

/// The pages of a shard: how large they are, which of them are opened, and the number of each place among those of the
/// shard.
///
/// A shard is a row of pages, each twice as large as the one before, which are opened from the lowest on, as in
/// sharded-slab's documentation.
#[derive(Drop)]
pub struct Pages {
    shard: Shard,
    opened: u32,
}

impl Model for Pages {
    ghost use Rattle.std.specs.Prelude.{◌≤◌};
    ghost use Rattle.freelists.specs.Shards.{ShardPages, IsShardOf};

    ghost Value = { ShardPages };

    ghost view = { λ p. record { shard = p.shard.number; shape = p.shard.shape; opened = p.opened } };

    ghost invariant = { λ p. IsShardOf p.shard.number p.shard.shape × (p.opened ≤ p.shard.shape.pages) };
}

impl Pages {
    ghost use Rattle.std.specs.Prelude.{◌≡◌, ◌+◌, ◌<◌, ◌≤◌, ◌↔◌, IsSome, IfSome, IfNone};
    ghost use Rattle.keybits.specs.declared.place.Place.{Place};
    ghost use Rattle.keybits.specs.Places.{number_of};
    ghost use Rattle.keybits.specs.Shapes.{IsShape, page_size, shard_places, index_of};
    ghost use Rattle.freelists.specs.Shards.{shape_of, IsShardOf, IsOwn};

    /// The pages of a shard from 0 to 63, none of them opened. The first page has 1, 2, 4, 8, 16, 32 or 64 places, and
    /// there are 1 to 16 pages.
    pub fn new(shard: u8, first_page: u32, pages: u32) -> Pages
        requires shard { shard < MOST_LANES }
        requires shape { IsShape (shape_of first_page pages) }
        ensures { result ≡ record { shard = shard; shape = shape_of first_page pages; opened = 0 } }
    {
        Pages {
            shard: Shard::new(shard, first_page, pages),
            opened: 0,
        }
    }

    /// How many places a page has.
    #[inline]
    pub fn size(&self, page: u32) -> u32
        requires { page < self.now.shape.pages }
        ensures { result ≡ page_size self.now.shape page }
    {
        self.shard.shape.page_size(page)
    }

    /// How many pages are opened.
    #[inline]
    pub fn opened(&self) -> u32
        ensures opened { result ≡ self.now.opened }
        ensures within { result ≤ self.now.shape.pages }
        ensures limits { IsShardOf self.now.shard self.now.shape }
    {
        self.opened
    }

    /// Opens the lowest unopened page and answers its number. Where all are opened it answers None and changes nothing.
    #[inline]
    pub fn open_next(&mut self) -> Option<u32>
        ensures some { IsSome result ↔ (self.old.opened < self.old.shape.pages) }
        ensures lowest { IfSome result (λ page. page ≡ self.old.opened) }
        ensures opened { IfSome result (λ page. self.new ≡ record self.old { opened = page + 1 }) }
        ensures none { IfNone result (self.new ≡ self.old) }
        ensures limits { IsShardOf self.old.shard self.old.shape }
    {
        if self.opened == self.shard.shape.pages {
            return None;
        }
        let page = self.opened;
        self.opened += 1;
        Some(page)
    }

    /// Which of the shard's places an own place is, counted from 0: first page * (2 to the power page - 1) + slot.
    #[inline]
    pub fn index(&self, place: Place) -> usize
        requires { IsOwn self.now.shard self.now.shape place }
        ensures index { result ≡ index_of self.now.shape (number_of place) }
        ensures below { result < shard_places self.now.shape }
    {
        self.shard.index(place)
    }

    /// The own place that has this index. It is the inverse of `index`.
    pub fn place(&self, index: usize) -> Place
        requires { index < shard_places self.now.shape }
        ensures own { IsOwn self.now.shard self.now.shape result }

        // Each the other's inverse.
        ensures index { index_of self.now.shape (number_of result) ≡ index }
        ensures inverse { (place : Place) → IsOwn self.now.shard self.now.shape place
            → index_of self.now.shape (number_of place) ≡ index → result ≡ place }
    {
        self.shard.place(index)
    }
}
