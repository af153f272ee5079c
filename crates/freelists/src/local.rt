//! The free places of a lane.
ghost use Rattle.std.specs.Prelude.{◌≡◌, ◌<◌, ◌≤◌};
ghost use Rattle.freelists.specs.Queues.{next_in_ring, IsEnd};
ghost use Rattle.freelists.specs.Shards.{most_places};

use crate::shard::{Shard, place_of_word};
use keybits::{MOST_LANES, Place, link_to};
use std::alloc::Global;
use std::marker::Model;

/// The free places of a lane: its own list, first in first out, and beside it the first place of the chain that it took
/// from its stacks.
///
/// The own list stands in a ring with room for each place of the shard, so that nothing but `new` takes memory: a
/// contract sees the room of the ring beside the places, and no call changes it.
#[derive(Drop)]
pub struct LocalFree {
    shard: Shard,
    // The numbers of the list's places stand in a row from the first on, and behind the end at the start.
    ring: Vec<u32>,
    // Where the first place of the list stands.
    first: usize,
    // How many places the list has.
    count: usize,
    // The first place of the taken chain, where one hangs.
    chain: Option<Place>,
}

impl Model for LocalFree {
    ghost use Rattle.std.specs.Prelude.{◌≡◌, ◌<◌, length};
    ghost use Rattle.keybits.specs.Shapes.{shard_places};
    ghost use Rattle.freelists.specs.Shards.{IsShardOf};
    ghost use Rattle.std.specs.Vec.{vec_capacity};
    ghost use Rattle.freelists.specs.Queues.{FreePlaces, AreOwn, HangsApart, listed};

    ghost Value = { FreePlaces };

    ghost view = { λ f. record {
      shard = f.shard.number;
      shape = f.shard.shape;
      own = listed f.ring.items f.first f.count;
      chain = f.chain;
      room = vec_capacity f.ring;
    } };

    ghost invariant = { λ f. IsShardOf f.shard.number f.shard.shape
        × (length f.ring.items ≡ shard_places f.shard.shape)
        × (f.first < shard_places f.shard.shape)
        × AreOwn f.shard.number f.shard.shape (listed f.ring.items f.first f.count)
        × HangsApart f.shard.number f.shard.shape (listed f.ring.items f.first f.count) f.chain };
}

impl LocalFree {
    ghost use Rattle.std.specs.Prelude.{◌≡◌, ◌<◌, ◌≤◌, ◌↔◌, List, [], ◌∷◌, ◌++◌, length, Contains, Some, None, IsSome, IsNone, IfSome, option_to_list};
    ghost use Rattle.keybits.specs.declared.place.Place.{Place};
    ghost use Rattle.keybits.specs.Places.{number_of};
    ghost use Rattle.keybits.specs.Shapes.{IsShape, shard_places};
    ghost use Rattle.keybits.specs.Links.{link_to};
    ghost use Rattle.freelists.specs.Shards.{shape_of, IsOwn, place_numbered};
    ghost use Rattle.freelists.specs.Queues.{AreFree, IsAway, GoesOnBy};

    /// No free places of a shard from 0 to 63 and no chain, with room for all its places. The first page has 1, 2, 4,
    /// 8, 16, 32 or 64 places, and there are 1 to 16 pages. None where memory was refused.
    pub fn new(alloc: Global, shard: u8, first_page: u32, pages: u32) -> Option<LocalFree>
        requires shard { shard < MOST_LANES }
        requires shape { IsShape (shape_of first_page pages) }
        ensures empty { IfSome result (λ free. free ≡ record {
          shard = shard;
          shape = shape_of first_page pages;
          own = [];
          chain = None;
          room = free.room;
        }) }
        ensures places { IfSome result AreFree }
    {
        let shard = Shard::new(shard, first_page, pages);
        let places = shard.shape.shard_places() as usize;
        let ring = vec![in alloc; 0; places].ok()?;
        Some(LocalFree {
            shard,
            ring,
            first: 0,
            count: 0,
            chain: None,
        })
    }

    /// Puts an own place, which is neither on the own list nor the chain's first, at the end of the own list.
    #[inline]
    pub fn push(&mut self, place: Place)
        requires { IsAway self.old place }
        ensures pushed { self.new ≡ record self.old { own = self.old.own ++ place ∷ [] } }
        ensures places { AreFree self.new }
    {
        let number = self.shard.number_of(place);
        self.push_number(number);
    }

    /// The same of the place of this number.
    #[inline]
    pub fn push_number(&mut self, number: u32)
        requires { IsAway self.old (place_numbered number) }
        ensures pushed { self.new ≡ record self.old { own = self.old.own ++ place_numbered number ∷ [] } }
        ensures places { AreFree self.new }
    {
        let end = behind(self.first, self.count, self.ring.len());
        self.ring[end] = number;
        self.count += 1;
    }

    /// Takes the place off the own list that was pushed first, and answers it, which may be pushed again. None where
    /// the list is empty, which changes nothing.
    #[inline]
    pub fn pop(&mut self) -> Option<Place>
        ensures some { IsSome result ↔ (0 < length self.old.own) }
        ensures first { self.old.own ≡ option_to_list result ++ self.new.own }
        ensures rest { self.new ≡ record self.old { own = self.new.own } }
        ensures away { IfSome result (IsAway self.new) }
        ensures places { AreFree self.new }
    {
        let number = self.pop_number()?;
        Some(Place::of_number(number))
    }

    /// The same, which answers the place's number.
    #[inline]
    pub fn pop_number(&mut self) -> Option<u32>
        ensures none { IsNone result → (self.old.own ≡ []) × (self.new ≡ self.old) }
        ensures first { IfSome result (λ number. self.old.own ≡ place_numbered number ∷ self.new.own) }
        ensures rest { self.new ≡ record self.old { own = self.new.own } }
        ensures away { IfSome result (λ number. IsAway self.new (place_numbered number)) }
        ensures places { AreFree self.new }
    {
        if self.count == 0 {
            return None;
        }
        let number = self.ring[self.first];
        self.first = after(self.first, self.ring.len());
        self.count -= 1;
        Some(number)
    }

    /// How many places the own list has. Those of a chain don't count.
    #[inline]
    pub fn len(&self) -> usize
        ensures len { result ≡ length self.now.own }
        ensures within { result ≤ shard_places self.now.shape }
        ensures places { AreFree self.now }
    {
        self.count
    }

    /// Hangs up a taken chain by its first place. No chain hangs yet, and the place is an own one that isn't on the own
    /// list.
    #[inline]
    pub fn hang(&mut self, place: Place)
        requires free { self.old.chain ≡ None }
        requires away { IsAway self.old place }
        ensures hung { self.new ≡ record self.old { chain = Some place } }
        ensures places { AreFree self.new }
    {
        self.chain = Some(place);
    }

    /// The first place of the taken chain, where one hangs.
    #[inline]
    pub fn chain(&self) -> Option<Place>
        ensures first { result ≡ self.now.chain }
        ensures places { AreFree self.now }
    {
        self.chain
    }

    /// Takes the first place off the chain that hangs, and answers it. `link` is the link word of that place: the chain
    /// goes on at the place that it stands for, or ends where it is 0.
    ///
    /// The link is 0, or stands for a place of the shard that is neither the chain's first place nor on the own list.
    #[inline]
    pub fn follow(&mut self, link: u64) -> Place
        requires chain { IsSome self.old.chain }
        requires link { GoesOnBy self.old link }
        ensures first { self.old.chain ≡ Some result }
        ensures ends { link ≡ 0 → self.new.chain ≡ None }
        ensures goes_on { (next : Place) → IsOwn self.old.shard self.old.shape next
            → link ≡ link_to (number_of next) → self.new.chain ≡ Some next }
        ensures rest { self.new ≡ record self.old { chain = self.new.chain } }
        ensures places { AreFree self.new }
    {
        let place = self.chain.unwrap();
        self.chain = if link == 0 {
            None
        } else {
            Some(place_of_word(self.shard.number, link))
        };
        place
    }
}

/// The position after this one in a ring of this length.
#[inline]
fn after(at: usize, length: usize) -> usize
    requires { at < length }
    ensures { result ≡ next_in_ring length at }
{
    if at + 1 == length { 0 } else { at + 1 }
}

/// The position in a ring of this length that is so many behind another, by less than once round.
#[inline]
fn behind(first: usize, count: usize, length: usize) -> usize
    requires first { first < length }
    requires count { count < length }
    requires small { length ≤ most_places }
    ensures end { IsEnd length first count result }
    ensures below { result < length }
{
    let end = first + count;
    if end < length { end } else { end - length }
}
