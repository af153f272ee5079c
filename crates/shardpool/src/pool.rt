//! A pool and its lanes: what each has.
ghost use Rattle.std.specs.Prelude.{◌≡◌, ◌+◌, ◌<◌, ◌≤◌, ◌↔◌, true, None, IfSome, IsSome};
ghost use Rattle.keybits.specs.Keys.{is_key, place_of};
ghost use Rattle.poolsteps.specs.Layout.{slot_start};
ghost use Rattle.poolsteps.specs.declared.layout.TheConstants.{SHARDS_APART};
ghost use Rattle.poolsteps.specs.Grids.{IsSpot};
ghost use Rattle.keybits.specs.Shapes.{IsShape, shard_places};
ghost use Rattle.keybits.specs.SameShapes.{IsShape-prop};
ghost use Rattle.shardpool.specs.Rows.{pages_code, starts_row};

use crate::closing::HandRow;
use freelists::{LocalFree, Pages};
use keybits::{MOST_PAGES, PAGE_NUMBERS, SHARD_NUMBERS, Shape, place_of, shard_of};
use poolsteps::{BYTES_APART, Directory, Grid, Hand, Objects, SHARDS_APART, Slot, Spot, Tally};
use slotcell::Clear;
use std::alloc::Global;
use std::marker::Model;

/// A pool of objects that are cleared and used again in place. Its lanes call it, each from a thread of its own.
#[derive(Drop)]
pub struct Pool<T: Clear> {
    pub(crate) grid: Grid<T>,
    /// The words of all places, in which their objects stand; the rights to them are with the lanes.
    pub(crate) directory: Directory<T>,
    /// Where the states of all lanes go when the pool is closed.
    pub(crate) states: Vec<LaneState<T>>,
    /// Where the lanes' rights to places go then.
    pub(crate) rights: Vec<Objects<T>>,
    pub(crate) alloc: Global,
}

impl<T: Clear> Model for Pool<T> {
    ghost use Rattle.std.specs.Prelude.{◌≡◌, ◌≤◌, []};
    ghost use Rattle.std.specs.Vec.{vec_capacity};
    ghost use Rattle.shardpool.specs.Tokens.{PoolOf};

    ghost Value = { PoolOf };

    ghost view = { λ p. record { table = p.grid.table.shared.table_id; directory = p.grid.objects.ptr; shape = p.grid.shape } };

    ghost invariant = { λ p. (p.states.items ≡ []) × (p.grid.shape.lanes ≤ vec_capacity p.states) × (p.rights.items ≡ [])
        × (p.grid.shape.lanes ≤ vec_capacity p.rights)
        × (p.directory.at ≡ p.grid.objects.ptr) × (p.directory.next ≡ p.directory.count) };
}

impl<T: Clear + Drop> Pool<T> {
    /// The shape that `open` was given.
    pub fn shape(&self) -> Shape
        ensures { result ≡ self.now.shape }
    {
        self.grid.shape
    }

    /// Where a key's place stands. None for a number that is no key of the pool.
    #[inline]
    pub(crate) fn find(&self, key: u64) -> Option<Spot>
        ensures some { IsSome result ↔ is_key self.now.shape key ≡ true }
        ensures spot { IfSome result (λ spot. IsSpot self.now.shape spot (place_of key)) }
    {
        self.grid.find_key(key)
    }
}

/// What a lane has of a place: how many references to which of its keys, and the share under them. It has no bytes: proofs
/// alone know it.
#[derive(Drop)]
pub(crate) struct HeldKey<T> {
    /// Of the last key of the place to which the lane had a reference; of generation 0, which no key has, before the first.
    pub(crate) tally: Tally,
    pub(crate) share: Slot<T>,
}

impl<T> Model for HeldKey<T> {
    ghost use Rattle.shardpool.specs.HeldKeys.{HeldKey as Shown, held_key_code};

    ghost Value = { Shown T };

    ghost coded = { held_key_code T.code };

    ghost view = { λ h. record { generation = h.tally.generation; count = h.tally.count; share = h.share } };
}

impl<T> HeldKey<T> {
    /// No reference.
    pub(crate) fn none() -> HeldKey<T>
        ensures { result ≡ record { generation = 0; count = 0; share = None } }
    {
        HeldKey {
            tally: Tally::none(),
            share: Slot::empty(),
        }
    }
}

/// What a lane keeps beside its seat.
#[derive(Drop)]
pub(crate) struct LaneState<T> {
    /// The shape of the pool.
    pub(crate) shape: Shape,
    /// The lane's number.
    pub(crate) number: u32,
    /// How many references the lane has.
    pub(crate) references: u32,
    /// A row for each place of the pool, where the place stands.
    pub(crate) rows: Vec<HeldKey<T>>,
    /// For each shard the word that the lane last pushed there.
    pub(crate) last_pushed: Vec<u64>,
    /// The free places of the lane's own shard.
    pub(crate) free: LocalFree,
    /// The pages of the lane's own shard.
    pub(crate) pages: Pages,
    /// The lane's rights to places, and the objects of its own shard that wait with it.
    pub(crate) objects: Objects<T>,
    /// Where the places of the pool stand.
    pub(crate) places: Places,
    pub(crate) alloc: Global,
}

/// The owner of a shard. A thread that has one calls the pool with it.
#[derive(Drop)]
pub struct Lane<T: Clear> {
    pub(crate) hand: Hand<T>,
    pub(crate) ahead: CachePadded,
    pub(crate) state: LaneState<T>,
    pub(crate) row: HandRow<T>,
    pub(crate) behind: CachePadded,
}

impl<T: Clear> Model for Lane<T> {
    ghost use Rattle.std.specs.Prelude.{◌≡◌, []};
    ghost use Rattle.shardpool.specs.Tokens.{LaneOf};
    ghost use Rattle.shardpool.specs.LaneStates.{Fits};

    ghost Value = { LaneOf };

    ghost view = { λ l. record {
      table = l.hand.table_id;
      directory = l.state.objects.directory;
      shape = l.state.shape;
      number = l.state.number;
      book = l.hand.me.0;
      free = l.state.free;
      pages = l.state.pages;
    } };

    ghost invariant = { λ l. (l.hand.me.1 ≡ []) × Fits T.content T.room l.state.shape l.hand.me.0 l.state };
}

/// Where the places of a pool stand: alike in each shard.
#[derive(Drop)]
pub(crate) struct Places {
    /// The shape of the pool.
    pub(crate) shape: Shape,
    /// Which pools have each place at the same number: those of this code.
    pub(crate) code: u32,
    /// How far the places of a shard stand from those of the next.
    pub(crate) apart: u32,
    /// Where each page begins among the places of its shard. (Behind the last, zeros.)
    pub(crate) starts: [u32; MOST_PAGES as usize],
    ghost checked: { IsShape shape } by { IsShape-prop shape },
    ghost code_is: { code ≡ pages_code shape },
    ghost apart_is: { apart ≡ shard_places shape + SHARDS_APART },
    ghost starts_are: { starts ≡ starts_row shape shape.pages },
}

impl Places {
    ghost use Rattle.std.specs.Prelude.{◌≡◌, ◌<◌, true};
    ghost use Rattle.keybits.specs.Places.{shard_of};
    ghost use Rattle.keybits.specs.Shapes.{is_place};
    ghost use Rattle.poolsteps.specs.Layout.{slot_start, slot_row, shard_start};

    /// The places of a pool of this shape.
    pub(crate) fn of(shape: &Shape) -> Places
        requires { IsShape shape.now }
        ensures { result.shape ≡ shape.now }
    {
        Places {
            shape: *shape,
            code: 32 * shape.first_page + shape.pages,
            apart: shape.shard_places() + SHARDS_APART as u32,
            starts: page_starts(shape),
        }
    }

    /// Where a place of the pool stands.
    #[inline]
    pub(crate) fn start(&self, place: u32) -> u32
        requires { is_place self.now.shape place ≡ true }
        ensures start { result ≡ slot_start self.now.shape place }
        ensures below { result < slot_row self.now.shape }
    {
        self.start_from(shard_of(place) * self.apart, place)
    }

    /// Where a place of the pool stands whose shard begins there.
    #[inline]
    pub(crate) fn start_from(&self, first: u32, place: u32) -> u32
        requires place { is_place self.now.shape place ≡ true }
        requires first { first ≡ shard_start self.now.shape (shard_of place) }
        ensures start { result ≡ slot_start self.now.shape place }
        ensures below { result < slot_row self.now.shape }
    {
        let page = place % SHARD_NUMBERS / PAGE_NUMBERS;
        first + self.starts[page as usize] + place % PAGE_NUMBERS
    }
}

/// Where each page begins among the places of its shard, and zeros behind the last.
fn page_starts(shape: &Shape) -> [u32; MOST_PAGES as usize]
    requires { IsShape shape.now }
    ensures { result ≡ starts_row shape.now shape.now.pages }
{
    let mut starts = [0; MOST_PAGES as usize];
    for page in 0..shape.pages {
        starts[page as usize] = shape.index(page * PAGE_NUMBERS) as u32;
    }
    starts
}

/// So many bytes, at an end of what a lane writes in each call.
#[derive(Drop)]
pub(crate) struct CachePadded {
    unused: [u64; BYTES_APART / 8],
}

impl CachePadded {
    pub(crate) fn new() -> CachePadded {
        CachePadded {
            unused: [0; BYTES_APART / 8],
        }
    }
}
