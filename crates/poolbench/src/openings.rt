//! Pools that are opened and closed in each round.
ghost use Rattle.std.specs.Prelude.{◌≡◌};
ghost use Rattle.shardpool.specs.Lanes.{Owns, SameLane};

use crate::pools::put;
use keybits::{LARGEST_FIRST_PAGE, NARROW_LANES, NARROW_PAGES, Shape};
use shardpool::{Lane, Pool, close, open};
use slotcell::ByteBuf;
use std::alloc::Global;

/// The largest narrow pool.
pub const LARGEST: Shape = Shape {
    lanes: NARROW_LANES,
    first_page: LARGEST_FIRST_PAGE,
    pages: NARROW_PAGES,
    last_generation: u32::MAX,
    tag: 0,
    guests: 0,
};

/// The largest pool of one lane.
pub const ONE_LANE: Shape = Shape {
    lanes: 1,
    first_page: LARGEST_FIRST_PAGE,
    pages: NARROW_PAGES,
    last_generation: u32::MAX,
    tag: 0,
    guests: 0,
};

/// How many places a shard of these shapes has.
pub const LARGEST_SHARD: u32 = LARGEST_FIRST_PAGE * ((1 << NARROW_PAGES) - 1);

/// How many objects a lane of these shapes puts till its last page is opened: one for each place of the pages before
/// it, and one more.
pub const TILL_LAST_PAGE: u32 = LARGEST_FIRST_PAGE * ((1 << (NARROW_PAGES - 1)) - 1) + 1;

/// Opens a pool of this shape, puts so many objects by its last lane, and closes it. Answers how many places it then
/// had with an object, or in pages that were never opened: 0 where it can't be opened.
pub fn open_and_close(alloc: Global, shape: Shape, objects: u32) -> u32
    requires { shape.guests ≡ 0 }
{
    let Ok((pool, mut lanes)) = open(alloc, shape) else {
        return 0;
    };
    let Some(mut lane) = lanes.pop() else {
        return 0;
    };
    put_many(&pool, &mut lane, objects);
    lanes.push_reserved(lane);
    let census = close(pool, lanes);
    census.present.saturating_add(census.unopened)
}

/// Puts so many objects, as far as there are places and memory.
fn put_many(pool: &Pool<ByteBuf>, lane: &mut Lane<ByteBuf>, objects: u32)
    requires { Owns pool.now lane.old }
    ensures { SameLane lane.old lane.new }
{
    for _ in 0..objects {
        put(pool, lane);
    }
}
