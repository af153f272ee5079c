//! How the lanes of a pool come into a store's places.
ghost use Rattle.std.specs.Prelude.{◌≡◌, [], All, IfOk, IfErr, IfSome};
ghost use Rattle.std.specs.Vec.Iter.{into_iter_items};
ghost use Rattle.shardpool.specs.Lanes.{Owns, refs};
ghost use Rattle.shardpool.specs.Opened.{AreFirstLanes};
ghost use Rattle.lanestore.specs.Visits.{IsNew};

use crate::closing::taken_out;
use crate::keeper::Keeper;
use crate::place::Post;
use crate::store::Store;
use poolhandle::close_lanes;
use shardpool::{Lane, Pool};
use slotcell::Clear;
use std::alloc::Global;
use std::vec::IntoIter;

/// The pool with its lanes in places. None where memory was refused: the pool is then closed again.
pub(crate) fn stored<T: Clear + Drop>(
    alloc: Global,
    pool: Pool<T>,
    lanes: Vec<Lane<T>>,
) -> Option<Store<T>>
    requires lanes { AreFirstLanes pool lanes.items }
    requires alone { pool.shape.guests ≡ 0 }
    ensures { IfSome result (λ store. store.pool ≡ pool) }
{
    let Some(rows) = rows_for(alloc, lanes.len()) else {
        drop(close_lanes(pool, lanes));
        return None;
    };
    each_stored(alloc, pool, lanes, rows)
}

/// A row for the places of all lanes, and one for lanes that are given back.
#[derive(Drop)]
struct Rows<T: Clear> {
    places: Vec<Post<T>>,
    lanes: Vec<Lane<T>>,
}

/// Empty rows with room for so many lanes. None where memory was refused.
fn rows_for<T: Clear + Drop>(alloc: Global, count: usize) -> Option<Rows<T>>
    ensures { IfSome result (λ rows. (rows.places.items ≡ []) × (rows.lanes.items ≡ [])) }
{
    let places = Vec::with_capacity(alloc, count).ok()?;
    let lanes = Vec::with_capacity(alloc, count).ok()?;
    Some(Rows { places, lanes })
}

/// The pool with each of its lanes in a place, in empty rows that have room for them. None where memory was refused: the
/// pool is then closed again.
fn each_stored<T: Clear + Drop>(
    alloc: Global,
    pool: Pool<T>,
    lanes: Vec<Lane<T>>,
    rows: Rows<T>,
) -> Option<Store<T>>
    requires lanes { AreFirstLanes pool lanes.items }
    requires alone { pool.shape.guests ≡ 0 }
    requires empty { (rows.places.items ≡ []) × (rows.lanes.items ≡ []) }
    ensures { IfSome result (λ store. store.pool ≡ pool) }
{
    let Rows {
        mut places,
        lanes: back,
    } = rows;
    let mut rest = lanes.into_iter();
    while let Some(lane) = rest.next() {
        match keeper_of(alloc, lane) {
            Ok(keeper) => places.push(Post::new(keeper, &pool)).ok()?,
            Err(lane) => {
                give_up(pool, places, lane, rest, back);
                return None;
            }
        }
    }
    if places.len() != pool.shape().lanes as usize {
        return None;
    }
    Some(Store {
        pool,
        places,
        alloc,
    })
}

/// What lies in the place of a lane. Where memory was refused the lane comes back.
fn keeper_of<T: Clear + Drop>(alloc: Global, lane: Lane<T>) -> Result<Box<Keeper<T>>, Lane<T>>
    requires { refs lane ≡ 0 }
    ensures ok { IfOk result (λ keeper. keeper.value.lane ≡ lane) }
    ensures err { IfErr result (λ back. back ≡ lane) }
{
    match Box::new(alloc, Keeper::new(alloc, lane)?) {
        Ok(keeper) => Ok(keeper),
        Err(refused) => Err(refused.value.into_lane()),
    }
}

/// Closes a pool again, with the lanes in these places, the next one and the rest, which are put into a row that has room
/// for them.
fn give_up<T: Clear + Drop>(
    pool: Pool<T>,
    places: Vec<Post<T>>,
    next: Lane<T>,
    rest: IntoIter<Lane<T>>,
    row: Vec<Lane<T>>,
)
    requires alone { pool.shape.guests ≡ 0 }
    requires places { All (λ tag. tag ≡ pool) places.items }
    requires next { Owns pool next }
    requires rest { All (λ lane. Owns pool lane) (into_iter_items rest) }
    requires row { row.items ≡ [] }
{
    if let Some(lanes) = all_lanes(&pool, places, next, rest, row) {
        drop(close_lanes(pool, lanes));
    }
}

/// The lanes in these places, the next one and the rest. None where the row has no room for all.
fn all_lanes<T: Clear + Drop>(
    pool: &Pool<T>,
    places: Vec<Post<T>>,
    next: Lane<T>,
    rest: IntoIter<Lane<T>>,
    row: Vec<Lane<T>>,
) -> Option<Vec<Lane<T>>>
    requires places { All (λ tag. tag ≡ pool.now) places.items }
    requires next { Owns pool.now next }
    requires rest { All (λ lane. Owns pool.now lane) (into_iter_items rest) }
    requires row { row.items ≡ [] }
    ensures { IfSome result (λ lanes. All (λ lane. Owns pool.now lane) lanes.items) }
{
    let mut lanes = taken_out(pool, row, places)?;
    lanes.push(next).ok()?;
    for lane in rest {
        lanes.push(lane).ok()?;
    }
    Some(lanes)
}
