//! How a store is closed.
ghost use Rattle.std.specs.Prelude.{◌≡◌, List, [], All, Contains, IfSome};
ghost use Rattle.shardpool.specs.Tokens.{LaneOf};
ghost use Rattle.shardpool.specs.Lanes.{Owns};
ghost use Rattle.shardpool.specs.Closings.{AreLanes, Closes};
ghost use Rattle.lanestore.specs.Visits.{lane_of};

use crate::place::Post;
use crate::store::Store;
use crate::visit::Visit;
use poolhandle::close_lanes;
use shardpool::{Census, Lane, Note, Pool};
use slotcell::Clear;
use std::alloc::Global;

impl<T: Clear + Drop> Store<T> {
    ghost use Rattle.std.specs.Prelude.{◌≡◌, List, [], Contains, IfOk, IfErr, IfSome};
    ghost use mathlib.Core.List.{IsPrefix};
    ghost use Rattle.shardpool.specs.Tokens.{LaneOf};
    ghost use Rattle.shardpool.specs.Lanes.{Issued};
    ghost use Rattle.shardpool.specs.Closings.{AreLanes, Closes};

    /// Closes the pool, with all its lanes, one of which hears what the caller was told.
    ///
    /// # Errors
    ///
    /// The store and the note, where memory was refused for a row of the lanes. None where `close_in` answers none.
    pub fn close(self, alloc: Global, told: Note<T>) -> Result<Census, Option<(Store<T>, Note<T>)>>
        requires { Issued self.pool told }
        ensures closes { IfOk result (λ census. (lanes : List LaneOf) × AreLanes self.pool lanes × Closes self.pool lanes census
            × ((lane : LaneOf) × Contains lanes lane × IsPrefix told.book.seen lane.book.seen)) }
        ensures memory { IfErr result (λ back. IfSome back (λ kept. (kept.0 ≡ self) × (kept.1 ≡ told))) }
    {
        match Vec::with_capacity(alloc, self.places.len()) {
            Ok(row) => self.close_in(row, told).ok_or(None),
            Err(_refused) => Err(Some((self, told))),
        }
    }

    /// Closes the pool as `close` does, with its lanes in this empty row: if it has room for them, no memory is taken. None
    /// where it hadn't and memory was refused, and where a lane isn't there, though no call has one, which doesn't happen:
    /// the lanes are then dropped.
    pub fn close_in(self, row: Vec<Lane<T>>, told: Note<T>) -> Option<Census>
        requires told { Issued self.pool told }
        requires row { row.items ≡ [] }
        ensures { IfSome result (λ census. (lanes : List LaneOf) × AreLanes self.pool lanes × Closes self.pool lanes census
            × ((lane : LaneOf) × Contains lanes lane × IsPrefix told.book.seen lane.book.seen)) }
    {
        let visit = self.visit(0, told).ok()?;
        close_with(self, visit, row)
    }
}

/// Closes the pool of a store, whose first lane is had.
fn close_with<T: Clear + Drop>(
    store: Store<T>,
    visit: Visit<T>,
    row: Vec<Lane<T>>,
) -> Option<Census>
    requires lane { Owns store.pool (lane_of visit) }
    requires row { row.items ≡ [] }
    ensures { IfSome result (λ census. (lanes : List LaneOf) × AreLanes store.pool lanes × Closes store.pool lanes census
        × Contains lanes (lane_of visit)) }
{
    let Store {
        pool,
        places,
        alloc: _,
    } = store;
    let Visit { keeper } = visit;
    let lanes = gathered(&pool, row, Box::into_inner(keeper).into_lane(), places)?;
    close_lanes(pool, lanes)
}

/// A lane, and behind it those that lie in these places. None where the row has no room for all.
fn gathered<T: Clear + Drop>(
    pool: &Pool<T>,
    row: Vec<Lane<T>>,
    lane: Lane<T>,
    places: Vec<Post<T>>,
) -> Option<Vec<Lane<T>>>
    requires row { row.items ≡ [] }
    requires lane { Owns pool.now lane }
    requires places { All (λ tag. tag ≡ pool.now) places.items }
    ensures { IfSome result (λ lanes. Contains lanes.items lane × All (λ other. Owns pool.now other) lanes.items) }
{
    let mut lanes = row;
    lanes.push(lane).ok()?;
    taken_out(pool, lanes, places)
}

/// These lanes, and behind them those that lie in these places. None where the row has no room for all.
pub(crate) fn taken_out<T: Clear + Drop>(
    pool: &Pool<T>,
    row: Vec<Lane<T>>,
    places: Vec<Post<T>>,
) -> Option<Vec<Lane<T>>>
    requires row { All (λ other. Owns pool.now other) row.items }
    requires places { All (λ tag. tag ≡ pool.now) places.items }
    ensures owned { IfSome result (λ lanes. All (λ other. Owns pool.now other) lanes.items) }
    ensures kept { IfSome result (λ lanes. (lane : LaneOf) → Contains row.items lane → Contains lanes.items lane) }
{
    let _ = pool;
    let mut lanes = row;
    for place in places {
        if let Some(keeper) = place.into_keeper() {
            lanes.push(Box::into_inner(keeper).into_lane()).ok()?;
        }
    }
    Some(lanes)
}
