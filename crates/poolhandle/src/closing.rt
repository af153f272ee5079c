//! How lanes are joined, and the pool is closed.
ghost use Rattle.std.specs.Prelude.{◌≡◌, ◌+◌, ◌⊎◌, ◌↔◌, List, [], ◌∷◌, All, IfSome, IsSome, IfErr, IfOk, OnOk, IsOk, Contains, MatchResult, option_map};
ghost use Rattle.std.specs.Arc.{arc_value};
ghost use Rattle.shardpool.specs.Tokens.{LaneOf};
ghost use Rattle.shardpool.specs.Lanes.{Owns};
ghost use Rattle.shardpool.specs.Closings.{AreLanes, Closes};
ghost use Rattle.poolhandle.specs.Calls.{lane_of, pool_of, Joins, JoinsNot, ClosesNot};
ghost use Rattle.poolhandle.specs.Closed.{AreInOrder};

use crate::handle::Handle;
use crate::refusal::Refusal;
use crate::shared::{Given, Shared};
use counted_slot::Counted;
use keybits::MOST_LANES;
use shardpool::{Census, Lane, Pool};
use slotcell::{ByteBuf, Clear};
use std::sync::Arc;

/// Gives the lane of another handle of the pool for the close, and ends that handle: the last lane first, and then the
/// one before it. A filling is left.
///
/// # Errors
///
/// The other handle, where it is of another pool, or isn't the one that comes next: lane 0 never does.
pub fn join(into: &mut Handle, other: Box<Handle>) -> Result<(), (Refusal, Box<Handle>)>
    ensures ok { OnOk result (Joins into.old other.value into.new) }
    ensures err { IfErr result (λ back. JoinsNot into.old other.value back.0 × (back.1 ≡ other) × (into.new ≡ into.old)) }
{
    if into.lane.lane().number() != 0
        || other.lane.lane().number() == 0
        || other.joined != 0
        || into.joined >= MOST_LANES
    {
        return Err((Refusal::Lanes, other));
    }
    let wanted = u64::from(other.lane.lane().number()) + u64::from(into.joined) + 1;
    if wanted != u64::from(into.shared.pool.shape().lanes) {
        return Err((Refusal::Lanes, other));
    }
    if other.shared.number != into.shared.number {
        return Err((Refusal::OtherPool, other));
    }
    into.joined += 1;
    give(Box::into_inner(other));
    Ok(())
}

/// Gives the lane of a handle into its place, which is of its own pool.
fn give(handle: Handle) {
    let (shared, lane, _) = handle.into_parts();
    let index = lane.lane().number() as usize;
    if index < shared.given.len() {
        put(&shared.given[index], &shared.pool, Given::new(lane));
    }
}

/// Puts a lane into its place, where that is empty.
fn put(place: &Counted<Option<Given>>, pool: &Pool<ByteBuf>, given: Given)
    requires place { place.now ≡ pool.now }
    requires given { Owns pool.now given.lane.object }
{
    let (found, claim) = place.turn(0, 3);
    if found != 0 {
        claim.done();
        return;
    }
    drop(claim.put(Some(given), 1));
}

/// Closes a pool whose lane 0 was given all others.
///
/// # Errors
///
/// The handle, where lanes are missing. Where the pool isn't let go by all handles though all lanes were given, the
/// handle, or none where that is seen late: the lanes are then dropped. It happens only where the program opened two
/// pools under one number.
pub fn close(handle: Box<Handle>) -> Result<Census, (Refusal, Option<Box<Handle>>)>
    ensures closes { IfOk result (λ census. (lanes : List LaneOf) × Contains lanes (lane_of handle.value)
        × AreLanes (pool_of handle.value) lanes × Closes (pool_of handle.value) lanes census) }
    ensures stays { IfErr result (λ back. ClosesNot handle.value (option_map (λ same. same.value) back.1) back.0) }
{
    let lanes = handle.shared.pool.shape().lanes;
    if u64::from(handle.joined) + 1 != u64::from(lanes) {
        return Err((Refusal::Lanes, Some(handle)));
    }
    if Arc::strong_count(&handle.shared) != 1 {
        return Err((Refusal::Shared, Some(handle)));
    }
    close_handle(Box::into_inner(handle)).ok_or((Refusal::Shared, None))
}

fn close_handle(handle: Handle) -> Option<Census>
    ensures { IfSome result (λ census. (lanes : List LaneOf) × Contains lanes (lane_of handle) × AreLanes (pool_of handle) lanes
        × Closes (pool_of handle) lanes census) }
{
    let (shared, lane, row) = handle.into_parts();
    let Shared {
        pool,
        given,
        number: _,
    } = Arc::into_inner(shared)?;
    let lanes = gathered(&pool, row, Box::into_inner(lane).into_lane(), given)?;
    close_lanes(pool, lanes)
}

/// A lane, and behind it those that were given. None where memory was refused, of which there is enough.
fn gathered(
    pool: &Pool<ByteBuf>,
    row: Vec<Lane<ByteBuf>>,
    lane: Lane<ByteBuf>,
    given: Vec<Counted<Option<Given>>>,
) -> Option<Vec<Lane<ByteBuf>>>
    requires row { row.items ≡ [] }
    requires lane { Owns pool.now lane }
    requires given { All (λ tag. tag ≡ pool.now) given.items }
    ensures { IfSome result (λ lanes. Contains lanes.items lane × All (λ other. Owns pool.now other) lanes.items) }
{
    let mut lanes = row;
    lanes.push(lane).ok()?;
    for place in given {
        if let Some(given) = place.into_inner() {
            lanes
                .push(Box::into_inner(given.into_lane()).into_lane())
                .ok()?;
        }
    }
    Some(lanes)
}

/// Closes a pool with its lanes, by rising number. None exactly where they aren't all of them, each at its number: pool
/// and lanes are then dropped.
pub fn close_lanes<T: Clear + Drop>(pool: Pool<T>, lanes: Vec<Lane<T>>) -> Option<Census>
    requires owned { All (λ lane. Owns pool lane) lanes.items }
    requires alone { pool.shape.guests ≡ 0 }
    ensures some { IsSome result ↔ AreInOrder pool lanes.items }
    ensures closes { IfSome result (λ census. AreLanes pool lanes.items × Closes pool lanes.items census) }
{
    let count = lanes.len();
    if count != pool.shape().lanes as usize {
        return None;
    }
    for index in 0..count {
        if lanes[index].number() as usize != index {
            return None;
        }
    }
    Some(shardpool::close(pool, lanes))
}
