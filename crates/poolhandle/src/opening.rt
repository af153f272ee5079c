//! How a pool is opened.
ghost use Rattle.std.specs.Prelude.{◌≡◌, ◌+◌, ◌≤◌, ◌↔◌, [], All, length, IfSome, IfOk, IfErr, IsErrOf};
ghost use Rattle.std.specs.Vec.{vec_capacity};
ghost use Rattle.std.specs.Vec.Iter.{into_iter_items};
ghost use Rattle.keybits.specs.Shapes.{IsShape};
ghost use Rattle.keybits.specs.ShapeFaults.{IsFirstWideFault};
ghost use Rattle.keybits.specs.declared.shape.ShapeFault.{ShapeFault as Fault};
ghost use Rattle.shardpool.specs.declared.fault.OpenFault.TheVariants as faults;
ghost use Rattle.std.specs.Arc.{arc_value};
ghost use Rattle.shardpool.specs.Lanes.{Owns, refs};
ghost use Rattle.shardpool.specs.Opened.{AreFirstLanes};
ghost use Rattle.poolhandle.specs.Opened.{IsFresh, AreOpened};

use crate::closing::close_lanes;
use crate::counting_lane::CountingLane;
use crate::fillings::Fillings;
use crate::handle::Handle;
use crate::shared::{Given, Shared};
use counted_slot::Counted;
use keybits::Shape;
use shardpool::{Lane, OpenFault, Pool, open_wide};
use slotcell::ByteBuf;
use std::alloc::Global;
use std::sync::Arc;
use std::vec::IntoIter;

/// The lanes of a pool of this shape, which has no guests, that is opened, each with its share of the pool, by rising
/// number. The pool's own number tells it from others at a join.
///
/// # Errors
///
/// The first fault of the shape, by the wide limits; and the want of memory, for a shape within them alone.
pub fn open_handles(alloc: Global, shape: Shape, number: u64) -> Result<Vec<Box<Handle>>, OpenFault>
    requires { shape.guests ≡ 0 }
    ensures opened { IfOk result (λ handles. AreOpened shape number handles.items) }
    ensures faults { (fault : Fault) → IsErrOf result (faults.Shape fault) ↔ IsFirstWideFault shape fault }
    ensures memory { IsErrOf result faults.Memory → IsShape shape }
{
    match open_wide(alloc, shape) {
        Ok((pool, lanes)) => handles_of(alloc, pool, lanes, number).ok_or(OpenFault::Memory),
        Err(fault) => Err(fault),
    }
}

/// A handle for each of these lanes of the pool. None where memory was refused: the pool is then closed again.
fn handles_of(
    alloc: Global,
    pool: Pool<ByteBuf>,
    lanes: Vec<Lane<ByteBuf>>,
    number: u64,
) -> Option<Vec<Box<Handle>>>
    requires lanes { AreFirstLanes pool lanes.items }
    requires alone { pool.shape.guests ≡ 0 }
    ensures { IfSome result (λ handles. AreOpened pool.shape number handles.items) }
{
    let Some((given, rows)) = rows_for(alloc, &pool, lanes.len()) else {
        drop(close_lanes(pool, lanes));
        return None;
    };
    let shared = Shared {
        pool,
        given,
        number,
    };
    match Arc::new(alloc, shared) {
        Ok(shared) => each_handle(alloc, shared, lanes, rows),
        Err(refused) => {
            drop(close_lanes(refused.value.pool, lanes));
            None
        }
    }
}

/// A row for the handles of all lanes of a pool, and one for lanes that are given back.
#[derive(Drop)]
struct Rows {
    handles: Vec<Box<Handle>>,
    lanes: Vec<Lane<ByteBuf>>,
}

/// So many places for lanes of the pool, and rows with room for so many. None where memory was refused.
fn rows_for(
    alloc: Global,
    pool: &Pool<ByteBuf>,
    count: usize,
) -> Option<(Vec<Counted<Option<Given>>>, Rows)>
    ensures places { IfSome result (λ made. All (λ tag. tag ≡ pool.now) made.0.items) }
    ensures all { IfSome result (λ made. length made.0.items ≡ count) }
    ensures empty { IfSome result (λ made. (made.1.handles.items ≡ []) × (made.1.lanes.items ≡ [])) }
    ensures room { IfSome result (λ made. (count ≤ vec_capacity made.1.handles) × (count ≤ vec_capacity made.1.lanes)) }
{
    let given = places_for(alloc, pool, count)?;
    let handles = Vec::with_capacity(alloc, count).ok()?;
    let lanes = Vec::with_capacity(alloc, count).ok()?;
    Some((given, Rows { handles, lanes }))
}

/// A handle for each of these lanes of a shared pool. None where memory was refused: the pool is then closed again.
fn each_handle(
    alloc: Global,
    shared: Arc<Shared>,
    lanes: Vec<Lane<ByteBuf>>,
    rows: Rows,
) -> Option<Vec<Box<Handle>>>
    requires lanes { AreFirstLanes (arc_value shared).pool lanes.items }
    requires empty { (rows.handles.items ≡ []) × (rows.lanes.items ≡ []) }
    requires room { (length lanes.items ≤ vec_capacity rows.handles) × (length lanes.items ≤ vec_capacity rows.lanes) }
    ensures { IfSome result (λ handles. AreOpened (arc_value shared).pool.shape (arc_value shared).number handles.items) }
{
    let Rows {
        mut handles,
        lanes: back,
    } = rows;
    let mut rest = lanes.into_iter();
    while let Some(lane) = rest.next() {
        match handle_of(alloc, &shared, lane) {
            Ok(handle) => handles.push_reserved(handle),
            Err(lane) => {
                give_up(shared, handles, lane, rest, back);
                return None;
            }
        }
    }
    Some(handles)
}

/// Closes a pool again, with the lanes of these handles, the next one, and the rest, which are put into an empty row that
/// has room for them.
fn give_up(
    shared: Arc<Shared>,
    handles: Vec<Box<Handle>>,
    next: Lane<ByteBuf>,
    rest: IntoIter<Lane<ByteBuf>>,
    row: Vec<Lane<ByteBuf>>,
)
    requires handles { All (λ handle. arc_value handle.value.shared ≡ arc_value shared) handles.items }
    requires next { Owns (arc_value shared).pool next }
    requires rest { All (λ lane. Owns (arc_value shared).pool lane) (into_iter_items rest) }
    requires row { row.items ≡ [] }
    requires room { length handles.items + 1 + length (into_iter_items rest) ≤ vec_capacity row }
{
    let lanes = all_lanes(&shared, handles, next, rest, row);
    if let Some(shared) = Arc::into_inner(shared) {
        drop(close_lanes(shared.pool, lanes));
    }
}

/// The lanes of these handles, the next one and the rest, in an empty row that has room for them.
fn all_lanes(
    shared: &Arc<Shared>,
    handles: Vec<Box<Handle>>,
    next: Lane<ByteBuf>,
    rest: IntoIter<Lane<ByteBuf>>,
    row: Vec<Lane<ByteBuf>>,
) -> Vec<Lane<ByteBuf>>
    requires handles { All (λ handle. arc_value handle.value.shared ≡ arc_value shared.now) handles.items }
    requires next { Owns (arc_value shared.now).pool next }
    requires rest { All (λ lane. Owns (arc_value shared.now).pool lane) (into_iter_items rest) }
    requires row { row.items ≡ [] }
    requires room { length handles.items + 1 + length (into_iter_items rest) ≤ vec_capacity row }
    ensures owned { All (λ lane. Owns (arc_value shared.now).pool lane) result.items }
    ensures all { length result.items ≡ length handles.items + 1 + length (into_iter_items rest) }
{
    let mut lanes = lanes_of(shared, handles, row);
    lanes.push_reserved(next);
    for lane in rest {
        lanes.push_reserved(lane);
    }
    lanes
}

/// The lanes of these handles, in an empty row that has room for them.
fn lanes_of(
    shared: &Arc<Shared>,
    handles: Vec<Box<Handle>>,
    row: Vec<Lane<ByteBuf>>,
) -> Vec<Lane<ByteBuf>>
    requires handles { All (λ handle. arc_value handle.value.shared ≡ arc_value shared.now) handles.items }
    requires row { row.items ≡ [] }
    requires room { length handles.items ≤ vec_capacity row }
    ensures owned { All (λ lane. Owns (arc_value shared.now).pool lane) result.items }
    ensures all { length result.items ≡ length handles.items }
    ensures room { vec_capacity result ≡ vec_capacity row }
{
    let _ = shared;
    let mut lanes = row;
    for handle in handles {
        let (_, lane, _) = Box::into_inner(handle).into_parts();
        lanes.push_reserved(Box::into_inner(lane).into_lane());
    }
    lanes
}

/// The handle of a lane. Where memory was refused the lane comes back.
fn handle_of(
    alloc: Global,
    shared: &Arc<Shared>,
    lane: Lane<ByteBuf>,
) -> Result<Box<Handle>, Lane<ByteBuf>>
    requires owns { Owns (arc_value shared.now).pool lane }
    requires none { refs lane ≡ 0 }
    ensures ok { IfOk result (λ handle. IsFresh (arc_value shared.now) lane handle.value) }
    ensures err { IfErr result (λ back. back ≡ lane) }
{
    let Some((row, fillings)) = parts_for(alloc, lane.number(), shared.pool.shape().lanes) else {
        return Err(lane);
    };
    let Ok(shared) = Arc::try_clone(shared) else {
        return Err(lane);
    };
    match Box::new(alloc, CountingLane::new(alloc, lane)?) {
        Ok(lane) => in_box(
            alloc,
            Handle {
                shared,
                lane,
                fillings,
                joined: 0,
                row,
            },
        ),
        Err(refused) => Err(refused.value.into_lane()),
    }
}

/// A handle in a box of its own. Where memory was refused its lane comes back.
fn in_box(alloc: Global, handle: Handle) -> Result<Box<Handle>, Lane<ByteBuf>>
    ensures ok { IfOk result (λ boxed. boxed.value ≡ handle) }
    ensures err { IfErr result (λ back. back ≡ handle.lane.value) }
{
    match Box::new(alloc, handle) {
        Ok(boxed) => Ok(boxed),
        Err(refused) => {
            let (_, lane, _) = refused.value.into_parts();
            Err(Box::into_inner(lane).into_lane())
        }
    }
}

/// What else the handle of the lane of this number has. None where memory was refused.
fn parts_for(alloc: Global, number: u32, lanes: u32) -> Option<(Vec<Lane<ByteBuf>>, Fillings)>
    ensures row { IfSome result (λ made. made.0.items ≡ []) }
    ensures room { IfSome result (λ made. number ≡ 0 → lanes ≤ vec_capacity made.0) }
    ensures fillings { IfSome result (λ made. made.1.list.items ≡ []) }
{
    let row = row_for(alloc, number, lanes)?;
    let fillings = Fillings::new(alloc)?;
    Some((row, fillings))
}

/// So many places for lanes of the pool. None where memory was refused.
fn places_for(
    alloc: Global,
    pool: &Pool<ByteBuf>,
    count: usize,
) -> Option<Vec<Counted<Option<Given>>>>
    ensures places { IfSome result (λ places. All (λ tag. tag ≡ pool.now) places.items) }
    ensures all { IfSome result (λ places. length places.items ≡ count) }
{
    let mut places = Vec::with_capacity(alloc, count).ok()?;
    for _ in 0..count {
        places.push(Counted::new(None, pool)).ok()?;
    }
    Some(places)
}

/// An empty row, which for lane 0 has room for so many lanes. None where memory was refused.
fn row_for(alloc: Global, number: u32, lanes: u32) -> Option<Vec<Lane<ByteBuf>>>
    ensures empty { IfSome result (λ row. row.items ≡ []) }
    ensures room { IfSome result (λ row. number ≡ 0 → lanes ≤ vec_capacity row) }
{
    let count = if number == 0 { lanes as usize } else { 0 };
    Vec::with_capacity(alloc, count).ok()
}
