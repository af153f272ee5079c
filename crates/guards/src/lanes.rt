//! A pool with its lanes, which are handed out and given back by their numbers.
ghost use Rattle.std.specs.Prelude.{◌≡◌, ◌<◌, ◌≤◌, ◌↔◌, ◌++◌, ℕ, List, length, map, Some, None, [], IfOk, IfErr, IsErrOf, IsOk, IfSome, IfNone};
ghost use Rattle.std.specs.Vec.{vec_capacity};
ghost use Rattle.keybits.specs.declared.shape.ShapeFault.{ShapeFault as Fault};
ghost use Rattle.keybits.specs.Shapes.{IsShape, IsNarrow, all_places};
ghost use Rattle.keybits.specs.ShapeFaults.{IsFirstFault, IsFirstWideFault};
ghost use Rattle.shardpool.specs.declared.fault.OpenFault.TheVariants as faults;
ghost use Rattle.shardpool.specs.Tokens.{LaneOf};
ghost use Rattle.shardpool.specs.Lanes.{Owns, refs};
ghost use Rattle.shardpool.specs.Closings.{AreLanes, Closes, places_counted};
ghost use Rattle.poollaws.specs.Cleared.{cleared_by};
ghost use Rattle.guards.specs.Here.{lane_at, AreFirstHere, HoldNothing, HaveCleared, SameOthers, AreHereBelow, AreInRow, IsFirstMissing};

use keybits::Shape;
use shardpool::{Census, Lane, OpenFault, Pool, close, open_wide};
use slotcell::Clear;
use std::alloc::Global;
use std::marker::Model;
use std::snapshot::Snapshot;

/// The lanes of a pool that are here: each that was not taken, or was given back. `open_lanes` makes it, with all
/// lanes.
#[derive(Drop)]
pub struct Lanes<T: Clear> {
    /// How many lanes the pool has.
    count: u32,
    /// A slot for each lane, by its number.
    slots: Vec<Option<Lane<T>>>,
    /// Where all lanes go when the pool is closed.
    row: Vec<Lane<T>>,
    of: Snapshot<Pool<T>>,
}

impl<T: Clear> Model for Lanes<T> {
    ghost use Rattle.std.specs.Prelude.{◌≡◌, ◌≤◌, []};
    ghost use Rattle.std.specs.Vec.{vec_capacity};
    ghost use Rattle.guards.specs.Here.{LanesOf, AreSlots};

    ghost Value = { LanesOf };

    ghost view = { λ l. record { pool = l.of.value; slots = l.slots.items } };

    ghost invariant = { λ l. (l.count ≡ l.of.value.shape.lanes) × AreSlots (record { pool = l.of.value; slots = l.slots.items })
        × (l.row.items ≡ []) × (l.count ≤ vec_capacity l.row) };
}

/// A pool that is open, and those of its lanes that are here.
///
/// Threads call `pool` with the lanes that were taken from `lanes`, and these are given back before the pool is closed.
#[derive(Drop)]
pub struct Opened<T: Clear> {
    pub pool: Pool<T>,
    pub lanes: Lanes<T>,
    pub ghost table: { lanes.pool.table ≡ pool.table },
    pub ghost directory: { lanes.pool.directory ≡ pool.directory },
    pub ghost shape: { lanes.pool.shape ≡ pool.shape },
}

/// What a close gives back where a lane isn't here: the pool is still open, and all is as it was.
#[derive(Drop)]
pub struct Missing<T: Clear> {
    /// The least number of a lane that isn't here.
    pub number: u32,
    pub opened: Opened<T>,
}

/// Opens a pool of this shape, which has no guests, as `shardpool::open` does, with all its lanes.
///
/// # Errors
///
/// The first fault of the shape; and the want of memory, for a shape within its limits alone.
pub fn open_lanes<T: Clear + Drop>(alloc: Global, shape: Shape) -> Result<Opened<T>, OpenFault>
    requires { shape.guests ≡ 0 }
    ensures faults { (fault : Fault) → IsErrOf result (faults.Shape fault) ↔ IsFirstFault shape fault }
    ensures memory { IsErrOf result faults.Memory → IsNarrow shape }
    ensures shape { IfOk result (λ opened. (opened.pool.shape ≡ shape) × (opened.lanes.pool ≡ opened.pool)) }
    ensures first { IfOk result (λ opened. AreFirstHere opened.lanes) }
    ensures nothing { IfOk result (λ opened. HoldNothing opened.lanes) }
    ensures cleared { IfOk result (λ opened. HaveCleared [] opened.lanes) }
{
    shape.check()?;
    try_open(alloc, shape).ok_or(OpenFault::Memory)
}

/// Opens a pool of this shape, which has no guests, as `shardpool::open_wide` does, with all its lanes.
///
/// # Errors
///
/// The first fault of the shape, by the wide limits; and the want of memory, for a shape within them alone.
pub fn open_lanes_wide<T: Clear + Drop>(alloc: Global, shape: Shape) -> Result<Opened<T>, OpenFault>
    requires { shape.guests ≡ 0 }
    ensures faults { (fault : Fault) → IsErrOf result (faults.Shape fault) ↔ IsFirstWideFault shape fault }
    ensures memory { IsErrOf result faults.Memory → IsShape shape }
    ensures shape { IfOk result (λ opened. (opened.pool.shape ≡ shape) × (opened.lanes.pool ≡ opened.pool)) }
    ensures first { IfOk result (λ opened. AreFirstHere opened.lanes) }
    ensures nothing { IfOk result (λ opened. HoldNothing opened.lanes) }
    ensures cleared { IfOk result (λ opened. HaveCleared [] opened.lanes) }
{
    shape.check_wide()?;
    try_open(alloc, shape).ok_or(OpenFault::Memory)
}

/// The pool of a shape within its limits, with all its lanes. None where memory was refused.
fn try_open<T: Clear + Drop>(alloc: Global, shape: Shape) -> Option<Opened<T>>
    requires shape { IsShape shape }
    requires alone { shape.guests ≡ 0 }
    ensures shape { IfSome result (λ opened. (opened.pool.shape ≡ shape) × (opened.lanes.pool ≡ opened.pool)) }
    ensures first { IfSome result (λ opened. AreFirstHere opened.lanes) }
    ensures nothing { IfSome result (λ opened. HoldNothing opened.lanes) }
    ensures cleared { IfSome result (λ opened. HaveCleared [] opened.lanes) }
{
    let count = shape.lanes as usize;
    let slots = Vec::with_capacity(alloc, count).ok()?;
    let row = Vec::with_capacity(alloc, count).ok()?;
    let Ok((pool, lanes)) = open_wide(alloc, shape) else {
        return None;
    };
    let lanes = Lanes {
        count: shape.lanes,
        slots: in_slots(lanes, slots),
        row,
        of: Snapshot::of(&pool),
    };
    Some(Opened { pool, lanes })
}

/// These lanes, each in a slot.
fn in_slots<T: Clear + Drop>(
    lanes: Vec<Lane<T>>,
    mut slots: Vec<Option<Lane<T>>>,
) -> Vec<Option<Lane<T>>>
    requires empty { slots.items ≡ [] }
    requires room { length lanes.items ≤ vec_capacity slots }
    ensures { result.items ≡ map Some lanes.items }
{
    for lane in lanes {
        slots.push_reserved(Some(lane));
    }
    slots
}

/// The lanes of slots that are all filled, in a row with room for them.
fn in_row<T: Clear + Drop>(slots: Vec<Option<Lane<T>>>, mut row: Vec<Lane<T>>) -> Vec<Lane<T>>
    requires empty { row.items ≡ [] }
    requires room { length slots.items ≤ vec_capacity row }
    requires full { (lanes : List LaneOf) × (slots.items ≡ map Some lanes) }
    ensures { slots.items ≡ map Some result.items }
{
    for slot in slots {
        match slot {
            Some(lane) => row.push_reserved(lane),
            None => unreachable!(),
        }
    }
    row
}

impl<T: Clear + Drop> Lanes<T> {
    /// Takes the lane of this number out. None where it isn't here, and for a number that no lane of the pool has.
    pub fn take(&mut self, number: u32) -> Option<Lane<T>>
        ensures lane { result ≡ lane_at self.old number }
        ensures gone { lane_at self.new number ≡ None }
        ensures rest { SameOthers number self.old self.new }
        ensures owns { IfSome result (λ lane. Owns self.old.pool lane × (lane.number ≡ number)) }
        ensures refs { HoldNothing self.old → IfSome result (λ lane. refs lane ≡ 0) }
        ensures nothing { HoldNothing self.old → HoldNothing self.new }
        ensures clean { HaveCleared [] self.old → IfSome result (λ lane. cleared_by lane ≡ []) }
        ensures cleared { (keys : List ℕ) → HaveCleared keys self.old → HaveCleared keys self.new }
    {
        let index = number as usize;
        if index >= self.slots.len() {
            return None;
        }
        self.slots[index].take()
    }

    /// Gives a lane back. Answers the lane of its number that was here.
    pub fn give(&mut self, lane: Lane<T>) -> Option<Lane<T>>
        requires { Owns self.old.pool lane }
        ensures lane { result ≡ lane_at self.old lane.number }
        ensures here { lane_at self.new lane.number ≡ Some lane }
        ensures rest { SameOthers lane.number self.old self.new }
        ensures owns { IfSome result (λ other. Owns self.old.pool other × (other.number ≡ lane.number)) }
        ensures nothing { HoldNothing self.old → refs lane ≡ 0 → HoldNothing self.new }
        ensures cleared { (keys : List ℕ) → HaveCleared keys self.old → HaveCleared (keys ++ cleared_by lane) self.new }
        ensures clean { (keys : List ℕ) → HaveCleared keys self.old → cleared_by lane ≡ [] → HaveCleared keys self.new }
    {
        lane.seen_law();
        let index = lane.number() as usize;
        self.slots[index].replace(lane)
    }

    /// The least number of a lane of the pool that isn't here. None where all lanes are here.
    pub fn first_missing(&self) -> Option<u32>
        ensures some { IfSome result (IsFirstMissing self.now) }
        ensures none { IfNone result (AreHereBelow self.now self.now.pool.shape.lanes) }
    {
        for number in 0..self.count {
            if self.slots[number as usize].is_none() {
                return Some(number);
            }
        }
        None
    }

    /// How many lanes are here before the first that isn't.
    pub fn count_here(&self) -> u32
        ensures here { AreHereBelow self.now result }
        ensures first { lane_at self.now result ≡ None }
    {
        match self.first_missing() {
            Some(number) => number,
            None => self.count,
        }
    }

    /// All lanes, by their numbers.
    fn into_row(self) -> Vec<Lane<T>>
        requires { AreHereBelow self self.pool.shape.lanes }
        ensures slots { self.slots ≡ map Some result.items }
        ensures lanes { AreLanes self.pool result.items }
    {
        in_row(self.slots, self.row)
    }
}

impl<T: Clear + Drop> Opened<T> {
    /// Closes the pool, as `shardpool::close` does, if all its lanes are here, and answers what its places were. It
    /// takes no memory.
    ///
    /// # Errors
    ///
    /// A lane that isn't here. The pool and the lanes are then as they were.
    pub fn close(self) -> Result<Census, Missing<T>>
        ensures closes { IfOk result (λ census. (lanes : List LaneOf) × (self.lanes.slots ≡ map Some lanes) × Closes self.pool lanes census
            × AreLanes self.pool lanes × AreInRow self.lanes lanes) }
        ensures adds { IfOk result (λ census. places_counted census ≡ all_places self.pool.shape) }
        ensures missing { IfErr result (λ missing. IsFirstMissing self.lanes missing.number) }
        ensures back { IfErr result (λ missing. (missing.opened.pool ≡ self.pool) × (missing.opened.lanes ≡ self.lanes)) }
        ensures all { AreHereBelow self.lanes self.pool.shape.lanes → IsOk result }
    {
        let Opened { pool, lanes } = self;
        match lanes.first_missing() {
            Some(number) => Err(Missing {
                number,
                opened: Opened { pool, lanes },
            }),
            None => Ok(close(pool, lanes.into_row())),
        }
    }
}
