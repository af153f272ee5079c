//! How a pool is opened.
ghost use Rattle.std.specs.Prelude.{◌≡◌, ◌<◌, ◌≤◌, ◌↔◌, [], None, replicate, IfOk, IfSome, IsErrOf};
ghost use Rattle.keybits.specs.declared.shape.ShapeFault.{ShapeFault as Fault};
ghost use Rattle.keybits.specs.declared.shape.TheConstants.{MOST_GUESTS};
ghost use Rattle.keybits.specs.Shapes.{IsShape, IsNarrow};
ghost use Rattle.keybits.specs.ShapeFaults.{IsFirstFault, IsFirstWideFault};
ghost use Rattle.shardpool.specs.declared.fault.OpenFault.TheVariants as faults;
ghost use Rattle.shardpool.specs.declared.fault.GuestsFault.TheVariants as guest_faults;
ghost use Rattle.std.specs.Vec.{vec_capacity};
ghost use Rattle.poolsteps.specs.Grids.{IsUndealt};
ghost use Rattle.poolsteps.specs.Layout.{slot_row};
ghost use Rattle.shardpool.specs.Opened.{first_book, AreFirstLanes, AreFirstGuests, AreFirstParts, IsFirstState};

use crate::closing::HandRow;
use crate::fault::{GuestsFault, OpenFault};
use crate::guests::Guests;
use crate::pool::{CachePadded, HeldKey, Lane, LaneState, Places, Pool};
use freelists::{LocalFree, Pages};
use keybits::{MOST_GUESTS, Shape};
use poolsteps::{Base, Directory, Grid, Hand, Objects, shard_start, slot_row};
use slotcell::Clear;
use std::alloc::Global;

/// Opens a pool of this shape, which is within the narrow limits. Its lanes stand by rising number; none has a free place
/// yet, and no page is opened.
///
/// # Errors
///
/// The first fault of the shape; and the want of memory, for a shape within its limits alone.
pub fn open<T: Clear + Drop>(
    alloc: Global,
    shape: Shape,
) -> Result<(Pool<T>, Vec<Lane<T>>), OpenFault>
    requires { shape.guests ≡ 0 }
    ensures faults { (fault : Fault) → IsErrOf result (faults.Shape fault) ↔ IsFirstFault shape fault }
    ensures memory { IsErrOf result faults.Memory → IsNarrow shape }
    ensures pool { IfOk result (λ made. made.0.shape ≡ shape) }
    ensures lanes { IfOk result (λ made. AreFirstLanes made.0 made.1.items) }
{
    shape.check()?;
    let (pool, lanes, _) = try_open(alloc, shape).ok_or(OpenFault::Memory)?;
    Ok((pool, lanes))
}

/// Opens a pool of this shape as `open` does, by the wide limits.
///
/// # Errors
///
/// The first fault of the shape, by the wide limits; and the want of memory, for a shape within them alone.
pub fn open_wide<T: Clear + Drop>(
    alloc: Global,
    shape: Shape,
) -> Result<(Pool<T>, Vec<Lane<T>>), OpenFault>
    requires { shape.guests ≡ 0 }
    ensures faults { (fault : Fault) → IsErrOf result (faults.Shape fault) ↔ IsFirstWideFault shape fault }
    ensures memory { IsErrOf result faults.Memory → IsShape shape }
    ensures pool { IfOk result (λ made. made.0.shape ≡ shape) }
    ensures lanes { IfOk result (λ made. AreFirstLanes made.0 made.1.items) }
{
    shape.check_wide()?;
    let (pool, lanes, _) = try_open(alloc, shape).ok_or(OpenFault::Memory)?;
    Ok((pool, lanes))
}

/// Opens a pool of this shape with its guests, by the wide limits. Its lanes stand by rising number; none has a free place
/// yet, no page is opened, and no guest is dealt. Many guests take no more memory than none.
///
/// # Errors
///
/// More than 2^28 guests; behind that the first fault of the shape, by the wide limits; and the want of memory, for a shape
/// within its limits alone.
pub fn open_with_guests<T: Clear + Drop>(
    alloc: Global,
    shape: Shape,
) -> Result<(Pool<T>, Vec<Lane<T>>, Guests<T>), GuestsFault>
    ensures guests { IsErrOf result guest_faults.Guests ↔ (MOST_GUESTS < shape.guests) }
    ensures faults { (fault : Fault)
        → IsErrOf result (guest_faults.Shape fault) ↔ (shape.guests ≤ MOST_GUESTS) × IsFirstWideFault shape fault }
    ensures memory { IsErrOf result guest_faults.Memory → IsShape shape }
    ensures pool { IfOk result (λ made. made.0.shape ≡ shape) }
    ensures lanes { IfOk result (λ made. AreFirstLanes made.0 made.1.items) }
    ensures undealt { IfOk result (λ made. AreFirstGuests made.0 made.2) }
{
    if shape.guests > MOST_GUESTS {
        return Err(GuestsFault::Guests);
    }
    shape.check_wide()?;
    try_open(alloc, shape).ok_or(GuestsFault::Memory)
}

/// A lane that has no right to a place yet.
#[derive(Drop)]
struct Unendowed<T: Clear> {
    hand: Hand<T>,
    state: LaneState<T>,
    row: HandRow<T>,
}

/// The pool of a shape within its limits, its lanes and its guests. None where memory was refused.
fn try_open<T: Clear + Drop>(
    alloc: Global,
    shape: Shape,
) -> Option<(Pool<T>, Vec<Lane<T>>, Guests<T>)>
    requires shape { IsShape shape }
    ensures pool { IfSome result (λ made. made.0.shape ≡ shape) }
    ensures lanes { IfSome result (λ made. AreFirstLanes made.0 made.1.items) }
    ensures guests { IfSome result (λ made. AreFirstGuests made.0 made.2) }
{
    let count = shape.lanes as usize;
    let lanes = Vec::with_capacity(alloc, count).ok()?;
    let states = Vec::with_capacity(alloc, count).ok()?;
    let rights = Vec::with_capacity(alloc, count).ok()?;
    let mut directory = Directory::new(alloc, slot_row(&shape))?;
    let Some((grid, parts, hand)) = parts_of(alloc, &shape, directory.base()) else {
        directory.close(alloc);
        return None;
    };
    let lanes = endow(&grid, lanes, parts, &mut directory);
    let guests = Guests::all_of(&grid, hand);
    let pool = Pool {
        grid,
        directory,
        states,
        rights,
        alloc,
    };
    Some((pool, lanes, guests))
}

/// The table of a pool of this shape, whose objects stand in this directory, its lanes without their rights, and the hand
/// of all its guests. None where memory was refused.
fn parts_of<T: Clear + Drop>(
    alloc: Global,
    shape: &Shape,
    directory: Base<T>,
) -> Option<(Grid<T>, Vec<Unendowed<T>>, Hand<T>)>
    requires { IsShape shape.now }
    ensures grid { IfSome result (λ made. (made.0.shape ≡ shape.now) × (made.0.objects ≡ directory)) }
    ensures parts { IfSome result (λ made. AreFirstParts made.0 made.1.items) }
    ensures guests { IfSome result (λ made. IsUndealt made.0 shape.now.lanes shape.now.guests made.2) }
{
    let mut parts = Vec::with_capacity(alloc, shape.lanes as usize).ok()?;
    let (grid, hands, guests) = Grid::new(alloc, shape, directory)?;
    let mut hands = hands.into_iter();
    for number in 0..shape.lanes {
        let Some(hand) = hands.next() else {
            unreachable!()
        };
        parts.push_reserved(part_of(alloc, shape, number, hand, directory)?);
    }
    Some((grid, parts, guests))
}

/// Gives each lane the rights to the places of its shard.
fn endow<T: Clear + Drop>(
    grid: &Grid<T>,
    mut lanes: Vec<Lane<T>>,
    parts: Vec<Unendowed<T>>,
    directory: &mut Directory<T>,
) -> Vec<Lane<T>>
    requires parts { AreFirstParts grid.now parts.items }
    requires lanes { (lanes.items ≡ []) × (grid.now.shape.lanes ≤ vec_capacity lanes) }
    requires directory { (directory.old.at ≡ grid.now.objects.ptr) × (directory.old.next ≡ 0)
        × (directory.old.count ≡ slot_row grid.now.shape) }
    ensures lanes { AreFirstLanes (record
        { table = grid.now.table.shared.table_id; directory = grid.now.objects.ptr; shape = grid.now.shape }) result.items }
    ensures directory { (directory.new.at ≡ directory.old.at) × (directory.new.next ≡ directory.new.count) }
{
    let _ = grid;
    for part in parts {
        let Unendowed {
            hand,
            mut state,
            row,
        } = part;
        state.objects.endow(directory);
        lanes.push_reserved(Lane {
            hand,
            ahead: CachePadded::new(),
            state,
            row,
            behind: CachePadded::new(),
        });
    }
    lanes
}

/// The lane of this number of a pool of this shape, with its hand, without its rights. None where memory was refused.
fn part_of<T: Clear + Drop>(
    alloc: Global,
    shape: &Shape,
    number: u32,
    hand: Hand<T>,
    directory: Base<T>,
) -> Option<Unendowed<T>>
    requires shape { IsShape shape.now }
    requires number { number < shape.now.lanes }
    requires hand { hand.me ≡ (first_book number, []) }
    ensures { IfSome result (λ part. (part.hand ≡ hand) × IsFirstState shape.now directory.ptr number part.state) }
{
    let row = HandRow::new(alloc)?;
    let state = first_state(alloc, shape, number, directory)?;
    Some(Unendowed { hand, state, row })
}

/// What the lane of this number keeps before it has a right to a place. None where memory was refused.
fn first_state<T: Clear + Drop>(
    alloc: Global,
    shape: &Shape,
    number: u32,
    directory: Base<T>,
) -> Option<LaneState<T>>
    requires shape { IsShape shape.now }
    requires number { number < shape.now.lanes }
    ensures { IfSome result (λ state. IsFirstState shape.now directory.ptr number state) }
{
    let shard = number as u8;
    // (What is dropped with least ado comes first: each way out behind it drops it.)
    let last_pushed = vec![in alloc; 0; shape.lanes as usize].ok()?;
    let free = LocalFree::new(alloc, shard, shape.first_page, shape.pages)?;
    let rows = first_rows(alloc, slot_row(shape))?;
    let objects = Objects::new(
        alloc,
        directory,
        shape.shard_places() as usize,
        shard_start(shape, number),
    )?;
    Some(LaneState {
        shape: *shape,
        number,
        references: 0,
        rows,
        last_pushed,
        free,
        pages: Pages::new(shard, shape.first_page, shape.pages),
        objects,
        places: Places::of(shape),
        alloc,
    })
}

/// So many rows, each without a reference. None where memory was refused.
fn first_rows<T: Drop>(alloc: Global, count: usize) -> Option<Vec<HeldKey<T>>>
    ensures { IfSome result (λ rows. rows.items ≡ replicate count (record { generation = 0; count = 0; share = None })) }
{
    let mut rows = Vec::with_capacity(alloc, count).ok()?;
    for _ in 0..count {
        rows.push_reserved(HeldKey::none());
    }
    Some(rows)
}
