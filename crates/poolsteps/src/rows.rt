//! The row of a lane: of each word of its own places in a directory, what the lane has of the place.
ghost use Rattle.std.specs.Prelude.{◌≡◌, ℕ, ◌+◌, ◌<◌, ◌≤◌, true, Some, None, length, replicate, slice_get, slice_set, IfSome, IsNone};
ghost use Rattle.poolsteps.specs.declared.rows.Own.TheVariants as owns;
ghost use Rattle.poolsteps.specs.Objects.{spot_at};
ghost use Rattle.poolsteps.specs.Rows.{IsOwnOf, AreOwn, is_here, object_in};

use crate::cells::{Base, Whole};
use crate::directory::Directory;
use std::alloc::Global;
use std::mem;

// What a lane has of a place.
#[derive(Drop)]
pub(crate) enum Own<T> {
    // Nothing.
    Away,
    // The place, which wasn't used yet.
    Unused(Whole<T>),
    // The place, which came back for the close.
    Back(Whole<T>),
    // The place, whose object waits there.
    Whole(Whole<T>),
}

impl<T> Own<T> {
    // Whether it is away.
    pub(crate) fn is_away(&self) -> bool {
        match self {
            Own::Away => true,
            Own::Unused(_) | Own::Back(_) | Own::Whole(_) => false,
        }
    }

    // Whether the right is here, and in use.
    pub(crate) fn is_here(&self) -> bool
        ensures { result ≡ is_here self.now }
    {
        match self {
            Own::Away | Own::Back(_) => false,
            Own::Unused(_) | Own::Whole(_) => true,
        }
    }
}

/// How many bytes stand between what different lanes write: a processor may fetch two lines of 64 bytes together.
pub const BYTES_APART: usize = 128;

// A row for so many words, with nothing. None where memory was refused.
pub(crate) fn none_own<T>(alloc: Global, count: usize) -> Option<Vec<Own<T>>>
    ensures { IfSome result (λ row. row.items ≡ replicate count owns.Away) }
{
    let mut row = Vec::with_capacity(alloc, count.saturating_add(BYTES_APART)).ok()?;
    for _ in 0..count {
        row.push_reserved(Own::Away);
    }
    Some(row)
}

// Takes the next places out of the directory, into the beginning of a row.
pub(crate) fn endow_row<T: Drop>(row: &mut Vec<Own<T>>, directory: &mut Directory<T>, count: usize)
    requires count { directory.old.next + count ≤ directory.old.count }
    requires room { count ≤ length row.old.items }
    requires own { AreOwn directory.old.at directory.old.next row.old.items }
    ensures own { AreOwn directory.old.at directory.old.next row.new.items }
    ensures here { (index : ℕ) (own : Own T) → slice_get row.new.items index ≡ Some own → index < count
        → (is_here own ≡ true) × (object_in own ≡ None) }
    ensures room { length row.new.items ≡ length row.old.items }
    ensures directory { directory.new ≡ record directory.old { next = directory.old.next + count } }
{
    for index in 0..count {
        row[index] = Own::Unused(directory.next());
    }
}

// Takes a place out of the row, where it has this index. None where it is away.
#[inline]
pub(crate) fn claim<T: Drop>(
    row: &mut Vec<Own<T>>,
    directory: &Base<T>,
    start: usize,
    index: usize,
) -> Option<Whole<T>>
    requires index { index < length row.old.items }
    requires own { (own : Own T) → slice_get row.old.items index ≡ Some own → IsOwnOf directory.now.ptr start own }
    ensures some { IfSome result (λ whole. whole.spot ≡ spot_at directory.now.ptr start) }
    ensures none { IsNone result → slice_get row.old.items index ≡ Some owns.Away }
    ensures row { row.new.items ≡ slice_set row.old.items index owns.Away }
{
    let own = mem::replace(&mut row[index], Own::Away);
    right_in(own, *directory, start)
}

// Takes a place whose object waits there out of what a lane has of it. None where no object waits, which changes nothing.
#[inline]
pub(crate) fn part_with<T>(own: Own<T>, at: (Base<T>, usize)) -> (Own<T>, Option<Whole<T>>)
    requires { IsOwnOf at.0.ptr at.1 own }
    ensures own { IsOwnOf at.0.ptr at.1 result.0 }
    ensures some { IfSome result.1 (λ whole. (whole.spot ≡ spot_at at.0.ptr at.1) × (object_in own ≡ Some whole.object)
        × (result.0 ≡ owns.Away)) }
    ensures none { IsNone result.1 → (object_in own ≡ None) × (result.0 ≡ own) }
{
    let _ = at;
    match own {
        Own::Whole(whole) => (Own::Away, Some(whole)),
        other => (other, None),
    }
}

// The place that a lane has. None where it is away.
#[inline]
pub(crate) fn right_in<T: Drop>(own: Own<T>, directory: Base<T>, start: usize) -> Option<Whole<T>>
    requires { IsOwnOf directory.ptr start own }
    ensures some { IfSome result (λ whole. whole.spot ≡ spot_at directory.ptr start) }
    ensures none { IsNone result → own ≡ owns.Away }
{
    let _ = (directory, start);
    match own {
        Own::Away => None,
        Own::Unused(whole) | Own::Back(whole) | Own::Whole(whole) => Some(whole),
    }
}
