//! The close of a pool with guests, which looks whether all lanes and guests are back.
ghost use Rattle.std.specs.Prelude.{◌≡◌, ◌+◌, ◌<◌, ◌≤◌, ℕ, true, false, length, IfOk, IfErr, IsOk};
ghost use Rattle.keybits.specs.Shapes.{all_places, callers};
ghost use Rattle.shardpool.specs.Closings.{AreAllLanes, AreGuests, ClosesWithGuests, places_counted};
ghost use Rattle.guards.specs.Rows.{HasLane, HasGuest, AreLanesOf, AreGuestsOf, IsDealerOf};

use keybits::Shape;
use seatcalls::Guest;
use shardpool::{Census, Guests, Lane, Pool, close_with_guests};
use slotcell::Clear;

/// What a close gives back where a lane or a guest is missing: the pool is still open, and all is as it was.
#[derive(Drop)]
pub struct Unclosed<T: Clear> {
    pub pool: Pool<T>,
    pub lanes: Vec<Lane<T>>,
    pub undealt: Guests<T>,
    pub dealt: Vec<Guest<T>>,
}

/// Closes a pool of this shape as `shardpool::close_with_guests` does, if all its lanes are in the one row, and all guests
/// that were dealt in the other, in any order. It takes no memory.
///
/// # Errors
///
/// Where a lane or a guest is missing. The pool and the rows are then as they were.
pub fn close_rows<T: Clear + Drop>(
    pool: Pool<T>,
    shape: &Shape,
    lanes: Vec<Lane<T>>,
    undealt: Guests<T>,
    dealt: Vec<Guest<T>>,
) -> Result<Census, Unclosed<T>>
    requires shape { shape.now ≡ pool.shape }
    requires lanes { AreLanesOf pool lanes.items }
    requires undealt { IsDealerOf pool undealt }
    requires dealt { AreGuestsOf pool dealt.items }
    ensures closes { IfOk result (ClosesWithGuests pool lanes.items undealt dealt.items) }
    ensures adds { IfOk result (λ census. places_counted census ≡ all_places pool.shape) }
    ensures back { IfErr result (λ unclosed. (unclosed.pool ≡ pool) × (unclosed.lanes.items ≡ lanes.items)
        × (unclosed.undealt ≡ undealt) × (unclosed.dealt.items ≡ dealt.items)) }
    ensures all { AreAllLanes pool lanes.items → AreGuests pool undealt dealt.items → IsOk result }
{
    if are_all_lanes(&lanes, shape.lanes) && are_all_guests(&dealt, shape, undealt.left()) {
        return Ok(close_with_guests(pool, lanes, undealt, dealt));
    }
    Err(Unclosed {
        pool,
        lanes,
        undealt,
        dealt,
    })
}

/// Whether so many lanes are in a row, one of each number.
fn are_all_lanes<T: Clear>(lanes: &[Lane<T>], count: u32) -> bool
    ensures all { result ≡ true → (length lanes.now ≡ count) × ((number : ℕ) → number < count → HasLane lanes.now number) }
    ensures missing { result ≡ false → length lanes.now ≡ count → (number : ℕ) × (number < count) × (HasLane lanes.now number → ⊥) }
{
    if lanes.len() != count as usize {
        return false;
    }
    for number in 0..count {
        if !has_lane(lanes, number) {
            return false;
        }
    }
    true
}

/// Whether all guests of a shape are in a row, one of each number, but for so many that have the highest numbers.
fn are_all_guests<T: Clear + Drop>(guests: &[Guest<T>], shape: &Shape, left: u32) -> bool
    ensures all { result ≡ true → (length guests.now + left ≡ shape.now.guests)
        × ((number : ℕ) → shape.now.lanes ≤ number → number + left < shape.now.lanes + shape.now.guests → HasGuest guests.now number) }
    ensures missing { result ≡ false → length guests.now + left ≡ shape.now.guests
        → (number : ℕ) × (shape.now.lanes ≤ number) × (number + left < shape.now.lanes + shape.now.guests)
        × (HasGuest guests.now number → ⊥) }
{
    let Some(dealt) = shape.guests.checked_sub(left) else {
        return false;
    };
    if guests.len() != dealt as usize {
        return false;
    }
    for index in 0..dealt {
        if !has_guest(guests, shape.lanes, index) {
            return false;
        }
    }
    true
}

/// Whether the lane of this number is in a row.
fn has_lane<T: Clear>(lanes: &[Lane<T>], number: u32) -> bool
    ensures has { result ≡ true → HasLane lanes.now number }
    ensures hasnt { result ≡ false → HasLane lanes.now number → ⊥ }
{
    for lane in lanes {
        if lane.number() == number {
            return true;
        }
    }
    false
}

/// Whether the guest that many behind the first of a pool is in a row, by the first one's number.
fn has_guest<T: Clear + Drop>(guests: &[Guest<T>], first: u32, index: u32) -> bool
    ensures has { result ≡ true → HasGuest guests.now (first + index) }
    ensures hasnt { result ≡ false → HasGuest guests.now (first + index) → ⊥ }
{
    for guest in guests {
        let number = guest.number();
        if number >= first && number - first == index {
            return true;
        }
    }
    false
}
