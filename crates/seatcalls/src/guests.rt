//! Guests: callers that own no shard.
ghost use Rattle.std.specs.Prelude.{◌≡◌, ◌<◌, []};
ghost use Rattle.poolsteps.specs.Grids.{IsFirstHand};

use crate::kept_snapshot::KeptSnapshot;
use keybits::Shape;
use poolsteps::{Grid, Hand};
use slotcell::Clear;
use std::marker::Model;

/// A caller that owns no shard: it gets, reads, releases and clears. It has at most one reference, with which it travels,
/// and makes one call at a time; it may go from thread to thread between two of them.
#[derive(Drop)]
pub struct Guest<T: Clear> {
    pub(crate) hand: Hand<T>,
    pub(crate) number: u32,
    pub(crate) shape: KeptSnapshot<Shape>,
}

impl<T: Clear> Model for Guest<T> {
    ghost use Rattle.std.specs.Prelude.{◌≡◌, []};
    ghost use Rattle.seatcalls.specs.Visitors.{GuestOf, IsFree};

    ghost Value = { GuestOf };

    ghost view = { λ g. record { table = g.hand.table_id; shape = g.shape.value; number = g.number; book = g.hand.me.0 } };

    ghost invariant = { λ g. (g.hand.me.1 ≡ [])
        × IsFree (record { table = g.hand.table_id; shape = g.shape.value; number = g.number; book = g.hand.me.0 }) };
}

impl<T: Clear> Guest<T> {
    ghost use Rattle.std.specs.Prelude.{◌≡◌, ◌<◌, ◌≤◌, []};
    ghost use Rattle.keybits.specs.Shapes.{callers};
    ghost use Rattle.poolsteps.specs.Grids.{IsOf};
    ghost use Rattle.seatcalls.specs.Visitors.{IsFree};

    /// The guest of this number of a grid, with its hand.
    pub fn of(grid: &Grid<T>, hand: Hand<T>, number: u32) -> Guest<T>
        requires hand { IsOf grid.now hand × (hand.me.1 ≡ []) }
        requires free { IsFree (record { table = hand.table_id; shape = grid.now.shape; number = number; book = hand.me.0 }) }
        ensures { result ≡ record { table = hand.table_id; shape = grid.now.shape; number = number; book = hand.me.0 } }
    {
        Guest {
            hand,
            number,
            shape: KeptSnapshot::of(&grid.shape),
        }
    }

    /// The guest of this number of a grid, before its first step.
    pub fn first(grid: &Grid<T>, hand: Hand<T>, number: u32) -> Guest<T>
        requires hand { IsFirstHand grid.now number hand }
        requires guest { (grid.now.shape.lanes ≤ number) × (number < callers grid.now.shape) }
        ensures { result ≡ record { table = hand.table_id; shape = grid.now.shape; number = number; book = hand.me.0 } }
    {
        Guest::of(grid, hand, number)
    }

    /// The guest's hand, and its number.
    pub fn into_hand(self) -> (Hand<T>, u32)
        ensures hand { (result.0.table_id ≡ self.table) × (result.0.me ≡ (self.book, [])) }
        ensures number { result.1 ≡ self.number }
        ensures free { IsFree self }
    {
        let Guest {
            hand,
            number,
            shape,
        } = self;
        drop(shape);
        (hand, number)
    }

    /// The guest's number.
    pub fn number(&self) -> u32
        ensures { result ≡ self.now.number }
    {
        self.number
    }

    /// As a law: what holds of a guest between two calls. What it has seen is a legal history of the pool, with just
    /// those of its acts that it made; it has no reference, and no place is with it.
    pub fn seen_law(&self)
        ensures { IsFree self.now }
    {
        // A proof knows the invariant of a guest once a field of it is seen.
        let _ = &self.hand;
    }
}
