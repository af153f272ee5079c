//! The guests of a pool, and how they are dealt.
ghost use Rattle.std.specs.Prelude.{◌≡◌, ◌+◌, Some};
ghost use Rattle.keybits.specs.Shapes.{callers as all_callers};
ghost use Rattle.poolsteps.specs.Grids.{IsFirstHand, IsUndealt};
ghost use Rattle.shardpool.specs.Opened.{AreFirstGuests, HasUndealt, Deals};

use crate::pool::Pool;
use poolsteps::{Grid, Hand};
use seatcalls::Guest;
use slotcell::Clear;
use std::marker::Model;
use std::snapshot::Snapshot;

/// The guests of a pool that were not dealt yet. It takes a few words, however many there are.
#[derive(Drop)]
pub struct Guests<T: Clear> {
    /// The hand of all of them, from which theirs are dealt; where none is left, there is none.
    pub(crate) hand: Option<Hand<T>>,
    /// The number of the next one.
    pub(crate) next: u32,
    /// How many callers the pool has, whose numbers are below.
    pub(crate) callers: u32,
    pub(crate) grid: Snapshot<Grid<T>>,
}

impl<T: Clear> Model for Guests<T> {
    ghost use Rattle.std.specs.Prelude.{◌≡◌, ◌≤◌};
    ghost use Rattle.keybits.specs.Shapes.{IsShape, callers as all_callers};
    ghost use Rattle.shardpool.specs.Tokens.{GuestsOf};
    ghost use Rattle.shardpool.specs.Opened.{HasUndealt};

    ghost Value = { GuestsOf };

    ghost view = { λ g. record { table = g.grid.value.table.shared.table_id; shape = g.grid.value.shape; next = g.next } };

    ghost invariant = { λ g. HasUndealt g.grid.value g.next g.hand × (g.callers ≡ all_callers g.grid.value.shape)
        × IsShape g.grid.value.shape × (g.grid.value.shape.lanes ≤ g.next) };
}

impl<T: Clear + Drop> Pool<T> {
    ghost use Rattle.std.specs.Prelude.{◌≡◌};

    /// The next guest of the pool, and None where all were dealt. A guest gets, reads, releases and clears, without a
    /// lane.
    pub fn deal(&self, guests: &mut Guests<T>) -> Option<Guest<T>>
        requires { (guests.old.table ≡ self.now.table) × (guests.old.shape ≡ self.now.shape) }
        ensures { Deals guests.old guests.new result }
    {
        let all = guests.hand.take()?;
        let number = guests.next;
        let (hand, others) = deal_first(&self.grid, all, number, guests.callers);
        guests.hand = others;
        guests.next = number + 1;
        Some(Guest::first(&self.grid, hand, number))
    }
}

/// The hand of the first of the callers from `next` on, and that of the others, if there are any.
fn deal_first<T: Clear>(
    grid: &Grid<T>,
    mut all: Hand<T>,
    next: u32,
    callers: u32,
) -> (Hand<T>, Option<Hand<T>>)
    requires callers { callers ≡ all_callers grid.now.shape }
    requires all { HasUndealt grid.now next (Some all) }
    ensures first { IsFirstHand grid.now next result.0 }
    ensures others { HasUndealt grid.now (next + 1) result.1 }
{
    if next + 1 == callers {
        return (all, None);
    }
    let first = grid.deal(&mut all);
    (first, Some(all))
}

impl<T: Clear> Guests<T> {
    ghost use Rattle.std.specs.Prelude.{◌≡◌, ◌+◌};
    ghost use Rattle.keybits.specs.Shapes.{callers as all_callers};

    /// How many they are.
    pub fn left(&self) -> u32
        ensures { self.now.next + result ≡ all_callers self.now.shape }
    {
        self.callers - self.next
    }

    /// All guests of a table, by their hand.
    pub(crate) fn all_of(grid: &Grid<T>, all: Hand<T>) -> Guests<T>
        requires { IsUndealt grid.now grid.now.shape.lanes grid.now.shape.guests all }
        ensures { result ≡ record { table = grid.now.table.shared.table_id; shape = grid.now.shape; next = grid.now.shape.lanes } }
    {
        let shape = grid.shape;
        let hand = if shape.guests == 0 { None } else { Some(all) };
        Guests {
            hand,
            next: shape.lanes,
            callers: shape.lanes + shape.guests,
            grid: Snapshot::of(grid),
        }
    }

    /// None of a pool that has no guests.
    pub(crate) fn none(pool: &Pool<T>) -> Guests<T>
        requires { pool.now.shape.guests ≡ 0 }
        ensures { AreFirstGuests pool.now result }
    {
        let lanes = pool.grid.shape.lanes;
        Guests {
            hand: None,
            next: lanes,
            callers: lanes,
            grid: Snapshot::of(&pool.grid),
        }
    }
}
