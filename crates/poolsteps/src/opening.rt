//! How a pool's table is made, and its places are found.
ghost use Rattle.std.specs.Prelude.{◌≡◌, ◌/◌, [], IfSome};
ghost use Rattle.keybits.specs.declared.step.Word.TheVariants as words;
ghost use Rattle.keybits.specs.Shapes.{IsShape};
ghost use Rattle.poolsteps.specs.Rule.{first_view};
ghost use Rattle.poolsteps.specs.Seats.{without_first, first_alone};
ghost use Rattle.poolsteps.specs.Grids.{IsOf, SameSeat, AreFirstHands, IsUndealt};

use crate::cells::Base;
use crate::grid::{Board, Grid, Hand};
use crate::layout::{first_slots, first_words, links_start, page_rows, slot_row};
use crate::view::View;
use atomic_table::{Split, Table};
use keybits::Shape;
use slotcell::Clear;
use std::alloc::Global;

/// A lane's seat is cut from that of all lanes.
pub(crate) struct Deal;

impl Split<View> for Deal {
    ghost use Rattle.poolsteps.specs.Seats.{without_first, first_alone};

    ghost left = { without_first };

    ghost right = { first_alone };
}

impl<T: Clear> Grid<T> {
    /// The table of a pool of this shape, the hand of each lane, by rising number, and one of all guests, from which theirs
    /// are dealt. None where memory was refused.
    pub fn new(
        alloc: Global,
        shape: &Shape,
        objects: Base<T>,
    ) -> Option<(Grid<T>, Vec<Hand<T>>, Hand<T>)>
        requires { IsShape shape.now }
        ensures shape { IfSome result (λ made. (made.0.shape ≡ shape.now) × (made.0.objects ≡ objects)) }
        ensures hands { IfSome result (λ made. AreFirstHands made.0 made.1.items) }
        ensures guests { IfSome result (λ made. IsUndealt made.0 shape.now.lanes shape.now.guests made.2) }
    {
        let mut hands = Vec::with_capacity(alloc, shape.lanes as usize).ok()?;
        let (grid, mut seat) = Grid::undealt(alloc, *shape, objects)?;
        for _ in 0..shape.lanes {
            hands.push_reserved(grid.deal(&mut seat));
        }
        Some((grid, hands, seat))
    }

    /// The table of a pool of this shape, and the seat of all its lanes. None where memory was refused.
    fn undealt(alloc: Global, shape: Shape, objects: Base<T>) -> Option<(Grid<T>, Hand<T>)>
        requires { IsShape shape }
        ensures shape { IfSome result (λ made. (made.0.shape ≡ shape) × (made.0.objects ≡ objects)) }
        ensures seat { IfSome result (λ made. IsOf made.0 made.1 × (made.1.me ≡ (first_view shape, []))) }
    {
        let pages = page_rows(alloc, &shape)?;
        let words = first_words(alloc, &shape)?;
        let slots = first_slots(alloc, &shape)?;
        let board = Board {
            shape,
            directory: objects.address(),
        };
        let (table, seat) = Table::new(alloc, words.as_slice(), slots, &board).ok()?;
        let grid = Grid {
            table,
            row: slot_row(&shape),
            links: links_start(&shape),
            pages,
            first_key: (u64::from(shape.tag) << 32) + 1,
            shape,
            objects,
        };
        Some((grid, seat))
    }

    /// The hand of the first caller of a hand of several, which keeps the others.
    pub fn deal(&self, seat: &mut Hand<T>) -> Hand<T>
        requires { IsOf self.now seat.old }
        ensures lane { IsOf self.now result × (result.me ≡ (first_alone seat.old.me.0, [])) }
        ensures rest { SameSeat seat.old seat.new × (seat.new.me ≡ (without_first seat.old.me.0, seat.old.me.1)) }
    {
        self.table.shared.split_seat::<Deal>(seat)
    }
}
