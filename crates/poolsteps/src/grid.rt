//! The table of a pool, the hands of its lanes, and where the words of a place stand.
ghost use Rattle.std.specs.Prelude.{◌≡◌, ◌/◌};
ghost use Rattle.keybits.specs.Keys.{key_number};
ghost use Rattle.keybits.specs.Shapes.{IsShape};
ghost use Rattle.keybits.specs.SameShapes.{IsShape-prop};
ghost use Rattle.poolsteps.specs.Layout.{word_count, page_count, page_rows, slot_count, slot_row, links_start};

use crate::cells::{Address, Base, Slot};
use crate::layout::PageRow;
use crate::view::View;
use atomic_table::{Seat, Table, TableRule};
use keybits::Shape;
use slotcell::Clear;
use std::alloc::Global;

/// The rule of a pool's table.
pub struct PoolRule;

impl<T: Clear> TableRule<Slot<T>, View, Board> for PoolRule {
    ghost use Rattle.poolsteps.specs.Rule.{Kept, first_view};
    ghost use Rattle.poolsteps.specs.Layout.{spots_at};

    ghost holds = { λ board. Kept T.content T.room (spots_at board.directory.at board.shape) board.shape };

    ghost first = { λ board. first_view board.shape };
}

/// A lane's seat at the table of its pool.
pub type Hand<T> = Seat<Slot<T>, View>;

/// A place of a pool, and where it stands.
#[derive(Clone, Copy, Debug, PartialEq, Eq)]
pub struct Spot {
    /// The place's number.
    pub place: u32,
    /// Where it stands in each row of words or of slots.
    pub start: u32,
}

/// What holds of a pool's table for good: its shape, and where the directory of its objects begins.
#[derive(Clone, Copy)]
pub struct Board {
    pub shape: Shape,
    pub directory: Address,
}

/// The words of a pool in one table, and a slot for each place and lane.
#[derive(Drop)]
pub struct Grid<T: Clear> {
    /// The table.
    pub table: Table<Slot<T>, View, Board, PoolRule, Global>,
    /// The pool's shape.
    pub shape: Shape,
    /// Where the pool's objects stand: each in the word of its place.
    pub objects: Base<T>,
    /// How many slots stand between those of a place for two lanes that follow each other.
    pub(crate) row: usize,
    /// Where the link words begin.
    pub(crate) links: usize,
    /// Where the places of each page stand.
    pub(crate) pages: Vec<PageRow>,
    /// What the first key of each place is without its place: the pool's tag, and generation 1.
    pub(crate) first_key: u64,
    ghost board_is: { table.shared.key ≡ record { shape = shape; directory = record { at = objects.ptr } } },
    ghost checked: { IsShape shape } by { IsShape-prop shape },
    ghost sized: { table.shared.table_id.words ≡ word_count shape },
    ghost deep: { table.shared.table_id.slots ≡ slot_count shape },
    ghost pages_are: { pages.items ≡ page_rows shape (page_count shape) },
    ghost row_is: { row ≡ slot_row shape },
    ghost links_are: { links ≡ links_start shape },
    ghost first_key_is: { first_key ≡ key_number shape.tag 0 1 / 16777216 },
}
