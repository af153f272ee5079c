//! The table of a sharded object pool: its atomic words, the slots for shares, the cells in which the objects stand. Each step
//! on a word and each move of shares is one call that keeps what holds between any two steps; who then has which share of which
//! cell is told by laws. What a lane has of places is here too, and how the cells of a closed pool are dropped.
#![tactic(auto)]

mod at_once;
mod bits;
mod cells;
mod closing;
mod directory;
mod directory_end;
mod find;
mod grid;
mod laws;
mod layout;
mod memory;
mod moves;
mod notes;
mod objects;
mod opening;
mod returns;
mod rows;
mod share_laws;
mod steps;
mod threads;
mod view;

pub use cells::{Address, Base, Rest, Share, Slot, Tally, Whole};
pub use closing::out_cell;
pub use directory::Directory;
pub use directory_end::close_directory;
pub use grid::{Board, Grid, Hand, PoolRule, Spot};
pub use laws::{acts_law, references_law, shares_law};
pub use layout::{
    SHARDS_APART, bits_word, life_at, life_word, link_word, shard_start, slot_at, slot_row,
    slot_start, stack_word,
};
pub use objects::Objects;
pub use rows::BYTES_APART;
pub use share_laws::{
    acts_share_law, collect_share_law, first_share_law, held_content_law, home_share_law, move_law,
    publish_share_law, reclaim_share_law, rights_law, with_law,
};
pub use steps::Purpose;
pub use view::{Deed, LaneRecord, Status, Stored, View};
