//! What the seat of one caller of a pool does at its table, beside no more than the place: cells in and out of slots, what
//! becomes of a place that was claimed, and the calls of guests, who own no shard. What a lane keeps beside its seat is in
//! `shardpool`.
#![tactic(auto)]

mod at;
mod cell_moves;
mod claimed;
mod emptier;
mod ended;
mod guest_clear;
mod guest_get;
mod guest_look;
mod guest_notes;
mod guest_release;
mod guests;
mod kept_hand;
mod kept_snapshot;
mod references;
mod threads;

pub use at::{At, Reclaimed, owed_by};
pub use cell_moves::{rest_cell, spread_cell, spread_others, take_cell, take_resting};
pub use claimed::Claimed;
pub use emptier::{Emptier, InPlace};
pub use ended::Ended;
pub use guests::Guest;
pub use references::GuestRef;
