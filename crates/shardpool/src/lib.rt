//! A sharded pool of objects that are cleared and used again in place: threads share the pool, each with a lane of its
//! own, without a lock and in a stated number of steps. Each call has a file: `create`, `publish`, `discard`, `get`,
//! `release`, `clear`, `halt`; what two of them do at their end is in `reclaim`.
#![tactic(auto)]

mod bits;
mod census;
mod clear;
mod closing;
mod create;
mod discard;
mod fault;
mod gather;
mod get;
mod guest_calls;
mod guests;
mod halt;
mod lane;
mod laws;
mod lending;
mod looks;
mod notes;
mod opening;
mod pool;
mod publish;
mod reclaim;
mod release;
mod returned_shares;
mod stores;
mod take_back;

pub use census::{Census, Part};
pub use closing::{close, close_with_guests};
pub use create::{CreateFault, Filling};
pub use fault::{GuestsFault, OpenFault};
pub use get::Ref;
pub use guests::Guests;
pub use halt::{Halted, LastCall};
pub use lane::MOST_REFERENCES;
pub use laws::{parts_law, room_law};
pub use lending::{LendingLane, Loan};
pub use notes::Note;
pub use opening::{open, open_wide, open_with_guests};
pub use pool::{Lane, Pool};
pub use seatcalls::{Claimed, Emptier, Ended, Guest, GuestRef, InPlace};
