//! What a thread of a foreign program has of a pool of buffers: its lane with a share of the pool, the places that it
//! fills and the references that it has, each under its key alone.
#![tactic(auto)]

mod closing;
pub mod counting_lane;
pub mod fillings;
pub mod handle;
pub mod kept;
mod opening;
mod refusal;
pub mod shared;
pub mod slot;

pub use closing::{close, close_lanes, join};
pub use counting_lane::CountingLane;
pub use opening::open_handles;
pub use refusal::Refusal;
