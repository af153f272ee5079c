//! The laws of the steps of a sharded object pool: what holds between any two atomic steps, and that each kind of step
//! keeps it.
#![tactic(auto)]

mod moment_laws;
mod pending;
mod step_laws;

pub use moment_laws::{count_law, home_law, own_law, quiet_law, start_law};
pub use pending::Pending;
pub use step_laws::{
    claim_law, enter_law, follow_law, gather_law, leave_law, link_law, mark_law, publish_law,
    push_law, return_law, take_law,
};
