//! Pools whose objects are handed out: a call that reclaims a place answers what its object held, and whoever creates
//! may bring a spare. No code of the object's own type runs within such a call.
#![tactic(auto)]

mod calls;
mod held;
#[cfg(test)]
mod test_handouts;

pub use calls::{clear, get, release};
pub use held::{HandOut, Held};
