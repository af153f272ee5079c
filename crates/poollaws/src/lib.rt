//! Laws for the proofs of a client: of histories that go on, of keys that are gone, of closed pools and of rooms.
#![tactic(auto)]

mod guest_laws;
mod laws;
mod roomy;

pub use guest_laws::{guest_cleared_law, guest_gone_law, guest_seen_law, guests_close_law};
pub use laws::{
    cleared_law, close_law, end_law, going_law, gone_law, key_law, own_acts_law, owner_law,
    room_kept_law,
};
pub use roomy::Roomy;
