//! Closures and guards over the calls of a pool: what they take they give back by themselves; lanes as one value, and
//! jobs on them in threads.
#![tactic(auto)]

mod closes;
mod closures;
mod contents;
mod filling;
mod jobs;
mod lanes;
mod laws;
mod named;
mod posts;
mod reading;
mod runs;
mod seats;
mod several;
mod told;
mod visitors;

pub use closes::{Unclosed, close_rows};
pub use closures::{create_with, with};
pub use contents::Contents;
pub use filling::FillGuard;
pub use jobs::Job;
pub use lanes::{Lanes, Missing, Opened, open_lanes, open_lanes_wide};
pub use laws::goes_on_law;
pub use named::PoolName;
pub use reading::ReadGuard;
pub use runs::{Unrun, run_lanes};
pub use seats::Seat;
pub use several::{with_four, with_three, with_two};
pub use told::Told;
pub use visitors::{Visit, Visitor};
