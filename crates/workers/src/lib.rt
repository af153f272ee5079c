//! Scripts as workers on threads: each works on a lane of one pool, line by line.
#![tactic(auto)]

mod begun;
mod gate;
mod jobs;
mod lines;
mod registers;
mod rows;
mod threads;
mod working;

pub use gate::Gate;
pub use jobs::{Done, Job, Report};
pub use rows::{jobs_of, parts_of};
pub use threads::run_workers;
pub use working::work;
