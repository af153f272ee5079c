//! Outcomes of scripts.
use crate::count::Count;
use traces::Replies;

/// What all lanes reply over some schedule that runs the scripts to their ends.
#[derive(Drop)]
pub struct Outcome {
    /// The first schedule that ends so, by the order of lane numbers.
    pub schedule: Vec<u32>,
    /// The replies of each lane.
    pub replies: Vec<Replies>,
    /// How many schedules end so.
    pub ways: Count,
}
