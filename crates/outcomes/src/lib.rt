//! Every outcome of scripts: what their lanes can reply, over whatever schedule, and how many schedules end so.
#![tactic(auto)]

mod count;
mod digits;
mod fault;
mod follow;
mod lanes;
mod layer;
mod order;
mod outcome;
mod reached;
mod search;
mod table;
mod texts;

pub use count::Count;
pub use fault::Unlisted;
pub use outcome::Outcome;
pub use search::{Outcomes, all_outcomes};
pub use texts::outcomes_text;
