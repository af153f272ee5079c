//! Whether two traces leave the same behind, as far as the turns to come and the replies depend on it.
#![tactic(auto)]

mod acts;
mod contents;
mod lanes;
mod replies;
mod standing;
mod steps;
mod turns;
mod words;

pub use replies::same_replies;
pub use standing::same_standing;
