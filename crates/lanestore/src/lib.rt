//! A pool with its lanes in places, each had by one call at a time: so any number of threads use a pool of few lanes.
#![tactic(auto)]

mod calls;
mod closing;
mod filling_calls;
mod keeper;
mod kept;
mod lent;
mod opening;
mod place;
mod refusal;
mod store;
mod visit;

pub use kept::MOST_FILLINGS;
pub use lent::Lent;
pub use refusal::Refusal;
pub use store::Store;
pub use visit::Visit;
