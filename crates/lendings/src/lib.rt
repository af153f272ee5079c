//! References that travel: any thread reads and clones them, without a lane and without a lock.
#![tactic(auto)]

mod lender;
mod out;
mod outs;
mod owned;
mod refusal;

pub use lender::Lender;
pub use owned::{Owned, crosses_law};
pub use refusal::Refusal;
