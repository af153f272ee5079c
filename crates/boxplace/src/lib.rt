//! A place for a box, from which one thread at a time has it: one exchange of a pointer takes it, and one gives it back.
#![tactic(auto)]

mod loose;
mod place;
mod unboxed;

pub use place::{Fits, Place};
pub use unboxed::Unboxed;
