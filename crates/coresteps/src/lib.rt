//! The pool's algorithm as a pure machine: it replays scripts over any schedule and tells each atomic step.
#![tactic(auto)]

mod aims;
mod answers;
mod commands;
mod fault;
mod lane;
mod notes;
mod own;
mod progress;
mod replay;
mod shared;
mod steps;
mod words;

pub use fault::CoreFault;
pub use replay::{Core, run};
pub use traces::{Command, Operand, Register, Replies, Reply, Script, Trace, Turn, write_trace};
