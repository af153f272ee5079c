//! What decides a trace: its schedule does, and what turns leave behind decides those after them.
#![tactic(auto)]

mod laws;

pub use laws::{one_trace_law, onward_law};
