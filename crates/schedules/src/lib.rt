//! Schedules of turns: as text, in files, drawn by a generator, and with a lane that stops; and decimal numbers as
//! words.
#![tactic(auto)]

mod cut;
mod fault;
mod listed;
mod number;
mod schedule;
mod seeds;
mod stop;

pub use fault::Memory;
pub use listed::{join_lines, push_schedule, read_joined};
pub use number::{read_digit, read_number};
pub use schedule::{bad_entry, read_schedule, read_stop};
pub use seeds::draw;
pub use stop::stop_after;
