//! The calls of the program: a script file's bytes become a trace, or a pool with a worker on each of its lanes and
//! what these replied; a text of acts the line of its check; a number what it names as a key, or says as a lifecycle
//! word. `run_program` is the whole program over any input and writers.
#![tactic(auto)]

mod check;
mod done;
mod every_outcome;
mod explanation;
mod half_run;
mod key;
mod listing;
mod meter;
mod opening;
mod program;
mod progress;
mod replay;
mod replayed;
mod run;
mod run_fault;
mod shortest;
mod tasks;
mod texts;
mod turns;
mod word;

pub use check::check_text;
pub use done::Done;
pub use every_outcome::every_outcome_text;
pub use explanation::{Subject, explain, subject_of};
pub use key::key_text;
pub use meter::Meter;
pub use program::{Ending, run_program};
pub use replay::{replay_plan, replay_text};
pub use replayed::Replayed;
pub use run::run_text;
pub use run_fault::RunFault;
pub use schedules::{read_schedule, stop_after};
pub use shortest::{short_plan_text, shortening_text, shortest_text};
pub use tasks::{do_task, status_of, write_report};
pub use turns::{plan_turns, replay_turns, schedule_text};
pub use word::word_text;
