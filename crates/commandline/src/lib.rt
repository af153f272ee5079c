//! The words of the command lines of `poolrun` and `poolview`, what they ask for, and how the programs end where they
//! ask for nothing.
#![tactic(auto)]

mod fault;
mod hexadecimal;
mod hints;
mod lines;
mod mistakes;
mod reports;
mod requests;
mod run_lines;
mod tasks;
mod turns;
mod view_lines;
mod views;
mod wishes;
mod words;

pub use fault::TaskFault;
pub use hints::{hint, is_due, is_hinted, word_of};
pub use mistakes::{Mistake, Reason, write_mistake};
pub use reports::{end_by_words, read_args};
pub use requests::{Request, read_request, task};
pub use tasks::{Search, Stop, Task, Turns};
pub use turns::turns_in;
pub use views::{View, ViewRequest, Viewing, read_viewing};
pub use wishes::{Call, Wish, are_hints_wanted, is_wanted};
