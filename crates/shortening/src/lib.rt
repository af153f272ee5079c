//! Schedules with as few entries as still show a word in their replay.
#![tactic(auto)]

mod acts;
mod bounds;
mod choices;
mod command_trial;
mod copies;
mod fault;
mod plans;
mod printing;
mod short;
mod shorter;
mod trial;
mod watch;
mod word_trial;
mod words;

pub use acts::acts_of;
pub use bounds::Bounds;
pub use copies::copy_scripts;
pub use fault::Unshortened;
pub use plans::{Sought, shorten_plan};
pub use short::{Short, ShortPlan};
pub use shorter::shorten;
pub use trial::Trial;
pub use watch::Watch;
pub use word_trial::WordTrial;
pub use words::stands_in;
