//! Script files: what their bytes stand for; and the schedules of their turns.
#![tactic(auto)]

mod command_name;
mod commands;
mod fields;
mod operands;
mod plan;
mod reading;
mod script_fault;
mod script_place;
mod script_refusal;
mod writing;

pub use command_name::{CommandName, find_command};
pub use plan::{Plan, Scripts};
pub use reading::parse;
pub use schedules::{Memory, draw, stop_after};
pub use script_fault::ScriptFault;
pub use script_place::{FieldName, ScriptPlace};
pub use script_refusal::ScriptRefusal;
pub use writing::plan_text;
