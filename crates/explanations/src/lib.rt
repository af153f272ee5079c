//! Why a script file or a text of acts is refused, or an act is illegal, and what a replay left undone: in words, in
//! one line that can be printed.
#![tactic(auto)]

mod acts;
mod acts_fields;
mod found;
mod half_run;
mod json_fault;
mod json_flaw;
mod places;
mod plain;
mod reasons;
mod script;
mod wanted;

pub use acts::{explain_acts, explain_check};
pub use half_run::explain_half;
pub use plain::{explain_file, explain_no_key, explain_output};
pub use script::explain_script;
