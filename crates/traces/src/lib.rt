//! Traces of the pool's algorithm: the commands of a lane's script, what a lane does in a turn, which traces are
//! lawful, what follows from that, and the text of a trace.
#![tactic(auto)]

mod laws;
mod registers;
mod reply;
mod script;
mod text;
mod trace;
mod turn_laws;

pub use laws::{holds_law, stands_law};
pub use registers::{Holding, RegisterState};
pub use reply::{Replies, Reply};
pub use script::{Command, Operand, Register, Script};
pub use text::{write_reply_line, write_trace};
pub use trace::{Trace, Turn};
pub use turn_laws::{acts_law, replies_law, script_law, words_law};
