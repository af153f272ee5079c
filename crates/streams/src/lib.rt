//! What programs read and write: files and inputs that are read to their end, writers that remember whether a write
//! failed, and why, lines, and how bytes are shown that aren't the programs' own.
#![tactic(auto)]

mod lines;
mod reading;
mod shown;
mod write_failed;
mod writer;
mod writing;

pub use lines::{after_line, line_at};
pub use reading::{Unread, Unreadable, load, load_input, read_path};
pub use shown::{line_of, push_bytes, push_cut, push_shown, write_bytes, write_cut, write_lines};
pub use write_failed::{Unwritable, WriteFailed};
pub use writer::Watched;
pub use writing::{write_and_flush, write_text};
