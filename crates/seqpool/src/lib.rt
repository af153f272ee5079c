//! The pool of one thread: its acts, its legal histories and their laws.
//!
//! - Acts: `act` and `contents`; why one is refused, `fault`.
//! - The pool that acts are applied to: `pool`, which keeps a `row` for each place, with a `tally` for each lane; the
//!   `laws`.
//! - The checker of histories: `checker`, which gives a `summary`.
//! - Acts as text: `acts_text` writes, `acts_reader` reads by lines and `acts_fields` by fields; `acts_fault`, and with
//!   its place `acts_refusal`.
#![tactic(auto)]

mod act;
mod acts_fault;
mod acts_fields;
mod acts_reader;
mod acts_refusal;
mod acts_text;
mod checker;
mod contents;
mod fault;
mod laws;
mod pool;
mod row;
mod summary;
mod tally;

pub use act::Act;
pub use acts_fault::ActsFault;
pub use acts_fields::{cut, is_word, read_content, read_key, read_place, read_u32};
pub use acts_reader::read_acts;
pub use acts_refusal::{ActsPlace, ActsRefusal};
pub use acts_text::{hex_pair, write_acts};
pub use checker::check;
pub use contents::{Bytes, Places};
pub use fault::{ApplyFault, CheckFault, Memory};
pub use laws::{clear_law, get_law, later_law, miss_law, once_law, own_law, reclaim_law};
pub use pool::SeqPool;
pub use summary::Summary;
