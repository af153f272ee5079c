//! The text of a trace, as it is read, and what people see of it: its lines with their words decoded, a summary, and a
//! picture.
//!
//! - The text: `reader`, line by line, each a step (`steps`) or a reply (`replies`) of a lane, as `line` has it; its
//!   `fields`; why it is none, `fault`.
//! - The lines with their words decoded: `words`, and of turns that weren't read `turn_words`; a state and a step's name as text: `decoded`.
//! - The turns: `turns` puts lines together to turns.
//! - Whether its words follow from one another: `following`, over the `values` of words.
//! - The summary: `counts`, `ends` and `summary`; which lanes and places there are: `found`.
//! - The picture: `rows` has its turns, `picture` draws them; `numbers` finds a lane or place among sorted ones;
//!   `strips` draws places, `arrows` who finds what another left, `boxes` a turn, `head` the title and the legend,
//!   `shapes` the elements of SVG.
//! - For other tools: `json`, the turns as JSON, and `events`, in the trace-event form, with the slices of `calls`. The HTML page: `html`, with
//!   what is the same for each in `template`. The page of the ways through a script: `ways_page`, with `ways_template`.
//! - What they write to: `page`, a text that remembers a refusal of memory; it has words and places as text.
#![tactic(auto)]

mod arrows;
mod boxes;
mod calls;
mod counts;
mod decoded;
mod ends;
mod events;
mod fault;
mod fields;
mod following;
mod found;
mod head;
mod html;
mod json;
mod line;
mod numbers;
mod page;
mod picture;
mod reader;
mod replies;
mod rows;
mod shapes;
mod steps;
mod strips;
mod summary;
mod template;
mod turn_words;
mod turns;
mod values;
mod ways_page;
mod ways_template;
mod words;

pub use counts::{failed_steps, is_unfinished, longest_call, replies_of, steps_of};
pub use events::events_text;
pub use fault::{ReadFault, Wanted};
pub use following::{Stray, Wrong, first_stray, follows_text};
pub use html::html_text;
pub use json::turns_json;
pub use line::{Entry, Line, NamedStep, StepName};
pub use picture::{Window, picture_text};
pub use reader::{LINES_HELD, check_lines, read_lines, read_trace};
pub use summary::summary_text;
pub use turn_words::turns_words;
pub use turns::turn_count;
pub use ways_page::ways_html_text;
pub use words::{WordStyle, words_text};
