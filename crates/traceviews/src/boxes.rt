//! A turn as a box in its lane's column.

use crate::arrows::Writer;
use crate::decoded::{is_failed, state_name, step_name};
use crate::line::{Entry, Line, NamedStep};
use crate::page::Page;
use crate::shapes::{Area, END, begin_text, push_rect};
use keybits::{Life, Word, generation_of, place_of, tag_of};
use seqpool::hex_pair;
use traces::Reply;

/// How wide a box is.
pub(crate) const BOX: u64 = 268;

/// How many lanes have columns side by side. Those of more lanes overlap, which their boxes don't: each turn has its
/// own height.
const SIDE_BY_SIDE: usize = 4;

/// How far columns are from each other at least: the arrows to a column have room left of it.
const DISTANCE: u64 = 80;

/// What is beside the columns begins here at least: the legend has room left of it.
const LEAST_END: u64 = 460;

/// Where the first column is.
pub(crate) const LEFT: u64 = 122;

/// Where the numbers of turns end.
const NUMBERS: u64 = 44;

/// How high a line of text is.
pub(crate) const LINE: u64 = 16;

/// How many bytes of a content are shown.
const SHOWN_BYTES: usize = 8;

/// The columns of a picture.
#[derive(Clone, Copy)]
pub(crate) struct Columns {
    /// How many there are.
    count: usize,
}

impl Columns {
    /// So many columns.
    pub(crate) fn new(count: usize) -> Columns {
        Columns { count }
    }

    /// Where a column is.
    pub(crate) fn at(&self, column: usize) -> u64 {
        let distance = if self.count <= SIDE_BY_SIDE {
            BOX + DISTANCE
        } else {
            DISTANCE
        };
        LEFT.saturating_add((column as u64).saturating_mul(distance))
    }

    /// Where what is beside the columns begins.
    pub(crate) fn end(&self) -> u64 {
        self.at(self.count.saturating_sub(1))
            .saturating_add(BOX + 32)
            .max(LEAST_END)
    }
}

/// How high the box of some lines is: two for a step, one for a reply.
pub(crate) fn height_of(lines: usize, has_step: bool) -> u64 {
    let more = if has_step { LINE + 10 } else { 10 };
    LINE.saturating_mul(lines as u64).saturating_add(more)
}

/// The class of what a step left: its state, or that the word is a link.
fn class_of(step: &NamedStep) -> &'static str {
    match step.word {
        Word::Life { .. } => state_name(Life::of_word(step.after).state),
        Word::Link { .. } | Word::Stack { .. } => "link",
    }
}

/// Appends what a lifecycle word says, in short.
fn push_short_life(word: u64, out: &mut Page) {
    let life = Life::of_word(word);
    out.text(state_name(life.state));
    out.named(" ", u64::from(life.count));
    out.named(" g", u64::from(life.generation));
}

/// Appends what a value of a word says, in short.
fn push_short(word: Word, value: u64, out: &mut Page) {
    match word {
        Word::Life { .. } => push_short_life(value, out),
        Word::Link { place } => out.link(place >> 16, value),
        Word::Stack { shard, .. } => out.link(shard, value),
    }
}

/// Appends a text and a key: its place, its generation, and its tag where that isn't 0.
fn push_key(name: &str, key: u64, out: &mut Page) {
    out.text(name);
    out.place(place_of(key));
    out.named(" g", u64::from(generation_of(key)));
    if tag_of(key) != 0 {
        out.named(" tag ", u64::from(tag_of(key)));
    }
}

/// Appends a text and the first bytes of a content, as hexadecimal digits, with three dots where there are more.
fn push_content(name: &str, content: &[u8], out: &mut Page) {
    out.text(name);
    if content.is_empty() {
        out.text("-");
    }
    let shown = content.len().min(SHOWN_BYTES);
    for byte in &content[..shown] {
        out.bytes(&hex_pair(*byte));
    }
    if shown < content.len() {
        out.text("…");
    }
}

/// Appends a reply, in short.
fn push_reply(reply: &Reply, out: &mut Page) {
    let plain = match reply {
        Reply::Filling(key) => return push_key("= filling ", *key, out),
        Reply::Key(key) => return push_key("= key ", *key, out),
        Reply::Found(content) => return push_content("= some ", content.as_slice(), out),
        Reply::Content(content) => return push_content("= ", content.as_slice(), out),
        Reply::Full => "= full",
        Reply::Memory => "= memory",
        Reply::Done => "= ok",
        Reply::Missing => "= none",
        Reply::Cleared(true) => "= true",
        Reply::Cleared(false) => "= false",
        Reply::Skip => "= skip",
    };
    out.text(plain);
}

/// Appends the name of a step with its word, and whether it failed.
fn push_name(step: &NamedStep, out: &mut Page) {
    out.text(step_name(step.name));
    out.text(" ");
    out.aim(step.word);
    if is_failed(step) {
        out.text(" <tspan class=\"fail\">failed</tspan>");
    }
}

/// Appends the two lines of a step.
fn push_step(step: &NamedStep, x: u64, y: u64, out: &mut Page) {
    begin_text("name", x, y, out);
    push_name(step, out);
    out.text(END);
    begin_text("faint", x, y.saturating_add(LINE), out);
    push_short(step.word, step.before, out);
    out.text(" → ");
    push_short(step.word, step.after, out);
    out.text(END);
}

/// The command that replied so, with the step before the reply where that is one of its own: a command that makes steps
/// replies behind its last one.
fn command_of(reply: &Reply, own: Option<&NamedStep>) -> &'static str {
    match reply {
        Reply::Filling(_) | Reply::Full => "create ",
        Reply::Key(_) => if is_downgrade(own) {
            "downgrade "
        } else {
            "publish "
        },
        Reply::Found(_) | Reply::Missing => "get ",
        Reply::Content(_) => "read ",
        Reply::Cleared(_) => "clear ",
        Reply::Done => if own.is_some() { "release " } else { "write " },
        Reply::Memory | Reply::Skip => "",
    }
}

/// Whether a step publishes and leaves a reference.
fn is_downgrade(own: Option<&NamedStep>) -> bool {
    match own {
        Some(step) => Life::of_word(step.after).count > Life::of_word(step.before).count,
        None => false,
    }
}

/// Appends a reply, with the name of its command where that is wanted.
fn push_reply_line(reply: &Reply, own: Option<&NamedStep>, named: bool, out: &mut Page) {
    if named {
        out.text(command_of(reply, own));
    }
    push_reply(reply, out);
    out.text(END);
}

/// The lines of a turn, and how they are shown.
#[derive(Clone, Copy)]
pub(crate) struct Content<'a> {
    pub(crate) lane: u32,
    pub(crate) lines: &'a [Line],
    pub(crate) step: Option<&'a NamedStep>,
    /// Whether replies have the names of their commands.
    pub(crate) named: bool,
}

/// Appends the lines of a turn, one below the other.
fn push_entries(content: &Content, x: u64, y: u64, out: &mut Page) {
    let mut y = y;
    let mut own = None;
    for line in content.lines {
        match &line.entry {
            Entry::Step(step) => {
                push_step(step, x, y, out);
                y = y.saturating_add(LINE + LINE);
                own = Some(step);
            }
            Entry::Reply(reply) => {
                begin_text("reply", x, y, out);
                push_reply_line(reply, own, content.named, out);
                y = y.saturating_add(LINE);
                own = None;
            }
        }
    }
}

/// Appends the frame of a turn, with a stripe in the colour of what its step left.
fn push_frame(step: Option<&NamedStep>, area: &Area, out: &mut Page) {
    let Some(step) = step else {
        return push_rect("box", area, out);
    };
    push_rect(if is_failed(step) { "failed" } else { "box" }, area, out);
    let stripe = Area { width: 6, ..*area };
    push_rect(class_of(step), &stripe, out);
}

/// Appends a turn of a lane: its frame, its number, the lane at the height of its step, and its lines.
pub(crate) fn push_box(turn: &Writer, content: &Content, area: &Area, out: &mut Page) {
    let y = area.y.saturating_add(LINE);
    push_frame(content.step, area, out);
    out.fill(
        "<text class=\"number\" x=\"%\" y=\"%\">%</text>\n<text class=\"number\" x=\"%\" y=\"%\">lane %</text>\n",
        &[
            NUMBERS,
            y,
            turn.turn as u64,
            area.x.saturating_add(BOX - 8),
            turn.step.saturating_add(4),
            u64::from(content.lane),
        ],
    );
    push_entries(content, area.x.saturating_add(14), y, out);
}
