//! A trace as JSON: an object for each turn.

ghost use Rattle.std.specs.Prelude.{◌≡◌, ◌++◌, IfOk, codes};
ghost use Rattle.traceviews.specs.Json.{life_object, link_object, value_object, failed_field, step_object, plain_object, key_object, content_object, reply_object, entry_object, comma_before, item_text, items_text, step_fields, turn_object, turn_line, json_text, is_within, line_within, window_text};
ghost use Rattle.traceviews.specs.Numbered.{numbered};
ghost use Rattle.traceviews.specs.Pages.{Grows};
ghost use Rattle.traceviews.specs.Turns.{turns_of};

use crate::decoded::{is_failed, state_name, state_of, step_name};
use crate::line::{Entry, Line, NamedStep};
use crate::page::Page;
use crate::turns::{lane_of, split_step, split_turn};
use keybits::{Life, Word, generation_of, place_of, tag_of};
use std::alloc::{AllocError, Global};
use traces::Reply;

/// Appends a lifecycle word.
fn push_life(word: u64, out: &mut Page)
    ensures { Grows out.old out.new (life_object word) }
{
    let life = Life::of_word(word);
    out.named("{\"word\":\"", word);
    out.text("\",\"state\":\"");
    out.text(state_name(state_of(word)));
    out.named("\",\"count\":", u64::from(life.count));
    out.named(",\"generation\":", u64::from(life.generation));
    out.text("}");
}

/// Appends a link or stack word of a shard.
fn push_link(shard: u32, word: u64, out: &mut Page)
    ensures { Grows out.old out.new (link_object shard word) }
{
    out.named("{\"word\":\"", word);
    out.text("\",\"link\":\"");
    out.link(shard, word);
    out.text("\"}");
}

/// Appends a value of a word.
fn push_value(word: Word, value: u64, out: &mut Page)
    ensures { Grows out.old out.new (value_object word value) }
{
    match word {
        Word::Life { .. } => push_life(value, out),
        Word::Link { place } => push_link(place >> 16, value, out),
        Word::Stack { shard, .. } => push_link(shard, value, out),
    }
}

/// Whether a step failed, in the last field of its object.
fn failed_words(failed: bool) -> &'static str
    ensures { result.now ≡ failed_field failed }
{
    if failed {
        ",\"failed\":true}"
    } else {
        ",\"failed\":false}"
    }
}

/// Appends a step.
fn push_step(step: &NamedStep, out: &mut Page)
    ensures { Grows out.old out.new (step_object step.now) }
{
    out.text("{\"kind\":\"");
    out.text(step_name(step.name));
    out.text("\",\"at\":\"");
    out.aim(step.word);
    out.text("\",\"found\":");
    push_value(step.word, step.before, out);
    out.text(",\"left\":");
    push_value(step.word, step.after, out);
    out.text(failed_words(is_failed(step)));
}

/// Appends a reply that is its name alone.
fn push_plain(name: &str, out: &mut Page)
    ensures { Grows out.old out.new (plain_object name.now) }
{
    out.text("{\"reply\":\"");
    out.text(name);
    out.text("\"}");
}

/// Appends a reply with a key.
fn push_key(name: &str, key: u64, out: &mut Page)
    ensures { Grows out.old out.new (key_object name.now key) }
{
    out.text("{\"reply\":\"");
    out.text(name);
    out.named("\",\"key\":\"", key);
    out.text("\",\"place\":\"");
    out.place(place_of(key));
    out.named("\",\"generation\":", u64::from(generation_of(key)));
    out.named(",\"tag\":", u64::from(tag_of(key)));
    out.text("}");
}

/// Appends a reply with a content.
fn push_content(name: &str, content: &[u8], out: &mut Page)
    ensures { Grows out.old out.new (content_object name.now content.now) }
{
    out.text("{\"reply\":\"");
    out.text(name);
    out.text("\",\"content\":\"");
    out.hex(content);
    out.text("\"}");
}

/// Appends a reply.
fn push_reply(reply: &Reply, out: &mut Page)
    ensures { Grows out.old out.new (reply_object reply.now) }
{
    match reply {
        Reply::Filling(key) => push_key("filling", *key, out),
        Reply::Key(key) => push_key("key", *key, out),
        Reply::Found(content) => push_content("some", content.as_slice(), out),
        Reply::Content(content) => push_content("content", content.as_slice(), out),
        Reply::Full => push_plain("full", out),
        Reply::Memory => push_plain("memory", out),
        Reply::Done => push_plain("ok", out),
        Reply::Missing => push_plain("none", out),
        Reply::Cleared(true) => push_plain("true", out),
        Reply::Cleared(false) => push_plain("false", out),
        Reply::Skip => push_plain("skip", out),
    }
}

/// Appends an entry.
pub(crate) fn push_entry(entry: &Entry, out: &mut Page)
    ensures { Grows out.old out.new (entry_object entry.now) }
{
    match entry {
        Entry::Step(step) => push_step(step, out),
        Entry::Reply(reply) => push_reply(reply, out),
    }
}

/// What stands before the item of this number.
fn comma_before(number: usize) -> &'static str
    ensures { result.now ≡ comma_before number }
{
    if number == 0 { "" } else { "," }
}

/// Appends the entry of this number.
fn push_item(number: usize, line: &Line, out: &mut Page)
    ensures { Grows out.old out.new (item_text number line.now) }
{
    out.text(comma_before(number));
    push_entry(&line.entry, out);
}

/// Appends some entries, with commas between them.
fn push_numbered_items(lines: &[Line], out: &mut Page)
    ensures { Grows out.old out.new (numbered item_text 0 lines.now) }
{
    let mut number = 0;
    for line in lines {
        push_item(number, line, out);
        number += 1;
    }
}

/// Appends some entries in square brackets.
fn push_items(lines: &[Line], out: &mut Page)
    ensures { Grows out.old out.new (items_text lines.now) }
{
    out.text("[");
    push_numbered_items(lines, out);
    out.text("]");
}

/// Appends a step, and the replies behind it.
fn push_step_and_more(line: &Line, more: &[Line], out: &mut Page)
    ensures { Grows out.old out.new (codes ",\"step\":" ++ entry_object line.now.entry ++ codes ",\"after\":" ++ items_text more.now) }
{
    out.text(",\"step\":");
    push_entry(&line.entry, out);
    out.text(",\"after\":");
    push_items(more, out);
}

/// Appends the step of a turn, by its lines from there on, and the replies behind it.
fn push_step_fields(lines: &[Line], out: &mut Page)
    ensures { Grows out.old out.new (step_fields lines.now) }
{
    match lines.split_first() {
        Some((line, more)) => push_step_and_more(line, more, out),
        None => out.text(",\"step\":null,\"after\":[]"),
    }
}

/// Appends a turn.
pub(crate) fn push_turn(number: usize, turn: &[Line], out: &mut Page)
    ensures { Grows out.old out.new (turn_object number turn.now) }
{
    let (front, behind) = split_step(turn);
    out.named("{\"turn\":", number as u64);
    out.named(",\"lane\":", u64::from(lane_of(turn)));
    out.text(",\"before\":");
    push_items(front, out);
    push_step_fields(behind, out);
    out.text("}");
}

/// Appends a turn, on a line of its own.
fn push_turn_line(number: usize, turn: &[Line], out: &mut Page)
    ensures { Grows out.old out.new (turn_line number turn.now) }
{
    out.text(comma_before(number));
    out.text("\n");
    push_turn(number, turn, out);
}

/// Appends the turns of some lines.
fn push_turns(lines: &[Line], out: &mut Page)
    ensures { Grows out.old out.new (numbered turn_line 0 (turns_of lines.now)) }
{
    let mut number = 0;
    let mut rest = lines;
    while let Some((turn, behind)) = split_turn(rest) {
        push_turn_line(number, turn, out);
        number += 1;
        rest = behind;
    }
}

/// Appends a trace as JSON.
fn push_json(lines: &[Line], out: &mut Page)
    ensures { Grows out.old out.new (json_text lines.now) }
{
    out.text("[");
    push_turns(lines, out);
    out.text("\n]\n");
}

/// Whether a turn is among so many from this one on.
fn is_within(first: usize, count: usize, number: usize) -> bool
    ensures { result ≡ is_within first count number }
{
    first <= number && number - first < count
}

/// Appends a turn, on a line of its own, where it is among so many from this one on.
fn push_line_within(first: usize, count: usize, number: usize, turn: &[Line], out: &mut Page)
    ensures { Grows out.old out.new (line_within first count number turn.now) }
{
    if is_within(first, count, number) {
        out.text(comma_before(number.saturating_sub(first)));
        out.text("\n");
        push_turn(number, turn, out);
    }
}

/// Appends those turns of some lines that are among so many from this one on.
fn push_turns_within(first: usize, count: usize, lines: &[Line], out: &mut Page)
    ensures { Grows out.old out.new (numbered (line_within first count) 0 (turns_of lines.now)) }
{
    let mut number = 0;
    let mut rest = lines;
    while let Some((turn, behind)) = split_turn(rest) {
        push_line_within(first, count, number, turn, out);
        number += 1;
        rest = behind;
    }
}

/// Appends so many turns of a trace from this one on as JSON.
pub(crate) fn push_window(first: usize, count: usize, lines: &[Line], out: &mut Page)
    ensures { Grows out.old out.new (window_text first count lines.now) }
{
    out.text("[");
    push_turns_within(first, count, lines, out);
    out.text("\n]\n");
}

/// A trace as JSON: an array with an object for each turn, on a line of its own. It has the turn's number and its lane,
/// the replies before its step, the step or `null`, and the replies behind it; a step its kind, on which word it is,
/// what it found and left, as it is and decoded, and whether it failed; a reply its name, and its key, as it is and
/// decoded, or its content. Words and keys are texts of decimal digits, as they may have 64 bits.
///
/// # Errors
///
/// `AllocError` where memory is refused.
pub fn turns_json(alloc: Global, lines: &[Line]) -> Result<Vec<u8>, AllocError>
    ensures { IfOk result (λ text. text.items ≡ json_text lines.now) }
{
    let mut out = Page::new(alloc);
    push_json(lines, &mut out);
    out.finish()
}
