//! The lines of a trace with their words decoded.

ghost use Rattle.std.specs.Prelude.{◌≡◌, ◌++◌, false, IfOk, codes, flat_map};
ghost use Rattle.traceviews.specs.Decoded.{failed_text, step_words, value_text};
ghost use Rattle.traceviews.specs.Numbered.{numbered};
ghost use Rattle.traceviews.specs.Pages.{Grows};
ghost use Rattle.traceviews.specs.Styles.{tag_words, key_line, reply_words, styled_words, numbered_words, turn_words, words_of};
ghost use Rattle.traceviews.specs.Turns.{turns_of};

use crate::decoded::{is_failed, step_name};
use crate::line::{Entry, Line, NamedStep};
use crate::page::Page;
use crate::turns::split_turn;
use keybits::{generation_of, place_of, tag_of};
use std::alloc::{AllocError, Global};
use traces::Reply;

/// How lines are decoded.
#[derive(Clone, Copy)]
pub struct WordStyle {
    /// Whether keys of replies are decoded.
    pub keys: bool,
    /// Whether each line stands behind the number of its turn.
    pub numbers: bool,
}

/// Appends what a step found, an arrow, what it left, and whether it failed.
fn push_values(step: &NamedStep, out: &mut Page)
    ensures { out.new.refused ≡ false → (out.old.refused ≡ false) × (out.new.bytes.items ≡ out.old.bytes.items
        ++ (value_text step.now.word step.now.before ++ codes " -> " ++ value_text step.now.word step.now.after ++ failed_text step.now)) }
{
    out.value(step.word, step.before);
    out.text(" -> ");
    out.value(step.word, step.after);
    out.text(if is_failed(step) { " failed\n" } else { "\n" });
}

/// Appends the line of a step.
pub(crate) fn push_step(lane: u32, step: &NamedStep, out: &mut Page)
    ensures { out.new.refused ≡ false → (out.old.refused ≡ false)
        × (out.new.bytes.items ≡ out.old.bytes.items ++ step_words lane step.now) }
{
    out.number(u64::from(lane));
    out.text(" ");
    out.text(step_name(step.name));
    out.text(" ");
    out.aim(step.word);
    out.text(" ");
    push_values(step, out);
}

/// Appends a tag behind a key, where it isn't 0, and the end of the line.
fn push_tag(tag: u8, out: &mut Page)
    ensures { Grows out.old out.new (tag_words tag) }
{
    if tag != 0 {
        out.named(" tag ", u64::from(tag));
    }
    out.text("\n");
}

/// Appends the line of a reply with a key, decoded.
fn push_key_line(lane: u32, name: &str, key: u64, out: &mut Page)
    ensures { Grows out.old out.new (key_line lane name.now key) }
{
    out.number(u64::from(lane));
    out.text(name);
    out.place(place_of(key));
    out.named(" generation ", u64::from(generation_of(key)));
    push_tag(tag_of(key), out);
}

/// Appends the line of a reply, with its key decoded or as it is.
pub(crate) fn push_reply(style: WordStyle, lane: u32, reply: &Reply, out: &mut Page)
    ensures { Grows out.old out.new (reply_words style.keys lane reply.now) }
{
    if !style.keys {
        return out.reply_line(lane, reply);
    }
    match reply {
        Reply::Filling(key) => push_key_line(lane, " = filling ", *key, out),
        Reply::Key(key) => push_key_line(lane, " = key ", *key, out),
        _ => out.reply_line(lane, reply),
    }
}

/// Appends a line.
fn push_line(style: WordStyle, line: &Line, out: &mut Page)
    ensures { Grows out.old out.new (styled_words style.keys line.now) }
{
    match &line.entry {
        Entry::Step(step) => push_step(line.lane, step, out),
        Entry::Reply(reply) => push_reply(style, line.lane, reply, out),
    }
}

/// Appends the lines of a trace.
fn push_lines(style: WordStyle, lines: &[Line], out: &mut Page)
    ensures { Grows out.old out.new (flat_map (styled_words style.keys) lines.now) }
{
    for line in lines {
        push_line(style, line, out);
    }
}

/// Appends a line behind the number of its turn.
fn push_numbered_line(style: WordStyle, number: usize, line: &Line, out: &mut Page)
    ensures { Grows out.old out.new (numbered_words style.keys number line.now) }
{
    out.number(number as u64);
    out.text(": ");
    push_line(style, line, out);
}

/// Appends the lines of a turn, each behind the turn's number.
fn push_numbered_turn(style: WordStyle, number: usize, turn: &[Line], out: &mut Page)
    ensures { Grows out.old out.new (turn_words style.keys number turn.now) }
{
    for line in turn {
        push_numbered_line(style, number, line, out);
    }
}

/// Appends the lines of a trace, each behind the number of its turn.
fn push_numbered_turns(style: WordStyle, lines: &[Line], out: &mut Page)
    ensures { Grows out.old out.new (numbered (turn_words style.keys) 0 (turns_of lines.now)) }
{
    let mut number = 0;
    let mut rest = lines;
    while let Some((turn, behind)) = split_turn(rest) {
        push_numbered_turn(style, number, turn, out);
        number += 1;
        rest = behind;
    }
}

/// Appends a trace in this style.
fn push_words(style: WordStyle, lines: &[Line], out: &mut Page)
    ensures { Grows out.old out.new (words_of style lines.now) }
{
    if style.numbers {
        push_numbered_turns(style, lines, out);
    } else {
        push_lines(style, lines, out);
    }
}

/// The lines of a trace with each word decoded: a lifecycle word as its state, its count and its generation, a link or
/// stack word as the place that it stands for (`end` for 0, a number over 65536 as it is), a place as its shard, page
/// and slot. Behind a push or a claim that failed stands `failed`. Replies stand as they are in the trace, but for
/// keys, where the style decodes them.
///
/// # Errors
///
/// `AllocError` where memory is refused.
pub fn words_text(alloc: Global, style: WordStyle, lines: &[Line]) -> Result<Vec<u8>, AllocError>
    ensures { IfOk result (λ text. text.items ≡ words_of style lines.now) }
{
    let mut out = Page::new(alloc);
    push_words(style, lines, &mut out);
    out.finish()
}
