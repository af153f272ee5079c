//! The text of a trace, as it is written.
ghost use Rattle.std.specs.Prelude.{◌≡◌, ◌++◌, OnOk, OnErr, codes, flat_map};
ghost use Rattle.std.specs.Fmt.{decimal};
ghost use Rattle.seqpool.specs.ActsText.{content_text};
ghost use Rattle.traces.specs.Text.{reply_text, reply_line, kind_text, word_text, step_line, turn_text, trace_text};
ghost use mathlib.Core.List.{IsPrefix};

use crate::reply::Reply;
use crate::trace::{Trace, Turn};
use itoa::Buffer;
use keybits::{Kind, Step, Word};
use seqpool::hex_pair;
use std::alloc::AllocError;

/// Appends the trace text: a line for each reply and each step, in the order of the turns.
///
/// Each line ends with one line feed. Numbers are decimal, without leading zeros. Bytes are pairs of lower-case
/// hexadecimal digits, or a dash where there are none.
///
/// # Errors
///
/// `AllocError` where memory is refused: the vector still begins with what it held, and a part of the text may follow.
pub fn write_trace(trace: &Trace, out: &mut Vec<u8>) -> Result<(), AllocError>
    ensures ok { OnOk result (out.new.items ≡ out.old.items ++ trace_text trace.now) }
    ensures err { OnErr result (IsPrefix out.old.items out.new.items) }
{
    for turn in trace.as_slice() {
        write_turn(turn, out)?;
    }
    Ok(())
}

fn write_turn(turn: &Turn, out: &mut Vec<u8>) -> Result<(), AllocError>
    ensures ok { OnOk result (out.new.items ≡ out.old.items ++ turn_text turn.now) }
    ensures err { OnErr result (IsPrefix out.old.items out.new.items) }
{
    write_replies(turn.lane, turn.before.as_slice(), out)?;
    if let Some(step) = &turn.step {
        write_step(turn.lane, step, out)?;
    }
    write_replies(turn.lane, turn.after.as_slice(), out)?;
    Ok(())
}

fn write_replies(lane: u32, replies: &[Reply], out: &mut Vec<u8>) -> Result<(), AllocError>
    ensures ok { OnOk result (out.new.items ≡ out.old.items ++ flat_map (reply_line lane) replies.now) }
    ensures err { OnErr result (IsPrefix out.old.items out.new.items) }
{
    for reply in replies {
        write_reply_line(lane, reply, out)?;
    }
    Ok(())
}

/// Appends the line of a reply, as the trace text has it: the lane's number, an equals sign and the reply.
///
/// # Errors
///
/// `AllocError` where memory is refused: the vector still begins with what it held, and a part of the line may follow.
pub fn write_reply_line(lane: u32, reply: &Reply, out: &mut Vec<u8>) -> Result<(), AllocError>
    ensures ok { OnOk result (out.new.items ≡ out.old.items ++ reply_line lane reply.now) }
    ensures err { OnErr result (IsPrefix out.old.items out.new.items) }
{
    write_number(u64::from(lane), out)?;
    write_text(" = ", out)?;
    write_reply(reply, out)?;
    write_text("\n", out)
}

fn write_reply(reply: &Reply, out: &mut Vec<u8>) -> Result<(), AllocError>
    ensures ok { OnOk result (out.new.items ≡ out.old.items ++ reply_text reply.now) }
    ensures err { OnErr result (IsPrefix out.old.items out.new.items) }
{
    match reply {
        Reply::Filling(key) => write_named("filling ", *key, out),
        Reply::Full => write_text("full", out),
        Reply::Memory => write_text("memory", out),
        Reply::Done => write_text("ok", out),
        Reply::Key(key) => write_named("key ", *key, out),
        Reply::Found(content) => write_found(content.as_slice(), out),
        Reply::Missing => write_text("none", out),
        Reply::Content(content) => write_bytes(content.as_slice(), out),
        Reply::Cleared(true) => write_text("true", out),
        Reply::Cleared(false) => write_text("false", out),
        Reply::Skip => write_text("skip", out),
    }
}

/// A content that was found.
fn write_found(content: &[u8], out: &mut Vec<u8>) -> Result<(), AllocError>
    ensures ok { OnOk result (out.new.items ≡ out.old.items ++ (codes "some " ++ content_text content.now)) }
    ensures err { OnErr result (IsPrefix out.old.items out.new.items) }
{
    write_text("some ", out)?;
    write_bytes(content, out)
}

fn write_step(lane: u32, step: &Step, out: &mut Vec<u8>) -> Result<(), AllocError>
    ensures ok { OnOk result (out.new.items ≡ out.old.items ++ step_line lane step.now) }
    ensures err { OnErr result (IsPrefix out.old.items out.new.items) }
{
    write_number(u64::from(lane), out)?;
    write_field(kind_name(step.kind), out)?;
    write_word(step.word, out)?;
    write_values(step.before, step.after, out)
}

/// A text between spaces.
fn write_field(text: &str, out: &mut Vec<u8>) -> Result<(), AllocError>
    ensures ok { OnOk result (out.new.items ≡ out.old.items ++ (codes " " ++ text.now ++ codes " ")) }
    ensures err { OnErr result (IsPrefix out.old.items out.new.items) }
{
    write_text(" ", out)?;
    write_text(text, out)?;
    write_text(" ", out)
}

/// The values of a step's word, which end its line.
fn write_values(before: u64, after: u64, out: &mut Vec<u8>) -> Result<(), AllocError>
    ensures ok { OnOk result (out.new.items
        ≡ out.old.items ++ (codes " " ++ decimal before ++ (codes " " ++ decimal after) ++ codes "\n")) }
    ensures err { OnErr result (IsPrefix out.old.items out.new.items) }
{
    write_named(" ", before, out)?;
    write_named(" ", after, out)?;
    write_text("\n", out)
}

fn kind_name(kind: Kind) -> &'static str
    ensures { result.now ≡ kind_text kind }
{
    match kind {
        Kind::Enter => "ENTER",
        Kind::Leave => "LEAVE",
        Kind::Publish { .. } => "PUBLISH",
        Kind::Mark => "MARK",
        Kind::Claim { .. } => "CLAIM",
        Kind::Link { .. } => "LINK",
        Kind::Push { .. } => "PUSH",
        Kind::Take => "TAKE",
        Kind::Follow => "FOLLOW",
    }
}

fn write_word(word: Word, out: &mut Vec<u8>) -> Result<(), AllocError>
    ensures ok { OnOk result (out.new.items ≡ out.old.items ++ word_text word) }
    ensures err { OnErr result (IsPrefix out.old.items out.new.items) }
{
    match word {
        Word::Life { place } | Word::Link { place } => write_number(u64::from(place), out),
        Word::Stack { shard, lane } => {
            write_number(u64::from(shard), out)?;
            write_text(".", out)?;
            write_number(u64::from(lane), out)
        }
    }
}

fn write_bytes(bytes: &[u8], out: &mut Vec<u8>) -> Result<(), AllocError>
    ensures ok { OnOk result (out.new.items ≡ out.old.items ++ content_text bytes.now) }
    ensures err { OnErr result (IsPrefix out.old.items out.new.items) }
{
    if bytes.is_empty() {
        return write_text("-", out);
    }
    for byte in bytes {
        out.extend_from_slice(&hex_pair(*byte))?;
    }
    Ok(())
}

/// A number after a text.
fn write_named(name: &str, number: u64, out: &mut Vec<u8>) -> Result<(), AllocError>
    ensures ok { OnOk result (out.new.items ≡ out.old.items ++ (name.now ++ decimal number)) }
    ensures err { OnErr result (IsPrefix out.old.items out.new.items) }
{
    write_text(name, out)?;
    write_number(number, out)
}

fn write_number(number: u64, out: &mut Vec<u8>) -> Result<(), AllocError>
    ensures ok { OnOk result (out.new.items ≡ out.old.items ++ decimal number) }
    ensures err { OnErr result (IsPrefix out.old.items out.new.items) }
{
    write_text(Buffer::new().format(number), out)
}

fn write_text(text: &str, out: &mut Vec<u8>) -> Result<(), AllocError>
    ensures ok { OnOk result (out.new.items ≡ out.old.items ++ text.now) }
    ensures err { OnErr result (IsPrefix out.old.items out.new.items) }
{
    out.extend_from_slice(text.as_bytes())
}
