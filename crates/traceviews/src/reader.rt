//! The lines of a trace's text, as they are read.

ghost use Rattle.std.specs.Prelude.{◌≡◌, ◌<◌, ◌≤◌, ◌+◌, ◌⊎◌, ℕ, List, [], length, IfOk, IfErr, OnOk, IsErrOf};
ghost use Rattle.std.specs.List.{AllByRecursion};
ghost use Rattle.seqpool.specs.ReadTexts.{Without, IsFirstLine};
ghost use Rattle.traces.specs.Text.{trace_text};
ghost use Rattle.traces.specs.declared.trace.Turn.{Turn};
ghost use Rattle.traceviews.specs.declared.fault.ReadFault.TheVariants as read_faults;
ghost use Rattle.traceviews.specs.declared.fault.Wanted.{Wanted};
ghost use Rattle.traceviews.specs.Lines.{AreLines, BeginWith, HasLine, IsFirstWrong, trace_lines};
ghost use Rattle.traceviews.specs.ReadLines.{Reads, HasWord, IsEntryText, IsLineText};

use crate::fault::{LineFault, ReadFault, Wanted};
use crate::fields::read_name;
use crate::line::{Entry, Line};
use crate::replies::read_reply;
use crate::steps::{read_step, wanted_word};
use seqpool::{cut, is_word, read_u32};
use std::alloc::Global;

/// What is wanted in a text without a space, where a lane's entry should stand.
fn wanted_entry(text: &[u8]) -> Wanted {
    if is_word(text, "=") {
        return Wanted::Reply;
    }
    match read_name(text) {
        Some(name) => wanted_word(name),
        None => Wanted::Entry,
    }
}

/// What is wanted in a text without a space, where a line should stand.
fn wanted_line(text: &[u8]) -> Wanted {
    if read_u32(text).is_some() {
        Wanted::Entry
    } else {
        Wanted::Lane
    }
}

/// The entry behind a lane, by its first word and what is behind that.
fn read_named(alloc: Global, word: &[u8], operands: &[u8]) -> Result<Entry, LineFault>
    requires { Without 32 word.now }
    ensures { Reads (HasWord word.now) operands.now result }
{
    if is_word(word, "=") {
        let reply = read_reply(alloc, operands)?;
        return Ok(Entry::Reply(reply));
    }
    let Some(name) = read_name(word) else {
        return Err(LineFault::Lacks(Wanted::Entry));
    };
    match read_step(name, operands) {
        Ok(step) => Ok(Entry::Step(step)),
        Err(wanted) => Err(LineFault::Lacks(wanted)),
    }
}

/// The entry behind a lane.
fn read_entry(alloc: Global, text: &[u8]) -> Result<Entry, LineFault>
    ensures { Reads IsEntryText text.now result }
{
    let Some((word, operands)) = cut(text, b' ') else {
        return Err(LineFault::Lacks(wanted_entry(text)));
    };
    read_named(alloc, word, operands)
}

/// The line of a text that has no line feed.
fn read_line(alloc: Global, text: &[u8]) -> Result<Line, LineFault>
    requires { Without 10 text.now }
    ensures { Reads IsLineText text.now result }
{
    let Some((lane, rest)) = cut(text, b' ') else {
        return Err(LineFault::Lacks(wanted_line(text)));
    };
    let Some(lane) = read_u32(lane) else {
        return Err(LineFault::Lacks(Wanted::Lane));
    };
    let entry = read_entry(alloc, rest)?;
    Ok(Line { lane, entry })
}

/// The first line of a text, without its line feed, and what comes after it.
fn first_line(text: &[u8]) -> (&[u8], &[u8])
    requires { 0 < length text.now }
    ensures line { IsFirstLine result.0.now result.1.now text.now }
    ensures shorter { length result.1.now < length text.now }
{
    match cut(text, b'\n') {
        Some(parts) => parts,
        None => (text, &text[text.len()..]),
    }
}

/// The first lines of a text, at most so many, and what comes after them. The errors are those of `read_trace`, for these
/// lines.
pub fn read_lines(alloc: Global, text: &[u8], most: usize) -> Result<(Vec<Line>, &[u8]), ReadFault>
    ensures lines { IfOk result (λ read. BeginWith read.0.items read.1.now text.now) }
    ensures fewer { IfOk result (λ read. length read.0.items + length read.1.now ≤ length text.now) }
    ensures whole { IfOk result (λ read. (length read.0.items ≡ most) ⊎ (read.1.now ≡ [])) }
    ensures wrong { (number : ℕ) (wanted : Wanted) → IsErrOf result (read_faults.Line number wanted)
        → IsFirstWrong number text.now × (number ≤ length text.now) }
    // What is written of turns is read.
    ensures written { (turns : List Turn) → AllByRecursion HasLine (trace_lines turns) → text.now ≡ trace_text turns
        → IfErr result (λ fault. fault ≡ read_faults.Memory) }
{
    let mut lines = Vec::new(alloc);
    let mut rest = text;
    while !rest.is_empty() && lines.len() < most {
        let number = lines.len() + 1;
        let (line, after) = first_line(rest);
        match read_line(alloc, line) {
            Ok(line) => lines.push(line)?,
            Err(LineFault::Lacks(wanted)) => return Err(ReadFault::Line { number, wanted }),
            Err(LineFault::Memory) => return Err(ReadFault::Memory),
        }
        rest = after;
    }
    Ok((lines, rest))
}

/// Reads the text of a trace: a line for each step and each reply of a lane, as `traces::write_trace` writes it; the
/// last line may lack its line feed. A lane, a shard and a lane of a stack are at most 4294967295, a place at most
/// 16777215, a word and a key at most 18446744073709551615. Whether the trace is lawful isn't looked at.
///
/// `Line` comes where the text is none, with the number of the first line that is none, counted from 1, and what is
/// wanted in it. `Memory` comes where a growth was refused, and of the text nothing is said.
#[tactic(auto, using(crate::proofs::TraceTexts::trace_read))]
pub fn read_trace(alloc: Global, text: &[u8]) -> Result<Vec<Line>, ReadFault>
    ensures lines { IfOk result (λ lines. AreLines lines.items text.now) }
    ensures wrong { (number : ℕ) (wanted : Wanted) → IsErrOf result (read_faults.Line number wanted) → IsFirstWrong number text.now }
    // What is written of turns is read.
    ensures written { (turns : List Turn) → AllByRecursion HasLine (trace_lines turns) → text.now ≡ trace_text turns
        → IfErr result (λ fault. fault ≡ read_faults.Memory) }
{
    match read_lines(alloc, text, text.len()) {
        Ok((lines, _)) => Ok(lines),
        Err(fault) => Err(fault),
    }
}

/// How many lines are held at once where not all have to be.
pub const LINES_HELD: usize = 1000;

/// Whether a text is that of a trace, of which `LINES_HELD` lines are held at once. The errors are those of `read_trace`.
#[tactic(auto, using(crate::proofs::TraceTexts::none_read, crate::proofs::TraceTexts::more_read, crate::proofs::TraceTexts::wrong_read, crate::proofs::TraceTexts::all_read))]
pub fn check_lines(alloc: Global, text: &[u8]) -> Result<(), ReadFault>
    ensures lines { OnOk result ((lines : List Line) × AreLines lines text.now) }
    ensures wrong { (number : ℕ) (wanted : Wanted) → IsErrOf result (read_faults.Line number wanted) → IsFirstWrong number text.now }
{
    let mut before = 0;
    let mut rest = text;
    while !rest.is_empty() {
        match read_lines(alloc, rest, LINES_HELD) {
            Ok((lines, after)) => {
                before += lines.len();
                rest = after;
            }
            Err(ReadFault::Line { number, wanted }) => {
                return Err(ReadFault::Line {
                    number: before + number,
                    wanted,
                });
            }
            Err(ReadFault::Memory) => return Err(ReadFault::Memory),
        }
    }
    Ok(())
}
