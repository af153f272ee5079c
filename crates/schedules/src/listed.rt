//! Schedules in files: as they are read, and as they are written.
ghost use Rattle.std.specs.Prelude.{◌≡◌, ◌++◌, IfOk, OnOk, decimal, option_map};
ghost use Rattle.schedules.specs.Schedules.{comma_for, without_end, further_entries, joined, joined_schedule, schedule_line};

use crate::schedule::read_schedule;
use itoa::Buffer;
use std::alloc::{AllocError, Global};

/// A text without the line's end behind it, where it has one.
fn without_end(text: &[u8]) -> &[u8]
    ensures { result.now ≡ without_end text.now }
{
    match text.split_last() {
        Some((last, front)) if *last == b'\n' => front,
        _ => text,
    }
}

/// A comma in place of a line's end.
fn comma_for(byte: u8) -> u8
    ensures { result ≡ comma_for byte }
{
    if byte == b'\n' { b',' } else { byte }
}

/// The text of a file as one of a command line: without the line's end behind it, and with commas in place of the
/// others. The error is want of memory.
pub fn join_lines(alloc: Global, text: &[u8]) -> Result<Vec<u8>, AllocError>
    ensures { IfOk result (λ line. line.items ≡ joined text.now) }
{
    without_end(text)
        .iter()
        .map(|byte| comma_for(*byte))
        .collect(alloc)
}

/// The schedule of a file's text that `join_lines` made: that of `read_schedule`, and that without entries where there
/// is no text. The error is want of memory.
pub fn read_joined(alloc: Global, text: &[u8]) -> Result<Option<Vec<u32>>, AllocError>
    ensures { IfOk result (λ schedule. option_map (λ v. v.items) schedule ≡ joined_schedule text.now) }
{
    if text.is_empty() {
        return Ok(Some(Vec::new(alloc)));
    }
    read_schedule(alloc, text)
}

/// Appends the digits of a number.
fn push_number(number: u32, text: &mut Vec<u8>) -> Result<(), AllocError>
    ensures { OnOk result (text.new.items ≡ text.old.items ++ decimal number) }
{
    text.extend_from_slice(Buffer::new().format(number).as_bytes())
}

/// Appends entries, each with a comma before it.
fn push_further(entries: &[u32], text: &mut Vec<u8>) -> Result<(), AllocError>
    ensures { OnOk result (text.new.items ≡ text.old.items ++ further_entries entries.now) }
{
    for entry in entries {
        text.push(b',')?;
        push_number(*entry, text)?;
    }
    Ok(())
}

/// Appends the line of a schedule, as `--schedule` and files have it. The error is want of memory, and then a part was
/// appended.
pub fn push_schedule(entries: &[u32], text: &mut Vec<u8>) -> Result<(), AllocError>
    ensures { OnOk result (text.new.items ≡ text.old.items ++ schedule_line entries.now) }
{
    if let Some((entry, more)) = entries.split_first() {
        push_number(*entry, text)?;
        push_further(more, text)?;
    }
    text.push(b'\n')?;
    Ok(())
}
