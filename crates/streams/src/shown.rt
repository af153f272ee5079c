//! Bytes that weren't written by these programs, as they are shown in a line: whatever a file or a word has, the line
//! is one, and no byte of it steers a terminal.
ghost use Rattle.std.specs.Prelude.{◌≡◌, ◌++◌, All, take, IfOk, OnOk, string_bytes};
ghost use Rattle.streams.specs.Saying.{Says};
ghost use Rattle.streams.specs.Shown.{byte_text, bytes_text, cut_text, shown_bytes, line_text, in_lines, lines_text, IsSafeLine, IsPrintableOrEnd};

use crate::writer::Watched;
use crate::writing::write_text;
use itoa::Buffer;
use std::alloc::{AllocError, Global};
use std::io::Write;

/// How many bytes of a word or a line are shown whole.
const WHOLE: usize = 80;

/// How many bytes are shown of longer ones.
const FRONT: usize = 60;

/// How many bytes of a line's text are shown.
const LINE: usize = 2000;

/// Appends a byte: as it is where it is a character of ASCII that can be printed, and else its number.
fn push_byte(text: &mut String, byte: u8) -> Result<(), AllocError>
    ensures { OnOk result (string_bytes text.new ≡ string_bytes text.old ++ byte_text byte) }
{
    if byte >= 32 && byte <= 126 {
        return text.push(char::from(byte));
    }
    write!(text, "<{byte}>")
}

/// Appends some bytes, one after the other: a character of ASCII that can be printed as it is, any other byte as its
/// number, as `<27>`. The error is want of memory, and then a part was appended.
pub fn push_bytes(text: &mut String, bytes: &[u8]) -> Result<(), AllocError>
    ensures { OnOk result (string_bytes text.new ≡ string_bytes text.old ++ bytes_text bytes.now) }
{
    for byte in bytes {
        push_byte(text, *byte)?;
    }
    Ok(())
}

/// The first of some bytes, but no more than so many.
fn front(bytes: &[u8], most: usize) -> &[u8]
    ensures { result.now ≡ take most bytes.now }
{
    &bytes[..most.min(bytes.len())]
}

/// Appends some bytes as `push_bytes` does, but of more than 80 the first 60, with two points behind them.
pub fn push_cut(text: &mut String, bytes: &[u8]) -> Result<(), AllocError>
    ensures { OnOk result (string_bytes text.new ≡ string_bytes text.old ++ cut_text bytes.now) }
{
    if bytes.len() <= WHOLE {
        return push_bytes(text, bytes);
    }
    push_bytes(text, front(bytes, FRONT))?;
    push_bytes(text, b"..")?;
    Ok(())
}

/// Appends some bytes as `push_cut` does, in quotes.
pub fn push_shown(text: &mut String, bytes: &[u8]) -> Result<(), AllocError>
    ensures { OnOk result (string_bytes text.new ≡ string_bytes text.old ++ shown_bytes bytes.now) }
{
    text.push_str("\"")?;
    push_cut(text, bytes)?;
    text.push_str("\"")
}

/// The line that shows a text: its first 2000 bytes as `push_bytes` shows them, and the line's end. The error is want
/// of memory.
pub fn line_of(alloc: Global, text: &[u8]) -> Result<String, AllocError>
    ensures is { IfOk result (λ line. string_bytes line ≡ line_text text.now) }
    ensures safe { IfOk result (λ line. IsSafeLine (string_bytes line)) }
{
    let mut line = String::new(alloc);
    push_bytes(&mut line, front(text, LINE))?;
    line.push_str("\n")?;
    Ok(line)
}

/// Writes a byte as `push_byte` appends it.
fn write_byte<W: Write>(byte: u8, out: &mut Watched<W>)
    ensures { Says W.contents out.old out.new (byte_text byte) }
{
    if byte >= 32 && byte <= 126 {
        return write_text(&[byte], out);
    }
    write_text(b"<", out);
    write_text(Buffer::new().format(byte).as_bytes(), out);
    write_text(b">", out);
}

/// Writes some bytes as `push_bytes` appends them. Nothing is allocated.
pub fn write_bytes<W: Write>(bytes: &[u8], out: &mut Watched<W>)
    ensures { Says W.contents out.old out.new (bytes_text bytes.now) }
{
    for byte in bytes {
        write_byte(*byte, out);
    }
}

/// Writes some bytes as `push_cut` appends them. Nothing is allocated.
pub fn write_cut<W: Write>(bytes: &[u8], out: &mut Watched<W>)
    ensures { Says W.contents out.old out.new (cut_text bytes.now) }
{
    if bytes.len() <= WHOLE {
        return write_bytes(bytes, out);
    }
    write_bytes(front(bytes, FRONT), out);
    write_bytes(b"..", out);
}

/// Writes a byte as `write_byte` does, but the end of a line as it is.
fn write_in_lines<W: Write>(byte: u8, out: &mut Watched<W>)
    ensures { Says W.contents out.old out.new (in_lines byte) }
{
    if byte == b'\n' {
        return write_text(b"\n", out);
    }
    write_byte(byte, out);
}

/// Writes a text of several lines as `write_bytes` writes each line. Nothing is allocated.
pub fn write_lines<W: Write>(text: &[u8], out: &mut Watched<W>)
    ensures says { Says W.contents out.old out.new (lines_text text.now) }
    ensures safe { All IsPrintableOrEnd (lines_text text.now) }
{
    for byte in text {
        write_in_lines(*byte, out);
    }
}
