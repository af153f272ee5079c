//! Places of a text, and of a script file, in words.
ghost use Rattle.std.specs.Prelude.{◌≡◌, ◌^◌, ◌<◌, ◌≤◌, length, take, drop, fold, IfOk, string_bytes};
ghost use Rattle.explanations.specs.Places.{ends_in, line_number, column_with, column_number, operand_text, in_file, line_place, place_text};

use json::{Reader, Scratch, Token};
use scripts::ScriptPlace;
use std::alloc::{AllocError, Global};
use std::str::from_utf8;

/// How many ends of lines there are.
fn ends_in(text: &[u8]) -> usize
    ensures is { result ≡ ends_in text.now }
    ensures few { result ≤ length text.now }
{
    text.iter().filter(|byte| **byte == b'\n').count()
}

/// The bytes before a place; all where it is past them.
pub(crate) fn front(text: &[u8], at: usize) -> &[u8]
    ensures { result.now ≡ take at text.now }
{
    &text[..at.min(text.len())]
}

/// The bytes from a place on; none where it is past them.
pub(crate) fn behind(text: &[u8], at: usize) -> &[u8]
    ensures { result.now ≡ drop at text.now }
{
    &text[at.min(text.len())..]
}

/// The number of the line that a text's byte stands in, counted from 1.
pub(crate) fn line_number(text: &[u8], at: usize) -> u128
    ensures { result ≡ line_number at text.now }
{
    ends_in(front(text, at)) as u128 + 1
}

/// The column behind one byte more.
fn column_with(column: u128, byte: u8) -> u128
    requires { column < 2 ^ 127 }
    ensures { result ≡ column_with column byte }
{
    if byte == b'\n' { 1 } else { column + 1 }
}

/// The column behind some bytes, the first of which begins a line.
fn column_behind(bytes: &[u8]) -> u128
    ensures { result ≡ fold column_with 1 bytes.now }
{
    let mut column = 1;
    for byte in bytes {
        column = column_with(column, *byte);
    }
    column
}

/// The column of a text's byte, counted from 1.
pub(crate) fn column_number(text: &[u8], at: usize) -> u128
    ensures { result ≡ column_number at text.now }
{
    column_behind(front(text, at))
}

/// Which operand of a line it is; nothing for the command's name.
fn operand_text(alloc: Global, item: usize) -> Result<String, AllocError>
    ensures { IfOk result (λ text. string_bytes text ≡ operand_text item) }
{
    if item == 0 {
        return Ok(String::new(alloc));
    }
    format!(in alloc; ", operand {item}")
}

/// That a line of a script stands in this line of the file, where that is known.
fn in_file(alloc: Global, number: Option<u128>) -> Result<String, AllocError>
    ensures { IfOk result (λ text. string_bytes text ≡ in_file number) }
{
    match number {
        Some(number) => format!(in alloc; " (line {number} of the file)"),
        None => Ok(String::new(alloc)),
    }
}

/// An item of a line of a lane's script.
fn line_place(
    alloc: Global,
    number: Option<u128>,
    lane: usize,
    line: usize,
    item: usize,
) -> Result<String, AllocError>
    ensures { IfOk result (λ text. string_bytes text ≡ line_place number lane line item) }
{
    let shown = line as u128 + 1;
    let place = in_file(alloc, number)?;
    let operand = operand_text(alloc, item)?;
    format!(in alloc; "lane {lane}, line {shown}{place}{operand}")
}

/// A place of a script file; if in a line of a script, then that stands in this line of the file, where that is known.
pub(crate) fn place_told(
    alloc: Global,
    number: Option<u128>,
    place: ScriptPlace,
) -> Result<String, AllocError>
    ensures { IfOk result (λ text. string_bytes text ≡ place_text number place) }
{
    match place {
        ScriptPlace::File => String::from_str(alloc, "the file"),
        ScriptPlace::Field(name) => {
            let name = name.text();
            format!(in alloc; "field {name}")
        }
        ScriptPlace::Scripts => String::from_str(alloc, "field scripts"),
        ScriptPlace::Script { lane } => format!(in alloc; "lane {lane}"),
        ScriptPlace::Line { lane, line } => line_place(alloc, number, lane, line, 0),
        ScriptPlace::Item { lane, line, item } => line_place(alloc, number, lane, line, item),
    }
}

/// Goes through the tokens of a script file to a line of a lane's script.
#[derive(Drop)]
struct Finder {
    /// How many objects and lists are open.
    depth: usize,
    /// Whether the last field of the file is that of the scripts.
    in_scripts: bool,
    /// How many scripts have begun.
    scripts: usize,
    /// How many lines have begun of the last of them.
    lines: usize,
}

impl Finder {
    /// Notes that a value begins. Answers whether it is this line of the lane's script.
    fn begins(&mut self, lane: usize, line: usize) -> bool {
        if !self.in_scripts {
            return false;
        }
        if self.depth == 2 {
            self.scripts = self.scripts.saturating_add(1);
            self.lines = 0;
            return false;
        }
        if self.depth != 3 {
            return false;
        }
        self.lines = self.lines.saturating_add(1);
        self.scripts == lane.saturating_add(1) && self.lines == line.saturating_add(1)
    }

    /// Notes a field of the file.
    fn names(&mut self, name: &str) {
        if self.depth == 1 {
            self.in_scripts = name == "scripts";
            self.scripts = 0;
        }
    }

    /// Notes the next token. Answers whether this line of the lane's script begins with it.
    fn passes(&mut self, token: &Token<'_>, lane: usize, line: usize) -> bool {
        match token {
            Token::BeginArray | Token::BeginObject => {
                let found = self.begins(lane, line);
                self.depth = self.depth.saturating_add(1);
                found
            }
            Token::EndArray | Token::EndObject => {
                self.depth = self.depth.saturating_sub(1);
                false
            }
            Token::Key(name) => {
                self.names(name);
                false
            }
            _ => self.begins(lane, line),
        }
    }
}

/// Where a line of a lane's script begins in a script file's text; at its front where it has no such line.
fn line_begin(alloc: Global, text: &str, lane: usize, line: usize) -> Result<usize, AllocError> {
    let mut scratch = Scratch::new(alloc);
    let mut reader = Reader::new(text, &mut scratch)?;
    let mut finder = Finder {
        depth: 0,
        in_scripts: false,
        scripts: 0,
        lines: 0,
    };
    let mut begin = 0;
    let mut at = reader.offset();
    while let Some(token) = reader.next() {
        if finder.passes(&token, lane, line) {
            begin = at;
        }
        at = reader.offset();
    }
    Ok(begin)
}

/// Where what a place names begins in a script file, if it is a line of a script; else 0.
pub(crate) fn begin_of(
    alloc: Global,
    file: &[u8],
    place: ScriptPlace,
) -> Result<usize, AllocError> {
    let Ok(text) = from_utf8(file) else {
        return Ok(0);
    };
    match place {
        ScriptPlace::Line { lane, line } | ScriptPlace::Item { lane, line, .. } => {
            line_begin(alloc, text, lane, line)
        }
        _ => Ok(0),
    }
}
