//! What is said behind a mistake to someone at a terminal.
ghost use Rattle.std.specs.Prelude.{◌≡◌, map, string_bytes};
ghost use Rattle.streams.specs.Saying.{Says};
ghost use Rattle.streams.specs.Shown.{bytes_text};
ghost use Rattle.commandline.specs.Readings.{text_of};
ghost use Rattle.commandline.specs.Hints.{file_told, command_told, hint_text, is_hinted, is_due, Hints, word_of};

use crate::fault::TaskFault;
use std::io::Write;
use streams::{Watched, write_bytes, write_cut, write_text};

/// Writes which file a mistake is about, where it is about one.
fn write_file<W: Write>(file: Option<&str>, out: &mut Watched<W>)
    ensures { Says W.contents out.old out.new (bytes_text (file_told (text_of file.entry))) }
{
    let Some(path) = file else {
        return;
    };
    write_cut(path.as_bytes(), out);
    write_bytes(b": ", out);
}

/// Writes the name of a subcommand, where there is one.
fn write_command<W: Write>(command: Option<&str>, out: &mut Watched<W>)
    ensures { Says W.contents out.old out.new (bytes_text (command_told (text_of command.entry))) }
{
    let Some(name) = command else {
        return;
    };
    write_bytes(b" ", out);
    write_cut(name.as_bytes(), out);
}

/// Writes the line of a hint.
fn write_hint<W: Write>(
    program: &str,
    command: Option<&str>,
    file: Option<&str>,
    out: &mut Watched<W>,
)
    ensures { Says W.contents out.old out.new (hint_text program.now (text_of command.entry) (text_of file.entry)) }
{
    write_bytes(program.as_bytes(), out);
    write_bytes(b": ", out);
    write_file(file, out);
    write_bytes(b"read on in \"", out);
    write_bytes(program.as_bytes(), out);
    write_command(command, out);
    write_bytes(b" --help\"", out);
    write_text(b"\n", out);
}

/// Whether a hint is given, by the status that the program ends with: behind a mistake that is explained, where hints
/// are wanted, unless `clap` gives one.
pub fn is_hinted(hints: bool, due: bool, explain: bool, status: u8) -> bool
    ensures { result ≡ is_hinted hints due explain status }
{
    hints && due && explain && (status == 1 || status == 2)
}

/// Gives a hint where one is wanted: the program, the file that a mistake is about, and where to read on.
pub fn hint<W: Write>(
    wanted: bool,
    program: &str,
    command: Option<&str>,
    file: Option<&str>,
    out: &mut Watched<W>,
)
    ensures { Hints W.contents wanted (hint_text program.now (text_of command.entry) (text_of file.entry)) out.old out.new }
{
    if wanted {
        write_hint(program, command, file, out);
    }
}

/// Whether a hint is due: `clap`, which may have refused the words, says itself where to read on.
pub fn is_due<T>(asked: &Result<T, TaskFault>) -> bool
    ensures { result ≡ is_due asked.now }
{
    match asked {
        Err(TaskFault::Clap(_)) => false,
        _ => true,
    }
}

/// A path as it stands among the words, where it does.
pub fn word_of<'a>(words: &'a [String], path: Option<&str>) -> Option<&'a str>
    ensures { text_of result ≡ word_of (map string_bytes words.now) (text_of path.entry) }
{
    let path = path?;
    for word in words {
        if word.as_str() == path {
            return Some(word.as_str());
        }
    }
    None
}
