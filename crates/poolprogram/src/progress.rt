//! The lines that tell how far a long task is.
ghost use Rattle.std.specs.Prelude.{decimal};
ghost use Rattle.streams.specs.Saying.{Says};
ghost use Rattle.poolprogram.specs.Progress.{turns_line, entries_line, before_line, behind_line, told, erasure};

use itoa::Buffer;
use std::io::Write;
use streams::{Watched, write_text};

/// Writes a number.
fn write_number<W: Write>(number: usize, out: &mut Watched<W>)
    ensures { Says W.contents out.old out.new (decimal number) }
{
    write_text(Buffer::new().format(number).as_bytes(), out);
}

/// Writes what stands before a line.
fn write_before<W: Write>(in_place: bool, out: &mut Watched<W>)
    ensures { Says W.contents out.old out.new (before_line in_place) }
{
    if in_place {
        write_text(b"\r", out);
    }
}

/// Writes what stands behind a line.
fn write_behind<W: Write>(in_place: bool, out: &mut Watched<W>)
    ensures { Says W.contents out.old out.new (behind_line in_place) }
{
    if in_place {
        write_text(b"\x1b[K", out);
    } else {
        write_text(b"\n", out);
    }
}

/// Writes how many turns of a replay are made of how many.
fn write_turns<W: Write>(made: usize, all: usize, out: &mut Watched<W>)
    ensures { Says W.contents out.old out.new (turns_line made all) }
{
    write_text(b"replay: ", out);
    write_number(made, out);
    write_text(b" of ", out);
    write_number(all, out);
    write_text(b" turns", out);
}

/// Writes how many entries a shortening has left of how many, and how many trials that took.
fn write_entries<W: Write>(left: usize, all: usize, trials: usize, out: &mut Watched<W>)
    ensures { Says W.contents out.old out.new (entries_line left all trials) }
{
    write_text(b"shorten: ", out);
    write_number(left, out);
    write_text(b" of ", out);
    write_number(all, out);
    write_text(b" entries left, trials: ", out);
    write_number(trials, out);
}

/// Writes how many turns of a replay are made of how many, over the line that stands there or as a line of its own.
pub(crate) fn tell_turns<W: Write>(in_place: bool, made: usize, all: usize, out: &mut Watched<W>)
    ensures { Says W.contents out.old out.new (told in_place (turns_line made all)) }
{
    write_before(in_place, out);
    write_turns(made, all, out);
    write_behind(in_place, out);
}

/// Writes how many entries a shortening has left of how many, and how many trials that took, in the same way.
pub(crate) fn tell_entries<W: Write>(
    in_place: bool,
    left: usize,
    all: usize,
    trials: usize,
    out: &mut Watched<W>,
)
    ensures { Says W.contents out.old out.new (told in_place (entries_line left all trials)) }
{
    write_before(in_place, out);
    write_entries(left, all, trials, out);
    write_behind(in_place, out);
}

/// Erases a line that is written over.
pub(crate) fn write_erasure<W: Write>(out: &mut Watched<W>)
    ensures { Says W.contents out.old out.new erasure }
{
    write_text(b"\r\x1b[K", out);
}
