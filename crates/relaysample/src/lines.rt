//! Objects of one's own: entries of a log, each with a line.
ghost use Rattle.std.specs.Prelude.{◌≡◌, Some};
ghost use Rattle.relaysample.specs.declared.lines.Line.{Line as Logged};
ghost use Rattle.relaysample.specs.Lines.{numbers_of, content_of};

use guards::Contents;
use slotcell::{Clear, Memory};
use std::alloc::Global;

/// A line of the log.
#[derive(Clone, Copy)]
pub struct Line {
    /// The thread that logged it.
    pub thread: u32,
    /// Which of that thread's lines it is.
    pub number: u32,
    pub millis: u32,
}

/// As a law: lines of the same numbers are one.
pub fn numbers_law()
    ensures { (one other : Logged) → numbers_of one ≡ numbers_of other → one ≡ other }
{}

/// What the pool keeps of the log: a line, or none.
#[derive(Drop)]
pub struct Entry {
    line: Option<Line>,
}

impl Clear for Entry {
    ghost use Rattle.std.specs.Prelude.{◌≡◌};

    ghost content = { content_of };

    ghost room = { λ entry. 0 };

    fn fresh(_alloc: Global) -> Entry {
        Entry { line: None }
    }

    fn clear(&mut self) {
        self.line = None;
    }

    fn room(&self) -> usize {
        0
    }
}

impl Contents<Entry> for Line {
    ghost content = { numbers_of };

    fn write(&self, object: &mut Entry) -> Result<(), Memory> {
        object.line = Some(*self);
        Ok(())
    }
}

impl Entry {
    /// The line. None where the entry is empty.
    pub fn line(&self) -> Option<Line>
        ensures { result ≡ self.now.line }
    {
        self.line
    }
}
