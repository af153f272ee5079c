//! How far a long task is, told to those who wait for it.
ghost use Rattle.std.specs.Prelude.{◌≡◌, ◌++◌, false};
ghost use Rattle.streams.specs.Saying.{Says};
ghost use Rattle.poolprogram.specs.Progress.{sum_within, is_due, counted, shown_now, turn_text, last_turns_text, erasure_of, trial_text, last_entries_text};

use crate::progress::{tell_entries, tell_turns, write_erasure};
use shortening::Watch;
use std::io::Write;
use streams::Watched;

/// After so many entries that were replayed it is told how far a task is.
const PART: usize = 50_000;

/// Tells on a writer how far a long task is, where that is wanted. In place its line is written over, and erased at the
/// end. Where a write fails, nothing else changes.
#[derive(Drop)]
pub struct Meter<W> {
    out: Watched<W>,
    in_place: bool,
    wanted: bool,
    /// Whether a line stands there that is to be erased.
    shown: bool,
    /// How many entries the schedule has.
    all: usize,
    /// How many turns or trials were made.
    made: usize,
    /// How many entries were replayed since something was told.
    untold: usize,
}

impl<W> Meter<W> {
    /// Tells on this writer, where it is wanted: by a line that is written over, or by one line behind another.
    pub fn new(out: W, in_place: bool) -> Self
        ensures writer { result.out.inner ≡ out }
        ensures well { result.out.failed ≡ false }
        ensures place { result.in_place ≡ in_place }
        ensures quiet { result.wanted ≡ false }
        ensures none { result.shown ≡ false }
    {
        Meter {
            out: Watched::new(out),
            in_place,
            wanted: false,
            shown: false,
            all: 0,
            made: 0,
            untold: 0,
        }
    }

    /// It is wanted from now on, or not.
    pub(crate) fn want(&mut self, wanted: bool)
        ensures { self.new ≡ record self.old { wanted = wanted } }
    {
        self.wanted = wanted;
    }

    /// A task begins, over a schedule of so many entries.
    pub(crate) fn begin(&mut self, all: usize)
        ensures { self.new ≡ record self.old { all = all; made = 0; untold = 0 } }
    {
        self.all = all;
        self.made = 0;
        self.untold = 0;
    }

    /// One more turn or trial was made, in which so many entries were replayed. Answers whether something is to be told.
    fn is_due(&mut self, entries: usize) -> bool
        ensures due { result ≡ is_due self.old entries }
        ensures after { self.new ≡ counted self.old entries }
    {
        self.made = self.made.saturating_add(1);
        self.untold = self.untold.saturating_add(entries);
        if !self.wanted || self.untold < PART {
            return false;
        }
        self.untold = 0;
        true
    }
}

impl<W: Write> Meter<W> {
    /// One more turn of a replay is made.
    pub(crate) fn turn(&mut self)
        ensures says { Says W.contents self.old.out self.new.out (turn_text self.old) }
        ensures same { self.new ≡ record (shown_now (is_due self.old 1) (counted self.old 1)) { out = self.new.out } }
    {
        if self.is_due(1) {
            tell_turns(self.in_place, self.made, self.all, &mut self.out);
            self.shown = self.shown || self.in_place;
        }
    }

    /// Erases the line that stands there.
    pub(crate) fn clear(&mut self)
        ensures says { Says W.contents self.old.out self.new.out (erasure_of self.old) }
        ensures same { self.new ≡ record self.old { out = self.new.out; shown = false } }
    {
        if self.shown {
            write_erasure(&mut self.out);
            self.shown = false;
        }
    }

    /// All turns of a replay are made.
    pub(crate) fn end_turns(&mut self)
        ensures says { Says W.contents self.old.out self.new.out (erasure_of self.old ++ last_turns_text self.old) }
        ensures same { self.new ≡ record self.old { out = self.new.out; shown = false } }
    {
        self.clear();
        if self.wanted && !self.in_place && self.untold > 0 {
            tell_turns(false, self.made, self.all, &mut self.out);
        }
    }

    /// A shortening ends with so many entries. The line that says so stays.
    pub(crate) fn end_entries(&mut self, left: usize)
        ensures says { Says W.contents self.old.out self.new.out (erasure_of self.old ++ last_entries_text self.old left) }
        ensures same { self.new ≡ record self.old { out = self.new.out; shown = false } }
    {
        self.clear();
        if self.wanted {
            tell_entries(false, left, self.all, self.made, &mut self.out);
        }
    }
}

impl<W: Write> Watch for Meter<W> {
    fn tries(&mut self, entries: usize, left: usize)
        ensures says { Says W.contents self.old.out self.new.out (trial_text self.old entries left) }
        ensures same { self.new ≡ record (shown_now (is_due self.old (sum_within entries 1)) (counted self.old (sum_within entries 1)))
            { out = self.new.out } }
    {
        if self.is_due(entries.saturating_add(1)) {
            tell_entries(self.in_place, left, self.all, self.made, &mut self.out);
            self.shown = self.shown || self.in_place;
        }
    }
}
