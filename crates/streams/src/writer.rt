//! Writers that remember whether a write failed, and why.
use crate::write_failed::{Unwritable, reason_of};
use std::io;
use std::io::Write;

/// A writer that remembers whether one of its writes failed, why the first did, and whether it was flushed since the
/// last.
#[derive(Drop)]
pub struct Watched<W> {
    inner: W,
    failed: bool,
    why: Unwritable,
    flushed: bool,
}

impl<W> Watched<W> {
    ghost use Rattle.std.specs.Prelude.{◌≡◌, true, false};
    ghost use Rattle.streams.specs.Watching.{first_why};

    /// Watches a writer from now on.
    pub fn new(inner: W) -> Self
        ensures inner { result.inner ≡ inner }
        ensures failed { result.failed ≡ false }
        ensures why { result.why ≡ Unwritable.Other }
        ensures flushed { result.flushed ≡ true }
    {
        Watched {
            inner,
            failed: false,
            why: Unwritable::Other,
            flushed: true,
        }
    }

    /// Notes that a write failed, and why, where it is the first.
    fn note(&mut self, why: Unwritable)
        ensures { self.new ≡ record self.old { failed = true; why = first_why self.old.failed self.old.why why } }
    {
        if !self.failed {
            self.failed = true;
            self.why = why;
        }
    }

    /// Whether a write failed since `new`: it answered an error, or took none of some bytes. A flush
    /// that answered an error counts as one.
    pub fn failed(&self) -> bool
        ensures { result ≡ self.now.failed }
    {
        self.failed
    }

    /// Why the first write failed that did since `new`; `Other` where none did.
    pub fn why(&self) -> Unwritable
        ensures { result ≡ self.now.why }
    {
        self.why
    }

    /// Whether a flush succeeded since the last write; true before the first.
    pub fn is_flushed(&self) -> bool
        ensures { result ≡ self.now.flushed }
    {
        self.flushed
    }

    /// The writer that was watched.
    pub fn into_inner(self) -> W
        ensures { result ≡ self.inner }
    {
        let Watched {
            inner,
            failed: _,
            why: _,
            flushed: _,
        } = self;
        inner
    }
}

impl<W: Write> Write for Watched<W> {
    ghost use Rattle.std.specs.Prelude.{◌≡◌, ◌||◌, false, is_err, is_ok};
    ghost use Rattle.std.specs.Io.{WritesAtMost};
    ghost use Rattle.std.specs.Io.KnownBytes.{Keeps, WriteAppends};
    ghost use Rattle.streams.specs.Watching.{write_failed, why_failed, why_after};

    ghost contents = { λ w. W.contents w.inner };

    fn write(&mut self, buf: &[u8]) -> io::Result<usize>
        ensures bound { WritesAtMost result buf.now }
        ensures bytes { WriteAppends (W.contents self.old.inner) (W.contents self.new.inner) result buf.now }
        ensures failed { self.new.failed ≡ (self.old.failed || write_failed buf.now result) }
        ensures why { self.new.why ≡ why_after self.old.failed self.old.why (write_failed buf.now result) (why_failed result) }
        ensures flushed { self.new.flushed ≡ false }
    {
        self.flushed = false;
        let taken = self.inner.write(buf);
        match &taken {
            Ok(taken) => {
                if *taken == 0 && !buf.is_empty() {
                    self.note(Unwritable::Other);
                }
            }
            Err(error) => self.note(reason_of(error.kind())),
        }
        taken
    }

    fn flush(&mut self) -> io::Result<()>
        ensures bytes { Keeps (W.contents self.old.inner) (W.contents self.new.inner) }
        ensures failed { self.new.failed ≡ (self.old.failed || is_err result) }
        ensures why { self.new.why ≡ why_after self.old.failed self.old.why (is_err result) (why_failed result) }
        ensures flushed { self.new.flushed ≡ is_ok result }
    {
        let flushed = self.inner.flush();
        self.flushed = flushed.is_ok();
        if let Err(error) = &flushed {
            self.note(reason_of(error.kind()));
        }
        flushed
    }
}
