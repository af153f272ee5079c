//! The error of a write that failed, and why an output can't be written.
ghost use Rattle.std.specs.Prelude.{◌≡◌};
ghost use Rattle.streams.specs.Reasons.{unwritable_by};

use std::error::Error;
use std::fmt;
use std::io::ErrorKind;

/// A write failed, or took none of some bytes, or a flush failed.
#[derive(Clone, Copy, Debug)]
pub struct WriteFailed;

impl fmt::Display for WriteFailed {
    fn fmt<W: fmt::Write>(&self, f: &mut fmt::Formatter<W>) -> fmt::Result {
        f.write_str("the output can't be written")
    }
}

impl Error for WriteFailed {}

/// Why an output can't be written, as the system tells it.
#[derive(Clone, Copy, Debug)]
pub enum Unwritable {
    /// Nobody reads any more: the reader of a pipe is gone.
    Closed,
    /// There is no space for it.
    Full,
    /// A file may not be so long.
    Long,
    /// It may not be written.
    Denied,
    /// Another reason, or none that is told.
    Other,
}

impl Unwritable {
    ghost use Rattle.std.specs.Prelude.{◌≡◌};
    ghost use Rattle.streams.specs.Reasons.{unwritable_text};

    /// The reason in words.
    pub fn text(self) -> &'static str
        ensures { result.now ≡ unwritable_text self }
    {
        match self {
            Unwritable::Closed => "nobody reads it any more",
            Unwritable::Full => "no space is left",
            Unwritable::Long => "the file may not be longer",
            Unwritable::Denied => "it may not be written",
            Unwritable::Other => "the system refuses it",
        }
    }
}

/// Why a write failed, by the kind of its error.
pub(crate) fn reason_of(kind: ErrorKind) -> Unwritable
    ensures { result ≡ unwritable_by kind }
{
    match kind {
        ErrorKind::BrokenPipe => Unwritable::Closed,
        ErrorKind::StorageFull | ErrorKind::QuotaExceeded => Unwritable::Full,
        ErrorKind::FileTooLarge => Unwritable::Long,
        ErrorKind::PermissionDenied => Unwritable::Denied,
        _ => Unwritable::Other,
    }
}
