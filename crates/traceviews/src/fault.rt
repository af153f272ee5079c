//! Why a text is not read as that of a trace, and what is wanted there.
ghost use Rattle.std.specs.Prelude.{◌≡◌};
ghost use Rattle.traceviews.specs.declared.fault.ReadFault.TheVariants as read_faults;

use std::alloc::AllocFailed;
use std::error::Error;
use std::fmt;

/// What is wanted where a line is none.
#[derive(Clone, Copy, Debug)]
pub enum Wanted {
    /// The number of a lane.
    Lane,
    /// The name of a step, or an equals sign before a reply.
    Entry,
    /// The number of a place.
    Place,
    /// A stack, by the numbers of its shard and its lane.
    Stack,
    /// The word that a step found.
    Before,
    /// The word that a step left.
    After,
    /// A reply.
    Reply,
}

impl Wanted {
    ghost use Rattle.std.specs.Prelude.{◌≡◌};
    ghost use Rattle.traceviews.specs.Wants.{wanted_text};

    /// What is wanted, in words.
    pub fn text(self) -> &'static str
        ensures { result.now ≡ wanted_text self }
    {
        match self {
            Wanted::Lane => "a lane's number",
            Wanted::Entry => "the name of a step, or an equals sign before a reply,",
            Wanted::Place => "a place's number",
            Wanted::Stack => "a stack, as 0.1,",
            Wanted::Before => "a step's word before",
            Wanted::After => "a step's word after",
            Wanted::Reply => "a reply",
        }
    }
}

impl fmt::Display for Wanted {
    fn fmt<W: fmt::Write>(&self, f: &mut fmt::Formatter<W>) -> fmt::Result {
        f.write_str(self.text())
    }
}

/// Why a line, or a part of it, is not read.
#[derive(Clone, Copy)]
pub(crate) enum LineFault {
    /// It is the text of none, and this is wanted.
    Lacks(Wanted),
    /// Memory was refused.
    Memory,
}

/// Why a text is not read as that of a trace.
#[derive(Clone, Copy, Debug)]
pub enum ReadFault {
    /// The line of this number, counted from 1, is the first that is none.
    Line { number: usize, wanted: Wanted },
    /// Memory was refused.
    Memory,
}

impl<T: Drop> From<AllocFailed<T>> for ReadFault {
    ghost from_gives = { λ _ fault. fault ≡ read_faults.Memory };

    fn from(_refused: AllocFailed<T>) -> ReadFault {
        ReadFault::Memory
    }
}

impl fmt::Display for ReadFault {
    fn fmt<W: fmt::Write>(&self, f: &mut fmt::Formatter<W>) -> fmt::Result {
        match self {
            ReadFault::Line { number, wanted } => write!(f, "line {number}: {wanted} is wanted"),
            ReadFault::Memory => f.write_str("out of memory"),
        }
    }
}

impl Error for ReadFault {}
