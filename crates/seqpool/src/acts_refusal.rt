//! Why a text is none of a shape and acts, and where.
ghost use Rattle.std.specs.Prelude.{◌≡◌};
ghost use Rattle.seqpool.specs.ActsPlaces.{out_of_memory};

use crate::acts_fault::ActsFault;
use std::alloc::{AllocError, AllocFailed};
use std::error::Error;
use std::fmt;

/// A place in a text of acts.
#[derive(Clone, Copy, Debug, PartialEq, Eq)]
pub enum ActsPlace {
    /// The text as a whole.
    Text,
    /// The line of this number. The shape's line is 1.
    Line(usize),
}

/// Why a text is refused as the text of a shape and acts, and where: its first fault, with the place.
#[derive(Clone, Copy, Debug, PartialEq, Eq)]
pub struct ActsRefusal {
    pub fault: ActsFault,
    /// Where the fault is: in a line, or in the text as a whole where memory was refused.
    pub place: ActsPlace,
}

impl ActsRefusal {
    ghost use Rattle.std.specs.Prelude.{◌≡◌};
    ghost use Rattle.seqpool.specs.ActsPlaces.{refusal, out_of_memory};

    /// The refusal for this fault of the line of this number.
    pub fn at_line(fault: ActsFault, number: usize) -> ActsRefusal
        ensures { result ≡ refusal fault (ActsPlace.Line number) }
    {
        ActsRefusal {
            fault,
            place: ActsPlace::Line(number),
        }
    }

    /// The refusal for want of memory, which has no place in the text.
    pub fn out_of_memory() -> ActsRefusal
        ensures { result ≡ out_of_memory }
    {
        ActsRefusal {
            fault: ActsFault::Memory,
            place: ActsPlace::Text,
        }
    }
}

impl From<AllocError> for ActsRefusal {
    ghost from_gives = { λ _ e. e ≡ out_of_memory };

    fn from(_e: AllocError) -> ActsRefusal {
        ActsRefusal::out_of_memory()
    }
}

impl<T: Drop> From<AllocFailed<T>> for ActsRefusal {
    ghost from_gives = { λ _ e. e ≡ out_of_memory };

    fn from(_e: AllocFailed<T>) -> ActsRefusal {
        ActsRefusal::out_of_memory()
    }
}

impl fmt::Display for ActsRefusal {
    fn fmt<W: fmt::Write>(&self, f: &mut fmt::Formatter<W>) -> fmt::Result {
        self.fault.fmt(f)
    }
}

impl Error for ActsRefusal {}
