//! Why a text is none of a shape and acts.
ghost use Rattle.std.specs.Prelude.{◌≡◌};
ghost use Rattle.seqpool.specs.declared.acts_fault.ActsFault.TheVariants as acts_faults;

use keybits::ShapeFault;
use std::alloc::{AllocError, AllocFailed};
use std::error::Error;
use std::fmt;

/// Why a text is refused as the text of a shape and acts.
#[derive(Clone, Copy, Debug, PartialEq, Eq)]
pub enum ActsFault {
    /// A line is none of a shape or an act, or there is no line.
    ActsLine,
    /// The first line is of a shape that `Shape::check` refuses.
    Shape(ShapeFault),
    /// No memory was left.
    Memory,
}

impl ActsFault {
    ghost use Rattle.seqpool.specs.Refusals.{acts_fault_number};
    ghost use Rattle.seqpool.specs.FaultNames.{acts_fault_name};

    /// The fault's number: 19 for a line, the shape fault's own number, and 18 for want of memory.
    pub fn number(&self) -> u32
        ensures { result ≡ acts_fault_number self.now }
    {
        match self {
            ActsFault::ActsLine => 19,
            ActsFault::Shape(fault) => fault.number(),
            ActsFault::Memory => 18,
        }
    }

    /// The fault's name; a shape's fault keeps its own.
    pub fn name(&self) -> &'static str
        ensures { result.now ≡ acts_fault_name self.now }
    {
        match self {
            ActsFault::ActsLine => "ActsLine",
            ActsFault::Shape(fault) => fault.name(),
            ActsFault::Memory => "Memory",
        }
    }
}

impl From<AllocError> for ActsFault {
    ghost from_gives = { λ _ e. e ≡ acts_faults.Memory };

    fn from(_e: AllocError) -> ActsFault {
        ActsFault::Memory
    }
}

impl<T: Drop> From<AllocFailed<T>> for ActsFault {
    ghost from_gives = { λ _ e. e ≡ acts_faults.Memory };

    fn from(_e: AllocFailed<T>) -> ActsFault {
        ActsFault::Memory
    }
}

impl fmt::Display for ActsFault {
    fn fmt<W: fmt::Write>(&self, f: &mut fmt::Formatter<W>) -> fmt::Result {
        match self {
            ActsFault::ActsLine => f.write_str("a line is none of a shape or an act"),
            ActsFault::Shape(fault) => write!(f, "the shape is refused: {fault}"),
            ActsFault::Memory => f.write_str("no memory was left"),
        }
    }
}

impl Error for ActsFault {}
