//! Why a call answers no schedule: memory was refused.
use std::alloc::{AllocError, AllocFailed};
use std::error::Error;
use std::fmt;

/// Memory was refused (36).
#[derive(Clone, Copy, Debug, PartialEq, Eq)]
pub struct Memory;

impl Memory {
    ghost use Rattle.std.specs.Prelude.{◌≡◌, codes};

    /// The fault's number: 36.
    pub fn number(&self) -> u32
        ensures { result ≡ 36 }
    {
        36
    }

    /// The fault's name.
    pub fn name(&self) -> &'static str
        ensures { result.now ≡ codes "Memory" }
    {
        "Memory"
    }
}

impl fmt::Display for Memory {
    fn fmt<W: fmt::Write>(&self, f: &mut fmt::Formatter<W>) -> fmt::Result {
        f.write_str("out of memory")
    }
}

impl Error for Memory {}

impl From<AllocError> for Memory {
    fn from(_refused: AllocError) -> Memory {
        Memory
    }
}

impl<T: Drop> From<AllocFailed<T>> for Memory {
    fn from(_refused: AllocFailed<T>) -> Memory {
        Memory
    }
}
