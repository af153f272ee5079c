//! Why a plan wasn't done.
use shardpool::OpenFault;
use std::alloc::AllocError;
use std::fmt;

/// Why a plan wasn't done.
#[derive(Drop)]
pub enum Fault {
    /// The words name no plan.
    Words,
    /// The pool can't be opened.
    Open(OpenFault),
    /// Memory was refused.
    Memory,
    /// The line couldn't be printed.
    Output,
}

impl fmt::Display for Fault {
    fn fmt<W: fmt::Write>(&self, f: &mut fmt::Formatter<W>) -> fmt::Result {
        let text = match self {
            Fault::Words => "words: a case, a number of threads up to 64, and a number of rounds",
            Fault::Open(fault) => return fault.fmt(f),
            Fault::Memory => "out of memory",
            Fault::Output => "the output can't be written",
        };
        f.write_str(text)
    }
}

impl From<OpenFault> for Fault {
    fn from(fault: OpenFault) -> Fault {
        Fault::Open(fault)
    }
}

impl From<AllocError> for Fault {
    fn from(_fault: AllocError) -> Fault {
        Fault::Memory
    }
}
