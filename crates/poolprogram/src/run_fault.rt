//! Why the program could not do what it was told.
ghost use Rattle.std.specs.Prelude.{◌≡◌};
ghost use Rattle.poolprogram.specs.declared.run_fault.RunFault.TheVariants as runs;

use coresteps::CoreFault;
use scripts::ScriptRefusal;
use seqpool::ActsRefusal;
use shortening::Unshortened;
use std::alloc::AllocError;
use streams::{Unread, Unreadable, WriteFailed};
use thiserror::Error;

/// Why the program could not do what it was told.
#[derive(Debug, Drop, Error)]
pub enum RunFault {
    /// The script file is no plan, with the place of its first fault; or memory was refused for a schedule or a
    /// worker's report.
    #[error(transparent)]
    Read(ScriptRefusal),
    /// The text of acts stands for none, with the place of its first fault: a line is wrong (19), the shape
    /// is refused (1, 2, 3, 4, 6) or memory was refused (18).
    #[error(transparent)]
    Acts(ActsRefusal),
    /// Memory was refused to a replay (25).
    #[error(transparent)]
    Core(CoreFault),
    /// The word of a shortening stands nowhere in the replay of the whole schedule, or where that is asked for in no
    /// decoded line of it (44).
    #[error("the word isn't there")]
    Absent { decoded: bool },
    /// A schedule wasn't shortened: too much would have to be replayed (45) or memory was refused to a replay (25).
    #[error("the schedule isn't shortened")]
    Shortening(Unshortened),
    /// Outcomes aren't listed, as there are more states than the search may go through: so many were found (46).
    #[error("too many states")]
    TooMany(u64),
    /// The pool wasn't opened, as memory was refused (5).
    #[error("out of memory")]
    Open,
    /// The file can't be opened or read to its end, for this reason (41).
    #[error("the file can't be read")]
    File(Unreadable),
    /// A write failed (42).
    #[error("the output can't be written")]
    Output,
    /// Memory was refused (43).
    #[error("out of memory")]
    Memory,
}

impl RunFault {
    ghost use Rattle.std.specs.Prelude.{◌≡◌};
    ghost use Rattle.poolprogram.specs.RunFaults.{run_fault_number, run_fault_name};

    /// The fault's number, the first part of its line.
    pub fn number(&self) -> u32
        ensures { result ≡ run_fault_number self.now }
    {
        match self {
            RunFault::Read(refusal) => refusal.fault.number(),
            RunFault::Acts(refusal) => refusal.fault.number(),
            RunFault::Core(_) => 25,
            RunFault::Absent { .. } => 44,
            RunFault::Shortening(Unshortened::Fails) => 44,
            RunFault::Shortening(Unshortened::Limit) => 45,
            RunFault::Shortening(Unshortened::Memory) => 25,
            RunFault::TooMany(_) => 46,
            RunFault::Open => 5,
            RunFault::File(_) => 41,
            RunFault::Output => 42,
            RunFault::Memory => 43,
        }
    }

    /// The fault's name, the second part of its line.
    pub fn name(&self) -> &'static str
        ensures { result.now ≡ run_fault_name self.now }
    {
        match self {
            RunFault::Read(refusal) => refusal.fault.name(),
            RunFault::Acts(refusal) => refusal.fault.name(),
            RunFault::Core(_) => "Memory",
            RunFault::Absent { .. } => "Absent",
            RunFault::Shortening(Unshortened::Fails) => "Absent",
            RunFault::Shortening(Unshortened::Limit) => "Limit",
            RunFault::Shortening(Unshortened::Memory) => "Memory",
            RunFault::TooMany(_) => "States",
            RunFault::Open => "Memory",
            RunFault::File(_) => "File",
            RunFault::Output => "Output",
            RunFault::Memory => "Memory",
        }
    }
}

impl From<Unread> for RunFault {
    ghost use Rattle.poolprogram.specs.RunFaults.{unread_fault};

    ghost from_gives = { λ unread fault. fault ≡ unread_fault unread };

    fn from(unread: Unread) -> RunFault {
        match unread {
            Unread::Memory => RunFault::Memory,
            Unread::File(why) => RunFault::File(why),
        }
    }
}

impl From<WriteFailed> for RunFault {
    ghost from_gives = { λ _ fault. fault ≡ runs.Output };

    fn from(_failed: WriteFailed) -> RunFault {
        RunFault::Output
    }
}

impl From<AllocError> for RunFault {
    ghost from_gives = { λ _ fault. fault ≡ runs.Memory };

    fn from(_refused: AllocError) -> RunFault {
        RunFault::Memory
    }
}
