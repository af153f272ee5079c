//! Why an act isn't applied, and why a history isn't found legal.
ghost use Rattle.std.specs.Prelude.{◌≡◌};
ghost use Rattle.seqpool.specs.declared.fault.ApplyFault.TheVariants as faults;
ghost use Rattle.seqpool.specs.declared.fault.CheckFault.TheVariants as check_faults;

use std::alloc::{AllocError, AllocFailed};
use std::error::Error;
use std::fmt;

/// No memory was left.
#[derive(Clone, Copy, Debug, PartialEq, Eq)]
pub struct Memory;

/// Why an act isn't applied. After any of these the pool is as it was before.
#[derive(Clone, Copy, Debug, PartialEq, Eq)]
pub enum ApplyFault {
    /// There is no such lane, the place isn't with it, or the act isn't for such a place or key.
    NotWithLane,
    /// The next generation of the place isn't the key's.
    WrongGeneration,
    /// The reply isn't that of the pool.
    WrongReply,
    /// The lane has no reference to the key.
    NotHeld,
    /// A lane has a reference to the key.
    StillHeld,
    /// The key isn't in the pool, or isn't marked.
    NotMarked,
    /// The places are none, or one isn't home, is of another shard or came before.
    NotHome,
    /// No memory was left.
    Memory,
}

/// Why a history isn't found legal.
#[derive(Clone, Copy, Debug, PartialEq, Eq)]
pub enum CheckFault {
    /// The first act that is refused, counted from 0, and why.
    Illegal { index: usize, fault: ApplyFault },
    /// No memory was left.
    Memory,
}

impl Memory {
    /// The number of the fault, 18.
    pub fn number(&self) -> u32
        ensures { result ≡ 18 }
    {
        18
    }
}

impl From<AllocError> for Memory {
    fn from(_e: AllocError) -> Memory {
        Memory
    }
}

impl<T: Drop> From<AllocFailed<T>> for Memory {
    fn from(_e: AllocFailed<T>) -> Memory {
        Memory
    }
}

impl fmt::Display for Memory {
    fn fmt<W: fmt::Write>(&self, f: &mut fmt::Formatter<W>) -> fmt::Result {
        f.write_str("no memory was left")
    }
}

impl Error for Memory {}

impl ApplyFault {
    ghost use Rattle.seqpool.specs.Refusals.{apply_fault_number};
    ghost use Rattle.seqpool.specs.FaultNames.{apply_fault_name};

    /// The fault's number: 11 to 17 in the order of the variants, and 18 for want of memory.
    pub fn number(&self) -> u32
        ensures { result ≡ apply_fault_number self.now }
    {
        match self {
            ApplyFault::NotWithLane => 11,
            ApplyFault::WrongGeneration => 12,
            ApplyFault::WrongReply => 13,
            ApplyFault::NotHeld => 14,
            ApplyFault::StillHeld => 15,
            ApplyFault::NotMarked => 16,
            ApplyFault::NotHome => 17,
            ApplyFault::Memory => 18,
        }
    }

    /// The fault's name.
    pub fn name(&self) -> &'static str
        ensures { result.now ≡ apply_fault_name self.now }
    {
        match self {
            ApplyFault::NotWithLane => "NotWithLane",
            ApplyFault::WrongGeneration => "WrongGeneration",
            ApplyFault::WrongReply => "WrongReply",
            ApplyFault::NotHeld => "NotHeld",
            ApplyFault::StillHeld => "StillHeld",
            ApplyFault::NotMarked => "NotMarked",
            ApplyFault::NotHome => "NotHome",
            ApplyFault::Memory => "Memory",
        }
    }
}

impl From<AllocError> for ApplyFault {
    ghost from_gives = { λ _ e. e ≡ faults.Memory };

    fn from(_e: AllocError) -> ApplyFault {
        ApplyFault::Memory
    }
}

impl fmt::Display for ApplyFault {
    fn fmt<W: fmt::Write>(&self, f: &mut fmt::Formatter<W>) -> fmt::Result {
        f.write_str(match self {
            ApplyFault::NotWithLane => "there is no such lane, or the place isn't with it",
            ApplyFault::WrongGeneration => "the place's next generation isn't the key's",
            ApplyFault::WrongReply => "the reply isn't that of the pool",
            ApplyFault::NotHeld => "the lane has no reference to the key",
            ApplyFault::StillHeld => "a lane has a reference to the key",
            ApplyFault::NotMarked => "the key isn't in the pool, or isn't marked",
            ApplyFault::NotHome => "the places are none, or one isn't home or came before",
            ApplyFault::Memory => "no memory was left",
        })
    }
}

impl Error for ApplyFault {}

impl From<Memory> for CheckFault {
    ghost from_gives = { λ _ e. e ≡ check_faults.Memory };

    fn from(_e: Memory) -> CheckFault {
        CheckFault::Memory
    }
}

impl fmt::Display for CheckFault {
    fn fmt<W: fmt::Write>(&self, f: &mut fmt::Formatter<W>) -> fmt::Result {
        match self {
            CheckFault::Illegal { index, fault } => write!(f, "act {index} is refused: {fault}"),
            CheckFault::Memory => f.write_str("no memory was left"),
        }
    }
}

impl Error for CheckFault {}
