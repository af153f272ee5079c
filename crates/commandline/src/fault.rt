//! Why words are no task, as the faults that tell it.
ghost use Rattle.std.specs.Prelude.{◌≡◌, Some, []};
ghost use Rattle.commandline.specs.Mistakes.{Tells};
ghost use Rattle.commandline.specs.declared.fault.TaskFault.TheVariants as faults;

use crate::mistakes::{Mistake, Reason};
use clap::Error as ClapError;
use std::alloc::{AllocError, Global};
use thiserror::Error;

/// Why the words are no task.
#[derive(Debug, Drop, Error)]
pub enum TaskFault {
    /// `clap` refused the words, or help or the version was asked for.
    #[error(transparent)]
    Clap(ClapError),
    /// A word is wrong that `clap` took.
    #[error("words")]
    Words(Mistake),
    /// Memory was refused (43).
    #[error("out of memory")]
    Memory(AllocError),
}

impl From<ClapError> for TaskFault {
    ghost from_gives = { λ error fault. fault ≡ faults.Clap error };

    fn from(error: ClapError) -> TaskFault {
        TaskFault::Clap(error)
    }
}

impl From<AllocError> for TaskFault {
    ghost from_gives = { λ refused fault. fault ≡ faults.Memory refused };

    fn from(refused: AllocError) -> TaskFault {
        TaskFault::Memory(refused)
    }
}

/// The mistake of this reason, about this text; a want of memory where that is refused for the text.
pub(crate) fn mistaken(alloc: Global, reason: Reason, found: &str) -> TaskFault
    ensures { Tells (Some (reason, found.now)) result }
{
    match Vec::from_slice(alloc, found.as_bytes()) {
        Ok(found) => TaskFault::Words(Mistake { reason, found }),
        Err(refused) => TaskFault::Memory(refused),
    }
}

/// The mistake of this reason, about a word that isn't there.
pub(crate) fn mistaken_without(alloc: Global, reason: Reason) -> TaskFault
    ensures { Tells (Some (reason, [])) result }
{
    TaskFault::Words(Mistake {
        reason,
        found: Vec::new(alloc),
    })
}
