//! Why there is no shorter schedule.
ghost use Rattle.std.specs.Prelude.{◌≡◌};
ghost use Rattle.shortening.specs.declared.fault.Unshortened.TheVariants.{Memory};

use coresteps::CoreFault;
use seqpool::Memory as ActsMemory;
use std::alloc::{AllocError, AllocFailed};

/// Why there is no shorter schedule.
#[derive(Clone, Copy, Debug)]
pub enum Unshortened {
    /// The whole schedule fails the trial.
    Fails,
    /// The trial may try no more.
    Limit,
    /// Memory was refused.
    Memory,
}

impl From<AllocError> for Unshortened {
    ghost from_gives = { λ _ fault. fault ≡ Memory };

    fn from(_refused: AllocError) -> Unshortened {
        Unshortened::Memory
    }
}

impl<T: Drop> From<AllocFailed<T>> for Unshortened {
    ghost from_gives = { λ _ fault. fault ≡ Memory };

    fn from(_refused: AllocFailed<T>) -> Unshortened {
        Unshortened::Memory
    }
}

impl From<ActsMemory> for Unshortened {
    ghost from_gives = { λ _ fault. fault ≡ Memory };

    fn from(_refused: ActsMemory) -> Unshortened {
        Unshortened::Memory
    }
}

impl From<CoreFault> for Unshortened {
    ghost from_gives = { λ _ fault. fault ≡ Memory };

    fn from(_refused: CoreFault) -> Unshortened {
        Unshortened::Memory
    }
}
