//! Why outcomes aren't listed.
ghost use Rattle.std.specs.Prelude.{◌≡◌};
ghost use Rattle.outcomes.specs.declared.fault.Unlisted.TheVariants.{Memory};

use std::alloc::{AllocError, AllocFailed};

/// Why outcomes aren't listed.
#[derive(Clone, Copy, Debug)]
pub enum Unlisted {
    /// There are more states than the search may go through: so many were found by then.
    TooMany(u64),
    /// Memory was refused.
    Memory,
}

impl From<AllocError> for Unlisted {
    ghost from_gives = { λ _ fault. fault ≡ Memory };

    fn from(_refused: AllocError) -> Unlisted {
        Unlisted::Memory
    }
}

impl<T: Drop> From<AllocFailed<T>> for Unlisted {
    ghost from_gives = { λ _ fault. fault ≡ Memory };

    fn from(_refused: AllocFailed<T>) -> Unlisted {
        Unlisted::Memory
    }
}
