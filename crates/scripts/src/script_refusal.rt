//! Why a script file is no plan, and where.
ghost use Rattle.std.specs.Prelude.{◌≡◌};
ghost use Rattle.scripts.specs.ScriptPlaces.{out_of_memory};

use crate::script_fault::ScriptFault;
use crate::script_place::ScriptPlace;
use std::alloc::{AllocError, AllocFailed};
use std::error::Error;
use std::fmt;

/// Why a script file is no plan, and where: its first fault, with the place.
#[derive(Clone, Copy, Debug)]
pub struct ScriptRefusal {
    pub fault: ScriptFault,
    /// Where the fault is. It is `File` for bytes that are no JSON, and where memory was refused.
    pub place: ScriptPlace,
}

impl ScriptRefusal {
    ghost use Rattle.std.specs.Prelude.{◌≡◌};
    ghost use Rattle.scripts.specs.ScriptPlaces.{refusal, out_of_memory};

    /// The refusal for this fault at this place.
    pub fn new(fault: ScriptFault, place: ScriptPlace) -> ScriptRefusal
        ensures { result ≡ refusal fault place }
    {
        ScriptRefusal { fault, place }
    }

    /// The refusal for want of memory, which has no place in the file.
    pub fn out_of_memory() -> ScriptRefusal
        ensures { result ≡ out_of_memory }
    {
        ScriptRefusal {
            fault: ScriptFault::Memory,
            place: ScriptPlace::File,
        }
    }
}

impl fmt::Display for ScriptRefusal {
    fn fmt<W: fmt::Write>(&self, f: &mut fmt::Formatter<W>) -> fmt::Result {
        self.fault.fmt(f)
    }
}

impl Error for ScriptRefusal {}

impl From<AllocError> for ScriptRefusal {
    ghost from_gives = { λ _ refusal. refusal ≡ out_of_memory };

    fn from(_refused: AllocError) -> ScriptRefusal {
        ScriptRefusal::out_of_memory()
    }
}

impl<T: Drop> From<AllocFailed<T>> for ScriptRefusal {
    ghost from_gives = { λ _ refusal. refusal ≡ out_of_memory };

    fn from(_refused: AllocFailed<T>) -> ScriptRefusal {
        ScriptRefusal::out_of_memory()
    }
}
