//! What is written into an object.
ghost use Rattle.std.specs.Prelude.{◌≡◌, OnOk, OnErr, []};

use slotcell::{Clear, Memory};

/// What an object is to hold: it is written into an empty one.
pub trait Contents<T: Clear> {
    ghost use Rattle.std.specs.Prelude.{ℕ, List};

    ghost content: { Self → List ℕ };

    /// Into which objects it may not be written: those for which memory may be refused.
    ghost may_refuse: { Self → T → Type 0 } = { λ _ _. Unit {0} };

    /// Writes it into an empty object.
    ///
    /// # Errors
    ///
    /// `Memory` where it was refused.
    fn write(&self, object: &mut T) -> Result<(), Memory>
        requires { T.content object.old ≡ [] }
        ensures ok { OnOk result (T.content object.new ≡ content self.now) }
        ensures err { OnErr result (may_refuse self.now object.old) };
}
