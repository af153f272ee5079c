//! Objects whose content fits in their room.
use slotcell::Clear;

/// An object that holds nothing beyond its room. So an object with the room of another takes no memory for what fitted
/// in that one.
pub trait Roomy: Clear {
    ghost use Rattle.std.specs.Prelude.{◌≤◌, ℕ, List};

    /// How much room a content takes.
    ghost size: { List ℕ → ℕ };

    /// As a law: the content takes at most the room.
    fn room_law(&self)
        ensures { size (Self.content self.now) ≤ Self.room self.now };
}
