//! Who empties the objects of the places that a call reclaims.
ghost use Rattle.std.specs.Prelude.{◌≡◌, ◌≤◌, []};

use slotcell::Clear;

/// Whom a call hands the object of the place that it reclaims. The calls that take none clear it in place.
pub trait Emptier<T: Clear> {
    ghost use Rattle.std.specs.Prelude.{ℕ, List};

    /// That it took an object with this content: as it was before, and is then.
    ghost takes: { Self → List ℕ → Self → Type 0 };

    /// Empties the object, whose room is no smaller afterwards. What it held may be kept by the emptier, to be dropped
    /// or used again where its owner likes.
    fn empty(&mut self, object: &mut T)
        ensures empty { T.content object.new ≡ [] }
        ensures room_kept { T.room object.old ≤ T.room object.new }
        ensures took { takes self.old (T.content object.old) self.new };

    /// Takes the object of a place that gets none any more.
    fn retire(&mut self, object: T)
        ensures { takes self.old (T.content object) self.new };
}

/// Clears objects in place, and drops that of a place which gets none any more.
#[derive(Drop)]
pub struct InPlace;

impl<T: Clear + Drop> Emptier<T> for InPlace {
    ghost takes = { λ _ _ _. Unit {0} };

    #[inline(always)]
    fn empty(&mut self, object: &mut T) {
        object.clear();
    }

    #[inline(always)]
    fn retire(&mut self, object: T) {
        drop(object);
    }
}
