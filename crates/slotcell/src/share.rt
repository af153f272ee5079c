//! The right to read a cell.
ghost use Rattle.std.specs.Prelude.{◌≡◌};

use crate::portion::Portion;
use std::marker::Model;

/// One of the shares of a cell: the right to read the object in it, which nobody writes meanwhile.
///
/// A contract sees which cell the share is of, its number, of how many it is one, and the object, so the object's
/// content and room. Shares that are of one cell show one object. Where `T` is `Send` and `Sync` a share crosses
/// threads.
///
/// A share that is dropped frees nothing: its cell can then never be whole again, and its memory is lost.
#[derive(Drop)]
pub struct Share<T> {
    portion: Portion<T>,
}

impl<T> Model for Share<T> {
    ghost use Rattle.slotcell.specs.Share.{Share as Shown, share_code};
    ghost use Rattle.slotcell.specs.Parts.{IsOneShare, shown_by};

    ghost Value = { Shown T };

    ghost coded = { share_code T.code };

    ghost view = { λ s. shown_by s.portion };

    ghost invariant = { λ s. IsOneShare s.portion };
}

impl<T> Share<T> {
    ghost use Rattle.slotcell.specs.Parts.{IsOneShare, shown_by};

    /// Answers the object.
    pub fn read(&self) -> &T
        ensures { result.now ≡ self.now.object }
    {
        self.portion.read()
    }

    pub(crate) fn from_portion(portion: Portion<T>) -> Share<T>
        requires { IsOneShare portion }
        ensures { result ≡ shown_by portion }
    {
        Share { portion }
    }

    pub(crate) fn into_portion(self) -> Portion<T>
        ensures share { shown_by result ≡ self }
        ensures parts { IsOneShare result }
    {
        self.portion
    }
}
