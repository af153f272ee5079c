//! A reference that travels.
ghost use Rattle.std.specs.Prelude.{◌≡◌};
ghost use Rattle.std.specs.Arc.{arc_value};

use shardpool::Loan;
use std::alloc::AllocError;
use std::marker::Model;
use std::sync::Arc;

/// A reference to an object, which any thread reads and clones, without a lane and without a lock: also once its key was
/// cleared. The lender of its lane takes it back. One that is dropped is spent too, which the lender's next sweep finds.
#[derive(Drop)]
pub struct Owned<T> {
    lane: u32,
    held: Arc<Loan<T>>,
}

impl<T> Model for Owned<T> {
    ghost use Rattle.std.specs.Arc.{arc_value};
    ghost use Rattle.lendings.specs.Owners.{OwnedOf, owned_code};

    ghost Value = { OwnedOf T };

    ghost coded = { owned_code T.code };

    ghost view = { λ o. record { lane = o.lane; loan = arc_value o.held } };
}

impl<T: Drop> Owned<T> {
    ghost use Rattle.std.specs.Prelude.{◌≡◌, IfSome};
    ghost use Rattle.std.specs.Arc.{arc_value};

    /// One owner of a loan of the lane of this number.
    pub(crate) fn of(lane: u32, held: Arc<Loan<T>>) -> Owned<T>
        ensures { result ≡ record { lane = lane; loan = arc_value held } }
    {
        Owned { lane, held }
    }

    /// The number of the lane that has the reference.
    pub fn lane(&self) -> u32
        ensures { result ≡ self.now.lane }
    {
        self.lane
    }

    /// The key of the object.
    pub fn key(&self) -> u64
        ensures { result ≡ self.now.loan.key }
    {
        self.held.key()
    }

    /// The object, which nobody writes while an owner is there.
    pub fn read(&self) -> &T
        ensures { IfSome self.now.loan.share (λ share. result.now ≡ share.object) }
    {
        self.held.read()
    }
}

impl<T: Drop> Clone for Owned<T> {
    ghost use Rattle.std.specs.Prelude.{◌≡◌};

    ghost is_clone = { λ old new. new ≡ old };

    /// One owner more of the same loan.
    ///
    /// # Errors
    ///
    /// Where the loan has 9,223,372,036,854,775,807 owners.
    fn clone(&self) -> Result<Owned<T>, AllocError> {
        let held = Arc::try_clone(&self.held)?;
        Ok(Owned {
            lane: self.lane,
            held,
        })
    }
}

fn is_sent<S: Send>(_: &S) {}

fn is_shared<S: Sync>(_: &S) {}

/// As a law: an owned reference may go to another thread, and several threads may read one at once.
pub fn crosses_law<T: Send + Sync + Drop>(owned: &Owned<T>) {
    is_sent(owned);
    is_shared(owned);
}
