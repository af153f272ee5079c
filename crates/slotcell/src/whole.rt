//! The owner of a cell, which splits it into shares and joins them again.
ghost use Rattle.std.specs.Prelude.{◌≡◌, ℕ, ◌+◌, ◌^◌, ◌<◌, ◌≤◌, true, MatchResult, [], ◌∷◌, ◌++◌, length, All, Some, IsSome};
ghost use Rattle.std.specs.Borrow.{sem};
ghost use Rattle.slotcell.specs.Share.{shares_below, AreAllShares, AllShow};

use crate::portion::Portion;
use crate::share::Share;
use crate::unboxed::Unboxed;
use arrayvec::ArrayVec;
use std::alloc::Global;
use std::marker::Model;

/// A cell on the heap with its object, which nobody else can reach. A contract sees the object, so its content and
/// room.
///
/// A whole that is dropped drops its object and frees its cell. It crosses threads as `T` does.
#[derive(Drop)]
pub struct Whole<T> {
    boxed: Box<T>,
}

impl<T> Model for Whole<T> {
    ghost Value = { T };

    ghost coded = { T.code };

    ghost view = { λ w. w.boxed.value };
}

impl<T> Whole<T> {
    ghost use Rattle.slotcell.specs.Whole.{LendsObject};

    /// Puts `object` into a new cell.
    ///
    /// # Errors
    ///
    /// For want of memory `object` comes back.
    pub fn new(alloc: Global, object: T) -> Result<Whole<T>, T>
        ensures { MatchResult result (λ whole. whole ≡ object) (λ back. back ≡ object) }
    {
        match Box::new(alloc, object) {
            Ok(boxed) => Ok(Whole { boxed }),
            Err(refused) => Err(refused.value),
        }
    }

    /// Answers the object.
    pub fn get(&self) -> &T
        ensures { result.now ≡ self.now }
    {
        &self.boxed
    }

    /// Answers the object for writing.
    pub fn get_mut(&mut self) -> &mut T
        ensures* writes_back { sem 𝓛 (LendsObject T.row self.entry result) }
        ensures object { result.now ≡ self.old }
    {
        &mut self.boxed
    }

    /// Takes the object out, and frees the cell.
    pub fn into_inner(self) -> T
        ensures { result ≡ self }
    {
        Box::into_inner(self.boxed)
    }
}

impl<T: Drop> Whole<T> {
    /// Splits the cell into `n` shares, from 1 to 16, which stand by rising number from 0. Each shows the object. It
    /// takes no memory.
    ///
    /// The shares are `Some`s, since an `ArrayVec` holds blanks in its unused places and a share has none.
    pub fn split(self, n: usize) -> ArrayVec<Option<Share<T>>, 16>
        requires { (0 < n) × (n ≤ 16) }
        ensures { (cell : ℕ) × (result.items ≡ shares_below cell n self n) }
    {
        let mut portion = Portion::lend(Unboxed::from_box(self.boxed), n);
        let mut shares = ArrayVec::new();
        for _ in 0..n - 1 {
            shares.push(Some(Share::from_portion(portion.cut())));
        }
        shares.push(Some(Share::from_portion(portion)));
        shares
    }

    // Ends the loan of which these are all parts.
    pub(crate) fn from_portion(alloc: Global, all: Portion<T>) -> Whole<T>
        requires { (all.parts ≡ 2 ^ 63) × (all.owner ≡ true) }
        ensures { result ≡ all.object }
    {
        Whole {
            boxed: all.recover(alloc).into_box(),
        }
    }
}

/// Joins all the shares of one cell, in any order, to the whole. Its object is the one that each of them showed. It
/// takes no memory.
pub fn join<T: Drop>(alloc: Global, shares: ArrayVec<Option<Share<T>>, 16>) -> Whole<T>
    requires { AreAllShares shares.items }
    ensures { AllShow result shares.items }
{
    let mut shares = shares;
    let count = shares.len();
    let mut all = take_last(&mut shares).into_portion();
    for _ in 1..count {
        all.merge(take_last(&mut shares).into_portion());
    }
    Whole::from_portion(alloc, all)
}

pub(crate) fn take_last<T: Drop>(shares: &mut ArrayVec<Option<Share<T>>, 16>) -> Share<T>
    requires { (0 < length shares.old.items) × All IsSome shares.old.items }
    ensures { shares.old.items ≡ shares.new.items ++ Some result ∷ [] }
{
    shares.pop().unwrap().unwrap()
}
