//! The cells of places: where a row of them begins, a share, a slot for one, the shares in one hand, the whole.
ghost use Rattle.std.specs.Prelude.{◌≡◌, ◌==◌, ℕ, ⊤, Some, None, IsSome, IfSome, Option, nat_lt, ◌+◌, ◌-◌, ◌<◌, ◌^◌, ◌≤◌};
ghost use Rattle.poolsteps.specs.Spot.{IsAt};
ghost use Rattle.std.specs.Coded.{coded_option};
ghost use Rattle.poolsteps.specs.Held.{Held, held_code, held_owns, held_shares, held_of, first_of, if_chosen, unless_chosen};
ghost use Rattle.poolsteps.specs.Rest.{lowest_share};
ghost use Rattle.std.specs.Borrow.{sem};

use crate::memory::{Loose, Portion};
use std::alloc::AllocError;
use std::marker::{Model, PhantomData, Send, Sync};
use std::mem;

/// Where a row of values begins. It owns nothing.
pub struct Base<T> {
    pub(crate) ptr: *mut T,
}

impl<T> Clone for Base<T> {
    ghost is_clone = { λ x y. y ≡ x };

    ghost is_infallible = { λ _. ⊤ };

    fn clone(&self) -> Result<Base<T>, AllocError> {
        Ok(*self)
    }
}

impl<T> Copy for Base<T> {}

unsafe impl<T> Send for Base<T> {}

unsafe impl<T> Sync for Base<T> {}

impl<T> Base<T> {
    /// Where it begins, whatever its values are.
    pub fn address(self) -> Address
        ensures { result.at ≡ self.ptr }
    {
        Address {
            at: self.ptr as *mut u8,
        }
    }
}

/// Where a row begins, whatever its values are. It owns nothing.
pub struct Address {
    pub(crate) at: *mut u8,
}

impl Clone for Address {
    ghost is_clone = { λ x y. y ≡ x };

    ghost is_infallible = { λ _. ⊤ };

    fn clone(&self) -> Result<Address, AllocError> {
        Ok(*self)
    }
}

impl Copy for Address {}

unsafe impl Send for Address {}

unsafe impl Sync for Address {}

/// One of the shares of a place: the right to read the object in it, which nobody writes meanwhile. It has no bytes.
#[derive(Drop)]
pub struct Share<T> {
    pub(crate) portion: Portion<T>,
}

impl<T> Model for Share<T> {
    ghost use Rattle.poolsteps.specs.Share.{Share as Shown, share_code};
    ghost use Rattle.poolsteps.specs.Parts.{IsOneShare, shown_by};

    ghost Value = { Shown T };

    ghost coded = { share_code T.code };

    ghost view = { λ s. shown_by s.portion };

    ghost invariant = { λ s. IsOneShare s.portion };
}

/// How many references a lane has to a key of a place, and of which generation it is. Proofs alone know it: it has no
/// bytes.
#[derive(Drop)]
pub struct Tally {
    mark: PhantomData<u8>,
    pub ghost generation: { ℕ },
    pub ghost count: { ℕ },
}

impl Model for Tally {
    ghost use base.Fml.{ftrue};

    ghost also_owns = { λ _. ftrue };
}

unsafe impl Send for Tally {}

unsafe impl Sync for Tally {}

impl Tally {
    /// No reference.
    pub fn none() -> Tally
        ensures { (result.generation ≡ 0) × (result.count ≡ 0) }
    {
        Tally { mark: PhantomData }
    }

    /// One reference more, to a key of this generation.
    pub fn gain(self, generation: u32) -> Tally
        ensures { (result.generation ≡ generation) × (result.count ≡ self.count + 1) }
    {
        let Tally { mark: _ } = self;
        let _ = generation;
        Tally { mark: PhantomData }
    }

    /// One reference less.
    pub fn lose(self) -> Tally
        ensures { (result.generation ≡ self.generation) × (result.count ≡ self.count - 1) }
    {
        let Tally { mark: _ } = self;
        Tally { mark: PhantomData }
    }
}

// A portion, or nothing. Proofs alone know which of the two it is.
#[derive(Drop)]
pub(crate) struct MaybePortion<T> {
    mark: PhantomData<*const T>,
    pub(crate) ghost held: { Option (Held T) } by { coded_option (held_code T.code) },
}

impl<T> Model for MaybePortion<T> {
    ghost also_owns = { λ p. held_owns T.row p.held };

    ghost also_shares = { λ p _ κ. held_shares T.row p.held κ };
}

impl<T> MaybePortion<T> {
    pub(crate) fn none() -> MaybePortion<T>
        ensures { result.held ≡ None }
    {
        MaybePortion { mark: PhantomData }
    }

    pub(crate) fn some(portion: Portion<T>) -> MaybePortion<T>
        ensures { result.held ≡ Some (held_of portion) }
    {
        let Portion { mark: _ } = portion;
        MaybePortion { mark: PhantomData }
    }

    // The object of the portion, which stands at this index from the base on.
    pub(crate) fn read(&self, base: Base<T>, index: usize) -> &T
        requires { (held : Held T) × (self.now.held ≡ Some held) × (base.ptr ≡ held.base) × (index ≡ held.index) }
        ensures { IfSome self.now.held (λ held. result.now ≡ held.object) }
    {
        unsafe { &*base.ptr.add(index) }
    }

    pub(crate) fn into_portion(self) -> Portion<T>
        requires { IsSome self.held }
        ensures { self.held ≡ Some (held_of result) }
    {
        let MaybePortion { mark: _ } = self;
        Portion { mark: PhantomData }
    }

    // The portion of the first of the two that has one. What both have isn't kept.
    pub(crate) fn or(self, other: MaybePortion<T>) -> MaybePortion<T>
        ensures { result.held ≡ first_of self.held other.held }
    {
        let MaybePortion { mark: _ } = self;
        let MaybePortion { mark: _ } = other;
        MaybePortion { mark: PhantomData }
    }

    // The portion where the tally has a reference, and else nothing.
    pub(crate) fn under(self, tally: &Tally) -> MaybePortion<T>
        ensures { result.held ≡ if_chosen (nat_lt 0 tally.now.count) self.held }
    {
        let MaybePortion { mark: _ } = self;
        let _ = tally;
        MaybePortion { mark: PhantomData }
    }

    // The portion is with the first of the two where the tally has one reference, and else with the second.
    pub(crate) fn deal(self, tally: &Tally) -> (MaybePortion<T>, MaybePortion<T>)
        ensures { (result.0.held ≡ if_chosen (tally.now.count == 1) self.held)
            × (result.1.held ≡ unless_chosen (tally.now.count == 1) self.held) }
    {
        let MaybePortion { mark: _ } = self;
        (
            MaybePortion { mark: PhantomData },
            MaybePortion { mark: PhantomData },
        )
    }
}

unsafe impl<T: Send + Sync> Send for MaybePortion<T> {}

unsafe impl<T: Send + Sync> Sync for MaybePortion<T> {}

/// A place for a share of a cell, or for none. It has no bytes.
#[derive(Drop)]
pub struct Slot<T> {
    portion: MaybePortion<T>,
}

impl<T> Model for Slot<T> {
    ghost use Rattle.std.specs.Prelude.{Option};
    ghost use Rattle.std.specs.Coded.{coded_option};
    ghost use Rattle.poolsteps.specs.Share.{Share as Shown, share_code};
    ghost use Rattle.poolsteps.specs.SlotFields.{slot_shown_by, IsSlot};

    ghost Value = { Option (Shown T) };

    ghost coded = { coded_option (share_code T.code) };

    ghost view = { λ s. slot_shown_by s.portion.held };

    ghost invariant = { λ s. IsSlot s.portion.held };
}

impl<T> Slot<T> {
    ghost use Rattle.poolsteps.specs.Share.{Share as Shown};
    ghost use Rattle.poolsteps.specs.Spot.{IsAt};

    /// Makes a slot without a share.
    pub fn empty() -> Slot<T>
        ensures { result ≡ None }
    {
        Slot {
            portion: MaybePortion::none(),
        }
    }

    /// Makes a slot that holds `share`.
    pub fn filled(share: Share<T>) -> Slot<T>
        ensures { result ≡ Some share }
    {
        let Share { portion } = share;
        Slot {
            portion: MaybePortion::some(portion),
        }
    }

    /// Answers the object of this place, which the share shows.
    pub fn read(&self, directory: Base<T>, index: usize) -> &T
        requires { (share : Shown T) × (self.now ≡ Some share) × IsAt share.spot directory.ptr index }
        ensures { IfSome self.now (λ share. result.now ≡ share.object) }
    {
        self.portion.read(directory, index)
    }

    /// The share of the first of the two that has one.
    pub fn or(self, other: Slot<T>) -> Slot<T>
        ensures { result ≡ first_of self other }
    {
        let Slot { portion } = self;
        let Slot { portion: rest } = other;
        Slot {
            portion: portion.or(rest),
        }
    }

    /// The share is in the first of the two where the tally has one reference, and else in the second.
    pub fn deal(self, tally: &Tally) -> (Slot<T>, Slot<T>)
        ensures { (result.0 ≡ if_chosen (tally.now.count == 1) self) × (result.1 ≡ unless_chosen (tally.now.count == 1) self) }
    {
        let Slot { portion } = self;
        let (first, second) = portion.deal(tally);
        (Slot { portion: first }, Slot { portion: second })
    }

    /// The share where the tally has a reference, and else none.
    pub fn under(self, tally: &Tally) -> Slot<T>
        ensures { result ≡ if_chosen (nat_lt 0 tally.now.count) self }
    {
        let Slot { portion } = self;
        Slot {
            portion: portion.under(tally),
        }
    }

    /// Takes the share out.
    pub fn into_share(self) -> Share<T>
        requires { IsSome self }
        ensures { self ≡ Some result }
    {
        let Slot { portion } = self;
        Share {
            portion: portion.into_portion(),
        }
    }
}

/// The shares of a place from one number on, up to the last, all in one hand. It has no bytes.
#[derive(Drop)]
pub struct Rest<T> {
    pub(crate) portion: Portion<T>,
}

impl<T> Model for Rest<T> {
    ghost use Rattle.poolsteps.specs.Rest.{Rest as Shown, rest_code};
    ghost use Rattle.poolsteps.specs.Parts.{IsRest, rest_shown_by};

    ghost Value = { Shown T };

    ghost coded = { rest_code T.code };

    ghost view = { λ r. rest_shown_by r.portion };

    ghost invariant = { λ r. IsRest r.portion };
}

impl<T> Rest<T> {
    /// Cuts off the share of the lowest number, which is not the last.
    pub fn cut(&mut self) -> Share<T>
        requires { self.old.number + 1 < self.old.of }
        ensures share { result ≡ lowest_share self.old }
        ensures rest { self.new ≡ record self.old { number = self.old.number + 1 } }
    {
        Share {
            portion: self.portion.cut(1),
        }
    }

    /// Takes in the share of the number below the lowest. It showed the same object, as it is of the same loan.
    pub fn merge(&mut self, share: Share<T>)
        requires { (share.cell ≡ self.old.cell) × (share.spot ≡ self.old.spot) × (share.of ≡ self.old.of)
            × (share.number + 1 ≡ self.old.number) }
        ensures object { share.object ≡ self.old.object }
        ensures rest { self.new ≡ record self.old { number = share.number } }
    {
        let Share { portion } = share;
        let above = mem::replace(&mut self.portion, portion);
        self.portion.merge(above);
    }

    /// Answers the last share of the place, where only that is left.
    pub fn into_share(self) -> Share<T>
        requires { self.number + 1 ≡ self.of }
        ensures { result ≡ lowest_share self }
    {
        let Rest { portion } = self;
        Share { portion }
    }

    /// Takes the last share of a place, for the others to be merged in.
    pub fn of_last(share: Share<T>) -> Rest<T>
        requires { share.number + 1 ≡ share.of }
        ensures { share ≡ lowest_share result }
    {
        let Share { portion } = share;
        Rest { portion }
    }

    /// Makes all shares of the place the whole again, with the object that each of them showed.
    pub fn into_whole(self) -> Whole<T>
        requires { self.number ≡ 0 }
        ensures { (result.spot ≡ self.spot) × (result.object ≡ self.object) }
    {
        let Rest { portion } = self;
        Whole {
            word: portion.recover(),
        }
    }
}

/// A place with its object, which nobody else can reach. It has no bytes: the object stands in the directory.
#[derive(Drop)]
pub struct Whole<T> {
    pub(crate) word: Loose<T>,
}

impl<T> Model for Whole<T> {
    ghost use Rattle.poolsteps.specs.Whole.{Whole as Shown, whole_code};
    ghost use Rattle.poolsteps.specs.Parts.{whole_shown_by};

    ghost Value = { Shown T };

    ghost coded = { whole_code T.code };

    ghost view = { λ w. whole_shown_by w.word };
}

impl<T> Whole<T> {
    ghost use Rattle.poolsteps.specs.WholeLends.{LendsObject};

    /// Answers the object.
    pub fn get(&self, directory: Base<T>, index: usize) -> &T
        requires { IsAt self.now.spot directory.ptr index }
        ensures { result.now ≡ self.now.object }
    {
        self.word.get(directory, index)
    }

    /// Answers the object for writing.
    pub fn get_mut(&mut self, directory: Base<T>, index: usize) -> &mut T
        requires { IsAt self.old.spot directory.ptr index }
        ensures* writes_back { sem 𝓛 (LendsObject T.row self.entry result) }
        ensures object { result.now ≡ self.old.object }
    {
        self.word.get_mut(directory, index)
    }

    /// Lends the place in `n` shares, from 1 to 2^32, all in one hand. Each shows the object.
    pub fn lend(self, n: usize) -> Rest<T>
        requires { (0 < n) × (n ≤ 2 ^ 32) }
        ensures { (result.spot ≡ self.spot) × (result.number ≡ 0) × (result.of ≡ n) × (result.object ≡ self.object) }
    {
        let Whole { word } = self;
        Rest {
            portion: Portion::lend(word, n),
        }
    }
}
