//! The steps of lifecycle words. Each is one call of the table, and answers the word that it found.
ghost use Rattle.std.specs.Prelude.{◌≡◌, ◌<◌, true, false};
ghost use Rattle.keybits.specs.Keys.{place_of, is_key};
ghost use Rattle.steplaws.specs.declared.pending.Pending.TheVariants.{Undo, Owes};
ghost use Rattle.steplaws.specs.Facts.{most_of};
ghost use Rattle.poolsteps.specs.declared.steps.Purpose.TheVariants.{ToGet};
ghost use Rattle.poolsteps.specs.Views.{the_lane, known_of, IsOne};
ghost use Rattle.poolsteps.specs.Grids.{IsSpot, IsOf, SameSeat};
ghost use Rattle.poolsteps.specs.Told.{Enters, Leaves, Publishes, Marks, MarksFrom, Claims, IsIdle, references_seen, MayLeave, MayPublish, IsShared, MayRenew};
ghost use Rattle.poolsteps.specs.Moved.{stored_of};

use crate::cells::Share;
use crate::find::LIVES_START;
use crate::grid::{Grid, Hand, Spot};
use crate::view::View;
use atomic_table::Play;
use keybits::{MARK_BIT, ONE_COUNT, PUBLISHED_BIT, claimable, claimed};
use slotcell::Clear;
use std::marker::{Brand, PhantomData};

/// What an ENTER is for.
#[derive(Clone, Copy, Debug, PartialEq, Eq)]
pub enum Purpose {
    /// A get.
    ToGet,
    /// A clear.
    ToClear,
}

/// What a step is told by the call that makes it.
pub(crate) trait Aim {
    ghost use Rattle.std.specs.Prelude.{ℕ, Bool};
    ghost use Rattle.keybits.specs.declared.shape.Shape.{Shape};
    ghost use Rattle.poolsteps.specs.declared.view.Stored.{Stored};
    ghost use Rattle.poolsteps.specs.declared.steps.Purpose.{Purpose};

    ghost shape: { Shape };

    ghost purpose: { Purpose };

    ghost key: { ℕ };

    ghost stored: { Stored };

    ghost with_ref: { Bool };
}

impl Aim for Brand {
    ghost use Rattle.std.specs.Prelude.{false};
    ghost use Rattle.poolsteps.specs.Shares.{nothing_stored};
    ghost use Rattle.poolsteps.specs.declared.steps.Purpose.TheVariants.{ToGet};

    ghost shape = { record { lanes = 1; first_page = 1; pages = 1; last_generation = 1; tag = 0; guests = 0 } };

    ghost purpose = { ToGet };

    ghost key = { 0 };

    ghost stored = { nothing_stored };

    ghost with_ref = { false };
}

/// ENTER.
pub(crate) struct Enter<J: Aim> {
    of: PhantomData<J>,
}

impl<S, J: Aim> Play<S, View> for Enter<J> {
    ghost use Rattle.poolsteps.specs.Told.{Enters};

    ghost then = { λ step before found after. Enters J.shape J.purpose J.key before found after };
}

/// LEAVE.
pub(crate) struct Leave<J: Aim> {
    of: PhantomData<J>,
}

impl<S, J: Aim> Play<S, View> for Leave<J> {
    ghost use Rattle.poolsteps.specs.Told.{Leaves};

    ghost then = { λ step before found after. Leaves J.shape J.key before found after };
}

/// PUBLISH.
pub(crate) struct Publish<J: Aim> {
    of: PhantomData<J>,
}

impl<S, J: Aim> Play<S, View> for Publish<J> {
    ghost use Rattle.poolsteps.specs.Told.{Publishes};

    ghost then = { λ step before found after. Publishes J.shape J.key J.stored J.with_ref before found after };
}

/// MARK.
pub(crate) struct Mark<J: Aim> {
    of: PhantomData<J>,
}

impl<S, J: Aim> Play<S, View> for Mark<J> {
    ghost use Rattle.poolsteps.specs.Told.{Marks};

    ghost then = { λ step before found after. Marks J.shape J.key before found after };
}

/// MARK from an expected word.
pub(crate) struct MarkFrom<J: Aim> {
    of: PhantomData<J>,
}

impl<S, J: Aim> Play<S, View> for MarkFrom<J> {
    ghost use Rattle.poolsteps.specs.Told.{MarksFrom};

    ghost then = { λ step before found after. MarksFrom J.shape step.first J.key before found after };
}

/// CLAIM, of a place and generation that its lane owes.
pub(crate) struct Claim<J: Aim> {
    of: PhantomData<J>,
}

impl<S, J: Aim> Play<S, View> for Claim<J> {
    ghost use Rattle.poolsteps.specs.Told.{Claims, owed_place, owed_generation};

    ghost then = { λ step before found after. Claims J.shape (owed_place before.0) (owed_generation before.0) before found after };
}

impl<T: Clear> Grid<T> {
    /// ENTER of a get or of a clear of a key: one is added to the count of its place. Answers the word that was found;
    /// the call hits where that is of the key's generation and PRESENT. A get is of a key to which the lane has fewer
    /// references than the most.
    #[inline]
    pub fn enter(&self, hand: &mut Hand<T>, spot: Spot, key: u64, purpose: Purpose) -> u64
        requires hand { IsOf self.now hand.old × IsOne hand.old.me.0 }
        requires spot { IsSpot self.now.shape spot (place_of key) }
        requires key { is_key self.now.shape key ≡ true }
        requires idle { IsIdle hand.old.me.0 }
        requires room { purpose ≡ ToGet
            → references_seen self.now.shape hand.old.me.0 key < most_of self.now.shape (the_lane hand.old.me.0).lane }
        ensures hand { SameSeat hand.old hand.new }
        ensures enters { Enters self.now.shape purpose key hand.old.me result hand.new.me }
    {
        self.enter_as::<Brand>(hand, spot, key, purpose)
    }

    #[inline]
    fn enter_as<J: Aim>(&self, hand: &mut Hand<T>, spot: Spot, key: u64, purpose: Purpose) -> u64
        requires aim { (J.shape ≡ self.now.shape) × (J.key ≡ key) × (J.purpose ≡ purpose) }
        requires hand { IsOf self.now hand.old × IsOne hand.old.me.0 }
        requires spot { IsSpot self.now.shape spot (place_of key) }
        requires key { is_key self.now.shape key ≡ true }
        requires idle { IsIdle hand.old.me.0 }
        requires room { purpose ≡ ToGet
            → references_seen self.now.shape hand.old.me.0 key < most_of self.now.shape (the_lane hand.old.me.0).lane }
        ensures hand { SameSeat hand.old hand.new }
        ensures enters { Enters self.now.shape purpose key hand.old.me result hand.new.me }
    {
        let _ = key;
        let _ = purpose;
        self.table
            .shared
            .fetch_add::<Enter<J>>(hand, LIVES_START + spot.start as usize, ONE_COUNT)
    }

    /// LEAVE: one is taken from the count of a key's place. It gives back a reference where nothing is under way, and
    /// else undoes the ENTER that is. Before the last reference is given back its share is. Answers the word that was
    /// found.
    #[inline]
    pub fn leave(&self, hand: &mut Hand<T>, spot: Spot, key: u64) -> u64
        requires hand { IsOf self.now hand.old × IsOne hand.old.me.0 }
        requires spot { IsSpot self.now.shape spot (place_of key) }
        requires may { MayLeave self.now.shape hand.old.me.0 key }
        ensures hand { SameSeat hand.old hand.new }
        ensures leaves { Leaves self.now.shape key hand.old.me result hand.new.me }
    {
        self.leave_as::<Brand>(hand, spot, key)
    }

    #[inline]
    fn leave_as<J: Aim>(&self, hand: &mut Hand<T>, spot: Spot, key: u64) -> u64
        requires aim { (J.shape ≡ self.now.shape) × (J.key ≡ key) }
        requires hand { IsOf self.now hand.old × IsOne hand.old.me.0 }
        requires spot { IsSpot self.now.shape spot (place_of key) }
        requires may { MayLeave self.now.shape hand.old.me.0 key }
        ensures hand { SameSeat hand.old hand.new }
        ensures leaves { Leaves self.now.shape key hand.old.me result hand.new.me }
    {
        let _ = key;
        self.table
            .shared
            .fetch_sub::<Leave<J>>(hand, LIVES_START + spot.start as usize, ONE_COUNT)
    }

    /// PUBLISH, without a reference, of the content of the cell at the place of a key: the place is with the lane, and
    /// each share of the cell is in its slot. Answers the word that was found.
    #[inline]
    pub fn publish(&self, hand: &mut Hand<T>, spot: Spot, key: u64) -> u64
        requires hand { IsOf self.now hand.old × IsOne hand.old.me.0 }
        requires spot { IsSpot self.now.shape spot (place_of key) }
        requires may { MayPublish self.now.shape hand.old.me.0 key }
        requires shares { IsShared self.now.shape hand.old.me.0 (place_of key) false }
        ensures hand { SameSeat hand.old hand.new }
        ensures publishes { Publishes self.now.shape key (known_of (the_lane hand.old.me.0) (place_of key)) false hand.old.me result
            hand.new.me }
    {
        self.publish_as::<Brand>(hand, spot, key, false)
    }

    /// PUBLISH, with a reference, of the content of the cell that a share in the lane's hands shows: the place of the
    /// key is with the lane, and each other share of the cell is in its slot. Answers the word that was found.
    #[inline]
    pub fn publish_held(&self, hand: &mut Hand<T>, spot: Spot, key: u64, share: &Share<T>) -> u64
        requires hand { IsOf self.now hand.old × IsOne hand.old.me.0 }
        requires spot { IsSpot self.now.shape spot (place_of key) }
        requires may { MayPublish self.now.shape hand.old.me.0 key }
        requires shares { IsShared self.now.shape hand.old.me.0 (place_of key) true }
        requires cell { MayRenew self.now.shape hand.old.me.0 (place_of key) (stored_of T.content T.room share.now) }
        ensures hand { SameSeat hand.old hand.new }
        ensures publishes { Publishes self.now.shape key (stored_of T.content T.room share.now) true hand.old.me result hand.new.me }
    {
        self.publish_shown::<Brand>(hand, spot, key, share)
    }

    #[inline]
    fn publish_shown<J: Aim>(
        &self,
        hand: &mut Hand<T>,
        spot: Spot,
        key: u64,
        share: &Share<T>,
    ) -> u64
        requires aim { (J.shape ≡ self.now.shape) × (J.key ≡ key) × (J.with_ref ≡ true)
            × (J.stored ≡ stored_of T.content T.room share.now) }
        requires hand { IsOf self.now hand.old × IsOne hand.old.me.0 }
        requires spot { IsSpot self.now.shape spot (place_of key) }
        requires may { MayPublish self.now.shape hand.old.me.0 key }
        requires shares { IsShared self.now.shape hand.old.me.0 (place_of key) true }
        requires cell { MayRenew self.now.shape hand.old.me.0 (place_of key) J.stored }
        ensures hand { SameSeat hand.old hand.new }
        ensures publishes { Publishes self.now.shape key J.stored true hand.old.me result hand.new.me }
    {
        let _ = share;
        self.publish_as::<J>(hand, spot, key, true)
    }

    #[inline]
    fn publish_as<J: Aim>(&self, hand: &mut Hand<T>, spot: Spot, key: u64, with_ref: bool) -> u64
        requires aim { (J.shape ≡ self.now.shape) × (J.key ≡ key) × (J.with_ref ≡ with_ref) }
        requires hand { IsOf self.now hand.old × IsOne hand.old.me.0 }
        requires spot { IsSpot self.now.shape spot (place_of key) }
        requires may { MayPublish self.now.shape hand.old.me.0 key }
        requires shares { IsShared self.now.shape hand.old.me.0 (place_of key) with_ref }
        requires cell { MayRenew self.now.shape hand.old.me.0 (place_of key) J.stored }
        ensures hand { SameSeat hand.old hand.new }
        ensures publishes { Publishes self.now.shape key J.stored with_ref hand.old.me result hand.new.me }
    {
        let _ = key;
        let added = if with_ref {
            PUBLISHED_BIT + ONE_COUNT
        } else {
            PUBLISHED_BIT
        };
        self.table
            .shared
            .fetch_add::<Publish<J>>(hand, LIVES_START + spot.start as usize, added)
    }

    /// MARK, after the ENTER of a clear that hit. Answers the word that was found; the clear is the one that marked the
    /// key where that was PRESENT.
    #[inline]
    pub fn mark(&self, hand: &mut Hand<T>, spot: Spot, key: u64) -> u64
        requires hand { IsOf self.now hand.old × IsOne hand.old.me.0 }
        requires spot { IsSpot self.now.shape spot (place_of key) }
        requires under { (the_lane hand.old.me.0).under ≡ Undo key true }
        ensures hand { SameSeat hand.old hand.new }
        ensures marks { Marks self.now.shape key hand.old.me result hand.new.me }
    {
        self.mark_as::<Brand>(hand, spot, key)
    }

    #[inline]
    fn mark_as<J: Aim>(&self, hand: &mut Hand<T>, spot: Spot, key: u64) -> u64
        requires aim { (J.shape ≡ self.now.shape) × (J.key ≡ key) }
        requires hand { IsOf self.now hand.old × IsOne hand.old.me.0 }
        requires spot { IsSpot self.now.shape spot (place_of key) }
        requires under { (the_lane hand.old.me.0).under ≡ Undo key true }
        ensures hand { SameSeat hand.old hand.new }
        ensures marks { Marks self.now.shape key hand.old.me result hand.new.me }
    {
        let _ = key;
        self.table
            .shared
            .fetch_or::<Mark<J>>(hand, LIVES_START + spot.start as usize, MARK_BIT)
    }

    /// MARK, after the ENTER of a clear that hit, where the word is still the one that is expected: so it is one
    /// compare-exchange, which costs less than a MARK of any word. Where it finds another word, it changes nothing and
    /// was a look. Answers the word that was found.
    #[inline]
    pub fn mark_from(&self, hand: &mut Hand<T>, spot: Spot, key: u64, expected: u64) -> u64
        requires hand { IsOf self.now hand.old × IsOne hand.old.me.0 }
        requires spot { IsSpot self.now.shape spot (place_of key) }
        requires under { (the_lane hand.old.me.0).under ≡ Undo key true }
        ensures hand { SameSeat hand.old hand.new }
        ensures marks { MarksFrom self.now.shape expected key hand.old.me result hand.new.me }
    {
        self.mark_from_as::<Brand>(hand, spot, key, expected)
    }

    #[inline]
    fn mark_from_as<J: Aim>(&self, hand: &mut Hand<T>, spot: Spot, key: u64, expected: u64) -> u64
        requires aim { (J.shape ≡ self.now.shape) × (J.key ≡ key) }
        requires hand { IsOf self.now hand.old × IsOne hand.old.me.0 }
        requires spot { IsSpot self.now.shape spot (place_of key) }
        requires under { (the_lane hand.old.me.0).under ≡ Undo key true }
        ensures hand { SameSeat hand.old hand.new }
        ensures marks { MarksFrom self.now.shape expected key hand.old.me result hand.new.me }
    {
        let _ = key;
        self.table.shared.compare_exchange::<MarkFrom<J>>(
            hand,
            LIVES_START + spot.start as usize,
            expected,
            expected | MARK_BIT,
        )
    }

    /// CLAIM of the place and generation that the lane owes: it succeeds where the word found is (generation, MARKED,
    /// count 0). Answers the word that was found.
    #[inline]
    pub fn claim(&self, hand: &mut Hand<T>, spot: Spot, generation: u32) -> u64
        requires hand { IsOf self.now hand.old × IsOne hand.old.me.0 }
        requires spot { IsSpot self.now.shape spot spot.place }
        requires owes { (the_lane hand.old.me.0).under ≡ Owes spot.place generation }
        ensures hand { SameSeat hand.old hand.new }
        ensures claims { Claims self.now.shape spot.place generation hand.old.me result hand.new.me }
    {
        self.claim_as::<Brand>(hand, spot, generation)
    }

    #[inline]
    fn claim_as<J: Aim>(&self, hand: &mut Hand<T>, spot: Spot, generation: u32) -> u64
        requires aim { J.shape ≡ self.now.shape }
        requires hand { IsOf self.now hand.old × IsOne hand.old.me.0 }
        requires spot { IsSpot self.now.shape spot spot.place }
        requires owes { (the_lane hand.old.me.0).under ≡ Owes spot.place generation }
        ensures hand { SameSeat hand.old hand.new }
        ensures claims { Claims self.now.shape spot.place generation hand.old.me result hand.new.me }
    {
        let old = claimable(generation);
        let new = claimed(old, self.shape.last_generation);
        self.table
            .shared
            .compare_exchange::<Claim<J>>(hand, LIVES_START + spot.start as usize, old, new)
    }
}
