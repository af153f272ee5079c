//! The moves of shares: each is two looks at a word of the lane's own, one that takes slots and one that
//! gives them back. One moves a share, or all shares of a place.
ghost use Rattle.keybits.specs.Shapes.{callers};
ghost use Rattle.std.specs.Prelude.{◌≡◌, ◌≢◌, ◌⊎◌, ◌<◌, ◌∷◌, Option, ◌-◌, ℕ, [], ◌++◌, Some, None, IfSome};
ghost use Rattle.atomic_table.specs.Table.{rest};
ghost use Rattle.poolsteps.specs.Share.{Share as Shown};
ghost use Rattle.keybits.specs.Places.{shard_of as shard_number};
ghost use Rattle.poolsteps.specs.declared.view.Status.TheVariants.{Untouched, Emptied, InHand, Whole};
ghost use Rattle.poolsteps.specs.ShareLaws.{Leaves};
ghost use Rattle.poolsteps.specs.Shares.{at_home};
ghost use Rattle.poolsteps.specs.Layout.{slot_index, spots_at};
ghost use Rattle.poolsteps.specs.Views.{the_lane, status_of, IsOne};
ghost use Rattle.poolsteps.specs.Grids.{IsSpot, IsOf, SameSeat};
ghost use Rattle.poolsteps.specs.Told.{MayTouch, HasPlace, LeftAlone};
ghost use Rattle.poolsteps.specs.Moved.{MayStore, stored_of, IsLeft, Lifts, Lays, Outs, Backs, Fetches, Settles};
ghost use Rattle.poolsteps.specs.Batches.{held_of, IsOrder, AreLeft, AreOf, LiftsAll, LaysAll, OutsAll, BacksAll};

use crate::cells::{Rest, Share, Slot};
use crate::find::look_word;
use crate::grid::{Grid, Hand, Spot};
use crate::view::View;
use atomic_table::Play;
use keybits::shard_of;
use slotcell::Clear;
use std::marker::{Brand, PhantomData};

/// Which slot a look moves, how its lane leaves it, and with which cell.
pub(crate) trait Move {
    ghost use Rattle.std.specs.Prelude.{ℕ};
    ghost use Rattle.keybits.specs.declared.shape.Shape.{Shape};
    ghost use Rattle.poolsteps.specs.declared.view.Status.{Status};
    ghost use Rattle.poolsteps.specs.declared.view.Stored.{Stored};
    ghost use denote.RawPtr.{Ptr};

    ghost shape: { Shape };

    ghost directory: { Ptr };

    ghost place: { ℕ };

    ghost number: { ℕ };

    ghost status: { Status };

    ghost stored: { Stored };
}

impl Move for Brand {
    ghost use Rattle.poolsteps.specs.declared.view.Status.TheVariants.{Untouched};
    ghost use Rattle.poolsteps.specs.Shares.{nothing_stored};
    ghost use denote.RawPtr.{null_ptr};

    ghost shape = { record { lanes = 1; first_page = 1; pages = 1; last_generation = 1; tag = 0; guests = 0 } };

    ghost directory = { null_ptr };

    ghost place = { 0 };

    ghost number = { 0 };

    ghost status = { Untouched };

    ghost stored = { nothing_stored };
}

/// Of which place a look moves all slots, in which order of the lanes, how its lane leaves them, and with which cell.
pub(crate) trait MoveAll {
    ghost use Rattle.std.specs.Prelude.{ℕ};
    ghost use Rattle.keybits.specs.declared.shape.Shape.{Shape};
    ghost use Rattle.poolsteps.specs.declared.view.Status.{Status};
    ghost use Rattle.poolsteps.specs.declared.view.Stored.{Stored};
    ghost use denote.RawPtr.{Ptr};

    ghost shape: { Shape };

    ghost directory: { Ptr };

    ghost place: { ℕ };

    ghost order: { ℕ → ℕ };

    ghost status: { Status };

    ghost stored: { Stored };
}

impl MoveAll for Brand {
    ghost use Rattle.poolsteps.specs.declared.view.Status.TheVariants.{Untouched};
    ghost use Rattle.poolsteps.specs.Shares.{nothing_stored};
    ghost use denote.RawPtr.{null_ptr};

    ghost shape = { record { lanes = 1; first_page = 1; pages = 1; last_generation = 1; tag = 0; guests = 0 } };

    ghost directory = { null_ptr };

    ghost place = { 0 };

    ghost order = { λ position. position };

    ghost status = { Untouched };

    ghost stored = { nothing_stored };
}

/// A look that takes what stands in a slot.
pub(crate) struct Lift<T, J: Move> {
    of: PhantomData<(T, J)>,
}

impl<T: Clear, J: Move> Play<Slot<T>, View> for Lift<T, J> {
    ghost use Rattle.poolsteps.specs.Layout.{spots_at};
    ghost use Rattle.poolsteps.specs.Moved.{Lifts};

    ghost then = { λ step before found after. Lifts T.content T.room (spots_at J.directory J.shape) J.shape J.place J.number J.status
        before after };
}

/// A look that gives a slot back.
pub(crate) struct Lay<T, J: Move> {
    of: PhantomData<(T, J)>,
}

impl<T: Clear, J: Move> Play<Slot<T>, View> for Lay<T, J> {
    ghost use Rattle.poolsteps.specs.Layout.{spots_at};
    ghost use Rattle.poolsteps.specs.Moved.{Lays};

    ghost then = { λ step before found after. Lays T.content T.room (spots_at J.directory J.shape) J.shape J.place J.number J.status
        J.stored before after };
}

/// A look that takes all slots of a place.
pub(crate) struct LiftAll<T, J: MoveAll> {
    of: PhantomData<(T, J)>,
}

impl<T: Clear, J: MoveAll> Play<Slot<T>, View> for LiftAll<T, J> {
    ghost use Rattle.poolsteps.specs.Layout.{spots_at};
    ghost use Rattle.poolsteps.specs.Batches.{LiftsAll};

    ghost then = { λ step before found after. LiftsAll T.content T.room (spots_at J.directory J.shape) J.shape J.place J.order J.status
        before after };
}

/// A look that gives all slots of a place back.
pub(crate) struct LayAll<T, J: MoveAll> {
    of: PhantomData<(T, J)>,
}

impl<T: Clear, J: MoveAll> Play<Slot<T>, View> for LayAll<T, J> {
    ghost use Rattle.poolsteps.specs.Layout.{spots_at};
    ghost use Rattle.poolsteps.specs.Batches.{LaysAll};

    ghost then = { λ step before found after. LaysAll T.content T.room (spots_at J.directory J.shape) J.shape J.place J.status J.stored
        before after };
}

impl<T: Clear> Grid<T> {
    /// OUT of a lane's share of a place, which the calling lane may have: it is in its hands, and the slot is empty.
    /// Where the place is published, the share shows the content of its key.
    #[inline]
    pub fn out(&self, hand: &mut Hand<T>, spot: Spot, lane: u32, number: u32) -> Share<T>
        requires hand { IsOf self.now hand.old × IsOne hand.old.me.0 }
        requires spot { IsSpot self.now.shape spot spot.place }
        requires lanes { (lane < callers self.now.shape) × (number < callers self.now.shape) }
        requires may { MayTouch self.now.shape hand.old.me.0 spot.place number }
        requires left { status_of (the_lane hand.old.me.0) spot.place number ≡ Untouched }
        ensures hand { SameSeat hand.old hand.new }
        ensures outs { Outs T.content T.room (spots_at self.now.objects.ptr self.now.shape) self.now.shape spot.place number Untouched
            hand.old.me result hand.new.me }
    {
        self.out_as::<Brand>(hand, spot, lane, number)
    }

    /// OUT of the only share of a place's cell, which stands in the slot of the place's shard.
    #[inline]
    pub fn out_whole(&self, hand: &mut Hand<T>, spot: Spot, lane: u32) -> Share<T>
        requires hand { IsOf self.now hand.old × IsOne hand.old.me.0 }
        requires spot { IsSpot self.now.shape spot spot.place }
        requires lane { lane < callers self.now.shape }
        requires may { MayTouch self.now.shape hand.old.me.0 spot.place (shard_number spot.place) }
        requires left { status_of (the_lane hand.old.me.0) spot.place (shard_number spot.place) ≡ Whole }
        ensures hand { SameSeat hand.old hand.new }
        ensures outs { Outs T.content T.room (spots_at self.now.objects.ptr self.now.shape) self.now.shape spot.place
            (shard_number spot.place) Whole hand.old.me result hand.new.me }
    {
        self.out_as::<Brand>(hand, spot, lane, shard_of(spot.place))
    }

    #[inline]
    fn out_as<J: Move>(&self, hand: &mut Hand<T>, spot: Spot, lane: u32, number: u32) -> Share<T>
        requires aim { (J.status ≢ InHand) × (J.status ≢ Emptied) }
        requires hand { IsOf self.now hand.old × IsOne hand.old.me.0 }
        requires spot { IsSpot self.now.shape spot spot.place }
        requires lanes { (lane < callers self.now.shape) × (number < callers self.now.shape) }
        requires may { MayTouch self.now.shape hand.old.me.0 spot.place number }
        requires left { status_of (the_lane hand.old.me.0) spot.place number ≡ J.status }
        ensures hand { SameSeat hand.old hand.new }
        ensures outs { Outs T.content T.room (spots_at self.now.objects.ptr self.now.shape) self.now.shape spot.place number J.status
            hand.old.me result hand.new.me }
    {
        let slot = self.slot_of(spot, number);
        self.lift::<Brand>(hand, spot, lane, number);
        let share = self
            .table
            .shared
            .exchange(hand, slot, Slot::empty())
            .into_share();
        self.lay::<Brand>(hand, spot, lane, number);
        share
    }

    /// OUT of the calling lane's share of a place into a slot of its own, where the lane left the table's slot alone;
    /// where it emptied that, what its own slot has stays there. Proofs alone know which.
    #[inline]
    pub fn fetch(
        &self,
        hand: &mut Hand<T>,
        spot: Spot,
        lane: u32,
        number: u32,
        own: Slot<T>,
    ) -> Slot<T>
        requires hand { IsOf self.now hand.old × IsOne hand.old.me.0 }
        requires spot { IsSpot self.now.shape spot spot.place }
        requires lanes { (lane < callers self.now.shape) × (number < callers self.now.shape) }
        requires may { MayTouch self.now.shape hand.old.me.0 spot.place number }
        requires left { (status_of (the_lane hand.old.me.0) spot.place number ≡ Untouched)
            ⊎ (status_of (the_lane hand.old.me.0) spot.place number ≡ Emptied) }
        ensures hand { SameSeat hand.old hand.new }
        ensures fetches { Fetches T.content T.room (spots_at self.now.objects.ptr self.now.shape) self.now.shape spot.place number
            hand.old.me own result hand.new.me }
    {
        let slot = self.slot_of(spot, number);
        self.lift::<Brand>(hand, spot, lane, number);
        let taken = self.table.shared.exchange(hand, slot, Slot::empty());
        self.lay::<Brand>(hand, spot, lane, number);
        taken.or(own)
    }

    /// BACK of the calling lane's share of a place into its slot, which the lane has emptied, where the share is given;
    /// else nothing is moved. Proofs alone know which. Where all shares of the place are with the lane, and no other slot
    /// of it has any, the share may be of a new cell.
    #[inline]
    pub fn settle(&self, hand: &mut Hand<T>, spot: Spot, lane: u32, number: u32, given: Slot<T>)
        requires hand { IsOf self.now hand.old × IsOne hand.old.me.0 }
        requires spot { IsSpot self.now.shape spot spot.place }
        requires lanes { (lane < callers self.now.shape) × (number < callers self.now.shape) }
        requires may { MayTouch self.now.shape hand.old.me.0 spot.place number }
        requires left { status_of (the_lane hand.old.me.0) spot.place number ≡ Emptied }
        requires share { IfSome given (λ share. (share.number ≡ number) × (share.of ≡ callers self.now.shape)
            × (share.spot ≡ spots_at self.now.objects.ptr self.now.shape spot.place)) }
        requires cell { IfSome given (λ share. MayStore self.now.shape hand.old.me.0 spot.place number (stored_of T.content T.room share)) }
        ensures hand { SameSeat hand.old hand.new }
        ensures settles { Settles T.content T.room (spots_at self.now.objects.ptr self.now.shape) self.now.shape spot.place number
            hand.old.me given hand.new.me }
    {
        let slot = self.slot_of(spot, number);
        self.lift::<Brand>(hand, spot, lane, number);
        self.table.shared.exchange(hand, slot, given);
        self.lay::<Brand>(hand, spot, lane, number);
    }

    /// BACK of the only share of a cell into the slot of the place's shard, which the calling lane has emptied.
    #[inline]
    pub fn back_whole(&self, hand: &mut Hand<T>, spot: Spot, lane: u32, share: Share<T>)
        requires hand { IsOf self.now hand.old × IsOne hand.old.me.0 }
        requires spot { IsSpot self.now.shape spot spot.place }
        requires lane { lane < callers self.now.shape }
        requires may { MayTouch self.now.shape hand.old.me.0 spot.place (shard_number spot.place) }
        requires left { status_of (the_lane hand.old.me.0) spot.place (shard_number spot.place) ≡ Emptied }
        requires share { (share.number ≡ 0) × (share.of ≡ 1) × (share.spot ≡ spots_at self.now.objects.ptr self.now.shape spot.place) }
        requires cell { MayStore self.now.shape hand.old.me.0 spot.place (shard_number spot.place) (stored_of T.content T.room share) }
        ensures hand { SameSeat hand.old hand.new }
        ensures backs { Backs T.content T.room (spots_at self.now.objects.ptr self.now.shape) self.now.shape spot.place
            (shard_number spot.place) Whole hand.old.me share hand.new.me }
    {
        self.back_as::<Brand>(hand, spot, lane, shard_of(spot.place), share)
    }

    #[inline]
    fn back_as<J: Move>(
        &self,
        hand: &mut Hand<T>,
        spot: Spot,
        lane: u32,
        number: u32,
        share: Share<T>,
    )
        requires hand { IsOf self.now hand.old × IsOne hand.old.me.0 }
        requires spot { IsSpot self.now.shape spot spot.place }
        requires lanes { (lane < callers self.now.shape) × (number < callers self.now.shape) }
        requires may { MayTouch self.now.shape hand.old.me.0 spot.place number }
        requires left { status_of (the_lane hand.old.me.0) spot.place number ≡ Emptied }
        requires share { IsLeft T.content T.room (spots_at self.now.objects.ptr self.now.shape) spot.place self.now.shape number
            (stored_of T.content T.room share) J.status share }
        requires cell { MayStore self.now.shape hand.old.me.0 spot.place number (stored_of T.content T.room share) }
        ensures hand { SameSeat hand.old hand.new }
        ensures backs { Backs T.content T.room (spots_at self.now.objects.ptr self.now.shape) self.now.shape spot.place number J.status
            hand.old.me share hand.new.me }
    {
        let slot = self.slot_of(spot, number);
        self.lift::<Brand>(hand, spot, lane, number);
        self.table.shared.exchange(hand, slot, Slot::filled(share));
        self.lay::<Brand>(hand, spot, lane, number);
    }

    /// A look that takes a slot which the lane left so.
    #[inline]
    fn lift<J: Move>(&self, hand: &mut Hand<T>, spot: Spot, lane: u32, number: u32)
        requires aim { (J.shape ≡ self.now.shape) × (J.directory ≡ self.now.objects.ptr) × (J.place ≡ spot.place) × (J.number ≡ number)
            × (J.status ≢ InHand) }
        requires hand { IsOf self.now hand.old × IsOne hand.old.me.0 }
        requires spot { IsSpot self.now.shape spot spot.place }
        requires lanes { (lane < callers self.now.shape) × (number < callers self.now.shape) }
        requires may { MayTouch self.now.shape hand.old.me.0 spot.place number }
        requires left { status_of (the_lane hand.old.me.0) spot.place number ≡ J.status }
        ensures hand { SameSeat hand.old hand.new }
        ensures lifts { Lifts T.content T.room (spots_at self.now.objects.ptr self.now.shape) self.now.shape spot.place number J.status
            hand.old.me hand.new.me }
    {
        let _ = (spot, number);
        self.table.shared.load::<Lift<T, J>>(hand, look_word(lane));
    }

    /// A look that gives the slot back which the lane took last, and leaves it so.
    #[inline]
    fn lay<J: Move>(&self, hand: &mut Hand<T>, spot: Spot, lane: u32, number: u32)
        requires aim { (J.shape ≡ self.now.shape) × (J.directory ≡ self.now.objects.ptr) × (J.place ≡ spot.place) × (J.number ≡ number) }
        requires hand { IsOf self.now hand.old × IsOne hand.old.me.0 }
        requires spot { IsSpot self.now.shape spot spot.place }
        requires lanes { (lane < callers self.now.shape) × (number < callers self.now.shape) }
        requires may { MayTouch self.now.shape hand.old.me.0 spot.place number }
        requires left { status_of (the_lane hand.old.me.0) spot.place number ≡ InHand }
        requires value { (value : Option (Shown T))
            × (hand.old.me.1 ≡ (slot_index self.now.shape spot.place number, value) ∷ rest hand.old.me.1)
            × Leaves T.content T.room (spots_at self.now.objects.ptr self.now.shape) spot.place self.now.shape number J.stored J.status
            (at_home value) }
        requires cell { MayStore self.now.shape hand.old.me.0 spot.place number J.stored }
        ensures hand { SameSeat hand.old hand.new }
        ensures lays { Lays T.content T.room (spots_at self.now.objects.ptr self.now.shape) self.now.shape spot.place number J.status
            J.stored hand.old.me hand.new.me }
    {
        let _ = (spot, number);
        self.table.shared.load::<Lay<T, J>>(hand, look_word(lane));
    }

    /// A look that takes all slots of a place, which the lane left so.
    #[inline]
    fn lift_all<J: MoveAll>(&self, hand: &mut Hand<T>, spot: Spot, lane: u32)
        requires aim { (J.shape ≡ self.now.shape) × (J.directory ≡ self.now.objects.ptr) × (J.place ≡ spot.place)
            × IsOrder self.now.shape J.order × (J.status ≢ InHand) }
        requires hand { IsOf self.now hand.old × IsOne hand.old.me.0 × (hand.old.me.1 ≡ []) }
        requires spot { IsSpot self.now.shape spot spot.place }
        requires lane { lane < callers self.now.shape }
        requires place { HasPlace self.now.shape hand.old.me.0 spot.place }
        requires left { (number : ℕ) → number < callers self.now.shape → status_of (the_lane hand.old.me.0) spot.place number ≡ J.status }
        ensures hand { SameSeat hand.old hand.new }
        ensures lifts { LiftsAll T.content T.room (spots_at self.now.objects.ptr self.now.shape) self.now.shape spot.place J.order
            J.status hand.old.me hand.new.me }
    {
        let _ = spot;
        self.table
            .shared
            .load::<LiftAll<T, J>>(hand, look_word(lane));
    }

    /// A look that gives back all slots of a place, which the lane took, and leaves them so.
    #[inline]
    fn lay_all<J: MoveAll>(&self, hand: &mut Hand<T>, spot: Spot, lane: u32)
        requires aim { (J.shape ≡ self.now.shape) × (J.directory ≡ self.now.objects.ptr) × (J.place ≡ spot.place)
            × IsOrder self.now.shape J.order }
        requires hand { IsOf self.now hand.old × IsOne hand.old.me.0 }
        requires spot { IsSpot self.now.shape spot spot.place }
        requires lane { lane < callers self.now.shape }
        requires place { HasPlace self.now.shape hand.old.me.0 spot.place }
        requires left { (number : ℕ) → number < callers self.now.shape → status_of (the_lane hand.old.me.0) spot.place number ≡ InHand }
        requires values { (values : ℕ → Option (Shown T))
            × AreLeft T.content T.room (spots_at self.now.objects.ptr self.now.shape) spot.place self.now.shape J.status J.stored values
            × (hand.old.me.1 ≡ held_of self.now.shape spot.place J.order values (callers self.now.shape)) }
        ensures hand { SameSeat hand.old hand.new }
        ensures lays { LaysAll T.content T.room (spots_at self.now.objects.ptr self.now.shape) self.now.shape spot.place J.status J.stored
            hand.old.me hand.new.me }
    {
        let _ = spot;
        self.table
            .shared
            .load::<LayAll<T, J>>(hand, look_word(lane));
    }

    /// Takes the share out of the slot of a place and a lane, which is the first in hand; the slot goes behind the
    /// others.
    #[inline]
    fn take_next(&self, hand: &mut Hand<T>, row: usize, spot: Spot, number: u32) -> Share<T>
        requires hand { IsOf self.now hand.old }
        requires spot { IsSpot self.now.shape spot spot.place }
        requires row { row ≡ self.now.row }
        requires number { number < callers self.now.shape }
        requires held { (share : Shown T)
            × (hand.old.me.1 ≡ (slot_index self.now.shape spot.place number, Some share) ∷ rest hand.old.me.1) }
        ensures hand { SameSeat hand.old hand.new }
        ensures share { hand.old.me.1 ≡ (slot_index self.now.shape spot.place number, Some result) ∷ rest hand.old.me.1 }
        ensures held { hand.new.me ≡ (hand.old.me.0, rest hand.old.me.1 ++ (slot_index self.now.shape spot.place number, None) ∷ []) }
    {
        let slot = self.slot_in(row, spot, number);
        let share = self
            .table
            .shared
            .exchange(hand, slot, Slot::empty())
            .into_share();
        hand.turn();
        share
    }

    /// Puts a share into the slot of a place and a lane, which is the first in hand; the slot goes behind the others.
    #[inline]
    fn put_next(&self, hand: &mut Hand<T>, row: usize, spot: Spot, number: u32, share: Share<T>)
        requires hand { IsOf self.now hand.old }
        requires spot { IsSpot self.now.shape spot spot.place }
        requires row { row ≡ self.now.row }
        requires number { number < callers self.now.shape }
        requires held { (value : Option (Shown T))
            × (hand.old.me.1 ≡ (slot_index self.now.shape spot.place number, value) ∷ rest hand.old.me.1) }
        ensures hand { SameSeat hand.old hand.new }
        ensures held { hand.new.me ≡ (hand.old.me.0, rest hand.old.me.1 ++ (slot_index self.now.shape spot.place number, Some share) ∷ []) }
    {
        let slot = self.slot_in(row, spot, number);
        self.table.shared.exchange(hand, slot, Slot::filled(share));
        hand.turn();
    }

    /// Takes the shares out of all slots of a place, which are in hand by rising number: all shares of one cell.
    #[inline]
    fn take_all<J: MoveAll>(&self, hand: &mut Hand<T>, spot: Spot) -> Rest<T>
        requires hand { IsOf self.now hand.old }
        requires spot { IsSpot self.now.shape spot spot.place }
        requires held { (values : ℕ → Option (Shown T))
            × AreLeft T.content T.room (spots_at self.now.objects.ptr self.now.shape) spot.place self.now.shape Untouched J.stored values
            × (hand.old.me.1 ≡ held_of self.now.shape spot.place (λ position. position) values (callers self.now.shape)) }
        ensures hand { SameSeat hand.old hand.new }
        ensures held { hand.new.me ≡ (
          hand.old.me.0,
          held_of self.now.shape spot.place (λ position. position) (λ _. None)
              (callers self.now.shape),
        ) }
        ensures rest { AreOf T.content T.room (spots_at self.now.objects.ptr self.now.shape) spot.place self.now.shape J.stored result }
    {
        let row = self.row;
        let last = self.shape.lanes + self.shape.guests - 1;
        let mut rest = Rest::of_last(self.take_next(hand, row, spot, last));
        let mut number = last;
        while number > 0 {
            number -= 1;
            rest.merge(self.take_next(hand, row, spot, number));
        }
        rest
    }

    /// Puts all shares of a cell into the slots of a place, which are in hand by falling number.
    #[inline]
    fn put_all<J: MoveAll>(&self, hand: &mut Hand<T>, spot: Spot, rest: Rest<T>)
        requires hand { IsOf self.now hand.old }
        requires spot { IsSpot self.now.shape spot spot.place }
        requires held { (values : ℕ → Option (Shown T))
            × (hand.old.me.1 ≡ held_of self.now.shape spot.place (λ position. callers self.now.shape - 1 - position) values
            (callers self.now.shape)) }
        requires rest { AreOf T.content T.room (spots_at self.now.objects.ptr self.now.shape) spot.place self.now.shape J.stored rest }
        ensures hand { SameSeat hand.old hand.new × (hand.new.me.0 ≡ hand.old.me.0) }
        ensures held { (values : ℕ → Option (Shown T))
            × AreLeft T.content T.room (spots_at self.now.objects.ptr self.now.shape) spot.place self.now.shape Untouched J.stored values
            × (hand.new.me.1 ≡ held_of self.now.shape spot.place (λ position. callers self.now.shape - 1 - position) values
            (callers self.now.shape)) }
    {
        let row = self.row;
        let last = self.shape.lanes + self.shape.guests - 1;
        let mut rest = rest;
        for number in 0..last {
            self.put_next(hand, row, spot, number, rest.cut());
        }
        self.put_next(hand, row, spot, last, rest.into_share());
    }

    /// OUT of all shares of a place that is with the lane, by two looks: they are in its hands, and the slots are
    /// empty.
    #[inline]
    pub fn out_all(&self, hand: &mut Hand<T>, spot: Spot, lane: u32) -> Rest<T>
        requires hand { IsOf self.now hand.old × IsOne hand.old.me.0 × (hand.old.me.1 ≡ []) }
        requires spot { IsSpot self.now.shape spot spot.place }
        requires lane { lane < callers self.now.shape }
        requires place { HasPlace self.now.shape hand.old.me.0 spot.place }
        requires left { LeftAlone self.now.shape (the_lane hand.old.me.0) spot.place }
        ensures hand { SameSeat hand.old hand.new }
        ensures outs { OutsAll T.content T.room (spots_at self.now.objects.ptr self.now.shape) self.now.shape spot.place hand.old.me
            result hand.new.me }
    {
        self.lift_all::<Brand>(hand, spot, lane);
        let rest = self.take_all::<Brand>(hand, spot);
        self.lay_all::<Brand>(hand, spot, lane);
        rest
    }

    /// BACK of all shares of a cell into the slots of a place that is with the lane, which has emptied them, by two
    /// looks.
    #[inline]
    pub fn back_all(&self, hand: &mut Hand<T>, spot: Spot, lane: u32, rest: Rest<T>)
        requires hand { IsOf self.now hand.old × IsOne hand.old.me.0 × (hand.old.me.1 ≡ []) }
        requires spot { IsSpot self.now.shape spot spot.place }
        requires lane { lane < callers self.now.shape }
        requires place { HasPlace self.now.shape hand.old.me.0 spot.place }
        requires left { (number : ℕ) → number < callers self.now.shape → status_of (the_lane hand.old.me.0) spot.place number ≡ Emptied }
        requires rest { (rest.number ≡ 0) × (rest.of ≡ callers self.now.shape)
            × (rest.spot ≡ spots_at self.now.objects.ptr self.now.shape spot.place) }
        ensures hand { SameSeat hand.old hand.new }
        ensures backs { BacksAll T.content T.room (spots_at self.now.objects.ptr self.now.shape) self.now.shape spot.place hand.old.me
            rest hand.new.me }
    {
        self.lift_all::<Brand>(hand, spot, lane);
        self.put_all::<Brand>(hand, spot, rest);
        self.lay_all::<Brand>(hand, spot, lane);
    }
}
