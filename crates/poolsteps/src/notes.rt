//! What lanes tell each other, and the end of a pool's table.
ghost use Rattle.keybits.specs.Shapes.{callers};
ghost use Rattle.std.specs.Prelude.{◌≡◌, ◌<◌, []};
ghost use Rattle.std.specs.Mem.Slots.{slots_items, slots_len, IsFull};
ghost use Rattle.poolsteps.specs.Layout.{word_count, slot_count};
ghost use Rattle.poolsteps.specs.Rule.{World};
ghost use Rattle.poolsteps.specs.Views.{IsOne};
ghost use Rattle.poolsteps.specs.Seats.{note_of, looked_once, heard_of, told_by, both_of, HasHeard, SawLonger};
ghost use Rattle.poolsteps.specs.Grids.{IsOf, SameSeat, AreHands, EndsWith};
ghost use Rattle.poolsteps.specs.Told.{Sees};
ghost use Rattle.poolsteps.specs.Returned.{SeesTold, SeesNoFurther};

use crate::cells::Slot;
use crate::find::look_word;
use crate::grid::{Grid, Hand};
use crate::steps::Aim;
use crate::view::View;
use atomic_table::{Closed, Join, Play, Split};
use slotcell::Clear;
use std::alloc::Global;
use std::marker::{Brand, PhantomData};

/// SEE.
pub(crate) struct See<J: Aim> {
    of: PhantomData<J>,
}

impl<S, J: Aim> Play<S, View> for See<J> {
    ghost use Rattle.poolsteps.specs.Told.{Sees};

    ghost then = { λ step before found after. Sees J.shape before after };
}

/// SEE, after the seat was told of a history.
pub(crate) struct SeeTold<J: Aim> {
    of: PhantomData<J>,
}

impl<S, J: Aim> Play<S, View> for SeeTold<J> {
    ghost use Rattle.poolsteps.specs.Returned.{SeesTold};

    ghost then = { λ step before found after. SeesTold J.shape before after };
}

/// SEE of the lifecycle word of the place that is the aim's key.
pub(crate) struct SeeLife<J: Aim> {
    of: PhantomData<J>,
}

impl<S, J: Aim> Play<S, View> for SeeLife<J> {
    ghost use Rattle.poolsteps.specs.Told.{SeesLife};

    ghost then = { λ step before found after. SeesLife J.shape J.key before found after };
}

/// SEE, after the seat was told of a history, no further than that.
pub(crate) struct SeeNoFurther<J: Aim> {
    of: PhantomData<J>,
}

impl<S, J: Aim> Play<S, View> for SeeNoFurther<J> {
    ghost use Rattle.poolsteps.specs.Returned.{SeesNoFurther};

    ghost then = { λ step before found after. SeesNoFurther J.shape before after };
}

/// A note is cut from a seat, by a look.
pub(crate) struct Tell;

impl Split<View> for Tell {
    ghost use Rattle.poolsteps.specs.Seats.{note_of, looked_once};

    ghost left = { looked_once };

    ghost right = { note_of };
}

/// A seat is told what a note has.
pub(crate) struct Hear;

impl Join<View> for Hear {
    ghost use Rattle.poolsteps.specs.Seats.{told_by, spent};

    ghost both = { told_by };

    ghost spent = { spent };
}

/// The lanes of two seats come to one.
pub(crate) struct Gather;

impl Join<View> for Gather {
    ghost use Rattle.poolsteps.specs.Seats.{both_of, spent};

    ghost both = { both_of };

    ghost spent = { spent };
}

impl<T: Clear> Grid<T> {
    /// A note of all that a lane saw. It is one look.
    pub fn note(&self, hand: &mut Hand<T>) -> Hand<T>
        requires { IsOf self.now hand.old }
        ensures note { IsOf self.now result × (result.me ≡ (note_of hand.old.me.0, [])) }
        ensures hand { SameSeat hand.old hand.new × (hand.new.me ≡ (looked_once hand.old.me.0, hand.old.me.1)) }
    {
        self.table.shared.split_seat::<Tell>(hand)
    }

    /// Takes in a note: what the lane has then seen begins with what it saw, and with what the note has, and so do the
    /// rooms beside it.
    /// It is one look, and a load before it.
    pub fn hear(&self, hand: &mut Hand<T>, lane: u32, note: Hand<T>)
        requires hand { IsOf self.now hand.old × IsOne hand.old.me.0 }
        requires lane { lane < callers self.now.shape }
        requires note { IsOf self.now note × (note.me.1 ≡ []) }
        ensures hand { SameSeat hand.old hand.new }
        ensures sees { Sees self.now.shape hand.old.me hand.new.me }
        ensures heard { HasHeard hand.new.me.0 (heard_of note.me.0) }
    {
        self.join_note(hand, note);
        self.see_told::<Brand>(hand, lane);
    }

    /// Takes in a note as `hear` does, and sees no further: what the lane has then seen is the longer of what it saw
    /// and what the note has, and begins with both. So two lanes that take in a note of each other, one after the
    /// other, have seen one history.
    pub fn meet(&self, hand: &mut Hand<T>, lane: u32, note: Hand<T>)
        requires hand { IsOf self.now hand.old × IsOne hand.old.me.0 }
        requires lane { lane < callers self.now.shape }
        requires note { IsOf self.now note × (note.me.1 ≡ []) }
        ensures hand { SameSeat hand.old hand.new }
        ensures sees { Sees self.now.shape hand.old.me hand.new.me }
        ensures met { SawLonger hand.old.me.0 (heard_of note.me.0) hand.new.me.0 }
        ensures heard { HasHeard hand.new.me.0 (heard_of note.me.0) }
    {
        self.join_note(hand, note);
        self.see_no_further::<Brand>(hand, lane);
    }

    fn see_no_further<J: Aim>(&self, hand: &mut Hand<T>, lane: u32)
        requires aim { J.shape ≡ self.now.shape }
        requires hand { IsOf self.now hand.old × IsOne hand.old.me.0 }
        requires lane { lane < callers self.now.shape }
        ensures hand { SameSeat hand.old hand.new }
        ensures sees { SeesNoFurther self.now.shape hand.old.me hand.new.me }
    {
        self.table
            .shared
            .load::<SeeNoFurther<J>>(hand, look_word(lane));
    }

    /// The seat is told what a note has.
    fn join_note(&self, hand: &mut Hand<T>, note: Hand<T>)
        requires hand { IsOf self.now hand.old }
        requires note { IsOf self.now note × (note.me.1 ≡ []) }
        ensures { SameSeat hand.old hand.new × (hand.new.me ≡ (told_by hand.old.me.0 note.me.0, hand.old.me.1)) }
    {
        self.table.shared.join_seat::<Hear>(hand, note);
    }

    fn see_told<J: Aim>(&self, hand: &mut Hand<T>, lane: u32)
        requires aim { J.shape ≡ self.now.shape }
        requires hand { IsOf self.now hand.old × IsOne hand.old.me.0 }
        requires lane { lane < callers self.now.shape }
        ensures hand { SameSeat hand.old hand.new }
        ensures sees { SeesTold self.now.shape hand.old.me hand.new.me }
    {
        self.table.shared.load::<SeeTold<J>>(hand, look_word(lane));
    }

    /// Ends the pool's table, with the hands of its lanes: its last words and slots, of which one history tells that
    /// begins with what each lane saw and has just its acts.
    pub fn end(self, hands: Vec<Hand<T>>) -> Closed<Slot<T>, Global>
        requires { AreHands self hands.items }
        ensures world { (w : World) × EndsWith T.content T.room self hands.items (slots_items result.words) (slots_items result.slots) w }
        ensures words { IsFull result.words × (slots_len result.words ≡ word_count self.shape) }
        ensures slots { IsFull result.slots × (slots_len result.slots ≡ slot_count self.shape) }
    {
        let mut hands = hands;
        let Some(mut all) = hands.pop() else {
            unreachable!()
        };
        for hand in hands {
            self.gather(&mut all, hand);
        }
        let Grid {
            table,
            shape: _,
            objects: _,
            row: _,
            links: _,
            pages: _,
            first_key: _,
        } = self;
        table.close_with(all)
    }

    /// The lanes of two seats come to one.
    fn gather(&self, seat: &mut Hand<T>, other: Hand<T>)
        requires seats { IsOf self.now seat.old × IsOf self.now other }
        requires empty { other.me.1 ≡ [] }
        ensures { SameSeat seat.old seat.new × (seat.new.me ≡ (both_of seat.old.me.0 other.me.0, seat.old.me.1)) }
    {
        self.table.shared.join_seat::<Gather>(seat, other);
    }
}
