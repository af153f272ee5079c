//! The steps by which a place of another shard is returned and returned places are taken, and the look. Each is one
//! call of the table.
ghost use Rattle.keybits.specs.Shapes.{callers};
ghost use Rattle.std.specs.Prelude.{◌≡◌, ◌≢◌, ◌<◌, ◌∷◌, Some, Option, ℕ};
ghost use Rattle.keybits.specs.declared.step.Word.TheVariants as words;
ghost use Rattle.poolsteps.specs.Layout.{index_in, word_count};
ghost use Rattle.poolsteps.specs.Views.{the_lane, IsOne};
ghost use Rattle.poolsteps.specs.Grids.{IsSpot, IsOf, SameSeat};
ghost use Rattle.poolsteps.specs.Told.{Sees, SeesLife};
ghost use Rattle.seqpool.specs.Pool.{pool_after};
ghost use Rattle.poolsteps.specs.Returned.{Links, Pushes, Takes, Follows, IsToReturn, AimsAt, IsAtRest, rest_of};

use crate::find::{LIVES_START, WORDS_APART, look_word};
use crate::grid::{Grid, Hand, Spot};
use crate::notes::{See, SeeLife};
use crate::steps::Aim;
use crate::view::View;
use atomic_table::Play;
use keybits::{Life, link_to, shard_of};
use slotcell::Clear;
use std::marker::{Brand, PhantomData};

/// LINK.
pub(crate) struct Link<J: Aim> {
    of: PhantomData<J>,
}

impl<S, J: Aim> Play<S, View> for Link<J> {
    ghost use Rattle.poolsteps.specs.Returned.{Links};

    ghost then = { λ step before stored after. Links J.shape stored before after };
}

/// PUSH from an expected top.
pub(crate) struct Push<J: Aim> {
    of: PhantomData<J>,
}

impl<S, J: Aim> Play<S, View> for Push<J> {
    ghost use Rattle.poolsteps.specs.Returned.{Pushes};

    ghost then = { λ step before found after. Pushes J.shape step.first before found after };
}

/// TAKE of the stack of the lane whose number is the aim's key.
pub(crate) struct Take<J: Aim> {
    of: PhantomData<J>,
}

impl<S, J: Aim> Play<S, View> for Take<J> {
    ghost use Rattle.poolsteps.specs.Returned.{Takes};

    ghost then = { λ step before found after. Takes J.shape J.key before found after };
}

/// FOLLOW.
pub(crate) struct Follow<J: Aim> {
    of: PhantomData<J>,
}

impl<S, J: Aim> Play<S, View> for Follow<J> {
    ghost use Rattle.poolsteps.specs.Returned.{Follows};

    ghost then = { λ step before found after. Follows J.shape before found after };
}

impl<T: Clear> Grid<T> {
    /// LINK: the link word of a place to return becomes the expected top.
    #[inline]
    pub fn link(&self, hand: &mut Hand<T>, spot: Spot, top: u64)
        requires hand { IsOf self.now hand.old × IsOne hand.old.me.0 }
        requires spot { IsSpot self.now.shape spot spot.place }
        requires returns { (linked : Option ℕ) × IsToReturn hand.old.me.0 spot.place linked }
        ensures hand { SameSeat hand.old hand.new }
        ensures links { Links self.now.shape top hand.old.me hand.new.me }
    {
        self.link_as::<Brand>(hand, spot, top)
    }

    #[inline]
    fn link_as<J: Aim>(&self, hand: &mut Hand<T>, spot: Spot, top: u64)
        requires aim { J.shape ≡ self.now.shape }
        requires hand { IsOf self.now hand.old × IsOne hand.old.me.0 }
        requires spot { IsSpot self.now.shape spot spot.place }
        requires returns { (linked : Option ℕ) × IsToReturn hand.old.me.0 spot.place linked }
        ensures hand { SameSeat hand.old hand.new }
        ensures links { Links self.now.shape top hand.old.me hand.new.me }
    {
        self.table
            .shared
            .store::<Link<J>>(hand, self.link_of(spot), top)
    }

    /// PUSH of a place to return, which is at rest, on its lane's stack at the place's shard, from the top that was
    /// linked: the place is home where that was found. Else 0 was found, and LINK and PUSH follow once more, from the
    /// top 0. Answers the word that was found.
    #[inline]
    pub fn push(&self, hand: &mut Hand<T>, spot: Spot, lane: u32, top: u64) -> u64
        requires hand { IsOf self.now hand.old × IsOne hand.old.me.0 }
        requires spot { IsSpot self.now.shape spot spot.place }
        requires lane { (lane ≡ (the_lane hand.old.me.0).lane) × (lane < self.now.shape.lanes) }
        requires returns { IsToReturn hand.old.me.0 spot.place (Some top) }
        requires aims { AimsAt (the_lane hand.old.me.0) spot.place top }
        requires rests { IsAtRest self.now.shape hand.old.me.0 spot.place }
        ensures hand { SameSeat hand.old hand.new }
        ensures pushes { Pushes self.now.shape top hand.old.me result hand.new.me }
    {
        self.push_as::<Brand>(hand, spot, lane, top)
    }

    #[inline]
    fn push_as<J: Aim>(&self, hand: &mut Hand<T>, spot: Spot, lane: u32, top: u64) -> u64
        requires aim { J.shape ≡ self.now.shape }
        requires hand { IsOf self.now hand.old × IsOne hand.old.me.0 }
        requires spot { IsSpot self.now.shape spot spot.place }
        requires lane { (lane ≡ (the_lane hand.old.me.0).lane) × (lane < self.now.shape.lanes) }
        requires returns { IsToReturn hand.old.me.0 spot.place (Some top) }
        requires aims { AimsAt (the_lane hand.old.me.0) spot.place top }
        requires rests { IsAtRest self.now.shape hand.old.me.0 spot.place }
        ensures hand { SameSeat hand.old hand.new }
        ensures pushes { Pushes self.now.shape top hand.old.me result hand.new.me }
    {
        let word = self.stack_of(shard_of(spot.place), lane);
        self.table
            .shared
            .compare_exchange::<Push<J>>(hand, word, top, link_to(spot.place))
    }

    /// Where the stack word of a shard and another lane stands.
    #[inline]
    fn stack_of(&self, shard: u32, lane: u32) -> usize
        requires lanes { (shard < self.now.shape.lanes) × (lane < self.now.shape.lanes) }
        ensures word { result ≡ index_in self.now.shape (words.Stack shard lane) }
        ensures inside { result < word_count self.now.shape }
    {
        let stacks = self.links + self.row;
        stacks + WORDS_APART * (shard as usize * self.shape.lanes as usize + lane as usize)
    }

    /// TAKE of all places that another lane has returned to the shard of this one: they are its taken chain. Answers
    /// the word that was found, which leads to the first of them; 0 where there is none.
    #[inline]
    pub fn take(&self, hand: &mut Hand<T>, lane: u32, from: u32) -> u64
        requires hand { IsOf self.now hand.old × IsOne hand.old.me.0 }
        requires lane { (lane ≡ (the_lane hand.old.me.0).lane) × (lane < self.now.shape.lanes) }
        requires from { (from < self.now.shape.lanes) × (from ≢ lane) }
        ensures hand { SameSeat hand.old hand.new }
        ensures takes { Takes self.now.shape from hand.old.me result hand.new.me }
    {
        self.take_as::<Brand>(hand, lane, from)
    }

    #[inline]
    fn take_as<J: Aim>(&self, hand: &mut Hand<T>, lane: u32, from: u32) -> u64
        requires aim { (J.shape ≡ self.now.shape) × (J.key ≡ from) }
        requires hand { IsOf self.now hand.old × IsOne hand.old.me.0 }
        requires lane { (lane ≡ (the_lane hand.old.me.0).lane) × (lane < self.now.shape.lanes) }
        requires from { (from < self.now.shape.lanes) × (from ≢ lane) }
        ensures hand { SameSeat hand.old hand.new }
        ensures takes { Takes self.now.shape from hand.old.me result hand.new.me }
    {
        let word = self.stack_of(lane, from);
        self.table.shared.swap::<Take<J>>(hand, word, 0)
    }

    /// FOLLOW: takes the first place off the taken chain. Answers its link word, which leads to the next; 0 at the end.
    #[inline]
    pub fn follow(&self, hand: &mut Hand<T>, spot: Spot) -> u64
        requires hand { IsOf self.now hand.old × IsOne hand.old.me.0 }
        requires spot { IsSpot self.now.shape spot spot.place }
        requires lane { (the_lane hand.old.me.0).lane < self.now.shape.lanes }
        requires chain { (the_lane hand.old.me.0).chain ≡ spot.place ∷ rest_of (the_lane hand.old.me.0).chain }
        ensures hand { SameSeat hand.old hand.new }
        ensures follows { Follows self.now.shape hand.old.me result hand.new.me }
    {
        self.follow_as::<Brand>(hand, spot)
    }

    #[inline]
    fn follow_as<J: Aim>(&self, hand: &mut Hand<T>, spot: Spot) -> u64
        requires aim { J.shape ≡ self.now.shape }
        requires hand { IsOf self.now hand.old × IsOne hand.old.me.0 }
        requires spot { IsSpot self.now.shape spot spot.place }
        requires lane { (the_lane hand.old.me.0).lane < self.now.shape.lanes }
        requires chain { (the_lane hand.old.me.0).chain ≡ spot.place ∷ rest_of (the_lane hand.old.me.0).chain }
        ensures hand { SameSeat hand.old hand.new }
        ensures follows { Follows self.now.shape hand.old.me result hand.new.me }
    {
        self.table
            .shared
            .load::<Follow<J>>(hand, self.link_of(spot))
    }

    /// SEE of a place's lifecycle word: answers the place's generation, as what the lane has then seen has it. Of a
    /// place that is with the lane it is that of its next publish.
    #[inline]
    pub fn generation(&self, hand: &mut Hand<T>, spot: Spot) -> u32
        requires hand { IsOf self.now hand.old × IsOne hand.old.me.0 }
        requires spot { IsSpot self.now.shape spot spot.place }
        ensures hand { SameSeat hand.old hand.new }
        ensures sees { Sees self.now.shape hand.old.me hand.new.me }
        ensures generation { result ≡ (pool_after self.now.shape hand.new.me.0.seen spot.place).generation }
    {
        Life::of_word(self.see_life::<Brand>(hand, spot)).generation
    }

    #[inline]
    fn see_life<J: Aim>(&self, hand: &mut Hand<T>, spot: Spot) -> u64
        requires aim { (J.shape ≡ self.now.shape) × (J.key ≡ spot.place) }
        requires hand { IsOf self.now hand.old × IsOne hand.old.me.0 }
        requires spot { IsSpot self.now.shape spot spot.place }
        ensures hand { SameSeat hand.old hand.new }
        ensures sees { SeesLife self.now.shape spot.place hand.old.me result hand.new.me }
    {
        self.table
            .shared
            .load::<SeeLife<J>>(hand, LIVES_START + spot.start as usize)
    }

    /// SEE: a look at a word of the lane's own, at which the lane sees what was done so far.
    #[inline]
    pub fn see(&self, hand: &mut Hand<T>, lane: u32)
        requires hand { IsOf self.now hand.old × IsOne hand.old.me.0 }
        requires lane { lane < callers self.now.shape }
        ensures hand { SameSeat hand.old hand.new }
        ensures sees { Sees self.now.shape hand.old.me hand.new.me }
    {
        self.see_as::<Brand>(hand, lane)
    }

    #[inline]
    fn see_as<J: Aim>(&self, hand: &mut Hand<T>, lane: u32)
        requires aim { J.shape ≡ self.now.shape }
        requires hand { IsOf self.now hand.old × IsOne hand.old.me.0 }
        requires lane { lane < callers self.now.shape }
        ensures hand { SameSeat hand.old hand.new }
        ensures sees { Sees self.now.shape hand.old.me hand.new.me }
    {
        self.table.shared.load::<See<J>>(hand, look_word(lane));
    }
}
