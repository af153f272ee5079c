//! Several steps of a clear, or of a filling that is dropped, one after another with nothing between them, as one operation on
//! the key's word.
ghost use Rattle.std.specs.Prelude.{◌≡◌, true, false};
ghost use Rattle.keybits.specs.Keys.{place_of, is_key};
ghost use Rattle.keybits.specs.Words.{is_hit};
ghost use Rattle.poolsteps.specs.Views.{IsOne};
ghost use Rattle.poolsteps.specs.Grids.{IsSpot, IsOf, SameSeat};
ghost use Rattle.poolsteps.specs.Told.{IsIdle, MayPublish, IsShared};
ghost use Rattle.poolsteps.specs.AtOnce.{Sweeps, Strikes, Withdraws};

use crate::find::LIVES_START;
use crate::grid::{Grid, Hand, Spot};
use crate::steps::Aim;
use crate::view::View;
use atomic_table::Play;
use keybits::{MARK_BIT, PUBLISHED_BIT, claimable, claimed, generation_of};
use slotcell::Clear;
use std::marker::{Brand, PhantomData};

/// SWEEP.
pub(crate) struct Sweep<J: Aim> {
    of: PhantomData<J>,
}

impl<S, J: Aim> Play<S, View> for Sweep<J> {
    ghost use Rattle.poolsteps.specs.AtOnce.{Sweeps};

    ghost then = { λ step before found after. Sweeps J.shape J.key before found after };
}

/// STRIKE from an expected word.
pub(crate) struct Strike<J: Aim> {
    of: PhantomData<J>,
}

impl<S, J: Aim> Play<S, View> for Strike<J> {
    ghost use Rattle.poolsteps.specs.AtOnce.{Strikes};

    ghost then = { λ step before found after. Strikes J.shape J.key step.first before found after };
}

/// WITHDRAW.
pub(crate) struct Withdraw<J: Aim> {
    of: PhantomData<J>,
}

impl<S, J: Aim> Play<S, View> for Withdraw<J> {
    ghost use Rattle.poolsteps.specs.AtOnce.{Withdraws};

    ghost then = { λ step before found after. Withdraws J.shape J.key before found after };
}

impl<T: Clear> Grid<T> {
    /// SWEEP: where a key is published and unmarked and nobody refers to it, the ENTER, MARK, LEAVE and CLAIM of its
    /// clear, by one compare-exchange. Else it changes nothing: where the key misses and no claim is owed at the word
    /// that was found, it was the ENTER and LEAVE of a clear that misses, and otherwise a look. Answers the word that
    /// was found.
    #[inline]
    pub fn sweep(&self, hand: &mut Hand<T>, spot: Spot, key: u64) -> u64
        requires hand { IsOf self.now hand.old × IsOne hand.old.me.0 }
        requires spot { IsSpot self.now.shape spot (place_of key) }
        requires key { is_key self.now.shape key ≡ true }
        requires idle { IsIdle hand.old.me.0 }
        ensures hand { SameSeat hand.old hand.new }
        ensures sweeps { Sweeps self.now.shape key hand.old.me result hand.new.me }
    {
        self.sweep_as::<Brand>(hand, spot, key)
    }

    #[inline]
    fn sweep_as<J: Aim>(&self, hand: &mut Hand<T>, spot: Spot, key: u64) -> u64
        requires aim { (J.shape ≡ self.now.shape) × (J.key ≡ key) }
        requires hand { IsOf self.now hand.old × IsOne hand.old.me.0 }
        requires spot { IsSpot self.now.shape spot (place_of key) }
        requires key { is_key self.now.shape key ≡ true }
        requires idle { IsIdle hand.old.me.0 }
        ensures hand { SameSeat hand.old hand.new }
        ensures sweeps { Sweeps self.now.shape key hand.old.me result hand.new.me }
    {
        let marked = claimable(generation_of(key));
        let new = claimed(marked, self.shape.last_generation);
        self.table.shared.compare_exchange::<Sweep<J>>(
            hand,
            LIVES_START + spot.start as usize,
            marked - MARK_BIT,
            new,
        )
    }

    /// STRIKE, from a word that hits the key: where its word is still the one that is expected, the ENTER, MARK and
    /// LEAVE of its clear, by one compare-exchange. Where it finds another word, it changes nothing and was a look.
    /// Answers the word that was found.
    #[inline]
    pub fn strike(&self, hand: &mut Hand<T>, spot: Spot, key: u64, expected: u64) -> u64
        requires hand { IsOf self.now hand.old × IsOne hand.old.me.0 }
        requires spot { IsSpot self.now.shape spot (place_of key) }
        requires key { is_key self.now.shape key ≡ true }
        requires idle { IsIdle hand.old.me.0 }
        requires hit { is_hit key expected ≡ true }
        ensures hand { SameSeat hand.old hand.new }
        ensures strikes { Strikes self.now.shape key expected hand.old.me result hand.new.me }
    {
        self.strike_as::<Brand>(hand, spot, key, expected)
    }

    #[inline]
    fn strike_as<J: Aim>(&self, hand: &mut Hand<T>, spot: Spot, key: u64, expected: u64) -> u64
        requires aim { (J.shape ≡ self.now.shape) × (J.key ≡ key) }
        requires hand { IsOf self.now hand.old × IsOne hand.old.me.0 }
        requires spot { IsSpot self.now.shape spot (place_of key) }
        requires key { is_key self.now.shape key ≡ true }
        requires idle { IsIdle hand.old.me.0 }
        requires hit { is_hit key expected ≡ true }
        ensures hand { SameSeat hand.old hand.new }
        ensures strikes { Strikes self.now.shape key expected hand.old.me result hand.new.me }
    {
        let _ = key;
        self.table.shared.compare_exchange::<Strike<J>>(
            hand,
            LIVES_START + spot.start as usize,
            expected,
            expected.wrapping_add(MARK_BIT),
        )
    }

    /// WITHDRAW: where a key isn't published and no ENTER is counted at its place, its PUBLISH without a reference, and the
    /// ENTER, MARK, LEAVE and CLAIM of its clear, by one compare-exchange: nobody ever finds the key, and it isn't given out
    /// again. The place is with the lane, and each share of its cell is in its slot. Where it finds another word, it
    /// changes nothing and was a look. Answers the word that was found.
    #[inline]
    pub fn withdraw(&self, hand: &mut Hand<T>, spot: Spot, key: u64) -> u64
        requires hand { IsOf self.now hand.old × IsOne hand.old.me.0 }
        requires spot { IsSpot self.now.shape spot (place_of key) }
        requires may { MayPublish self.now.shape hand.old.me.0 key }
        requires shares { IsShared self.now.shape hand.old.me.0 (place_of key) false }
        ensures hand { SameSeat hand.old hand.new }
        ensures withdraws { Withdraws self.now.shape key hand.old.me result hand.new.me }
    {
        self.withdraw_as::<Brand>(hand, spot, key)
    }

    #[inline]
    fn withdraw_as<J: Aim>(&self, hand: &mut Hand<T>, spot: Spot, key: u64) -> u64
        requires aim { (J.shape ≡ self.now.shape) × (J.key ≡ key) }
        requires hand { IsOf self.now hand.old × IsOne hand.old.me.0 }
        requires spot { IsSpot self.now.shape spot (place_of key) }
        requires may { MayPublish self.now.shape hand.old.me.0 key }
        requires shares { IsShared self.now.shape hand.old.me.0 (place_of key) false }
        ensures hand { SameSeat hand.old hand.new }
        ensures withdraws { Withdraws self.now.shape key hand.old.me result hand.new.me }
    {
        let marked = claimable(generation_of(key));
        self.table.shared.compare_exchange::<Withdraw<J>>(
            hand,
            LIVES_START + spot.start as usize,
            marked - MARK_BIT - PUBLISHED_BIT,
            claimed(marked, self.shape.last_generation),
        )
    }
}
