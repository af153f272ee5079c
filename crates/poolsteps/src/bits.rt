//! The steps by which a guest returns a place, and the shard's lane gathers what guests returned. Each is one call of
//! the table.
ghost use Rattle.std.specs.Prelude.{◌≡◌, ◌<◌, ◌≤◌, ◌^◌, None, false, ℕ};
ghost use Rattle.steplaws.specs.declared.pending.Pending.TheVariants.{Returns};
ghost use Rattle.steplaws.specs.StepLaws.{bit_of};
ghost use Rattle.poolsteps.specs.Layout.{row_count, bits_index, word_count};
ghost use Rattle.poolsteps.specs.Views.{the_lane, IsOne};
ghost use Rattle.poolsteps.specs.Grids.{IsSpot, IsOf, SameSeat};
ghost use Rattle.poolsteps.specs.Returned.{GivesBit, EmptiesRow, Gathers, NoneGiven, IsAtRest};

use crate::find::WORDS_APART;
use crate::grid::{Grid, Hand, Spot};
use crate::steps::Aim;
use crate::view::View;
use atomic_table::Play;
use keybits::{SHARD_NUMBERS, shard_of};
use slotcell::Clear;
use std::marker::{Brand, PhantomData};

/// RETURN.
pub(crate) struct GiveBit<J: Aim> {
    of: PhantomData<J>,
}

impl<S, J: Aim> Play<S, View> for GiveBit<J> {
    ghost use Rattle.poolsteps.specs.Returned.{GivesBit};

    ghost then = { λ step before found after. GivesBit J.shape before found after };
}

/// GATHER of the row whose number is the aim's key.
pub(crate) struct Gather<J: Aim> {
    of: PhantomData<J>,
}

impl<S, J: Aim> Play<S, View> for Gather<J> {
    ghost use Rattle.poolsteps.specs.Returned.{EmptiesRow};

    ghost then = { λ step before found after. EmptiesRow J.shape J.key before found after };
}

impl<T: Clear> Grid<T> {
    /// RETURN by a guest of a place to return, which is at rest: the place's bit is added to the word of its row, and the
    /// place is home. It never fails.
    #[inline]
    pub fn give_bit(&self, hand: &mut Hand<T>, spot: Spot)
        requires hand { IsOf self.now hand.old × IsOne hand.old.me.0 }
        requires spot { IsSpot self.now.shape spot spot.place }
        requires guest { self.now.shape.lanes ≤ (the_lane hand.old.me.0).lane }
        requires returns { (the_lane hand.old.me.0).under ≡ Returns spot.place None false }
        requires rests { IsAtRest self.now.shape hand.old.me.0 spot.place }
        ensures hand { SameSeat hand.old hand.new }
        ensures gives { (found : ℕ) × GivesBit self.now.shape hand.old.me found hand.new.me }
    {
        self.give_bit_as::<Brand>(hand, spot);
    }

    #[inline]
    fn give_bit_as<J: Aim>(&self, hand: &mut Hand<T>, spot: Spot) -> u64
        requires aim { J.shape ≡ self.now.shape }
        requires hand { IsOf self.now hand.old × IsOne hand.old.me.0 }
        requires spot { IsSpot self.now.shape spot spot.place }
        requires guest { self.now.shape.lanes ≤ (the_lane hand.old.me.0).lane }
        requires returns { (the_lane hand.old.me.0).under ≡ Returns spot.place None false }
        requires rests { IsAtRest self.now.shape hand.old.me.0 spot.place }
        ensures hand { SameSeat hand.old hand.new }
        ensures gives { GivesBit self.now.shape hand.old.me result hand.new.me }
    {
        let row = spot.place % SHARD_NUMBERS / 64;
        let word = self.bits_of(shard_of(spot.place), row);
        self.table
            .shared
            .fetch_add::<GiveBit<J>>(hand, word, bit_value(spot.place))
    }

    /// Where the word of a shard's row of bits stands.
    #[inline]
    fn bits_of(&self, shard: u32, row: u32) -> usize
        requires row { (shard < self.now.shape.lanes) × (row < row_count self.now.shape) }
        ensures word { result ≡ bits_index self.now.shape shard row }
        ensures inside { result < word_count self.now.shape }
    {
        let lanes = self.shape.lanes as usize;
        let rows = 64 * self.shape.pages as usize;
        let bits = self.links + self.row + WORDS_APART * (lanes * lanes);
        bits + (shard as usize * rows + row as usize)
    }

    /// GATHER of all places of a row of the lane's own shard that guests have returned: they are then with the lane, and none
    /// is left. Answers the word that was found, in which their bits are set.
    #[inline]
    pub fn gather_row(&self, hand: &mut Hand<T>, lane: u32, row: u32) -> u64
        requires hand { IsOf self.now hand.old × IsOne hand.old.me.0 }
        requires lane { (lane ≡ (the_lane hand.old.me.0).lane) × (lane < self.now.shape.lanes) }
        requires row { row < row_count self.now.shape }
        ensures hand { SameSeat hand.old hand.new }
        ensures gathers { Gathers self.now.shape row hand.old.me result hand.new.me }
        ensures none_left { NoneGiven self.now.shape hand.new.me.0.seen lane row }
    {
        self.gather_row_as::<Brand>(hand, lane, row)
    }

    #[inline]
    fn gather_row_as<J: Aim>(&self, hand: &mut Hand<T>, lane: u32, row: u32) -> u64
        requires aim { (J.shape ≡ self.now.shape) × (J.key ≡ row) }
        requires hand { IsOf self.now hand.old × IsOne hand.old.me.0 }
        requires lane { (lane ≡ (the_lane hand.old.me.0).lane) × (lane < self.now.shape.lanes) }
        requires row { row < row_count self.now.shape }
        ensures hand { SameSeat hand.old hand.new }
        ensures gathers { EmptiesRow self.now.shape row hand.old.me result hand.new.me }
    {
        let word = self.bits_of(lane, row);
        self.table.shared.swap::<Gather<J>>(hand, word, 0)
    }
}

/// The value of a place's bit in the word of its row.
#[inline]
fn bit_value(place: u32) -> u64
    ensures { result ≡ 2 ^ bit_of place }
{
    1 << (place % 64)
}
