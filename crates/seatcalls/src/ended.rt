//! What follows the LEAVE of a guest: nothing, or the CLAIM of the place, which the guest then has.
ghost use Rattle.std.specs.Prelude.{◌≡◌, ◌≤◌, []};
ghost use Rattle.steplaws.specs.StepLaws.{owed_after};
ghost use Rattle.poolsteps.specs.Views.{the_lane};
ghost use Rattle.seatcalls.specs.Guests.{MayGive};
ghost use Rattle.seatcalls.specs.Visitors.{FitsGuest, HasNoReference};
ghost use Rattle.seatcalls.specs.Endings.{Ends, Settles};

use crate::at::owed_by;
use crate::claimed::{Claimed, keep};
use crate::guests::Guest;
use crate::kept_snapshot::KeptSnapshot;
use keybits::{Shape, claimable, owes_claim};
use poolsteps::{Grid, Hand, Spot};
use slotcell::Clear;
use std::alloc::Global;

/// What a guest has after a call.
pub enum Ended<T: Clear> {
    /// The guest, for its next call.
    Free(Guest<T>),
    /// The place that it claimed, with the guest in it.
    Kept(Claimed<T>),
}

/// A guest behind a LEAVE, and the word that this found.
pub(crate) struct Parted<T: Clear> {
    pub(crate) spot: Spot,
    pub(crate) found: u64,
    pub(crate) hand: Hand<T>,
    pub(crate) number: u32,
    pub(crate) shape: KeptSnapshot<Shape>,
}

impl<T: Clear + Drop> Ended<T> {
    ghost use Rattle.std.specs.Prelude.{◌≡◌, ◌≤◌};
    ghost use Rattle.poolsteps.specs.Shares.{room_of};
    ghost use Rattle.seatcalls.specs.declared.ended.Ended.TheVariants.{Free, Kept};
    ghost use Rattle.seatcalls.specs.Guests.{given_acts};
    ghost use Rattle.seatcalls.specs.Visitors.{GuestOf, ClaimedOf, Visits};

    /// The guest, once the object of a place that it claimed was cleared in place, and the place given back.
    #[inline(always)]
    pub fn settle(self, grid: &Grid<T>, alloc: Global) -> Guest<T>
        requires table { (claimed : ClaimedOf T) → self ≡ Kept claimed → claimed.guest.table ≡ grid.now.table.shared.table_id }
        requires grid { (claimed : ClaimedOf T) → self ≡ Kept claimed
            → (claimed.guest.shape ≡ grid.now.shape) × (claimed.directory ≡ grid.now.objects.ptr) }
        requires room { (claimed : ClaimedOf T) → self ≡ Kept claimed
            → room_of claimed.guest.book.seen claimed.guest.book.rooms claimed.place ≤ T.room claimed.object }
        ensures free { (guest : GuestOf) → self ≡ Free guest → result ≡ guest }
        ensures kept { (claimed : ClaimedOf T) → self ≡ Kept claimed
            → Visits (given_acts claimed.guest.shape claimed.guest.number claimed.place claimed.generation) 1 2 claimed.guest result }
    {
        match self {
            Ended::Free(guest) => guest,
            Ended::Kept(claimed) => {
                let mut claimed = claimed;
                claimed.object_mut().clear();
                claimed.give_back(grid, alloc)
            }
        }
    }
}

/// What a guest has behind a LEAVE that found this word. Where the word says that it left (g, MARKED, 0), it claims g. One
/// step at most, and two looks.
#[inline(always)]
pub(crate) fn end<T: Clear + Drop>(
    grid: &Grid<T>,
    hand: Hand<T>,
    number: u32,
    shape: KeptSnapshot<Shape>,
    spot: Spot,
    found: u64,
) -> Ended<T>
    requires act { MayGive grid.now hand spot number }
    requires shape { shape.value ≡ grid.now.shape }
    requires fits { FitsGuest grid.now.shape hand.me.0 number }
    requires bare { HasNoReference grid.now.shape hand.me.0 }
    requires owes { (the_lane hand.me.0).under ≡ owed_after spot.place found }
    ensures { Ends T.content T.room grid.now.objects.ptr spot.place [] 1 2
        (record { table = hand.table_id; shape = grid.now.shape; number = number; book = hand.me.0 }) result }
{
    let mut hand = hand;
    let Some(generation) = owed_by(found) else {
        return Ended::Free(Guest {
            hand,
            number,
            shape,
        });
    };
    let word = grid.claim(&mut hand, spot, generation);
    if word != claimable(generation) {
        return Ended::Free(Guest {
            hand,
            number,
            shape,
        });
    }
    Ended::Kept(keep(grid, hand, number, shape, spot, generation))
}

/// As `end`. Where the guest claims the place, the object is cleared in place, and the place given back. Inlined, for what
/// is seldom done stands apart.
#[inline(always)]
pub(crate) fn settle_end<T: Clear + Drop>(
    grid: &Grid<T>,
    parted: Parted<T>,
    alloc: Global,
) -> Guest<T>
    requires act { MayGive grid.now parted.hand parted.spot parted.number }
    requires shape { parted.shape.value ≡ grid.now.shape }
    requires fits { FitsGuest grid.now.shape parted.hand.me.0 parted.number }
    requires bare { HasNoReference grid.now.shape parted.hand.me.0 }
    requires owes { (the_lane parted.hand.me.0).under ≡ owed_after parted.spot.place parted.found }
    ensures { Settles parted.spot.place [] 2 4
        (record { table = parted.hand.table_id; shape = grid.now.shape; number = parted.number; book = parted.hand.me.0 }) result }
{
    let Parted {
        hand,
        number,
        shape,
        spot,
        found,
    } = parted;
    if owes_claim(found) {
        return settle_owed(grid, hand, number, shape, spot, found, alloc);
    }
    Guest {
        hand,
        number,
        shape,
    }
}

/// The same, away from the calls' own paths: few calls owe a claim.
#[cold]
#[inline(never)]
fn settle_owed<T: Clear + Drop>(
    grid: &Grid<T>,
    hand: Hand<T>,
    number: u32,
    shape: KeptSnapshot<Shape>,
    spot: Spot,
    found: u64,
    alloc: Global,
) -> Guest<T>
    requires act { MayGive grid.now hand spot number }
    requires shape { shape.value ≡ grid.now.shape }
    requires fits { FitsGuest grid.now.shape hand.me.0 number }
    requires bare { HasNoReference grid.now.shape hand.me.0 }
    requires owes { (the_lane hand.me.0).under ≡ owed_after spot.place found }
    ensures { Settles spot.place [] 2 4
        (record { table = hand.table_id; shape = grid.now.shape; number = number; book = hand.me.0 }) result }
{
    end(grid, hand, number, shape, spot, found).settle(grid, alloc)
}
