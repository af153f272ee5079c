//! The release of a guest's reference.

use crate::ended::{Ended, Parted, end, settle_end};
use crate::guests::Guest;
use crate::references::GuestRef;
use keybits::place_of;
use poolsteps::{Grid, Spot, shares_law};
use slotcell::Clear;
use std::alloc::Global;

impl<T: Clear + Drop> GuestRef<T> {
    ghost use Rattle.std.specs.Prelude.{◌≡◌, ◌∷◌, []};
    ghost use Rattle.keybits.specs.Keys.{place_of};
    ghost use Rattle.seqpool.specs.declared.act.Act.TheVariants as acts;
    ghost use Rattle.steplaws.specs.StepLaws.{owed_after};
    ghost use Rattle.poolsteps.specs.Views.{the_lane};
    ghost use Rattle.seatcalls.specs.Endings.{Ends, Settles};
    ghost use Rattle.seatcalls.specs.Guests.{MayGive};
    ghost use Rattle.seatcalls.specs.Visitors.{FitsGuest, HasNoReference, Visits};

    /// Gives the reference back, and answers its guest. Where it was the last to a key that is cleared, the object is cleared
    /// in place, and the place given back. It takes no memory, and waits for nobody.
    #[inline(always)]
    pub fn release(self, grid: &Grid<T>, alloc: Global) -> Guest<T>
        requires of { (self.guest.table ≡ grid.now.table.shared.table_id) × (self.guest.shape ≡ grid.now.shape)
            × (self.directory ≡ grid.now.objects.ptr) }
        ensures { Settles (place_of self.key) (acts.Release self.guest.number self.key ∷ []) 3 6 self.guest result }
    {
        settle_end(grid, self.leave(grid), alloc)
    }

    /// As `release`. Where the guest claims the key's place, it keeps it, with its object.
    #[inline(always)]
    pub fn release_or_keep(self, grid: &Grid<T>) -> Ended<T>
        requires of { (self.guest.table ≡ grid.now.table.shared.table_id) × (self.guest.shape ≡ grid.now.shape)
            × (self.directory ≡ grid.now.objects.ptr) }
        ensures { Ends T.content T.room grid.now.objects.ptr (place_of self.key) (acts.Release self.guest.number self.key ∷ []) 2 4
            self.guest result }
    {
        let Parted {
            hand,
            number,
            shape,
            spot,
            found,
        } = self.leave(grid);
        end(grid, hand, number, shape, spot, found)
    }

    /// LEAVE, behind the way back of the guest's share.
    #[inline(always)]
    fn leave(self, grid: &Grid<T>) -> Parted<T>
        requires of { (self.guest.table ≡ grid.now.table.shared.table_id) × (self.guest.shape ≡ grid.now.shape)
            × (self.directory ≡ grid.now.objects.ptr) }
        ensures place { result.spot.place ≡ place_of self.key }
        ensures act { MayGive grid.now result.hand result.spot result.number }
        ensures shape { result.shape.value ≡ grid.now.shape }
        ensures fits { FitsGuest grid.now.shape result.hand.me.0 result.number }
        ensures bare { HasNoReference grid.now.shape result.hand.me.0 }
        ensures owes { (the_lane result.hand.me.0).under ≡ owed_after result.spot.place result.found }
        ensures made { Visits (acts.Release self.guest.number self.key ∷ []) 1 2 self.guest
            (record { table = result.hand.table_id; shape = grid.now.shape; number = result.number; book = result.hand.me.0 }) }
    {
        shares_law();
        let GuestRef {
            hand: kept,
            number,
            shape,
            start,
            key,
            directory: _,
            share,
        } = self;
        let spot = Spot {
            place: place_of(key),
            start,
        };
        let mut hand = kept.into_hand();
        grid.settle(&mut hand, spot, number, number, share);
        let left = grid.leave(&mut hand, spot, key);
        Parted {
            hand,
            number,
            shape,
            spot,
            found: left,
        }
    }
}
