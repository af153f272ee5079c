//! A get by a guest.
ghost use Rattle.std.specs.Prelude.{◌≡◌, true};

use crate::ended::{Ended, Parted, end, settle_end};
use crate::guests::Guest;
use crate::kept_hand::KeptHand;
use crate::references::GuestRef;
use keybits::is_hit;
use poolsteps::{Grid, Purpose, Slot, Spot, shares_law};
use slotcell::Clear;
use std::alloc::Global;

impl<T: Clear + Drop> Guest<T> {
    ghost use Rattle.std.specs.Prelude.{◌≡◌, true, false, None, Some, ◌∷◌, [], ℕ, List, IfOk, IfErr};
    ghost use Rattle.keybits.specs.Keys.{is_key, place_of};
    ghost use Rattle.seqpool.specs.declared.act.Act.TheVariants as acts;
    ghost use Rattle.seatcalls.specs.declared.ended.Ended.TheVariants.{Free};
    ghost use Rattle.steplaws.specs.StepLaws.{owed_after};
    ghost use Rattle.poolsteps.specs.Grids.{IsSpot};
    ghost use Rattle.poolsteps.specs.Views.{the_lane};
    ghost use Rattle.seatcalls.specs.Guests.{MayGive};
    ghost use Rattle.seatcalls.specs.Visitors.{FitsGuest, HasNoReference, Visits};
    ghost use Rattle.seatcalls.specs.Endings.{Ends, Settles};
    ghost use Rattle.seatcalls.specs.Sightings.{Found, Missed};

    /// A get of a key: a reference, which takes the guest with it. It takes no memory, and waits for nobody.
    ///
    /// # Errors
    ///
    /// The guest, where the key is marked or not published, or the number is no key of the pool. The last that refers to a
    /// key that is cleared has its place: where that is the guest, the object is cleared in place, and the place given back.
    #[inline(always)]
    pub fn get(self, grid: &Grid<T>, key: u64, alloc: Global) -> Result<GuestRef<T>, Guest<T>>
        requires of { (self.table ≡ grid.now.table.shared.table_id) × (self.shape ≡ grid.now.shape) }
        ensures outside { IfErr result (λ guest. is_key self.shape key ≡ false → guest ≡ self) }
        ensures key { IfOk result (λ reference. (is_key self.shape key ≡ true) × (reference.key ≡ key)
            × (reference.directory ≡ grid.now.objects.ptr)) }
        ensures gets { IfOk result (λ reference. (content : List ℕ)
            × Visits (acts.Get self.number key (Some content) ∷ []) 1 2 self reference.guest) }
        ensures found { IfOk result (λ reference. Found key self reference.guest) }
        ensures misses { IfErr result (λ guest. is_key self.shape key ≡ true
            → Settles (place_of key) (acts.Get self.number key None ∷ []) 4 4 self guest) }
        ensures missed { IfErr result (λ guest. is_key self.shape key ≡ true → Missed key self guest) }
    {
        self.seen_law();
        let Some(spot) = grid.find_key(key) else {
            return Err(self);
        };
        match self.enter(grid, spot, key) {
            Ok(reference) => Ok(reference),
            Err(parted) => Err(settle_end(grid, parted, alloc)),
        }
    }

    /// As `get`. Where the guest claims the key's place, it keeps it, with its object.
    #[inline(always)]
    pub fn get_or_keep(self, grid: &Grid<T>, key: u64) -> Result<GuestRef<T>, Ended<T>>
        requires of { (self.table ≡ grid.now.table.shared.table_id) × (self.shape ≡ grid.now.shape) }
        ensures outside { IfErr result (λ ended. is_key self.shape key ≡ false → ended ≡ Free self) }
        ensures key { IfOk result (λ reference. (is_key self.shape key ≡ true) × (reference.key ≡ key)
            × (reference.directory ≡ grid.now.objects.ptr)) }
        ensures gets { IfOk result (λ reference. (content : List ℕ)
            × Visits (acts.Get self.number key (Some content) ∷ []) 1 2 self reference.guest) }
        ensures misses { IfErr result (λ ended. is_key self.shape key ≡ true
            → Ends T.content T.room grid.now.objects.ptr (place_of key) (acts.Get self.number key None ∷ []) 3 2 self ended) }
    {
        let Some(spot) = grid.find_key(key) else {
            return Err(Ended::Free(self));
        };
        match self.enter(grid, spot, key) {
            Ok(reference) => Ok(reference),
            Err(
                Parted {
                    hand,
                    number,
                    shape,
                    spot,
                    found,
                },
            ) => Err(end(grid, hand, number, shape, spot, found)),
        }
    }

    /// ENTER of a get of a key, and the LEAVE of one that misses.
    #[inline(always)]
    fn enter(self, grid: &Grid<T>, spot: Spot, key: u64) -> Result<GuestRef<T>, Parted<T>>
        requires of { (self.table ≡ grid.now.table.shared.table_id) × (self.shape ≡ grid.now.shape) }
        requires key { is_key grid.now.shape key ≡ true }
        requires spot { IsSpot grid.now.shape spot (place_of key) }
        ensures key { IfOk result (λ reference. (reference.key ≡ key) × (reference.directory ≡ grid.now.objects.ptr)) }
        ensures gets { IfOk result (λ reference. (content : List ℕ)
            × Visits (acts.Get self.number key (Some content) ∷ []) 1 2 self reference.guest) }
        ensures place { IfErr result (λ parted. parted.spot.place ≡ place_of key) }
        ensures act { IfErr result (λ parted. MayGive grid.now parted.hand parted.spot parted.number) }
        ensures shape { IfErr result (λ parted. parted.shape.value ≡ grid.now.shape) }
        ensures fits { IfErr result (λ parted. FitsGuest grid.now.shape parted.hand.me.0 parted.number) }
        ensures bare { IfErr result (λ parted. HasNoReference grid.now.shape parted.hand.me.0) }
        ensures owes { IfErr result (λ parted. (the_lane parted.hand.me.0).under ≡ owed_after parted.spot.place parted.found) }
        ensures made { IfErr result (λ parted. Visits (acts.Get self.number key None ∷ []) 2 0 self
            (record { table = parted.hand.table_id; shape = grid.now.shape; number = parted.number; book = parted.hand.me.0 })) }
    {
        shares_law();
        let Guest {
            mut hand,
            number,
            shape,
        } = self;
        let found = grid.enter(&mut hand, spot, key, Purpose::ToGet);
        if is_hit(key, found) {
            let share = grid.out(&mut hand, spot, number, number);
            return Ok(GuestRef {
                hand: KeptHand::new(hand),
                number,
                shape,
                start: spot.start,
                key,
                directory: grid.objects,
                share: Slot::filled(share),
            });
        }
        let left = grid.leave(&mut hand, spot, key);
        Err(Parted {
            hand,
            number,
            shape,
            spot,
            found: left,
        })
    }
}
