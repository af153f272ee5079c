//! A clear by a guest.
ghost use Rattle.std.specs.Prelude.{◌≡◌, ◌∷◌, [], true};
ghost use Rattle.keybits.specs.Keys.{is_key, place_of};
ghost use Rattle.seqpool.specs.declared.act.Act.TheVariants as acts;
ghost use Rattle.poolsteps.specs.AtOnce.{unreferred};
ghost use Rattle.poolsteps.specs.Grids.{IsSpot};
ghost use Rattle.seatcalls.specs.Endings.{Ends, Settles};

use crate::claimed::keep;
use crate::ended::{Ended, end};
use crate::guests::Guest;
use keybits::{Life, ONE_COUNT, State, generation_of, is_hit, is_present, owes_claim};
use poolsteps::{Grid, Purpose, Spot};
use slotcell::Clear;
use std::alloc::Global;

impl<T: Clear + Drop> Guest<T> {
    ghost use Rattle.std.specs.Prelude.{◌≡◌, true, false, ◌∷◌, [], IsTrue, IsFalse, IfOk, IfErr};
    ghost use Rattle.keybits.specs.Keys.{is_key, place_of};
    ghost use Rattle.seqpool.specs.declared.act.Act.TheVariants as acts;
    ghost use Rattle.seatcalls.specs.declared.ended.Ended.TheVariants.{Free};
    ghost use Rattle.poolsteps.specs.Grids.{IsSpot};
    ghost use Rattle.seatcalls.specs.Endings.{Ends, Settles};
    ghost use Rattle.seatcalls.specs.Sightings.{Cleared, Missed};
    ghost use Rattle.seatcalls.specs.Visitors.{Visits};

    /// Clears the object of a key: true where it is this call that marked the key, which a get then finds no more. The last
    /// that refers to the object clears it in place, and gives its place back. False for a key that is marked or not
    /// published, and for a number that is no key of the pool, without a step. It takes no memory, and waits for nobody.
    #[inline(always)]
    pub fn clear(self, grid: &Grid<T>, key: u64, alloc: Global) -> (bool, Guest<T>)
        requires of { (self.table ≡ grid.now.table.shared.table_id) × (self.shape ≡ grid.now.shape) }
        ensures outside { is_key self.shape key ≡ false → (result.0 ≡ false) × (result.1 ≡ self) }
        ensures clears { is_key self.shape key ≡ true
            → Settles (place_of key) (acts.Clear self.number key result.0 ∷ []) 5 6 self result.1 }
        ensures cleared { IsTrue result.0 → Cleared key self result.1 }
        ensures missed { IsFalse result.0 → is_key self.shape key ≡ true → Missed key self result.1 }
    {
        self.seen_law();
        let Some(spot) = grid.find_key(key) else {
            return (false, self);
        };
        match self.clear_at_once(grid, spot, key) {
            Ok((marked, ended)) => (marked, ended.settle(grid, alloc)),
            Err(guest) => clear_apart(grid, guest, spot, key, alloc),
        }
    }

    /// As `clear`. Where the guest claims the key's place, it keeps it, with its object.
    #[inline(always)]
    pub fn clear_or_keep(self, grid: &Grid<T>, key: u64) -> (bool, Ended<T>)
        requires of { (self.table ≡ grid.now.table.shared.table_id) × (self.shape ≡ grid.now.shape) }
        ensures outside { is_key self.shape key ≡ false → (result.0 ≡ false) × (result.1 ≡ Free self) }
        ensures clears { is_key self.shape key ≡ true
            → Ends T.content T.room grid.now.objects.ptr (place_of key) (acts.Clear self.number key result.0 ∷ []) 4 4 self result.1 }
    {
        let Some(spot) = grid.find_key(key) else {
            return (false, Ended::Free(self));
        };
        match self.clear_at_once(grid, spot, key) {
            Ok(answer) => answer,
            Err(guest) => clear_by_steps(grid, guest, spot, key),
        }
    }

    /// A clear of a key whose steps are one operation.
    ///
    /// # Errors
    ///
    /// The guest, where another caller stepped on the key's word meanwhile: then it looked, and did nothing.
    #[inline(always)]
    fn clear_at_once(
        self,
        grid: &Grid<T>,
        spot: Spot,
        key: u64,
    ) -> Result<(bool, Ended<T>), Guest<T>>
        requires of { (self.table ≡ grid.now.table.shared.table_id) × (self.shape ≡ grid.now.shape) }
        requires key { is_key grid.now.shape key ≡ true }
        requires spot { IsSpot grid.now.shape spot (place_of key) }
        ensures clears { IfOk result (λ answer. Ends T.content T.room grid.now.objects.ptr (place_of key)
            (acts.Clear self.number key answer.0 ∷ []) 4 4 self answer.1) }
        ensures late { IfErr result (λ guest. Visits [] 0 2 self guest) }
    {
        let Guest {
            mut hand,
            number,
            shape,
        } = self;
        let generation = generation_of(key);
        let found = grid.sweep(&mut hand, spot, key);
        if found == unreferred(generation) {
            let claimed = keep(grid, hand, number, shape, spot, generation);
            return Ok((true, Ended::Kept(claimed)));
        }
        if is_hit(key, found) {
            let struck = grid.strike(&mut hand, spot, key, found);
            if struck == found {
                let guest = Guest {
                    hand,
                    number,
                    shape,
                };
                return Ok((true, Ended::Free(guest)));
            }
            return Err(Guest {
                hand,
                number,
                shape,
            });
        }
        if owes_claim(found.wrapping_add(ONE_COUNT)) {
            return Err(Guest {
                hand,
                number,
                shape,
            });
        }
        let guest = Guest {
            hand,
            number,
            shape,
        };
        Ok((false, Ended::Free(guest)))
    }
}

/// As `clear_by_steps`. Where the guest claims the place, the object is cleared in place, and the place given back.
#[cold]
#[inline(never)]
fn clear_apart<T: Clear + Drop>(
    grid: &Grid<T>,
    guest: Guest<T>,
    spot: Spot,
    key: u64,
    alloc: Global,
) -> (bool, Guest<T>)
    requires of { (guest.table ≡ grid.now.table.shared.table_id) × (guest.shape ≡ grid.now.shape) }
    requires key { is_key guest.shape key ≡ true }
    requires spot { IsSpot grid.now.shape spot (place_of key) }
    ensures { Settles (place_of key) (acts.Clear guest.number key result.0 ∷ []) 5 4 guest result.1 }
{
    let (marked, ended) = clear_by_steps(grid, guest, spot, key);
    (marked, ended.settle(grid, alloc))
}

/// A clear of a key, each of whose steps is an operation: where another caller stepped on the key's word meanwhile. Away
/// from the call's own path, for few clears come here.
#[cold]
#[inline(never)]
fn clear_by_steps<T: Clear + Drop>(
    grid: &Grid<T>,
    guest: Guest<T>,
    spot: Spot,
    key: u64,
) -> (bool, Ended<T>)
    requires of { (guest.table ≡ grid.now.table.shared.table_id) × (guest.shape ≡ grid.now.shape) }
    requires key { is_key guest.shape key ≡ true }
    requires spot { IsSpot grid.now.shape spot (place_of key) }
    ensures { Ends T.content T.room grid.now.objects.ptr (place_of key) (acts.Clear guest.number key result.0 ∷ []) 4 2 guest result.1 }
{
    let Guest {
        mut hand,
        number,
        shape,
    } = guest;
    let found = grid.enter(&mut hand, spot, key, Purpose::ToClear);
    if !is_hit(key, found) {
        let left = grid.leave(&mut hand, spot, key);
        return (false, end(grid, hand, number, shape, spot, left));
    }
    let marked = is_present(grid.mark(&mut hand, spot, key));
    let left = grid.leave(&mut hand, spot, key);
    (marked, end(grid, hand, number, shape, spot, left))
}

/// The word of a place whose key of this generation is published and unmarked, and to which nobody refers.
#[inline]
fn unreferred(generation: u32) -> u64
    ensures { result ≡ unreferred generation }
{
    let life = Life {
        generation,
        count: 0,
        state: State::Present,
    };
    life.word()
}
