//! A guest together with its pool, for a thread that gets, reads, releases and clears without a lane.
ghost use Rattle.std.specs.Prelude.{◌≡◌, ℕ, List, ◌∷◌, [], None, Some, true, false, IfOk, IfErr, IsTrue, IsFalse};
ghost use Rattle.keybits.specs.Keys.{is_key, place_of};
ghost use Rattle.seqpool.specs.declared.act.Act.TheVariants as acts;
ghost use Rattle.seqpool.specs.Histories.{PublishedAt};
ghost use Rattle.seatcalls.specs.Visitors.{Visits};
ghost use Rattle.seatcalls.specs.Endings.{Settles};
ghost use Rattle.seatcalls.specs.Sightings.{Found, Missed, Cleared};
ghost use Rattle.shardpool.specs.Lanes.{OwnsGuest};

use crate::named::PoolName;
use seatcalls::{Guest, GuestRef};
use shardpool::Pool;
use slotcell::Clear;
use std::marker::PhantomData;

/// A guest of the pool that `N` names, with that pool. It may go from thread to thread between two calls.
#[derive(Drop)]
pub struct Visitor<'p, N: PoolName, T: Clear> {
    pool: &'p Pool<T>,
    pub guest: Guest<T>,
    of: PhantomData<N>,
    ghost pool_is: { pool.now ≡ N.pool },
    ghost owns: { OwnsGuest N.pool guest },
}

/// A reference of a visitor, which has the visitor along: any thread reads the object, and any releases it.
#[derive(Drop)]
pub struct Visit<'p, N: PoolName, T: Clear> {
    pool: &'p Pool<T>,
    pub reference: GuestRef<T>,
    of: PhantomData<N>,
    ghost pool_is: { pool.now ≡ N.pool },
    ghost owns: { OwnsGuest N.pool reference.guest },
    ghost directory: { reference.directory ≡ N.pool.directory },
}

impl<'p, N: PoolName, T: Clear + Drop> Visitor<'p, N, T> {
    /// The visitor of a guest.
    pub fn new(pool: &'p Pool<T>, guest: Guest<T>) -> Visitor<'p, N, T>
        requires pool { pool.now ≡ N.pool }
        requires owns { OwnsGuest N.pool guest }
        ensures { result.guest ≡ guest }
    {
        Visitor {
            pool,
            guest,
            of: PhantomData,
        }
    }

    /// The guest.
    pub fn into_guest(self) -> Guest<T>
        ensures guest { result ≡ self.entry.guest }
        ensures owns { OwnsGuest N.pool result }
    {
        self.guest
    }

    /// A get of a key, as `Pool::get_by`: a reference, which takes the visitor with it.
    ///
    /// # Errors
    ///
    /// The visitor, where the key is marked or not published, or the number is no key of the pool.
    pub fn get(self, key: u64) -> Result<Visit<'p, N, T>, Visitor<'p, N, T>>
        ensures outside { IfErr result (λ after. is_key N.pool.shape key ≡ false → after.guest ≡ self.entry.guest) }
        ensures key { IfOk result (λ visit. (is_key N.pool.shape key ≡ true) × (visit.reference.key ≡ key)) }
        ensures gets { IfOk result (λ visit. (content : List ℕ)
            × Visits (acts.Get self.entry.guest.number key (Some content) ∷ []) 1 2 self.entry.guest visit.reference.guest) }
        ensures found { IfOk result (λ visit. Found key self.entry.guest visit.reference.guest) }
        ensures misses { IfErr result (λ after. is_key N.pool.shape key ≡ true
            → Settles (place_of key) (acts.Get self.entry.guest.number key None ∷ []) 4 4 self.entry.guest after.guest) }
        ensures missed { IfErr result (λ after. is_key N.pool.shape key ≡ true → Missed key self.entry.guest after.guest) }
    {
        let Visitor { pool, guest, of: _ } = self;
        match pool.get_by(guest, key) {
            Ok(reference) => Ok(Visit {
                pool,
                reference,
                of: PhantomData,
            }),
            Err(guest) => Err(Visitor {
                pool,
                guest,
                of: PhantomData,
            }),
        }
    }

    /// Clears a key, as `Pool::clear_by`: true where it is this call that marked it.
    pub fn clear(self, key: u64) -> (bool, Visitor<'p, N, T>)
        ensures outside { is_key N.pool.shape key ≡ false → (result.0 ≡ false) × (result.1.guest ≡ self.entry.guest) }
        ensures clears { is_key N.pool.shape key ≡ true → Settles (place_of key)
            (acts.Clear self.entry.guest.number key result.0 ∷ []) 5 6 self.entry.guest result.1.guest }
        ensures cleared { IsTrue result.0 → Cleared key self.entry.guest result.1.guest }
        ensures missed { IsFalse result.0 → is_key N.pool.shape key ≡ true → Missed key self.entry.guest result.1.guest }
    {
        let Visitor { pool, guest, of: _ } = self;
        let (cleared, guest) = pool.clear_by(guest, key);
        let after = Visitor {
            pool,
            guest,
            of: PhantomData,
        };
        (cleared, after)
    }
}

impl<'p, N: PoolName, T: Clear + Drop> Visit<'p, N, T> {
    /// The key.
    pub fn key(&self) -> u64
        ensures { result ≡ self.now.reference.key }
    {
        self.reference.key()
    }

    /// The object, whose content is that with which the key was published.
    pub fn read(&self) -> &T
        ensures { (j : ℕ) × PublishedAt self.now.reference.guest.book.seen j self.now.reference.key (T.content result.now) }
    {
        self.reference.read()
    }

    /// Gives the reference back, as `Pool::release_of`, and answers the visitor.
    pub fn release(self) -> Visitor<'p, N, T>
        ensures { Settles (place_of self.entry.reference.key)
            (acts.Release self.entry.reference.guest.number self.entry.reference.key ∷ []) 3 6 self.entry.reference.guest result.guest }
    {
        let Visit {
            pool,
            reference,
            of: _,
        } = self;
        Visitor {
            pool,
            guest: pool.release_of(reference),
            of: PhantomData,
        }
    }
}
