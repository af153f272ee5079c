//! References that are given back by themselves.
ghost use Rattle.std.specs.Prelude.{◌≡◌, ◌==◌, ◌+◌, ◌-◌, ◌<◌, ℕ, true, Some, IsSome, IfSome, List, ◌∷◌, if◌then◌else◌};
ghost use mathlib.Core.List.{IsPrefix};
ghost use Rattle.keybits.specs.Keys.{is_key};
ghost use Rattle.seqpool.specs.declared.act.Act.{Act};
ghost use Rattle.seqpool.specs.declared.act.Act.TheVariants as acts;
ghost use Rattle.seqpool.specs.Histories.{PublishedAt};
ghost use Rattle.steplaws.specs.Calls.Call.{Getting, Releasing};
ghost use Rattle.steplaws.specs.Facts.{most_references};
ghost use Rattle.shardpool.specs.Tokens.{FillingOf};
ghost use Rattle.shardpool.specs.Lanes.{Owns, Made, SameLane, Calls, Did, Gets, holds, refs};
ghost use Rattle.shardpool.specs.Seen.{FoundSince};
ghost use Rattle.std.specs.Borrow.{sem, RestsIfNone};
ghost use Rattle.shardpool.specs.contracts.pool.Lane.{the_row};
ghost use Rattle.guards.specs.Guarded.{MayRelease, Misses};

use shardpool::{Lane, Pool, Ref};
use slotcell::Clear;

/// A reference of a lane, which is released where the guard is dropped. The lane is the guard's as long as it lives.
pub struct ReadGuard<'a, T: Clear + Drop> {
    lane: &'a mut Lane<T>,
    pool: &'a Pool<T>,
    reference: Ref<T>,
}

impl<'a, T: Clear + Drop> ReadGuard<'a, T> {
    /// Gets a key. None where the get finds none; the lane is then as that get left it.
    pub fn new(lane: &'a mut Lane<T>, pool: &'a Pool<T>, key: u64) -> Option<ReadGuard<'a, T>>
        requires owns { Owns pool.now lane.old }
        requires room { refs lane.old < most_references }
        ensures* misses { sem 𝓛 (RestsIfNone (the_row T.row T.Clear) lane.entry (λ guard. guard.lane.ghost_name) result
            (Misses T.row.Denot pool.now key lane.old)) }
        ensures same_reference { IfSome result (λ guard. guard.lane.ghost_name ≡ lane.entry.ghost_name) }
        ensures pool { IfSome result (λ guard. guard.pool.now ≡ pool.now) }
        ensures may { IfSome result (λ guard. MayRelease guard.pool.now guard.lane.now guard.reference) }
        ensures inside { IsSome result → is_key pool.now.shape key ≡ true }
        ensures called { IfSome result (λ guard. Calls pool.now.shape (Getting key) lane.old.book guard.lane.now.book) }
        ensures gets { IfSome result (λ guard. Gets key lane.old guard.lane.now (Some guard.reference)) }
        ensures found { IfSome result (λ guard. FoundSince key lane.old guard.lane.now) }
        ensures seen { IfSome result (λ guard. IsPrefix lane.old.book.seen guard.lane.now.book.seen) }
        ensures same { IfSome result (λ guard. SameLane lane.old guard.lane.now) }
        ensures refs { IfSome result (λ guard. refs guard.lane.now ≡ refs lane.old + 1) }
        ensures holds { IfSome result (λ guard. (other : ℕ)
            → holds guard.lane.now other ≡ (if key == other then holds lane.old other + 1 else holds lane.old other)) }
        ensures fillings { IfSome result (λ guard. (filling : FillingOf T) → Made lane.old filling → Made guard.lane.now filling) }
    {
        let reference = pool.get(lane, key)?;
        Some(ReadGuard::of(lane, pool, reference))
    }

    /// The guard of a reference.
    pub(crate) fn of(
        lane: &'a mut Lane<T>,
        pool: &'a Pool<T>,
        reference: Ref<T>,
    ) -> ReadGuard<'a, T>
        ensures same_reference { result.lane.ghost_name ≡ lane.entry.ghost_name }
        ensures parts { (result.lane.now ≡ lane.old) × (result.pool.now ≡ pool.now) × (result.reference ≡ reference) }
    {
        ReadGuard {
            lane,
            pool,
            reference,
        }
    }

    /// The key.
    pub fn key(&self) -> u64
        ensures { result ≡ self.now.reference.key }
    {
        self.reference.key()
    }

    /// The object of the key: its content is that with which the key was published.
    pub fn value(&self) -> &T
        requires may { MayRelease self.now.pool.now self.now.lane.now self.now.reference }
        ensures { (j : ℕ) × PublishedAt self.now.lane.now.book.seen j self.now.reference.key (T.content result.now) }
    {
        self.lane.read(&self.reference)
    }
}

impl<'a, T: Clear + Drop> Drop for ReadGuard<'a, T> {
    fn drop(self)
        requires may { MayRelease self.pool.now self.lane.now self.reference }
        ensures owns { Owns self.entry.pool.now self.exit.0.now }
        ensures called { Calls self.entry.pool.now.shape (Releasing self.entry.reference.key) self.entry.lane.now.book
            self.exit.0.now.book }
        ensures releases { (rest : List Act)
            × Did (acts.Release self.entry.lane.now.number self.entry.reference.key ∷ rest) self.entry.lane.now self.exit.0.now }
        ensures seen { IsPrefix self.entry.lane.now.book.seen self.exit.0.now.book.seen }
        ensures same { SameLane self.entry.lane.now self.exit.0.now }
        ensures refs { refs self.exit.0.now + 1 ≡ refs self.entry.lane.now }
        ensures holds { (other : ℕ) → holds self.exit.0.now other
            ≡ (if self.entry.reference.key == other then holds self.entry.lane.now other - 1 else holds self.entry.lane.now other) }
        ensures fillings { (filling : FillingOf T) → Made self.entry.lane.now filling → Made self.exit.0.now filling }
    {
        let ReadGuard {
            lane,
            pool,
            reference,
        } = self;
        pool.release(lane, reference);
    }
}
