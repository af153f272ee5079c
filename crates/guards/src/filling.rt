//! Fillings that are published by themselves.
ghost use Rattle.std.specs.Prelude.{◌≡◌, ◌≢◌, ◌==◌, ◌+◌, ◌<◌, ◌⊎◌, ℕ, true, false, Some, [], ◌∷◌, IsOk, IsErr, IsErrOf, IfOk, IsSome, if◌then◌else◌};
ghost use Rattle.std.specs.Borrow.{sem, RestsIfErr};
ghost use Rattle.shardpool.specs.contracts.pool.Lane.{the_row};
ghost use mathlib.Core.List.{IsPrefix};
ghost use Rattle.keybits.specs.Keys.{place_of};
ghost use Rattle.seqpool.specs.declared.act.Act.TheVariants as acts;
ghost use Rattle.poolsteps.specs.Shares.{room_of};
ghost use Rattle.steplaws.specs.Calls.Call.{Publishing};
ghost use Rattle.steplaws.specs.Facts.{most_references};
ghost use Rattle.shardpool.specs.Tokens.{FillingOf};
ghost use Rattle.shardpool.specs.Lanes.{Owns, Made, SameLane, Calls, Did, holds, refs};
ghost use Rattle.shardpool.specs.Seen.{PublishedSince};
ghost use Rattle.shardpool.specs.Creates.{Gives};
ghost use Rattle.shardpool.specs.declared.create.CreateFault.TheVariants.{Full, Memory};
ghost use Rattle.guards.specs.Guarded.{MayRelease, MayPublish, Refuses};

use crate::reading::ReadGuard;
use shardpool::{CreateFault, Filling, Lane, Pool};
use slotcell::Clear;

/// What a guard publishes: a filling. By this trait a proof sees what the drop of a guard does to its lane.
pub trait Fills<T: Clear + Drop> {
    ghost filling: { Self → FillingOf T };

    /// The filling.
    fn give(self) -> Filling<T>
        ensures { result ≡ filling self };
}

impl<T: Clear + Drop> Fills<T> for Filling<T> {
    ghost filling = { λ held. held };

    fn give(self) -> Filling<T> {
        self
    }
}

/// A place that a lane fills, which is published where the guard is dropped. The lane is the guard's as long as it
/// lives.
pub struct FillGuard<'a, T: Clear + Drop, F: Fills<T> = Filling<T>> {
    lane: &'a mut Lane<T>,
    pool: &'a Pool<T>,
    filling: F,
}

impl<'a, T: Clear + Drop> FillGuard<'a, T> {
    ghost use Rattle.guards.specs.Fills.{LendsGuarded};

    /// Creates. The object is empty.
    ///
    /// # Errors
    ///
    /// As `Pool::create`. The lane is then as a create that gave no place left it.
    pub fn new(lane: &'a mut Lane<T>, pool: &'a Pool<T>) -> Result<FillGuard<'a, T>, CreateFault>
        requires owns { Owns pool.now lane.old }
        ensures* refuses { sem 𝓛 (RestsIfErr (the_row T.row T.Clear) lane.entry (λ guard. guard.lane.ghost_name) result
            (Refuses T.row.Denot pool.now lane.old)) }
        ensures same_reference { IfOk result (λ guard. guard.lane.ghost_name ≡ lane.entry.ghost_name) }
        ensures pool { IfOk result (λ guard. guard.pool.now ≡ pool.now) }
        ensures may { IfOk result (λ guard. MayPublish guard.pool.now guard.lane.now guard.filling) }
        ensures gives { IfOk result (λ guard. Gives T.content T.room lane.old guard.lane.now guard.filling) }
        ensures apart { IfOk result (λ guard. (other : FillingOf T) → Made lane.old other → other.key ≢ guard.filling.key) }
        ensures seen { IfOk result (λ guard. IsPrefix lane.old.book.seen guard.lane.now.book.seen) }
        ensures same { IfOk result (λ guard. SameLane lane.old guard.lane.now) }
        ensures refs { IfOk result (λ guard. refs guard.lane.now ≡ refs lane.old) }
        ensures full { IsErrOf result Full → lane.old.pages.opened ≡ lane.old.shape.pages }
        ensures memory { IsErrOf result Memory → lane.old.pages.opened < lane.old.shape.pages }
        ensures succeeds { ((lane.old.free.own ≢ []) ⊎ IsSome lane.old.free.chain) → IsOk result }
        ensures fillings { IfOk result (λ guard. (filling : FillingOf T) → Made lane.old filling → Made guard.lane.now filling) }
    {
        let filling = pool.create(lane)?;
        Ok(FillGuard::of(lane, pool, filling))
    }

    /// The guard of a filling.
    fn of(lane: &'a mut Lane<T>, pool: &'a Pool<T>, filling: Filling<T>) -> FillGuard<'a, T>
        ensures same_reference { result.lane.ghost_name ≡ lane.entry.ghost_name }
        ensures parts { (result.lane.now ≡ lane.old) × (result.pool.now ≡ pool.now) × (result.filling ≡ filling) }
    {
        FillGuard {
            lane,
            pool,
            filling,
        }
    }

    /// The key under which the object will be published.
    pub fn key(&self) -> u64
        ensures { result ≡ self.now.filling.key }
    {
        self.filling.key()
    }

    /// The object.
    pub fn value(&self) -> &T
        ensures { result.now ≡ self.now.filling.object }
    {
        self.filling.value()
    }

    /// The object, to be written.
    pub fn value_mut(&mut self) -> &mut T
        ensures* writes_back { sem 𝓛 (LendsGuarded T.row T.Clear self.entry result) }
        ensures object { result.now ≡ self.old.filling.object }
    {
        self.filling.value_mut()
    }

    /// Publishes with a reference, which is then the guard's.
    pub fn downgrade(self) -> ReadGuard<'a, T>
        requires may { MayPublish self.pool.now self.lane.now self.filling }
        requires room { refs self.lane.now < most_references }
        ensures same_reference { result.lane.ghost_name ≡ self.entry.lane.ghost_name }
        ensures pool { result.pool.now ≡ self.entry.pool.now }
        ensures key { result.reference.key ≡ self.entry.filling.key }
        ensures may { MayRelease result.pool.now result.lane.now result.reference }
        ensures called { Calls self.entry.pool.now.shape (Publishing self.entry.filling.key (T.content self.entry.filling.object) true)
            self.entry.lane.now.book result.lane.now.book }
        ensures publishes { Did (acts.Publish self.entry.lane.now.number self.entry.filling.key (T.content self.entry.filling.object) true
            ∷ []) self.entry.lane.now result.lane.now }
        ensures published { PublishedSince self.entry.filling.key (T.content self.entry.filling.object) true self.entry.lane.now
            result.lane.now }
        ensures seen { IsPrefix self.entry.lane.now.book.seen result.lane.now.book.seen }
        ensures same { SameLane self.entry.lane.now result.lane.now }
        ensures refs { refs result.lane.now ≡ refs self.entry.lane.now + 1 }
        ensures holds { (other : ℕ) → holds result.lane.now other
            ≡ (if self.entry.filling.key == other then holds self.entry.lane.now other + 1 else holds self.entry.lane.now other) }
        ensures room { room_of result.lane.now.book.seen result.lane.now.book.rooms (place_of self.entry.filling.key)
            ≡ T.room self.entry.filling.object }
        ensures fillings { (other : FillingOf T) → other.key ≢ self.entry.filling.key → Made self.entry.lane.now other
            → Made result.lane.now other }
    {
        let FillGuard {
            lane,
            pool,
            filling,
        } = self;
        let reference = pool.downgrade(lane, filling);
        ReadGuard::of(lane, pool, reference)
    }
}

impl<'a, T: Clear + Drop, F: Fills<T>> Drop for FillGuard<'a, T, F> {
    fn drop(self)
        requires may { MayPublish self.pool.now self.lane.now (F.filling self.filling) }
        ensures owns { Owns self.entry.pool.now self.exit.0.now }
        ensures called { Calls self.entry.pool.now.shape
            (Publishing (F.filling self.entry.filling).key (T.content (F.filling self.entry.filling).object) false)
            self.entry.lane.now.book self.exit.0.now.book }
        ensures publishes { Did (acts.Publish self.entry.lane.now.number (F.filling self.entry.filling).key
            (T.content (F.filling self.entry.filling).object) false ∷ []) self.entry.lane.now self.exit.0.now }
        ensures published { PublishedSince (F.filling self.entry.filling).key (T.content (F.filling self.entry.filling).object) false
            self.entry.lane.now self.exit.0.now }
        ensures seen { IsPrefix self.entry.lane.now.book.seen self.exit.0.now.book.seen }
        ensures same { SameLane self.entry.lane.now self.exit.0.now }
        ensures refs { refs self.exit.0.now ≡ refs self.entry.lane.now }
        ensures holds { (key : ℕ) → holds self.exit.0.now key ≡ holds self.entry.lane.now key }
        ensures room { room_of self.exit.0.now.book.seen self.exit.0.now.book.rooms (place_of (F.filling self.entry.filling).key)
            ≡ T.room (F.filling self.entry.filling).object }
        ensures fillings { (other : FillingOf T) → other.key ≢ (F.filling self.entry.filling).key → Made self.entry.lane.now other
            → Made self.exit.0.now other }
    {
        let FillGuard {
            lane,
            pool,
            filling,
        } = self;
        pool.publish(lane, filling.give());
    }
}
