//! A lane together with its pool, for a thread that does its work with that lane alone.
ghost use Rattle.std.specs.Prelude.{◌≡◌, ◌≢◌, ◌⊎◌, ◌<◌, ◌≤◌, ℕ, List, [], ◌∷◌, ◌++◌, true, false, IfOk, IsErr, IsErrOf, IfSome, IsSome, IsNone, IsTrue, Contains, if◌then◌else◌};
ghost use Rattle.std.specs.Fn.{FnOnceReturnsAt};
ghost use Rattle.keybits.specs.Keys.{is_key};
ghost use Rattle.seqpool.specs.declared.act.Act.TheVariants as acts;
ghost use Rattle.seqpool.specs.Pool.{IsLegal};
ghost use Rattle.steplaws.specs.Calls.Call.{Publishing};
ghost use Rattle.poolsteps.specs.Owners.{ArePublishedByOwners};
ghost use Rattle.poolsteps.specs.Seats.{looked_once};
ghost use Rattle.shardpool.specs.Tokens.{FillingOf};
ghost use Rattle.shardpool.specs.Lanes.{Owns, Made, Calls, Did, holds, refs};
ghost use Rattle.shardpool.specs.Seen.{ClearedSince};
ghost use Rattle.shardpool.specs.Creates.{Gives, GivesNone};
ghost use Rattle.shardpool.specs.declared.create.CreateFault.TheVariants.{Full, Memory};
ghost use Rattle.poollaws.specs.Words.{IsPublished, IsCleared, IsGone};
ghost use Rattle.poollaws.specs.Cleared.{cleared_by};
ghost use Rattle.poollaws.specs.Rooms.{KnowsRoom};
ghost use Rattle.guards.specs.Guarded.{Uses};
ghost use Rattle.guards.specs.Several.{Missed, UsesAll, TriesAll};
ghost use Rattle.guards.specs.Seated.{GoesOn, Keeps, IsNextOf, Puts, CreatesSuch, CreatesAtMost, Clears, Hears};

use crate::closures::with;
use crate::contents::Contents;
use crate::named::PoolName;
use crate::several::{with_four, with_three, with_two};
use crate::told::Told;
use poollaws::room_kept_law;
use seqpool::once_law;
use shardpool::{CreateFault, Filling, Lane, Pool};
use slotcell::Clear;
use std::marker::PhantomData;

/// A lane of the pool that `N` names, with that pool. Between its calls it has no reference.
#[derive(Drop)]
pub struct Seat<'p, N: PoolName, T: Clear> {
    pool: &'p Pool<T>,
    lane: Lane<T>,
    of: PhantomData<N>,
    ghost pool_is: { pool.now ≡ N.pool },
    ghost table: { lane.table ≡ N.pool.table },
    ghost directory: { lane.directory ≡ N.pool.directory },
    ghost shape: { lane.shape ≡ N.pool.shape },
    ghost unburdened: { refs lane ≡ 0 },
}

impl<'p, N: PoolName, T: Clear + Drop> Seat<'p, N, T> {
    /// The seat of a lane.
    pub fn new(pool: &'p Pool<T>, lane: Lane<T>) -> Seat<'p, N, T>
        requires pool { pool.now ≡ N.pool }
        requires owns { Owns N.pool lane }
        requires none { refs lane ≡ 0 }
        ensures { result.lane ≡ lane }
    {
        Seat {
            pool,
            lane,
            of: PhantomData,
        }
    }

    /// The lane.
    pub fn into_lane(self) -> Lane<T>
        ensures lane { result ≡ self.entry.lane }
        ensures owns { Owns N.pool result }
        ensures none { refs result ≡ 0 }
    {
        self.lane
    }

    /// The lane's number.
    pub fn number(&self) -> u32
        ensures { result ≡ self.now.lane.number }
    {
        self.lane.number()
    }

    /// As a law: what the lane has seen is a legal history of the pool, and each publish in it is by the owner of its
    /// place's shard.
    pub fn seen_law(&self)
        ensures legal { IsLegal N.pool.shape self.now.lane.book.seen }
        ensures owners { ArePublishedByOwners self.now.lane.book.seen }
    {
        self.lane.seen_law();
    }

    /// A place to be filled, as `Pool::create` gives it. Its object is empty, and has the room that it had under the
    /// key before.
    ///
    /// # Errors
    ///
    /// As `Pool::create`.
    pub fn create(&mut self) -> Result<Filling<T>, CreateFault>
        ensures gives { IfOk result (Gives T.content T.room self.old.lane self.new.lane) }
        ensures made { IfOk result (λ filling. Made self.new.lane filling) }
        ensures empty { IfOk result (λ filling. T.content filling.object ≡ []) }
        ensures room { IfOk result (λ filling. (last size : ℕ) → KnowsRoom self.old.lane last size → IsNextOf filling last
            → size ≤ T.room filling.object) }
        ensures none { IsErr result → GivesNone self.old.lane self.new.lane }
        ensures full { IsErrOf result Full → self.old.lane.pages.opened ≡ N.pool.shape.pages }
        ensures memory { IsErrOf result Memory → self.old.lane.pages.opened < N.pool.shape.pages }
        ensures apart { IfOk result (λ filling. (other : FillingOf T) → Made self.old.lane other → other.key ≢ filling.key) }
        ensures keeps { Keeps T self.old.lane self.new.lane }
        ensures none_cleared { cleared_by self.new.lane ≡ cleared_by self.old.lane }
        ensures number { self.new.lane.number ≡ self.old.lane.number }
        ensures goes { GoesOn self.old.lane self.new.lane }
    {
        room_kept_law::<T>();
        self.pool.create(&mut self.lane)
    }

    /// Publishes a filling. Answers its key.
    pub fn publish(&mut self, filling: Filling<T>) -> u64
        requires made { Made self.old.lane filling }
        ensures key { result ≡ filling.key }
        ensures called { Calls N.pool.shape (Publishing filling.key (T.content filling.object) false) self.old.lane.book
            self.new.lane.book }
        ensures publishes { Did (acts.Publish self.old.lane.number filling.key (T.content filling.object) false
            ∷ []) self.old.lane self.new.lane }
        ensures published { IsPublished self.new.lane.book.seen filling.key (T.content filling.object) }
        ensures room { KnowsRoom self.new.lane filling.key (T.room filling.object) }
        ensures fillings { (other : FillingOf T) → other.key ≢ filling.key → Made self.old.lane other → Made self.new.lane other }
        ensures held { (key : ℕ) → holds self.new.lane key ≡ holds self.old.lane key }
        ensures none_cleared { cleared_by self.new.lane ≡ cleared_by self.old.lane }
        ensures number { self.new.lane.number ≡ self.old.lane.number }
        ensures goes { GoesOn self.old.lane self.new.lane }
    {
        let key = self.pool.publish(&mut self.lane, filling);
        self.lane.seen_law();
        key
    }

    /// Publishes an object with this content. Answers its key.
    ///
    /// # Errors
    ///
    /// As `Pool::create`; `Memory`, too, where it was refused for the content. Nothing is then published; and where it
    /// was refused for the content, the place is lost until the pool is closed.
    pub fn put<C: Contents<T>>(&mut self, contents: &C) -> Result<u64, CreateFault>
        ensures puts { IfOk result (Puts T.content T.room N.pool.shape (C.content contents.now) self.old.lane self.new.lane) }
        ensures published { IfOk result (λ key. IsPublished self.new.lane.book.seen key (C.content contents.now)) }
        ensures none { IsErr result → CreatesAtMost T.content T.room self.old.lane self.new.lane }
        ensures full { IsErrOf result Full → GivesNone self.old.lane self.new.lane × (self.old.lane.pages.opened ≡ N.pool.shape.pages) }
        ensures memory { IsErrOf result Memory → (GivesNone self.old.lane self.new.lane × (self.old.lane.pages.opened < N.pool.shape.pages))
            ⊎ CreatesSuch (C.may_refuse contents.now) T.content T.room self.old.lane self.new.lane }
        ensures keeps { Keeps T self.old.lane self.new.lane }
        ensures none_cleared { cleared_by self.new.lane ≡ cleared_by self.old.lane }
        ensures number { self.new.lane.number ≡ self.old.lane.number }
        ensures goes { GoesOn self.old.lane self.new.lane }
    {
        let mut filling = self.create()?;
        if contents.write(filling.value_mut()).is_err() {
            self.lane.leave(filling);
            return Err(CreateFault::Memory);
        }
        Ok(self.publish(filling))
    }

    /// Looks at the object of a key. None, without a look, where the key isn't published, or is cleared.
    pub fn with<A, F: FnOnce(&T) -> A>(&mut self, key: u64, look: F) -> Option<A>
        requires may { F.IsAlwaysCallable look }
        ensures some { IfSome result (λ answer. (object : T) × FnOnceReturnsAt F.FnOnce look object answer
            × IsPublished self.new.lane.book.seen key (T.content object)
            × ((content : List ℕ) → IsPublished self.old.lane.book.seen key content → T.content object ≡ content)) }
        ensures uses { IsSome result → Uses key self.old.lane self.new.lane }
        ensures misses { IsNone result → Missed N.pool.shape key self.old.lane self.new.lane }
        ensures outside { is_key N.pool.shape key ≡ false → IsNone result }
        ensures missed { IsNone result → IsGone self.old.lane.book.seen self.new.lane.book.seen key }
        ensures cleared { IsCleared self.old.lane.book.seen key → IsNone result }
        ensures keeps { Keeps T self.old.lane self.new.lane }
        ensures number { self.new.lane.number ≡ self.old.lane.number }
        ensures goes { GoesOn self.old.lane self.new.lane }
    {
        let answer = with(self.pool, &mut self.lane, key, look);
        self.lane.seen_law();
        once_law();
        answer
    }

    /// Looks at the objects of two keys at once. None, without a look, where one of them isn't published, or is
    /// cleared.
    pub fn with_two<A, F: FnOnce(&T, &T) -> A>(&mut self, keys: (u64, u64), look: F) -> Option<A>
        requires may { F.IsAlwaysCallable look }
        ensures some { IfSome result (λ answer. (x : _) × (y : _) × F.post look x y answer
            × IsPublished self.new.lane.book.seen keys.0 (T.content x.now)
            × IsPublished self.new.lane.book.seen keys.1 (T.content y.now)) }
        ensures uses { IsSome result → UsesAll N.pool.shape (keys.0 ∷ keys.1 ∷ []) self.old.lane self.new.lane }
        ensures tries { IsNone result → TriesAll N.pool.shape (keys.0 ∷ keys.1 ∷ []) self.old.lane self.new.lane }
        ensures gone { IsNone result → (key : ℕ) × Contains (keys.0 ∷ keys.1 ∷ []) key
            × IsGone self.old.lane.book.seen self.new.lane.book.seen key }
        ensures keeps { Keeps T self.old.lane self.new.lane }
        ensures number { self.new.lane.number ≡ self.old.lane.number }
        ensures goes { GoesOn self.old.lane self.new.lane }
    {
        with_two(self.pool, &mut self.lane, keys, look)
    }

    /// As `with_two`, with three keys.
    pub fn with_three<A, F: FnOnce(&T, &T, &T) -> A>(
        &mut self,
        keys: (u64, u64, u64),
        look: F,
    ) -> Option<A>
        requires may { F.IsAlwaysCallable look }
        ensures some { IfSome result (λ answer. (x : _) × (y : _) × (z : _) × F.post look x y z answer
            × IsPublished self.new.lane.book.seen keys.0 (T.content x.now)
            × IsPublished self.new.lane.book.seen keys.1 (T.content y.now)
            × IsPublished self.new.lane.book.seen keys.2 (T.content z.now)) }
        ensures uses { IsSome result → UsesAll N.pool.shape (keys.0 ∷ keys.1 ∷ keys.2 ∷ []) self.old.lane self.new.lane }
        ensures tries { IsNone result → TriesAll N.pool.shape (keys.0 ∷ keys.1 ∷ keys.2 ∷ []) self.old.lane self.new.lane }
        ensures gone { IsNone result → (key : ℕ) × Contains (keys.0 ∷ keys.1 ∷ keys.2 ∷ []) key
            × IsGone self.old.lane.book.seen self.new.lane.book.seen key }
        ensures keeps { Keeps T self.old.lane self.new.lane }
        ensures number { self.new.lane.number ≡ self.old.lane.number }
        ensures goes { GoesOn self.old.lane self.new.lane }
    {
        with_three(self.pool, &mut self.lane, keys, look)
    }

    /// As `with_two`, with four keys.
    pub fn with_four<A, F: FnOnce(&T, &T, &T, &T) -> A>(
        &mut self,
        keys: (u64, u64, u64, u64),
        look: F,
    ) -> Option<A>
        requires may { F.IsAlwaysCallable look }
        ensures some { IfSome result (λ answer. (x : _) × (y : _) × (z : _) × (w : _) × F.post look x y z w answer
            × IsPublished self.new.lane.book.seen keys.0 (T.content x.now)
            × IsPublished self.new.lane.book.seen keys.1 (T.content y.now)
            × IsPublished self.new.lane.book.seen keys.2 (T.content z.now)
            × IsPublished self.new.lane.book.seen keys.3 (T.content w.now)) }
        ensures uses { IsSome result → UsesAll N.pool.shape (keys.0 ∷ keys.1 ∷ keys.2 ∷ keys.3 ∷ []) self.old.lane self.new.lane }
        ensures tries { IsNone result → TriesAll N.pool.shape (keys.0 ∷ keys.1 ∷ keys.2 ∷ keys.3 ∷ []) self.old.lane self.new.lane }
        ensures gone { IsNone result → (key : ℕ) × Contains (keys.0 ∷ keys.1 ∷ keys.2 ∷ keys.3 ∷ []) key
            × IsGone self.old.lane.book.seen self.new.lane.book.seen key }
        ensures keeps { Keeps T self.old.lane self.new.lane }
        ensures number { self.new.lane.number ≡ self.old.lane.number }
        ensures goes { GoesOn self.old.lane self.new.lane }
    {
        with_four(self.pool, &mut self.lane, keys, look)
    }

    /// Clears a key: true where it is this call that marked it. After it the key is cleared, if it was published
    /// before.
    pub fn clear(&mut self, key: u64) -> bool
        ensures clears { is_key N.pool.shape key ≡ true → Clears N.pool.shape key result self.old.lane self.new.lane }
        ensures outside { is_key N.pool.shape key ≡ false → (result ≡ false) × (self.new.lane ≡ self.old.lane) }
        ensures cleared { IsTrue result → ClearedSince key self.old.lane self.new.lane }
        ensures gone { IsGone self.old.lane.book.seen self.new.lane.book.seen key }
        ensures keeps { Keeps T self.old.lane self.new.lane }
        ensures key_cleared { cleared_by self.new.lane ≡ cleared_by self.old.lane ++ (if result then key ∷ [] else []) }
        ensures number { self.new.lane.number ≡ self.old.lane.number }
        ensures goes { GoesOn self.old.lane self.new.lane }
    {
        self.pool.clear(&mut self.lane, key)
    }

    /// Tells of a key that the lane has seen published.
    pub fn tell(&mut self, key: u64) -> Told<N, T>
        requires published { (content : List ℕ) × IsPublished self.old.lane.book.seen key content }
        ensures key { result.key ≡ key }
        ensures content { (content : List ℕ) → IsPublished self.old.lane.book.seen key content → result.content ≡ content }
        ensures lane { self.new.lane ≡ record self.old.lane { book = looked_once self.old.lane.book } }
        ensures keeps { Keeps T self.old.lane self.new.lane }
        ensures none_cleared { cleared_by self.new.lane ≡ cleared_by self.old.lane }
        ensures number { self.new.lane.number ≡ self.old.lane.number }
        ensures goes { GoesOn self.old.lane self.new.lane }
    {
        self.lane.seen_law();
        once_law();
        let note = self.pool.tell(&mut self.lane);
        Told::of(key, note)
    }

    /// Hears of a key. Answers it.
    pub fn hear(&mut self, told: Told<N, T>) -> u64
        ensures key { result ≡ told.key }
        ensures hears { Hears self.old.lane self.new.lane }
        ensures published { IsPublished self.new.lane.book.seen told.key told.content }
        ensures keeps { Keeps T self.old.lane self.new.lane }
        ensures none_cleared { cleared_by self.new.lane ≡ cleared_by self.old.lane }
        ensures number { self.new.lane.number ≡ self.old.lane.number }
        ensures goes { GoesOn self.old.lane self.new.lane }
    {
        let (key, note) = told.into_parts();
        self.pool.hear(&mut self.lane, note);
        key
    }
}
