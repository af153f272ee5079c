//! Calls of a pool that take a closure for what happens in between.
ghost use Rattle.std.specs.Prelude.{◌≡◌, ◌≢◌, ◌<◌, ◌⊎◌, ℕ, [], true, false, None, IfOk, IsOk, IsErr, IsErrOf, IsNone, IsSome, IfSome, MatchOption};
ghost use Rattle.std.specs.Fn.{FnOnceReturnsAt, FnOnceTakesAtMut};
ghost use mathlib.Core.List.{IsPrefix};
ghost use Rattle.keybits.specs.Keys.{is_key};
ghost use Rattle.steplaws.specs.Calls.Call.{Getting};
ghost use Rattle.steplaws.specs.Facts.{most_references};
ghost use Rattle.seqpool.specs.Histories.{PublishedAt};
ghost use Rattle.shardpool.specs.Tokens.{FillingOf};
ghost use Rattle.shardpool.specs.Lanes.{Owns, Made, SameLane, Calls, Gets, holds, refs};
ghost use Rattle.shardpool.specs.Seen.{FoundSince, MissedSince};
ghost use Rattle.shardpool.specs.Creates.{GivesNone};
ghost use Rattle.shardpool.specs.declared.create.CreateFault.TheVariants.{Full, Memory};
ghost use Rattle.guards.specs.Guarded.{CreatesWith, Uses};

use shardpool::{CreateFault, Lane, Pool};
use slotcell::Clear;

/// Creates, calls `f` on the object, which is empty, and publishes what `f` left. Answers the key.
///
/// # Errors
///
/// As `Pool::create`. `f` is then not called, and nothing is published.
pub fn create_with<T: Clear + Drop, F: FnOnce(&mut T)>(
    pool: &Pool<T>,
    lane: &mut Lane<T>,
    f: F,
) -> Result<u64, CreateFault>
    requires owns { Owns pool.now lane.old }
    requires may { (object : T) → T.content object ≡ [] → FnOnceTakesAtMut F.FnOnce f object }
    ensures owns { Owns pool.now lane.new }
    ensures same { SameLane lane.old lane.new }
    ensures creates { IfOk result (CreatesWith T.content T.room F.FnOnce f lane.old lane.new) }
    ensures seen { IsPrefix lane.old.book.seen lane.new.book.seen }
    ensures none { IsErr result → GivesNone lane.old lane.new }
    ensures full { IsErrOf result Full → lane.old.pages.opened ≡ lane.old.shape.pages }
    ensures memory { IsErrOf result Memory → lane.old.pages.opened < lane.old.shape.pages }
    ensures succeeds { ((lane.old.free.own ≢ []) ⊎ IsSome lane.old.free.chain) → IsOk result }
    ensures refs { refs lane.new ≡ refs lane.old }
    ensures holds { (key : ℕ) → holds lane.new key ≡ holds lane.old key }
    ensures fillings { (filling : FillingOf T) → Made lane.old filling → Made lane.new filling }
{
    let mut filling = pool.create(lane)?;
    f(filling.value_mut());
    Ok(pool.publish(lane, filling))
}

/// Gets a key, calls `f` on its object, and gives the reference back. None, and `f` is not called, where the get finds
/// none.
pub fn with<T: Clear + Drop, R, F: FnOnce(&T) -> R>(
    pool: &Pool<T>,
    lane: &mut Lane<T>,
    key: u64,
    f: F,
) -> Option<R>
    requires owns { Owns pool.now lane.old }
    requires room { refs lane.old < most_references }
    requires may { F.IsAlwaysCallable f }
    ensures owns { Owns pool.now lane.new }
    ensures same { SameLane lane.old lane.new }
    ensures outside { is_key pool.now.shape key ≡ false → IsNone result × (lane.new ≡ lane.old) }
    ensures some { IfSome result (λ r. (x : T) × (j : ℕ) × PublishedAt lane.new.book.seen j key (T.content x)
        × FnOnceReturnsAt F.FnOnce f x r) }
    ensures found { IsSome result → FoundSince key lane.old lane.new }
    ensures missed { IsNone result → MissedSince key lane.old lane.new }
    ensures seen { IsPrefix lane.old.book.seen lane.new.book.seen }
    ensures called { IsNone result → is_key pool.now.shape key ≡ true → Calls pool.now.shape (Getting key) lane.old.book lane.new.book }
    ensures gets { is_key pool.now.shape key ≡ true
        → MatchOption result (Gets key lane.old lane.new None) (λ _. Uses key lane.old lane.new) }
    ensures refs { refs lane.new ≡ refs lane.old }
    ensures holds { (other : ℕ) → holds lane.new other ≡ holds lane.old other }
    ensures fillings { (filling : FillingOf T) → Made lane.old filling → Made lane.new filling }
{
    let reference = pool.get(lane, key)?;
    let answer = f(lane.read(&reference));
    pool.release(lane, reference);
    Some(answer)
}
