//! Calls of a pool that lend the objects of several keys at once to a closure.
ghost use Rattle.std.specs.Prelude.{◌≡◌, ◌<◌, ◌≤◌, ◌+◌, ℕ, [], ◌∷◌, Contains, IsNone, IsSome, IfSome};
ghost use Rattle.steplaws.specs.Facts.{most_references};
ghost use Rattle.shardpool.specs.Tokens.{LaneOf, FillingOf};
ghost use Rattle.shardpool.specs.Lanes.{Owns, Made, SameLane, holds, refs};
ghost use Rattle.poollaws.specs.Words.{IsPublished, IsGone};
ghost use Rattle.guards.specs.Seated.{GoesOn};
ghost use Rattle.guards.specs.Several.{Got, Gave, UsesAll, TriesAll, more_of, Lends, Returns};

use shardpool::{Lane, Pool, Ref};
use slotcell::Clear;

/// References to two keys. None where a get finds none; what the other gave is then given back.
fn get_two<T: Clear + Drop>(
    pool: &Pool<T>,
    lane: &mut Lane<T>,
    first: u64,
    second: u64,
) -> Option<(Ref<T>, Ref<T>)>
    requires owns { Owns pool.now lane.old }
    requires room { refs lane.old + 1 < most_references }
    ensures both { IfSome result (λ both. (both.0.key ≡ first) × (both.1.key ≡ second)) }
    ensures lends { IsSome result → Lends T pool.now (second ∷ first ∷ []) lane.old lane.new }
    ensures got { IsSome result → (between : LaneOf) × Got pool.now.shape first lane.old between
        × Got pool.now.shape second between lane.new }
    ensures none { IsNone result → Lends T pool.now [] lane.old lane.new }
    ensures tries { IsNone result → TriesAll pool.now.shape (first ∷ second ∷ []) lane.old lane.new }
    ensures gone { IsNone result → (key : ℕ) × Contains (first ∷ second ∷ []) key × IsGone lane.old.book.seen lane.new.book.seen key }
{
    let one = pool.get(lane, first)?;
    let Some(other) = pool.get(lane, second) else {
        pool.release(lane, one);
        return None;
    };
    Some((one, other))
}

/// Gives two references back, the other one first.
fn release_two<T: Clear + Drop>(pool: &Pool<T>, lane: &mut Lane<T>, one: Ref<T>, other: Ref<T>)
    requires owns { Owns pool.now lane.old }
    requires held { (key : ℕ) → more_of (other.key ∷ one.key ∷ []) key 0 ≤ holds lane.old key }
    ensures returns { Returns T pool.now (other.key ∷ one.key ∷ []) lane.old lane.new }
    ensures gave { (between : LaneOf) × Gave pool.now.shape other.key lane.old between × Gave pool.now.shape one.key between lane.new }
{
    pool.release(lane, other);
    pool.release(lane, one);
}

/// Gets two keys, calls `f` on their objects, and gives the references back. None, and `f` is not called, where a get
/// finds none: the keys behind it are then not tried.
pub fn with_two<T: Clear + Drop, R, F: FnOnce(&T, &T) -> R>(
    pool: &Pool<T>,
    lane: &mut Lane<T>,
    keys: (u64, u64),
    f: F,
) -> Option<R>
    requires owns { Owns pool.now lane.old }
    requires room { refs lane.old + 1 < most_references }
    requires may { F.IsAlwaysCallable f }
    ensures owns { Owns pool.now lane.new }
    ensures same { SameLane lane.old lane.new }
    ensures some { IfSome result (λ r. (x : _) × (y : _) × F.post f x y r
        × IsPublished lane.new.book.seen keys.0 (T.content x.now)
        × IsPublished lane.new.book.seen keys.1 (T.content y.now)) }
    ensures uses { IsSome result → UsesAll pool.now.shape (keys.0 ∷ keys.1 ∷ []) lane.old lane.new }
    ensures tries { IsNone result → TriesAll pool.now.shape (keys.0 ∷ keys.1 ∷ []) lane.old lane.new }
    ensures gone { IsNone result → (key : ℕ) × Contains (keys.0 ∷ keys.1 ∷ []) key × IsGone lane.old.book.seen lane.new.book.seen key }
    ensures goes { GoesOn lane.old lane.new }
    ensures refs { refs lane.new ≡ refs lane.old }
    ensures holds { (key : ℕ) → holds lane.new key ≡ holds lane.old key }
    ensures fillings { (filling : FillingOf T) → Made lane.old filling → Made lane.new filling }
{
    let (one, other) = get_two(pool, lane, keys.0, keys.1)?;
    let answer = f(lane.read(&one), lane.read(&other));
    release_two(pool, lane, one, other);
    Some(answer)
}

/// As `with_two`, with three keys.
pub fn with_three<T: Clear + Drop, R, F: FnOnce(&T, &T, &T) -> R>(
    pool: &Pool<T>,
    lane: &mut Lane<T>,
    keys: (u64, u64, u64),
    f: F,
) -> Option<R>
    requires owns { Owns pool.now lane.old }
    requires room { refs lane.old + 2 < most_references }
    requires may { F.IsAlwaysCallable f }
    ensures owns { Owns pool.now lane.new }
    ensures same { SameLane lane.old lane.new }
    ensures some { IfSome result (λ r. (x : _) × (y : _) × (z : _) × F.post f x y z r
        × IsPublished lane.new.book.seen keys.0 (T.content x.now)
        × IsPublished lane.new.book.seen keys.1 (T.content y.now)
        × IsPublished lane.new.book.seen keys.2 (T.content z.now)) }
    ensures uses { IsSome result → UsesAll pool.now.shape (keys.0 ∷ keys.1 ∷ keys.2 ∷ []) lane.old lane.new }
    ensures tries { IsNone result → TriesAll pool.now.shape (keys.0 ∷ keys.1 ∷ keys.2 ∷ []) lane.old lane.new }
    ensures gone { IsNone result → (key : ℕ) × Contains (keys.0 ∷ keys.1 ∷ keys.2 ∷ []) key
        × IsGone lane.old.book.seen lane.new.book.seen key }
    ensures goes { GoesOn lane.old lane.new }
    ensures refs { refs lane.new ≡ refs lane.old }
    ensures holds { (key : ℕ) → holds lane.new key ≡ holds lane.old key }
    ensures fillings { (filling : FillingOf T) → Made lane.old filling → Made lane.new filling }
{
    let (one, two) = get_two(pool, lane, keys.0, keys.1)?;
    let Some(three) = pool.get(lane, keys.2) else {
        release_two(pool, lane, one, two);
        return None;
    };
    let answer = f(lane.read(&one), lane.read(&two), lane.read(&three));
    pool.release(lane, three);
    release_two(pool, lane, one, two);
    Some(answer)
}

/// As `with_two`, with four keys.
pub fn with_four<T: Clear + Drop, R, F: FnOnce(&T, &T, &T, &T) -> R>(
    pool: &Pool<T>,
    lane: &mut Lane<T>,
    keys: (u64, u64, u64, u64),
    f: F,
) -> Option<R>
    requires owns { Owns pool.now lane.old }
    requires room { refs lane.old + 3 < most_references }
    requires may { F.IsAlwaysCallable f }
    ensures owns { Owns pool.now lane.new }
    ensures same { SameLane lane.old lane.new }
    ensures some { IfSome result (λ r. (x : _) × (y : _) × (z : _) × (w : _) × F.post f x y z w r
        × IsPublished lane.new.book.seen keys.0 (T.content x.now)
        × IsPublished lane.new.book.seen keys.1 (T.content y.now)
        × IsPublished lane.new.book.seen keys.2 (T.content z.now)
        × IsPublished lane.new.book.seen keys.3 (T.content w.now)) }
    ensures uses { IsSome result → UsesAll pool.now.shape (keys.0 ∷ keys.1 ∷ keys.2 ∷ keys.3 ∷ []) lane.old lane.new }
    ensures tries { IsNone result → TriesAll pool.now.shape (keys.0 ∷ keys.1 ∷ keys.2 ∷ keys.3 ∷ []) lane.old lane.new }
    ensures gone { IsNone result → (key : ℕ) × Contains (keys.0 ∷ keys.1 ∷ keys.2 ∷ keys.3 ∷ []) key
        × IsGone lane.old.book.seen lane.new.book.seen key }
    ensures goes { GoesOn lane.old lane.new }
    ensures refs { refs lane.new ≡ refs lane.old }
    ensures holds { (key : ℕ) → holds lane.new key ≡ holds lane.old key }
    ensures fillings { (filling : FillingOf T) → Made lane.old filling → Made lane.new filling }
{
    let (one, two) = get_two(pool, lane, keys.0, keys.1)?;
    let Some((three, four)) = get_two(pool, lane, keys.2, keys.3) else {
        release_two(pool, lane, one, two);
        return None;
    };
    let answer = f(
        lane.read(&one),
        lane.read(&two),
        lane.read(&three),
        lane.read(&four),
    );
    release_two(pool, lane, three, four);
    release_two(pool, lane, one, two);
    Some(answer)
}
