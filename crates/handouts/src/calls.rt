//! The calls that answer what the object of a reclaimed place held.
ghost use Rattle.std.specs.Prelude.{◌≡◌, ◌<◌, ◌≤◌, Option, None, option_map};
ghost use Rattle.steplaws.specs.Facts.{most_references};
ghost use Rattle.shardpool.specs.AfterCalls.{AfterClear, AfterGet, AfterRelease};
ghost use Rattle.shardpool.specs.Handed.{HandsOut};
ghost use Rattle.shardpool.specs.Lanes.{Owns, holds, refs};
ghost use Rattle.handouts.specs.Held.{TookOut};

use crate::held::{HandOut, Held};
use shardpool::{Lane, Pool, Ref};
use slotcell::Clear;

/// As `Pool::release`. Where it reclaims the place, it answers what the object held; else none.
#[inline]
pub fn release<U: Clear + Drop>(
    pool: &Pool<Held<U>>,
    lane: &mut Lane<Held<U>>,
    reference: Ref<Held<U>>,
) -> Option<Box<U>>
    requires owns { Owns pool.now lane.old }
    requires held { 1 ≤ holds lane.old reference.key }
    ensures released { AfterRelease (Option U) pool.now reference.key lane.old lane.new }
    ensures hands { HandsOut (TookOut U.content) lane.old.book lane.new.book None (option_map (λ b. b.value) result) }
{
    let mut out = HandOut::new();
    pool.release_with(lane, reference, &mut out);
    out.into_inner()
}

/// As `Pool::get`, and what was held by the object of a place that a miss reclaims.
#[inline]
pub fn get<U: Clear + Drop>(
    pool: &Pool<Held<U>>,
    lane: &mut Lane<Held<U>>,
    key: u64,
) -> (Option<Ref<Held<U>>>, Option<Box<U>>)
    requires owns { Owns pool.now lane.old }
    requires room { refs lane.old < most_references }
    ensures got { AfterGet (Option U) pool.now key lane.old lane.new result.0 }
    ensures hands { HandsOut (TookOut U.content) lane.old.book lane.new.book None (option_map (λ b. b.value) result.1) }
{
    let mut out = HandOut::new();
    let reference = pool.get_with(lane, key, &mut out);
    (reference, out.into_inner())
}

/// As `Pool::clear`, and what was held by the object of the place that it reclaims.
#[inline]
pub fn clear<U: Clear + Drop>(
    pool: &Pool<Held<U>>,
    lane: &mut Lane<Held<U>>,
    key: u64,
) -> (bool, Option<Box<U>>)
    requires owns { Owns pool.now lane.old }
    ensures cleared { AfterClear (Option U) pool.now key lane.old lane.new result.0 }
    ensures hands { HandsOut (TookOut U.content) lane.old.book lane.new.book None (option_map (λ b. b.value) result.1) }
{
    let mut out = HandOut::new();
    let marked = pool.clear_with(lane, key, &mut out);
    (marked, out.into_inner())
}
