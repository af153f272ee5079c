//! A close drops each object of its pool, wherever it is, and drops it once.
ghost use Rattle.std.specs.Prelude.{◌≡◌, []};
ghost use Rattle.shardpool.specs.Tokens.{LaneOf};
ghost use Rattle.shardpool.specs.Lanes.{Owns, Made, refs};

use crate::test_calls::{NO_PLACE, clear, close_all, create, get, open_of, same, shape_of, take};
use keybits::Shape;
use shardpool::{Census, Filling, Lane, Pool};
use slotcell::Clear;
use std::alloc::Global;
use std::process::Abort;
use std::sync::Arc;
use std::sync::atomic::{AtomicU64, Ordering};

/// A count that threads share.
type Count = Arc<AtomicU64, Global>;

/// An object that counts when it is dropped, once it was handed a count.
struct Probe {
    drops: Option<Count>,
}

impl Drop for Probe {
    fn drop(self) {
        let Probe { drops } = self;
        if let Some(count) = drops {
            count.fetch_add(1, Ordering::SeqCst);
        }
    }
}

impl Clear for Probe {
    ghost content = { λ probe. [] };

    ghost room = { λ probe. 0 };

    fn fresh(alloc: Global) -> Probe {
        let _ = alloc;
        Probe { drops: None }
    }

    fn clear(&mut self) {}

    fn room(&self) -> usize {
        0
    }
}

/// A count of 0.
fn new_count<R: Abort>(rt: &R, alloc: Global) -> Count {
    Arc::new(alloc, AtomicU64::new(0)).expect(rt, "memory for a count")
}

/// The object of a filling is handed a count.
fn hand_over<R: Abort>(rt: &R, filling: &mut Filling<Probe>, drops: &Count)
    ensures { (lane : LaneOf) → Made lane filling.old → Made lane filling.new }
{
    let count = Arc::try_clone(drops).expect(rt, "a count of fewer owners");
    filling.value_mut().drops = Some(count);
}

/// A filling whose object counts its drop.
fn fill<R: Abort>(
    rt: &R,
    pool: &Pool<Probe>,
    lane: &mut Lane<Probe>,
    drops: &Count,
) -> Filling<Probe>
    requires { Owns pool.now lane.old }
    ensures owns { Owns pool.now lane.new }
    ensures refs { refs lane.new ≡ refs lane.old }
    ensures made { Made lane.new result }
{
    let mut filling = create(rt, pool, lane);
    hand_over(rt, &mut filling, drops);
    filling
}

/// An object that counts its drop is published.
fn publish<R: Abort>(rt: &R, pool: &Pool<Probe>, lane: &mut Lane<Probe>, drops: &Count) -> u64
    requires { Owns pool.now lane.old }
    ensures owns { Owns pool.now lane.new }
    ensures refs { refs lane.new ≡ refs lane.old }
{
    let filling = fill(rt, pool, lane, drops);
    pool.publish(lane, filling)
}

/// The first lane publishes an object, and the second clears it, so that its place is returned.
fn give_back<R: Abort>(
    rt: &R,
    pool: &Pool<Probe>,
    first: &mut Lane<Probe>,
    second: &mut Lane<Probe>,
    drops: &Count,
)
    requires first { Owns pool.now first.old }
    requires second { Owns pool.now second.old }
    ensures first { Owns pool.now first.new × (refs first.new ≡ refs first.old) }
    ensures second { Owns pool.now second.new × (refs second.new ≡ refs second.old) }
{
    let key = publish(rt, pool, first, drops);
    clear(rt, pool, second, key, true);
}

/// Objects of the first lane that are present without a reference, present with one, marked with one, and under a
/// filling.
fn keep_some<R: Abort>(
    rt: &R,
    pool: &Pool<Probe>,
    first: &mut Lane<Probe>,
    second: &mut Lane<Probe>,
    drops: &Count,
)
    requires first { Owns pool.now first.old }
    requires second { Owns pool.now second.old × (refs second.old ≡ 0) }
    ensures first { Owns pool.now first.new }
    ensures second { Owns pool.now second.new }
{
    publish(rt, pool, first, drops);
    let present = publish(rt, pool, first, drops);
    let marked = publish(rt, pool, first, drops);
    get(rt, pool, second, present).forget();
    get(rt, pool, second, marked).forget();
    clear(rt, pool, first, marked, true);
    fill(rt, pool, first, drops).forget();
}

/// Objects wherever one can be in a pool of two lanes with 8 places each. The two fillings take theirs with them.
fn use_places<R: Abort>(
    rt: &R,
    pool: &Pool<Probe>,
    first: &mut Lane<Probe>,
    second: &mut Lane<Probe>,
    drops: &Count,
)
    requires first { Owns pool.now first.old }
    requires second { Owns pool.now second.old × (refs second.old ≡ 0) }
    ensures first { Owns pool.now first.new }
    ensures second { Owns pool.now second.new }
{
    // Of the first lane's 8 places 4 are returned. A create takes 3 of them as a chain, of which it hands out one.
    give_back(rt, pool, first, second, drops);
    give_back(rt, pool, first, second, drops);
    give_back(rt, pool, first, second, drops);
    let last = publish(rt, pool, first, drops);
    keep_some(rt, pool, first, second, drops);
    create(rt, pool, first).forget();
    clear(rt, pool, second, last, true);

    // Of the second lane's own one was used.
    let own = publish(rt, pool, second, drops);
    clear(rt, pool, second, own, true);
}

#[test]
fn drops_each_object_once(rt: HostRuntime) {
    let drops = new_count(&rt, rt.alloc());
    let mut opened = open_of(&rt, rt.alloc(), shape_of(2, 8, 1));
    let mut first = take(&rt, &mut opened, 0);
    let mut second = take(&rt, &mut opened, 1);
    use_places(&rt, &opened.pool, &mut first, &mut second, &drops);
    same(&rt, &drops.load(Ordering::SeqCst), &2);
    opened.lanes.give(first);
    opened.lanes.give(second);
    let census = close_all(&rt, opened);
    same(&rt, &drops.load(Ordering::SeqCst), &9);
    same(
        &rt,
        &census,
        &Census {
            free: 11,
            filling: 2,
            present: 2,
            marked: 1,
            ..NO_PLACE
        },
    );
}

#[test]
fn drops_a_retired_object_once(rt: HostRuntime) {
    let drops = new_count(&rt, rt.alloc());
    let shape = Shape {
        last_generation: 1,
        ..shape_of(1, 1, 1)
    };
    let mut opened = open_of(&rt, rt.alloc(), shape);
    let mut lane = take(&rt, &mut opened, 0);
    let key = publish(&rt, &opened.pool, &mut lane, &drops);
    clear(&rt, &opened.pool, &mut lane, key, true);
    opened.lanes.give(lane);
    close_all(&rt, opened);
    same(&rt, &drops.load(Ordering::SeqCst), &1);
}
