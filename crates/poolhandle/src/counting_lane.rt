//! A lane that counts its references by key while it runs.
ghost use Rattle.std.specs.Prelude.{◌≡◌, ◌==◌, ◌-◌, ◌<◌, ◌≤◌, Some, IfSome, length, slice_get, slice_set, replicate, if◌then◌else◌};
ghost use Rattle.steplaws.specs.Facts.{most_references};
ghost use Rattle.poolhandle.specs.declared.counting_lane.KeyCount.{KeyCount as Row};
ghost use Rattle.poolhandle.specs.Counts.{gained};

use keybits::generation_of;
use shardpool::{CreateFault, Filling, Lane, Note, Pool, Ref};
use slotcell::Clear;
use std::alloc::Global;
use std::marker::Model;

/// How many references a lane has to a key of a place.
#[derive(Clone, Copy, Debug, PartialEq, Eq)]
pub(crate) struct KeyCount {
    /// Of the last key of the place to which the lane had a reference; 0, which no key has, before the first.
    pub(crate) generation: u32,
    pub(crate) count: u32,
}

/// A lane that counts its references to each key while it runs, for a program that keeps keys in place of references
/// and may be wrong about them. Contracts alone know the counts of another lane.
#[derive(Drop)]
pub struct CountingLane<T: Clear> {
    lane: Lane<T>,
    /// For each place of the pool, where it stands, the references to a key of it.
    counts: Vec<KeyCount>,
}

impl<T: Clear> Model for CountingLane<T> {
    ghost use Rattle.shardpool.specs.Tokens.{LaneOf};
    ghost use Rattle.poolhandle.specs.Counts.{CountsAs};

    ghost Value = { LaneOf };

    ghost view = { λ l. l.lane };

    ghost invariant = { λ l. CountsAs l.lane l.counts.items };
}

impl<T: Clear + Drop> CountingLane<T> {
    ghost use Rattle.std.specs.Prelude.{◌≡◌, ◌<◌, ◌≤◌, None, option_map, IfOk, IfErr, IfSome, IsNone, MatchOption};
    ghost use Rattle.std.specs.Fn.{FnOnceReturnsAt};
    ghost use Rattle.keybits.specs.Keys.{place_of};
    ghost use Rattle.poolsteps.specs.Layout.{slot_start};
    ghost use Rattle.steplaws.specs.Facts.{most_references};
    ghost use mathlib.Core.List.{IsPrefix};
    ghost use Rattle.std.specs.Prelude.{ℕ, [], ◌+◌};
    ghost use Rattle.poolsteps.specs.Seats.{looked_once};
    ghost use Rattle.shardpool.specs.Tokens.{FillingOf};
    ghost use Rattle.shardpool.specs.Lanes.{Owns, Issued, Made, Did, holds, refs};
    ghost use Rattle.shardpool.specs.AfterCalls.{AfterCreate, AfterPublish, AfterDowngrade, AfterGet, AfterReleaseKey, AfterClear};
    ghost use Rattle.poolhandle.specs.Looks.{Looks};

    /// A lane that has no reference, with counts of its own.
    ///
    /// # Errors
    ///
    /// The lane, where memory was refused.
    pub fn new(alloc: Global, lane: Lane<T>) -> Result<CountingLane<T>, Lane<T>>
        requires { refs lane ≡ 0 }
        ensures ok { IfOk result (λ counting. counting ≡ lane) }
        ensures err { IfErr result (λ back. back ≡ lane) }
    {
        lane.places_law();
        match no_counts(alloc, lane.places()) {
            Some(counts) => Ok(CountingLane { lane, counts }),
            None => Err(lane),
        }
    }

    /// The lane, to be asked and read by.
    #[inline]
    pub fn lane(&self) -> &Lane<T>
        ensures { result.now ≡ self.now }
    {
        &self.lane
    }

    /// The lane, without its counts.
    pub fn into_lane(self) -> Lane<T>
        ensures { result ≡ self }
    {
        let CountingLane { lane, counts: _ } = self;
        lane
    }

    /// How many references the lane has to a key. A number that is no key of the pool has none.
    pub fn holds(&self, key: u64) -> u32
        ensures { result ≡ holds self.now key }
    {
        match self.lane.start_of_key(key) {
            Some(start) => count_to(&self.counts, start, generation_of(key)),
            None => 0,
        }
    }

    /// A reference to a key. None where the lane has none to it.
    pub fn reference(&self, key: u64) -> Option<Ref<T>>
        ensures held { IfSome result (λ reference. (reference.key ≡ key) × (1 ≤ holds self.now reference.key)) }
        ensures none { IsNone result → holds self.now key ≡ 0 }
    {
        if self.holds(key) == 0 {
            return None;
        }
        Some(self.lane.reference_to(key))
    }

    /// As `Lane::leave`.
    pub fn leave(&mut self, filling: Filling<T>)
        requires { Made self.old filling }
        ensures { self.new ≡ self.old }
    {
        self.lane.leave(filling);
    }

    /// As `Pool::tell`.
    pub fn tell(&mut self, pool: &Pool<T>) -> Note<T>
        requires { Owns pool.now self.old }
        ensures note { Issued pool.now result × (result.book.seen ≡ self.old.book.seen) }
        ensures rooms { result.book.rooms ≡ self.old.book.rooms }
        ensures lane { self.new ≡ record self.old { book = looked_once self.old.book } }
        ensures fillings { (filling : FillingOf T) → Made self.old filling → Made self.new filling }
    {
        pool.tell(&mut self.lane)
    }

    /// As `Pool::hear`.
    pub fn hear(&mut self, pool: &Pool<T>, note: Note<T>)
        requires owns { Owns pool.now self.old }
        requires note { Issued pool.now note }
        ensures owns { Owns pool.now self.new }
        ensures heard { IsPrefix note.book.seen self.new.book.seen × IsPrefix self.old.book.seen self.new.book.seen }
        ensures rooms { IsPrefix note.book.rooms self.new.book.rooms × IsPrefix self.old.book.rooms self.new.book.rooms }
        ensures goes { Did [] self.old self.new }
        ensures steps { self.new.book.steps ≡ self.old.book.steps }
        ensures looks { self.new.book.looks ≡ self.old.book.looks + 1 }
        ensures refs { refs self.new ≡ refs self.old }
        ensures held { (key : ℕ) → holds self.new key ≡ holds self.old key }
        ensures fillings { (filling : FillingOf T) → Made self.old filling → Made self.new filling }
    {
        pool.hear(&mut self.lane, note);
    }

    /// As `Pool::create`.
    #[inline(always)]
    pub fn create(&mut self, pool: &Pool<T>) -> Result<Filling<T>, CreateFault>
        requires owns { Owns pool.now self.old }
        ensures { AfterCreate T.content T.room pool.now self.old self.new result }
    {
        pool.create(&mut self.lane)
    }

    /// As `Pool::publish`.
    #[inline(always)]
    pub fn publish(&mut self, pool: &Pool<T>, filling: Filling<T>) -> u64
        requires owns { Owns pool.now self.old }
        requires made { Made self.old filling }
        ensures { AfterPublish T.content T.room pool.now filling self.old self.new result }
    {
        pool.publish(&mut self.lane, filling)
    }

    /// As `Pool::downgrade`.
    #[inline(always)]
    pub fn downgrade(&mut self, pool: &Pool<T>, filling: Filling<T>) -> Ref<T>
        requires owns { Owns pool.now self.old }
        requires made { Made self.old filling }
        requires room { refs self.old < most_references }
        ensures { AfterDowngrade T.content T.room pool.now filling self.old self.new result }
    {
        self.lane.places_law();
        let reference = pool.downgrade(&mut self.lane, filling);
        let key = reference.key();
        let Some(start) = self.lane.start_of_key(key) else {
            unreachable!()
        };
        gain(&mut self.counts, start, generation_of(key));
        reference
    }

    /// As `Pool::get_at`.
    #[inline(always)]
    pub fn get_at(&mut self, pool: &Pool<T>, key: u64) -> Option<u32>
        requires owns { Owns pool.now self.old }
        requires room { refs self.old < most_references }
        ensures got { AfterGet T pool.now key self.old self.new (option_map (λ at. record { key = key }) result) }
        ensures stands { IfSome result (λ at. at ≡ slot_start pool.now.shape (place_of key)) }
    {
        self.lane.places_law();
        let start = pool.get_at(&mut self.lane, key)?;
        gain(&mut self.counts, start, generation_of(key));
        Some(start)
    }

    /// Gives back a reference to a key: true where the lane had one. False, without a step, where it had none, and for a
    /// number that is no key of the pool.
    #[inline(always)]
    pub fn release_key(&mut self, pool: &Pool<T>, key: u64) -> bool
        requires owns { Owns pool.now self.old }
        ensures { AfterReleaseKey T pool.now key self.old self.new result }
    {
        let Some(start) = self.lane.start_of_key(key) else {
            return false;
        };
        if count_to(&self.counts, start, generation_of(key)) == 0 {
            return false;
        }
        pool.release_at(&mut self.lane, start, key);
        lose(&mut self.counts, start);
        true
    }

    /// Gets a key, calls `look` on its object, and gives the reference back. None, and `look` isn't called, where the get
    /// finds none. No count changes.
    #[inline(always)]
    pub fn look<A, F: FnOnce(&T) -> A>(&mut self, pool: &Pool<T>, key: u64, look: F) -> Option<A>
        requires owns { Owns pool.now self.old }
        requires room { refs self.old < most_references }
        requires may { F.IsAlwaysCallable look }
        ensures { MatchOption result (AfterGet T pool.now key self.old self.new None)
            (λ answer. Looks T.content pool.now key (λ object. FnOnceReturnsAt F.FnOnce look object answer) self.old self.new) }
    {
        let at = pool.get_at(&mut self.lane, key)?;
        let answer = look(self.lane.read_at(at, key));
        pool.release_at(&mut self.lane, at, key);
        Some(answer)
    }

    /// As `Pool::clear`.
    #[inline(always)]
    pub fn clear(&mut self, pool: &Pool<T>, key: u64) -> bool
        requires owns { Owns pool.now self.old }
        ensures { AfterClear T pool.now key self.old self.new result }
    {
        pool.clear(&mut self.lane, key)
    }
}

/// So many counts, each of no reference. None where memory was refused.
fn no_counts(alloc: Global, places: usize) -> Option<Vec<KeyCount>>
    ensures { IfSome result (λ counts. counts.items ≡ replicate places (record { generation = 0; count = 0 })) }
{
    let mut counts = Vec::with_capacity(alloc, places).ok()?;
    for _ in 0..places {
        counts.push_reserved(KeyCount {
            generation: 0,
            count: 0,
        });
    }
    Some(counts)
}

/// How many references there are to the key of this generation of the place that stands here.
#[inline]
fn count_to(counts: &Vec<KeyCount>, start: u32, generation: u32) -> u32
    requires { start < length counts.now.items }
    ensures { (row : Row) → slice_get counts.now.items start ≡ Some row → result ≡ (if generation == row.generation then row.count else 0) }
{
    let row = counts[start as usize];
    if row.generation == generation {
        row.count
    } else {
        0
    }
}

/// One reference more to the key of this generation of the place that stands here, which has none to another.
#[inline]
fn gain(counts: &mut Vec<KeyCount>, start: u32, generation: u32)
    requires start { start < length counts.old.items }
    requires room { (row : Row) → slice_get counts.old.items start ≡ Some row → generation ≡ row.generation → row.count < most_references }
    ensures { (row : Row) → slice_get counts.old.items start ≡ Some row
        → counts.new.items ≡ slice_set counts.old.items start (gained generation row) }
{
    let row = counts[start as usize];
    counts[start as usize] = if row.generation == generation {
        KeyCount {
            generation,
            count: row.count + 1,
        }
    } else {
        KeyCount {
            generation,
            count: 1,
        }
    };
}

/// One reference less to the key of the place that stands here.
#[inline]
fn lose(counts: &mut Vec<KeyCount>, start: u32)
    requires start { start < length counts.old.items }
    requires some { (row : Row) → slice_get counts.old.items start ≡ Some row → 1 ≤ row.count }
    ensures { (row : Row) → slice_get counts.old.items start ≡ Some row
        → counts.new.items ≡ slice_set counts.old.items start (record row { count = row.count - 1 }) }
{
    counts[start as usize].count -= 1;
}
