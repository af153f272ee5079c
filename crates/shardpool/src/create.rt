//! How a lane gets a place to fill: from its own list, from its taken chain, from the places that were returned to it,
//! or from its next page.
ghost use Rattle.std.specs.Prelude.{◌≡◌, ◌<◌, [], length, All, IfSome, IsNone, IsOk, IsErr, IsErrOf, ℕ, ◌∷◌};
ghost use Rattle.shardpool.specs.Tokens.{FillingOf};
ghost use Rattle.shardpool.specs.Lanes.{Owns, Made};
ghost use Rattle.poolsteps.specs.Grids.{IsSpot, IsOf, SameSeat};
ghost use Rattle.poolsteps.specs.Views.{the_lane, known_of, IsOne};
ghost use Rattle.shardpool.specs.Creates.{Pops, TakesReturned, FollowsChain, OpensPage, Fills, IsLoose};
ghost use Rattle.shardpool.specs.AfterCalls.{AfterCreate};
ghost use Rattle.shardpool.specs.declared.create.CreateFault.TheVariants.{Full, Memory};
ghost use Rattle.keybits.specs.Counts.{times};
ghost use Rattle.keybits.specs.Keys.{key_number};
ghost use Rattle.keybits.specs.Places.{shard_of};
ghost use Rattle.seqpool.specs.Pool.{with, pool_after};
ghost use Rattle.poolsteps.specs.Layout.{spots_at};
ghost use Rattle.poolsteps.specs.Told.{Sees, IsIdle, MayPublish};
ghost use Rattle.poolsteps.specs.Returned.{rest_of};
ghost use Rattle.seatcalls.specs.Carried.{AreAtRest, ShowsCell};
ghost use Rattle.seatcalls.specs.Called.{IsLawful};
ghost use Rattle.seatcalls.specs.Taken.{Collects, FollowsOut};

use crate::pool::{Lane, Pool};
use crate::stores::{follow_on, hang, open_next, take_own};
use keybits::{Key, Place};
use poolsteps::{Base, Grid, Hand, Spot, Whole};
use seatcalls::take_resting;
use slotcell::Clear;
use std::alloc::Global;
use std::error::Error;
use std::fmt;
use std::marker::Model;
use std::snapshot::Snapshot;
use steplaws::home_law;

/// A place that is to be filled, with its object. It must be spent, by a publish, a downgrade, `Lane::leave` or `forget`.
pub struct Filling<T> {
    pub(crate) key: u64,
    /// Where the key's place stands.
    pub(crate) start: u32,
    /// Where the words of the pool's places begin.
    pub(crate) directory: Base<T>,
    pub(crate) whole: Whole<T>,
    pub(crate) of: Snapshot<Hand<T>>,
    pub(crate) alloc: Global,
}

impl<T> Model for Filling<T> {
    ghost use Rattle.poolsteps.specs.Spot.{IsAt};
    ghost use Rattle.shardpool.specs.Tokens.{FillingOf, filling_code};

    ghost Value = { FillingOf T };

    ghost coded = { filling_code T.code };

    ghost view = { λ f. record {
      table = f.of.value.table_id;
      directory = f.directory.ptr;
      key = f.key;
      start = f.start;
      object = f.whole.object;
    } };

    ghost invariant = { λ f. IsAt f.whole.spot f.directory.ptr f.start };
}

impl<T> Filling<T> {
    ghost use Rattle.std.specs.Prelude.{◌≡◌};
    ghost use Rattle.std.specs.Borrow.{sem};
    ghost use Rattle.poolsteps.specs.Spot.{IsAt};
    ghost use Rattle.poolsteps.specs.Objects.{spot_at};
    ghost use Rattle.shardpool.specs.Fillings.{LendsFilling};

    /// The key under which the object will be published.
    pub fn key(&self) -> u64
        ensures { result ≡ self.now.key }
    {
        self.key
    }

    /// The object.
    pub fn value(&self) -> &T
        ensures { result.now ≡ self.now.object }
    {
        self.whole.get(self.directory, self.start as usize)
    }

    /// The object, to be written.
    pub fn value_mut(&mut self) -> &mut T
        ensures* writes_back { sem 𝓛 (LendsFilling T.row self.old self.entry result) }
        ensures object { result.now ≡ self.old.object }
    {
        self.whole.get_mut(self.directory, self.start as usize)
    }

    /// The filling of a key, whose place stands here in this directory, with this cell, by a lane with this hand.
    pub(crate) fn of(
        hand: &Hand<T>,
        key: u64,
        start: u32,
        directory: Base<T>,
        whole: Whole<T>,
        alloc: Global,
    ) -> Filling<T>
        requires { IsAt whole.spot directory.ptr start }
        ensures { result ≡ record {
          table = hand.now.table_id;
          directory = directory.ptr;
          key = key;
          start = start;
          object = whole.object;
        } }
    {
        Filling {
            key,
            start,
            directory,
            whole,
            of: Snapshot::of(hand),
            alloc,
        }
    }

    /// The token's key, where its place stands, and the cell.
    pub(crate) fn spend(self) -> (u64, u32, Whole<T>)
        ensures { (result.0 ≡ self.key) × (result.1 ≡ self.start) × (result.2.spot ≡ spot_at self.directory self.start)
            × (result.2.object ≡ self.object) }
    {
        let Filling {
            key,
            start,
            directory: _,
            whole,
            of,
            alloc: _,
        } = self;
        drop(of);
        (key, start, whole)
    }
}

impl<T: Clear + Drop> Filling<T> {
    /// The token ends, and the pool isn't told: the place stays filling until the pool is closed. The object is
    /// dropped. A pool with such a place doesn't free the memory of its places when it is closed, as it does after
    /// `Lane::leave`.
    pub fn forget(self) {
        let Filling {
            key: _,
            start,
            directory,
            mut whole,
            of,
            alloc,
        } = self;
        *whole.get_mut(directory, start as usize) = T::fresh(alloc);
        drop(whole);
        drop(of);
    }
}

/// Why no place was given.
#[derive(Clone, Copy, Debug, PartialEq, Eq)]
pub enum CreateFault {
    /// No place is free: all pages are opened, and each place of the lane's shard is in use.
    Full,
    /// The memory of the next page was refused. The page stays unopened, and the next call may try again.
    Memory,
}

impl CreateFault {
    ghost use Rattle.shardpool.specs.Creates.{create_fault_number};

    /// The fault's number: 21 for Full, 22 for Memory.
    pub fn number(&self) -> u32
        ensures { result ≡ create_fault_number self.now }
    {
        match self {
            CreateFault::Full => 21,
            CreateFault::Memory => 22,
        }
    }
}

impl fmt::Display for CreateFault {
    fn fmt<W: fmt::Write>(&self, f: &mut fmt::Formatter<W>) -> fmt::Result {
        match self {
            CreateFault::Full => write!(f, "no place is free"),
            CreateFault::Memory => write!(f, "out of memory"),
        }
    }
}

impl Error for CreateFault {}

impl<T: Clear + Drop> Pool<T> {
    /// A place to be filled, whose object is empty, with at least the room that it had when it was last published.
    ///
    /// The places come from the lane's own list, first in first out; then from the taken chain; then from the places
    /// that other lanes returned, which are taken from the first stack by rising lane that has some; then from the next
    /// page. It takes memory only to open a page, and none where the lane has a free place.
    #[inline(always)]
    pub fn create(&self, lane: &mut Lane<T>) -> Result<Filling<T>, CreateFault>
        requires owns { Owns self.now lane.old }
        ensures { AfterCreate T.content T.room self.now lane.old lane.new result }
    {
        // A proof knows the invariant of a lane once a field of it is seen.
        let _ = &lane.state;
        if let Some((spot, listed)) = pop(lane) {
            return Ok(self.fill(lane, spot, listed));
        }
        self.create_apart(lane)
    }

    /// A create where the lane's own list is empty. Apart, so that the short way of a create stands where it is called;
    /// where that is one place alone, the compiler may put this there too.
    fn create_apart(&self, lane: &mut Lane<T>) -> Result<Filling<T>, CreateFault>
        requires owns { Owns self.now lane.old }
        requires own { lane.old.free.own ≡ [] }
        ensures { AfterCreate T.content T.room self.now lane.old lane.new result }
    {
        // A proof knows the invariant of a lane once a field of it is seen.
        let _ = &lane.state;
        self.take_returned(lane);
        if let Some((spot, whole)) = self.follow(lane) {
            return Ok(self.fill(lane, spot, whole));
        }
        open_page(lane)?;
        match pop(lane) {
            Some((spot, whole)) => Ok(self.fill(lane, spot, whole)),
            None => unreachable!(),
        }
    }

    /// TAKEs of what other lanes returned, where no taken place is still to be followed and a page is opened.
    fn take_returned(&self, lane: &mut Lane<T>)
        requires owns { Owns self.now lane.old }
        requires own { lane.old.free.own ≡ [] }
        ensures takes { TakesReturned lane.old lane.new }
        ensures fillings { (filling : FillingOf T) → Made lane.old filling → Made lane.new filling }
    {
        if lane.state.free.chain().is_some() || lane.state.pages.opened() == 0 {
            return;
        }
        let found = collect(&self.grid, &mut lane.hand, lane.state.number);
        if found != 0 {
            hang(&mut lane.state, found);
        }
    }

    /// Follows the taken chain: its first place, with its cell. None where no taken place is still to be followed.
    fn follow(&self, lane: &mut Lane<T>) -> Option<(Spot, Whole<T>)>
        requires owns { Owns self.now lane.old }
        ensures none { IsNone result → (lane.new ≡ lane.old) × ((the_lane lane.old.book).chain ≡ []) }
        ensures some { IfSome result (λ taken. FollowsChain T.content T.room lane.old lane.new taken.0.place taken.1.object) }
        ensures spot { IfSome result (λ taken. IsSpot self.now.shape taken.0 taken.0.place) }
        ensures at { IfSome result (λ taken. taken.1.spot ≡ spots_at self.now.directory self.now.shape taken.0.place) }
        ensures fillings { (filling : FillingOf T) → Made lane.old filling → Made lane.new filling }
    {
        let first = lane.state.free.chain()?;
        let spot = self.grid.spot(first.number());
        let number = lane.state.number;
        let (link, whole) = follow(&self.grid, &mut lane.hand, spot, number);
        follow_on(&mut lane.state, link);
        Some((spot, whole))
    }

    /// A look at the generation of a place of the lane that nobody has: a filling of it.
    fn fill(&self, lane: &mut Lane<T>, spot: Spot, whole: Whole<T>) -> Filling<T>
        requires owns { Owns self.now lane.old }
        requires spot { IsSpot self.now.shape spot spot.place }
        requires at { whole.spot ≡ spots_at self.now.directory self.now.shape spot.place }
        requires loose { IsLoose T.content T.room lane.old spot.place whole.object }
        ensures fills { Fills lane.old lane.new spot.place whole.object result }
        ensures fillings { (filling : FillingOf T) → Made lane.old filling → Made lane.new filling }
    {
        let key = next_key(&self.grid, &mut lane.hand, spot);
        Filling::of(
            &lane.hand,
            key,
            spot.start,
            self.grid.objects,
            whole,
            self.alloc,
        )
    }
}

/// Where the first place of the lane's own list stands, and its cell. None where the list is empty.
fn pop<T: Clear + Drop>(lane: &mut Lane<T>) -> Option<(Spot, Whole<T>)>
    ensures none { IsNone result → (lane.new ≡ lane.old) × (lane.old.free.own ≡ []) }
    ensures some { IfSome result (λ taken. Pops T.content T.room lane.old lane.new taken.0.place taken.1.object) }
    ensures spot { IfSome result (λ taken. IsSpot lane.old.shape taken.0 taken.0.place) }
    ensures at { IfSome result (λ taken. taken.1.spot ≡ spots_at lane.old.directory lane.old.shape taken.0.place) }
    ensures fillings { (filling : FillingOf T) → Made lane.old filling → Made lane.new filling }
{
    let (spot, whole) = take_own(&mut lane.state)?;
    Some((spot, whole))
}

/// Opens the lane's next page: an object for each of its places, which are then the lane's own list.
fn open_page<T: Clear + Drop>(lane: &mut Lane<T>) -> Result<(), CreateFault>
    requires own { lane.old.free.own ≡ [] }
    requires chain { (the_lane lane.old.book).chain ≡ [] }
    ensures opens { IsOk result → OpensPage lane.old lane.new }
    ensures none { IsErr result → lane.new ≡ lane.old }
    ensures full { IsErrOf result Full → lane.old.pages.opened ≡ lane.old.shape.pages }
    ensures memory { IsErrOf result Memory → lane.old.pages.opened < lane.old.shape.pages }
    ensures fillings { (filling : FillingOf T) → Made lane.old filling → Made lane.new filling }
{
    let page = lane.state.pages.opened();
    if page == lane.state.shape.pages {
        return Err(CreateFault::Full);
    }
    let size = lane.state.shape.page_size(page);
    let Some(objects) = fresh_objects(lane.state.alloc, size) else {
        return Err(CreateFault::Memory);
    };
    open_next(&mut lane.state, objects);
    Ok(())
}

/// So many empty objects. None where memory was refused.
fn fresh_objects<T: Clear + Drop>(alloc: Global, count: u32) -> Option<Vec<T>>
    ensures count { IfSome result (λ objects. length objects.items ≡ count) }
    ensures empty { IfSome result (λ objects. All (λ object. T.content object ≡ []) objects.items) }
{
    let mut objects = Vec::with_capacity(alloc, count as usize).ok()?;
    for _ in 0..count {
        objects.push_reserved(T::fresh(alloc));
    }
    Some(objects)
}

/// TAKEs of the stacks of the lane's shard, by rising number of the lanes that return to it, up to the first that has
/// places: they are then the lane's taken chain. Answers the word that was found there, which leads to the first of
/// them; 0 where none had places. It makes at most one step for each other lane and no look, and takes no memory.
pub(crate) fn collect<T: Clear>(grid: &Grid<T>, hand: &mut Hand<T>, lane: u32) -> u64
    requires hand { IsOf grid.now hand.old × IsOne hand.old.me.0 }
    requires lane { (lane ≡ (the_lane hand.old.me.0).lane) × (lane < grid.now.shape.lanes) }
    requires seen { IsLawful grid.now.shape hand.old.me.0 × (length hand.old.me.0.rooms ≡ length hand.old.me.0.seen) }
    requires chain { (the_lane hand.old.me.0).chain ≡ [] }
    ensures hand { SameSeat hand.old hand.new }
    ensures collects { (opened : ℕ) → 0 < opened → Collects grid.now.shape opened result hand.old.me hand.new.me }
{
    home_law();
    for from in 0..grid.shape.lanes {
        if from != lane {
            let found = grid.take(hand, lane, from);
            if found != 0 {
                return found;
            }
        }
    }
    0
}

/// FOLLOW of the first place of the taken chain, and OUT of its object, which rested there. Answers the place's link
/// word, which leads to the next place, or is 0 at the chain's end; and the object. It takes no memory.
pub(crate) fn follow<T: Clear + Drop>(
    grid: &Grid<T>,
    hand: &mut Hand<T>,
    spot: Spot,
    lane: u32,
) -> (u64, Whole<T>)
    requires hand { IsOf grid.now hand.old × IsOne hand.old.me.0 }
    requires spot { IsSpot grid.now.shape spot spot.place }
    requires lane { (lane ≡ (the_lane hand.old.me.0).lane) × (lane < grid.now.shape.lanes) }
    requires chain { (the_lane hand.old.me.0).chain ≡ spot.place ∷ rest_of (the_lane hand.old.me.0).chain }
    requires place { (pool_after grid.now.shape hand.old.me.0.seen spot.place).phase ≡ with lane }
    requires rests { AreAtRest grid.now.shape (the_lane hand.old.me.0) spot.place }
    ensures hand { SameSeat hand.old hand.new }
    ensures follows { FollowsOut grid.now.shape spot.place result.0 hand.old.me hand.new.me }
    ensures place { (pool_after grid.now.shape hand.new.me.0.seen spot.place).phase ≡ with lane }
    ensures cell { ShowsCell T.content T.room (spots_at grid.now.objects.ptr grid.now.shape) spot.place
        (known_of (the_lane hand.old.me.0) spot.place) result.1 }
{
    let link = grid.follow(hand, spot);
    (link, take_resting(grid, hand, spot, lane))
}

/// A look at the generation of a place of the lane's shard that is with it: answers the key under which it may then
/// be published. It takes no memory.
pub(crate) fn next_key<T: Clear>(grid: &Grid<T>, hand: &mut Hand<T>, spot: Spot) -> u64
    requires hand { IsOf grid.now hand.old × IsOne hand.old.me.0 }
    requires spot { IsSpot grid.now.shape spot spot.place }
    requires idle { IsIdle hand.old.me.0 }
    requires own { shard_of spot.place ≡ (the_lane hand.old.me.0).lane }
    requires place { (pool_after grid.now.shape hand.old.me.0.seen spot.place).phase ≡ with (the_lane hand.old.me.0).lane }
    requires unchained { times spot.place (the_lane hand.old.me.0).chain ≡ 0 }
    ensures hand { SameSeat hand.old hand.new }
    ensures sees { Sees grid.now.shape hand.old.me hand.new.me }
    ensures key { result ≡ key_number grid.now.shape.tag spot.place (pool_after grid.now.shape hand.new.me.0.seen spot.place).generation }
    ensures may { MayPublish grid.now.shape hand.new.me.0 result }
{
    let generation = grid.generation(hand, spot);
    let place = Place::of_number(spot.place);
    match Key::pack_tagged(grid.shape.tag as u8, place, generation) {
        Some(key) => key.number(),
        None => unreachable!(),
    }
}
