//! A place that a guest claimed: the guest has its object, until it gives the place back.
ghost use Rattle.std.specs.Prelude.{◌≡◌, ◌≢◌, ◌≤◌, ℕ, true, [], length};
ghost use Rattle.keybits.specs.Keys.{key_number};
ghost use Rattle.keybits.specs.Places.{shard_of};
ghost use Rattle.steplaws.specs.Facts.{guest_home};
ghost use Rattle.poolsteps.specs.Layout.{spots_at};
ghost use Rattle.poolsteps.specs.Shares.{room_of};
ghost use Rattle.poolsteps.specs.Views.{the_lane, known_of};
ghost use Rattle.poolsteps.specs.Grids.{SameSeat};
ghost use Rattle.poolsteps.specs.Told.{LeftAlone, IsIdle, WasPublished};
ghost use Rattle.seatcalls.specs.Called.{Did};
ghost use Rattle.seatcalls.specs.Carried.{AreEmptied, AreAtRest, MayMoveCell, MovesCell};
ghost use Rattle.seatcalls.specs.Guests.{given_acts, MayGive};
ghost use Rattle.seatcalls.specs.Visitors.{Visits, HasClaimedPlace};

use crate::cell_moves::{rest_cell, take_cell};
use crate::guests::Guest;
use crate::kept_snapshot::KeptSnapshot;
use keybits::Shape;
use poolsteps::{Base, Grid, Hand, Spot, Whole, shares_law};
use slotcell::Clear;
use std::alloc::Global;
use std::marker::Model;
use std::mem;

/// A place that a guest claimed, with its object, which nobody else reaches. It must be given back.
pub struct Claimed<T> {
    // (In this order the fields of 8 bytes are moved as such, so that a claim that is given back at once takes no memory.)
    spot: Spot,
    directory: Base<T>,
    hand: Hand<T>,
    number: u32,
    generation: u32,
    shape: KeptSnapshot<Shape>,
    whole: Whole<T>,
}

impl<T> Model for Claimed<T> {
    ghost use Rattle.std.specs.Prelude.{◌≡◌, []};
    ghost use Rattle.poolsteps.specs.Grids.{IsSpot};
    ghost use Rattle.poolsteps.specs.Spot.{IsAt};
    ghost use Rattle.poolsteps.specs.Views.{the_lane};
    ghost use Rattle.seatcalls.specs.Carried.{AreEmptied};
    ghost use Rattle.seatcalls.specs.Visitors.{ClaimedOf, HasClaimedPlace};

    ghost Value = { ClaimedOf T };

    ghost view = { λ c. record {
      guest = record { table = c.hand.table_id; shape = c.shape.value; number = c.number; book = c.hand.me.0 };
      directory = c.directory.ptr;
      place = c.spot.place;
      generation = c.generation;
      object = c.whole.object;
    } };

    ghost invariant = { λ c. (c.hand.me.1 ≡ []) × IsSpot c.shape.value c.spot c.spot.place
        × IsAt c.whole.spot c.directory.ptr c.spot.start × AreEmptied c.shape.value (the_lane c.hand.me.0) c.spot.place
        × HasClaimedPlace c.shape.value c.hand.me.0 c.number c.spot.place c.generation };
}

impl<T: Clear + Drop> Claimed<T> {
    ghost use Rattle.std.specs.Prelude.{◌≡◌, ◌≢◌, ◌≤◌, true, []};
    ghost use Rattle.std.specs.Borrow.{sem};
    ghost use Rattle.keybits.specs.Places.{shard_of};
    ghost use Rattle.keybits.specs.Shapes.{is_place};
    ghost use Rattle.steplaws.specs.Facts.{guest_home};
    ghost use Rattle.poolsteps.specs.Shares.{room_of};
    ghost use Rattle.poolsteps.specs.Seats.{heard_of, HasHeard};
    ghost use Rattle.poolsteps.specs.Grids.{IsOf};
    ghost use Rattle.seatcalls.specs.Guests.{given_acts};
    ghost use Rattle.seatcalls.specs.Visitors.{Visits};
    ghost use Rattle.seatcalls.specs.ClaimLends.{LendsClaimed};

    /// The place, which is one of the pool.
    pub fn place(&self) -> u32
        ensures place { result ≡ self.now.place }
        ensures inside { is_place self.now.guest.shape self.now.place ≡ true }
    {
        self.spot.place
    }

    /// The object, as it was published.
    pub fn object(&self) -> &T
        ensures { result.now ≡ self.now.object }
    {
        self.whole.get(self.directory, self.spot.start as usize)
    }

    /// The object, to be emptied. Nothing of the pool is borrowed meanwhile.
    pub fn object_mut(&mut self) -> &mut T
        ensures* writes_back { sem 𝓛 (LendsClaimed T.row self.old self.entry result) }
        ensures object { result.now ≡ self.old.object }
    {
        self.whole.get_mut(self.directory, self.spot.start as usize)
    }

    /// Takes in a note: what the guest has then seen begins with what the note has. It makes a look, and no step; the place
    /// and its object stay as they are.
    pub fn hear(&mut self, grid: &Grid<T>, note: Hand<T>)
        requires of { (self.old.guest.table ≡ grid.now.table.shared.table_id) × (self.old.guest.shape ≡ grid.now.shape) }
        requires note { IsOf grid.now note × (note.me.1 ≡ []) }
        ensures heard { HasHeard self.new.guest.book (heard_of note.me.0) }
        ensures goes { Visits [] 0 1 self.old.guest self.new.guest }
        ensures claimed { self.new ≡ record self.old { guest = self.new.guest } }
        ensures room { room_of self.new.guest.book.seen self.new.guest.book.rooms self.old.place
            ≡ room_of self.old.guest.book.seen self.old.guest.book.rooms self.old.place }
    {
        shares_law();
        let number = self.number;
        grid.hear(&mut self.hand, number, note);
    }

    /// Gives the place back, whose object is empty and has no less room than it had when it was published: by one step it
    /// is home, for the lane of its shard to fill again. Where its last generation is over, it gets no object any more;
    /// this one is dropped.
    #[inline(always)]
    pub fn give_back(self, grid: &Grid<T>, alloc: Global) -> Guest<T>
        requires table { self.guest.table ≡ grid.now.table.shared.table_id }
        requires grid { (self.guest.shape ≡ grid.now.shape) × (self.directory ≡ grid.now.objects.ptr) }
        requires empty { T.content self.object ≡ [] }
        requires room { room_of self.guest.book.seen self.guest.book.rooms self.place ≤ T.room self.object }
        ensures gives { Visits (given_acts self.guest.shape self.guest.number self.place self.generation) 1 2 self.guest result }
        ensures home { self.generation ≢ self.guest.shape.last_generation
            → guest_home self.guest.shape result.book.seen (shard_of self.place) self.place ≡ true }
    {
        let Claimed {
            mut hand,
            number,
            shape,
            spot,
            generation,
            directory: _,
            whole,
        } = self;
        give_home(grid, &mut hand, spot, number, alloc, generation, whole);
        Guest {
            hand,
            number,
            shape,
        }
    }
}

/// What a guest has that claimed a place: the place's object, by two looks.
#[inline(always)]
pub(crate) fn keep<T: Clear + Drop>(
    grid: &Grid<T>,
    hand: Hand<T>,
    number: u32,
    shape: KeptSnapshot<Shape>,
    spot: Spot,
    generation: u32,
) -> Claimed<T>
    requires act { MayGive grid.now hand spot number }
    requires shape { shape.value ≡ grid.now.shape }
    requires claimed { HasClaimedPlace grid.now.shape hand.me.0 number spot.place generation }
    requires left { LeftAlone grid.now.shape (the_lane hand.me.0) spot.place }
    ensures at { (result.directory ≡ grid.now.objects.ptr) × (result.place ≡ spot.place) × (result.generation ≡ generation) }
    ensures object { (T.content result.object ≡ (known_of (the_lane hand.me.0) spot.place).content)
        × (T.room result.object ≡ (known_of (the_lane hand.me.0) spot.place).room) }
    ensures room { room_of result.guest.book.seen result.guest.book.rooms spot.place ≡ room_of hand.me.0.seen hand.me.0.rooms spot.place }
    ensures made { Visits [] 0 2
        (record { table = hand.table_id; shape = grid.now.shape; number = number; book = hand.me.0 }) result.guest }
{
    shares_law();
    let mut hand = hand;
    let whole = take_cell(grid, &mut hand, spot, number);
    Claimed {
        hand,
        number,
        shape,
        spot,
        generation,
        directory: grid.objects,
        whole,
    }
}

/// A place that a guest claimed at this generation goes home by its bit, with its object, which is empty; or it is retired.
#[inline(always)]
fn give_home<T: Clear + Drop>(
    grid: &Grid<T>,
    hand: &mut Hand<T>,
    spot: Spot,
    number: u32,
    alloc: Global,
    generation: u32,
    whole: Whole<T>,
)
    requires act { MayGive grid.now hand.old spot number }
    requires claimed { HasClaimedPlace grid.now.shape hand.old.me.0 number spot.place generation }
    requires slots { AreEmptied grid.now.shape (the_lane hand.old.me.0) spot.place }
    requires at { whole.spot ≡ spots_at grid.now.objects.ptr grid.now.shape spot.place }
    requires empty { T.content whole.object ≡ [] }
    requires room { room_of hand.old.me.0.seen hand.old.me.0.rooms spot.place ≤ T.room whole.object }
    ensures hand { SameSeat hand.old hand.new }
    ensures did { Did grid.now.shape spot.place (given_acts grid.now.shape number spot.place generation)
        (length (given_acts grid.now.shape number spot.place generation)) 2 hand.old.me hand.new.me }
    ensures idle { IsIdle hand.new.me.0 }
    ensures rests { generation ≡ grid.now.shape.last_generation → AreAtRest grid.now.shape (the_lane hand.new.me.0) spot.place }
    ensures home { generation ≢ grid.now.shape.last_generation
        → guest_home grid.now.shape hand.new.me.0.seen (shard_of spot.place) spot.place ≡ true }
{
    shares_law();
    if generation == grid.shape.last_generation {
        retire_at(grid, hand, spot, number, alloc, whole);
        return;
    }
    rest_cell(grid, hand, spot, number, whole);
    grid.give_bit(hand, spot);
}

/// Drops the object of a place that gets none any more: an empty one then rests there until the pool is closed. Apart, for
/// each place comes here once at most.
#[cold]
#[inline(never)]
fn retire_at<T: Clear + Drop>(
    grid: &Grid<T>,
    hand: &mut Hand<T>,
    spot: Spot,
    number: u32,
    alloc: Global,
    mut whole: Whole<T>,
)
    requires may { MayMoveCell grid.now hand.old spot number }
    requires slots { AreEmptied grid.now.shape (the_lane hand.old.me.0) spot.place }
    requires whole { whole.spot ≡ spots_at grid.now.objects.ptr grid.now.shape spot.place }
    ensures moves { MovesCell grid.now spot.place 2 hand.old hand.new }
    ensures slots { AreAtRest grid.now.shape (the_lane hand.new.me.0) spot.place }
{
    let object = whole.get_mut(grid.objects, spot.start as usize);
    drop(mem::replace(object, T::fresh(alloc)));
    rest_cell(grid, hand, spot, number, whole);
}
