//! Lanes that lend. What such a lane has a reference to is read without the lane, by any thread, until it is given back.
ghost use Rattle.std.specs.Prelude.{◌≡◌, ◌≢◌, ◌+◌, ◌-◌, ◌<◌};
ghost use Rattle.steplaws.specs.Facts.{most_references};

use crate::closing::HandRow;
use crate::get::end_miss;
use crate::notes::Note;
use crate::pool::{CachePadded, Lane, LaneState, Pool};
use crate::reclaim::finish_if_owed;
use keybits::{is_hit, place_of};
use poolsteps::{Base, Hand, Purpose, Slot, Spot, shares_law};
use seatcalls::InPlace;
use slotcell::Clear;
use std::alloc::Global;
use std::marker::Model;

/// The share under a reference of a lending lane, with which any thread reads the object. It is to be given back to that
/// lane: one that is dropped leaves its reference with the lane, whose pool then isn't closed.
#[derive(Drop)]
pub struct Loan<T> {
    key: u64,
    /// Where the key's place stands.
    start: u32,
    /// Where the objects of the pool stand.
    directory: Base<T>,
    share: Slot<T>,
}

impl<T> Model for Loan<T> {
    ghost use Rattle.std.specs.Prelude.{◌≡◌, Some};
    ghost use Rattle.poolsteps.specs.Share.{Share as Shown};
    ghost use Rattle.shardpool.specs.Loans.{LoanOf, loan_code};

    ghost Value = { LoanOf T };

    ghost coded = { loan_code T.code };

    ghost view = { λ l. record { key = l.key; start = l.start; share = l.share } };

    ghost invariant = { λ l. (share : Shown T) × (l.share ≡ Some share)
        × (share.spot ≡ record { directory = l.directory.ptr; index = l.start }) };
}

impl<T> Loan<T> {
    ghost use Rattle.std.specs.Prelude.{◌≡◌, IfSome};

    /// The key of the object.
    pub fn key(&self) -> u64
        ensures { result ≡ self.now.key }
    {
        self.key
    }

    /// The object, which nobody writes while the loan is there.
    pub fn read(&self) -> &T
        ensures { IfSome self.now.share (λ share. result.now ≡ share.object) }
    {
        self.share.read(self.directory, self.start as usize)
    }
}

/// A lane that lends the share under each of its references. It has no other calls.
#[derive(Drop)]
pub struct LendingLane<T: Clear> {
    hand: Hand<T>,
    ahead: CachePadded,
    state: LaneState<T>,
    row: HandRow<T>,
    behind: CachePadded,
}

impl<T: Clear> Model for LendingLane<T> {
    ghost use Rattle.std.specs.Prelude.{◌≡◌, []};
    ghost use Rattle.shardpool.specs.Tokens.{LaneOf};
    ghost use Rattle.shardpool.specs.Loans.{FitsLending};

    ghost Value = { LaneOf };

    ghost view = { λ l. record {
      table = l.hand.table_id;
      directory = l.state.objects.directory;
      shape = l.state.shape;
      number = l.state.number;
      book = l.hand.me.0;
      free = l.state.free;
      pages = l.state.pages;
    } };

    ghost invariant = { λ l. (l.hand.me.1 ≡ []) × FitsLending T.content T.room l.state.shape l.hand.me.0 l.state };
}

impl<T: Clear + Drop> LendingLane<T> {
    ghost use Rattle.std.specs.Prelude.{◌≡◌, ◌<◌, ◌≤◌, ◌+◌, ℕ, [], option_map, IfOk, IfErr, IfSome};
    ghost use mathlib.Core.List.{IsPrefix};
    ghost use Rattle.keybits.specs.Keys.{place_of};
    ghost use Rattle.seqpool.specs.Pool.{IsLegal};
    ghost use Rattle.seqpool.specs.Histories.{acts_of};
    ghost use Rattle.steplaws.specs.Facts.{most_references};
    ghost use Rattle.poolsteps.specs.Seats.{looked_once};
    ghost use Rattle.poolsteps.specs.Views.{the_lane};
    ghost use Rattle.shardpool.specs.Lanes.{Owns, Issued, Did, holds, refs};
    ghost use Rattle.shardpool.specs.AfterCalls.{AfterGet, AfterRelease};
    ghost use Rattle.shardpool.specs.Loans.{IsLent, KeepsLoans, KeepsOtherLoans};

    /// The lane, to lend.
    ///
    /// # Errors
    ///
    /// The lane, where it has a reference.
    pub fn of(lane: Lane<T>) -> Result<LendingLane<T>, Lane<T>>
        ensures ok { IfOk result (λ lending. (lending ≡ lane) × (refs lane ≡ 0)) }
        ensures err { IfErr result (λ back. (back ≡ lane) × (1 ≤ refs lane)) }
    {
        if lane.refs() > 0 {
            return Err(lane);
        }
        let Lane {
            hand,
            ahead,
            state,
            row,
            behind,
        } = lane;
        Ok(LendingLane {
            hand,
            ahead,
            state,
            row,
            behind,
        })
    }

    /// The lane, for all calls, once each loan was given back.
    ///
    /// # Errors
    ///
    /// The lending lane, where it still has a reference.
    pub fn into_lane(self) -> Result<Lane<T>, LendingLane<T>>
        ensures ok { IfOk result (λ lane. (lane ≡ self) × (refs self ≡ 0)) }
        ensures err { IfErr result (λ back. (back ≡ self) × (1 ≤ refs self)) }
    {
        if self.state.references > 0 {
            return Err(self);
        }
        let LendingLane {
            hand,
            ahead,
            state,
            row,
            behind,
        } = self;
        Ok(Lane {
            hand,
            ahead,
            state,
            row,
            behind,
        })
    }

    /// The lane's number.
    pub fn number(&self) -> u32
        ensures { result ≡ self.now.number }
    {
        self.state.number
    }

    /// How many references the lane has: as many as loans are out.
    pub fn refs(&self) -> u32
        ensures { result ≡ refs self.now }
    {
        self.state.references
    }

    /// As a law: the references to a key are among all that the lane has.
    pub fn held_law(&self)
        ensures { (key : ℕ) → holds self.now key ≤ refs self.now }
    {
        // A proof knows the invariant of a lane once a field of it is seen.
        let _ = &self.state;
    }

    /// As a law: what the lane has seen is a legal history of the pool, with just those of the lane's acts that it made.
    pub fn seen_law(&self)
        ensures legal { IsLegal self.now.shape self.now.book.seen }
        ensures own { (the_lane self.now.book).mine ≡ acts_of self.now.number self.now.book.seen }
    {
        // A proof knows the invariant of a lane once a field of it is seen.
        let _ = &self.state;
    }

    /// A get of a key to which the lane has no reference, whose share it lends. None where a get misses.
    pub fn lend(&mut self, pool: &Pool<T>, key: u64) -> Option<Loan<T>>
        requires owns { Owns pool.now self.old }
        requires room { refs self.old < most_references }
        requires first { holds self.old key ≡ 0 }
        ensures got { AfterGet T pool.now key self.old self.new (option_map (λ loan. record { key = key }) result) }
        ensures lent { IfSome result (λ loan. (loan.key ≡ key) × IsLent T.content T.room self.new loan) }
        ensures kept { KeepsLoans T.content T.room self.old self.new }
    {
        shares_law();
        let number = self.state.number;
        let spot = pool.find(key)?;
        let found = pool.grid.enter(&mut self.hand, spot, key, Purpose::ToGet);
        if !is_hit(key, found) {
            let mut in_place = InPlace;
            end_miss(
                &pool.grid,
                &mut self.hand,
                &mut self.state,
                spot,
                key,
                &mut in_place,
            );
            return None;
        }
        let share = pool.grid.out(&mut self.hand, spot, number, number);
        count_more(&mut self.state);
        Some(Loan {
            key,
            start: spot.start,
            directory: pool.grid.objects,
            share: Slot::filled(share),
        })
    }

    /// Gives back a loan, which is all that the lane lends of its key, and with it the reference. Where that was the
    /// last to a key that is cleared, the object is cleared in place.
    pub fn give_back(&mut self, pool: &Pool<T>, loan: Loan<T>)
        requires owns { Owns pool.now self.old }
        requires lent { IsLent T.content T.room self.old loan }
        requires last { holds self.old loan.key ≡ 1 }
        ensures released { AfterRelease T pool.now loan.key self.old self.new }
        ensures kept { KeepsOtherLoans T.content T.room loan.key self.old self.new }
    {
        let Loan {
            key,
            start,
            directory: _,
            share,
        } = loan;
        let spot = Spot {
            place: place_of(key),
            start,
        };
        self.take_back(pool, spot, key, share);
    }

    /// Takes back the share that is lent of a key, whose place stands here, and gives back the reference.
    #[inline]
    fn take_back(&mut self, pool: &Pool<T>, spot: Spot, key: u64, share: Slot<T>)
        requires owns { Owns pool.now self.old }
        requires place { spot.place ≡ place_of key }
        requires lent { IsLent T.content T.room self.old (record { key = key; start = spot.start; share = share }) }
        requires last { holds self.old key ≡ 1 }
        ensures released { AfterRelease T pool.now key self.old self.new }
        ensures kept { KeepsOtherLoans T.content T.room key self.old self.new }
    {
        shares_law();
        let number = self.state.number;
        pool.grid
            .settle(&mut self.hand, spot, number, number, share);
        count_less(&mut self.state);
        let left = pool.grid.leave(&mut self.hand, spot, key);
        let mut in_place = InPlace;
        finish_if_owed(
            &pool.grid,
            &mut self.hand,
            &mut self.state,
            spot,
            key,
            left,
            &mut in_place,
        );
    }

    /// As `Pool::tell`.
    pub fn tell(&mut self, pool: &Pool<T>) -> Note<T>
        requires { Owns pool.now self.old }
        ensures note { Issued pool.now result × (result.book.seen ≡ self.old.book.seen) }
        ensures rooms { result.book.rooms ≡ self.old.book.rooms }
        ensures lane { self.new ≡ record self.old { book = looked_once self.old.book } }
        ensures kept { KeepsLoans T.content T.room self.old self.new }
    {
        Note {
            hand: pool.grid.note(&mut self.hand),
        }
    }

    /// As `Pool::hear`.
    pub fn hear(&mut self, pool: &Pool<T>, note: Note<T>)
        requires owns { Owns pool.now self.old }
        requires note { Issued pool.now note }
        ensures owns { Owns pool.now self.new }
        ensures heard { IsPrefix note.book.seen self.new.book.seen × IsPrefix self.old.book.seen self.new.book.seen }
        ensures rooms { IsPrefix note.book.rooms self.new.book.rooms × IsPrefix self.old.book.rooms self.new.book.rooms }
        ensures goes { Did [] self.old self.new }
        ensures steps { self.new.book.steps ≡ self.old.book.steps }
        ensures looks { self.new.book.looks ≡ self.old.book.looks + 1 }
        ensures refs { refs self.new ≡ refs self.old }
        ensures held { (key : ℕ) → holds self.new key ≡ holds self.old key }
        ensures kept { KeepsLoans T.content T.room self.old self.new }
    {
        let number = self.state.number;
        pool.grid.hear(&mut self.hand, number, note.hand);
    }
}

/// One reference more.
#[inline]
fn count_more<T: Drop>(state: &mut LaneState<T>)
    requires { state.old.references < most_references }
    ensures { state.new ≡ record state.old { references = state.old.references + 1 } }
{
    state.references += 1;
}

/// One reference less.
#[inline]
fn count_less<T: Drop>(state: &mut LaneState<T>)
    requires { 0 < state.old.references }
    ensures { state.new ≡ record state.old { references = state.old.references - 1 } }
{
    state.references -= 1;
}
