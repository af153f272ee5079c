//! A lane that lends, with the loans that are out.
use crate::out::Out;
use crate::outs;
use crate::owned::Owned;
use crate::refusal::Refusal;
use seqpool::once_law;
use shardpool::{Lane, LendingLane, Note, Pool};
use slotcell::Clear;
use std::alloc::Global;
use std::marker::Model;

/// A lane that lends, with the loans that are out: of each it is an owner too, so that none ends before it is given back.
#[derive(Drop)]
pub struct Lender<T: Clear> {
    lane: LendingLane<T>,
    out: Vec<Out<T>>,
    alloc: Global,
}

impl<T: Clear> Model for Lender<T> {
    ghost use Rattle.lendings.specs.Lenders.{LenderOf, AreOut};
    ghost use Rattle.lendings.specs.Outs.{loans_of};

    ghost Value = { LenderOf T };

    ghost view = { λ l. record { lane = l.lane; loans = loans_of l.out.items } };

    ghost invariant = { λ l. AreOut T.content T.room l.lane (loans_of l.out.items) };
}

impl<T: Clear + Drop> Lender<T> {
    ghost use Rattle.std.specs.Prelude.{◌≡◌, ◌≢◌, ◌≤◌, ◌+◌, [], length, IfOk, IfErr, IfSome};
    ghost use mathlib.Core.List.{IsPrefix};
    ghost use Rattle.seqpool.specs.Pool.{IsLegal};
    ghost use Rattle.seqpool.specs.Histories.{acts_of};
    ghost use Rattle.poolsteps.specs.Seats.{looked_once};
    ghost use Rattle.poolsteps.specs.Views.{the_lane};
    ghost use Rattle.shardpool.specs.Lanes.{Owns, Issued, Did, refs};
    ghost use Rattle.shardpool.specs.Loans.{KeepsLoans, KeepsOtherLoans};
    ghost use Rattle.lendings.specs.Lenders.{AreOut, GoesOnQuietly};
    ghost use Rattle.lendings.specs.Owners.{ShowsKey};
    ghost use Rattle.lendings.specs.Owning.{IsOwned, Disowns};
    ghost use Rattle.lendings.specs.Sweeps.{Sweeps};

    /// A lane that lends, of which no loan is out.
    ///
    /// # Errors
    ///
    /// The lane, where it has a reference.
    pub fn of(alloc: Global, lane: Lane<T>) -> Result<Lender<T>, Lane<T>>
        ensures ok { IfOk result (λ lender. lender ≡ record { lane = lane; loans = [] }) }
        ensures err { IfErr result (λ back. (back ≡ lane) × (1 ≤ refs lane)) }
    {
        let lane = LendingLane::of(lane)?;
        lane.held_law();
        Ok(Lender {
            lane,
            out: Vec::new(alloc),
            alloc,
        })
    }

    /// The number of the lane.
    pub fn number(&self) -> u32
        ensures { result ≡ self.now.lane.number }
    {
        self.lane.number()
    }

    /// How many loans are out: those that were not given back, with owners or without.
    pub fn outstanding(&self) -> usize
        ensures { result ≡ length self.now.loans }
    {
        self.out.len()
    }

    /// As a law: the loans that are out are lent by the lane, each under a key of its own, to which it has one reference;
    /// and it has no others.
    pub fn out_law(&self)
        ensures { AreOut T.content T.room self.now.lane self.now.loans }
    {
        // A proof knows the invariant once a field is seen.
        let _ = &self.lane;
    }

    /// As `LendingLane::seen_law`.
    pub fn seen_law(&self)
        ensures legal { IsLegal self.now.lane.shape self.now.lane.book.seen }
        ensures own { (the_lane self.now.lane.book).mine ≡ acts_of self.now.lane.number self.now.lane.book.seen }
    {
        self.lane.seen_law();
    }

    /// An owner of the object of a key. Where a loan of the key is out, one more of that loan, without a call of the lane:
    /// also where the key was cleared since. Else a get lends it; None where that misses. It looks through the loans that
    /// are out, one after another.
    ///
    /// # Errors
    ///
    /// As `Refusal` says. Where the loan has as many owners as can be counted, it is out with those.
    pub fn own(&mut self, pool: &Pool<T>, key: u64) -> Result<Option<Owned<T>>, Refusal>
        requires { Owns pool.now self.old.lane }
        ensures owns { Owns pool.now self.new.lane }
        ensures owned { IsOwned T.content T.room pool.now key self.old self.new result }
        ensures shows { IfOk result (λ found. IfSome found (ShowsKey T.content key self.new.lane)) }
        ensures quiet { GoesOnQuietly self.old.lane self.new.lane }
        ensures kept { KeepsLoans T.content T.room self.old.lane self.new.lane }
    {
        once_law();
        let owned = outs::own(&mut self.lane, &mut self.out, self.alloc, pool, key);
        self.lane.seen_law();
        owned
    }

    /// Takes an owner back. Where none is left, its loan ends: the lane gives the reference back. Whether it ended.
    ///
    /// # Errors
    ///
    /// The owner, where it is of a lane of another number, or no loan of its key is out.
    pub fn disown(&mut self, pool: &Pool<T>, owned: Owned<T>) -> Result<bool, Owned<T>>
        requires { Owns pool.now self.old.lane }
        ensures owns { Owns pool.now self.new.lane }
        ensures disowned { Disowns T.content T.room pool.now owned self.old self.new result }
        ensures quiet { GoesOnQuietly self.old.lane self.new.lane }
        ensures kept { KeepsOtherLoans T.content T.room owned.loan.key self.old.lane self.new.lane }
    {
        if owned.lane() != self.lane.number() {
            return Err(owned);
        }
        let Some(index) = outs::find(self.out.as_slice(), owned.key()) else {
            return Err(owned);
        };
        drop(owned);
        Ok(outs::end(&mut self.lane, &mut self.out, pool, index))
    }

    /// Ends each loan of which no owner is left, as where owners were dropped. How many ended.
    pub fn sweep(&mut self, pool: &Pool<T>) -> usize
        requires { Owns pool.now self.old.lane }
        ensures sweeps { Sweeps T.content T.room pool.now self.old self.new }
        ensures ended { result + length self.new.loans ≡ length self.old.loans }
    {
        outs::end_all(&mut self.lane, &mut self.out, pool)
    }

    /// As `LendingLane::tell`.
    pub fn tell(&mut self, pool: &Pool<T>) -> Note<T>
        requires { Owns pool.now self.old.lane }
        ensures note { Issued pool.now result × (result.book.seen ≡ self.old.lane.book.seen) }
        ensures rooms { result.book.rooms ≡ self.old.lane.book.rooms }
        ensures lane { self.new.lane ≡ record self.old.lane { book = looked_once self.old.lane.book } }
        ensures quiet { GoesOnQuietly self.old.lane self.new.lane }
        ensures loans { self.new.loans ≡ self.old.loans }
        ensures kept { KeepsLoans T.content T.room self.old.lane self.new.lane }
    {
        self.lane.tell(pool)
    }

    /// As `LendingLane::hear`.
    pub fn hear(&mut self, pool: &Pool<T>, note: Note<T>)
        requires owns { Owns pool.now self.old.lane }
        requires note { Issued pool.now note }
        ensures owns { Owns pool.now self.new.lane }
        ensures heard { IsPrefix note.book.seen self.new.lane.book.seen × IsPrefix self.old.lane.book.seen self.new.lane.book.seen }
        ensures rooms { IsPrefix note.book.rooms self.new.lane.book.rooms × IsPrefix self.old.lane.book.rooms self.new.lane.book.rooms }
        ensures goes { Did [] self.old.lane self.new.lane }
        ensures quiet { GoesOnQuietly self.old.lane self.new.lane }
        ensures steps { self.new.lane.book.steps ≡ self.old.lane.book.steps }
        ensures looks { self.new.lane.book.looks ≡ self.old.lane.book.looks + 1 }
        ensures loans { self.new.loans ≡ self.old.loans }
        ensures kept { KeepsLoans T.content T.room self.old.lane self.new.lane }
    {
        self.lane.hear(pool, note);
    }

    /// Sweeps. The lane, for all calls, once no loan is out.
    ///
    /// # Errors
    ///
    /// The lender, where a loan has an owner left.
    pub fn close(self, pool: &Pool<T>) -> Result<Lane<T>, Lender<T>>
        requires { Owns pool.now self.lane }
        ensures ok { IfOk result (λ lane. (refs lane ≡ 0) × Sweeps T.content T.room pool.now self (record { lane = lane; loans = [] })) }
        ensures err { IfErr result (λ back. (back.loans ≢ []) × Sweeps T.content T.room pool.now self back) }
    {
        let Lender {
            mut lane,
            mut out,
            alloc,
        } = self;
        outs::end_all(&mut lane, &mut out, pool);
        match lane.into_lane() {
            Ok(lane) => Ok(lane),
            Err(lane) => Err(Lender { lane, out, alloc }),
        }
    }
}
