//! The collector: it owns what was logged, clears its keys, and has it read without a lane.
ghost use Rattle.std.specs.Prelude.{◌≡◌, ◌<◌, ◌++◌, ◌∷◌, List, [], length, IfOk, OnOk, IfSome, IsErr};
ghost use Rattle.std.specs.Vec.{vec_len, vec_capacity};
ghost use mathlib.Core.List.{IsPrefix};
ghost use Rattle.seqpool.specs.declared.act.Act.{Act};
ghost use Rattle.shardpool.specs.Lanes.{Owns, refs};
ghost use Rattle.poollaws.specs.Words.{IsPublished};
ghost use Rattle.poollaws.specs.Cleared.{cleared_by};
ghost use Rattle.relaysample.specs.Held.{held_keys, IsShown, AreShown, Shows, ShowsAt, ReadsOneLine, AreRowsOf};

use crate::lines::{Entry, numbers_law};
use crate::logged::Logged;
use crate::rows::Row;
use guards::{PoolName, Seat};
use lendings::{Lender, Owned, Refusal};
use poollaws::going_law;
use seqpool::once_law;
use shardpool::{Lane, Pool};
use std::alloc::{AllocError, Global};
use std::thread;
use std::thread::Threads;

/// Why a line isn't held.
#[derive(Clone, Copy, Debug)]
pub enum Unheld {
    /// The lender gave no reference, or memory was refused for it.
    Refused(Refusal),
    /// Another had cleared it.
    Cleared,
}

/// Two lanes of the pool that `N` names, of which one lends and the other clears, and references to what was collected.
#[derive(Drop)]
pub struct Collector<'p, N: PoolName> {
    pool: &'p Pool<Entry>,
    pub lender: Lender<Entry>,
    clearer: Seat<'p, N, Entry>,
    pub held: Vec<Owned<Entry>>,
    ghost pool_is: { pool.now ≡ N.pool },
    ghost lends: { Owns N.pool lender.lane },
    ghost quiet: { cleared_by lender.lane ≡ [] },
    ghost cleared: { cleared_by clearer.lane ≡ held_keys held.items },
}

impl<'p, N: PoolName> Collector<'p, N> {
    /// A collector that holds nothing yet.
    pub fn new(
        alloc: Global,
        pool: &'p Pool<Entry>,
        lender: Lender<Entry>,
        clearing: Lane<Entry>,
    ) -> Collector<'p, N>
        requires pool { pool.now ≡ N.pool }
        requires lends { Owns N.pool lender.lane × (cleared_by lender.lane ≡ []) }
        requires clears { Owns N.pool clearing × (refs clearing ≡ 0) × (cleared_by clearing ≡ []) }
        ensures { (result.held.items ≡ []) × AreShown result.lender.lane.book.seen result.held.items }
    {
        Collector {
            pool,
            lender,
            clearer: Seat::new(pool, clearing),
            held: Vec::new(alloc),
        }
    }

    /// Holds a line that was logged, whose key nobody finds from then on.
    ///
    /// # Errors
    ///
    /// Why it isn't held.
    pub fn collect(&mut self, logged: Logged<N>) -> Result<(), Unheld>
        requires shown { AreShown self.old.lender.lane.book.seen self.old.held.items }
        ensures shown { AreShown self.new.lender.lane.book.seen self.new.held.items }
        ensures ok { OnOk result (held_keys self.new.held.items ≡ held_keys self.old.held.items ++ logged.told.key ∷ []) }
        ensures heard { OnOk result (IsPublished self.new.lender.lane.book.seen logged.told.key logged.told.content) }
        ensures err { IsErr result → self.new.held.items ≡ self.old.held.items }
    {
        if self.held.reserve(1).is_err() {
            return Err(Unheld::Refused(Refusal::Memory));
        }
        match self.own(logged) {
            Ok(Some(owned)) => self.hold(owned),
            Ok(None) => Err(Unheld::Cleared),
            Err(refusal) => Err(Unheld::Refused(refusal)),
        }
    }

    /// A reference to a line that was logged.
    fn own(&mut self, logged: Logged<N>) -> Result<Option<Owned<Entry>>, Refusal>
        requires shown { AreShown self.old.lender.lane.book.seen self.old.held.items }
        ensures shown { AreShown self.new.lender.lane.book.seen self.new.held.items }
        ensures held { self.new.held ≡ self.old.held }
        ensures heard { IsPublished self.new.lender.lane.book.seen logged.told.key logged.told.content }
        ensures one { IfOk result (λ found. IfSome found (λ owned. (owned.loan.key ≡ logged.told.key)
            × IsShown self.new.lender.lane.book.seen owned)) }
    {
        going_law();
        let (key, note) = logged.told.into_parts();
        self.lender.hear(self.pool, note);
        self.lender.own(self.pool, key)
    }

    /// Clears the key of a line, and holds the reference to it if no other cleared it before.
    fn hold(&mut self, owned: Owned<Entry>) -> Result<(), Unheld>
        requires shown { AreShown self.old.lender.lane.book.seen self.old.held.items }
        requires one { IsShown self.old.lender.lane.book.seen owned }
        requires room { vec_len self.old.held < vec_capacity self.old.held }
        ensures shown { AreShown self.new.lender.lane.book.seen self.new.held.items }
        ensures ok { OnOk result (self.new.held.items ≡ self.old.held.items ++ owned ∷ []) }
        ensures err { IsErr result → self.new.held.items ≡ self.old.held.items }
        ensures lender { self.new.lender ≡ self.old.lender }
    {
        if self.clearer.clear(owned.key()) {
            self.held.push_reserved(owned);
            Ok(())
        } else {
            Err(Unheld::Cleared)
        }
    }

    /// What is held, as threads without a lane read it.
    ///
    /// # Errors
    ///
    /// Where memory was refused for the rows.
    pub fn rows<R: Threads + Sync>(&self, rt: &R, alloc: Global) -> Result<Vec<Row>, AllocError>
        requires { AreShown self.now.lender.lane.book.seen self.now.held.items }
        ensures rows { IfOk result (λ rows. AreRowsOf self.now.lender.lane.book.seen self.now.held.items rows.items) }
        ensures only { OnOk result (ReadsOneLine self.now.lender.lane.book.seen) }
    {
        once_law();
        numbers_law();
        self.lender.seen_law();
        let held = self.held.as_slice();
        let look = move |index: usize| -> Row
            requires { (index < length held.now) × ((history : List Act) × AreShown history held.now) }
            ensures { ShowsAt held.entry.now index result }
        { row_at(held, index) };
        let rows = thread::map_indices(rt, alloc, held.len(), &look)?;
        Ok(rows)
    }

    /// Lets go of what is held, and gives both lanes back: first that which lent. None where a reference is left.
    pub fn into_lanes(self) -> Option<(Lane<Entry>, Lane<Entry>)>
        ensures lent { IfSome result (λ lanes. Owns N.pool lanes.0 × (cleared_by lanes.0 ≡ [])
            × IsPrefix self.entry.lender.lane.book.seen lanes.0.book.seen) }
        ensures cleared { IfSome result (λ lanes. Owns N.pool lanes.1 × (cleared_by lanes.1 ≡ held_keys self.entry.held.items)) }
    {
        let Collector {
            pool,
            lender,
            clearer,
            held,
        } = self;
        drop(held);
        match lender.close(pool) {
            Ok(lending) => Some((lending, clearer.into_lane())),
            Err(_) => None,
        }
    }
}

/// What the reference here shows, to any thread.
fn row_at(held: &[Owned<Entry>], index: usize) -> Row
    requires index { index < length held.now }
    requires shown { (history : List Act) × AreShown history held.now }
    ensures { ShowsAt held.now index result }
{
    row_of(&held[index])
}

/// What a reference shows, to any thread.
fn row_of(owned: &Owned<Entry>) -> Row
    requires { (history : List Act) × IsShown history owned.now }
    ensures { Shows owned.now result }
{
    match owned.read().line() {
        Some(line) => Row {
            key: owned.key(),
            line,
        },
        None => unreachable!(),
    }
}
