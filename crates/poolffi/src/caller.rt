//! What a thread of a foreign program has of a pool that it shares with others.
ghost use Rattle.std.specs.Prelude.{◌≡◌, []};
ghost use Rattle.std.specs.Arc.{arc_value};
ghost use Rattle.shardpool.specs.Lanes.{Issued};

use crate::found::Found;
use crate::refusal::Refusal;
use crate::visits;
use lanestore::{Store, Visit};
use shardpool::{Lane, Note};
use slotcell::ByteBuf;
use std::alloc::Global;
use std::mem::replace;
use std::sync::Arc;

/// A share of a store, with a note of what its calls saw.
#[derive(Drop)]
pub struct Caller {
    pub store: Arc<Store<ByteBuf>>,
    pub note: Note<ByteBuf>,
    /// A row with room for all lanes, so that a close takes no memory.
    pub row: Vec<Lane<ByteBuf>>,
    ghost issued: { Issued (arc_value store).pool note },
    ghost empty: { row.items ≡ [] },
}

impl Caller {
    ghost use Rattle.std.specs.Prelude.{◌≡◌, Ok, Err, IfOk, IfErr, IfSome, IsNone};
    ghost use mathlib.Core.List.{IsPrefix};
    ghost use Rattle.shardpool.specs.Lanes.{Owns};
    ghost use Rattle.lanestore.specs.Visits.{lane_of};
    ghost use Rattle.poolffi.specs.Callers.{pool_of, Puts, Gets, Releases, Clears, Shares};

    /// Publishes these bytes in a place of their own, and answers the key. Looks for a lane from this number on.
    pub fn put(&mut self, from: u32, bytes: &[u8]) -> Result<u64, Refusal>
        ensures { Puts bytes.now self.old self.new result }
    {
        let Some(mut visit) = self.visit_any(from) else {
            return Err(Refusal::Busy);
        };
        let answer = visits::put(&mut visit, self.store.pool(), bytes);
        self.leave(visit);
        answer
    }

    /// A reference more to a key, which a lane keeps, and where its bytes are: they stay there until it is released.
    pub fn get(&mut self, from: u32, key: u64) -> Result<Found, Refusal>
        ensures { Gets key self.old self.new result }
    {
        let Some(mut visit) = self.visit_any(from) else {
            return Err(Refusal::Busy);
        };
        let answer = visits::get(&mut visit, self.store.pool(), key);
        self.leave(visit);
        answer
    }

    /// Gives a reference back to the lane that keeps it.
    pub fn release(&mut self, lane: u32, key: u64) -> Result<(), Refusal>
        ensures { Releases lane key self.old self.new result }
    {
        if lane >= self.store.pool().shape().lanes {
            return Err(Refusal::NoReference);
        }
        let Some(visit) = self.store.take_at(lane) else {
            return Err(Refusal::Busy);
        };
        let mut visit = self.told(visit);
        let released = visit.release(self.store.pool(), key);
        self.leave(visit);
        if released {
            Ok(())
        } else {
            Err(Refusal::NoReference)
        }
    }

    /// Clears the object of a key.
    pub fn clear(&mut self, from: u32, key: u64) -> Result<(), Refusal>
        ensures { Clears key self.old self.new result }
    {
        let Some(mut visit) = self.visit_any(from) else {
            return Err(Refusal::Busy);
        };
        let cleared = visit.clear(self.store.pool(), key);
        self.leave(visit);
        if cleared { Ok(()) } else { Err(Refusal::Gone) }
    }

    /// Another caller of the pool, who is told what this one was.
    pub fn share(&mut self, alloc: Global) -> Result<Box<Caller>, Refusal>
        ensures ok { IfOk result (λ other. Shares self.old self.new (Ok other.value)) }
        ensures err { IfErr result (λ refusal. Shares self.old self.new (Err refusal)) }
    {
        let Some(mut visit) = self.visit_any(0) else {
            return Err(Refusal::Busy);
        };
        let note = visit.tell(self.store.pool());
        self.leave(visit);
        self.another(alloc, note).ok_or(Refusal::Memory)
    }

    /// Another caller with this note. None where memory was refused.
    fn another(&self, alloc: Global, note: Note<ByteBuf>) -> Option<Box<Caller>>
        requires { Issued (pool_of self.now) note }
        ensures { IfSome result (λ other. (arc_value other.value.store ≡ arc_value self.now.store) × (other.value.note ≡ note)) }
    {
        let lanes = self.store.pool().shape().lanes as usize;
        let Ok(row) = Vec::with_capacity(alloc, lanes) else {
            return None;
        };
        let Ok(store) = Arc::try_clone(&self.store) else {
            return None;
        };
        Box::new(alloc, Caller { store, note, row }).ok()
    }

    /// Takes a lane that nobody has, and tells it what the caller was told.
    fn visit_any(&mut self, from: u32) -> Option<Visit<ByteBuf>>
        ensures same { (self.new.store ≡ self.old.store) × (self.new.row ≡ self.old.row) }
        ensures some { IfSome result (λ visit. Owns (pool_of self.old) (lane_of visit)
            × IsPrefix self.old.note.book.seen (lane_of visit).book.seen) }
        ensures none { IsNone result → self.new ≡ self.old }
    {
        let lanes = self.store.pool().shape().lanes;
        let from = from.checked_rem(lanes).unwrap_or(0);
        let visit = self.store.take_any(from)?;
        Some(self.told(visit))
    }

    /// A lane that is had hears what the caller was told, who has a note of the lane meanwhile.
    fn told(&mut self, visit: Visit<ByteBuf>) -> Visit<ByteBuf>
        requires { Owns (pool_of self.old) (lane_of visit) }
        ensures same { (self.new.store ≡ self.old.store) × (self.new.row ≡ self.old.row) }
        ensures owns { Owns (pool_of self.old) (lane_of result) }
        ensures heard { IsPrefix self.old.note.book.seen (lane_of result).book.seen }
        ensures number { (lane_of result).number ≡ (lane_of visit).number }
    {
        let mut visit = visit;
        let pool = self.store.pool();
        let told = replace(&mut self.note, visit.tell(pool));
        visit.hear(pool, told);
        visit
    }

    /// Gives a lane back, and is told all that it has seen.
    fn leave(&mut self, visit: Visit<ByteBuf>)
        requires { Owns (pool_of self.old) (lane_of visit) }
        ensures same { (self.new.store ≡ self.old.store) × (self.new.row ≡ self.old.row) }
        ensures told { self.new.note.book.seen ≡ (lane_of visit).book.seen }
    {
        self.note = self.store.leave(visit);
    }
}
