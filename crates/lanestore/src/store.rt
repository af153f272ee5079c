//! A pool with its lanes in places.
ghost use Rattle.std.specs.Prelude.{◌≡◌, ◌<◌, ◌≤◌, All, IfSome, length};
ghost use Rattle.shardpool.specs.Lanes.{Owns};

use crate::opening::stored;
use crate::place::Post;
use crate::refusal::Refusal;
use crate::visit::Visit;
use keybits::{Shape, place_of, shard_of};
use shardpool::{Note, OpenFault, Pool, open, open_wide};
use slotcell::Clear;
use std::alloc::Global;

/// A pool, and a place for each of its lanes, from which one call at a time has it. Threads share it.
#[derive(Drop)]
pub struct Store<T: Clear> {
    pub(crate) pool: Pool<T>,
    pub(crate) places: Vec<Post<T>>,
    pub(crate) alloc: Global,
    ghost of_pool: { All (λ tag. tag ≡ pool) places.items },
    ghost all: { length places.items ≡ pool.shape.lanes },
    ghost alone: { pool.shape.guests ≡ 0 },
}

impl<T: Clear + Drop> Store<T> {
    ghost use Rattle.std.specs.Prelude.{◌≡◌, ◌≤◌, ◌↔◌, ◌⊎◌, ℕ, IfOk, IfErr, IfSome, IsErrOf};
    ghost use mathlib.Core.List.{IsPrefix};
    ghost use Rattle.keybits.specs.Shapes.{IsShape, IsNarrow};
    ghost use Rattle.keybits.specs.ShapeFaults.{IsFirstFault, IsFirstWideFault};
    ghost use Rattle.keybits.specs.declared.shape.ShapeFault.{ShapeFault as Fault};
    ghost use Rattle.shardpool.specs.declared.fault.OpenFault.TheVariants as faults;
    ghost use Rattle.shardpool.specs.Lanes.{Owns, Issued};
    ghost use Rattle.keybits.specs.Keys.{place_of};
    ghost use Rattle.keybits.specs.Places.{shard_of};
    ghost use Rattle.lanestore.specs.declared.refusal.Refusal.TheVariants.{Busy};
    ghost use Rattle.lanestore.specs.Shared.{IsOfNone};
    ghost use Rattle.lanestore.specs.Visits.{lane_of};

    /// Opens a pool of this shape, which is within the narrow limits and has no guests, with all its lanes here.
    ///
    /// # Errors
    ///
    /// The first fault of the shape; and the want of memory, for a shape within its limits alone.
    pub fn open(alloc: Global, shape: Shape) -> Result<Store<T>, OpenFault>
        requires { shape.guests ≡ 0 }
        ensures opened { IfOk result (λ store. store.pool.shape ≡ shape) }
        ensures faults { (fault : Fault) → IsErrOf result (faults.Shape fault) ↔ IsFirstFault shape fault }
        ensures memory { IsErrOf result faults.Memory → IsNarrow shape }
    {
        shape.check()?;
        match open(alloc, shape) {
            Ok((pool, lanes)) => stored(alloc, pool, lanes).ok_or(OpenFault::Memory),
            Err(fault) => Err(fault),
        }
    }

    /// Opens a pool of this shape as `open` does, by the wide limits.
    ///
    /// # Errors
    ///
    /// As `open`, by the wide limits.
    pub fn open_wide(alloc: Global, shape: Shape) -> Result<Store<T>, OpenFault>
        requires { shape.guests ≡ 0 }
        ensures opened { IfOk result (λ store. store.pool.shape ≡ shape) }
        ensures faults { (fault : Fault) → IsErrOf result (faults.Shape fault) ↔ IsFirstWideFault shape fault }
        ensures memory { IsErrOf result faults.Memory → IsShape shape }
    {
        shape.check_wide()?;
        match open_wide(alloc, shape) {
            Ok((pool, lanes)) => stored(alloc, pool, lanes).ok_or(OpenFault::Memory),
            Err(fault) => Err(fault),
        }
    }

    /// The pool, for the calls of a visit.
    pub fn pool(&self) -> &Pool<T>
        ensures { result.now ≡ self.now.pool }
    {
        &self.pool
    }

    /// A first note, for who was told nothing yet: of what some lane has seen, from this one on. None where all are had.
    pub fn enter(&self, from: u32) -> Option<Note<T>>
        ensures { IfSome result (λ note. Issued self.now.pool note) }
    {
        let visit = self.take_any(from)?;
        Some(self.leave(visit))
    }

    /// Takes the lane of this number, and tells it what the caller was told. Where it is had by another call the note
    /// comes back.
    pub fn visit(&self, number: u32, told: Note<T>) -> Result<Visit<T>, Note<T>>
        requires { Issued self.now.pool told }
        ensures lane { IfOk result (λ visit. Owns self.now.pool (lane_of visit) × ((lane_of visit).number ≡ number)) }
        ensures heard { IfOk result (λ visit. IsPrefix told.book.seen (lane_of visit).book.seen) }
        ensures busy { IfErr result (λ back. back ≡ told) }
    {
        let Some(mut visit) = self.take_at(number) else {
            return Err(told);
        };
        visit.hear(&self.pool, told);
        Ok(visit)
    }

    /// Takes a lane that nobody has, from this number on and then from the first, and tells it what the caller was told.
    /// Where all are had the note comes back.
    #[inline]
    pub fn visit_any(&self, from: u32, told: Note<T>) -> Result<Visit<T>, Note<T>>
        requires { Issued self.now.pool told }
        ensures lane { IfOk result (λ visit. Owns self.now.pool (lane_of visit)) }
        ensures heard { IfOk result (λ visit. IsPrefix told.book.seen (lane_of visit).book.seen) }
        ensures busy { IfErr result (λ back. back ≡ told) }
    {
        match self.take_any(from) {
            Some(mut visit) => {
                visit.hear(&self.pool, told);
                Ok(visit)
            }
            None => Err(told),
        }
    }

    /// Gives a lane back. The note has all that it has seen: what the caller was told, and what its calls did since.
    #[inline]
    pub fn leave(&self, visit: Visit<T>) -> Note<T>
        requires { Owns self.now.pool (lane_of visit) }
        ensures note { Issued self.now.pool result }
        ensures seen { result.book.seen ≡ (lane_of visit).book.seen }
    {
        let mut visit = visit;
        let note = visit.tell(&self.pool);
        self.give_back(visit);
        note
    }

    /// Takes the lane of a key's shard, which keeps the fillings of its places, and tells it what the caller was told.
    pub(crate) fn visit_of(&self, told: Note<T>, key: u64) -> Result<Visit<T>, (Refusal, Note<T>)>
        requires { Issued self.now.pool told }
        ensures lane { IfOk result (λ visit. Owns self.now.pool (lane_of visit)
            × ((lane_of visit).number ≡ shard_of (place_of key))) }
        ensures heard { IfOk result (λ visit. IsPrefix told.book.seen (lane_of visit).book.seen) }
        ensures err { IfErr result (λ back. IsOfNone self.now.pool key told back.0 back.1 ⊎ ((back.0 ≡ Busy) × (back.1 ≡ told))) }
    {
        let number = shard_of(place_of(key));
        if number >= self.pool.shape().lanes {
            return Err((Refusal::NoFilling, told));
        }
        match self.visit(number, told) {
            Ok(visit) => Ok(visit),
            Err(told) => Err((Refusal::Busy, told)),
        }
    }

    #[inline]
    fn give_back(&self, visit: Visit<T>)
        requires { Owns self.now.pool (lane_of visit) }
    {
        visit.keeper.lane.lane().seen_law();
        let at = visit.number() as usize;
        self.places[at].give(visit);
    }

    /// Takes the lane of this number, which hears nothing yet. None where another call has it.
    pub fn take_at(&self, number: u32) -> Option<Visit<T>>
        ensures { IfSome result (λ visit. Owns self.now.pool (lane_of visit) × ((lane_of visit).number ≡ number)) }
    {
        let visit = self.take_from(number)?;
        if visit.number() != number {
            // (Never: each lane lies in the place of its number.)
            self.give_back(visit);
            return None;
        }
        Some(visit)
    }

    /// Takes a lane that nobody has, from this number on and then from the first. It hears nothing yet. None where all are
    /// had.
    #[inline]
    pub fn take_any(&self, from: u32) -> Option<Visit<T>>
        ensures { IfSome result (λ visit. Owns self.now.pool (lane_of visit)) }
    {
        match self.take_from(from) {
            Some(visit) => Some(visit),
            None => self.take_elsewhere(from),
        }
    }

    /// Takes the lane that lies in the place of this number. None where another call has it, and where there is no such
    /// place.
    #[inline]
    fn take_from(&self, number: u32) -> Option<Visit<T>>
        ensures { IfSome result (λ visit. Owns self.now.pool (lane_of visit)) }
    {
        let at = number as usize;
        if at >= self.places.len() {
            return None;
        }
        self.places[at].take(self.alloc)
    }

    /// As `take_any`, where the first place that it looks at has no lane.
    #[cold]
    #[inline(never)]
    fn take_elsewhere(&self, from: u32) -> Option<Visit<T>>
        ensures { IfSome result (λ visit. Owns self.now.pool (lane_of visit)) }
    {
        let lanes = self.pool.shape().lanes;
        match self.take_between(from, lanes) {
            Some(visit) => Some(visit),
            None => self.take_between(0, from.min(lanes)),
        }
    }

    /// The first lane that nobody has, from one number up to another.
    fn take_between(&self, low: u32, high: u32) -> Option<Visit<T>>
        ensures { IfSome result (λ visit. Owns self.now.pool (lane_of visit)) }
    {
        for number in low..high {
            if let Some(visit) = self.take_from(number) {
                return Some(visit);
            }
        }
        None
    }
}
