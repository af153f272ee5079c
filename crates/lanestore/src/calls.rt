//! Calls by a lane that is had for the one call.
ghost use Rattle.std.specs.Prelude.{◌≡◌};

use crate::lent::Lent;
use crate::refusal::Refusal;
use crate::store::Store;
use shardpool::{CreateFault, Note};
use slotcell::Clear;

impl<T: Clear + Drop> Store<T> {
    ghost use Rattle.std.specs.Prelude.{◌≡◌, ℕ, None, IfOk, IfErr, MatchOption};
    ghost use Rattle.std.specs.Fn.{FnOnceReturnsAt};
    ghost use Rattle.seqpool.specs.Histories.{PublishedAt};
    ghost use Rattle.shardpool.specs.Lanes.{Issued, holds};
    ghost use Rattle.shardpool.specs.AfterCalls.{AfterGet, AfterReleaseKey, AfterClear};
    ghost use Rattle.poolhandle.specs.Looks.{Looks};
    ghost use Rattle.lanestore.specs.Visits.{Lends, Puts};
    ghost use Rattle.lanestore.specs.Shared.{ByLane, ByLaneAt, Refuses, HasMost};

    /// As `Pool::get`, by a lane that nobody has, from this number on. That lane keeps the reference.
    pub fn get(
        &self,
        from: u32,
        told: Note<T>,
        key: u64,
    ) -> Result<(Option<Lent>, Note<T>), (Refusal, Note<T>)>
        requires { Issued self.now.pool told }
        ensures ok { IfOk result (λ r. ByLane self.now.pool told r.1 (λ before after. Lends T self.now.pool key before after r.0)) }
        ensures err { IfErr result (λ back. Refuses T self.now.pool told (HasMost T) back.0 back.1) }
    {
        let mut visit = match self.visit_any(from, told) {
            Ok(visit) => visit,
            Err(told) => return Err((Refusal::Busy, told)),
        };
        if !visit.has_room() {
            return Err((Refusal::References, self.leave(visit)));
        }
        let lent = visit.get(&self.pool, key);
        Ok((lent, self.leave(visit)))
    }

    /// Calls `look` on the object of a reference, by the lane that keeps it. None, and `look` isn't called, where it has
    /// none. Where another call has that lane the note comes back.
    pub fn read<A, F: FnOnce(&T) -> A>(
        &self,
        told: Note<T>,
        lent: &Lent,
        look: F,
    ) -> Result<(Option<A>, Note<T>), Note<T>>
        requires told { Issued self.now.pool told }
        requires may { F.IsAlwaysCallable look }
        ensures ok { IfOk result (λ r. ByLaneAt lent.now.lane self.now.pool told r.1 (λ before after. (after ≡ before)
            × MatchOption r.0 (holds after lent.now.key ≡ 0) (λ answer. (object : T) × (j : ℕ)
            × PublishedAt after.book.seen j lent.now.key (T.content object) × FnOnceReturnsAt F.FnOnce look object answer))) }
        ensures busy { IfErr result (λ back. back ≡ told) }
    {
        let visit = self.visit(lent.lane, told)?;
        let answer = visit.with(lent.key, look);
        Ok((answer, self.leave(visit)))
    }

    /// Gets a key, calls `look` on its object and gives the reference back, by a lane that nobody has, from this number on.
    /// None, and `look` isn't called, where the get finds none.
    #[inline]
    pub fn look<A, F: FnOnce(&T) -> A>(
        &self,
        from: u32,
        told: Note<T>,
        key: u64,
        look: F,
    ) -> Result<(Option<A>, Note<T>), (Refusal, Note<T>)>
        requires told { Issued self.now.pool told }
        requires may { F.IsAlwaysCallable look }
        ensures ok { IfOk result (λ r. ByLane self.now.pool told r.1 (λ before after.
            MatchOption r.0 (AfterGet T self.now.pool key before after None)
            (λ answer. Looks T.content self.now.pool key (λ object. FnOnceReturnsAt F.FnOnce look object answer) before after))) }
        ensures err { IfErr result (λ back. Refuses T self.now.pool told (HasMost T) back.0 back.1) }
    {
        let mut visit = match self.visit_any(from, told) {
            Ok(visit) => visit,
            Err(told) => return Err((Refusal::Busy, told)),
        };
        if !visit.has_room() {
            return Err((Refusal::References, self.leave(visit)));
        }
        let answer = visit.look(&self.pool, key, look);
        Ok((answer, self.leave(visit)))
    }

    /// Gives a reference back to the lane that keeps it: whether it had one. Where another call has that lane, the
    /// reference and the note come back.
    pub fn release(&self, told: Note<T>, lent: Lent) -> Result<(bool, Note<T>), (Lent, Note<T>)>
        requires { Issued self.now.pool told }
        ensures ok { IfOk result (λ r. ByLaneAt lent.lane self.now.pool told r.1
            (λ before after. AfterReleaseKey T self.now.pool lent.key before after r.0)) }
        ensures busy { IfErr result (λ back. (back.0 ≡ lent) × (back.1 ≡ told)) }
    {
        let mut visit = match self.visit(lent.lane, told) {
            Ok(visit) => visit,
            Err(told) => return Err((lent, told)),
        };
        let Lent { lane: _, key } = lent;
        let released = visit.release(&self.pool, key);
        Ok((released, self.leave(visit)))
    }

    /// As `Pool::clear`, by a lane that nobody has, from this number on. Where all are had the note comes back.
    pub fn clear(&self, from: u32, told: Note<T>, key: u64) -> Result<(bool, Note<T>), Note<T>>
        requires { Issued self.now.pool told }
        ensures ok { IfOk result (λ r. ByLane self.now.pool told r.1 (λ before after. AfterClear T self.now.pool key before after r.0)) }
        ensures busy { IfErr result (λ back. back ≡ told) }
    {
        let mut visit = self.visit_any(from, told)?;
        let cleared = visit.clear(&self.pool, key);
        Ok((cleared, self.leave(visit)))
    }

    /// Publishes this object in a place of its own, by a lane that nobody has, from this number on, as `Visit::put`
    /// does. Where all are had the note comes back, and the object stays.
    pub fn put(
        &self,
        from: u32,
        told: Note<T>,
        object: &mut T,
    ) -> Result<(Result<u64, CreateFault>, Note<T>), Note<T>>
        requires { Issued self.now.pool told }
        ensures ok { IfOk result (λ r. ByLane self.now.pool told r.1
            (λ before after. Puts T.content T.room self.now.pool object.old object.new before after r.0)) }
        ensures busy { IfErr result (λ back. (back ≡ told) × (object.new ≡ object.old)) }
    {
        let mut visit = self.visit_any(from, told)?;
        let key = visit.put(&self.pool, object);
        Ok((key, self.leave(visit)))
    }
}
