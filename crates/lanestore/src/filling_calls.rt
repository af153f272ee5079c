//! Calls on the fillings of a store, by key: one call creates a filling, and later ones, of whichever thread, write and
//! publish it.
ghost use Rattle.std.specs.Prelude.{◌≡◌};

use crate::lent::Lent;
use crate::refusal::Refusal;
use crate::store::Store;
use shardpool::{CreateFault, Note};
use slotcell::Clear;

impl<T: Clear + Drop> Store<T> {
    ghost use Rattle.std.specs.Prelude.{◌≡◌, ◌⊎◌, true, Some, IfOk, IfErr};
    ghost use Rattle.std.specs.Fn.{FnOnceReturnsAtMut};
    ghost use Rattle.shardpool.specs.Tokens.{FillingOf};
    ghost use Rattle.shardpool.specs.Lanes.{Issued};
    ghost use Rattle.lanestore.specs.Fillings.{Turn};
    ghost use Rattle.lanestore.specs.Visits.{Creates, Publishes, Downgrades};
    ghost use Rattle.lanestore.specs.Shared.{ByAny, ByKeeper, Refuses, HasMost, KeepsMost, KeepsNone, IsOfNone};

    /// As `Pool::create`, by a lane that nobody has, from this number on. That lane, whose shard is the key's, keeps the
    /// filling until a call publishes it.
    pub fn create(
        &self,
        from: u32,
        told: Note<T>,
    ) -> Result<(Result<u64, CreateFault>, Note<T>), (Refusal, Note<T>)>
        requires { Issued self.now.pool told }
        ensures ok { IfOk result (λ r. ByAny T self.now.pool told r.1
            (λ before after. Creates T.content T.room self.now.pool before after r.0)) }
        ensures err { IfErr result (λ back. Refuses T self.now.pool told (KeepsMost T) back.0 back.1) }
    {
        let mut visit = match self.visit_any(from, told) {
            Ok(visit) => visit,
            Err(told) => return Err((Refusal::Busy, told)),
        };
        if !visit.can_create() {
            return Err((Refusal::Fillings, self.leave(visit)));
        }
        let key = visit.create(&self.pool);
        Ok((key, self.leave(visit)))
    }

    /// Calls `change` on the object of the filling of a key.
    pub fn write<A, F: FnOnce(&mut T) -> A>(
        &self,
        told: Note<T>,
        key: u64,
        change: F,
    ) -> Result<(A, Note<T>), (Refusal, Note<T>)>
        requires told { Issued self.now.pool told }
        requires may { F.IsAlwaysCallable change }
        ensures ok { IfOk result (λ r. ByKeeper T key self.now.pool told r.1 (λ before after. (after.lane ≡ before.lane)
            × (filling : FillingOf T) × (object : T) × (filling.key ≡ key) × FnOnceReturnsAtMut F.FnOnce change filling.object r.0 object
            × Turn filling (record filling { object = object }) before.kept after.kept)) }
        ensures err { IfErr result (λ back. IsOfNone self.now.pool key told back.0 back.1
            ⊎ Refuses T self.now.pool told (KeepsNone T key) back.0 back.1) }
    {
        let mut visit = self.visit_of(told, key)?;
        match visit.write(key, change) {
            Some(answer) => Ok((answer, self.leave(visit))),
            None => Err((Refusal::NoFilling, self.leave(visit))),
        }
    }

    /// As `Pool::publish`, of the filling of a key.
    pub fn publish(&self, told: Note<T>, key: u64) -> Result<Note<T>, (Refusal, Note<T>)>
        requires { Issued self.now.pool told }
        ensures ok { IfOk result (λ note. ByKeeper T key self.now.pool told note
            (λ before after. Publishes T.content T.room self.now.pool key before after true)) }
        ensures err { IfErr result (λ back. IsOfNone self.now.pool key told back.0 back.1
            ⊎ Refuses T self.now.pool told (KeepsNone T key) back.0 back.1) }
    {
        let mut visit = self.visit_of(told, key)?;
        if visit.publish(&self.pool, key) {
            Ok(self.leave(visit))
        } else {
            Err((Refusal::NoFilling, self.leave(visit)))
        }
    }

    /// As `Pool::downgrade`, of the filling of a key. The lane that kept it keeps the reference for the caller.
    pub fn downgrade(&self, told: Note<T>, key: u64) -> Result<(Lent, Note<T>), (Refusal, Note<T>)>
        requires { Issued self.now.pool told }
        ensures ok { IfOk result (λ r. ByKeeper T key self.now.pool told r.1
            (λ before after. Downgrades T.content T.room self.now.pool key before after (Some r.0))) }
        ensures err { IfErr result (λ back. IsOfNone self.now.pool key told back.0 back.1
            ⊎ Refuses T self.now.pool told (λ refusal visit. HasMost T refusal visit ⊎ KeepsNone T key refusal visit) back.0 back.1) }
    {
        let mut visit = self.visit_of(told, key)?;
        if !visit.has_room() {
            return Err((Refusal::References, self.leave(visit)));
        }
        match visit.downgrade(&self.pool, key) {
            Some(lent) => Ok((lent, self.leave(visit))),
            None => Err((Refusal::NoFilling, self.leave(visit))),
        }
    }
}
