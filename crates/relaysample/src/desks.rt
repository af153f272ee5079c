//! What a thread that logs has for a while: a seat that clears nothing.
ghost use Rattle.std.specs.Prelude.{◌≡◌, [], IfOk};
ghost use Rattle.shardpool.specs.Lanes.{Owns, refs};
ghost use Rattle.poollaws.specs.Cleared.{cleared_by};
ghost use Rattle.relaysample.specs.Lines.{numbers_of};

use crate::lines::{Entry, Line};
use crate::logged::Logged;
use guards::{PoolName, Seat};
use shardpool::{CreateFault, Lane, Pool};

/// A seat of the pool that `N` names. It logs, and clears nothing.
#[derive(Drop)]
pub struct Desk<'p, N: PoolName> {
    seat: Seat<'p, N, Entry>,
    ghost clears_nothing: { cleared_by seat.lane ≡ [] },
}

impl<'p, N: PoolName> Desk<'p, N> {
    /// The desk of a lane.
    pub fn new(pool: &'p Pool<Entry>, lane: Lane<Entry>) -> Desk<'p, N>
        requires pool { pool.now ≡ N.pool }
        requires owns { Owns N.pool lane }
        requires none { refs lane ≡ 0 }
        requires clean { cleared_by lane ≡ [] }
        ensures { result.seat.lane ≡ lane }
    {
        Desk {
            seat: Seat::new(pool, lane),
        }
    }

    /// The lane.
    pub fn into_lane(self) -> Lane<Entry>
        ensures lane { result ≡ self.entry.seat.lane }
        ensures owns { Owns N.pool result }
        ensures none { refs result ≡ 0 }
        ensures clean { cleared_by result ≡ [] }
    {
        self.seat.into_lane()
    }

    /// Logs a line. Word of it, to be handed on.
    ///
    /// # Errors
    ///
    /// Why no place was given for it.
    pub fn log(&mut self, line: Line) -> Result<Logged<N>, CreateFault>
        ensures { IfOk result (λ logged. logged.told.content ≡ numbers_of line) }
    {
        let key = self.seat.put(&line)?;
        Ok(Logged {
            told: self.seat.tell(key),
        })
    }
}
