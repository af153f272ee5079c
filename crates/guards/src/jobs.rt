//! Jobs for the lanes of a pool.
ghost use Rattle.std.specs.Prelude.{◌≡◌};

use crate::named::PoolName;
use crate::seats::Seat;
use slotcell::Clear;
use std::sync::Wait;
use std::thread::Threads;

/// A job for a lane of the pool that `N` names.
pub trait Job<N: PoolName, T: Clear + Drop>: Send + Drop {
    ghost use Rattle.shardpool.specs.Tokens.{LaneOf};

    /// What comes of it. A job that may stop by an error answers a `Result`.
    type Answer: Send + Drop;

    /// What it does with its lane, as that was before and is after, and what it may answer.
    ghost does: { Self → LaneOf → LaneOf → Self.Answer → Type 0 };

    /// Does the job.
    fn run<R: Threads + Wait + Sync>(self, rt: &R, seat: &mut Seat<'_, N, T>) -> Self::Answer
        ensures does { does self seat.old.lane seat.new.lane result }
        ensures number { seat.new.lane.number ≡ seat.old.lane.number };
}
