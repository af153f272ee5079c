//! The place of a lane, from which one call at a time has it. One exchange takes it out, and one puts it back.
ghost use Rattle.shardpool.specs.Tokens.{PoolOf};
ghost use Rattle.shardpool.specs.Lanes.{Owns};
ghost use Rattle.lanestore.specs.Visits.{lane_of};

use crate::keeper::Keeper;
use crate::visit::Visit;
use boxplace::{Fits, Place};
use poolsteps::BYTES_APART;
use shardpool::Pool;
use slotcell::Clear;
use std::alloc::Global;
use std::marker::Model;

impl<T: Clear> Fits for Keeper<T> {
    type Tag = Pool<T>;

    ghost fits = { λ pool keeper. Owns pool keeper.lane };
}

/// The place of a lane, with bytes behind it: so those of two lanes are never what a processor loads at once. In a clause
/// it is the pool.
#[derive(Drop)]
pub(crate) struct Post<T: Clear> {
    place: Place<Keeper<T>>,
    unused: [u64; BYTES_APART / 8],
}

impl<T: Clear> Model for Post<T> {
    ghost Value = { PoolOf };

    ghost view = { λ post. post.place };
}

impl<T: Clear + Drop> Post<T> {
    ghost use Rattle.std.specs.Prelude.{◌≡◌, IfSome};

    /// The place of a lane, which is there.
    pub(crate) fn new(keeper: Box<Keeper<T>>, pool: &Pool<T>) -> Post<T>
        requires { Owns pool.now keeper.value.lane }
        ensures { result ≡ pool.now }
    {
        Post {
            place: Place::new(keeper, pool),
            unused: [0; BYTES_APART / 8],
        }
    }

    /// Takes the lane out. None where a call has it.
    #[inline]
    pub(crate) fn take(&self, alloc: Global) -> Option<Visit<T>>
        ensures { IfSome result (λ visit. Owns self.now (lane_of visit)) }
    {
        let keeper = self.place.take(alloc)?;
        Some(Visit { keeper })
    }

    /// Puts the lane back that was taken out.
    #[inline]
    pub(crate) fn give(&self, visit: Visit<T>)
        requires { Owns self.now (lane_of visit) }
    {
        let Visit { keeper } = visit;
        if let Some(other) = self.place.give(keeper) {
            drop_other(other);
        }
    }

    /// The lane, if no call has it.
    pub(crate) fn into_keeper(self) -> Option<Box<Keeper<T>>>
        ensures { IfSome result (λ keeper. Owns self keeper.value.lane) }
    {
        let Post { place, unused: _ } = self;
        place.into_inner()
    }
}

/// (Never: a place waits for its own lane. No clause can say so.)
#[cold]
#[inline(never)]
fn drop_other<T: Clear + Drop>(other: Box<Keeper<T>>) {
    drop(other);
}
