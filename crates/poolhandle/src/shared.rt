//! What the lanes of a pool share.
ghost use Rattle.std.specs.Prelude.{◌≡◌, All, length};
ghost use Rattle.shardpool.specs.Lanes.{Owns};

use crate::counting_lane::CountingLane;
use boxplace::Unboxed;
use counted_slot::{Counted, Fits};
use shardpool::Pool;
use slotcell::ByteBuf;
use std::alloc::Global;

/// A lane that was given for the close of its pool.
pub struct Given {
    pub lane: Unboxed<CountingLane<ByteBuf>, Global>,
}

impl Fits for Given {
    type Tag = Pool<ByteBuf>;

    ghost fits = { λ pool given. Owns pool given.lane.object };
}

impl Given {
    /// A lane that is given.
    pub(crate) fn new(lane: Box<CountingLane<ByteBuf>>) -> Given
        ensures { result.lane.object ≡ lane.value }
    {
        Given {
            lane: Unboxed::from_box(lane),
        }
    }

    /// The lane.
    pub(crate) fn into_lane(self) -> Box<CountingLane<ByteBuf>>
        ensures { result.value ≡ self.lane.object }
    {
        let Given { lane } = self;
        lane.into_box()
    }
}

impl Drop for Given {
    fn drop(self) {
        let Given { lane } = self;
        drop(lane.into_box());
    }
}

/// A pool, and for each of its lanes the place into which a join gives it for the close.
#[derive(Drop)]
pub struct Shared {
    pub pool: Pool<ByteBuf>,
    pub given: Vec<Counted<Option<Given>>>,
    /// The number under which the pool was opened: lanes of other numbers are of other pools.
    pub number: u64,
    ghost of_pool: { All (λ tag. tag ≡ pool) given.items },
    ghost all: { length given.items ≡ pool.shape.lanes },
    ghost alone: { pool.shape.guests ≡ 0 },
}
