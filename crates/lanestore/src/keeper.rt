//! A lane with the fillings that it keeps for its callers.
ghost use Rattle.std.specs.Prelude.{◌≡◌};
ghost use Rattle.lanestore.specs.Fillings.{AreMade};

use crate::kept::Fillings;
use poolhandle::CountingLane;
use shardpool::Lane;
use slotcell::Clear;
use std::alloc::Global;

/// A lane, with the fillings that it keeps for its callers.
#[derive(Drop)]
pub struct Keeper<T: Clear> {
    pub(crate) lane: CountingLane<T>,
    pub(crate) fillings: Fillings<T>,
    ghost made: { AreMade lane fillings.list.items },
}

impl<T: Clear + Drop> Keeper<T> {
    ghost use Rattle.std.specs.Prelude.{◌≡◌, IfOk, IfErr};
    ghost use Rattle.shardpool.specs.Lanes.{refs};

    /// A lane that has no reference, which keeps no filling. Where memory was refused the lane comes back.
    pub(crate) fn new(alloc: Global, lane: Lane<T>) -> Result<Keeper<T>, Lane<T>>
        requires { refs lane ≡ 0 }
        ensures ok { IfOk result (λ keeper. keeper.lane ≡ lane) }
        ensures err { IfErr result (λ back. back ≡ lane) }
    {
        let Some(fillings) = Fillings::new(alloc) else {
            return Err(lane);
        };
        let lane = CountingLane::new(alloc, lane)?;
        Ok(Keeper { lane, fillings })
    }

    /// The lane, without what it keeps: each filling is left.
    pub(crate) fn into_lane(self) -> Lane<T>
        ensures { result ≡ self.lane }
    {
        let Keeper { mut lane, fillings } = self;
        leave_all(&mut lane, fillings);
        lane.into_lane()
    }
}

/// All these fillings of the lane are left.
fn leave_all<T: Clear + Drop>(lane: &mut CountingLane<T>, fillings: Fillings<T>)
    requires { AreMade lane.old fillings.list.items }
    ensures { lane.new ≡ lane.old }
{
    let Fillings { mut list } = fillings;
    while let Some(kept) = list.pop() {
        lane.leave(kept.into_filling());
    }
}
