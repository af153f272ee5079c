//! How the pool of a script file is opened.
ghost use Rattle.std.specs.Prelude.{◌≡◌, IfOk, IfErr};
ghost use Rattle.keybits.specs.Shapes.{IsNarrow};
ghost use Rattle.shardpool.specs.Opened.{AreFirstLanes};

use crate::run_fault::RunFault;
use keybits::Shape;
use shardpool::{Lane, Pool, open};
use slotcell::ByteBuf;
use std::alloc::Global;

/// The pool of a shape within its limits, and its lanes. The error is `Open`, as for such a shape it is memory that was
/// refused.
pub(crate) fn open_pool(
    alloc: Global,
    shape: Shape,
) -> Result<(Pool<ByteBuf>, Vec<Lane<ByteBuf>>), RunFault>
    requires { IsNarrow shape }
    ensures shape { IfOk result (λ made. made.0.shape ≡ shape) }
    ensures lanes { IfOk result (λ made. AreFirstLanes made.0 made.1.items) }
    ensures err { IfErr result (λ fault. fault ≡ RunFault.Open) }
{
    open(alloc, shape).map_err(|_| RunFault::Open)
}
