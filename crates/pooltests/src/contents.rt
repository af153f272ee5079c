//! What a reference shows, as tests compare it with bytes.
ghost use Rattle.std.specs.Prelude.{◌≤◌, ℕ, IsTrue};
ghost use Rattle.seqpool.specs.Histories.{PublishedAt};
ghost use Rattle.shardpool.specs.Lanes.{holds};

use shardpool::{Lane, Ref};
use slotcell::ByteBuf;

/// Whether a reference shows these bytes. If so its key was published with them.
pub fn shows(lane: &Lane<ByteBuf>, reference: &Ref<ByteBuf>, bytes: &[u8]) -> bool
    requires { 1 ≤ holds lane.now reference.now.key }
    ensures { IsTrue result → (j : ℕ) × PublishedAt lane.now.book.seen j reference.now.key bytes.now }
{
    lane.read(reference).as_slice() == bytes
}
