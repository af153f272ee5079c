//! What an owner shows, as tests compare it with bytes.
ghost use Rattle.std.specs.Prelude.{IsTrue};
ghost use Rattle.seqpool.specs.Histories.{PublishedAt};
ghost use Rattle.slotcell.specs.ByteBuf.{ByteBuf as Buffer};
ghost use Rattle.shardpool.specs.Tokens.{LaneOf};
ghost use Rattle.shardpool.specs.Loans.{IsLent};

use lendings::Owned;
use slotcell::ByteBuf;

/// Whether an owner shows these bytes. If so its key was published with them, as the lane saw that lends the loan.
pub fn shows(owned: &Owned<ByteBuf>, bytes: &[u8]) -> bool
    ensures { IsTrue result → (lane : LaneOf) → IsLent {T = Buffer} (λ b. b.bytes) (λ b. b.room) lane owned.now.loan
        → (j : _) × PublishedAt lane.book.seen j owned.now.loan.key bytes.now }
{
    owned.read().as_slice() == bytes
}
