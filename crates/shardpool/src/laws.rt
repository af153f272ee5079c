//! The laws of a pool, as calls that do nothing: whoever calls one may use its law in a proof.
ghost use Rattle.shardpool.specs.Closings.{PartsLaw};
ghost use Rattle.shardpool.specs.Seen.{RoomLaw};

/// After a history a place is of an unopened page, free, a filling, under an unmarked key, under a marked one or
/// retired, and one of these alone.
pub fn parts_law()
    ensures { PartsLaw }
{}

/// The room of a place, that with which a key of it was last published, stays while no key of it is published.
pub fn room_law()
    ensures { RoomLaw }
{}
