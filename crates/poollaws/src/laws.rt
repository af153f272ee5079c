//! The laws, as calls that do nothing: whoever calls one may use its law in a proof.
ghost use Rattle.poollaws.specs.Laws.{StandsLaw, StaysPublishedLaw, StaysClearedLaw, KeyLaw, OwnActsLaw, GoneLaw, UnfoundLaw, MissedLaw, MarksOnceLaw, PassedLaw, NoneClearedLaw, KeyClearedLaw, ClearedOnceLaw, EndLaw, LastLaw, CountedLaw, NoneLeftLaw, ClearerLaw, FirstRoomLaw, LessRoomLaw, KeptRoomLaw, ToldRoomLaw, HeardRoomLaw, ReusedRoomLaw, OwnerLaw};

use shardpool::room_law;
use slotcell::Clear;

/// What stands in a history stands in each that goes on from it: its acts, and so what was published, and what was
/// cleared.
pub fn going_law()
    ensures acts { StandsLaw }
    ensures published { StaysPublishedLaw }
    ensures cleared { StaysClearedLaw }
{}

/// What is published in a legal history, as each is that a lane has seen, is a key of the shape.
pub fn key_law()
    ensures { KeyLaw }
{}

/// Of the acts that a lane has seen since, its own are those that it made.
pub fn own_acts_law()
    ensures { OwnActsLaw }
{}

/// No get behind a clear of its key finds it: neither in a longer history, nor by a lane that has seen the clear. And a
/// call of a lane that finds nothing comes behind a clear of the key, if the lane saw it published. A second clear marks
/// nothing. And a lane that has seen the key's place go on, as `Pool::is_gone` tells, finds the key no more.
pub fn gone_law()
    ensures gone { GoneLaw }
    ensures unfound { UnfoundLaw }
    ensures missed { MissedLaw }
    ensures marks { MarksOnceLaw }
    ensures passed { PassedLaw }
{}

/// Which keys a lane cleared: those of its clears that answered true, each once. None of its other calls clears a key.
pub fn cleared_law<T: Clear>()
    ensures none { NoneClearedLaw T.content T.room }
    ensures key { KeyClearedLaw T }
    ensures once { ClearedOnceLaw }
{}

/// A published key is cleared, or present at the end of its history, and not both.
pub fn end_law()
    ensures { EndLaw }
{}

/// When a pool is closed one history has all that its lanes have seen, and each published key is cleared in it, or
/// counted as present. Where none is counted as present, each is cleared. Each cleared key was cleared by one of the
/// lanes.
pub fn close_law()
    ensures last { LastLaw }
    ensures counted { CountedLaw }
    ensures none_left { NoneLeftLaw }
    ensures clearer { ClearerLaw }
{}

/// A lane that published a key knows the room of its place, and goes on to know it. So does whoever hears a note of the
/// lane. And the object of a filling has at least the room that its place had under the key before.
pub fn room_kept_law<T: Clear>()
    ensures first { FirstRoomLaw }
    ensures less { LessRoomLaw }
    ensures kept { KeptRoomLaw }
    ensures told { ToldRoomLaw }
    ensures heard { HeardRoomLaw }
    ensures reused { ReusedRoomLaw T.content T.room }
{
    room_law();
}

/// A lane fills places of its own shard.
pub fn owner_law<T>()
    ensures { OwnerLaw T }
{}
