//! The laws of legal histories, as calls that do nothing: whoever calls one may use its law in a proof.

ghost use Rattle.seqpool.specs.Laws.{GetLaw, ClearLaw, MissLaw, LaterLaw, ReclaimLaw, AloneLaw, OnceLaw, ContentLaw, RetiredLaw, OwnLaw};

/// A get of a key replies a content exactly where the publish of the key with that content stands before it and no
/// clear of the key that replied true does.
pub fn get_law()
    ensures { GetLaw }
{}

/// A clear of a key replies true exactly where a publish of the key stands before it and no clear of the key that
/// replied true does.
pub fn clear_law()
    ensures { ClearLaw }
{}

/// Where a get or a clear didn't find a key that was published before, a clear of the key that replied true stands
/// before it.
pub fn miss_law()
    ensures { MissLaw }
{}

/// In a history that goes on a publish stands where it stood, and so does a clear, or it stands behind the beginning.
pub fn later_law()
    ensures { LaterLaw }
{}

/// Where a key is reclaimed nobody refers to it, and between its publish and its reclaim no key of its place is
/// published.
pub fn reclaim_law()
    ensures given_back { ReclaimLaw }
    ensures alone { AloneLaw }
{}

/// No key is published twice, so that it has one content, and none of a place that is retired.
pub fn once_law()
    ensures once { OnceLaw }
    ensures content { ContentLaw }
    ensures retired { RetiredLaw }
{}

/// Which places are with a lane, and which references it has, is changed by its own acts alone.
pub fn own_law()
    ensures { OwnLaw }
{}
