//! The laws of guests, as calls that do nothing: whoever calls one may use its law in a proof.
ghost use Rattle.poollaws.specs.GuestLaws.{VisitedLaw, FoundBehindLaw, GuestMissedLaw, GuestMarksOnceLaw, PassedGoneLaw, GuestPassedLaw, GuestNoneClearedLaw, GuestKeyClearedLaw, GuestClearedOnceLaw, GuestsLastLaw, GuestsCountedLaw, GuestsClearerLaw};

/// What a guest has seen goes on from what it had seen, and has those acts of the guest that it made since, each once and
/// in their order. All that it had seen stands before its get that finds a key: so whoever has the reference, on whichever
/// thread, knows that the get comes after all of that.
pub fn guest_seen_law()
    ensures visited { VisitedLaw }
    ensures found { FoundBehindLaw }
{}

/// A guest that finds nothing comes behind a clear of the key, if it saw the key published. A second clear marks nothing.
/// Where it has seen the key's place go on, as `is_gone` tells, what was published under the key is cleared, and it finds the
/// key no more. That a get behind a clear of its key finds nothing is in `guest_seen_law`.
pub fn guest_gone_law()
    ensures missed { GuestMissedLaw }
    ensures marks { GuestMarksOnceLaw }
    ensures passed { GuestPassedLaw }
    ensures cleared { PassedGoneLaw }
{}

/// Which keys a guest cleared: those of its clears that answered true, each once. None of its other calls clears a key.
pub fn guest_cleared_law()
    ensures none { GuestNoneClearedLaw }
    ensures key { GuestKeyClearedLaw }
    ensures once { GuestClearedOnceLaw }
{}

/// When a pool with guests is closed one history has all that they have seen, and each published key is cleared in it, or
/// counted as present. Where none is counted as present, each is cleared. Each cleared key was cleared by one of the lanes,
/// or by one of the guests that were dealt.
pub fn guests_close_law()
    ensures last { GuestsLastLaw }
    ensures counted { GuestsCountedLaw }
    ensures clearer { GuestsClearerLaw }
{}
