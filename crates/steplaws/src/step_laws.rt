//! The laws of the steps, as calls that do nothing: whoever calls one may use its law in a proof. Each says of a kind
//! of step, at a moment at which the rule holds, that its word is one at which it may be made, which act it makes, that
//! the act is allowed, and that the rule holds of the moment after it.

ghost use Rattle.steplaws.specs.StepLaws.{GetHitsLaw, GetMissesLaw, ClearHitsLaw, ClearMissesLaw, ReleaseLaw, UndoLaw, PublishLaw, MarkLaw};
ghost use Rattle.steplaws.specs.StepLaws.{ClaimOwnLaw, ClaimOtherLaw, ClaimLastLaw, ClaimFailsLaw, LinkLaw, PushSucceedsLaw, PushFailsLaw, PushAgainLaw};
ghost use Rattle.steplaws.specs.StepLaws.{TakeNoneLaw, TakeChainLaw, FollowLaw, ReturnLaw, GatherLaw};

/// ENTER adds one to the count. A get that hits shows a content, and its lane has one reference more; every other ENTER
/// is to be undone. Until a clear that hit has undone its ENTER, the key stays in the map.
pub fn enter_law()
    ensures get_hits { GetHitsLaw }
    ensures get_misses { GetMissesLaw }
    ensures clear_hits { ClearHitsLaw }
    ensures clear_misses { ClearMissesLaw }
{}

/// LEAVE takes one from the count, of a reference that is given back or of an ENTER that is undone. Where it leaves a
/// marked word with count 0, its lane owes the claim.
pub fn leave_law()
    ensures release { ReleaseLaw }
    ensures undo { UndoLaw }
{}

/// PUBLISH of a place that is with the lane makes it present, with a reference or without one.
pub fn publish_law()
    ensures { PublishLaw }
{}

/// MARK makes the state MARKED, of the very key that the clear hit; its reply is whether it was PRESENT.
pub fn mark_law()
    ensures { MarkLaw }
{}

/// CLAIM succeeds from one word alone. The place is then with the lane, and is to be returned where it is of another
/// shard, or it is retired. From any other word CLAIM changes nothing, and nothing is owed any more.
pub fn claim_law()
    ensures own { ClaimOwnLaw }
    ensures other { ClaimOtherLaw }
    ensures last { ClaimLastLaw }
    ensures fails { ClaimFailsLaw }
{}

/// LINK stores the expected top in the link word of a place to return, and breaks no stack.
pub fn link_law()
    ensures { LinkLaw }
{}

/// PUSH that finds the top that was linked makes the place home. One that doesn't finds 0, since only its lane pushes
/// there; so a second PUSH, after a LINK to 0, succeeds.
pub fn push_law()
    ensures succeeds { PushSucceedsLaw }
    ensures fails { PushFailsLaw }
    ensures again { PushAgainLaw }
{}

/// TAKE of an empty stack tells that its lane has returned no place that is still home. TAKE of another collects just
/// the places that the links lead through.
pub fn take_law()
    ensures none { TakeNoneLaw }
    ensures chain { TakeChainLaw }
{}

/// FOLLOW comes to the next place of the taken chain.
pub fn follow_law()
    ensures { FollowLaw }
{}

/// RETURN, by a guest, of a place to return: it adds the place's bit to its row's word, and the place is home.
pub fn return_law()
    ensures { ReturnLaw }
{}

/// GATHER of a row of the lane's own shard collects just the places whose bits are set.
pub fn gather_law()
    ensures { GatherLaw }
{}
