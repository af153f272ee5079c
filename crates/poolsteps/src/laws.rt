//! What holds of views, as calls that do nothing: whoever calls one may use its law in a proof.
ghost use Rattle.poolsteps.specs.ViewLaws.{ReferencesLaw, ActsLaw, SharesLaw, HeldLaw, FillingLaw};

/// A lane's references change by its own acts alone: a PUBLISH makes the first one or none, a get that hits makes one
/// more, and a release gives one back.
pub fn references_law()
    ensures { ReferencesLaw }
{}

/// A lane's references after any number of calls are those that its own acts leave it, whatever other lanes did among
/// them.
pub fn acts_law()
    ensures { ActsLaw }
{}

/// What a lane may have of a place's shares stays with it while others act, with the place's room, and so does a key
/// that it may publish; and a lane with a reference may have its share.
pub fn shares_law()
    ensures stays { SharesLaw }
    ensures held { HeldLaw }
    ensures fills { FillingLaw }
{}
