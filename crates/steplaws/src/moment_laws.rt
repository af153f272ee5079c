//! What holds of moments and of histories beside the steps, as calls that do nothing: whoever calls one may use its law
//! in a proof.

ghost use Rattle.steplaws.specs.MomentLaws.{StartLaw, QuietLaw, CountLaw, ReturnerLaw, HomeStaysLaw, OwnActsLaw};

/// The rule holds of fresh words, no act, and lanes that have nothing under way, pushed or taken.
pub fn start_law()
    ensures { StartLaw }
{}

/// Where no lane has anything under way, every marked key has a reference.
pub fn quiet_law()
    ensures { QuietLaw }
{}

/// Where a count is 0, no lane has a reference.
pub fn count_law()
    ensures { CountLaw }
{}

/// A home place was returned by a lane other than its shard's. It stays home, with who returned it, while the shard's
/// lane makes no act.
pub fn home_law()
    ensures returner { ReturnerLaw }
    ensures stays { HomeStaysLaw }
{}

/// The places with a lane, and its references, stay while it makes no act.
pub fn own_law()
    ensures { OwnActsLaw }
{}
