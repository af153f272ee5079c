//! The laws of lawful traces, as calls that do nothing: whoever calls one may use its law in a proof. Each says of
//! every lawful trace, whatever its schedule, what holds after its turns.

ghost use Rattle.traces.specs.TraceLaws.{StandsLaw, HoldsLaw};

/// After each turn, and before the first, each place is in exactly one part, and the rule of the steps holds: Count,
/// State, Owed claim and Home. Where all lanes are finished, every marked key has a reference.
pub fn stands_law()
    ensures { StandsLaw }
{}

/// After the turns, the rule of the steps holds, and each lane's book and the pool tell the same: which places the lane
/// has, and which references.
pub fn holds_law()
    ensures { HoldsLaw }
{}
