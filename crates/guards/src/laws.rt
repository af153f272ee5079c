//! A law for a client's proofs, as a call that does nothing.
ghost use Rattle.guards.specs.Seated.{GoesOnLaw};

/// What goes on twice goes on: what a lane has seen over two calls, and what it knows of rooms.
pub fn goes_on_law()
    ensures { GoesOnLaw }
{}
