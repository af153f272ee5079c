//! A replay that was made.
ghost use Rattle.std.specs.Prelude.{◌≡◌, length};

use traces::Trace;

/// A replay that was made of a script file over turns.
#[derive(Drop)]
pub struct Replayed {
    /// How many lanes the file has.
    pub lanes: u32,
    /// The schedule: the entries of the turns, up to the stop.
    pub schedule: Vec<u32>,
    /// How many commands each lane's script has.
    pub counts: Vec<usize>,
    /// The trace.
    pub trace: Trace,
    ghost each: { length counts.items ≡ lanes },
}
