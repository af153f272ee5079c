//! What stops workers.
ghost use Rattle.std.specs.Prelude.{ℕ, Bool};

/// Asked before each line of a worker.
pub trait Gate {
    /// What it may answer, by the worker's number and the line's.
    ghost says: { Self → ℕ → ℕ → Bool → Type 0 };

    /// Whether the worker of this number, which is its lane's, may run this line of its script, counted from 0. At
    /// false it stops before that line.
    fn pass(&self, worker: u32, line: u32) -> bool
        ensures says { says self.now worker line result };
}
