//! How many references a lane has to a key.
ghost use Rattle.std.specs.Prelude.{◌≡◌, ◌+◌, ◌-◌, ◌<◌, ℕ, OnOk, OnErr, length};

use std::alloc::{AllocError, Global};
use std::marker::Model;

/// How many references a lane has to a key.
///
/// It holds a unit for each of them, so one more is refused only where memory is.
#[derive(Drop)]
pub(crate) struct Tally {
    units: Vec<u8>,
}

impl Model for Tally {
    ghost Value = { ℕ };

    ghost view = { λ t. length t.units.items };
}

impl Tally {
    /// No references. It takes no memory.
    pub(crate) fn new(alloc: Global) -> Tally
        ensures { result ≡ 0 }
    {
        Tally {
            units: Vec::new(alloc),
        }
    }

    /// How many there are.
    pub(crate) fn count(&self) -> usize
        ensures { result ≡ self.now }
    {
        self.units.len()
    }

    /// One more; where memory is refused, there are as many as before.
    pub(crate) fn add(&mut self) -> Result<(), AllocError>
        ensures ok { OnOk result (self.new ≡ self.old + 1) }
        ensures err { OnErr result (self.new ≡ self.old) }
    {
        self.units.push(1)?;
        Ok(())
    }

    /// One less, of those that there are.
    pub(crate) fn remove(&mut self)
        requires { 0 < self.old }
        ensures { self.new ≡ self.old - 1 }
    {
        let _unit = self.units.pop();
    }
}
