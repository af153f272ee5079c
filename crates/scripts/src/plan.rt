//! What a script file says.
ghost use Rattle.std.specs.Prelude.{◌≡◌};

use keybits::Shape;
use std::marker::Model;
use traces::Script;

/// The scripts of a plan: one for each lane, by rising number.
#[derive(Drop)]
pub struct Scripts {
    scripts: Vec<Script>,
}

impl Model for Scripts {
    ghost use Rattle.std.specs.Prelude.{List};
    ghost use Rattle.traces.specs.declared.script.Command.{Command};

    ghost Value = { List (List Command) };

    ghost view = { λ s. s.scripts.items };
}

impl Scripts {
    /// The scripts of a vector, which it takes over.
    pub fn from_vec(scripts: Vec<Script>) -> Self
        ensures { result ≡ scripts.items }
    {
        Scripts { scripts }
    }

    /// The scripts as a vector again.
    pub fn into_vec(self) -> Vec<Script>
        ensures { result.items ≡ self }
    {
        let Scripts { scripts } = self;
        scripts
    }

    /// The scripts as a slice.
    pub fn as_slice(&self) -> &[Script]
        ensures { result.now ≡ self.now }
    {
        self.scripts.as_slice()
    }
}

/// What a script file says: the shape of a pool, and a script for each of its lanes.
#[derive(Drop)]
pub struct Plan {
    pub shape: Shape,
    pub scripts: Scripts,
}
