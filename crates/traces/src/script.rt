//! The commands of a lane's script.
ghost use Rattle.std.specs.Prelude.{◌≡◌, ◌<◌, List};

use seqpool::Bytes;
use std::marker::Model;

/// A register of a lane: one of sixteen.
#[derive(Clone, Copy)]
pub struct Register {
    pub number: u8,
    ghost small: { number < 16 },
}

/// The key of a `get` or a `clear`: a number, or the last key that a register had.
#[derive(Clone, Copy)]
pub enum Operand {
    Number(u64),
    LastOf(Register),
}

/// A command of a script.
#[derive(Drop)]
pub enum Command {
    Create(Register),
    Write(Register, Bytes),
    Publish(Register),
    Downgrade(Register),
    Get(Register, Operand),
    Read(Register),
    Release(Register),
    Clear(Operand),
}

/// The commands of one lane, in order.
#[derive(Drop)]
pub struct Script {
    commands: Vec<Command>,
}

impl Model for Script {
    ghost use Rattle.std.specs.Prelude.{List};
    ghost use Rattle.traces.specs.declared.script.Command.{Command};

    ghost Value = { List Command };

    ghost view = { λ s. s.commands.items };
}

impl Script {
    /// The script of these commands, which it takes over.
    pub fn from_vec(commands: Vec<Command>) -> Self
        ensures { result ≡ commands.items }
    {
        Script { commands }
    }

    /// The commands as a slice.
    pub fn as_slice(&self) -> &[Command]
        ensures { result.now ≡ self.now }
    {
        self.commands.as_slice()
    }
}
