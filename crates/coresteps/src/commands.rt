//! The commands of a lane, with the places of its writes.
ghost use Rattle.std.specs.Prelude.{◌≡◌, ◌<◌, ◌≤◌, ◌-◌, ◌++◌, ℕ, List, [], ◌∷◌, All, drop, length, take, IfOk, OnOk};
ghost use Rattle.traces.specs.declared.script.Command.{Command};
ghost use Rattle.coresteps.specs.Lanes.{written_since};
ghost use Rattle.coresteps.specs.Writes.{AreWrites, bytes_of, write_indices};

use crate::fault::CoreFault;
use crate::progress::REGISTERS;
use seqpool::Bytes;
use std::alloc::Global;
use std::marker::Model;
use traces::{Command, Register, Script};

/// The commands of a lane, with the places of its writes: for each register the indices of the writes to it, in rising
/// order.
#[derive(Drop)]
pub(crate) struct Commands {
    script: Script,
    writes: Vec<Vec<usize>>,
}

impl Model for Commands {
    ghost use Rattle.std.specs.Prelude.{List};
    ghost use Rattle.traces.specs.declared.script.Command.{Command};
    ghost use Rattle.coresteps.specs.Writes.{AreWrites};

    ghost Value = { List Command };

    ghost view = { λ c. c.script };

    ghost invariant = { λ c. AreWrites c.script c.writes.items };
}

impl Commands {
    /// The commands of a script, which it takes over.
    pub(crate) fn new(alloc: Global, script: Script) -> Result<Commands, CoreFault>
        ensures { IfOk result (λ commands. commands ≡ script) }
    {
        let mut writes = no_writes(alloc)?;
        for (index, command) in script.as_slice().iter().enumerate() {
            note_write(&mut writes, index, command)?;
        }
        Ok(Commands { script, writes })
    }

    /// The commands as a slice.
    pub(crate) fn as_slice(&self) -> &[Command]
        ensures { result.now ≡ self.now }
    {
        self.script.as_slice()
    }

    /// The bytes that were written to a register by the commands from one to before another. It goes over these writes
    /// alone.
    pub(crate) fn written_since(
        &self,
        alloc: Global,
        created: usize,
        done: usize,
        register: Register,
    ) -> Result<Bytes, CoreFault>
        requires created { created ≤ done }
        requires done { done ≤ length self.now }
        ensures { IfOk result (λ content. content ≡ written_since self.now created done register.number) }
    {
        let commands = self.as_slice();
        let mut content = Bytes::empty(alloc);
        for index in self.writes_between(created, done, register) {
            content.append(written_bytes(&commands[*index]))?;
        }
        Ok(content)
    }

    /// The indices of the writes to a register by the commands from one to before another.
    fn writes_between(&self, created: usize, done: usize, register: Register) -> &[usize]
        requires created { created ≤ done }
        requires done { done ≤ length self.now }
        ensures inside { All (λ index. index < length self.now) result.now }
        ensures writes { result.now ≡ write_indices register.number created (take (done - created) (drop created self.now)) }
    {
        let row = self.row(register);
        let first = count_below(row, created);
        let end = count_below(row, done);
        &row[first..end]
    }

    /// The indices of all writes to a register.
    fn row(&self, register: Register) -> &[usize]
        ensures { result.now ≡ write_indices register.number 0 self.now }
    {
        self.writes[register.number as usize].as_slice()
    }
}

/// The rows of no commands.
fn no_writes(alloc: Global) -> Result<Vec<Vec<usize>>, CoreFault>
    ensures { IfOk result (λ rows. AreWrites [] rows.items) }
{
    let mut rows = Vec::with_capacity(alloc, REGISTERS)?;
    for _ in 0..REGISTERS {
        rows.push(Vec::new(alloc))?;
    }
    Ok(rows)
}

/// Notes the index of the next command, if it is a write, in its register's row.
fn note_write(rows: &mut Vec<Vec<usize>>, index: usize, command: &Command) -> Result<(), CoreFault>
    requires { length rows.old.items ≡ REGISTERS }
    ensures { OnOk result ((script : List Command) → AreWrites script rows.old.items → length script ≡ index
        → AreWrites (script ++ command.now ∷ []) rows.new.items) }
{
    if let Command::Write(register, _) = command {
        rows[register.number as usize].push(index)?;
    }
    Ok(())
}

/// How many numbers of a row are below a limit, where those below it come first.
fn count_below(row: &[usize], limit: usize) -> usize
    requires { (low high : List ℕ) × (row.now ≡ low ++ high) × All (λ index. index < limit) low × All (λ index. limit ≤ index) high }
    ensures within { result ≤ length row.now }
    ensures count { (low high : List ℕ) → row.now ≡ low ++ high → All (λ index. index < limit) low → All (λ index. limit ≤ index) high
        → result ≡ length low }
{
    row.partition_point(|index| *index < limit)
}

/// The bytes of a write; none of another command.
fn written_bytes(command: &Command) -> &[u8]
    ensures { result.now ≡ bytes_of command.now }
{
    match command {
        Command::Write(_, bytes) => bytes.as_slice(),
        _ => &[],
    }
}
