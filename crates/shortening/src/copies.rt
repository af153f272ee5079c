//! Scripts once more, as each replay uses its own up.
ghost use Rattle.std.specs.Prelude.{◌≡◌, IfOk};

use std::alloc::{AllocError, Global};
use traces::{Command, Script};

/// The same command once more.
pub(crate) fn copy_command(alloc: Global, command: &Command) -> Result<Command, AllocError>
    ensures { IfOk result (λ copy. copy ≡ command.now) }
{
    match command {
        Command::Create(register) => Ok(Command::Create(*register)),
        Command::Write(register, bytes) => {
            let bytes = bytes.copy(alloc)?;
            Ok(Command::Write(*register, bytes))
        }
        Command::Publish(register) => Ok(Command::Publish(*register)),
        Command::Downgrade(register) => Ok(Command::Downgrade(*register)),
        Command::Get(register, key) => Ok(Command::Get(*register, *key)),
        Command::Read(register) => Ok(Command::Read(*register)),
        Command::Release(register) => Ok(Command::Release(*register)),
        Command::Clear(key) => Ok(Command::Clear(*key)),
    }
}

/// The same script once more.
fn copy_script(alloc: Global, script: &Script) -> Result<Script, AllocError>
    ensures { IfOk result (λ copy. copy ≡ script.now) }
{
    let commands = script.as_slice();
    let mut copies = Vec::with_capacity(alloc, commands.len())?;
    for command in commands {
        copies.push(copy_command(alloc, command)?)?;
    }
    Ok(Script::from_vec(copies))
}

/// The same scripts once more.
pub fn copy_scripts(alloc: Global, scripts: &[Script]) -> Result<Vec<Script>, AllocError>
    ensures { IfOk result (λ copies. copies.items ≡ scripts.now) }
{
    let mut copies = Vec::with_capacity(alloc, scripts.len())?;
    for script in scripts {
        copies.push(copy_script(alloc, script)?)?;
    }
    Ok(copies)
}
