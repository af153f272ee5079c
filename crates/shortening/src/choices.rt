//! Scripts of which some commands are left out. Commands are counted through all scripts, from 0 on.
ghost use Rattle.std.specs.Prelude.{◌≡◌, ◌+◌, ◌<◌, ◌^◌, ℕ, true, length, IfOk, IfSome};
ghost use Rattle.shortening.specs.Choices.{is_among, commands_in, chosen_from, chosen_scripts};

use crate::copies::copy_command;
use std::alloc::{AllocError, Global};
use traces::{Command, Script};

/// Whether a number is among these.
fn is_among(numbers: &[u32], number: u32) -> bool
    ensures { result ≡ is_among numbers.now number }
{
    for other in numbers {
        if *other == number {
            return true;
        }
    }
    false
}

/// The commands whose numbers, from this one on, are among these.
fn choose(
    alloc: Global,
    commands: &[Command],
    numbers: &[u32],
    from: u32,
) -> Result<Vec<Command>, AllocError>
    requires { from + length commands.now < 2 ^ 32 }
    ensures { IfOk result (λ chosen. chosen.items ≡ chosen_from numbers.now from commands.now) }
{
    let mut chosen = Vec::new(alloc);
    let mut number = from;
    for command in commands {
        if is_among(numbers, number) {
            chosen.push(copy_command(alloc, command)?)?;
        }
        number += 1;
    }
    Ok(chosen)
}

/// The scripts of those commands whose numbers are among these.
pub(crate) fn choose_scripts(
    alloc: Global,
    scripts: &[Script],
    numbers: &[u32],
) -> Result<Vec<Script>, AllocError>
    requires { commands_in scripts.now < 2 ^ 32 }
    ensures chosen { IfOk result (λ chosen. chosen.items ≡ chosen_scripts numbers.now 0 scripts.now) }
    ensures count { IfOk result (λ chosen. length chosen.items ≡ length scripts.now) }
{
    let mut chosen = Vec::new(alloc);
    let mut from = 0;
    for script in scripts {
        let commands = script.as_slice();
        chosen.push(Script::from_vec(choose(alloc, commands, numbers, from)?))?;
        from += commands.len() as u32;
    }
    Ok(chosen)
}

/// How many commands some scripts have; none where a number of 32 bits can't say it.
pub(crate) fn count_commands(scripts: &[Script]) -> Option<u32>
    ensures { IfSome result (λ count. count ≡ commands_in scripts.now) }
{
    let mut count: u32 = 0;
    for script in scripts {
        let more = u32::try_from(script.as_slice().len()).ok()?;
        count = count.checked_add(more)?;
    }
    Some(count)
}

/// So many numbers, from 0 on.
pub(crate) fn numbers_to(alloc: Global, count: u32) -> Result<Vec<u32>, AllocError>
    ensures { IfOk result (λ numbers. (k : ℕ) → k < count → is_among numbers.items k ≡ true) }
{
    let mut numbers = Vec::new(alloc);
    for number in 0..count {
        numbers.push(number)?;
    }
    Ok(numbers)
}
