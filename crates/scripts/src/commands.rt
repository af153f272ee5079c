//! Commands and scripts, as they are read from the values of a file.
ghost use Rattle.std.specs.Prelude.{◌≡◌, map};
ghost use Rattle.serde_json.specs.View.{view};
ghost use Rattle.scripts.specs.ScriptFiles.{only_of, both_of, only_register_of, command_with, line_of, each_of, command_of, script_of, scripts_of};
ghost use Rattle.scripts.specs.Readings.{Reads, seen_by};

use crate::command_name::{CommandName, find_command};
use crate::fields::items;
use crate::operands::{read_content, read_key, read_register};
use crate::plan::Scripts;
use crate::script_fault::ScriptFault;
use crate::script_place::ScriptPlace;
use crate::script_refusal::ScriptRefusal;
use serde_json::Value;
use std::alloc::Global;
use traces::{Command, Register, Script};

/// The operand of a command that wants one, in the line at this place.
fn only(operands: &[Value], place: ScriptPlace) -> Result<&Value, ScriptRefusal>
    ensures { seen_by (λ v. view v.now) result ≡ only_of place (map view operands.now) }
{
    match operands {
        [operand] => Ok(operand),
        _ => Err(ScriptRefusal::new(ScriptFault::Field, place)),
    }
}

/// The operands of a command that wants two, in the line at this place.
fn both(operands: &[Value], place: ScriptPlace) -> Result<(&Value, &Value), ScriptRefusal>
    ensures { seen_by (λ p. (view p.0.now, view p.1.now)) result
        ≡ both_of place (map view operands.now) }
{
    match operands {
        [first, second] => Ok((first, second)),
        _ => Err(ScriptRefusal::new(ScriptFault::Field, place)),
    }
}

/// The register of a command that wants one alone.
fn read_only_register(
    lane: usize,
    line: usize,
    operands: &[Value],
) -> Result<Register, ScriptRefusal>
    ensures { result ≡ only_register_of lane line (map view operands.now) }
{
    let operand = only(operands, ScriptPlace::Line { lane, line })?;
    read_register(
        operand,
        ScriptPlace::Item {
            lane,
            line,
            item: 1,
        },
    )
}

/// A `write` with these operands.
fn read_write(
    alloc: Global,
    lane: usize,
    line: usize,
    operands: &[Value],
) -> Result<Command, ScriptRefusal>
    ensures { Reads (command_with lane line CommandName.Write (map view operands.now)) result }
{
    let (register, content) = both(operands, ScriptPlace::Line { lane, line })?;
    let register = read_register(
        register,
        ScriptPlace::Item {
            lane,
            line,
            item: 1,
        },
    )?;
    let content = read_content(
        alloc,
        content,
        ScriptPlace::Item {
            lane,
            line,
            item: 2,
        },
    )?;
    Ok(Command::Write(register, content))
}

/// A `get` with these operands.
fn read_get(lane: usize, line: usize, operands: &[Value]) -> Result<Command, ScriptRefusal>
    ensures { result ≡ command_with lane line CommandName.Get (map view operands.now) }
{
    let (register, key) = both(operands, ScriptPlace::Line { lane, line })?;
    let register = read_register(
        register,
        ScriptPlace::Item {
            lane,
            line,
            item: 1,
        },
    )?;
    let key = read_key(
        key,
        ScriptPlace::Item {
            lane,
            line,
            item: 2,
        },
    )?;
    Ok(Command::Get(register, key))
}

/// A `clear` with these operands.
fn read_clear(lane: usize, line: usize, operands: &[Value]) -> Result<Command, ScriptRefusal>
    ensures { result ≡ command_with lane line CommandName.Clear (map view operands.now) }
{
    let operand = only(operands, ScriptPlace::Line { lane, line })?;
    let key = read_key(
        operand,
        ScriptPlace::Item {
            lane,
            line,
            item: 1,
        },
    )?;
    Ok(Command::Clear(key))
}

/// The command of this name with these operands, in this line of the lane's script.
fn read_command_with(
    alloc: Global,
    lane: usize,
    line: usize,
    name: CommandName,
    operands: &[Value],
) -> Result<Command, ScriptRefusal>
    ensures { Reads (command_with lane line name (map view operands.now)) result }
{
    match name {
        CommandName::Create => Ok(Command::Create(read_only_register(lane, line, operands)?)),
        CommandName::Publish => Ok(Command::Publish(read_only_register(lane, line, operands)?)),
        CommandName::Downgrade => Ok(Command::Downgrade(read_only_register(lane, line, operands)?)),
        CommandName::Read => Ok(Command::Read(read_only_register(lane, line, operands)?)),
        CommandName::Release => Ok(Command::Release(read_only_register(lane, line, operands)?)),
        CommandName::Write => read_write(alloc, lane, line, operands),
        CommandName::Get => read_get(lane, line, operands),
        CommandName::Clear => read_clear(lane, line, operands),
    }
}

/// The command of a line's items: a command's name and its operands.
fn read_line(
    alloc: Global,
    lane: usize,
    line: usize,
    items: &[Value],
) -> Result<Command, ScriptRefusal>
    ensures { Reads (line_of lane line (map view items.now)) result }
{
    let Some((first, operands)) = items.split_first() else {
        let place = ScriptPlace::Line { lane, line };
        return Err(ScriptRefusal::new(ScriptFault::Field, place));
    };
    let place = ScriptPlace::Item {
        lane,
        line,
        item: 0,
    };
    let Some(text) = first.as_str() else {
        return Err(ScriptRefusal::new(ScriptFault::Field, place));
    };
    let Some(name) = find_command(text) else {
        return Err(ScriptRefusal::new(ScriptFault::Act, place));
    };
    read_command_with(alloc, lane, line, name, operands)
}

/// The command of a value that is this line of the lane's script.
fn read_command(
    alloc: Global,
    lane: usize,
    line: usize,
    value: &Value,
) -> Result<Command, ScriptRefusal>
    ensures { Reads (command_of lane line (view value.now)) result }
{
    let items = items(value, ScriptPlace::Line { lane, line })?;
    read_line(alloc, lane, line, items)
}

/// The lane's script of these lines.
fn read_lines(alloc: Global, lane: usize, lines: &[Value]) -> Result<Script, ScriptRefusal>
    ensures { Reads (each_of (command_of lane) 0 (map view lines.now)) result }
{
    let mut commands = Vec::with_capacity(alloc, lines.len())?;
    for (line, value) in lines.iter().enumerate() {
        let command = read_command(alloc, lane, line, value)?;
        commands.push(command)?;
    }
    Ok(Script::from_vec(commands))
}

/// The lane's script of a value that is an array of lines.
fn read_script(alloc: Global, lane: usize, value: &Value) -> Result<Script, ScriptRefusal>
    ensures { Reads (script_of lane (view value.now)) result }
{
    let lines = items(value, ScriptPlace::Script { lane })?;
    read_lines(alloc, lane, lines)
}

/// These scripts, by rising lane.
fn read_all(alloc: Global, values: &[Value]) -> Result<Scripts, ScriptRefusal>
    ensures { Reads (each_of script_of 0 (map view values.now)) result }
{
    let mut scripts = Vec::with_capacity(alloc, values.len())?;
    for (lane, value) in values.iter().enumerate() {
        let script = read_script(alloc, lane, value)?;
        scripts.push(script)?;
    }
    Ok(Scripts::from_vec(scripts))
}

/// The scripts of so many lanes.
pub fn read_scripts(alloc: Global, lanes: u32, values: &[Value]) -> Result<Scripts, ScriptRefusal>
    ensures { Reads (scripts_of lanes (map view values.now)) result }
{
    if values.len() != lanes as usize {
        return Err(ScriptRefusal::new(ScriptFault::Field, ScriptPlace::Scripts));
    }
    read_all(alloc, values)
}
