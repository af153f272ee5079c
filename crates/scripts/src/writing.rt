//! Plans as the text of a script file.
ghost use Rattle.std.specs.Prelude.{◌≡◌, ◌≤◌, IfOk, length, map, string_bytes};
ghost use Rattle.hex.specs.Hex.{IsBytes, encode_lower};
ghost use Rattle.keybits.specs.Shapes.{IsNarrow};
ghost use Rattle.serde_json.specs.Data.{depth};
ghost use Rattle.serde_json.specs.View.{view};
ghost use Rattle.scripts.specs.PlanValues.{AreEach, AreWithin, IsLineOf, IsOfBytes, IsScriptOf, command_data, key_data, shape_data, whole, with_fields, with_one, with_two};
ghost use Rattle.scripts.specs.Readings.{IsPlanOf, StandsFor};

use crate::plan::Plan;
use keybits::Shape;
use serde_json::{Value, json};
use std::alloc::{AllocError, Global};
use traces::{Command, Operand, Register, Script};

/// The value of a key.
fn key_value(alloc: Global, key: Operand) -> Result<Value, AllocError>
    ensures { IfOk result (λ v. view v ≡ key_data key) }
{
    match key {
        Operand::Number(key) => json!(in alloc; key),
        Operand::LastOf(Register { number }) => {
            let name = format!(in alloc; "@{number}")?;
            Ok(Value::String(name))
        }
    }
}

/// The text of some bytes: pairs of hexadecimal digits.
fn hex_text(alloc: Global, bytes: &[u8]) -> Result<String, AllocError>
    ensures text { IfOk result (λ text. string_bytes text ≡ encode_lower bytes.now) }
    ensures bytes { IsBytes bytes.now }
{
    hex::encode(alloc, bytes)
}

/// The value of a command with a register.
fn register_line(alloc: Global, name: &str, register: Register) -> Result<Value, AllocError>
    ensures { IfOk result (λ v. view v ≡ with_one name.now (whole register.number)) }
{
    let Register { number } = register;
    json!(in alloc; [name, number])
}

/// The value of a write.
fn write_line(alloc: Global, register: Register, bytes: &[u8]) -> Result<Value, AllocError>
    ensures value { IfOk result (λ v. view v ≡ command_data (Command.Write register bytes.now)) }
    ensures bytes { IfOk result (λ v. IsOfBytes (Command.Write register bytes.now)) }
{
    let Register { number } = register;
    let text = hex_text(alloc, bytes)?;
    json!(in alloc; ["write", number, text.as_str()])
}

/// The value of a get.
fn get_line(alloc: Global, register: Register, key: Operand) -> Result<Value, AllocError>
    ensures { IfOk result (λ v. view v ≡ command_data (Command.Get register key)) }
{
    let Register { number } = register;
    let key = key_value(alloc, key)?;
    json!(in alloc; ["get", number, &key])
}

/// The value of a clear.
fn clear_line(alloc: Global, key: Operand) -> Result<Value, AllocError>
    ensures { IfOk result (λ v. view v ≡ command_data (Command.Clear key)) }
{
    let key = key_value(alloc, key)?;
    json!(in alloc; ["clear", &key])
}

/// The value of a command.
fn command_value(alloc: Global, command: &Command) -> Result<Value, AllocError>
    ensures value { IfOk result (λ v. view v ≡ command_data command.now) }
    ensures bytes { IfOk result (λ v. IsOfBytes command.now) }
{
    match command {
        Command::Create(register) => register_line(alloc, "create", *register),
        Command::Write(register, bytes) => write_line(alloc, *register, bytes.as_slice()),
        Command::Publish(register) => register_line(alloc, "publish", *register),
        Command::Downgrade(register) => register_line(alloc, "downgrade", *register),
        Command::Get(register, key) => get_line(alloc, *register, *key),
        Command::Read(register) => register_line(alloc, "read", *register),
        Command::Release(register) => register_line(alloc, "release", *register),
        Command::Clear(key) => clear_line(alloc, *key),
    }
}

/// The value of a command, as it is read.
fn line_value(alloc: Global, command: &Command) -> Result<Value, AllocError>
    ensures { IfOk result (λ v. IsLineOf command.now (view v)) }
{
    let line = command_value(alloc, command)?;
    Ok(line)
}

/// The values of some commands.
fn line_values(alloc: Global, commands: &[Command]) -> Result<Vec<Value>, AllocError>
    ensures { IfOk result (λ lines. AreEach IsLineOf commands.now (map view lines.items)) }
{
    let mut lines = Vec::new(alloc);
    for command in commands {
        lines.push(line_value(alloc, command)?)?;
    }
    Ok(lines)
}

/// The value of a script.
fn script_value(alloc: Global, script: &Script) -> Result<Value, AllocError>
    ensures { IfOk result (λ v. IsScriptOf script.now (view v)) }
{
    let lines = line_values(alloc, script.as_slice())?;
    Ok(Value::Array(lines))
}

/// The values of some scripts.
fn script_values(alloc: Global, scripts: &[Script]) -> Result<Vec<Value>, AllocError>
    ensures { IfOk result (λ values. AreEach IsScriptOf scripts.now (map view values.items)) }
{
    let mut values = Vec::new(alloc);
    for script in scripts {
        values.push(script_value(alloc, script)?)?;
    }
    Ok(values)
}

/// The value of a shape.
fn shape_value(alloc: Global, shape: &Shape) -> Result<Value, AllocError>
    ensures value { IfOk result (λ v. view v ≡ shape_data shape.now) }
    ensures within { AreWithin shape.now }
{
    let Shape {
        lanes,
        first_page,
        pages,
        last_generation,
        tag,
        ..
    } = *shape;
    json!(in alloc; {
        "lanes": lanes,
        "first_page": first_page,
        "pages": pages,
        "last_generation": last_generation,
        "tag": tag
    })
}

/// The value of a file with this shape and these scripts.
fn file_value(alloc: Global, shape: &Value, scripts: &Value) -> Result<Value, AllocError>
    ensures { IfOk result (λ v. view v ≡ with_fields (view scripts.now) (view shape.now)) }
{
    json!(in alloc; {"shape": shape, "scripts": scripts})
}

/// The value of a plan.
fn plan_value(alloc: Global, plan: &Plan) -> Result<Value, AllocError>
    requires shape { IsNarrow plan.now.shape }
    requires count { length plan.now.scripts ≡ plan.now.shape.lanes }
    ensures is { IfOk result (λ v. IsPlanOf (view v) plan.now) }
    ensures flat { IfOk result (λ v. depth (view v) ≤ 4) }
{
    let shape = shape_value(alloc, &plan.shape)?;
    let scripts = script_values(alloc, plan.scripts.as_slice())?;
    let file = file_value(alloc, &shape, &Value::Array(scripts))?;
    Ok(file)
}

/// The text of a script file that stands for a plan, as one line without its end. The error is want of memory.
pub fn plan_text(alloc: Global, plan: &Plan) -> Result<String, AllocError>
    requires shape { IsNarrow plan.now.shape }
    requires count { length plan.now.scripts ≡ plan.now.shape.lanes }
    ensures { IfOk result (λ text. StandsFor (string_bytes text) plan.now) }
{
    let value = plan_value(alloc, plan)?;
    value.to_string(alloc)
}
