//! The operands of commands, as they are read.
ghost use Rattle.std.specs.Prelude.{◌≡◌};
ghost use Rattle.serde_json.specs.View.{view};
ghost use Rattle.scripts.specs.ScriptFiles.{register_at, register_of, register_named, key_named, key_of, content_of};
ghost use Rattle.scripts.specs.Readings.{Reads};

use crate::script_fault::ScriptFault;
use crate::script_place::ScriptPlace;
use crate::script_refusal::ScriptRefusal;
use hex::FromHexError;
use schedules::read_digit;
use seqpool::Bytes;
use serde_json::Value;
use std::alloc::Global;
use traces::{Operand, Register};

/// The register of this number, 0 to 15.
fn register_at(number: u64) -> Option<Register>
    ensures { result ≡ register_at number }
{
    if number > 15 {
        return None;
    }
    Some(Register {
        number: number as u8,
    })
}

/// A register, which is its number, at this place.
pub fn read_register(value: &Value, place: ScriptPlace) -> Result<Register, ScriptRefusal>
    ensures { result ≡ register_of place (view value.now) }
{
    let refusal = ScriptRefusal::new(ScriptFault::Register, place);
    let number = value.as_u64().ok_or(refusal)?;
    register_at(number).ok_or(refusal)
}

/// The register that a text names: an at sign and the register's number.
fn read_register_name(text: &[u8]) -> Option<Register>
    ensures { result ≡ register_named text.now }
{
    match text {
        [b'@', digit] => register_at(read_digit(*digit)?),
        [b'@', b'1', digit] => register_at(10 + read_digit(*digit)?),
        _ => None,
    }
}

/// The key that a text at this place names.
fn read_key_name(text: &[u8], place: ScriptPlace) -> Result<Operand, ScriptRefusal>
    ensures { result ≡ key_named place text.now }
{
    let refusal = ScriptRefusal::new(ScriptFault::Register, place);
    let register = read_register_name(text).ok_or(refusal)?;
    Ok(Operand::LastOf(register))
}

/// A key at this place: a number, or a text that names one.
pub fn read_key(value: &Value, place: ScriptPlace) -> Result<Operand, ScriptRefusal>
    ensures { result ≡ key_of place (view value.now) }
{
    if let Some(number) = value.as_u64() {
        return Ok(Operand::Number(number));
    }
    let refusal = ScriptRefusal::new(ScriptFault::Number, place);
    let text = value.as_str().ok_or(refusal)?;
    read_key_name(text.as_bytes(), place)
}

/// The bytes of a value at this place that is a text of pairs of hexadecimal digits.
pub fn read_content(
    alloc: Global,
    value: &Value,
    place: ScriptPlace,
) -> Result<Bytes, ScriptRefusal>
    ensures { Reads (content_of place (view value.now)) result }
{
    let refusal = ScriptRefusal::new(ScriptFault::Number, place);
    let text = value.as_str().ok_or(refusal)?;
    match hex::decode(alloc, text) {
        Ok(bytes) => Ok(Bytes::from_vec(bytes)),
        Err(FromHexError::OutOfMemory) => Err(ScriptRefusal::out_of_memory()),
        Err(_) => Err(refusal),
    }
}
