//! Why a script file is refused, in words.
ghost use Rattle.std.specs.Prelude.{◌≡◌, IfOk, drop, option_map, string_bytes};
ghost use Rattle.json.specs.Tree.{HasNumbers};
ghost use Rattle.json.specs.Value.{value_view};
ghost use Rattle.streams.specs.Shown.{IsSafeLine};
ghost use Rattle.explanations.specs.ScriptTexts.{script_told, begins_with, begins, line_at, may_begin, number_if, HasValue, ExplainsValue, ExplainsScript};

use crate::found::{command_at, value_told};
use crate::json_fault::{begins_number, explain_json, first_of};
use crate::places::{begin_of, behind, line_number, place_told};
use crate::wanted::wanted_told;
use json::{Error, Scratch, Value};
use scripts::{ScriptFault, ScriptPlace, ScriptRefusal};
use std::alloc::{AllocError, Global};
use streams::line_of;

/// The text that says of a refusal where it is, what stands there, and what is wanted: of a file with this value, in
/// which what the place names begins in this line, where that is known.
fn script_told(
    alloc: Global,
    refusal: &ScriptRefusal,
    whole: &Value<'_>,
    number: Option<u128>,
) -> Result<String, AllocError>
    requires { HasNumbers (value_view whole.now) }
    ensures { IfOk result (λ text. string_bytes text ≡ script_told refusal.now (value_view whole.now) number) }
{
    let place = place_told(alloc, number, refusal.place)?;
    let found = value_told(alloc, whole, refusal.place)?;
    let wanted = wanted_told(alloc, refusal, whole)?;
    format!(in alloc; "{place}: {found} {wanted}")
}

/// Whether the text of a value begins with this byte.
fn begins_with(value: &Value<'_>, byte: u8) -> bool
    ensures { result ≡ begins_with (value_view value.now) byte }
{
    match value {
        Value::Null => byte == b'n',
        Value::Bool(_) => byte == b't' || byte == b'f',
        Value::Number(_) => begins_number(Some(byte)),
        Value::String(_) => byte == b'"',
        Value::Array(_) => byte == b'[',
        Value::Object(_) => byte == b'{',
    }
}

/// Whether it does with this, if it is one.
fn begins(value: &Value<'_>, first: Option<u8>) -> bool
    ensures { result ≡ begins (value_view value.now) first }
{
    match first {
        Some(byte) => begins_with(value, byte),
        None => false,
    }
}

/// The line of a script that a place is, or is in.
fn line_at<'v, 'a>(whole: &'v Value<'a>, place: ScriptPlace) -> Option<&'v Value<'a>>
    ensures { option_map (λ v. value_view v.now) result ≡ line_at place (value_view whole.now) }
{
    match place {
        ScriptPlace::Line { lane, line } | ScriptPlace::Item { lane, line, .. } => {
            command_at(whole, lane, line)
        }
        _ => None,
    }
}

/// Whether the line of a script, if it is one, may begin here.
fn may_begin(line: Option<&Value<'_>>, rest: &[u8]) -> bool
    ensures { result ≡ may_begin (option_map (λ v. value_view v.now) line.entry) rest.now }
{
    match line {
        Some(line) => begins(line, first_of(rest)),
        None => true,
    }
}

/// The line of the file in which the line of a script, if it is one, begins that is said to begin here; none where it may
/// not.
fn number_of(file: &[u8], line: Option<&Value<'_>>, begin: usize) -> Option<u128>
    ensures { result ≡ number_if (may_begin (option_map (λ v. value_view v.now) line.entry) (drop begin file.now)) begin file.now }
{
    if may_begin(line, behind(file, begin)) {
        return Some(line_number(file, begin));
    }
    // (Never: the kit's reader tells where a token stands, which no clause of its says.)
    None
}

/// The line that explains a refusal of a file with this value.
fn explain_by(
    alloc: Global,
    file: &[u8],
    refusal: &ScriptRefusal,
    whole: &Value<'_>,
) -> Result<String, AllocError>
    requires numbers { HasNumbers (value_view whole.now) }
    requires value { HasValue file.now (value_view whole.now) }
    ensures is { IfOk result (λ text. ExplainsValue file.now refusal.now (string_bytes text)) }
    ensures safe { IfOk result (λ text. IsSafeLine (string_bytes text)) }
{
    let begin = begin_of(alloc, file, refusal.place)?;
    let number = number_of(file, line_at(whole, refusal.place), begin);
    let told = script_told(alloc, refusal, whole, number)?;
    line_of(alloc, told.as_bytes())
}

/// The line that explains a refusal by the file's value.
fn explain_value(alloc: Global, file: &[u8], refusal: &ScriptRefusal) -> Result<String, AllocError>
    ensures is { IfOk result (λ text. ExplainsValue file.now refusal.now (string_bytes text)) }
    ensures safe { IfOk result (λ text. IsSafeLine (string_bytes text)) }
{
    let mut scratch = Scratch::new(alloc);
    match Value::from_slice(alloc, file, &mut scratch) {
        Ok(whole) => explain_by(alloc, file, refusal, &whole),
        Err(Error::Invalid) => explain_by(alloc, file, refusal, &Value::Null),
        Err(Error::OutOfMemory) => Err(AllocError),
        Err(Error::TooLong) => unreachable!(),
        Err(Error::DuplicateKey) => unreachable!(),
    }
}

/// The line that explains why a script file is refused: the place, for a line of a script with its line in the file;
/// the value that stands there, with its numbers as they were typed, and cut where it is long; and what is wanted. Of
/// bytes that are no JSON text, where they stop being one. The error is want of memory.
pub fn explain_script(
    alloc: Global,
    file: &[u8],
    refusal: &ScriptRefusal,
) -> Result<String, AllocError>
    ensures is { IfOk result (λ text. ExplainsScript file.now refusal.now (string_bytes text)) }
    ensures safe { IfOk result (λ text. IsSafeLine (string_bytes text)) }
{
    match refusal.fault {
        ScriptFault::NotJson => explain_json(alloc, file),
        _ => explain_value(alloc, file, refusal),
    }
}
