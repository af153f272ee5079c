//! The value at a place of a script file, with its numbers as they were typed.
ghost use Rattle.std.specs.Prelude.{◌≡◌, IfOk, option_map, string_bytes};
ghost use Rattle.json.specs.Tree.{HasNumbers};
ghost use Rattle.json.specs.Value.{value_view};
ghost use Rattle.streams.specs.Shown.{cut_text};
ghost use Rattle.explanations.specs.Found.{script_at, command_at, item_at, in_shape, field_at, value_of, shown_value};

use json::{Value, to_vec};
use scripts::{FieldName, ScriptPlace};
use std::alloc::{AllocError, Global};
use streams::push_cut;

/// The script of a lane.
fn script_at<'v, 'a>(whole: &'v Value<'a>, lane: usize) -> Option<&'v Value<'a>>
    ensures { option_map (λ v. value_view v.now) result ≡ script_at lane (value_view whole.now) }
{
    let scripts = whole.get("scripts")?;
    scripts.at(lane)
}

/// A line of a lane's script.
pub(crate) fn command_at<'v, 'a>(
    whole: &'v Value<'a>,
    lane: usize,
    line: usize,
) -> Option<&'v Value<'a>>
    ensures { option_map (λ v. value_view v.now) result ≡ command_at lane line (value_view whole.now) }
{
    let script = script_at(whole, lane)?;
    script.at(line)
}

/// An item of a line.
pub(crate) fn item_at<'v, 'a>(
    whole: &'v Value<'a>,
    lane: usize,
    line: usize,
    item: usize,
) -> Option<&'v Value<'a>>
    ensures { option_map (λ v. value_view v.now) result ≡ item_at lane line item (value_view whole.now) }
{
    let command = command_at(whole, lane, line)?;
    command.at(item)
}

/// A field of the shape.
fn in_shape<'v, 'a>(whole: &'v Value<'a>, name: &str) -> Option<&'v Value<'a>>
    ensures { option_map (λ v. value_view v.now) result ≡ in_shape name.now (value_view whole.now) }
{
    let shape = whole.get("shape")?;
    shape.get(name)
}

/// A field of the file or of its shape.
pub(crate) fn field_at<'v, 'a>(whole: &'v Value<'a>, name: FieldName) -> Option<&'v Value<'a>>
    ensures { option_map (λ v. value_view v.now) result ≡ field_at name (value_view whole.now) }
{
    match name {
        FieldName::Shape => whole.get("shape"),
        FieldName::Scripts => whole.get("scripts"),
        _ => in_shape(whole, name.text()),
    }
}

/// The value at a place of a file; none where there is none, and for the file as a whole.
pub(crate) fn find<'v, 'a>(whole: &'v Value<'a>, place: ScriptPlace) -> Option<&'v Value<'a>>
    ensures { option_map (λ v. value_view v.now) result ≡ value_of place (value_view whole.now) }
{
    match place {
        ScriptPlace::File => None,
        ScriptPlace::Field(name) => field_at(whole, name),
        ScriptPlace::Scripts => whole.get("scripts"),
        ScriptPlace::Script { lane } => script_at(whole, lane),
        ScriptPlace::Line { lane, line } => command_at(whole, lane, line),
        ScriptPlace::Item { lane, line, item } => item_at(whole, lane, line, item),
    }
}

/// Some bytes as they are shown, and cut where they are many.
pub(crate) fn cut_of(alloc: Global, bytes: &[u8]) -> Result<String, AllocError>
    ensures { IfOk result (λ text. string_bytes text ≡ cut_text bytes.now) }
{
    let mut text = String::new(alloc);
    push_cut(&mut text, bytes)?;
    Ok(text)
}

/// What is shown of the value at a place of a file; `it` where there is none.
pub(crate) fn value_told(
    alloc: Global,
    whole: &Value<'_>,
    place: ScriptPlace,
) -> Result<String, AllocError>
    requires { HasNumbers (value_view whole.now) }
    ensures { IfOk result (λ text. string_bytes text ≡ shown_value (value_of place (value_view whole.now))) }
{
    match find(whole, place) {
        Some(found) => {
            let shown = to_vec(alloc, found)?;
            cut_of(alloc, shown.as_slice())
        }
        None => String::from_str(alloc, "it"),
    }
}
