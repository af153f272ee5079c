//! Script files, as they are read.
ghost use Rattle.std.specs.Prelude.{◌≡◌, ◌||◌, ◌&&◌, map, IfOk, IfErr};
ghost use Rattle.serde_json.specs.View.{view};
ghost use Rattle.scripts.specs.ScriptFiles.{has_fields, has_field, shape_fields_of, tag_of, shape_of, fields_of, file_of};
ghost use Rattle.scripts.specs.Readings.{seen_by, IsJson, IsPlanOf, RefusesPlan, RefusesBytes, Parses};

use crate::commands::read_scripts;
use crate::fields::{expect, field, has_field, has_fields, items, read_number};
use crate::plan::Plan;
use crate::script_fault::ScriptFault;
use crate::script_place::{FieldName, ScriptPlace};
use crate::script_refusal::ScriptRefusal;
use keybits::Shape;
use serde_json::Value;
use std::alloc::Global;

/// Whether a value has as many fields as a shape, with or without the tag.
fn has_shape_fields(value: &Value) -> bool
    ensures { result ≡ (has_fields 4 (view value.now) || (has_fields 5 (view value.now) && has_field FieldName.Tag (view value.now))) }
{
    has_fields(value, 4) || (has_fields(value, 5) && has_field(value, FieldName::Tag))
}

/// Nothing, where a value is an object with exactly the fields of a shape, with or without the tag.
fn expect_shape_fields(value: &Value) -> Result<(), ScriptRefusal>
    ensures { result ≡ shape_fields_of (view value.now) }
{
    let shape = ScriptPlace::Field(FieldName::Shape);
    expect(value.is_object(), shape)
        .and(field(value, FieldName::Lanes))
        .and(field(value, FieldName::FirstPage))
        .and(field(value, FieldName::Pages))
        .and(field(value, FieldName::LastGeneration))
        .and(expect(has_shape_fields(value), shape))
}

/// The tag of a shape, which is 0 where it has no such field.
fn read_tag(value: &Value) -> Result<u32, ScriptRefusal>
    ensures { result ≡ tag_of (view value.now) }
{
    if has_field(value, FieldName::Tag) {
        return read_number(value, FieldName::Tag);
    }
    Ok(0)
}

/// The shape of an object with its fields.
fn read_shape(value: &Value) -> Result<Shape, ScriptRefusal>
    ensures { result ≡ shape_of (view value.now) }
{
    let lanes = read_number(value, FieldName::Lanes)?;
    let first_page = read_number(value, FieldName::FirstPage)?;
    let pages = read_number(value, FieldName::Pages)?;
    let last_generation = read_number(value, FieldName::LastGeneration)?;
    let tag = read_tag(value)?;
    Ok(Shape {
        lanes,
        first_page,
        pages,
        last_generation,
        tag,
        guests: 0,
    })
}

/// The value of the shape and those of the scripts, of an object with exactly the fields of a file.
fn read_fields(value: &Value) -> Result<(&Value, &[Value]), ScriptRefusal>
    ensures { seen_by (λ f. (view f.0.now, map view f.1.now)) result ≡ fields_of (view value.now) }
{
    expect(value.is_object(), ScriptPlace::File)?;
    let shape = field(value, FieldName::Shape)?;
    let scripts = field(value, FieldName::Scripts)?;
    expect(has_fields(value, 2), ScriptPlace::File)?;
    expect_shape_fields(shape)?;
    let scripts = items(scripts, ScriptPlace::Field(FieldName::Scripts))?;
    Ok((shape, scripts))
}

/// The shape of a file, which is still to be checked, and the values of its scripts.
fn read_file(value: &Value) -> Result<(Shape, &[Value]), ScriptRefusal>
    ensures { seen_by (λ f. (f.0, map view f.1.now)) result ≡ file_of (view value.now) }
{
    let (shape, scripts) = read_fields(value)?;
    let shape = read_shape(shape)?;
    Ok((shape, scripts))
}

/// The plan of a file's value.
fn read_plan(alloc: Global, value: &Value) -> Result<Plan, ScriptRefusal>
    ensures ok { IfOk result (λ plan. IsPlanOf (view value.now) plan) }
    ensures err { IfErr result (λ refusal. RefusesPlan (view value.now) refusal) }
{
    let (shape, scripts) = read_file(value)?;
    if let Err(fault) = shape.check() {
        let place = ScriptPlace::Field(FieldName::with_fault(fault));
        return Err(ScriptRefusal::new(ScriptFault::Shape(fault), place));
    }
    let scripts = read_scripts(alloc, shape.lanes, scripts)?;
    Ok(Plan { shape, scripts })
}

/// The value of a JSON text, of whose fields the last of each name counts.
fn read_json(alloc: Global, file: &[u8]) -> Result<Value, ScriptRefusal>
    ensures ok { IfOk result (λ value. IsJson file.now (view value)) }
    ensures err { IfErr result (λ refusal. RefusesBytes file.now refusal) }
{
    match Value::from_slice(alloc, file) {
        Ok(value) => Ok(value),
        Err(error) => {
            if error.is_memory() {
                return Err(ScriptRefusal::out_of_memory());
            }
            Err(ScriptRefusal::new(ScriptFault::NotJson, ScriptPlace::File))
        }
    }
}

/// Reads a script file: the plan that its bytes stand for, of any shape within its limits. An error is
/// the first fault in this order, with its place: `NotJson` where the bytes are no JSON text, at the
/// file; `Field` where the file or its shape has other fields, at the field that is missing, else at
/// the file or the shape, or where `scripts` is no array; `Number` for the numbers of the shape, then
/// `Shape`, at the field; `Field` where there are not as many scripts as lanes, at `Scripts`; then
/// those of each script and each line, in order: `Field` where the script is no array; `Field` where
/// the line is no array, or an empty one, and, at item 0, where it doesn't begin with a text; `Act`
/// at item 0 where that names no command; `Field` at the line where the command wants another number
/// of operands; and `Register` or `Number` for these, from left to right, each at its item. `Memory`
/// comes where memory was refused, which it is for no empty file.
pub fn parse(alloc: Global, file: &[u8]) -> Result<Plan, ScriptRefusal>
    ensures { Parses file.now result }
{
    let value = read_json(alloc, file)?;
    read_plan(alloc, &value)
}
