//! The fields of values of a script file.
ghost use Rattle.std.specs.Prelude.{◌≡◌, map};
ghost use Rattle.serde_json.specs.View.{view};
ghost use Rattle.scripts.specs.ScriptFiles.{has_fields, has_field, holds, field_of, number_at, items_of};
ghost use Rattle.scripts.specs.Readings.{seen_by};

use crate::script_fault::ScriptFault;
use crate::script_place::{FieldName, ScriptPlace};
use crate::script_refusal::ScriptRefusal;
use serde_json::Value;

/// Whether a value is an object of so many fields.
pub fn has_fields(value: &Value, count: usize) -> bool
    ensures { result ≡ has_fields count (view value.now) }
{
    match value.as_object() {
        Some(fields) => fields.len() == count,
        None => false,
    }
}

/// Whether a value has this field.
pub fn has_field(value: &Value, name: FieldName) -> bool
    ensures { result ≡ has_field name (view value.now) }
{
    value.get(name.text()).is_some()
}

/// Nothing, where what is told holds; else `Field` at this place.
pub fn expect(told: bool, place: ScriptPlace) -> Result<(), ScriptRefusal>
    ensures { result ≡ holds place told }
{
    if told {
        return Ok(());
    }
    Err(ScriptRefusal::new(ScriptFault::Field, place))
}

/// This field of a value.
pub fn field(value: &Value, name: FieldName) -> Result<&Value, ScriptRefusal>
    ensures { seen_by (λ v. view v.now) result ≡ field_of name (view value.now) }
{
    let refusal = ScriptRefusal::new(ScriptFault::Field, ScriptPlace::Field(name));
    value.get(name.text()).ok_or(refusal)
}

/// This field, which is a number that a shape may have.
pub fn read_number(value: &Value, name: FieldName) -> Result<u32, ScriptRefusal>
    ensures { result ≡ number_at name (view value.now) }
{
    let refusal = ScriptRefusal::new(ScriptFault::Number, ScriptPlace::Field(name));
    let Some(field) = value.get(name.text()) else {
        return Err(refusal);
    };
    match field.as_u64() {
        Some(number) if number <= 4_294_967_295 => Ok(number as u32),
        _ => Err(refusal),
    }
}

/// The items of a value at this place that is an array.
pub fn items(value: &Value, place: ScriptPlace) -> Result<&[Value], ScriptRefusal>
    ensures { seen_by (λ vs. map view vs.now) result ≡ items_of place (view value.now) }
{
    match value.as_array() {
        Some(items) => Ok(items.as_slice()),
        None => Err(ScriptRefusal::new(ScriptFault::Field, place)),
    }
}
