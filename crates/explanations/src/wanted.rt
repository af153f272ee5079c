//! What is wanted at a place of a script file.
ghost use Rattle.std.specs.Prelude.{◌≡◌, IfOk, option_map, string_bytes};
ghost use Rattle.json.specs.Tree.{HasNumbers};
ghost use Rattle.json.specs.Value.{value_view, members_view};
ghost use Rattle.explanations.specs.Found.{command_at, field_at};
ghost use Rattle.explanations.specs.Wanted.{shape_wanted, is_known, extra_in, extra_of, known_text, extra_told, object_told, stray_of, missing_told, named_wanted, item_count, script_count, counts_told, form_text, name_in, line_wanted, operand_wanted, field_wanted, number_wanted, script_wanted};

use crate::found::{command_at, cut_of, field_at, value_told};
use json::Value;
use keybits::ShapeFault;
use scripts::{CommandName, FieldName, ScriptFault, ScriptPlace, ScriptRefusal, find_command};
use std::alloc::{AllocError, Global};

/// What a number of a shape is not that has this fault.
pub(crate) fn shape_wanted(fault: ShapeFault) -> &'static str
    ensures { result.now ≡ shape_wanted fault }
{
    match fault {
        ShapeFault::Lanes => "is not 1 to 16",
        ShapeFault::FirstPage => "is not 1, 2, 4, 8, 16, 32 or 64",
        ShapeFault::Pages => "is not 1 to 6",
        ShapeFault::Generation => "is not 1 to 4294967295",
        ShapeFault::Tag => "is not 0 to 255",
    }
}

/// Whose fields they are.
#[derive(Clone, Copy)]
pub enum Owner {
    File,
    /// The shape of a file.
    Shape,
}

/// Whether a field has this name.
fn is_known(owner: Owner, name: &str) -> bool
    ensures { result ≡ is_known owner name.now }
{
    match owner {
        Owner::File => is_of_file(name),
        Owner::Shape => is_of_shape(name),
    }
}

/// Whether a field of a shape has this name.
fn is_of_shape(name: &str) -> bool
    ensures { result ≡ is_known Owner.Shape name.now }
{
    match name {
        "lanes" => true,
        "first_page" => true,
        "pages" => true,
        "last_generation" => true,
        "tag" => true,
        _ => false,
    }
}

/// Whether a field of a file has this name.
fn is_of_file(name: &str) -> bool
    ensures { result ≡ is_known Owner.File name.now }
{
    match name {
        "shape" => true,
        "scripts" => true,
        _ => false,
    }
}

/// The first of these members that isn't known, by its name.
fn extra_in<'a>(owner: Owner, members: &[(&'a str, Value<'a>)]) -> Option<&'a str>
    ensures { option_map (λ name. name.now) result ≡ extra_in owner (members_view members.now) }
{
    for member in members {
        if !is_known(owner, member.0) {
            return Some(member.0);
        }
    }
    None
}

/// The first field of an object that isn't known, by its name.
fn extra_of<'a>(owner: Owner, value: &Value<'a>) -> Option<&'a str>
    ensures { option_map (λ name. name.now) result ≡ extra_of owner (value_view value.now) }
{
    match value {
        Value::Object(members) => extra_in(owner, members.as_slice()),
        _ => None,
    }
}

/// The fields of a file, or of its shape.
fn known_text(owner: Owner) -> &'static str
    ensures { result.now ≡ known_text owner }
{
    match owner {
        Owner::File => "shape and scripts, and no other",
        Owner::Shape => "lanes, first_page, pages and last_generation, perhaps tag, and no other",
    }
}

/// That a value has a field too much, and which it is to have.
fn extra_told(alloc: Global, fields: &str, name: &str) -> Result<String, AllocError>
    ensures { IfOk result (λ text. string_bytes text ≡ extra_told fields.now (Some name.now)) }
{
    let name = cut_of(alloc, name.as_bytes())?;
    format!(in alloc; "has the field \"{name}\"; its fields are {fields}")
}

/// What is wrong with a value that isn't an object with just these fields.
fn object_told(alloc: Global, owner: Owner, value: &Value<'_>) -> Result<String, AllocError>
    ensures { IfOk result (λ text. string_bytes text ≡ object_told owner (value_view value.now)) }
{
    let fields = known_text(owner);
    match extra_of(owner, value) {
        Some(name) => extra_told(alloc, fields, name),
        None => format!(in alloc; "is no object with the fields {fields}"),
    }
}

/// The first field of a file's shape that isn't known, by its name.
fn stray_in_shape<'a>(whole: &Value<'a>) -> Option<&'a str>
    ensures { option_map (λ name. name.now) result ≡ stray_of FieldName.Lanes (value_view whole.now) }
{
    let shape = whole.get("shape")?;
    extra_of(Owner::Shape, shape)
}

/// A field that isn't known beside this one, which is missing, by its name.
fn stray_of<'a>(name: FieldName, whole: &Value<'a>) -> Option<&'a str>
    ensures { option_map (λ name. name.now) result ≡ stray_of name (value_view whole.now) }
{
    match name {
        FieldName::Shape | FieldName::Scripts => extra_of(Owner::File, whole),
        _ => stray_in_shape(whole),
    }
}

/// That a field is missing, where there is this one, or none, that isn't known.
fn missing_told(alloc: Global, stray: Option<&str>) -> Result<String, AllocError>
    ensures { IfOk result (λ text. string_bytes text ≡ missing_told (option_map (λ name. name.now) stray.entry)) }
{
    let Some(stray) = stray else {
        return String::from_str(alloc, "is missing");
    };
    let stray = cut_of(alloc, stray.as_bytes())?;
    format!(in alloc; "is missing; there is \"{stray}\"")
}

/// What is wrong with a field of a file with this value, by the value that it has itself.
fn named_wanted(alloc: Global, name: FieldName, whole: &Value<'_>) -> Result<String, AllocError>
    ensures { IfOk result (λ text. string_bytes text ≡ named_wanted name (value_view whole.now) (field_at name (value_view whole.now))) }
{
    match (name, field_at(whole, name)) {
        (FieldName::Shape, Some(found)) => object_told(alloc, Owner::Shape, found),
        (FieldName::Scripts, Some(_)) => String::from_str(alloc, "is no list of scripts"),
        _ => missing_told(alloc, stray_of(name, whole)),
    }
}

/// How many items a value has; none where it is no list.

fn item_count(value: &Value<'_>) -> usize
    ensures { result ≡ item_count (value_view value.now) }
{
    match value {
        Value::Array(items) => items.as_slice().len(),
        _ => 0,
    }
}

/// How many scripts a file has.
fn script_count(whole: &Value<'_>) -> usize
    ensures { result ≡ script_count (value_view whole.now) }
{
    match whole.get("scripts") {
        Some(scripts) => item_count(scripts),
        None => 0,
    }
}

/// That there isn't one script for each lane, and how many there are of both.
fn counts_told(alloc: Global, whole: &Value<'_>) -> Result<String, AllocError>
    requires { HasNumbers (value_view whole.now) }
    ensures { IfOk result (λ text. string_bytes text ≡ counts_told (value_view whole.now)) }
{
    let scripts = script_count(whole);
    let lanes = value_told(alloc, whole, ScriptPlace::Field(FieldName::Lanes))?;
    format!(in alloc;
        "has not one script for each lane of the shape: scripts {scripts}, lanes {lanes}"
    )
}

/// The form of a command.
fn form_text(name: CommandName) -> &'static str
    ensures { result.now ≡ form_text name }
{
    match name {
        CommandName::Create => "create R",
        CommandName::Write => "write R BYTES",
        CommandName::Publish => "publish R",
        CommandName::Downgrade => "downgrade R",
        CommandName::Get => "get R KEY",
        CommandName::Read => "read R",
        CommandName::Release => "release R",
        CommandName::Clear => "clear KEY",
    }
}

/// The command that a line of a lane's script names.
fn name_at(whole: &Value<'_>, lane: usize, line: usize) -> Option<CommandName>
    ensures { result ≡ name_in (command_at lane line (value_view whole.now)) }
{
    let command = command_at(whole, lane, line)?;
    let first = command.at(0)?;
    find_command(first.as_str()?)
}

/// What is wrong with a line that names this command, if any.
fn line_wanted(alloc: Global, name: Option<CommandName>) -> Result<String, AllocError>
    ensures { IfOk result (λ text. string_bytes text ≡ line_wanted name) }
{
    match name {
        Some(name) => {
            let form = form_text(name);
            format!(in alloc; "has not the operands of its command: {form}")
        }
        None => String::from_str(
            alloc,
            "is no list of a command and its operands: create R, write R BYTES, publish R, downgrade R, get R KEY, read R, release R, clear KEY",
        ),
    }
}

/// What the operand of this number of a command isn't.
fn operand_wanted(name: Option<CommandName>, item: usize) -> &'static str
    ensures { result.now ≡ operand_wanted name item }
{
    match name {
        Some(CommandName::Write) if item == 2 =>
            "are no bytes: pairs of hexadecimal digits in quotes",
        Some(CommandName::Get) if item == 2 =>
            "is no key: a whole number of at most 18446744073709551615, or a text of @ and a register, as \"@0\"",
        Some(CommandName::Clear) =>
            "is no key: a whole number of at most 18446744073709551615, or a text of @ and a register, as \"@0\"",
        _ => "is no register: a number of 0 to 15",
    }
}

/// What is wrong where a field, a list or a line is none, or has too much or too little.
fn field_wanted(alloc: Global, place: ScriptPlace, whole: &Value<'_>) -> Result<String, AllocError>
    requires { HasNumbers (value_view whole.now) }
    ensures { IfOk result (λ text. string_bytes text ≡ field_wanted place (value_view whole.now)) }
{
    match place {
        ScriptPlace::File => object_told(alloc, Owner::File, whole),
        ScriptPlace::Field(name) => named_wanted(alloc, name, whole),
        ScriptPlace::Scripts => counts_told(alloc, whole),
        ScriptPlace::Script { .. } => String::from_str(alloc, "is no list of commands"),
        ScriptPlace::Line { lane, line } => line_wanted(alloc, name_at(whole, lane, line)),
        ScriptPlace::Item { .. } => String::from_str(
            alloc,
            "is no text; commands are create, write, publish, downgrade, get, read, release, clear",
        ),
    }
}

/// What is wrong where a number, a register or bytes are none.
fn number_wanted(place: ScriptPlace, whole: &Value<'_>) -> &'static str
    ensures { result.now ≡ number_wanted place (value_view whole.now) }
{
    match place {
        ScriptPlace::Item { lane, line, item } => operand_wanted(name_at(whole, lane, line), item),
        _ => "is no whole number of at most 4294967295",
    }
}

/// What is wrong at a place of a file with this value.
pub(crate) fn wanted_told(
    alloc: Global,
    refusal: &ScriptRefusal,
    whole: &Value<'_>,
) -> Result<String, AllocError>
    requires { HasNumbers (value_view whole.now) }
    ensures { IfOk result (λ text. string_bytes text ≡ script_wanted refusal.now.fault refusal.now.place (value_view whole.now)) }
{
    match refusal.fault {
        ScriptFault::NotJson => String::from_str(alloc, "is no JSON text"),
        ScriptFault::Field => field_wanted(alloc, refusal.place, whole),
        ScriptFault::Act => String::from_str(
            alloc,
            "is no command; commands are create, write, publish, downgrade, get, read, release, clear",
        ),
        ScriptFault::Register | ScriptFault::Number => {
            String::from_str(alloc, number_wanted(refusal.place, whole))
        }
        ScriptFault::Shape(fault) => String::from_str(alloc, shape_wanted(fault)),
        ScriptFault::Memory => String::from_str(alloc, "found no memory"),
    }
}
