//! The fields of a line of a text of acts: which is the first that isn't what it is to be.
ghost use Rattle.std.specs.Prelude.{◌≡◌, ◌+◌, ◌^◌, ◌<◌, ◌∷◌, [], length, IfOk, Some, map, option_map, string_bytes, codes, if◌then◌else◌};
ghost use Rattle.std.specs.List.{list_all};
ghost use Rattle.std.specs.Str.{bytes_eq};
ghost use Rattle.schedules.specs.Parts.{parts_of};
ghost use Rattle.explanations.specs.ActsFields.{has_leading_zero, is_number, is_place_number, is_hex_digit, are_pairs, is_name, fits, fields_of, first_of, behind, shape_wants, wants_by, act_wants, seen_wrong, first_wrong, want_text, missing_told, unfit_told, extra_told, wrong_told, shape_line_told, act_line_told};

use crate::found::cut_of;
use keybits::GREATEST_PLACE;
use schedules::read_number;
use seqpool::cut;
use std::alloc::{AllocError, Global};

/// What a field of a line is to be.
#[derive(Clone, Copy)]
pub enum Want {
    /// The word `shape`.
    Word,
    /// A number of the shape.
    Number,
    Lane,
    /// The name of an act.
    Name,
    Key,
    Content,
    /// Whether a publish keeps a reference.
    Flag,
    /// The reply of a get, up to its content.
    Reply,
    /// The reply of a clear.
    Truth,
    Place,
    Places,
}

/// A field that is wrong, with its number, counted from 0.
#[derive(Clone, Copy)]
pub enum WrongField<'a> {
    Missing(usize, Want),
    Unfit(usize, Want, &'a [u8]),
    Extra(usize, &'a [u8]),
}

/// Whether a zero stands in front of other digits.
fn has_leading_zero(text: &[u8]) -> bool
    ensures { result ≡ has_leading_zero text.now }
{
    match text {
        [first, _, ..] => *first == b'0',
        _ => false,
    }
}

/// Whether a text is a decimal number without leading zeros, at most the limit.
fn is_number(limit: u64, text: &[u8]) -> bool
    ensures { result ≡ is_number limit text.now }
{
    read_number(text, 20, limit).is_some() && !has_leading_zero(text)
}

/// Whether a text is the number of a place.
fn is_place_number(text: &[u8]) -> bool
    ensures { result ≡ is_place_number text.now }
{
    is_number(u64::from(GREATEST_PLACE), text)
}

/// Whether a byte is a hexadecimal digit in lower case.
fn is_hex_digit(byte: u8) -> bool
    ensures { result ≡ is_hex_digit byte }
{
    (byte >= 48 && byte <= 57) || (byte >= 97 && byte <= 102)
}

/// Whether a text has hexadecimal digits alone.
fn are_hex_digits(text: &[u8]) -> bool
    ensures { result ≡ list_all is_hex_digit text.now }
{
    text.iter().all(|byte| is_hex_digit(*byte))
}

/// Whether a text is one or more pairs of hexadecimal digits.
fn are_pairs(text: &[u8]) -> bool
    ensures { result ≡ are_pairs text.now }
{
    !text.is_empty() && text.len() % 2 == 0 && are_hex_digits(text)
}

/// Whether a text is the name of an act.
fn is_name(text: &[u8]) -> bool
    ensures { result ≡ is_name text.now }
{
    is_word(text, "publish")
        || is_word(text, "get")
        || is_word(text, "release")
        || is_word(text, "clear")
        || is_word(text, "reclaim")
        || is_word(text, "home")
        || is_word(text, "collect")
}

/// Whether all places of a list are numbers of places.
fn are_places(text: &[u8]) -> bool
    ensures { result ≡ list_all is_place_number (parts_of 44 text.now) }
{
    let mut rest = text;
    while let Some((place, after)) = cut(rest, b',') {
        if !is_place_number(place) {
            return false;
        }
        rest = after;
    }
    is_place_number(rest)
}

/// Whether a field is what it is to be.
fn fits(want: Want, text: &[u8]) -> bool
    ensures { result ≡ fits want text.now }
{
    match want {
        Want::Word => is_word(text, "shape"),
        Want::Number | Want::Lane => is_number(4_294_967_295, text),
        Want::Name => is_name(text),
        Want::Key => is_number(18_446_744_073_709_551_615, text),
        Want::Content => is_word(text, "-") || are_pairs(text),
        Want::Flag => is_word(text, "0") || is_word(text, "1"),
        Want::Reply => is_word(text, "none") || is_word(text, "some"),
        Want::Truth => is_word(text, "true") || is_word(text, "false"),
        Want::Place => is_place_number(text),
        Want::Places => are_places(text),
    }
}

/// Whether a text is this word.
fn is_word(text: &[u8], word: &str) -> bool
    ensures { result ≡ bytes_eq text.now word.now }
{
    text == word.as_bytes()
}

/// The fields of a line.
fn fields_of(alloc: Global, line: &[u8]) -> Result<Vec<&[u8]>, AllocError>
    ensures { IfOk result (λ fields. map (λ field. field.now) fields.items ≡ fields_of line.now) }
{
    let mut fields = Vec::new(alloc);
    let mut rest = line;
    while let Some((field, after)) = cut(rest, b' ') {
        fields.push(field)?;
        rest = after;
    }
    fields.push(rest)?;
    Ok(fields)
}

static SHAPE: [Want; 5] = [
    Want::Word,
    Want::Number,
    Want::Number,
    Want::Number,
    Want::Number,
];

static TAGGED: [Want; 6] = [
    Want::Word,
    Want::Number,
    Want::Number,
    Want::Number,
    Want::Number,
    Want::Number,
];

static PUBLISH: [Want; 5] = [Want::Lane, Want::Name, Want::Key, Want::Content, Want::Flag];

static SOME: [Want; 5] = [
    Want::Lane,
    Want::Name,
    Want::Key,
    Want::Reply,
    Want::Content,
];

static GET: [Want; 4] = [Want::Lane, Want::Name, Want::Key, Want::Reply];

static CLEAR: [Want; 4] = [Want::Lane, Want::Name, Want::Key, Want::Truth];

static HOME: [Want; 3] = [Want::Lane, Want::Name, Want::Place];

static COLLECT: [Want; 3] = [Want::Lane, Want::Name, Want::Places];

static OF_KEY: [Want; 3] = [Want::Lane, Want::Name, Want::Key];

/// What the fields of a shape's line are to be, which are so many.
fn shape_wants(count: usize) -> &'static [Want]
    ensures { result.now ≡ shape_wants count }
{
    if count > 5 { &TAGGED } else { &SHAPE }
}

/// What the fields of a get's line are to be, by the fourth.
fn get_wants(fourth: &[u8]) -> &'static [Want]
    ensures { result.now ≡ (if bytes_eq fourth.now (codes "some") then Want.Lane ∷ Want.Name ∷ Want.Key ∷ Want.Reply ∷ Want.Content ∷ []
        else Want.Lane ∷ Want.Name ∷ Want.Key ∷ Want.Reply ∷ []) }
{
    if is_word(fourth, "some") { &SOME } else { &GET }
}

/// What the fields of an act's line are to be, by the name and the fourth field.
#[tactic(auto, unfolding(crate::specs::ActsFields::wants_by))]
fn wants_by(name: &[u8], fourth: &[u8]) -> &'static [Want]
    ensures { result.now ≡ wants_by name.now fourth.now }
{
    if is_word(name, "publish") {
        return &PUBLISH;
    }
    if is_word(name, "get") {
        return get_wants(fourth);
    }
    if is_word(name, "clear") {
        return &CLEAR;
    }
    if is_word(name, "home") {
        return &HOME;
    }
    if is_word(name, "collect") {
        return &COLLECT;
    }
    &OF_KEY
}

/// The first of some fields; empty where there is none.
fn first_of<'a>(fields: &[&'a [u8]]) -> &'a [u8]
    ensures { result.now ≡ first_of (map (λ field. field.now) fields.now) }
{
    match fields.split_first() {
        Some((first, _)) => first,
        None => &[],
    }
}

/// The fields behind the first.
fn behind<'f, 'a>(fields: &'f [&'a [u8]]) -> &'f [&'a [u8]]
    ensures { map (λ field. field.now) result.now ≡ behind (map (λ field. field.now) fields.now) }
{
    &fields[fields.len().min(1)..]
}

/// What the fields of an act's line are to be.
fn act_wants(fields: &[&[u8]]) -> &'static [Want]
    ensures { result.now ≡ act_wants (map (λ field. field.now) fields.now) }
{
    let operands = behind(fields);
    wants_by(first_of(operands), first_of(behind(behind(operands))))
}

/// The field of this number, if it is one too much.
fn extra_in<'a>(number: usize, fields: &[&'a [u8]]) -> Option<WrongField<'a>>
    ensures { option_map seen_wrong result ≡ first_wrong number [] (map (λ field. field.now) fields.now) }
{
    match fields.split_first() {
        Some((field, _)) => Some(WrongField::Extra(number, field)),
        None => None,
    }
}

/// The first field that is wrong, of these that are to be so, where so many stand before them.
fn first_wrong<'a>(number: usize, wants: &[Want], fields: &[&'a [u8]]) -> Option<WrongField<'a>>
    requires { number + length wants.now < 2 ^ 64 }
    ensures { option_map seen_wrong result ≡ first_wrong number wants.now (map (λ field. field.now) fields.now) }
{
    if wants.is_empty() {
        return extra_in(number, fields);
    }
    if fields.is_empty() {
        return Some(WrongField::Missing(number, wants[0]));
    }
    if !fits(wants[0], fields[0]) {
        return Some(WrongField::Unfit(number, wants[0], fields[0]));
    }
    first_wrong(number + 1, &wants[1..], &fields[1..])
}

/// What a field is to be, in words.
fn want_text(want: Want) -> &'static str
    ensures { result.now ≡ want_text want }
{
    match want {
        Want::Word => "the word shape",
        Want::Number => "a decimal number of at most 4294967295 without leading zeros",
        Want::Lane => "a lane: a decimal number of at most 4294967295 without leading zeros",
        Want::Name => "the name of an act: publish, get, release, clear, reclaim, home or collect",
        Want::Key =>
            "a key: a decimal number of at most 18446744073709551615 without leading zeros",
        Want::Content => "bytes: pairs of lower-case hexadecimal digits, or - for none",
        Want::Flag => "0, or 1 where a reference is kept",
        Want::Reply => "some and bytes, or none",
        Want::Truth => "true or false",
        Want::Place => "a place: a decimal number of at most 16777215 without leading zeros",
        Want::Places =>
            "places with single commas between them, each a decimal number of at most 16777215 without leading zeros",
    }
}

/// What is wrong with a field.
fn field_told(alloc: Global, wrong: &WrongField<'_>) -> Result<String, AllocError>
    ensures { IfOk result (λ text. string_bytes text ≡ wrong_told (Some (seen_wrong wrong.now))) }
{
    match *wrong {
        WrongField::Missing(number, want) => missing_told(alloc, number, want),
        WrongField::Unfit(number, want, field) => unfit_told(alloc, number, want, field),
        WrongField::Extra(number, field) => extra_told(alloc, number, field),
    }
}

/// That a field is missing.
fn missing_told(alloc: Global, number: usize, want: Want) -> Result<String, AllocError>
    ensures { IfOk result (λ text. string_bytes text ≡ missing_told number want) }
{
    let shown = number as u128 + 1;
    let want = want_text(want);
    format!(in alloc; "field {shown} is missing: {want}")
}

/// That a field isn't what it is to be.
fn unfit_told(alloc: Global, number: usize, want: Want, field: &[u8]) -> Result<String, AllocError>
    ensures { IfOk result (λ text. string_bytes text ≡ unfit_told number want field.now) }
{
    let shown = number as u128 + 1;
    let want = want_text(want);
    let field = cut_of(alloc, field)?;
    format!(in alloc; "field {shown}, \"{field}\", isn't {want}")
}

/// That a field is too much.
fn extra_told(alloc: Global, number: usize, field: &[u8]) -> Result<String, AllocError>
    ensures { IfOk result (λ text. string_bytes text ≡ extra_told number field.now) }
{
    let shown = number as u128 + 1;
    let field = cut_of(alloc, field)?;
    format!(in alloc; "field {shown}, \"{field}\", is too much")
}

/// What is wrong with the first of some fields that is.
fn wrong_told(alloc: Global, wrong: Option<WrongField<'_>>) -> Result<String, AllocError>
    ensures { IfOk result (λ text. string_bytes text ≡ wrong_told (option_map seen_wrong wrong.entry)) }
{
    match wrong {
        Some(wrong) => field_told(alloc, &wrong),
        None => String::from_str(alloc, "it can't be read"),
    }
}

/// What is wrong with a line that is no shape's.
pub(crate) fn shape_line_told(alloc: Global, line: &[u8]) -> Result<String, AllocError>
    ensures { IfOk result (λ text. string_bytes text ≡ shape_line_told line.now) }
{
    let fields = fields_of(alloc, line)?;
    let fields = fields.as_slice();
    wrong_told(alloc, first_wrong(0, shape_wants(fields.len()), fields))
}

/// What is wrong with a line that is no act's.
pub(crate) fn act_line_told(alloc: Global, line: &[u8]) -> Result<String, AllocError>
    ensures { IfOk result (λ text. string_bytes text ≡ act_line_told line.now) }
{
    let fields = fields_of(alloc, line)?;
    let fields = fields.as_slice();
    wrong_told(alloc, first_wrong(0, act_wants(fields), fields))
}
