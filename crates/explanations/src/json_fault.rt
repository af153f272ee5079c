//! Where bytes stop being a JSON text, and why, in words.
ghost use Rattle.std.specs.Prelude.{◌≡◌, ◌≤◌, ◌<◌, true, length, drop, IfOk, IfSome, option_map, string_bytes};
ghost use Rattle.std.specs.List.{list_all};
ghost use Rattle.std.specs.Str.{IsUtf8};
ghost use Rattle.streams.specs.Shown.{IsSafeLine};
ghost use Rattle.explanations.specs.JsonFlaws.{first_is, escape_length};
ghost use Rattle.explanations.specs.JsonFaults.{is_space, last_with, last_of, is_comma, wanted_behind, wanted_next, wanted_by, has_mark, has_comment, has_end, found_told, named_told, token_told, halt_told, json_told, IsOfText, control_told, flaw_told, open_told, HaltsAt, first_of, is_opening, opens, begins_number, wants_digit, wants_value, openings_in, quotes_in, may_flaw, bears_out, told_if, ExplainsJson};

use crate::found::cut_of;
use crate::json_flaw::{Flaw, char_flaw, escape_length, is_digit, number_stop, string_stop};
use crate::places::{behind, column_number, front, line_number};
use json::{Reader, Scratch, Token};
use std::alloc::{AllocError, Global};
use std::str::from_utf8;
use streams::line_of;

/// How many lists and objects may be in one another.
const MOST_OPEN: usize = 127;

/// What is open at a place: the inmost list or object, or nothing.
#[derive(Clone, Copy)]
pub enum Opened {
    Nothing,
    Array,
    Object,
}

/// Why a text stops being JSON.
#[derive(Clone, Copy)]
pub enum Halt {
    /// What stands there isn't what may stand there.
    Token(Opened),
    /// A number is too large.
    Large,
    /// Too many lists and objects are in one another.
    Deep,
    /// Bytes are no text.
    NoText,
    /// The text ends within the string that begins here.
    Open(usize),
    /// A string or a number has this flaw.
    Flawed(Flaw),
}

/// What may come next.
#[derive(Clone, Copy)]
enum Next {
    Value,
    ItemOrEnd,
    NameOrEnd,
    Nothing,
}

/// What is open of a text that is read, from the outmost, and what may come next.
#[derive(Drop)]
struct Nesting {
    open: Vec<Opened>,
    next: Next,
}

impl Nesting {
    /// The inmost that is open.
    fn inmost(&self) -> Opened {
        match self.open.last() {
            Some(opened) => *opened,
            None => Opened::Nothing,
        }
    }

    /// Notes that a value has ended.
    fn ends_value(&mut self) {
        self.next = match self.inmost() {
            Opened::Nothing => Next::Nothing,
            Opened::Array => Next::ItemOrEnd,
            Opened::Object => Next::NameOrEnd,
        };
    }

    /// Notes that a list or an object begins. Answers why it may not.
    fn opens(&mut self, opened: Opened, next: Next) -> Result<Option<Halt>, AllocError>
        ensures { IfOk result (λ found. IfSome found IsOfText) }
    {
        if self.open.len() >= MOST_OPEN {
            return Ok(Some(Halt::Deep));
        }
        self.open.push(opened)?;
        self.next = next;
        Ok(None)
    }

    /// Notes that the inmost list or object ends.
    fn closes(&mut self) {
        let _ = self.open.pop();
        self.ends_value();
    }

    /// Notes a token where a value may come. Answers why it may not.
    fn takes_value(&mut self, token: &Token<'_>) -> Result<Option<Halt>, AllocError>
        ensures { IfOk result (λ found. IfSome found IsOfText) }
    {
        match token {
            Token::BeginArray => self.opens(Opened::Array, Next::ItemOrEnd),
            Token::BeginObject => self.opens(Opened::Object, Next::NameOrEnd),
            Token::Number(text) if is_large(text) => Ok(Some(Halt::Large)),
            Token::String(_) | Token::Number(_) | Token::Bool(_) | Token::Null => {
                self.ends_value();
                Ok(None)
            }
            _ => Ok(Some(Halt::Token(self.inmost()))),
        }
    }

    /// Notes the next token. Answers why it may not come.
    fn takes(&mut self, token: &Token<'_>) -> Result<Option<Halt>, AllocError>
        ensures { IfOk result (λ found. IfSome found IsOfText) }
    {
        match (self.next, token) {
            (Next::ItemOrEnd, Token::EndArray) | (Next::NameOrEnd, Token::EndObject) => {
                self.closes();
                Ok(None)
            }
            (Next::NameOrEnd, Token::Key(_)) => {
                self.next = Next::Value;
                Ok(None)
            }
            (Next::Value | Next::ItemOrEnd, _) => self.takes_value(token),
            _ => Ok(Some(Halt::Token(self.inmost()))),
        }
    }
}

/// Whether a number's text is of one that no float is near.
fn is_large(text: &str) -> bool {
    match text.parse::<f64>() {
        Ok(number) => !number.is_finite(),
        Err(_) => true,
    }
}

/// Where a text stops being JSON, and why. Where it is whole, its end.
fn halt_of(alloc: Global, text: &str) -> Result<(usize, Halt), AllocError>
    ensures { IfOk result (λ found. IsOfText found.1) }
{
    let mut scratch = Scratch::new(alloc);
    let mut reader = Reader::new(text, &mut scratch)?;
    let mut nesting = Nesting {
        open: Vec::new(alloc),
        next: Next::Value,
    };
    let mut at = reader.offset();
    while let Some(token) = reader.next() {
        if let Some(halt) = nesting.takes(&token)? {
            return Ok((at, halt));
        }
        at = reader.offset();
    }
    Ok((at, Halt::Token(nesting.inmost())))
}

/// Whether a string may stand behind this byte, the last that isn't passed over, by what is open there.
fn may_begin_text(opened: Opened, last: Option<u8>) -> bool {
    match (opened, last) {
        (_, None | Some(b':' | b'[' | b'{')) => true,
        (Opened::Array | Opened::Object, Some(b',')) => true,
        _ => false,
    }
}

/// Whether a number may stand there.
fn may_begin_number(opened: Opened, last: Option<u8>) -> bool {
    match (opened, last) {
        (_, None | Some(b':' | b'[')) => true,
        (Opened::Array, Some(b',')) => true,
        _ => false,
    }
}

/// Where the string stops being one that begins here, and why, unless it is whole.
fn text_halt(file: &[u8], begin: usize) -> Option<(usize, Halt)>
    requires begins { begin < length file.now }
    requires quote { first_is 34 (drop begin file.now) ≡ true }
    requires text { IsUtf8 file.now }
    ensures within { IfSome result (λ found. found.0 ≤ length file.now) }
    ensures halts { IfSome result (λ found. HaltsAt found.1 found.0 file.now) }
{
    let at = string_stop(file, begin);
    if at >= file.len() {
        return Some((file.len(), Halt::Open(begin)));
    }
    match char_flaw(&file[at..]) {
        Some(flaw) => Some((at, Halt::Flawed(flaw))),
        None => None,
    }
}

/// Where the number stops being one that begins here, and why: a flaw of it, or what stands behind it.
fn number_halt(file: &[u8], begin: usize, opened: Opened) -> (usize, Halt)
    requires begins { begin < length file.now }
    requires text { IsUtf8 file.now }
    ensures within { result.0 ≤ length file.now }
    ensures halts { HaltsAt result.1 result.0 file.now }
{
    match number_stop(file, begin) {
        (at, Some(flaw)) => (at, Halt::Flawed(flaw)),
        (at, None) => (at, Halt::Token(opened)),
    }
}

/// Where a text stops being JSON by a token that isn't what may stand there, or within it, where it is a string or a
/// number that may stand there.
fn token_halt(file: &[u8], at: usize, opened: Opened) -> (usize, Halt)
    requires within { at ≤ length file.now }
    requires text { IsUtf8 file.now }
    ensures within { result.0 ≤ length file.now }
    ensures halts { HaltsAt result.1 result.0 file.now }
{
    let last = last_of(&file[..at]);
    match &file[at..] {
        [b'"', ..] if may_begin_text(opened, last) => {
            text_halt(file, at).unwrap_or((at, Halt::Token(opened)))
        }
        [b'-' | b'0'..=b'9', ..] if may_begin_number(opened, last) => {
            number_halt(file, at, opened)
        }
        _ => (at, Halt::Token(opened)),
    }
}

/// Where a text stops being JSON, and why, if at a token then within it.
fn halt_within(file: &[u8], at: usize, halt: Halt) -> (usize, Halt)
    requires within { at ≤ length file.now }
    requires text { IsUtf8 file.now }
    requires of { IsOfText halt }
    ensures within { result.0 ≤ length file.now }
    ensures halts { HaltsAt result.1 result.0 file.now }
{
    match halt {
        Halt::Token(opened) => token_halt(file, at, opened),
        _ => (at, halt),
    }
}

/// Where bytes stop being a JSON text, and why.
fn halt_in(alloc: Global, file: &[u8]) -> Result<(usize, Halt), AllocError>
    ensures within { IfOk result (λ found. found.0 ≤ length file.now) }
    ensures halts { IfOk result (λ found. HaltsAt found.1 found.0 file.now) }
{
    match from_utf8(file) {
        Ok(text) => {
            let (at, halt) = halt_of(alloc, text)?;
            Ok(halt_within(file, at.min(file.len()), halt))
        }
        Err(error) => Ok((error.valid_up_to(), Halt::NoText)),
    }
}

/// Whether JSON passes over a byte.
fn is_space(byte: u8) -> bool
    ensures { result ≡ is_space byte }
{
    byte == b' ' || byte == b'\t' || byte == b'\n' || byte == b'\r'
}

/// The last byte that JSON doesn't pass over, behind one byte more.
fn last_with(last: Option<u8>, byte: u8) -> Option<u8>
    ensures { result ≡ last_with last byte }
{
    if is_space(byte) { last } else { Some(byte) }
}

/// The last of some bytes that JSON doesn't pass over.
fn last_of(bytes: &[u8]) -> Option<u8>
    ensures { result ≡ last_of bytes.now }
{
    let mut last = None;
    for byte in bytes {
        last = last_with(last, *byte);
    }
    last
}

/// The first of some bytes that JSON doesn't pass over.
pub(crate) fn first_of(bytes: &[u8]) -> Option<u8>
    ensures { result ≡ first_of bytes.now }
{
    for byte in bytes {
        if !is_space(*byte) {
            return Some(*byte);
        }
    }
    None
}

/// Whether JSON passes over all of some bytes.
fn are_spaces(bytes: &[u8]) -> bool
    ensures { result ≡ list_all is_space bytes.now }
{
    bytes.iter().all(|byte| is_space(*byte))
}

/// What may stand behind a value.
fn wanted_behind(opened: Opened) -> &'static str
    ensures { result.now ≡ wanted_behind opened }
{
    match opened {
        Opened::Nothing => "the end of the file",
        Opened::Array => "a comma or ]",
        Opened::Object => "a comma or }",
    }
}

/// What may stand behind a comma.
fn wanted_next(opened: Opened) -> &'static str
    ensures { result.now ≡ wanted_next opened }
{
    match opened {
        Opened::Nothing => "the end of the file",
        Opened::Array => "a value",
        Opened::Object => "a name in quotes with a colon behind it",
    }
}

/// What may stand behind a byte, the last that isn't passed over.
#[tactic(auto, unfolding(crate::specs::JsonFaults::wanted_by))]
fn wanted_by(opened: Opened, last: Option<u8>) -> &'static str
    ensures { result.now ≡ wanted_by opened last }
{
    match last {
        None => "a value",
        Some(b',') => wanted_next(opened),
        Some(b':') => "a value",
        Some(b'[') => "a value or ]",
        Some(b'{') => "a name in quotes with a colon behind it, or }",
        Some(_) => wanted_behind(opened),
    }
}

/// Whether a byte order mark stands in front.
fn has_mark(rest: &[u8]) -> bool
    ensures { result ≡ has_mark rest.now }
{
    rest.starts_with(&[239, 187, 191])
}

/// Whether a comment stands in front, as other formats have it.
fn has_comment(rest: &[u8]) -> bool
    ensures { result ≡ has_comment rest.now }
{
    rest.starts_with(b"//") || rest.starts_with(b"/*") || rest.starts_with(b"#")
}

/// Whether a list or an object ends in front.
fn has_end(rest: &[u8]) -> bool
    ensures { result ≡ has_end rest.now }
{
    match rest {
        [b']', ..] | [b'}', ..] => true,
        _ => false,
    }
}

/// What stands in front, where this is wanted.
#[tactic(auto, unfolding(crate::specs::JsonFaults::found_told))]
fn found_told(alloc: Global, rest: &[u8], wanted: &str) -> Result<String, AllocError>
    ensures { IfOk result (λ text. string_bytes text ≡ found_told rest.now wanted.now) }
{
    if are_spaces(rest) {
        return format!(in alloc; "the text ends where {wanted} is wanted");
    }
    let found = cut_of(alloc, rest)?;
    format!(in alloc; "\"{found}\" stands where {wanted} is wanted")
}

/// Whether a byte is a comma.
fn is_comma(last: Option<u8>) -> bool
    ensures { result ≡ is_comma last }
{
    match last {
        Some(byte) => byte == b',',
        None => false,
    }
}

/// What is wrong by its name: a mark, a comment, or a comma in front of an end.
#[tactic(auto, unfolding(crate::specs::JsonFaults::named_told))]
fn named(last: Option<u8>, rest: &[u8]) -> Option<&'static str>
    ensures { option_map (λ text. text.now) result ≡ named_told last rest.now }
{
    if has_mark(rest) {
        return Some("a byte order mark stands here, and JSON has none");
    }
    if has_comment(rest) {
        return Some("a comment stands here, and JSON has none");
    }
    if is_comma(last) && has_end(rest) {
        return Some("a comma stands before the end of a list or an object");
    }
    None
}

/// Why a token is wrong.
fn token_told(
    alloc: Global,
    opened: Opened,
    last: Option<u8>,
    rest: &[u8],
) -> Result<String, AllocError>
    ensures { IfOk result (λ text. string_bytes text ≡ token_told opened last rest.now) }
{
    match named(last, rest) {
        Some(name) => String::from_str(alloc, name),
        None => found_told(alloc, rest, wanted_by(opened, last)),
    }
}

/// What is wrong with a control character.
fn control_told(alloc: Global, byte: u8) -> Result<String, AllocError>
    ensures { IfOk result (λ text. string_bytes text ≡ control_told byte) }
{
    match byte {
        9 => String::from_str(
            alloc,
            "a tab stands in a string, where \\t has to stand for it",
        ),
        10 | 13 => String::from_str(alloc, "the line ends within a string"),
        _ => format!(in alloc;
            "byte {byte} stands in a string, where an escape has to stand for it"
        ),
    }
}

/// That what stands in front is no escape.
fn escape_told(alloc: Global, rest: &[u8]) -> Result<String, AllocError>
    ensures { IfOk result (λ text. string_bytes text ≡ flaw_told Flaw.Escape rest.now) }
{
    let found = cut_of(alloc, front(rest, escape_length(rest)))?;
    format!(in alloc;
        "\"{found}\" is no escape: behind a backslash stands \", \\, /, b, f, n, r, t, or u and four hexadecimal digits"
    )
}

/// That what stands in front is half of a character.
fn half_told(alloc: Global, rest: &[u8]) -> Result<String, AllocError>
    ensures { IfOk result (λ text. string_bytes text ≡ flaw_told Flaw.Half rest.now) }
{
    let found = cut_of(alloc, front(rest, 6))?;
    format!(in alloc; "\"{found}\" is half of a character, and its other half isn't there")
}

/// What is wrong within a string or a number, by what stands there.
fn flaw_told(alloc: Global, flaw: Flaw, rest: &[u8]) -> Result<String, AllocError>
    ensures { IfOk result (λ text. string_bytes text ≡ flaw_told flaw rest.now) }
{
    match flaw {
        Flaw::Control(byte) => control_told(alloc, byte),
        Flaw::Escape => escape_told(alloc, rest),
        Flaw::Half => half_told(alloc, rest),
        Flaw::Zero => String::from_str(alloc, "a number of several digits begins with 0"),
        Flaw::Digit => found_told(alloc, rest, "a digit"),
    }
}

/// That the text ends within the string that begins at this place.
fn open_told(alloc: Global, begin: usize, file: &[u8]) -> Result<String, AllocError>
    ensures { IfOk result (λ text. string_bytes text ≡ open_told begin file.now) }
{
    let line = line_number(file, begin);
    let column = column_number(file, begin);
    format!(in alloc; "the text ends within the string that begins in line {line}, column {column}")
}

/// Why a text stops being JSON at a place.
fn halt_told(alloc: Global, halt: Halt, at: usize, file: &[u8]) -> Result<String, AllocError>
    requires { at ≤ length file.now }
    ensures { IfOk result (λ text. string_bytes text ≡ halt_told halt at file.now) }
{
    match halt {
        Halt::Token(opened) => token_told(alloc, opened, last_of(&file[..at]), &file[at..]),
        Halt::Large => String::from_str(alloc, "the number is too large"),
        Halt::Deep => {
            String::from_str(alloc, "more than 127 lists and objects are in one another")
        }
        Halt::NoText => String::from_str(alloc, "the bytes are no text in UTF-8"),
        Halt::Open(begin) => open_told(alloc, begin, file),
        Halt::Flawed(flaw) => flaw_told(alloc, flaw, &file[at..]),
    }
}

/// The text that says where bytes stop being a JSON text, and why.
fn json_told(alloc: Global, halt: Halt, at: usize, file: &[u8]) -> Result<String, AllocError>
    requires { at ≤ length file.now }
    ensures { IfOk result (λ text. string_bytes text ≡ json_told halt at file.now) }
{
    let line = line_number(file, at);
    let column = column_number(file, at);
    let why = halt_told(alloc, halt, at, file)?;
    format!(in alloc; "the file, line {line}, column {column}: {why}")
}

/// Whether a list or an object begins with a byte.
fn is_opening(byte: u8) -> bool
    ensures { result ≡ is_opening byte }
{
    byte == b'[' || byte == b'{'
}

/// Whether one begins with this byte, if it is one.
fn opens(first: Option<u8>) -> bool
    ensures { result ≡ opens first }
{
    match first {
        Some(byte) => is_opening(byte),
        None => false,
    }
}

/// Whether a number begins with this byte.
pub(crate) fn begins_number(first: Option<u8>) -> bool
    ensures { result ≡ begins_number first }
{
    match first {
        Some(byte) => byte == b'-' || is_digit(byte),
        None => false,
    }
}

/// Whether a digit is wanted behind this byte, the last that isn't passed over.
fn wants_digit(last: Option<u8>) -> bool
    ensures { result ≡ wants_digit last }
{
    match last {
        Some(last) => last == b'-' || last == b'.' || last == b'e' || last == b'E' || last == b'+',
        None => false,
    }
}

/// Whether a value is wanted behind this byte, by what is open there.
fn wants_value(opened: Opened, last: Option<u8>) -> bool
    ensures { result ≡ wants_value opened last }
{
    match last {
        Some(b':' | b'[') => true,
        Some(b',') => matches!(opened, Opened::Array),
        Some(_) => false,
        None => true,
    }
}

/// How many lists and objects have begun.
fn openings_in(text: &[u8]) -> usize
    ensures { result ≡ openings_in text.now }
{
    text.iter().filter(|byte| is_opening(**byte)).count()
}

/// How many quotes there are.
fn quotes_in(text: &[u8]) -> usize
    ensures { result ≡ quotes_in text.now }
{
    text.iter().filter(|byte| **byte == b'"').count()
}

/// Whether a flaw may stand behind this text.
fn may_flaw(flaw: Flaw, text: &[u8]) -> bool
    ensures { result ≡ may_flaw flaw text.now }
{
    match flaw {
        Flaw::Digit => wants_digit(last_of(text)),
        Flaw::Zero => true,
        Flaw::Control(_) | Flaw::Escape | Flaw::Half => quotes_in(text) > 0,
    }
}

/// Whether what stands around a place bears out why the text stops being JSON there.
#[tactic(auto, unfolding(crate::specs::JsonFaults::bears_out))]
fn bears_out(halt: Halt, at: usize, file: &[u8]) -> bool
    ensures { result ≡ bears_out halt at file.now }
{
    let before = front(file, at);
    let first = first_of(behind(file, at));
    match halt {
        Halt::Token(opened) => !(wants_value(opened, last_of(before)) && opens(first)),
        Halt::Large => begins_number(first),
        Halt::Deep => openings_in(before) >= MOST_OPEN,
        Halt::NoText | Halt::Open(_) => true,
        Halt::Flawed(flaw) => may_flaw(flaw, before),
    }
}

/// What is told of bytes that stop being a JSON text at this place: where that is, and why; or, where what stands around
/// the place doesn't bear that out, that they are none.
fn told_of(alloc: Global, halt: Halt, at: usize, file: &[u8]) -> Result<String, AllocError>
    requires { at ≤ length file.now }
    ensures { IfOk result (λ text. string_bytes text ≡ told_if (bears_out halt at file.now) halt at file.now) }
{
    if bears_out(halt, at, file) {
        return json_told(alloc, halt, at, file);
    }
    // (Never: the kit's reader tells where a token stands, which no clause of its says.)
    String::from_str(alloc, "the file: it is no JSON text")
}

/// The line that explains why bytes are no JSON text: where they stop being one, what stands there and what is wanted;
/// a byte order mark, a comment and a comma that is too much by their names. The error is want of memory.
pub(crate) fn explain_json(alloc: Global, file: &[u8]) -> Result<String, AllocError>
    ensures is { IfOk result (λ text. ExplainsJson file.now (string_bytes text)) }
    ensures safe { IfOk result (λ text. IsSafeLine (string_bytes text)) }
{
    let (at, halt) = halt_in(alloc, file)?;
    let told = told_of(alloc, halt, at, file)?;
    line_of(alloc, told.as_bytes())
}
