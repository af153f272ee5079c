//! What is wrong within a string or a number of a JSON text, and where.
ghost use Rattle.std.specs.Prelude.{◌≡◌, ◌≤◌, ◌<◌, true, false, length, drop, IfOk, IfErr, IfSome};
ghost use Rattle.explanations.specs.JsonFlaws.{is_digit, is_hex, is_single, is_quad, is_escape, from_eight, is_half, is_zero_led, has_digit, escape_length, IsFlaw};

/// What is wrong within a string or a number.
#[derive(Clone, Copy)]
pub enum Flaw {
    /// This control character stands in a string.
    Control(u8),
    /// What stands behind a backslash makes no escape.
    Escape,
    /// An escape is half of a character, without the other half.
    Half,
    /// A zero stands in front of further digits.
    Zero,
    /// A digit is wanted.
    Digit,
}

/// Whether a byte is a digit.
pub(crate) fn is_digit(byte: u8) -> bool
    ensures { result ≡ is_digit byte }
{
    byte >= 48 && byte <= 57
}

/// Whether a byte is a hexadecimal digit.
fn is_hex(byte: u8) -> bool
    ensures { result ≡ is_hex byte }
{
    is_digit(byte) || (byte >= 65 && byte <= 70) || (byte >= 97 && byte <= 102)
}

/// Whether a byte makes an escape behind a backslash.
fn is_single(byte: u8) -> bool
    ensures { result ≡ is_single byte }
{
    byte == b'"'
        || byte == b'\\'
        || byte == b'/'
        || byte == b'b'
        || byte == b'f'
        || byte == b'n'
        || byte == b'r'
        || byte == b't'
}

/// Whether four hexadecimal digits stand in front.
fn is_quad(rest: &[u8]) -> bool
    ensures { result ≡ is_quad rest.now }
{
    match rest {
        [a, b, c, d, ..] => is_hex(*a) && is_hex(*b) && is_hex(*c) && is_hex(*d),
        _ => false,
    }
}

/// Whether an escape stands in front.
fn is_escape(rest: &[u8]) -> bool
    ensures { result ≡ is_escape rest.now }
{
    match rest {
        [first, second, more @ ..] => {
            *first == b'\\' && (is_single(*second) || (*second == b'u' && is_quad(more)))
        }
        _ => false,
    }
}

/// Whether a hexadecimal digit is 8 or more.
fn from_eight(byte: u8) -> bool
    ensures { result ≡ from_eight byte }
{
    byte == b'8' || byte == b'9' || byte >= b'A'
}

/// Whether the escape of half of a character stands in front.
fn is_half(rest: &[u8]) -> bool
    ensures { result ≡ is_half rest.now }
{
    match rest {
        [_, second, third, fourth, ..] => {
            is_escape(rest)
                && *second == b'u'
                && (*third == b'D' || *third == b'd')
                && from_eight(*fourth)
        }
        _ => false,
    }
}

/// Whether the half in front is a character's second.
fn is_second(rest: &[u8]) -> bool {
    match rest {
        [_, _, _, fourth, ..] => *fourth >= b'C' && *fourth != b'a' && *fourth != b'b',
        _ => false,
    }
}

/// Whether both halves of a character stand in front.
fn is_pair(rest: &[u8]) -> bool {
    if rest.len() < 12 {
        return false;
    }
    let other = &rest[6..];
    is_half(rest) && !is_second(rest) && is_half(other) && is_second(other)
}

/// How many bytes the character has that stands in front within a string; 0 where none does.
fn char_length(rest: &[u8]) -> usize {
    if is_half(rest) {
        return if is_pair(rest) { 12 } else { 0 };
    }
    if is_escape(rest) {
        return escape_length(rest);
    }
    match rest {
        [b'\\'] => 1,
        [first, ..] if *first >= 32 && *first != b'"' && *first != b'\\' => 1,
        _ => 0,
    }
}

/// How many bytes the escape has that stands in front.
pub(crate) fn escape_length(rest: &[u8]) -> usize
    ensures { result ≡ escape_length rest.now }
{
    match rest {
        [_, b'u', ..] => 6,
        _ => 2,
    }
}

/// Where the characters of a string end that begins here: at its end, at a flaw, or where the text ends.
pub(crate) fn string_stop(text: &[u8], begin: usize) -> usize
    requires { begin < length text.now }
    ensures { result ≤ length text.now }
{
    let mut at = begin + 1;
    while at < text.len() {
        let length = char_length(&text[at..]);
        if length == 0 {
            return at;
        }
        at = at.saturating_add(length).min(text.len());
    }
    at
}

/// What is wrong with the character that stands in front within a string, if anything.
pub(crate) fn char_flaw(rest: &[u8]) -> Option<Flaw>
    ensures { IfSome result (λ flaw. IsFlaw flaw rest.now) }
{
    if is_half(rest) {
        return Some(Flaw::Half);
    }
    match rest {
        [first, ..] if *first < 32 => Some(Flaw::Control(*first)),
        [b'\\', ..] if !is_escape(rest) => Some(Flaw::Escape),
        _ => None,
    }
}

/// Whether a zero stands in front of a digit.
fn is_zero_led(rest: &[u8]) -> bool
    ensures { result ≡ is_zero_led rest.now }
{
    match rest {
        [first, second, ..] => *first == b'0' && is_digit(*second),
        _ => false,
    }
}

/// Whether a digit stands in front.
fn has_digit(rest: &[u8]) -> bool
    ensures { result ≡ has_digit rest.now }
{
    match rest {
        [first, ..] => is_digit(*first),
        [] => false,
    }
}

/// Where the first of some bytes is that is no digit.
fn behind_digits(text: &[u8], begin: usize) -> usize
    requires { begin ≤ length text.now }
    ensures { result ≤ length text.now }
{
    let mut at = begin;
    while at < text.len() && is_digit(text[at]) {
        at += 1;
    }
    at
}

/// Where the digits end that begin here. The error is where one is wanted.
fn pass_digits(text: &[u8], begin: usize) -> Result<usize, usize>
    requires { begin ≤ length text.now }
    ensures ok { IfOk result (λ end. end ≤ length text.now) }
    ensures err { IfErr result (λ at. (at ≤ length text.now) × (has_digit (drop at text.now) ≡ false)) }
{
    if !has_digit(&text[begin..]) {
        return Err(begin);
    }
    Ok(behind_digits(text, begin))
}

/// The place behind one of these bytes, where one stands here; else the same place.
fn pass_one(text: &[u8], at: usize, marks: &[u8]) -> usize
    requires { at ≤ length text.now }
    ensures { result ≤ length text.now }
{
    if at < text.len() && marks.contains(&text[at]) {
        return at + 1;
    }
    at
}

/// Where the part of a number ends that begins here with one of these marks, with one of these signs behind it, or
/// none; here, where there is none. The error is where a digit is wanted.
fn pass_part(text: &[u8], begin: usize, marks: &[u8], signs: &[u8]) -> Result<usize, usize>
    requires { begin ≤ length text.now }
    ensures ok { IfOk result (λ end. end ≤ length text.now) }
    ensures err { IfErr result (λ at. (at ≤ length text.now) × (has_digit (drop at text.now) ≡ false)) }
{
    let behind = pass_one(text, begin, marks);
    if behind == begin {
        return Ok(begin);
    }
    pass_digits(text, pass_one(text, behind, signs))
}

/// Where the number ends that begins here. The error is where a digit is wanted.
fn pass_number(text: &[u8], begin: usize) -> Result<usize, usize>
    requires { begin ≤ length text.now }
    ensures ok { IfOk result (λ end. end ≤ length text.now) }
    ensures err { IfErr result (λ at. (at ≤ length text.now) × (has_digit (drop at text.now) ≡ false)) }
{
    let whole = pass_digits(text, begin)?;
    let fraction = pass_part(text, whole, b".", b"")?;
    pass_part(text, fraction, b"eE", b"+-")
}

/// Where the number stops that begins here, and what is wrong there, unless it ends well.
pub(crate) fn number_stop(text: &[u8], begin: usize) -> (usize, Option<Flaw>)
    requires { begin ≤ length text.now }
    ensures within { result.0 ≤ length text.now }
    ensures is { IfSome result.1 (λ flaw. IsFlaw flaw (drop result.0 text.now)) }
{
    let at = pass_one(text, begin, b"-");
    if is_zero_led(&text[at..]) {
        return (at, Some(Flaw::Zero));
    }
    match pass_number(text, at) {
        Ok(end) => (end, None),
        Err(at) => (at, Some(Flaw::Digit)),
    }
}
