//! The fields of a line, of acts or of a trace.

ghost use Rattle.std.specs.Prelude.{◌≡◌, ◌↔◌, ◌==◌, ◌≤◌, ◌<◌, ◌++◌, ◌∷◌, ℕ, List, [], IsTrue, MatchOption, decimal, codes, position};
ghost use Rattle.seqpool.specs.ActsText.{hex_digit, hex_pair, content_text, flag_text, truth_text, AreBytes};
ghost use Rattle.seqpool.specs.ReadTexts.{Without, spaced, name_text, Finds, Reads, ArePairs, IsContent, IsReply, ArePlaces};

use crate::act::ActName;
use crate::acts_fault::ActsFault;
use crate::contents::{Bytes, Places};
use keybits::GREATEST_PLACE;
use std::alloc::Global;
use std::str::from_utf8;

/// Whether a text is this word.
pub fn is_word(text: &[u8], word: &str) -> bool
    ensures { IsTrue result ↔ text.now ≡ word.now }
{
    text == word.as_bytes()
}

/// Where the first such byte of a text is.
fn first_of(text: &[u8], separator: u8) -> Option<usize>
    ensures { result ≡ position (λ byte. byte == separator) text.now }
{
    text.iter().position(|byte| *byte == separator)
}

/// What is before the first such byte of a text, and what is after it.
pub fn cut(text: &[u8], separator: u8) -> Option<(&[u8], &[u8])>
    ensures { MatchOption result (Without separator text.now)
        (λ p. (text.now ≡ p.0.now ++ separator ∷ p.1.now) × Without separator p.0.now) }
{
    let end = first_of(text, separator)?;
    Some((&text[..end], &text[end + 1..]))
}

/// The number of a decimal text without leading zeros, at most the limit.
fn read_number(text: &[u8], limit: u64) -> Option<u64>
    ensures { MatchOption result ((n : ℕ) → n ≤ limit → text.now ≡ decimal n → ⊥) (λ n. (n ≤ limit) × (text.now ≡ decimal n)) }
{
    if text.is_empty() {
        return None;
    }
    if text[0] == b'+' {
        return None;
    }
    if text[0] == b'0' && text.len() > 1 {
        return None;
    }
    let Ok(digits) = from_utf8(text) else {
        return None;
    };
    let Ok(number) = digits.parse::<u64>() else {
        return None;
    };
    if number > limit {
        return None;
    }
    Some(number)
}

/// A lane, or a number of a shape: at most 4294967295.
pub fn read_u32(text: &[u8]) -> Option<u32>
    ensures { MatchOption result ((n : ℕ) → n ≤ 4294967295 → text.now ≡ decimal n → ⊥)
        (λ n. (n ≤ 4294967295) × (text.now ≡ decimal n)) }
{
    let number = read_number(text, 4_294_967_295)?;
    Some(number as u32)
}

/// A key: at most 18446744073709551615.
pub fn read_key(text: &[u8]) -> Option<u64>
    ensures { MatchOption result ((n : ℕ) → n ≤ 18446744073709551615 → text.now ≡ decimal n → ⊥)
        (λ n. (n ≤ 18446744073709551615) × (text.now ≡ decimal n)) }
{
    read_number(text, 18_446_744_073_709_551_615)
}

/// A place: at most `GREATEST_PLACE`.
pub fn read_place(text: &[u8]) -> Option<u32>
    ensures { MatchOption result ((n : ℕ) → n ≤ GREATEST_PLACE → text.now ≡ decimal n → ⊥)
        (λ n. (n ≤ GREATEST_PLACE) × (text.now ≡ decimal n)) }
{
    let number = read_number(text, u64::from(GREATEST_PLACE))?;
    Some(number as u32)
}

/// The lane or number of a shape before the first space, and what is after it.
pub(crate) fn read_u32_before(text: &[u8]) -> Option<(u32, &[u8])>
    ensures { MatchOption result
        ((n : ℕ) (rest : List ℕ) → n ≤ 4294967295 → text.now ≡ spaced (decimal n) rest → ⊥)
        (λ p. (p.0 ≤ 4294967295) × (text.now ≡ spaced (decimal p.0) p.1.now)) }
{
    let Some((number, rest)) = cut(text, b' ') else {
        return None;
    };
    let Some(number) = read_u32(number) else {
        return None;
    };
    Some((number, rest))
}

/// The key before the first space, and what is after it.
pub(crate) fn read_key_before(text: &[u8]) -> Option<(u64, &[u8])>
    ensures { MatchOption result
        ((n : ℕ) (rest : List ℕ) → n ≤ 18446744073709551615 → text.now ≡ spaced (decimal n) rest → ⊥)
        (λ p. (p.0 ≤ 18446744073709551615) × (text.now ≡ spaced (decimal p.0) p.1.now)) }
{
    let Some((key, rest)) = cut(text, b' ') else {
        return None;
    };
    let Some(key) = read_key(key) else {
        return None;
    };
    Some((key, rest))
}

/// One or more places with single commas between them.
pub(crate) fn read_places(alloc: Global, text: &[u8]) -> Result<Places, ActsFault>
    ensures { Reads ArePlaces text.now result }
{
    let mut places = Vec::new(alloc);
    let mut rest = text;
    while let Some((front, after)) = cut(rest, b',') {
        let Some(place) = read_place(front) else {
            return Err(ActsFault::ActsLine);
        };
        places.push(place)?;
        rest = after;
    }
    let Some(place) = read_place(rest) else {
        return Err(ActsFault::ActsLine);
    };
    places.push(place)?;
    Ok(Places::from_vec(places))
}

/// The value of a hexadecimal digit in lower case.
fn read_digit(byte: u8) -> Option<u8>
    ensures { MatchOption result ((value : ℕ) → value < 16 → byte ≡ hex_digit value → ⊥)
        (λ value. (value < 16) × (byte ≡ hex_digit value)) }
{
    match byte {
        b'0'..=b'9' => Some(byte - b'0'),
        b'a'..=b'f' => Some(byte - 87),
        _ => None,
    }
}

/// The byte of two hexadecimal digits.
fn read_byte(high: u8, low: u8) -> Option<u8>
    ensures { MatchOption result ((byte : ℕ) → byte < 256 → high ∷ low ∷ [] ≡ hex_pair byte → ⊥)
        (λ byte. (byte < 256) × (high ∷ low ∷ [] ≡ hex_pair byte)) }
{
    let high = read_digit(high)?;
    let low = read_digit(low)?;
    Some(16 * high + low)
}

/// The bytes of pairs of hexadecimal digits.
fn read_bytes(alloc: Global, text: &[u8]) -> Result<Bytes, ActsFault>
    ensures { Reads ArePairs text.now result }
{
    let mut bytes = Vec::with_capacity(alloc, text.len() / 2)?;
    let mut rest = text;
    while rest.len() >= 2 {
        let Some(byte) = read_byte(rest[0], rest[1]) else {
            return Err(ActsFault::ActsLine);
        };
        bytes.push(byte)?;
        rest = &rest[2..];
    }
    if !rest.is_empty() {
        return Err(ActsFault::ActsLine);
    }
    Ok(Bytes::from_vec(bytes))
}

/// A content: a dash for none, or pairs of hexadecimal digits.
pub fn read_content(alloc: Global, text: &[u8]) -> Result<Bytes, ActsFault>
    ensures { Reads IsContent text.now result }
{
    if is_word(text, "-") {
        return Ok(Bytes::empty(alloc));
    }
    if text.is_empty() {
        return Err(ActsFault::ActsLine);
    }
    read_bytes(alloc, text)
}

/// Whether a reference was made with a publish.
pub(crate) fn read_flag(text: &[u8]) -> Option<bool>
    ensures { Finds (λ with_ref digit. digit ≡ flag_text with_ref) text.now result }
{
    if is_word(text, "1") {
        Some(true)
    } else if is_word(text, "0") {
        Some(false)
    } else {
        None
    }
}

/// The reply of a clear.
pub(crate) fn read_truth(text: &[u8]) -> Option<bool>
    ensures { Finds (λ reply word. word ≡ truth_text reply) text.now result }
{
    if is_word(text, "true") {
        Some(true)
    } else if is_word(text, "false") {
        Some(false)
    } else {
        None
    }
}

/// The content that a get replied.
fn read_some(alloc: Global, text: &[u8]) -> Result<Bytes, ActsFault>
    ensures { Reads (λ bytes words. AreBytes bytes × (words ≡ codes "some " ++ content_text bytes)) text.now result }
{
    let Some((word, content)) = cut(text, b' ') else {
        return Err(ActsFault::ActsLine);
    };
    if !is_word(word, "some") {
        return Err(ActsFault::ActsLine);
    }
    read_content(alloc, content)
}

/// The reply of a get.
pub(crate) fn read_reply(alloc: Global, text: &[u8]) -> Result<Option<Bytes>, ActsFault>
    ensures { Reads IsReply text.now result }
{
    if is_word(text, "none") {
        return Ok(None);
    }
    let content = read_some(alloc, text)?;
    Ok(Some(content))
}

/// The name of an act.
pub(crate) fn read_name(text: &[u8]) -> Option<ActName>
    ensures { Finds (λ name word. word ≡ name_text name) text.now result }
{
    if is_word(text, "publish") {
        Some(ActName::Publish)
    } else if is_word(text, "get") {
        Some(ActName::Get)
    } else if is_word(text, "release") {
        Some(ActName::Release)
    } else if is_word(text, "clear") {
        Some(ActName::Clear)
    } else if is_word(text, "reclaim") {
        Some(ActName::Reclaim)
    } else if is_word(text, "home") {
        Some(ActName::Home)
    } else if is_word(text, "collect") {
        Some(ActName::Collect)
    } else {
        None
    }
}
