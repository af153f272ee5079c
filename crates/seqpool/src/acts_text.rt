//! The text of acts, as it is written.

ghost use Rattle.std.specs.Prelude.{◌≡◌, ◌++◌, ◌==◌, ◌<◌, ℕ, List, true, false, not, OnOk, OnErr, string_bytes, codes, decimal, IsPermutation, IsSorted};
ghost use Rattle.std.specs.Ordering.{nat_cmp};
ghost use Rattle.seqpool.specs.declared.act.Act.{Act};
ghost use Rattle.seqpool.specs.declared.act.Act.TheVariants as acts;
ghost use Rattle.seqpool.specs.ActsText.{hex_digit, hex_pair, content_text, places_text, numbers_text, shape_text, act_text, IsWritten, IsTextOf};
ghost use Rattle.seqpool.specs.ReadTexts.{spaced};

use crate::act::Act;
use crate::contents::{Bytes, Places};
use crate::fault::Memory;
use keybits::Shape;
use std::alloc::{AllocError, Global};

/// Appends the text of a shape and of some acts. The places of a collect are written in rising order, and the tag only
/// where it isn't 0. After `Memory` the vector is as it was.
///
/// It is for acts that could be read again: no collect is without places, and places are at most 16777215.
pub fn write_acts(
    alloc: Global,
    shape: &Shape,
    acts: &[Act],
    out: &mut Vec<u8>,
) -> Result<(), Memory>
    ensures ok { OnOk result ((text : List ℕ) × IsTextOf shape.now acts.now text × (out.new.items ≡ out.old.items ++ text)) }
    ensures err { OnErr result (out.new.items ≡ out.old.items) }
{
    let mut text = String::new(alloc);
    write_shape(&mut text, shape)?;
    for act in acts {
        write_act(alloc, &mut text, act)?;
    }
    out.extend_from_slice(text.as_bytes())?;
    Ok(())
}

fn write_shape(text: &mut String, shape: &Shape) -> Result<(), AllocError>
    ensures { OnOk result (string_bytes text.new ≡ string_bytes text.old ++ shape_text shape.now (not (shape.now.tag == 0))) }
{
    if shape.tag == 0 {
        write_untagged(text, shape)
    } else {
        write_tagged(text, shape)
    }
}

fn write_untagged(text: &mut String, shape: &Shape) -> Result<(), AllocError>
    ensures { OnOk result (string_bytes text.new ≡ string_bytes text.old ++ shape_text shape.now false) }
{
    write_numbers(text, shape)?;
    text.push_str("\n")
}

fn write_tagged(text: &mut String, shape: &Shape) -> Result<(), AllocError>
    ensures { OnOk result (string_bytes text.new ≡ string_bytes text.old ++ shape_text shape.now true) }
{
    let tag = shape.tag;
    write_numbers(text, shape)?;
    write!(text, " {tag}\n")
}

fn write_numbers(text: &mut String, shape: &Shape) -> Result<(), AllocError>
    ensures { OnOk result (string_bytes text.new ≡ string_bytes text.old ++ numbers_text shape.now) }
{
    let lanes = shape.lanes;
    let first_page = shape.first_page;
    let pages = shape.pages;
    let last_generation = shape.last_generation;
    write!(text, "shape {lanes} {first_page} {pages} {last_generation}")
}

fn write_content(text: &mut String, content: &[u8]) -> Result<(), AllocError>
    ensures { OnOk result (string_bytes text.new ≡ string_bytes text.old ++ content_text content.now) }
{
    if content.is_empty() {
        return text.push_str("-");
    }
    for byte in content {
        let [high, low] = hex_pair(*byte);
        text.push(high as char)?;
        text.push(low as char)?;
    }
    Ok(())
}

fn write_places(text: &mut String, places: &[u32]) -> Result<(), AllocError>
    ensures { OnOk result (string_bytes text.new ≡ string_bytes text.old ++ places_text places.now) }
{
    for (i, place) in places.iter().enumerate() {
        let separator = if i == 0 { "" } else { "," };
        write!(text, "{separator}{place}")?;
    }
    Ok(())
}

/// The lane, the name and the number that a line begins with.
fn write_head(text: &mut String, lane: u32, name: &str, number: u64) -> Result<(), AllocError>
    ensures { OnOk result (string_bytes text.new ≡ string_bytes text.old ++ spaced (decimal lane) (spaced name.now (decimal number))) }
{
    write!(text, "{lane} {name} {number}")
}

fn write_publish(
    text: &mut String,
    lane: u32,
    key: u64,
    content: &Bytes,
    with_ref: bool,
) -> Result<(), AllocError>
    ensures { OnOk result (string_bytes text.new ≡ string_bytes text.old ++ act_text (acts.Publish lane key content.now with_ref)) }
{
    write_head(text, lane, "publish", key)?;
    text.push_str(" ")?;
    write_content(text, content.as_slice())?;
    text.push_str(if with_ref { " 1\n" } else { " 0\n" })
}

fn write_get(
    text: &mut String,
    lane: u32,
    key: u64,
    reply: &Option<Bytes>,
) -> Result<(), AllocError>
    ensures { OnOk result (string_bytes text.new ≡ string_bytes text.old ++ act_text (acts.Get lane key reply.now)) }
{
    write_head(text, lane, "get", key)?;
    match reply {
        Some(content) => {
            text.push_str(" some ")?;
            write_content(text, content.as_slice())?;
            text.push_str("\n")
        }
        None => text.push_str(" none\n"),
    }
}

fn write_clear(text: &mut String, lane: u32, key: u64, reply: bool) -> Result<(), AllocError>
    ensures { OnOk result (string_bytes text.new ≡ string_bytes text.old ++ act_text (acts.Clear lane key reply)) }
{
    write_head(text, lane, "clear", key)?;
    text.push_str(if reply { " true\n" } else { " false\n" })
}

/// The line of an act that has a number alone.
fn write_short(text: &mut String, lane: u32, name: &str, number: u64) -> Result<(), AllocError>
    ensures { OnOk result (string_bytes text.new ≡ string_bytes text.old
        ++ (spaced (decimal lane) (spaced name.now (decimal number)) ++ codes "\n")) }
{
    write_head(text, lane, name, number)?;
    text.push_str("\n")
}

fn write_collect(text: &mut String, lane: u32, places: &[u32]) -> Result<(), AllocError>
    ensures { OnOk result (string_bytes text.new ≡ string_bytes text.old ++ act_text (acts.Collect lane places.now)) }
{
    write!(text, "{lane} collect ")?;
    write_places(text, places)?;
    text.push_str("\n")
}

/// The line of a collect, with its places in rising order.
fn write_risen(
    alloc: Global,
    text: &mut String,
    lane: u32,
    places: &Places,
) -> Result<(), AllocError>
    ensures { OnOk result ((risen : List ℕ) × IsPermutation places.now risen × IsSorted nat_cmp risen
        × (string_bytes text.new ≡ string_bytes text.old ++ act_text (acts.Collect lane risen))) }
{
    let mut risen = Vec::from_slice(alloc, places.as_slice())?;
    risen.sort()?;
    write_collect(text, lane, risen.as_slice())
}

fn write_act(alloc: Global, text: &mut String, act: &Act) -> Result<(), AllocError>
    ensures { OnOk result ((written : Act) × IsWritten act.now written
        × (string_bytes text.new ≡ string_bytes text.old ++ act_text written)) }
{
    match act {
        Act::Publish {
            lane,
            key,
            content,
            with_ref,
        } => write_publish(text, *lane, *key, content, *with_ref),
        Act::Get { lane, key, reply } => write_get(text, *lane, *key, reply),
        Act::Release { lane, key } => write_short(text, *lane, "release", *key),
        Act::Clear { lane, key, reply } => write_clear(text, *lane, *key, *reply),
        Act::Reclaim { lane, key } => write_short(text, *lane, "reclaim", *key),
        Act::Home { lane, place } => write_short(text, *lane, "home", u64::from(*place)),
        Act::Collect { lane, places } => write_risen(alloc, text, *lane, places),
    }
}

/// A byte as two hexadecimal digits in lower case, the higher one first.
pub fn hex_pair(byte: u8) -> [u8; 2]
    ensures { result ≡ hex_pair byte }
{
    [hex_digit(byte / 16), hex_digit(byte % 16)]
}

fn hex_digit(digit: u8) -> u8
    requires { digit < 16 }
    ensures { result ≡ hex_digit digit }
{
    if digit < 10 { b'0' + digit } else { 87 + digit }
}
