//! The text of acts, as it is read: line by line, and a line part by part.

ghost use Rattle.std.specs.Prelude.{◌≡◌, ◌<◌, ◌++◌, codes, List, length, IfOk, IfErr, IsErrOf, MatchResult};
ghost use Rattle.keybits.specs.declared.shape.Shape.{Shape};
ghost use Rattle.keybits.specs.declared.shape.ShapeFault.{ShapeFault};
ghost use Rattle.seqpool.specs.declared.act.Act.{Act};
ghost use Rattle.seqpool.specs.declared.acts_fault.ActsFault.TheVariants as acts_faults;
ghost use Rattle.seqpool.specs.ActsText.{StandsFor, HasShapeFault};
ghost use Rattle.seqpool.specs.ActsPlaces.{refusal, out_of_memory, RefusesLine, RefusesLines, RefusesText};
ghost use Rattle.seqpool.specs.declared.act.ActName.TheVariants as names;
ghost use Rattle.seqpool.specs.ReadTexts.{Finds, Reads, HasOperands, IsAct, AreActs, IsShapeOf, AreLast, IsFirstLine};

use crate::act::{Act, ActName};
use crate::acts_fault::ActsFault;
use crate::acts_fields::{
    cut, is_word, read_content, read_flag, read_key, read_key_before, read_name, read_place,
    read_places, read_reply, read_truth, read_u32, read_u32_before,
};
use crate::acts_refusal::{ActsPlace, ActsRefusal};
use keybits::Shape;
use std::alloc::Global;

fn read_publish(alloc: Global, lane: u32, operands: &[u8]) -> Result<Act, ActsFault>
    ensures { Reads (HasOperands lane names.Publish) operands.now result }
{
    let Some((key, rest)) = read_key_before(operands) else {
        return Err(ActsFault::ActsLine);
    };
    let Some((content, flag)) = cut(rest, b' ') else {
        return Err(ActsFault::ActsLine);
    };
    let Some(with_ref) = read_flag(flag) else {
        return Err(ActsFault::ActsLine);
    };
    let content = read_content(alloc, content)?;
    Ok(Act::Publish {
        lane,
        key,
        content,
        with_ref,
    })
}

fn read_get(alloc: Global, lane: u32, operands: &[u8]) -> Result<Act, ActsFault>
    ensures { Reads (HasOperands lane names.Get) operands.now result }
{
    let Some((key, reply)) = read_key_before(operands) else {
        return Err(ActsFault::ActsLine);
    };
    let reply = read_reply(alloc, reply)?;
    Ok(Act::Get { lane, key, reply })
}

fn read_clear(lane: u32, operands: &[u8]) -> Option<Act>
    ensures { Finds (HasOperands lane names.Clear) operands.now result }
{
    let Some((key, reply)) = read_key_before(operands) else {
        return None;
    };
    let Some(reply) = read_truth(reply) else {
        return None;
    };
    Some(Act::Clear { lane, key, reply })
}

/// The act of this name and lane with these operands.
fn read_act_with(alloc: Global, name: ActName, lane: u32, operands: &[u8]) -> Result<Act, ActsFault>
    ensures { Reads (HasOperands lane name) operands.now result }
{
    match name {
        ActName::Publish => read_publish(alloc, lane, operands),
        ActName::Get => read_get(alloc, lane, operands),
        ActName::Release => {
            let Some(key) = read_key(operands) else {
                return Err(ActsFault::ActsLine);
            };
            Ok(Act::Release { lane, key })
        }
        ActName::Clear => read_clear(lane, operands).ok_or(ActsFault::ActsLine),
        ActName::Reclaim => {
            let Some(key) = read_key(operands) else {
                return Err(ActsFault::ActsLine);
            };
            Ok(Act::Reclaim { lane, key })
        }
        ActName::Home => {
            let Some(place) = read_place(operands) else {
                return Err(ActsFault::ActsLine);
            };
            Ok(Act::Home { lane, place })
        }
        ActName::Collect => {
            let places = read_places(alloc, operands)?;
            Ok(Act::Collect { lane, places })
        }
    }
}

/// The act of a line.
fn read_act(alloc: Global, line: &[u8]) -> Result<Act, ActsFault>
    ensures { Reads IsAct line.now result }
{
    let Some((lane, rest)) = read_u32_before(line) else {
        return Err(ActsFault::ActsLine);
    };
    let Some((name, operands)) = cut(rest, b' ') else {
        return Err(ActsFault::ActsLine);
    };
    let Some(name) = read_name(name) else {
        return Err(ActsFault::ActsLine);
    };
    read_act_with(alloc, name, lane, operands)
}

/// The last generation of a shape and its tag, which is 0 where it isn't there.
fn read_ending(text: &[u8]) -> Option<(u32, u32)>
    ensures { Finds AreLast text.now result }
{
    match read_u32_before(text) {
        Some((last_generation, tag)) => {
            let Some(tag) = read_u32(tag) else {
                return None;
            };
            Some((last_generation, tag))
        }
        None => {
            let Some(last_generation) = read_u32(text) else {
                return None;
            };
            Some((last_generation, 0))
        }
    }
}

fn read_numbers(text: &[u8]) -> Option<Shape>
    ensures { Finds (λ z numbers. IsShapeOf z (codes "shape " ++ numbers)) text.now result }
{
    let Some((lanes, rest)) = read_u32_before(text) else {
        return None;
    };
    let Some((first_page, rest)) = read_u32_before(rest) else {
        return None;
    };
    let Some((pages, rest)) = read_u32_before(rest) else {
        return None;
    };
    let Some((last_generation, tag)) = read_ending(rest) else {
        return None;
    };
    Some(Shape {
        lanes,
        first_page,
        pages,
        last_generation,
        tag,
        guests: 0,
    })
}

/// The shape of a line; it is still to be checked.
fn read_shape(line: &[u8]) -> Option<Shape>
    ensures { Finds IsShapeOf line.now result }
{
    let Some((word, numbers)) = cut(line, b' ') else {
        return None;
    };
    if !is_word(word, "shape") {
        return None;
    }
    read_numbers(numbers)
}

/// The first line of a text, without its line feed, and what comes after it.
fn first_line(text: &[u8]) -> (&[u8], &[u8])
    requires { 0 < length text.now }
    ensures line { IsFirstLine result.0.now result.1.now text.now }
    ensures shorter { length result.1.now < length text.now }
{
    match cut(text, b'\n') {
        Some(parts) => parts,
        None => (text, &text[text.len()..]),
    }
}

/// The act of a line, which is the line of this number of its text.
fn read_act_at(alloc: Global, line: &[u8], number: usize) -> Result<Act, ActsRefusal>
    ensures { MatchResult result (λ act. IsAct act line.now) (RefusesLine number line.now) }
{
    match read_act(alloc, line) {
        Ok(act) => Ok(act),
        Err(ActsFault::Memory) => Err(ActsRefusal::out_of_memory()),
        Err(_) => Err(ActsRefusal::at_line(ActsFault::ActsLine, number)),
    }
}

/// The acts of the lines of a text, the first of which is line 2.
fn read_lines(alloc: Global, text: &[u8]) -> Result<Vec<Act>, ActsRefusal>
    ensures { MatchResult result (λ acts. AreActs acts.items text.now) (RefusesLines text.now) }
{
    let mut acts = Vec::new(alloc);
    let mut rest = text;
    while !rest.is_empty() {
        let (line, after) = first_line(rest);
        let number = acts.len() + 2;
        let act = read_act_at(alloc, line, number)?;
        acts.push(act)?;
        rest = after;
    }
    Ok(acts)
}

/// The shape and the acts of a text.
fn read_text(alloc: Global, bytes: &[u8]) -> Result<(Shape, Vec<Act>), ActsRefusal>
    ensures { MatchResult result (λ found. StandsFor bytes.now found.0 found.1.items) (RefusesText bytes.now) }
{
    if bytes.is_empty() {
        return Err(ActsRefusal::at_line(ActsFault::ActsLine, 1));
    }
    let (line, rest) = first_line(bytes);
    let Some(shape) = read_shape(line) else {
        return Err(ActsRefusal::at_line(ActsFault::ActsLine, 1));
    };
    if let Err(fault) = shape.check() {
        return Err(ActsRefusal::at_line(ActsFault::Shape(fault), 1));
    }
    let acts = read_lines(alloc, rest)?;
    Ok((shape, acts))
}

/// Reads the text of a shape and acts: a line for the shape, `shape` with the lanes, the places of the first page, the
/// pages, the last generation and, where it isn't 0, the tag; and a line for each act. Numbers are decimal and have no
/// leading zeros: a lane and the shape's numbers are at most 4294967295, a key at most 18446744073709551615, a place at
/// most 16777215. Single spaces are between the fields, contents are pairs of lower-case hexadecimal digits or a dash
/// for none, and the places of a collect, in any order, have commas between them. Each line ends with a line feed,
/// which the last may lack; an explicit tag 0 is taken.
///
/// `Shape` comes where the first line is that of a shape which `Shape::check` refuses, whatever follows, at line 1;
/// `ActsLine` for any other text that stands for no shape with acts, at the first line that is wrong, which is line 1
/// of an empty text; `Memory` where a growth was refused, and only after a checked shape, at the text as a whole.
pub fn read_acts(alloc: Global, bytes: &[u8]) -> Result<(Shape, Vec<Act>), ActsRefusal>
    // What is read is what the text stands for, and a text that stands for something is read.
    ensures ok { IfOk result (λ found. StandsFor bytes.now found.0 found.1.items) }
    ensures only { (z : Shape) (acts : List Act) → StandsFor bytes.now z acts
        → MatchResult result (λ found. (found.0 ≡ z) × (found.1.items ≡ acts)) (λ refused. refused ≡ out_of_memory) }
    ensures shape { (fault : ShapeFault) → HasShapeFault bytes.now fault
        → IsErrOf result (refusal (acts_faults.Shape fault) (ActsPlace.Line 1)) }
    ensures refused { IfErr result (RefusesText bytes.now) }
{
    read_text(alloc, bytes)
}
