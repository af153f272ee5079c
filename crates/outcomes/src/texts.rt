//! The text of outcomes.
ghost use Rattle.std.specs.List.{All};
ghost use Rattle.std.specs.Prelude.{◌≡◌, ◌++◌, ◌<◌, ◌^◌, length, flat_map, decimal, IfOk, OnOk};
ghost use Rattle.traces.specs.Text.{reply_line};
ghost use Rattle.outcomes.specs.Texts.{replies_text, outcome_text, counts_line, outcomes_text};

use crate::outcome::Outcome;
use crate::search::Outcomes;
use itoa::Buffer;
use schedules::push_schedule;
use std::alloc::{AllocError, Global};
use traces::{Replies, Reply, write_reply_line};

/// Appends a line for each reply of a lane.
fn write_replies(lane: u32, replies: &[Reply], text: &mut Vec<u8>) -> Result<(), AllocError>
    ensures { OnOk result (text.new.items ≡ text.old.items ++ flat_map (reply_line lane) replies.now) }
{
    for reply in replies {
        write_reply_line(lane, reply, text)?;
    }
    Ok(())
}

/// Appends a line for each reply of each lane.
fn write_lanes(lanes: &[Replies], text: &mut Vec<u8>) -> Result<(), AllocError>
    requires { length lanes.now < 2 ^ 32 }
    ensures { OnOk result (text.new.items ≡ text.old.items ++ replies_text 0 lanes.now) }
{
    let mut rest = lanes;
    let mut lane: u32 = 0;
    while let Some((replies, more)) = rest.split_first() {
        write_replies(lane, replies.as_slice(), text)?;
        lane += 1;
        rest = more;
    }
    Ok(())
}

/// Appends a word.
fn write_word(word: &str, text: &mut Vec<u8>) -> Result<(), AllocError>
    ensures { OnOk result (text.new.items ≡ text.old.items ++ word.now) }
{
    text.extend_from_slice(word.as_bytes())?;
    Ok(())
}

/// Appends a number in decimal digits.
fn write_number(number: u64, text: &mut Vec<u8>) -> Result<(), AllocError>
    ensures { OnOk result (text.new.items ≡ text.old.items ++ decimal number) }
{
    text.extend_from_slice(Buffer::new().format(number).as_bytes())?;
    Ok(())
}

/// Appends an outcome: how many schedules end so, the first of them, and the replies of all lanes.
fn write_outcome(outcome: &Outcome, text: &mut Vec<u8>) -> Result<(), AllocError>
    requires { length outcome.now.replies.items < 2 ^ 32 }
    ensures { OnOk result (text.new.items ≡ text.old.items ++ outcome_text outcome.now) }
{
    write_word("outcome schedules ", text)?;
    outcome.ways.write(text)?;
    write_word(" first ", text)?;
    push_schedule(outcome.schedule.as_slice(), text)?;
    write_lanes(outcome.replies.as_slice(), text)?;
    Ok(())
}

/// Appends how many states, schedules and outcomes there are.
fn write_counts(found: &Outcomes, text: &mut Vec<u8>) -> Result<(), AllocError>
    ensures { OnOk result (text.new.items ≡ text.old.items ++ counts_line found.now) }
{
    write_word("states ", text)?;
    write_number(found.states, text)?;
    write_word(" schedules ", text)?;
    found.ways.write(text)?;
    write_word(" outcomes ", text)?;
    write_number(found.outcomes.len() as u64, text)?;
    write_word("\n", text)?;
    Ok(())
}

/// Appends outcomes.
fn write_each(outcomes: &[Outcome], text: &mut Vec<u8>) -> Result<(), AllocError>
    requires { All (λ outcome. length outcome.replies.items < 2 ^ 32) outcomes.now }
    ensures { OnOk result (text.new.items ≡ text.old.items ++ flat_map outcome_text outcomes.now) }
{
    for outcome in outcomes {
        write_outcome(outcome, text)?;
    }
    Ok(())
}

/// The text of outcomes: how many states, schedules and outcomes there are, and, unless `count` holds, each outcome: how
/// many schedules end so, the first of them, and what the lanes reply, by rising lane.
pub fn outcomes_text(alloc: Global, found: &Outcomes, count: bool) -> Result<Vec<u8>, AllocError>
    requires { All (λ outcome. length outcome.replies.items < 2 ^ 32) found.now.outcomes.items }
    ensures { IfOk result (λ text. text.items ≡ outcomes_text count found.now) }
{
    let mut text = Vec::new(alloc);
    write_counts(found, &mut text)?;
    if count {
        return Ok(text);
    }
    write_each(found.outcomes.as_slice(), &mut text)?;
    Ok(text)
}
