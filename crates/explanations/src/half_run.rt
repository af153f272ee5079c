//! What a replay left undone, in words.
ghost use Rattle.std.specs.Prelude.{◌≡◌, ◌≤◌, ◌<◌, ◌+◌, ◌^◌, IfOk, length, position, nat_le, string_bytes};
ghost use Rattle.explanations.specs.HalfRuns.{absent_count, absent_by, absent_told, replies_by, done_in, lane_told, left_told, undone_told, undone_line, half_text};
ghost use Rattle.explanations.specs.Said.{IsLineOrNone};

use std::alloc::{AllocError, Global};
use streams::line_of;
use traces::Turn;

/// How many entries of a schedule are no lane's.
fn absent_count(lanes: u32, schedule: &[u32]) -> usize
    ensures { result ≡ absent_count lanes schedule.now }
{
    schedule.iter().filter(|entry| **entry >= lanes).count()
}

/// Where the first entry of a schedule is that is no lane's.
fn first_absent(lanes: u32, schedule: &[u32]) -> Option<usize>
    ensures { result ≡ position (λ entry. nat_le lanes entry) schedule.now }
{
    schedule.iter().position(|entry| *entry >= lanes)
}

/// That entries of a schedule are no lane's.
fn absent_told(alloc: Global, lanes: u32, schedule: &[u32]) -> Result<String, AllocError>
    ensures { IfOk result (λ text. string_bytes text ≡ absent_told lanes schedule.now) }
{
    match first_absent(lanes, schedule) {
        Some(at) => first_told(alloc, lanes, schedule, at),
        None => Ok(String::new(alloc)),
    }
}

/// That this entry of a schedule is no lane's, and how many are.
fn first_told(alloc: Global, lanes: u32, schedule: &[u32], at: usize) -> Result<String, AllocError>
    requires { at < length schedule.now }
    ensures { IfOk result (λ text. string_bytes text ≡ absent_by lanes schedule.now (Some at)) }
{
    let number = at as u128 + 1;
    let entry = schedule[at];
    let count = absent_count(lanes, schedule);
    format!(in alloc;
        "; entry {number} of the schedule is lane {entry}, which there isn't; such entries are {count}"
    )
}

/// How many replies of this lane a turn has.
fn replies_by(lane: u32, turn: &Turn) -> u128
    ensures is { result ≡ replies_by lane turn.now }
    ensures few { result ≤ 36893488147419103232 }
{
    if turn.lane != lane {
        return 0;
    }
    turn.before.as_slice().len() as u128 + turn.after.as_slice().len() as u128
}

/// How many commands of its script a lane has done.
fn done_in(lane: u32, turns: &[Turn]) -> u128
    ensures { result ≡ done_in lane turns.now }
{
    let mut done = 0u128;
    for turn in turns {
        done += replies_by(lane, turn);
    }
    done
}

/// That a lane hasn't done all of the commands of its script, which are so many.
fn lane_told(alloc: Global, lane: u32, count: usize, done: u128) -> Result<String, AllocError>
    ensures { IfOk result (λ text. string_bytes text ≡ lane_told lane count done) }
{
    if done < count as u128 {
        return format!(in alloc; "; lane {lane} did {done} of its {count} commands");
    }
    Ok(String::new(alloc))
}

/// The same of the lanes from this one on, whose scripts have so many commands.
fn left_told(
    alloc: Global,
    lane: u32,
    counts: &[usize],
    turns: &[Turn],
) -> Result<String, AllocError>
    requires { lane + length counts.now < 2 ^ 32 }
    ensures { IfOk result (λ text. string_bytes text ≡ left_told lane counts.now turns.now) }
{
    if counts.is_empty() {
        return Ok(String::new(alloc));
    }
    let first = lane_told(alloc, lane, counts[0], done_in(lane, turns))?;
    let more = left_told(alloc, lane + 1, &counts[1..], turns)?;
    format!(in alloc; "{first}{more}")
}

/// What a replay left undone.
fn undone_told(
    alloc: Global,
    lanes: u32,
    schedule: &[u32],
    counts: &[usize],
    turns: &[Turn],
) -> Result<String, AllocError>
    requires { length counts.now < 2 ^ 32 }
    ensures { IfOk result (λ text. string_bytes text ≡ undone_told lanes schedule.now counts.now turns.now) }
{
    let absent = absent_told(alloc, lanes, schedule)?;
    let left = left_told(alloc, 0, counts, turns)?;
    format!(in alloc; "{absent}{left}")
}

/// A line of what is told, where something is.
fn undone_line(alloc: Global, told: &str) -> Result<String, AllocError>
    ensures is { IfOk result (λ text. string_bytes text ≡ undone_line told.now) }
    ensures safe { IfOk result (λ text. IsLineOrNone (string_bytes text)) }
{
    if told.is_empty() {
        return Ok(String::new(alloc));
    }
    let text = format!(in alloc; "half done{told}")?;
    line_of(alloc, text.as_bytes())
}

/// The line that tells what a replay of so many lanes over this schedule left undone: entries of the schedule that are
/// no lane's, and lanes that haven't done all of the commands of their scripts, which are so many. Empty where there is
/// nothing. The error is want of memory.
pub fn explain_half(
    alloc: Global,
    lanes: u32,
    schedule: &[u32],
    counts: &[usize],
    turns: &[Turn],
) -> Result<String, AllocError>
    requires { length counts.now < 2 ^ 32 }
    ensures is { IfOk result (λ text. string_bytes text ≡ half_text lanes schedule.now counts.now turns.now) }
    ensures safe { IfOk result (λ text. IsLineOrNone (string_bytes text)) }
{
    let told = undone_told(alloc, lanes, schedule, counts, turns)?;
    undone_line(alloc, told.as_str())
}
