//! What is counted in a trace.

ghost use Rattle.std.specs.Prelude.{◌≡◌, ◌<◌, count_by};
ghost use Rattle.traceviews.specs.Counts.{is_step_of, is_failed_of, is_reply_of, unfinished_after, is_unfinished, steps_after, longest_call};

use crate::decoded::is_failed;
use crate::line::{Entry, Line, StepName};

/// Whether a line is a step of this name and this lane.
fn is_step_of(line: &Line, lane: u32, name: StepName) -> bool
    ensures { result ≡ is_step_of lane name line.now }
{
    match &line.entry {
        Entry::Step(step) => line.lane == lane && step.name == name,
        Entry::Reply(_) => false,
    }
}

/// Whether a line is a step of this lane that failed.
fn is_failed_of(line: &Line, lane: u32) -> bool
    ensures { result ≡ is_failed_of lane line.now }
{
    match &line.entry {
        Entry::Step(step) => line.lane == lane && is_failed(step),
        Entry::Reply(_) => false,
    }
}

/// Whether a line is a reply of this lane.
fn is_reply_of(line: &Line, lane: u32) -> bool
    ensures { result ≡ is_reply_of lane line.now }
{
    match &line.entry {
        Entry::Step(_) => false,
        Entry::Reply(_) => line.lane == lane,
    }
}

/// How many steps of this name a lane makes.
pub fn steps_of(lines: &[Line], lane: u32, name: StepName) -> usize
    ensures { result ≡ count_by (is_step_of lane name) lines.now }
{
    let mut count = 0;
    for line in lines {
        if is_step_of(line, lane, name) {
            count += 1;
        }
    }
    count
}

/// How many steps of a lane fail: pushes and claims that leave the word as they find it.
pub fn failed_steps(lines: &[Line], lane: u32) -> usize
    ensures { result ≡ count_by (is_failed_of lane) lines.now }
{
    let mut count = 0;
    for line in lines {
        if is_failed_of(line, lane) {
            count += 1;
        }
    }
    count
}

/// How many replies of a lane there are.
pub fn replies_of(lines: &[Line], lane: u32) -> usize
    ensures { result ≡ count_by (is_reply_of lane) lines.now }
{
    let mut count = 0;
    for line in lines {
        if is_reply_of(line, lane) {
            count += 1;
        }
    }
    count
}

/// How many steps a lane's call has made after one line more: none behind a reply, which ends it.
fn steps_behind(steps: usize, line: &Line, lane: u32) -> usize
    requires { steps < 18446744073709551615 }
    ensures { result ≡ steps_after steps lane line.now }
{
    if line.lane != lane {
        return steps;
    }
    match &line.entry {
        Entry::Step(_) => steps + 1,
        Entry::Reply(_) => 0,
    }
}

/// Whether a lane is in the midst of a call behind a line: behind a step of its own it is, and behind a reply it isn't.
fn is_unfinished_behind(before: bool, line: &Line, lane: u32) -> bool
    ensures { result ≡ unfinished_after before lane line.now }
{
    if line.lane != lane {
        return before;
    }
    match &line.entry {
        Entry::Step(_) => true,
        Entry::Reply(_) => false,
    }
}

/// Whether a lane is in the midst of a call at the end, as far as the text tells: no reply is behind its last step.
pub fn is_unfinished(lines: &[Line], lane: u32) -> bool
    ensures { result ≡ is_unfinished lane lines.now }
{
    let mut unfinished = false;
    for line in lines {
        unfinished = is_unfinished_behind(unfinished, line, lane);
    }
    unfinished
}

/// The greatest number of steps that a lane makes without a reply between them: those of one call.
pub fn longest_call(lines: &[Line], lane: u32) -> usize
    ensures { result ≡ longest_call lane lines.now }
{
    let mut steps = 0;
    let mut most = 0;
    for line in lines {
        steps = steps_behind(steps, line, lane);
        if steps > most {
            most = steps;
        }
    }
    most
}
