//! The turns and the numbers that texts of the command line stand for.
ghost use Rattle.std.specs.Prelude.{◌≡◌, Option, Some, None, IfOk, IfErr};
ghost use Rattle.commandline.specs.Readings.{text_of, long_number, turn_count, try_count, key_number, schedule_file, are_both_input, AreTries, IsMost, AreTurns, AreListed, IsStop};
ghost use Rattle.commandline.specs.Mistakes.{Tells, wrong_turns, wrong_stop, wrong_tries, wrong_most, wrong_number, wrong_listed};

use crate::fault::{TaskFault, mistaken, mistaken_without};
use crate::hexadecimal::read_hexadecimal;
use crate::mistakes::{Mistake, Reason};
use crate::tasks::{Stop, Turns};
use schedules::{join_lines, read_joined, read_number, read_schedule, read_stop};
use std::alloc::Global;

/// A number of 64 bits.
fn read_long_number(text: &str) -> Option<u64>
    ensures { result ≡ long_number text.now }
{
    read_number(text.as_bytes(), 20, 18_446_744_073_709_551_615)
}

/// A number of turns.
fn read_turn_count(text: &str) -> Option<u32>
    ensures { result ≡ turn_count text.now }
{
    let count = read_number(text.as_bytes(), 20, 1_000_000)?;
    Some(count as u32)
}

/// The number of a key or a word, in hexadecimal digits or in decimal ones.
pub(crate) fn read_key_number(alloc: Global, text: &str, hex: bool) -> Result<u64, TaskFault>
    ensures ok { IfOk result (λ number. key_number hex text.now ≡ Some number) }
    ensures err { IfErr result (Tells (wrong_number hex (Some text.now))) }
{
    if hex {
        let Some(number) = read_hexadecimal(text.as_bytes()) else {
            return Err(mistaken(alloc, Reason::BadHexadecimal, text));
        };
        return Ok(number);
    }
    let Some(number) = read_long_number(text) else {
        return Err(mistaken(alloc, Reason::BadNumber, text));
    };
    Ok(number)
}

/// The path of the file that a schedule is in, where its text names one: a dash, or an at sign and the path.
fn schedule_file(text: &str) -> Option<&str>
    ensures { text_of result ≡ schedule_file text.now }
{
    if text == "-" {
        return Some(text);
    }
    text.strip_prefix('@')
}

/// The turns of a schedule, which may be in a file.
fn listed_turns(alloc: Global, schedule: &str) -> Result<Turns, TaskFault>
    ensures ok { IfOk result (AreTurns (Some schedule.now) None None) }
    ensures err { IfErr result (Tells (wrong_turns (Some schedule.now) None None)) }
{
    if let Some(path) = schedule_file(schedule) {
        let path = String::from_str(alloc, path)?;
        return Ok(Turns::InFile(path));
    }
    let Some(lanes) = read_schedule(alloc, schedule.as_bytes())? else {
        return Err(mistaken(alloc, Reason::BadSchedule, schedule));
    };
    Ok(Turns::Listed(lanes))
}

/// The turns that the bytes of a schedule's file list: decimal numbers of one to three digits, at most 255, with single
/// commas or line feeds between them, and perhaps a line feed behind the last; or none. The faults: `Words` where they
/// list none, and `Memory`.
pub fn turns_in(alloc: Global, bytes: &[u8]) -> Result<Turns, TaskFault>
    ensures ok { IfOk result (AreListed bytes.now) }
    ensures err { IfErr result (Tells (wrong_listed bytes.now)) }
{
    let text = join_lines(alloc, bytes)?;
    let Some(lanes) = read_joined(alloc, text.as_slice())? else {
        return Err(TaskFault::Words(Mistake {
            reason: Reason::BadFile,
            found: text,
        }));
    };
    Ok(Turns::Listed(lanes))
}

/// Whether the texts of a file and of a schedule both name standard input.
pub(crate) fn are_both_input(file: &str, schedule: Option<&str>) -> bool
    ensures { result ≡ are_both_input (Some file.now) (text_of schedule.entry) }
{
    let Some(schedule) = schedule else {
        return false;
    };
    let Some(path) = schedule_file(schedule) else {
        return false;
    };
    file == "-" && path == "-"
}

/// So many turns, drawn from a seed.
fn drawn_turns(alloc: Global, seed: &str, turns: &str) -> Result<Turns, TaskFault>
    ensures ok { IfOk result (AreTurns None (Some seed.now) (Some turns.now)) }
    ensures err { IfErr result (Tells (wrong_turns None (Some seed.now) (Some turns.now))) }
{
    let Some(drawn_from) = read_long_number(seed) else {
        return Err(mistaken(alloc, Reason::BadSeed, seed));
    };
    let Some(count) = read_turn_count(turns) else {
        return Err(mistaken(alloc, Reason::BadTurns, turns));
    };
    Ok(Turns::Drawn {
        seed: drawn_from,
        turns: count,
    })
}

/// The turns of a replay: those of a schedule alone, or those drawn from a seed, without a schedule.
pub(crate) fn read_turns(
    alloc: Global,
    schedule: Option<&str>,
    seed: Option<&str>,
    turns: Option<&str>,
) -> Result<Turns, TaskFault>
    ensures ok { IfOk result
        (AreTurns (text_of schedule.entry) (text_of seed.entry) (text_of turns.entry)) }
    ensures err { IfErr result
        (Tells (wrong_turns (text_of schedule.entry) (text_of seed.entry) (text_of turns.entry))) }
{
    match (schedule, seed, turns) {
        (Some(schedule), None, None) => listed_turns(alloc, schedule),
        (None, Some(seed), Some(turns)) => drawn_turns(alloc, seed, turns),
        (Some(schedule), _, _) => Err(mistaken(alloc, Reason::ScheduleAndMore, schedule)),
        (None, Some(seed), None) => Err(mistaken(alloc, Reason::SeedAlone, seed)),
        (None, None, Some(turns)) => Err(mistaken(alloc, Reason::TurnsAlone, turns)),
        (None, None, None) => Err(mistaken_without(alloc, Reason::NoTurns)),
    }
}

/// A number of replays, or of states.
fn read_try_count(text: &str) -> Option<u64>
    ensures { result ≡ try_count text.now }
{
    let tries = read_long_number(text)?;
    if tries == 0 {
        return None;
    }
    Some(tries)
}

/// How many replays are made at most, where that is given.
pub(crate) fn tries_given(alloc: Global, text: Option<&str>) -> Result<Option<u64>, TaskFault>
    ensures ok { IfOk result (AreTries (text_of text.entry)) }
    ensures err { IfErr result (Tells (wrong_tries (text_of text.entry))) }
{
    let Some(text) = text else {
        return Ok(None);
    };
    let Some(tries) = read_try_count(text) else {
        return Err(mistaken(alloc, Reason::BadTries, text));
    };
    Ok(Some(tries))
}

/// How many states a search goes through at most, where that isn't given.
const MOST_STATES: u64 = 100_000;

/// How many states a search goes through at most.
pub(crate) fn most_given(alloc: Global, text: Option<&str>) -> Result<u64, TaskFault>
    ensures ok { IfOk result (IsMost (text_of text.entry)) }
    ensures err { IfErr result (Tells (wrong_most (text_of text.entry))) }
{
    let Some(text) = text else {
        return Ok(MOST_STATES);
    };
    let Some(most) = read_try_count(text) else {
        return Err(mistaken(alloc, Reason::BadMost, text));
    };
    Ok(most)
}

/// The stop of a replay, where one is given.
pub(crate) fn stop_given(alloc: Global, text: Option<&str>) -> Result<Option<Stop>, TaskFault>
    ensures ok { IfOk result (IsStop (text_of text.entry)) }
    ensures err { IfErr result (Tells (wrong_stop (text_of text.entry))) }
{
    let Some(text) = text else {
        return Ok(None);
    };
    let Some((lane, after)) = read_stop(text.as_bytes()) else {
        return Err(mistaken(alloc, Reason::BadStop, text));
    };
    Ok(Some(Stop { lane, after }))
}
