//! The tasks of the words that `clap` took.
ghost use Rattle.std.specs.Prelude.{◌≡◌, codes, IfOk, IfErr, string_bytes};
ghost use Rattle.clap.specs.Words.{first_of, found_of, rows_of};
ghost use Rattle.commandline.specs.Readings.{text_of, flag_of};
ghost use Rattle.commandline.specs.CommandLines.{AreMatchesOf, HasTurns};
ghost use Rattle.commandline.specs.Mistakes.{Tells, RefusesMatches, wrong_given, wrong_replay, wrong_shorten, wrong_outcomes, wrong_file, wrong_key};

use crate::fault::{TaskFault, mistaken_without};
use crate::mistakes::Reason;
use crate::tasks::{Search, Stop, Task, Turns};
use crate::turns::{
    are_both_input, most_given, read_key_number, read_turns, stop_given, tries_given,
};
use clap::ArgMatches;
use std::alloc::Global;

/// The text that is given under an id, if there is one.
pub(crate) fn given<'a>(matches: &ArgMatches<'a>, id: &str) -> Option<&'a str>
    ensures { text_of result ≡ first_of id.now (rows_of (found_of matches.now)) }
{
    matches.get_str(id)
}

/// Whether the flag with this id was used.
pub(crate) fn is_used(matches: &ArgMatches, id: &str) -> bool
    ensures { result ≡ flag_of (first_of id.now (rows_of (found_of matches.now))) }
{
    match given(matches, id) {
        Some(text) => text == "true",
        None => false,
    }
}

/// The path or the word that is given under an id.
fn file_given(alloc: Global, matches: &ArgMatches, id: &str) -> Result<String, TaskFault>
    ensures ok { IfOk result
        (λ file. first_of id.now (rows_of (found_of matches.now)) ≡ Some (string_bytes file)) }
    ensures err { IfErr result (Tells (wrong_file (first_of id.now (rows_of (found_of matches.now))))) }
{
    let Some(file) = given(matches, id) else {
        return Err(mistaken_without(alloc, Reason::Missing));
    };
    let file = String::from_str(alloc, file)?;
    Ok(file)
}

/// What is given of a replay.
struct GivenTurns {
    file: String,
    turns: Turns,
    stop: Option<Stop>,
}

/// What the matches of a replay give.
fn turns_given(alloc: Global, matches: &ArgMatches) -> Result<GivenTurns, TaskFault>
    ensures ok { IfOk result (λ given. HasTurns (rows_of (found_of matches.now)) (string_bytes given.file) given.turns given.stop) }
    ensures err { IfErr result (Tells (wrong_given (rows_of (found_of matches.now)))) }
{
    let Some(file) = given(matches, "file") else {
        return Err(mistaken_without(alloc, Reason::Missing));
    };
    let schedule = given(matches, "schedule");
    let seed = given(matches, "seed");
    let count = given(matches, "turns");
    let turns = read_turns(alloc, schedule, seed, count)?;
    let stop = stop_given(alloc, given(matches, "stop"))?;
    if are_both_input(file, schedule) {
        return Err(mistaken_without(alloc, Reason::InputTwice));
    }
    let file = String::from_str(alloc, file)?;
    Ok(GivenTurns { file, turns, stop })
}

/// The task of the matches of `replay`.
fn replay_task(alloc: Global, matches: &ArgMatches) -> Result<Task, TaskFault>
    ensures ok { IfOk result (AreMatchesOf (codes "replay") (rows_of (found_of matches.now))) }
    ensures err { IfErr result (Tells (wrong_replay (rows_of (found_of matches.now)))) }
{
    let GivenTurns { file, turns, stop } = turns_given(alloc, matches)?;
    let acts = is_used(matches, "acts");
    if !is_used(matches, "print-schedule") {
        return Ok(Task::Replay {
            file,
            turns,
            stop,
            acts,
        });
    }
    if acts {
        return Err(mistaken_without(alloc, Reason::TwoTexts));
    }
    Ok(Task::Schedule { file, turns, stop })
}

/// The task of the matches of `shorten`.
fn shorten_task(alloc: Global, matches: &ArgMatches) -> Result<Task, TaskFault>
    ensures ok { IfOk result (AreMatchesOf (codes "shorten") (rows_of (found_of matches.now))) }
    ensures err { IfErr result (Tells (wrong_shorten (rows_of (found_of matches.now)))) }
{
    let GivenTurns { file, turns, stop } = turns_given(alloc, matches)?;
    let word = file_given(alloc, matches, "until")?;
    let tries = tries_given(alloc, given(matches, "tries"))?;
    Ok(Task::Shorten {
        file,
        turns,
        stop,
        search: Search {
            word,
            decoded: is_used(matches, "words"),
            tries,
            scripts: is_used(matches, "scripts"),
        },
    })
}

/// The task of the matches of `outcomes`.
fn outcomes_task(alloc: Global, matches: &ArgMatches) -> Result<Task, TaskFault>
    ensures ok { IfOk result (AreMatchesOf (codes "outcomes") (rows_of (found_of matches.now))) }
    ensures err { IfErr result (Tells (wrong_outcomes (rows_of (found_of matches.now)))) }
{
    let file = file_given(alloc, matches, "file")?;
    let most = most_given(alloc, given(matches, "most"))?;
    let count = is_used(matches, "count");
    Ok(Task::Outcomes { file, most, count })
}

/// The task of the matches of `check`.
fn check_task(alloc: Global, matches: &ArgMatches) -> Result<Task, TaskFault>
    ensures ok { IfOk result (AreMatchesOf (codes "check") (rows_of (found_of matches.now))) }
    ensures err { IfErr result (Tells (wrong_file (first_of (codes "acts") (rows_of (found_of matches.now))))) }
{
    let file = file_given(alloc, matches, "acts")?;
    Ok(Task::Check { file })
}

/// The task of the matches of `run`.
fn run_task(alloc: Global, matches: &ArgMatches) -> Result<Task, TaskFault>
    ensures ok { IfOk result (AreMatchesOf (codes "run") (rows_of (found_of matches.now))) }
    ensures err { IfErr result (Tells (wrong_file (first_of (codes "file") (rows_of (found_of matches.now))))) }
{
    let file = file_given(alloc, matches, "file")?;
    Ok(Task::Run { file })
}

/// The task of the matches of `key`.
fn key_task(alloc: Global, matches: &ArgMatches) -> Result<Task, TaskFault>
    ensures ok { IfOk result (AreMatchesOf (codes "key") (rows_of (found_of matches.now))) }
    ensures err { IfErr result (Tells (wrong_key (rows_of (found_of matches.now)))) }
{
    let Some(text) = given(matches, "number") else {
        return Err(mistaken_without(alloc, Reason::Missing));
    };
    let number = read_key_number(alloc, text, is_used(matches, "hex"))?;
    if is_used(matches, "word") {
        return Ok(Task::Word { word: number });
    }
    Ok(Task::Key { number })
}

/// The task of the matches of the subcommand with this name.
pub(crate) fn task_of(alloc: Global, name: &str, matches: &ArgMatches) -> Result<Task, TaskFault>
    ensures ok { IfOk result (AreMatchesOf name.now (rows_of (found_of matches.now))) }
    ensures err { IfErr result (RefusesMatches name.now (rows_of (found_of matches.now))) }
{
    match name {
        "replay" => replay_task(alloc, matches),
        "shorten" => shorten_task(alloc, matches),
        "outcomes" => outcomes_task(alloc, matches),
        "check" => check_task(alloc, matches),
        "run" => run_task(alloc, matches),
        "key" => key_task(alloc, matches),
        _ => Err(mistaken_without(alloc, Reason::Missing)),
    }
}
