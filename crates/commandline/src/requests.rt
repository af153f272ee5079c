//! What the words of a command line ask for.
ghost use Rattle.std.specs.Prelude.{◌≡◌, map, IfOk, IfErr, string_bytes};
ghost use Rattle.commandline.specs.CommandLines.{AreWordsOf};
ghost use Rattle.clap.specs.Words.{subcommand_rows_of};
ghost use Rattle.commandline.specs.Mistakes.{AsksFor, RefusesWords, IsExplained};

use crate::fault::{TaskFault, mistaken_without};
use crate::mistakes::Reason;
use crate::run_lines::read_words;
use crate::tasks::Task;
use crate::words::{is_used, task_of};
use clap::ArgMatches;
use std::alloc::Global;

/// What the words of a command line ask for.
#[derive(Drop)]
pub struct Request {
    /// The task, or why there is none.
    pub task: Result<Task, TaskFault>,
    /// Whether mistakes are to be explained.
    pub explain: bool,
}

/// What some matches ask for.
fn asked(alloc: Global, matches: &ArgMatches) -> Request
    ensures { AsksFor (subcommand_rows_of matches.now) result }
{
    match matches.subcommand() {
        Some((name, matches)) => Request {
            task: task_of(alloc, name, matches),
            explain: is_used(matches, "explain"),
        },
        None => Request {
            task: Err(mistaken_without(alloc, Reason::Missing)),
            explain: false,
        },
    }
}

/// Reads the command line, the program's name first: the task, and whether mistakes are to be explained.
/// The faults: `Clap` where `clap` refuses the words, or help or the version was asked for; `Words` with
/// the mistake where it takes them and they are still no task, as with a schedule's text that is none or a
/// seed without a number of turns; `Memory` where memory was refused.
pub fn read_request(alloc: Global, words: &[String]) -> Request
    ensures ok { IfOk result.task (AreWordsOf (map string_bytes words.now)) }
    ensures err { IfErr result.task (RefusesWords (map string_bytes words.now)) }
    ensures explain { IsExplained (map string_bytes words.now) result.explain result.task }
{
    match read_words(alloc, words) {
        Ok(matches) => asked(alloc, &matches),
        Err(error) => Request {
            task: Err(TaskFault::Clap(error)),
            explain: false,
        },
    }
}

/// The task of a command line, the program's name first. The errors are the faults of `read_request`.
pub fn task(alloc: Global, words: &[String]) -> Result<Task, TaskFault>
    ensures ok { IfOk result (AreWordsOf (map string_bytes words.now)) }
    ensures err { IfErr result (RefusesWords (map string_bytes words.now)) }
{
    let Request { task, explain: _ } = read_request(alloc, words);
    task
}
