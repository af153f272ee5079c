//! What `poolview` is told to show.
ghost use Rattle.std.specs.Prelude.{◌≡◌, map, codes, IfOk, IfErr, string_bytes};
ghost use Rattle.clap.specs.Words.{found_of, rows_of, subcommand_rows_of};
ghost use Rattle.commandline.specs.Readings.{text_of};
ghost use Rattle.commandline.specs.Mistakes.{Tells, wants_explanation};
ghost use Rattle.commandline.specs.ViewLines.{AreTurns, IsNumber, IsView, AreViewWordsOf, IsViewing};
ghost use Rattle.commandline.specs.ViewMistakes.{wrong_if_given, wrong_turns, RefusesView, RefusesViewing, RefusesViewWords, IsViewExplained};

use crate::fault::{TaskFault, mistaken, mistaken_without};
use crate::mistakes::Reason;
use crate::view_lines::read_view_words;
use crate::words::{given, is_used};
use clap::ArgMatches;
use schedules::read_number;
use std::alloc::Global;

/// What is to be shown of a trace.
#[derive(Clone, Copy)]
pub enum View {
    /// The picture of its turns from the first of these on, and of so many at most: as many as fit into 32767 pixels; or
    /// all of them, where `fit` doesn't hold.
    Picture {
        first: usize,
        count: usize,
        fit: bool,
    },
    /// Its lines with their words decoded: keys too where `keys` holds, and each behind the number of its turn where
    /// `numbers` does.
    Words {
        keys: bool,
        numbers: bool,
    },
    /// Its summary.
    Summary,
    /// Its turns as JSON.
    Json,
    /// Its turns in the trace-event form.
    Events,
    /// A page that shows its turns from the first of these on, and so many at most, turn by turn.
    Page {
        first: usize,
        count: usize,
    },
    /// Whether its steps follow from one another.
    Check,
}

/// What `poolview` is told to do.
#[derive(Clone, Copy)]
pub struct Viewing<'a> {
    /// The path of the file of the trace; `-` stands for standard input.
    pub file: &'a str,
    pub view: View,
}

/// What the words of `poolview` ask for.
#[derive(Drop)]
pub struct ViewRequest<'a> {
    /// What is to be shown, or why nothing is.
    pub viewing: Result<Viewing<'a>, TaskFault>,
    /// Whether mistakes are to be explained.
    pub explain: bool,
}

/// The number of a text, or this one where none is given.
fn number_or(
    alloc: Global,
    reason: Reason,
    text: Option<&str>,
    default: usize,
) -> Result<usize, TaskFault>
    ensures ok { IfOk result (IsNumber default (text_of text.entry)) }
    ensures err { IfErr result (Tells (wrong_if_given reason (text_of text.entry))) }
{
    let Some(text) = text else {
        return Ok(default);
    };
    match read_number(text.as_bytes(), 20, 4_294_967_295) {
        Some(number) => Ok(number as usize),
        None => Err(mistaken(alloc, reason, text)),
    }
}

/// Which turns are to be shown: the first, and how many at most.
fn turns_of(alloc: Global, matches: &ArgMatches) -> Result<(usize, usize), TaskFault>
    ensures ok { IfOk result (λ turns. AreTurns (rows_of (found_of matches.now)) turns.0 turns.1) }
    ensures err { IfErr result (Tells (wrong_turns (rows_of (found_of matches.now)))) }
{
    let first = number_or(alloc, Reason::BadFrom, given(matches, "from"), 0)?;
    let count = number_or(alloc, Reason::BadCount, given(matches, "turns"), usize::MAX)?;
    Ok((first, count))
}

/// The turns of a picture.
fn picture_of(alloc: Global, matches: &ArgMatches) -> Result<View, TaskFault>
    ensures ok { IfOk result (IsView (codes "picture") (rows_of (found_of matches.now))) }
    ensures err { IfErr result (Tells (wrong_turns (rows_of (found_of matches.now)))) }
{
    let (first, count) = turns_of(alloc, matches)?;
    let fit = !is_used(matches, "whole");
    Ok(View::Picture { first, count, fit })
}

/// The turns of a page.
fn page_of(alloc: Global, matches: &ArgMatches) -> Result<View, TaskFault>
    ensures ok { IfOk result (IsView (codes "page") (rows_of (found_of matches.now))) }
    ensures err { IfErr result (Tells (wrong_turns (rows_of (found_of matches.now)))) }
{
    let (first, count) = turns_of(alloc, matches)?;
    Ok(View::Page { first, count })
}

/// The words of a trace.
fn words_of(matches: &ArgMatches) -> View
    ensures { IsView (codes "words") (rows_of (found_of matches.now)) result }
{
    View::Words {
        keys: is_used(matches, "keys"),
        numbers: is_used(matches, "numbers"),
    }
}

/// What a subcommand of this name asks for.
fn view_of(alloc: Global, name: &str, matches: &ArgMatches) -> Result<View, TaskFault>
    ensures ok { IfOk result (IsView name.now (rows_of (found_of matches.now))) }
    ensures err { IfErr result (RefusesView name.now (rows_of (found_of matches.now))) }
{
    match name {
        "picture" => picture_of(alloc, matches),
        "words" => Ok(words_of(matches)),
        "summary" => Ok(View::Summary),
        "json" => Ok(View::Json),
        "events" => Ok(View::Events),
        "page" => page_of(alloc, matches),
        "check" => Ok(View::Check),
        _ => Err(mistaken_without(alloc, Reason::Missing)),
    }
}

/// What some matches ask for.
fn viewed<'a>(alloc: Global, matches: &ArgMatches<'a>) -> Result<Viewing<'a>, TaskFault>
    ensures ok { IfOk result (IsViewing (subcommand_rows_of matches.now)) }
    ensures err { IfErr result (RefusesViewing (subcommand_rows_of matches.now)) }
{
    let Some((name, matches)) = matches.subcommand() else {
        return Err(mistaken_without(alloc, Reason::Missing));
    };
    let Some(file) = given(matches, "file") else {
        return Err(mistaken_without(alloc, Reason::Missing));
    };
    let view = view_of(alloc, name, matches)?;
    Ok(Viewing { file, view })
}

/// Whether some matches ask for mistakes to be explained.
fn is_explained(matches: &ArgMatches) -> bool
    ensures { result ≡ wants_explanation (subcommand_rows_of matches.now) }
{
    match matches.subcommand() {
        Some((_, matches)) => is_used(matches, "explain"),
        None => false,
    }
}

/// Reads the command line of `poolview`, the program's name first: what is to be shown, of which file, and whether
/// mistakes are to be explained. The faults: `Clap` where `clap` refuses the words, or help or the version was asked
/// for; `Words` with the mistake where it takes them and a number of turns is none; `Memory` where memory was refused.
pub fn read_viewing<'a>(alloc: Global, words: &'a [String]) -> ViewRequest<'a>
    ensures ok { IfOk result.viewing (AreViewWordsOf (map string_bytes words.now)) }
    ensures err { IfErr result.viewing (RefusesViewWords (map string_bytes words.now)) }
    ensures explain { IsViewExplained (map string_bytes words.now) result.explain result.viewing }
{
    match read_view_words(alloc, words) {
        Ok(matches) => ViewRequest {
            viewing: viewed(alloc, &matches),
            explain: is_explained(&matches),
        },
        Err(error) => ViewRequest {
            viewing: Err(TaskFault::Clap(error)),
            explain: false,
        },
    }
}
