//! Why words that `clap` took are still no task.
ghost use Rattle.std.specs.Prelude.{◌≡◌};
ghost use Rattle.schedules.specs.Schedules.{bad_entry};
ghost use Rattle.streams.specs.Saying.{Says};
ghost use Rattle.streams.specs.Shown.{IsSafeLine, bytes_text};
ghost use Rattle.commandline.specs.MistakeTexts.{before_of, after_of, entry_told, where_of, mistake_text};

use itoa::Buffer;
use schedules::bad_entry;
use std::io::Write;
use streams::{Watched, write_bytes, write_cut, write_text};

/// Why the words are no task.
#[derive(Clone, Copy, Debug)]
pub enum Reason {
    /// Neither a schedule is given, nor a seed or a number of turns.
    NoTurns,
    /// A seed without a number of turns.
    SeedAlone,
    /// A number of turns without a seed.
    TurnsAlone,
    /// A schedule, and a seed or a number of turns beside it.
    ScheduleAndMore,
    /// The text of the schedule is none.
    BadSchedule,
    /// The text of the schedule's file is none.
    BadFile,
    /// The file and the schedule are both standard input.
    InputTwice,
    /// The acts are wanted, and the schedule.
    TwoTexts,
    /// The seed is no number, or too large.
    BadSeed,
    /// The number of turns is none, or too large.
    BadTurns,
    /// The text of the stop is none.
    BadStop,
    /// The number of replays is none, or 0, or too large.
    BadTries,
    /// The number of states is none, or 0, or too large.
    BadMost,
    /// The number of a key or a word is none, or too large.
    BadNumber,
    /// The number is none of hexadecimal digits, or has too many.
    BadHexadecimal,
    /// The first turn of a picture is no number, or too large.
    BadFrom,
    /// The number of a picture's turns is none, or too large.
    BadCount,
    /// A word is no text in UTF-8.
    NoText,
    /// A word is missing without which there is no task.
    Missing,
}

/// A mistake in the words.
#[derive(Debug, Drop)]
pub struct Mistake {
    /// Why the words are no task.
    pub reason: Reason,
    /// The text behind the option, of the argument, or of the schedule's file as one of a command line, that the reason
    /// is about; empty where it is about none.
    pub found: Vec<u8>,
}

/// What is said of a reason before the text that it is about, and behind it: what is wanted.
fn wording(reason: Reason) -> (&'static str, &'static str)
    ensures before { result.0.now ≡ before_of reason }
    ensures after { result.1.now ≡ after_of reason }
{
    match reason {
        Reason::NoTurns => (
            "no turns are given",
            ": give --schedule, or --seed and --turns",
        ),
        Reason::SeedAlone => ("--seed ", " needs --turns"),
        Reason::TurnsAlone => ("--turns ", " needs --seed"),
        Reason::ScheduleAndMore => (
            "--schedule ",
            " stands beside --seed or --turns: give --schedule alone, or --seed and --turns",
        ),
        Reason::BadSchedule => (
            "--schedule \"",
            "\" is no schedule: numbers of one to three digits, at most 255, with single commas between them",
        ),
        Reason::BadFile => (
            "the file of --schedule: \"",
            "\" is no schedule: numbers of one to three digits, at most 255, with single commas or line feeds between them",
        ),
        Reason::InputTwice => (
            "FILE and --schedule are both standard input",
            ": give one of them by its path",
        ),
        Reason::TwoTexts => (
            "--acts stands beside --print-schedule",
            ": one text alone is printed",
        ),
        Reason::BadSeed => (
            "--seed \"",
            "\" is no seed: one to twenty decimal digits, at most 18446744073709551615",
        ),
        Reason::BadTurns => (
            "--turns \"",
            "\" is no number of turns: one to twenty decimal digits, at most 1000000",
        ),
        Reason::BadStop => (
            "--stop \"",
            "\" is no stop: a lane, a colon and a number of turns, each of one to twenty decimal digits and at most 4294967295",
        ),
        Reason::BadTries => (
            "--tries \"",
            "\" is no number of replays: one to twenty decimal digits, 1 to 18446744073709551615",
        ),
        Reason::BadMost => (
            "--most \"",
            "\" is no number of states: one to twenty decimal digits, 1 to 18446744073709551615",
        ),
        Reason::BadNumber => (
            "N \"",
            "\" is no number: one to twenty decimal digits, at most 18446744073709551615; with --hex hexadecimal digits",
        ),
        Reason::BadHexadecimal => (
            "N \"",
            "\" is no hexadecimal number: one to sixteen hexadecimal digits, with or without 0x before them",
        ),
        Reason::BadFrom => (
            "--from \"",
            "\" is no turn: one to twenty decimal digits, at most 4294967295",
        ),
        Reason::BadCount => (
            "--turns \"",
            "\" is no number of turns: one to twenty decimal digits, at most 4294967295",
        ),
        Reason::NoText => ("a word is no text", ": words are texts in UTF-8"),
        Reason::Missing => ("a word is missing", ": --help says which words there are"),
    }
}

/// Writes which entry of a schedule is none, where one is.
fn write_entry<W: Write>(schedule: &[u8], out: &mut Watched<W>)
    ensures { Says W.contents out.old out.new (bytes_text (entry_told (bad_entry schedule.now))) }
{
    let Some((before, entry)) = bad_entry(schedule) else {
        return;
    };
    let number = before as u128 + 1;
    write_bytes(b"; entry ", out);
    write_bytes(Buffer::new().format(number).as_bytes(), out);
    write_bytes(b" is \"", out);
    write_cut(entry, out);
    write_bytes(b"\"", out);
}

/// Writes where in the text that a reason is about the mistake stands: of a schedule the entry.
fn write_where<W: Write>(mistake: &Mistake, out: &mut Watched<W>)
    ensures { Says W.contents out.old out.new (bytes_text (where_of mistake.now.reason mistake.now.found.items)) }
{
    match mistake.reason {
        Reason::BadSchedule | Reason::BadFile => write_entry(mistake.found.as_slice(), out),
        _ => {}
    }
}

/// Writes the line that explains a mistake: the option, the text that was found and what is wanted, and of a schedule
/// which entry is none. Bytes of the text that are no printable characters of ASCII are shown by their numbers, and of
/// more than 80 the first 60. Nothing is allocated.
pub fn write_mistake<W: Write>(mistake: &Mistake, out: &mut Watched<W>)
    ensures says { Says W.contents out.old out.new (mistake_text mistake.now) }
    ensures safe { IsSafeLine (mistake_text mistake.now) }
{
    let (before, after) = wording(mistake.reason);
    write_bytes(before.as_bytes(), out);
    write_cut(mistake.found.as_slice(), out);
    write_bytes(after.as_bytes(), out);
    write_where(mistake, out);
    write_text(b"\n", out);
}
