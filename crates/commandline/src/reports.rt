//! The words of the command line, and how a program ends whose words ask for nothing.
ghost use Rattle.std.specs.Prelude.{◌≡◌, Ok};
ghost use Rattle.clap.specs.Values.{kind_of};
ghost use Rattle.streams.specs.Saying.{Says};
ghost use Rattle.commandline.specs.MistakeTexts.{words_text};
ghost use Rattle.commandline.specs.Statuses.{EndsByClap, EndsByHelp, EndsByWords, IsHelp, ReportsClap};
ghost use Rattle.commandline.specs.Arguments.{ReadsArgs};

use crate::fault::TaskFault;
use crate::mistakes::{Mistake, Reason, write_mistake};
use crate::wishes::{Call, call_of};
use clap::Error as ClapError;
use clap::error::ErrorKind;
use std::alloc::{AllocError, Global};
use std::env::Args;
use std::io;
use std::io::Write;
use streams::{Watched, write_lines, write_text};

/// The line of a want of memory.
const MEMORY: &[u8] = b"fault 43 Memory\n";

/// The line of an output that can't be written.
const OUTPUT: &[u8] = b"fault 42 Output\n";

/// Writes the help or the version that is asked for.
fn end_by_help<O: Write, E: Write>(
    error: &ClapError,
    out: &mut Watched<O>,
    errors: &mut Watched<E>,
) -> u8
    ensures { EndsByHelp E.contents out.new.failed errors.old errors.new result }
{
    let _ = write!(out, "{error}");
    if out.failed() {
        write_text(OUTPUT, errors);
        return 1;
    }
    0
}

/// Writes what `clap` says of a mistake, no byte of which steers a terminal.
fn report_clap<E: Write>(alloc: Global, error: &ClapError, errors: &mut Watched<E>) -> u8
    ensures { ReportsClap E.contents errors.old errors.new result }
{
    let Ok(text) = format!(in alloc; "{error}") else {
        write_text(MEMORY, errors);
        return 1;
    };
    write_lines(text.as_bytes(), errors);
    2
}

/// Writes what `clap` says.
fn end_by_clap<O: Write, E: Write>(
    alloc: Global,
    error: &ClapError,
    out: &mut Watched<O>,
    errors: &mut Watched<E>,
) -> u8
    ensures { EndsByClap E.contents (kind_of error.now) out.old out.new errors.old errors.new result }
{
    if error.kind() == ErrorKind::OutOfMemory {
        write_text(MEMORY, errors);
        return 1;
    }
    if error.use_stderr() {
        return report_clap(alloc, error, errors);
    }
    end_by_help(error, out, errors)
}

/// Writes that the words are wrong, and with `explain` where the mistake is and what is wanted there.
fn report_mistake<E: Write>(mistake: &Mistake, explain: bool, errors: &mut Watched<E>)
    ensures { Says E.contents errors.old errors.new (words_text explain mistake.now) }
{
    write_text(b"words\n", errors);
    if explain {
        write_mistake(mistake, errors);
    }
}

/// Writes why the words ask for nothing, and with `explain` where a mistake is and what is wanted there, on `errors`;
/// or the help that they ask for on `out`. Answers the exit status: 2 for a mistake, whether or not it gets out; 0 for
/// help or the version; and 1 where memory was refused for the words, or help can't be written, which is said on
/// `errors`.
pub fn end_by_words<O: Write, E: Write>(
    alloc: Global,
    fault: &TaskFault,
    explain: bool,
    out: &mut Watched<O>,
    errors: &mut Watched<E>,
) -> u8
    ensures { EndsByWords E.contents fault.now explain out.old out.new errors.old errors.new result }
{
    match fault {
        TaskFault::Clap(error) => end_by_clap(alloc, error, out, errors),
        TaskFault::Words(mistake) => {
            report_mistake(mistake, explain, errors);
            2
        }
        TaskFault::Memory(_) => {
            write_text(MEMORY, errors);
            1
        }
    }
}

/// What the program was called with, by its words.
fn read_row(alloc: Global, args: Args) -> Result<Call, TaskFault>
    ensures { ReadsArgs (Ok args) result }
{
    let words: Vec<String> = args.collect(alloc)?;
    let call = call_of(alloc, words.as_slice())?;
    Ok(call)
}

/// What the program was called with, by what `env::args` answers. The faults: `Words` where a word is no text;
/// `Memory` where memory was refused.
pub fn read_args(alloc: Global, args: io::Result<Args>) -> Result<Call, TaskFault>
    ensures { ReadsArgs args result }
{
    match args {
        Ok(args) => read_row(alloc, args),
        Err(error) => {
            if error.kind() == io::ErrorKind::OutOfMemory {
                return Err(TaskFault::Memory(AllocError));
            }
            Err(TaskFault::Words(Mistake {
                reason: Reason::NoText,
                found: Vec::new(alloc),
            }))
        }
    }
}
