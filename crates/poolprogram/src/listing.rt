//! Turns that are in a file, and how the program ends where there are none.
ghost use Rattle.std.specs.Prelude.{◌≡◌, ◌≢◌, IfOk, IfErr, codes};
ghost use Rattle.poolprogram.specs.Listings.{ListsTurns, IsUnlisted};
ghost use Rattle.poolprogram.specs.Program.{IsSubjectAt, EndsUnread, EndsUnlisted};

use crate::explanation::Subject;
use crate::program::{Ending, end_task};
use crate::run_fault::RunFault;
use commandline::{TaskFault, Turns, end_by_words, turns_in};
use std::alloc::{AllocError, Global};
use std::fs::Files;
use std::io::{Read, Write};
use streams::{Unwritable, Watched, read_path};

/// Why there are no turns.
#[derive(Drop)]
pub(crate) enum Unlisted {
    /// Their file wasn't read.
    Unread(RunFault),
    /// It lists none, or memory was refused.
    Words(TaskFault),
}

/// The turns that the file at a path lists, or the input where that is named `-`.
pub(crate) fn turns_at<R: Files + AllocGlobal, I: Read>(
    rt: &R,
    path: &str,
    input: &mut I,
) -> Result<Turns, Unlisted>
    ensures ok { IfOk result (ListsTurns path.now (I.remaining input.old)) }
    ensures err { IfErr result (IsUnlisted path.now (I.remaining input.old)) }
    ensures input { path.now ≢ codes "-" → input.new ≡ input.old }
{
    match read_path(rt, input, path) {
        Ok(bytes) => match turns_in(rt.alloc(), bytes.as_slice()) {
            Ok(turns) => Ok(turns),
            Err(fault) => Err(Unlisted::Words(fault)),
        },
        Err(unread) => Err(Unlisted::Unread(RunFault::from(unread))),
    }
}

/// What is explained where the file at a path wasn't read.
fn subject_at(alloc: Global, path: &str) -> Result<Subject, AllocError>
    ensures { IfOk result (IsSubjectAt path.now) }
{
    let path = String::from_str(alloc, path)?;
    Ok(Subject::Path(path))
}

/// Ends the program where the file of turns at a path wasn't read.
fn end_unread<E: Write>(
    alloc: Global,
    path: &str,
    fault: RunFault,
    explain: bool,
    errors: &mut Watched<E>,
) -> Ending
    ensures { EndsUnread E.contents path.now fault explain errors.old errors.new result }
{
    let subject = if explain {
        Some(subject_at(alloc, path))
    } else {
        None
    };
    end_task(alloc, &subject, &[], Unwritable::Other, &Err(fault), errors)
}

/// Ends the program where there are no turns in the file at a path.
pub(crate) fn end_unlisted<O: Write, E: Write>(
    alloc: Global,
    path: &str,
    why: Unlisted,
    explain: bool,
    out: &mut Watched<O>,
    errors: &mut Watched<E>,
) -> Ending
    ensures { EndsUnlisted E.contents path.now why explain out.old out.new errors.old errors.new result }
{
    match why {
        Unlisted::Unread(fault) => end_unread(alloc, path, fault, explain, errors),
        Unlisted::Words(fault) => Ending {
            status: end_by_words(alloc, &fault, explain, out, errors),
            explained: true,
        },
    }
}
