//! The whole program over any input and writers: what the words ask for is done, and said on the output and as errors.
ghost use Rattle.std.specs.Prelude.{◌≡◌, true, false, Ok, Some, IfOk, IfErr};
ghost use Rattle.commandline.specs.Readings.{text_of};
ghost use Rattle.commandline.specs.Tasks.{path_of, schedule_path_of};
ghost use Rattle.poolprogram.specs.Reading.{IsFileOf, IsUnread};
ghost use Rattle.poolprogram.specs.Program.{SaysWhy, SaysEnd, IsSubjectIf, EndsTask, EndsFor, EndsRequest, EndsCall, EndsProgram, asked_path};

use crate::done::Done;
use crate::explanation::{Subject, explain, subject_of};
use crate::listing::{end_unlisted, turns_at};
use crate::meter::Meter;
use crate::run_fault::RunFault;
use crate::tasks::{do_task, status_of, write_report};
use commandline::{
    Call, Request, Task, TaskFault, end_by_words, hint, is_due, is_hinted, is_wanted, read_args,
    read_request, word_of,
};
use std::alloc::{AllocError, Global};
use std::env::Args;
use std::fs::Files;
use std::io;
use std::io::{Read, Write};
use std::sync::Wait;
use std::thread::Threads;
use streams::{Unwritable, Watched, read_path, write_text};

/// How the program ends.
#[derive(Clone, Copy, Debug)]
pub struct Ending {
    /// The exit status.
    pub status: u8,
    /// Whether all was explained that was to be explained: false where memory was refused for it.
    pub explained: bool,
}

/// The bytes of the file that a task is about, or what is left of the input where it is named `-`; none where it is
/// about no file.
fn read_file<R: Files + AllocGlobal, I: Read>(
    rt: &R,
    task: &Task,
    input: &mut I,
) -> Result<Vec<u8>, RunFault>
    ensures ok { IfOk result (λ file. IsFileOf (path_of task.now) (I.remaining input.old) file.items) }
    ensures err { IfErr result (IsUnread (path_of task.now)) }
{
    let Some(path) = task.path() else {
        return Ok(Vec::new(rt.alloc()));
    };
    let file = read_path(rt, input, path)?;
    Ok(file)
}

/// Writes why a task ended as it did that is about this. Answers whether all was explained.
fn write_explanation<E: Write>(
    alloc: Global,
    subject: &Subject,
    file: &[u8],
    why: Unwritable,
    done: &Result<Done, RunFault>,
    errors: &mut Watched<E>,
) -> bool
    ensures { SaysWhy E.contents (Some (Ok subject.now)) file.now why done.now result errors.old errors.new }
{
    match explain(alloc, subject, file, why, done) {
        Ok(told) => {
            write_text(told.as_bytes(), errors);
            true
        }
        Err(_) => false,
    }
}

/// Writes why a task ended as it did. Answers whether all was explained.
fn write_why<E: Write>(
    alloc: Global,
    subject: &Result<Subject, AllocError>,
    file: &[u8],
    why: Unwritable,
    done: &Result<Done, RunFault>,
    errors: &mut Watched<E>,
) -> bool
    ensures { SaysWhy E.contents (Some subject.now) file.now why done.now result errors.old errors.new }
{
    match subject {
        Ok(subject) => write_explanation(alloc, subject, file, why, done, errors),
        Err(_) => false,
    }
}

/// Writes why a task ended as it did, where there is something to be explained. Answers whether all was.
fn write_why_if<E: Write>(
    alloc: Global,
    subject: &Option<Result<Subject, AllocError>>,
    file: &[u8],
    why: Unwritable,
    done: &Result<Done, RunFault>,
    errors: &mut Watched<E>,
) -> bool
    ensures { SaysWhy E.contents subject.now file.now why done.now result errors.old errors.new }
{
    match subject {
        Some(subject) => write_why(alloc, subject, file, why, done, errors),
        None => true,
    }
}

/// Ends a task: writes the line of its fault, where it has one, and behind it, where there is something to be explained,
/// why the task ended as it did; where the output can't be written, for this reason.
pub(crate) fn end_task<E: Write>(
    alloc: Global,
    subject: &Option<Result<Subject, AllocError>>,
    file: &[u8],
    why: Unwritable,
    done: &Result<Done, RunFault>,
    errors: &mut Watched<E>,
) -> Ending
    ensures { SaysEnd E.contents subject.now file.now why done.now result errors.old errors.new }
{
    write_report(done, errors);
    let status = status_of(done);
    let explained = write_why_if(alloc, subject, file, why, done, errors);
    Ending { status, explained }
}

/// What is to be explained of a task; nothing where that isn't wanted.
fn subject_if(alloc: Global, task: &Task, explain: bool) -> Option<Result<Subject, AllocError>>
    ensures { IsSubjectIf explain task.now result }
{
    if explain {
        Some(subject_of(alloc, task))
    } else {
        None
    }
}

/// Does a task, and writes the line of its fault, where it has one, and with `explain` behind it why.
fn run_to_end<R: Files + AllocGlobal + Threads + Wait + Sync, I: Read, O: Write, E: Write>(
    rt: &R,
    task: Task,
    explain: bool,
    input: &mut I,
    out: &mut Watched<O>,
    errors: &mut Watched<E>,
    meter: &mut Meter<E>,
) -> Ending
    requires { out.old.failed ≡ false }
    ensures { EndsTask O.contents E.contents (I.remaining input.old) task explain out.old out.new errors.old errors.new result }
{
    let subject = subject_if(rt.alloc(), &task, explain);
    match read_file(rt, &task, input) {
        Ok(file) => {
            let file = file.as_slice();
            let done = do_task(rt, rt.alloc(), task, file, out, meter);
            end_task(rt.alloc(), &subject, file, out.why(), &done, errors)
        }
        Err(fault) => end_task(rt.alloc(), &subject, &[], out.why(), &Err(fault), errors),
    }
}

/// Does a task, whose turns are read before where they are in a file.
fn run_listed<R: Files + AllocGlobal + Threads + Wait + Sync, I: Read, O: Write, E: Write>(
    rt: &R,
    task: Task,
    explain: bool,
    input: &mut I,
    out: &mut Watched<O>,
    errors: &mut Watched<E>,
    meter: &mut Meter<E>,
) -> Ending
    requires { out.old.failed ≡ false }
    ensures { EndsFor O.contents E.contents (I.remaining input.old) (schedule_path_of task) task explain out.old out.new errors.old
        errors.new result }
{
    let Some(path) = task.schedule_path() else {
        return run_to_end(rt, task, explain, input, out, errors, meter);
    };
    match turns_at(rt, path, input) {
        Ok(turns) => run_to_end(rt, task.over(turns), explain, input, out, errors, meter),
        Err(why) => end_unlisted(rt.alloc(), path, why, explain, out, errors),
    }
}

/// Does a task that is asked for, with mistakes explained or not; or writes on `errors` why there is none.
fn run_request<R: Files + AllocGlobal + Threads + Wait + Sync, I: Read, O: Write, E: Write>(
    rt: &R,
    task: Result<Task, TaskFault>,
    explain: bool,
    input: &mut I,
    out: &mut Watched<O>,
    errors: &mut Watched<E>,
    meter: &mut Meter<E>,
) -> Ending
    requires { out.old.failed ≡ false }
    ensures { EndsRequest O.contents E.contents (I.remaining input.old) task explain out.old out.new errors.old errors.new result }
{
    match task {
        Ok(task) => run_listed(rt, task, explain, input, out, errors, meter),
        Err(fault) => Ending {
            status: end_by_words(rt.alloc(), &fault, explain, out, errors),
            explained: true,
        },
    }
}

/// The path of the file of a task, where there is one.
fn task_path(task: &Result<Task, TaskFault>) -> Option<&str>
    ensures { text_of result ≡ asked_path task.now }
{
    match task {
        Ok(task) => task.path(),
        Err(_) => None,
    }
}

/// Does what the program was called for, and gives a hint behind a mistake.
fn run_call<R: Files + AllocGlobal + Threads + Wait + Sync, I: Read, O: Write, E: Write>(
    rt: &R,
    call: &Call,
    hints: bool,
    input: &mut I,
    out: &mut Watched<O>,
    errors: &mut Watched<E>,
    meter: &mut Meter<E>,
) -> Ending
    requires { out.old.failed ≡ false }
    ensures { EndsCall O.contents E.contents (I.remaining input.old) call.now hints out.old out.new errors.old errors.new result }
{
    let Request { task, explain } = read_request(rt.alloc(), call.words.as_slice());
    let explain = is_wanted(call.wish, explain, hints);
    meter.want(is_wanted(call.progress, false, hints));
    let file = word_of(call.words.as_slice(), task_path(&task));
    let due = is_due(&task);
    let ending = run_request(rt, task, explain, input, out, errors, meter);
    let hinted = is_hinted(hints, due, explain, ending.status);
    hint(hinted, "poolrun", call.command(), file, errors);
    ending
}

/// Does what the words ask for, which are those that `env::args` answers. A task's file is read, or `input` where it is
/// named `-`, and before it that of its turns, where they are in one; what it says is written on `out`. The line of its
/// fault is written on `errors`, and behind it, where that is wanted, why; or else why the words ask for nothing. With
/// `hints`, that is where someone reads `errors` at a terminal, mistakes are explained unless the words say otherwise,
/// and behind them stands where to read on. `meter` tells how far a long task is, with `hints` unless the words say
/// otherwise, and without them where they do. The exit status is 0 where it is done and after help, 1 after a fault, an
/// illegal act and where there is no key, and 2 after a mistake in the words. Workers run on the threads of `rt`.
pub fn run_program<R: Files + AllocGlobal + Threads + Wait + Sync, I: Read, O: Write, E: Write>(
    rt: &R,
    args: io::Result<Args>,
    hints: bool,
    input: &mut I,
    out: &mut Watched<O>,
    errors: &mut Watched<E>,
    meter: &mut Meter<E>,
) -> Ending
    requires { out.old.failed ≡ false }
    ensures { EndsProgram O.contents E.contents (I.remaining input.old) args hints out.old out.new errors.old errors.new result }
{
    match read_args(rt.alloc(), args) {
        Ok(call) => run_call(rt, &call, hints, input, out, errors, meter),
        Err(fault) => Ending {
            status: end_by_words(rt.alloc(), &fault, hints, out, errors),
            explained: true,
        },
    }
}
