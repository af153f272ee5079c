//! Tasks of the command line, and how the program ends after one.
ghost use Rattle.std.specs.Prelude.{◌≡◌, ◌≢◌, ◌↔◌, true, false, IfOk, IfErr, IsErrOf};
ghost use Rattle.streams.specs.Saying.{Says};
ghost use Rattle.poolprogram.specs.Tasks.{WritesTask, RefusesTask, task_status, fault_line, report_text};

use crate::check::check_text;
use crate::done::{Done, done_by, done_short};
use crate::every_outcome::every_outcome_text;
use crate::key::key_text;
use crate::meter::Meter;
use crate::run::run_text;
use crate::run_fault::RunFault;
use crate::shortest::shortening_text;
use crate::turns::{replay_turns, schedule_text};
use crate::word::word_text;
use commandline::Task;
use itoa::Buffer;
use std::alloc::Global;
use std::io::Write;
use std::sync::Wait;
use std::thread::Threads;
use streams::{Watched, write_text};

/// Does a task on the bytes of its file: a replay, what is said of its schedule, all outcomes, a check, a run or what is said of a
/// key or a word. The answer is the replay, where one was made; `Badly` where acts are illegal or a number is no key's, and then this was said; `Early`
/// where a schedule is shortened by as many replays as may be. The errors are those of the call for the task's kind, and
/// all but `Output` come before the first byte. Meanwhile `meter` tells how far a long one is.
pub fn do_task<R: Threads + Wait + Sync, W: Write, M: Write>(
    rt: &R,
    alloc: Global,
    task: Task,
    file: &[u8],
    out: &mut Watched<W>,
    meter: &mut Meter<M>,
) -> Result<Done, RunFault>
    requires { out.old.failed ≡ false }
    ensures ok { IfOk result (λ done. WritesTask task file.now done
        (W.contents out.old.inner) (W.contents out.new.inner)) }
    ensures output { IsErrOf result RunFault.Output ↔ (out.new.failed ≡ true) }
    ensures refused { IfErr result (λ fault. fault ≢ RunFault.Output
        → (out.new ≡ out.old) × RefusesTask task file.now fault) }
{
    match task {
        Task::Replay {
            file: _,
            turns,
            stop,
            acts,
        } => {
            let made = replay_turns(alloc, file, turns, stop, acts, out, meter)?;
            Ok(Done::Replayed(made))
        }
        Task::Schedule {
            file: _,
            turns,
            stop,
        } => {
            schedule_text(alloc, file, turns, stop, out)?;
            Ok(Done::Well)
        }
        Task::Shorten {
            file: _,
            turns,
            stop,
            search,
        } => {
            let least = shortening_text(alloc, file, turns, stop, search, out, meter)?;
            Ok(done_short(least))
        }
        Task::Outcomes {
            file: _,
            most,
            count,
        } => {
            every_outcome_text(alloc, file, most, count, out)?;
            Ok(Done::Well)
        }
        Task::Check { file: _ } => {
            let legal = check_text(alloc, file, out)?;
            Ok(done_by(legal))
        }
        Task::Run { file: _ } => {
            run_text(rt, alloc, file, out)?;
            Ok(Done::Well)
        }
        Task::Key { number } => {
            let known = key_text(alloc, number, out)?;
            Ok(done_by(known))
        }
        Task::Word { word } => {
            word_text(alloc, word, out)?;
            Ok(Done::Well)
        }
    }
}

/// The exit status after a task: 0 where it was done and all is well; 1 where it has a fault, acts are
/// illegal or a number is no key's.
pub fn status_of(done: &Result<Done, RunFault>) -> u8
    ensures { result ≡ task_status done.now }
{
    match done {
        Ok(Done::Well) | Ok(Done::Replayed(_)) | Ok(Done::Early) => 0,
        _ => 1,
    }
}

/// Writes the line of a fault: its number and its name.
fn write_fault<W: Write>(fault: &RunFault, out: &mut Watched<W>)
    ensures { Says W.contents out.old out.new (fault_line fault.now) }
{
    write_text(b"fault ", out);
    write_text(Buffer::new().format(fault.number()).as_bytes(), out);
    write_text(b" ", out);
    write_text(fault.name().as_bytes(), out);
    write_text(b"\n", out);
}

/// Writes what is reported of a task: the line of its fault, where it has one. Nothing is allocated.
pub fn write_report<W: Write>(done: &Result<Done, RunFault>, out: &mut Watched<W>)
    ensures { Says W.contents out.old out.new (report_text done.now) }
{
    match done {
        Ok(_) => {}
        Err(fault) => write_fault(fault, out),
    }
}
