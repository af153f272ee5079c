//! Why a task ended as it did, in words.
ghost use Rattle.std.specs.Prelude.{◌≡◌, IfOk, IsOk, codes, string_bytes};
ghost use Rattle.streams.specs.Shown.{IsSafeLine, line_text};
ghost use Rattle.explanations.specs.Said.{IsLineOrNone};
ghost use Rattle.poolprogram.specs.Explanations.{IsSubjectOf, absent_told, shortening_told, states_told, ExplainsUnread, ExplainsFault, Explains, IsPlain};

use crate::done::Done;
use crate::half_run::explain_half_run;
use crate::run_fault::RunFault;
use commandline::Task;
use explanations::{
    explain_acts, explain_check, explain_file, explain_no_key, explain_output, explain_script,
};
use shortening::Unshortened;
use std::alloc::{AllocError, Global};
use streams::{Unreadable, Unwritable, line_of};

/// What a task is about.
#[derive(Drop)]
pub enum Subject {
    /// The file at this path.
    Path(String),
    /// A number.
    Number(u64),
}

/// What a task is about. The error is want of memory for the path.
pub fn subject_of(alloc: Global, task: &Task) -> Result<Subject, AllocError>
    ensures { IfOk result (IsSubjectOf task.now) }
{
    match task {
        Task::Replay { file, .. }
        | Task::Schedule { file, .. }
        | Task::Shorten { file, .. }
        | Task::Outcomes { file, .. }
        | Task::Check { file }
        | Task::Run { file } => {
            let path = String::from_str(alloc, file.as_str())?;
            Ok(Subject::Path(path))
        }
        Task::Key { number } => Ok(Subject::Number(*number)),
        Task::Word { word } => Ok(Subject::Number(*word)),
    }
}

/// The line that explains why a file wasn't read; nothing of a task that is about none.
fn explain_unread(alloc: Global, subject: &Subject, why: Unreadable) -> Result<String, AllocError>
    ensures is { IfOk result (λ text. ExplainsUnread subject.now why (string_bytes text)) }
    ensures safe { IfOk result (λ text. IsLineOrNone (string_bytes text)) }
{
    match subject {
        Subject::Path(path) => explain_file(alloc, path.as_str(), why),
        Subject::Number(_) => Ok(String::new(alloc)),
    }
}

/// Why a schedule isn't shortened whose replay lacks the word, decoded or not.
fn why_absent(decoded: bool) -> &'static [u8]
    ensures { result.now ≡ absent_told decoded }
{
    if decoded {
        b"the word of --until stands in no line of the replay, as poolview words shows it"
    } else {
        b"the word of --until stands in no line of the replay, neither with --acts nor without"
    }
}

/// Why a schedule isn't shortened.
fn why_not_shorter(fault: Unshortened) -> &'static [u8]
    ensures { result.now ≡ shortening_told fault }
{
    match fault {
        Unshortened::Fails => why_absent(false),
        Unshortened::Limit =>
            b"100000000 entries were replayed, and more can perhaps be left out: cut the schedule before",
        Unshortened::Memory => b"memory was refused",
    }
}

/// The line that explains why outcomes aren't listed: so many states were found.
fn why_too_many(alloc: Global, reached: u64) -> Result<String, AllocError>
    ensures is { IfOk result (λ text. string_bytes text ≡ line_text (states_told reached)) }
    ensures safe { IfOk result (λ text. IsSafeLine (string_bytes text)) }
{
    let text = format!(in alloc;
        "{reached} states were found, more than --most allows: give a larger --most, or shorter scripts"
    )?;
    line_of(alloc, text.as_bytes())
}

/// The line that explains a fault; that of the output by this reason.
fn explain_fault(
    alloc: Global,
    subject: &Subject,
    file: &[u8],
    why: Unwritable,
    fault: &RunFault,
) -> Result<String, AllocError>
    ensures is { IfOk result (λ text. ExplainsFault subject.now file.now why fault.now (string_bytes text)) }
    ensures safe { IfOk result (λ text. IsLineOrNone (string_bytes text)) }
{
    match fault {
        RunFault::Read(refusal) => explain_script(alloc, file, refusal),
        RunFault::Acts(refusal) => explain_acts(alloc, file, refusal),
        RunFault::File(unread) => explain_unread(alloc, subject, *unread),
        RunFault::Output => explain_output(alloc, why),
        RunFault::Absent { decoded } => line_of(alloc, why_absent(*decoded)),
        RunFault::TooMany(reached) => why_too_many(alloc, *reached),
        RunFault::Shortening(fault) => line_of(alloc, why_not_shorter(*fault)),
        RunFault::Core(_) | RunFault::Open | RunFault::Memory => {
            line_of(alloc, b"memory was refused")
        }
    }
}

/// What is said of a schedule that was shortened by as many replays as may be.
const EARLY: &[u8] = b"all replays of --tries were made, and more can perhaps be left out";

/// The line that explains how a task ended that is about this, on the bytes of its file: the place of the fault or of
/// the first act that is refused, what stands there, and what is wanted; why the output can't be written, which is `why`;
/// what a replay left undone; or that more can perhaps be left out of a schedule. Empty where all is well. The error is
/// want of memory.
pub fn explain(
    alloc: Global,
    subject: &Subject,
    file: &[u8],
    why: Unwritable,
    done: &Result<Done, RunFault>,
) -> Result<String, AllocError>
    ensures is { IfOk result (λ text. Explains subject.now file.now why done.now (string_bytes text)) }
    ensures safe { IfOk result (λ text. IsLineOrNone (string_bytes text)) }
    ensures plain { IsPlain done.now → IsOk result }
{
    match (done, subject) {
        (Err(fault), _) => explain_fault(alloc, subject, file, why, fault),
        (Ok(Done::Well), _) => Ok(String::new(alloc)),
        (Ok(Done::Replayed(made)), _) => explain_half_run(alloc, made),
        (Ok(Done::Badly), Subject::Number(number)) => explain_no_key(alloc, *number),
        (Ok(Done::Badly), _) => explain_check(alloc, file),
        (Ok(Done::Early), _) => line_of(alloc, EARLY),
    }
}
