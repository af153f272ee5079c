//! The program over any input and writers.
ghost use Rattle.std.specs.Prelude.{◌≡◌, ◌≢◌, ◌↔◌, ℕ, List, true, false, OnOk, IfErr, IsErrOf};
ghost use Rattle.std.specs.Io.KnownBytes.{Appends};
ghost use Rattle.poolview.specs.Shows.{ShowsText, Leaves, RefusesText};
ghost use Rattle.poolview.specs.Endings.{is_silent, file_of, EndsFault, EndsBytes, EndsView, EndsAsked, EndsCall, EndsProgram};
ghost use Rattle.commandline.specs.Readings.{text_of};

use crate::explanation::write_refusal;
use crate::fault::Fault;
use crate::showing::text_shown;
use crate::streaming::show_words;
use commandline::{
    Call, TaskFault, View, ViewRequest, Viewing, end_by_words, hint, is_due, is_hinted, is_wanted,
    read_args, read_viewing,
};
use std::alloc::Global;
use std::env::{Args, Env};
use std::fs::Files;
use std::io;
use std::io::{Read, Write};
use streams::{Unwritable, Watched, read_path, write_and_flush};

/// Shows what is asked for of a trace, by its bytes, as one text. All errors but `Output` come before the first byte;
/// that comes exactly where `out` failed.
fn show_whole<O: Write>(
    alloc: Global,
    viewing: &Viewing,
    bytes: &[u8],
    out: &mut Watched<O>,
) -> Result<(), Fault>
    requires { out.old.failed ≡ false }
    ensures ok { OnOk result ((text : List ℕ) × ShowsText viewing.now.file.now viewing.now.view bytes.now text
        × Appends (O.contents out.old.inner) (O.contents out.new.inner) text) }
    ensures output { IsErrOf result Fault.Output ↔ (out.new.failed ≡ true) }
    ensures refused { IfErr result (λ fault. fault ≢ Fault.Output
        → Leaves O.contents viewing.now.view bytes.now fault out.old out.new × RefusesText viewing.now.view bytes.now fault) }
{
    let text = text_shown(alloc, viewing, bytes)?;
    write_and_flush(text.as_slice(), out)?;
    Ok(())
}

/// Shows what is asked for of a trace, by its bytes: words some lines at a time, and all else as one text. `Output` comes
/// exactly where `out` failed; before any other error nothing is written, but for words where memory is refused.
fn show<O: Write>(
    alloc: Global,
    viewing: &Viewing,
    bytes: &[u8],
    out: &mut Watched<O>,
) -> Result<(), Fault>
    requires { out.old.failed ≡ false }
    ensures ok { OnOk result ((text : List ℕ) × ShowsText viewing.now.file.now viewing.now.view bytes.now text
        × Appends (O.contents out.old.inner) (O.contents out.new.inner) text) }
    ensures output { IsErrOf result Fault.Output ↔ (out.new.failed ≡ true) }
    ensures refused { IfErr result (λ fault. fault ≢ Fault.Output
        → Leaves O.contents viewing.now.view bytes.now fault out.old out.new × RefusesText viewing.now.view bytes.now fault) }
{
    match viewing.view {
        View::Words {
            keys,
            numbers: false,
        } => show_words(alloc, viewing, keys, bytes, out),
        _ => show_whole(alloc, viewing, bytes, out),
    }
}

/// The status that a shell tells of a program that a closed pipe ended.
const CLOSED: u8 = 141;

/// Whether a fault is that nobody reads the output any more, where that failed for this reason.
fn is_silent(fault: Fault, why: Unwritable) -> bool
    ensures { result ≡ is_silent fault why }
{
    match (fault, why) {
        (Fault::Output, Unwritable::Closed) => true,
        _ => false,
    }
}

/// Ends the program by a fault: its line is written on `errors`, unless nobody reads the output any more.
fn end_by_fault<O, E: Write>(
    fault: Fault,
    explain: bool,
    path: &str,
    bytes: &[u8],
    out: &Watched<O>,
    errors: &mut Watched<E>,
) -> u8
    ensures { EndsFault E.contents explain path.now bytes.now fault out.now.why (is_silent fault out.now.why) errors.old errors.new result }
{
    let why = out.why();
    if is_silent(fault, why) {
        return CLOSED;
    }
    write_refusal(fault, why, explain, path, bytes, errors);
    1
}

/// Shows what is asked for of a trace, by its bytes, or writes why it can't on `errors`. Answers the exit status.
fn end_by_bytes<O: Write, E: Write>(
    alloc: Global,
    viewing: &Viewing,
    explain: bool,
    bytes: &[u8],
    out: &mut Watched<O>,
    errors: &mut Watched<E>,
) -> u8
    requires { out.old.failed ≡ false }
    ensures { EndsBytes O.contents E.contents explain viewing.now bytes.now out.old out.new errors.old errors.new result }
{
    match show(alloc, viewing, bytes, out) {
        Ok(()) => 0,
        Err(fault) => end_by_fault(fault, explain, viewing.file, bytes, out, errors),
    }
}

/// Shows what is asked for of the trace in a file, or what is left of the input where the file is named `-`; or writes
/// why it can't on `errors`. Answers the exit status.
fn end_by_view<R: Files + AllocGlobal, I: Read, O: Write, E: Write>(
    rt: &R,
    viewing: &Viewing,
    explain: bool,
    input: &mut I,
    out: &mut Watched<O>,
    errors: &mut Watched<E>,
) -> u8
    requires { out.old.failed ≡ false }
    ensures { EndsView O.contents E.contents explain (I.remaining input.old) viewing.now out.old out.new errors.old errors.new result }
{
    match read_path(rt, input, viewing.file) {
        Ok(bytes) => end_by_bytes(rt.alloc(), viewing, explain, bytes.as_slice(), out, errors),
        Err(unread) => {
            write_refusal(
                Fault::from(unread),
                out.why(),
                explain,
                viewing.file,
                &[],
                errors,
            );
            1
        }
    }
}

/// Shows what is asked for, with mistakes explained or not; or writes on `errors` why nothing is.
fn end_by_viewing<R: Files + AllocGlobal, I: Read, O: Write, E: Write>(
    rt: &R,
    viewing: Result<Viewing<'_>, TaskFault>,
    explain: bool,
    input: &mut I,
    out: &mut Watched<O>,
    errors: &mut Watched<E>,
) -> u8
    requires { out.old.failed ≡ false }
    ensures { EndsAsked O.contents E.contents explain (I.remaining input.old) viewing.entry out.old out.new errors.old errors.new result }
{
    match viewing {
        Ok(viewing) => end_by_view(rt, &viewing, explain, input, out, errors),
        Err(fault) => end_by_words(rt.alloc(), &fault, explain, out, errors),
    }
}

/// The file that is to be shown, where one is.
fn file_of<'a>(viewing: &Result<Viewing<'a>, TaskFault>) -> Option<&'a str>
    ensures { text_of result ≡ file_of viewing.now }
{
    match viewing {
        Ok(viewing) => Some(viewing.file),
        Err(_) => None,
    }
}

/// Does what the program was called for, and gives a hint behind a mistake.
fn end_by_call<R: Files + AllocGlobal, I: Read, O: Write, E: Write>(
    rt: &R,
    call: &Call,
    hints: bool,
    input: &mut I,
    out: &mut Watched<O>,
    errors: &mut Watched<E>,
) -> u8
    requires { out.old.failed ≡ false }
    ensures { EndsCall O.contents E.contents call.now hints (I.remaining input.old) out.old out.new errors.old errors.new result }
{
    let ViewRequest { viewing, explain } = read_viewing(rt.alloc(), call.words.as_slice());
    let explain = is_wanted(call.wish, explain, hints);
    let file = file_of(&viewing);
    let due = is_due(&viewing);
    let status = end_by_viewing(rt, viewing, explain, input, out, errors);
    let hinted = is_hinted(hints, due, explain, status);
    hint(hinted, "poolview", call.command(), file, errors);
    status
}

/// Does what the words ask for, which are those that `env::args` answers: shows a trace on `out`, whose file is read,
/// or `input` where it is named `-`; or writes on `errors` why it can't. With `hints`, that is where someone reads
/// `errors` at a terminal, mistakes are explained unless the words say otherwise, and behind them stands where to read
/// on. Answers the exit status: 0 where it is done and after help, 1 after a fault, 2 after a mistake in the words, and
/// 141 where nobody reads `out` any more.
pub(crate) fn view_trace<R: Files + AllocGlobal, I: Read, O: Write, E: Write>(
    rt: &R,
    args: io::Result<Args>,
    hints: bool,
    input: &mut I,
    out: &mut Watched<O>,
    errors: &mut Watched<E>,
) -> u8
    requires { out.old.failed ≡ false }
    ensures { EndsProgram O.contents E.contents args hints (I.remaining input.old) out.old out.new errors.old errors.new result }
{
    match read_args(rt.alloc(), args) {
        Ok(call) => end_by_call(rt, &call, hints, input, out, errors),
        Err(fault) => end_by_words(rt.alloc(), &fault, hints, out, errors),
    }
}
