//! The decoded lines of a trace, which are written as they are read.
ghost use Rattle.std.specs.Prelude.{◌≡◌, ◌≢◌, ◌↔◌, ◌⊎◌, ℕ, List, true, false, OnOk, IfErr, IsErrOf};
ghost use Rattle.std.specs.Io.KnownBytes.{Appends};
ghost use Rattle.traceviews.specs.Lines.{AreLines, IsFirstWrong};
ghost use Rattle.traceviews.specs.Styles.{lines_words};
ghost use Rattle.traceviews.specs.declared.line.Line.{Line};
ghost use Rattle.commandline.specs.declared.views.View.TheVariants as views;
ghost use Rattle.poolview.specs.Shows.{ShowsText, WritesFront, RefusesLine, RefusesText, Leaves};

use crate::fault::Fault;
use commandline::Viewing;
use std::alloc::Global;
use std::io::Write;
use streams::{Watched, write_and_flush};
use traceviews::{LINES_HELD, ReadFault, WordStyle, check_lines, read_lines, words_text};

/// Refuses a text that is none of a trace. The errors: `Line` with its first line that is none, and `Memory`.
fn check_text(alloc: Global, bytes: &[u8]) -> Result<(), Fault>
    ensures ok { OnOk result ((lines : List Line) × AreLines lines bytes.now) }
    ensures err { IfErr result (RefusesLine bytes.now) }
{
    match check_lines(alloc, bytes) {
        Ok(()) => Ok(()),
        Err(ReadFault::Memory) => Err(Fault::Memory),
        Err(ReadFault::Line { number, wanted }) => Err(Fault::Line { number, wanted }),
    }
}

/// Writes the decoded lines of a trace, by its text, where that is one: the whole text is read before the first byte, and
/// as it is written once more, `LINES_HELD` lines at a time. The errors: `Line` with its first line that is none, before
/// the first byte; `Memory`, before which those of the first lines may have been written; and `Output` exactly where `out`
/// failed.
#[tactic(auto, using(crate::proofs::WordLemmas::none_written, crate::proofs::WordLemmas::more_written, crate::proofs::WordLemmas::all_written, crate::proofs::WordLemmas::front_refused, crate::proofs::WordLemmas::line_not_output, crate::proofs::WordLemmas::rest_is_lines))]
fn write_checked<O: Write>(
    alloc: Global,
    keys: bool,
    bytes: &[u8],
    out: &mut Watched<O>,
) -> Result<(), Fault>
    requires { out.old.failed ≡ false }
    ensures ok { OnOk result ((lines : List Line) × AreLines lines bytes.now
        × Appends (O.contents out.old.inner) (O.contents out.new.inner) (lines_words keys false lines)) }
    ensures output { IsErrOf result Fault.Output ↔ (out.new.failed ≡ true) }
    ensures refused { IfErr result (λ fault. fault ≢ Fault.Output
        → RefusesLine bytes.now fault
        × ((out.new ≡ out.old) ⊎ ((fault ≡ Fault.Memory) × WritesFront O.contents keys bytes.now out.old out.new))) }
{
    check_text(alloc, bytes)?;
    let mut rest = bytes;
    while !rest.is_empty() {
        let (lines, after) = match read_lines(alloc, rest, LINES_HELD) {
            Ok(read) => read,
            Err(ReadFault::Memory) => return Err(Fault::Memory),
            // The text is lines, and so is the rest of it.
            Err(ReadFault::Line { .. }) => unreachable!(),
        };
        let style = WordStyle {
            keys,
            numbers: false,
        };
        let text = words_text(alloc, style, lines.as_slice())?;
        write_and_flush(text.as_slice(), out)?;
        rest = after;
    }
    Ok(())
}

/// Shows the decoded lines of a trace, by its text, as `write_checked` writes them.
pub(crate) fn show_words<O: Write>(
    alloc: Global,
    viewing: &Viewing,
    keys: bool,
    bytes: &[u8],
    out: &mut Watched<O>,
) -> Result<(), Fault>
    requires view { viewing.now.view ≡ views.Words keys false }
    requires watched { out.old.failed ≡ false }
    ensures ok { OnOk result ((text : List ℕ) × ShowsText viewing.now.file.now viewing.now.view bytes.now text
        × Appends (O.contents out.old.inner) (O.contents out.new.inner) text) }
    ensures output { IsErrOf result Fault.Output ↔ (out.new.failed ≡ true) }
    ensures refused { IfErr result (λ fault. fault ≢ Fault.Output
        → Leaves O.contents viewing.now.view bytes.now fault out.old out.new × RefusesText viewing.now.view bytes.now fault) }
{
    write_checked(alloc, keys, bytes, out)
}
