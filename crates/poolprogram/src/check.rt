//! What a check says of the acts that a text stands for.
ghost use Rattle.std.specs.Prelude.{◌≡◌, ◌≢◌, ◌↔◌, true, false, IfOk, IfErr, IsErrOf, string_bytes};
ghost use Rattle.poolprogram.specs.Checks.{summary_text, illegal_text, IsVerdict, WritesVerdict, RefusesActs};
ghost use Rattle.seqpool.specs.ActsText.{StandsFor};

use crate::run_fault::RunFault;
use keybits::Shape;
use seqpool::{Act, ActsRefusal, ApplyFault, CheckFault, Summary, check, read_acts};
use std::alloc::{AllocError, Global};
use std::io::Write;
use streams::{Watched, write_and_flush};

/// What a check says of some acts.
#[derive(Drop)]
struct Verdict {
    /// Whether they are a legal history.
    legal: bool,
    /// The line that says so.
    line: String,
}

/// The line of a legal history.
fn summary_line(alloc: Global, summary: &Summary) -> Result<String, AllocError>
    ensures { IfOk result (λ line. string_bytes line ≡ summary_text summary.now) }
{
    let Summary {
        acts,
        published,
        reclaimed,
        present,
        marked,
        home,
        retired,
    } = *summary;
    format!(in alloc;
        "legal acts {acts} published {published} reclaimed {reclaimed} present {present} marked {marked} home {home} retired {retired}\n"
    )
}

/// The line of a history whose act at this index is refused.
fn illegal_line(alloc: Global, index: usize, fault: ApplyFault) -> Result<String, AllocError>
    ensures { IfOk result (λ line. string_bytes line ≡ illegal_text index fault) }
{
    let number = fault.number();
    let name = fault.name();
    format!(in alloc; "illegal {index} {number} {name}\n")
}

/// The shape and the acts that a text stands for.
fn read_history(alloc: Global, text: &[u8]) -> Result<(Shape, Vec<Act>), RunFault>
    ensures ok { IfOk result (λ found. StandsFor text.now found.0 found.1.items) }
    ensures err { IfErr result (RefusesActs text.now) }
{
    read_acts(alloc, text).map_err(RunFault::Acts)
}

/// What is said of the acts that a text stands for.
fn judge(alloc: Global, acts: &[u8]) -> Result<Verdict, RunFault>
    ensures ok { IfOk result (λ verdict. IsVerdict acts.now verdict.legal (string_bytes verdict.line)) }
    ensures err { IfErr result (RefusesActs acts.now) }
{
    let (shape, acts) = read_history(alloc, acts)?;
    match check(alloc, shape, acts.as_slice()) {
        Ok(summary) => {
            let line = summary_line(alloc, &summary)?;
            Ok(Verdict { legal: true, line })
        }
        Err(CheckFault::Illegal { index, fault }) => {
            let line = illegal_line(alloc, index, fault)?;
            Ok(Verdict { legal: false, line })
        }
        Err(CheckFault::Memory) => Err(RunFault::Acts(ActsRefusal::out_of_memory())),
    }
}

/// Checks the acts that a text stands for, and writes one line: the summary of a legal history, and
/// then the answer is true; or which act is the first that is refused, and why, and then it is false.
/// The errors: `Acts` where the text stands for no acts or memory was refused, and `Memory` where it
/// was refused for the line, come before the first byte; `Output` comes exactly where `out` failed,
/// and then it isn't said how much went out.
pub fn check_text<W: Write>(
    alloc: Global,
    acts: &[u8],
    out: &mut Watched<W>,
) -> Result<bool, RunFault>
    requires { out.old.failed ≡ false }
    ensures ok { IfOk result (λ legal. WritesVerdict acts.now legal
        (W.contents out.old.inner) (W.contents out.new.inner)) }
    ensures output { IsErrOf result RunFault.Output ↔ (out.new.failed ≡ true) }
    ensures refused { IfErr result (λ fault. fault ≢ RunFault.Output
        → (out.new ≡ out.old) × RefusesActs acts.now fault) }
{
    let verdict = judge(alloc, acts)?;
    write_and_flush(verdict.line.as_bytes(), out)?;
    Ok(verdict.legal)
}
