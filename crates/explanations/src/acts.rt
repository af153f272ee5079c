//! Why a text of acts is refused, or an act is illegal, in words.
ghost use Rattle.std.specs.Prelude.{◌≡◌, ◌++◌, IfOk, codes, string_bytes};
ghost use Rattle.std.specs.Io.BufRead.{ends_with_byte};
ghost use Rattle.scripts.specs.ScriptPlaces.{field_text, faulty_field};
ghost use Rattle.seqpool.specs.ActsText.{StandsFor};
ghost use Rattle.seqpool.specs.Checker.{IsIllegalAt};
ghost use Rattle.streams.specs.Shown.{IsSafeLine};
ghost use Rattle.explanations.specs.Said.{IsLineOrNone};
ghost use Rattle.explanations.specs.Wanted.{shape_wanted};
ghost use Rattle.explanations.specs.ActsTexts.{line_by, line_told, numbered_told, told_at, acts_explanation, illegal_told, ExplainsIllegal, ExplainsCheck};

use crate::acts_fields::{act_line_told, shape_line_told};
use crate::found::cut_of;
use crate::reasons::reason_told;
use crate::wanted::shape_wanted;
use keybits::{Shape, ShapeFault};
use scripts::FieldName;
use seqpool::{Act, ActsFault, ActsPlace, ActsRefusal, ApplyFault, CheckFault, check, read_acts};
use std::alloc::{AllocError, Global};
use streams::{after_line, line_at, line_of};

/// What is wrong with a shape's line that has this fault.
fn shape_told(alloc: Global, fault: ShapeFault) -> Result<String, AllocError>
    ensures { IfOk result (λ text. string_bytes text ≡ codes "field " ++ field_text (faulty_field fault) ++ codes " "
        ++ shape_wanted fault) }
{
    let name = FieldName::with_fault(fault).text();
    let wanted = shape_wanted(fault);
    format!(in alloc; "field {name} {wanted}")
}

/// Whether a line has a carriage return at its end.
fn ends_with_return(line: &[u8]) -> bool
    ensures { result ≡ ends_with_byte 13 line.now }
{
    !line.is_empty() && line[line.len() - 1] == b'\r'
}

/// What is wrong with a line that is none of acts, and has this number.
fn line_by(alloc: Global, number: usize, line: &[u8]) -> Result<String, AllocError>
    ensures { IfOk result (λ text. string_bytes text ≡ line_by (ends_with_byte 13 line.now) number line.now) }
{
    if ends_with_return(line) {
        return String::from_str(
            alloc,
            "the line ends with a carriage return and a line feed; lines end with a line feed alone",
        );
    }
    if number == 1 {
        shape_line_told(alloc, line)
    } else {
        act_line_told(alloc, line)
    }
}

/// What is wrong with this line, which has this number, by the fault of the text.
fn line_told(
    alloc: Global,
    fault: ActsFault,
    number: usize,
    line: &[u8],
) -> Result<String, AllocError>
    ensures { IfOk result (λ text. string_bytes text ≡ line_told fault number line.now) }
{
    match fault {
        ActsFault::ActsLine => line_by(alloc, number, line),
        ActsFault::Shape(fault) => shape_told(alloc, fault),
        ActsFault::Memory => String::from_str(alloc, "memory was refused"),
    }
}

/// The line of this number, and what is wrong with it.
fn numbered_told(
    alloc: Global,
    fault: ActsFault,
    number: usize,
    bytes: &[u8],
) -> Result<String, AllocError>
    ensures { IfOk result (λ text. string_bytes text ≡ numbered_told fault number bytes.now) }
{
    let line = line_at(bytes, number.saturating_sub(1));
    let shown = cut_of(alloc, line)?;
    let why = line_told(alloc, fault, number, line)?;
    format!(in alloc; "line {number}: \"{shown}\": {why}")
}

/// What is wrong with a text, by the place of the fault.
fn told_at(
    alloc: Global,
    fault: ActsFault,
    place: ActsPlace,
    bytes: &[u8],
) -> Result<String, AllocError>
    ensures { IfOk result (λ text. string_bytes text ≡ told_at fault place bytes.now) }
{
    match place {
        ActsPlace::Text => String::from_str(alloc, "memory was refused"),
        ActsPlace::Line(number) => numbered_told(alloc, fault, number, bytes),
    }
}

/// The line that explains why a text of acts is refused: the number of the line, the line itself, which of its fields
/// is wrong, and what is wanted there. The error is want of memory.
pub fn explain_acts(
    alloc: Global,
    bytes: &[u8],
    refusal: &ActsRefusal,
) -> Result<String, AllocError>
    ensures is { IfOk result (λ text. string_bytes text ≡ acts_explanation bytes.now refusal.now) }
    ensures safe { IfOk result (λ text. IsSafeLine (string_bytes text)) }
{
    let told = told_at(alloc, refusal.fault, refusal.place, bytes)?;
    line_of(alloc, told.as_bytes())
}

/// What is told of the act of this index, with this reason.
fn illegal_told(
    alloc: Global,
    bytes: &[u8],
    index: usize,
    reason: &str,
) -> Result<String, AllocError>
    ensures { IfOk result (λ text. string_bytes text ≡ illegal_told bytes.now index reason.now) }
{
    let number = index as u128 + 2;
    let shown = cut_of(alloc, line_at(after_line(bytes), index))?;
    format!(in alloc; "act {index} (line {number}): \"{shown}\": {reason}")
}

/// The line that explains why the act of this index is refused: its number, its line, and the reason.
fn explain_illegal(
    alloc: Global,
    bytes: &[u8],
    shape: Shape,
    acts: &[Act],
    index: usize,
    fault: ApplyFault,
) -> Result<String, AllocError>
    requires stands { StandsFor bytes.now shape acts.now }
    requires illegal { IsIllegalAt shape acts.now index fault }
    ensures is { IfOk result (λ text. ExplainsIllegal bytes.now (string_bytes text)) }
    ensures safe { IfOk result (λ text. IsSafeLine (string_bytes text)) }
{
    let Some(act) = acts.get(index) else {
        unreachable!()
    };
    let history = &acts[..index];
    let reason = reason_told(alloc, shape, history, act, fault)?;
    let told = illegal_told(alloc, bytes, index, reason.as_str())?;
    line_of(alloc, told.as_bytes())
}

/// The line that explains why acts are no legal history: which act is the first that is refused, and why.
/// Empty where they are one, or the text stands for no acts. The error is want of memory.
pub fn explain_check(alloc: Global, bytes: &[u8]) -> Result<String, AllocError>
    ensures is { IfOk result (λ text. ExplainsCheck bytes.now (string_bytes text)) }
    ensures safe { IfOk result (λ text. IsLineOrNone (string_bytes text)) }
{
    match read_acts(alloc, bytes) {
        Ok((shape, acts)) => explain_history(alloc, bytes, shape, acts.as_slice()),
        Err(refusal) => match refusal.fault {
            ActsFault::Memory => Err(AllocError),
            ActsFault::ActsLine | ActsFault::Shape(_) => Ok(String::new(alloc)),
        },
    }
}

/// The same of the acts that a text stands for.
fn explain_history(
    alloc: Global,
    bytes: &[u8],
    shape: Shape,
    acts: &[Act],
) -> Result<String, AllocError>
    requires { StandsFor bytes.now shape acts.now }
    ensures is { IfOk result (λ text. ExplainsCheck bytes.now (string_bytes text)) }
    ensures safe { IfOk result (λ text. IsLineOrNone (string_bytes text)) }
{
    match check(alloc, shape, acts) {
        Ok(_) => Ok(String::new(alloc)),
        Err(CheckFault::Illegal { index, fault }) => {
            explain_illegal(alloc, bytes, shape, acts, index, fault)
        }
        Err(CheckFault::Memory) => Err(AllocError),
    }
}
