//! The fields of a line that are read in words of the fault of a trace.

ghost use Rattle.std.specs.Prelude.{◌≡◌};
ghost use Rattle.seqpool.specs.ReadTexts.{Finds, IsContent};
ghost use Rattle.traceviews.specs.ReadLines.{Reads, step_name_text};

use crate::fault::{LineFault, Wanted};
use crate::line::StepName;
use seqpool::{ActsFault, Bytes, is_word};
use std::alloc::Global;

/// A content: a dash for none, or pairs of hexadecimal digits.
pub(crate) fn read_content(alloc: Global, text: &[u8]) -> Result<Bytes, LineFault>
    ensures { Reads IsContent text.now result }
{
    match seqpool::read_content(alloc, text) {
        Ok(content) => Ok(content),
        Err(ActsFault::Memory) => Err(LineFault::Memory),
        Err(ActsFault::ActsLine | ActsFault::Shape(_)) => Err(LineFault::Lacks(Wanted::Reply)),
    }
}

/// The name of a step.
pub(crate) fn read_name(text: &[u8]) -> Option<StepName>
    ensures { Finds (λ name word. word ≡ step_name_text name) text.now result }
{
    if is_word(text, "ENTER") {
        Some(StepName::Enter)
    } else if is_word(text, "LEAVE") {
        Some(StepName::Leave)
    } else if is_word(text, "PUBLISH") {
        Some(StepName::Publish)
    } else if is_word(text, "MARK") {
        Some(StepName::Mark)
    } else if is_word(text, "CLAIM") {
        Some(StepName::Claim)
    } else if is_word(text, "LINK") {
        Some(StepName::Link)
    } else if is_word(text, "PUSH") {
        Some(StepName::Push)
    } else if is_word(text, "TAKE") {
        Some(StepName::Take)
    } else if is_word(text, "FOLLOW") {
        Some(StepName::Follow)
    } else {
        None
    }
}
