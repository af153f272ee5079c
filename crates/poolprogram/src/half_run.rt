//! What a replay left undone.
ghost use Rattle.std.specs.Prelude.{◌≡◌, IfOk, length, map, string_bytes};
ghost use Rattle.explanations.specs.Said.{IsLineOrNone};
ghost use Rattle.poolprogram.specs.HalfRuns.{half_line};

use crate::replayed::Replayed;
use coresteps::CoreFault;
use explanations::explain_half;
use std::alloc::{AllocError, Global};
use traces::Script;

/// How many commands each script has. Memory (25) where it was refused.
pub(crate) fn counts_of(alloc: Global, scripts: &[Script]) -> Result<Vec<usize>, CoreFault>
    ensures { IfOk result (λ counts. counts.items ≡ map length scripts.now) }
{
    let mut counts = Vec::new(alloc);
    for script in scripts {
        counts.push(script.as_slice().len())?;
    }
    Ok(counts)
}

/// The line that tells what a replay left undone: entries of its schedule that are no lane's, and scripts that aren't at
/// their end. Empty where there is nothing. The error is want of memory.
pub(crate) fn explain_half_run(alloc: Global, made: &Replayed) -> Result<String, AllocError>
    ensures is { IfOk result (λ text. string_bytes text ≡ half_line made.now) }
    ensures safe { IfOk result (λ text. IsLineOrNone (string_bytes text)) }
{
    explain_half(
        alloc,
        made.lanes,
        made.schedule.as_slice(),
        made.counts.as_slice(),
        made.trace.as_slice(),
    )
}
