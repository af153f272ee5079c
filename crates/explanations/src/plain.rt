//! Why a file wasn't read, why the output can't be written, and why a number is no key's, in words.
ghost use Rattle.std.specs.Prelude.{◌≡◌, IfOk, string_bytes};
ghost use Rattle.streams.specs.Reasons.{output_told};
ghost use Rattle.streams.specs.Shown.{IsSafeLine};
ghost use Rattle.explanations.specs.Plain.{file_told, file_line, output_line, no_key_line};

use crate::found::cut_of;
use std::alloc::{AllocError, Global};
use streams::{Unreadable, Unwritable, line_of};

/// Why the file at this path wasn't read.
fn file_told(alloc: Global, path: &str, why: Unreadable) -> Result<String, AllocError>
    ensures { IfOk result (λ text. string_bytes text ≡ file_told path.now why) }
{
    let path = cut_of(alloc, path.as_bytes())?;
    let reason = why.text();
    format!(in alloc; "\"{path}\" can't be opened, or not read to its end: {reason}")
}

/// The line that explains why the file at this path wasn't read, by the system's reason. The error is want of memory.
pub fn explain_file(alloc: Global, path: &str, why: Unreadable) -> Result<String, AllocError>
    ensures is { IfOk result (λ text. string_bytes text ≡ file_line path.now why) }
    ensures safe { IfOk result (λ text. IsSafeLine (string_bytes text)) }
{
    let told = file_told(alloc, path, why)?;
    line_of(alloc, told.as_bytes())
}

/// Why standard output can't be written.
fn output_told(alloc: Global, why: Unwritable) -> Result<String, AllocError>
    ensures { IfOk result (λ text. string_bytes text ≡ output_told why) }
{
    let reason = why.text();
    format!(in alloc; "standard output can't be written: {reason}")
}

/// The line that explains why standard output can't be written, by the system's reason. The error is want of memory.
pub fn explain_output(alloc: Global, why: Unwritable) -> Result<String, AllocError>
    ensures is { IfOk result (λ text. string_bytes text ≡ output_line why) }
    ensures safe { IfOk result (λ text. IsSafeLine (string_bytes text)) }
{
    let told = output_told(alloc, why)?;
    line_of(alloc, told.as_bytes())
}

/// The line that explains why a number is no key's. The error is want of memory.
pub fn explain_no_key(alloc: Global, number: u64) -> Result<String, AllocError>
    ensures is { IfOk result (λ text. string_bytes text ≡ no_key_line number) }
    ensures safe { IfOk result (λ text. IsSafeLine (string_bytes text)) }
{
    let text = format!(in alloc;
        "{number} is no key: its generation, which is its bits 24 to 55, is 0"
    )?;
    line_of(alloc, text.as_bytes())
}
