//! The lines that are said of workers and of a closed pool.
ghost use Rattle.std.specs.Prelude.{◌≡◌, ◌++◌, true, IfOk, IfErr, OnOk, OnErr, flat_map, string_bytes};
ghost use Rattle.traces.specs.Text.{reply_line};
ghost use Rattle.poolprogram.specs.Runs.{census_text, done_text, AllReported, IsReportFault};

use crate::run_fault::RunFault;
use scripts::ScriptRefusal;
use shardpool::Census;
use std::alloc::{AllocError, Global};
use traces::{Reply, write_reply_line};
use workers::Done;

/// The text of what all workers replied. The errors: `Read` with `Memory` where a worker's report was refused, and
/// `Memory` where memory was refused for the text.
pub(crate) fn replies_text(alloc: Global, dones: &[Done]) -> Result<Vec<u8>, RunFault>
    ensures ok { IfOk result (λ text. AllReported dones.now × (text.items ≡ flat_map done_text dones.now)) }
    ensures err { IfErr result (λ fault. IsReportFault fault) }
{
    if !all_reported(dones) {
        return Err(RunFault::Read(ScriptRefusal::out_of_memory()));
    }
    let mut text = Vec::new(alloc);
    for done in dones {
        write_done(done, &mut text)?;
    }
    Ok(text)
}

/// Whether no worker's report was refused.
fn all_reported(dones: &[Done]) -> bool
    ensures { result ≡ true → AllReported dones.now }
{
    for done in dones {
        if done.report.is_err() {
            return false;
        }
    }
    true
}

/// Appends a line for each reply of a worker.
fn write_done(done: &Done, text: &mut Vec<u8>) -> Result<(), AllocError>
    ensures { OnOk result (text.new.items ≡ text.old.items ++ done_text done.now) }
{
    match &done.report {
        Ok(report) => write_replies(done.lane.number(), report.replies.as_slice(), text),
        Err(_) => Ok(()),
    }
}

/// Appends a line for each reply of the worker, or the lane, of this number.
pub(crate) fn write_replies(
    number: u32,
    replies: &[Reply],
    text: &mut Vec<u8>,
) -> Result<(), AllocError>
    ensures { OnOk result (text.new.items ≡ text.old.items ++ flat_map (reply_line number) replies.now) }
{
    for reply in replies {
        write_reply_line(number, reply, text)?;
    }
    Ok(())
}

/// The line of a census.
pub(crate) fn census_line(alloc: Global, census: &Census) -> Result<String, AllocError>
    ensures { IfOk result (λ line. string_bytes line ≡ census_text census.now) }
{
    let Census {
        free,
        unopened,
        filling,
        present,
        marked,
        retired,
    } = *census;
    format!(in alloc;
        "census free {free} unopened {unopened} filling {filling} present {present} marked {marked} retired {retired}\n"
    )
}
