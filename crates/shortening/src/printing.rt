//! Replays and their text, and words in it.
ghost use Rattle.std.specs.Prelude.{◌≡◌, ◌++◌, false, codes, IfOk, IfErr, MatchBool};
ghost use Rattle.traces.specs.Lawful.{IsLawful};
ghost use Rattle.traceviews.specs.Lines.{trace_lines};
ghost use Rattle.traceviews.specs.Styles.{lines_words};
ghost use Rattle.shortening.specs.Replays.{AreScriptsOf, IsPrint, IsPrinted, IsReplay, Shows, Lacks};

use crate::acts::acts_of;
use crate::copies::copy_scripts;
use crate::fault::Unshortened;
use crate::words::stands_in;
use coresteps::run;
use keybits::Shape;
use seqpool::write_acts;
use std::alloc::Global;
use traces::{Script, Trace, write_trace};
use traceviews::turns_words;

/// The trace of scripts over a schedule.
fn trace_of(
    alloc: Global,
    shape: &Shape,
    scripts: &[Script],
    schedule: &[u32],
) -> Result<Trace, Unshortened>
    requires { AreScriptsOf shape.now scripts.now }
    ensures ok { IfOk result (λ trace. IsLawful shape.now scripts.now schedule.now trace) }
    ensures err { IfErr result (λ fault. fault ≡ Unshortened.Memory) }
{
    let scripts = copy_scripts(alloc, scripts)?;
    let trace = run(alloc, *shape, scripts, schedule)?;
    Ok(trace)
}

/// The text of a trace, and behind it that of its acts, with a line's end before both.
fn print_plain(alloc: Global, shape: &Shape, trace: &Trace) -> Result<Vec<u8>, Unshortened>
    ensures ok { IfOk result (λ text. IsPrinted shape.now trace.now text.items) }
    ensures err { IfErr result (λ fault. fault ≡ Unshortened.Memory) }
{
    let acts = acts_of(alloc, trace.as_slice())?;
    let mut text = Vec::from_slice(alloc, b"\n")?;
    write_trace(trace, &mut text)?;
    write_acts(alloc, shape, acts.as_slice(), &mut text)?;
    Ok(text)
}

/// The decoded lines of a trace, with a line's end before them.
fn print_decoded(alloc: Global, trace: &Trace) -> Result<Vec<u8>, Unshortened>
    ensures ok { IfOk result (λ text. text.items ≡ codes "\n" ++ lines_words false false (trace_lines trace.now)) }
    ensures err { IfErr result (λ fault. fault ≡ Unshortened.Memory) }
{
    let lines = turns_words(alloc, trace.as_slice())?;
    let mut text = Vec::from_slice(alloc, b"\n")?;
    text.extend_from_slice(lines.as_slice())?;
    Ok(text)
}

/// The text of a trace, decoded or not.
fn print(alloc: Global, shape: &Shape, trace: &Trace, decoded: bool) -> Result<Vec<u8>, Unshortened>
    ensures ok { IfOk result (λ text. IsPrint shape.now decoded trace.now text.items) }
    ensures err { IfErr result (λ fault. fault ≡ Unshortened.Memory) }
{
    if decoded {
        print_decoded(alloc, trace)
    } else {
        print_plain(alloc, shape, trace)
    }
}

/// The text of a replay, decoded or not.
fn replay(
    alloc: Global,
    shape: &Shape,
    scripts: &[Script],
    schedule: &[u32],
    decoded: bool,
) -> Result<Vec<u8>, Unshortened>
    requires { AreScriptsOf shape.now scripts.now }
    ensures ok { IfOk result (λ text. IsReplay shape.now scripts.now decoded schedule.now text.items) }
    ensures err { IfErr result (λ fault. fault ≡ Unshortened.Memory) }
{
    let trace = trace_of(alloc, shape, scripts, schedule)?;
    print(alloc, shape, &trace, decoded)
}

/// Whether a word stands in the text of a replay, decoded or not.
pub(crate) fn is_shown(
    alloc: Global,
    shape: &Shape,
    scripts: &[Script],
    schedule: &[u32],
    word: &str,
    decoded: bool,
) -> Result<bool, Unshortened>
    requires { AreScriptsOf shape.now scripts.now }
    ensures ok { IfOk result (λ shown. MatchBool shown (Shows shape.now scripts.now decoded word.now schedule.now)
        (Lacks shape.now scripts.now decoded word.now schedule.now)) }
    ensures err { IfErr result (λ fault. fault ≡ Unshortened.Memory) }
{
    let text = replay(alloc, shape, scripts, schedule, decoded)?;
    Ok(stands_in(word.as_bytes(), text.as_slice()))
}
