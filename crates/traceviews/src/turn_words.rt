//! The decoded lines of turns, as those of their text are decoded.

ghost use Rattle.std.specs.Prelude.{◌≡◌, IfOk, false, flat_map, map};
ghost use Rattle.traceviews.specs.Lines.{name_of, named, reply_entry, step_entries, trace_lines, turn_lines};
ghost use Rattle.traceviews.specs.Pages.{Grows};
ghost use Rattle.traceviews.specs.Styles.{lines_words, styled_words};

use crate::line::{NamedStep, StepName};
use crate::page::Page;
use crate::words::{WordStyle, push_reply, push_step};
use keybits::{Kind, Step};
use std::alloc::{AllocError, Global};
use traces::{Reply, Turn};

/// The style of lines as they are decoded where nothing else is asked for.
const PLAIN: WordStyle = WordStyle {
    keys: false,
    numbers: false,
};

/// The name of a kind of step.
fn name_of(kind: Kind) -> StepName
    ensures { result ≡ name_of kind }
{
    match kind {
        Kind::Enter => StepName::Enter,
        Kind::Leave => StepName::Leave,
        Kind::Publish { .. } => StepName::Publish,
        Kind::Mark => StepName::Mark,
        Kind::Claim { .. } => StepName::Claim,
        Kind::Link { .. } => StepName::Link,
        Kind::Push { .. } => StepName::Push,
        Kind::Take => StepName::Take,
        Kind::Follow => StepName::Follow,
    }
}

/// A step by its name.
fn named(step: &Step) -> NamedStep
    ensures { result ≡ named step.now }
{
    NamedStep {
        name: name_of(step.kind),
        word: step.word,
        before: step.before,
        after: step.after,
    }
}

/// Appends the lines of some replies of a lane.
fn push_replies(lane: u32, replies: &[Reply], out: &mut Page)
    ensures { Grows out.old out.new (flat_map (styled_words false) (map (reply_entry lane) replies.now)) }
{
    for reply in replies {
        push_reply(PLAIN, lane, reply, out);
    }
}

/// Appends the line of a lane's step, where there is one.
#[tactic(auto, using(crate::proofs::PageLemmas::grows_nothing))]
fn push_step_if(lane: u32, step: &Option<Step>, out: &mut Page)
    ensures { Grows out.old out.new (flat_map (styled_words false) (step_entries lane step.now)) }
{
    match step {
        Some(step) => push_step(lane, &named(step), out),
        None => {}
    }
}

/// Appends the lines of a turn.
fn push_turn(turn: &Turn, out: &mut Page)
    ensures { Grows out.old out.new (flat_map (styled_words false) (turn_lines turn.now)) }
{
    push_replies(turn.lane, turn.before.as_slice(), out);
    push_step_if(turn.lane, &turn.step, out);
    push_replies(turn.lane, turn.after.as_slice(), out);
}

/// Appends the lines of some turns.
fn push_turns(turns: &[Turn], out: &mut Page)
    ensures { Grows out.old out.new (flat_map (styled_words false) (trace_lines turns.now)) }
{
    for turn in turns {
        push_turn(turn, out);
    }
}

/// The lines of some turns with each word decoded, as `words_text` decodes those of their text, without numbers and with
/// keys as they are.
///
/// # Errors
///
/// `AllocError` where memory is refused.
pub fn turns_words(alloc: Global, turns: &[Turn]) -> Result<Vec<u8>, AllocError>
    ensures { IfOk result (λ text. text.items ≡ lines_words false false (trace_lines turns.now)) }
{
    let mut out = Page::new(alloc);
    push_turns(turns, &mut out);
    out.finish()
}
