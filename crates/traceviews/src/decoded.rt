//! States and names of steps as text, and which steps failed.

ghost use Rattle.std.specs.Prelude.{◌≡◌};
ghost use Rattle.keybits.specs.Words.{state_in};
ghost use Rattle.traces.specs.Text.{kind_text};
ghost use Rattle.traceviews.specs.Lines.{kind_of};
ghost use Rattle.traceviews.specs.Decoded.{state_text, state_with, is_failed};

use crate::line::{NamedStep, StepName};
use keybits::{Life, State};

/// The state that a lifecycle word says.
pub(crate) fn state_of(word: u64) -> State
    ensures { result ≡ state_with (state_in word) }
{
    Life::of_word(word).state
}

/// The name of a state.
pub(crate) fn state_name(state: State) -> &'static str
    ensures { result.now ≡ state_text state }
{
    match state {
        State::Idle => "IDLE",
        State::Present => "PRESENT",
        State::Retired => "RETIRED",
        State::Marked => "MARKED",
    }
}

/// The name of a step, as its line has it.
pub(crate) fn step_name(name: StepName) -> &'static str
    ensures { result.now ≡ kind_text (kind_of name) }
{
    match name {
        StepName::Enter => "ENTER",
        StepName::Leave => "LEAVE",
        StepName::Publish => "PUBLISH",
        StepName::Mark => "MARK",
        StepName::Claim => "CLAIM",
        StepName::Link => "LINK",
        StepName::Push => "PUSH",
        StepName::Take => "TAKE",
        StepName::Follow => "FOLLOW",
    }
}

/// Whether a step failed: a push or a claim that left the word as it found it.
pub(crate) fn is_failed(step: &NamedStep) -> bool
    ensures { result ≡ is_failed step.now }
{
    match step.name {
        StepName::Push | StepName::Claim => step.before == step.after,
        _ => false,
    }
}
