//! The summary of a trace.

ghost use Rattle.std.specs.Prelude.{◌≡◌, ◌++◌, IfOk, codes, flat_map};
ghost use Rattle.traceviews.specs.Pages.{Grows};
ghost use Rattle.traceviews.specs.Summaries.{step_names, steps_text, unfinished_text, lane_text, counts_line, state_names, state_count_text, states_text, place_end_text, IsSummary};

use crate::counts::{failed_steps, is_unfinished, longest_call, replies_of, steps_of};
use crate::decoded::{state_name, step_name};
use crate::ends::{ends_in, ends_of};
use crate::found::lanes_of;
use crate::line::{Line, StepName};
use crate::page::Page;
use crate::turns::turn_count;
use keybits::State;
use std::alloc::{AllocError, Global};

/// The names of steps.
static NAMES: [StepName; 9] = [
    StepName::Enter,
    StepName::Leave,
    StepName::Publish,
    StepName::Mark,
    StepName::Claim,
    StepName::Link,
    StepName::Push,
    StepName::Take,
    StepName::Follow,
];

/// The names of steps, in the order of the summary.
fn names() -> &'static [StepName]
    ensures { result.now ≡ step_names }
{
    &NAMES
}

/// Appends how many steps of a name a lane makes.
fn push_step_count(lines: &[Line], lane: u32, name: StepName, out: &mut Page)
    ensures { Grows out.old out.new (steps_text lines.now lane name) }
{
    out.text(" ");
    out.text(step_name(name));
    out.named(" ", steps_of(lines, lane, name) as u64);
}

/// Appends how many steps of each of these names a lane makes.
fn push_step_counts(lines: &[Line], lane: u32, names: &[StepName], out: &mut Page)
    ensures { Grows out.old out.new (flat_map (steps_text lines.now lane) names.now) }
{
    for name in names {
        push_step_count(lines, lane, *name, out);
    }
}

/// Whether a lane is in the midst of a call, in words.
fn unfinished_words(unfinished: bool) -> &'static str
    ensures { result.now ≡ unfinished_text unfinished }
{
    if unfinished { " unfinished" } else { "" }
}

/// Appends the line of a lane.
fn push_lane(lines: &[Line], lane: u32, out: &mut Page)
    ensures { Grows out.old out.new (lane_text lines.now lane) }
{
    out.named("lane ", u64::from(lane));
    out.named(" replies ", replies_of(lines, lane) as u64);
    out.named(" failed ", failed_steps(lines, lane) as u64);
    out.named(" longest call ", longest_call(lines, lane) as u64);
    out.text(unfinished_words(is_unfinished(lines, lane)));
    push_step_counts(lines, lane, names(), out);
    out.text("\n");
}

/// Appends a line for each lane.
fn push_lanes(lines: &[Line], lanes: &[u32], out: &mut Page)
    ensures { Grows out.old out.new (flat_map (lane_text lines.now) lanes.now) }
{
    for lane in lanes {
        push_lane(lines, *lane, out);
    }
}

/// Appends the line of a place: what it is at the end.
fn push_place(place: u32, word: u64, out: &mut Page)
    ensures { Grows out.old out.new (place_end_text (place, word)) }
{
    out.text("place ");
    out.place(place);
    out.text(" ");
    out.life(word);
    out.text("\n");
}

/// Appends a line for each place: what it is at the end.
fn push_places(ends: &[(u32, u64)], out: &mut Page)
    ensures { Grows out.old out.new (flat_map place_end_text ends.now) }
{
    for (place, word) in ends {
        push_place(*place, *word, out);
    }
}

/// The states of places.
static STATES: [State; 4] = [State::Idle, State::Present, State::Marked, State::Retired];

/// The states of places, in the order of the summary.
fn states() -> &'static [State]
    ensures { result.now ≡ state_names }
{
    &STATES
}

/// Appends how many places are in a state at the end.
fn push_state_count(ends: &[(u32, u64)], state: State, out: &mut Page)
    ensures { Grows out.old out.new (state_count_text ends.now state) }
{
    out.text(" ");
    out.text(state_name(state));
    out.named(" ", ends_in(ends, state) as u64);
}

/// Appends how many places are in each of these states at the end.
fn push_state_counts(ends: &[(u32, u64)], states: &[State], out: &mut Page)
    ensures { Grows out.old out.new (flat_map (state_count_text ends.now) states.now) }
{
    for state in states {
        push_state_count(ends, *state, out);
    }
}

/// Appends how many places are in each state at the end.
fn push_states(ends: &[(u32, u64)], out: &mut Page)
    ensures { Grows out.old out.new (states_text ends.now) }
{
    out.text("places");
    push_state_counts(ends, states(), out);
    out.text("\n");
}

/// Appends how many turns and lines there are, in a line.
pub(crate) fn push_counts(lines: &[Line], out: &mut Page)
    ensures { Grows out.old out.new (counts_line lines.now) }
{
    out.named("turns ", turn_count(lines) as u64);
    out.named(" lines ", lines.len() as u64);
    out.text("\n");
}

/// The summary of a trace: how many turns and lines; a line for each lane, with its replies, its failed steps, the
/// steps of its longest call, whether it is in the midst of a call, and its steps by name; how many places are in which
/// state at the end, and a line for each.
///
/// # Errors
///
/// `AllocError` where memory is refused.
pub fn summary_text(alloc: Global, lines: &[Line]) -> Result<Vec<u8>, AllocError>
    ensures { IfOk result (λ text. IsSummary lines.now text.items) }
{
    let lanes = lanes_of(alloc, lines)?;
    let ends = ends_of(alloc, lines)?;
    let mut out = Page::new(alloc);
    push_counts(lines, &mut out);
    push_lanes(lines, lanes.as_slice(), &mut out);
    push_states(ends.as_slice(), &mut out);
    push_places(ends.as_slice(), &mut out);
    out.finish()
}
