//! A trace in the trace-event form, which Chrome's viewer and Perfetto open.

ghost use Rattle.std.specs.Prelude.{◌≡◌, ◌++◌, IfOk, flat_map};
ghost use Rattle.traceviews.specs.Events.{lane_event, failed_end, step_title, entry_title, turn_title, slice_event, flow_event, object_of, flow_at, flow_on, flow_of, turn_flow, turn_events, AreEvents};
ghost use Rattle.traceviews.specs.Numbered.{numbered};
ghost use Rattle.traceviews.specs.Pages.{Grows};
ghost use Rattle.traceviews.specs.Tracks.{track_fields};
ghost use Rattle.traceviews.specs.Turns.{turns_of};

use crate::calls::push_calls;
use crate::decoded::{is_failed, state_of, step_name};
use crate::found::lanes_of;
use crate::json::push_turn;
use crate::line::{Entry, Line, NamedStep, StepName};
use crate::page::Page;
use crate::turns::{lane_of, split_step, split_turn};
use keybits::{Life, State, Word};
use std::alloc::{AllocError, Global};

/// Appends the track of a lane, at a turn.
pub(crate) fn push_track(lane: u32, number: usize, out: &mut Page)
    ensures { Grows out.old out.new (track_fields lane number) }
{
    out.named(",\"pid\":1,\"tid\":", u64::from(lane) + 1);
    out.named(",\"ts\":", number as u64);
}

/// Appends the name of a lane's track.
fn push_lane(lane: u32, out: &mut Page)
    ensures { Grows out.old out.new (lane_event lane) }
{
    out.named(
        ",\n{\"ph\":\"M\",\"pid\":1,\"name\":\"thread_name\",\"tid\":",
        u64::from(lane) + 1,
    );
    out.named(",\"args\":{\"name\":\"lane ", u64::from(lane));
    out.text("\"}}");
}

/// Appends the names of the lanes' tracks.
fn push_lanes(lanes: &[u32], out: &mut Page)
    ensures { Grows out.old out.new (flat_map lane_event lanes.now) }
{
    for lane in lanes {
        push_lane(*lane, out);
    }
}

/// The end of the name of a step, which failed or didn't.
fn failed_end(failed: bool) -> &'static str
    ensures { result.now ≡ failed_end failed }
{
    if failed { " failed" } else { "" }
}

/// Appends what a step is called.
fn push_step_title(step: &NamedStep, out: &mut Page)
    ensures { Grows out.old out.new (step_title step.now) }
{
    out.text(step_name(step.name));
    out.text(" ");
    out.aim(step.word);
    out.text(failed_end(is_failed(step)));
}

/// Appends what an entry is called.
fn push_entry_title(entry: &Entry, out: &mut Page)
    ensures { Grows out.old out.new (entry_title entry.now) }
{
    match entry {
        Entry::Step(step) => push_step_title(step, out),
        Entry::Reply(_) => out.text("replies"),
    }
}

/// Appends what a turn is called, by its lines from its step on.
fn push_turn_title(lines: &[Line], out: &mut Page)
    ensures { Grows out.old out.new (turn_title lines.now) }
{
    match lines.split_first() {
        Some((line, _)) => push_entry_title(&line.entry, out),
        None => out.text("replies"),
    }
}

/// Appends the slice of a turn, with its lines from its step on.
fn push_slice(number: usize, turn: &[Line], out: &mut Page)
    ensures { Grows out.old out.new (slice_event number turn.now) }
{
    let (_, behind) = split_step(turn);
    out.text(",\n{\"ph\":\"X\",\"dur\":1");
    push_track(lane_of(turn), number, out);
    out.text(",\"name\":\"");
    push_turn_title(behind, out);
    out.text("\",\"args\":");
    push_turn(number, turn, out);
    out.text("}");
}

/// The number of the object at a place, in the generation that a lifecycle word says.
fn object_of(place: u32, word: u64) -> u64
    ensures { result ≡ object_of place word }
{
    u64::from(place) + 16_777_216 * u64::from(Life::of_word(word).generation)
}

/// Appends an end of a flow.
fn push_flow_event(kind: &str, lane: u32, number: usize, object: u64, out: &mut Page)
    ensures { Grows out.old out.new (flow_event kind.now lane number object) }
{
    out.text(kind);
    push_track(lane, number, out);
    out.named(",\"cat\":\"object\",\"name\":\"object\",\"id\":", object);
    out.text("}");
}

/// Appends the end of a flow that a step on a lifecycle word is: a publish begins that of its object, and the mark that
/// finds it PRESENT ends it.
fn push_flow_at(lane: u32, number: usize, step: &NamedStep, place: u32, out: &mut Page)
    ensures { Grows out.old out.new (flow_at lane number step.now.name place step.now.before step.now.after) }
{
    let object = object_of(place, step.after);
    match step.name {
        StepName::Publish => push_flow_event(",\n{\"ph\":\"s\"", lane, number, object, out),
        StepName::Mark if Life::of_word(step.before).state == State::Present => push_flow_event(
            ",\n{\"ph\":\"f\",\"bp\":\"e\"",
            lane,
            number,
            object,
            out,
        ),
        _ => {}
    }
}

/// Appends the end of a flow that a step is.
fn push_flow_on(lane: u32, number: usize, step: &NamedStep, out: &mut Page)
    ensures { Grows out.old out.new (flow_on lane number step.now.name step.now.word step.now.before step.now.after) }
{
    match step.word {
        Word::Life { place } => push_flow_at(lane, number, step, place, out),
        Word::Link { .. } | Word::Stack { .. } => {}
    }
}

/// Appends the end of a flow that an entry is.
fn push_flow_of(lane: u32, number: usize, entry: &Entry, out: &mut Page)
    ensures { Grows out.old out.new (flow_of lane number entry.now) }
{
    match entry {
        Entry::Step(step) => push_flow_on(lane, number, step, out),
        Entry::Reply(_) => {}
    }
}

/// Appends the end of a flow at a turn, by its lines from its step on.
fn push_turn_flow(lane: u32, number: usize, lines: &[Line], out: &mut Page)
    ensures { Grows out.old out.new (turn_flow lane number lines.now) }
{
    match lines.split_first() {
        Some((line, _)) => push_flow_of(lane, number, &line.entry, out),
        None => {}
    }
}

/// Appends the events of a turn.
fn push_turn_events(number: usize, turn: &[Line], out: &mut Page)
    ensures { Grows out.old out.new (turn_events number turn.now) }
{
    let (_, behind) = split_step(turn);
    push_slice(number, turn, out);
    push_turn_flow(lane_of(turn), number, behind, out);
}

/// Appends the events of the turns of some lines.
fn push_turns(lines: &[Line], out: &mut Page)
    ensures { Grows out.old out.new (numbered turn_events 0 (turns_of lines.now)) }
{
    let mut number = 0;
    let mut rest = lines;
    while let Some((turn, behind)) = split_turn(rest) {
        push_turn_events(number, turn, out);
        number += 1;
        rest = behind;
    }
}

/// A trace in the trace-event form: a track for each lane, a slice for each of its calls, from its first step to its last,
/// with its reply as its arguments, a slice of one microsecond for each turn, named by its step, with the turn's object of
/// the JSON view as its arguments, and for each object a flow from its publish to the mark that clears it.
///
/// # Errors
///
/// `AllocError` where memory is refused.
pub fn events_text(alloc: Global, lines: &[Line]) -> Result<Vec<u8>, AllocError>
    ensures { IfOk result (λ text. AreEvents lines.now text.items) }
{
    let lanes = lanes_of(alloc, lines)?;
    let mut out = Page::new(alloc);
    out.text("[\n{\"ph\":\"M\",\"pid\":1,\"name\":\"process_name\",\"args\":{\"name\":\"pool\"}}");
    push_lanes(lanes.as_slice(), &mut out);
    push_calls(lanes.as_slice(), lines, &mut out);
    push_turns(lines, &mut out);
    out.text("\n]\n");
    out.finish()
}
