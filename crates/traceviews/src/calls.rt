//! The calls of the lanes as slices of the trace-event form.

ghost use Rattle.std.specs.Prelude.{◌≡◌, ◌<◌, codes, flat_map, if◌then◌else◌};
ghost use Rattle.traceviews.specs.Calls.{is_counted, call_title, ended_title, call_head, ended_call, open_call, since, end_of, open_behind, end_at, begun_at, call_at, begun_behind, lane_calls};
ghost use Rattle.traceviews.specs.Pages.{Grows};

use crate::events::push_track;
use crate::json::push_entry;
use crate::line::{Entry, Line};
use crate::page::Page;
use crate::turns::{lane_of, split_step, split_turn};
use keybits::Life;
use traces::Reply;

/// Whether a step leaves one more in the count.
fn is_counted(entry: &Entry) -> bool
    ensures { result ≡ is_counted entry.now }
{
    match entry {
        Entry::Step(step) => Life::of_word(step.before).count < Life::of_word(step.after).count,
        Entry::Reply(_) => false,
    }
}

/// What a call is called that published.
fn publish_title(last: &Entry) -> &'static str
    ensures { result.now ≡ (if is_counted last.now then codes "downgrade" else codes "publish") }
{
    if is_counted(last) {
        "downgrade"
    } else {
        "publish"
    }
}

/// What a call is called that made this step last, and replied so.
fn call_title(last: &Entry, reply: &Reply) -> &'static str
    ensures { result.now ≡ call_title last.now reply.now }
{
    match reply {
        Reply::Filling(_) | Reply::Full | Reply::Memory => "create",
        Reply::Key(_) => publish_title(last),
        Reply::Found(_) | Reply::Missing => "get",
        Reply::Cleared(_) => "clear",
        Reply::Done => "release",
        Reply::Content(_) | Reply::Skip => "call",
    }
}

/// What a call is called that ends with this step and this reply.
fn ended_title(last: &Entry, reply: &Entry) -> &'static str
    ensures { result.now ≡ ended_title last.now reply.now }
{
    match reply {
        Entry::Step(_) => "call",
        Entry::Reply(reply) => call_title(last, reply),
    }
}

/// Appends the slice of a call up to its arguments: it begins at this turn, and lasts so many.
fn push_call_head(lane: u32, begun: usize, lasts: usize, name: &str, out: &mut Page)
    ensures { Grows out.old out.new (call_head lane begun lasts name.now) }
{
    out.named(",\n{\"ph\":\"X\",\"dur\":", lasts as u64);
    push_track(lane, begun, out);
    out.text(",\"name\":\"");
    out.text(name);
    out.text("\",\"args\":");
}

/// Appends the slice of a call that ends at a turn with this step and this reply.
fn push_ended_call(
    lane: u32,
    begun: usize,
    number: usize,
    last: &Entry,
    reply: &Entry,
    out: &mut Page,
)
    requires { number < 18446744073709551615 }
    ensures { Grows out.old out.new (ended_call lane begun number last.now reply.now) }
{
    let lasts = (number + 1).saturating_sub(begun);
    push_call_head(lane, begun, lasts, ended_title(last, reply), out);
    push_entry(reply, out);
    out.text("}");
}

/// Appends the slice of a call without a reply, where one is under way behind the last turn.
fn push_open_call(lane: u32, begun: Option<usize>, number: usize, out: &mut Page)
    ensures { Grows out.old out.new (open_call lane begun number) }
{
    if let Some(begun) = begun {
        push_call_head(lane, begun, number.saturating_sub(begun), "unfinished", out);
        out.text("{}}");
    }
}

/// At which turn the call of a step began.
fn since(begun: Option<usize>, number: usize) -> usize
    ensures { result ≡ since begun number }
{
    match begun {
        Some(begun) => begun,
        None => number,
    }
}

/// Appends the call that began at this turn, where it ends with this step: where a reply is behind it. Answers at which
/// turn the call began that is then under way.
fn push_end_of(
    lane: u32,
    begun: usize,
    number: usize,
    step: &Line,
    more: &[Line],
    out: &mut Page,
) -> Option<usize>
    requires { number < 18446744073709551615 }
    ensures text { Grows out.old out.new (end_of lane begun number step.now more.now) }
    ensures begun { result ≡ open_behind begun more.now }
{
    match more.split_first() {
        Some((reply, _)) => {
            push_ended_call(lane, begun, number, &step.entry, &reply.entry, out);
            None
        }
        None => Some(begun),
    }
}

/// Appends the call that ends at a turn of its lane, by the turn's lines from its step on. Answers at which turn the call
/// began that is then under way.
fn push_end_at(
    lane: u32,
    begun: Option<usize>,
    number: usize,
    lines: &[Line],
    out: &mut Page,
) -> Option<usize>
    requires { number < 18446744073709551615 }
    ensures text { Grows out.old out.new (end_at lane begun number lines.now) }
    ensures begun { result ≡ begun_at begun number lines.now }
{
    match lines.split_first() {
        Some((step, more)) => push_end_of(lane, since(begun, number), number, step, more, out),
        None => begun,
    }
}

/// Appends the call of a lane that ends at a turn. Answers at which turn the call began that is then under way.
fn push_call_at(
    lane: u32,
    begun: Option<usize>,
    number: usize,
    turn: &[Line],
    out: &mut Page,
) -> Option<usize>
    requires { number < 18446744073709551615 }
    ensures text { Grows out.old out.new (call_at lane begun number turn.now) }
    ensures begun { result ≡ begun_behind lane begun number turn.now }
{
    if lane_of(turn) != lane {
        return begun;
    }
    let (_, behind) = split_step(turn);
    push_end_at(lane, begun, number, behind, out)
}

/// Appends the calls of a lane.
fn push_lane_calls(lines: &[Line], lane: u32, out: &mut Page)
    ensures { Grows out.old out.new (lane_calls lines.now lane) }
{
    let mut begun = None;
    let mut number = 0;
    let mut rest = lines;
    while let Some((turn, behind)) = split_turn(rest) {
        begun = push_call_at(lane, begun, number, turn, out);
        number += 1;
        rest = behind;
    }
    push_open_call(lane, begun, number, out);
}

/// Appends the calls of these lanes.
pub(crate) fn push_calls(lanes: &[u32], lines: &[Line], out: &mut Page)
    ensures { Grows out.old out.new (flat_map (lane_calls lines.now) lanes.now) }
{
    for lane in lanes {
        push_lane_calls(lines, *lane, out);
    }
}
