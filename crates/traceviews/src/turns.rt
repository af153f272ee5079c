//! The turns of a trace, by its lines.

ghost use Rattle.std.specs.Prelude.{◌≡◌, ◌≤◌, ◌∷◌, ◌||◌, [], length, take, drop, MatchOption};
ghost use Rattle.traceviews.specs.Counts.{is_step};
ghost use Rattle.traceviews.specs.Turns.{goes_on, turns_of, lane_of, front, behind, IsFirstTurn};

use crate::line::{Entry, Line};

/// Whether a line is a step's.
pub(crate) fn is_step(line: &Line) -> bool
    ensures { result ≡ is_step line.now.entry }
{
    match &line.entry {
        Entry::Step(_) => true,
        Entry::Reply(_) => false,
    }
}

/// Whether a line goes on a turn of this lane, which has a step already or not.
fn goes_on(lane: u32, stepped: bool, line: &Line) -> bool
    ensures { result ≡ goes_on lane stepped line.now }
{
    line.lane == lane && !(stepped && is_step(line))
}

/// Whether a turn has a step behind this line.
fn is_stepped(before: bool, line: &Line) -> bool
    ensures { result ≡ (before || is_step line.now.entry) }
{
    before || is_step(line)
}

/// How many lines go on the turn that one before them begins.
fn count_following(first: &Line, more: &[Line]) -> usize
    ensures within { result ≤ length more.now }
    ensures turns { turns_of (first.now ∷ more.now) ≡ (first.now ∷ take result more.now) ∷ turns_of (drop result more.now) }
{
    let mut stepped = is_step(first);
    let mut count = 0;
    for line in more {
        if !goes_on(first.lane, stepped, line) {
            return count;
        }
        stepped = is_stepped(stepped, line);
        count += 1;
    }
    count
}

/// The first turn of some lines, and the lines behind it; none where there are no lines.
pub(crate) fn split_turn(lines: &[Line]) -> Option<(&[Line], &[Line])>
    ensures { MatchOption result (lines.now ≡ []) (λ parts. IsFirstTurn lines.now parts.0.now parts.1.now) }
{
    let (first, more) = lines.split_first()?;
    Some(lines.split_at(count_following(first, more) + 1))
}

/// The lane of a turn.
pub(crate) fn lane_of(turn: &[Line]) -> u32
    ensures { result ≡ lane_of turn.now }
{
    match turn.first() {
        Some(line) => line.lane,
        None => 0,
    }
}

/// How many replies of a turn are before its step.
fn count_front(turn: &[Line]) -> usize
    ensures within { result ≤ length turn.now }
    ensures front { take result turn.now ≡ front turn.now }
    ensures behind { drop result turn.now ≡ behind turn.now }
{
    let mut count = 0;
    for line in turn {
        if is_step(line) {
            return count;
        }
        count += 1;
    }
    count
}

/// The replies of a turn before its step, and its lines from there on.
pub(crate) fn split_step(turn: &[Line]) -> (&[Line], &[Line])
    ensures front { result.0.now ≡ front turn.now }
    ensures behind { result.1.now ≡ behind turn.now }
{
    turn.split_at(count_front(turn))
}

/// How many turns the lines of a trace have: a step with the replies of its lane before and behind it is one, and so
/// are the replies of a lane that makes no step.
pub fn turn_count(lines: &[Line]) -> usize
    ensures { result ≡ length (turns_of lines.now) }
{
    let mut count = 0;
    let mut rest = lines;
    while let Some((_, behind)) = split_turn(rest) {
        count += 1;
        rest = behind;
    }
    count
}
