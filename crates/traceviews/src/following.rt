//! Whether the words of a trace follow from one another.

ghost use Rattle.std.specs.Prelude.{◌≡◌, ◌+◌, ◌↔◌, IsTrue, ℕ, IfOk, OnOk, Option, Some, None, MatchOption};
ghost use Rattle.keybits.specs.Words.{generation_in};
ghost use Rattle.steplaws.specs.Facts.{Words};
ghost use Rattle.traceviews.specs.Values.{AreValues};
ghost use Rattle.traceviews.specs.WordSteps.{MayLeave, Follows, IsWrong, words_behind, last_by, last_told, AreFollowing, IsFirstStray, follows_text};
ghost use Rattle.traceviews.specs.declared.line.Entry.TheVariants as entries;
ghost use Rattle.traceviews.specs.declared.line.StepName.TheVariants as names;

use crate::line::{Entry, Line, NamedStep, StepName};
use crate::page::Page;
use crate::summary::push_counts;
use crate::values::Values;
use keybits::{Life, State};
use std::alloc::{AllocError, Global};

/// Why a step doesn't follow from the steps before it.
#[derive(Clone, Copy)]
pub enum Wrong {
    /// It finds another value than its word has, which is this one.
    Before { had: u64 },
    /// It leaves a value that no such step leaves there.
    After,
}

/// The first step of a trace that doesn't follow.
#[derive(Clone, Copy)]
pub struct Stray {
    /// The number of its line, counted from 1.
    pub number: usize,
    pub wrong: Wrong,
}

/// A generation that no word has.
const NO_GENERATION: u64 = 1 << 32;

/// Whether the one number is so much more than the other.
fn is_more(number: u64, other: u64, more: u64) -> bool
    ensures { IsTrue result ↔ (number ≡ other + more) }
{
    number >= other && number - other == more
}

/// Whether a LEAVE may find the one value and leave the other.
fn may_leave(before: u64, after: u64) -> bool
    ensures { (last : ℕ) → IsTrue result ↔ MayLeave last names.Leave before after }
{
    Life::of_word(before).count >= 1 && is_more(before, after, 4)
}

/// Whether a PUBLISH may find the one value and leave the other.
fn may_publish(before: u64, after: u64) -> bool
    ensures { (last : ℕ) → IsTrue result ↔ MayLeave last names.Publish before after }
{
    Life::of_word(before).state == State::Idle
        && (is_more(after, before, 1) || is_more(after, before, 5))
}

/// Whether a MARK may find the one value and leave the other.
fn may_mark(before: u64, after: u64) -> bool
    ensures { (last : ℕ) → IsTrue result ↔ MayLeave last names.Mark before after }
{
    let life = Life::of_word(before);
    match life.state {
        State::Present => life.count >= 1 && is_more(after, before, 2),
        State::Marked => life.count >= 1 && after == before,
        State::Idle | State::Retired => false,
    }
}

/// Whether a CLAIM may find the one value and leave the other: any value where it fails, as one of another generation
/// does.
fn may_claim(last: u64, before: u64, after: u64) -> bool
    ensures { IsTrue result ↔ MayLeave last names.Claim before after }
{
    if after == before {
        return true;
    }
    let life = Life::of_word(before);
    if life.state != State::Marked || life.count != 0 {
        return false;
    }
    if u64::from(life.generation) == last {
        is_more(before, after, 1)
    } else {
        is_more(after, before, 4_294_967_293)
    }
}

/// Whether a step of this name may find the one value and leave the other, where the last generation is this one.
fn may_change(last: u64, name: StepName, before: u64, after: u64) -> bool
    ensures { IsTrue result ↔ MayLeave last name before after }
{
    match name {
        StepName::Enter => is_more(after, before, 4),
        StepName::Leave => may_leave(before, after),
        StepName::Publish => may_publish(before, after),
        StepName::Mark => may_mark(before, after),
        StepName::Claim => may_claim(last, before, after),
        StepName::Link | StepName::Push => true,
        StepName::Take => after == 0,
        StepName::Follow => after == before,
    }
}

/// The generation in which a line's claim leaves a place retired, if it does.
fn retired_in(line: &Line) -> Option<u64>
    ensures { (later : ℕ) → MatchOption result (last_by line.now.entry later ≡ later) (λ generation. last_by line.now.entry later
        ≡ generation) }
{
    let Entry::Step(step) = &line.entry else {
        return None;
    };
    let life = Life::of_word(step.after);
    if step.name == StepName::Claim && life.state == State::Retired {
        Some(u64::from(life.generation))
    } else {
        None
    }
}

/// The last generation, as the lines of a trace tell it.
fn last_told(lines: &[Line]) -> u64
    ensures { result ≡ last_told lines.now }
{
    for line in lines {
        if let Some(generation) = retired_in(line) {
            return generation;
        }
    }
    NO_GENERATION
}

/// Why a step doesn't follow from these values, if it doesn't.
fn wrong_step(last: u64, values: &Values, step: &NamedStep) -> Option<Wrong>
    ensures { (words : Words) → AreValues values.now words
        → MatchOption result (Follows last words (entries.Step step.now)) (IsWrong last words (entries.Step step.now)) }
{
    let had = values.of(step.word);
    if step.before != had {
        return Some(Wrong::Before { had });
    }
    if may_change(last, step.name, step.before, step.after) {
        None
    } else {
        Some(Wrong::After)
    }
}

/// Why a line doesn't follow from these values, if it doesn't.
fn wrong_line(last: u64, values: &Values, line: &Line) -> Option<Wrong>
    ensures { (words : Words) → AreValues values.now words
        → MatchOption result (Follows last words line.now.entry) (IsWrong last words line.now.entry) }
{
    match &line.entry {
        Entry::Step(step) => wrong_step(last, values, step),
        Entry::Reply(_) => None,
    }
}

/// Notes what a line leaves.
fn note_line(values: &mut Values, line: &Line) -> Result<(), AllocError>
    ensures { OnOk result ((words : Words) → AreValues values.old words → AreValues values.new (words_behind words line.now.entry)) }
{
    match &line.entry {
        Entry::Step(step) => values.note(step.word, step.after),
        Entry::Reply(_) => Ok(()),
    }
}

/// The first line of a trace that doesn't follow from those before it, if there is one: each step finds what the last
/// step on its word left, or the word's first value, and leaves what such a step may leave. The last generation is that
/// in which a claim first leaves a place retired.
///
/// # Errors
///
/// `AllocError` where memory is refused.
pub fn first_stray(alloc: Global, lines: &[Line]) -> Result<Option<Stray>, AllocError>
    ensures { IfOk result (λ found. MatchOption found (AreFollowing lines.now) (λ stray. IsFirstStray stray.number stray.wrong lines.now)) }
{
    let last = last_told(lines);
    let mut values = Values::new(alloc);
    let mut number = 0;
    for line in lines {
        number += 1;
        if let Some(wrong) = wrong_line(last, &values, line) {
            return Ok(Some(Stray { number, wrong }));
        }
        note_line(&mut values, line)?;
    }
    Ok(None)
}

/// What is said of a trace whose lines follow from one another: how many turns and lines it has.
///
/// # Errors
///
/// `AllocError` where memory is refused.
pub fn follows_text(alloc: Global, lines: &[Line]) -> Result<Vec<u8>, AllocError>
    ensures { IfOk result (λ text. text.items ≡ follows_text lines.now) }
{
    let mut out = Page::new(alloc);
    out.text("follows ");
    push_counts(lines, &mut out);
    out.finish()
}
