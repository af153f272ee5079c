//! Schedules from which entries are left out for as long as they pass a trial: first halves, then quarters, and so on;
//! last single entries, until none can go.
ghost use Rattle.std.specs.Prelude.{◌≡◌, ◌⊎◌, ◌+◌, ◌<◌, ◌≤◌, ℕ, true, false, length, Err, None, IfOk, IfErr, IfSome};
ghost use Rattle.shortening.specs.Parts.{IsPart, without};
ghost use Rattle.shortening.specs.Shortest.{is_left, IsShortened, IsSameTrial, GivesUp};

use crate::fault::Unshortened;
use crate::short::Short;
use crate::trial::Trial;
use crate::watch::Watch;
use std::alloc::{AllocError, Global};

/// A schedule without so many entries from this index on.
fn without(alloc: Global, schedule: &[u32], at: usize, count: usize) -> Result<Vec<u32>, AllocError>
    requires { at ≤ length schedule.now }
    ensures { IfOk result (λ left. left.items ≡ without at count schedule.now) }
{
    let mut left = Vec::from_slice(alloc, &schedule[..at])?;
    if count < schedule.len() - at {
        left.extend_from_slice(&schedule[at + count..])?;
    }
    Ok(left)
}

/// Leaves so many entries at a time out of a schedule that passes, where the rest still passes, from the first entry on
/// to the last.
fn sweep<T: Trial, W: Watch>(
    alloc: Global,
    trial: &mut T,
    watch: &mut W,
    schedule: Vec<u32>,
    count: usize,
) -> Result<Vec<u32>, Unshortened>
    requires some { 1 ≤ count }
    requires passed { T.passes trial.old schedule.items }
    ensures ok { IfOk result (λ kept. IsPart kept.items schedule.items × T.passes trial.old kept.items) }
    ensures err { IfErr result (GivesUp (T.is_spent trial.new)) }
    ensures same { IsSameTrial (T.passes trial.old) (T.fails trial.old) (T.tries trial.old)
        (T.passes trial.new) (T.fails trial.new) (T.tries trial.new) }
{
    let mut kept = schedule;
    let mut at = 0;
    while at < kept.len() {
        if !trial.may_try() {
            return Ok(kept);
        }
        let left = without(alloc, kept.as_slice(), at, count)?;
        watch.tries(left.len(), kept.len());
        if trial.is_passed(alloc, left.as_slice())? {
            kept = left;
        } else {
            at = at.saturating_add(count);
        }
    }
    Ok(kept)
}

/// Leaves halves, then quarters, and so on out of a schedule that passes, where the rest still passes; last single
/// entries.
fn narrow<T: Trial, W: Watch>(
    alloc: Global,
    trial: &mut T,
    watch: &mut W,
    schedule: Vec<u32>,
) -> Result<Vec<u32>, Unshortened>
    requires passed { T.passes trial.old schedule.items }
    ensures ok { IfOk result (λ kept. IsPart kept.items schedule.items × T.passes trial.old kept.items) }
    ensures err { IfErr result (GivesUp (T.is_spent trial.new)) }
    ensures same { IsSameTrial (T.passes trial.old) (T.fails trial.old) (T.tries trial.old)
        (T.passes trial.new) (T.fails trial.new) (T.tries trial.new) }
{
    let mut kept = schedule;
    let mut count = kept.len() / 2;
    while count > 0 {
        kept = sweep(alloc, trial, watch, kept, count)?;
        count = count.min(kept.len()) / 2;
    }
    Ok(kept)
}

/// A schedule without the first entry that can go; none where each has to stay, or no try is left.
fn without_one<T: Trial, W: Watch>(
    alloc: Global,
    trial: &mut T,
    watch: &mut W,
    schedule: &[u32],
) -> Result<Option<Vec<u32>>, Unshortened>
    ensures some { IfOk result (λ found. IfSome found (λ left. IsPart left.items schedule.now × T.passes trial.old left.items
        × (length left.items < length schedule.now))) }
    ensures none { IfOk result (λ found. found ≡ None → is_left (T.tries trial.new) ≡ true → (at : ℕ) → at < length schedule.now
        → T.fails trial.old (without at 1 schedule.now)) }
    ensures err { IfErr result (GivesUp (T.is_spent trial.new)) }
    ensures same { IsSameTrial (T.passes trial.old) (T.fails trial.old) (T.tries trial.old)
        (T.passes trial.new) (T.fails trial.new) (T.tries trial.new) }
{
    for at in 0..schedule.len() {
        if !trial.may_try() {
            return Ok(None);
        }
        let left = without(alloc, schedule, at, 1)?;
        watch.tries(left.len(), schedule.len());
        if trial.is_passed(alloc, left.as_slice())? {
            return Ok(Some(left));
        }
    }
    Ok(None)
}

/// Leaves single entries out of a schedule that passes, until none can go, or no try is left.
fn settle<T: Trial, W: Watch>(
    alloc: Global,
    trial: &mut T,
    watch: &mut W,
    schedule: Vec<u32>,
) -> Result<Short, Unshortened>
    requires passed { T.passes trial.old schedule.items }
    ensures ok { IfOk result (IsShortened (T.passes trial.old) (T.fails trial.old) (T.tries trial.new) schedule.items) }
    ensures err { IfErr result (GivesUp (T.is_spent trial.new)) }
    ensures same { IsSameTrial (T.passes trial.old) (T.fails trial.old) (T.tries trial.old)
        (T.passes trial.new) (T.fails trial.new) (T.tries trial.new) }
{
    let mut kept = schedule;
    while let Some(left) = without_one(alloc, trial, watch, kept.as_slice())? {
        kept = left;
    }
    let least = trial.may_try();
    Ok(Short {
        schedule: kept,
        least,
    })
}

/// What is left of a schedule that passes the trial, as `shorten` leaves entries out of it. The errors: `Limit` where the
/// trial may try no more; `Memory`.
pub(crate) fn shorten_passed<T: Trial, W: Watch>(
    alloc: Global,
    trial: &mut T,
    watch: &mut W,
    schedule: Vec<u32>,
) -> Result<Short, Unshortened>
    requires passed { T.passes trial.old schedule.items }
    ensures ok { IfOk result (IsShortened (T.passes trial.old) (T.fails trial.old) (T.tries trial.new) schedule.items) }
    ensures unbounded { IfOk result (λ short. T.tries trial.old ≡ None → T.tries trial.new ≡ None) }
    ensures err { IfErr result (GivesUp (T.is_spent trial.new)) }
{
    let kept = narrow(alloc, trial, watch, schedule)?;
    settle(alloc, trial, watch, kept)
}

/// What is left of a schedule when entries are left out for as long as it passes the trial, so that it fails as soon as
/// any one entry more is left out; or where no try is left, the shortest schedule that passed by then. Halves are tried
/// first, then quarters, and so on, so that a long schedule takes few trials; `watch` is told of each behind that of the
/// whole schedule. The errors: `Fails` where the whole schedule fails; `Limit` where the trial may try no more, or has no
/// try for the whole schedule; `Memory`.
pub fn shorten<T: Trial, W: Watch>(
    alloc: Global,
    trial: &mut T,
    watch: &mut W,
    schedule: Vec<u32>,
) -> Result<Short, Unshortened>
    ensures ok { IfOk result (IsShortened (T.passes trial.old) (T.fails trial.old) (T.tries trial.new) schedule.items) }
    ensures fails { result ≡ Err Unshortened.Fails → T.fails trial.old schedule.items }
    ensures endless { IfOk result (λ short. T.tries trial.old ≡ None → short.least ≡ true) }
    ensures unbounded { IfOk result (λ short. T.tries trial.old ≡ None → T.tries trial.new ≡ None) }
    ensures limit { result ≡ Err Unshortened.Limit → T.is_spent trial.new ⊎ (is_left (T.tries trial.old) ≡ false) }
{
    if !trial.may_try() {
        return Err(Unshortened::Limit);
    }
    if !trial.is_passed(alloc, schedule.as_slice())? {
        return Err(Unshortened::Fails);
    }
    shorten_passed(alloc, trial, watch, schedule)
}
