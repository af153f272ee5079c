//! The states that turns lead to.
ghost use Rattle.std.specs.Prelude.{◌≡◌, [], IfOk, OnOk};
ghost use Rattle.outcomes.specs.Search.{IsJoined};

use crate::count::Count;
use crate::order::comes_before;
use keybits::Step;
use std::alloc::{AllocError, Global};
use traces::{Reply, Trace, Turn};

/// A state that turns lead to: the first schedule of those that led there, its trace, and how many did.
#[derive(Drop)]
pub(crate) struct Reached {
    pub(crate) schedule: Vec<u32>,
    pub(crate) trace: Trace,
    pub(crate) ways: Count,
    /// States with other marks differ.
    pub(crate) mark: u64,
}

/// A number spread over 64 bits.
fn spread(number: u64) -> u64 {
    let mixed = number.wrapping_add(0x9e37_79b9_7f4a_7c15);
    let mixed = (mixed ^ (mixed >> 29)).wrapping_mul(0xbf58_476d_1ce4_e5b9);
    mixed ^ (mixed >> 32)
}

/// A number of a reply.
fn number_of_reply(reply: &Reply) -> u64 {
    match reply {
        Reply::Filling(key) => key.wrapping_mul(16).wrapping_add(1),
        Reply::Full => 2,
        Reply::Memory => 3,
        Reply::Done => 4,
        Reply::Key(key) => key.wrapping_mul(16).wrapping_add(5),
        Reply::Found(_) => 6,
        Reply::Missing => 7,
        Reply::Content(_) => 8,
        Reply::Cleared(cleared) => if *cleared { 9 } else { 10 },
        Reply::Skip => 11,
    }
}

/// The mark of some replies, behind another.
fn mark_of_replies(mark: u64, replies: &[Reply]) -> u64 {
    let mut mark = mark;
    for reply in replies {
        mark = spread(mark ^ number_of_reply(reply));
    }
    mark
}

/// What a step adds to the mark of a trace: for the word that it changes. Over all steps on a word what they found is
/// taken off again but for the first.
fn mark_of_step(step: &Option<Step>) -> u64 {
    match step {
        Some(step) => spread(step.after)
            .wrapping_mul(3)
            .wrapping_sub(spread(step.before).wrapping_mul(3)),
        None => 0,
    }
}

/// The mark of the turns of a lane: how many there are and what it replied.
fn mark_of_lane(turns: &[Turn], lane: u32) -> u64 {
    let mut mark = u64::from(lane);
    for turn in turns {
        if turn.lane == lane {
            mark = mark_of_replies(spread(mark), turn.before.as_slice());
            mark = mark_of_replies(mark, turn.after.as_slice());
        }
    }
    spread(mark)
}

/// The mark of a trace: what each lane replied, and the words behind it.
pub(crate) fn mark_of(turns: &[Turn], lanes: u32) -> u64 {
    let mut mark: u64 = 0;
    for lane in 0..lanes {
        mark = mark.wrapping_add(mark_of_lane(turns, lane));
    }
    for turn in turns {
        mark = mark.wrapping_add(mark_of_step(&turn.step));
    }
    mark
}

/// The state before the first turn.
pub(crate) fn first_state(alloc: Global) -> Result<Reached, AllocError>
    ensures schedule { IfOk result (λ first. first.schedule.items ≡ []) }
    ensures trace { IfOk result (λ first. first.trace ≡ []) }
    ensures ways { IfOk result (λ first. first.ways ≡ 1) }
{
    Ok(Reached {
        schedule: Vec::new(alloc),
        trace: Trace::empty(alloc),
        ways: Count::one(alloc)?,
        mark: 0,
    })
}

/// Joins a state with one that it stands for: the schedule that comes first is kept, and the schedules of both count.
pub(crate) fn join(alloc: Global, kept: &mut Reached, other: Reached) -> Result<(), AllocError>
    ensures { OnOk result (IsJoined kept.old other kept.new) }
{
    kept.ways.add(alloc, &other.ways)?;
    if comes_before(other.schedule.as_slice(), kept.schedule.as_slice()) {
        kept.schedule = other.schedule;
        kept.trace = other.trace;
    }
    Ok(())
}
