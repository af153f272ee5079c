//! What the lanes replied.
ghost use Rattle.std.specs.Prelude.{◌≡◌, ◌++◌, ◌∷◌, [], true, IfOk, OnOk};
ghost use Rattle.traces.specs.TurnLaws.{turns_of, all_replies};
ghost use Rattle.outcomes.specs.Outcomes.{AreReplied};

use keybits::Shape;
use standings::same_replies;
use std::alloc::{AllocError, Global};
use traces::{Replies, Reply, Turn};

/// The same reply once more.
fn copy_reply(alloc: Global, reply: &Reply) -> Result<Reply, AllocError>
    ensures { IfOk result (λ copy. copy ≡ reply.now) }
{
    match reply {
        Reply::Filling(key) => Ok(Reply::Filling(*key)),
        Reply::Full => Ok(Reply::Full),
        Reply::Memory => Ok(Reply::Memory),
        Reply::Done => Ok(Reply::Done),
        Reply::Key(key) => Ok(Reply::Key(*key)),
        Reply::Found(content) => {
            let content = content.copy(alloc)?;
            Ok(Reply::Found(content))
        }
        Reply::Missing => Ok(Reply::Missing),
        Reply::Content(content) => {
            let content = content.copy(alloc)?;
            Ok(Reply::Content(content))
        }
        Reply::Cleared(cleared) => Ok(Reply::Cleared(*cleared)),
        Reply::Skip => Ok(Reply::Skip),
    }
}

/// Adds replies once more.
fn push_replies(alloc: Global, replies: &mut Replies, more: &[Reply]) -> Result<(), AllocError>
    ensures { OnOk result (replies.new ≡ replies.old ++ more.now) }
{
    for reply in more {
        let reply = copy_reply(alloc, reply)?;
        replies.push(reply)?;
    }
    Ok(())
}

/// Adds the replies of a turn, where it is one of this lane.
fn push_turn(alloc: Global, replies: &mut Replies, turn: &Turn, lane: u32) -> Result<(), AllocError>
    ensures { OnOk result (replies.new ≡ replies.old ++ all_replies (turns_of lane (turn.now ∷ []))) }
{
    if turn.lane == lane {
        push_replies(alloc, replies, turn.before.as_slice())?;
        push_replies(alloc, replies, turn.after.as_slice())?;
    }
    Ok(())
}

/// The replies of a lane in these turns.
fn replies_of(alloc: Global, turns: &[Turn], lane: u32) -> Result<Replies, AllocError>
    ensures { IfOk result (λ replies. replies ≡ all_replies (turns_of lane turns.now)) }
{
    let mut replies = Replies::empty(alloc);
    for turn in turns {
        push_turn(alloc, &mut replies, turn, lane)?;
    }
    Ok(replies)
}

/// The replies of each lane in these turns.
pub(crate) fn all_lanes(
    alloc: Global,
    shape: &Shape,
    turns: &[Turn],
) -> Result<Vec<Replies>, AllocError>
    ensures { IfOk result (λ replies. AreReplied shape.now turns.now replies.items) }
{
    let mut replies = Vec::new(alloc);
    for lane in 0..shape.lanes {
        replies.push(replies_of(alloc, turns, lane)?)?;
    }
    Ok(replies)
}

/// Whether all lanes have the same replies.
pub(crate) fn are_same(replies: &[Replies], others: &[Replies]) -> bool
    ensures same { result ≡ true → replies.now ≡ others.now }
    ensures whole { replies.now ≡ others.now → result ≡ true }
{
    if replies.len() != others.len() {
        return false;
    }
    for i in 0..replies.len() {
        if !same_replies(replies[i].as_slice(), others[i].as_slice()) {
            return false;
        }
    }
    true
}
