//! Acts of lanes, with their replies.
ghost use Rattle.std.specs.Prelude.{◌≡◌, IfOk};

use crate::contents::{Bytes, Places};
use std::alloc::{AllocError, Global};

/// An act of a lane on the pool, with its reply. Keys and places go by their numbers.
#[derive(Drop)]
pub enum Act {
    /// The lane publishes the filling of the key's place, and keeps a reference where `with_ref` holds.
    Publish {
        lane: u32,
        key: u64,
        content: Bytes,
        with_ref: bool,
    },
    /// The lane gets the key: its content, with a reference, or nothing.
    Get {
        lane: u32,
        key: u64,
        reply: Option<Bytes>,
    },
    /// The lane gives back a reference to the key.
    Release {
        lane: u32,
        key: u64,
    },
    /// The lane clears the key: whether it was this act that marked it.
    Clear {
        lane: u32,
        key: u64,
        reply: bool,
    },
    /// The lane takes the place of a marked key that nobody refers to.
    Reclaim {
        lane: u32,
        key: u64,
    },
    /// The lane returns a place to the shard that it is of.
    Home {
        lane: u32,
        place: u32,
    },
    /// The lane takes places that were returned to its shard.
    Collect {
        lane: u32,
        places: Places,
    },
}

/// The name of an act in its line.
#[derive(Clone, Copy)]
pub(crate) enum ActName {
    Publish,
    Get,
    Release,
    Clear,
    Reclaim,
    Home,
    Collect,
}

impl Act {
    ghost use Rattle.std.specs.Prelude.{◌≡◌, IfOk};
    ghost use Rattle.seqpool.specs.Pool.{lane_of};

    /// The lane that acts.
    pub fn lane(&self) -> u32
        ensures { result ≡ lane_of self.now }
    {
        match self {
            Act::Publish { lane, .. }
            | Act::Get { lane, .. }
            | Act::Release { lane, .. }
            | Act::Clear { lane, .. }
            | Act::Reclaim { lane, .. }
            | Act::Home { lane, .. }
            | Act::Collect { lane, .. } => *lane,
        }
    }

    /// The same act once more.
    pub fn copy(&self, alloc: Global) -> Result<Act, AllocError>
        ensures { IfOk result (λ copy. copy ≡ self.now) }
    {
        match *self {
            Act::Publish {
                lane,
                key,
                ref content,
                with_ref,
            } => {
                let content = content.copy(alloc)?;
                Ok(Act::Publish {
                    lane,
                    key,
                    content,
                    with_ref,
                })
            }
            Act::Get {
                lane,
                key,
                ref reply,
            } => {
                let reply = copy_reply(reply, alloc)?;
                Ok(Act::Get { lane, key, reply })
            }
            Act::Release { lane, key } => Ok(Act::Release { lane, key }),
            Act::Clear { lane, key, reply } => Ok(Act::Clear { lane, key, reply }),
            Act::Reclaim { lane, key } => Ok(Act::Reclaim { lane, key }),
            Act::Home { lane, place } => Ok(Act::Home { lane, place }),
            Act::Collect { lane, ref places } => {
                let places = places.copy(alloc)?;
                Ok(Act::Collect { lane, places })
            }
        }
    }
}

/// The same reply of a get once more.
fn copy_reply(reply: &Option<Bytes>, alloc: Global) -> Result<Option<Bytes>, AllocError>
    ensures { IfOk result (λ copy. copy ≡ reply.now) }
{
    match reply {
        Some(content) => Ok(Some(content.copy(alloc)?)),
        None => Ok(None),
    }
}
