//! What commands answer.
ghost use Rattle.std.specs.Prelude.{◌≡◌, ◌∷◌, ◌++◌, [], List, OnOk, OnErr};

use seqpool::Bytes;
use std::alloc::{AllocError, Global};
use std::marker::Model;

/// What a command answers.
#[derive(Drop, Debug)]
pub enum Reply {
    /// `create` made a filling that will have this key.
    Filling(u64),
    /// `create` found no free place.
    Full,
    /// Memory was refused.
    Memory,
    /// `write` or `release` did it.
    Done,
    /// `publish` or `downgrade` published under this key.
    Key(u64),
    /// `get` found this content.
    Found(Bytes),
    /// `get` found nothing.
    Missing,
    /// `read` read this content.
    Content(Bytes),
    /// Whether `clear` set the mark.
    Cleared(bool),
    /// The command did nothing.
    Skip,
}

/// Some replies, in order.
#[derive(Drop, Debug)]
pub struct Replies {
    replies: Vec<Reply>,
}

impl Model for Replies {
    ghost use Rattle.std.specs.Prelude.{List};
    ghost use Rattle.traces.specs.declared.reply.Reply.{Reply};

    ghost Value = { List Reply };

    ghost view = { λ r. r.replies.items };
}

impl Replies {
    /// No replies. It takes no memory.
    pub fn empty(alloc: Global) -> Self
        ensures { result ≡ [] }
    {
        Replies {
            replies: Vec::new(alloc),
        }
    }

    /// Adds a reply at the end; where memory is refused, the replies stay as they were.
    pub fn push(&mut self, reply: Reply) -> Result<(), AllocError>
        ensures ok { OnOk result (self.new ≡ self.old ++ reply ∷ []) }
        ensures err { OnErr result (self.new ≡ self.old) }
    {
        self.replies.push(reply)?;
        Ok(())
    }

    /// The replies as a slice.
    pub fn as_slice(&self) -> &[Reply]
        ensures { result.now ≡ self.now }
    {
        self.replies.as_slice()
    }
}
