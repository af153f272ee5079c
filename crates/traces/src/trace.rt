//! The turns of a run.
ghost use Rattle.std.specs.Prelude.{◌≡◌, ◌∷◌, ◌++◌, [], None, List, OnOk, OnErr};

use crate::reply::Replies;
use keybits::Step;
use seqpool::Act;
use std::alloc::{AllocError, Global};
use std::marker::Model;

/// What a lane did in one turn: the replies before its step, the step with the act that it makes, and the replies after
/// it. A turn without a step has its replies before it.
#[derive(Drop)]
pub struct Turn {
    pub lane: u32,
    pub before: Replies,
    pub step: Option<Step>,
    pub act: Option<Act>,
    pub after: Replies,
}

impl Turn {
    /// A turn in which a lane does nothing. It takes no memory.
    pub fn empty(alloc: Global, lane: u32) -> Self
        ensures { result ≡ record { lane = lane; before = []; step = None; act = None; after = [] } }
    {
        Turn {
            lane,
            before: Replies::empty(alloc),
            step: None,
            act: None,
            after: Replies::empty(alloc),
        }
    }
}

/// The turns of a run, in order.
#[derive(Drop)]
pub struct Trace {
    turns: Vec<Turn>,
}

impl Model for Trace {
    ghost use Rattle.std.specs.Prelude.{List};
    ghost use Rattle.traces.specs.declared.trace.Turn.{Turn};

    ghost Value = { List Turn };

    ghost view = { λ t. t.turns.items };
}

impl Trace {
    /// No turns. It takes no memory.
    pub fn empty(alloc: Global) -> Self
        ensures { result ≡ [] }
    {
        Trace {
            turns: Vec::new(alloc),
        }
    }

    /// Adds a turn at the end; where memory is refused, the turns stay as they were.
    pub fn push(&mut self, turn: Turn) -> Result<(), AllocError>
        ensures ok { OnOk result (self.new ≡ self.old ++ turn ∷ []) }
        ensures err { OnErr result (self.new ≡ self.old) }
    {
        self.turns.push(turn)?;
        Ok(())
    }

    /// The turns as a slice.
    pub fn as_slice(&self) -> &[Turn]
        ensures { result.now ≡ self.now }
    {
        self.turns.as_slice()
    }
}
