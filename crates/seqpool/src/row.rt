//! What the pool keeps of a place.
ghost use Rattle.std.specs.Prelude.{◌≡◌, ℕ, length, slice_index};

use crate::contents::Bytes;
use crate::tally::Tally;
use keybits::NARROW_LANES;
use std::alloc::{AllocError, Global};
use std::array;

/// How many lanes a row counts the references of.
const LANES: usize = NARROW_LANES as usize;

/// Where a place stands.
#[derive(Drop)]
pub(crate) enum Standing {
    /// It is with a lane.
    With {
        lane: u32,
    },
    /// Its key is published: its content, the references of each lane, and whether it was cleared.
    Published {
        content: Bytes,
        references: [Tally; LANES],
        marked: bool,
    },
    Home,
    Retired,
}

/// What the pool keeps of a place.
#[derive(Drop)]
pub(crate) struct Row {
    pub(crate) generation: u32,
    pub(crate) standing: Standing,
}

impl Standing {
    ghost use Rattle.std.specs.Prelude.{◌≡◌, ◌<◌, true, false, IfOk, OnErr, if◌then◌else◌};
    ghost use Rattle.seqpool.specs.Pool.{published, put};
    ghost use Rattle.seqpool.specs.Rows.{phase_of};

    /// How a place stands once its key is published by the lane.
    pub(crate) fn published(
        alloc: Global,
        content: Bytes,
        lane: u32,
        with_ref: bool,
    ) -> Result<Standing, AllocError>
        requires { lane < NARROW_LANES }
        ensures ok { IfOk result (λ standing. phase_of standing ≡ published content (put (λ _. 0) lane (if with_ref then 1 else 0)) false) }
        ensures err { OnErr result (with_ref ≡ true) }
    {
        let mut references = no_references(alloc);
        if with_ref {
            references[lane as usize].add()?;
        }
        Ok(Standing::Published {
            content,
            references,
            marked: false,
        })
    }
}

/// No references of any lane.
fn no_references(alloc: Global) -> [Tally; LANES]
    ensures lanes { length result ≡ LANES }
    ensures none { (lane : ℕ) → slice_index result lane ≡ 0 }
{
    array::from_fn(|_| Tally::new(alloc))
}

impl Row {
    ghost use Rattle.std.specs.Prelude.{◌≡◌, ℕ, ◌<◌, ◌↔◌, Some, OnOk, OnErr, IsTrue, MatchBool};
    ghost use Rattle.seqpool.specs.Pool.{with, home, spot, references_in, content_in, is_marked, is_unmarked, gained, lost, marked};
    ghost use Rattle.seqpool.specs.Rows.{phase_of, spot_of};

    /// Whether the place is with the lane.
    pub(crate) fn is_with(&self, lane: u32) -> bool
        ensures { IsTrue result ↔ (phase_of self.now.standing ≡ with lane) }
    {
        match self.standing {
            Standing::With { lane: owner } => owner == lane,
            _ => false,
        }
    }

    /// Whether the place is home.
    pub(crate) fn is_home(&self) -> bool
        ensures { IsTrue result ↔ (phase_of self.now.standing ≡ home) }
    {
        matches!(self.standing, Standing::Home)
    }

    /// Whether the place's key is in the pool without the mark.
    pub(crate) fn is_unmarked(&self) -> bool
        ensures { result ≡ is_unmarked (phase_of self.now.standing) }
    {
        match self.standing {
            Standing::Published { marked, .. } => !marked,
            _ => false,
        }
    }

    /// Whether the place's key is in the pool with the mark.
    pub(crate) fn is_marked(&self) -> bool
        ensures { result ≡ is_marked (phase_of self.now.standing) }
    {
        match self.standing {
            Standing::Published { marked, .. } => marked,
            _ => false,
        }
    }

    /// Whether a get of the place's key shows this content.
    pub(crate) fn shows(&self, reply: &Bytes) -> bool
        ensures { IsTrue result ↔ (content_in (phase_of self.now.standing) ≡ Some reply.now) }
    {
        match &self.standing {
            Standing::Published {
                content,
                marked,
                ..
            } => !*marked && content.as_slice() == reply.as_slice(),
            _ => false,
        }
    }

    /// Whether a lane refers to the place's key.
    pub(crate) fn is_held(&self) -> bool
        ensures { MatchBool result
            ((lane : ℕ) × (0 < references_in (phase_of self.now.standing) lane))
            ((lane : ℕ) → references_in (phase_of self.now.standing) lane ≡ 0) }
    {
        match &self.standing {
            Standing::Published { references, .. } => {
                for tally in references.as_slice() {
                    if tally.count() != 0 {
                        return true;
                    }
                }
                false
            }
            _ => false,
        }
    }

    /// How many references to the place's key the lane has.
    pub(crate) fn references(&self, lane: u32) -> usize
        requires { lane < NARROW_LANES }
        ensures { result ≡ references_in (phase_of self.now.standing) lane }
    {
        match &self.standing {
            Standing::Published { references, .. } => references[lane as usize].count(),
            _ => 0,
        }
    }

    /// One reference more of the lane.
    pub(crate) fn gain(&mut self, lane: u32) -> Result<(), AllocError>
        requires { lane < NARROW_LANES }
        ensures ok { OnOk result (spot_of self.new ≡ spot self.old.generation (gained lane (phase_of self.old.standing))) }
        ensures err { OnErr result (self.new ≡ self.old) }
    {
        match &mut self.standing {
            Standing::Published { references, .. } => references[lane as usize].add(),
            _ => Ok(()),
        }
    }

    /// One reference less of the lane, which has one.
    pub(crate) fn lose(&mut self, lane: u32)
        requires lane { lane < NARROW_LANES }
        requires held { 0 < references_in (phase_of self.old.standing) lane }
        ensures { spot_of self.new ≡ spot self.old.generation (lost lane (phase_of self.old.standing)) }
    {
        if let Standing::Published { references, .. } = &mut self.standing {
            references[lane as usize].remove();
        }
    }

    /// The same with the mark.
    pub(crate) fn mark(&mut self)
        ensures { spot_of self.new ≡ spot self.old.generation (marked (phase_of self.old.standing)) }
    {
        if let Standing::Published { marked, .. } = &mut self.standing {
            *marked = true;
        }
    }
}
