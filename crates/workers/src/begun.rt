//! Jobs that were begun.
ghost use Rattle.workers.specs.Works.{Answer};

use crate::gate::Gate;
use crate::jobs::{Done, Job};
use std::snapshot::Snapshot;
use std::thread::{Promise, PromisedHandle};

/// What came of this job, with this gate, will be its answer.
#[derive(Drop)]
pub(crate) struct Promised<G> {
    pub(crate) job: Snapshot<Job>,
    pub(crate) gate: Snapshot<G>,
}

impl<G: Gate> Promise<Done> for Promised<G> {
    ghost kept_by = { λ p done. Answer (G.says p.gate.value) p.job.value done };
}

/// A job that was begun.
#[derive(Drop)]
pub(crate) enum Begun<G: Gate> {
    /// In a thread of its own.
    There(PromisedHandle<Done, Promised<G>>),
    /// In the caller's thread, where it was run to its end.
    Here(Done, Promised<G>),
}
