//! What all lanes share.
use crate::words::Table;
use keybits::{Shape, Step};
use seqpool::Act;
use std::alloc::Global;

/// A step that a turn is about to make, with its act.
#[derive(Drop)]
pub(crate) struct Made {
    pub(crate) step: Step,
    pub(crate) act: Option<Act>,
}

/// What all lanes share: the words, for each place which act published its key, and the acts of the turns so far.
#[derive(Drop)]
pub(crate) struct Shared {
    pub(crate) alloc: Global,
    pub(crate) shape: Shape,
    pub(crate) words: Table,
    pub(crate) published: Vec<usize>,
    pub(crate) acts: Vec<Act>,
}
