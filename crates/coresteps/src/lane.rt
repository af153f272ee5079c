//! A lane of the core.
use crate::commands::Commands;
use crate::progress::Progress;

/// A lane: the commands of its script, the ring of its own free places, and how far it has come.
#[derive(Drop)]
pub(crate) struct Lane {
    pub(crate) script: Commands,
    pub(crate) ring: Vec<u32>,
    pub(crate) progress: Progress,
}
