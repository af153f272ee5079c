//! What the collector reads.
use crate::lines::Line;

/// A line that was read, with its key.
#[derive(Clone, Copy)]
pub struct Row {
    pub key: u64,
    pub line: Line,
}
