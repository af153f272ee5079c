//! The turns of a picture, each by the indexes of its lines.

use crate::line::Line;
use crate::turns::{is_step, split_turn};
use std::alloc::{AllocError, Global};

/// A turn of a lane: its lines, from the first up to `end`, with its step among them.
#[derive(Clone, Copy)]
pub(crate) struct Row {
    pub(crate) lane: u32,
    pub(crate) first: usize,
    pub(crate) end: usize,
    pub(crate) has_step: bool,
}

/// The turn with these lines, the first of which has this index.
fn row_of(turn: &[Line], first: usize) -> Row {
    Row {
        lane: turn.first().map_or(0, |line| line.lane),
        first,
        end: first.saturating_add(turn.len()),
        has_step: turn.iter().any(is_step),
    }
}

/// The turns of some lines.
pub(crate) fn rows_of(alloc: Global, lines: &[Line]) -> Result<Vec<Row>, AllocError> {
    let mut rows = Vec::new(alloc);
    let mut first = 0;
    let mut rest = lines;
    while let Some((turn, behind)) = split_turn(rest) {
        let row = row_of(turn, first);
        first = row.end;
        rows.push(row)?;
        rest = behind;
    }
    Ok(rows)
}
