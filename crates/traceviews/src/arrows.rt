//! Arrows from a turn to the turn of another lane that finds what it left.

use crate::boxes::Columns;
use crate::head::TOP;
use crate::line::{NamedStep, StepName};
use crate::page::Page;
use keybits::Word;
use std::alloc::{AllocError, Global};
use std::collections::BTreeMap;

/// A word, as a key of a map: its kind, and its place or the lanes of its stack.
type WordKey = (u8, u32, u32);

/// The turn that left what a word has: its number and its column, and the heights at which its box begins, its step
/// stands and the box ends.
#[derive(Clone, Copy)]
pub(crate) struct Writer {
    pub(crate) turn: usize,
    pub(crate) column: usize,
    pub(crate) top: u64,
    pub(crate) step: u64,
    pub(crate) bottom: u64,
}

/// Who left what each word has.
#[derive(Drop)]
pub(crate) struct Writers {
    writers: BTreeMap<WordKey, Writer>,
}

/// The key of a word.
fn key_of(word: Word) -> WordKey {
    match word {
        Word::Life { place } => (0, place, 0),
        Word::Link { place } => (1, place, 0),
        Word::Stack { shard, lane } => (2, shard, lane),
    }
}

impl Writers {
    /// Nobody.
    pub(crate) fn new(alloc: Global) -> Writers {
        Writers {
            writers: BTreeMap::new(alloc),
        }
    }

    /// Who left what a step finds, where that is known.
    pub(crate) fn before(&self, step: &NamedStep) -> Option<&Writer> {
        self.writers.get(&key_of(step.word))
    }

    /// A step was made: it is the one who left its word, where it changed the word, or stored what was there already.
    pub(crate) fn note(&mut self, step: &NamedStep, writer: Writer) -> Result<(), AllocError> {
        if step.before != step.after || step.name == StepName::Link {
            self.writers.insert(key_of(step.word), writer)?;
        }
        Ok(())
    }
}

/// How far the paths of arrows are from each other, left of the column to which they lead.
const PATH: u64 = 5;

/// How many of them there are.
const PATHS: usize = 11;

/// Appends an arrow from one turn to the step of another, where they are in different columns: between two rows to a
/// path that is the earlier turn's, and down along it. From a turn above the picture it comes down its own column.
pub(crate) fn push_arrow(columns: &Columns, from: &Writer, to: &Writer, out: &mut Page) {
    if from.column == to.column {
        return;
    }
    let across = if from.bottom > TOP {
        from.bottom.saturating_add(5)
    } else {
        to.top.saturating_sub(6)
    };
    let end = columns.at(to.column);
    let path = PATH.saturating_mul((from.turn % PATHS) as u64);
    out.fill(
        "<path class=\"arrow\" marker-end=\"url(#tip)\" d=\"M% %V%H%V%H%\"/>\n",
        &[
            columns.at(from.column).saturating_add(14),
            from.bottom,
            across,
            end.saturating_sub(path.saturating_add(10)),
            to.step,
            end,
        ],
    );
}
