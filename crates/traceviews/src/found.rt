//! Which lanes and places there are in some lines.

ghost use Rattle.std.specs.Prelude.{◌≡◌, IfOk};
ghost use Rattle.std.specs.Ordering.{nat_cmp};
ghost use Rattle.std.specs.BTreeSet.{IsOrdered};
ghost use Rattle.traceviews.specs.Ends.{life_of};
ghost use Rattle.traceviews.specs.Summaries.{AreLanes};

use crate::line::{Entry, Line};
use keybits::Word;
use std::alloc::{AllocError, Global};
use std::collections::BTreeSet;

/// The numbers of a set, in rising order.
fn numbers_of(alloc: Global, numbers: BTreeSet<u32>) -> Result<Vec<u32>, AllocError>
    ensures numbers { IfOk result (λ row. row.items ≡ numbers.keys) }
    ensures rising { IsOrdered nat_cmp numbers }
{
    numbers.into_iter().collect(alloc)
}

/// The lanes of some lines, in rising order.
pub(crate) fn lanes_of(alloc: Global, lines: &[Line]) -> Result<Vec<u32>, AllocError>
    ensures { IfOk result (λ lanes. AreLanes lines.now lanes.items) }
{
    let mut lanes = BTreeSet::new(alloc);
    for line in lines {
        lanes.insert(line.lane)?;
    }
    numbers_of(alloc, lanes)
}

/// The place whose lifecycle word a line is of, with the word that it leaves.
pub(crate) fn life_of(line: &Line) -> Option<(u32, u64)>
    ensures { result ≡ life_of line.now.entry }
{
    let Entry::Step(step) = &line.entry else {
        return None;
    };
    match step.word {
        Word::Life { place } => Some((place, step.after)),
        Word::Link { .. } | Word::Stack { .. } => None,
    }
}

/// The places whose lifecycle words some lines are of, in rising order.
pub(crate) fn places_of(alloc: Global, lines: &[Line]) -> Result<Vec<u32>, AllocError> {
    let mut places = BTreeSet::new(alloc);
    for line in lines {
        if let Some((place, _)) = life_of(line) {
            places.insert(place)?;
        }
    }
    numbers_of(alloc, places)
}
