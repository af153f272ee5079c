//! What places are at the end of a trace.

ghost use Rattle.std.specs.Prelude.{◌≡◌, ℕ, IfOk, OnOk, count_by};
ghost use Rattle.std.specs.Ordering.{nat_cmp};
ghost use Rattle.std.specs.BTreeMap.{get, IsOrdered};
ghost use Rattle.traceviews.specs.Ends.{word_after, is_in, is_end_in, AreEnds};

use crate::found::life_of;
use crate::line::Line;
use keybits::{Life, State};
use std::alloc::{AllocError, Global};
use std::collections::BTreeMap;

/// Notes the word that a line's step leaves to its place.
fn note_word(words: &mut BTreeMap<u32, u64>, line: &Line) -> Result<(), AllocError>
    ensures { OnOk result ((place : ℕ) → get nat_cmp words.new place ≡ word_after (get nat_cmp words.old place) place line.now) }
{
    if let Some((place, word)) = life_of(line) {
        words.insert(place, word)?;
    }
    Ok(())
}

/// The entries of a map, in the rising order of their keys.
fn entries_of(alloc: Global, words: BTreeMap<u32, u64>) -> Result<Vec<(u32, u64)>, AllocError>
    ensures entries { IfOk result (λ ends. ends.items ≡ words.entries) }
    ensures rising { IsOrdered nat_cmp words }
{
    words.into_iter().collect(alloc)
}

/// The places on whose lifecycle words some lines' steps are made, in rising order, each with the word that the last
/// such step left.
pub(crate) fn ends_of(alloc: Global, lines: &[Line]) -> Result<Vec<(u32, u64)>, AllocError>
    ensures { IfOk result (λ ends. AreEnds lines.now ends.items) }
{
    let mut words = BTreeMap::new(alloc);
    for line in lines {
        note_word(&mut words, line)?;
    }
    entries_of(alloc, words)
}

/// Whether a lifecycle word is in this state.
fn is_in(word: u64, state: State) -> bool
    ensures { result ≡ is_in state word }
{
    Life::of_word(word).state == state
}

/// How many places end in this state, by their last words.
pub(crate) fn ends_in(ends: &[(u32, u64)], state: State) -> usize
    ensures { result ≡ count_by (is_end_in state) ends.now }
{
    let mut count = 0;
    for (_, word) in ends {
        if is_in(*word, state) {
            count += 1;
        }
    }
    count
}
