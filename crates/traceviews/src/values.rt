//! The values of words, as the steps of a trace leave them.

ghost use Rattle.std.specs.Prelude.{◌≡◌, ◌==◌, ℕ, OnOk, Option, Some, unwrap_or, if◌then◌else◌};
ghost use Rattle.std.specs.BTreeMap.{get};
ghost use Rattle.std.specs.Ordering.{nat_cmp};
ghost use Rattle.keybits.specs.Words.{fresh_word};
ghost use Rattle.traceviews.specs.Values.{stack_number};

use keybits::{Life, State, Word};
use std::alloc::{AllocError, Global};
use std::collections::BTreeMap;

/// What words have on which steps were made; each other word has its first value.
#[derive(Drop)]
pub(crate) struct Values {
    lives: BTreeMap<u64, u64>,
    links: BTreeMap<u64, u64>,
    stacks: BTreeMap<u64, u64>,
}

/// The lifecycle word of a place on which no step was made.
fn fresh_word() -> u64
    ensures { result ≡ fresh_word }
{
    let life = Life {
        generation: 1,
        count: 0,
        state: State::Idle,
    };
    life.word()
}

/// The number of a stack.
fn stack_number(shard: u32, lane: u32) -> u64
    ensures { result ≡ stack_number shard lane }
{
    (u64::from(shard) << 32) + u64::from(lane)
}

/// The value at a key; this one where there is none.
fn value_at(values: &BTreeMap<u64, u64>, key: u64, first: u64) -> u64
    ensures { result ≡ unwrap_or (get nat_cmp values.now key) first }
{
    match values.get(&key) {
        Some(value) => *value,
        None => first,
    }
}

/// Puts a value at a key.
fn put(values: &mut BTreeMap<u64, u64>, key: u64, value: u64) -> Result<(), AllocError>
    ensures { OnOk result ((other : ℕ) → get nat_cmp values.new other
        ≡ (let put : Option ℕ = Some value in if key == other then put else get nat_cmp values.old other)) }
{
    values.insert(key, value)?;
    Ok(())
}

impl Values {
    ghost use Rattle.std.specs.Prelude.{◌≡◌, OnOk};
    ghost use Rattle.steplaws.specs.Facts.{Words, value_of, with_value};
    ghost use Rattle.traces.specs.Lawful.{first_words};
    ghost use Rattle.traceviews.specs.Values.{AreValues};

    /// The first value of each word.
    pub(crate) fn new(alloc: Global) -> Values
        ensures { AreValues result first_words }
    {
        Values {
            lives: BTreeMap::new(alloc),
            links: BTreeMap::new(alloc),
            stacks: BTreeMap::new(alloc),
        }
    }

    /// The value of a word.
    pub(crate) fn of(&self, word: Word) -> u64
        ensures { (words : Words) → AreValues self.now words → result ≡ value_of words word }
    {
        match word {
            Word::Life { place } => value_at(&self.lives, u64::from(place), fresh_word()),
            Word::Link { place } => value_at(&self.links, u64::from(place), 0),
            Word::Stack { shard, lane } => value_at(&self.stacks, stack_number(shard, lane), 0),
        }
    }

    /// Gives a word this value.
    pub(crate) fn note(&mut self, word: Word, value: u64) -> Result<(), AllocError>
        ensures { OnOk result ((words : Words) → AreValues self.old words → AreValues self.new (with_value words word value)) }
    {
        match word {
            Word::Life { place } => put(&mut self.lives, u64::from(place), value),
            Word::Link { place } => put(&mut self.links, u64::from(place), value),
            Word::Stack { shard, lane } => put(&mut self.stacks, stack_number(shard, lane), value),
        }
    }
}
