//! The values of the pool's words.
ghost use Rattle.std.specs.Prelude.{◌*◌, ◌+◌, ◌≡◌, ◌<◌, ℕ, IfOk};
ghost use Rattle.keybits.specs.Shapes.{IsShape};
ghost use Rattle.keybits.specs.declared.step.Word.TheVariants.{Stack};
ghost use Rattle.keybits.specs.Words.{fresh_word};
ghost use Rattle.steplaws.specs.Facts.{Words, value_of, with_value};
ghost use Rattle.traces.specs.Lawful.{first_words};
ghost use Rattle.coresteps.specs.Kept.{IsTable, IsWordOf};

use crate::fault::CoreFault;
use keybits::{Life, Shape, State, Word};
use std::alloc::Global;

/// The values of the pool's words: the lifecycle and the link word of each place, by its position among all places, and
/// the stack word of each shard and lane, shard after shard.
#[derive(Drop)]
pub(crate) struct Table {
    pub(crate) life: Vec<u64>,
    pub(crate) links: Vec<u64>,
    pub(crate) stacks: Vec<u64>,
}

impl Table {
    /// Each word with its first value.
    pub(crate) fn new(alloc: Global, shape: &Shape) -> Result<Table, CoreFault>
        requires { IsShape shape.now }
        ensures { IfOk result (λ table. IsTable shape.now first_words table) }
    {
        let fresh = Life {
            generation: 1,
            count: 0,
            state: State::Idle,
        };
        let places = shape.all_places();
        let life = vec![in alloc; fresh.word(); places]?;
        let links = vec![in alloc; 0; places]?;
        let lanes = shape.lanes as usize;
        let stacks = vec![in alloc; 0; lanes * lanes]?;
        Ok(Table {
            life,
            links,
            stacks,
        })
    }

    /// The value of a word.
    pub(crate) fn load(&self, shape: &Shape, word: Word) -> u64
        requires shape { IsShape shape.now }
        requires inside { IsWordOf shape.now word }
        requires table { (words : Words) × IsTable shape.now words self.now }
        ensures { (words : Words) → IsTable shape.now words self.now → result ≡ value_of words word }
    {
        match word {
            Word::Life { place } => self.life[shape.position(place)],
            Word::Link { place } => self.links[shape.position(place)],
            Word::Stack { shard, lane } => self.stacks[stack_position(shape, shard, lane)],
        }
    }

    /// Gives a word a value.
    pub(crate) fn store(&mut self, shape: &Shape, word: Word, value: u64)
        requires shape { IsShape shape.now }
        requires inside { IsWordOf shape.now word }
        requires table { (words : Words) × IsTable shape.now words self.old }
        ensures { (words : Words) → IsTable shape.now words self.old → IsTable shape.now (with_value words word value) self.new }
    {
        match word {
            Word::Life { place } => self.life[shape.position(place)] = value,
            Word::Link { place } => self.links[shape.position(place)] = value,
            Word::Stack { shard, lane } => self.stacks[stack_position(shape, shard, lane)] = value,
        }
    }
}

/// Where the stack word of a shard and a lane stands.
fn stack_position(shape: &Shape, shard: u32, lane: u32) -> usize
    requires shape { IsShape shape.now }
    requires inside { IsWordOf shape.now (Stack shard lane) }
    ensures { result ≡ shard * shape.now.lanes + lane }
{
    (shard * shape.lanes + lane) as usize
}
