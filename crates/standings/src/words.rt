//! Whether the words have the same values behind two traces.
ghost use Rattle.std.specs.Prelude.{◌≡◌, true};
ghost use Rattle.steplaws.specs.Facts.{Words, value_of, with_value};
ghost use Rattle.traces.specs.Lawful.{first_words, words_after};
ghost use Rattle.traces.specs.TurnLaws.{all_steps};
ghost use Rattle.standings.specs.Behind.{words_behind, AgreeAt, AgreeOn};

use keybits::{Life, State, Step, Word};
use traces::Turn;

/// The value that a word has before the first step on it.
fn first_value(word: Word) -> u64
    ensures { result ≡ value_of first_words word }
{
    let fresh = Life {
        generation: 1,
        count: 0,
        state: State::Idle,
    };
    match word {
        Word::Life { .. } => fresh.word(),
        Word::Link { .. } | Word::Stack { .. } => 0,
    }
}

/// The value of a word behind a step, where it had this one before.
fn value_behind(word: Word, step: &Step, value: u64) -> u64
    ensures { (ws : Words) → value ≡ value_of ws word → result ≡ value_of (with_value ws step.now.word step.now.after) word }
{
    match (word, step.word) {
        (Word::Life { place }, Word::Life { place: at }) => {
            if place == at { step.after } else { value }
        }
        (Word::Link { place }, Word::Link { place: at }) => {
            if place == at { step.after } else { value }
        }
        (
            Word::Stack { shard, lane },
            Word::Stack {
                shard: of,
                lane: by,
            },
        ) => {
            if shard == of && lane == by {
                step.after
            } else {
                value
            }
        }
        _ => value,
    }
}

/// The value of a word behind a turn, where it had this one before.
fn value_past(word: Word, turn: &Turn, value: u64) -> u64
    ensures { (ws : Words) → value ≡ value_of ws word → result ≡ value_of (words_after ws turn.now.step) word }
{
    match &turn.step {
        Some(step) => value_behind(word, step, value),
        None => value,
    }
}

/// The value of a word behind these turns.
fn value_after(turns: &[Turn], word: Word) -> u64
    ensures { result ≡ value_of (words_behind first_words turns.now) word }
{
    let mut rest = turns;
    let mut value = first_value(word);
    while let Some((turn, more)) = rest.split_first() {
        value = value_past(word, turn, value);
        rest = more;
    }
    value
}

/// Whether the word of a step has the same value behind both.
fn agree_at(step: &Option<Step>, turns: &[Turn], others: &[Turn]) -> bool
    ensures { result ≡ true → AgreeAt (words_behind first_words turns.now) (words_behind first_words others.now) step.now }
{
    match step {
        Some(step) => value_after(turns, step.word) == value_after(others, step.word),
        None => true,
    }
}

/// Whether the words of the steps of some turns have the same values behind both.
#[tactic(auto, using(crate::proofs::WordLemmas::agree_more))]
fn agree_within(within: &[Turn], turns: &[Turn], others: &[Turn]) -> bool
    ensures { result ≡ true → AgreeOn (words_behind first_words turns.now) (words_behind first_words others.now) (all_steps within.now) }
{
    let mut rest = within;
    while let Some((turn, more)) = rest.split_first() {
        if !agree_at(&turn.step, turns, others) {
            return false;
        }
        rest = more;
    }
    true
}

/// Whether all words have the same values behind both.
#[tactic(auto, using(crate::proofs::WordLemmas::one_words))]
pub(crate) fn same_words(turns: &[Turn], others: &[Turn]) -> bool
    ensures { result ≡ true → words_behind first_words turns.now ≡ words_behind first_words others.now }
{
    agree_within(turns, turns, others) && agree_within(others, turns, others)
}
