//! The line of a step, as it is read behind the step's name.

ghost use Rattle.seqpool.specs.ReadTexts.{Finds};
ghost use Rattle.traceviews.specs.Lines.{IsLifeWord, IsLinkWord, IsStackWord};
ghost use Rattle.traceviews.specs.ReadLines.{Yields, IsWordText, AreValues, IsStepOf};
ghost use Rattle.traces.specs.Text.{word_text};
ghost use Rattle.std.specs.Prelude.{◌≡◌};

use crate::fault::Wanted;
use crate::line::{NamedStep, StepName};
use keybits::Word;
use seqpool::{cut, read_key, read_place, read_u32};

/// A stack, by its shard and the returning lane.
fn read_stack(text: &[u8]) -> Option<Word>
    ensures { Finds (λ word stack. IsStackWord word × (stack ≡ word_text word)) text.now result }
{
    let Some((shard, lane)) = cut(text, b'.') else {
        return None;
    };
    let Some(shard) = read_u32(shard) else {
        return None;
    };
    let Some(lane) = read_u32(lane) else {
        return None;
    };
    Some(Word::Stack { shard, lane })
}

/// The lifecycle word of a place.
fn read_life(text: &[u8]) -> Option<Word>
    ensures { Finds (λ word place. IsLifeWord word × (place ≡ word_text word)) text.now result }
{
    let place = read_place(text)?;
    Some(Word::Life { place })
}

/// The link word of a place.
fn read_link(text: &[u8]) -> Option<Word>
    ensures { Finds (λ word place. IsLinkWord word × (place ≡ word_text word)) text.now result }
{
    let place = read_place(text)?;
    Some(Word::Link { place })
}

/// The word of a step of this name.
fn read_word(name: StepName, text: &[u8]) -> Option<Word>
    ensures { Finds (IsWordText name) text.now result }
{
    match name {
        StepName::Enter | StepName::Leave | StepName::Publish | StepName::Mark | StepName::Claim =>
            read_life(text),
        StepName::Link | StepName::Follow => read_link(text),
        StepName::Push | StepName::Take => read_stack(text),
    }
}

/// What is wanted where the word of a step of this name should stand.
pub(crate) fn wanted_word(name: StepName) -> Wanted {
    match name {
        StepName::Push | StepName::Take => Wanted::Stack,
        _ => Wanted::Place,
    }
}

/// What is wanted in a text without a space, where a word's values should stand.
fn wanted_value(text: &[u8]) -> Wanted {
    if read_key(text).is_some() {
        Wanted::After
    } else {
        Wanted::Before
    }
}

/// What is wanted in a text without a space, where the word of a step of this name and its values should stand.
fn wanted_operand(name: StepName, text: &[u8]) -> Wanted {
    if read_word(name, text).is_some() {
        Wanted::Before
    } else {
        wanted_word(name)
    }
}

/// The values of a step's word before and after it.
fn read_values(text: &[u8]) -> Result<(u64, u64), Wanted>
    ensures { Yields AreValues text.now result }
{
    let Some((before, after)) = cut(text, b' ') else {
        return Err(wanted_value(text));
    };
    let Some(before) = read_key(before) else {
        return Err(Wanted::Before);
    };
    let Some(after) = read_key(after) else {
        return Err(Wanted::After);
    };
    Ok((before, after))
}

/// The step of this name with these operands.
pub(crate) fn read_step(name: StepName, operands: &[u8]) -> Result<NamedStep, Wanted>
    ensures { Yields (IsStepOf name) operands.now result }
{
    let Some((word, values)) = cut(operands, b' ') else {
        return Err(wanted_operand(name, operands));
    };
    let Some(word) = read_word(name, word) else {
        return Err(wanted_word(name));
    };
    let (before, after) = read_values(values)?;
    Ok(NamedStep {
        name,
        word,
        before,
        after,
    })
}
