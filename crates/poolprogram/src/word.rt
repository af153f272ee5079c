//! What a lifecycle word says of its place.
ghost use Rattle.std.specs.Prelude.{◌≡◌, ◌≢◌, ◌↔◌, ◌++◌, true, false, IfOk, IfErr, OnOk, IsErrOf, string_bytes};
ghost use Rattle.std.specs.Io.KnownBytes.{Appends};
ghost use Rattle.keybits.specs.Words.{state_bits};
ghost use Rattle.poolprogram.specs.WordTexts.{state_text, life_line, word_line};

use crate::run_fault::RunFault;
use keybits::{Life, State};
use std::alloc::{AllocError, Global};
use std::io::Write;
use streams::{Watched, write_and_flush};

/// The name of a state.
fn state_name(state: State) -> &'static str
    ensures { result.now ≡ state_text (state_bits state) }
{
    match state {
        State::Idle => "IDLE",
        State::Present => "PRESENT",
        State::Retired => "RETIRED",
        State::Marked => "MARKED",
    }
}

/// The line of what a word says.
fn life_line(alloc: Global, life: &Life) -> Result<String, AllocError>
    ensures { IfOk result (λ line. string_bytes line ≡ life_line (state_bits life.now.state) life.now.count life.now.generation) }
{
    let Life {
        generation,
        count,
        state,
    } = *life;
    let name = state_name(state);
    format!(in alloc; "{name} count {count} generation {generation}\n")
}

/// The line of a word.
fn describe_word(alloc: Global, word: u64) -> Result<String, AllocError>
    ensures { IfOk result (λ line. string_bytes line ≡ word_line word) }
{
    let life = Life::of_word(word);
    life_line(alloc, &life)
}

/// Writes one line of a number as a lifecycle word: the state, the count and the generation. The errors:
/// `Memory` where memory was refused for the line, before the first byte; `Output` comes exactly where
/// `out` failed, and then it isn't said how much went out.
pub fn word_text<W: Write>(alloc: Global, word: u64, out: &mut Watched<W>) -> Result<(), RunFault>
    requires { out.old.failed ≡ false }
    ensures ok { OnOk result (Appends (W.contents out.old.inner) (W.contents out.new.inner) (word_line word)) }
    ensures output { IsErrOf result RunFault.Output ↔ (out.new.failed ≡ true) }
    ensures refused { IfErr result (λ fault. fault ≢ RunFault.Output
        → (out.new ≡ out.old) × (fault ≡ RunFault.Memory)) }
{
    let line = describe_word(alloc, word)?;
    write_and_flush(line.as_bytes(), out)?;
    Ok(())
}
