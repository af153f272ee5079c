//! What is said of a number as a key.
ghost use Rattle.std.specs.Prelude.{◌≡◌, ◌≢◌, ◌↔◌, true, false, ◌++◌, IfOk, IfErr, OnOk, IsErrOf, string_bytes};
ghost use Rattle.poolprogram.specs.KeyTexts.{tag_text, parts_text, is_some_key, key_line, WritesKey};

use crate::run_fault::RunFault;
use keybits::{Key, Place};
use std::alloc::{AllocError, Global};
use std::io::Write;
use streams::{Watched, write_and_flush};

/// What is said of a number as a key.
#[derive(Drop)]
struct KeyLine {
    /// Whether a key has the number.
    known: bool,
    /// The line that says so.
    line: String,
}

/// Appends the tag, where it isn't 0.
fn write_tag(line: &mut String, tag: u8) -> Result<(), AllocError>
    ensures { OnOk result (string_bytes line.new ≡ string_bytes line.old ++ tag_text tag) }
{
    if tag == 0 {
        return Ok(());
    }
    write!(line, " tag {tag}")
}

/// Appends the line of a key with these parts.
fn write_parts(line: &mut String, tag: u8, place: Place, generation: u32) -> Result<(), AllocError>
    ensures { OnOk result (string_bytes line.new ≡ string_bytes line.old
        ++ parts_text place.shard place.page place.slot generation tag) }
{
    let Place { shard, page, slot } = place;
    write!(
        line,
        "shard {shard} page {page} slot {slot} generation {generation}"
    )?;
    write_tag(line, tag)?;
    line.push_str("\n")
}

/// The line of a number.
fn describe(alloc: Global, number: u64) -> Result<KeyLine, AllocError>
    ensures { IfOk result (λ said. (said.known ≡ is_some_key number)
        × (string_bytes said.line ≡ key_line number)) }
{
    let mut line = String::new(alloc);
    let Some((tag, place, generation)) = Key::unpack_tagged(number) else {
        line.push_str("no key\n")?;
        return Ok(KeyLine { known: false, line });
    };
    write_parts(&mut line, tag, place, generation)?;
    Ok(KeyLine { known: true, line })
}

/// Writes one line of a number as a key: its place, its generation and its tag, where that isn't 0, and
/// then the answer is true; or that no key has it, and then it is false. The errors: `Memory` where
/// memory was refused for the line, before the first byte; `Output` comes exactly where `out` failed,
/// and then it isn't said how much went out.
pub fn key_text<W: Write>(
    alloc: Global,
    number: u64,
    out: &mut Watched<W>,
) -> Result<bool, RunFault>
    requires { out.old.failed ≡ false }
    ensures ok { IfOk result (λ known. WritesKey number known
        (W.contents out.old.inner) (W.contents out.new.inner)) }
    ensures output { IsErrOf result RunFault.Output ↔ (out.new.failed ≡ true) }
    ensures refused { IfErr result (λ fault. fault ≢ RunFault.Output
        → (out.new ≡ out.old) × (fault ≡ RunFault.Memory)) }
{
    let said = describe(alloc, number)?;
    write_and_flush(said.line.as_bytes(), out)?;
    Ok(said.known)
}
