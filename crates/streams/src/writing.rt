//! Texts that are written up to the first write that fails.
ghost use Rattle.std.specs.Prelude.{◌≡◌, true, false, IsOk, OnOk, is_err};
ghost use Rattle.std.specs.Io.KnownBytes.{Appends};
ghost use Rattle.streams.specs.Saying.{Says};

use crate::write_failed::WriteFailed;
use crate::writer::Watched;
use std::io::Write;

/// Writes a text, up to the first write that fails. Nothing is allocated.
pub fn write_text<W: Write>(text: &[u8], out: &mut Watched<W>)
    ensures { Says W.contents out.old out.new text.now }
{
    let mut rest = text;
    while !rest.is_empty() {
        let Ok(taken) = out.write(rest) else {
            return;
        };
        if taken == 0 {
            return;
        }
        rest = &rest[taken..];
    }
}

/// Writes a text and flushes. The error comes exactly where `out` failed, and then it isn't said how
/// much went out.
pub fn write_and_flush<W: Write>(text: &[u8], out: &mut Watched<W>) -> Result<(), WriteFailed>
    requires { out.old.failed ≡ false }
    ensures ok { OnOk result (Appends (W.contents out.old.inner) (W.contents out.new.inner) text.now) }
    ensures watched { is_err result ≡ out.new.failed }
    ensures flushed { IsOk result → out.new.flushed ≡ true }
{
    write_text(text, out);
    let _ = out.flush();
    if out.failed() {
        return Err(WriteFailed);
    }
    Ok(())
}
