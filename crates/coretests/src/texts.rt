//! Bytes as tests compare them with a text.
ghost use Rattle.std.specs.Prelude.{◌≡◌, ◌↔◌, IsTrue};

/// Whether these bytes are those of the text.
pub fn is_text(bytes: &[u8], text: &str) -> bool
    ensures { IsTrue result ↔ bytes.now ≡ text.now }
{
    bytes == text.as_bytes()
}
