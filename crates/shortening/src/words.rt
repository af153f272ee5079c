//! Words in a text.
ghost use Rattle.std.specs.Prelude.{◌≡◌, ◌↔◌, IsTrue};
ghost use Rattle.shortening.specs.Words.{is_gap, BeginsWith, StandsIn};

/// Whether a byte is a space or a line's end.
fn is_gap(byte: u8) -> bool
    ensures { result ≡ is_gap byte }
{
    byte == b' ' || byte == b'\n'
}

/// Whether a text begins with a word that has a gap behind it.
fn begins_with(word: &[u8], text: &[u8]) -> bool
    ensures { IsTrue result ↔ BeginsWith word.now text.now }
{
    let Some(behind) = text.strip_prefix(word) else {
        return false;
    };
    match behind.split_first() {
        Some((byte, _)) => is_gap(*byte),
        None => false,
    }
}

/// Whether a word stands in a text, between spaces or line's ends.
pub fn stands_in(word: &[u8], text: &[u8]) -> bool
    ensures { IsTrue result ↔ StandsIn word.now text.now }
{
    let mut rest = text;
    while let Some((byte, more)) = rest.split_first() {
        if is_gap(*byte) && begins_with(word, more) {
            return true;
        }
        rest = more;
    }
    false
}
