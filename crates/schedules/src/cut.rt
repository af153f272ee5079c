//! A text that is cut at its first separator.
ghost use Rattle.std.specs.Prelude.{◌≡◌, ◌==◌, ◌<◌, ◌∷◌, [], length, IfSome, MatchOption, position};
ghost use Rattle.schedules.specs.Parts.{parts_of};

/// Where the first such byte is.
fn first_of(text: &[u8], separator: u8) -> Option<usize>
    ensures { result ≡ position (λ byte. byte == separator) text.now }
{
    text.iter().position(|byte| *byte == separator)
}

/// The first part of a text, and what comes after its separator; none where the text is one part.
pub(crate) fn cut(text: &[u8], separator: u8) -> Option<(&[u8], &[u8])>
    ensures parts { MatchOption result (parts_of separator text.now ≡ text.now ∷ [])
        (λ cut. parts_of separator text.now ≡ cut.0.now ∷ parts_of separator cut.1.now) }
    ensures shorter { IfSome result (λ cut. length cut.1.now < length text.now) }
{
    let end = first_of(text, separator)?;
    Some((&text[..end], &text[end + 1..]))
}
