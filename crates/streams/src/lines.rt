//! The lines of a text.
ghost use Rattle.std.specs.Prelude.{◌≡◌, ◌==◌, position};
ghost use Rattle.streams.specs.Lines.{first_line, after_line, line_at};

/// Where the first end of a line is.
fn line_end(text: &[u8]) -> Option<usize>
    ensures { result ≡ position (λ byte. byte == 10) text.now }
{
    text.iter().position(|byte| *byte == b'\n')
}

/// What stands before the first end of a line.
fn first_line(text: &[u8]) -> &[u8]
    ensures { result.now ≡ first_line text.now }
{
    match line_end(text) {
        Some(end) => &text[..end],
        None => text,
    }
}

/// What stands behind the first end of a line; nothing where there is none.
pub fn after_line(text: &[u8]) -> &[u8]
    ensures { result.now ≡ after_line text.now }
{
    match line_end(text) {
        Some(end) => &text[end + 1..],
        None => &[],
    }
}

/// The line with so many lines before it, without its end; empty where there is none.
pub fn line_at(text: &[u8], before: usize) -> &[u8]
    ensures { result.now ≡ line_at before text.now }
{
    let mut rest = text;
    let mut left = before;
    while left > 0 {
        rest = after_line(rest);
        left -= 1;
    }
    first_line(rest)
}
