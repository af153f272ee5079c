//! A page that shows a trace turn by turn: its data is the JSON of the trace, and the rest is the same for each.

ghost use Rattle.std.specs.Prelude.{IfOk, flat_map};
ghost use Rattle.traceviews.specs.HtmlPages.{IsHtmlPage, data_text, html_code, title_text};
ghost use Rattle.traceviews.specs.Pages.{Grows};

use crate::json::push_window;
use crate::line::Line;
use crate::page::Page;
use crate::template::{body, head, script, style};
use crate::turns::turn_count;
use std::alloc::{AllocError, Global};

/// Appends a byte of a text within an element.
fn push_code(byte: u8, out: &mut Page)
    ensures { Grows out.old out.new (html_code byte) }
{
    match byte {
        b'<' => out.text("&lt;"),
        b'&' => out.text("&amp;"),
        _ => out.bytes(&[byte]),
    }
}

/// Appends a text within an element.
fn push_plain(text: &str, out: &mut Page)
    ensures { Grows out.old out.new (flat_map html_code text.now) }
{
    let bytes = text.as_bytes();
    for byte in bytes {
        push_code(*byte, out);
    }
}

/// Appends the title of the page of a trace that has this name.
pub(crate) fn push_title(name: &str, out: &mut Page)
    ensures { Grows out.old out.new (title_text name.now) }
{
    out.text("<title>");
    push_plain(name, out);
    out.text("</title>");
}

/// Appends the element with so many turns of a trace from this one on, and how many it has in all.
fn push_data(first: usize, count: usize, lines: &[Line], out: &mut Page)
    ensures { Grows out.old out.new (data_text first count lines.now) }
{
    out.named(
        "<script type='application/json' id='trace' data-turns='",
        turn_count(lines) as u64,
    );
    out.text("'>\n");
    push_window(first, count, lines, out);
    out.text("</script>\n");
}

/// So many turns of a trace from this one on as an HTML page, which needs no network: the turns with the lanes and who
/// finds what another left, which call each step is of and how far that has come, what a step changed, the places and who
/// holds them, the returned ones, and the commands of each lane as its replies tell them. Its title is the name of the
/// trace.
///
/// # Errors
///
/// `AllocError` where memory is refused.
pub fn html_text(
    alloc: Global,
    name: &str,
    first: usize,
    count: usize,
    lines: &[Line],
) -> Result<Vec<u8>, AllocError>
    ensures { IfOk result (λ text. IsHtmlPage name.now first count lines.now text.items) }
{
    let mut out = Page::new(alloc);
    out.text("<!DOCTYPE html>\n");
    out.text(head());
    push_title(name, &mut out);
    out.text(style());
    out.text(body());
    push_data(first, count, lines, &mut out);
    out.text(script());
    out.text("</html>\n");
    out.finish()
}
