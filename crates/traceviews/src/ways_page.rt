//! A page on which one chooses whose turn is next: its data is the JSON of a script's states, and the rest is the same for each.

ghost use Rattle.std.specs.Prelude.{IfOk, flat_map};
ghost use Rattle.traceviews.specs.HtmlPages.{IsWaysPage, script_code, states_text};
ghost use Rattle.traceviews.specs.Pages.{Grows};

use crate::html::push_title;
use crate::page::Page;
use crate::template::{body, head, script, style};
use crate::ways_template::ways;
use std::alloc::{AllocError, Global};

/// Appends a byte of a JSON text within a script's element.
fn push_script_code(byte: u8, out: &mut Page)
    ensures { Grows out.old out.new (script_code byte) }
{
    match byte {
        b'<' => out.text("\\u003c"),
        _ => out.bytes(&[byte]),
    }
}

/// Appends a JSON text within a script's element.
fn push_json(json: &[u8], out: &mut Page)
    ensures { Grows out.old out.new (flat_map script_code json.now) }
{
    for byte in json {
        push_script_code(*byte, out);
    }
}

/// Appends the element with the states of a script, whose JSON this is.
fn push_states(json: &[u8], out: &mut Page)
    ensures { Grows out.old out.new (states_text json.now) }
{
    out.text("<script type='application/json' id='states'>\n");
    push_json(json, out);
    out.text("\n</script>\n");
}

/// The states of a script, whose JSON this is, as an HTML page, which needs no network: one chooses there whose turn is
/// next, back and forth; it shows the turns that were chosen as the page of a trace does, and which outcomes can still
/// come. Its title is this name.
///
/// # Errors
///
/// `AllocError` where memory is refused.
pub fn ways_html_text(alloc: Global, name: &str, json: &[u8]) -> Result<Vec<u8>, AllocError>
    ensures { IfOk result (λ text. IsWaysPage name.now json.now text.items) }
{
    let mut out = Page::new(alloc);
    out.text("<!DOCTYPE html>\n");
    out.text(head());
    push_title(name, &mut out);
    out.text(style());
    out.text(body());
    push_states(json, &mut out);
    out.text(ways());
    out.text(script());
    out.text("</html>\n");
    out.finish()
}
