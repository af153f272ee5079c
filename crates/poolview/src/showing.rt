//! What is shown of a trace or of a graph of states, by its bytes.
ghost use Rattle.std.specs.Prelude.{◌≡◌, ℕ, true, IfOk, IfErr};
ghost use Rattle.traceviews.specs.Lines.{AreLines};
ghost use Rattle.traceviews.specs.Pictures.{IsPicture};
ghost use Rattle.traceviews.specs.WordSteps.{AreFollowing, follows_text};
ghost use Rattle.commandline.specs.declared.views.View.{View};
ghost use Rattle.commandline.specs.declared.views.View.TheVariants as views;
ghost use Rattle.poolview.specs.Shows.{IsShown, ShowsTrace, ShowsGraph, ShowsText, RefusesLines, RefusesText, IsPage, begin_graph};

use crate::fault::Fault;
use crate::graphs::{GraphFault, check_graph};
use commandline::{View, Viewing};
use std::alloc::Global;
use traceviews::{
    Line, ReadFault, Window, WordStyle, events_text, first_stray, follows_text, html_text,
    picture_text, read_trace, summary_text, turns_json, ways_html_text, words_text,
};

/// What is said of lines that follow from one another. The errors: `Stray` where they don't, `Memory` where memory was
/// refused.
fn checked(alloc: Global, lines: &[Line]) -> Result<Vec<u8>, Fault>
    ensures ok { IfOk result (λ text. AreFollowing lines.now × (text.items ≡ follows_text lines.now)) }
    ensures err { IfErr result (RefusesLines views.Check lines.now) }
{
    match first_stray(alloc, lines)? {
        Some(stray) => Err(Fault::Stray(stray)),
        None => Ok(follows_text(alloc, lines)?),
    }
}

/// The picture of some turns. The errors: `Large` where it isn't to fit and is too large, `Memory` where memory was refused.
fn drawn(alloc: Global, lines: &[Line], window: &Window) -> Result<Vec<u8>, Fault>
    ensures ok { IfOk result (λ text. IsPicture text.items) }
    ensures err { (first count : ℕ) → IfErr result (RefusesLines (views.Picture first count window.now.fit) lines.now) }
{
    match picture_text(alloc, lines, window)? {
        Some(text) => Ok(text),
        None => Err(Fault::Large),
    }
}

/// What is shown of the lines of a trace. The errors: `Stray` where a check finds a step that doesn't follow, `Large`
/// where a whole picture is too large, `Memory` where memory was refused.
fn shown(alloc: Global, viewing: &Viewing, lines: &[Line]) -> Result<Vec<u8>, Fault>
    ensures ok { IfOk result (λ text. IsShown viewing.now.file.now viewing.now.view lines.now text.items) }
    ensures err { IfErr result (RefusesLines viewing.now.view lines.now) }
{
    match viewing.view {
        View::Picture { first, count, fit } => drawn(alloc, lines, &Window { first, count, fit }),
        View::Words { keys, numbers } => Ok(words_text(alloc, WordStyle { keys, numbers }, lines)?),
        View::Summary => Ok(summary_text(alloc, lines)?),
        View::Json => Ok(turns_json(alloc, lines)?),
        View::Events => Ok(events_text(alloc, lines)?),
        View::Page { first, count } => Ok(html_text(alloc, viewing.file, first, count, lines)?),
        View::Check => checked(alloc, lines),
    }
}

/// The lines of a trace's text.
fn lines_of(alloc: Global, bytes: &[u8]) -> Result<Vec<Line>, Fault>
    ensures ok { IfOk result (λ lines. AreLines lines.items bytes.now) }
    ensures err { (view : View) → IfErr result (RefusesText view bytes.now) }
{
    match read_trace(alloc, bytes) {
        Ok(lines) => Ok(lines),
        Err(ReadFault::Memory) => Err(Fault::Memory),
        Err(ReadFault::Line { number, wanted }) => Err(Fault::Line { number, wanted }),
    }
}

/// What is shown of a trace's text. The errors: `Line` where it is none, `Stray` where a check finds a step that doesn't
/// follow, `Large` where a whole picture is too large, and `Memory` where memory was refused.
fn trace_shown(alloc: Global, viewing: &Viewing, bytes: &[u8]) -> Result<Vec<u8>, Fault>
    ensures ok { IfOk result (λ text. ShowsTrace viewing.now.file.now viewing.now.view bytes.now text.items) }
    ensures err { IfErr result (RefusesText viewing.now.view bytes.now) }
{
    let lines = lines_of(alloc, bytes)?;
    shown(alloc, viewing, lines.as_slice())
}

/// Whether bytes are to be a graph.
fn begin_graph(bytes: &[u8]) -> bool
    ensures { result ≡ begin_graph bytes.now }
{
    match bytes.split_first() {
        Some((byte, _)) => *byte == b'{',
        None => false,
    }
}

/// The page of a graph's bytes. The errors: `Graph` where they are none, `Memory` where memory was refused.
fn graph_shown(alloc: Global, viewing: &Viewing, bytes: &[u8]) -> Result<Vec<u8>, Fault>
    requires page { IsPage viewing.now.view }
    requires begin { begin_graph bytes.now ≡ true }
    ensures ok { IfOk result (λ text. ShowsGraph viewing.now.file.now viewing.now.view bytes.now text.items) }
    ensures err { IfErr result (RefusesText viewing.now.view bytes.now) }
{
    match check_graph(alloc, bytes) {
        Ok(()) => Ok(ways_html_text(alloc, viewing.file, bytes)?),
        Err(GraphFault::None) => Err(Fault::Graph),
        Err(GraphFault::Memory) => Err(Fault::Memory),
    }
}

/// The page of a trace's text or of a graph's. The errors: those of `trace_shown` and of `graph_shown`.
fn page_shown(alloc: Global, viewing: &Viewing, bytes: &[u8]) -> Result<Vec<u8>, Fault>
    requires { IsPage viewing.now.view }
    ensures ok { IfOk result (λ text. ShowsText viewing.now.file.now viewing.now.view bytes.now text.items) }
    ensures err { IfErr result (RefusesText viewing.now.view bytes.now) }
{
    if begin_graph(bytes) {
        graph_shown(alloc, viewing, bytes)
    } else {
        trace_shown(alloc, viewing, bytes)
    }
}

/// What is shown of a trace's text, or on a page of a graph's. The errors: those of `trace_shown` and of `graph_shown`.
pub(crate) fn text_shown(alloc: Global, viewing: &Viewing, bytes: &[u8]) -> Result<Vec<u8>, Fault>
    ensures ok { IfOk result (λ text. ShowsText viewing.now.file.now viewing.now.view bytes.now text.items) }
    ensures err { IfErr result (RefusesText viewing.now.view bytes.now) }
{
    match viewing.view {
        View::Page { .. } => page_shown(alloc, viewing, bytes),
        _ => trace_shown(alloc, viewing, bytes),
    }
}
