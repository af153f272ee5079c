//! The picture of a trace.

ghost use Rattle.std.specs.Prelude.{◌≡◌, IfOk, IfNone, MatchOption, false};
ghost use Rattle.traceviews.specs.Pictures.{IsPicture};

use crate::arrows::{Writer, Writers, push_arrow};
use crate::boxes::{BOX, Columns, Content, LINE, height_of, push_box};
use crate::found::{lanes_of, places_of};
use crate::head::{Extent, TOP, push_foot, push_head, push_lane, push_strip_name};
use crate::line::{Entry, Line, NamedStep};
use crate::numbers::position_of;
use crate::page::Page;
use crate::rows::{Row, rows_of};
use crate::shapes::Area;
use crate::strips::{STRIP, Strips};
use keybits::Word;
use std::alloc::{AllocError, Global};
use std::collections::BTreeSet;

/// Which turns a picture shows, counted from 0.
#[derive(Clone, Copy)]
pub struct Window {
    /// The first turn.
    pub first: usize,
    /// How many turns at most.
    pub count: usize,
    /// Whether the picture ends before 32767 pixels and says where, names the command of each reply, and has arrows in
    /// front. Else there is none where it would need more.
    pub fit: bool,
}

/// How far turns are from each other.
const GAP: u64 = 12;

/// How wide a picture is at least: its legend has room.
const LEAST_WIDTH: u64 = 460;

/// How wide and high a picture may be: viewers open no larger one.
const GREATEST: u64 = 32_767;

/// How much room is left below the last turn of a picture that is to fit.
const FOOT: u64 = 64;

/// The step among the lines of a turn.
fn step_of(lines: &[Line]) -> Option<&NamedStep> {
    for line in lines {
        if let Entry::Step(step) = &line.entry {
            return Some(step);
        }
    }
    None
}

/// The rows that a window asks for.
fn asked<'a>(rows: &'a [Row], window: &Window) -> &'a [Row] {
    let first = window.first.min(rows.len());
    let count = window.count.min(rows.len() - first);
    &rows[first..first + count]
}

/// The lines from one index up to another; none where there are no such lines.
fn lines_between(lines: &[Line], first: usize, end: usize) -> &[Line] {
    if first <= end && end <= lines.len() {
        &lines[first..end]
    } else {
        &lines[..0]
    }
}

/// The lines of a turn.
fn lines_of<'a>(lines: &'a [Line], row: &Row) -> &'a [Line] {
    lines_between(lines, row.first, row.end)
}

/// The lines of some turns, one after the other.
fn lines_of_all<'a>(lines: &'a [Line], rows: &[Row]) -> &'a [Line] {
    if rows.is_empty() {
        return &lines[..0];
    }
    lines_between(lines, rows[0].first, rows[rows.len() - 1].end)
}

/// The first rows that have room in a picture, beside and below each other. The lanes have columns up to `left`.
fn fitting<'a>(
    alloc: Global,
    lines: &[Line],
    rows: &'a [Row],
    left: u64,
) -> Result<&'a [Row], AllocError> {
    let mut places = BTreeSet::new(alloc);
    let mut width = left.saturating_add(FOOT);
    let mut height = TOP + FOOT;
    for (at, row) in rows.iter().enumerate() {
        height = height.saturating_add(height_with_gap(row));
        if is_new_place(lines_of(lines, row), &mut places)? {
            width = width.saturating_add(STRIP);
        }
        if height > GREATEST || width > GREATEST {
            return Ok(&rows[..at]);
        }
    }
    Ok(rows)
}

/// How high a turn is, with the room below it.
fn height_with_gap(row: &Row) -> u64 {
    height_of(row.end.saturating_sub(row.first), row.has_step).saturating_add(GAP)
}

/// Whether the step of a turn is on the lifecycle word of a place that isn't among these; it is then put among them.
fn is_new_place(lines: &[Line], places: &mut BTreeSet<u32>) -> Result<bool, AllocError> {
    let Some(step) = step_of(lines) else {
        return Ok(false);
    };
    match step.word {
        Word::Life { place } => Ok(places.insert(place)?),
        Word::Link { .. } | Word::Stack { .. } => Ok(false),
    }
}

/// The rows that are drawn.
fn shown<'a>(
    alloc: Global,
    lines: &[Line],
    rows: &'a [Row],
    window: &Window,
) -> Result<&'a [Row], AllocError> {
    let rows_asked = asked(rows, window);
    if !window.fit {
        return Ok(rows_asked);
    }
    let lanes = lanes_of(alloc, lines)?;
    fitting(alloc, lines, rows_asked, Columns::new(lanes.len()).end())
}

/// What is drawn, in three layers, and where the next turn is drawn.
#[derive(Drop)]
struct Canvas {
    lanes: Vec<u32>,
    columns: Columns,
    strips: Strips,
    writers: Writers,
    below: Page,
    arrows: Page,
    boxes: Page,
    y: u64,
    fit: bool,
}

/// Notes who left what words have when the first turn is drawn. Where memory is refused for it, the arrows aren't
/// whole.
fn note_earlier(lines: &[Line], rows: &[Row], canvas: &mut Canvas) {
    for (turn, row) in rows.iter().enumerate() {
        if let Some(step) = step_of(lines_of(lines, row)) {
            let column = position_of(canvas.lanes.as_slice(), row.lane);
            let writer = Writer {
                turn,
                column,
                top: TOP,
                step: TOP,
                bottom: TOP,
            };
            let noted = canvas.writers.note(step, writer);
            canvas.arrows.note(noted);
        }
    }
}

/// Begins the strip of each place with what its first step finds.
fn begin_strips(lines: &[Line], rows: &[Row], strips: &mut Strips) {
    let mut rest = rows;
    while let Some((row, earlier)) = rest.split_last() {
        if let Some(step) = step_of(lines_of(lines, row)) {
            if let Word::Life { place } = step.word {
                strips.begin(place, step.before);
            }
        }
        rest = earlier;
    }
}

/// How high the lines before a turn's step are; 0 where it makes none.
fn above_step(lines: &[Line]) -> u64 {
    let mut high = 0u64;
    for line in lines {
        if let Entry::Step(_) = &line.entry {
            return high;
        }
        high = high.saturating_add(LINE);
    }
    0
}

/// Draws the step of a turn: its arrow, and the strip of its place. Where memory is refused for what it left, the
/// arrows aren't whole.
fn draw_step(step: &NamedStep, to: Writer, canvas: &mut Canvas) {
    if let Some(from) = canvas.writers.before(step) {
        push_arrow(&canvas.columns, from, &to, &mut canvas.arrows);
    }
    let noted = canvas.writers.note(step, to);
    canvas.arrows.note(noted);
    if let Word::Life { place } = step.word {
        let since = canvas.y;
        canvas
            .strips
            .change(place, step.after, since, &mut canvas.below);
    }
}

/// Draws a turn, and goes down by its height.
fn draw_row(number: usize, lines: &[Line], row: &Row, canvas: &mut Canvas) {
    let lines = lines_of(lines, row);
    let step = step_of(lines);
    let column = position_of(canvas.lanes.as_slice(), row.lane);
    let area = Area {
        x: canvas.columns.at(column),
        y: canvas.y,
        width: BOX,
        height: height_of(lines.len(), row.has_step),
    };
    let turn = Writer {
        turn: number,
        column,
        top: area.y,
        step: area
            .y
            .saturating_add(above_step(lines))
            .saturating_add(LINE - 4),
        bottom: area.y.saturating_add(area.height),
    };
    if let Some(step) = step {
        draw_step(step, turn, canvas);
    }
    let content = Content {
        lane: row.lane,
        lines,
        step,
        named: canvas.fit,
    };
    push_box(&turn, &content, &area, &mut canvas.boxes);
    canvas.y = turn.bottom.saturating_add(GAP);
}

/// Draws some turns, before which there are others.
fn draw(lines: &[Line], earlier: &[Row], shown_rows: &[Row], canvas: &mut Canvas) {
    let first = earlier.len();
    note_earlier(lines, earlier, canvas);
    begin_strips(lines, shown_rows, &mut canvas.strips);
    for (index, row) in shown_rows.iter().enumerate() {
        draw_row(first.saturating_add(index), lines, row, canvas);
    }
}

/// Appends the names of the lanes, and a line down each column.
fn push_lanes(canvas: &Canvas, out: &mut Page) {
    for (column, lane) in canvas.lanes.iter().enumerate() {
        push_lane(canvas.columns.at(column), *lane, canvas.y, out);
    }
}

/// Appends the names of the places.
fn push_strip_names(strips: &Strips, out: &mut Page) {
    for (index, strip) in strips.strips().iter().enumerate() {
        push_strip_name(strips.left_of(index), strip.place, out);
    }
}

/// Appends the layers, from the lowest to the highest.
fn push_layers(canvas: &Canvas, out: &mut Page) {
    push_lanes(canvas, out);
    push_strip_names(&canvas.strips, out);
    out.page(&canvas.below);
    canvas.strips.end(canvas.y, out);
    if canvas.fit {
        out.page(&canvas.boxes);
        out.page(&canvas.arrows);
    } else {
        out.page(&canvas.arrows);
        out.page(&canvas.boxes);
    }
}

/// An empty canvas for some turns.
fn canvas_for(
    alloc: Global,
    lines: &[Line],
    rows: &[Row],
    fit: bool,
) -> Result<Canvas, AllocError> {
    let lanes = lanes_of(alloc, lines)?;
    let places = places_of(alloc, lines_of_all(lines, rows))?;
    let columns = Columns::new(lanes.len());
    let strips = Strips::new(alloc, places, columns.end(), TOP)?;
    Ok(Canvas {
        lanes,
        columns,
        strips,
        writers: Writers::new(alloc),
        below: Page::new(alloc),
        arrows: Page::new(alloc),
        boxes: Page::new(alloc),
        y: TOP,
        fit,
    })
}

/// What of a trace is drawn on a canvas.
fn extent_of(canvas: &Canvas, first: usize, drawn: usize, count: usize) -> Extent {
    let places = canvas.strips.strips().len();
    let width = canvas.strips.left_of(places).saturating_add(26);
    Extent {
        lanes: canvas.lanes.len(),
        first,
        end: first.saturating_add(drawn),
        count,
        width: width.max(LEAST_WIDTH),
        height: canvas.y.saturating_add(if canvas.fit { 40 } else { 16 }),
        fit: canvas.fit,
    }
}

/// Whether a picture is larger than viewers open.
fn is_large(extent: &Extent) -> bool {
    extent.width > GREATEST || extent.height > GREATEST
}

/// What stands in the picture of some turns of a trace, behind the name of its first tag and before its last one; nothing
/// where it isn't to fit, and is too large.
fn drawing_of(alloc: Global, lines: &[Line], window: &Window) -> Result<Option<Page>, AllocError>
    ensures { IfOk result (λ found. IfNone found (window.now.fit ≡ false)) }
{
    let rows = rows_of(alloc, lines)?;
    let rows = rows.as_slice();
    let drawn = shown(alloc, lines, rows, window)?;
    let first = window.first.min(rows.len());
    let mut canvas = canvas_for(alloc, lines, drawn, window.fit)?;
    draw(lines, &rows[..first], drawn, &mut canvas);
    let extent = extent_of(&canvas, first, drawn.len(), rows.len());
    if !window.fit && is_large(&extent) {
        return Ok(None);
    }
    let mut out = Page::new(alloc);
    push_head(&extent, &mut out);
    push_layers(&canvas, &mut out);
    push_foot(&extent, canvas.y, &mut out);
    Ok(Some(out))
}

/// The picture of some turns of a trace, as an SVG: each lane a column, each turn a row with its replies and its step,
/// and beside them a strip for each place that these turns step on. A window past the end shows no turn; one that is to
/// fit shows no more than have room. `None` where it isn't to fit, and needs more than 32767 pixels.
///
/// # Errors
///
/// `AllocError` where memory is refused.
pub fn picture_text(
    alloc: Global,
    lines: &[Line],
    window: &Window,
) -> Result<Option<Vec<u8>>, AllocError>
    ensures { IfOk result (λ found. MatchOption found (window.now.fit ≡ false) (λ text. IsPicture text.items)) }
{
    let Some(drawing) = drawing_of(alloc, lines, window)? else {
        return Ok(None);
    };
    let mut out = Page::new(alloc);
    out.text("<svg xmlns=\"http://www.w3.org/2000/svg\" role=\"img\"");
    out.page(&drawing);
    out.text("</svg>\n");
    Ok(Some(out.finish()?))
}
