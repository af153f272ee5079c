//! The elements of an SVG, as text. Lengths are in its user units.

use crate::page::Page;

/// A rectangle.
#[derive(Clone, Copy)]
pub(crate) struct Area {
    pub(crate) x: u64,
    pub(crate) y: u64,
    pub(crate) width: u64,
    pub(crate) height: u64,
}

/// The end of a text.
pub(crate) const END: &str = "</text>\n";

/// Appends a rectangle.
pub(crate) fn push_rect(class: &str, area: &Area, out: &mut Page) {
    out.text("<rect class=\"");
    out.text(class);
    out.fill(
        "\" x=\"%\" y=\"%\" width=\"%\" height=\"%\"/>\n",
        &[area.x, area.y, area.width, area.height],
    );
}

/// Begins a text that starts at a place.
pub(crate) fn begin_text(class: &str, x: u64, y: u64, out: &mut Page) {
    out.text("<text class=\"");
    out.text(class);
    out.fill("\" x=\"%\" y=\"%\">", &[x, y]);
}
