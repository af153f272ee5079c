//! The title of a picture, its style, and the names over its columns.

use crate::page::Page;
use crate::shapes::END;

/// What the picture shows.
#[derive(Clone, Copy)]
pub(crate) struct Extent {
    pub(crate) lanes: usize,
    pub(crate) first: usize,
    pub(crate) end: usize,
    pub(crate) count: usize,
    pub(crate) width: u64,
    pub(crate) height: u64,
    pub(crate) fit: bool,
}

/// The height of the title, the legend and the names of the columns.
pub(crate) const TOP: u64 = 160;

/// What a picture is, for those who don't see it.
const DESCRIPTION: &str =
    "<desc>Lanes are columns, turns are rows. A turn has the replies of its lane's commands and the step that it made: what the step found and what it left. Beside them each place has a strip with its state and count. An arrow leads from a turn to that of another lane which finds what it left.</desc>
";

/// The style and the head of an arrow. The colours are those of Okabe and Ito, which people with any form of
/// colour blindness tell apart.
const STYLE: &str = "<style>
text { font: 12px ui-monospace, SFMono-Regular, Menlo, Consolas, 'DejaVu Sans Mono', monospace; fill: #1f2328 }
.title { font-size: 15px; font-weight: bold } .head { font-weight: bold }
.faint { fill: #57606a } .reply { fill: #0072B2 } .fail { fill: #b34700; font-weight: bold }
.number { fill: #57606a; text-anchor: end } .in { fill: #000000; text-anchor: middle } .along { fill: #000000 } .name { font-weight: bold }
.cut { stroke: #ffffff }
.page { fill: #ffffff } .lane { stroke: #d0d7de; fill: none } .box { fill: #f6f8fa; stroke: #8c959f }
.failed { fill: #f6f8fa; stroke: #D55E00; stroke-width: 2; stroke-dasharray: 5 3 }
.IDLE { fill: #BBBBBB } .PRESENT { fill: #009E73 } .MARKED { fill: #E69F00 } .RETIRED { fill: #D55E00 } .link { fill: #CC79A7 }
.arrow { fill: none; stroke: #0072B2; stroke-width: 1.5 } .tip { fill: #0072B2 }
@media (prefers-color-scheme: dark) {
svg { background: #0d1117; color-scheme: dark }
text { fill: #e6edf3 } .faint { fill: #9da7b3 } .number { fill: #9da7b3 } .reply { fill: #56B4E9 } .fail { fill: #ff9d5c } .in, .along { fill: #000000 }
.page { fill: #0d1117 } .cut { stroke: #0d1117 } .IDLE { fill: #8b949e } .lane { stroke: #30363d } .box { fill: #161b22; stroke: #6e7681 } .failed { fill: #161b22 }
.arrow { stroke: #56B4E9 } .tip { fill: #56B4E9 }
}
</style>
<defs><marker id=\"tip\" viewBox=\"0 0 8 8\" refX=\"7\" refY=\"4\" markerWidth=\"8\" markerHeight=\"8\" markerUnits=\"userSpaceOnUse\" orient=\"auto\"><path class=\"tip\" d=\"M0 0L8 4L0 8z\"/></marker></defs>
";

/// The end of the line of text over the picture, and the legend below it, which 385 pixels have room for.
const LEGEND: &str = "</text>
<rect class=\"IDLE\" x=\"16\" y=\"37\" width=\"14\" height=\"14\"/>
<text class=\"faint\" x=\"34\" y=\"48\">IDLE</text>
<rect class=\"PRESENT\" x=\"73\" y=\"37\" width=\"14\" height=\"14\"/>
<text class=\"faint\" x=\"91\" y=\"48\">PRESENT</text>
<rect class=\"MARKED\" x=\"152\" y=\"37\" width=\"14\" height=\"14\"/>
<text class=\"faint\" x=\"170\" y=\"48\">MARKED</text>
<rect class=\"RETIRED\" x=\"223\" y=\"37\" width=\"14\" height=\"14\"/>
<text class=\"faint\" x=\"241\" y=\"48\">RETIRED</text>
<rect class=\"link\" x=\"302\" y=\"37\" width=\"14\" height=\"14\"/>
<text class=\"faint\" x=\"320\" y=\"48\">returns</text>
<text class=\"faint\" x=\"16\" y=\"68\">A step: what it found → what it left, as state,</text>
<text class=\"faint\" x=\"16\" y=\"84\">count and generation. A place: shard/page/slot.</text>
<text class=\"faint\" x=\"16\" y=\"100\">A stack: shard.lane. An arrow: a lane finds what</text>
<text class=\"faint\" x=\"16\" y=\"116\">another lane left. A strip: a place, with the</text>
<text class=\"faint\" x=\"16\" y=\"132\">first letter of its state and its count.</text>
";

/// Appends which turns are shown.
fn push_turns(extent: &Extent, out: &mut Page) {
    let count = extent.count as u64;
    if extent.end <= extent.first {
        return out.fill("no turns of %", &[count]);
    }
    let last = (extent.end - 1) as u64;
    out.fill(
        "turns % to % of %, lanes %",
        &[extent.first as u64, last, count, extent.lanes as u64],
    );
}

/// Appends what stands above the columns, behind the name of the first tag: the size, the title, the style, which turns
/// are shown, and the legend.
pub(crate) fn push_head(extent: &Extent, out: &mut Page) {
    let Extent { width, height, .. } = *extent;
    out.fill(
        " width=\"%\" height=\"%\" viewBox=\"0 0 % %\">\n<title>A trace of the pool: ",
        &[width, height, width, height],
    );
    push_turns(extent, out);
    out.text("</title>\n");
    if extent.fit {
        out.text(DESCRIPTION);
    }
    out.text(STYLE);
    out.fill(
        "<rect class=\"page\" x=\"0\" y=\"0\" width=\"%\" height=\"%\"/>\n<text class=\"title\" x=\"16\" y=\"24\">",
        &[width, height],
    );
    push_turns(extent, out);
    out.text(LEGEND);
}

/// Appends below the turns of a picture that is to fit which they are, and where the next ones are.
pub(crate) fn push_foot(extent: &Extent, y: u64, out: &mut Page) {
    if !extent.fit {
        return;
    }
    out.fill(
        "<text class=\"title\" x=\"16\" y=\"%\">",
        &[y.saturating_add(22)],
    );
    push_turns(extent, out);
    if extent.end < extent.count {
        out.fill("; the next: --from %", &[extent.end as u64]);
    }
    out.text(END);
}

/// Appends the name over a lane's column, and a line down the column.
pub(crate) fn push_lane(x: u64, lane: u32, end: u64, out: &mut Page) {
    out.fill(
        "<text class=\"head\" x=\"%\" y=\"%\">lane %</text>\n<path class=\"lane\" d=\"M% %V%\"/>\n",
        &[x, TOP - 10, u64::from(lane), x.saturating_add(3), TOP, end],
    );
}

/// Appends the name over a place's strip.
pub(crate) fn push_strip_name(x: u64, place: u32, out: &mut Page) {
    out.fill(
        "<text class=\"faint\" transform=\"translate(% %) rotate(-60)\">",
        &[x.saturating_add(18), TOP - 8],
    );
    out.place(place);
    out.text(END);
}
