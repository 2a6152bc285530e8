use crate::axis::{Scale, write_axis, write_lines};
use crate::bars::{
    ADDRESSES, BarRow, DM1, DM2, DM6, begin_bar, fill_bar, fitted, write_address_bar,
    write_message_bar,
};
use crate::labels::{write_identity, write_label};
use crate::pieces::{by_count, write_count};
use crate::standing::{ALL_ORDERS, order_of, presence_of, severity_now};
use crate::unit_list::Presence;
use crate::view::View;
use crate::words::PageWords;
use dm_messages::Kind;
use picture::{Picture, Severity, Shows, Span, Track, UnitLane};
use safe_text::Page;
use std::io::Write;

/// How large the page may be when a further bar is begun, in bytes, and how many bars all lanes have at most.
const ROOM: u64 = 3_800_000;

const BARS: usize = 8_000;

/// Writes when it was: a lane for each unit, those that told the worst first.
pub(crate) fn write_lanes<W: Write>(page: &mut Page<W>, view: &View<'_>, words: &PageWords<'_>) {
    let scale = Scale::of(view.picture);
    page.markup(head());
    write_axis(page, words, scale);
    for order in 0..ALL_ORDERS {
        write_order(page, view, words, scale, order);
    }
    write_undrawn(page, view.picture);
    page.markup(key());
}

/// Writes the lanes of one order.
fn write_order<W: Write>(
    page: &mut Page<W>,
    view: &View<'_>,
    words: &PageWords<'_>,
    scale: Scale,
    order: usize,
) {
    for lane in view.picture.lanes() {
        if lane_order(view, lane) == order && !page.has_failed() {
            write_lane(page, view, words, scale, lane);
        }
    }
}

/// The heading, and the patterns by which bars are hatched.
fn head() -> &'static str {
    "<h2>When</h2>\n<svg xmlns=\"http://www.w3.org/2000/svg\" class=\"defs\" width=\"0\" height=\"0\" aria-hidden=\"true\"><defs>\
<pattern id=\"gap\" width=\"8\" height=\"8\" patternUnits=\"userSpaceOnUse\" patternTransform=\"rotate(45)\"><rect width=\"8\" height=\"8\" class=\"ground\"/><rect width=\"3\" height=\"8\" class=\"hatch\"/></pattern>\
<pattern id=\"many\" width=\"6\" height=\"6\" patternUnits=\"userSpaceOnUse\"><rect width=\"1\" height=\"6\" class=\"shade\"/></pattern>\
<pattern id=\"doubt\" width=\"6\" height=\"6\" patternUnits=\"userSpaceOnUse\" patternTransform=\"rotate(45)\"><rect width=\"2\" height=\"6\" class=\"shade\"/></pattern></defs></svg>\n"
}

/// What the colours say.
fn key() -> &'static str {
    "<ul class=\"key\"><li><span class=\"k held\"></span>holds the address</li><li><span class=\"k fine\"></span>DM1 without fault</li>\
<li><span class=\"k changing\"></span>no readable code, read in part</li><li><span class=\"k codes\"></span>faults, no lamp</li><li><span class=\"k protect\"></span>lamp protect</li><li><span class=\"k mil\"></span>lamp mil</li>\
<li><span class=\"k amber\"></span>lamp amber</li><li><span class=\"k red\"></span>lamp stop</li><li><span class=\"k striped\"></span>several changes, in the colour of the worst</li>\
<li><span class=\"k gapped\"></span>frames missed: who sends is not known until units claim again</li><li><span class=\"k doubted\"></span>in doubt</li></ul>\n"
}

/// In which order a lane stands: by the worst that its unit told at any time, and then as the rows of the table.
fn lane_order(view: &View<'_>, lane: &UnitLane) -> usize {
    let unit = lane.unit();
    let worst = lane.worst().worse(view.worst_ever(unit));
    match view.watched(unit) {
        Some((watch, _)) => {
            let presence = presence_of(view.picture, watch, unit);
            order_of(worst, presence, severity_now(view, watch, unit))
        }
        None => order_of(worst, Presence::On, Severity::Fine),
    }
}

fn write_lane<W: Write>(
    page: &mut Page<W>,
    view: &View<'_>,
    words: &PageWords<'_>,
    scale: Scale,
    lane: &UnitLane,
) {
    begin_lane(page, view, lane);
    write_lines(page, words, scale);
    let most = BARS / view.picture.lanes().len().max(1);
    write_bars(page, words, scale, lane, most);
    write_gaps(page, view.picture.gaps(), scale, lane);
    page.markup("</svg>\n");
}

/// Writes whose lane it is, and how high it is.
fn begin_lane<W: Write>(page: &mut Page<W>, view: &View<'_>, lane: &UnitLane) {
    page.markup("<h3><span class=\"text\">");
    write_label(page, view.units, lane.unit());
    page.markup("</span> <span class=\"name\">");
    write_identity(page, view, lane.unit());
    page.markup(lane_begin());
    page.markup(height_of(lane));
    page.markup("\" role=\"group\">");
}

/// Writes the bars of a lane.
fn write_bars<W: Write>(
    page: &mut Page<W>,
    words: &PageWords<'_>,
    scale: Scale,
    lane: &UnitLane,
    most: usize,
) {
    write_addresses(page, words, scale, lane, most / 4);
    write_messages(page, words, scale, lane, Kind::Dm1, most / 2);
    write_messages(page, words, scale, lane, Kind::Dm2, most / 8);
    write_messages(page, words, scale, lane, Kind::Dm6, most / 8);
}

fn lane_begin() -> &'static str {
    "</span></h3>\n<svg xmlns=\"http://www.w3.org/2000/svg\" class=\"lane\" width=\"100%\" height=\""
}

/// How high a lane is, by which kinds of messages it has.
fn height_of(lane: &UnitLane) -> &'static str {
    if !lane.messages(Kind::Dm6).is_empty() {
        "78"
    } else if !lane.messages(Kind::Dm2).is_empty() {
        "62"
    } else {
        "45"
    }
}

fn write_addresses<W: Write>(
    page: &mut Page<W>,
    words: &PageWords<'_>,
    scale: Scale,
    lane: &UnitLane,
    most: usize,
) {
    match fitted(words.alloc, lane.addresses(), most) {
        Ok(track) => write_address_bars(page, words, scale, track.spans()),
        Err(_) => page.refuse_memory(),
    }
}

fn write_address_bars<W: Write>(
    page: &mut Page<W>,
    words: &PageWords<'_>,
    scale: Scale,
    spans: &[Span],
) {
    for span in spans {
        if page.has_room(ROOM) {
            write_address_bar(page, words, scale, span);
        }
    }
}

fn write_messages<W: Write>(
    page: &mut Page<W>,
    words: &PageWords<'_>,
    scale: Scale,
    lane: &UnitLane,
    kind: Kind,
    most: usize,
) {
    match fitted(words.alloc, lane.messages(kind), most) {
        Ok(track) => write_message_bars(page, words, scale, track.spans(), kind),
        Err(_) => page.refuse_memory(),
    }
}

/// Where the bars of a kind stand.
fn row_of(kind: Kind) -> BarRow {
    match kind {
        Kind::Dm1 => DM1,
        Kind::Dm2 => DM2,
        Kind::Dm6 => DM6,
    }
}

fn write_message_bars<W: Write>(
    page: &mut Page<W>,
    words: &PageWords<'_>,
    scale: Scale,
    spans: &[Span],
    kind: Kind,
) {
    for span in spans {
        if page.has_room(ROOM) {
            write_message_bar(page, words, scale, span, kind, row_of(kind));
        }
    }
}

/// Hatches a lane from each gap to where its unit claims again: in between it is not known who sent.
fn write_gaps<W: Write>(page: &mut Page<W>, gaps: &[Span], scale: Scale, lane: &UnitLane) {
    let mut hatched_to = 0u64;
    for gap in gaps {
        if is_seen_before(lane, gap) && (gap.from >= hatched_to || hatched_to == 0) {
            let to = next_claim(lane, gap.from).unwrap_or(scale.end());
            if page.has_room(ROOM) {
                write_gap(page, scale, gap, to);
            }
            hatched_to = to;
        }
    }
}

/// Whether a lane's unit held an address before a gap of its bus.
fn is_seen_before(lane: &UnitLane, gap: &Span) -> bool {
    let is_here = match &gap.shows {
        Shows::Missed { bus, .. } => *bus == lane.unit().bus,
        _ => true,
    };
    match lane.addresses().first() {
        Some(first) => is_here && first.from <= gap.from,
        None => false,
    }
}

/// When a unit claimed its address again.
fn next_claim(lane: &UnitLane, moment: u64) -> Option<u64> {
    for span in lane.addresses() {
        if span.from >= moment {
            return Some(span.from);
        }
    }
    None
}

fn write_gap<W: Write>(page: &mut Page<W>, scale: Scale, gap: &Span, to: u64) {
    let _width = begin_bar(page, scale, gap.from, to, gap_bar());
    match &gap.shows {
        Shows::Missed { count, .. } => write_missed(page, *count),
        _ => page.markup("frames missed several times"),
    }
    page.markup(": it is not known which address this unit holds");
    fill_bar(page, "gap");
    page.markup("</svg>");
}

fn gap_bar() -> &'static str {
    " y=\"0\" height=\"100%\" role=\"img\"><title>"
}

fn write_missed<W: Write>(page: &mut Page<W>, count: u64) {
    let words = by_count(count, " frame missed", " frames missed");
    write_count(page, "", count, words);
}

fn write_undrawn<W: Write>(page: &mut Page<W>, picture: &Picture) {
    let undrawn = picture.undrawn();
    if undrawn > 0 {
        let before = "<p class=\"quiet\">Not drawn: ";
        write_count(page, before, undrawn, " changes of further units.</p>\n");
    }
    if !page.has_room(ROOM) {
        page.markup(too_many_words());
    }
}

fn too_many_words() -> &'static str {
    "<p class=\"quiet\">Not all bars are drawn, so that the page stays small.</p>\n"
}
