ghost use Rattle.std.specs.Prelude.{◌+◌, ◌≤◌};
ghost use Rattle.watch_page.specs.declared.axis.TheConstants.{FULL};

use crate::axis::{FULL, Scale, write_part};
use crate::bar_label::{BarLabel, LabelTold};
use crate::message_words::{class_of, kind_word, label_word, severity_word, write_brief};
use crate::moment::write_range;
use crate::pieces::write_count;
use crate::words::PageWords;
use dm_messages::Kind;
use picture::{Brief, Severity, Shows, Span, Track};
use safe_text::Page;
use std::alloc::{AllocError, Global};
use std::io::Write;

/// The least width of a bar in hundredths of a percent.
const LEAST: u64 = 30;

/// A row of bars in a lane: where its bars stand, and where their words.
#[derive(Clone, Copy)]
pub(crate) struct BarRow {
    /// The attributes of a bar.
    pub(crate) bar: &'static str,
    /// Those of its words.
    pub(crate) words: &'static str,
    /// What its words begin with.
    pub(crate) before: &'static str,
}

/// The rows of a lane.
pub(crate) const ADDRESSES: BarRow = BarRow {
    bar: " y=\"2\" height=\"16\" role=\"img\"><title>",
    words: " x=\"4\" y=\"12\">",
    before: "",
};

pub(crate) const DM1: BarRow = BarRow {
    bar: " y=\"21\" height=\"22\" role=\"img\"><title>",
    words: " x=\"4\" y=\"15\">",
    before: "",
};

pub(crate) const DM2: BarRow = BarRow {
    bar: " y=\"46\" height=\"14\" role=\"img\"><title>",
    words: " x=\"4\" y=\"11\">",
    before: "DM2 ",
};

pub(crate) const DM6: BarRow = BarRow {
    bar: " y=\"62\" height=\"14\" role=\"img\"><title>",
    words: " x=\"4\" y=\"11\">",
    before: "DM6 ",
};

/// As many spans as may be drawn: of more, neighbours are joined.
pub(crate) fn fitted(alloc: Global, spans: &[Span], most: usize) -> Result<Track, AllocError> {
    let mut track = Track::new(alloc, most.max(2));
    for span in spans {
        track.add(span)?;
    }
    Ok(track)
}

/// Where a bar stands and how wide it is, in hundredths of a percent: within the width of the page, and wide enough to be seen.
fn bar_of(scale: Scale, from: u64, to: u64) -> (u64, u64)
    ensures within { result.0 + result.1 ≤ FULL }
    ensures seen { LEAST ≤ result.1 }
{
    let place = scale.place(from).min(FULL - LEAST);
    let width = scale.place(to).saturating_sub(place).max(LEAST);
    (place, width)
}

/// Begins a bar: what follows is its title. Answers how wide it is.
pub(crate) fn begin_bar<W: Write>(
    page: &mut Page<W>,
    scale: Scale,
    from: u64,
    to: u64,
    bar: &'static str,
) -> u64 {
    let (place, width) = bar_of(scale, from, to);
    write_part(page, "<svg x=\"", place);
    write_part(page, " width=\"", width);
    page.markup(bar);
    width
}

/// Ends the title of a bar, and gives it a class.
pub(crate) fn fill_bar<W: Write>(page: &mut Page<W>, class: &'static str) {
    page.markup("</title><rect width=\"100%\" height=\"100%\" class=\"");
    page.markup(class);
    page.markup("\"/>");
}

/// Writes the words in a bar of this width, and ends it.
fn end_bar<W: Write>(page: &mut Page<W>, row: BarRow, told: LabelTold<'_>, width: u64) {
    let label = BarLabel {
        before: row.before,
        told,
    };
    label.write(page, row.words, width);
    page.markup("</svg>");
}

/// Draws when an address was held.
pub(crate) fn write_address_bar<W: Write>(
    page: &mut Page<W>,
    words: &PageWords<'_>,
    scale: Scale,
    span: &Span,
) {
    let width = begin_bar(page, scale, span.from, span.to, ADDRESSES.bar);
    match &span.shows {
        Shows::Address(address) => write_held(page, words, span, u64::from(*address), width),
        _ => write_moving(page, words, span, width),
    }
}

fn write_held<W: Write>(
    page: &mut Page<W>,
    words: &PageWords<'_>,
    span: &Span,
    address: u64,
    width: u64,
) {
    write_count(page, "address ", address, ", ");
    write_range(page, words, span.from, span.to);
    fill_bar(page, "held");
    let told = LabelTold::Count("address ", address, "");
    end_bar(page, ADDRESSES, told, width);
}

/// Writes that several spans of addresses were joined.
fn write_moving<W: Write>(page: &mut Page<W>, words: &PageWords<'_>, span: &Span, width: u64) {
    write_count(page, "", span.told, " changes of addresses, ");
    write_range(page, words, span.from, span.to);
    fill_bar(page, "changing");
    let told = LabelTold::Count("", span.told, " changes");
    end_bar(page, ADDRESSES, told, width);
}

/// Draws what messages of a kind told.
pub(crate) fn write_message_bar<W: Write>(
    page: &mut Page<W>,
    words: &PageWords<'_>,
    scale: Scale,
    span: &Span,
    kind: Kind,
    row: BarRow,
) {
    let width = begin_bar(page, scale, span.from, span.to, row.bar);
    match &span.shows {
        Shows::Message { brief, times, .. } => {
            write_title(page, words, span, kind, *times);
            write_message(page, words, row, brief, width);
        }
        _ => write_changing(page, words, span, kind, row, width),
    }
}

/// Writes that several messages were joined: in the colour of the worst, striped.
fn write_changing<W: Write>(
    page: &mut Page<W>,
    words: &PageWords<'_>,
    span: &Span,
    kind: Kind,
    row: BarRow,
    width: u64,
) {
    let severity = span.shows.severity();
    write_joined_title(page, words, span, kind, severity);
    fill_bar(page, class_of(severity));
    page.markup(stripes());
    end_bar(
        page,
        row,
        LabelTold::Count("", span.told, " changes"),
        width,
    );
}

fn write_joined_title<W: Write>(
    page: &mut Page<W>,
    words: &PageWords<'_>,
    span: &Span,
    kind: Kind,
    severity: Severity,
) {
    write_count(page, "", span.told, " changes of ");
    page.markup(kind_word(kind));
    page.markup(", ");
    write_range(page, words, span.from, span.to);
    page.markup("; at worst ");
    page.markup(severity_word(severity));
}

/// The stripes of a bar that is made of several.
fn stripes() -> &'static str {
    "<rect width=\"100%\" height=\"100%\" class=\"many\"/>"
}

/// Writes when messages came and how many they were.
fn write_title<W: Write>(
    page: &mut Page<W>,
    words: &PageWords<'_>,
    span: &Span,
    kind: Kind,
    times: u64,
) {
    page.markup(kind_word(kind));
    page.markup(", ");
    write_range(page, words, span.from, span.to);
    if times > 1 {
        write_count(page, ", ", times, " times");
    }
    page.markup(": ");
}

/// Writes what a message told, in the title and in the bar.
fn write_message<W: Write>(
    page: &mut Page<W>,
    words: &PageWords<'_>,
    row: BarRow,
    brief: &Brief,
    width: u64,
) {
    write_brief(page, words, brief);
    fill_bar(page, class_of(brief.severity()));
    if brief.is_contested() {
        page.markup("<rect width=\"100%\" height=\"100%\" class=\"doubt\"/>");
    }
    end_bar(page, row, label_of(brief), width);
}

/// The codes of a message, or how bad it is where it has none.
fn label_of(brief: &Brief) -> LabelTold<'_> {
    if brief.count() == 0 {
        LabelTold::Word(label_word(brief.severity()))
    } else {
        LabelTold::Codes(brief)
    }
}
