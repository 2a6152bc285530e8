use crate::changes::{write_changes, write_handovers};
use crate::chips::write_chips;
use crate::identifications::write_vins;
use crate::lanes::write_lanes;
use crate::moment::write_time;
use crate::pieces::write_count;
use crate::since::write_since;
use crate::standing::Standing;
use crate::style::style;
use crate::table::write_table;
use crate::values::write_values;
use crate::view::View;
use crate::words::PageWords;
use bus_watch::BusWatch;
use log_lines::{DurationWords, Fraction};
use picture::Axis;
use safe_text::{Page, PageFault};
use std::io::Write;

/// The most bytes of a title that are shown.
const MOST: usize = 200;

/// Writes the page of what a log told.
///
/// What does not fit is counted in words, so that a page has at most some 5 million bytes, whatever the log.
///
/// # Errors
/// - `Write`: the writer failed; how much was written by then is not told.
/// - `Memory`: memory was refused.
pub fn write_page<W: Write>(writer: W, view: &View<'_>) -> Result<(), PageFault>
where
    W: Drop,
{
    let mut page = Page::new(writer);
    match Standing::of(view) {
        Ok(standing) => write_parts(&mut page, view, &standing),
        Err(_) => page.refuse_memory(),
    }
    page.finish()
}

fn write_parts<W: Write>(page: &mut Page<W>, view: &View<'_>, standing: &Standing) {
    let words = &PageWords::of(view);
    write_head(page, view, words);
    write_chips(page, view, standing);
    write_since(page, view, words);
    write_table(page, view, words, standing);
    write_handovers(page, view, words);
    write_values(page, view, words);
    write_lanes(page, view, words);
    write_changes(page, view, words);
    write_note(page, view.buses);
}

fn write_head<W: Write>(page: &mut Page<W>, view: &View<'_>, words: &PageWords<'_>) {
    write_title(page, file_name(view.title));
    write_extent(page, words, view.picture.end());
    write_count(page, "", view.picture.lines(), " lines");
    write_buses(page, view.buses);
    page.markup("</p>\n");
    write_vins(page, view);
}

fn write_title<W: Write>(page: &mut Page<W>, title: &str) {
    page.markup(before_title());
    page.short_text(title, MOST);
    page.markup("</title>\n<style>\n");
    page.markup(style());
    page.markup(before_heading());
    page.short_text(title, MOST);
    page.markup("</span></h1>\n<p class=\"quiet\">");
}

/// The name of a file without its folders.
fn file_name(path: &str) -> &str {
    let mut name = path;
    for part in path.split('/') {
        if !part.is_empty() {
            name = part;
        }
    }
    name
}

fn write_bus<W: Write>(page: &mut Page<W>, before: &'static str, name: &Option<String>) {
    if let Some(name) = name {
        page.markup(before);
        page.short_text(name.as_str(), MOST);
    }
}

/// What stands before the title.
fn before_title() -> &'static str {
    "<!DOCTYPE html>\n<html lang=\"en\" xmlns=\"http://www.w3.org/1999/xhtml\"><head><meta charset=\"utf-8\"/>\n\
<meta http-equiv=\"Content-Security-Policy\" content=\"default-src 'none'; style-src 'unsafe-inline'\"/>\n\
<meta name=\"viewport\" content=\"width=device-width, initial-scale=1\"/>\n<title>What the bus told: "
}

/// What stands between the style and the title in the heading.
fn before_heading() -> &'static str {
    "</style></head>\n<body><main>\n<h1>What the bus told: <span class=\"text\">"
}

/// Writes from when to when the log is, where its lines have times.
fn write_extent<W: Write>(page: &mut Page<W>, words: &PageWords<'_>, end: u64) {
    match words.axis {
        Axis::Times => write_times(page, words, end),
        Axis::Lines => page.markup("Without times that count; "),
    }
}

fn write_times<W: Write>(page: &mut Page<W>, words: &PageWords<'_>, end: u64) {
    write_time(page, words, words.start, Fraction::Seconds, true);
    page.markup(" to ");
    write_time(page, words, end, Fraction::Seconds, true);
    page.markup(" ");
    page.made_text(words.clock.to_string(words.alloc));
    page.markup(" (");
    page.made_text(DurationWords(end.saturating_sub(words.start)).to_string(words.alloc));
    page.markup("), ");
}

fn write_buses<W: Write>(page: &mut Page<W>, buses: &[BusWatch]) {
    let mut before = ", bus ";
    for bus in buses {
        write_bus(page, before, &bus.bus);
        before = ", ";
    }
}

fn write_note<W: Write>(page: &mut Page<W>, buses: &[BusWatch]) {
    write_count(page, note(), unread_on(buses), "");
    let broken = broken_on(buses);
    if broken > 0 {
        write_count(page, "; broken before their last packet: ", broken, "");
    }
    page.markup(".</p>\n</main></body></html>\n");
}

/// How many messages were half joined and ended without being whole.
fn broken_on(buses: &[BusWatch]) -> u64 {
    let mut broken = 0u64;
    for bus in buses {
        broken = broken.saturating_add(bus.watch.broken_in_all());
    }
    broken
}

/// How many messages could not be read.
fn unread_on(buses: &[BusWatch]) -> u64 {
    let mut unread = 0u64;
    for bus in buses {
        unread = unread.saturating_add(bus.watch.unreadable_in_all());
    }
    unread
}

/// What the page rests on.
fn note() -> &'static str {
    "<p class=\"note\">Read from the bus alone: a message stands under the NAME that last claimed its address in what was read. \
Lamps and codes are those that were heard last, and not what holds at this moment. Messages that could not be read: "
}
