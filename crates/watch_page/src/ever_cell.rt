use crate::message_words::{LAMPS, lamp_class, lamp_word, write_meaning, write_numbers};
use crate::moment::write_range;
use crate::pieces::{write_between, write_count};
use crate::silence::write_last_heard;
use crate::values::write_at_first;
use crate::view::View;
use crate::words::PageWords;
use dm_messages::Kind;
use picture::{Appearance, Axis, DrawnUnit, Ever, EverCode};
use safe_text::Page;
use std::io::Write;
use trouble_code::LampName;

/// How many codes are listed.
const CODES: usize = 20;

/// Writes what a unit told at any time: each lamp and each code with how often it came and from when to when it was shown, and when its
/// DM1 was last heard.
pub(crate) fn write_ever<W: Write>(
    page: &mut Page<W>,
    view: &View<'_>,
    words: &PageWords<'_>,
    unit: &DrawnUnit,
) {
    page.markup("<td role=\"cell\" data-l=\"Ever in this log\">");
    if let Some(ever) = view.ever_active(unit) {
        write_active(page, view, words, unit, ever);
    }
    if let Some(ever) = view.ever.of(unit, Kind::Dm6) {
        write_pending(page, words, ever);
    }
    page.markup("</td>");
}

fn write_active<W: Write>(
    page: &mut Page<W>,
    view: &View<'_>,
    words: &PageWords<'_>,
    unit: &DrawnUnit,
    ever: &Ever,
) {
    for lamp in LAMPS {
        if ever.lamp(lamp).times > 0 {
            write_lamp(page, words, ever, lamp);
        }
    }
    let codes = listed_of(ever.codes());
    for (place, code) in codes.iter().enumerate() {
        page.markup("<div>");
        write_code(page, words, code);
        page.markup("</div>");
        write_at_first(
            page,
            view,
            words,
            unit,
            code,
            codes.get(place.saturating_add(1)),
        );
    }
    write_more(page, ever);
    write_last_heard(page, words, ever.last_heard());
}

fn write_lamp<W: Write>(page: &mut Page<W>, words: &PageWords<'_>, ever: &Ever, lamp: LampName) {
    write_between(page, "<div><span class=\"lamp ", lamp_class(lamp), "\">");
    write_between(page, "", lamp_word(lamp), "</span> ");
    write_appearance(page, words, ever.lamp(lamp));
    page.markup("</div>");
}

fn write_code<W: Write>(page: &mut Page<W>, words: &PageWords<'_>, code: &EverCode) {
    let spn = code.code.spn();
    let fmi = code.code.fmi();
    page.markup("<b>");
    write_numbers(page, spn, fmi);
    page.markup("</b> <span class=\"text\">");
    write_meaning(page, words, "", spn, fmi);
    page.markup(": </span>");
    write_appearance(page, words, &code.seen);
}

/// Writes how often something came, and from when to when it was shown.
fn write_appearance<W: Write>(page: &mut Page<W>, words: &PageWords<'_>, seen: &Appearance) {
    if seen.times == 1 {
        page.markup("once");
    } else {
        write_count(page, "", seen.times, " times");
    }
    if let (Some(first), Some(last), Axis::Times) = (seen.first, seen.last, words.axis) {
        page.markup(", ");
        write_range(page, words, first.micros(), last.micros());
    }
}

/// The codes that are listed: the first.
fn listed_of(codes: &[EverCode]) -> &[EverCode] {
    match codes.get(..CODES) {
        Some(first) => first,
        None => codes,
    }
}

/// Writes how many codes are not listed, and how many are not kept.
fn write_more<W: Write>(page: &mut Page<W>, ever: &Ever) {
    let unlisted = ever.codes().len().saturating_sub(CODES);
    if unlisted > 0 {
        write_count(page, "<div>and ", unlisted as u64, " more codes</div>");
    }
    if ever.more() > 0 {
        let before = "<div>and further codes, up to ";
        write_count(page, before, ever.more() as u64, " in one message</div>");
    }
}

/// Writes the codes that were pending at any time.
fn write_pending<W: Write>(page: &mut Page<W>, words: &PageWords<'_>, ever: &Ever) {
    for code in listed_of(ever.codes()) {
        page.markup("<div class=\"past\">DM6, pending: ");
        write_code(page, words, code);
        page.markup("</div>");
    }
    write_more(page, ever);
}
