//! What a unit told at any time of the log, as a JSON object.

use crate::object_parts::{write_code_text, write_time};
use crate::report_writer::ReportWriter;
use crate::reported_bus::{ReportedBus, lamp_words, whole_seconds};
use bus_watch::Who;
use dm_messages::Kind;
use picture::{Appearance, Ever, EverCode};
use shop_texts::Texts;
use std::io::Write;

/// The member `ever` of a row: an object of DM1, and one of DM6. Nothing where it is not kept what the unit told.
pub(crate) fn write_ever<W: Write>(
    report: &mut ReportWriter<'_, W>,
    bus: &ReportedBus<'_>,
    texts: &Texts,
    who: &Who,
) {
    let Some(active) = bus.ever_of(who, Kind::Dm1) else {
        return;
    };
    let Some(pending) = bus.ever_of(who, Kind::Dm6) else {
        return;
    };
    report.text(",\"ever\":{\"dm1\":{");
    write_kind(report, texts, active);
    write_silence(report, bus.silence(who, Kind::Dm1));
    report.text("},\"dm6\":{");
    write_kind(report, texts, pending);
    report.text("}}");
}

/// What it told by a kind: the worst lamp, each code, how many codes are not kept, and when the kind was last heard.
fn write_kind<W: Write>(report: &mut ReportWriter<'_, W>, texts: &Texts, ever: &Ever) {
    write_worst(report, ever);
    write_codes(report, texts, ever.codes());
    let more = ever.more();
    write!(report, ",\"more\":{more}");
    write_time(report, "last_heard", &ever.last_heard());
}

/// The worst lamp that was on at any time, null where none was.
fn write_worst<W: Write>(report: &mut ReportWriter<'_, W>, ever: &Ever) {
    match ever.worst_lamp() {
        Some(lamp) => {
            let word = lamp_words(lamp);
            write!(report, "\"lamp\":\"{word}\"");
            write_seen(report, ever.lamp(lamp));
        }
        None => report.text("\"lamp\":null,\"times\":0,\"first\":null,\"last\":null"),
    }
}

/// How often something came, and when it was seen first and last.
fn write_seen<W: Write>(report: &mut ReportWriter<'_, W>, seen: &Appearance) {
    let times = seen.times;
    write!(report, ",\"times\":{times}");
    write_time(report, "first", &seen.first);
    write_time(report, "last", &seen.last);
}

fn write_codes<W: Write>(report: &mut ReportWriter<'_, W>, texts: &Texts, codes: &[EverCode]) {
    report.text(",\"codes\":[");
    let mut before = "{";
    for one in codes {
        report.text(before);
        write_code(report, texts, one);
        before = ",{";
    }
    report.text("]");
}

fn write_code<W: Write>(report: &mut ReportWriter<'_, W>, texts: &Texts, one: &EverCode) {
    let (spn, fmi) = (one.code.spn(), one.code.fmi());
    write!(report, "\"spn\":{spn},\"fmi\":{fmi}");
    write_seen(report, &one.seen);
    write_code_text(report, texts, spn, fmi);
    report.text("}");
}

/// For how many whole seconds a DM1 was not heard, where it should have been.
fn write_silence<W: Write>(report: &mut ReportWriter<'_, W>, silence: Option<u64>) {
    if let Some(silence) = silence {
        let seconds = whole_seconds(silence);
        write!(report, ",\"silent\":{seconds}");
    }
}
