//! What changed since an earlier visit.

use crate::object_parts::write_code_text;
use crate::options::{ReportOptions, Reported};
use crate::report_writer::ReportWriter;
use crate::reported_bus::who_of;
use crate::units::WhoWords;
use bus_watch::Who;
use picture::{Since, SinceThen};
use shop_texts::TextWords;
use std::io::Write;
use trouble_code::Dtc;

/// A line for each code that changed; one that says it where none did.
pub(crate) fn write_lines<W: Write>(
    report: &mut ReportWriter<'_, W>,
    told: &Reported<'_>,
    options: &ReportOptions<'_>,
) {
    if let Some(changes) = told.since {
        write_each_line(report, options, changes);
    }
}

fn write_each_line<W: Write>(
    report: &mut ReportWriter<'_, W>,
    options: &ReportOptions<'_>,
    changes: &[SinceThen],
) {
    for change in changes {
        write_line(report, options, change);
    }
    if changes.is_empty() {
        report.text("since then: no code is new, came back or is gone\n");
    }
}

fn write_line<W: Write>(
    report: &mut ReportWriter<'_, W>,
    options: &ReportOptions<'_>,
    change: &SinceThen,
) {
    let what = words_of(change.what);
    let unit = WhoWords(who_of(&change.sender), options.units);
    let (spn, fmi) = (change.spn, change.fmi);
    write!(report, "since then {what}: {unit} {spn}/{fmi}");
    if let Ok(code) = Dtc::new(spn, fmi, 1) {
        let codes = [code];
        let words = TextWords {
            texts: options.texts,
            codes: codes.as_slice(),
        };
        write!(report, "{words}");
    }
    report.text("\n");
}

fn words_of(what: Since) -> &'static str {
    match what {
        Since::New => "new",
        Since::CameBack => "came back",
        Since::Gone => "gone",
        Since::NotHeard => "not heard",
    }
}

/// An object for each code that changed, as a key of the report.
pub(crate) fn write_objects<W: Write>(
    report: &mut ReportWriter<'_, W>,
    told: &Reported<'_>,
    options: &ReportOptions<'_>,
) {
    if let Some(changes) = told.since {
        report.text(",\"since\":[");
        write_each_object(report, options, changes);
        report.text("]");
    }
}

fn write_each_object<W: Write>(
    report: &mut ReportWriter<'_, W>,
    options: &ReportOptions<'_>,
    changes: &[SinceThen],
) {
    let mut before = "{";
    for change in changes {
        report.text(before);
        write_object(report, options, change);
        before = ",{";
    }
}

fn write_object<W: Write>(
    report: &mut ReportWriter<'_, W>,
    options: &ReportOptions<'_>,
    change: &SinceThen,
) {
    match who_of(&change.sender) {
        Who::Named(name) => write!(report, "\"name\":\"{name}\""),
        Who::Unclaimed { address, .. } => {
            write!(report, "\"name\":null,\"address\":{address}");
        }
    }
    let key = key_of(change.what);
    let (spn, fmi) = (change.spn, change.fmi);
    write!(report, ",\"what\":\"{key}\",\"spn\":{spn},\"fmi\":{fmi}");
    write_code_text(report, options.texts, spn, fmi);
    report.text("}");
}

fn key_of(what: Since) -> &'static str {
    match what {
        Since::New => "new",
        Since::CameBack => "came_back",
        Since::Gone => "gone",
        Since::NotHeard => "not_heard",
    }
}
