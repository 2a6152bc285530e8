//! The report as a JSON object, written as it goes: nothing of it is held, and no memory is asked for.

use crate::assumed::is_assumed_unit;
use crate::broken::write_count_keys;
use crate::ever_object::write_ever;
use crate::identifications;
use crate::object_parts::{
    write_bus, write_fields, write_shown, write_text, write_time, write_trouble, write_who,
};
use crate::options::{ReportOptions, ReportPart, Reported};
use crate::report_writer::ReportWriter;
use crate::reported_bus::ReportedBus;
use crate::since::write_objects as write_since;
use crate::units::{KINDS, kind_word, row_at, row_places};
use crate::value_objects::write_values;
use bus_watch::{BusWatch, EntryRun, WatchCounts, Who};
use dm_messages::Kind;
use picture::EverInLog;
use std::io::Write;

/// Writes the report and a line end: a row for each unit with its runs of entries, the counts of what was heard, those of the
/// lines, and the values of signals, where those are kept.
pub(crate) fn write_report<W: Write>(
    report: &mut ReportWriter<'_, W>,
    told: &Reported<'_>,
    options: &ReportOptions<'_>,
    part: ReportPart,
) {
    let buses = told.buses;
    write_begin(report, part);
    write_all_rows(report, buses.watches(), told.ever, options);
    write_heard(report, buses.watches());
    write_counts(report, buses.counts());
    if buses.are_each() {
        write_buses(report, buses.watches());
    }
    write_left_out(report, told.ever.left_out());
    write_partly(report, buses.counts().partly);
    write_count_keys(report, buses);
    write_values(report, told);
    write_since(report, told, options);
    report.text("}\n");
}

/// Of how many messages it is not kept what they told, since their units are too many.
fn write_left_out<W: Write>(report: &mut ReportWriter<'_, W>, left_out: u64) {
    if left_out > 0 {
        write!(report, ",\"ever_left_out\":{left_out}");
    }
}

/// What the report is of.
fn write_begin<W: Write>(report: &mut ReportWriter<'_, W>, part: ReportPart) {
    match part {
        ReportPart::Before { line, .. } => {
            write!(report, "{{\"line\":{line},\"event\":\"over\",\"rows\":[");
        }
        ReportPart::Last { .. } => report.text("{\"event\":\"report\",\"rows\":["),
    }
}

/// The rows of all buses.
fn write_all_rows<W: Write>(
    report: &mut ReportWriter<'_, W>,
    watches: &[BusWatch],
    ever: &EverInLog,
    options: &ReportOptions<'_>,
) {
    let mut before = "{";
    for (place, one) in watches.iter().enumerate() {
        let bus = ReportedBus {
            one,
            place,
            ever,
            start: None,
        };
        before = write_rows(report, &bus, options, before);
    }
}

/// A row for each unit of a bus, the first behind this. Tells what comes before the next row.
fn write_rows<W: Write>(
    report: &mut ReportWriter<'_, W>,
    bus: &ReportedBus<'_>,
    options: &ReportOptions<'_>,
    before: &'static str,
) -> &'static str {
    let mut before = before;
    for place in 0..row_places(&bus.one.watch) {
        if report.has_failed() {
            break;
        }
        if let Some(who) = &row_at(&bus.one.watch, place) {
            report.text(before);
            write_row(report, bus.one, options, who);
            write_ever(report, bus, options.texts, who);
            identifications::write_keys(report, &bus.one.watch, who);
            report.text("}");
            before = ",{";
        }
    }
    before
}

/// A row but for what the unit told at any time and of itself, and the end.
fn write_row<W: Write>(
    report: &mut ReportWriter<'_, W>,
    one: &BusWatch,
    options: &ReportOptions<'_>,
    who: &Who,
) {
    write_who(report, &one.watch, who);
    if is_assumed_unit(options.assumed, who) {
        report.text(",\"assumed\":true");
    }
    for kind in KINDS {
        write_runs(report, options, kind, one.watch.runs(*who, kind));
    }
    write_bus(report, one);
    if let Who::Named(name) = *who {
        write_fields(report, options.units, name);
    }
}

/// The runs of a kind.
fn write_runs<W: Write>(
    report: &mut ReportWriter<'_, W>,
    options: &ReportOptions<'_>,
    kind: Kind,
    runs: &[EntryRun],
) {
    let word = kind_word(kind);
    write!(report, ",\"{word}\":[");
    let mut before = "{";
    for run in runs {
        report.text(before);
        write_run(report, options, run);
        before = ",{";
    }
    report.text("]");
}

/// A run: its number of entries, the times of the first and the last, what they show, and where they went, if not to all.
fn write_run<W: Write>(
    report: &mut ReportWriter<'_, W>,
    options: &ReportOptions<'_>,
    run: &EntryRun,
) {
    let times = run.times;
    write!(report, "\"times\":{times}");
    write_time(report, "first", &run.first);
    write_time(report, "last", &run.last);
    write_shown(report, options.texts, run);
    write_trouble(report, run);
    report.text("}");
}

/// How many frames were missed, and how many messages could not be read, on all buses together.
fn write_heard<W: Write>(report: &mut ReportWriter<'_, W>, watches: &[BusWatch]) {
    let mut missed = 0u64;
    let mut unread = 0u64;
    for one in watches {
        missed = missed.saturating_add(one.watch.missed_in_all());
        unread = unread.saturating_add(one.watch.unreadable_in_all());
    }
    write!(report, "],\"missed\":{missed},\"unread\":{unread}");
}

/// How many messages were read in part, where any were.
fn write_partly<W: Write>(report: &mut ReportWriter<'_, W>, partly: u64) {
    if partly > 0 {
        write!(report, ",\"partly\":{partly}");
    }
}

/// The same of each bus.
fn write_buses<W: Write>(report: &mut ReportWriter<'_, W>, watches: &[BusWatch]) {
    report.text(",\"buses\":[");
    let mut before = "{";
    for one in watches {
        report.text(before);
        write_heard_on(report, one);
        before = ",{";
    }
    report.text("]");
}

/// The same of one bus.
fn write_heard_on<W: Write>(report: &mut ReportWriter<'_, W>, one: &BusWatch) {
    if let Some(bus) = &one.bus {
        write_text(report, "\"bus\":\"", bus.as_str());
        report.text(",");
    }
    let missed = one.watch.missed_in_all();
    let unread = one.watch.unreadable_in_all();
    write!(report, "\"missed\":{missed},\"unread\":{unread}");
    write_partly(report, one.watch.partly_in_all());
    report.text("}");
}

fn write_counts<W: Write>(report: &mut ReportWriter<'_, W>, counts: WatchCounts) {
    let mut before = ",\"lines\":{";
    for (key, count) in counts_of_lines(counts) {
        write!(report, "{before}\"{key}\":{count}");
        before = ",";
    }
    let not_attributed = counts.not_attributed;
    // A listener sends nothing; the key stays for who reads it.
    write!(
        report,
        "}},\"not_attributed\":{not_attributed},\"not_sent\":0"
    );
}

/// How many lines there were of each sort, each with its key.
fn counts_of_lines(counts: WatchCounts) -> [(&'static str, u64); 11] {
    [
        ("all", counts.lines),
        ("frame", counts.frames),
        ("bad", counts.bad),
        ("short", counts.short),
        ("remote", counts.remote),
        ("fd", counts.fd),
        ("error", counts.error),
        ("other_bus", counts.other_bus),
        ("drop", counts.drops),
        ("note", counts.notes),
        ("withheld", counts.withheld),
    ]
}
