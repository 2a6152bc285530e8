//! What the object of a change and that of the report have in common.

use crate::report_writer::ReportWriter;
use crate::units::address_of;
use bus_watch::{BusWatch, EntryRun, Watch, Who};
use can_frame::GLOBAL_ADDRESS;
use candump_line::Time;
use dm_messages::Trouble;
use dm_words::{LampBytes, NO_COUNT, failure_mode_words, trouble_keys};
use name_field::Name;
use safe_text::is_hidden;
use shop_texts::{Texts, UnitTexts};
use std::io::Write;
use trouble_code::Dtc;

/// A unit: its NAME, null where nobody has claimed its address; that address; and of such a one how many gaps of missed frames were
/// before it.
pub(crate) fn write_who<W: Write>(report: &mut ReportWriter<'_, W>, watch: &Watch, who: &Who) {
    match *who {
        Who::Named(name) => write_named(report, name, address_of(watch, who)),
        Who::Unclaimed { address, gaps } => {
            write!(
                report,
                "\"name\":null,\"address\":{address},\"gaps\":{gaps}"
            );
        }
    }
}

/// A NAME, and its address, where it has one.
pub(crate) fn write_named<W: Write>(
    report: &mut ReportWriter<'_, W>,
    name: Name,
    address: Option<u8>,
) {
    write!(report, "\"name\":\"{name}\",\"address\":");
    match address {
        Some(address) => write_number(report, address),
        None => report.text("null"),
    }
}

/// What a NAME says of its unit (SAE J1939-81), and the shop's text for it, where there is one.
pub(crate) fn write_fields<W: Write>(
    report: &mut ReportWriter<'_, W>,
    units: &UnitTexts,
    name: Name,
) {
    let fields = name.fields();
    let (function, instance) = (fields.function, fields.function_instance);
    let (manufacturer, identity) = (fields.manufacturer, fields.identity);
    write!(
        report,
        ",\"function\":{function},\"instance\":{instance},\"manufacturer\":{manufacturer},\"identity\":{identity}"
    );
    if let Some(text) = units.text_of(name) {
        write_text(report, ",\"text\":\"", text);
    }
}

/// The name of the bus, where each is watched.
pub(crate) fn write_bus<W: Write>(report: &mut ReportWriter<'_, W>, one: &BusWatch) {
    if let Some(bus) = &one.bus {
        write_text(report, ",\"bus\":\"", bus.as_str());
    }
}

/// The lamps, the codes, whether the entry is contested, and where it went, if not to all.
pub(crate) fn write_shown<W: Write>(
    report: &mut ReportWriter<'_, W>,
    texts: &Texts,
    run: &EntryRun,
) {
    let lamps = LampBytes(run.shown.lamps);
    write!(report, ",\"lamps\":\"{lamps}\",\"codes\":[");
    write_codes(report, texts, run.shown.codes.as_slice());
    let contested = run.contested;
    write!(report, "],\"contested\":{contested}");
    write_destination(report, run.to);
}

/// What of an entry is not read, where it was read in part, each sort with its number.
pub(crate) fn write_trouble<W: Write>(report: &mut ReportWriter<'_, W>, run: &EntryRun) {
    let Some(trouble) = run.trouble else {
        return;
    };
    report.text(",\"not_read\":");
    let mut before = "{";
    for (key, count) in trouble_keys(trouble) {
        write!(report, "{before}\"{key}\":{count}");
        before = ",";
    }
    report.text("}");
}

/// The address that an entry went to; nothing where it went to all.
pub(crate) fn write_destination<W: Write>(report: &mut ReportWriter<'_, W>, to: u8) {
    if to != GLOBAL_ADDRESS {
        write!(report, ",\"to\":{to}");
    }
}

/// Codes, with a comma between.
fn write_codes<W: Write>(report: &mut ReportWriter<'_, W>, texts: &Texts, codes: &[Dtc]) {
    let mut before = "{";
    for code in codes {
        report.text(before);
        write_code(report, texts, *code);
        before = ",{";
    }
}

/// A code: its SPN, FMI and count, which is null where it is not available, the shop's text for it, where there is one, and
/// what its FMI says.
fn write_code<W: Write>(report: &mut ReportWriter<'_, W>, texts: &Texts, code: Dtc) {
    let spn = code.spn();
    let fmi = code.fmi();
    write!(report, "\"spn\":{spn},\"fmi\":{fmi},\"count\":");
    match code.count() {
        NO_COUNT => report.text("null"),
        count => write_number(report, count),
    }
    write_code_text(report, texts, spn, fmi);
    report.text("}");
}

fn write_number<W: Write>(report: &mut ReportWriter<'_, W>, number: u8) {
    write!(report, "{number}");
}

/// The shop's text for a code, where there is one, and what its FMI says.
pub(crate) fn write_code_text<W: Write>(
    report: &mut ReportWriter<'_, W>,
    texts: &Texts,
    spn: u32,
    fmi: u8,
) {
    write_own_text(report, texts, spn, fmi);
    report.text(",\"fmi_text\":\"");
    report.text(failure_mode_words(fmi));
    report.text("\"");
}

/// The shop's text for a code, where there is one.
fn write_own_text<W: Write>(report: &mut ReportWriter<'_, W>, texts: &Texts, spn: u32, fmi: u8) {
    match texts.parts_of(spn, fmi) {
        Some((text, None)) => write_text(report, ",\"text\":\"", text),
        Some((text, Some(more))) => {
            report.text(",\"text\":\"");
            write_letters(report, text);
            write_text(report, ", ", more);
        }
        None => {}
    }
}

/// A time under its key, null where the line told none.
pub(crate) fn write_time<W: Write>(
    report: &mut ReportWriter<'_, W>,
    key: &str,
    time: &Option<Time>,
) {
    write!(report, ",\"{key}\":");
    match time {
        Some(time) => write!(report, "\"{time}\""),
        None => report.text("null"),
    }
}

/// The rest of a text behind its front, which the program has, and a quote.
pub(crate) fn write_text<W: Write>(report: &mut ReportWriter<'_, W>, front: &str, text: &str) {
    report.text(front);
    write_letters(report, text);
    report.text("\"");
}

/// A text as JSON has it between quotes.
fn write_letters<W: Write>(report: &mut ReportWriter<'_, W>, text: &str) {
    for letter in text.chars() {
        write_letter(report, letter);
    }
}

fn write_letter<W: Write>(report: &mut ReportWriter<'_, W>, letter: char) {
    match escape_of(letter) {
        Some(escape) => report.text(escape),
        None => write_plain(report, letter),
    }
}

/// The short escape of a letter, where it has one.
fn escape_of(letter: char) -> Option<&'static str> {
    match letter {
        '"' => Some("\\\""),
        '\\' => Some("\\\\"),
        '\n' => Some("\\n"),
        '\r' => Some("\\r"),
        '\t' => Some("\\t"),
        '\u{8}' => Some("\\b"),
        '\u{C}' => Some("\\f"),
        _ => None,
    }
}

/// A letter without a short escape: any other that is hidden from people by its number, and else as it is.
fn write_plain<W: Write>(report: &mut ReportWriter<'_, W>, letter: char) {
    let number = letter as u32;
    if number < 0x20 {
        write!(report, "\\u{number:04x}");
    } else if is_hidden(letter) {
        write!(report, "\\u{number:04X}");
    } else {
        write!(report, "{letter}");
    }
}
