ghost use Rattle.std.specs.Prelude.{◌≡◌};
ghost use Rattle.picture.specs.Severities.{is_lit};
ghost use Rattle.watch_page.specs.Colours.{colour, lamp_colour};

use crate::pieces::{by_count, write_between, write_count};
use crate::words::PageWords;
use dm_messages::Kind;
use dm_words::failure_mode_words;
use picture::{Brief, Severity};
use safe_text::Page;
use std::io::Write;
use trouble_code::{Dtc, LampName, Lamps};

/// The most bytes of a code's text that are shown.
const MOST: usize = 120;

/// The state of a lamp that is on, and the occurrence count that is not available (SAE J1939-73).
const ON: u8 = 1;

const NO_COUNT: u8 = 127;

/// Each lamp, from the worst on.
pub(crate) const LAMPS: [LampName; 4] = [
    LampName::RedStop,
    LampName::Amber,
    LampName::Malfunction,
    LampName::Protect,
];

/// The word of a lamp, as `decode` and the reports have it.
pub(crate) fn lamp_word(lamp: LampName) -> &'static str {
    match lamp {
        LampName::RedStop => "stop",
        LampName::Amber => "amber",
        LampName::Malfunction => "mil",
        LampName::Protect => "protect",
    }
}

/// The class of the colour of a lamp that is on: of how bad that is.
pub(crate) fn lamp_class(lamp: LampName) -> &'static str
    ensures { result.now ≡ lamp_colour lamp }
{
    class_of(Severity::of_lamp(lamp))
}

/// The word of a kind of message.
pub(crate) fn kind_word(kind: Kind) -> &'static str {
    match kind {
        Kind::Dm1 => "DM1",
        Kind::Dm2 => "DM2",
        Kind::Dm6 => "DM6",
    }
}

/// The class of the colour of how bad something is.
pub(crate) fn class_of(severity: Severity) -> &'static str
    ensures { result.now ≡ colour severity }
{
    match severity {
        Severity::Fine => "fine",
        Severity::Partly => "changing",
        Severity::Codes => "codes",
        Severity::Protect => "protect",
        Severity::Malfunction => "mil",
        Severity::Amber => "amber",
        Severity::Red => "red",
    }
}

/// The words for how bad something is.
pub(crate) fn severity_word(severity: Severity) -> &'static str {
    match severity {
        Severity::Fine => "no fault",
        Severity::Partly => "no readable code",
        Severity::Codes => "faults, no lamp",
        Severity::Protect => "lamp protect",
        Severity::Malfunction => "lamp mil",
        Severity::Amber => "lamp amber",
        Severity::Red => "lamp stop",
    }
}

/// The words for it in a bar.
pub(crate) fn label_word(severity: Severity) -> &'static str {
    match severity {
        Severity::Fine => "no fault",
        Severity::Partly => "in part",
        Severity::Codes => "faults",
        Severity::Protect => "protect",
        Severity::Malfunction => "mil",
        Severity::Amber => "amber",
        Severity::Red => "stop",
    }
}

/// Whether a lamp is on.
pub(crate) fn is_on(lamps: Lamps, lamp: LampName) -> bool
    ensures { result ≡ is_lit lamp lamps }
{
    lamps.lamp(lamp) == ON
}

/// How a lamp flashes (SAE J1939-73); nothing where it does not.
pub(crate) fn flash_word(lamps: Lamps, lamp: LampName) -> &'static str {
    match lamps.flash(lamp) {
        0 => " flashing slowly",
        1 => " flashing fast",
        _ => "",
    }
}

/// Writes the lamps that are on, or that none is.
pub(crate) fn write_lamps<W: Write>(page: &mut Page<W>, lamps: Lamps) {
    let mut before = "";
    for lamp in LAMPS {
        if is_on(lamps, lamp) {
            write_lamp(page, before, lamps, lamp);
            before = ", ";
        }
    }
    if before.is_empty() {
        page.markup("no lamp");
    }
}

fn write_lamp<W: Write>(page: &mut Page<W>, before: &'static str, lamps: Lamps, lamp: LampName) {
    write_between(page, before, lamp_word(lamp), flash_word(lamps, lamp));
}

/// Writes a code as `SPN/FMI`.
pub(crate) fn write_numbers<W: Write>(page: &mut Page<W>, spn: u32, fmi: u8) {
    write_count(page, "", u64::from(spn), "/");
    page.number(u64::from(fmi));
}

/// Writes the text of a code behind this, where it has one. Tells whether it has.
fn write_text<W: Write>(
    page: &mut Page<W>,
    words: &PageWords<'_>,
    before: &'static str,
    spn: u32,
    fmi: u8,
) -> bool {
    match words.texts.text_of(words.alloc, spn, fmi) {
        Ok(Some(text)) => {
            write_found(page, before, text.as_str());
            true
        }
        Ok(None) => false,
        Err(_) => {
            page.refuse_memory();
            false
        }
    }
}

/// Writes what a code means behind this: its text, or else what its FMI says.
pub(crate) fn write_meaning<W: Write>(
    page: &mut Page<W>,
    words: &PageWords<'_>,
    before: &'static str,
    spn: u32,
    fmi: u8,
) {
    if !write_text(page, words, before, spn, fmi) {
        page.markup(before);
        page.markup(failure_mode_words(fmi));
    }
}

fn write_found<W: Write>(page: &mut Page<W>, before: &'static str, text: &str) {
    page.markup(before);
    page.short_text(text, MOST);
}

/// Writes how often a code was seen, where that is told.
pub(crate) fn write_seen<W: Write>(page: &mut Page<W>, code: Dtc) {
    let count = code.count();
    if count == NO_COUNT {
        return;
    }
    let count = u64::from(count);
    write_count(page, "; seen ", count, by_count(count, " time", " times"));
}

/// Writes a message in a line: its lamps, and its first codes with their texts.
pub(crate) fn write_brief<W: Write>(page: &mut Page<W>, words: &PageWords<'_>, brief: &Brief) {
    write_lamps(page, brief.lamps());
    page.markup("; ");
    if brief.count() == 0 {
        page.markup(no_code_words(brief.is_partly()));
    }
    write_codes(page, words, brief);
    write_more(page, brief.left_out());
    if brief.is_partly() {
        page.markup(" (read in part)");
    }
    if brief.is_contested() {
        page.markup(" (in doubt)");
    }
}

/// That a message has no code; or where it was read in part, none that can be read.
pub(crate) fn no_code_words(partly: bool) -> &'static str {
    if partly {
        "no readable code"
    } else {
        "no code"
    }
}

/// Writes the codes that are told one by one, with their texts.
fn write_codes<W: Write>(page: &mut Page<W>, words: &PageWords<'_>, brief: &Brief) {
    for place in 0..brief.listed() {
        if let Some(code) = brief.code(place) {
            page.markup(if place > 0 { ", " } else { "" });
            write_numbers(page, code.spn(), code.fmi());
            write_text(page, words, " ", code.spn(), code.fmi());
        }
    }
}

fn write_more<W: Write>(page: &mut Page<W>, more: usize) {
    if more > 0 {
        write_count(page, " and ", more as u64, " more");
    }
}
