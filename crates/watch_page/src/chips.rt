use crate::message_words::{LAMPS, lamp_class, lamp_word};
use crate::pieces::{by_count, write_between, write_count};
use crate::standing::Standing;
use crate::view::View;
use picture::{EverInLog, Handover};
use safe_text::Page;
use std::io::Write;
use trouble_code::LampName;

/// How many addresses that changed hands are named.
const NAMED: u64 = 8;

/// Writes how it stands, each in a few words: units with faults, lamps that are on, each also at any time of the log, addresses that
/// changed hands, frames that were missed.
pub(crate) fn write_chips<W: Write>(page: &mut Page<W>, view: &View<'_>, standing: &Standing) {
    page.markup("<h2>How it stands</h2>\n<ul class=\"chips\">\n");
    write_faulty(page, standing, view.ever.faulty());
    write_lamps(page, standing.lamps, view.ever);
    write_partly(page, standing.partly);
    write_silent(page, standing.silent);
    write_handed(page, view.picture.handovers());
    write_missed(page, view.missed());
    page.markup("</ul>\n");
}

/// How many units report faults at the end, and how many did at any time.
fn write_faulty<W: Write>(page: &mut Page<W>, standing: &Standing, ever: u64) {
    page.markup(class_of(standing.faulty, ever));
    write_count(page, "", standing.faulty, " of ");
    write_on(page, standing.on);
    if ever > 0 {
        page.markup(" at the end, ");
        write_count(page, "", ever, by_count(ever, " unit had", " units had"));
        page.markup(" faults in this log");
    }
    page.markup("</li>\n");
}

fn write_on<W: Write>(page: &mut Page<W>, on: u64) {
    let words = by_count(
        on,
        " unit on the bus reports faults",
        " units on the bus report faults",
    );
    write_count(page, "", on, words);
}

/// How it is marked that units report faults, or did.
fn class_of(faulty: u64, ever: u64) -> &'static str {
    if faulty > 0 {
        "<li class=\"bad\">"
    } else if ever > 0 {
        "<li class=\"codes\">"
    } else {
        "<li class=\"good\">"
    }
}

/// How many units have each lamp on at the end, and had at any time.
fn write_lamps<W: Write>(page: &mut Page<W>, counts: [u64; 4], ever: &EverInLog) {
    for place in 0..4 {
        let had = ever.with_lamp(LAMPS[place]);
        if had > 0 {
            write_lamp(page, LAMPS[place], counts[place], had);
        }
    }
}

fn write_lamp<W: Write>(page: &mut Page<W>, lamp: LampName, count: u64, had: u64) {
    write_between(page, "<li class=\"", lamp_class(lamp), "\">lamp ");
    write_between(page, "", lamp_word(lamp), " on: ");
    let at_the_end = by_count(count, " unit at the end, ", " units at the end, ");
    write_count(page, "", count, at_the_end);
    write_count(page, "", had, " in this log</li>\n");
}

/// Of how many units the DM1 at the end was read in part.
fn write_partly<W: Write>(page: &mut Page<W>, partly: u64) {
    if partly > 0 {
        let words = by_count(partly, " unit</li>\n", " units</li>\n");
        write_count(
            page,
            "<li class=\"changing\">DM1 read in part: ",
            partly,
            words,
        );
    }
}

/// Of how many units a DM1 with a fault was not heard to the end.
fn write_silent<W: Write>(page: &mut Page<W>, silent: u64) {
    if silent > 0 {
        let words = by_count(silent, " unit</li>\n", " units</li>\n");
        write_count(page, "<li class=\"codes\">DM1 fell silent: ", silent, words);
    }
}

/// Which addresses changed hands.
fn write_handed<W: Write>(page: &mut Page<W>, handovers: &[Handover]) {
    if handovers.is_empty() {
        page.markup("<li class=\"good\">no address changed hands</li>\n");
        return;
    }
    page.markup("<li class=\"moved\">changed hands: address ");
    let count = write_addresses(page, handovers);
    if count > NAMED {
        write_count(page, " and ", count - NAMED, " more");
    }
    page.markup("</li>\n");
}

/// Names the first addresses, each once. Tells how many there are.
fn write_addresses<W: Write>(page: &mut Page<W>, handovers: &[Handover]) -> u64 {
    let mut named = [false; 256];
    let mut count = 0u64;
    for handover in handovers {
        let address = usize::from(handover.address);
        if !named[address] {
            named[address] = true;
            write_named(page, count, handover.address);
            count = count.saturating_add(1);
        }
    }
    count
}

fn write_named<W: Write>(page: &mut Page<W>, count: u64, address: u8) {
    if count < NAMED {
        let before = if count > 0 { ", " } else { "" };
        write_count(page, before, u64::from(address), "");
    }
}

fn write_missed<W: Write>(page: &mut Page<W>, missed: u64) {
    if missed == 0 {
        page.markup("<li class=\"good\">no frame missed</li>\n");
        return;
    }
    let words = by_count(missed, " frame missed</li>\n", " frames missed</li>\n");
    write_count(page, "<li class=\"gap\">", missed, words);
}
