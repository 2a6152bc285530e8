use crate::view::View;
use bus_watch::{BusWatch, IDENTIFICATIONS, IdentificationWords, Watch, Who};
use dm_words::{AsciiText, Identification};
use picture::DrawnUnit;
use safe_text::Page;
use std::alloc::Global;
use std::io::Write;

/// How many VINs stand in the head of a page.
const MOST: u64 = 3;

/// Writes what a unit told of itself, a line for each identification.
pub(crate) fn write_identifications<W: Write>(
    page: &mut Page<W>,
    view: &View<'_>,
    unit: &DrawnUnit,
) {
    if let Some((watch, who)) = view.watched(unit) {
        write_texts(page, view.alloc, watch, &who);
    }
}

fn write_texts<W: Write>(page: &mut Page<W>, alloc: Global, watch: &Watch, who: &Who) {
    for what in IDENTIFICATIONS {
        let text = watch.identification(*who, what);
        if !text.is_empty() {
            write_text(page, alloc, what, text);
        }
    }
}

fn write_text<W: Write>(page: &mut Page<W>, alloc: Global, what: Identification, text: &[u8]) {
    page.markup("<div class=\"name text\">");
    page.markup(identification_word(what));
    page.made_text(IdentificationWords(what, text).to_string(alloc));
    page.markup("</div>");
}

/// What stands before an identification.
fn identification_word(what: Identification) -> &'static str {
    match what {
        Identification::Vehicle => "VIN ",
        Identification::Component => "component: ",
        Identification::Software => "software: ",
        Identification::Unit => "ECU: ",
    }
}

/// Writes in the head of a page which VINs units told, each once; of many the first.
pub(crate) fn write_vins<W: Write>(page: &mut Page<W>, view: &View<'_>) {
    let mut written = 0u64;
    for (number, bus) in view.buses.iter().enumerate() {
        for place in 0..bus.watch.identifications() {
            let vin = vin_at(&bus.watch, place);
            if written < MOST && !vin.is_empty() && !is_before(view.buses, number, place, vin) {
                page.markup("<p class=\"vin text\">VIN <b>");
                page.made_text(AsciiText(vin).to_string(view.alloc));
                page.markup("</b></p>\n");
                written = written.saturating_add(1);
            }
        }
    }
}

/// The VIN at this place of a bus; empty where another identification stands there.
fn vin_at(watch: &Watch, place: usize) -> &[u8] {
    match watch.teller_at(place) {
        Some(teller) if teller.what == Identification::Vehicle => {
            watch.identification(teller.who, teller.what)
        }
        _ => &[],
    }
}

/// Whether another unit before this place, or on a bus before, told the same VIN.
fn is_before(buses: &[BusWatch], number: usize, place: usize, vin: &[u8]) -> bool {
    for (other, bus) in buses.iter().enumerate() {
        for at in 0..bus.watch.identifications() {
            let is_earlier = other < number || (other == number && at < place);
            if is_earlier && vin_at(&bus.watch, at) == vin {
                return true;
            }
        }
    }
    false
}
