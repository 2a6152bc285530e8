use crate::pieces::write_count;
use crate::view::View;
use bus_watch::BusWatch;
use name_field::Name;
use picture::{DrawnUnit, Sender};
use safe_text::Page;
use shop_texts::{FieldWords, UnitTexts, unclaimed_words};
use std::alloc::Global;
use std::io::Write;

/// The most bytes of a unit's text that are shown.
const MOST: usize = 80;

/// Writes what a unit is called: the shop's text for it, or its function, or its address.
pub(crate) fn write_label<W: Write>(page: &mut Page<W>, units: &UnitTexts, unit: &DrawnUnit) {
    match unit.sender {
        Sender::Named(name) => write_named(page, units, Name::from_number(name)),
        Sender::Unclaimed { address, .. } => {
            write_count(page, "Address ", u64::from(address), "");
        }
    }
}

fn write_named<W: Write>(page: &mut Page<W>, units: &UnitTexts, name: Name) {
    match units.text_of(name) {
        Some(text) => page.short_text(text, MOST),
        None => write_function(page, name),
    }
}

fn write_function<W: Write>(page: &mut Page<W>, name: Name) {
    let fields = name.fields();
    write_count(page, "Function ", u64::from(fields.function), " instance ");
    page.number(u64::from(fields.function_instance));
}

/// Writes by what a unit is told from others: its NAME, or since when nobody was seen to claim its address; and its bus, where
/// there are several.
pub(crate) fn write_identity<W: Write>(page: &mut Page<W>, view: &View<'_>, unit: &DrawnUnit) {
    match unit.sender {
        Sender::Named(name) => page.made_text(Name::from_number(name).to_string(view.alloc)),
        Sender::Unclaimed { address, gaps } => write_no_claim(page, address, gaps),
    }
    write_bus(page, view.buses, unit.bus);
}

fn write_no_claim<W: Write>(page: &mut Page<W>, address: u8, gaps: u64) {
    page.markup(unclaimed_words(address));
    if gaps > 0 {
        write_count(page, " since gap ", gaps, "");
    }
}

/// Writes on which bus something is, where there are several.
pub(crate) fn write_bus<W: Write>(page: &mut Page<W>, buses: &[BusWatch], bus: u16) {
    if buses.len() < 2 {
        return;
    }
    if let Some(bus) = buses.get(usize::from(bus)) {
        page.markup(" on ");
        write_bus_name(page, bus);
    }
}

fn write_bus_name<W: Write>(page: &mut Page<W>, bus: &BusWatch) {
    match &bus.bus {
        Some(name) => page.short_text(name.as_str(), MOST),
        None => page.markup("a bus without a name"),
    }
}

/// Writes what the NAME of a unit says, where it has one.
pub(crate) fn write_fields<W: Write>(page: &mut Page<W>, alloc: Global, unit: &DrawnUnit) {
    if let Sender::Named(name) = unit.sender {
        page.made_text(FieldWords(Name::from_number(name)).to_string(alloc));
    }
}
