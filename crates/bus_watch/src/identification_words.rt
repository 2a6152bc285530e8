use crate::told_text::MOST_TOLD;
use dm_words::{AsciiText, Identification};
use std::fmt;

/// The identifications, in the order in which they are told.
pub const IDENTIFICATIONS: [Identification; 4] = [
    Identification::Vehicle,
    Identification::Component,
    Identification::Software,
    Identification::Unit,
];

/// What a unit told by an identification, for people: of a text as a watch keeps it its fields, each behind its name where the standard
/// names it, but for empty ones; `-` where all are empty, and `...` behind where the text is cut.
#[derive(Clone, Copy)]
pub struct IdentificationWords<'a>(pub Identification, pub &'a [u8]);

impl fmt::Display for IdentificationWords<'_> {
    fn fmt<W: fmt::Write>(&self, f: &mut fmt::Formatter<W>) -> fmt::Result {
        let what = self.0;
        let mut is_first = true;
        let mut place = 0u64;
        for field in told_front(self.1).split(|byte| *byte == b'*') {
            if !field.is_empty() {
                let before = if is_first { "" } else { ", " };
                let name = field_name(what, place);
                let text = AsciiText(field);
                write!(f, "{before}{name}{text}")?;
                is_first = false;
            }
            place = place.saturating_add(1);
        }
        let none = if is_first { "-" } else { "" };
        let more = mark_of_cut(self.1);
        write!(f, "{none}{more}")
    }
}

/// What is told of a text as a watch keeps it: its first 200 bytes.
pub fn told_front(text: &[u8]) -> &[u8] {
    text.get(..MOST_TOLD).unwrap_or(text)
}

/// What stands behind that: dots where there was more.
pub fn mark_of_cut(text: &[u8]) -> &'static str {
    if text.len() > MOST_TOLD { "..." } else { "" }
}

/// The name of the field at this place, from 0, and a space (SAE J1939-71 and -73, from memory).
fn field_name(what: Identification, place: u64) -> &'static str {
    match what {
        Identification::Vehicle | Identification::Software => "",
        Identification::Component => component_field(place),
        Identification::Unit => unit_field(place),
    }
}

fn component_field(place: u64) -> &'static str {
    match place {
        0 => "make ",
        1 => "model ",
        2 => "serial number ",
        3 => "unit number ",
        _ => "",
    }
}

fn unit_field(place: u64) -> &'static str {
    match place {
        0 => "part number ",
        1 => "serial number ",
        2 => "location ",
        3 => "type ",
        4 => "manufacturer ",
        5 => "hardware ",
        _ => "",
    }
}
