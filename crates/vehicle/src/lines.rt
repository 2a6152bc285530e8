//! The line of a vehicle's text at which a key stands. It is looked for in the forms of a table with a header and a line for each
//! key; a text may have others, and then it is told without its line.

use crate::key_error::KeyPlace;

/// The number, from 1 on, of the line at which a key of a table stands; that of the table's header where the key has none, or
/// where the table itself is asked for.
pub(crate) fn line_of(text: &str, place: KeyPlace, key: Option<&str>) -> Option<u64> {
    let mut headers = Headers::new();
    let mut header = None;
    let mut number = 0u64;
    for line in text.lines() {
        number = number.saturating_add(1);
        match header_in(line) {
            Some(name) => {
                headers.pass(name);
                if place == KeyPlace::Whole && key == Some(name) {
                    return Some(number);
                }
                if headers.here == Some(place) {
                    header = Some(number);
                }
            }
            None => {
                if headers.here == Some(place) && is_line_of(line, key) {
                    return Some(number);
                }
                if begins_in_line(headers.here, place) && is_line_of(line, Some("checksum")) {
                    header = Some(number);
                }
            }
        }
    }
    header
}

/// The headers that are passed.
#[derive(Clone, Copy)]
struct Headers {
    /// The table that the last of them begins; none where it is no vehicle's.
    here: Option<KeyPlace>,
    /// How many units there were.
    units: usize,
    /// How many groups the last unit sends.
    sends: usize,
    /// How many fields the last of these has.
    fields: usize,
    /// How many groups the last unit answers.
    answers: usize,
    /// How many faults it has.
    fails: usize,
}

impl Headers {
    /// Those before the first line.
    fn new() -> Headers {
        Headers {
            here: Some(KeyPlace::Whole),
            units: 0,
            sends: 0,
            fields: 0,
            answers: 0,
            fails: 0,
        }
    }

    /// One more.
    fn pass(&mut self, name: &str) {
        self.here = self.place_of(name);
        match name {
            "unit" => {
                self.units = self.units.saturating_add(1);
                self.sends = 0;
                self.answers = 0;
                self.fails = 0;
            }
            "unit.sends" => {
                self.sends = self.sends.saturating_add(1);
                self.fields = 0;
            }
            "unit.sends.fields" => self.fields = self.fields.saturating_add(1),
            "unit.fails" => self.fails = self.fails.saturating_add(1),
            "unit.answers" => self.answers = self.answers.saturating_add(1),
            _ => {}
        }
    }

    /// The table that one more begins.
    fn place_of(&self, name: &str) -> Option<KeyPlace> {
        let unit = self.units.saturating_sub(1);
        let send = self.sends.saturating_sub(1);
        match name {
            "station" => Some(KeyPlace::StationTable),
            "second" => Some(KeyPlace::Second),
            "unit" => Some(KeyPlace::Unit(self.units)),
            "unit.sends" => Some(KeyPlace::Send {
                unit,
                number: self.sends,
            }),
            "unit.answers" => Some(KeyPlace::Answer {
                unit,
                number: self.answers,
            }),
            "unit.fails" => Some(KeyPlace::Fail {
                unit,
                number: self.fails,
            }),
            "unit.sends.fields" => Some(KeyPlace::Field {
                unit,
                send,
                number: self.fields,
            }),
            "unit.sends.checksum" => Some(KeyPlace::Checksum { unit, send }),
            _ => None,
        }
    }
}

/// Whether a table may be begun by a line of the table that is begun here: a group's checksum.
fn begins_in_line(here: Option<KeyPlace>, place: KeyPlace) -> bool {
    match place {
        KeyPlace::Checksum { unit, send } => here == Some(KeyPlace::Send { unit, number: send }),
        _ => false,
    }
}

/// The name in a line that is a header.
fn header_in(line: &str) -> Option<&str> {
    let name = line.trim().strip_prefix('[')?;
    let name = name.strip_prefix('[').unwrap_or(name);
    let (name, _) = name.split_once(']')?;
    Some(name.trim())
}

/// Whether a line gives this key its value.
fn is_line_of(line: &str, key: Option<&str>) -> bool {
    match (line.split_once('='), key) {
        (Some((before, _)), Some(key)) => before.trim() == key,
        _ => false,
    }
}
