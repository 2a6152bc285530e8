use can_frame::NULL_ADDRESS;
use name_field::{Name, NameFields};
use safe_text::Seen;
use std::fmt;

/// What a NAME says of its unit: its function and which of several it is, who made it, and its identity number (SAE J1939-81). A
/// function from 128 on means another one in each industry group and vehicle system, so these stand behind it.
///
/// It is written as `function 0 instance 0, manufacturer 300, identity 1234`, or `function 129 (industry group 1, vehicle system 0)
/// instance 0, ..`.
#[derive(Clone, Copy)]
pub struct FieldWords(pub Name);

impl fmt::Display for FieldWords {
    fn fmt<W: fmt::Write>(&self, f: &mut fmt::Formatter<W>) -> fmt::Result {
        let fields = self.0.fields();
        write_function(f, &fields)?;
        let instance = fields.function_instance;
        let manufacturer = fields.manufacturer;
        let identity = fields.identity;
        write!(
            f,
            " instance {instance}, manufacturer {manufacturer}, identity {identity}"
        )
    }
}

/// The first function that has another meaning in each industry group and vehicle system (SAE J1939-81).
const FIRST_OF_SYSTEM: u8 = 128;

/// Writes a function, and of which industry group and vehicle system it is, where it depends on these.
fn write_function<W: fmt::Write>(f: &mut fmt::Formatter<W>, fields: &NameFields) -> fmt::Result {
    let function = fields.function;
    if function < FIRST_OF_SYSTEM {
        return write!(f, "function {function}");
    }
    let (group, system) = (fields.industry_group, fields.vehicle_system);
    write!(
        f,
        "function {function} (industry group {group}, vehicle system {system})"
    )
}

/// What is said of an address that no NAME claimed: 254 and 255 stand for no unit, whatever comes from there (SAE J1939-81).
pub fn unclaimed_words(address: u8) -> &'static str {
    if address < NULL_ADDRESS {
        "no claim seen"
    } else {
        "no unit's address"
    }
}

/// A unit in words, beside its NAME: the shop's text for it, or else what its NAME says of it. No terminal obeys it: what is hidden
/// of a text stands by its number.
#[derive(Clone, Copy)]
pub struct UnitWords<'a> {
    pub name: Name,
    /// The shop's text.
    pub text: Option<&'a str>,
}

impl fmt::Display for UnitWords<'_> {
    fn fmt<W: fmt::Write>(&self, f: &mut fmt::Formatter<W>) -> fmt::Result {
        match self.text {
            Some(text) => {
                let seen = Seen::line(text);
                write!(f, "{seen}")
            }
            None => {
                let fields = FieldWords(self.name);
                write!(f, "{fields}")
            }
        }
    }
}
