//! How a unit tells what it is (SAE J1939-71 and -73; their layouts are from memory).
ghost use Rattle.std.specs.Prelude.{◌≡◌, ◌≢◌, ◌≤◌, ◌+◌, ◌∷◌, ◌++◌, ◌↔◌, ◌==◌, [], IfOk, IsTrue, codes, false, length, true};
ghost use Rattle.toml.specs.Data.{Data, as_str, get};
ghost use Rattle.toml.specs.View.{view};
ghost use Rattle.vehicle.specs.Identifying.{HoldsIdentification, HoldsSaidAt, HoldsText, IsBeside, IsFieldText, IsOther, SaysFields, SaysSoftware, SaysVin, field_count};
ghost use Rattle.vehicle.specs.Sending.{is_free_group};

use crate::answer_line::AnswerLine;
use crate::answers::look_at_text;
use crate::key_error::{KeyFault, KeyPlace, ReadError};
use crate::send_line::GREATEST_PGN;
use crate::sends::USUAL_PRIORITY;
use std::alloc::{AllocError, Global};
use toml::Value;

/// Vehicle identification.
const VIN: u32 = 65260;

/// Component identification: make, model, serial number, unit number.
const COMPONENT: u32 = 65259;

/// Software identification.
const SOFTWARE: u32 = 65242;

/// ECU identification: part number, serial number, location, type, manufacturer.
const ECU: u32 = 64965;

/// What stands behind each field.
const ASTERISK: u8 = b'*';

/// The most characters of such a text, so that there is room for a number before it and an asterisk behind it.
const MOST_LETTERS: usize = 1783;

/// The most fields that the number in one byte tells of (SAE J1939-71: greater ones tell of no number).
const MOST_FIELDS: usize = 250;

/// The groups by which a unit tells what it is; each may be left out.
#[derive(Drop)]
pub struct Identification {
    /// Vehicle identification, 65260: the VIN.
    pub vin: Option<AnswerLine>,
    /// Component identification, 65259.
    pub component: Option<AnswerLine>,
    /// Software identification, 65242: versions, behind a byte with their number.
    pub software: Option<AnswerLine>,
    /// ECU identification, 64965.
    pub ecu: Option<AnswerLine>,
}

impl Identification {
    /// Whether a group is one of these.
    pub(crate) fn has(&self, pgn: u32) -> bool
        ensures { result ≡ false → IsBeside self.now pgn }
    {
        is_of(&self.vin, pgn)
            || is_of(&self.component, pgn)
            || is_of(&self.software, pgn)
            || is_of(&self.ecu, pgn)
    }
}

/// Whether a group is that of this line.
fn is_of(line: &Option<AnswerLine>, pgn: u32) -> bool
    ensures { result ≡ false → IsOther line.now pgn }
{
    match line {
        Some(line) => line.pgn == pgn,
        None => false,
    }
}

/// How a unit tells what it is.
pub(crate) fn read_identification(
    alloc: Global,
    place: KeyPlace,
    value: &Value,
) -> Result<Identification, ReadError<'_>>
    ensures { IfOk result (HoldsIdentification (view value.now)) }
{
    Ok(Identification {
        vin: read_vin(alloc, place, value)?,
        component: read_fields(alloc, place, value, "component", COMPONENT)?,
        software: read_software(alloc, place, value)?,
        ecu: read_fields(alloc, place, value, "ecu", ECU)?,
    })
}

/// The VIN; none where there is no such key.
#[tactic(auto, using(crate::proofs::UnitLemmas::said_at))]
fn read_vin(
    alloc: Global,
    place: KeyPlace,
    value: &Value,
) -> Result<Option<AnswerLine>, ReadError<'_>>
    ensures { IfOk result (HoldsSaidAt SaysVin (get (codes "vin") (view value.now))) }
{
    match value.get("vin") {
        Some(found) => match vin_of(alloc, place, found) {
            Ok(line) => Ok(Some(line)),
            Err(unread) => Err(unread),
        },
        None => Ok(None),
    }
}

/// A VIN: a text of one field.
fn vin_of(alloc: Global, place: KeyPlace, found: &Value) -> Result<AnswerLine, ReadError<'_>>
    ensures { IfOk result (HoldsText SaysVin (view found.now)) }
{
    let text = read_field_text(place, "vin", found)?;
    if fields(text) != 1 {
        return Err(ReadError::at(place, "vin", KeyFault::Asterisk));
    }
    Ok(line(alloc, VIN, &[], text)?)
}

/// Versions of software; none where there is no such key.
#[tactic(auto, using(crate::proofs::UnitLemmas::said_at))]
fn read_software(
    alloc: Global,
    place: KeyPlace,
    value: &Value,
) -> Result<Option<AnswerLine>, ReadError<'_>>
    ensures { IfOk result (HoldsSaidAt SaysSoftware (get (codes "software") (view value.now))) }
{
    match value.get("software") {
        Some(found) => match software_of(alloc, place, found) {
            Ok(line) => Ok(Some(line)),
            Err(unread) => Err(unread),
        },
        None => Ok(None),
    }
}

/// Versions of software, and before them how many they are.
fn software_of(alloc: Global, place: KeyPlace, found: &Value) -> Result<AnswerLine, ReadError<'_>>
    ensures { IfOk result (HoldsText SaysSoftware (view found.now)) }
{
    let text = read_field_text(place, "software", found)?;
    let fields = fields(text);
    if fields > MOST_FIELDS {
        return Err(ReadError::at(place, "software", KeyFault::TooManyFields));
    }
    Ok(line(alloc, SOFTWARE, &[fields as u8], text)?)
}

/// Fields alone; none where there is no such key.
#[tactic(auto, using(crate::proofs::UnitLemmas::said_at))]
fn read_fields<'a>(
    alloc: Global,
    place: KeyPlace,
    value: &'a Value,
    key: &'a str,
    pgn: u32,
) -> Result<Option<AnswerLine>, ReadError<'a>>
    requires group { pgn ≤ GREATEST_PGN }
    requires free { is_free_group pgn ≡ true }
    ensures { IfOk result (HoldsSaidAt (SaysFields pgn []) (get key.now (view value.now))) }
{
    match value.get(key) {
        Some(found) => match fields_of(alloc, place, found, key, pgn) {
            Ok(line) => Ok(Some(line)),
            Err(unread) => Err(unread),
        },
        None => Ok(None),
    }
}

fn fields_of<'a>(
    alloc: Global,
    place: KeyPlace,
    found: &'a Value,
    key: &'a str,
    pgn: u32,
) -> Result<AnswerLine, ReadError<'a>>
    requires group { pgn ≤ GREATEST_PGN }
    requires free { is_free_group pgn ≡ true }
    ensures { IfOk result (HoldsText (SaysFields pgn []) (view found.now)) }
{
    let text = read_field_text(place, key, found)?;
    Ok(line(alloc, pgn, &[], text)?)
}

/// A text of fields.
fn read_field_text<'a>(
    place: KeyPlace,
    key: &'a str,
    found: &'a Value,
) -> Result<&'a str, ReadError<'a>>
    ensures text { IfOk result (λ t. as_str (view found.now) ≡ Some t.now) }
    ensures fields { IfOk result (λ t. IsFieldText t.now) }
{
    let Some(text) = found.as_str() else {
        return Err(ReadError::at(place, key, KeyFault::NoText));
    };
    look_at_text(place, key, text, MOST_LETTERS)?;
    Ok(text)
}

/// How many fields a text has.
fn fields(text: &str) -> usize
    requires { length text.now ≤ MOST_LETTERS }
    ensures { result ≡ field_count text.now }
{
    text.as_bytes()
        .iter()
        .filter(|byte| **byte == ASTERISK)
        .count()
        + 1
}

/// A group that says this.
fn line(alloc: Global, pgn: u32, front: &[u8], text: &str) -> Result<AnswerLine, AllocError>
    requires group { pgn ≤ GREATEST_PGN }
    requires free { is_free_group pgn ≡ true }
    requires front { length front.now ≤ 1 }
    requires text { length text.now ≤ MOST_LETTERS }
    ensures { IfOk result (SaysFields pgn front.now text.now) }
{
    Ok(AnswerLine {
        pgn,
        priority: USUAL_PRIORITY as u8,
        bytes: said(alloc, front, text)?,
    })
}

/// What stands before a text, the text, and an asterisk.
fn said(alloc: Global, front: &[u8], text: &str) -> Result<Vec<u8>, AllocError>
    ensures { IfOk result (λ bytes. bytes.items ≡ front.now ++ (text.now ++ ASTERISK ∷ [])) }
{
    let mut bytes = Vec::from_slice(alloc, front)?;
    bytes.extend_from_slice(text.as_bytes())?;
    bytes.push(ASTERISK)?;
    Ok(bytes)
}
