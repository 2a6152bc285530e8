//! Trouble codes and lamps with which a unit begins.
ghost use Rattle.std.specs.Prelude.{◌≡◌, ◌++◌, ◌∷◌, IfOk, IfSome, codes};
ghost use Rattle.toml.specs.Data.{get};
ghost use Rattle.toml.specs.View.{view, items_view};
ghost use Rattle.vehicle.specs.Holding.{EachHolds};
ghost use Rattle.vehicle.specs.Live.{HoldsCode, HoldsCodesAt, HoldsLampsAt, SpellsCode, SpellsMode};

use crate::key_error::{KeyFault, KeyPlace, ReadError};
use crate::read::items_at;
use script_line::{read_lamps, read_number, read_small_number};
use std::alloc::Global;
use toml::Value;
use trouble_code::{Dtc, Lamps};

/// The most often that a code of a fault memory has occurred.
const MOST_OCCURRENCES: u8 = 126;

/// The lamps of a unit; off where it has no such key.
pub(crate) fn read_lamps_of(place: KeyPlace, value: &Value) -> Result<Lamps, ReadError<'_>>
    ensures { IfOk result (HoldsLampsAt (get (codes "lamps") (view value.now))) }
{
    let Some(found) = value.get("lamps") else {
        return Ok(Lamps::off());
    };
    let Some(text) = found.as_str() else {
        return Err(ReadError::at(place, "lamps", KeyFault::NoText));
    };
    match read_lamps(text) {
        Some(lamps) => Ok(lamps),
        None => Err(ReadError::of_text(place, "lamps", text, KeyFault::NotLamps)),
    }
}

/// The codes at a key of a unit; none where it has no such key.
#[tactic(auto, using(crate::proofs::UnitLemmas::held))]
pub(crate) fn read_codes<'a>(
    alloc: Global,
    place: KeyPlace,
    value: &'a Value,
    key: &'a str,
) -> Result<Vec<Dtc>, ReadError<'a>>
    ensures { IfOk result (λ codes. HoldsCodesAt (get key.now (view value.now)) codes.items) }
{
    let items = items_at(place, value, key, KeyFault::NoTexts)?;
    codes_of(alloc, place, key, items)
}

/// The code of each text.
fn codes_of<'a>(
    alloc: Global,
    place: KeyPlace,
    key: &'a str,
    items: &'a [Value],
) -> Result<Vec<Dtc>, ReadError<'a>>
    ensures { IfOk result (λ codes. EachHolds HoldsCode (items_view items.now) codes.items) }
{
    let mut codes = Vec::new(alloc);
    for item in items {
        match code_of(place, key, item) {
            Ok(code) => codes.push(code)?,
            Err(unread) => return Err(unread),
        }
    }
    Ok(codes)
}

fn code_of<'a>(place: KeyPlace, key: &'a str, value: &'a Value) -> Result<Dtc, ReadError<'a>>
    ensures { IfOk result (HoldsCode (view value.now)) }
{
    let Some(text) = value.as_str() else {
        return Err(ReadError::at(place, key, KeyFault::NoTexts));
    };
    match read_code(text) {
        Some(code) => Ok(code),
        None => Err(ReadError::of_text(place, key, text, KeyFault::NotCode)),
    }
}

/// The code that a text spells: `SPN/FMI`, which has occurred once, or `SPN/FMI/COUNT`, which has occurred 1 to 126 times.
fn read_code(text: &str) -> Option<Dtc>
    ensures { IfSome result (SpellsCode text.now) }
{
    let (spn, rest) = split_at_slash(text)?;
    let spn = read_number(spn)?;
    let (fmi, count) = read_mode(rest)?;
    if count == 0 || count > MOST_OCCURRENCES {
        return None;
    }
    Dtc::new(spn, fmi, count).ok()
}

/// The FMI that a text spells, and the count: `FMI` or `FMI/COUNT`.
fn read_mode(text: &str) -> Option<(u8, u8)>
    ensures { IfSome result (λ r. SpellsMode text.now r.0 r.1) }
{
    match split_at_slash(text) {
        Some((fmi, count)) => Some((read_small_number(fmi)?, read_small_number(count)?)),
        None => Some((read_small_number(text)?, 1)),
    }
}

/// What stands before a slash of a text, and behind it.
fn split_at_slash(text: &str) -> Option<(&str, &str)>
    ensures { IfSome result (λ x. text.now ≡ x.0.now ++ 47 ∷ x.1.now) }
{
    text.split_once('/')
}
