//! Faults that a unit has on purpose.
ghost use Rattle.std.specs.Prelude.{◌≡◌, ◌≤◌, IfOk, Some, codes};
ghost use Rattle.toml.specs.Data.{Data, get};
ghost use Rattle.toml.specs.View.{view, items_view};
ghost use Rattle.vehicle.specs.Fails.{HoldsBabble, HoldsDeviation, HoldsFail, HoldsFailsAt, HoldsNumberAt, HoldsNumberOr};
ghost use Rattle.vehicle.specs.Fails as fails;
ghost use Rattle.vehicle.specs.Holding.{EachHolds, text_at};

use crate::fail_line::{Deviation, FailLine};
use crate::fault::VehicleFault;
use crate::key_error::{KeyFault, KeyPlace, ReadError};
use crate::read::{fault_of, has_only, items_at, read_number, read_text};
use crate::send_line::GREATEST_PGN;
use crate::sends::{read_bytes, read_priority};
use can_frame::{Frame, GREATEST_ADDRESS, Id, Pgn};
use std::alloc::Global;
use toml::Value;

/// The longest time of a fault, in milliseconds: a day.
const LONGEST: u32 = 86_400_000;

/// The longest wait, and the longest period of frames that a fault adds, in milliseconds.
const LONGEST_WAIT: u32 = 60_000;

/// The most that a fault happens, and the greatest seed.
const MOST: u32 = 1_000_000_000;

/// Reads a fault from what stands in the table of one, on one line: `kind = "drop", count = 3`.
///
/// # Errors
/// - `Refused`: it is no such table.
/// - `Memory`: memory ran out.
pub fn read_fail(alloc: Global, text: &str) -> Result<FailLine, VehicleFault>
    ensures { IfOk result (λ f. (d : Data) × HoldsFail d f) }
{
    let Ok(text) = format!(in alloc; "fail = {{ {text} }}") else {
        return Err(VehicleFault::Memory);
    };
    let root = match toml::table_from_str(alloc, text.as_str()) {
        Ok(table) => Value::Table(table),
        Err(error) => return Err(fault_of(alloc, text.as_str(), &error)),
    };
    match read_fail_at(alloc, &root) {
        Ok(fail) => Ok(fail),
        Err(unread) => Err(unread.told(alloc, text.as_str())),
    }
}

fn read_fail_at(alloc: Global, root: &Value) -> Result<FailLine, ReadError<'_>>
    ensures { IfOk result (λ f. (d : Data) × HoldsFail d f) }
{
    let place = KeyPlace::Fail { unit: 0, number: 0 };
    match root.get("fail") {
        Some(value) => read_fail_of(alloc, place, value),
        None => Err(ReadError::at(place, "", KeyFault::NoTable)),
    }
}

/// The faults of a unit; none where it has no such key.
#[tactic(auto, using(crate::proofs::UnitLemmas::held))]
pub(crate) fn read_fails(
    alloc: Global,
    unit: usize,
    value: &Value,
) -> Result<Vec<FailLine>, ReadError<'_>>
    ensures { IfOk result (λ fails. HoldsFailsAt (get (codes "fails") (view value.now)) fails.items) }
{
    let items = items_at(KeyPlace::Unit(unit), value, "fails", KeyFault::NoTables)?;
    fails_of(alloc, unit, items)
}

fn fails_of(alloc: Global, unit: usize, items: &[Value]) -> Result<Vec<FailLine>, ReadError<'_>>
    ensures { IfOk result (λ fails. EachHolds HoldsFail (items_view items.now) fails.items) }
{
    let mut fails = Vec::new(alloc);
    for item in items {
        let place = KeyPlace::Fail {
            unit,
            number: fails.len(),
        };
        fails.push(read_fail_of(alloc, place, item)?)?;
    }
    Ok(fails)
}

fn read_fail_of(alloc: Global, place: KeyPlace, value: &Value) -> Result<FailLine, ReadError<'_>>
    ensures { IfOk result (HoldsFail (view value.now)) }
{
    let deviation = read_deviation(alloc, place, value)?;
    let count = read_number_at(place, value, "count", MOST)?;
    let time = read_number_at(place, value, "time", LONGEST)?;
    let group = read_number_at(place, value, "group", GREATEST_PGN)?;
    Ok(FailLine {
        deviation,
        after: read_number_or(place, value, "after", 0, LONGEST, 0)?,
        count: count_of(time, count),
        time,
        group,
        share: read_number_or(place, value, "share", 1, 100, 100)? as u8,
        seed: read_number_or(place, value, "seed", 0, MOST, 0)?,
    })
}

/// How often a fault happens of which this is told: once, where nothing is.
fn count_of(time: Option<u32>, count: Option<u32>) -> Option<u32>
    ensures { result ≡ fails.count_of time count }
{
    match (time, count) {
        (None, None) => Some(1),
        _ => count,
    }
}

/// What the word at the key "kind" stands for, where the table has the keys of that alone.
fn read_deviation(alloc: Global, place: KeyPlace, value: &Value) -> Result<Deviation, ReadError<'_>>
    ensures { IfOk result (HoldsDeviation (view value.now)) }
{
    let word = read_text(place, value, "kind")?;
    match word {
        "babble" => read_babble(alloc, place, value),
        "steal" => read_steal(place, value),
        "delay" => read_delay(place, value),
        _ => read_change(place, value, word),
    }
}

/// What changes a frame, and has no number.
fn read_change<'a>(
    place: KeyPlace,
    value: &'a Value,
    word: &'a str,
) -> Result<Deviation, ReadError<'a>>
    requires { text_at (codes "kind") (view value.now) ≡ Some word.now }
    ensures { IfOk result (HoldsDeviation (view value.now)) }
{
    let keys = &["kind", "after", "count", "time", "group", "share", "seed"];
    has_only(place, value, keys)?;
    match word {
        "drop" => Ok(Deviation::Drop),
        "twice" => Ok(Deviation::Twice),
        "number" => Ok(Deviation::Number),
        "short" => Ok(Deviation::Short),
        "zeros" => Ok(Deviation::Zeros),
        "old" => Ok(Deviation::Old),
        _ => Err(ReadError::of_text(place, "kind", word, KeyFault::NotDeviation)),
    }
}

fn read_delay(place: KeyPlace, value: &Value) -> Result<Deviation, ReadError<'_>>
    requires { text_at (codes "kind") (view value.now) ≡ Some (codes "delay") }
    ensures { IfOk result (HoldsDeviation (view value.now)) }
{
    let keys = &[
        "kind", "after", "count", "time", "group", "share", "seed", "wait",
    ];
    has_only(place, value, keys)?;
    let wait = read_number(place, value, "wait", 1, LONGEST_WAIT)?;
    Ok(Deviation::Delay(wait))
}

fn read_steal(place: KeyPlace, value: &Value) -> Result<Deviation, ReadError<'_>>
    requires { text_at (codes "kind") (view value.now) ≡ Some (codes "steal") }
    ensures { IfOk result (HoldsDeviation (view value.now)) }
{
    let keys = &["kind", "after", "count", "time", "address", "period"];
    has_only(place, value, keys)?;
    let address = read_number(place, value, "address", 0, u32::from(GREATEST_ADDRESS))? as u8;
    let period = read_number(place, value, "period", 1, LONGEST_WAIT)?;
    Ok(Deviation::Steal { address, period })
}

fn read_babble(alloc: Global, place: KeyPlace, value: &Value) -> Result<Deviation, ReadError<'_>>
    requires { text_at (codes "kind") (view value.now) ≡ Some (codes "babble") }
    ensures { IfOk result (HoldsDeviation (view value.now)) }
{
    let keys = &[
        "kind", "after", "count", "time", "pgn", "priority", "bytes", "period",
    ];
    has_only(place, value, keys)?;
    let period = read_number(place, value, "period", 1, LONGEST_WAIT)?;
    let frame = read_frame(alloc, place, value)?;
    Ok(Deviation::Babble { frame, period })
}

/// A frame to all of any group, from address 0.
fn read_frame(alloc: Global, place: KeyPlace, value: &Value) -> Result<Frame, ReadError<'_>>
    ensures { IfOk result (HoldsBabble (view value.now)) }
{
    let number = read_number(place, value, "pgn", 0, GREATEST_PGN)?;
    let priority = read_priority(place, value)?;
    let bytes = read_bytes(alloc, place, value)?;
    match Pgn::new(number) {
        Ok(pgn) if number / 256 % 256 >= 240 => {
            let id = Id::pdu2(priority, pgn, 0);
            Ok(Frame::of(id, bytes.as_slice()))
        }
        _ => Err(ReadError::at(place, "pgn", KeyFault::NotToAll(number))),
    }
}

/// The number at a key; this one where there is no such key.
fn read_number_or<'a>(
    place: KeyPlace,
    value: &Value,
    key: &'a str,
    least: u32,
    most: u32,
    usual: u32,
) -> Result<u32, ReadError<'a>>
    ensures { IfOk result (λ n. HoldsNumberOr (view value.now) key.now least most usual n) }
{
    match value.get(key) {
        Some(_) => read_number(place, value, key, least, most),
        None => Ok(usual),
    }
}

/// The number from 1 on at a key, where there is one.
fn read_number_at<'a>(
    place: KeyPlace,
    value: &Value,
    key: &'a str,
    most: u32,
) -> Result<Option<u32>, ReadError<'a>>
    ensures { IfOk result (HoldsNumberAt (view value.now) key.now most) }
{
    match value.get(key) {
        Some(_) => Ok(Some(read_number(place, value, key, 1, most)?)),
        None => Ok(None),
    }
}
