//! The units of a vehicle as they take part in a real bus.
ghost use Rattle.std.specs.Prelude.{◌≡◌, ◌≢◌, ◌≤◌, IfOk, None, Some, codes, length};
ghost use Rattle.std.specs.List.{All};
ghost use Rattle.toml.specs.Data.{Members, get, table};
ghost use Rattle.toml.specs.Parse.{parse_document};
ghost use Rattle.toml.specs.View.{view, items_view};
ghost use Rattle.vehicle.specs.Holding.{EachHolds, HoldsUnitOf};
ghost use Rattle.vehicle.specs.Frames.{LeavesHalf};
ghost use Rattle.vehicle.specs.Live.{HaveDistinctNames, HoldsLiveUnit, HoldsLiveUnits, HoldsMemory, HoldsRest, live_keys_of_kind};

use crate::UnitLine;
use crate::answer_line::AnswerLine;
use crate::answers::{look_at_groups, read_answers};
use crate::codes::{read_codes, read_lamps_of};
use crate::fail_line::FailLine;
use crate::fails::read_fails;
use crate::fault::VehicleFault;
use crate::identification::{Identification, read_identification};
use crate::key_error::{KeyFault, KeyPlace, ReadError};
use crate::long_line::CyclicLine;
use crate::periods::look_at_periods;
use crate::read::{fault_of, has_document_keys, items_at, read_station, read_unit_of, second_of};
use crate::sends::read_sends;
use crate::violations::read_violations;
use name_field::Name;
use std::alloc::Global;
use toml::Value;
use trouble_code::{Dtc, Lamps};

/// A unit as it takes part in a real bus: how it begins, and what it sends.
#[derive(Drop)]
pub struct LiveLine {
    /// Its NAME, its address and its kind.
    pub unit: UnitLine,
    /// Its lamps and flash codes.
    pub lamps: Lamps,
    /// Its active codes, each of which has occurred 1 to 126 times.
    pub active: Vec<Dtc>,
    /// Its previously active codes, likewise.
    pub previous: Vec<Dtc>,
    /// Its pending codes, likewise.
    pub pending: Vec<Dtc>,
    /// What it sends again and again.
    pub sends: Vec<CyclicLine>,
    /// What it sends where it is asked for it: no group twice, and none of those by which it tells what it is.
    pub answers: Vec<AnswerLine>,
    /// How it tells what it is where it is asked.
    pub identification: Identification,
    /// What it does wrong on purpose.
    pub fails: Vec<FailLine>,
    /// Whether it claims its address again where somebody else sends from it (SAE J1939-81 in its editions since 2011, from memory).
    pub answers_violations: bool,
}

/// Reads the units of a vehicle's text, a TOML document, as they take part in a real bus.
///
/// The tables `station` and `second` are those that [`read_vehicle`](crate::read_vehicle) reads; here they may both be left out.
/// Each table of the array `unit` may have, beside the keys that it reads, `lamps`, `active`, `previous` and `pending`, and an
/// array of tables `sends` with the keys `pgn`, `bytes` and `period`, and `priority`, `checksum` and an array of tables `fields`, which
/// may be left out, and an array of tables `answers` with `pgn` and `bytes` or `text`, and `priority`; an array of tables `fails`, as [`read_fail`](crate::read_fail) reads one; and `vin`, `component`, `software`
/// and `ecu`, by which it tells what it is; and `answers_violations`, true or false. No other key may stand anywhere. Whether a unit can hold its codes together is not looked at:
/// that no code stands twice, and that they are 445 at most.
///
/// Packets go so many milliseconds apart (`gap`): of what a unit sends again and again in packets, each period is at least twice the
/// time that all of it takes.
///
/// # Errors
/// - `Refused`: the text is no TOML, a key is missing or not known, a value is of another type or out of its range, both
///   stations or two units have one NAME (SAE J1939-81: each unit of a network has its own), a unit answers one group twice, a period
///   is too short, or there is no unit.
/// - `Memory`: memory ran out.
pub fn read_live_units(alloc: Global, text: &str, gap: u32) -> Result<Vec<LiveLine>, VehicleFault>
    ensures spare { IfOk result (λ units. All (λ u. LeavesHalf gap u.sends.items) units.items) }
    ensures holds { IfOk result (λ units. (t : Members) × (parse_document text.now ≡ Some t) × HoldsLiveUnits (table t) units.items) }
{
    let root = match toml::table_from_str(alloc, text) {
        Ok(table) => Value::Table(table),
        Err(error) => return Err(fault_of(alloc, text, &error)),
    };
    match spare_units(alloc, &root, gap) {
        Ok(units) => Ok(units),
        Err(unread) => Err(unread.told(alloc, text)),
    }
}

/// The units that a document describes, where their packets leave half of each period.
fn spare_units(alloc: Global, root: &Value, gap: u32) -> Result<Vec<LiveLine>, ReadError<'_>>
    ensures spare { IfOk result (λ units. All (λ u. LeavesHalf gap u.sends.items) units.items) }
    ensures holds { IfOk result (λ units. HoldsLiveUnits (view root.now) units.items) }
{
    match units_of(alloc, root) {
        Ok(units) => match look_at_periods(gap, units.as_slice()) {
            Ok(()) => Ok(units),
            Err(unread) => Err(unread),
        },
        Err(unread) => Err(unread),
    }
}

/// The units that a document describes.
#[tactic(auto, using(crate::proofs::UnitLemmas::held))]
fn units_of(alloc: Global, root: &Value) -> Result<Vec<LiveLine>, ReadError<'_>>
    ensures { IfOk result (λ units. HoldsLiveUnits (view root.now) units.items) }
{
    has_document_keys(root)?;
    look_at_stations(root)?;
    let lines = items_at(KeyPlace::Whole, root, "unit", KeyFault::NoTables)?;
    match read_units(alloc, lines) {
        Ok(units) => some_apart(units),
        Err(unread) => Err(unread),
    }
}

/// Looks at the stations of a vehicle, which take no part: they are as they have to be, where they are there.
fn look_at_stations(root: &Value) -> Result<(), ReadError<'_>> {
    let Some(value) = root.get("station") else {
        return Ok(());
    };
    let station = read_station(value)?;
    match second_of(root, station.name) {
        Ok(_) => Ok(()),
        Err(unread) => Err(unread),
    }
}

fn read_units(alloc: Global, lines: &[Value]) -> Result<Vec<LiveLine>, ReadError<'_>>
    ensures { IfOk result (λ units. EachHolds HoldsLiveUnit (items_view lines.now) units.items) }
{
    let mut units = Vec::new(alloc);
    for line in lines {
        let number = units.len();
        units.push(read_unit(alloc, number, line)?)?;
    }
    Ok(units)
}

/// Units, where there is one at least, and no two have one NAME.
fn some_apart<'a>(units: Vec<LiveLine>) -> Result<Vec<LiveLine>, ReadError<'a>>
    ensures same { IfOk result (λ some. some ≡ units) }
    ensures some { IfOk result (λ some. 1 ≤ length some.items) }
    ensures apart { IfOk result (λ some. HaveDistinctNames some.items) }
{
    if units.is_empty() {
        return Err(ReadError::at(KeyPlace::Whole, "unit", KeyFault::NoUnit));
    }
    match twins(units.as_slice()) {
        Some((first, second)) => {
            let place = KeyPlace::Unit(second);
            Err(ReadError::at(place, "name", KeyFault::OfUnit(first)))
        }
        None => Ok(units),
    }
}

/// The places of two units that have one NAME.
#[tactic(auto, using(crate::proofs::UnitLemmas::one_more_name))]
fn twins(units: &[LiveLine]) -> Option<(usize, usize)>
    ensures none { result ≡ None → HaveDistinctNames units.now }
{
    for (place, unit) in units.iter().enumerate() {
        if let Some(first) = place_of(&units[..place], unit.unit.name) {
            return Some((first, place));
        }
    }
    None
}

/// The place of a unit that has this NAME.
fn place_of(units: &[LiveLine], name: Name) -> Option<usize>
    ensures none { result ≡ None → All (λ u. u.unit.name ≢ name) units.now }
{
    units.iter().position(|unit| unit.unit.name == name)
}

fn read_unit(alloc: Global, number: usize, value: &Value) -> Result<LiveLine, ReadError<'_>>
    ensures { IfOk result (HoldsLiveUnit (view value.now)) }
{
    let place = KeyPlace::Unit(number);
    match read_live_unit(place, value) {
        Ok(unit) => read_rest(alloc, number, unit, value),
        Err(unread) => Err(unread),
    }
}

/// How a unit begins, and what it sends.
fn read_rest(
    alloc: Global,
    number: usize,
    unit: UnitLine,
    value: &Value,
) -> Result<LiveLine, ReadError<'_>>
    ensures { IfOk result (λ u. (u.unit ≡ unit) × HoldsRest (view value.now) u) }
{
    let place = KeyPlace::Unit(number);
    let lamps = read_lamps_of(place, value)?;
    let memory = read_memory(alloc, place, value)?;
    let answers = read_answers(alloc, number, value)?;
    let identification = read_identification(alloc, place, value)?;
    look_at_groups(number, &identification, answers.as_slice())?;
    let fails = read_fails(alloc, number, value)?;
    let answers_violations = read_violations(place, value)?;
    match read_sends(alloc, number, value) {
        Ok(sends) => Ok(LiveLine {
            unit,
            lamps,
            active: memory.active,
            previous: memory.previous,
            pending: memory.pending,
            sends,
            answers,
            identification,
            fails,
            answers_violations,
        }),
        Err(unread) => Err(unread),
    }
}

/// What a unit is.
fn read_live_unit(place: KeyPlace, value: &Value) -> Result<UnitLine, ReadError<'_>>
    ensures { IfOk result (λ u. HoldsUnitOf (live_keys_of_kind u.kind) (view value.now) u) }
{
    read_unit_of(
        place,
        value,
        &[
            "name",
            "address",
            "kind",
            "lamps",
            "active",
            "previous",
            "pending",
            "sends",
            "answers",
            "fails",
            "vin",
            "component",
            "software",
            "ecu",
            "answers_violations",
        ],
        &[
            "name",
            "address",
            "kind",
            "spn",
            "fmi",
            "lamps",
            "active",
            "previous",
            "pending",
            "sends",
            "answers",
            "fails",
            "vin",
            "component",
            "software",
            "ecu",
            "answers_violations",
        ],
    )
}

/// The codes with which a unit begins.
#[derive(Drop)]
struct Memory {
    active: Vec<Dtc>,
    previous: Vec<Dtc>,
    pending: Vec<Dtc>,
}

fn read_memory(alloc: Global, place: KeyPlace, value: &Value) -> Result<Memory, ReadError<'_>>
    ensures { IfOk result (HoldsMemory (view value.now)) }
{
    Ok(Memory {
        active: read_codes(alloc, place, value, "active")?,
        previous: read_codes(alloc, place, value, "previous")?,
        pending: read_codes(alloc, place, value, "pending")?,
    })
}
