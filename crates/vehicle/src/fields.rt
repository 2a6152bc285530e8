//! Fields that move, of a group that a unit sends again and again.
ghost use Rattle.std.specs.Prelude.{◌≡◌, ◌≤◌, ◌-◌, ◌^◌, IfOk, Some, codes, length};
ghost use Rattle.toml.specs.Data.{get};
ghost use Rattle.toml.specs.View.{view, items_view};
ghost use Rattle.vehicle.specs.Fields.{HoldsBits, HoldsChecksum, HoldsChecksumAt, HoldsField, HoldsFieldsAt, HoldsOrderAt, HoldsValue, HoldsValuesAt};
ghost use Rattle.vehicle.specs.Holding.{EachHolds, text_at};

use crate::field_bits::{ByteOrder, FieldBits};
use crate::key_error::{KeyFault, KeyPlace, ReadError};
use crate::motion::{Counter, Motion, Ramp, ValueList};
use crate::moving_field::MovingField;
use crate::read::{has_only, items_at, number_in, read_number, read_text};
use std::alloc::Global;
use toml::Value;

/// The greatest start bit, and the most bits of a field.
const LAST_BIT: u32 = 63;

const MOST_BITS: u32 = 32;

/// How many bits a checksum has at least.
const CHECKSUM_BITS: u32 = 3;

/// The fields of a group; none where it has no such key.
#[tactic(auto, using(crate::proofs::UnitLemmas::held))]
pub(crate) fn read_fields(
    alloc: Global,
    unit: usize,
    send: usize,
    value: &Value,
) -> Result<Vec<MovingField>, ReadError<'_>>
    ensures { IfOk result (λ fields. HoldsFieldsAt (get (codes "fields") (view value.now)) fields.items) }
{
    let place = KeyPlace::Send { unit, number: send };
    let items = items_at(place, value, "fields", KeyFault::NoTables)?;
    fields_of(alloc, unit, send, items)
}

fn fields_of(
    alloc: Global,
    unit: usize,
    send: usize,
    items: &[Value],
) -> Result<Vec<MovingField>, ReadError<'_>>
    ensures { IfOk result (λ fields. EachHolds HoldsField (items_view items.now) fields.items) }
{
    let mut fields = Vec::new(alloc);
    for item in items {
        let place = KeyPlace::Field {
            unit,
            send,
            number: fields.len(),
        };
        fields.push(read_field(alloc, place, item)?)?;
    }
    Ok(fields)
}

fn read_field(alloc: Global, place: KeyPlace, value: &Value) -> Result<MovingField, ReadError<'_>>
    ensures { IfOk result (HoldsField (view value.now)) }
{
    let kind = read_text(place, value, "kind")?;
    match kind {
        "counter" => read_counter(place, value),
        "ramp" => read_ramp(place, value),
        "toggle" => read_toggle(place, value),
        "values" => read_values(alloc, place, value),
        _ => Err(ReadError::of_text(place, "kind", kind, KeyFault::NotMotion)),
    }
}

#[tactic(auto, using(crate::proofs::MotionLemmas::counter_fits))]
fn read_counter(place: KeyPlace, value: &Value) -> Result<MovingField, ReadError<'_>>
    requires { text_at (codes "kind") (view value.now) ≡ Some (codes "counter") }
    ensures { IfOk result (HoldsField (view value.now)) }
{
    has_only(
        place,
        value,
        &["kind", "start", "length", "order", "least", "most"],
    )?;
    let bits = read_bits(place, value, 1)?;
    let greatest = bits.greatest();
    let least = read_number(place, value, "least", 0, greatest)?;
    let most = read_number(place, value, "most", least, greatest)?;
    let motion = Motion::Counter(Counter { least, most });
    Ok(MovingField { bits, motion })
}

#[tactic(auto, using(crate::proofs::MotionLemmas::ramp_fits))]
fn read_ramp(place: KeyPlace, value: &Value) -> Result<MovingField, ReadError<'_>>
    requires { text_at (codes "kind") (view value.now) ≡ Some (codes "ramp") }
    ensures { IfOk result (HoldsField (view value.now)) }
{
    let keys = &["kind", "start", "length", "order", "least", "most", "step"];
    has_only(place, value, keys)?;
    let bits = read_bits(place, value, 1)?;
    let greatest = bits.greatest();
    let least = read_number(place, value, "least", 0, greatest - 1)?;
    let most = read_number(place, value, "most", least + 1, greatest)?;
    let step = read_number(place, value, "step", 1, most - least)?;
    let motion = Motion::Ramp(Ramp { least, most, step });
    Ok(MovingField { bits, motion })
}

#[tactic(auto, using(crate::proofs::MotionLemmas::toggle_fits))]
fn read_toggle(place: KeyPlace, value: &Value) -> Result<MovingField, ReadError<'_>>
    requires { text_at (codes "kind") (view value.now) ≡ Some (codes "toggle") }
    ensures { IfOk result (HoldsField (view value.now)) }
{
    has_only(place, value, &["kind", "start", "length", "order"])?;
    let bits = read_bits(place, value, 1)?;
    let motion = Motion::Toggle;
    Ok(MovingField { bits, motion })
}

#[tactic(auto, using(crate::proofs::MotionLemmas::values_fit))]
fn read_values(alloc: Global, place: KeyPlace, value: &Value) -> Result<MovingField, ReadError<'_>>
    requires { text_at (codes "kind") (view value.now) ≡ Some (codes "values") }
    ensures { IfOk result (HoldsField (view value.now)) }
{
    has_only(
        place,
        value,
        &["kind", "start", "length", "order", "values"],
    )?;
    let bits = read_bits(place, value, 1)?;
    let list = read_list(alloc, place, value, bits.greatest())?;
    if list.is_empty() {
        return Err(ReadError::at(place, "values", KeyFault::NoValue));
    }
    let motion = Motion::Values(ValueList { list });
    Ok(MovingField { bits, motion })
}

/// The numbers of a field, each at most `greatest`; none where it has no such key.
#[tactic(auto, using(crate::proofs::UnitLemmas::held))]
fn read_list(
    alloc: Global,
    place: KeyPlace,
    value: &Value,
    greatest: u32,
) -> Result<Vec<u32>, ReadError<'_>>
    ensures { IfOk result (λ list. HoldsValuesAt greatest (get (codes "values") (view value.now)) list.items) }
{
    let items = items_at(place, value, "values", KeyFault::NoNumbers)?;
    numbers_of(alloc, place, items, greatest)
}

fn numbers_of(
    alloc: Global,
    place: KeyPlace,
    items: &[Value],
    greatest: u32,
) -> Result<Vec<u32>, ReadError<'_>>
    ensures { IfOk result (λ list. EachHolds (HoldsValue greatest) (items_view items.now) list.items) }
{
    let mut list = Vec::new(alloc);
    for item in items {
        match item.as_integer() {
            Some(found) => list.push(number_in(place, "values", found, 0, greatest)?)?,
            None => return Err(ReadError::at(place, "values", KeyFault::NoNumbers)),
        }
    }
    Ok(list)
}

/// Where the checksum of a group's frames stands, if it has one.
pub(crate) fn read_checksum(
    unit: usize,
    send: usize,
    value: &Value,
) -> Result<Option<FieldBits>, ReadError<'_>>
    ensures { IfOk result (HoldsChecksumAt (get (codes "checksum") (view value.now))) }
{
    let place = KeyPlace::Checksum { unit, send };
    match value.get("checksum") {
        Some(table) => match read_checksum_bits(place, table) {
            Ok(bits) => Ok(Some(bits)),
            Err(unread) => Err(unread),
        },
        None => Ok(None),
    }
}

fn read_checksum_bits(place: KeyPlace, value: &Value) -> Result<FieldBits, ReadError<'_>>
    ensures { IfOk result (HoldsChecksum (view value.now)) }
{
    has_only(place, value, &["start", "length", "order"])?;
    read_bits(place, value, CHECKSUM_BITS)
}

/// Where a field stands, of so many bits at least.
fn read_bits(place: KeyPlace, value: &Value, least: u32) -> Result<FieldBits, ReadError<'_>>
    requires { (1 ≤ least) × (least ≤ MOST_BITS) }
    ensures { IfOk result (HoldsBits least (view value.now)) }
{
    Ok(FieldBits {
        start: read_number(place, value, "start", 0, LAST_BIT)? as u8,
        size: read_number(place, value, "length", least, MOST_BITS)? as u8,
        order: read_order(place, value)?,
    })
}

/// The order of a field's bits; that of Intel where it has no such key.
fn read_order(place: KeyPlace, value: &Value) -> Result<ByteOrder, ReadError<'_>>
    ensures { IfOk result (HoldsOrderAt (view value.now)) }
{
    if value.get("order").is_none() {
        return Ok(ByteOrder::Intel);
    }
    match read_text(place, value, "order")? {
        "intel" => Ok(ByteOrder::Intel),
        "motorola" => Ok(ByteOrder::Motorola),
        word => Err(ReadError::of_text(place, "order", word, KeyFault::NotOrder)),
    }
}
