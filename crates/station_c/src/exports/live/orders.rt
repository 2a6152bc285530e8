//! The live station of a handle is given an order, and asked for its verdict.
ghost use Rattle.std.specs.Prelude.{◌≡◌, ◌⊎◌, ◌↔◌, IfSome, IsNone, IsSome, Some, option_map, true, false};
ghost use Rattle.live_station.specs.declared.order.Order.TheVariants.{Command};
ghost use Rattle.station_c.specs.ListedLives.{with_order, with_order_ended};
ghost use Rattle.station_c.specs.LiveHandles.{CommandsTooFar, HoldsSameLive, TakesOrder, has_live, is_order_barred};
ghost use Rattle.station_c.specs.LiveRecords.{order_to_ask, order_to_ask_all, order_to_clear, verdict_told};
ghost use Rattle.station_c.specs.Statuses.{Answers};

use crate::live_handle::LiveHandle;
use crate::live_records::VerdictRecord;
use crate::status::Status;
use can_frame::group_numbers::{ADDRESS_CLAIMED, DM1, DM2, DM3, DM6, DM11};
use dm_messages::Kind;
use live_station::{Clearing, Order};
use name_field::Name;
use std::alloc::Global;

/// Asks the unit of this NAME for a parameter group: 60928 for its claim, 65226, 65227 or 65231 for its DM1, DM2 or DM6 (SAE
/// J1939-73, -81). The order is open from now on; `hidzgula_live_next` writes its request in its time.
///
/// Refused, in this order: `NoGroup` for any other group, `NoStation`, `OrderOpen` while another order is open; nothing changed then.
#[unsafe(no_mangle)]
pub extern "C" fn hidzgula_live_ask(
    alloc: Global,
    handle: &mut LiveHandle,
    name: u64,
    pgn: u32,
) -> u32
    ensures { TakesOrder (order_to_ask name pgn) handle.old handle.new result }
{
    order(alloc, handle, asking(Name::from_number(name), pgn)).number()
}

/// Asks all units for a parameter group: 60928 for their claims, 65226, 65227 or 65231 for their DM1, DM2 or DM6.
///
/// Refused, in this order: `NoGroup` for any other group, `NoStation`, `OrderOpen` while another order is open; nothing changed then.
#[unsafe(no_mangle)]
pub extern "C" fn hidzgula_live_ask_all(alloc: Global, handle: &mut LiveHandle, pgn: u32) -> u32
    ensures { TakesOrder (order_to_ask_all pgn) handle.old handle.new result }
{
    order(alloc, handle, asking_all(pgn)).number()
}

/// Asks the unit of this NAME to clear: by 65228 (DM3) its previously active codes, by 65235 (DM11) its active ones; and then for what
/// is left, DM2 or DM1 (SAE J1939-73). It is written once, and again only where the unit said that it could not answer now.
///
/// Refused, in this order: `NoGroup` for any other group, `NoStation`, `OrderOpen` while another order is open; nothing changed then.
#[unsafe(no_mangle)]
pub extern "C" fn hidzgula_live_clear(
    alloc: Global,
    handle: &mut LiveHandle,
    name: u64,
    pgn: u32,
) -> u32
    ensures { TakesOrder (order_to_clear name pgn) handle.old handle.new result }
{
    order(alloc, handle, clearing(Name::from_number(name), pgn)).number()
}

/// Commands the unit of this NAME to hold an address, 0 to 253 (SAE J1939-81).
///
/// Refused, in this order: `NoStation`; `OrderOpen` while another order is open, or a message of the program's in packets to all is under way;
/// `NotAnAddress` for 254 and 255; nothing changed then.
#[unsafe(no_mangle)]
pub extern "C" fn hidzgula_live_command(
    alloc: Global,
    handle: &mut LiveHandle,
    name: u64,
    address: u8,
) -> u32
    ensures { TakesOrder (Some (Command name address)) handle.old handle.new result }
{
    let name = Name::from_number(name);
    order(alloc, handle, Some(Order::Command { name, address })).number()
}

/// The station of a handle, if it has one, is given an order, if it is one.
fn order(alloc: Global, handle: &mut LiveHandle, order: Option<Order>) -> Status
    ensures ordered { result ≡ Status.Done → IfSome order (λ o. handle.new.value ≡ with_order o handle.old.value) }
    ensures open { has_live handle.new ≡ has_live handle.old }
    ensures kept { ¬ (result ≡ Status.Done) → HoldsSameLive handle.old handle.new }
    ensures no_group { (result ≡ Status.NoGroup) ↔ IsNone order }
    ensures no_station { (result ≡ Status.NoStation) ↔ (IsSome order × (has_live handle.old ≡ false)) }
    ensures order_open { (result ≡ Status.OrderOpen)
        ↔ ((has_live handle.old ≡ true) × (is_order_barred order handle.old.value ≡ true)) }
    ensures not_an_address { (result ≡ Status.NotAnAddress)
        ↔ ((has_live handle.old ≡ true) × (is_order_barred order handle.old.value ≡ false) × CommandsTooFar order) }
    ensures only { (result ≡ Status.Done) ⊎ ((result ≡ Status.NoGroup)
        ⊎ ((result ≡ Status.NoStation) ⊎ ((result ≡ Status.OrderOpen) ⊎ (result ≡ Status.NotAnAddress)))) }
{
    let Some(order) = order else {
        return Status::NoGroup;
    };
    let Some(mut station) = handle.lift(alloc) else {
        return Status::NoStation;
    };
    let ordered = station.order(order);
    handle.put(station);
    match ordered {
        Ok(()) => Status::Done,
        Err(refusal) => Status::of_order(refusal),
    }
}

/// The open order, if one is open, is cut off at the time `now`: its verdict says so, and whether it was written.
///
/// Refused: `NoStation`; nothing changed then.
#[unsafe(no_mangle)]
pub extern "C" fn hidzgula_live_end(alloc: Global, handle: &mut LiveHandle, now: u64) -> u32
    ensures ended { Answers result Status.Done → handle.new.value ≡ with_order_ended now handle.old.value }
    ensures open { has_live handle.new ≡ has_live handle.old }
    ensures kept { ¬ Answers result Status.Done → HoldsSameLive handle.old handle.new }
    ensures no_station { Answers result Status.NoStation ↔ (has_live handle.old ≡ false) }
    ensures done { Answers result Status.Done ↔ (has_live handle.old ≡ true) }
{
    let Some(mut station) = handle.lift(alloc) else {
        return Status::NoStation.number();
    };
    station.end_order(now);
    handle.put(station);
    Status::Done.number()
}

/// The order that is open, or what came of the newest one; that stays until the next order is given.
///
/// Refused: `NoStation`; `verdict` is then as it was.
#[unsafe(no_mangle)]
pub extern "C" fn hidzgula_live_verdict(
    alloc: Global,
    handle: &mut LiveHandle,
    verdict: &mut VerdictRecord,
) -> u32
    ensures told { Answers result Status.Done
        → verdict.new ≡ verdict_told (option_map (λ o. o.order) handle.old.value.live.order) handle.old.value.last }
    ensures untold { ¬ Answers result Status.Done → verdict.new ≡ verdict.old }
    ensures kept { HoldsSameLive handle.old handle.new }
    ensures no_station { Answers result Status.NoStation ↔ (has_live handle.old ≡ false) }
    ensures done { Answers result Status.Done ↔ (has_live handle.old ≡ true) }
{
    let Some(station) = handle.lift(alloc) else {
        return Status::NoStation.number();
    };
    *verdict = VerdictRecord::of(station.live().open(), station.last());
    handle.put(station);
    Status::Done.number()
}

/// The order that asks the unit of this NAME for this group.
fn asking(name: Name, pgn: u32) -> Option<Order>
    ensures { result ≡ order_to_ask name pgn }
{
    match pgn {
        ADDRESS_CLAIMED => Some(Order::AskClaim { name }),
        DM1 => Some(Order::Ask {
            name,
            kind: Kind::Dm1,
        }),
        DM2 => Some(Order::Ask {
            name,
            kind: Kind::Dm2,
        }),
        DM6 => Some(Order::Ask {
            name,
            kind: Kind::Dm6,
        }),
        _ => None,
    }
}

/// The order that asks all units for this group.
fn asking_all(pgn: u32) -> Option<Order>
    ensures { result ≡ order_to_ask_all pgn }
{
    match pgn {
        ADDRESS_CLAIMED => Some(Order::AskAllClaims),
        DM1 => Some(Order::AskAll { kind: Kind::Dm1 }),
        DM2 => Some(Order::AskAll { kind: Kind::Dm2 }),
        DM6 => Some(Order::AskAll { kind: Kind::Dm6 }),
        _ => None,
    }
}

/// The order that has the unit of this NAME clear by this group.
fn clearing(name: Name, pgn: u32) -> Option<Order>
    ensures { result ≡ order_to_clear name pgn }
{
    match pgn {
        DM3 => Some(Order::Clear {
            name,
            what: Clearing::Dm3,
        }),
        DM11 => Some(Order::Clear {
            name,
            what: Clearing::Dm11,
        }),
        _ => None,
    }
}
