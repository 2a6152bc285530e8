//! What the listener of a handle knows of NAMEs and of units, and of what it could not read.
ghost use Rattle.std.specs.Prelude.{◌≡◌, ◌↔◌, ◌⊎◌, ◌≤◌, List, Some, IfSome, IsNone, length, slice_get, true, false};
ghost use Rattle.bus_model.specs.Heard.{missed_count, names_heard};
ghost use Rattle.bus_model.specs.Overheard.{row_overheard, unread_overheard};
ghost use Rattle.can_frame.specs.declared.reading.Reading.{Reading as AnyReading};
ghost use Rattle.listener.specs.ListenerValue.{HasOverheard};
ghost use Rattle.listener.specs.NewestSent.{units_overheard};
ghost use Rattle.station_c.specs.HeardRecords.{who_recorded};
ghost use Rattle.station_c.specs.ListenerHandles.{HoldsHeard, HoldsSameListener, has_listener};
ghost use Rattle.station_c.specs.Records.{row_in};
ghost use Rattle.station_c.specs.Statuses.{Answers};

use crate::heard_records::WhoRecord;
use crate::listener_handle::ListenerHandle;
use crate::records::{RowRecord, flagged};
use crate::status::Status;
use listener::Listener;
use std::alloc::Global;

/// How many frames it was told of as missed, and how many messages could not be read; each up to the greatest 64-bit number.
///
/// Refused: `NoListener`; `missed` and `unread` are then as they were.
#[unsafe(no_mangle)]
pub extern "C" fn hidzgula_listener_counts(
    alloc: Global,
    handle: &mut ListenerHandle,
    missed: &mut u64,
    unread: &mut u64,
) -> u32
    ensures heard { Answers result Status.Done → (h : List AnyReading) → HoldsHeard handle.old h
        → (missed.new ≡ missed_count h) × (unread.new ≡ unread_overheard h) }
    ensures untold { ¬ Answers result Status.Done → (missed.new ≡ missed.old) × (unread.new ≡ unread.old) }
    ensures kept { HoldsSameListener handle.old handle.new }
    ensures no_listener { Answers result Status.NoListener ↔ (has_listener handle.old ≡ false) }
    ensures done { Answers result Status.Done ↔ (has_listener handle.old ≡ true) }
{
    let Some(it) = handle.lift(alloc) else {
        return Status::NoListener.number();
    };
    *missed = it.listener().missed();
    *unread = it.listener().unread();
    handle.put(it);
    Status::Done.number()
}

/// How many NAMEs have a row.
///
/// Refused: `NoListener`; `count` is then as it was.
#[unsafe(no_mangle)]
pub extern "C" fn hidzgula_listener_rows(
    alloc: Global,
    handle: &mut ListenerHandle,
    count: &mut usize,
) -> u32
    ensures heard { Answers result Status.Done → (h : List AnyReading) → HoldsHeard handle.old h
        → count.new ≡ length (names_heard h) }
    ensures untold { ¬ Answers result Status.Done → count.new ≡ count.old }
    ensures kept { HoldsSameListener handle.old handle.new }
    ensures no_listener { Answers result Status.NoListener ↔ (has_listener handle.old ≡ false) }
    ensures done { Answers result Status.Done ↔ (has_listener handle.old ≡ true) }
{
    let Some(it) = handle.lift(alloc) else {
        return Status::NoListener.number();
    };
    *count = it.listener().names();
    handle.put(it);
    Status::Done.number()
}

/// The row at this place, from 0, in the order of the NAMEs' first claims. Its acknowledgment is its last one to whomever.
///
/// Refused, in this order: `NoListener`, `NoPlace` where there are no more than `place` rows; `row` is then as it was.
#[unsafe(no_mangle)]
pub extern "C" fn hidzgula_listener_row(
    alloc: Global,
    handle: &mut ListenerHandle,
    place: usize,
    row: &mut RowRecord,
) -> u32
    ensures heard { Answers result Status.Done → (h : List AnyReading) → HoldsHeard handle.old h
        → (slice_get (names_heard h) place ≡ Some row.new.name) × (row_overheard row.new.name h ≡ Some (row_in row.new)) }
    ensures no_place { Answers result Status.NoPlace → (h : List AnyReading) → HoldsHeard handle.old h
        → length (names_heard h) ≤ place }
    ensures untold { ¬ Answers result Status.Done → row.new ≡ row.old }
    ensures kept { HoldsSameListener handle.old handle.new }
    ensures no_listener { Answers result Status.NoListener ↔ (has_listener handle.old ≡ false) }
    ensures done { has_listener handle.old ≡ true → (Answers result Status.Done) ⊎ (Answers result Status.NoPlace) }
{
    let Some(it) = handle.lift(alloc) else {
        return Status::NoListener.number();
    };
    let found = row_at(it.listener(), place);
    handle.put(it);
    match found {
        Some(told) => {
            *row = told;
            Status::Done.number()
        }
        None => Status::NoPlace.number(),
    }
}

/// The row of a listener at this place.
#[tactic(auto, using(crate::proofs::Named::named_has_row))]
fn row_at(listener: &Listener, place: usize) -> Option<RowRecord>
    ensures found { IfSome result (λ row. (h : List AnyReading) → HasOverheard listener.now h
        → (slice_get (names_heard h) place ≡ Some row.name) × (row_overheard row.name h ≡ Some (row_in row))) }
    ensures none { IsNone result → (h : List AnyReading) → HasOverheard listener.now h → length (names_heard h) ≤ place }
{
    let name = listener.name_at(place)?;
    let row = listener.row(name)?;
    let (has_address, address) = flagged(row.address);
    let (has_ack, ack_control, ack_pgn) = match row.ack {
        Some(ack) => (1, ack.control, ack.pgn.number()),
        None => (0, 0, 0),
    };
    Some(RowRecord {
        name: name.number(),
        has_address,
        address,
        has_ack,
        ack_control,
        ack_pgn,
    })
}

/// How many units have had entries: NAMEs, and addresses that no NAME had claimed, each from one gap to the next.
///
/// Refused: `NoListener`; `count` is then as it was.
#[unsafe(no_mangle)]
pub extern "C" fn hidzgula_listener_units(
    alloc: Global,
    handle: &mut ListenerHandle,
    count: &mut usize,
) -> u32
    ensures heard { Answers result Status.Done → (h : List AnyReading) → HoldsHeard handle.old h
        → count.new ≡ length (units_overheard h) }
    ensures untold { ¬ Answers result Status.Done → count.new ≡ count.old }
    ensures kept { HoldsSameListener handle.old handle.new }
    ensures no_listener { Answers result Status.NoListener ↔ (has_listener handle.old ≡ false) }
    ensures done { Answers result Status.Done ↔ (has_listener handle.old ≡ true) }
{
    let Some(it) = handle.lift(alloc) else {
        return Status::NoListener.number();
    };
    *count = it.lists().units();
    handle.put(it);
    Status::Done.number()
}

/// The unit at this place, from 0, in the order of the units' first entries.
///
/// Refused, in this order: `NoListener`, `NoPlace` where no more than `place` units have had entries; `who` is then as it was.
#[unsafe(no_mangle)]
pub extern "C" fn hidzgula_listener_unit(
    alloc: Global,
    handle: &mut ListenerHandle,
    place: usize,
    who: &mut WhoRecord,
) -> u32
    ensures heard { Answers result Status.Done → (h : List AnyReading) → HoldsHeard handle.old h
        → slice_get (units_overheard h) place ≡ Some (who_recorded who.new) }
    ensures no_place { Answers result Status.NoPlace → (h : List AnyReading) → HoldsHeard handle.old h
        → length (units_overheard h) ≤ place }
    ensures untold { ¬ Answers result Status.Done → who.new ≡ who.old }
    ensures kept { HoldsSameListener handle.old handle.new }
    ensures no_listener { Answers result Status.NoListener ↔ (has_listener handle.old ≡ false) }
    ensures done { has_listener handle.old ≡ true → (Answers result Status.Done) ⊎ (Answers result Status.NoPlace) }
{
    let Some(it) = handle.lift(alloc) else {
        return Status::NoListener.number();
    };
    let found = it.lists().unit_at(place);
    handle.put(it);
    match found {
        Some(unit) => {
            *who = WhoRecord::of(unit);
            Status::Done.number()
        }
        None => Status::NoPlace.number(),
    }
}
