//! What the station of a handle knows of NAMEs, of its own address, and of what it could not read.
ghost use Rattle.std.specs.Prelude.{◌≡◌, ◌↔◌, ◌⊎◌, ◌≤◌, ℕ, List, None, Some, IfSome, IsNone, length, slice_get, true, false};
ghost use Rattle.bus_model.specs.Heard.{StationSettings, address_heard, claimer_heard, missed_count, names_heard, row_heard, unread_count};
ghost use Rattle.can_frame.specs.declared.reading.Reading.{Reading as AnyReading};
ghost use Rattle.entry_lists.specs.KeptValue.{kept_under};
ghost use Rattle.entry_lists.specs.KnownRows.{row_of};
ghost use Rattle.station_table.specs.Reactions.{own_claim};
ghost use Rattle.station_table.specs.StandsFor.{StandsFor};
ghost use Rattle.station_c.specs.Handles.{HoldsSame, HoldsReadings, has_station};
ghost use Rattle.station_c.specs.Records.{address_under, frame_recorded, row_in};
ghost use Rattle.station_c.specs.Statuses.{Answers};

use crate::handle::StationHandle;
use crate::records::{FrameRecord, RowRecord, flagged};
use crate::status::Status;
use name_field::Name;
use station_table::Station;
use std::alloc::Global;

/// The claim that the station sends first, or its cannot claim where it holds no address.
///
/// Refused: `NoStation`; `frame` is then as it was.
#[unsafe(no_mangle)]
pub extern "C" fn hidzgula_claim(
    alloc: Global,
    handle: &mut StationHandle,
    frame: &mut FrameRecord,
) -> u32
    ensures heard { Answers result Status.Done → (r : StationSettings) (grant : ℕ) (h : List AnyReading) → HoldsReadings r grant handle.old h
        → frame_recorded frame.new ≡ own_claim (claimer_heard r h) }
    ensures untold { ¬ Answers result Status.Done → frame.new ≡ frame.old }
    ensures kept { HoldsSame handle.old handle.new }
    ensures no_station { Answers result Status.NoStation ↔ (has_station handle.old ≡ false) }
    ensures done { Answers result Status.Done ↔ (has_station handle.old ≡ true) }
{
    let Some(station) = handle.lift(alloc) else {
        return Status::NoStation.number();
    };
    *frame = FrameRecord::of(&station.station().start());
    handle.put(station);
    Status::Done.number()
}

/// The station's own address: `has` is 1 where it holds one, else 0.
///
/// Refused: `NoStation`; `has` and `address` are then as they were.
#[unsafe(no_mangle)]
pub extern "C" fn hidzgula_held(
    alloc: Global,
    handle: &mut StationHandle,
    has: &mut u8,
    address: &mut u8,
) -> u32
    ensures heard { Answers result Status.Done → (r : StationSettings) (grant : ℕ) (h : List AnyReading) → HoldsReadings r grant handle.old h
        → address_under has.new address.new ≡ address_heard r h }
    ensures untold { ¬ Answers result Status.Done → (has.new ≡ has.old) × (address.new ≡ address.old) }
    ensures kept { HoldsSame handle.old handle.new }
    ensures no_station { Answers result Status.NoStation ↔ (has_station handle.old ≡ false) }
    ensures done { Answers result Status.Done ↔ (has_station handle.old ≡ true) }
{
    let Some(station) = handle.lift(alloc) else {
        return Status::NoStation.number();
    };
    (*has, *address) = flagged(station.station().held());
    handle.put(station);
    Status::Done.number()
}

/// How many frames it was told of as missed, and how many messages could not be read; each up to the greatest 64-bit number.
///
/// Refused: `NoStation`; `missed` and `unread` are then as they were.
#[unsafe(no_mangle)]
pub extern "C" fn hidzgula_counts(
    alloc: Global,
    handle: &mut StationHandle,
    missed: &mut u64,
    unread: &mut u64,
) -> u32
    ensures heard { Answers result Status.Done → (r : StationSettings) (grant : ℕ) (h : List AnyReading) → HoldsReadings r grant handle.old h
        → (missed.new ≡ missed_count h) × (unread.new ≡ unread_count r h) }
    ensures untold { ¬ Answers result Status.Done → (missed.new ≡ missed.old) × (unread.new ≡ unread.old) }
    ensures kept { HoldsSame handle.old handle.new }
    ensures no_station { Answers result Status.NoStation ↔ (has_station handle.old ≡ false) }
    ensures done { Answers result Status.Done ↔ (has_station handle.old ≡ true) }
{
    let Some(station) = handle.lift(alloc) else {
        return Status::NoStation.number();
    };
    *missed = station.station().missed();
    *unread = station.station().unread();
    handle.put(station);
    Status::Done.number()
}

/// How many NAMEs have a row.
///
/// Refused: `NoStation`; `count` is then as it was.
#[unsafe(no_mangle)]
pub extern "C" fn hidzgula_rows(alloc: Global, handle: &mut StationHandle, count: &mut usize) -> u32
    ensures heard { Answers result Status.Done → (r : StationSettings) (grant : ℕ) (h : List AnyReading) → HoldsReadings r grant handle.old h
        → count.new ≡ length (names_heard h) }
    ensures untold { ¬ Answers result Status.Done → count.new ≡ count.old }
    ensures kept { HoldsSame handle.old handle.new }
    ensures no_station { Answers result Status.NoStation ↔ (has_station handle.old ≡ false) }
    ensures done { Answers result Status.Done ↔ (has_station handle.old ≡ true) }
{
    let Some(station) = handle.lift(alloc) else {
        return Status::NoStation.number();
    };
    *count = station.station().names();
    handle.put(station);
    Status::Done.number()
}

/// The row at this place, from 0, in the order of the NAMEs' first claims.
///
/// Refused, in this order: `NoStation`, `NoPlace` where there are no more than `place` rows; `row` is then as it was.
#[unsafe(no_mangle)]
pub extern "C" fn hidzgula_row(
    alloc: Global,
    handle: &mut StationHandle,
    place: usize,
    row: &mut RowRecord,
) -> u32
    ensures heard { Answers result Status.Done → (r : StationSettings) (grant : ℕ) (h : List AnyReading) → HoldsReadings r grant handle.old h
        → (slice_get (names_heard h) place ≡ Some row.new.name) × (row_heard r row.new.name h ≡ Some (row_in row.new)) }
    ensures no_place { Answers result Status.NoPlace → (r : StationSettings) (grant : ℕ) (h : List AnyReading) → HoldsReadings r grant handle.old h
        → length (names_heard h) ≤ place }
    ensures untold { ¬ Answers result Status.Done → row.new ≡ row.old }
    ensures kept { HoldsSame handle.old handle.new }
    ensures no_station { Answers result Status.NoStation ↔ (has_station handle.old ≡ false) }
    ensures done { has_station handle.old ≡ true → (Answers result Status.Done) ⊎ (Answers result Status.NoPlace) }
{
    let Some(station) = handle.lift(alloc) else {
        return Status::NoStation.number();
    };
    let found = row_at(station.station(), place);
    handle.put(station);
    match found {
        Some(it) => {
            *row = it;
            Status::Done.number()
        }
        None => Status::NoPlace.number(),
    }
}

/// The row of a station at this place.
#[tactic(auto, using(crate::proofs::Named::named_has_row))]
pub(crate) fn row_at(station: &Station, place: usize) -> Option<RowRecord>
    ensures found { IfSome result (λ row. (r : StationSettings) (grant : ℕ) (h : List AnyReading) → StandsFor r grant station.now h
        → (slice_get (names_heard h) place ≡ Some row.name) × (row_heard r row.name h ≡ Some (row_in row))) }
    ensures none { IsNone result → (r : StationSettings) (grant : ℕ) (h : List AnyReading) → StandsFor r grant station.now h
        → length (names_heard h) ≤ place }
{
    let name = station.name_at(place)?;
    row_named(station, name)
}

/// The row of a NAME, if a station has one.
pub(crate) fn row_named(station: &Station, name: Name) -> Option<RowRecord>
    ensures name { IfSome result (λ row. row.name ≡ name) }
    ensures found { IfSome result (λ row. (r : StationSettings) (grant : ℕ) (h : List AnyReading) → StandsFor r grant station.now h
        → row_heard r name h ≡ Some (row_in row)) }
    ensures none { IsNone result → (r : StationSettings) (grant : ℕ) (h : List AnyReading) → StandsFor r grant station.now h
        → row_heard r name h ≡ None }
    ensures unknown { IsNone result → row_of station.now.owners name (kept_under station.now.rows name) ≡ None }
{
    let row = station.row(name)?;
    let (has_address, address) = flagged(row.address);
    let (has_ack, ack_control, ack_pgn) = match row.ack {
        Some(ack) => (1, ack.control, ack.pgn.number()),
        None => (0, 0, 0),
    };
    Some(RowRecord {
        name: name.number(),
        has_address,
        address,
        has_ack,
        ack_control,
        ack_pgn,
    })
}
