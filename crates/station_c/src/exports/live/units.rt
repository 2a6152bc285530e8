//! What the live station of a handle knows of NAMEs, of its own address, and of what it could not read.
ghost use Rattle.std.specs.Prelude.{◌≡◌, ◌↔◌, ◌⊎◌, ◌≤◌, ℕ, List, Some, length, slice_get, true, false};
ghost use Rattle.bus_model.specs.Heard.{StationSettings, address_heard, missed_count, names_heard, row_heard, unread_count};
ghost use Rattle.can_frame.specs.declared.reading.Reading.{Reading as AnyReading};
ghost use Rattle.live_station.specs.Ear.{frames_told};
ghost use Rattle.station_c.specs.LiveHandles.{HoldsLive, HoldsSameLive, has_live};
ghost use Rattle.station_c.specs.Records.{address_under, row_in};
ghost use Rattle.station_c.specs.Statuses.{Answers};

use crate::exports::units::row_at;
use crate::live_handle::LiveHandle;
use crate::records::{RowRecord, flagged};
use crate::status::Status;
use std::alloc::Global;

/// The station's own address: `has` is 1 where it holds one, else 0.
///
/// Refused: `NoStation`; `has` and `address` are then as they were.
#[unsafe(no_mangle)]
pub extern "C" fn hidzgula_live_held(
    alloc: Global,
    handle: &mut LiveHandle,
    has: &mut u8,
    address: &mut u8,
) -> u32
    ensures heard { Answers result Status.Done → (r : StationSettings) (grant keep : ℕ) (h : List AnyReading) → HoldsLive r grant keep handle.old h
        → address_under has.new address.new ≡ address_heard r (frames_told r h) }
    ensures untold { ¬ Answers result Status.Done → (has.new ≡ has.old) × (address.new ≡ address.old) }
    ensures kept { HoldsSameLive handle.old handle.new }
    ensures no_station { Answers result Status.NoStation ↔ (has_live handle.old ≡ false) }
    ensures done { Answers result Status.Done ↔ (has_live handle.old ≡ true) }
{
    let Some(station) = handle.lift(alloc) else {
        return Status::NoStation.number();
    };
    (*has, *address) = flagged(station.live().station().held());
    handle.put(station);
    Status::Done.number()
}

/// How many frames it was told of as missed, and how many messages could not be read; each up to the greatest 64-bit number.
///
/// Refused: `NoStation`; `missed` and `unread` are then as they were.
#[unsafe(no_mangle)]
pub extern "C" fn hidzgula_live_counts(
    alloc: Global,
    handle: &mut LiveHandle,
    missed: &mut u64,
    unread: &mut u64,
) -> u32
    ensures heard { Answers result Status.Done → (r : StationSettings) (grant keep : ℕ) (h : List AnyReading) → HoldsLive r grant keep handle.old h
        → (missed.new ≡ missed_count (frames_told r h)) × (unread.new ≡ unread_count r (frames_told r h)) }
    ensures untold { ¬ Answers result Status.Done → (missed.new ≡ missed.old) × (unread.new ≡ unread.old) }
    ensures kept { HoldsSameLive handle.old handle.new }
    ensures no_station { Answers result Status.NoStation ↔ (has_live handle.old ≡ false) }
    ensures done { Answers result Status.Done ↔ (has_live handle.old ≡ true) }
{
    let Some(station) = handle.lift(alloc) else {
        return Status::NoStation.number();
    };
    *missed = station.live().station().missed();
    *unread = station.live().station().unread();
    handle.put(station);
    Status::Done.number()
}

/// How many NAMEs have a row.
///
/// Refused: `NoStation`; `count` is then as it was.
#[unsafe(no_mangle)]
pub extern "C" fn hidzgula_live_rows(
    alloc: Global,
    handle: &mut LiveHandle,
    count: &mut usize,
) -> u32
    ensures heard { Answers result Status.Done → (r : StationSettings) (grant keep : ℕ) (h : List AnyReading) → HoldsLive r grant keep handle.old h
        → count.new ≡ length (names_heard (frames_told r h)) }
    ensures untold { ¬ Answers result Status.Done → count.new ≡ count.old }
    ensures kept { HoldsSameLive handle.old handle.new }
    ensures no_station { Answers result Status.NoStation ↔ (has_live handle.old ≡ false) }
    ensures done { Answers result Status.Done ↔ (has_live handle.old ≡ true) }
{
    let Some(station) = handle.lift(alloc) else {
        return Status::NoStation.number();
    };
    *count = station.live().station().names();
    handle.put(station);
    Status::Done.number()
}

/// The row at this place, from 0, in the order of the NAMEs' first claims.
///
/// Refused, in this order: `NoStation`, `NoPlace` where there are no more than `place` rows; `row` is then as it was.
#[unsafe(no_mangle)]
pub extern "C" fn hidzgula_live_row(
    alloc: Global,
    handle: &mut LiveHandle,
    place: usize,
    row: &mut RowRecord,
) -> u32
    ensures heard { Answers result Status.Done → (r : StationSettings) (grant keep : ℕ) (h : List AnyReading) → HoldsLive r grant keep handle.old h
        → (slice_get (names_heard (frames_told r h)) place ≡ Some row.new.name) × (row_heard r row.new.name (frames_told r h) ≡ Some (row_in row.new)) }
    ensures no_place { Answers result Status.NoPlace → (r : StationSettings) (grant keep : ℕ) (h : List AnyReading) → HoldsLive r grant keep handle.old h
        → length (names_heard (frames_told r h)) ≤ place }
    ensures untold { ¬ Answers result Status.Done → row.new ≡ row.old }
    ensures kept { HoldsSameLive handle.old handle.new }
    ensures no_station { Answers result Status.NoStation ↔ (has_live handle.old ≡ false) }
    ensures done { has_live handle.old ≡ true → (Answers result Status.Done) ⊎ (Answers result Status.NoPlace) }
{
    let Some(station) = handle.lift(alloc) else {
        return Status::NoStation.number();
    };
    let found = row_at(station.live().station(), place);
    handle.put(station);
    match found {
        Some(it) => {
            *row = it;
            Status::Done.number()
        }
        None => Status::NoPlace.number(),
    }
}
