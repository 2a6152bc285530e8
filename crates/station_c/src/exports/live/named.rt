//! What the live station of a handle knows of a NAME.
ghost use Rattle.std.specs.Prelude.{◌≡◌, ◌↔◌, ◌⊎◌, ℕ, List, None, Some, false, true};
ghost use Rattle.bus_model.specs.Heard.{StationSettings, row_heard};
ghost use Rattle.can_frame.specs.declared.reading.Reading.{Reading as AnyReading};
ghost use Rattle.live_station.specs.Ear.{frames_told};
ghost use Rattle.station_c.specs.LiveHandles.{HoldsLive, HoldsSameLive, has_live};
ghost use Rattle.station_c.specs.Records.{row_in};
ghost use Rattle.station_c.specs.Statuses.{Answers};

use crate::exports::units::row_named;
use crate::live_handle::LiveHandle;
use crate::records::RowRecord;
use crate::status::Status;
use name_field::Name;
use std::alloc::Global;

/// The row of a NAME.
///
/// Refused, in this order: `NoStation`, `NoPlace` where no claim of it was heard; `row` is then as it was.
#[unsafe(no_mangle)]
pub extern "C" fn hidzgula_live_row_of(
    alloc: Global,
    handle: &mut LiveHandle,
    name: u64,
    row: &mut RowRecord,
) -> u32
    ensures heard { Answers result Status.Done → (r : StationSettings) (grant keep : ℕ) (h : List AnyReading) → HoldsLive r grant keep handle.old h
        → (row.new.name ≡ name) × (row_heard r name (frames_told r h) ≡ Some (row_in row.new)) }
    ensures no_place { Answers result Status.NoPlace → (r : StationSettings) (grant keep : ℕ) (h : List AnyReading) → HoldsLive r grant keep handle.old h
        → row_heard r name (frames_told r h) ≡ None }
    ensures untold { ¬ Answers result Status.Done → row.new ≡ row.old }
    ensures kept { HoldsSameLive handle.old handle.new }
    ensures no_station { Answers result Status.NoStation ↔ (has_live handle.old ≡ false) }
    ensures done { has_live handle.old ≡ true → (Answers result Status.Done) ⊎ (Answers result Status.NoPlace) }
{
    let Some(station) = handle.lift(alloc) else {
        return Status::NoStation.number();
    };
    let found = row_named(station.live().station(), Name::from_number(name));
    handle.put(station);
    match found {
        Some(it) => {
            *row = it;
            Status::Done.number()
        }
        None => Status::NoPlace.number(),
    }
}
