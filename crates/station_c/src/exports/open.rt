//! A station is opened in a handle, and closed.
ghost use Rattle.std.specs.Prelude.{◌≡◌, ◌⊎◌, ◌↔◌, ◌<◌, ◌≤◌, IsNone, length, true, false, []};
ghost use Rattle.station_c.specs.Anew.{TellsRoom};
ghost use Rattle.station_c.specs.Handles.{HoldsSame, HoldsReadings, has_station};
ghost use Rattle.station_c.specs.Statuses.{Answers, DoneUnlessMemory};

use crate::handle::StationHandle;
use crate::listed_station::ListedStation;
use crate::status::Status;
use can_frame::GREATEST_ADDRESS;
use name_field::Name;
use std::alloc::Global;

/// Opens a station of this NAME, which holds this address, 0 to 253, and grants at most this many packets at once, at least one.
/// Of each list it keeps the newest `keep` entries, none where that is 0. It has read nothing.
///
/// Refused, in this order: `BadSetting` for an address above 253 or a grant of 0, `HasStation`, `OutOfMemory`; the handle
/// is then as it was.
#[unsafe(no_mangle)]
pub extern "C" fn hidzgula_open(
    alloc: Global,
    handle: &mut StationHandle,
    name: u64,
    address: u8,
    grant: u8,
    keep: u32,
) -> u32
    ensures opened { Answers result Status.Done → HoldsReadings (record { name = name; address = address }) grant handle.new [] }
    ensures keeps { Answers result Status.Done → handle.new.value.lists.keep ≡ keep }
    ensures kept { ¬ Answers result Status.Done → HoldsSame handle.old handle.new }
    ensures bad_setting { Answers result Status.BadSetting ↔ ((GREATEST_ADDRESS < address) ⊎ (grant ≡ 0)) }
    ensures already_open { Answers result Status.HasStation
        ↔ ((address ≤ GREATEST_ADDRESS) × (0 < grant) × (has_station handle.old ≡ true)) }
    ensures done { (address ≤ GREATEST_ADDRESS) → (0 < grant) → (has_station handle.old ≡ false) → DoneUnlessMemory result }
{
    if address > GREATEST_ADDRESS || grant == 0 {
        return Status::BadSetting.number();
    }
    if let Some(station) = handle.lift(alloc) {
        handle.put(station);
        return Status::HasStation.number();
    }
    let station = ListedStation::new(alloc, Name::from_number(name), address, grant, keep);
    let Ok(station) = Box::new(alloc, station) else {
        return Status::OutOfMemory.number();
    };
    handle.put(station);
    Status::Done.number()
}

/// Closes the station of a handle, if it has one, and frees its memory.
#[unsafe(no_mangle)]
pub extern "C" fn hidzgula_close(alloc: Global, handle: &mut StationHandle)
    ensures { has_station handle.new ≡ false }
{
    let _station = handle.lift(alloc);
}

/// Makes room for one more NAME, of which there are to be `most` at most: where there are as many, the station is begun anew, and `anew`
/// is 1, else 0. It is then as one that was opened at its address, and read the claims of the NAMEs that hold others, if these are fewer
/// than `most`: without other rows, and with nothing listed, counted or half joined.
///
/// Refused, in this order: `BadSetting` for `most` 0, `NoStation`, `NotHeld` where it is to be begun anew and holds no address,
/// `OutOfMemory`; handle and `anew` are then as they were.
#[unsafe(no_mangle)]
pub extern "C" fn hidzgula_make_room(
    alloc: Global,
    handle: &mut StationHandle,
    most: usize,
    anew: &mut u8,
) -> u32
    ensures made { Answers result Status.Done → TellsRoom most handle.old.value handle.new.value anew.new }
    ensures open { has_station handle.new ≡ has_station handle.old }
    ensures kept { ¬ Answers result Status.Done → HoldsSame handle.old handle.new }
    ensures untold { ¬ Answers result Status.Done → anew.new ≡ anew.old }
    ensures bad_setting { Answers result Status.BadSetting ↔ (most ≡ 0) }
    ensures no_station { Answers result Status.NoStation ↔ ((0 < most) × (has_station handle.old ≡ false)) }
    ensures not_held { Answers result Status.NotHeld ↔ ((0 < most) × (has_station handle.old ≡ true)
        × (most ≤ length handle.old.value.station.rows) × IsNone handle.old.value.station.claimer.held) }
    ensures done { (0 < most) → (has_station handle.old ≡ true)
        → (Answers result Status.Done) ⊎ (Answers result Status.NotHeld) ⊎ (Answers result Status.OutOfMemory) }
{
    if most == 0 {
        return Status::BadSetting.number();
    }
    let Some(mut station) = handle.lift(alloc) else {
        return Status::NoStation.number();
    };
    let made = station.make_room(alloc, most);
    handle.put(station);
    match made {
        Ok(begun) => {
            *anew = u8::from(begun);
            Status::Done.number()
        }
        Err(refusal) => refusal.number(),
    }
}
