//! A live station is opened in a handle, and closed.
ghost use Rattle.std.specs.Prelude.{◌≡◌, ◌⊎◌, ◌↔◌, ◌<◌, ◌≤◌, IsNone, IsSome, [], None, Some, length, true, false};
ghost use Rattle.can_frame.specs.declared.address.TheConstants.{GREATEST_ADDRESS};
ghost use Rattle.live_station.specs.Working.{begun_station};
ghost use Rattle.shared_groups.specs.Sharing.{none_shared};
ghost use Rattle.station_c.specs.Anew.{TellsRoomLive};
ghost use Rattle.station_c.specs.LiveHandles.{HoldsLive, HoldsSameLive, has_live};
ghost use Rattle.station_c.specs.LiveRecords.{are_in_range, times_told};
ghost use Rattle.station_c.specs.Statuses.{Answers, DoneUnlessMemory};

use crate::listed_live::ListedLive;
use crate::live_handle::LiveHandle;
use crate::live_records::LiveSettingsRecord;
use crate::status::Status;
use can_frame::GREATEST_ADDRESS;
use name_field::Name;
use std::alloc::Global;

/// Opens a live station of this NAME, which holds this address, 0 to 253, and keeps to these settings (SAE J1939-81, -21). It has
/// heard nothing, no order was given, and its claim waits to be written; behind it goes a request for the claims of all.
///
/// Refused, in this order: `BadSetting` for an address above 253 or a setting that is out of its range, `HasStation`, `OutOfMemory`;
/// the handle is then as it was.
#[unsafe(no_mangle)]
pub extern "C" fn hidzgula_live_open(
    alloc: Global,
    handle: &mut LiveHandle,
    name: u64,
    address: u8,
    settings: &LiveSettingsRecord,
) -> u32
    ensures opened { Answers result Status.Done
        → HoldsLive (record { name = name; address = address }) settings.now.grant settings.now.keep handle.new [] }
    ensures value { Answers result Status.Done → handle.new.value ≡ record {
      live = begun_station name address settings.now.grant (times_told settings.now);
      lists = record { keep = settings.now.keep; rows = [] };
      last = None;
      shared = none_shared (Some address) settings.now.grant (times_told settings.now).gap;
    } }
    ensures kept { ¬ Answers result Status.Done → HoldsSameLive handle.old handle.new }
    ensures bad_setting { Answers result Status.BadSetting ↔ ((GREATEST_ADDRESS < address) ⊎ (are_in_range settings.now ≡ false)) }
    ensures already_open { Answers result Status.HasStation
        ↔ ((address ≤ GREATEST_ADDRESS) × (are_in_range settings.now ≡ true) × (has_live handle.old ≡ true)) }
    ensures done { address ≤ GREATEST_ADDRESS → are_in_range settings.now ≡ true → has_live handle.old ≡ false
        → DoneUnlessMemory result }
{
    if address > GREATEST_ADDRESS || !settings.are_in_range() {
        return Status::BadSetting.number();
    }
    if let Some(station) = handle.lift(alloc) {
        handle.put(station);
        return Status::HasStation.number();
    }
    let name = Name::from_number(name);
    let LiveSettingsRecord { keep, grant, .. } = *settings;
    let Ok(station) = ListedLive::new(alloc, name, address, grant, keep, settings.times()) else {
        return Status::OutOfMemory.number();
    };
    let Ok(station) = Box::new(alloc, station) else {
        return Status::OutOfMemory.number();
    };
    handle.put(station);
    Status::Done.number()
}

/// Closes the station of a handle, if it has one, and frees its memory. An order that is open gets no verdict.
#[unsafe(no_mangle)]
pub extern "C" fn hidzgula_live_close(alloc: Global, handle: &mut LiveHandle)
    ensures { has_live handle.new ≡ false }
{
    let _station = handle.lift(alloc);
}

/// Makes room for one more NAME, of which there are to be `most` at most: where there are as many, the station is begun anew, and `anew`
/// is 1, else 0. It is then as one that was opened at its address, and heard the claims of the NAMEs that hold others, if these are
/// fewer than `most`: so its claim waits, and behind it a request for the claims of all.
///
/// Refused, in this order: `BadSetting` for `most` 0, `NoStation`; and where it is to be begun anew `OrderOpen` while an order is open,
/// `NotHeld` where it holds no address, `OutOfMemory`; handle and `anew` are then as they were.
#[unsafe(no_mangle)]
pub extern "C" fn hidzgula_live_make_room(
    alloc: Global,
    handle: &mut LiveHandle,
    most: usize,
    anew: &mut u8,
) -> u32
    ensures made { Answers result Status.Done → TellsRoomLive most handle.old.value handle.new.value anew.new }
    ensures open { has_live handle.new ≡ has_live handle.old }
    ensures kept { ¬ Answers result Status.Done → HoldsSameLive handle.old handle.new }
    ensures untold { ¬ Answers result Status.Done → anew.new ≡ anew.old }
    ensures bad_setting { Answers result Status.BadSetting ↔ (most ≡ 0) }
    ensures no_station { Answers result Status.NoStation ↔ ((0 < most) × (has_live handle.old ≡ false)) }
    ensures order_open { Answers result Status.OrderOpen ↔ ((0 < most) × (has_live handle.old ≡ true)
        × (most ≤ length handle.old.value.live.station.rows) × IsSome handle.old.value.live.order) }
    ensures not_held { Answers result Status.NotHeld ↔ ((0 < most) × (has_live handle.old ≡ true)
        × (most ≤ length handle.old.value.live.station.rows) × IsNone handle.old.value.live.order × IsNone handle.old.value.live.station.claimer.held) }
    ensures done { (0 < most) → (has_live handle.old ≡ true)
        → (Answers result Status.Done) ⊎ (Answers result Status.OrderOpen) ⊎ (Answers result Status.NotHeld) ⊎ (Answers result Status.OutOfMemory) }
{
    if most == 0 {
        return Status::BadSetting.number();
    }
    let Some(mut station) = handle.lift(alloc) else {
        return Status::NoStation.number();
    };
    let made = station.make_room(alloc, most);
    handle.put(station);
    match made {
        Ok(begun) => {
            *anew = u8::from(begun);
            Status::Done.number()
        }
        Err(refusal) => refusal.number(),
    }
}
