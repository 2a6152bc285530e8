//! The live station of a handle hears frames, and says which frame it writes when.
ghost use Rattle.std.specs.Prelude.{ℕ, ◌≡◌, ◌⊎◌, ◌↔◌, ◌<◌, ◌≤◌, ◌^◌, ◌∷◌, List, length, true, false};
ghost use Rattle.address_claim.specs.Frames.{claim_source};
ghost use Rattle.bus_model.specs.Heard.{StationSettings};
ghost use Rattle.can_frame.specs.Fields.{source_of};
ghost use Rattle.can_frame.specs.FrameValue.{frame};
ghost use Rattle.can_frame.specs.declared.reading.Reading.{Reading as AnyReading};
ghost use Rattle.can_frame.specs.declared.reading.Reading.TheVariants.{Frame as FrameRead, Gap as GapRead};
ghost use Rattle.live_station.specs.Working.{LacksRoomToHear, turn_at};
ghost use Rattle.live_station.specs.declared.turn.Turn.TheVariants.{Rests};
ghost use Rattle.live_unit.specs.declared.queue.TheConstants.{MOST_PUT as MOST};
ghost use Rattle.station_c.specs.LiveHandles.{HearsTelling, HoldsLive, HoldsSameLive, MissesTelling, PullsTelling, has_live};
ghost use Rattle.station_c.specs.LiveRecords.{TellsPulled};
ghost use Rattle.station_c.specs.Statuses.{Answers, DoneUnlessMemory};

use crate::changes::ChangeRecord;
use crate::live_handle::LiveHandle;
use crate::records::FrameRecord;
use crate::status::Status;
use can_frame::Frame;
use live_station::Pulled;
use std::alloc::Global;

/// The station hears a frame of the bus at the time `now`, in microseconds of any clock that does not go back. What it owes for it is
/// withdrawn and put; a message that ends goes to its lists; the open order looks at it. `change` is what it changed of what the station
/// shows. Its own frames may come back to it: they change nothing; one from its address that it did not write is a stranger's (SAE
/// J1939-21, -73, -81).
///
/// Refused, in this order: `IdTooLarge` for an identifier of 2^29 or more, `TooLong` for more than eight bytes, `NoStation`,
/// `QueueFull` where as much waits as there is room for and the frame may make it more, `OutOfMemory`; handle and `change` are then as
/// they were.
#[unsafe(no_mangle)]
pub extern "C" fn hidzgula_live_hear(
    alloc: Global,
    handle: &mut LiveHandle,
    id: u32,
    bytes: &[u8],
    now: u64,
    change: &mut ChangeRecord,
) -> u32
    ensures heard { Answers result Status.Done → HearsTelling (frame id bytes.now) now handle.old.value change.new handle.new.value }
    ensures taken { Answers result Status.Done → (r : StationSettings) (grant keep : ℕ) (h : List AnyReading) → HoldsLive r grant keep handle.old h
        → HoldsLive r grant keep handle.new (FrameRead (frame id bytes.now) ∷ h) }
    ensures open { has_live handle.new ≡ has_live handle.old }
    ensures kept { ¬ Answers result Status.Done → HoldsSameLive handle.old handle.new }
    ensures untold { ¬ Answers result Status.Done → change.new ≡ change.old }
    ensures id_too_large { Answers result Status.IdTooLarge ↔ (2 ^ 29 ≤ id) }
    ensures too_long { Answers result Status.TooLong ↔ ((id < 2 ^ 29) × (8 < length bytes.now)) }
    ensures no_station { Answers result Status.NoStation ↔ ((id < 2 ^ 29) × (length bytes.now ≤ 8) × (has_live handle.old ≡ false)) }
    ensures queue_full { Answers result Status.QueueFull
        ↔ ((id < 2 ^ 29) × (length bytes.now ≤ 8) × (has_live handle.old ≡ true)
        × LacksRoomToHear (frame id bytes.now) handle.old.value.live) }
    ensures done { (id < 2 ^ 29) → (length bytes.now ≤ 8) → (has_live handle.old ≡ true)
        → DoneUnlessMemory result ⊎ Answers result Status.QueueFull }
{
    match Frame::new(id, bytes) {
        Ok(frame) => hear(alloc, handle, &frame, now, change).number(),
        Err(refusal) => Status::of_frame(refusal).number(),
    }
}

/// The station of a handle, if it has one, hears a frame.
fn hear(
    alloc: Global,
    handle: &mut LiveHandle,
    frame: &Frame,
    now: u64,
    change: &mut ChangeRecord,
) -> Status
    ensures heard { result ≡ Status.Done → HearsTelling frame.now now handle.old.value change.new handle.new.value }
    ensures taken { result ≡ Status.Done → (r : StationSettings) (grant keep : ℕ) (h : List AnyReading) → HoldsLive r grant keep handle.old h
        → HoldsLive r grant keep handle.new (FrameRead frame.now ∷ h) }
    ensures open { has_live handle.new ≡ has_live handle.old }
    ensures kept { ¬ (result ≡ Status.Done) → HoldsSameLive handle.old handle.new }
    ensures untold { ¬ (result ≡ Status.Done) → change.new ≡ change.old }
    ensures no_station { (result ≡ Status.NoStation) ↔ (has_live handle.old ≡ false) }
    ensures queue_full { (result ≡ Status.QueueFull) ↔ ((has_live handle.old ≡ true) × LacksRoomToHear frame.now handle.old.value.live) }
    ensures only { (result ≡ Status.Done)
        ⊎ ((result ≡ Status.NoStation) ⊎ ((result ≡ Status.QueueFull) ⊎ (result ≡ Status.OutOfMemory))) }
{
    let Some(mut station) = handle.lift(alloc) else {
        return Status::NoStation;
    };
    let heard = station.hear(alloc, frame, now);
    handle.put(station);
    match heard {
        Ok(told) => {
            *change = ChangeRecord::of_told(&told);
            Status::Done
        }
        Err(refusal) => Status::of_hearing(refusal),
    }
}

/// The station is told at the time `now` that so many frames were missed: it forgets which NAME owns which address, and all messages
/// that are half read, until units claim again; its claim goes again, and later a request for the claims of all. `change` says how many
/// were missed.
///
/// Refused, in this order: `NoStation`, `QueueFull` where as much was put as is ever put, `OutOfMemory`; handle and `change` are then as
/// they were.
#[unsafe(no_mangle)]
pub extern "C" fn hidzgula_live_missed(
    alloc: Global,
    handle: &mut LiveHandle,
    count: u32,
    now: u64,
    change: &mut ChangeRecord,
) -> u32
    ensures missed { Answers result Status.Done → MissesTelling count now handle.old.value change.new handle.new.value }
    ensures taken { Answers result Status.Done → (r : StationSettings) (grant keep : ℕ) (h : List AnyReading) → HoldsLive r grant keep handle.old h
        → HoldsLive r grant keep handle.new (GapRead count ∷ h) }
    ensures open { has_live handle.new ≡ has_live handle.old }
    ensures kept { ¬ Answers result Status.Done → HoldsSameLive handle.old handle.new }
    ensures untold { ¬ Answers result Status.Done → change.new ≡ change.old }
    ensures no_station { Answers result Status.NoStation ↔ (has_live handle.old ≡ false) }
    ensures queue_full { Answers result Status.QueueFull ↔ ((has_live handle.old ≡ true) × (MOST ≤ handle.old.value.live.queue.put)) }
    ensures done { has_live handle.old ≡ true → DoneUnlessMemory result ⊎ Answers result Status.QueueFull }
{
    let Some(mut station) = handle.lift(alloc) else {
        return Status::NoStation.number();
    };
    let missed = station.missed(alloc, count, now);
    handle.put(station);
    match missed {
        Ok(told) => {
            *change = ChangeRecord::of_told(&told);
            Status::Done.number()
        }
        Err(refusal) => Status::of_hearing(refusal).number(),
    }
}

/// What goes at the time `now`, one thing: a frame, for its caller to write at once, and then `has` is 1 and `frame` is it; or the open
/// order goes on or ends, or nothing goes, and then `has` is 0 and `frame` is as it was. A frame is from the address that the station
/// holds, or from 254 where it holds none; it counts as written (SAE J1939-81, -21).
///
/// Refused: `NoStation`; station, `frame` and `has` are then as they were.
#[unsafe(no_mangle)]
pub extern "C" fn hidzgula_live_next(
    alloc: Global,
    handle: &mut LiveHandle,
    now: u64,
    frame: &mut FrameRecord,
    has: &mut u8,
) -> u32
    ensures pulled { Answers result Status.Done → PullsTelling now handle.old.value has.new frame.old frame.new handle.new.value }
    ensures source { Answers result Status.Done → has.new ≡ 1
        → source_of frame.new.id ≡ claim_source handle.old.value.live.station.claimer.held }
    ensures holds { Answers result Status.Done → (r : StationSettings) (grant keep : ℕ) (h : List AnyReading) → HoldsLive r grant keep handle.old h
        → HoldsLive r grant keep handle.new h }
    ensures open { has_live handle.new ≡ has_live handle.old }
    ensures untold { ¬ Answers result Status.Done → (frame.new ≡ frame.old) × (has.new ≡ has.old) }
    ensures kept { ¬ Answers result Status.Done → HoldsSameLive handle.old handle.new }
    ensures no_station { Answers result Status.NoStation ↔ (has_live handle.old ≡ false) }
    ensures done { Answers result Status.Done ↔ (has_live handle.old ≡ true) }
{
    let Some(mut station) = handle.lift(alloc) else {
        return Status::NoStation.number();
    };
    let pulled = station.pull(now);
    handle.put(station);
    *has = give(pulled, frame);
    Status::Done.number()
}

/// Writes the frame that was pulled, if it is one, and says whether it is: 1, or 0.
fn give(pulled: Pulled, frame: &mut FrameRecord) -> u8
    ensures { TellsPulled result frame.old frame.new pulled }
{
    match pulled {
        Pulled::Frame { frame: it, .. } => {
            *frame = FrameRecord::of(&it);
            1
        }
        _ => 0,
    }
}

/// When to ask again, at the time `now` or later: before `at` nothing goes, unless a frame is heard or an order is given. The greatest
/// number where nothing waits for its time.
///
/// Refused: `NoStation`; `at` is then as it was.
#[unsafe(no_mangle)]
pub extern "C" fn hidzgula_live_when(
    alloc: Global,
    handle: &mut LiveHandle,
    now: u64,
    at: &mut u64,
) -> u32
    ensures idle { Answers result Status.Done → (t : ℕ) → now ≤ t → t < at.new → turn_at t handle.old.value.live ≡ Rests }
    ensures ahead { Answers result Status.Done → now ≤ at.new }
    ensures untold { ¬ Answers result Status.Done → at.new ≡ at.old }
    ensures kept { HoldsSameLive handle.old handle.new }
    ensures no_station { Answers result Status.NoStation ↔ (has_live handle.old ≡ false) }
    ensures done { Answers result Status.Done ↔ (has_live handle.old ≡ true) }
{
    let Some(station) = handle.lift(alloc) else {
        return Status::NoStation.number();
    };
    *at = station.live().next(now);
    handle.put(station);
    Status::Done.number()
}
