//! The listener of a handle takes what was read of the bus, and tells what it broke.
ghost use Rattle.std.specs.Prelude.{◌≡◌, ◌⊎◌, ◌↔◌, ◌<◌, ◌≤◌, ◌^◌, Some, length, true, false};
ghost use Rattle.can_frame.specs.FrameValue.{frame};
ghost use Rattle.station_c.specs.HeardRecords.{broken_told_at};
ghost use Rattle.station_c.specs.HeardSeries.{OverhearsFrame, HearsGap, time_handed};
ghost use Rattle.station_c.specs.ListenerHandles.{HoldsSameListener, has_listener};
ghost use Rattle.station_c.specs.Statuses.{Answers, DoneUnlessMemory};

use crate::heard_records::HeardRecord;
use crate::listener_handle::ListenerHandle;
use crate::status::Status;
use can_frame::Frame;
use std::alloc::Global;

/// The listener takes a frame that was read of the bus at this time, in microseconds, or the greatest 64-bit number where none is
/// known; `heard` is what it changed of what the listener shows, and which message it broke.
///
/// A packet that came too late for its message is not read, nor is one that came again as it was asked for (SAE J1939-21, 5.10.3).
/// Where no time is known, nothing is late.
///
/// Refused, in this order: `IdTooLarge` for an identifier of 2^29 or more, `TooLong` for more than eight bytes, `NoListener`,
/// `OutOfMemory`; handle and `heard` are then as they were.
#[unsafe(no_mangle)]
pub extern "C" fn hidzgula_listener_take_at(
    alloc: Global,
    handle: &mut ListenerHandle,
    now: u64,
    id: u32,
    bytes: &[u8],
    heard: &mut HeardRecord,
) -> u32
    ensures heard { Answers result Status.Done → (has_listener handle.new ≡ true)
        × OverhearsFrame handle.old.value (time_handed now) (frame id bytes.now) heard.new handle.new.value }
    ensures kept { ¬ Answers result Status.Done → HoldsSameListener handle.old handle.new }
    ensures untold { ¬ Answers result Status.Done → heard.new ≡ heard.old }
    ensures id_too_large { Answers result Status.IdTooLarge ↔ (2 ^ 29 ≤ id) }
    ensures too_long { Answers result Status.TooLong ↔ ((id < 2 ^ 29) × (8 < length bytes.now)) }
    ensures no_listener { Answers result Status.NoListener
        ↔ ((id < 2 ^ 29) × (length bytes.now ≤ 8) × (has_listener handle.old ≡ false)) }
    ensures done { (id < 2 ^ 29) → (length bytes.now ≤ 8) → (has_listener handle.old ≡ true) → DoneUnlessMemory result }
{
    match Frame::new(id, bytes) {
        Ok(frame) => take(alloc, handle, now, &frame, heard).number(),
        Err(refusal) => Status::of_frame(refusal).number(),
    }
}

/// The listener of a handle takes a frame.
fn take(
    alloc: Global,
    handle: &mut ListenerHandle,
    now: u64,
    frame: &Frame,
    heard: &mut HeardRecord,
) -> Status
    ensures heard { result ≡ Status.Done
        → (has_listener handle.new ≡ true) × OverhearsFrame handle.old.value (time_handed now) frame.now heard.new handle.new.value }
    ensures kept { ¬ (result ≡ Status.Done) → HoldsSameListener handle.old handle.new }
    ensures untold { ¬ (result ≡ Status.Done) → heard.new ≡ heard.old }
    ensures no_listener { (result ≡ Status.NoListener) ↔ (has_listener handle.old ≡ false) }
    ensures only { (result ≡ Status.Done) ⊎ (result ≡ Status.OutOfMemory) ⊎ (result ≡ Status.NoListener) }
{
    let Some(mut listener) = handle.lift(alloc) else {
        return Status::NoListener;
    };
    let status = listener.hear_frame(alloc, now, frame, heard);
    handle.put(listener);
    status
}

/// The listener is told that so many frames were missed; `heard` says how many. All that is half read is let go, whatever the time.
///
/// Refused, in this order: `NoListener`, `OutOfMemory`; handle and `heard` are then as they were.
#[unsafe(no_mangle)]
pub extern "C" fn hidzgula_listener_missed_at(
    alloc: Global,
    handle: &mut ListenerHandle,
    _now: u64,
    count: u32,
    heard: &mut HeardRecord,
) -> u32
    ensures heard { Answers result Status.Done
        → (has_listener handle.new ≡ true) × HearsGap handle.old.value count heard.new handle.new.value }
    ensures kept { ¬ Answers result Status.Done → HoldsSameListener handle.old handle.new }
    ensures untold { ¬ Answers result Status.Done → heard.new ≡ heard.old }
    ensures no_listener { Answers result Status.NoListener ↔ (has_listener handle.old ≡ false) }
    ensures done { (has_listener handle.old ≡ true) → DoneUnlessMemory result }
{
    take_gap(alloc, handle, count, heard).number()
}

/// The listener of a handle is told that frames were missed.
fn take_gap(
    alloc: Global,
    handle: &mut ListenerHandle,
    count: u32,
    heard: &mut HeardRecord,
) -> Status
    ensures heard { result ≡ Status.Done
        → (has_listener handle.new ≡ true) × HearsGap handle.old.value count heard.new handle.new.value }
    ensures kept { ¬ (result ≡ Status.Done) → HoldsSameListener handle.old handle.new }
    ensures untold { ¬ (result ≡ Status.Done) → heard.new ≡ heard.old }
    ensures no_listener { (result ≡ Status.NoListener) ↔ (has_listener handle.old ≡ false) }
    ensures only { (result ≡ Status.Done) ⊎ (result ≡ Status.OutOfMemory) ⊎ (result ≡ Status.NoListener) }
{
    let Some(mut listener) = handle.lift(alloc) else {
        return Status::NoListener;
    };
    let status = listener.hear_gap(alloc, count, heard);
    handle.put(listener);
    status
}

/// The message at this place, from 0, of those that the newest frame broke: half joined before it, and neither half joined nor whole
/// since.
///
/// Refused, in this order: `NoListener`, `NoPlace` where it broke no more than `place`; `heard` is then as it was.
#[unsafe(no_mangle)]
pub extern "C" fn hidzgula_listener_broken(
    alloc: Global,
    handle: &mut ListenerHandle,
    place: usize,
    heard: &mut HeardRecord,
) -> u32
    ensures told { Answers result Status.Done → broken_told_at handle.old.value.broken place ≡ Some heard.new }
    ensures no_place { Answers result Status.NoPlace ↔ ((has_listener handle.old ≡ true) × (length handle.old.value.broken ≤ place)) }
    ensures untold { ¬ Answers result Status.Done → heard.new ≡ heard.old }
    ensures kept { HoldsSameListener handle.old handle.new }
    ensures no_listener { Answers result Status.NoListener ↔ (has_listener handle.old ≡ false) }
    ensures done { has_listener handle.old ≡ true → (Answers result Status.Done) ⊎ (Answers result Status.NoPlace) }
{
    let Some(it) = handle.lift(alloc) else {
        return Status::NoListener.number();
    };
    let found = HeardRecord::of_broken_at(it.broken(), place);
    handle.put(it);
    match found {
        Some(told) => {
            *heard = told;
            Status::Done.number()
        }
        None => Status::NoPlace.number(),
    }
}
