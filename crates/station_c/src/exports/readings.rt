//! The station of a handle takes what was read of the bus.
ghost use Rattle.std.specs.Prelude.{◌≡◌, ◌⊎◌, ◌↔◌, ◌<◌, ◌≤◌, ◌^◌, ◌∷◌, ℕ, List, length, true, false};
ghost use Rattle.bus_model.specs.Changed.{change_heard};
ghost use Rattle.bus_model.specs.Heard.{StationSettings};
ghost use Rattle.can_frame.specs.FrameValue.{frame};
ghost use Rattle.can_frame.specs.declared.reading.Reading.{Reading as AnyReading};
ghost use Rattle.station_c.specs.Handles.{HoldsSame, HoldsReadings, has_station};
ghost use Rattle.station_c.specs.Records.{TellsChange, TellsReaction};
ghost use Rattle.station_c.specs.Series.{TakesReading, reaction_told};
ghost use Rattle.station_c.specs.Statuses.{Answers, DoneUnlessMemory};
ghost use Rattle.station_table.specs.Reactions.{station_reaction};

use crate::changes::ChangeRecord;
use crate::handle::StationHandle;
use crate::records::ReplyRecord;
use crate::replies::tell;
use crate::status::Status;
use can_frame::{Frame, Reading};
use std::alloc::Global;

/// The station takes a frame that was read of the bus; `reply` is what it answers, and `change` is
/// what the frame changed of what it shows.
///
/// Refused, in this order: `IdTooLarge` for an identifier of 2^29 or more, `TooLong` for more than eight bytes, `NoStation`,
/// `OutOfMemory`; handle, reply and change are then as they were.
#[unsafe(no_mangle)]
pub extern "C" fn hidzgula_take_frame_telling(
    alloc: Global,
    handle: &mut StationHandle,
    id: u32,
    bytes: &[u8],
    reply: &mut ReplyRecord,
    change: &mut ChangeRecord,
) -> u32
    ensures taken { Answers result Status.Done → (r : StationSettings) (grant : ℕ) (h : List AnyReading) → HoldsReadings r grant handle.old h
        → HoldsReadings r grant handle.new (Reading.Frame (frame id bytes.now) ∷ h) }
    ensures keeps { Answers result Status.Done → handle.new.value.lists.keep ≡ handle.old.value.lists.keep }
    ensures replied { Answers result Status.Done
        → TellsReaction reply.new (station_reaction handle.old.value.station (Reading.Frame (frame id bytes.now))) }
    ensures changed { Answers result Status.Done → (r : StationSettings) (grant : ℕ) (h : List AnyReading) → HoldsReadings r grant handle.old h
        → TellsChange change.new (change_heard r (Reading.Frame (frame id bytes.now)) h) }
    ensures step { Answers result Status.Done
        → TakesReading handle.old.value (Reading.Frame (frame id bytes.now)) change.new (reaction_told reply.new) handle.new.value }
    ensures kept { ¬ Answers result Status.Done → HoldsSame handle.old handle.new }
    ensures unanswered { ¬ Answers result Status.Done → reply.new ≡ reply.old }
    ensures untold { ¬ Answers result Status.Done → change.new ≡ change.old }
    ensures id_too_large { Answers result Status.IdTooLarge ↔ (2 ^ 29 ≤ id) }
    ensures too_long { Answers result Status.TooLong ↔ ((id < 2 ^ 29) × (8 < length bytes.now)) }
    ensures no_station { Answers result Status.NoStation
        ↔ ((id < 2 ^ 29) × (length bytes.now ≤ 8) × (has_station handle.old ≡ false)) }
    ensures done { (id < 2 ^ 29) → (length bytes.now ≤ 8) → (has_station handle.old ≡ true) → DoneUnlessMemory result }
{
    match Frame::new(id, bytes) {
        Ok(frame) => take(alloc, handle, Reading::Frame(frame), reply, change).number(),
        Err(refusal) => Status::of_frame(refusal).number(),
    }
}

/// The station is told that this many frames were missed; `reply` is what it answers: its claim, and a request for the claims of
/// all. `change` says how many were missed.
///
/// Refused, in this order: `NoStation`, `OutOfMemory`; handle, reply and change are then as they were.
#[unsafe(no_mangle)]
pub extern "C" fn hidzgula_take_gap_telling(
    alloc: Global,
    handle: &mut StationHandle,
    count: u32,
    reply: &mut ReplyRecord,
    change: &mut ChangeRecord,
) -> u32
    ensures taken { Answers result Status.Done → (r : StationSettings) (grant : ℕ) (h : List AnyReading) → HoldsReadings r grant handle.old h
        → HoldsReadings r grant handle.new (Reading.Gap count ∷ h) }
    ensures keeps { Answers result Status.Done → handle.new.value.lists.keep ≡ handle.old.value.lists.keep }
    ensures replied { Answers result Status.Done → TellsReaction reply.new (station_reaction handle.old.value.station (Reading.Gap count)) }
    ensures changed { Answers result Status.Done → (r : StationSettings) (grant : ℕ) (h : List AnyReading) → HoldsReadings r grant handle.old h
        → TellsChange change.new (change_heard r (Reading.Gap count) h) }
    ensures step { Answers result Status.Done
        → TakesReading handle.old.value (Reading.Gap count) change.new (reaction_told reply.new) handle.new.value }
    ensures kept { ¬ Answers result Status.Done → HoldsSame handle.old handle.new }
    ensures unanswered { ¬ Answers result Status.Done → reply.new ≡ reply.old }
    ensures untold { ¬ Answers result Status.Done → change.new ≡ change.old }
    ensures no_station { Answers result Status.NoStation ↔ (has_station handle.old ≡ false) }
    ensures done { (has_station handle.old ≡ true) → DoneUnlessMemory result }
{
    take(alloc, handle, Reading::Gap(count), reply, change).number()
}

/// The station of a handle takes a reading.
fn take(
    alloc: Global,
    handle: &mut StationHandle,
    reading: Reading,
    reply: &mut ReplyRecord,
    change: &mut ChangeRecord,
) -> Status
    ensures taken { result ≡ Status.Done → (r : StationSettings) (grant : ℕ) (h : List AnyReading) → HoldsReadings r grant handle.old h
        → HoldsReadings r grant handle.new (reading ∷ h) }
    ensures keeps { result ≡ Status.Done → handle.new.value.lists.keep ≡ handle.old.value.lists.keep }
    ensures replied { result ≡ Status.Done → TellsReaction reply.new (station_reaction handle.old.value.station reading) }
    ensures changed { result ≡ Status.Done → (r : StationSettings) (grant : ℕ) (h : List AnyReading) → HoldsReadings r grant handle.old h
        → TellsChange change.new (change_heard r reading h) }
    ensures step { result ≡ Status.Done
        → TakesReading handle.old.value reading change.new (reaction_told reply.new) handle.new.value }
    ensures kept { ¬ (result ≡ Status.Done) → HoldsSame handle.old handle.new }
    ensures unanswered { ¬ (result ≡ Status.Done) → reply.new ≡ reply.old }
    ensures untold { ¬ (result ≡ Status.Done) → change.new ≡ change.old }
    ensures no_station { (result ≡ Status.NoStation) ↔ (has_station handle.old ≡ false) }
    ensures only { (result ≡ Status.Done) ⊎ (result ≡ Status.OutOfMemory) ⊎ (result ≡ Status.NoStation) }
{
    let Some(mut station) = handle.lift(alloc) else {
        return Status::NoStation;
    };
    let taken = station.take(alloc, reading);
    handle.put(station);
    tell(taken, reply, change)
}
