//! The station of a handle takes frames one after the other, in one call.
ghost use Rattle.std.specs.Prelude.{◌≡◌, ◌≢◌, ◌⊎◌, ◌↔◌, ◌<◌, ◌≤◌, ◌^◌, IsSomeAnd, drop, length, slice_get, take, true, false};
ghost use Rattle.station_c.specs.Handles.{HoldsSame, has_station};
ghost use Rattle.station_c.specs.Records.{frame_recorded};
ghost use Rattle.station_c.specs.Series.{TakesFrames, TakesReading, reaction_told};
ghost use Rattle.station_c.specs.Statuses.{Answers};
ghost use Rattle.station_table.specs.Reactions.{silent};

use crate::changes::ChangeRecord;
use crate::handle::StationHandle;
use crate::listed_station::ListedStation;
use crate::records::{FrameRecord, ReplyRecord};
use crate::replies::tell;
use crate::status::Status;
use can_frame::Reading;
use std::alloc::Global;

/// The station takes frames that were read of the bus, in their order, each as the call of one frame takes it. `taken` says how
/// many, and the change of each stands at its place in `changes`; what is behind those is as it was.
///
/// It stops behind the first frame to which the station replies, where `changes` has no more places, and at the first frame that is
/// refused; `reply` is the reply to the last one taken, and says nothing where none was.
///
/// Refused: `NoStation`, and then nothing is written; of the frame at `taken`, in this order, `IdTooLarge`, `TooLong`,
/// `OutOfMemory`, and then the frames before it are taken.
#[unsafe(no_mangle)]
pub extern "C" fn hidzgula_take_frames(
    alloc: Global,
    handle: &mut StationHandle,
    frames: &[FrameRecord],
    changes: &mut [ChangeRecord],
    reply: &mut ReplyRecord,
    taken: &mut usize,
) -> u32
    ensures series { ¬ Answers result Status.NoStation → (has_station handle.new ≡ true)
        × TakesFrames handle.old.value (take taken.new frames.now) (take taken.new changes.new) (reaction_told reply.new) handle.new.value }
    ensures within { ¬ Answers result Status.NoStation → (taken.new ≤ length frames.now) × (taken.new ≤ length changes.old) }
    ensures behind { ¬ Answers result Status.NoStation → drop taken.new changes.new ≡ drop taken.new changes.old }
    ensures ended { Answers result Status.Done
        → (taken.new ≡ length frames.now) ⊎ (taken.new ≡ length changes.old) ⊎ (reaction_told reply.new ≢ silent) }
    ensures refused { ¬ Answers result Status.NoStation → ¬ Answers result Status.Done
        → (taken.new < length changes.old) × (reaction_told reply.new ≡ silent) }
    ensures id_too_large { Answers result Status.IdTooLarge → IsSomeAnd (slice_get frames.now taken.new) (λ f. 2 ^ 29 ≤ f.id) }
    ensures too_long { Answers result Status.TooLong
        → IsSomeAnd (slice_get frames.now taken.new) (λ f. (f.id < 2 ^ 29) × (8 < f.len)) }
    ensures out_of_memory { Answers result Status.OutOfMemory
        → IsSomeAnd (slice_get frames.now taken.new) (λ f. (f.id < 2 ^ 29) × (f.len ≤ 8)) }
    ensures no_station { Answers result Status.NoStation ↔ (has_station handle.old ≡ false) }
    ensures unwritten { Answers result Status.NoStation
        → HoldsSame handle.old handle.new × (changes.new ≡ changes.old) × (reply.new ≡ reply.old) × (taken.new ≡ taken.old) }
    ensures only { (Answers result Status.Done) ⊎ (Answers result Status.IdTooLarge) ⊎ (Answers result Status.TooLong)
        ⊎ (Answers result Status.NoStation) ⊎ (Answers result Status.OutOfMemory) }
{
    let Some(mut station) = handle.lift(alloc) else {
        return Status::NoStation.number();
    };
    let (count, status) = take_each(alloc, &mut station, frames, changes, reply);
    handle.put(station);
    *taken = count;
    status.number()
}

/// The station takes frames up to the first that it replies to or that is refused, and no more than there are places for their
/// changes.
fn take_each(
    alloc: Global,
    station: &mut ListedStation,
    frames: &[FrameRecord],
    changes: &mut [ChangeRecord],
    reply: &mut ReplyRecord,
) -> (usize, Status)
    ensures series { TakesFrames station.old (take result.0 frames.now) (take result.0 changes.new) (reaction_told reply.new) station.new }
    ensures within { (result.0 ≤ length frames.now) × (result.0 ≤ length changes.old) }
    ensures behind { drop result.0 changes.new ≡ drop result.0 changes.old }
    ensures ended { result.1 ≡ Status.Done
        → (result.0 ≡ length frames.now) ⊎ (result.0 ≡ length changes.old) ⊎ (reaction_told reply.new ≢ silent) }
    ensures refused { ¬ (result.1 ≡ Status.Done) → (result.0 < length changes.old) × (reaction_told reply.new ≡ silent) }
    ensures id_too_large { result.1 ≡ Status.IdTooLarge → IsSomeAnd (slice_get frames.now result.0) (λ f. 2 ^ 29 ≤ f.id) }
    ensures too_long { result.1 ≡ Status.TooLong → IsSomeAnd (slice_get frames.now result.0) (λ f. (f.id < 2 ^ 29) × (8 < f.len)) }
    ensures out_of_memory { result.1 ≡ Status.OutOfMemory
        → IsSomeAnd (slice_get frames.now result.0) (λ f. (f.id < 2 ^ 29) × (f.len ≤ 8)) }
    ensures only { (result.1 ≡ Status.Done) ⊎ (result.1 ≡ Status.IdTooLarge) ⊎ (result.1 ≡ Status.TooLong)
        ⊎ (result.1 ≡ Status.OutOfMemory) }
{
    *reply = ReplyRecord::nothing();
    let most = frames.len().min(changes.len());
    for place in 0..most {
        let status = take_one(alloc, station, &frames[place], reply, &mut changes[place]);
        if status != Status::Done {
            return (place, status);
        }
        if !reply.says_nothing() {
            return (place + 1, Status::Done);
        }
    }
    (most, Status::Done)
}

/// The station takes the frame of a record.
fn take_one(
    alloc: Global,
    station: &mut ListedStation,
    frame: &FrameRecord,
    reply: &mut ReplyRecord,
    change: &mut ChangeRecord,
) -> Status
    ensures taken { result ≡ Status.Done → (frame.now.id < 2 ^ 29) × (frame.now.len ≤ 8)
        × TakesReading station.old (Reading.Frame (frame_recorded frame.now)) change.new (reaction_told reply.new) station.new }
    ensures kept { ¬ (result ≡ Status.Done) → (station.new ≡ station.old) × (reply.new ≡ reply.old) × (change.new ≡ change.old) }
    ensures id_too_large { result ≡ Status.IdTooLarge → 2 ^ 29 ≤ frame.now.id }
    ensures too_long { result ≡ Status.TooLong → (frame.now.id < 2 ^ 29) × (8 < frame.now.len) }
    ensures out_of_memory { result ≡ Status.OutOfMemory → (frame.now.id < 2 ^ 29) × (frame.now.len ≤ 8) }
    ensures only { (result ≡ Status.Done) ⊎ (result ≡ Status.IdTooLarge) ⊎ (result ≡ Status.TooLong) ⊎ (result ≡ Status.OutOfMemory) }
{
    match frame.frame() {
        Ok(frame) => tell(station.take(alloc, Reading::Frame(frame)), reply, change),
        Err(refusal) => Status::of_frame(refusal),
    }
}
