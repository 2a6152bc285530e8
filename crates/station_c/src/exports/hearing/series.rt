//! The listener of a handle takes frames one after the other, in one call.
ghost use Rattle.std.specs.List.{list_all};
ghost use Rattle.std.specs.Prelude.{◌≡◌, ◌⊎◌, ◌↔◌, ◌<◌, ◌≤◌, ◌^◌, IsSomeAnd, drop, length, slice_get, take, true, false};
ghost use Rattle.station_c.specs.HeardSeries.{OverhearsFrame, HearsFrames, tells_all, time_handed};
ghost use Rattle.station_c.specs.ListenerHandles.{HoldsSameListener, has_listener};
ghost use Rattle.station_c.specs.Records.{frame_recorded};
ghost use Rattle.station_c.specs.Statuses.{Answers};

use crate::heard_records::HeardRecord;
use crate::listed_listener::ListedListener;
use crate::listener_handle::ListenerHandle;
use crate::log_records::LoggedRecord;
use crate::records::FrameRecord;
use crate::status::Status;
use std::alloc::Global;

/// The listener takes frames that were read of the bus, in their order, each as the call of one frame takes it, at the time that
/// stands at its place in `logged`. `taken` says how many, and what each changed stands at its place in `heard`; what is behind
/// those is as it was.
///
/// It stops where `logged` or `heard` has no more places, behind the first frame that broke more messages than its record tells,
/// and at the first frame that is refused.
///
/// Refused: `NoListener`, and then nothing is written; of the frame at `taken`, in this order, `IdTooLarge`, `TooLong`,
/// `OutOfMemory`, and then the frames before it are taken.
#[unsafe(no_mangle)]
pub extern "C" fn hidzgula_listener_take_frames_at(
    alloc: Global,
    handle: &mut ListenerHandle,
    frames: &[FrameRecord],
    logged: &[LoggedRecord],
    heard: &mut [HeardRecord],
    taken: &mut usize,
) -> u32
    ensures series { ¬ Answers result Status.NoListener → (has_listener handle.new ≡ true)
        × HearsFrames handle.old.value (take taken.new frames.now) (take taken.new logged.now) (take taken.new heard.new) handle.new.value }
    ensures within { ¬ Answers result Status.NoListener
        → (taken.new ≤ length frames.now) × (taken.new ≤ length logged.now) × (taken.new ≤ length heard.old) }
    ensures behind { ¬ Answers result Status.NoListener → drop taken.new heard.new ≡ drop taken.new heard.old }
    ensures ended { Answers result Status.Done
        → (taken.new ≡ length frames.now) ⊎ (taken.new ≡ length logged.now) ⊎ (taken.new ≡ length heard.old)
        ⊎ (list_all tells_all (take taken.new heard.new) ≡ false) }
    ensures id_too_large { Answers result Status.IdTooLarge → IsSomeAnd (slice_get frames.now taken.new) (λ f. 2 ^ 29 ≤ f.id) }
    ensures too_long { Answers result Status.TooLong
        → IsSomeAnd (slice_get frames.now taken.new) (λ f. (f.id < 2 ^ 29) × (8 < f.len)) }
    ensures out_of_memory { Answers result Status.OutOfMemory
        → IsSomeAnd (slice_get frames.now taken.new) (λ f. (f.id < 2 ^ 29) × (f.len ≤ 8)) }
    ensures no_listener { Answers result Status.NoListener ↔ (has_listener handle.old ≡ false) }
    ensures unwritten { Answers result Status.NoListener
        → HoldsSameListener handle.old handle.new × (heard.new ≡ heard.old) × (taken.new ≡ taken.old) }
    ensures only { (Answers result Status.Done) ⊎ (Answers result Status.IdTooLarge) ⊎ (Answers result Status.TooLong)
        ⊎ (Answers result Status.NoListener) ⊎ (Answers result Status.OutOfMemory) }
{
    let Some(mut listener) = handle.lift(alloc) else {
        return Status::NoListener.number();
    };
    let (count, status) = hear_each(alloc, &mut listener, frames, logged, heard);
    handle.put(listener);
    *taken = count;
    status.number()
}

/// The listener takes frames up to the first that is refused or broke more than its record tells, and no more than there are times
/// and places for what they change.
fn hear_each(
    alloc: Global,
    listener: &mut ListedListener,
    frames: &[FrameRecord],
    logged: &[LoggedRecord],
    heard: &mut [HeardRecord],
) -> (usize, Status)
    ensures series { HearsFrames listener.old (take result.0 frames.now) (take result.0 logged.now) (take result.0 heard.new) listener.new }
    ensures within { (result.0 ≤ length frames.now) × (result.0 ≤ length logged.now) × (result.0 ≤ length heard.old) }
    ensures behind { drop result.0 heard.new ≡ drop result.0 heard.old }
    ensures ended { result.1 ≡ Status.Done
        → (result.0 ≡ length frames.now) ⊎ (result.0 ≡ length logged.now) ⊎ (result.0 ≡ length heard.old)
        ⊎ (list_all tells_all (take result.0 heard.new) ≡ false) }
    ensures id_too_large { result.1 ≡ Status.IdTooLarge → IsSomeAnd (slice_get frames.now result.0) (λ f. 2 ^ 29 ≤ f.id) }
    ensures too_long { result.1 ≡ Status.TooLong → IsSomeAnd (slice_get frames.now result.0) (λ f. (f.id < 2 ^ 29) × (8 < f.len)) }
    ensures out_of_memory { result.1 ≡ Status.OutOfMemory
        → IsSomeAnd (slice_get frames.now result.0) (λ f. (f.id < 2 ^ 29) × (f.len ≤ 8)) }
    ensures only { (result.1 ≡ Status.Done) ⊎ (result.1 ≡ Status.IdTooLarge) ⊎ (result.1 ≡ Status.TooLong)
        ⊎ (result.1 ≡ Status.OutOfMemory) }
{
    let most = frames.len().min(logged.len()).min(heard.len());
    for place in 0..most {
        let now = logged[place].time;
        let status = hear_one(alloc, listener, now, &frames[place], &mut heard[place]);
        if status != Status::Done {
            return (place, status);
        }
        if !heard[place].tells_all() {
            return (place + 1, Status::Done);
        }
    }
    (most, Status::Done)
}

/// The listener takes the frame of a record.
fn hear_one(
    alloc: Global,
    listener: &mut ListedListener,
    now: u64,
    frame: &FrameRecord,
    heard: &mut HeardRecord,
) -> Status
    ensures heard { result ≡ Status.Done → (frame.now.id < 2 ^ 29) × (frame.now.len ≤ 8)
        × OverhearsFrame listener.old (time_handed now) (frame_recorded frame.now) heard.new listener.new }
    ensures kept { ¬ (result ≡ Status.Done) → (listener.new ≡ listener.old) × (heard.new ≡ heard.old) }
    ensures id_too_large { result ≡ Status.IdTooLarge → 2 ^ 29 ≤ frame.now.id }
    ensures too_long { result ≡ Status.TooLong → (frame.now.id < 2 ^ 29) × (8 < frame.now.len) }
    ensures out_of_memory { result ≡ Status.OutOfMemory → (frame.now.id < 2 ^ 29) × (frame.now.len ≤ 8) }
    ensures only { (result ≡ Status.Done) ⊎ (result ≡ Status.IdTooLarge) ⊎ (result ≡ Status.TooLong) ⊎ (result ≡ Status.OutOfMemory) }
{
    match frame.frame() {
        Ok(frame) => listener.hear_frame(alloc, now, &frame, heard),
        Err(refusal) => Status::of_frame(refusal),
    }
}
