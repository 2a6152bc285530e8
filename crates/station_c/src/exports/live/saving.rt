//! What the live station of a handle knows is saved, as frames that another one hears.
ghost use Rattle.std.specs.Prelude.{◌≡◌, ◌↔◌, ◌⊎◌, ◌<◌, ◌≤◌, ℕ, List, None, Some, drop, length, take, false};
ghost use Rattle.bus_model.specs.Heard.{StationSettings, address_heard};
ghost use Rattle.can_frame.specs.declared.reading.Reading.{Reading as AnyReading};
ghost use Rattle.live_station.specs.Ear.{frames_told};
ghost use Rattle.station_c.specs.LiveHandles.{HoldsLive, HoldsSameLive, has_live};
ghost use Rattle.station_c.specs.Saving.{ShowsAnew, opened_at, restored};
ghost use Rattle.station_c.specs.Statuses.{Answers};

use crate::live_handle::LiveHandle;
use crate::records::FrameRecord;
use crate::saving::{give, saved_live};
use crate::status::Status;
use std::alloc::Global;

/// Saves what the station knows, as `hidzgula_save` does: a live station that is opened under the same NAME at the address that this one
/// holds, and to keep as much of each list, hears the frames one after the other, and then is told that 1 frame was missed. It then shows
/// the same NAMEs in the same order, their last acknowledgments, and the messages that are kept of their lists. The open order, its
/// verdict and groups that are shared are not saved. The station stays as it is.
///
/// Refused, in this order: `NoStation`, `NotHeld` where the station holds no address, `OutOfMemory`, `NotSaved` where a station that
/// heard the frames would not show the same, `NoRoom` where `frames` has fewer than `count` places, and then `count` is written; else
/// `frames` and `count` are as they were.
#[unsafe(no_mangle)]
pub extern "C" fn hidzgula_live_save(
    alloc: Global,
    handle: &mut LiveHandle,
    frames: &mut [FrameRecord],
    count: &mut usize,
) -> u32
    ensures saved { Answers result Status.Done → (r : StationSettings) (grant keep : ℕ) (h : List AnyReading) → HoldsLive r grant keep handle.old h
        → (a : ℕ) → address_heard r (frames_told r h) ≡ Some a
        → ShowsAnew r a keep (frames_told r h) (frames_told (opened_at a r) (restored (take count.new frames.new))) }
    ensures within { Answers result Status.Done → count.new ≤ length frames.new }
    ensures behind { drop count.new frames.new ≡ drop count.new frames.old }
    ensures unwritten { ¬ Answers result Status.Done → frames.new ≡ frames.old }
    ensures uncounted { ¬ Answers result Status.Done → ¬ Answers result Status.NoRoom → count.new ≡ count.old }
    ensures kept { HoldsSameLive handle.old handle.new }
    ensures no_station { Answers result Status.NoStation ↔ (has_live handle.old ≡ false) }
    ensures not_held { Answers result Status.NotHeld → (r : StationSettings) (grant keep : ℕ) (h : List AnyReading) → HoldsLive r grant keep handle.old h
        → address_heard r (frames_told r h) ≡ None }
    ensures unheld { (r : StationSettings) (grant keep : ℕ) (h : List AnyReading) → HoldsLive r grant keep handle.old h
        → address_heard r (frames_told r h) ≡ None → Answers result Status.NotHeld }
    ensures no_room { Answers result Status.NoRoom → length frames.old < count.new }
    ensures only { (Answers result Status.Done) ⊎ (Answers result Status.NoStation) ⊎ (Answers result Status.NotHeld)
        ⊎ (Answers result Status.OutOfMemory) ⊎ (Answers result Status.NotSaved) ⊎ (Answers result Status.NoRoom) }
{
    let Some(station) = handle.lift(alloc) else {
        return Status::NoStation.number();
    };
    let saved = saved_live(alloc, &station);
    handle.put(station);
    match saved {
        Ok(saved) => give(saved.as_slice(), frames, count).number(),
        Err(refusal) => refusal.number(),
    }
}
