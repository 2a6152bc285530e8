//! What the station of a handle knows is saved, as frames that another one takes.
ghost use Rattle.std.specs.Prelude.{◌≡◌, ◌↔◌, ◌⊎◌, ◌<◌, ◌≤◌, ℕ, List, None, Some, drop, length, take, false};
ghost use Rattle.bus_model.specs.Heard.{StationSettings, address_heard};
ghost use Rattle.can_frame.specs.declared.reading.Reading.{Reading as AnyReading};
ghost use Rattle.station_c.specs.Handles.{HoldsReadings, HoldsSame, has_station};
ghost use Rattle.station_c.specs.Saving.{ShowsAnew, restored};
ghost use Rattle.station_c.specs.Statuses.{Answers};

use crate::handle::StationHandle;
use crate::records::FrameRecord;
use crate::saving::{give, saved};
use crate::status::Status;
use std::alloc::Global;

/// Saves what the station knows: `count` is how many frames that is, and so many of `frames` are they. A station that is opened under
/// the same NAME at the address that this one holds, and to keep as much of each list, takes them one after the other, and then is told
/// of a gap of 1 frame; its replies are not sent. It then shows the same NAMEs in the same order, their last acknowledgments, and the
/// messages that are kept of their lists; no address has an owner until NAMEs claim again, so that no message is put under a wrong
/// NAME. Counts and places of lists begin anew, and so do the counts of `hidzgula_counts`. The station stays as it is.
///
/// Refused, in this order: `NoStation`, `NotHeld` where the station holds no address, `OutOfMemory`, `NotSaved` where a station that
/// took the frames would not show the same, `NoRoom` where `frames` has fewer than `count` places, and then `count` is written; else
/// `frames` and `count` are as they were.
#[unsafe(no_mangle)]
pub extern "C" fn hidzgula_save(
    alloc: Global,
    handle: &mut StationHandle,
    frames: &mut [FrameRecord],
    count: &mut usize,
) -> u32
    ensures saved { Answers result Status.Done → (r : StationSettings) (grant : ℕ) (h : List AnyReading) → HoldsReadings r grant handle.old h
        → (a : ℕ) → address_heard r h ≡ Some a → ShowsAnew r a handle.old.value.lists.keep h (restored (take count.new frames.new)) }
    ensures within { Answers result Status.Done → count.new ≤ length frames.new }
    ensures behind { drop count.new frames.new ≡ drop count.new frames.old }
    ensures unwritten { ¬ Answers result Status.Done → frames.new ≡ frames.old }
    ensures uncounted { ¬ Answers result Status.Done → ¬ Answers result Status.NoRoom → count.new ≡ count.old }
    ensures kept { HoldsSame handle.old handle.new }
    ensures no_station { Answers result Status.NoStation ↔ (has_station handle.old ≡ false) }
    ensures not_held { Answers result Status.NotHeld → (r : StationSettings) (grant : ℕ) (h : List AnyReading) → HoldsReadings r grant handle.old h
        → address_heard r h ≡ None }
    ensures unheld { (r : StationSettings) (grant : ℕ) (h : List AnyReading) → HoldsReadings r grant handle.old h → address_heard r h ≡ None
        → Answers result Status.NotHeld }
    ensures no_room { Answers result Status.NoRoom → length frames.old < count.new }
    ensures only { (Answers result Status.Done) ⊎ (Answers result Status.NoStation) ⊎ (Answers result Status.NotHeld)
        ⊎ (Answers result Status.OutOfMemory) ⊎ (Answers result Status.NotSaved) ⊎ (Answers result Status.NoRoom) }
{
    let Some(station) = handle.lift(alloc) else {
        return Status::NoStation.number();
    };
    let saved = saved(alloc, &station);
    handle.put(station);
    match saved {
        Ok(saved) => give(saved.as_slice(), frames, count).number(),
        Err(refusal) => refusal.number(),
    }
}
