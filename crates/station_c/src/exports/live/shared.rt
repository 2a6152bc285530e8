//! The program shares groups with the live station of a handle, at its address: it has their messages, and asks for them.
ghost use Rattle.std.specs.Prelude.{ℕ, ◌≡◌, ◌⊎◌, ◌↔◌, ◌<◌, ◌≤◌, ◌^◌, IfSome, IsNone, IsSome, Some, length, false, true};
ghost use Rattle.can_frame.specs.FrameValue.{frame};
ghost use Rattle.shared_groups.specs.Sharing.{is_sharable, is_shared, with_waiting, sharing_also};
ghost use Rattle.shared_groups.specs.declared.waiting.Waiting.TheVariants.{Request as RequestWaiting};
ghost use Rattle.station_c.specs.ListedLives.{shared_goes};
ghost use Rattle.station_c.specs.LiveHandles.{HoldsSameLive, PullsShared, SharesTelling, has_live};
ghost use Rattle.station_c.specs.SharedRecords.{TellsMessage};
ghost use Rattle.station_c.specs.Statuses.{Answers, status_of_sharing};

use crate::live_handle::LiveHandle;
use crate::records::FrameRecord;
use crate::shared_records::MessageRecord;
use crate::status::Status;
use can_frame::{Frame, Pgn};
use shared_groups::SharedError;
use std::alloc::Global;

/// Shares a parameter group with the station from now on: the program has its messages, and the station neither refuses requests for it
/// nor aborts its sessions.
///
/// Refused, in this order: `PgnTooLarge` for 2^24 or more, `NoStation`, `NoGroup` for a group of the protocol or of diagnostics,
/// `OutOfMemory`; nothing changed then.
#[unsafe(no_mangle)]
pub extern "C" fn hidzgula_live_share(alloc: Global, handle: &mut LiveHandle, pgn: u32) -> u32
    ensures shared { Answers result Status.Done → handle.new.value ≡ record handle.old.value { shared = sharing_also pgn handle.old.value.shared } }
    ensures open { has_live handle.new ≡ has_live handle.old }
    ensures kept { ¬ Answers result Status.Done → HoldsSameLive handle.old handle.new }
    ensures pgn_too_large { Answers result Status.PgnTooLarge ↔ (2 ^ 24 ≤ pgn) }
    ensures no_station { Answers result Status.NoStation ↔ ((pgn < 2 ^ 24) × (has_live handle.old ≡ false)) }
    ensures no_group { Answers result Status.NoGroup ↔ ((pgn < 2 ^ 24) × (has_live handle.old ≡ true) × (is_sharable pgn ≡ false)) }
{
    let Ok(pgn) = Pgn::new(pgn) else {
        return Status::PgnTooLarge.number();
    };
    let Some(mut station) = handle.lift(alloc) else {
        return Status::NoStation.number();
    };
    let shared = station.share(pgn);
    handle.put(station);
    status_of(shared).number()
}

/// Asks for a group that is shared, of an address or of all (255): the request waits, and `hidzgula_live_shared_next` gives it.
///
/// Refused, in this order: `PgnTooLarge` for 2^24 or more, `NoStation`, `NoGroup` for a group that is not shared, `NotHeld` where the
/// station holds no address, `QueueFull`; nothing changed then.
#[unsafe(no_mangle)]
pub extern "C" fn hidzgula_live_shared_ask(
    alloc: Global,
    handle: &mut LiveHandle,
    to: u8,
    pgn: u32,
) -> u32
    ensures asked { Answers result Status.Done
        → handle.new.value ≡ record handle.old.value { shared = with_waiting (RequestWaiting pgn to) handle.old.value.shared } }
    ensures open { has_live handle.new ≡ has_live handle.old }
    ensures kept { ¬ Answers result Status.Done → HoldsSameLive handle.old handle.new }
    ensures pgn_too_large { Answers result Status.PgnTooLarge ↔ (2 ^ 24 ≤ pgn) }
    ensures no_station { Answers result Status.NoStation ↔ ((pgn < 2 ^ 24) × (has_live handle.old ≡ false)) }
    ensures no_group { Answers result Status.NoGroup
        ↔ ((pgn < 2 ^ 24) × (has_live handle.old ≡ true) × (is_shared handle.old.value.shared.groups pgn ≡ false)) }
{
    let Ok(pgn) = Pgn::new(pgn) else {
        return Status::PgnTooLarge.number();
    };
    let Some(mut station) = handle.lift(alloc) else {
        return Status::NoStation.number();
    };
    let asked = station.request(pgn, to);
    handle.put(station);
    status_of(asked).number()
}

/// The groups that are shared hear a frame of the bus, before the station does. `withheld` is 1 where it is the program's alone: then the
/// station is not to hear it. `whole` is 1 where a message is whole with it, which `hidzgula_live_shared_message` gives.
///
/// Refused, in this order: `IdTooLarge` for an identifier of 2^29 or more, `TooLong` for more than eight bytes, `NoStation`; `QueueFull`
/// and `OutOfMemory` for a frame that is the program's; nothing changed then.
#[unsafe(no_mangle)]
pub extern "C" fn hidzgula_live_shared_hear(
    alloc: Global,
    handle: &mut LiveHandle,
    id: u32,
    bytes: &[u8],
    withheld: &mut u8,
    whole: &mut u8,
) -> u32
    ensures heard { Answers result Status.Done → SharesTelling (frame id bytes.now) handle.old.value withheld.new whole.new handle.new.value }
    ensures open { has_live handle.new ≡ has_live handle.old }
    ensures kept { ¬ Answers result Status.Done → HoldsSameLive handle.old handle.new }
    ensures untold { ¬ Answers result Status.Done → (withheld.new ≡ withheld.old) × (whole.new ≡ whole.old) }
    ensures id_too_large { Answers result Status.IdTooLarge ↔ (2 ^ 29 ≤ id) }
    ensures too_long { Answers result Status.TooLong ↔ ((id < 2 ^ 29) × (8 < length bytes.now)) }
    ensures no_station { Answers result Status.NoStation ↔ ((id < 2 ^ 29) × (length bytes.now ≤ 8) × (has_live handle.old ≡ false)) }
{
    let frame = match Frame::new(id, bytes) {
        Ok(frame) => frame,
        Err(refusal) => return Status::of_frame(refusal).number(),
    };
    let Some(mut station) = handle.lift(alloc) else {
        return Status::NoStation.number();
    };
    let heard = station.hear_shared(alloc, &frame);
    handle.put(station);
    match heard {
        Ok(heard) => {
            *withheld = u8::from(heard.is_withheld);
            *whole = u8::from(heard.is_whole);
            Status::Done.number()
        }
        Err(refusal) => Status::of_shared(refusal).number(),
    }
}

/// The frame that goes at the time `now` for groups that are shared: then `has` is 1 and `frame` is it, to be written at once; else `has`
/// is 0 and `frame` is as it was. It is from the address that the station holds, and goes once that has settled.
///
/// Refused: `NoStation`; station, `frame` and `has` are then as they were.
#[unsafe(no_mangle)]
pub extern "C" fn hidzgula_live_shared_next(
    alloc: Global,
    handle: &mut LiveHandle,
    now: u64,
    frame: &mut FrameRecord,
    has: &mut u8,
) -> u32
    ensures pulled { Answers result Status.Done → PullsShared now handle.old.value has.new frame.old frame.new handle.new.value }
    ensures open { has_live handle.new ≡ has_live handle.old }
    ensures kept { ¬ Answers result Status.Done → HoldsSameLive handle.old handle.new }
    ensures untold { ¬ Answers result Status.Done → (frame.new ≡ frame.old) × (has.new ≡ has.old) }
    ensures no_station { Answers result Status.NoStation ↔ (has_live handle.old ≡ false) }
    ensures done { Answers result Status.Done ↔ (has_live handle.old ≡ true) }
{
    let Some(mut station) = handle.lift(alloc) else {
        return Status::NoStation.number();
    };
    let pulled = station.pull_shared(now);
    handle.put(station);
    match pulled {
        Some(it) => {
            *frame = FrameRecord::of(&it);
            *has = 1;
        }
        None => *has = 0,
    }
    Status::Done.number()
}

/// When to ask again for groups that are shared, at the time `now` or later: before `at` nothing goes, unless something is heard or asked
/// for. The greatest number where nothing waits.
///
/// Refused: `NoStation`; `at` is then as it was.
#[unsafe(no_mangle)]
pub extern "C" fn hidzgula_live_shared_when(
    alloc: Global,
    handle: &mut LiveHandle,
    now: u64,
    at: &mut u64,
) -> u32
    ensures idle { Answers result Status.Done → (t : ℕ) → now ≤ t → t < at.new → shared_goes t handle.old.value ≡ false }
    ensures ahead { Answers result Status.Done → now ≤ at.new }
    ensures untold { ¬ Answers result Status.Done → at.new ≡ at.old }
    ensures kept { HoldsSameLive handle.old handle.new }
    ensures no_station { Answers result Status.NoStation ↔ (has_live handle.old ≡ false) }
    ensures done { Answers result Status.Done ↔ (has_live handle.old ≡ true) }
{
    let Some(station) = handle.lift(alloc) else {
        return Status::NoStation.number();
    };
    *at = station.next_shared(now);
    handle.put(station);
    Status::Done.number()
}

/// The newest message of a group that is shared which is whole. It stays until the next one is.
///
/// Refused, in this order: `NoStation`, `NoPlace` where none is; `message` is then as it was.
#[unsafe(no_mangle)]
pub extern "C" fn hidzgula_live_shared_message(
    alloc: Global,
    handle: &mut LiveHandle,
    message: &mut MessageRecord,
) -> u32
    ensures told { Answers result Status.Done → IfSome handle.old.value.shared.message (TellsMessage message.new) }
    ensures untold { ¬ Answers result Status.Done → message.new ≡ message.old }
    ensures kept { HoldsSameLive handle.old handle.new }
    ensures no_station { Answers result Status.NoStation ↔ (has_live handle.old ≡ false) }
    ensures no_place { Answers result Status.NoPlace ↔ ((has_live handle.old ≡ true) × IsNone handle.old.value.shared.message) }
    ensures done { Answers result Status.Done ↔ ((has_live handle.old ≡ true) × IsSome handle.old.value.shared.message) }
{
    let Some(station) = handle.lift(alloc) else {
        return Status::NoStation.number();
    };
    let told = match station.shared().message() {
        Some(it) => Some(MessageRecord::of(it)),
        None => None,
    };
    handle.put(station);
    match told {
        Some(it) => {
            *message = it;
            Status::Done.number()
        }
        None => Status::NoPlace.number(),
    }
}

/// What a call for groups that are shared answers.
fn status_of(done: Result<(), SharedError>) -> Status
    ensures { result ≡ status_of_sharing done }
{
    match done {
        Ok(()) => Status::Done,
        Err(refusal) => Status::of_shared(refusal),
    }
}
