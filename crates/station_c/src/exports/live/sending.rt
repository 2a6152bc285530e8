//! The program sends messages of groups that it shares with the live station of a handle, from its address.
ghost use Rattle.std.specs.Prelude.{◌≡◌, ◌↔◌, ◌<◌, ◌≤◌, ◌^◌, false, length, true};
ghost use Rattle.shared_groups.specs.Sending.{sending_begun};
ghost use Rattle.station_c.specs.ListedLives.{why_not_sent};
ghost use Rattle.station_c.specs.LiveHandles.{HoldsSameLive, IsSentUnless, has_live};
ghost use Rattle.station_c.specs.SharedRecords.{sent_number, sent_reason};
ghost use Rattle.station_c.specs.Statuses.{Answers};

use crate::live_handle::LiveHandle;
use crate::shared_records::numbers_of;
use crate::status::Status;
use can_frame::Pgn;
use std::alloc::Global;

/// Gives a message of a group that is shared to be sent, of up to 1,785 bytes, to an address or to all (255):
/// `hidzgula_live_shared_next` gives its frames. Up to eight bytes go in one frame, of priority 6; more in packets, to all by a broadcast,
/// to an address by a session (SAE J1939-21).
///
/// Refused, in this order; nothing changed then:
///
/// - `PgnTooLarge` for 2^24 or more, `NoStation`
/// - `NoGroup` for a group that is not shared; also for one that no identifier carries: 2^18 or more, or PDU1 with a low byte
/// - `NotHeld` where the station holds no address, `TooLong` for more than 1,785 bytes
/// - `NotAnAddress` for 254, for the station's own address, and for an address where a PDU2 group goes in one frame, which is to all
/// - `SessionOpen` while another message is under way; also for one in packets to all while a command is
/// - `OutOfMemory`
#[unsafe(no_mangle)]
pub extern "C" fn hidzgula_live_shared_send(
    alloc: Global,
    handle: &mut LiveHandle,
    to: u8,
    pgn: u32,
    bytes: &[u8],
) -> u32
    ensures sent { Answers result Status.Done
        → handle.new.value ≡ record handle.old.value { shared = sending_begun pgn to bytes.now handle.old.value.shared } }
    ensures open { has_live handle.new ≡ has_live handle.old }
    ensures kept { ¬ Answers result Status.Done → HoldsSameLive handle.old handle.new }
    ensures pgn_too_large { Answers result Status.PgnTooLarge ↔ (2 ^ 24 ≤ pgn) }
    ensures no_station { Answers result Status.NoStation ↔ ((pgn < 2 ^ 24) × (has_live handle.old ≡ false)) }
    ensures why { pgn < 2 ^ 24 → has_live handle.old ≡ true → IsSentUnless (why_not_sent handle.old.value pgn (length bytes.now) to) result }
{
    let Ok(pgn) = Pgn::new(pgn) else {
        return Status::PgnTooLarge.number();
    };
    let Some(mut station) = handle.lift(alloc) else {
        return Status::NoStation.number();
    };
    let sent = station.send(alloc, pgn, to, bytes);
    handle.put(station);
    match sent {
        Ok(()) => Status::Done.number(),
        Err(refusal) => Status::of_shared(refusal).number(),
    }
}

/// What came of the newest message that was given to be sent: 0 none was, 1 it is under way, 2 it was written, 3 its receiver acknowledged
/// it, 4 its receiver aborted it, for `reason`, 5 its receiver said nothing in time, 6 its receiver asked for the same packet a third
/// time, 7 it was cut off. `reason` is 0 but for 4.
///
/// Refused: `NoStation`; `what` and `reason` are then as they were.
#[unsafe(no_mangle)]
pub extern "C" fn hidzgula_live_shared_sent(
    alloc: Global,
    handle: &mut LiveHandle,
    what: &mut u8,
    reason: &mut u8,
) -> u32
    ensures told { Answers result Status.Done → (what.new ≡ sent_number handle.old.value.shared.outgoing.sent)
        × (reason.new ≡ sent_reason handle.old.value.shared.outgoing.sent) }
    ensures untold { ¬ Answers result Status.Done → (what.new ≡ what.old) × (reason.new ≡ reason.old) }
    ensures kept { HoldsSameLive handle.old handle.new }
    ensures no_station { Answers result Status.NoStation ↔ (has_live handle.old ≡ false) }
    ensures done { Answers result Status.Done ↔ (has_live handle.old ≡ true) }
{
    let Some(station) = handle.lift(alloc) else {
        return Status::NoStation.number();
    };
    (*what, *reason) = numbers_of(station.shared().sent());
    handle.put(station);
    Status::Done.number()
}
