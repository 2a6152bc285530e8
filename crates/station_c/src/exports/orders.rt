//! The station of a handle asks and commands units. What is asked or commanded goes out as the reply's frames.
ghost use Rattle.std.specs.Prelude.{◌≡◌, ◌↔◌, ◌<◌, ◌≤◌, ◌^◌, ℕ, List, Ok, true, false};
ghost use Rattle.bus_model.specs.Heard.{StationSettings, address_heard, address_known};
ghost use Rattle.can_frame.specs.declared.reading.Reading.{Reading as AnyReading};
ghost use Rattle.station_table.specs.Orders.{ask_answer, ask_all_answer, command_answer};
ghost use Rattle.station_table.specs.declared.reaction.Ask.TheVariants.{Other};
ghost use Rattle.station_table.specs.declared.reaction.Reaction.{Reaction as AnyReaction};
ghost use Rattle.station_c.specs.Handles.{HoldsSame, HoldsReadings, has_station};
ghost use Rattle.station_c.specs.Orders.{OrderAsks, OrderAsksAll, OrderCommands};
ghost use Rattle.station_c.specs.Records.{TellsReaction};
ghost use Rattle.station_c.specs.Statuses.{Answers};

use crate::handle::StationHandle;
use crate::records::ReplyRecord;
use crate::replies::reply_with;
use crate::status::Status;
use can_frame::Pgn;
use name_field::Name;
use station_table::Ask;
use std::alloc::Global;

/// Asks the unit of this NAME for a parameter group, below 2^24; `reply` has the request. The station stays as it is.
///
/// Refused, in this order: `PgnTooLarge`, `NoStation`, `NotHeld` where the station holds no address, `NoAddress` where it knows
/// none of that NAME, `OutOfMemory`; `reply` is then as it was.
#[unsafe(no_mangle)]
pub extern "C" fn hidzgula_ask(
    alloc: Global,
    handle: &mut StationHandle,
    name: u64,
    pgn: u32,
    reply: &mut ReplyRecord,
) -> u32
    ensures replied { Answers result Status.Done
        → (x : AnyReaction) × (ask_answer handle.old.value.station name (Other pgn) ≡ Ok x) × TellsReaction reply.new x }
    ensures unanswered { ¬ Answers result Status.Done → reply.new ≡ reply.old }
    ensures kept { HoldsSame handle.old handle.new }
    ensures pgn_too_large { Answers result Status.PgnTooLarge ↔ (2 ^ 24 ≤ pgn) }
    ensures no_station { Answers result Status.NoStation ↔ ((pgn < 2 ^ 24) × (has_station handle.old ≡ false)) }
    ensures heard { pgn < 2 ^ 24 → (r : StationSettings) (grant : ℕ) (h : List AnyReading) → HoldsReadings r grant handle.old h
        → OrderAsks (address_heard r h) (address_known r name h) result }
{
    let Ok(pgn) = Pgn::new(pgn) else {
        return Status::PgnTooLarge.number();
    };
    let Some(station) = handle.lift(alloc) else {
        return Status::NoStation.number();
    };
    let answer = station
        .station()
        .ask(alloc, Name::from_number(name), Ask::Other(pgn));
    handle.put(station);
    reply_with(answer, reply).number()
}

/// Asks all units for a parameter group, below 2^24; `reply` has the request. The station stays as it is.
///
/// Refused, in this order: `PgnTooLarge`, `NoStation`, `NotHeld` where the station holds no address, `OutOfMemory`; `reply` is
/// then as it was.
#[unsafe(no_mangle)]
pub extern "C" fn hidzgula_ask_all(
    alloc: Global,
    handle: &mut StationHandle,
    pgn: u32,
    reply: &mut ReplyRecord,
) -> u32
    ensures replied { Answers result Status.Done
        → (x : AnyReaction) × (ask_all_answer handle.old.value.station (Other pgn) ≡ Ok x) × TellsReaction reply.new x }
    ensures unanswered { ¬ Answers result Status.Done → reply.new ≡ reply.old }
    ensures kept { HoldsSame handle.old handle.new }
    ensures pgn_too_large { Answers result Status.PgnTooLarge ↔ (2 ^ 24 ≤ pgn) }
    ensures no_station { Answers result Status.NoStation ↔ ((pgn < 2 ^ 24) × (has_station handle.old ≡ false)) }
    ensures heard { pgn < 2 ^ 24 → (r : StationSettings) (grant : ℕ) (h : List AnyReading) → HoldsReadings r grant handle.old h
        → OrderAsksAll (address_heard r h) result }
{
    let Ok(pgn) = Pgn::new(pgn) else {
        return Status::PgnTooLarge.number();
    };
    let Some(station) = handle.lift(alloc) else {
        return Status::NoStation.number();
    };
    let answer = station.station().ask_all(alloc, Ask::Other(pgn));
    handle.put(station);
    reply_with(answer, reply).number()
}

/// Commands the unit of this NAME to hold an address, 0 to 253; `reply` has the announcement and two packets of a broadcast.
/// The station stays as it is.
///
/// Refused, in this order: `NoStation`, `NotAnAddress` for 254 and 255, `NotHeld` where the station holds no address,
/// `OutOfMemory`; `reply` is then as it was.
#[unsafe(no_mangle)]
pub extern "C" fn hidzgula_command(
    alloc: Global,
    handle: &mut StationHandle,
    name: u64,
    address: u8,
    reply: &mut ReplyRecord,
) -> u32
    ensures replied { Answers result Status.Done
        → (x : AnyReaction) × (command_answer handle.old.value.station name address ≡ Ok x) × TellsReaction reply.new x }
    ensures unanswered { ¬ Answers result Status.Done → reply.new ≡ reply.old }
    ensures kept { HoldsSame handle.old handle.new }
    ensures no_station { Answers result Status.NoStation ↔ (has_station handle.old ≡ false) }
    ensures heard { (r : StationSettings) (grant : ℕ) (h : List AnyReading) → HoldsReadings r grant handle.old h
        → OrderCommands (address_heard r h) address result }
{
    let Some(station) = handle.lift(alloc) else {
        return Status::NoStation.number();
    };
    let answer = station
        .station()
        .command(alloc, Name::from_number(name), address);
    handle.put(station);
    reply_with(answer, reply).number()
}
