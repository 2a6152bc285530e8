ghost use Rattle.std.specs.Prelude.{◌≡◌, ◌<◌, length};
ghost use Rattle.garage.specs.ParkedUnits.{asked_of, sitting_of};
ghost use Rattle.script_run.specs.Steps.{Asks, CarriesSo, Commands, Injects, ReadsSo, RunsRounds, ask_meant, end_told};

use bus_ledger::Carried;
use can_frame::{PgnTooLarge, Reading};
use garage::{Garage, Parked};
use script_answer::{End, LineAnswer, Refusal};
use script_line::{Asked, FrameWords, NameWord, Receiver};
use station_table::Ask;
use std::alloc::Global;
use unit_trait::Unit;

/// CarriesSo frames, so many at most.
pub(crate) fn carry(garage: &mut Garage, most: u32) -> Result<LineAnswer, Refusal>
    ensures { CarriesSo most result garage.old garage.new }
{
    for count in 0..most {
        if let Some(end) = end_of(Some(garage.carry()?)) {
            return Ok(LineAnswer::Carried {
                count,
                end: Some(end),
            });
        }
    }
    Ok(LineAnswer::Carried {
        count: most,
        end: None,
    })
}

/// Has a station read until nothing is unread, at most so often.
pub(crate) fn read(
    garage: &mut Garage,
    alloc: Global,
    station: u32,
    most: u32,
) -> Result<LineAnswer, Refusal>
    requires { station < length garage.old.settings.stations }
    ensures { ReadsSo station most result garage.old garage.new }
{
    for count in 0..most {
        match garage.read_at(alloc, station)? {
            Reading::Empty => return Ok(LineAnswer::Read(count)),
            _ => {}
        }
    }
    Ok(LineAnswer::Read(most))
}

/// Runs rounds, so many at most and fewer where no frame can be carried: each unit hears all that it has not heard, the
/// stations read all, and one frame is carried.
pub(crate) fn run_rounds(
    garage: &mut Garage,
    alloc: Global,
    units: &mut [Parked],
    most: u32,
) -> Result<LineAnswer, Refusal>
    ensures { RunsRounds (sitting_of (λ b. (⟦<dyn Unit as Unit>⟧ b.vtable).name_of b.value)
        (λ b. (⟦<dyn Unit as Unit>⟧ b.vtable).memory_of b.value))
        (asked_of (λ b. (⟦<dyn Unit as Unit>⟧ b.vtable).Answers b.value))
        most result garage.old units.old garage.new units.new }
{
    let rounds = garage.round(alloc, units, most)?;
    Ok(LineAnswer::Carried {
        count: rounds.carried,
        end: end_of(rounds.end),
    })
}

/// Has a station ask a unit, or all.
pub(crate) fn ask(
    garage: &mut Garage,
    alloc: Global,
    station: u32,
    receiver: Receiver,
    asked: Asked,
) -> Result<LineAnswer, Refusal>
    requires { station < length garage.old.settings.stations }
    ensures { Asks station receiver asked result garage.old garage.new }
{
    match receiver {
        Receiver::All => garage.ask_all_at(alloc, station, ask_of(asked)?)?,
        Receiver::Unit { name } => {
            let name = name?;
            garage.ask_at(alloc, station, name, ask_of(asked)?)?;
        }
    }
    Ok(LineAnswer::Done)
}

/// Has a station command a unit to another address.
pub(crate) fn command_to(
    garage: &mut Garage,
    alloc: Global,
    station: u32,
    name: NameWord,
    address: u8,
) -> Result<LineAnswer, Refusal>
    requires { station < length garage.old.settings.stations }
    ensures { Commands station name address result garage.old garage.new }
{
    garage.command_at(alloc, station, name?, address)?;
    Ok(LineAnswer::Done)
}

/// Puts a frame from outside on the wire.
pub(crate) fn inject(garage: &mut Garage, frame: FrameWords) -> Result<LineAnswer, Refusal>
    ensures { Injects frame result garage.old garage.new }
{
    garage.inject(frame?)?;
    Ok(LineAnswer::Done)
}

/// Why no frame was carried, where none was.
fn end_of(carried: Option<Carried>) -> Option<End>
    ensures { result ≡ end_told carried }
{
    match carried? {
        Carried::Frame { .. } => None,
        Carried::Idle => Some(End::Idle),
        Carried::Waiting => Some(End::Waiting),
    }
}

fn ask_of(asked: Asked) -> Result<Ask, PgnTooLarge>
    ensures { result ≡ ask_meant asked }
{
    match asked {
        Asked::Dm1 => Ok(Ask::Dm1),
        Asked::Dm2 => Ok(Ask::Dm2),
        Asked::Dm3 => Ok(Ask::Dm3),
        Asked::Dm6 => Ok(Ask::Dm6),
        Asked::Dm11 => Ok(Ask::Dm11),
        Asked::Claim => Ok(Ask::Claim),
        Asked::Other { pgn } => Ok(Ask::Other(pgn?)),
    }
}
