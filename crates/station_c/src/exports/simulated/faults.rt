//! The simulated unit of a handle is told of changes of its fault memory (SAE J1939-73).
ghost use Rattle.std.specs.Prelude.{◌≡◌};
ghost use Rattle.trouble_code.specs.LampBytes.{lamps_value};
ghost use Rattle.station_c.specs.UnitHandles.{TellsOfChange};

use crate::status::Status;
use crate::unit_handle::UnitHandle;
use fault_memory::FaultChange;
use std::alloc::Global;
use trouble_code::Lamps;

/// A fault is there: its code, SPN up to 524,287 and FMI up to 31, becomes active, and one that is active stays as it is.
///
/// Refused, in this order: `NoUnit`, `SpnTooLarge`, `FmiTooLarge`, `MemoryFull` for a new code where the unit has 445,
/// `OutOfMemory`; the unit is then as it was.
#[unsafe(no_mangle)]
pub extern "C" fn hidzgula_unit_set(
    alloc: Global,
    handle: &mut UnitHandle,
    spn: u32,
    fmi: u8,
) -> u32
    ensures { TellsOfChange (FaultChange.Set spn fmi) handle.old handle.new result }
{
    change(alloc, handle, FaultChange::Set { spn, fmi })
}

/// A fault has gone: its active code becomes a previously active one.
///
/// Refused, in this order: `NoUnit`, `SpnTooLarge`, `FmiTooLarge`, `NotActive`, `OutOfMemory`; the unit is then as it was.
#[unsafe(no_mangle)]
pub extern "C" fn hidzgula_unit_heal(
    alloc: Global,
    handle: &mut UnitHandle,
    spn: u32,
    fmi: u8,
) -> u32
    ensures { TellsOfChange (FaultChange.Heal spn fmi) handle.old handle.new result }
{
    change(alloc, handle, FaultChange::Heal { spn, fmi })
}

/// A fault was seen and is not confirmed yet: a new code becomes pending, and one that the unit has stays as it is.
///
/// Refused, in this order: `NoUnit`, `SpnTooLarge`, `FmiTooLarge`, `MemoryFull` for a new code where the unit has 445,
/// `OutOfMemory`; the unit is then as it was.
#[unsafe(no_mangle)]
pub extern "C" fn hidzgula_unit_pend(
    alloc: Global,
    handle: &mut UnitHandle,
    spn: u32,
    fmi: u8,
) -> u32
    ensures { TellsOfChange (FaultChange.Pend spn fmi) handle.old handle.new result }
{
    change(alloc, handle, FaultChange::Pend { spn, fmi })
}

/// A pending fault was not seen again: its code goes away.
///
/// Refused, in this order: `NoUnit`, `SpnTooLarge`, `FmiTooLarge`, `NotPending`; the unit is then as it was.
#[unsafe(no_mangle)]
pub extern "C" fn hidzgula_unit_unpend(
    alloc: Global,
    handle: &mut UnitHandle,
    spn: u32,
    fmi: u8,
) -> u32
    ensures { TellsOfChange (FaultChange.Unpend spn fmi) handle.old handle.new result }
{
    change(alloc, handle, FaultChange::Unpend { spn, fmi })
}

/// All lamps and flash codes are replaced by these two bytes, the first two of a DM1.
///
/// Refused: `NoUnit`.
#[unsafe(no_mangle)]
pub extern "C" fn hidzgula_unit_lamps(
    alloc: Global,
    handle: &mut UnitHandle,
    lamps: u8,
    flashes: u8,
) -> u32
    ensures { TellsOfChange (FaultChange.Lamp (lamps_value lamps flashes)) handle.old handle.new result }
{
    let lamps = Lamps::from_bytes(lamps, flashes);
    change(alloc, handle, FaultChange::Lamp { lamps })
}

/// Makes a change in the fault memory of the unit of a handle, if it has one.
fn change(alloc: Global, handle: &mut UnitHandle, change: FaultChange) -> u32
    ensures { TellsOfChange change handle.old handle.new result }
{
    let Some(mut unit) = handle.lift(alloc) else {
        return Status::NoUnit.number();
    };
    let changed = unit.change(change);
    handle.put(unit);
    match changed {
        Ok(()) => Status::Done.number(),
        Err(refusal) => Status::of_fault(refusal).number(),
    }
}
