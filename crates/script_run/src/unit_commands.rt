ghost use Rattle.std.specs.Prelude.{◌≡◌, ◌≢◌, Err};
ghost use Rattle.garage.specs.ParkedUnits.{asked_of, sitting_of};
ghost use Rattle.journal.specs.Journal.{IsSeated};
ghost use Rattle.script_run.specs.UnitSteps.{BeginsSo, ChangesSo, DoesIfKnown, HearsSo, LightsSo, ThinksSo, TurnsSo, UnitDoes, change_meant};

use fault_memory::FaultChange;
use garage::{Begin, Garage, GarageError, Parked};
use script_answer::{LineAnswer, Refusal};
use script_line::{CodeChange, Command};
use std::alloc::Global;
use trouble_code::Lamps;
use unit_trait::Unit;

/// Carries out a command for the unit of a seat, where it is parked; any other command is refused.
///
/// Refused with `Stranger` only where the garage does not know the unit.
pub(crate) fn carry_out(
    alloc: Global,
    garage: &mut Garage,
    parked: &mut Parked,
    command: &Command,
) -> Result<LineAnswer, Refusal>
    ensures stranger { result ≡ Err (Refusal.Garage GarageError.Stranger)
        → ¬ IsSeated garage.new parked.new.seat ((⟦<dyn Unit as Unit>⟧ parked.new.unit.vtable).name_of parked.new.unit.value)
        parked.new.events }
    ensures unchanged { result ≡ Err (Refusal.Garage GarageError.Stranger) → garage.new ≡ garage.old }
    ensures did { DoesIfKnown (UnitDoes (sitting_of (λ b. (⟦<dyn Unit as Unit>⟧ b.vtable).name_of b.value)
        (λ b. (⟦<dyn Unit as Unit>⟧ b.vtable).memory_of b.value))
        (asked_of (λ b. (⟦<dyn Unit as Unit>⟧ b.vtable).Answers b.value)) command.now) result garage.old parked.old garage.new parked.new }
{
    match command {
        Command::Hear { most, .. } => hear(alloc, garage, parked, *most),
        Command::Dm1 { .. } => begin(alloc, garage, parked),
        Command::Turn { .. } => turn(garage, parked),
        Command::Change {
            change,
            spn,
            fmi,
            count,
            ..
        } => change_codes(parked, *change, *spn, *fmi, *count),
        Command::Lamps { lamps, .. } => light(parked, *lamps),
        Command::Think { .. } => think(parked),
        _ => Err(Refusal::BadLine),
    }
}

/// The unit hears, at most so many frames.
fn hear(
    alloc: Global,
    garage: &mut Garage,
    parked: &mut Parked,
    most: u32,
) -> Result<LineAnswer, Refusal>
    ensures stranger { result ≡ Err (Refusal.Garage GarageError.Stranger)
        → ¬ IsSeated garage.new parked.new.seat ((⟦<dyn Unit as Unit>⟧ parked.new.unit.vtable).name_of parked.new.unit.value)
        parked.new.events }
    ensures unchanged { result ≡ Err (Refusal.Garage GarageError.Stranger) → garage.new ≡ garage.old }
    ensures did { DoesIfKnown (HearsSo (sitting_of (λ b. (⟦<dyn Unit as Unit>⟧ b.vtable).name_of b.value)
        (λ b. (⟦<dyn Unit as Unit>⟧ b.vtable).memory_of b.value))
        (asked_of (λ b. (⟦<dyn Unit as Unit>⟧ b.vtable).Answers b.value)) most) result garage.old parked.old garage.new parked.new }
{
    Ok(LineAnswer::Heard(garage.let_hear(alloc, parked, most)?))
}

/// The unit begins a DM1.
fn begin(alloc: Global, garage: &mut Garage, parked: &mut Parked) -> Result<LineAnswer, Refusal>
    ensures stranger { result ≡ Err (Refusal.Garage GarageError.Stranger)
        → ¬ IsSeated garage.new parked.new.seat ((⟦<dyn Unit as Unit>⟧ parked.new.unit.vtable).name_of parked.new.unit.value)
        parked.new.events }
    ensures unchanged { result ≡ Err (Refusal.Garage GarageError.Stranger) → garage.new ≡ garage.old }
    ensures did { DoesIfKnown (BeginsSo (sitting_of (λ b. (⟦<dyn Unit as Unit>⟧ b.vtable).name_of b.value)
        (λ b. (⟦<dyn Unit as Unit>⟧ b.vtable).memory_of b.value))) result garage.old parked.old garage.new parked.new }
{
    match garage.let_begin(alloc, parked)? {
        Begin::Begun => Ok(LineAnswer::Begun),
        Begin::Held => Ok(LineAnswer::Held),
    }
}

/// The unit's turn ends.
fn turn(garage: &mut Garage, parked: &mut Parked) -> Result<LineAnswer, Refusal>
    ensures stranger { result ≡ Err (Refusal.Garage GarageError.Stranger)
        → ¬ IsSeated garage.new parked.new.seat ((⟦<dyn Unit as Unit>⟧ parked.new.unit.vtable).name_of parked.new.unit.value)
        parked.new.events }
    ensures unchanged { result ≡ Err (Refusal.Garage GarageError.Stranger) → garage.new ≡ garage.old }
    ensures did { DoesIfKnown (TurnsSo (sitting_of (λ b. (⟦<dyn Unit as Unit>⟧ b.vtable).name_of b.value)
        (λ b. (⟦<dyn Unit as Unit>⟧ b.vtable).memory_of b.value))) result garage.old parked.old garage.new parked.new }
{
    garage.let_turn(parked)?;
    Ok(LineAnswer::Done)
}

/// Makes a change for each of so many codes, from this SPN on.
#[tactic(auto, using(crate::proofs::Stepping::changes_none, crate::proofs::Stepping::changes_more))]
fn change_codes(
    parked: &mut Parked,
    change: CodeChange,
    spn: u32,
    fmi: u8,
    count: u32,
) -> Result<LineAnswer, Refusal>
    ensures did { ChangesSo (sitting_of (λ b. (⟦<dyn Unit as Unit>⟧ b.vtable).name_of b.value)
        (λ b. (⟦<dyn Unit as Unit>⟧ b.vtable).memory_of b.value)) change spn fmi count result parked.old parked.new }
    ensures known { result ≢ Err (Refusal.Garage GarageError.Stranger) }
{
    for number in 0..count {
        parked.apply(change_of(change, spn.saturating_add(number), fmi))?;
    }
    Ok(LineAnswer::Done)
}

/// The unit's lamps become these.
fn light(parked: &mut Parked, lamps: Lamps) -> Result<LineAnswer, Refusal>
    ensures did { LightsSo (sitting_of (λ b. (⟦<dyn Unit as Unit>⟧ b.vtable).name_of b.value)
        (λ b. (⟦<dyn Unit as Unit>⟧ b.vtable).memory_of b.value)) lamps result parked.old parked.new }
    ensures known { result ≢ Err (Refusal.Garage GarageError.Stranger) }
{
    parked.apply(FaultChange::Lamp { lamps })?;
    Ok(LineAnswer::Done)
}

/// The unit does its own work.
fn think(parked: &mut Parked) -> Result<LineAnswer, Refusal>
    ensures did { ThinksSo (sitting_of (λ b. (⟦<dyn Unit as Unit>⟧ b.vtable).name_of b.value)
        (λ b. (⟦<dyn Unit as Unit>⟧ b.vtable).memory_of b.value)) result parked.old parked.new }
    ensures known { result ≢ Err (Refusal.Garage GarageError.Stranger) }
{
    parked.think();
    Ok(LineAnswer::Done)
}

/// What a fault memory is told of the code with this SPN and FMI.
fn change_of(change: CodeChange, spn: u32, fmi: u8) -> FaultChange
    ensures { result ≡ change_meant change spn fmi }
{
    match change {
        CodeChange::Set => FaultChange::Set { spn, fmi },
        CodeChange::Heal => FaultChange::Heal { spn, fmi },
        CodeChange::Pend => FaultChange::Pend { spn, fmi },
        CodeChange::Unpend => FaultChange::Unpend { spn, fmi },
    }
}
