ghost use Rattle.std.specs.Prelude.{◌≡◌, ◌⊎◌, ◌↔◌, ◌<◌, ◌≤◌, ℕ, length, Err, None, IfErr, IfOk, IsErr, MatchResult, OnErr, OnOk};
ghost use Rattle.journal.specs.Journal.{GarageValue, IsSeated};
ghost use Rattle.garage.specs.Hearing.{HasHeardAll};
ghost use Rattle.garage.specs.Rounds.{HasReadAll, HaveReadAll, IsReadOf};
ghost use Rattle.unit_threads.specs.Turns.{BoxHeard, CarriesAll, CarriesSome, GrowsBy, IsHearOf, IsOneRead, IsOneTurn, IsPartOfRead, IsPartOfReading, IsPartOfTurn, IsTurnInBox, IsTurnInSeat, KeepsSeats, LeavesAfterSome, LeavesOthers, LeftTurn, ReadInTurn, begun_by};
ghost use Rattle.garage.specs.Calls.{IsNoMemoryOrFull};

use can_frame::Reading;
use garage::{Carried, Garage, GarageError, HeardOne, Parked, Plug};
use std::alloc::Global;
use unit_trait::Unit;

/// The most frames that are carried after a turn, and after a reading.
const MOST_CARRIED: u32 = 8;

/// One turn of a unit: it hears the whole wire, begins a DM1 if it wants to and can, and ends its turn; then up to eight
/// frames are carried. The box that is given back is the one that was handed over, changed only by what the frames that it heard
/// asked of it.
///
/// # Errors
/// - `Stranger`: the garage has no live seat with the unit's seat number, NAME and count of events. Nothing changed, and the
///   unit is let go.
/// - `BookFull`, `OutOfMemory`: a step was refused. What was done before stays, and the unit left the bus.
#[tactic(auto, using(crate::proofs::Turning::left_after, crate::proofs::Turning::one_turn_of))]
pub fn one_turn(alloc: Global, garage: &mut Garage, parked: Parked) -> Result<Parked, GarageError>
    ensures ok { IfOk result (λ p. IsOneTurn parked.seat ((⟦<dyn Unit as Unit>⟧ p.unit.vtable).wants p.unit.value)
        ((⟦<dyn Unit as Unit>⟧ p.unit.vtable).memory_of p.unit.value) garage.old garage.new) }
    ensures parked { IfOk result (λ p. (p.seat ≡ parked.seat)
        × IsSeated garage.new p.seat ((⟦<dyn Unit as Unit>⟧ p.unit.vtable).name_of p.unit.value) p.events) }
    ensures named { IfOk result (λ p. ((⟦<dyn Unit as Unit>⟧ p.unit.vtable).name_of p.unit.value) ≡ ((⟦<dyn Unit as Unit>⟧
        parked.unit.vtable).name_of parked.unit.value)) }
    ensures unit { IfOk result (λ p. (turned : GarageValue)
        × IsTurnInBox (λ i. (⟦<dyn Unit as Unit>⟧ i).name_of) (λ i. (⟦<dyn Unit as Unit>⟧ i).wants)
        (λ i. (⟦<dyn Unit as Unit>⟧ i).memory_of) (λ i. (⟦<dyn Unit as Unit>⟧ i).Answers) parked.seat garage.old parked.unit
        parked.events turned p.unit
        × CarriesAll turned garage.new) }
    ensures stranger { (result ≡ Err GarageError.Stranger)
        ↔ (¬ IsSeated garage.old parked.seat ((⟦<dyn Unit as Unit>⟧ parked.unit.vtable).name_of parked.unit.value) parked.events) }
    ensures err { IfErr result
        (λ e. ((e ≡ GarageError.Stranger) × (garage.new ≡ garage.old)) ⊎ (IsNoMemoryOrFull e × LeftTurn parked.seat garage.old garage.new)) }
{
    match turned_in_seat(alloc, garage, parked) {
        Ok(Ok(parked)) => carried_after(garage, parked),
        Ok(Err(error)) => Err(error),
        Err((parked, error)) => {
            drop(garage.disown(parked));
            Err(error)
        }
    }
}

/// Each station in turn reads until nothing is unread; then up to eight frames are carried.
///
/// # Errors
/// - `BookFull`, `OutOfMemory`: a step was refused. What was done before stays.
#[tactic(auto, using(crate::proofs::Reading::one_read_of, crate::proofs::Reading::part_of_read, crate::proofs::Reading::cut_short))]
pub fn one_read(alloc: Global, garage: &mut Garage) -> Result<(), GarageError>
    ensures ok { OnOk result (IsOneRead garage.old garage.new) }
    ensures err { IfErr result (λ e. IsNoMemoryOrFull e × IsPartOfRead garage.old garage.new) }
{
    read_each(alloc, garage)?;
    carry_some(garage)
}

/// Each station in turn reads until nothing is unread.
fn read_each(alloc: Global, garage: &mut Garage) -> Result<(), GarageError>
    ensures reads { OnOk result (ReadInTurn (length garage.old.settings.stations) garage.old garage.new) }
    ensures all { OnOk result (HaveReadAll (length garage.old.settings.stations) garage.new) }
    ensures err { IfErr result (λ e. IsNoMemoryOrFull e × IsPartOfReading garage.old garage.new) }
{
    for station in 0..garage.stations() {
        read_all(alloc, garage, station)?;
    }
    Ok(())
}

/// A station takes readings until there is none.
#[tactic(auto, using(crate::proofs::Reading::reads_more, crate::proofs::Turning::grows_none, crate::proofs::Turning::grown_same))]
fn read_all(alloc: Global, garage: &mut Garage, station: u32) -> Result<(), GarageError>
    requires { station < length garage.old.settings.stations }
    ensures reads { GrowsBy (IsReadOf station) garage.old garage.new }
    ensures all { OnOk result (HasReadAll station garage.new) }
    ensures others { LeavesOthers station garage.old garage.new }
    ensures want { IfErr result IsNoMemoryOrFull }
{
    loop {
        match garage.read_at(alloc, station)? {
            Reading::Empty => return Ok(()),
            Reading::Frame(_) | Reading::Gap(_) => {}
        }
    }
}

/// Carries frames until none can be carried, at most eight.
#[tactic(auto, using(crate::proofs::Turning::carried_more, crate::proofs::Turning::carried_none, crate::proofs::Turning::carried_some, crate::proofs::Turning::carried_until, crate::proofs::Turning::carried_eight, crate::proofs::Turning::keeps_more, crate::proofs::Turning::keeps_none, crate::proofs::Turning::keeps_same))]
fn carry_some(garage: &mut Garage) -> Result<(), GarageError>
    ensures ok { OnOk result (CarriesAll garage.old garage.new) }
    ensures err { OnErr result (CarriesSome garage.old garage.new) }
    ensures seats { KeepsSeats garage.old garage.new }
    ensures want { IfErr result IsNoMemoryOrFull }
{
    for _turn in 0..MOST_CARRIED {
        match garage.carry()? {
            Carried::Frame { seat: _, frame: _ } => {}
            Carried::Idle => return Ok(()),
            Carried::Waiting => return Ok(()),
        }
    }
    Ok(())
}

/// Carries frames after a turn. Where that is refused, the unit takes its seat again and leaves.
#[tactic(auto, using(crate::proofs::Turning::leaves_after_some))]
fn carried_after(garage: &mut Garage, parked: Parked) -> Result<Parked, GarageError>
    requires { IsSeated garage.old parked.seat ((⟦<dyn Unit as Unit>⟧ parked.unit.vtable).name_of parked.unit.value) parked.events }
    ensures ok { IfOk result (λ p. (p ≡ parked) × CarriesAll garage.old garage.new × KeepsSeats garage.old garage.new) }
    ensures err { IfErr result (λ e. IsNoMemoryOrFull e × LeavesAfterSome parked.seat garage.old garage.new) }
{
    match carry_some(garage) {
        Ok(()) => Ok(parked),
        Err(error) => {
            let _ = garage.dismiss(parked);
            Err(error)
        }
    }
}

/// A turn of a unit in its seat. Where a step is refused, the unit leaves.
#[tactic(auto, using(crate::proofs::Turning::left_turn))]
fn turned_in_seat(
    alloc: Global,
    garage: &mut Garage,
    parked: Parked,
) -> Result<Result<Parked, GarageError>, (Parked, GarageError)>
    ensures stranger { IsErr result
        ↔ (¬ IsSeated garage.old parked.seat ((⟦<dyn Unit as Unit>⟧ parked.unit.vtable).name_of parked.unit.value) parked.events) }
    ensures turned { IfOk result (λ r. IfOk r (λ p. IsTurnInSeat parked.seat
        ((⟦<dyn Unit as Unit>⟧ p.unit.vtable).wants p.unit.value) ((⟦<dyn Unit as Unit>⟧ p.unit.vtable).memory_of p.unit.value)
        garage.old garage.new)) }
    ensures seated { IfOk result (λ r. IfOk r (λ p. (p.seat ≡ parked.seat)
        × (((⟦<dyn Unit as Unit>⟧ p.unit.vtable).name_of p.unit.value) ≡ ((⟦<dyn Unit as Unit>⟧ parked.unit.vtable).name_of
        parked.unit.value))
        × IsSeated garage.new p.seat ((⟦<dyn Unit as Unit>⟧ p.unit.vtable).name_of p.unit.value) p.events)) }
    ensures unit { IfOk result (λ r. IfOk r (λ p. IsTurnInBox (λ i. (⟦<dyn Unit as Unit>⟧ i).name_of)
        (λ i. (⟦<dyn Unit as Unit>⟧ i).wants) (λ i. (⟦<dyn Unit as Unit>⟧ i).memory_of) (λ i. (⟦<dyn Unit as Unit>⟧ i).Answers)
        parked.seat garage.old parked.unit parked.events garage.new p.unit)) }
    ensures left { IfOk result (λ r. IfErr r (λ e. IsNoMemoryOrFull e × LeftTurn parked.seat garage.old garage.new)) }
    ensures err { IfErr result (λ e. (e.0 ≡ parked) × (e.1 ≡ GarageError.Stranger) × (garage.new ≡ garage.old)) }
{
    let mut plug = garage.attach(parked)?;
    if let Err(error) = steps(alloc, &mut plug) {
        return Ok(Err(error));
    }
    Ok(Ok(plug.detach()))
}

/// The steps of a turn.
#[tactic(auto, using(crate::proofs::Turning::turn_in_seat, crate::proofs::Turning::begun_turn, crate::proofs::Turning::heard_turn))]
fn steps(alloc: Global, plug: &mut Plug<'_>) -> Result<(), GarageError>
    requires { Unit {0} }
    ensures same { plug.new.garage.ghost_name ≡ plug.old.garage.ghost_name }
    ensures kept { (plug.new.seat ≡ plug.old.seat) × (plug.new.name ≡ plug.old.name)
        × (((⟦<dyn Unit as Unit>⟧ plug.new.unit.vtable).name_of plug.new.unit.value) ≡ ((⟦<dyn Unit as Unit>⟧ plug.old.unit.vtable).name_of plug.old.unit.value)) }
    ensures ok { OnOk result (IsTurnInSeat plug.old.seat ((⟦<dyn Unit as Unit>⟧ plug.new.unit.vtable).wants plug.new.unit.value)
        ((⟦<dyn Unit as Unit>⟧ plug.new.unit.vtable).memory_of plug.new.unit.value) plug.old.garage.now plug.new.garage.now) }
    ensures unit { OnOk result (IsTurnInBox (λ i. (⟦<dyn Unit as Unit>⟧ i).name_of) (λ i. (⟦<dyn Unit as Unit>⟧ i).wants)
        (λ i. (⟦<dyn Unit as Unit>⟧ i).memory_of) (λ i. (⟦<dyn Unit as Unit>⟧ i).Answers) plug.old.seat plug.old.garage.now
        plug.old.unit plug.old.events plug.new.garage.now plug.new.unit) }
    ensures err { IfErr result (λ e. IsNoMemoryOrFull e × IsPartOfTurn plug.old.seat plug.old.garage.now plug.new.garage.now) }
{
    hear_all(alloc, plug)?;
    begin_wanted(alloc, plug)?;
    plug.turn()?;
    Ok(())
}

/// Hears until the whole wire is heard.
#[tactic(auto, using(crate::proofs::Turning::hears_more, crate::proofs::Turning::grows_none, crate::proofs::Turning::grown_same))]
fn hear_all(alloc: Global, plug: &mut Plug<'_>) -> Result<(), GarageError>
    requires { Unit {0} }
    ensures same { plug.new.garage.ghost_name ≡ plug.old.garage.ghost_name }
    ensures kept { (plug.new.seat ≡ plug.old.seat) × (plug.new.name ≡ plug.old.name)
        × (((⟦<dyn Unit as Unit>⟧ plug.new.unit.vtable).name_of plug.new.unit.value) ≡ ((⟦<dyn Unit as Unit>⟧ plug.old.unit.vtable).name_of plug.old.unit.value)) }
    ensures heard { GrowsBy (IsHearOf plug.old.seat) plug.old.garage.now plug.new.garage.now }
    ensures unit { BoxHeard (λ i. (⟦<dyn Unit as Unit>⟧ i).name_of) (λ i. (⟦<dyn Unit as Unit>⟧ i).memory_of)
        (λ i. (⟦<dyn Unit as Unit>⟧ i).Answers) plug.old.seat plug.old.garage.now plug.old.unit plug.old.events plug.new.garage.now
        plug.new.unit plug.new.events }
    ensures all { OnOk result (HasHeardAll plug.old.seat plug.new.garage.now) }
    ensures want { IfErr result IsNoMemoryOrFull }
{
    loop {
        match plug.hear(alloc)? {
            HeardOne::Nothing => return Ok(()),
            HeardOne::Frame(_) => {}
        }
    }
}

/// Begins a DM1 where the unit wants one. That it holds no address, or has a session of a DM1 open, is passed over.
#[tactic(auto, using(crate::proofs::Turning::begun_case, crate::proofs::Turning::held_case, crate::proofs::Turning::unclaimed_case, crate::proofs::Turning::unwanted_case))]
fn begin_wanted(alloc: Global, plug: &mut Plug<'_>) -> Result<(), GarageError>
    requires { Unit {0} }
    ensures same { plug.new.garage.ghost_name ≡ plug.old.garage.ghost_name }
    ensures kept { (plug.new.seat ≡ plug.old.seat) × (plug.new.name ≡ plug.old.name) × (plug.new.unit ≡ plug.old.unit) }
    ensures ok { OnOk result (plug.new.garage.now ≡ begun_by plug.old.seat
        ((⟦<dyn Unit as Unit>⟧ plug.old.unit.vtable).wants plug.old.unit.value)
        ((⟦<dyn Unit as Unit>⟧ plug.old.unit.vtable).memory_of plug.old.unit.value) plug.old.garage.now) }
    ensures err { IfErr result (λ e. IsNoMemoryOrFull e × (plug.new.garage.now ≡ plug.old.garage.now)) }
{
    if !plug.wants_dm1() {
        return Ok(());
    }
    match plug.begin_dm1(alloc) {
        Ok(_) | Err(GarageError::Unclaimed) => Ok(()),
        Err(error) => Err(error),
    }
}
