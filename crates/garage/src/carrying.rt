ghost use Rattle.std.specs.Prelude.{◌≡◌, ◌⊎◌, ◌↔◌, Err, Ok, IfOk, IfErr, IsErrOf, OnErr};
ghost use Rattle.bus_ledger.specs.Carrying.{CanCarry, IsIdle, IsWaiting};
ghost use Rattle.journal.specs.Journal.{state_of};
ghost use Rattle.journal.specs.Promises.{KeepsLists};
ghost use Rattle.garage.specs.Carrying.{AddsCarry};
ghost use Rattle.garage.specs.Room.{IsFull};

use crate::error::GarageError;
use crate::garage::Garage;
use crate::room::check_room;
use bus_ledger::Carried;

impl Garage {
    /// Carries one frame.
    ///
    /// - `Idle` or `Waiting`: nothing changed.
    /// - Refused if a frame could be carried: `BookFull`, then `OutOfMemory`. Then nothing changed.
    #[tactic(auto, using(crate::proofs::Lists::lists_same, crate::proofs::Lists::lists_added))]
    pub fn carry(&mut self) -> Result<Carried, GarageError>
        ensures ok { IfOk result (λ c. AddsCarry self.old c self.new) }
        ensures idle { (result ≡ Ok Carried.Idle) ↔ IsIdle (state_of self.old).traffic }
        ensures waiting { (result ≡ Ok Carried.Waiting) ↔ IsWaiting (state_of self.old).traffic }
        ensures full { IsErrOf result GarageError.BookFull ↔ (CanCarry (state_of self.old).traffic × IsFull self.old) }
        ensures could { OnErr result (CanCarry (state_of self.old).traffic) }
        ensures err { IfErr result (λ e. (self.new ≡ self.old) × ((e ≡ GarageError.BookFull) ⊎ (e ≡ GarageError.OutOfMemory))) }
        ensures lists { KeepsLists self.old self.new }
    {
        match check_room(&self.journal, self.live + 1, self.limit) {
            Ok(()) => {}
            Err(refusal) => return self.uncarried(refusal),
        }
        let carried = self.bus.carry()?;
        let Carried::Frame { seat, frame: _ } = carried else {
            return Ok(carried);
        };
        self.journal.note_carry(seat);
        Ok(carried)
    }

    /// What a carry returns for which there is no room.
    ///
    /// The refusal if a frame could be carried, else `Idle` or `Waiting`.
    fn uncarried(&self, refusal: GarageError) -> Result<Carried, GarageError>
        ensures ok { IfOk result (λ c. AddsCarry self.now c self.now) }
        ensures idle { (result ≡ Ok Carried.Idle) ↔ IsIdle (state_of self.now).traffic }
        ensures waiting { (result ≡ Ok Carried.Waiting) ↔ IsWaiting (state_of self.now).traffic }
        ensures err { (result ≡ Err refusal) ↔ CanCarry (state_of self.now).traffic }
        ensures only { IfErr result (λ e. e ≡ refusal) }
    {
        match self.bus.carry_peek() {
            Carried::Frame { seat: _, frame: _ } => Err(refusal),
            Carried::Idle => Ok(Carried::Idle),
            Carried::Waiting => Ok(Carried::Waiting),
        }
    }
}
