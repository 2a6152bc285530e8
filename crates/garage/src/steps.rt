use crate::answers::Begin;
use crate::error::GarageError;
use crate::garage::Garage;
use crate::queueing::{MessageNumbers, queue_outs};
use crate::room::{check_room, make_ready};
use dm_messages::Kind;
use journal::MemoryThen;
use node_core::{NodeError, Outs, Started};
use std::alloc::Global;
use unit_trait::Unit;

impl Garage {
    ghost use Rattle.std.specs.Prelude.{◌≡◌, ◌↔◌, ◌≤◌, length, IfOk, IfErr, IsErrOf, OnErr, OnOk};
    ghost use Rattle.bus_ledger.specs.BusValue.{IsUnit};
    ghost use Rattle.journal.specs.Journal.{state_of, Adds};
    ghost use Rattle.journal.specs.State.{unit_at};
    ghost use Rattle.journal.specs.declared.event.Event.TheVariants.{Turned};
    ghost use Rattle.garage.specs.Answers.{Begins};
    ghost use Rattle.garage.specs.Calls.{BeginsFull, BeginsHeld, BeginsUnclaimed, IsBeginRefusal, IsNoMemoryOrFull};
    ghost use Rattle.garage.specs.Causes.{BeginsWith};
    ghost use Rattle.garage.specs.Room.{IsFull};

    /// Begins a DM1 of the memory of the unit on the seat.
    ///
    /// Refused, in this order, and then nothing changed:
    /// - `Unclaimed` if the unit holds no address;
    /// - if a DM1 can begin, `BookFull`, then `OutOfMemory`.
    #[tactic(auto, using(crate::proofs::Standing::seat_low, crate::proofs::Standing::seat_placed, crate::proofs::Standing::place_node))]
    pub(crate) fn begin(
        &mut self,
        alloc: Global,
        seat: u32,
        unit: &dyn Unit,
    ) -> Result<Begin, GarageError>
        requires { IsUnit (state_of self.old).traffic seat }
        ensures ok { IfOk result (λ b. Begins self.old seat (memory_of unit.now) b self.new) }
        ensures unclaimed { BeginsUnclaimed self.old seat result }
        ensures held { BeginsHeld self.old seat result }
        ensures full { BeginsFull self.old seat result }
        ensures only { IfErr result IsBeginRefusal }
        ensures err { OnErr result (self.new ≡ self.old) }
    {
        let place = &self.places[(seat - self.stations) as usize];
        let started = match place.node.begin(alloc, Kind::Dm1, unit) {
            Ok(started) => started,
            Err(NodeError::OutOfMemory) => {
                check_room(&self.journal, self.live + 1, self.limit)?;
                return Err(GarageError::OutOfMemory);
            }
            Err(refusal) => return Err(GarageError::from(refusal)),
        };
        let Started::Begun { begun: _, put } = started else {
            return Ok(Begin::Held);
        };
        self.begin_message(seat, unit, put)?;
        Ok(Begin::Begun)
    }

    /// Begins a DM1 of the memory of the unit on the seat, with these frames.
    ///
    /// Refused: `BookFull`, then `OutOfMemory`. Then nothing changed.
    #[tactic(auto, using(crate::proofs::Standing::seat_low, crate::proofs::Standing::seat_placed))]
    fn begin_message(&mut self, seat: u32, unit: &dyn Unit, put: Outs) -> Result<(), GarageError>
        requires unit { IsUnit (state_of self.old).traffic seat }
        requires begins { BeginsWith (unit_at (state_of self.old) seat).node (memory_of unit.now) put }
        requires few { length put ≤ 256 }
        ensures ok { OnOk result (Begins self.old seat (memory_of unit.now) Begin.Begun self.new) }
        ensures full { IsErrOf result GarageError.BookFull ↔ IsFull self.old }
        ensures only { IfErr result IsNoMemoryOrFull }
        ensures err { OnErr result (self.new ≡ self.old) }
    {
        make_ready(
            &self.journal,
            &mut self.bus,
            self.live + 1,
            self.limit,
            seat,
        )?;
        let place = &mut self.places[(seat - self.stations) as usize];
        place.tally.events += 1;
        let numbering = MessageNumbers {
            begun: self.begun,
            is_session: false,
            session: place.session_message,
        };
        queue_outs(&mut self.bus, seat, put, numbering);
        self.begun += 1;
        self.journal
            .note_begin(seat, &MemoryThen::of(unit.memory()));
        Ok(())
    }

    /// Ends a turn of the unit on the seat.
    ///
    /// Refused: `BookFull`, then `OutOfMemory`. Then nothing changed.
    #[tactic(auto, using(crate::proofs::Standing::seat_low, crate::proofs::Standing::seat_placed))]
    pub(crate) fn turned(&mut self, seat: u32) -> Result<(), GarageError>
        requires { IsUnit (state_of self.old).traffic seat }
        ensures ok { OnOk result (Adds self.old (Turned seat) self.new) }
        ensures full { IsErrOf result GarageError.BookFull ↔ IsFull self.old }
        ensures only { IfErr result IsNoMemoryOrFull }
        ensures err { OnErr result (self.new ≡ self.old) }
    {
        check_room(&self.journal, self.live + 1, self.limit)?;
        let place = &mut self.places[(seat - self.stations) as usize];
        place.tally.turned += 1;
        place.tally.events += 1;
        self.journal.note_turned(seat);
        Ok(())
    }
}
