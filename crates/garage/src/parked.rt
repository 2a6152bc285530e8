ghost use Rattle.std.specs.Prelude.{◌≡◌, ◌+◌, ◌↔◌, ◌⊎◌, IfOk, IfErr, IsErrOf, IsTrue, OnErr, OnOk};
ghost use Rattle.journal.specs.Journal.{Adds, IsSeated};
ghost use Rattle.journal.specs.Promises.{KeepsLists};
ghost use Rattle.journal.specs.declared.event.Event.TheVariants.{Turned};
ghost use Rattle.garage.specs.Answers.{Begins, counted_beginning};
ghost use Rattle.garage.specs.Calls.{BeginsFull, BeginsHeld, BeginsUnclaimed, IsBeginRefusal, IsNoMemoryOrFull};
ghost use Rattle.garage.specs.Room.{IsFull};

use crate::answers::Begin;
use crate::error::GarageError;
use crate::garage::Garage;
use crate::plug::Parked;
use std::alloc::Global;
use unit_trait::Unit;

impl Garage {
    /// Lets a parked unit begin a DM1 of its memory, to all.
    ///
    /// It takes its seat and is parked again. If it began, its count of events is one more.
    ///
    /// Refused, in this order, and then nothing changed:
    /// - `Stranger` exactly if this garage has no live seat with its seat number, NAME and count of events;
    /// - `Unclaimed` if it holds no address;
    /// - if no session of a DM1 is open, `BookFull`, then `OutOfMemory`.
    #[tactic(auto, using(crate::proofs::Lists::lists_same, crate::proofs::Lists::lists_begun))]
    pub fn let_begin(&mut self, alloc: Global, parked: &mut Parked) -> Result<Begin, GarageError>
        requires { Unit {0} }
        ensures stranger { IsErrOf result GarageError.Stranger
            ↔ (¬ IsSeated self.old parked.old.seat (name_of parked.old.unit) parked.old.events) }
        ensures kept { (parked.new.seat ≡ parked.old.seat) × (parked.new.unit ≡ parked.old.unit) }
        ensures seated { IsSeated self.old parked.old.seat (name_of parked.old.unit) parked.old.events
            → IsSeated self.new parked.new.seat (name_of parked.new.unit) parked.new.events }
        ensures ok { IfOk result (λ b. Begins self.old parked.old.seat (memory_of parked.old.unit) b self.new) }
        ensures counted { IfOk result (λ b. parked.new.events ≡ counted_beginning parked.old.events b) }
        ensures unclaimed { IsSeated self.old parked.old.seat (name_of parked.old.unit) parked.old.events
            → BeginsUnclaimed self.old parked.old.seat result }
        ensures held { IsSeated self.old parked.old.seat (name_of parked.old.unit) parked.old.events
            → BeginsHeld self.old parked.old.seat result }
        ensures full { IsSeated self.old parked.old.seat (name_of parked.old.unit) parked.old.events
            → BeginsFull self.old parked.old.seat result }
        ensures only { IfErr result (λ e. (e ≡ GarageError.Stranger) ⊎ IsBeginRefusal e) }
        ensures err { OnErr result ((self.new ≡ self.old) × (parked.new ≡ parked.old)) }
        ensures lists { KeepsLists self.old self.new }
    {
        if !self.knows(parked) {
            return Err(GarageError::Stranger);
        }
        let begin = self.begin(alloc, parked.seat, &*parked.unit)?;
        parked.events = self.events_of(parked.seat);
        Ok(begin)
    }

    /// Lets a parked unit tell the journal that a turn of it is over.
    ///
    /// It takes its seat and is parked again. Its count of events is one more.
    ///
    /// Refused, in this order, and then nothing changed:
    /// - `Stranger` exactly if this garage has no live seat with its seat number, NAME and count of events;
    /// - `BookFull`;
    /// - `OutOfMemory`.
    #[tactic(auto, using(crate::proofs::Lists::lists_same, crate::proofs::Lists::lists_of_event))]
    pub fn let_turn(&mut self, parked: &mut Parked) -> Result<(), GarageError>
        requires { Unit {0} }
        ensures stranger { IsErrOf result GarageError.Stranger
            ↔ (¬ IsSeated self.old parked.old.seat (name_of parked.old.unit) parked.old.events) }
        ensures kept { (parked.new.seat ≡ parked.old.seat) × (parked.new.unit ≡ parked.old.unit) }
        ensures seated { IsSeated self.old parked.old.seat (name_of parked.old.unit) parked.old.events
            → IsSeated self.new parked.new.seat (name_of parked.new.unit) parked.new.events }
        ensures ok { OnOk result (Adds self.old (Turned parked.old.seat) self.new) }
        ensures counted { OnOk result (parked.new.events ≡ parked.old.events + 1) }
        ensures full { IsSeated self.old parked.old.seat (name_of parked.old.unit) parked.old.events
            → (IsErrOf result GarageError.BookFull ↔ IsFull self.old) }
        ensures only { IfErr result (λ e. (e ≡ GarageError.Stranger) ⊎ IsNoMemoryOrFull e) }
        ensures err { OnErr result ((self.new ≡ self.old) × (parked.new ≡ parked.old)) }
        ensures lists { KeepsLists self.old self.new }
    {
        if !self.knows(parked) {
            return Err(GarageError::Stranger);
        }
        self.turned(parked.seat)?;
        parked.events = self.events_of(parked.seat);
        Ok(())
    }

    /// Whether a parked unit has a live seat here.
    ///
    /// That is one with its seat number, NAME and count of events.
    pub(crate) fn knows(&self, parked: &Parked) -> bool
        ensures { IsTrue result ↔ IsSeated self.now parked.now.seat (name_of parked.now.unit) parked.now.events }
    {
        self.is_seated(parked.seat, parked.name(), parked.events)
    }
}
