ghost use Rattle.std.specs.Prelude.{◌≡◌, ◌<◌, ◌≤◌, ◌+◌, ◌^◌, ◌↔◌, ◌⊎◌, false, true, IfOk, IfErr, IsErr, IsErrOf, IsNone, IsSome, IsTrue, None, OnErr, OnOk, Some, length};
ghost use Rattle.std.specs.Borrow.{sem, RestsIfErr};
ghost use Rattle.bus_ledger.specs.BusValue.{IsUnit};
ghost use Rattle.fault_memory.specs.Changes.{changed, Grows};
ghost use Rattle.fault_memory.specs.declared.error.FaultError.{FaultError as AnyFault};
ghost use Rattle.journal.specs.Journal.{state_of, tally_of, Adds, IsSeated};
ghost use Rattle.journal.specs.Promises.{IsLawful, KeepsLists};
ghost use Rattle.journal.specs.declared.event.Event.TheVariants.{Join, Turned, Leave};
ghost use Rattle.garage.specs.Answers.{Hears, Begins, counted_hearing, counted_beginning};
ghost use Rattle.garage.specs.Calls.{BeginsFull, BeginsHeld, BeginsUnclaimed, HasNameInUse, HasNoRoomFor, HasTooMany, HearsFull, HearsNothing, IsBeginRefusal, IsNoMemoryOrFull};
ghost use Rattle.garage.specs.Refusals.{IsJoinRefusal};
ghost use Rattle.garage.specs.Room.{IsFull};
ghost use Rattle.garage.specs.contracts.garage.Garage.{the_row};

use crate::answers::{Begin, HeardOne};
use crate::error::GarageError;
use crate::garage::Garage;
use can_frame::GREATEST_ADDRESS;
use fault_memory::{FaultChange, FaultError, FaultMemory};
use name_field::Name;
use std::alloc::Global;
use unit_trait::Unit;

/// A boxed unit with its seat, between steps.
///
/// It must be spent: by `Garage::attach` or `dismiss`, or by `Garage::disown` if it has no seat there.
pub struct Parked {
    pub(crate) unit: Box<dyn Unit>,
    pub(crate) seat: u32,
    pub(crate) events: u32,
}

/// A boxed unit in its seat.
///
/// It borrows the garage, which has a live seat with this number, NAME and count of events. If it is dropped the box is dropped
/// too, and the unit leaves the bus: its queued frames are withdrawn and counted, and the seat is gone.
pub struct Plug<'a, B = Box<dyn Unit>> {
    garage: &'a mut Garage,
    unit: B,
    seat: u32,
    name: Name,
    events: u32,
    pub ghost seated: { IsSeated garage.now seat name events },
}

impl Parked {
    /// The number of its seat.
    pub fn seat(&self) -> u32
        ensures { result ≡ self.now.seat }
    {
        self.seat
    }

    /// How many events of its own it has in the journal of its garage.
    pub fn events(&self) -> u32
        ensures { result ≡ self.now.events }
    {
        self.events
    }

    /// The unit's NAME.
    pub fn name(&self) -> Name
        ensures { result ≡ name_of self.now.unit }
    {
        name_in(&self.unit)
    }

    /// The unit's fault memory.
    pub fn memory(&self) -> &FaultMemory
        ensures { result.now ≡ memory_of self.now.unit }
    {
        self.unit.memory()
    }

    /// Lets the unit do its own work, by one call of its `think`. It keeps its NAME.
    pub fn think(&mut self)
        requires { Unit {0} }
        ensures name { name_of self.new.unit ≡ name_of self.old.unit }
        ensures seat { self.new.seat ≡ self.old.seat }
        ensures events { self.new.events ≡ self.old.events }
        ensures works { (u : _) × (self.new.unit ≡ record self.old.unit { value = u }) × Works self.old.unit u }
    {
        self.unit.think();
    }

    /// Tells the unit of a change of its fault memory, by one `apply`.
    ///
    /// Refused as the memory refuses it. Then the memory is as it was.
    pub fn apply(&mut self, change: FaultChange) -> Result<(), FaultError>
        requires { Unit {0} }
        ensures name { name_of self.new.unit ≡ name_of self.old.unit }
        ensures seat { self.new.seat ≡ self.old.seat }
        ensures events { self.new.events ≡ self.old.events }
        ensures ok { OnOk result (changed (memory_of self.old.unit) change ≡ Ok (memory_of self.new.unit)) }
        ensures refused { (e : AnyFault) → changed (memory_of self.old.unit) change ≡ Err e → result ≡ Err e }
        ensures why { IfErr result (λ e. ((e ≡ FaultError.OutOfMemory)
            × Grows (changed (memory_of self.old.unit) change) (memory_of self.old.unit))
            ⊎ (changed (memory_of self.old.unit) change ≡ Err e)) }
        ensures err { OnErr result (memory_of self.new.unit ≡ memory_of self.old.unit) }
        ensures takes { (u : _) × (self.new.unit ≡ record self.old.unit { value = u }) × Takes self.old.unit change u }
    {
        self.unit.apply(change)
    }
}

/// The NAME of a boxed unit.
fn name_in(unit: &Box<dyn Unit>) -> Name
    ensures { result ≡ name_of unit.now }
{
    unit.name()
}

impl Garage {
    /// Gives a boxed unit a seat, and queues its claim of the wanted address.
    ///
    /// Refused, in this order, and then nothing changed and the box comes back:
    /// - `NotAnAddress` above 253;
    /// - `NameInUse` if a live seat has the NAME, a station's included;
    /// - `TooManySeats` if 64 units are live;
    /// - `BookFull`;
    /// - `OutOfMemory`.
    pub fn mount(
        &mut self,
        alloc: Global,
        unit: Box<dyn Unit>,
        want: u8,
    ) -> Result<Parked, (Box<dyn Unit>, GarageError)>
        requires { Unit {0} }
        ensures ok { IfOk result (λ p. Adds self.old (Join p.seat (name_of unit) want) self.new × (p.unit ≡ unit)
            × (p.seat ≡ length (state_of self.old).traffic.seats) × IsSeated self.new p.seat (name_of unit) p.events) }
        ensures not_an_address { (result ≡ Err (unit, GarageError.NotAnAddress)) ↔ (GREATEST_ADDRESS < want) }
        ensures name_in_use { (result ≡ Err (unit, GarageError.NameInUse))
            ↔ ((want ≤ GREATEST_ADDRESS) × HasNameInUse self.old (name_of unit)) }
        ensures too_many { (result ≡ Err (unit, GarageError.TooManySeats))
            ↔ ((want ≤ GREATEST_ADDRESS) × HasTooMany self.old (name_of unit)) }
        ensures full { (result ≡ Err (unit, GarageError.BookFull))
            ↔ ((want ≤ GREATEST_ADDRESS) × HasNoRoomFor self.old (name_of unit)) }
        ensures only { IfErr result (λ e. (e.1 ≡ GarageError.NotAnAddress) ⊎ IsJoinRefusal e.1) }
        ensures err { IfErr result (λ e. (e.0 ≡ unit) × (self.new ≡ self.old)) }
        ensures lists { KeepsLists self.old self.new }
    {
        if want > GREATEST_ADDRESS {
            return Err((unit, GarageError::NotAnAddress));
        }
        let name = name_in(&unit);
        match self.join(alloc, name, want) {
            Ok(seat) => Ok(Parked {
                unit,
                seat,
                events: 1,
            }),
            Err(error) => Err((unit, error)),
        }
    }

    /// Whether this garage has a live seat with this number, NAME and count of events.
    #[tactic(auto, using(crate::proofs::Standing::seat_low, crate::proofs::Standing::bus_low))]
    pub(crate) fn is_seated(&self, seat: u32, name: Name, events: u32) -> bool
        ensures seated { IsTrue result ↔ IsSeated self.now seat name events }
        ensures low { IsTrue result → 1 ≤ seat }
    {
        match self.bus.unit_name(seat) {
            Some(owner) => owner == name && self.events_of(seat) == events,
            None => false,
        }
    }

    /// How many events of its own a live unit has.
    #[inline(always)]
    #[tactic(auto, using(crate::proofs::Standing::seat_low, crate::proofs::Standing::seat_placed, crate::proofs::Standing::place_told))]
    pub(crate) fn events_of(&self, seat: u32) -> u32
        requires { IsUnit (state_of self.now).traffic seat }
        ensures count { result ≡ (tally_of seat self.now.journal).events }
        ensures lawful { IsLawful self.now }
    {
        self.places[(seat - self.stations) as usize].tally.events
    }

    /// Puts a unit into its seat.
    ///
    /// Refused with `Stranger` exactly if this garage has no live seat with its seat number, NAME and count of events; the
    /// unit comes back. Takes no memory.
    #[tactic(auto, using(crate::proofs::Lists::lists_same))]
    pub fn attach(&mut self, parked: Parked) -> Result<Plug<'_>, (Parked, GarageError)>
        requires { Unit {0} }
        ensures stranger { IsErr result ↔ (¬ IsSeated self.entry.now parked.seat (name_of parked.unit) parked.events) }
        ensures ok { IfOk result (λ p. (p.garage.ghost_name ≡ self.entry.ghost_name) × (p.garage.now ≡ self.entry.now)
            × (p.unit ≡ parked.unit) × (p.name ≡ name_of parked.unit) × (p.seat ≡ parked.seat) × (p.events ≡ parked.events)) }
        ensures err { IfErr result (λ e. (e.0 ≡ parked) × (e.1 ≡ GarageError.Stranger)) }
        ensures lists { IfOk result (λ p. KeepsLists self.entry.now p.garage.now) }
        ensures* rests { sem 𝓛 (RestsIfErr the_row self.entry (λ p. p.garage.ghost_name) result (λ g. g ≡ self.old)) }
    {
        let name = parked.name();
        if !self.is_seated(parked.seat, name, parked.events) {
            return Err((parked, GarageError::Stranger));
        }
        let Parked { unit, seat, events } = parked;
        Ok(Plug {
            garage: self,
            unit,
            seat,
            name,
            events,
        })
    }

    /// Gives back the box of a unit that has no seat here. Takes no memory.
    ///
    /// A refused `attach` tells that it has none.
    pub fn disown(&self, parked: Parked) -> Box<dyn Unit>
        requires { ¬ IsSeated self.now parked.seat (name_of parked.unit) parked.events }
        ensures { result ≡ parked.unit }
    {
        let Parked {
            unit,
            seat: _,
            events: _,
        } = parked;
        unit
    }

    /// Takes a unit off the bus and lets it go. Takes no memory.
    ///
    /// The unit takes its seat, and its plug is dropped. Refused with `Stranger` exactly if `attach` is: then nothing changed, but
    /// the unit is let go too.
    #[tactic(auto, using(crate::proofs::Lists::lists_same))]
    pub fn dismiss(&mut self, parked: Parked) -> Result<(), GarageError>
        ensures stranger { IsErr result ↔ (¬ IsSeated self.old parked.seat (name_of parked.unit) parked.events) }
        ensures ok { OnOk result (Adds self.old (Leave parked.seat) self.new) }
        ensures err { IfErr result (λ e. (e ≡ GarageError.Stranger) × (self.new ≡ self.old)) }
        ensures lists { KeepsLists self.old self.new }
    {
        let (parked, error) = match self.attach(parked) {
            Ok(plug) => {
                drop(plug);
                return Ok(());
            }
            Err(refusal) => refusal,
        };
        drop(self.disown(parked));
        Err(error)
    }
}

impl<'a> Plug<'a> {
    /// How many events of its own the unit has in the journal of the garage.
    ///
    /// Whoever has a plug learns here that its unit is seated, and that the garage is lawful.
    pub fn events(&self) -> u32
        ensures count { result ≡ self.now.events }
        ensures seated { IsSeated self.now.garage.now self.now.seat self.now.name self.now.events }
        ensures lawful { IsLawful self.now.garage.now }
    {
        self.garage.events_of(self.seat)
    }

    /// Whether the unit wants to begin a DM1.
    pub fn wants_dm1(&self) -> bool
        ensures { result ≡ wants self.now.unit }
    {
        self.unit.wants_dm1()
    }

    /// Lets the unit hear its next frame, if there is one.
    ///
    /// - It is asked exactly what the frame puts to it (to clear, or to hold a commanded address), in one call, and is else as it
    ///   was.
    /// - Its count of events is then one more.
    /// - Refused if there is a frame: `BookFull`, then `OutOfMemory`. Then nothing changed, and the unit was not asked.
    #[tactic(auto, using(crate::proofs::Lists::lists_same, crate::proofs::Lists::lists_heard))]
    pub fn hear(&mut self, alloc: Global) -> Result<HeardOne, GarageError>
        requires { Unit {0} }
        ensures same { self.new.garage.ghost_name ≡ self.old.garage.ghost_name }
        ensures kept { (self.new.seat ≡ self.old.seat) × (self.new.name ≡ self.old.name)
            × (name_of self.new.unit ≡ name_of self.old.unit) }
        ensures ok { IfOk result (λ h. (u : _) × (self.new.unit ≡ record self.old.unit { value = u })
            × Hears self.old.garage.now self.old.seat (memory_of self.old.unit) (Answers self.old.unit) self.old.unit.value h
            self.new.garage.now (memory_of self.new.unit) u) }
        ensures counted { IfOk result (λ h. self.new.events ≡ counted_hearing self.old.events h) }
        // Hearing ends by this count.
        ensures few { OnOk result (self.new.events < 2 ^ 32) }
        ensures nothing { HearsNothing self.old.garage.now self.old.seat result }
        ensures full { HearsFull self.old.garage.now self.old.seat result }
        ensures only { IfErr result IsNoMemoryOrFull }
        ensures err { OnErr result ((self.new.garage.now ≡ self.old.garage.now) × (self.new.events ≡ self.old.events)) }
        ensures unasked { OnErr result (self.new.unit ≡ self.old.unit) }
        ensures lists { KeepsLists self.old.garage.now self.new.garage.now }
    {
        let heard = self.garage.hear(alloc, self.seat, &mut *self.unit)?;
        self.events = self.garage.events_of(self.seat);
        Ok(heard)
    }

    /// Begins a DM1 of the unit's memory, to all.
    ///
    /// If it began, the unit's count of events is one more.
    ///
    /// Refused, in this order, and then nothing changed:
    /// - `Unclaimed` if the unit holds no address;
    /// - if no session of a DM1 is open, `BookFull`, then `OutOfMemory`.
    #[tactic(auto, using(crate::proofs::Lists::lists_same, crate::proofs::Lists::lists_begun))]
    pub fn begin_dm1(&mut self, alloc: Global) -> Result<Begin, GarageError>
        requires { Unit {0} }
        ensures same { self.new.garage.ghost_name ≡ self.old.garage.ghost_name }
        ensures kept { (self.new.seat ≡ self.old.seat) × (self.new.name ≡ self.old.name) × (self.new.unit ≡ self.old.unit) }
        ensures ok { IfOk result (λ b. Begins self.old.garage.now self.old.seat (memory_of self.old.unit) b self.new.garage.now) }
        ensures counted { IfOk result (λ b. self.new.events ≡ counted_beginning self.old.events b) }
        ensures unclaimed { BeginsUnclaimed self.old.garage.now self.old.seat result }
        ensures held { BeginsHeld self.old.garage.now self.old.seat result }
        ensures full { BeginsFull self.old.garage.now self.old.seat result }
        ensures only { IfErr result IsBeginRefusal }
        ensures err { OnErr result ((self.new.garage.now ≡ self.old.garage.now) × (self.new.events ≡ self.old.events)) }
        ensures lists { KeepsLists self.old.garage.now self.new.garage.now }
    {
        let begin = self.garage.begin(alloc, self.seat, &*self.unit)?;
        self.events = self.garage.events_of(self.seat);
        Ok(begin)
    }

    /// Tells the journal that a turn of the unit is over.
    ///
    /// The unit's count of events is one more. Refused: `BookFull`, then `OutOfMemory`. Then nothing changed.
    #[tactic(auto, using(crate::proofs::Lists::lists_same, crate::proofs::Lists::lists_of_event))]
    pub fn turn(&mut self) -> Result<(), GarageError>
        requires { Unit {0} }
        ensures same { self.new.garage.ghost_name ≡ self.old.garage.ghost_name }
        ensures kept { (self.new.seat ≡ self.old.seat) × (self.new.name ≡ self.old.name) × (self.new.unit ≡ self.old.unit) }
        ensures ok { OnOk result (Adds self.old.garage.now (Turned self.old.seat) self.new.garage.now) }
        ensures counted { OnOk result (self.new.events ≡ self.old.events + 1) }
        ensures full { IsErrOf result GarageError.BookFull ↔ IsFull self.old.garage.now }
        ensures only { IfErr result IsNoMemoryOrFull }
        ensures err { OnErr result ((self.new.garage.now ≡ self.old.garage.now) × (self.new.events ≡ self.old.events)) }
        ensures lists { KeepsLists self.old.garage.now self.new.garage.now }
    {
        self.garage.turned(self.seat)?;
        self.events = self.garage.events_of(self.seat);
        Ok(())
    }

    /// Takes the unit out of its seat, which stays. Takes no memory.
    ///
    /// The garage has a live seat with the number, the NAME and the count of what is parked, so `attach` gives it back.
    pub fn detach(self) -> Parked
        requires { Unit {0} }
        ensures parked { (result.unit ≡ self.entry.unit) × (result.seat ≡ self.entry.seat) × (result.events ≡ self.entry.events) }
        ensures garage { self.exit.0.now ≡ self.entry.garage.now }
        ensures seated { IsSeated self.exit.0.now result.seat self.entry.name result.events }
    {
        let Plug {
            garage: _,
            unit,
            seat,
            name: _,
            events,
        } = self;
        Parked { unit, seat, events }
    }
}

impl<B: Drop> Drop for Plug<'_, B> {
    /// The unit leaves. Takes no memory and no lock.
    fn drop(self)
        ensures adds { Adds self.entry.garage.now (Leave self.entry.seat) self.exit.0.now }
        ensures lists { KeepsLists self.entry.garage.now self.exit.0.now }
    {
        let seat = self.seat;
        self.garage.leave(seat);
        let Plug {
            garage: _,
            unit,
            seat: _,
            name: _,
            events: _,
        } = self;
        drop(unit);
    }
}
