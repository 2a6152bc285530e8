ghost use Rattle.std.specs.Prelude.{◌≡◌, ◌≢◌, ◌≤◌, ◌<◌, ◌⊎◌, ◌↔◌, length, Result, Some, Err, IfOk, IsSome, IsNone, IsErrOf, IsOkUnless, OnOk, OnErr, IfErr};
ghost use Rattle.can_frame.specs.declared.address.TheConstants.{GREATEST_ADDRESS};
ghost use Rattle.station_table.specs.declared.error.StationError.{StationError as AnyRefusal};
ghost use Rattle.journal.specs.declared.order.Order.TheVariants as order;
ghost use Rattle.garage.specs.Refusals.{of_station};

use crate::error::GarageError;
use crate::garage::Garage;
use crate::queueing::react;
use crate::room::check_room;
use journal::Order;
use name_field::Name;
use station_table::{Ask, Reaction, StationError};
use std::alloc::Global;

/// The most frames that a station puts at an order.
///
/// A command is an announcement and two packets.
const MOST_ORDERED: usize = 3;

impl Garage {
    ghost use Rattle.journal.specs.Journal.{state_of, Adds, known_address, known_address_at, own_address, own_address_at};
    ghost use Rattle.journal.specs.Promises.{KeepsLists};
    ghost use Rattle.journal.specs.State.{table_at};
    ghost use Rattle.journal.specs.declared.event.Event.TheVariants.{Ordered};
    ghost use Rattle.garage.specs.Obeying.{Obeys};
    ghost use Rattle.garage.specs.Room.{IsFull};

    /// Has station 0 ask the unit of a NAME, as `ask_at` says.
    pub fn ask(&mut self, alloc: Global, name: Name, ask: Ask) -> Result<(), GarageError>
        ensures ok { OnOk result (Adds self.old (Ordered 0 (order.Ask name ask)) self.new) }
        ensures not_held { IsErrOf result GarageError.NotHeld ↔ IsNone (own_address self.old) }
        ensures no_address { IsErrOf result GarageError.NoAddress
            ↔ (IsSome (own_address self.old) × IsNone (known_address self.old name)) }
        ensures full { IsErrOf result GarageError.BookFull
            ↔ (IsSome (own_address self.old) × IsSome (known_address self.old name) × IsFull self.old) }
        ensures only { IfErr result (λ e. (e ≡ GarageError.NotHeld) ⊎ (e ≡ GarageError.NoAddress) ⊎ (e ≡ GarageError.BookFull)
            ⊎ (e ≡ GarageError.OutOfMemory)) }
        ensures err { OnErr result (self.new ≡ self.old) }
        ensures lists { KeepsLists self.old self.new }
    {
        let first = self.first();
        self.ask_at(alloc, first, name, ask)
    }

    /// Has a station ask the unit of a NAME.
    ///
    /// Refused, in this order, and then nothing changed:
    /// - `NotHeld` if the station holds no address;
    /// - `NoAddress` if it knows none of that NAME;
    /// - `BookFull`;
    /// - `OutOfMemory`.
    #[tactic(auto, using(crate::proofs::OrderLemmas::obeys_ask))]
    pub fn ask_at(
        &mut self,
        alloc: Global,
        station: u32,
        name: Name,
        ask: Ask,
    ) -> Result<(), GarageError>
        requires { station < length self.old.settings.stations }
        ensures ok { OnOk result (Adds self.old (Ordered station (order.Ask name ask)) self.new) }
        ensures not_held { IsErrOf result GarageError.NotHeld ↔ IsNone (own_address_at self.old station) }
        ensures no_address { IsErrOf result GarageError.NoAddress
            ↔ (IsSome (own_address_at self.old station) × IsNone (known_address_at self.old station name)) }
        ensures full { IsErrOf result GarageError.BookFull
            ↔ (IsSome (own_address_at self.old station) × IsSome (known_address_at self.old station name) × IsFull self.old) }
        ensures only { IfErr result (λ e. (e ≡ GarageError.NotHeld) ⊎ (e ≡ GarageError.NoAddress) ⊎ (e ≡ GarageError.BookFull)
            ⊎ (e ≡ GarageError.OutOfMemory)) }
        ensures err { OnErr result (self.new ≡ self.old) }
        ensures lists { KeepsLists self.old self.new }
    {
        let order = to_ask(name, &ask);
        let answer = self.posts[station as usize].station.ask(alloc, name, ask);
        self.obey(station, order, answer)
    }

    /// Has station 0 ask all, as `ask_all_at` says.
    pub fn ask_all(&mut self, alloc: Global, ask: Ask) -> Result<(), GarageError>
        ensures ok { OnOk result (Adds self.old (Ordered 0 (order.AskAll ask)) self.new) }
        ensures not_held { IsErrOf result GarageError.NotHeld ↔ IsNone (own_address self.old) }
        ensures full { IsErrOf result GarageError.BookFull ↔ (IsSome (own_address self.old) × IsFull self.old) }
        ensures only { IfErr result (λ e. (e ≡ GarageError.NotHeld) ⊎ (e ≡ GarageError.BookFull) ⊎ (e ≡ GarageError.OutOfMemory)) }
        ensures err { OnErr result (self.new ≡ self.old) }
        ensures lists { KeepsLists self.old self.new }
    {
        let first = self.first();
        self.ask_all_at(alloc, first, ask)
    }

    /// Has a station ask all.
    ///
    /// Refused, in this order, and then nothing changed:
    /// - `NotHeld` if the station holds no address;
    /// - `BookFull`;
    /// - `OutOfMemory`.
    #[tactic(auto, using(crate::proofs::OrderLemmas::obeys_ask_all))]
    pub fn ask_all_at(&mut self, alloc: Global, station: u32, ask: Ask) -> Result<(), GarageError>
        requires { station < length self.old.settings.stations }
        ensures ok { OnOk result (Adds self.old (Ordered station (order.AskAll ask)) self.new) }
        ensures not_held { IsErrOf result GarageError.NotHeld ↔ IsNone (own_address_at self.old station) }
        ensures full { IsErrOf result GarageError.BookFull ↔ (IsSome (own_address_at self.old station) × IsFull self.old) }
        ensures only { IfErr result (λ e. (e ≡ GarageError.NotHeld) ⊎ (e ≡ GarageError.BookFull) ⊎ (e ≡ GarageError.OutOfMemory)) }
        ensures err { OnErr result (self.new ≡ self.old) }
        ensures lists { KeepsLists self.old self.new }
    {
        let order = to_ask_all(&ask);
        let answer = self.posts[station as usize].station.ask_all(alloc, ask);
        self.obey(station, order, answer)
    }

    /// Has station 0 command the unit of a NAME, as `command_at` says.
    pub fn command(&mut self, alloc: Global, name: Name, address: u8) -> Result<(), GarageError>
        ensures ok { OnOk result (Adds self.old (Ordered 0 (order.Command name address)) self.new) }
        ensures not_an_address { IsErrOf result GarageError.NotAnAddress ↔ (GREATEST_ADDRESS < address) }
        ensures not_held { IsErrOf result GarageError.NotHeld ↔ ((address ≤ GREATEST_ADDRESS) × IsNone (own_address self.old)) }
        ensures full { IsErrOf result GarageError.BookFull
            ↔ ((address ≤ GREATEST_ADDRESS) × IsSome (own_address self.old) × IsFull self.old) }
        ensures only { IfErr result (λ e. (e ≡ GarageError.NotAnAddress) ⊎ (e ≡ GarageError.NotHeld) ⊎ (e ≡ GarageError.BookFull)
            ⊎ (e ≡ GarageError.OutOfMemory)) }
        ensures err { OnErr result (self.new ≡ self.old) }
        ensures lists { KeepsLists self.old self.new }
    {
        let first = self.first();
        self.command_at(alloc, first, name, address)
    }

    /// Has a station command the unit of a NAME to hold an address.
    ///
    /// Refused, in this order, and then nothing changed:
    /// - `NotAnAddress` for 254 and 255;
    /// - `NotHeld` if the station holds no address;
    /// - `BookFull`;
    /// - `OutOfMemory`.
    #[tactic(auto, using(crate::proofs::OrderLemmas::obeys_command))]
    pub fn command_at(
        &mut self,
        alloc: Global,
        station: u32,
        name: Name,
        address: u8,
    ) -> Result<(), GarageError>
        requires { station < length self.old.settings.stations }
        ensures ok { OnOk result (Adds self.old (Ordered station (order.Command name address)) self.new) }
        ensures not_an_address { IsErrOf result GarageError.NotAnAddress ↔ (GREATEST_ADDRESS < address) }
        ensures not_held { IsErrOf result GarageError.NotHeld
            ↔ ((address ≤ GREATEST_ADDRESS) × IsNone (own_address_at self.old station)) }
        ensures full { IsErrOf result GarageError.BookFull
            ↔ ((address ≤ GREATEST_ADDRESS) × IsSome (own_address_at self.old station) × IsFull self.old) }
        ensures only { IfErr result (λ e. (e ≡ GarageError.NotAnAddress) ⊎ (e ≡ GarageError.NotHeld) ⊎ (e ≡ GarageError.BookFull)
            ⊎ (e ≡ GarageError.OutOfMemory)) }
        ensures err { OnErr result (self.new ≡ self.old) }
        ensures lists { KeepsLists self.old self.new }
    {
        let order = Order::Command { name, address };
        let answer = self.posts[station as usize]
            .station
            .command(alloc, name, address);
        self.obey(station, order, answer)
    }

    /// Queues what a station sends, or refuses as the station does.
    #[tactic(auto, using(crate::proofs::Lists::lists_same, crate::proofs::Lists::lists_added))]
    fn obey(
        &mut self,
        station: u32,
        order: Order,
        answer: Result<Reaction, StationError>,
    ) -> Result<(), GarageError>
        requires station { station < length self.old.settings.stations }
        requires obeys { IfOk answer (Obeys (table_at (state_of self.old) station) order) }
        ensures ok { OnOk result (Adds self.old (Ordered station order) self.new) }
        ensures refused { (e : AnyRefusal) → e ≢ StationError.OutOfMemory → ((result ≡ Err (of_station e)) ↔ (answer ≡ Err e)) }
        ensures full { IsErrOf result GarageError.BookFull ↔ (IsOkUnless answer StationError.OutOfMemory × IsFull self.old) }
        ensures only { IfErr result (λ e. (e ≡ GarageError.BookFull) ⊎ (e ≡ GarageError.OutOfMemory)
            ⊎ ((s : AnyRefusal) × (answer ≡ Err s) × (e ≡ of_station s))) }
        ensures err { OnErr result (self.new ≡ self.old) }
        ensures lists { KeepsLists self.old self.new }
    {
        let reaction = match answer {
            Ok(reaction) => reaction,
            Err(StationError::OutOfMemory) => {
                check_room(&self.journal, self.live + 1, self.limit)?;
                return Err(GarageError::OutOfMemory);
            }
            Err(refusal) => return Err(GarageError::from(refusal)),
        };
        check_room(&self.journal, self.live + 1, self.limit)?;
        self.bus.reserve(station, MOST_ORDERED)?;
        react(&mut self.bus, station, &reaction);
        self.journal.note_order(station, order);
        Ok(())
    }
}

fn to_ask(name: Name, ask: &Ask) -> Order
    ensures { result ≡ order.Ask name ask.now }
{
    Order::Ask { name, ask: *ask }
}

fn to_ask_all(ask: &Ask) -> Order
    ensures { result ≡ order.AskAll ask.now }
{
    Order::AskAll { ask: *ask }
}
