ghost use Rattle.std.specs.Prelude.{◌≡◌, ◌⊎◌, ◌<◌, [], length, IfSome, IsSome, OnOk, slice_get};
ghost use Rattle.std.specs.Option.{option_map};
ghost use Rattle.journal.specs.Journal.{state_of};
ghost use Rattle.garage.specs.ParkedUnits.{asked_of, sitting_of};
ghost use Rattle.report.specs.Text.{report_at};
ghost use Rattle.script_run.specs.Commands.{ActsBy, Does, Joins, Leaves};
ghost use Rattle.script_run.specs.Lines.{Answered, BenchDoes, Showed, StationDoes};
ghost use Rattle.script_run.specs.Moves.{MovesByJoining};
ghost use Rattle.script_run.specs.Steps.{RunsRounds};
ghost use Rattle.script_run.specs.Queries.{counts_answer, query_answer};
ghost use Rattle.script_run.specs.Sinks.{IsToldSo};

use crate::answer_sink::AnswerSink;
use crate::garage_commands::{ask, carry, command_to, inject, read, run_rounds};
use crate::place::place_of;
use crate::unit_commands::carry_out;
use can_frame::Frame;
use garage::{Garage, GarageError, Parked};
use script_answer::{LineAnswer, Refusal, Unwritten};
use script_line::{Command, ScriptLine};
use std::alloc::Global;
use unit_trait::Unit;

/// A garage with its units, each parked between its steps, in the order of their seats.
pub(crate) struct Bench {
    alloc: Global,
    garage: Garage,
    units: Vec<Parked>,
}

impl Bench {
    /// This garage, with no unit yet. Takes no memory.
    pub(crate) fn new(alloc: Global, garage: Garage) -> Bench
        ensures garage { result.garage ≡ garage }
        ensures none { result.units.items ≡ [] }
    {
        Bench {
            alloc,
            garage,
            units: Vec::new(alloc),
        }
    }

    /// Puts a unit on the bus, which wants this address.
    pub(crate) fn join(&mut self, unit: Box<dyn Unit>, address: u8) -> Result<LineAnswer, Refusal>
        ensures joins { Joins (sitting_of (λ b. (⟦<dyn Unit as Unit>⟧ b.vtable).name_of b.value)
            (λ b. (⟦<dyn Unit as Unit>⟧ b.vtable).memory_of b.value))
            ((⟦<dyn Unit as Unit>⟧ unit.vtable).name_of unit.value) address result self.old.garage self.old.units.items
            self.new.garage self.new.units.items }
        ensures moves { MovesByJoining ((⟦<dyn Unit as Unit>⟧ unit.vtable).name_of unit.value) address result self.old.garage self.new.garage }
    {
        if self.units.reserve(1).is_err() {
            return Err(Refusal::Garage(GarageError::OutOfMemory));
        }
        match self.garage.mount(self.alloc, unit, address) {
            Ok(parked) => {
                let seat = parked.seat();
                self.units.push_reserved(parked);
                Ok(LineAnswer::Seat(seat))
            }
            Err((unit, error)) => {
                drop(unit);
                Err(Refusal::Garage(error))
            }
        }
    }

    /// Takes each unit off the bus.
    pub(crate) fn close(self) {
        let Bench {
            alloc: _,
            mut garage,
            mut units,
        } = self;
        while let Some(parked) = units.pop() {
            let _ = garage.dismiss(parked);
        }
        units.destroy_empty();
        drop(garage);
    }

    /// The frame of the wire with this number, from 0.
    pub(crate) fn frame(&self, index: u32) -> Option<Frame>
        ensures { result ≡ option_map (λ c. c.frame) (slice_get (state_of self.now.garage).traffic.wire index) }
    {
        self.garage.wire_frame(index)
    }

    /// Carries the command of a line out, and answers it. What is no command, and one of a station that is not there, is refused,
    /// and nothing is done.
    pub(crate) fn answer<L: AnswerSink>(
        &mut self,
        read: &Option<ScriptLine>,
        sink: &mut L,
    ) -> Result<(), Unwritten>
        ensures does { OnOk result (IsToldSo L.AnswerSink.takes (λ told. BenchDoes read.now self.old.garage told self.new.garage) sink.old sink.new) }
    {
        match read {
            Some(ScriptLine { station, command }) if *station < self.garage.stations() => {
                self.answer_at(*station, command, sink)
            }
            _ => sink.answer(Err(Refusal::BadLine)),
        }
    }

    /// Carries a command out; one of a station has this station do it.
    fn answer_at<L: AnswerSink>(
        &mut self,
        station: u32,
        command: &Command,
        sink: &mut L,
    ) -> Result<(), Unwritten>
        requires { station < length self.old.garage.settings.stations }
        ensures does { OnOk result (IsToldSo L.AnswerSink.takes (λ told. StationDoes station command.now self.old.garage told self.new.garage)
            sink.old sink.new) }
    {
        match command {
            Command::Shown {
                name: Ok(name),
                kind,
            } => sink.shown(self.garage.shown_at(station, *name, *kind)),
            Command::Report => self.report(station, sink),
            command => sink.answer(self.carry_out(station, command)),
        }
    }

    /// Tells the report of a station.
    fn report<L: AnswerSink>(&self, station: u32, sink: &mut L) -> Result<(), Unwritten>
        requires { station < length self.now.garage.settings.stations }
        ensures takes { OnOk result (IsToldSo L.AnswerSink.takes (λ told. (told ≡ Showed (report_at self.now.garage station))
            ⊎ (told ≡ Answered (Err (Refusal.Garage GarageError.OutOfMemory)))) sink.old sink.new) }
    {
        match self.garage.snapshot_at(self.alloc, station) {
            Ok(snapshot) => sink.report(&snapshot),
            Err(error) => sink.answer(Err(Refusal::Garage(error))),
        }
    }

    /// Carries a command out; one of a station has this station do it.
    fn carry_out(&mut self, station: u32, command: &Command) -> Result<LineAnswer, Refusal>
        requires { station < length self.old.garage.settings.stations }
        ensures query { IfSome (query_answer self.old.garage station command.now) (λ a. result ≡ a) }
        ensures same { IsSome (query_answer self.old.garage station command.now) → self.new ≡ self.old }
        ensures did { Does (sitting_of (λ b. (⟦<dyn Unit as Unit>⟧ b.vtable).name_of b.value)
            (λ b. (⟦<dyn Unit as Unit>⟧ b.vtable).memory_of b.value)) (asked_of (λ b. (⟦<dyn Unit as Unit>⟧ b.vtable).Answers b.value)) station command.now
            result self.old.garage self.old.units.items self.new.garage self.new.units.items }
    {
        match command {
            Command::Carry { most } => carry(&mut self.garage, *most),
            Command::Read { most } => read(&mut self.garage, self.alloc, station, *most),
            Command::Round { count } => self.round(*count),
            Command::Ask { receiver, asked } => {
                ask(&mut self.garage, self.alloc, station, *receiver, *asked)
            }
            Command::Command { name, address } => {
                command_to(&mut self.garage, self.alloc, station, *name, *address)
            }
            Command::Row { name } => Ok(LineAnswer::Row(self.garage.row_at(station, (*name)?))),
            Command::Counts { seat } => self.counts(*seat),
            Command::Stats => Ok(LineAnswer::Stats {
                missed: self.garage.missed_at(station),
                unread: self.garage.unread_at(station),
            }),
            Command::Inject { frame } => inject(&mut self.garage, *frame),
            Command::Injected => Ok(LineAnswer::Injected(self.garage.injected())),
            Command::Frame { index } => Ok(LineAnswer::Frame(self.garage.wire_frame(*index))),
            Command::Leave { seat } => self.dismiss(*seat),
            Command::Change { seat, .. } => self.act(*seat, command),
            Command::Lamps { seat, .. } => self.act(*seat, command),
            Command::Think { seat } => self.act(*seat, command),
            Command::Turn { seat } => self.act(*seat, command),
            Command::Hear { seat, .. } => self.act(*seat, command),
            Command::Dm1 { seat } => self.act(*seat, command),
            Command::Shown { name, .. } | Command::Join { name, .. } => {
                (*name)?;
                Err(Refusal::BadLine)
            }
            Command::Garage { .. } | Command::Garage2 { .. } | Command::Report => {
                Err(Refusal::BadLine)
            }
        }
    }

    fn counts(&self, seat: u32) -> Result<LineAnswer, Refusal>
        ensures { result ≡ counts_answer (slice_get (state_of self.now.garage).traffic.seats seat) }
    {
        match self.garage.counts(seat) {
            Some(counts) => Ok(LineAnswer::Counts(counts)),
            None => Err(Refusal::NoSeat),
        }
    }

    /// Carries out a command for the unit of a seat, where it stands. One that the garage does not know leaves the bench then, and is let go.
    fn act(&mut self, seat: u32, command: &Command) -> Result<LineAnswer, Refusal>
        ensures { ActsBy (sitting_of (λ b. (⟦<dyn Unit as Unit>⟧ b.vtable).name_of b.value)
            (λ b. (⟦<dyn Unit as Unit>⟧ b.vtable).memory_of b.value)) (asked_of (λ b. (⟦<dyn Unit as Unit>⟧ b.vtable).Answers b.value)) seat command.now
            result self.old.garage self.old.units.items self.new.garage self.new.units.items }
    {
        let Some(place) = place_of(self.units.as_slice(), seat) else {
            return Err(Refusal::NoSeat);
        };
        let answer = carry_out(
            self.alloc,
            &mut self.garage,
            &mut self.units[place],
            command,
        );
        if let Err(Refusal::Garage(GarageError::Stranger)) = answer {
            let stranger = self.units.remove(place);
            drop(self.garage.disown(stranger));
        }
        answer
    }

    /// Takes the unit of a seat off the bus.
    fn dismiss(&mut self, seat: u32) -> Result<LineAnswer, Refusal>
        ensures { Leaves (sitting_of (λ b. (⟦<dyn Unit as Unit>⟧ b.vtable).name_of b.value)
            (λ b. (⟦<dyn Unit as Unit>⟧ b.vtable).memory_of b.value)) seat result self.old.garage self.old.units.items self.new.garage
            self.new.units.items }
    {
        let Some(place) = place_of(self.units.as_slice(), seat) else {
            return Err(Refusal::NoSeat);
        };
        self.garage.dismiss(self.units.remove(place))?;
        Ok(LineAnswer::Done)
    }

    /// Runs rounds, so many at most, with all units.
    fn round(&mut self, most: u32) -> Result<LineAnswer, Refusal>
        ensures { RunsRounds (sitting_of (λ b. (⟦<dyn Unit as Unit>⟧ b.vtable).name_of b.value)
            (λ b. (⟦<dyn Unit as Unit>⟧ b.vtable).memory_of b.value)) (asked_of (λ b. (⟦<dyn Unit as Unit>⟧ b.vtable).Answers b.value)) most result
            self.old.garage self.old.units.items self.new.garage self.new.units.items }
    {
        run_rounds(&mut self.garage, self.alloc, &mut self.units, most)
    }
}
