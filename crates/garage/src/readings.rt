ghost use Rattle.std.specs.Prelude.{◌≡◌, ◌≢◌, ◌<◌, ◌^◌, ◌↔◌, length, Ok, IfOk, IfErr, IsErrOf, OnErr, OnOk};
ghost use Rattle.bus_ledger.specs.Reception.{next_reading};
ghost use Rattle.journal.specs.Journal.{state_of};
ghost use Rattle.journal.specs.Promises.{KeepsLists};
ghost use Rattle.garage.specs.Answers.{Reads};
ghost use Rattle.garage.specs.Calls.{IsNoMemoryOrFull};
ghost use Rattle.garage.specs.Room.{IsFull};

use crate::error::GarageError;
use crate::garage::Garage;
use crate::queueing::react;
use crate::room::check_room;
use can_frame::Reading;
use station_table::Outcome;
use std::alloc::Global;

/// The most frames that a station puts at a reading: its claim and a request.
const MOST_ANSWERS: usize = 2;

impl Garage {
    /// Station 0 takes its next reading, as `read_at` says.
    #[inline]
    pub fn read(&mut self, alloc: Global) -> Result<Reading, GarageError>
        ensures ok { IfOk result (λ r. Reads 0 self.old r self.new) }
        // Readings end by this count.
        ensures few { length self.old.journal < 2 ^ 32 }
        ensures empty { (result ≡ Ok Reading.Empty) ↔ (next_reading (state_of self.old).traffic 0 ≡ Reading.Empty) }
        ensures full { IsErrOf result GarageError.BookFull
            ↔ ((next_reading (state_of self.old).traffic 0 ≢ Reading.Empty) × IsFull self.old) }
        ensures only { IfErr result IsNoMemoryOrFull }
        ensures err { OnErr result (self.new ≡ self.old) }
        ensures lists { KeepsLists self.old self.new }
    {
        let first = self.first();
        self.read_at(alloc, first)
    }

    /// Has a station take its next reading.
    ///
    /// - If it is empty, there is no event.
    /// - Else refused: `BookFull`, then `OutOfMemory`. Then nothing changed.
    #[inline]
    #[tactic(auto, using(crate::proofs::Lists::lists_same, crate::proofs::Lists::few_events))]
    pub fn read_at(&mut self, alloc: Global, station: u32) -> Result<Reading, GarageError>
        requires { station < length self.old.settings.stations }
        ensures ok { IfOk result (λ r. Reads station self.old r self.new) }
        // Readings end by this count.
        ensures few { length self.old.journal < 2 ^ 32 }
        ensures empty { (result ≡ Ok Reading.Empty) ↔ (next_reading (state_of self.old).traffic station ≡ Reading.Empty) }
        ensures full { IsErrOf result GarageError.BookFull
            ↔ ((next_reading (state_of self.old).traffic station ≢ Reading.Empty) × IsFull self.old) }
        ensures only { IfErr result IsNoMemoryOrFull }
        ensures err { OnErr result (self.new ≡ self.old) }
        ensures lists { KeepsLists self.old self.new }
    {
        if self.bus.is_tap_empty_at(station) {
            return Ok(Reading::Empty);
        }
        let reading = self.bus.tap_peek_at(station);
        self.take_reading(alloc, station, &reading)?;
        Ok(reading)
    }

    /// Has a station take this reading, which is its next one and not empty.
    ///
    /// Refused: `BookFull`, then `OutOfMemory`. Then nothing changed.
    #[inline(never)]
    #[tactic(auto, using(crate::proofs::Lists::lists_same, crate::proofs::Lists::lists_added))]
    fn take_reading(
        &mut self,
        alloc: Global,
        station: u32,
        reading: &Reading,
    ) -> Result<(), GarageError>
        requires station { station < length self.old.settings.stations }
        requires next { reading.now ≡ next_reading (state_of self.old).traffic station }
        requires some { reading.now ≢ Reading.Empty }
        ensures ok { OnOk result (Reads station self.old reading.now self.new) }
        ensures full { IsErrOf result GarageError.BookFull ↔ IsFull self.old }
        ensures only { IfErr result IsNoMemoryOrFull }
        ensures err { OnErr result (self.new ≡ self.old) }
        ensures lists { KeepsLists self.old self.new }
    {
        check_room(&self.journal, self.live + 1, self.limit)?;
        self.bus.reserve(station, MOST_ANSWERS)?;
        let post = &mut self.posts[station as usize];
        let Outcome { reaction, .. } = post.station.take(alloc, *reading, &mut post.lists)?;
        self.bus.tap_pass_at(station);
        react(&mut self.bus, station, &reaction);
        self.journal.note_read(station, *reading);
        Ok(())
    }
}
