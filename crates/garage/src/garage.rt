ghost use Rattle.std.specs.Prelude.{◌≡◌};

use crate::opening::Setting;
use bus_ledger::{Bus, Counts, MOST_STATIONS};
use can_frame::Frame;
use entry_lists::AllEntries;
use journal::{Journal, Tally};
use node_core::Node;
use station_table::Station;
use std::marker::Model;

/// A unit's place on the bus.
///
/// It has what the unit keeps there, the number of the message of its last session, and its own events.
#[derive(Drop)]
pub(crate) struct Place {
    pub(crate) node: Node,
    pub(crate) session_message: u32,
    pub(crate) tally: Tally,
}

/// A station: how it was opened, and what it knows.
#[derive(Drop)]
pub(crate) struct Post {
    pub(crate) setting: Setting,
    pub(crate) station: Station,
    // what it read of diagnostic messages
    pub(crate) lists: AllEntries,
}

/// The bus of one vehicle with its units and its stations, and its journal.
///
/// The journal has all that happened on the bus. Stations have numbers from 0 on. Calls whose names end in `_at` take a station's
/// number, which is to be below `stations()`; those of the same names without it speak of station 0.
///
/// Contracts see its settings and its journal; all else follows from these (`journal`).
#[derive(Drop)]
pub struct Garage {
    pub(crate) limit: u32,
    pub(crate) bus: Bus,
    // the stations, on the first seats, and how many they are
    pub(crate) posts: Vec<Post>,
    pub(crate) stations: u32,
    // the units, on the seats behind them
    pub(crate) places: Vec<Place>,
    pub(crate) begun: u32,
    pub(crate) live: u32,
    // how many frames came from outside
    pub(crate) injected: u32,
    pub(crate) journal: Journal,
}

impl Model for Garage {
    ghost use Rattle.journal.specs.Journal.{GarageValue};

    ghost Value = { GarageValue };

    ghost use Rattle.garage.specs.Inside.{garage_value_of, Stands};

    ghost view = { garage_value_of };

    ghost invariant = { Stands };
}

impl Garage {
    ghost use Rattle.std.specs.Prelude.{◌≡◌, ◌<◌, ◌≤◌, ◌+◌, length, slice_get, false, IfSome};
    ghost use Rattle.std.specs.List.{count_by};
    ghost use Rattle.std.specs.Option.{option_map};
    ghost use Rattle.bus_ledger.specs.BusValue.{seat_at};
    ghost use Rattle.bus_ledger.specs.Ledger.{counts_of, is_from};
    ghost use Rattle.bus_ledger.specs.Newcomers.{live_units};
    ghost use Rattle.bus_model.specs.LawfulTraffic.{IsLawfulTraffic};
    ghost use Rattle.journal.specs.Journal.{injected_of, state_of};
    ghost use Rattle.journal.specs.Promises.{IsFromOwner, IsLawful, wire_of};

    /// How many stations there are, 1 to 8. They have the seats below this number, and units those from it on.
    #[inline]
    pub fn stations(&self) -> u32
        ensures count { result ≡ length self.now.settings.stations }
        ensures some { 0 < length self.now.settings.stations }
        ensures few { length self.now.settings.stations ≤ MOST_STATIONS }
    {
        self.stations
    }

    /// The number of the first station. Each garage has one.
    #[inline(always)]
    pub(crate) fn first(&self) -> u32
        ensures number { result ≡ 0 }
        ensures there { 0 < length self.now.settings.stations }
    {
        let _ = self.stations();
        0
    }

    /// What became of the frames that a seat queued. None if the seat was never given.
    ///
    /// The frame ledger: each frame queued was carried, was withdrawn or waits.
    /// - Those carried are the seat's frames on the wire.
    /// - Those that wait stand in its queue, and none waits once the seat is gone.
    pub fn counts(&self, seat: u32) -> Option<Counts>
        ensures counts { result ≡ option_map counts_of (slice_get (state_of self.now).traffic.seats seat) }
        ensures balanced { IfSome result (λ c. c.queued ≡ c.carried + c.withdrawn + c.waiting) }
        ensures carried { IfSome result (λ c. c.carried ≡ count_by (is_from seat) (state_of self.now).traffic.wire) }
        ensures waiting { IfSome result (λ c. c.waiting ≡ length (seat_at (state_of self.now).traffic seat).queue) }
        ensures gone { (seat_at (state_of self.now).traffic seat).live ≡ false → IfSome result (λ c. c.waiting ≡ 0) }
    {
        self.bus.counts(seat)
    }

    /// How many events the journal holds.
    ///
    /// Whoever has a garage learns here that it is lawful: each event of its journal fits what came before, so every law of
    /// journals (`journal`) holds of it.
    pub fn events(&self) -> u32
        ensures count { result ≡ length self.now.journal }
        ensures lawful { IsLawful self.now }
    {
        self.journal.len()
    }

    /// How many units are live.
    pub fn live(&self) -> u32
        ensures { result ≡ live_units (state_of self.now).traffic }
    {
        self.live
    }

    /// How many frames stand on the wire.
    ///
    /// If none came from outside they are lawful traffic: each frame of a message is that part of it and comes from its seat, and
    /// the parts of messages stand in their order.
    #[tactic(auto, using(crate::proofs::Headline::wire_lawful))]
    pub fn wire_len(&self) -> u32
        ensures len { result ≡ length (state_of self.now).traffic.wire }
        ensures lawful { injected_of self.now.journal ≡ 0 → IsLawfulTraffic (state_of self.now).begun (wire_of (state_of self.now)) }
    {
        self.bus.wire_len()
    }

    /// The i-th frame on the wire, counted from 0.
    ///
    /// If none came from outside and it is a part of a message, the last claim of the message's source before it bears the NAME of
    /// its seat.
    #[tactic(auto, using(crate::proofs::Headline::frame_from_owner))]
    pub fn wire_frame(&self, i: u32) -> Option<Frame>
        ensures frame { result ≡ option_map (λ c. c.frame) (slice_get (state_of self.now).traffic.wire i) }
        ensures sender { injected_of self.now.journal ≡ 0 → IsFromOwner (state_of self.now) i }
    {
        self.bus.wire_frame(i)
    }
}
