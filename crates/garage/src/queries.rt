ghost use Rattle.std.specs.Prelude.{◌≡◌, ◌+◌, ◌<◌, ◌≤◌, ◌⊎◌, length};
ghost use Rattle.entry_lists.specs.KeptValue.{kept_under};
ghost use Rattle.std.specs.Option.{option_map};
ghost use Rattle.bus_model.specs.Heard.{row_heard};
ghost use Rattle.entry_lists.specs.KnownRows.{row_of, row_heard_as};
ghost use Rattle.journal.specs.Journal.{joins, readings_at, readings_of, state_of, tally_of};
ghost use Rattle.journal.specs.State.{table_at};
ghost use Rattle.journal.specs.Worlds.{station_of, station_of_at};
ghost use Rattle.garage.specs.Opening.{no_events};

use crate::garage::Garage;
use journal::Tally;
use name_field::Name;
use station_table::Row;

/// What the journal tells of a seat that no unit was given.
const NO_EVENTS: Tally = Tally {
    joined: 0,
    turned: 0,
    left: 0,
    events: 0,
};

impl Garage {
    /// What station 0 knows of a NAME. None before it read its first claim.
    pub fn row(&self, name: Name) -> Option<Row>
        ensures heard { option_map row_heard_as result ≡ row_heard (station_of self.now.settings) name
            (readings_of self.now.journal) }
        ensures kept { result ≡ row_of (table_at (state_of self.now) 0).owners name
            (kept_under (table_at (state_of self.now) 0).rows name) }
    {
        let first = self.first();
        self.row_at(first, name)
    }

    /// What a station knows of a NAME. None before it read its first claim.
    ///
    /// The NAME may be another station's.
    #[tactic(auto, using(crate::proofs::Headline::row_known_heard))]
    pub fn row_at(&self, station: u32, name: Name) -> Option<Row>
        requires { station < length self.now.settings.stations }
        ensures heard { option_map row_heard_as result ≡ row_heard (station_of_at self.now.settings station) name
            (readings_at station self.now.journal) }
        ensures kept { result ≡ row_of (table_at (state_of self.now) station).owners name
            (kept_under (table_at (state_of self.now) station).rows name) }
    {
        self.posts[station as usize].station.row(name)
    }

    /// How many joins, turns, leaves and events of its own a seat has.
    ///
    /// All are 0 of a station's seat, and of one that no unit was given.
    pub fn tally(&self, seat: u32) -> Tally
        ensures given { length self.now.settings.stations ≤ seat → seat < length self.now.settings.stations + joins self.now.journal
            → result ≡ tally_of seat self.now.journal }
        ensures never { ((seat < length self.now.settings.stations)
            ⊎ (length self.now.settings.stations + joins self.now.journal ≤ seat))
            → result ≡ no_events }
    {
        if seat < self.stations {
            return NO_EVENTS;
        }
        match self.places.get((seat - self.stations) as usize) {
            Some(place) => place.tally,
            None => NO_EVENTS,
        }
    }
}
