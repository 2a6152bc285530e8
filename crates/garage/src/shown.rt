ghost use Rattle.std.specs.Prelude.{◌≡◌, ◌<◌, ◌↔◌, length, reverse, true};
ghost use Rattle.bus_model.specs.ClearPath.{IsOnClearPath, NoneMissed};
ghost use Rattle.bus_model.specs.Expected.{is_clear};
ghost use Rattle.bus_model.specs.Heard.{entries_heard, missed_count, unread_count};
ghost use Rattle.bus_model.specs.Messages.{Message, IsAmong};
ghost use Rattle.bus_model.specs.Whole.{received_whole};
ghost use Rattle.journal.specs.Journal.{injected_of, state_of, readings_at, readings_of, shown_at, shown_of};
ghost use Rattle.journal.specs.State.{path_at, table_at};
ghost use Rattle.journal.specs.Worlds.{station_of, station_of_at};

use crate::garage::Garage;
use dm_messages::{Kind, Shown};
use name_field::Name;

impl Garage {
    /// What station 0 shows of a kind under a NAME, as `shown_at` says.
    ///
    /// If there are more stations it speaks of the first alone.
    pub fn shown(&self, name: Name, kind: Kind) -> &[Shown]
        ensures expected { injected_of self.now.journal ≡ 0 → result.now ≡ shown_of self.now name kind }
        ensures heard { result.now ≡ reverse (entries_heard (station_of self.now.settings) name kind (readings_of self.now.journal)) }
        ensures quiet { injected_of self.now.journal ≡ 0 → NoneMissed (path_at (state_of self.now) 0)
            → result.now ≡ reverse
            (received_whole (station_of self.now.settings) name kind (state_of self.now).begun (path_at (state_of self.now) 0)) }
        ensures looks_back { injected_of self.now.journal ≡ 0 → (m : Message) → IsAmong m (state_of self.now).begun
            → (is_clear (station_of self.now.settings) m (path_at (state_of self.now) 0) ≡ true)
            ↔ IsOnClearPath (station_of self.now.settings) m (path_at (state_of self.now) 0) }
    {
        let first = self.first();
        self.shown_at(first, name, kind)
    }

    /// What a station shows of a kind under a NAME, the oldest entry first.
    ///
    /// The kind is DM1, DM2 or DM6. There is no entry if the NAME was never seen.
    ///
    /// If no frame came from outside (`injected` returns 0) the entries are exactly the views of the fault memories with which
    /// units of that NAME began messages of that kind. These are the messages to all or to that station, whose frames it read all
    /// on a clear path, in the order begun (`expected`).
    ///
    /// - `heard`: whoever sent the frames, they are what was heard of the readings: what the frames read say, under the NAME that
    ///   the last claim read gave.
    /// - `quiet`: if nothing was missed they are the views of all messages whose last part was read; so in particular if each
    ///   address was claimed under one NAME only.
    /// - `looks_back`: what a clear path is, said without the walk of `expected`.
    #[tactic(auto, using(crate::proofs::Headline::shown_expected, crate::proofs::Headline::shown_heard, crate::proofs::Headline::shown_quiet, crate::proofs::Headline::path_looks_back))]
    pub fn shown_at(&self, station: u32, name: Name, kind: Kind) -> &[Shown]
        requires { station < length self.now.settings.stations }
        ensures expected { injected_of self.now.journal ≡ 0 → result.now ≡ shown_at self.now station name kind }
        ensures heard { result.now ≡ reverse
            (entries_heard (station_of_at self.now.settings station) name kind (readings_at station self.now.journal)) }
        ensures quiet { injected_of self.now.journal ≡ 0 → NoneMissed (path_at (state_of self.now) station)
            → result.now ≡ reverse (received_whole (station_of_at self.now.settings station) name kind (state_of self.now).begun
            (path_at (state_of self.now) station)) }
        ensures looks_back { injected_of self.now.journal ≡ 0 → (m : Message) → IsAmong m (state_of self.now).begun
            → (is_clear (station_of_at self.now.settings station) m (path_at (state_of self.now) station) ≡ true)
            ↔ IsOnClearPath (station_of_at self.now.settings station) m (path_at (state_of self.now) station) }
    {
        self.posts[station as usize].lists.shown(name, kind)
    }

    /// How many frames station 0 was told of as missed.
    pub fn missed(&self) -> u64
        ensures heard { result ≡ missed_count (readings_of self.now.journal) }
        ensures kept { result ≡ (table_at (state_of self.now) 0).missed }
    {
        let first = self.first();
        self.missed_at(first)
    }

    /// How many frames a station was told of as missed.
    #[tactic(auto, using(crate::proofs::Headline::missed_heard))]
    pub fn missed_at(&self, station: u32) -> u64
        requires { station < length self.now.settings.stations }
        ensures heard { result ≡ missed_count (readings_at station self.now.journal) }
        ensures kept { result ≡ (table_at (state_of self.now) station).missed }
    {
        self.posts[station as usize].station.missed()
    }

    /// How many messages station 0 could not read. 0 if no frame came from outside.
    pub fn unread(&self) -> u64
        ensures none { injected_of self.now.journal ≡ 0 → result ≡ 0 }
        ensures heard { result ≡ unread_count (station_of self.now.settings) (readings_of self.now.journal) }
        ensures kept { result ≡ (table_at (state_of self.now) 0).unread }
    {
        let first = self.first();
        self.unread_at(first)
    }

    /// How many messages a station could not read. 0 if no frame came from outside.
    #[tactic(auto, using(crate::proofs::Headline::none_unread, crate::proofs::Headline::unread_heard))]
    pub fn unread_at(&self, station: u32) -> u64
        requires { station < length self.now.settings.stations }
        ensures none { injected_of self.now.journal ≡ 0 → result ≡ 0 }
        ensures heard { result ≡ unread_count (station_of_at self.now.settings station) (readings_at station self.now.journal) }
        ensures kept { result ≡ (table_at (state_of self.now) station).unread }
    {
        self.posts[station as usize].station.unread()
    }
}
