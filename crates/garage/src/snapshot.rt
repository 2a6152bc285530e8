ghost use Rattle.std.specs.Prelude.{◌≡◌};
ghost use Rattle.garage.specs.Snapshots.{newest_of};

use crate::error::GarageError;
use crate::garage::Garage;
use dm_messages::{Kind, Shown};
use name_field::Name;
use std::alloc::Global;
use trouble_code::Lamps;

/// What the newest DM1 entry of a NAME tells.
#[derive(Clone, Copy, PartialEq, Eq)]
pub struct Newest {
    /// Its lamps, and how they flash.
    pub lamps: Lamps,
    /// How many codes it has.
    pub codes: usize,
}

/// What a station knows of a NAME, in one line.
#[derive(Clone, Copy, PartialEq, Eq)]
pub struct RowLine {
    /// The NAME.
    pub name: Name,
    /// The address that it holds, 0 to 253, if one is known.
    pub address: Option<u8>,
    /// How many DM1 entries it has.
    pub dm1: usize,
    /// How many DM2 entries it has.
    pub dm2: usize,
    /// How many DM6 entries it has.
    pub dm6: usize,
    /// The newest of its DM1 entries, if it has any.
    pub newest: Option<Newest>,
}

/// What a station knows: a line for each NAME.
///
/// The lines are in the order of the NAMEs' first claims.
#[derive(Drop)]
pub struct Snapshot {
    /// The lines.
    pub rows: Vec<RowLine>,
    /// How many frames the station was told of as missed.
    pub missed: u64,
    /// How many messages the station could not read.
    pub unread: u64,
}

impl Garage {
    ghost use Rattle.std.specs.Prelude.{◌≡◌, ◌<◌, IfOk, IfErr, length, map, slice_get};
    ghost use Rattle.bus_model.specs.Heard.{missed_count, names_heard, row_heard, unread_count, address_in_row};
    ghost use Rattle.journal.specs.Worlds.{station_of, station_of_at};
    ghost use Rattle.journal.specs.Journal.{injected_of, readings_at, readings_of};
    ghost use Rattle.garage.specs.Snapshots.{line_at, line_of};

    /// What station 0 knows now, as `snapshot_at` says.
    pub fn snapshot(&self, alloc: Global) -> Result<Snapshot, GarageError>
        ensures rows { IfOk result (λ s. s.rows.items ≡ map (line_of self.now) (names_heard (readings_of self.now.journal))) }
        ensures missed { IfOk result (λ s. s.missed ≡ missed_count (readings_of self.now.journal)) }
        ensures unread { IfOk result (λ s. s.unread ≡ unread_count (station_of self.now.settings) (readings_of self.now.journal)) }
        ensures none { injected_of self.now.journal ≡ 0 → IfOk result (λ s. s.unread ≡ 0) }
        ensures err { IfErr result (λ e. e ≡ GarageError.OutOfMemory) }
    {
        let first = self.first();
        self.snapshot_at(alloc, first)
    }

    /// What a station knows now of every NAME that it read a claim of.
    ///
    /// Those of other stations are among them. Its lines hold what `row_at` and `shown_at` return. Refused only if there is no
    /// memory.
    #[tactic(auto, using(crate::proofs::Lines::line_more, crate::proofs::Lines::name_is_there))]
    pub fn snapshot_at(&self, alloc: Global, station: u32) -> Result<Snapshot, GarageError>
        requires { station < length self.now.settings.stations }
        ensures rows { IfOk result
            (λ s. s.rows.items ≡ map (line_at self.now station) (names_heard (readings_at station self.now.journal))) }
        ensures missed { IfOk result (λ s. s.missed ≡ missed_count (readings_at station self.now.journal)) }
        ensures unread { IfOk result
            (λ s. s.unread ≡ unread_count (station_of_at self.now.settings station) (readings_at station self.now.journal)) }
        ensures none { injected_of self.now.journal ≡ 0 → IfOk result (λ s. s.unread ≡ 0) }
        ensures err { IfErr result (λ e. e ≡ GarageError.OutOfMemory) }
    {
        let mut rows = Vec::new(alloc);
        for place in 0..self.names_at(station) {
            if let Some(name) = self.name_at(station, place) {
                let entries = self.shown_at(station, name, Kind::Dm1);
                rows.push(RowLine {
                    name,
                    address: self.address_at(station, name),
                    dm1: entries.len(),
                    dm2: self.shown_at(station, name, Kind::Dm2).len(),
                    dm6: self.shown_at(station, name, Kind::Dm6).len(),
                    newest: newest_among(entries),
                })?;
            }
        }
        Ok(Snapshot {
            rows,
            missed: self.missed_at(station),
            unread: self.unread_at(station),
        })
    }

    /// How many NAMEs a station read a claim of.
    #[tactic(auto, using(crate::proofs::Lines::names_heard_of))]
    fn names_at(&self, station: u32) -> usize
        requires { station < length self.now.settings.stations }
        ensures { result ≡ length (names_heard (readings_at station self.now.journal)) }
    {
        self.posts[station as usize].station.names()
    }

    /// The NAME at a place, counted from 0, in the order of the first claims.
    #[tactic(auto, using(crate::proofs::Lines::name_heard_at))]
    fn name_at(&self, station: u32, place: usize) -> Option<Name>
        requires { station < length self.now.settings.stations }
        ensures { result ≡ slice_get (names_heard (readings_at station self.now.journal)) place }
    {
        self.posts[station as usize].station.name_at(place)
    }

    /// The address that a NAME holds, if the station knows one.
    #[tactic(auto, using(crate::proofs::Lines::row_address_heard, crate::proofs::Lines::no_address))]
    fn address_at(&self, station: u32, name: Name) -> Option<u8>
        requires { station < length self.now.settings.stations }
        ensures { result ≡ address_in_row
            (row_heard (station_of_at self.now.settings station) name (readings_at station self.now.journal)) }
    {
        match self.row_at(station, name) {
            Some(row) => row.address,
            None => None,
        }
    }
}

/// The newest entry, the last of the list.
fn newest_among(entries: &[Shown]) -> Option<Newest>
    ensures { result ≡ newest_of entries.now }
{
    match entries.last() {
        Some(entry) => Some(Newest {
            lamps: entry.lamps,
            codes: entry.codes.as_slice().len(),
        }),
        None => None,
    }
}
