ghost use Rattle.std.specs.Prelude.{◌≡◌, ℕ, ◌<◌, ◌≤◌, ◌^◌, [], ◌∷◌, length, map, slice_get, List, IfOk, IfSome, OnOk, OnErr};
ghost use Rattle.std.specs.Option.{option_map};
ghost use Rattle.can_frame.specs.declared.reading.Reading.{Reading as AnyReading};
ghost use Rattle.can_frame.specs.declared.address.TheConstants.{GREATEST_ADDRESS};
ghost use Rattle.address_claim.specs.Claiming.{ClaimerValue};
ghost use Rattle.bus_model.specs.Heard.{StationSettings, address_heard, names_heard, row_heard, missed_count, unread_count};
ghost use Rattle.station_table.specs.Reactions.{own_claim};
ghost use Rattle.station_table.specs.Steps.{no_limits};

use crate::origin::Origin;
use address_claim::{Claimer, claim_frame};
use can_frame::Frame;
use entry_lists::{Row, Rows};
use name_field::Name;
use reassembly::{AddressTable, Partials};
use std::alloc::Global;
use std::marker::Model;
use transport::Control;

mod answers;
mod claims;
mod messages;
mod orders;
mod readings;

/// The diagnostic station: the rows by NAME that the frames which it reads tell, and what it answers. What it reads of diagnostic
/// messages it puts into the lists that it is lent (`entry_lists`).
///
/// Its tables are indexed by source address, and take no memory before something is kept in them. It knows of the bus only
/// what it was handed.
#[derive(Drop)]
pub struct Station {
    claimer: Claimer,
    grant: u8,
    owners: AddressTable<Name>,
    rows: Rows,
    broadcasts: Partials<Origin>,
    sessions: Partials<Origin>,
    most: [u8; 256],
    missed: u64,
    unread: u64,
}

impl Model for Station {
    ghost use Rattle.std.specs.Prelude.{◌<◌};
    ghost use Rattle.station_table.specs.StationValue.{StationValue};

    ghost Value = { StationValue };

    ghost view = { λ s. record {
      claimer = s.claimer;
      grant = s.grant;
      owners = s.owners.slots;
      rows = s.rows;
      broadcasts = s.broadcasts;
      sessions = s.sessions;
      most = s.most;
      missed = s.missed;
      unread = s.unread;
    } };

    ghost invariant = { λ s. 0 < s.grant };
}

impl Station {
    ghost use Rattle.entry_lists.specs.KeptValue.{kept_under};
    ghost use Rattle.reassembly.specs.Tables.{at};
    ghost use Rattle.station_table.specs.Steps.{new_station};
    ghost use Rattle.station_table.specs.StandsFor.{StandsFor};
    ghost use Rattle.entry_lists.specs.KnownRows.{row_of, row_heard_as};

    /// A station of this NAME that holds this address, 0 to 253, and grants at most this many packets at once, at least one.
    /// It has read nothing.
    #[tactic(auto, using(crate::proofs::Stands::stands_new))]
    pub fn new(alloc: Global, name: Name, address: u8, grant: u8) -> Station
        requires address_fits { address ≤ GREATEST_ADDRESS }
        requires grants { 0 < grant }
        ensures value { result ≡ new_station name address grant }
        ensures stands { StandsFor (record { name = name; address = address }) grant result [] }
    {
        Station {
            claimer: Claimer::new(name, address),
            grant,
            owners: AddressTable::new(alloc),
            rows: Rows::new(alloc),
            broadcasts: Partials::new(alloc),
            sessions: Partials::new(alloc),
            most: no_limits(),
            missed: 0,
            unread: 0,
        }
    }

    /// The claim of its address, or its cannot claim where it holds none.
    pub fn start(&self) -> Frame
        ensures frame { result ≡ own_claim self.now.claimer }
        ensures name_fits { self.now.claimer.name < 2 ^ 64 }
    {
        claim_frame(self.claimer.name(), self.claimer.held())
    }

    /// Its own address, 0 to 253; none once it lost it.
    #[tactic(auto, using(crate::proofs::Queries::held_as_heard))]
    pub fn held(&self) -> Option<u8>
        ensures value { result ≡ self.now.claimer.held }
        ensures heard { (r : StationSettings) (grant : ℕ) (h : List AnyReading) → StandsFor r grant self.now h
            → result ≡ address_heard r h }
        ensures bound { IfSome result (λ a. a ≤ GREATEST_ADDRESS) }
    {
        self.claimer.held()
    }

    /// How many NAMEs have a row.
    #[tactic(auto, using(crate::proofs::Queries::names_as_heard))]
    pub fn names(&self) -> usize
        ensures value { result ≡ length self.now.rows }
        ensures heard { (r : StationSettings) (grant : ℕ) (h : List AnyReading) → StandsFor r grant self.now h
            → result ≡ length (names_heard h) }
    {
        self.rows.len()
    }

    /// The NAME of the row at this place, from 0, in the order of the NAMEs' first claims.
    #[tactic(auto, using(crate::proofs::Queries::name_as_heard))]
    pub fn name_at(&self, place: usize) -> Option<Name>
        ensures value { result ≡ slice_get (map (λ e. e.0) self.now.rows) place }
        ensures heard { (r : StationSettings) (grant : ℕ) (h : List AnyReading) → StandsFor r grant self.now h
            → result ≡ slice_get (names_heard h) place }
    {
        self.rows.name_at(place)
    }

    /// What is known of a NAME; none before its first claim.
    #[tactic(auto, using(crate::proofs::Queries::row_as_heard))]
    pub fn row(&self, name: Name) -> Option<Row>
        ensures value { result ≡ row_of self.now.owners name (kept_under self.now.rows name) }
        ensures heard { (r : StationSettings) (grant : ℕ) (h : List AnyReading) → StandsFor r grant self.now h
            → option_map row_heard_as result ≡ row_heard r name h }
    {
        let (claimed, ack) = self.rows.get(name)?;
        let address = match claimed {
            Some(address) if self.owner(address) == Some(name) => Some(address),
            _ => None,
        };
        Some(Row { address, ack })
    }

    /// The owner of an address.
    fn owner(&self, address: u8) -> Option<Name>
        ensures { result ≡ at self.now.owners address }
    {
        self.owners.get(address).copied()
    }

    /// How many frames it was told of as missed, up to the greatest 64-bit number.
    #[tactic(auto, using(crate::proofs::Queries::missed_as_heard))]
    pub fn missed(&self) -> u64
        ensures value { result ≡ self.now.missed }
        ensures heard { (r : StationSettings) (grant : ℕ) (h : List AnyReading) → StandsFor r grant self.now h
            → result ≡ missed_count h }
    {
        self.missed
    }

    /// How many messages could not be read, up to the greatest 64-bit number.
    #[tactic(auto, using(crate::proofs::Queries::unread_as_heard))]
    pub fn unread(&self) -> u64
        ensures value { result ≡ self.now.unread }
        ensures heard { (r : StationSettings) (grant : ℕ) (h : List AnyReading) → StandsFor r grant self.now h
            → result ≡ unread_count r h }
    {
        self.unread
    }
}

/// What senders take at once, where none told.
#[tactic(auto, unfolding(crate::specs::Steps::no_limits))]
fn no_limits() -> [u8; 256]
    ensures { result ≡ no_limits }
{
    [Control::NO_LIMIT; 256]
}
