ghost use Rattle.std.specs.Prelude.{◌≡◌, ℕ, [], length, map, slice_get, List, IfOk};
ghost use Rattle.std.specs.Option.{option_copied, option_map};
ghost use Rattle.bus_model.specs.Heard.{missed_count, names_heard, owner_heard};
ghost use Rattle.bus_model.specs.Overheard.{gaps_heard, row_overheard, unread_overheard};
ghost use Rattle.can_frame.specs.declared.reading.Reading.{Reading as AnyReading};
ghost use Rattle.reassembly.specs.Pairs.{pair_at};
ghost use Rattle.entry_lists.specs.KeptValue.{kept_under};
ghost use Rattle.entry_lists.specs.KnownRows.{row_heard_as, row_of};

use crate::sending::Sending;
use bus_model::Who;
use entry_lists::{Row, Rows};
use name_field::Name;
use reassembly::{AddressTable, PairedPartials, Partial};
use std::alloc::{AllocError, Global};
use std::marker::Model;

mod claims;
mod messages;
mod readings;

/// One who hears the messages between any two addresses of a bus, and takes no part: the rows by NAME that the frames tell, and
/// what is half sent between any two addresses. What it reads of diagnostic messages it puts into the lists that it is lent
/// (`SentLists`).
///
/// It knows of the bus only what it was handed.
#[derive(Drop)]
pub struct Listener {
    owners: AddressTable<Name>,
    rows: Rows,
    pairs: PairedPartials<Sending>,
    gaps: u64,
    missed: u64,
    unread: u64,
}

impl Model for Listener {
    ghost use Rattle.listener.specs.ListenerValue.{ListenerValue};

    ghost Value = { ListenerValue };

    ghost view = { λ l. record { owners = l.owners.slots; rows = l.rows; pairs = l.pairs; gaps = l.gaps; missed = l.missed; unread = l.unread } };
}

impl Listener {
    ghost use Rattle.listener.specs.ListenerSteps.{new_listener};
    ghost use Rattle.listener.specs.ListenerValue.{HasOverheard, gaps_alone, who_in};
    ghost use Rattle.reassembly.specs.Tables.{at};

    /// A listener that has read nothing. It takes the memory for the sources of 256 addresses.
    pub fn new(alloc: Global) -> Result<Listener, AllocError>
        ensures value { IfOk result (λ l. l ≡ new_listener) }
        ensures stands { IfOk result (λ l. HasOverheard l []) }
    {
        Listener::after_gaps(alloc, 0)
    }

    /// A listener that has read so many gaps, in which no frame is known to be missed, and nothing else: it numbers the next one after
    /// them.
    ///
    /// # Errors
    /// Memory was refused.
    pub fn after_gaps(alloc: Global, gaps: u64) -> Result<Listener, AllocError>
        ensures value { IfOk result (λ l. l ≡ record new_listener { gaps = gaps }) }
        ensures stands { IfOk result (λ l. HasOverheard l (gaps_alone gaps)) }
    {
        let pairs = PairedPartials::new(alloc)?;
        Ok(Listener {
            owners: AddressTable::new(alloc),
            rows: Rows::new(alloc),
            pairs,
            gaps,
            missed: 0,
            unread: 0,
        })
    }

    /// How many NAMEs have a row.
    #[tactic(auto, using(crate::proofs::Queries::names_as_overheard))]
    pub fn names(&self) -> usize
        ensures value { result ≡ length self.now.rows }
        ensures heard { (h : List AnyReading) → HasOverheard self.now h → result ≡ length (names_heard h) }
    {
        self.rows.len()
    }

    /// The NAME of the row at this place, from 0, in the order of the NAMEs' first claims.
    #[tactic(auto, using(crate::proofs::Queries::name_as_overheard))]
    pub fn name_at(&self, place: usize) -> Option<Name>
        ensures value { result ≡ slice_get (map (λ e. e.0) self.now.rows) place }
        ensures heard { (h : List AnyReading) → HasOverheard self.now h → result ≡ slice_get (names_heard h) place }
    {
        self.rows.name_at(place)
    }

    /// What is known of a NAME; none before its first claim. Its acknowledgment is its last one to whomever.
    #[tactic(auto, using(crate::proofs::Queries::row_as_overheard))]
    pub fn row(&self, name: Name) -> Option<Row>
        ensures value { result ≡ row_of self.now.owners name (kept_under self.now.rows name) }
        ensures heard { (h : List AnyReading) → HasOverheard self.now h → option_map row_heard_as result ≡ row_overheard name h }
    {
        let (claimed, ack) = self.rows.get(name)?;
        let address = match claimed {
            Some(address) if self.owner(address) == Some(name) => Some(address),
            _ => None,
        };
        Some(Row { address, ack })
    }

    /// The owner of an address, 0 to 255: the NAME that claimed it last since frames were missed, also where that has left it.
    #[tactic(auto, using(crate::proofs::Queries::owner_as_overheard))]
    pub fn owner(&self, address: u8) -> Option<Name>
        ensures value { result ≡ at self.now.owners address }
        ensures heard { (h : List AnyReading) → HasOverheard self.now h → result ≡ owner_heard address h }
    {
        self.owners.get(address).copied()
    }

    /// How many gaps there were, up to the greatest 64-bit number.
    #[tactic(auto, using(crate::proofs::Queries::gaps_as_overheard))]
    pub fn gaps(&self) -> u64
        ensures value { result ≡ self.now.gaps }
        ensures heard { (h : List AnyReading) → HasOverheard self.now h → result ≡ gaps_heard h }
    {
        self.gaps
    }

    /// What is half sent from a source to a destination.
    pub(crate) fn half_sent(&self, source: u8, dest: u8) -> Option<&Partial<Sending>>
        ensures { option_copied result ≡ pair_at self.now.pairs source dest }
    {
        self.pairs.get(source, dest)
    }

    /// Whose a message is that begins at an address.
    fn who(&self, source: u8) -> Who
        ensures { result ≡ who_in self.now source }
    {
        match self.owner(source) {
            Some(name) => Who::Named(name),
            None => Who::Unclaimed {
                address: source,
                gaps: self.gaps,
            },
        }
    }

    /// How many frames it was told of as missed, up to the greatest 64-bit number.
    #[tactic(auto, using(crate::proofs::Queries::missed_as_overheard))]
    pub fn missed(&self) -> u64
        ensures value { result ≡ self.now.missed }
        ensures heard { (h : List AnyReading) → HasOverheard self.now h → result ≡ missed_count h }
    {
        self.missed
    }

    /// How many messages could not be read, up to the greatest 64-bit number.
    #[tactic(auto, using(crate::proofs::Queries::unread_as_overheard))]
    pub fn unread(&self) -> u64
        ensures value { result ≡ self.now.unread }
        ensures heard { (h : List AnyReading) → HasOverheard self.now h → result ≡ unread_overheard h }
    {
        self.unread
    }
}
