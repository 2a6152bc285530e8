ghost use Rattle.std.specs.Prelude.{◌≡◌};
ghost use Rattle.bus_watch.specs.Runs as runs;
ghost use Rattle.bus_watch.specs.Tellings as tellings;
ghost use Rattle.bus_watch.specs.Identified.{is_text_shown};

use crate::broken::BrokenMessage;
use crate::methods::UnitMethods;
use can_frame::GLOBAL_ADDRESS;
use candump_line::Time;
use listener::{Displaced, Overheard, SentEntry, Who};
use name_field::Name;

/// The unit of which alone it is told.
#[derive(Clone, Copy)]
pub enum UnitShown {
    /// The one of this NAME.
    Name(Name),
    /// Whoever sends from this address, 0 to 255.
    Address(u8),
}

/// Which of the messages that are heard are shown. All are heard, whatever is shown.
#[derive(Clone, Copy)]
pub struct Selection {
    /// The address whose messages are shown beside those to all, 0 to 255; none: everybody's.
    pub address: Option<u8>,
    /// Whether those are shown that come from an address that nobody has claimed. Else it is told once that one came.
    pub unclaimed: bool,
    /// The unit of which alone it is told; none: of all.
    pub unit: Option<UnitShown>,
    /// The first time of which it is told; none: from the beginning.
    pub from: Option<Time>,
    /// The last time of which it is told; none: to the end. A line before any time is told of in any case.
    pub to: Option<Time>,
    /// By which methods older codes are read.
    pub methods: UnitMethods,
}

impl Selection {
    /// Whether an entry that came at this time is shown.
    pub(crate) fn shows(&self, entry: &SentEntry, time: Option<Time>) -> bool
        ensures { result ≡ runs.is_shown self.now time entry.now }
    {
        self.shows_of(&entry.who)
            && self.shows_to(entry.to)
            && self.shows_unit(&entry.who, entry.source)
            && self.shows_at(time)
    }

    /// Whether an identification of this unit is shown that went from this source to this address, and came at this time: where an entry would be.
    pub(crate) fn shows_text(&self, who: &Who, source: u8, to: u8, time: Option<Time>) -> bool
        ensures { result ≡ is_text_shown self.now time who.now source to }
    {
        self.shows_of(who)
            && self.shows_to(to)
            && self.shows_unit(who, source)
            && self.shows_at(time)
    }

    /// Whether it is told of a message that was broken at this time: where its entry would be shown.
    pub(crate) fn tells_broken(&self, broken: &BrokenMessage, time: Option<Time>) -> bool {
        self.shows_of(&broken.who)
            && self.shows_to(broken.to)
            && self.shows_unit(&broken.who, broken.source)
            && self.shows_at(time)
    }

    /// Whether messages of this unit are shown.
    pub(crate) fn shows_of(&self, who: &Who) -> bool
        ensures { result ≡ runs.is_shown_of self.now.unclaimed who.now }
    {
        match who {
            Who::Named(_) => true,
            Who::Unclaimed { .. } => self.unclaimed,
        }
    }

    /// Whether messages to this address are shown.
    fn shows_to(&self, to: u8) -> bool
        ensures { result ≡ runs.is_shown_to self.now.address to }
    {
        match self.address {
            Some(address) => to == GLOBAL_ADDRESS || to == address,
            None => true,
        }
    }

    /// Whether it is told of what this unit sends from this address.
    fn shows_unit(&self, who: &Who, source: u8) -> bool
        ensures { result ≡ runs.is_of_unit self.now.unit who.now source }
    {
        match &self.unit {
            Some(UnitShown::Name(name)) => is_named(name, who),
            Some(UnitShown::Address(address)) => source == *address,
            None => true,
        }
    }

    /// Whether it is told of this time.
    fn shows_at(&self, time: Option<Time>) -> bool
        ensures { result ≡ runs.is_shown_at self.now.from self.now.to time }
    {
        match time {
            Some(time) => is_since(self.from, time) && is_until(self.to, time),
            None => true,
        }
    }

    /// Whether an acknowledgment is shown that names this requester and went to this address.
    pub(crate) fn shows_ack(&self, requester: u8, to: u8) -> bool
        ensures { result ≡ tellings.is_ack_shown self.now.address requester to }
    {
        match self.address {
            Some(address) => requester == address || to == address,
            None => true,
        }
    }

    /// Whether it is told of what was heard at this time.
    pub(crate) fn tells(&self, heard: &Overheard, time: Option<Time>) -> bool
        ensures { result ≡ tellings.is_told self.now time heard.now }
    {
        self.shows_at(time) && self.tells_of(heard)
    }

    /// Whether what was heard is of the unit of which alone it is told.
    fn tells_of(&self, heard: &Overheard) -> bool
        ensures { result ≡ tellings.is_change_of self.now.unit heard.now }
    {
        match heard {
            Overheard::Nothing | Overheard::Missed { .. } => true,
            Overheard::Claimed {
                name,
                address,
                displaced,
            } => {
                self.shows_unit(&Who::Named(*name), *address)
                    || self.tells_of_loser(displaced, *address)
            }
            Overheard::GaveUp { name } => self.tells_of_giver(name),
            Overheard::Acknowledged { name, source, .. } => {
                self.shows_unit(&Who::Named(*name), *source)
            }
            Overheard::Listed { who, source, .. }
            | Overheard::ListedInPart { who, source, .. }
            | Overheard::Unreadable { who, source, .. } => { self.shows_unit(who, *source) }
            Overheard::Unowned { source, .. } => self.shows_source(*source),
        }
    }

    /// Whether it is told of a NAME that lost an address.
    fn tells_of_loser(&self, displaced: &Option<Displaced>, address: u8) -> bool
        ensures { result ≡ tellings.is_of_loser self.now.unit displaced.now address }
    {
        match displaced {
            Some(Displaced { name, lost }) => {
                *lost && self.shows_unit(&Who::Named(*name), address)
            }
            None => false,
        }
    }

    /// Whether it is told of a NAME that cannot claim an address.
    fn tells_of_giver(&self, name: &Name) -> bool
        ensures { result ≡ tellings.is_of_giver self.now.unit name.now }
    {
        match &self.unit {
            Some(UnitShown::Name(shown)) => *shown == *name,
            _ => true,
        }
    }

    /// Whether it is told of what comes from an address that nobody has claimed.
    fn shows_source(&self, source: u8) -> bool
        ensures { result ≡ tellings.is_of_source self.now.unit source }
    {
        match &self.unit {
            Some(UnitShown::Name(_)) => false,
            Some(UnitShown::Address(shown)) => *shown == source,
            None => true,
        }
    }
}

pub(crate) fn is_named(name: &Name, who: &Who) -> bool
    ensures { result ≡ runs.is_of_name name.now who.now }
{
    match who {
        Who::Named(own) => *name == *own,
        Who::Unclaimed { .. } => false,
    }
}

fn is_since(from: Option<Time>, time: Time) -> bool
    ensures { result ≡ runs.is_since from time }
{
    match from {
        Some(from) => from.micros() <= time.micros(),
        None => true,
    }
}

fn is_until(to: Option<Time>, time: Time) -> bool
    ensures { result ≡ runs.is_until to time }
{
    match to {
        Some(to) => time.micros() <= to.micros(),
        None => true,
    }
}
