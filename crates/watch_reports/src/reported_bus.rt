use bus_watch::{BusWatch, Who};
use candump_line::Time;
use dm_messages::Kind;
use dm_words::LampWords;
use name_field::Name;
use picture::{DrawnUnit, Ever, EverInLog, Sender, Severity};
use trouble_code::{LampName, Lamps};

/// The kinds of which is kept what units told by them at any time of the log.
pub(crate) const EVER_KINDS: [Kind; 2] = [Kind::Dm1, Kind::Dm6];

/// A bus of which is reported, with what its units told at any time of the log.
#[derive(Clone, Copy)]
pub(crate) struct ReportedBus<'a> {
    pub(crate) one: &'a BusWatch,
    /// Its place among the buses, from 0.
    pub(crate) place: usize,
    pub(crate) ever: &'a EverInLog,
    /// The time of the first line that has one.
    pub(crate) start: Option<Time>,
}

impl ReportedBus<'_> {
    /// What a unit told by a kind at any time; none where that is not kept.
    pub(crate) fn ever_of(&self, who: &Who, kind: Kind) -> Option<&Ever> {
        self.ever.of(&self.unit(who), kind)
    }

    /// Whether a unit's red stop lamp was on at any time.
    pub(crate) fn was_red(&self, who: &Who) -> bool {
        self.ever.worst(&self.unit(who)) == Severity::Red
    }

    /// For how many microseconds before the end a unit's DM1 was not heard, where it should have been.
    pub(crate) fn silence(&self, who: &Who, kind: Kind) -> Option<u64> {
        match kind {
            Kind::Dm1 => self.ever.silence(&self.unit(who)),
            Kind::Dm2 | Kind::Dm6 => None,
        }
    }

    fn unit(&self, who: &Who) -> DrawnUnit {
        unit_of(self.place.min(usize::from(u16::MAX)) as u16, *who)
    }
}

/// The unit of a bus that sends so.
fn unit_of(bus: u16, who: Who) -> DrawnUnit {
    let sender = match who {
        Who::Named(name) => Sender::Named(name.number()),
        Who::Unclaimed { address, gaps } => Sender::Unclaimed { address, gaps },
    };
    DrawnUnit { bus, sender }
}

/// Whom a watch has there.
pub(crate) fn who_of(sender: &Sender) -> Who {
    match *sender {
        Sender::Named(name) => Who::Named(Name::from_number(name)),
        Sender::Unclaimed { address, gaps } => Who::Unclaimed { address, gaps },
    }
}

/// The word of a lamp: that of lamps of which it alone is on (SAE J1939-73, 5.7.1).
pub(crate) fn lamp_words(lamp: LampName) -> LampWords {
    let lamps = match lamp {
        LampName::Malfunction => 0x40,
        LampName::RedStop => 0x10,
        LampName::Amber => 0x04,
        LampName::Protect => 0x01,
    };
    LampWords(Lamps::from_bytes(lamps, 0xFF))
}

/// How many whole seconds so many microseconds are.
pub(crate) fn whole_seconds(micros: u64) -> u64 {
    micros / 1_000_000
}
