ghost use Rattle.std.specs.Prelude.{◌≡◌};
ghost use Rattle.picture.specs.EverInLogs.{worst_in};
ghost use Rattle.picture.specs.Severities.{rank};
ghost use Rattle.watch_page.specs.Standing as told;

use bus_watch::{BusWatch, Watch, Who};
use dm_messages::Kind;
use log_lines::ClockForm;
use name_field::Name;
use picture::{DrawnUnit, Ever, EverInLog, Picture, Sender, Severity, SignalsInLog, SinceThen};
use shop_texts::{Texts, UnitTexts};
use std::alloc::Global;

/// What a page is written of.
#[derive(Clone, Copy)]
pub struct View<'a> {
    pub alloc: Global,
    /// What was read: a file's name, or words for it.
    pub title: &'a str,
    pub picture: &'a Picture,
    /// What units told at any time.
    pub ever: &'a EverInLog,
    /// The values of signals, where those are kept.
    pub values: Option<SignalsInLog<'a>>,
    /// What changed since an earlier visit, where one is given.
    pub since: Option<&'a [SinceThen]>,
    /// The buses, in the order of the numbers that units have.
    pub buses: &'a [BusWatch],
    pub units: &'a UnitTexts,
    pub texts: &'a Texts,
    /// How times are told.
    pub clock: ClockForm<'a>,
    /// The line before which the watches were last begun anew, since as much was kept as may be: they know of what came from there
    /// on.
    pub anew_at: Option<u64>,
}

impl<'a> View<'a> {
    /// The watch of a unit's bus, and whom it has there.
    pub(crate) fn watched(&self, unit: &DrawnUnit) -> Option<(&'a Watch, Who)> {
        let bus = self.buses.get(usize::from(unit.bus))?;
        Some((&bus.watch, who_of(&unit.sender)))
    }

    /// What a unit told by DM1 at any time, as far as that is kept.
    pub(crate) fn ever_active(&self, unit: &DrawnUnit) -> Option<&'a Ever> {
        self.ever.of(unit, Kind::Dm1)
    }

    /// The worst that a unit told by DM1 at any time.
    pub(crate) fn worst_ever(&self, unit: &DrawnUnit) -> Severity
        ensures { rank result ≡ worst_in self.now.ever.now unit.now }
    {
        self.ever.worst(unit)
    }

    /// How many frames were missed on all buses.
    pub(crate) fn missed(&self) -> u64 {
        let mut missed = 0u64;
        for bus in self.buses {
            missed = missed.saturating_add(bus.watch.missed_in_all());
        }
        missed
    }
}

/// Whom a watch has there.
pub(crate) fn who_of(sender: &Sender) -> Who
    ensures { result ≡ told.who_by sender.now }
{
    match *sender {
        Sender::Named(name) => Who::Named(Name::from_number(name)),
        Sender::Unclaimed { address, gaps } => Who::Unclaimed { address, gaps },
    }
}
