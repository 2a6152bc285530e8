ghost use Rattle.std.specs.Prelude.{◌≡◌, ◌-◌, option_map};
ghost use Rattle.picture.specs.EverInLogs.{active_of, silence_in, silent_from, worst_in};
ghost use Rattle.picture.specs.Severities.{rank};

use crate::ever::{EVER_CODES, Ever, EverCode};
use crate::severity::Severity;
use crate::unit::DrawnUnit;
use candump_line::Time;
use dm_messages::Kind;
use std::alloc::{AllocError, Global};
use std::collections::BTreeMap;
use trouble_code::{Dtc, LampName, Lamps};

/// Of how many units is kept what they told, at most.
pub const EVER_UNITS: usize = 1024;

/// The most bytes that are kept of them, beside the tree in which they stand.
pub const EVER_BYTES: usize = 8_000_000;

const _: () = prove!(
    EVER_UNITS * (size_of::<UnitEver>() + 2 * EVER_CODES * size_of::<EverCode>()) < EVER_BYTES
);

/// How long a DM1 with a lamp or a code may be missing, in microseconds, until it is taken for silent. It is sent each second as long as one
/// is active (SAE J1939-73, 5.7.1, from memory); so five are missed.
pub const SILENCE: u64 = 5_000_000;

/// What each unit told at any time of a log by DM1 and by DM6.
///
/// It is bounded: of the first `EVER_UNITS` units the first `EVER_CODES` codes of each kind.
#[derive(Drop)]
pub struct EverInLog {
    alloc: Global,
    pub(crate) units: BTreeMap<DrawnUnit, UnitEver>,
    end: Option<Time>,
    left_out: u64,
}

/// What a unit told by each kind that is kept.
#[derive(Drop)]
pub(crate) struct UnitEver {
    pub(crate) dm1: Ever,
    dm6: Ever,
}

impl UnitEver {
    fn new(alloc: Global) -> UnitEver {
        UnitEver {
            dm1: Ever::new(alloc),
            dm6: Ever::new(alloc),
        }
    }

    fn of(&self, kind: Kind) -> Option<&Ever> {
        match kind {
            Kind::Dm1 => Some(&self.dm1),
            Kind::Dm6 => Some(&self.dm6),
            Kind::Dm2 => None,
        }
    }

    fn of_mut(&mut self, kind: Kind) -> Option<&mut Ever> {
        match kind {
            Kind::Dm1 => Some(&mut self.dm1),
            Kind::Dm6 => Some(&mut self.dm6),
            Kind::Dm2 => None,
        }
    }
}

impl EverInLog {
    /// Nothing was heard.
    pub fn new(alloc: Global) -> EverInLog {
        EverInLog {
            alloc,
            units: BTreeMap::new(alloc),
            end: None,
            left_out: 0,
        }
    }

    /// What a unit told by this kind at any time. None where it is not kept: it told none, the kind is DM2, or there are too many units.
    pub fn of(&self, unit: &DrawnUnit, kind: Kind) -> Option<&Ever> {
        match self.units.get(unit) {
            Some(one) => one.of(kind),
            None => None,
        }
    }

    /// The worst that a unit told by DM1 at any time.
    pub fn worst(&self, unit: &DrawnUnit) -> Severity
        ensures { rank result ≡ worst_in self.now unit.now }
    {
        match self.active(unit) {
            Some(ever) => ever.worst(),
            None => Severity::Fine,
        }
    }

    /// How many units told of a fault by DM1 at any time.
    pub fn faulty(&self) -> u64 {
        let mut faulty = 0u64;
        for one in self.units.values() {
            if one.dm1.worst() != Severity::Fine {
                faulty = faulty.saturating_add(1);
            }
        }
        faulty
    }

    /// How many units had this lamp on by DM1 at any time.
    pub fn with_lamp(&self, name: LampName) -> u64 {
        let mut with_lamp = 0u64;
        for one in self.units.values() {
            if one.dm1.lamp(name).times > 0 {
                with_lamp = with_lamp.saturating_add(1);
            }
        }
        with_lamp
    }

    /// The time of the newest line that has one.
    pub fn end(&self) -> Option<Time> {
        self.end
    }

    /// How long before the end a unit's DM1 was last heard, in microseconds, where that is more than `SILENCE`, and it told of a lamp or a
    /// code. So it is not current.
    pub fn silence(&self, unit: &DrawnUnit) -> Option<u64>
        ensures { result ≡ silence_in self.now unit.now }
    {
        match self.active(unit) {
            Some(ever) => silence_of(ever.last_heard(), self.end, ever.newest()),
            None => None,
        }
    }

    /// What a unit told by DM1 at any time, as far as that is kept.
    fn active(&self, unit: &DrawnUnit) -> Option<&Ever>
        ensures { option_map (λ ever. ever.now) result ≡ active_of self.now unit.now }
    {
        match self.units.get(unit) {
            Some(one) => Some(&one.dm1),
            None => None,
        }
    }

    /// How many messages of further units are not kept.
    pub fn left_out(&self) -> u64 {
        self.left_out
    }

    /// A line with this time is read.
    pub fn pass(&mut self, time: Time) {
        self.end = Some(time);
    }

    /// A unit told something else than before by this kind, at this time.
    ///
    /// # Errors
    /// Memory was refused: the message is kept in part.
    pub fn hear(
        &mut self,
        unit: &DrawnUnit,
        kind: Kind,
        lamps: Lamps,
        codes: &[Dtc],
        time: &Option<Time>,
    ) -> Result<(), AllocError> {
        if !self.has_room_for(unit)? {
            self.left_out = self.left_out.saturating_add(1);
            return Ok(());
        }
        match self.ever_mut(unit, kind) {
            Some(ever) => ever.hear(lamps, codes, time),
            None => Ok(()),
        }
    }

    /// A unit told the same as before by this kind, for the last time at this time.
    pub fn hear_again(&mut self, unit: &DrawnUnit, kind: Kind, time: &Option<Time>) {
        if let Some(ever) = self.ever_mut(unit, kind) {
            ever.hear_again(time);
        }
    }

    fn ever_mut(&mut self, unit: &DrawnUnit, kind: Kind) -> Option<&mut Ever> {
        match self.units.get_mut(unit) {
            Some(one) => one.of_mut(kind),
            None => None,
        }
    }

    /// Whether a unit is kept: it gets its place where there is room.
    fn has_room_for(&mut self, unit: &DrawnUnit) -> Result<bool, AllocError> {
        if self.units.contains_key(unit) {
            return Ok(true);
        }
        if self.units.len() >= EVER_UNITS {
            return Ok(false);
        }
        self.units.insert(*unit, UnitEver::new(self.alloc))?;
        Ok(true)
    }
}

/// How long a DM1 was not heard, where that is too long and it told of a fault.
fn silence_of(last: Option<Time>, end: Option<Time>, newest: Severity) -> Option<u64>
    ensures { result ≡ silent_from last end newest }
{
    let passed = passed_from(last?, end?);
    if passed > SILENCE && newest.rank() > Severity::Fine.rank() {
        Some(passed)
    } else {
        None
    }
}

/// How many microseconds passed from one time to another.
fn passed_from(from: Time, to: Time) -> u64
    ensures { result ≡ to - from }
{
    to.micros().saturating_sub(from.micros())
}
