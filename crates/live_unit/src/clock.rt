ghost use Rattle.std.specs.Prelude.{◌≡◌, ◌+◌, IfOk, nat_le, if◌then◌else◌};
ghost use Rattle.live_unit.specs.Times.{clock_after_hearing, clock_at_start, clock_cut, clock_written, pause_of};
ghost use Rattle.live_unit.specs.Waits.{later};
ghost use Rattle.live_unit.specs.Telling.{after_telling};
ghost use Rattle.live_unit.specs.Again.{never_asked};
ghost use Rattle.live_unit.specs.Again as spec;
ghost use Rattle.live_unit.specs.Times as times;

use crate::again::{MOST_AGAIN, Retransmission};
use crate::queue::Lane;
use crate::told::{DM1_PERIOD, Told};
use fault_memory::FaultMemory;
use name_field::Name;
use std::alloc::{AllocError, Global};

/// How long a session waits for an answer, in microseconds: 1,250 ms (SAE J1939-21, T3).
pub const ANSWER_WITHIN: u64 = 1_250_000;

/// How long a session that was held open waits for more, in microseconds: 1,050 ms (SAE J1939-21, T4).
pub const HELD_FOR: u64 = 1_050_000;

/// The longest that a unit waits before it says that it can claim no address, in milliseconds (SAE J1939-81).
pub(crate) const LONGEST_PAUSE: u64 = 153;

/// What a unit keeps to, in microseconds.
#[derive(Clone, Copy, PartialEq, Eq)]
pub struct UnitSettings {
    /// How long it is at least from a packet of a broadcast to the next: 10,000 to 200,000 (SAE J1939-21).
    pub gap: u64,
    /// How long it is from the first claim since the unit took its address to anything but a claim: 250,000 (SAE J1939-81).
    pub settle: u64,
    /// Whether the unit sends its DM1 each second also while it has nothing to tell.
    pub always: bool,
}

/// Which packet of the open session was asked for again last, and how often it or an earlier one was; 0 and 0 where none was.
#[derive(Clone, Copy, PartialEq, Eq)]
pub struct Asked {
    pub packet: u8,
    pub times: u8,
}

impl Asked {
    /// None was.
    fn never() -> Asked
        ensures { result ≡ never_asked }
    {
        Asked {
            packet: 0,
            times: 0,
        }
    }

    /// How often this packet, or an earlier one, was asked for again before.
    fn times_before(self, number: u8) -> u8
        ensures { result ≡ spec.times_before self number }
    {
        if number <= self.packet { self.times } else { 0 }
    }

    /// Whether it was so as often as it is sent again.
    pub(crate) fn is_too_often(self, number: u8) -> bool
        ensures { result ≡ spec.is_too_often self number }
    {
        self.times_before(number) >= MOST_AGAIN
    }

    /// After a frame was heard that asks for these packets again, or for none; and whether a session was open.
    fn after(self, again: Option<Retransmission>, has_session: bool) -> Asked
        ensures { result ≡ spec.asked_then again has_session self }
    {
        match again {
            Some(again) if again.again == 0 => self,
            Some(again) => self.behind(again.first),
            None if has_session => self,
            None => Asked::never(),
        }
    }

    /// After this packet was asked for again.
    fn behind(self, number: u8) -> Asked
        ensures { result ≡ (if spec.is_too_often self number then never_asked else record { packet = number; times = spec.times_before self number + 1 }) }
    {
        if self.is_too_often(number) {
            return Asked::never();
        }
        Asked {
            packet: number,
            times: self.times_before(number) + 1,
        }
    }
}

/// From when on a unit may do what, in microseconds of its caller's clock, and what it told of its faults.
#[derive(Drop)]
pub struct UnitClock {
    /// A claim goes.
    pub claim_from: u64,
    /// Whether a claim was written since the unit took the address that it holds.
    pub claimed: bool,
    /// More than claims goes.
    pub settled_from: u64,
    /// A further packet of a broadcast goes.
    pub packet_from: u64,
    /// The open session counts as left alone.
    pub alone_from: u64,
    /// The second since the latest DM1 of the unit's own is over; or, where a message to all was cut since, when that was.
    pub dm1_from: u64,
    /// What its DM1s of its own told.
    pub told: Told,
    /// Which packets of the open session went again.
    pub asked: Asked,
}

impl UnitClock {
    /// Nothing was written yet, so nothing is put off.
    pub fn at_start(alloc: Global) -> UnitClock
        ensures { result ≡ clock_at_start }
    {
        UnitClock {
            claim_from: 0,
            claimed: false,
            settled_from: 0,
            packet_from: 0,
            alone_from: 0,
            dm1_from: 0,
            told: Told::nothing(alloc),
            asked: Asked::never(),
        }
    }

    /// The times after a frame of a lane was written.
    pub fn write(&mut self, settings: &UnitSettings, lane: Lane, now: u64)
        ensures { self.new ≡ clock_written settings.now lane now self.old }
    {
        match lane {
            Lane::Claims if self.claimed => {}
            Lane::Claims => {
                self.settled_from = now.saturating_add(settings.settle);
                self.claimed = true;
            }
            Lane::Singles => {}
            Lane::Session => self.alone_from = now.saturating_add(ANSWER_WITHIN),
            Lane::Messages => self.packet_from = now.saturating_add(settings.gap),
        }
    }

    /// The times after a frame was heard: whether the open session was held open by it, and which address the unit, of this NAME,
    /// held before it and holds after it.
    pub fn hear(
        &mut self,
        held_open: bool,
        before: Option<u8>,
        after: Option<u8>,
        now: u64,
        name: Name,
    )
        ensures { self.new ≡ clock_after_hearing held_open before after name now self.old }
    {
        if held_open {
            self.alone_from = now.saturating_add(HELD_FOR);
        }
        if before.is_some() && after.is_none() {
            self.claim_from = now.saturating_add(pause(name));
        }
        self.claimed = self.claimed && is_same_address(before, after);
    }

    /// What was asked for again after a frame was heard that asks for these packets, or for none; and whether a session was open
    /// before it.
    pub(crate) fn ask(&mut self, again: Option<Retransmission>, has_session: bool)
        ensures { self.new ≡ record self.old { asked = spec.asked_then again has_session self.old.asked } }
    {
        self.asked = self.asked.after(again, has_session);
    }

    /// The times after a message to all of which frames waited was withdrawn, if one was.
    pub(crate) fn cut(&mut self, is_cut: bool, now: u64)
        ensures { self.new ≡ clock_cut is_cut now self.old }
    {
        if is_cut {
            self.dm1_from = now;
        }
    }

    /// What will have been told after a DM1 of the memory that begins at this time.
    ///
    /// Refused: where memory is.
    pub(crate) fn told_after(
        &self,
        alloc: Global,
        now: u64,
        memory: &FaultMemory,
    ) -> Result<Told, AllocError>
        ensures { IfOk result (λ t. t ≡ after_telling now (nat_le self.now.dm1_from now) memory.now self.now.told) }
    {
        self.told.after(alloc, now, self.dm1_from <= now, memory)
    }

    /// The times after a DM1 of the unit's own, by which this was told.
    pub(crate) fn tell(&mut self, now: u64, told: Told)
        ensures { self.new ≡ record self.old { dm1_from = later now DM1_PERIOD; told = told } }
    {
        self.dm1_from = now.saturating_add(DM1_PERIOD);
        self.told = told;
    }
}

/// Whether a unit holds the address that it held, or none as before.
fn is_same_address(before: Option<u8>, after: Option<u8>) -> bool
    ensures { result ≡ times.is_same_address before after }
{
    match (before, after) {
        (Some(before), Some(after)) => before == after,
        (None, None) => true,
        _ => false,
    }
}

/// How long a unit of this NAME waits before it says that it can claim no address.
fn pause(name: Name) -> u64
    ensures value { result ≡ pause_of name }
{
    1000 * (name.number() % (1 << 21) % (LONGEST_PAUSE + 1))
}
