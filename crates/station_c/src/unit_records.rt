//! What a C program says of a unit, and is told of it, in C's layout. `c/hidzgula_station.h` has the same structs.
ghost use Rattle.std.specs.Prelude.{◌≡◌};

use live_unit::{QueueCounts, UnitSettings};
use unit_trait::UnitKind;

/// What a unit keeps to.
#[repr(C)]
#[derive(Clone, Copy)]
pub struct UnitSettingsRecord {
    /// How long it is at least from a packet of a broadcast to the next, in microseconds: 10,000 to 200,000. (50 to 200 ms by SAE
    /// J1939-21, 10 to 200 ms by ISO 11783-3 and later editions, from memory.)
    pub gap: u64,
    /// How long it is from a claim to anything but a claim, in microseconds: up to 1,000,000 (SAE J1939-81: 250,000).
    pub settle: u64,
    /// 0 where it sends its DM1 each second only while a code is active or a lamp is lit; else always.
    pub always: u8,
    /// 0 where it clears codes and holds a commanded address when it is asked to, and tells of its codes; else it does none of
    /// these.
    pub guarded: u8,
}

/// What became of the frames that a unit put: `put` is the sum of the other three.
#[repr(C)]
#[derive(Clone, Copy)]
pub struct UnitCountsRecord {
    pub put: u64,
    pub written: u64,
    pub withdrawn: u64,
    pub waiting: u64,
}

const _: () = prove!(size_of::<UnitSettingsRecord>() == 24);

const _: () = prove!(size_of::<UnitCountsRecord>() == 32);

const _: () = prove!(align_of::<UnitSettingsRecord>() == 8);

const _: () = prove!(align_of::<UnitCountsRecord>() == 8);

impl UnitSettingsRecord {
    ghost use Rattle.station_c.specs.UnitHandles.{are_in_range, kind_told, settings_told};

    /// Whether each is within its range.
    pub fn are_in_range(&self) -> bool
        ensures { result ≡ are_in_range self.now }
    {
        self.gap >= 10_000 && self.gap <= 200_000 && self.settle <= 1_000_000
    }

    /// What the unit keeps to.
    pub fn settings(&self) -> UnitSettings
        ensures { result ≡ settings_told self.now }
    {
        UnitSettings {
            gap: self.gap,
            settle: self.settle,
            always: self.always != 0,
        }
    }

    /// Which kind of unit it is.
    pub fn kind(&self) -> UnitKind
        ensures { result ≡ kind_told self.now }
    {
        if self.guarded == 0 {
            UnitKind::Plain
        } else {
            UnitKind::Guarded
        }
    }
}

impl UnitCountsRecord {
    /// The record of these counts.
    pub fn of(counts: QueueCounts) -> UnitCountsRecord
        ensures put { result.put ≡ counts.put }
        ensures written { result.written ≡ counts.written }
        ensures withdrawn { result.withdrawn ≡ counts.withdrawn }
        ensures waiting { result.waiting ≡ counts.waiting }
    {
        UnitCountsRecord {
            put: counts.put,
            written: counts.written,
            withdrawn: counts.withdrawn,
            waiting: counts.waiting,
        }
    }
}
