//! What a reading changed, for C, in C's layout. `c/hidzgula_station.h` has the same struct.
ghost use Rattle.std.specs.Prelude.{◌≡◌};
ghost use Rattle.station_c.specs.LiveRecords.{change_told_on_bus};
ghost use Rattle.station_c.specs.Records.{TellsChange, no_change, kind_told, with_displaced};

use dm_messages::Kind;
use live_station::Told;
use name_field::Name;
use station_table::{Change, Displaced};

/// What a reading changed of what the station shows. A field that `what` does not name is 0.
#[repr(C)]
#[derive(Clone, Copy)]
pub struct ChangeRecord {
    /// The NAME that has the address (1), has none (2), acknowledged (3), or whose message it is (4, 5).
    pub name: u64,
    /// The NAME that claimed the address before, where `has_displaced` is 1 (1).
    pub displaced: u64,
    /// The parameter group that was acknowledged (3).
    pub pgn: u32,
    /// How many frames were missed (7).
    pub count: u32,
    /// 0 nothing, 1 claimed, 2 gave up, 3 acknowledged, 4 listed, 5 unreadable, 6 unowned, 7 missed; of a live station 9 stranger.
    pub what: u8,
    /// The address that was claimed (1), or from which the message came (4, 5, 6).
    pub address: u8,
    /// The message's kind: 1 is DM1, 2 is DM2, 6 is DM6 (4, 5, 6).
    pub kind: u8,
    /// What was acknowledged with: 0 positive, 1 negative, 2 access denied, 3 cannot respond now, or another number (3).
    pub control: u8,
    /// 1 where its last acknowledgment was the same, else 0 (3).
    pub again: u8,
    /// 1 where another NAME claimed the address last, else 0 (1).
    pub has_displaced: u8,
    /// 1 where that NAME lost its address by this claim, else 0 (1).
    pub lost: u8,
}

const _: () = prove!(size_of::<ChangeRecord>() == 32);

const _: () = prove!(align_of::<ChangeRecord>() == 8);

impl ChangeRecord {
    /// Nothing changed.
    fn nothing() -> ChangeRecord
        ensures { result ≡ no_change }
    {
        ChangeRecord {
            name: 0,
            displaced: 0,
            pgn: 0,
            count: 0,
            what: 0,
            address: 0,
            kind: 0,
            control: 0,
            again: 0,
            has_displaced: 0,
            lost: 0,
        }
    }

    /// This changed of a NAME.
    fn of_name(what: u8, name: Name) -> ChangeRecord
        ensures { result ≡ record no_change { what = what; name = name } }
    {
        ChangeRecord {
            what,
            name: name.number(),
            ..ChangeRecord::nothing()
        }
    }

    /// The same, of a message of this kind from this address.
    fn of_message(self, kind: Kind, source: u8) -> ChangeRecord
        ensures { result ≡ record self { kind = kind_told kind; address = source } }
    {
        ChangeRecord {
            kind: number_of(kind),
            address: source,
            ..self
        }
    }

    /// The same, and which NAME claimed the address before, if another one did.
    fn displacing(self, displaced: Option<Displaced>) -> ChangeRecord
        ensures { result ≡ with_displaced displaced self }
    {
        match displaced {
            Some(other) => ChangeRecord {
                has_displaced: 1,
                displaced: other.name.number(),
                lost: u8::from(other.lost),
                ..self
            },
            None => self,
        }
    }

    /// The record of a change.
    pub fn of(change: &Change) -> ChangeRecord
        ensures { TellsChange result change.now }
    {
        match *change {
            Change::Nothing => ChangeRecord::nothing(),
            Change::Claimed {
                name,
                address,
                displaced,
            } => {
                let claimed = ChangeRecord {
                    address,
                    ..ChangeRecord::of_name(1, name)
                };
                claimed.displacing(displaced)
            }
            Change::GaveUp { name } => ChangeRecord::of_name(2, name),
            Change::Acknowledged {
                name,
                control,
                pgn,
                again,
            } => ChangeRecord {
                control,
                pgn: pgn.number(),
                again: u8::from(again),
                ..ChangeRecord::of_name(3, name)
            },
            Change::Listed { name, kind, source } => {
                ChangeRecord::of_name(4, name).of_message(kind, source)
            }
            Change::Unreadable { name, kind, source } => {
                ChangeRecord::of_name(5, name).of_message(kind, source)
            }
            Change::Unowned { kind, source } => ChangeRecord {
                what: 6,
                ..ChangeRecord::nothing().of_message(kind, source)
            },
            Change::Missed { count } => ChangeRecord {
                what: 7,
                count,
                ..ChangeRecord::nothing()
            },
        }
    }

    /// The record of what a frame changed, or missed ones, of what a live station shows.
    pub fn of_told(told: &Told) -> ChangeRecord
        ensures { result ≡ change_told_on_bus told.now }
    {
        if told.stranger {
            return ChangeRecord {
                what: 9,
                ..ChangeRecord::nothing()
            };
        }
        ChangeRecord::of(&told.change)
    }
}

/// The number of a kind, which is that of its message.
pub(crate) fn number_of(kind: Kind) -> u8
    ensures { result ≡ kind_told kind }
{
    match kind {
        Kind::Dm1 => 1,
        Kind::Dm2 => 2,
        Kind::Dm6 => 6,
    }
}
