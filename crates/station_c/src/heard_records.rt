//! What a listener heard, for C, in C's layout. `c/hidzgula_station.h` has the same structs.
ghost use Rattle.std.specs.Prelude.{◌≡◌};
ghost use Rattle.listener.specs.declared.broken.BrokenBy.TheVariants as AnyReason;
ghost use Rattle.station_c.specs.HeardRecords.{TellsHeard, broken_told, broken_told_at, heard_told, nobody_told, nothing_heard, reason_told, sent_record, who_recorded, who_told, with_broken, with_displaced};
ghost use Rattle.station_c.specs.HeardSeries.{tells_all};
ghost use Rattle.station_c.specs.Records.{kind_told};

use crate::changes::number_of;
use dm_messages::{Kind, Trouble};
use listener::{BrokenBy, BrokenMessage, Displaced, KeptEntry, Overheard, Who};
use name_field::Name;

/// Whose a message is: a NAME's, or that of an address which no NAME had claimed.
#[repr(C)]
#[derive(Clone, Copy)]
pub struct WhoRecord {
    /// The NAME, where `has_name` is not 0.
    pub name: u64,
    /// How many gaps came before, where `has_name` is 0: after a gap the address may be another unit's.
    pub gaps: u64,
    /// 0 where no NAME had claimed the address.
    pub has_name: u8,
    /// The address, where `has_name` is 0.
    pub address: u8,
}

/// What a reading changed of what a listener shows. A field that `what` does not name is 0.
#[repr(C)]
#[derive(Clone, Copy)]
pub struct HeardRecord {
    /// Whose address or row it is (1, 2, 3), or whose message (4, 5, 8).
    pub who: WhoRecord,
    /// The NAME that claimed the address before, where `has_displaced` is 1 (1).
    pub displaced: u64,
    /// The parameter group that was acknowledged (3).
    pub pgn: u32,
    /// How many frames were missed (7).
    pub count: u32,
    /// 0 nothing, 1 claimed, 2 gave up, 3 acknowledged, 4 listed, 5 unreadable, 6 unowned, 7 missed, 8 broken.
    pub what: u8,
    /// The message's kind: 1 is DM1, 2 is DM2, 6 is DM6 (4, 5, 6, 8).
    pub kind: u8,
    /// The address that was claimed (1), or from which it came (3, 4, 5, 6, 8).
    pub source: u8,
    /// The address that it went to, 255 for all (3, 4, 5, 8).
    pub to: u8,
    /// 18 where it was read in part, else 0 (4). Why it cannot be read: 15 its length (5). Why it broke: 1 late, 2 another packet than the next, 3 a packet without eight bytes, 4 a packet that came again with other bytes, 5 an
    /// abort, 6 announced anew, 7 claimed by another (8).
    pub why: u8,
    /// What was acknowledged with: 0 positive, 1 negative, 2 access denied, 3 cannot respond now, or another number (3).
    pub control: u8,
    /// The address that the acknowledgment names as the one that asked (3).
    pub requester: u8,
    /// 1 where its last acknowledgment was the same, else 0 (3).
    pub again: u8,
    /// 1 where another NAME claimed the address last, else 0 (1).
    pub has_displaced: u8,
    /// 1 where that NAME lost its address by this claim, else 0 (1).
    pub lost: u8,
    /// How many packets of the message were read, and of how many (8).
    pub read: u8,
    pub of: u8,
    /// The number of the packet that broke it (8, where `why` is 2, 3 or 4).
    pub number: u8,
    /// The reason of the abort, and the address that sent it (8, where `why` is 5).
    pub reason: u8,
    pub by: u8,
    /// How many messages of several packets the frame broke, up to 255.
    pub broken: u8,
}

/// A message of a list: where it went, its lamps, how many codes can be read, and what of it cannot.
#[repr(C)]
#[derive(Clone, Copy)]
pub struct SentRecord {
    /// The byte of the lamps' states.
    pub lamps: u8,
    /// The byte that tells how they flash.
    pub flashes: u8,
    /// The address that it went to, 255 for all.
    pub to: u8,
    /// 1 where it was read in part, else 0 and the next five too.
    pub in_part: u8,
    /// How many groups of four bytes FF it has.
    pub padding: u16,
    /// How many groups of four bytes 00.
    pub zeros: u16,
    /// How many codes in an older layout of the SPN.
    pub older: u16,
    /// How many bytes behind the last group of four.
    pub bytes_behind: u8,
    /// How many bytes are missing to 8, the least that a message has.
    pub bytes_missing: u8,
    /// How many of its codes can be read.
    pub codes: usize,
}

const _: () = prove!(size_of::<WhoRecord>() == 24);

const _: () = prove!(align_of::<WhoRecord>() == 8);

const _: () = prove!(size_of::<HeardRecord>() == 56);

const _: () = prove!(align_of::<HeardRecord>() == 8);

const _: () = prove!(size_of::<SentRecord>() == 24);

const _: () = prove!(align_of::<SentRecord>() == 8);

impl WhoRecord {
    /// Nobody's.
    fn nobody() -> WhoRecord
        ensures { result ≡ nobody_told }
    {
        WhoRecord {
            name: 0,
            gaps: 0,
            has_name: 0,
            address: 0,
        }
    }

    /// The record of a unit.
    pub fn of(who: Who) -> WhoRecord
        ensures value { result ≡ who_told who }
        ensures back { who_recorded result ≡ who }
    {
        match who {
            Who::Named(name) => WhoRecord {
                name: name.number(),
                has_name: 1,
                ..WhoRecord::nobody()
            },
            Who::Unclaimed { address, gaps } => WhoRecord {
                gaps,
                address,
                ..WhoRecord::nobody()
            },
        }
    }

    /// The unit in a record that C wrote.
    pub fn who(&self) -> Who
        ensures { result ≡ who_recorded self.now }
    {
        if self.has_name == 0 {
            Who::Unclaimed {
                address: self.address,
                gaps: self.gaps,
            }
        } else {
            Who::Named(Name::from_number(self.name))
        }
    }
}

impl SentRecord {
    /// The record of an entry.
    pub fn of(entry: &KeptEntry) -> SentRecord
        ensures { result ≡ sent_record entry.now }
    {
        let [lamps, flashes] = entry.shown().lamps.to_bytes();
        let (in_part, trouble) = match entry.trouble() {
            Some(trouble) => (1, trouble),
            None => (0, nothing_amiss()),
        };
        SentRecord {
            lamps,
            flashes,
            to: entry.to(),
            in_part,
            padding: trouble.padding,
            zeros: trouble.no_code,
            older: trouble.older,
            bytes_behind: trouble.behind,
            bytes_missing: trouble.missing,
            codes: entry.shown().codes.as_slice().len(),
        }
    }
}

/// Nothing is amiss.
fn nothing_amiss() -> Trouble
    ensures { result ≡ record { padding = 0; no_code = 0; older = 0; converted = 0; behind = 0; missing = 0 } }
{
    Trouble {
        padding: 0,
        no_code: 0,
        older: 0,
        converted: 0,
        behind: 0,
        missing: 0,
    }
}

impl HeardRecord {
    /// Nothing changed.
    fn nothing() -> HeardRecord
        ensures { result ≡ nothing_heard }
    {
        HeardRecord {
            who: WhoRecord::nobody(),
            displaced: 0,
            pgn: 0,
            count: 0,
            what: 0,
            kind: 0,
            source: 0,
            to: 0,
            why: 0,
            control: 0,
            requester: 0,
            again: 0,
            has_displaced: 0,
            lost: 0,
            read: 0,
            of: 0,
            number: 0,
            reason: 0,
            by: 0,
            broken: 0,
        }
    }

    /// This was heard of a unit.
    fn of_unit(what: u8, who: Who) -> HeardRecord
        ensures { result ≡ record nothing_heard { what = what; who = who_told who } }
    {
        HeardRecord {
            what,
            who: WhoRecord::of(who),
            ..HeardRecord::nothing()
        }
    }

    /// The same, of a message of this kind that went from this address to that one.
    fn of_message(self, kind: Kind, source: u8, to: u8) -> HeardRecord
        ensures { result ≡ record self { kind = kind_told kind; source = source; to = to } }
    {
        HeardRecord {
            kind: number_of(kind),
            source,
            to,
            ..self
        }
    }

    /// The same, and which NAME claimed the address before, if another one did.
    fn displacing(self, displaced: Option<Displaced>) -> HeardRecord
        ensures { result ≡ with_displaced displaced self }
    {
        match displaced {
            Some(other) => HeardRecord {
                has_displaced: 1,
                displaced: other.name.number(),
                lost: u8::from(other.lost),
                ..self
            },
            None => self,
        }
    }

    /// The record of what was heard, and of the messages that broke: the first of these where nothing else changed.
    pub fn of(heard: &Overheard, broken: &[BrokenMessage]) -> HeardRecord
        ensures { TellsHeard result heard.now broken.now }
    {
        match (heard, broken.first()) {
            (Overheard::Nothing, Some(one)) => HeardRecord::of_broken(one),
            _ => HeardRecord::of_change(heard),
        }
        .with_broken(broken)
    }

    /// The record of the message at this place of those that broke.
    pub fn of_broken_at(broken: &[BrokenMessage], place: usize) -> Option<HeardRecord>
        ensures { result ≡ broken_told_at broken.now place }
    {
        let one = broken.get(place)?;
        Some(HeardRecord::of_broken(one).with_broken(broken))
    }

    /// Whether it tells of each message that broke.
    pub fn tells_all(&self) -> bool
        ensures { result ≡ tells_all self.now }
    {
        self.broken == 0 || (self.broken == 1 && self.what == 8)
    }

    /// The same, and how many messages broke.
    fn with_broken(self, broken: &[BrokenMessage]) -> HeardRecord
        ensures { result ≡ with_broken broken.now self }
    {
        HeardRecord {
            broken: broken.len().min(255) as u8,
            ..self
        }
    }

    /// The record of a message that broke.
    fn of_broken(one: &BrokenMessage) -> HeardRecord
        ensures { result ≡ broken_told one.now }
    {
        let why = HeardRecord::of_reason(one.why);
        HeardRecord {
            what: 8,
            who: WhoRecord::of(one.who),
            read: one.read,
            of: one.of,
            ..why.of_message(one.kind, one.source, one.to)
        }
    }

    /// Why a message broke.
    fn of_reason(why: BrokenBy) -> HeardRecord
        ensures { result ≡ reason_told why }
    {
        let (why, number) = match why {
            BrokenBy::Late => (1, 0),
            BrokenBy::Packet { number, .. } => (2, number),
            BrokenBy::Length { number } => (3, number),
            BrokenBy::Differs { number } => (4, number),
            BrokenBy::Abort { reason, by } => return HeardRecord::of_abort(reason, by),
            BrokenBy::Anew => (6, 0),
            BrokenBy::Claim => (7, 0),
        };
        HeardRecord {
            why,
            number,
            ..HeardRecord::nothing()
        }
    }

    /// It was aborted, for this reason and by this address.
    fn of_abort(reason: u8, by: u8) -> HeardRecord
        ensures { result ≡ reason_told (AnyReason.Abort reason by) }
    {
        HeardRecord {
            why: 5,
            reason,
            by,
            ..HeardRecord::nothing()
        }
    }

    /// The record of what changed.
    fn of_change(heard: &Overheard) -> HeardRecord
        ensures { result ≡ heard_told heard.now }
    {
        match *heard {
            Overheard::Nothing => HeardRecord::nothing(),
            Overheard::Claimed {
                name,
                address,
                displaced,
            } => {
                let claimed = HeardRecord {
                    source: address,
                    ..HeardRecord::of_unit(1, Who::Named(name))
                };
                claimed.displacing(displaced)
            }
            Overheard::GaveUp { name } => HeardRecord::of_unit(2, Who::Named(name)),
            Overheard::Acknowledged {
                name,
                control,
                pgn,
                source,
                requester,
                to,
                again,
            } => HeardRecord {
                control,
                pgn: pgn.number(),
                source,
                requester,
                to,
                again: u8::from(again),
                ..HeardRecord::of_unit(3, Who::Named(name))
            },
            Overheard::Listed {
                who,
                kind,
                source,
                to,
            } => HeardRecord::of_unit(4, who).of_message(kind, source, to),
            Overheard::ListedInPart {
                who,
                kind,
                source,
                to,
            } => HeardRecord {
                why: 18,
                ..HeardRecord::of_unit(4, who).of_message(kind, source, to)
            },
            Overheard::Unreadable {
                who,
                kind,
                source,
                to,
                why,
            } => {
                let unread = HeardRecord {
                    why: why.number(),
                    ..HeardRecord::of_unit(5, who)
                };
                unread.of_message(kind, source, to)
            }
            Overheard::Unowned { kind, source } => HeardRecord {
                what: 6,
                ..HeardRecord::nothing().of_message(kind, source, 0)
            },
            Overheard::Missed { count } => HeardRecord {
                what: 7,
                count,
                ..HeardRecord::nothing()
            },
        }
    }
}
