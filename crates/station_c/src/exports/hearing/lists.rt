//! The lists of a unit, in the listener of a handle: entries, each with its codes.
ghost use Rattle.std.specs.Prelude.{◌≡◌, ◌↔◌, ◌⊎◌, ◌<◌, ◌≤◌, ◌+◌, ◌^◌, List, Some, IsSome, IsNone, length, true, false};
ghost use Rattle.bus_model.specs.Heard.{counted};
ghost use Rattle.can_frame.specs.declared.reading.Reading.{Reading as AnyReading};
ghost use Rattle.dm_messages.specs.declared.kind.Kind.{Kind as AnyKind};
ghost use Rattle.entry_lists.specs.Newest.{AreNewest};
ghost use Rattle.listener.specs.NewestSent.{newest_sent_of};
ghost use Rattle.listener.specs.ReadEntries.{EntryRead, lists_read};
ghost use Rattle.station_c.specs.HeardRecords.{sent_code_told, sent_told, who_recorded};
ghost use Rattle.station_c.specs.ListenerHandles.{HoldsHeard, HoldsSameListener, has_listener};
ghost use Rattle.station_c.specs.Places.{if_kept};
ghost use Rattle.station_c.specs.Records.{kind_numbered};
ghost use Rattle.station_c.specs.Statuses.{Answers};

use crate::absent::Absent;
use crate::exports::lists::{kind_of, place_among_kept};
use crate::heard_records::{SentRecord, WhoRecord};
use crate::listener_handle::ListenerHandle;
use crate::records::CodeRecord;
use crate::status::Status;
use dm_messages::Kind;
use listener::NewestSent;
use std::alloc::Global;

/// How many entries of a kind, 1 for DM1, 2 for DM2 and 6 for DM6, a unit has had, up to the greatest 64-bit number, whatever is
/// kept of them, and whether they were read whole or in part.
///
/// Refused, in this order: `NoKind`, `NoListener`; `count` is then as it was.
#[unsafe(no_mangle)]
pub extern "C" fn hidzgula_listener_entries(
    alloc: Global,
    handle: &mut ListenerHandle,
    who: &WhoRecord,
    kind: u8,
    count: &mut u64,
) -> u32
    ensures heard { Answers result Status.Done → (k : AnyKind) → kind_numbered kind ≡ Some k → (h : List AnyReading) → HoldsHeard handle.old h
        → count.new ≡ counted (length (lists_read h (who_recorded who.now) k)) }
    ensures untold { ¬ Answers result Status.Done → count.new ≡ count.old }
    ensures kept { HoldsSameListener handle.old handle.new }
    ensures no_kind { Answers result Status.NoKind ↔ IsNone (kind_numbered kind) }
    ensures no_listener { Answers result Status.NoListener ↔ (IsSome (kind_numbered kind) × (has_listener handle.old ≡ false)) }
    ensures done { Answers result Status.Done ↔ (IsSome (kind_numbered kind) × (has_listener handle.old ≡ true)) }
{
    let Some(kind) = kind_of(kind) else {
        return Status::NoKind.number();
    };
    let Some(it) = handle.lift(alloc) else {
        return Status::NoListener.number();
    };
    *count = it.lists().count(who.who(), kind);
    handle.put(it);
    Status::Done.number()
}

/// The entry of a unit and kind at this place, from 0, the oldest of all that came first.
///
/// Refused, in this order: `NoKind`, `NoListener`, `NotKept` where it came and is none of the newest that are kept, `NoPlace` where
/// no more than `place` entries came; `entry` is then as it was. Of a list of 2^64 entries or more its clauses say nothing.
#[unsafe(no_mangle)]
pub extern "C" fn hidzgula_listener_entry(
    alloc: Global,
    handle: &mut ListenerHandle,
    who: &WhoRecord,
    kind: u8,
    place: u64,
    entry: &mut SentRecord,
) -> u32
    ensures heard { Answers result Status.Done → (k : AnyKind) → kind_numbered kind ≡ Some k → (h : List AnyReading) → HoldsHeard handle.old h
        → length (lists_read h (who_recorded who.now) k) < 2 ^ 64
        → sent_told (lists_read h (who_recorded who.now) k) place ≡ Some entry.new }
    ensures not_kept { (k : AnyKind) → kind_numbered kind ≡ Some k → (h : List AnyReading) → HoldsHeard handle.old h
        → length (lists_read h (who_recorded who.now) k) < 2 ^ 64
        → Answers result Status.NotKept ↔ (place + handle.old.value.lists.keep < length (lists_read h (who_recorded who.now) k)) }
    ensures no_place { (k : AnyKind) → kind_numbered kind ≡ Some k → (h : List AnyReading) → HoldsHeard handle.old h
        → length (lists_read h (who_recorded who.now) k) < 2 ^ 64
        → Answers result Status.NoPlace ↔ (length (lists_read h (who_recorded who.now) k) ≤ place) }
    ensures untold { ¬ Answers result Status.Done → entry.new ≡ entry.old }
    ensures kept { HoldsSameListener handle.old handle.new }
    ensures no_kind { Answers result Status.NoKind ↔ IsNone (kind_numbered kind) }
    ensures no_listener { Answers result Status.NoListener ↔ (IsSome (kind_numbered kind) × (has_listener handle.old ≡ false)) }
    ensures done { IsSome (kind_numbered kind) → has_listener handle.old ≡ true
        → (Answers result Status.Done) ⊎ (Answers result Status.NotKept) ⊎ (Answers result Status.NoPlace) }
{
    let Some(kind) = kind_of(kind) else {
        return Status::NoKind.number();
    };
    let Some(it) = handle.lift(alloc) else {
        return Status::NoListener.number();
    };
    let found = entry_at(it.lists(), who, kind, place);
    handle.put(it);
    match found {
        Ok(told) => {
            *entry = told;
            Status::Done.number()
        }
        Err(Absent::NotKept) => Status::NotKept.number(),
        Err(Absent::NeverCame) => Status::NoPlace.number(),
    }
}

/// The code at this place of the entry at that place, both from 0, in the order of the message; of all entries of the unit and kind
/// the oldest first.
///
/// Refused, in this order: `NoKind`, `NoListener`, `NotKept` where the entry came and is none of the newest that are kept, `NoPlace`
/// where no such entry came, or it has no such code; `code` is then as it was. Of a list of 2^64 entries or more its clauses say
/// nothing.
#[unsafe(no_mangle)]
pub extern "C" fn hidzgula_listener_code(
    alloc: Global,
    handle: &mut ListenerHandle,
    who: &WhoRecord,
    kind: u8,
    entry: u64,
    place: usize,
    code: &mut CodeRecord,
) -> u32
    ensures heard { Answers result Status.Done → (k : AnyKind) → kind_numbered kind ≡ Some k → (h : List AnyReading) → HoldsHeard handle.old h
        → length (lists_read h (who_recorded who.now) k) < 2 ^ 64
        → sent_code_told (lists_read h (who_recorded who.now) k) entry place ≡ Some code.new }
    ensures not_kept { (k : AnyKind) → kind_numbered kind ≡ Some k → (h : List AnyReading) → HoldsHeard handle.old h
        → length (lists_read h (who_recorded who.now) k) < 2 ^ 64
        → Answers result Status.NotKept ↔ (entry + handle.old.value.lists.keep < length (lists_read h (who_recorded who.now) k)) }
    ensures no_place { (k : AnyKind) → kind_numbered kind ≡ Some k → (h : List AnyReading) → HoldsHeard handle.old h
        → length (lists_read h (who_recorded who.now) k) < 2 ^ 64
        → Answers result Status.NoPlace
        ↔ ((length (lists_read h (who_recorded who.now) k) ≤ entry + handle.old.value.lists.keep)
        × IsNone (sent_code_told (lists_read h (who_recorded who.now) k) entry place)) }
    ensures untold { ¬ Answers result Status.Done → code.new ≡ code.old }
    ensures kept { HoldsSameListener handle.old handle.new }
    ensures no_kind { Answers result Status.NoKind ↔ IsNone (kind_numbered kind) }
    ensures no_listener { Answers result Status.NoListener ↔ (IsSome (kind_numbered kind) × (has_listener handle.old ≡ false)) }
    ensures done { IsSome (kind_numbered kind) → has_listener handle.old ≡ true
        → (Answers result Status.Done) ⊎ (Answers result Status.NotKept) ⊎ (Answers result Status.NoPlace) }
{
    let Some(kind) = kind_of(kind) else {
        return Status::NoKind.number();
    };
    let Some(it) = handle.lift(alloc) else {
        return Status::NoListener.number();
    };
    let found = code_at(it.lists(), who, kind, entry, place);
    handle.put(it);
    match found {
        Ok(told) => {
            *code = told;
            Status::Done.number()
        }
        Err(Absent::NotKept) => Status::NotKept.number(),
        Err(Absent::NeverCame) => Status::NoPlace.number(),
    }
}

/// The entry at this place of a list.
fn entry_at(
    lists: &NewestSent,
    who: &WhoRecord,
    kind: Kind,
    place: u64,
) -> Result<SentRecord, Absent>
    ensures { (list : List EntryRead) → AreNewest lists.now.keep list (newest_sent_of lists.now (who_recorded who.now) kind) → length list < 2 ^ 64
        → result ≡ if_kept lists.now.keep list place (sent_told list place) }
{
    let at = match place_among_kept(lists.count(who.who(), kind), lists.keep(), place) {
        Ok(at) => at,
        Err(absent) => return Err(absent),
    };
    let Some(kept) = lists.entry(who.who(), kind, at) else {
        return Err(Absent::NeverCame);
    };
    Ok(SentRecord::of(kept))
}

/// The code at this place of an entry of a list.
fn code_at(
    lists: &NewestSent,
    who: &WhoRecord,
    kind: Kind,
    entry: u64,
    place: usize,
) -> Result<CodeRecord, Absent>
    ensures { (list : List EntryRead) → AreNewest lists.now.keep list (newest_sent_of lists.now (who_recorded who.now) kind) → length list < 2 ^ 64
        → result ≡ if_kept lists.now.keep list entry (sent_code_told list entry place) }
{
    let at = match place_among_kept(lists.count(who.who(), kind), lists.keep(), entry) {
        Ok(at) => at,
        Err(absent) => return Err(absent),
    };
    let Some(kept) = lists.entry(who.who(), kind, at) else {
        return Err(Absent::NeverCame);
    };
    let Some(code) = kept.shown().codes.as_slice().get(place) else {
        return Err(Absent::NeverCame);
    };
    Ok(CodeRecord {
        spn: code.spn(),
        fmi: code.fmi(),
        count: code.count(),
    })
}
