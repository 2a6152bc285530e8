//! The lists under a NAME, in the station of a handle: entries, each with its codes.
ghost use Rattle.std.specs.Prelude.{◌≡◌, ◌↔◌, ◌⊎◌, ◌<◌, ◌≤◌, ◌+◌, ◌^◌, ℕ, List, Some, IsSome, IsNone, length, reverse, true, false};
ghost use Rattle.bus_model.specs.Heard.{StationSettings, counted, entries_heard};
ghost use Rattle.can_frame.specs.declared.reading.Reading.{Reading as AnyReading};
ghost use Rattle.dm_messages.specs.declared.kind.Kind.{Kind as AnyKind};
ghost use Rattle.dm_messages.specs.declared.shown.Shown.{Shown as AnyShown};
ghost use Rattle.entry_lists.specs.Newest.{AreNewest, newest_under};
ghost use Rattle.station_c.specs.Handles.{HoldsSame, HoldsReadings, has_station};
ghost use Rattle.station_c.specs.Places.{entry_answered, code_answered, place_kept};
ghost use Rattle.station_c.specs.Records.{entry_told, code_told, kind_numbered};
ghost use Rattle.station_c.specs.Statuses.{Answers};

use crate::absent::Absent;
use crate::handle::StationHandle;
use crate::records::{CodeRecord, EntryRecord};
use crate::status::Status;
use dm_messages::Kind;
use entry_lists::NewestEntries;
use name_field::Name;
use std::alloc::Global;

/// How many entries of a kind, 1 for DM1, 2 for DM2 and 6 for DM6, came under a NAME, up to the greatest 64-bit number, whatever is
/// kept of them; 0 for a NAME that has no row.
///
/// Refused, in this order: `NoKind`, `NoStation`; `count` is then as it was.
#[unsafe(no_mangle)]
pub extern "C" fn hidzgula_entries(
    alloc: Global,
    handle: &mut StationHandle,
    name: u64,
    kind: u8,
    count: &mut u64,
) -> u32
    ensures heard { Answers result Status.Done → (k : AnyKind) → kind_numbered kind ≡ Some k
        → (r : StationSettings) (grant : ℕ) (h : List AnyReading) → HoldsReadings r grant handle.old h
        → count.new ≡ counted (length (entries_heard r name k h)) }
    ensures untold { ¬ Answers result Status.Done → count.new ≡ count.old }
    ensures kept { HoldsSame handle.old handle.new }
    ensures no_kind { Answers result Status.NoKind ↔ IsNone (kind_numbered kind) }
    ensures no_station { Answers result Status.NoStation ↔ (IsSome (kind_numbered kind) × (has_station handle.old ≡ false)) }
    ensures done { Answers result Status.Done ↔ (IsSome (kind_numbered kind) × (has_station handle.old ≡ true)) }
{
    let Some(kind) = kind_of(kind) else {
        return Status::NoKind.number();
    };
    let Some(station) = handle.lift(alloc) else {
        return Status::NoStation.number();
    };
    *count = station.lists().count(Name::from_number(name), kind);
    handle.put(station);
    Status::Done.number()
}

/// The entry at this place, from 0, the oldest of all that came first.
///
/// Refused, in this order: `NoKind`, `NoStation`, `NotKept` where it came and is none of the newest that are kept, `NoPlace` where
/// no more than `place` entries came; `entry` is then as it was. Of a list of 2^64 entries or more its clauses say nothing.
#[unsafe(no_mangle)]
pub extern "C" fn hidzgula_entry(
    alloc: Global,
    handle: &mut StationHandle,
    name: u64,
    kind: u8,
    place: u64,
    entry: &mut EntryRecord,
) -> u32
    ensures heard { Answers result Status.Done → (k : AnyKind) → kind_numbered kind ≡ Some k
        → (r : StationSettings) (grant : ℕ) (h : List AnyReading) → HoldsReadings r grant handle.old h → length (entries_heard r name k h) < 2 ^ 64
        → entry_told (reverse (entries_heard r name k h)) place ≡ Some entry.new }
    ensures not_kept { (k : AnyKind) → kind_numbered kind ≡ Some k
        → (r : StationSettings) (grant : ℕ) (h : List AnyReading) → HoldsReadings r grant handle.old h → length (entries_heard r name k h) < 2 ^ 64
        → Answers result Status.NotKept ↔ (place + handle.old.value.lists.keep < length (entries_heard r name k h)) }
    ensures no_place { (k : AnyKind) → kind_numbered kind ≡ Some k
        → (r : StationSettings) (grant : ℕ) (h : List AnyReading) → HoldsReadings r grant handle.old h → length (entries_heard r name k h) < 2 ^ 64
        → Answers result Status.NoPlace ↔ (length (entries_heard r name k h) ≤ place) }
    ensures untold { ¬ Answers result Status.Done → entry.new ≡ entry.old }
    ensures kept { HoldsSame handle.old handle.new }
    ensures no_kind { Answers result Status.NoKind ↔ IsNone (kind_numbered kind) }
    ensures no_station { Answers result Status.NoStation ↔ (IsSome (kind_numbered kind) × (has_station handle.old ≡ false)) }
    ensures done { IsSome (kind_numbered kind) → has_station handle.old ≡ true
        → (Answers result Status.Done) ⊎ (Answers result Status.NotKept) ⊎ (Answers result Status.NoPlace) }
{
    let Some(kind) = kind_of(kind) else {
        return Status::NoKind.number();
    };
    let Some(station) = handle.lift(alloc) else {
        return Status::NoStation.number();
    };
    let found = entry_at(station.lists(), Name::from_number(name), kind, place);
    handle.put(station);
    match found {
        Ok(it) => {
            *entry = it;
            Status::Done.number()
        }
        Err(Absent::NotKept) => Status::NotKept.number(),
        Err(Absent::NeverCame) => Status::NoPlace.number(),
    }
}

/// The code at this place of the entry at that place, both from 0, in the order of the message; of all entries that came the oldest
/// first.
///
/// Refused, in this order: `NoKind`, `NoStation`, `NotKept` where the entry came and is none of the newest that are kept, `NoPlace`
/// where no such entry came, or it has no such code; `code` is then as it was. Of a list of 2^64 entries or more its clauses say
/// nothing.
#[unsafe(no_mangle)]
pub extern "C" fn hidzgula_code(
    alloc: Global,
    handle: &mut StationHandle,
    name: u64,
    kind: u8,
    entry: u64,
    place: usize,
    code: &mut CodeRecord,
) -> u32
    ensures heard { Answers result Status.Done → (k : AnyKind) → kind_numbered kind ≡ Some k
        → (r : StationSettings) (grant : ℕ) (h : List AnyReading) → HoldsReadings r grant handle.old h → length (entries_heard r name k h) < 2 ^ 64
        → code_told (reverse (entries_heard r name k h)) entry place ≡ Some code.new }
    ensures not_kept { (k : AnyKind) → kind_numbered kind ≡ Some k
        → (r : StationSettings) (grant : ℕ) (h : List AnyReading) → HoldsReadings r grant handle.old h → length (entries_heard r name k h) < 2 ^ 64
        → Answers result Status.NotKept ↔ (entry + handle.old.value.lists.keep < length (entries_heard r name k h)) }
    ensures no_place { (k : AnyKind) → kind_numbered kind ≡ Some k
        → (r : StationSettings) (grant : ℕ) (h : List AnyReading) → HoldsReadings r grant handle.old h → length (entries_heard r name k h) < 2 ^ 64
        → Answers result Status.NoPlace
        ↔ ((length (entries_heard r name k h) ≤ entry + handle.old.value.lists.keep) × IsNone (code_told (reverse (entries_heard r name k h)) entry place)) }
    ensures untold { ¬ Answers result Status.Done → code.new ≡ code.old }
    ensures kept { HoldsSame handle.old handle.new }
    ensures no_kind { Answers result Status.NoKind ↔ IsNone (kind_numbered kind) }
    ensures no_station { Answers result Status.NoStation ↔ (IsSome (kind_numbered kind) × (has_station handle.old ≡ false)) }
    ensures done { IsSome (kind_numbered kind) → has_station handle.old ≡ true
        → (Answers result Status.Done) ⊎ (Answers result Status.NotKept) ⊎ (Answers result Status.NoPlace) }
{
    let Some(kind) = kind_of(kind) else {
        return Status::NoKind.number();
    };
    let Some(station) = handle.lift(alloc) else {
        return Status::NoStation.number();
    };
    let found = code_at(station.lists(), Name::from_number(name), kind, entry, place);
    handle.put(station);
    match found {
        Ok(it) => {
            *code = it;
            Status::Done.number()
        }
        Err(Absent::NotKept) => Status::NotKept.number(),
        Err(Absent::NeverCame) => Status::NoPlace.number(),
    }
}

/// The kind of this number, which is that of its message: 1 is DM1, 2 is DM2, 6 is DM6.
pub(crate) fn kind_of(number: u8) -> Option<Kind>
    ensures { result ≡ kind_numbered number }
{
    match number {
        1 => Some(Kind::Dm1),
        2 => Some(Kind::Dm2),
        6 => Some(Kind::Dm6),
        _ => None,
    }
}

/// Where an entry stands among those that are kept of a list of which so many came: it is at this place of all, from 0.
pub(crate) fn place_among_kept(count: u64, keep: u32, place: u64) -> Result<usize, Absent>
    ensures { result ≡ place_kept count keep place }
{
    if place >= count {
        return Err(Absent::NeverCame);
    }
    let gone = count.saturating_sub(u64::from(keep));
    if place < gone {
        return Err(Absent::NotKept);
    }
    Ok((place - gone) as usize)
}

/// The entry at this place of a list.
pub(crate) fn entry_at(
    lists: &NewestEntries,
    name: Name,
    kind: Kind,
    place: u64,
) -> Result<EntryRecord, Absent>
    ensures { (list : List AnyShown) → AreNewest lists.now.keep list (newest_under lists.now name kind) → length list < 2 ^ 64
        → result ≡ entry_answered lists.now.keep list place }
{
    let at = match place_among_kept(lists.count(name, kind), lists.keep(), place) {
        Ok(at) => at,
        Err(absent) => return Err(absent),
    };
    let Some(shown) = lists.shown(name, kind, at) else {
        return Err(Absent::NeverCame);
    };
    let [lamps, flashes] = shown.lamps.to_bytes();
    Ok(EntryRecord {
        lamps,
        flashes,
        codes: shown.codes.as_slice().len(),
    })
}

/// The code at this place of an entry of a list.
pub(crate) fn code_at(
    lists: &NewestEntries,
    name: Name,
    kind: Kind,
    entry: u64,
    place: usize,
) -> Result<CodeRecord, Absent>
    ensures { (list : List AnyShown) → AreNewest lists.now.keep list (newest_under lists.now name kind) → length list < 2 ^ 64
        → result ≡ code_answered lists.now.keep list entry place }
{
    let at = match place_among_kept(lists.count(name, kind), lists.keep(), entry) {
        Ok(at) => at,
        Err(absent) => return Err(absent),
    };
    let Some(shown) = lists.shown(name, kind, at) else {
        return Err(Absent::NeverCame);
    };
    let Some(code) = shown.codes.as_slice().get(place) else {
        return Err(Absent::NeverCame);
    };
    Ok(CodeRecord {
        spn: code.spn(),
        fmi: code.fmi(),
        count: code.count(),
    })
}
