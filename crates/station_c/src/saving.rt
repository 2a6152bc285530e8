//! What is saved of a station is tried: it is given away only where another station that reads it shows the same.
ghost use Rattle.std.specs.Prelude.{◌≡◌, ◌↔◌, ◌⊎◌, ◌≤◌, ◌<◌, ℕ, List, IfErr, IfOk, IfSome, IsErrOf, IsNone, None, Some, true, drop, length, take};
ghost use Rattle.std.specs.Option.{option_copied};
ghost use Rattle.bus_model.specs.Heard.{StationSettings, address_heard};
ghost use Rattle.can_frame.specs.declared.address.TheConstants.{GREATEST_ADDRESS as GREATEST};
ghost use Rattle.can_frame.specs.declared.reading.Reading.{Reading as AnyReading};
ghost use Rattle.entry_lists.specs.Newest.{KeepsNewest, newest_under};
ghost use Rattle.live_station.specs.Ear.{frames_told};
ghost use Rattle.station_c.specs.ListedLives.{StandsLive};
ghost use Rattle.station_c.specs.Saving.{ShowSame, ShowSameAt, ShowsAnew, ack_of_row, opened_at, restored};
ghost use Rattle.station_table.specs.Listing.{lists_heard};
ghost use Rattle.station_table.specs.StandsFor.{StandsFor};

use crate::listed_live::ListedLive;
use crate::listed_station::ListedStation;
use crate::records::FrameRecord;
use crate::saved_frames::SavedFrames;
use crate::status::Status;
use address_claim::read_claim;
use can_frame::Reading;
use dm_messages::{Kind, Shown};
use entry_lists::NewestEntries;
use live_station::{HearError, StationTimes};
use name_field::Name;
use station_table::{Row, Station};
use std::alloc::Global;
use trouble_code::Codes;

/// What is saved of a station with its lists.
///
/// Refused: `NotHeld`, `OutOfMemory`, `NotSaved` where another station that reads it does not show the same.
pub fn saved(alloc: Global, saving: &ListedStation) -> Result<Vec<FrameRecord>, Status>
    ensures ok { IfOk result (λ frames. (r : StationSettings) (grant : ℕ) (h : List AnyReading) → StandsFor r grant saving.now.station h
        → KeepsNewest saving.now.lists (lists_heard r h) → (a : ℕ) → address_heard r h ≡ Some a
        → ShowsAnew r a saving.now.lists.keep h (restored frames.items)) }
    ensures not_held { IsErrOf result Status.NotHeld ↔ (saving.now.station.claimer.held ≡ None) }
    ensures only { IfErr result (λ e. (e ≡ Status.NotHeld) ⊎ ((e ≡ Status.OutOfMemory) ⊎ (e ≡ Status.NotSaved))) }
{
    let station = saving.station();
    let lists = saving.lists();
    let Some((name, address)) = held_by(station) else {
        return Err(Status::NotHeld);
    };
    let Ok(frames) = SavedFrames::of(alloc, address, station, lists) else {
        return Err(Status::OutOfMemory);
    };
    let anew = restored(alloc, name, address, lists.keep(), frames.as_slice())?;
    if !show_same(station, lists, anew.station(), anew.lists()) {
        return Err(Status::NotSaved);
    }
    Ok(frames)
}

/// What is saved of a live station with its lists.
///
/// Refused: `NotHeld`, `OutOfMemory`, `NotSaved` where another live station that hears it does not show the same.
pub fn saved_live(alloc: Global, saving: &ListedLive) -> Result<Vec<FrameRecord>, Status>
    ensures ok { IfOk result (λ frames. (r : StationSettings) (grant keep : ℕ) (h : List AnyReading) → StandsLive r grant keep saving.now h
        → (a : ℕ) → address_heard r (frames_told r h) ≡ Some a
        → ShowsAnew r a keep (frames_told r h) (frames_told (opened_at a r) (restored frames.items))) }
    ensures not_held { IsErrOf result Status.NotHeld ↔ (saving.now.live.station.claimer.held ≡ None) }
    ensures only { IfErr result (λ e. (e ≡ Status.NotHeld) ⊎ ((e ≡ Status.OutOfMemory) ⊎ (e ≡ Status.NotSaved))) }
{
    let station = saving.live().station();
    let lists = saving.lists();
    let Some((name, address)) = held_by(station) else {
        return Err(Status::NotHeld);
    };
    let Ok(frames) = SavedFrames::of(alloc, address, station, lists) else {
        return Err(Status::OutOfMemory);
    };
    let anew = restored_live(alloc, name, address, lists.keep(), frames.as_slice())?;
    if !show_same(station, lists, anew.live().station(), anew.lists()) {
        return Err(Status::NotSaved);
    }
    Ok(frames)
}

/// The NAME of a station and the address that it holds, 0 to 253, if it holds one: as its claim says.
fn held_by(station: &Station) -> Option<(Name, u8)>
    ensures some { IfSome result (λ x. (x.0 ≡ station.now.claimer.name) × (Some x.1 ≡ station.now.claimer.held) × (x.1 ≤ GREATEST)) }
    ensures none { IsNone result ↔ (station.now.claimer.held ≡ None) }
{
    let address = station.held()?;
    match read_claim(&station.start()) {
        Ok(claim) => Some((claim.name, address)),
        Err(_) => None,
    }
}

/// A station of this NAME at this address that read these frames, and then a gap.
fn restored(
    alloc: Global,
    name: Name,
    address: u8,
    keep: u32,
    frames: &[FrameRecord],
) -> Result<ListedStation, Status>
    requires { address ≤ GREATEST }
    ensures stands { IfOk result (λ s. StandsFor (record { name = name; address = address }) 1 s.station (restored frames.now)) }
    ensures lists { IfOk result (λ s. KeepsNewest s.lists (lists_heard (record { name = name; address = address }) (restored frames.now))) }
    ensures keep { IfOk result (λ s. s.lists.keep ≡ keep) }
    ensures only { IfErr result (λ e. (e ≡ Status.OutOfMemory) ⊎ (e ≡ Status.NotSaved)) }
{
    let mut station = ListedStation::new(alloc, name, address, 1, keep);
    for record in frames {
        let Ok(frame) = record.frame() else {
            return Err(Status::NotSaved);
        };
        if station.take(alloc, Reading::Frame(frame)).is_err() {
            return Err(Status::OutOfMemory);
        }
    }
    if station.take(alloc, Reading::Gap(1)).is_err() {
        return Err(Status::OutOfMemory);
    }
    Ok(station)
}

/// A live station of this NAME at this address that heard these frames, and then missed one.
fn restored_live(
    alloc: Global,
    name: Name,
    address: u8,
    keep: u32,
    frames: &[FrameRecord],
) -> Result<ListedLive, Status>
    requires { address ≤ GREATEST }
    ensures stands { IfOk result (λ s. StandsLive (record { name = name; address = address }) 1 keep s (restored frames.now)) }
    ensures only { IfErr result (λ e. (e ≡ Status.OutOfMemory) ⊎ (e ≡ Status.NotSaved)) }
{
    let times = StationTimes { gap: 0, settle: 0 };
    let Ok(mut station) = ListedLive::new(alloc, name, address, 1, keep, times) else {
        return Err(Status::OutOfMemory);
    };
    for record in frames {
        let Ok(frame) = record.frame() else {
            return Err(Status::NotSaved);
        };
        match station.hear(alloc, &frame, 0) {
            Ok(_) => {}
            Err(refusal) => return Err(refused(refusal)),
        }
    }
    match station.missed(alloc, 1, 0) {
        Ok(_) => Ok(station),
        Err(refusal) => Err(refused(refusal)),
    }
}

/// Why nothing is saved where a live station does not hear a frame.
fn refused(refusal: HearError) -> Status
    ensures { (result ≡ Status.OutOfMemory) ⊎ (result ≡ Status.NotSaved) }
{
    match refusal {
        HearError::OutOfMemory => Status::OutOfMemory,
        HearError::Full => Status::NotSaved,
    }
}

/// Whether two stations hold the same address, and show of each NAME the same in the same order, but for its address.
fn show_same(
    station: &Station,
    lists: &NewestEntries,
    other: &Station,
    others: &NewestEntries,
) -> bool
    ensures { result ≡ true → ShowSame station.now other.now lists.now others.now }
{
    if other.held() != station.held() || other.names() != station.names() {
        return false;
    }
    for place in 0..station.names() {
        if !show_same_at(place, station, lists, other, others) {
            return false;
        }
    }
    true
}

/// Whether they do so of the NAME at a place of the rows.
fn show_same_at(
    place: usize,
    station: &Station,
    lists: &NewestEntries,
    other: &Station,
    others: &NewestEntries,
) -> bool
    ensures { result ≡ true → ShowSameAt place station.now other.now lists.now others.now }
{
    let (Some(name), Some(found)) = (station.name_at(place), other.name_at(place)) else {
        return false;
    };
    found == name
        && has_same_ack(other.row(name), station.row(name))
        && keep_same(lists, others, name, Kind::Dm1)
        && keep_same(lists, others, name, Kind::Dm2)
        && keep_same(lists, others, name, Kind::Dm6)
}

/// Whether two rows have the same acknowledgment.
fn has_same_ack(row: Option<Row>, other: Option<Row>) -> bool
    ensures { result ≡ true → ack_of_row row ≡ ack_of_row other }
{
    match (row, other) {
        (Some(row), Some(other)) => row.ack == other.ack,
        _ => false,
    }
}

/// Whether the same entries of a list are kept.
fn keep_same(lists: &NewestEntries, others: &NewestEntries, name: Name, kind: Kind) -> bool
    ensures { result ≡ true → (newest_under others.now name kind).entries ≡ (newest_under lists.now name kind).entries }
{
    let kept = lists.kept(name, kind);
    if others.kept(name, kind) != kept {
        return false;
    }
    for place in 0..kept {
        if !is_same(
            others.shown(name, kind, place),
            lists.shown(name, kind, place),
        ) {
            return false;
        }
    }
    true
}

/// Whether two entries are there and show the same lamps and codes.
fn is_same(one: Option<&Shown>, other: Option<&Shown>) -> bool
    ensures { result ≡ true → option_copied one.entry ≡ option_copied other.entry }
{
    match (one, other) {
        (Some(one), Some(other)) => {
            one.lamps == other.lamps && is_same_codes(&one.codes, &other.codes)
        }
        _ => false,
    }
}

fn is_same_codes(one: &Codes, other: &Codes) -> bool
    ensures { result ≡ true → one.now ≡ other.now }
{
    one.as_slice() == other.as_slice()
}

/// Writes what was saved into an array, where it has the room, and how many frames it is in any case.
pub fn give(saved: &[FrameRecord], frames: &mut [FrameRecord], count: &mut usize) -> Status
    ensures count { count.new ≡ length saved.now }
    ensures done { result ≡ Status.Done → (count.new ≤ length frames.new) × (take count.new frames.new ≡ saved.now) × (drop count.new frames.new ≡ drop count.new frames.old) }
    ensures no_room { result ≡ Status.NoRoom → (frames.new ≡ frames.old) × (length frames.old < count.new) }
    ensures only { (result ≡ Status.Done) ⊎ (result ≡ Status.NoRoom) }
{
    *count = saved.len();
    if saved.len() > frames.len() {
        return Status::NoRoom;
    }
    frames[..saved.len()].copy_from_slice(saved);
    Status::Done
}
