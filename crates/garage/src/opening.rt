ghost use Rattle.std.specs.Prelude.{◌≡◌, ◌<◌, ◌≤◌, ◌↔◌, ◌⊎◌, ◌∷◌, [], ℕ, map, length, OnOk, IfOk, IfErr, IsErrOf, IsTrue};
ghost use Rattle.std.specs.Bool.{MatchBool};
ghost use Rattle.std.specs.List.{All};
ghost use Rattle.bus_ledger.specs.BusValue.{spare_at};
ghost use Rattle.bus_ledger.specs.Changes.{new_traffic};
ghost use Rattle.journal.specs.State.{with_claims};
ghost use Rattle.garage.specs.Opening.{new_garage, setting_value, station_seat_of, with_one, with_stations, HaveOwnNames, HaveNames, AreSettings, CanStart, IsApartBefore, IsSetting};
ghost use Rattle.garage.specs.Inside.{ArePostsOf};

use crate::error::GarageError;
use crate::garage::{Garage, Post};
use bus_ledger::{Bus, MOST_STATIONS, MOST_UNREAD, StationSeat};
use can_frame::GREATEST_ADDRESS;
use entry_lists::AllEntries;
use journal::{Journal, MOST_EVENTS};
use name_field::Name;
use station_table::Station;
use std::alloc::Global;

/// How a station is opened.
#[derive(Clone, Copy, PartialEq, Eq)]
pub struct Setting {
    /// Its NAME.
    pub name: Name,
    /// The address that it claims, 0 to 253.
    pub address: u8,
    /// How many frames it can leave unread before it misses one, 1 to 4,096.
    pub window: u32,
    /// How many packets of a session it asks for at once, 1 to 255.
    pub grant: u8,
}

impl Garage {
    /// A garage with one station alone, whose claim of its address is queued.
    ///
    /// - `name`, `address`: the station's NAME, and the address that it claims, 0 to 253.
    /// - `window`: how many frames it can leave unread before it misses one, 1 to 4,096.
    /// - `grant`: how many packets of a session it asks for at once, 1 to 255.
    /// - `limit`: how many events the journal may hold, 1 to 16,777,216.
    ///
    /// Refused: `BadSetting` exactly if one of these is out of its range, else `OutOfMemory`.
    #[tactic(auto)]
    pub fn new(
        alloc: Global,
        name: Name,
        address: u8,
        window: u32,
        grant: u8,
        limit: u32,
    ) -> Result<Garage, GarageError>
        ensures ok { IfOk result
            (λ g. g ≡ new_garage (with_one (record { name = name; address = address; window = window; grant = grant }) limit)) }
        ensures bad_setting { IsErrOf result GarageError.BadSetting
            ↔ (¬ IsSetting (record { name = name; address = address; window = window; grant = grant }) limit) }
        ensures only { IfErr result (λ e. (e ≡ GarageError.BadSetting) ⊎ (e ≡ GarageError.OutOfMemory)) }
    {
        let setting = Setting {
            name,
            address,
            window,
            grant,
        };
        Garage::with_stations(alloc, &[setting], limit)
    }

    /// A garage with two stations alone, on the seats 0 and 1.
    ///
    /// Their claims of their addresses are queued. The journal may hold `limit` events, 1 to 16,777,216.
    ///
    /// Refused, in this order:
    /// - `BadSetting` if a setting or the limit is out of its range;
    /// - `NameInUse` if both have one NAME;
    /// - `OutOfMemory`.
    #[tactic(auto)]
    pub fn with_two(
        alloc: Global,
        first: Setting,
        second: Setting,
        limit: u32,
    ) -> Result<Garage, GarageError>
        ensures ok { IfOk result (λ g. g ≡ new_garage (with_stations (first ∷ second ∷ []) limit)) }
        ensures bad_setting { IsErrOf result GarageError.BadSetting ↔ (¬ AreSettings (first ∷ second ∷ []) limit) }
        ensures name_in_use { IsErrOf result GarageError.NameInUse
            ↔ (AreSettings (first ∷ second ∷ []) limit × (first.name ≡ second.name)) }
        ensures only { IfErr result
            (λ e. (e ≡ GarageError.BadSetting) ⊎ (e ≡ GarageError.NameInUse) ⊎ (e ≡ GarageError.OutOfMemory)) }
    {
        Garage::with_stations(alloc, &[first, second], limit)
    }

    /// A garage with these stations alone, 1 to 8, on the first seats.
    ///
    /// They have the seats 0, 1, 2, .. in their order, and their claims of their addresses are queued. The journal may hold `limit`
    /// events, 1 to 16,777,216.
    ///
    /// Refused, in this order:
    /// - `BadSetting` if there are none or more than 8, or a setting or the limit is out of its range;
    /// - `NameInUse` if two have one NAME;
    /// - `OutOfMemory`.
    #[tactic(auto)]
    pub fn with_stations(
        alloc: Global,
        settings: &[Setting],
        limit: u32,
    ) -> Result<Garage, GarageError>
        ensures ok { IfOk result (λ g. g ≡ new_garage (with_stations settings.now limit)) }
        ensures bad_setting { IsErrOf result GarageError.BadSetting ↔ (¬ AreSettings settings.now limit) }
        ensures name_in_use { IsErrOf result GarageError.NameInUse
            ↔ (AreSettings settings.now limit × (¬ HaveOwnNames settings.now)) }
        ensures only { IfErr result
            (λ e. (e ≡ GarageError.BadSetting) ⊎ (e ≡ GarageError.NameInUse) ⊎ (e ≡ GarageError.OutOfMemory)) }
    {
        if !are_settings(settings, limit) {
            return Err(GarageError::BadSetting);
        }
        if !are_apart(settings) {
            return Err(GarageError::NameInUse);
        }
        let seats = seats_of(alloc, settings)?;
        let mut bus = Bus::with_stations(alloc, seats.as_slice())?;
        let posts = post(alloc, &mut bus, settings)?;
        Ok(Garage {
            limit,
            bus,
            posts,
            stations: settings.len() as u32,
            places: Vec::new(alloc),
            begun: 0,
            live: 0,
            injected: 0,
            journal: Journal::new(),
        })
    }
}

/// Whether a garage can be opened with these settings, the NAMEs aside.
fn are_settings(settings: &[Setting], limit: u32) -> bool
    ensures { MatchBool result (AreSettings settings.now limit) (¬ AreSettings settings.now limit) }
{
    if settings.is_empty() || settings.len() > MOST_STATIONS {
        return false;
    }
    for setting in settings {
        if !is_setting(*setting, limit) {
            return false;
        }
    }
    true
}

fn is_setting(setting: Setting, limit: u32) -> bool
    ensures { IsTrue result ↔ IsSetting (setting_value setting) limit }
{
    setting.address <= GREATEST_ADDRESS
        && setting.window >= 1
        && setting.window <= MOST_UNREAD
        && setting.grant >= 1
        && limit >= 1
        && limit <= MOST_EVENTS
}

/// Whether no two have one NAME.
fn are_apart(settings: &[Setting]) -> bool
    ensures { MatchBool result (HaveOwnNames settings.now) (¬ HaveOwnNames settings.now) }
{
    for i in 0..settings.len() {
        if !is_apart_before(settings, i) {
            return false;
        }
    }
    true
}

/// Whether none before the i-th has its NAME.
fn is_apart_before(settings: &[Setting], i: usize) -> bool
    requires { i < length settings.now }
    ensures { MatchBool result (IsApartBefore settings.now i) (¬ IsApartBefore settings.now i) }
{
    for j in 0..i {
        if settings[j].name == settings[i].name {
            return false;
        }
    }
    true
}

/// What the bus is to know of the stations.
fn seats_of(alloc: Global, settings: &[Setting]) -> Result<Vec<StationSeat>, GarageError>
    ensures ok { IfOk result (λ v. v.items ≡ map station_seat_of settings.now) }
    ensures err { IfErr result (λ e. e ≡ GarageError.OutOfMemory) }
{
    let mut seats = Vec::with_capacity(alloc, settings.len())?;
    for setting in settings {
        seats.push(StationSeat {
            name: setting.name,
            window: setting.window,
        })?;
    }
    Ok(seats)
}

/// Opens the stations of a new bus, and queues the claim of each.
fn post(alloc: Global, bus: &mut Bus, settings: &[Setting]) -> Result<Vec<Post>, GarageError>
    requires new { bus.old.traffic ≡ new_traffic (map station_seat_of settings.now) }
    requires few { length settings.now ≤ MOST_STATIONS }
    requires starts { All CanStart settings.now }
    requires spares { (y : ℕ) → y < length settings.now → 1 ≤ spare_at bus.old y }
    ensures posts { IfOk result (λ v. ArePostsOf v.items settings.now (length settings.now)) }
    ensures names { IfOk result (λ _. HaveNames settings.now (length settings.now)) }
    ensures claims { OnOk result (bus.new.traffic ≡ with_claims 0 (map setting_value settings.now) bus.old.traffic) }
    ensures err { IfErr result (λ e. e ≡ GarageError.OutOfMemory) }
{
    let mut posts = Vec::with_capacity(alloc, settings.len())?;
    for (seat, setting) in settings.iter().enumerate() {
        let station = Station::new(alloc, setting.name, setting.address, setting.grant);
        let lists = AllEntries::new(alloc);
        bus.queue_reserved(seat as u32, station.start(), None);
        posts.push(Post {
            setting: *setting,
            station,
            lists,
        })?;
    }
    Ok(posts)
}
