ghost use Rattle.std.specs.Prelude.{◌≡◌, ◌≤◌, ◌<◌, ◌+◌, ◌-◌, ◌^◌, ◌∷◌, [], List, ℕ, min, map, length, slice_get, is_some, option_map, IfOk, IfSome, OnOk, Option};
ghost use Rattle.bus_model.specs.Heard.{address_in_row, counted, missed_count, names_heard};
ghost use Rattle.bus_model.specs.Overheard.{row_overheard};
ghost use Rattle.bus_watch.specs.Identified.{first_unit};
ghost use Rattle.bus_watch.specs.Runs.{units_shown};
ghost use Rattle.bus_watch.specs.Told.{StandsForAll, all_said, readings_said};
ghost use Rattle.picture.specs.Lanes.{lane_in};
ghost use Rattle.picture.specs.Severities.{rank};
ghost use Rattle.picture.specs.declared.unit.DrawnUnit.{DrawnUnit as AUnit};
ghost use Rattle.picture.specs.declared.unit.Sender.{Sender as ASender};
ghost use Rattle.watch_page.specs.Listing.{listed_among};
ghost use Rattle.watch_page.specs.Standing.{Heard, WatchHeard, UnitsStand, listed_as, named_presence, newest_told, order_by, presence_told, run_rank, tells, unclaimed_presence, units_on, units_told, with_places};
ghost use Rattle.watch_page.specs.Standing as told;
ghost use Rattle.watch_page.specs.declared.unit_list.Listed.{Listed as AListed};
ghost use Rattle.watch_page.specs.declared.unit_list.TheConstants.{ORDERS};

use crate::message_words::{LAMPS, is_on};
use crate::unit_list::{Listed, NOW, ORDERS, Presence, UnitList};
use crate::view::{View, who_of};
use bus_watch::{EntryRun, Watch, Who};
use dm_messages::Kind;
use name_field::Name;
use picture::{DrawnUnit, Holding, Picture, Sender, Severity, UnitLane};
use std::alloc::{AllocError, Global};
use trouble_code::Lamps;

/// How many buses have numbers.
const NUMBERS: usize = 1 << 16;

/// How the units of all buses stand at the end: what the table and the words above it are written of.
#[derive(Drop)]
pub struct Standing {
    /// How many units there are, up to the greatest 64-bit number.
    pub all: u64,
    /// How many of them are on the bus, and how many of those report faults.
    pub on: u64,
    pub faulty: u64,
    /// How many of them have each lamp on, in the order of `LAMPS`.
    pub lamps: [u64; 4],
    /// Of how many of them the newest DM1 was read in part.
    pub partly: u64,
    /// Of how many units a DM1 with a fault was not heard to the end.
    pub silent: u64,
    /// The units that are listed.
    pub(crate) list: UnitList,
}

impl Standing {
    /// How the units of all buses stand, in the order of buses and of their places there.
    ///
    /// # Errors
    /// Memory was refused.
    pub fn of(view: &View<'_>) -> Result<Standing, AllocError>
        ensures { (heard : ℕ → Heard) → ((place : ℕ) → IfSome (slice_get view.now.buses.now place) (WatchHeard (heard place)))
            → IfOk result (λ s. UnitsStand (λ u. listed_as view.now.ever.now view.now.picture.now.lanes (heard u.bus) u)
            (units_told heard view.now.buses.now (min (length view.now.buses.now) (2 ^ 16))) s) }
    {
        let mut standing = Standing::none(view.alloc);
        for number in 0..view.buses.len().min(NUMBERS) {
            standing.add_bus(view, number as u16, &view.buses[number].watch)?;
        }
        Ok(standing)
    }

    /// No unit.
    fn none(alloc: Global) -> Standing
        ensures { (so : AUnit → AListed) → UnitsStand so [] result }
    {
        Standing {
            all: 0,
            on: 0,
            faulty: 0,
            lamps: [0; 4],
            partly: 0,
            silent: 0,
            list: UnitList::new(alloc),
        }
    }

    /// The units that are listed: of each order the first 1,000.
    pub fn listed(&self) -> &[Listed]
        ensures { (so : AUnit → AListed) (units : List AUnit) → UnitsStand so units self.now → result.now ≡ map so (listed_among so units) }
    {
        self.list.listed.as_slice()
    }

    fn add_bus(&mut self, view: &View<'_>, bus: u16, watch: &Watch) -> Result<(), AllocError>
        ensures { (h : Heard) (so : AUnit → AListed) (units : List AUnit) → StandsForAll h.began h.told watch.now
            → ((sender : ASender) → so (record { bus = bus; sender = sender }) ≡ listed_as view.now.ever.now view.now.picture.now.lanes h (record { bus = bus; sender = sender }))
            → UnitsStand so units self.old → OnOk result (UnitsStand so (units_on bus h watch.now.identified.kept units) self.new) }
    {
        self.add_names(view, bus, watch)?;
        self.add_unclaimed(view, bus, watch)?;
        self.add_identified(view, bus, watch)
    }

    /// Adds each NAME that claimed an address.
    fn add_names(&mut self, view: &View<'_>, bus: u16, watch: &Watch) -> Result<(), AllocError>
        ensures { (h : Heard) (so : AUnit → AListed) (units : List AUnit) → StandsForAll h.began h.told watch.now
            → ((sender : ASender) → so (record { bus = bus; sender = sender }) ≡ listed_as view.now.ever.now view.now.picture.now.lanes h (record { bus = bus; sender = sender }))
            → UnitsStand so units self.old → OnOk result (UnitsStand so (with_places (λ k. told.named (slice_get (names_heard (readings_said h.began h.told)) k)) bus (length (names_heard (readings_said h.began h.told))) units) self.new) }
    {
        for place in 0..watch.names() {
            self.add(view, bus, watch, named(watch.name_at(place)))?;
        }
        Ok(())
    }

    /// Adds who sent what is shown from an address that nobody had claimed.
    fn add_unclaimed(&mut self, view: &View<'_>, bus: u16, watch: &Watch) -> Result<(), AllocError>
        ensures { (h : Heard) (so : AUnit → AListed) (units : List AUnit) → StandsForAll h.began h.told watch.now
            → ((sender : ASender) → so (record { bus = bus; sender = sender }) ≡ listed_as view.now.ever.now view.now.picture.now.lanes h (record { bus = bus; sender = sender }))
            → UnitsStand so units self.old → OnOk result (UnitsStand so (with_places (λ k. told.unclaimed (slice_get (units_shown h.began.selection (all_said h.began h.told).moments) k)) bus (length (units_shown h.began.selection (all_said h.began h.told).moments)) units) self.new) }
    {
        for place in 0..watch.units() {
            self.add(view, bus, watch, unclaimed(watch.unit_at(place)))?;
        }
        Ok(())
    }

    /// Adds who told an identification alone from such an address.
    fn add_identified(&mut self, view: &View<'_>, bus: u16, watch: &Watch) -> Result<(), AllocError>
        ensures { (h : Heard) (so : AUnit → AListed) (units : List AUnit) → StandsForAll h.began h.told watch.now
            → ((sender : ASender) → so (record { bus = bus; sender = sender }) ≡ listed_as view.now.ever.now view.now.picture.now.lanes h (record { bus = bus; sender = sender }))
            → UnitsStand so units self.old → OnOk result (UnitsStand so (with_places (λ k. told.unclaimed (told.unless_told h (first_unit k (slice_get watch.now.identified.kept k) watch.now.identified.kept))) bus (length watch.now.identified.kept) units) self.new) }
    {
        for place in 0..watch.identifications() {
            let who = unless_told(watch, watch.identified_unit_at(place));
            self.add(view, bus, watch, unclaimed(who))?;
        }
        Ok(())
    }

    /// Adds a unit, if there is one.
    fn add(
        &mut self,
        view: &View<'_>,
        bus: u16,
        watch: &Watch,
        sender: Option<Sender>,
    ) -> Result<(), AllocError>
        ensures { (h : Heard) (so : AUnit → AListed) (units : List AUnit) → StandsForAll h.began h.told watch.now
            → ((sender : ASender) → so (record { bus = bus; sender = sender }) ≡ listed_as view.now.ever.now view.now.picture.now.lanes h (record { bus = bus; sender = sender }))
            → UnitsStand so units self.old → OnOk result (UnitsStand so (told.with_sender bus sender units) self.new) }
    {
        match sender {
            Some(sender) => self.add_unit(view, watch, &DrawnUnit { bus, sender }),
            None => Ok(()),
        }
    }

    fn add_unit(
        &mut self,
        view: &View<'_>,
        watch: &Watch,
        unit: &DrawnUnit,
    ) -> Result<(), AllocError>
        ensures { (h : Heard) (so : AUnit → AListed) (units : List AUnit) → StandsForAll h.began h.told watch.now
            → so unit.now ≡ listed_as view.now.ever.now view.now.picture.now.lanes h unit.now
            → UnitsStand so units self.old → OnOk result (UnitsStand so (unit.now ∷ units) self.new) }
    {
        let presence = presence_of(view.picture, watch, unit);
        let severity = severity_now(view, watch, unit);
        self.count(view, watch, unit, presence, severity);
        let order = order_of(view.worst_ever(unit), presence, severity);
        self.list.put(&Listed {
            order,
            unit: *unit,
            presence,
        })
    }

    /// Counts a unit.
    fn count(
        &mut self,
        view: &View<'_>,
        watch: &Watch,
        unit: &DrawnUnit,
        presence: Presence,
        severity: Severity,
    )
        ensures list { self.new.list ≡ self.old.list }
        ensures all { self.new.all ≡ counted (self.old.all + 1) }
    {
        self.all = self.all.saturating_add(1);
        if view.ever.silence(unit).is_some() {
            self.silent = self.silent.saturating_add(1);
        }
        if presence == Presence::On {
            self.on = self.on.saturating_add(1);
            self.count_newest(view, watch, unit, severity);
        }
    }

    fn count_newest(&mut self, view: &View<'_>, watch: &Watch, unit: &DrawnUnit, severity: Severity)
        ensures list { self.new.list ≡ self.old.list }
        ensures all { self.new.all ≡ self.old.all }
    {
        let Some(run) = newest_of(view, watch, unit) else {
            return;
        };
        if run.trouble.is_some() {
            self.partly = self.partly.saturating_add(1);
        }
        if severity.rank() >= Severity::Codes.rank() {
            self.faulty = self.faulty.saturating_add(1);
            self.count_lamps(run.shown.lamps);
        }
    }

    fn count_lamps(&mut self, lamps: Lamps)
        ensures list { self.new.list ≡ self.old.list }
        ensures all { self.new.all ≡ self.old.all }
    {
        for place in 0..4 {
            if is_on(lamps, LAMPS[place]) {
                self.lamps[place] = self.lamps[place].saturating_add(1);
            }
        }
    }
}

/// The sender of a NAME.
fn named(name: Option<Name>) -> Option<Sender>
    ensures { result ≡ told.named name }
{
    match name {
        Some(name) => Some(Sender::Named(name.number())),
        None => None,
    }
}

/// The sender of an address that nobody had claimed.
fn unclaimed(who: Option<Who>) -> Option<Sender>
    ensures { result ≡ told.unclaimed who }
{
    match who {
        Some(Who::Unclaimed { address, gaps }) => Some(Sender::Unclaimed { address, gaps }),
        _ => None,
    }
}

/// A unit, unless it has an entry of some kind.
fn unless_told(watch: &Watch, who: Option<Who>) -> Option<Who>
    ensures { (h : Heard) → StandsForAll h.began h.told watch.now → result ≡ told.unless_told h who }
{
    match who {
        Some(who) if !has_entries(watch, &who) => Some(who),
        _ => None,
    }
}

/// Whether a unit has an entry of some kind.
fn has_entries(watch: &Watch, who: &Who) -> bool
    ensures { (h : Heard) → StandsForAll h.began h.told watch.now → result ≡ tells h who.now }
{
    watch.runs(*who, Kind::Dm1).len() > 0
        || watch.runs(*who, Kind::Dm2).len() > 0
        || watch.runs(*who, Kind::Dm6).len() > 0
}

/// Whether a unit is on the bus.
pub(crate) fn presence_of(picture: &Picture, watch: &Watch, unit: &DrawnUnit) -> Presence
    ensures { (h : Heard) → StandsForAll h.began h.told watch.now → result ≡ presence_told picture.now.lanes h unit.now }
{
    match unit.sender {
        Sender::Named(name) => {
            let holds = holds_address(watch, Name::from_number(name));
            presence_named(holds, picture.lane_of(unit), watch.missed_in_all())
        }
        Sender::Unclaimed { .. } => presence_of_address(picture.lane_of(unit)),
    }
}

/// Whether the unit of an address that nobody has claimed is on the bus.
fn presence_of_address(lane: Option<&UnitLane>) -> Presence
    ensures { result ≡ unclaimed_presence (option_map (λ l. l.now) lane.entry) }
{
    match lane {
        Some(lane) if lane.is_past() => Presence::Past,
        _ => Presence::On,
    }
}

/// Whether a NAME is on the bus that holds an address or not, where so many frames were missed.
fn presence_named(holds: bool, lane: Option<&UnitLane>, missed: u64) -> Presence
    ensures { result ≡ named_presence holds (option_map (λ l. l.now) lane.entry) missed }
{
    if holds {
        Presence::On
    } else {
        presence_without(lane, missed)
    }
}

/// What is known of a NAME without an address, where so many frames were missed.
fn presence_without(lane: Option<&UnitLane>, missed: u64) -> Presence
    ensures { result ≡ told.presence_without (option_map (λ l. l.now) lane.entry) missed }
{
    match lane {
        Some(lane) => match lane.holding() {
            Holding::Unknown => Presence::Unknown,
            _ => Presence::Gone,
        },
        None if missed > 0 => Presence::Unknown,
        None => Presence::Gone,
    }
}

fn holds_address(watch: &Watch, name: Name) -> bool
    ensures { (h : Heard) → StandsForAll h.began h.told watch.now → result ≡ is_some (address_in_row (row_overheard name (readings_said h.began h.told))) }
{
    match watch.row(name) {
        Some(row) => row.address.is_some(),
        None => false,
    }
}

/// The newest of a unit's equal DM1 at the end: none where its DM1 fell silent.
fn newest_of<'a>(view: &View<'_>, watch: &'a Watch, unit: &DrawnUnit) -> Option<&'a EntryRun>
    ensures { (h : Heard) → StandsForAll h.began h.told watch.now → option_map (λ run. run.now) result ≡ newest_told view.now.ever.now h unit.now }
{
    if view.ever.silence(unit).is_some() {
        return None;
    }
    watch.runs(who_of(&unit.sender), Kind::Dm1).last()
}

/// How bad it is what a unit tells at the end: nothing where its DM1 fell silent.
pub(crate) fn severity_now(view: &View<'_>, watch: &Watch, unit: &DrawnUnit) -> Severity
    ensures { (h : Heard) → StandsForAll h.began h.told watch.now → rank result ≡ run_rank (newest_told view.now.ever.now h unit.now) }
{
    severity_of(newest_of(view, watch, unit))
}

fn severity_of(run: Option<&EntryRun>) -> Severity
    ensures { rank result ≡ run_rank (option_map (λ run. run.now) run.entry) }
{
    match run {
        Some(run) => Severity::of(
            run.shown.lamps,
            run.shown.codes.as_slice().len(),
            run.trouble.is_some(),
        ),
        None => Severity::Fine,
    }
}

/// In which order a unit stands: the worst at any time first; of equal ones the worst on the bus at the end first, and those that are gone last.
pub(crate) fn order_of(worst: Severity, presence: Presence, severity: Severity) -> usize
    ensures order { result ≡ order_by (rank worst) presence (rank severity) }
    ensures bound { result < ORDERS }
{
    let now = match presence {
        Presence::Gone | Presence::Past => NOW - 1,
        _ => steps_from_worst(severity),
    };
    steps_from_worst(worst) * NOW + now
}

/// How many steps it is better than the worst, 0 to 6.
fn steps_from_worst(severity: Severity) -> usize
    ensures steps { result ≡ 6 - rank severity }
    ensures bound { result ≤ 6 }
{
    6usize.saturating_sub(usize::from(severity.rank()))
}

/// The orders.
pub(crate) const ALL_ORDERS: usize = ORDERS;
