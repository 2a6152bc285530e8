ghost use Rattle.std.specs.Prelude.{◌≡◌, ◌≤◌, ◌==◌, IfOk, OnOk, OnErr, Some, option_map, string_bytes, true, false};
ghost use Rattle.bus_watch.specs.Held.{is_full_by};
ghost use Rattle.bus_watch.specs.Hearing as hearing;
ghost use Rattle.bus_watch.specs.Told as told;
ghost use Rattle.can_frame.specs.declared.address.TheConstants.{GREATEST_ADDRESS};

use crate::change::{Changes, WatchChange, nothing};
use crate::counts::WatchCounts;
use crate::held::{Held, Limits};
use crate::watch::{Watch, WatchSettings};
use can_frame::Pgn;
use candump_line::Line;
use dm_messages::{Kind, ReadError};
use listener::Who;
use name_field::Name;
use std::alloc::{AllocError, Global};
use std::marker::Model;

/// How many buses are watched beside each other at most. The lines of further ones are counted as those of other buses.
pub const MOST_BUSES: usize = 16;

/// Which buses are watched.
#[derive(Clone, Copy)]
pub enum BusShown<'a> {
    /// The first that a line names.
    First,
    /// The one of this name.
    Named(&'a str),
    /// Each that a line names, from that line on, up to 16 of them.
    Each,
}

/// A bus that is watched.
#[derive(Drop)]
pub struct BusWatch {
    /// Its name, where each bus is watched.
    pub bus: Option<String>,
    pub watch: Watch,
    /// What the newest changed in it that it was told: a line that it heard, or that a NAME holds an address.
    pub changes: Changes,
}

/// What a change is made of, which stands beside the watch that is lent: the borrow checker wants these types named.
type Beside = (Name, Who, Kind, Pgn, ReadError, WatchChange);

impl BusWatch {
    /// Hears a line. Where memory is refused, nothing changes.
    #[tactic(auto, using(crate::proofs::ManyBuses::is_told))]
    fn hear(&mut self, alloc: Global, line: &Line<'_>) -> Result<(), AllocError>
        ensures told { OnOk result (hearing.IsTold (told.Read line.now) self.old self.new) }
        ensures err { OnErr result (self.new ≡ self.old) }
    {
        let _beside: Option<Beside> = None;
        let changes = self.watch.hear(alloc, line)?;
        self.note(changes);
        Ok(())
    }

    /// Is begun anew. Where memory is refused, nothing changes.
    #[tactic(auto, using(crate::proofs::ManyBuses::is_over))]
    fn start_over(&mut self, alloc: Global) -> Result<(), AllocError>
        ensures anew { OnOk result (hearing.IsOver self.old self.new) }
        ensures err { OnErr result (self.new ≡ self.old) }
    {
        self.watch.start_over(alloc)
    }

    /// Assumes that a NAME holds an address. Where memory is refused, nothing changes.
    #[tactic(auto, using(crate::proofs::ManyBuses::is_told))]
    fn assume(&mut self, alloc: Global, name: Name, address: u8) -> Result<(), AllocError>
        requires { address ≤ GREATEST_ADDRESS }
        ensures told { OnOk result (hearing.IsTold (told.Assumed name address) self.old self.new) }
        ensures err { OnErr result (self.new ≡ self.old) }
    {
        let _beside: Option<Beside> = None;
        let changes = self.watch.assume(alloc, name, address)?;
        self.note(changes);
        Ok(())
    }

    /// Takes note of what changed.
    fn note(&mut self, changes: Changes)
        ensures { self.new ≡ record self.old { changes = changes } }
    {
        self.changes = changes;
    }
}

/// Which of the watches a line is for.
#[derive(Clone, Copy, PartialEq, Eq)]
pub enum Hearers {
    /// None: it is of no bus, or of one too many.
    Nobody,
    /// The one at this place.
    One(usize),
    /// The one at this place, which is the line's first.
    New(usize),
    /// Each: frames were missed, and it is not known of which bus.
    Every,
}

/// The buses that are watched: one, or each that a line names.
///
/// Each of them has a watch of its own, which hears the lines that name it, from the first on, and those that tell of missed frames
/// of whatever bus.
#[derive(Drop)]
pub struct Buses {
    settings: WatchSettings,
    each: bool,
    watches: Vec<BusWatch>,
    counts: WatchCounts,
}

/// Seen as how each is watched, whether each bus is, and the watches.
impl Model for Buses {
    ghost use Rattle.bus_watch.specs.Hearing.{BusesValue};

    ghost Value = { BusesValue };

    ghost view = { λ b. record { settings = b.settings; each = b.each; watches = b.watches.items } };
}

impl Buses {
    /// The buses that are shown, of which nothing was read: a watch of the first that a line names, one of the bus of this name, or
    /// none yet.
    ///
    /// # Errors
    /// Memory was refused.
    pub fn new(
        alloc: Global,
        settings: WatchSettings,
        shown: BusShown<'_>,
    ) -> Result<Buses, AllocError>
        ensures { IfOk result (λ b. hearing.AreShown settings shown.entry b) }
    {
        let mut buses = Buses {
            settings,
            each: false,
            watches: Vec::new(alloc),
            counts: WatchCounts::default(),
        };
        match shown {
            BusShown::First => buses.open(alloc, None, None)?,
            BusShown::Named(name) => buses.open(alloc, Some(name), None)?,
            BusShown::Each => buses.each = true,
        }
        Ok(buses)
    }

    /// Begins to watch one more bus, the first that a line names where none is given; where each is watched, it has a name. (A
    /// watch has some kilobytes, which stand on the stack of this call alone.)
    #[inline(never)]
    #[tactic(auto, using(crate::proofs::ManyBuses::one_begun))]
    fn open(
        &mut self,
        alloc: Global,
        followed: Option<&str>,
        bus: Option<String>,
    ) -> Result<(), AllocError>
        ensures ok { OnOk result (hearing.BeginsOne (option_map (λ name. name.now) followed.entry) (option_map string_bytes bus) self.old self.new) }
        ensures err { OnErr result (self.new ≡ self.old) }
    {
        self.watches.reserve(1)?;
        let watch = Watch::open(alloc, self.settings, followed)?;
        let changes = nothing();
        self.watches.push_reserved(BusWatch {
            bus,
            watch,
            changes,
        });
        Ok(())
    }

    /// Whether each bus is watched, so that what is told of one has to say which.
    pub fn are_each(&self) -> bool
        ensures { result ≡ self.now.each }
    {
        self.each
    }

    /// The watches, in the order in which their buses were first named.
    pub fn watches(&self) -> &[BusWatch]
        ensures { result.now ≡ self.now.watches }
    {
        self.watches.as_slice()
    }

    /// Whether the watches together keep as much as may be, or messages were announced between 4,096 pairs of addresses.
    pub fn is_full(&self, limits: Limits) -> bool
        ensures { result ≡ is_full_by limits self.now.watches }
    {
        let mut held = Held::nothing();
        for one in self.watches.iter() {
            held = held.with(&one.watch);
        }
        held.fills(limits)
    }

    /// How many lines there were of each sort, on all buses that are watched.
    pub fn counts(&self) -> WatchCounts {
        let mut counts = self.counts;
        for one in self.watches.iter() {
            counts = counts.with_watch(one.watch.counts(), self.each);
        }
        counts
    }

    /// Begins the watch of a bus of which the line is the first, where each bus is watched, and tells its place. It has heard nothing
    /// yet.
    ///
    /// # Errors
    /// Memory was refused. The watches are as they were.
    pub fn begin(&mut self, alloc: Global, line: &Line<'_>) -> Result<Option<usize>, AllocError>
        ensures place { IfOk result (λ o. o ≡ hearing.place_begun (hearing.hearers_of self.old line.now)) }
        ensures begun { OnOk result (hearing.HasBegun (hearing.hearers_of self.old line.now) line.now self.old self.new) }
        ensures err { OnErr result (self.new ≡ self.old) }
    {
        match self.hearers(alloc, line)? {
            Hearers::New(place) => Ok(Some(place)),
            _ => Ok(None),
        }
    }

    /// Has the watch at this place assume that a NAME holds an address, 0 to 253, as if it had claimed it now. Where there is none,
    /// nothing happens.
    ///
    /// # Errors
    /// Memory was refused. The watches are as they were.
    pub fn assume(
        &mut self,
        alloc: Global,
        place: usize,
        name: Name,
        address: u8,
    ) -> Result<(), AllocError>
        requires { address ≤ GREATEST_ADDRESS }
        ensures told { OnOk result (hearing.AreTold (λ p. p == place) (told.Assumed name address) self.old self.new) }
        ensures err { OnErr result (self.new ≡ self.old) }
    {
        if place >= self.watches.len() {
            return Ok(());
        }
        self.watches[place].assume(alloc, name, address)
    }

    /// Begins the watch at this place anew, as `Watch::start_over` says; each other one is as it was. Where there is none, nothing
    /// happens.
    ///
    /// # Errors
    /// Memory was refused. The watches are as they were.
    pub fn start_over(&mut self, alloc: Global, place: usize) -> Result<(), AllocError>
        ensures anew { OnOk result (hearing.OneIsOver place self.old self.new) }
        ensures err { OnErr result (self.new ≡ self.old) }
    {
        if place >= self.watches.len() {
            return Ok(());
        }
        self.watches[place].start_over(alloc)
    }

    /// Has each watch hear a line that it is for, and tells which these are; each other one is as it was. Where each bus is watched,
    /// the first line of one begins its watch. What the line changed stands beside each watch that heard it.
    ///
    /// # Errors
    /// Memory was refused. A watch that the line begins may have begun; of those that it is for each has heard it or is as it was.
    pub fn hear(&mut self, alloc: Global, line: &Line<'_>) -> Result<Hearers, AllocError>
        ensures who { IfOk result (λ h. h ≡ hearing.hearers_of self.old line.now) }
        ensures heard { OnOk result (hearing.HaveHeard line.now self.old self.new) }
        ensures err { OnErr result (hearing.MayHaveHeard line.now self.old self.new) }
    {
        let hearers = self.hearers(alloc, line)?;
        self.count(line, hearers);
        self.hear_by(alloc, hearers, line)?;
        Ok(hearers)
    }

    /// Counts a line, where each bus is watched.
    fn count(&mut self, line: &Line<'_>, hearers: Hearers)
        ensures { self.new ≡ self.old }
    {
        if self.each {
            self.counts.add_line(line, hearers == Hearers::Nobody);
        }
    }

    /// Has these watches hear a line.
    fn hear_by(
        &mut self,
        alloc: Global,
        hearers: Hearers,
        line: &Line<'_>,
    ) -> Result<(), AllocError>
        ensures ok { OnOk result (hearing.AreTold (hearing.is_hearer hearers) (told.Read line.now) self.old self.new) }
        ensures err { OnErr result (hearing.MayBeTold (hearing.is_hearer hearers) (told.Read line.now) self.old self.new) }
    {
        match hearers {
            Hearers::Nobody => Ok(()),
            Hearers::One(place) | Hearers::New(place) => self.hear_at(alloc, place, line),
            Hearers::Every => self.hear_each(alloc, line),
        }
    }

    /// Has the watch at this place hear a line.
    fn hear_at(&mut self, alloc: Global, place: usize, line: &Line<'_>) -> Result<(), AllocError>
        ensures ok { OnOk result (hearing.AreTold (λ p. p == place) (told.Read line.now) self.old self.new) }
        ensures err { OnErr result (self.new ≡ self.old) }
    {
        if place >= self.watches.len() {
            return Ok(());
        }
        self.watches[place].hear(alloc, line)
    }

    /// Has each watch hear a line.
    fn hear_each(&mut self, alloc: Global, line: &Line<'_>) -> Result<(), AllocError>
        ensures ok { OnOk result (hearing.AreTold (λ p. true) (told.Read line.now) self.old self.new) }
        ensures err { OnErr result (hearing.MayBeTold (λ p. true) (told.Read line.now) self.old self.new) }
    {
        for place in 0..self.watches.len() {
            self.hear_at(alloc, place, line)?;
        }
        Ok(())
    }

    /// Which watches a line is for. Where each bus is watched, the first line that names one begins its watch.
    ///
    /// # Errors
    /// Memory was refused. The watches are as they were.
    fn hearers(&mut self, alloc: Global, line: &Line<'_>) -> Result<Hearers, AllocError>
        ensures one { self.old.each ≡ false → IfOk result (λ h. h ≡ Hearers.One 0) }
        ensures each { self.old.each ≡ true → IfOk result (λ h. h ≡ hearing.hearers_by self.old.watches line.now) }
        ensures who { IfOk result (λ h. h ≡ hearing.hearers_of self.old line.now) }
        ensures begun { OnOk result (hearing.HasBegun (hearing.hearers_of self.old line.now) line.now self.old self.new) }
        ensures err { OnErr result (self.new ≡ self.old) }
    {
        if !self.each {
            return Ok(Hearers::One(0));
        }
        self.hearers_of(alloc, line)
    }

    /// Which watches a line is for, where each bus is watched.
    fn hearers_of(&mut self, alloc: Global, line: &Line<'_>) -> Result<Hearers, AllocError>
        ensures who { IfOk result (λ h. h ≡ hearing.hearers_by self.old.watches line.now) }
        ensures begun { OnOk result (hearing.HasBegun (hearing.hearers_by self.old.watches line.now) line.now self.old self.new) }
        ensures err { OnErr result (self.new ≡ self.old) }
    {
        match line {
            Line::Frame { bus, .. } | Line::Overflow { bus, .. } | Line::Foreign { bus, .. } => {
                self.hearer_named(alloc, *bus)
            }
            Line::Dropped { bus: Some(bus), .. } => Ok(self.hearer_of_drops(*bus)),
            Line::Dropped { bus: None, .. } | Line::Bad(_) => Ok(Hearers::Every),
            Line::Note => Ok(Hearers::Nobody),
        }
    }

    /// The watch of a bus, if one is named, which begins where it has none.
    fn hearer_named(&mut self, alloc: Global, bus: Option<&str>) -> Result<Hearers, AllocError>
        ensures who { IfOk result (λ h. h ≡ hearing.hearer_named bus.entry self.old.watches) }
        ensures begun { OnOk result (hearing.HasBegunFor (hearing.hearer_named bus.entry self.old.watches) (hearing.name_in bus.entry) self.old self.new) }
        ensures err { OnErr result (self.new ≡ self.old) }
    {
        match bus {
            Some(bus) => self.hearer_of(alloc, bus),
            None => Ok(Hearers::Nobody),
        }
    }

    /// The watch of a bus, which begins where it has none.
    fn hearer_of(&mut self, alloc: Global, bus: &str) -> Result<Hearers, AllocError>
        ensures who { IfOk result (λ h. h ≡ hearing.hearer_of bus.entry.now self.old.watches) }
        ensures begun { OnOk result (hearing.HasBegunFor (hearing.hearer_of bus.entry.now self.old.watches) (Some bus.entry.now) self.old self.new) }
        ensures err { OnErr result (self.new ≡ self.old) }
    {
        if let Some(place) = watch_place(self.watches.as_slice(), bus) {
            return Ok(Hearers::One(place));
        }
        let place = self.watches.len();
        if place >= MOST_BUSES {
            return Ok(Hearers::Nobody);
        }
        let name = String::from_str(alloc, bus)?;
        self.open(alloc, Some(bus), Some(name))?;
        Ok(Hearers::New(place))
    }

    /// The watch of a bus of which frames were dropped; none where nothing was read of it.
    fn hearer_of_drops(&self, bus: &str) -> Hearers
        ensures { result ≡ hearing.hearer_of_drops bus.now self.entry.now.watches }
    {
        match watch_place(self.watches.as_slice(), bus) {
            Some(place) => Hearers::One(place),
            None => Hearers::Nobody,
        }
    }
}

/// The place of the watch of a bus.
fn watch_place(watches: &[BusWatch], bus: &str) -> Option<usize>
    ensures { result ≡ hearing.watch_place bus.now watches.now }
{
    watches.iter().position(|one| is_on(one, bus))
}

/// Whether a watch is of the bus of this name.
fn is_on(one: &BusWatch, bus: &str) -> bool
    ensures { result ≡ hearing.is_on bus.now one.now }
{
    match &one.bus {
        Some(name) => name.as_str() == bus,
        None => false,
    }
}
