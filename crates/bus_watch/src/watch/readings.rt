ghost use Rattle.std.specs.Prelude.{◌≡◌, ◌<◌, ◌≤◌, ◌^◌, ℕ, ◌∷◌, List, Some, IfOk, OnOk, OnErr, if◌then◌else◌, option_map, string_bytes};
ghost use Rattle.address_claim.specs.Frames.{claim_frame_value};
ghost use Rattle.bus_watch.specs.Followed as followed;
ghost use Rattle.bus_watch.specs.Told.{Told, Beginning, IsToldAs, StandsForAll};
ghost use Rattle.bus_watch.specs.Told as told;
ghost use Rattle.bus_watch.specs.WatchValue.{HearsLine, TellsLine, Takes, Tells, identified_in};
ghost use Rattle.can_frame.specs.FrameValue.{FrameValue};
ghost use Rattle.can_frame.specs.declared.address.TheConstants.{GREATEST_ADDRESS};
ghost use Rattle.bus_watch.specs.Identified.{coming, identified_with};
ghost use Rattle.bus_watch.specs.IdentifiedSaid.{IdentifiedGoesOn};
ghost use Rattle.can_frame.specs.Fields.{source_of};
ghost use Rattle.candump_line.specs.declared.line.Line.TheVariants as said;
ghost use Rattle.listener.specs.ListenerValue.{who_in};
ghost use Rattle.listener.specs.Paced.{half_in};
ghost use Rattle.parameter_group.specs.Group.{group_of};
ghost use Rattle.parameter_group.specs.Said.{IsLawfulGroup, said as group_said};

use crate::change::Changes;
use crate::watch::Watch;
use crate::watch::changes::micros;
use address_claim::claim_frame;
use can_frame::{Frame, Reading};
use candump_line::{Foreign, Line, Time};
use listener::Fate;
use name_field::Name;
use parameter_group::ParameterGroup;
use std::alloc::{AllocError, Global};

impl Watch {
    /// Reads a line, and tells what it changed.
    ///
    /// The listener takes one reading: the frame of a line of the watched bus, but for a packet that came too late, or again as it was
    /// asked for; so many
    /// missed frames where the line tells of them, and one where it is bad and bad lines count; else the empty reading.
    /// An entry that it lists by it goes to the runs, where it is shown.
    ///
    /// What is told is what that reading changed of what the listener shows (`bus_model`): an entry where it begins a run, an
    /// acknowledgment where it is another one than the last, and of an address without owner once.
    ///
    /// # Errors
    /// Memory was refused. The watch is as it was before the line, but that `counts` may have it.
    pub fn hear(&mut self, alloc: Global, line: &Line<'_>) -> Result<Changes, AllocError>
        ensures told { IfOk result (λ c. IsToldAs (told.Read line.now) self.old self.new c) }
        ensures stands { OnOk result
            ((b : Beginning) (ts : List Told) → StandsForAll b ts self.old → StandsForAll b (told.Read line.now ∷ ts) self.new) }
        ensures identified { OnOk result (IdentifiedGoesOn (told.Read line.now) self.old self.new) }
        ensures err { OnErr result (self.new ≡ self.old) }
    {
        self.counts.lines = self.counts.lines.saturating_add(1);
        self.broken.clear();
        self.identified.clear_told();
        self.hear_line(alloc, line)
    }

    /// Assumes that a NAME holds an address, 0 to 253, as if it had claimed it now.
    ///
    /// # Errors
    /// Memory was refused. The watch is as it was.
    #[tactic(auto, using(crate::proofs::IdentifiedRead::go_on_assumed))]
    pub fn assume(&mut self, alloc: Global, name: Name, address: u8) -> Result<Changes, AllocError>
        requires { address ≤ GREATEST_ADDRESS }
        ensures told { IfOk result (λ c. IsToldAs (told.Assumed name address) self.old self.new c) }
        ensures stands { OnOk result ((b : Beginning) (ts : List Told) → StandsForAll b ts self.old
            → StandsForAll b (told.Assumed name address ∷ ts) self.new) }
        ensures identified { OnOk result (IdentifiedGoesOn (told.Assumed name address) self.old self.new) }
        ensures broken { self.new.broken ≡ self.old.broken }
        ensures err { OnErr result (self.new ≡ self.old) }
    {
        let who = self.who_at(address);
        let changes = self.assume_claim(alloc, name, address)?;
        self.claim_texts(who, address, name);
        Ok(changes)
    }

    /// The listener reads such a claim.
    fn assume_claim(
        &mut self,
        alloc: Global,
        name: Name,
        address: u8,
    ) -> Result<Changes, AllocError>
        requires { address ≤ GREATEST_ADDRESS }
        ensures told { IfOk result (λ c. IsToldAs (told.Assumed name address) self.old self.new c) }
        ensures stands { OnOk result ((b : Beginning) (ts : List Told) → StandsForAll b ts self.old
            → StandsForAll b (told.Assumed name address ∷ ts) self.new) }
        ensures identified { self.new.identified ≡ self.old.identified }
        ensures broken { self.new.broken ≡ self.old.broken }
        ensures err { OnErr result (self.new ≡ self.old) }
    {
        let claim = claim_frame(name, Some(address));
        self.take(alloc, Reading::Frame(claim), None)
    }

    /// Assumes that a NAME holds no address, as if it had said that it cannot claim one, and tells nothing of it.
    pub(super) fn take_away(&mut self, alloc: Global, name: Name) -> Result<(), AllocError>
        ensures stands { OnOk result ((b : Beginning) (ts : List Told) → StandsForAll b ts self.old
            → StandsForAll b (told.Addressless name ∷ ts) self.new) }
        ensures broken { self.new.broken ≡ self.old.broken }
    {
        let claim = claim_frame(name, None);
        match self.take(alloc, Reading::Frame(claim), None) {
            Ok(_) => Ok(()),
            Err(error) => Err(error),
        }
    }

    /// Assumes it, and tells nothing of it.
    pub(super) fn take_over(
        &mut self,
        alloc: Global,
        name: Name,
        address: u8,
    ) -> Result<(), AllocError>
        requires { address ≤ GREATEST_ADDRESS }
        ensures stands { OnOk result ((b : Beginning) (ts : List Told) → StandsForAll b ts self.old
            → StandsForAll b (told.Assumed name address ∷ ts) self.new) }
        ensures broken { self.new.broken ≡ self.old.broken }
        ensures fits { name < 2 ^ 64 }
    {
        match self.assume(alloc, name, address) {
            Ok(_) => Ok(()),
            Err(error) => Err(error),
        }
    }

    /// Has the listener take the reading that a line is, and tells what it changed.
    #[tactic(auto, using(crate::proofs::Naming::tells_as_ok))]
    fn hear_line(&mut self, alloc: Global, line: &Line<'_>) -> Result<Changes, AllocError>
        ensures hears { OnOk result (HearsLine self.old self.new line.now) }
        ensures tells { IfOk result (λ c. TellsLine self.old self.new line.now c) }
        ensures identified { OnOk result (self.new.identified ≡ identified_in self.old line.now) }
        ensures err { OnErr result (self.new ≡ self.old) }
    {
        match line {
            Line::Frame { time, bus, frame } => self.hear_frame(alloc, *time, *bus, frame),
            Line::Dropped { bus, count } => {
                let reading = self.reading_of_drops(*bus, *count);
                self.take_reading(alloc, reading, None)
            }
            Line::Overflow { time, bus } => self.hear_overflow(alloc, *time, *bus),
            Line::Foreign { bus, what } => self.hear_foreign(alloc, *bus, *what),
            Line::Note => {
                self.count_note();
                self.take_reading(alloc, Reading::Empty, None)
            }
            Line::Bad(_) => {
                let reading = self.reading_of_bad();
                self.take_reading(alloc, reading, None)
            }
        }
    }

    /// A frame of the watched bus is read, but for a packet that is withheld.
    fn hear_frame(
        &mut self,
        alloc: Global,
        time: Option<Time>,
        bus: Option<&str>,
        frame: &Frame,
    ) -> Result<Changes, AllocError>
        ensures hears { OnOk result (HearsLine self.old self.new (said.Frame time bus.entry frame.now)) }
        ensures tells { IfOk result (λ c. TellsLine self.old self.new (said.Frame time bus.entry frame.now) c) }
        ensures identified { OnOk result (self.new.identified ≡ identified_in self.old (said.Frame time bus.entry frame.now)) }
        ensures err { OnErr result (self.new ≡ self.old) }
    {
        if !self.is_watched(bus) {
            return self.take_reading(alloc, Reading::Empty, None);
        }
        let named = self.bus_named(alloc, bus)?;
        self.counts.frames = self.counts.frames.saturating_add(1);
        self.read_frame(alloc, named, time, frame)
    }

    /// Reads a frame of the watched bus, and names that where a name is given.
    fn read_frame(
        &mut self,
        alloc: Global,
        named: Option<String>,
        time: Option<Time>,
        frame: &Frame,
    ) -> Result<Changes, AllocError>
        ensures takes { OnOk result (Takes self.old self.new (followed.frame_reading time (half_in self.old.listener) self.old.followed frame.now) time
            (followed.followed_with time (group_of frame.now) (followed.with_bus_name (option_map string_bytes named) self.old.followed))) }
        ensures tells { IfOk result (λ c. Tells self.old self.new (followed.frame_reading time (half_in self.old.listener) self.old.followed frame.now) c) }
        ensures identified { OnOk result (self.new.identified ≡ identified_with (coming self.old.lists.selection self.old.lists.time time self.old.followed
            (who_in self.old.listener (source_of frame.now.id))) frame.now (group_of frame.now) self.old.identified) }
        ensures err { OnErr result (self.new ≡ self.old) }
    {
        let group = ParameterGroup::read(frame);
        let changes = self.take_frame(alloc, frame, &group, time)?;
        self.name_bus(named);
        Ok(changes)
    }

    /// Takes what a frame says, as `take_group` does, and notes what it ends. Most frames of a bus end nothing.
    pub(super) fn take_noting(
        &mut self,
        alloc: Global,
        group: &ParameterGroup<'_>,
        time: Option<Time>,
    ) -> Result<Changes, AllocError>
        requires { IsLawfulGroup group.now }
        ensures takes { OnOk result ((f : FrameValue) → group_of f ≡ group_said group.now
            → Takes self.old self.new (followed.frame_reading time (half_in self.old.listener) self.old.followed f) time
            (followed.followed_with time (group_said group.now) self.old.followed)) }
        ensures tells { IfOk result (λ c. (f : FrameValue) → group_of f ≡ group_said group.now
            → Tells self.old self.new (followed.frame_reading time (half_in self.old.listener) self.old.followed f) c) }
        ensures identified { self.new.identified ≡ self.old.identified }
        ensures err { OnErr result (self.new ≡ self.old) }
    {
        if let ParameterGroup::Other = *group {
            return self.take_group(alloc, group, time);
        }
        let at = time;
        let fate = self.expect(at, group)?;
        let changes = self.take_group(alloc, group, time)?;
        self.settle(fate);
        Ok(changes)
    }

    /// What is to be done with a frame that comes next; what it may end is noted.
    fn expect(&mut self, time: Option<Time>, group: &ParameterGroup<'_>) -> Result<Fate, AllocError>
        ensures { self.new ≡ self.old }
    {
        let fate = self.ear.fate(micros(time), group);
        self.broken.expect(&self.ear, group, fate)?;
        Ok(fate)
    }

    /// Takes note of what a frame ended that was read, and of a packet that was withheld.
    fn settle(&mut self, fate: Fate)
        ensures { self.new ≡ record self.old { broken = self.new.broken } }
    {
        if fate == Fate::Late {
            self.counts.withheld = self.counts.withheld.saturating_add(1);
        }
        self.broken.settle(&self.ear, &self.lists);
    }

    /// Frames that were dropped are missed, where they may be of the watched bus.
    fn reading_of_drops(&mut self, bus: Option<&str>, count: u32) -> Reading
        ensures reading { result ≡ followed.reading_by (half_in self.old.listener) self.old.followed (said.Dropped bus.entry count) }
        ensures same { self.new ≡ self.old }
    {
        if !self.is_dropped_here(bus) {
            return Reading::Empty;
        }
        self.counts.drops = self.counts.drops.saturating_add(1);
        Reading::Gap(count)
    }

    /// A frame that the controller of the watched bus lost is missed.
    fn hear_overflow(
        &mut self,
        alloc: Global,
        time: Option<Time>,
        bus: Option<&str>,
    ) -> Result<Changes, AllocError>
        ensures hears { OnOk result (HearsLine self.old self.new (said.Overflow time bus.entry)) }
        ensures tells { IfOk result (λ c. TellsLine self.old self.new (said.Overflow time bus.entry) c) }
        ensures identified { OnOk result (self.new.identified ≡ identified_in self.old (said.Overflow time bus.entry)) }
        ensures err { OnErr result (self.new ≡ self.old) }
    {
        let named = self.bus_named(alloc, bus)?;
        let (reading, at) = self.reading_of_overflow(time, bus);
        let changes = self.take_reading(alloc, reading, at)?;
        self.name_bus(named);
        Ok(changes)
    }

    /// The reading, and the time that it has.
    fn reading_of_overflow(
        &mut self,
        time: Option<Time>,
        bus: Option<&str>,
    ) -> (Reading, Option<Time>)
        ensures reading { result.0 ≡ followed.reading_by (half_in self.old.listener) self.old.followed (said.Overflow time bus.entry) }
        ensures time { result.1 ≡ followed.time_by self.old.followed (said.Overflow time bus.entry) }
        ensures same { self.new ≡ self.old }
    {
        if !self.is_watched(bus) {
            return (Reading::Empty, None);
        }
        self.counts.error = self.counts.error.saturating_add(1);
        (Reading::Gap(1), time)
    }

    /// A bad line is one frame missed, unless bad lines are passed over.
    fn reading_of_bad(&mut self) -> Reading
        ensures reading { result ≡ (if self.old.followed.skips_bad then Reading.Empty else Reading.Gap 1) }
        ensures same { self.new ≡ self.old }
    {
        self.counts.bad = self.counts.bad.saturating_add(1);
        if self.settings.skips_bad {
            return Reading::Empty;
        }
        Reading::Gap(1)
    }

    /// A frame that is none of SAE J1939 is only counted.
    fn hear_foreign(
        &mut self,
        alloc: Global,
        bus: Option<&str>,
        what: Foreign,
    ) -> Result<Changes, AllocError>
        ensures hears { OnOk result (HearsLine self.old self.new (said.Foreign bus.entry what)) }
        ensures tells { IfOk result (λ c. TellsLine self.old self.new (said.Foreign bus.entry what) c) }
        ensures identified { OnOk result (self.new.identified ≡ identified_in self.old (said.Foreign bus.entry what)) }
        ensures err { OnErr result (self.new ≡ self.old) }
    {
        let named = self.bus_named(alloc, bus)?;
        self.count_foreign(bus, what);
        let changes = self.take_reading(alloc, Reading::Empty, None)?;
        self.name_bus(named);
        Ok(changes)
    }

    fn count_foreign(&mut self, bus: Option<&str>, what: Foreign)
        ensures { self.new ≡ self.old }
    {
        if self.is_watched(bus) {
            self.counts.add_foreign(what);
        }
    }

    fn count_note(&mut self)
        ensures { self.new ≡ self.old }
    {
        self.counts.notes = self.counts.notes.saturating_add(1);
    }

    /// Whether a line is of the watched bus. Where none is named yet, it is the line's. A line without a bus is of none.
    fn is_watched(&mut self, bus: Option<&str>) -> bool
        ensures watched { result ≡ followed.is_watched self.old.followed.bus bus.entry }
        ensures same { self.new ≡ self.old }
    {
        let Some(bus) = bus else {
            self.count_note();
            return false;
        };
        let Some(watched) = &self.bus else {
            return true;
        };
        if watched.as_str() == bus {
            return true;
        }
        self.counts.other_bus = self.counts.other_bus.saturating_add(1);
        false
    }

    /// The name that a line gives the watched bus, where that has none yet.
    fn bus_named(&self, alloc: Global, bus: Option<&str>) -> Result<Option<String>, AllocError>
        ensures { IfOk result (λ o. followed.renamed (option_map string_bytes o) self.entry.now.followed.bus ≡ followed.bus_after
            self.entry.now.followed.bus bus.entry) }
    {
        match (&self.bus, bus) {
            (None, Some(bus)) => Ok(Some(String::from_str(alloc, bus)?)),
            _ => Ok(None),
        }
    }

    /// Names the watched bus, where a name is given.
    fn name_bus(&mut self, named: Option<String>)
        ensures { self.new ≡ record self.old { followed = followed.with_bus_name (option_map string_bytes named) self.old.followed } }
    {
        if named.is_some() {
            self.bus = named;
        }
    }

    /// Whether frames that were dropped may be of the watched bus.
    fn is_dropped_here(&self, bus: Option<&str>) -> bool
        ensures { result ≡ followed.may_be_watched self.entry.now.followed.bus bus.entry }
    {
        match (&self.bus, bus) {
            (Some(watched), Some(bus)) => watched.as_str() == bus,
            _ => true,
        }
    }
}
