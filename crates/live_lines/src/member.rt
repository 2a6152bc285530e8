//! A unit of a fleet: what it hears, does of its own accord, and writes.
ghost use Rattle.std.specs.Prelude.{[], ◌≡◌, ◌≤◌, ◌||◌, ◌⊎◌, IfOk, IfSome, IsSome, None, Some, is_some, true};
ghost use Rattle.can_frame.specs.Fields.{source_of};
ghost use Rattle.can_frame.specs.declared.address.TheConstants.{GREATEST_ADDRESS};
ghost use Rattle.address_claim.specs.Frames.{claim_source};
ghost use Rattle.live_lines.specs.Hearing.{IsFromIts};
ghost use Rattle.live_unit.specs.Beside.{is_withheld};
ghost use Rattle.live_unit.specs.Steps.{Writes};

use crate::cyclic::{Cyclic, cyclic_due, cyclic_from};
use crate::faults::{Faults, write_note};
use crate::own_groups::{OwnGroups, groups_answered, repeated_of};
use can_frame::Frame;
use dm_messages::Kind;
use fault_memory::{FaultChange, FaultError};
use live_unit::{Act, AddressWatch, LiveError, LiveUnit, QueueCounts, UnitSettings};
use std::alloc::{AllocError, Global};
use std::io;
use std::io::Write;
use unit_trait::Unit;
use vehicle::{AnswerLine, CyclicLine, FailLine, Identification};

mod hearing;

pub(crate) use self::hearing::Taken;

/// How long a unit that was refused memory waits before it tries again, in microseconds.
const RETRY: u64 = 100_000;

/// The most things that one unit does of its own accord before a frame of it is asked for.
const MOST_ACTS: u32 = 8;

/// A unit, and what became of it.
#[derive(Drop)]
pub(crate) struct Member {
    unit: LiveUnit,
    /// What it sends again and again, in one frame and in packets, and how many frames of these it wrote.
    cyclic: Vec<Cyclic>,
    repeated: OwnGroups,
    sent: u64,
    /// What it sends where it is asked for it, and how many frames of these it wrote.
    answers: OwnGroups,
    answered: u64,
    /// What it does wrong on purpose.
    faults: Faults,
    /// Who watches that nobody else sends from its address, where it answers that; and how often it claimed again for it.
    watch: Option<AddressWatch>,
    violated: u64,
    /// Whether it has left the bus.
    has_left: bool,
    /// How many frames it heard, and how many it could not hear.
    heard: u64,
    unheard: u64,
    /// When it may try again what it was refused memory for.
    retry_from: u64,
}

/// The groups of a unit beside those of its node.
#[derive(Drop)]
pub struct Groups {
    /// What it sends again and again.
    pub sends: Vec<CyclicLine>,
    /// What it sends where it is asked for it.
    pub answers: Vec<AnswerLine>,
    /// How it tells what it is where it is asked.
    pub identification: Identification,
    /// What it does wrong on purpose.
    pub fails: Vec<FailLine>,
    /// Whether it claims its address again where somebody else sends from it (SAE J1939-81 since 2011, from memory).
    pub answers_violations: bool,
}

impl Member {
    /// A unit that wants this address, 0 to 253, and has these groups. Its claim waits to be written.
    ///
    /// Refused: where memory is.
    pub(crate) fn new(
        alloc: Global,
        unit: Box<dyn Unit>,
        address: u8,
        settings: UnitSettings,
        groups: Groups,
    ) -> Result<Member, AllocError>
        requires { address ≤ GREATEST_ADDRESS }
    {
        let mut cyclic = Vec::new(alloc);
        let mut repeated = Vec::new(alloc);
        for group in groups.sends {
            match group {
                CyclicLine::One(line) => cyclic.push(Cyclic::new(line))?,
                CyclicLine::Long(long) => repeated.push(repeated_of(long))?,
            }
        }
        let repeated = OwnGroups::new(repeated, settings.gap);
        let mut faults = Faults::none(alloc);
        for line in groups.fails {
            faults.add(&line)?;
        }
        let answers = groups_answered(alloc, groups.identification, groups.answers, settings.gap)?;
        Ok(Member {
            unit: LiveUnit::new(alloc, unit, address, settings)?,
            cyclic,
            repeated,
            sent: 0,
            answers,
            answered: 0,
            faults,
            watch: watch_where(alloc, groups.answers_violations)?,
            violated: 0,
            has_left: false,
            heard: 0,
            unheard: 0,
            retry_from: 0,
        })
    }

    /// Whether it is on the bus.
    pub(crate) fn is_here(&self) -> bool {
        !self.has_left
    }

    /// Takes it off the bus: it hears nothing more, and writes nothing.
    pub(crate) fn leave(&mut self) {
        self.has_left = true;
    }

    /// The unit itself.
    pub(crate) fn unit(&self) -> &LiveUnit
        ensures { result.now ≡ self.now.unit }
    {
        &self.unit
    }

    /// Tells the unit of a change of its fault memory.
    pub(crate) fn change(&mut self, change: FaultChange) -> Result<(), FaultError>
        requires { Unit {0} }
    {
        self.unit.change(change)
    }

    /// Has the unit begin a message of this kind to all.
    pub(crate) fn begin(&mut self, alloc: Global, kind: Kind) -> Result<bool, LiveError>
        requires { Unit {0} }
    {
        self.unit.begin(alloc, kind)
    }

    /// Has it do something wrong from now on.
    pub(crate) fn fail(&mut self, line: &FailLine) -> Result<(), AllocError> {
        self.faults.add(line)
    }

    /// Does of its own accord what is due. Tells whether it could not, for which it tries again later.
    pub(crate) fn act(&mut self, alloc: Global, now: u64) -> bool
        requires { Unit {0} }
        ensures { self.new.faults ≡ self.old.faults }
    {
        if self.has_left || now < self.retry_from {
            return false;
        }
        for _ in 0..MOST_ACTS {
            let done = if self.is_telling() {
                self.unit.act_beside(alloc, now)
            } else {
                self.unit.act(alloc, now)
            };
            match done {
                Ok(Act::Nothing) => return false,
                Ok(_) => {}
                Err(error) => {
                    self.retry_from = now.saturating_add(RETRY);
                    return error == LiveError::OutOfMemory;
                }
            }
        }
        false
    }

    /// The frame of it that goes at this time, if one does. First it does what is due of its own accord, and again behind each frame
    /// that a fault keeps from going. Tells also whether memory was refused.
    pub(crate) fn step<N: Write>(
        &mut self,
        alloc: Global,
        place: usize,
        now: u64,
        notes: &mut N,
    ) -> (bool, Option<Frame>)
        requires { Unit {0} }
        ensures source { self.old.faults.all.items ≡ [] → IfSome result.1 (λ f. IsFromIts f self.new) }
        ensures faultless { self.old.faults.all.items ≡ [] → self.new.faults.all.items ≡ [] }
    {
        let mut refused = false;
        for _ in 0..u64::MAX {
            refused = self.act(alloc, now) || refused;
            match self.goes(place, now, notes) {
                None => break,
                Some(None) => {}
                Some(found) => {
                    self.note_written(&found);
                    return (refused, found);
                }
            }
        }
        (refused, None)
    }

    /// Keeps a frame of it that goes, by which it knows its own where it comes back.
    fn note_written(&mut self, frame: &Option<Frame>)
        ensures unwatched { self.old.watch ≡ None → self.new ≡ self.old }
        ensures unwritten { frame.now ≡ None → self.new ≡ self.old }
        ensures same { (self.new.unit ≡ self.old.unit) × (self.new.faults ≡ self.old.faults) }
    {
        let Some(frame) = *frame else {
            return;
        };
        if let Some(watch) = &mut self.watch {
            watch.write(frame);
        }
    }

    /// What goes at this time behind its faults, each of which is told as it happens: `Some(None)` where they keep a frame from
    /// going, none where no frame is due.
    fn goes<N: Write>(&mut self, place: usize, now: u64, notes: &mut N) -> Option<Option<Frame>>
        requires { Unit {0} }
        ensures without { self.old.faults.all.items ≡ [] → (self.new.faults ≡ self.old.faults)
            × IfSome result (λ r. IfSome r (λ f. IsFromIts f self.new)) }
    {
        if self.has_left {
            return None;
        }
        if !self.faults.is_empty() {
            return self.fails(place, now, notes);
        }
        let frame = self.due(now)?;
        Some(Some(frame))
    }

    /// What goes at this time behind its faults, where it has any.
    fn fails<N: Write>(&mut self, place: usize, now: u64, notes: &mut N) -> Option<Option<Frame>>
        requires { Unit {0} }
    {
        if let Some(frame) = self.unasked(place, now, notes) {
            return Some(Some(frame));
        }
        let frame = self.due(now)?;
        Some(self.carry(&frame, place, now, notes))
    }

    /// The frame that goes at this time by its faults alone: one that waited for them, or one that they add.
    fn unasked<N: Write>(&mut self, place: usize, now: u64, notes: &mut N) -> Option<Frame> {
        self.faults.begin(now);
        if let Some(frame) = self.faults.late(now) {
            return Some(frame);
        }
        let held = self.unit.held();
        let (deviation, frame) = self.faults.added(self.unit.name(), held, now)?;
        let _ = write_note(notes, place, &deviation, &frame);
        Some(frame)
    }

    /// What goes at once of a frame that it writes at this time. A fault that changes it is told.
    fn carry<N: Write>(
        &mut self,
        frame: &Frame,
        place: usize,
        now: u64,
        notes: &mut N,
    ) -> Option<Frame> {
        let carry = self.faults.carry(frame, now);
        if let Some(deviation) = &carry.deviation {
            let _ = write_note(notes, place, deviation, frame);
        }
        carry.frame
    }

    /// The frame of it that goes at this time: one that waits, or else one of a group of its own.
    fn due(&mut self, now: u64) -> Option<Frame>
        requires { Unit {0} }
        ensures held { (self.new.unit.live.node ≡ self.old.unit.live.node) × (self.new.faults ≡ self.old.faults) }
        ensures source { IfSome result (λ f. source_of f.id ≡ claim_source self.old.unit.live.node.claimer.held) }
    {
        if self.has_left {
            return None;
        }
        match self.node_due(now) {
            None => self.group_due(now),
            found => found,
        }
    }

    /// The frame that waits and goes at this time: while an answer goes to all in packets, no such message of the node's.
    fn node_due(&mut self, now: u64) -> Option<Frame>
        requires { Unit {0} }
        ensures writes { IfSome result (λ f. Writes self.old.unit.live.settings now f self.old.unit.live.queue self.old.unit.live.clock
            self.new.unit.live.queue self.new.unit.live.clock) }
        ensures beside { (IsSome self.old.answers.broadcast ⊎ IsSome self.old.repeated.broadcast)
            → is_withheld self.old.unit.live.queue ≡ true → result ≡ None }
        ensures source { IfSome result (λ f. source_of f.id ≡ claim_source self.old.unit.live.node.claimer.held) }
        ensures held { (self.new.unit.live.node ≡ self.old.unit.live.node) × (self.new.faults ≡ self.old.faults) }
    {
        if self.is_telling() {
            self.unit.due_beside(now)
        } else {
            self.unit.due(now)
        }
    }

    /// Whether a group of its own goes to all in packets.
    fn is_telling(&self) -> bool
        ensures { result ≡ (is_some self.now.answers.broadcast || is_some self.now.repeated.broadcast) }
    {
        self.answers.is_telling() || self.repeated.is_telling()
    }

    /// The frame of its groups that goes at this time: an answer, or one that it sends again and again.
    fn group_due(&mut self, now: u64) -> Option<Frame>
        ensures same { (self.new.unit ≡ self.old.unit) × (self.new.faults ≡ self.old.faults) }
        ensures source { IfSome result (λ f. source_of f.id ≡ claim_source self.old.unit.live.node.claimer.held) }
    {
        let source = self.unit.held()?;
        let from = self.unit.free_from()?;
        if from > now {
            return None;
        }
        let may_begin = !self.unit.is_telling() && !self.repeated.is_telling();
        if let Some(frame) = self.answers.due(source, now, may_begin) {
            self.answered = self.answered.saturating_add(1);
            return Some(frame);
        }
        let frame = self.repeated_due(source, now)?;
        self.sent = self.sent.saturating_add(1);
        Some(frame)
    }

    /// The frame that goes at this time of what it sends again and again.
    fn repeated_due(&mut self, source: u8, now: u64) -> Option<Frame>
        ensures same { (self.new.unit ≡ self.old.unit) × (self.new.faults ≡ self.old.faults) }
        ensures source { IfSome result (λ f. source_of f.id ≡ source) }
    {
        let may_begin = !self.unit.is_telling() && !self.answers.is_telling();
        match self.repeated.due_again(source, now, may_begin) {
            None => cyclic_due(self.cyclic.as_mut_slice(), source, now),
            found => found,
        }
    }

    /// When to look again.
    pub(crate) fn next(&self, now: u64) -> u64 {
        if self.has_left {
            return u64::MAX;
        }
        let next = if self.is_telling() {
            self.unit.next_beside(now)
        } else {
            self.unit.next(now)
        };
        let next = if now < self.retry_from && next < self.retry_from {
            self.retry_from
        } else {
            next
        };
        let next = next.min(self.faults.next(self.unit.held(), now));
        let Some(from) = self.unit.free_from() else {
            return next;
        };
        let answer = self
            .answers
            .from(!self.unit.is_telling() && !self.repeated.is_telling());
        let repeated = self
            .repeated
            .from(!self.unit.is_telling() && !self.answers.is_telling());
        let cyclic = cyclic_from(self.cyclic.as_slice());
        next.min(cyclic.min(answer).min(repeated).max(from))
    }

    pub(crate) fn write_line<W: Write>(&self, writer: &mut W, place: usize) -> io::Result<()> {
        let name = self.unit.name();
        let counts = self.unit.counts();
        write!(writer, "unit {place} {name} ")?;
        match self.unit.held() {
            _ if self.has_left => write!(writer, "left")?,
            Some(address) => write!(writer, "at {address}")?,
            None => write!(writer, "without address")?,
        }
        write!(writer, " heard {}", self.heard)?;
        if self.unheard > 0 {
            write!(writer, " unheard {}", self.unheard)?;
        }
        let QueueCounts {
            written,
            withdrawn,
            waiting,
            ..
        } = counts;
        write!(
            writer,
            " written {written} withdrawn {withdrawn} waiting {waiting}"
        )?;
        if !self.cyclic.is_empty() || !self.repeated.is_empty() {
            write!(writer, " cyclic {}", self.sent)?;
        }
        if !self.answers.is_empty() {
            write!(writer, " answered {}", self.answered)?;
        }
        if self.violated > 0 {
            write!(writer, " violated {}", self.violated)?;
        }
        writeln!(writer)
    }
}

/// Who watches, where a unit answers violations of its address.
fn watch_where(alloc: Global, answers: bool) -> Result<Option<AddressWatch>, AllocError>
    ensures { IfOk result (λ w. is_some w ≡ answers) }
{
    if answers {
        Ok(Some(AddressWatch::new(alloc)?))
    } else {
        Ok(None)
    }
}
