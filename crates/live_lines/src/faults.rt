//! Faults that a unit has on purpose: they stand behind what it writes.
ghost use Rattle.std.specs.Prelude.{◌≡◌, ◌↔◌, [], IfSome, IsTrue, None, OnErr, OnOk, Some, false};
ghost use Rattle.std.specs.List.{All};
ghost use Rattle.live_lines.specs.Faults.{Meets, carried, goes, hits, waits_from, with_later};
ghost use Rattle.vehicle.specs.declared.fail_line.Deviation.{Deviation as AnyDeviation};

use crate::failing::{Carried, Delayed, Failing, changes, word_of};
use can_frame::Frame;
use name_field::Name;
use std::alloc::{AllocError, Global};
use std::io;
use std::io::Write;
use vehicle::{Deviation, FailLine};

/// The most frames of a unit that wait because of its faults.
const MOST_LATER: usize = 64;

/// A frame that goes at this time or later.
#[derive(Clone, Copy)]
pub(crate) struct Later {
    pub(crate) at: u64,
    pub(crate) frame: Frame,
}

/// What became of a frame: what goes of it at once and later, and by which fault it is not as it was.
#[derive(Clone, Copy)]
pub(crate) struct Carry {
    pub(crate) frame: Option<Frame>,
    pub(crate) later: Option<Delayed>,
    pub(crate) deviation: Option<Deviation>,
}

/// The faults of a unit, and what waits because of them.
#[derive(Drop)]
pub(crate) struct Faults {
    all: Vec<Failing>,
    later: Vec<Later>,
}

impl Faults {
    /// None. Takes no memory.
    pub(crate) fn none(alloc: Global) -> Faults
        ensures { (result.all.items ≡ []) × (result.later.items ≡ []) }
    {
        Faults {
            all: Vec::new(alloc),
            later: Vec::new(alloc),
        }
    }

    /// One more, which begins behind those that there are. What will wait because of them has its memory then.
    pub(crate) fn add(&mut self, line: &FailLine) -> Result<(), AllocError> {
        if self.all.is_empty() {
            self.later.reserve(MOST_LATER)?;
        }
        self.all.reserve(1)?;
        let deviation = line.deviation;
        self.all.push_reserved(Failing::new(deviation, line));
        Ok(())
    }

    /// Whether there never was one.
    pub(crate) fn is_empty(&self) -> bool
        ensures { IsTrue result ↔ (self.now.all.items ≡ []) }
    {
        self.all.is_empty()
    }

    /// Has those begin that were not told the time yet.
    pub(crate) fn begin(&mut self, now: u64) {
        for failing in self.all.iter_mut() {
            failing.begin(now);
        }
    }

    /// The first frame that waited until this time.
    pub(crate) fn late(&mut self, now: u64) -> Option<Frame> {
        let place = self.later.iter().position(|one| one.at <= now)?;
        Some(self.later.remove(place).frame)
    }

    /// The frame that a fault adds at this time, for a unit of this NAME that holds this address; and which fault that is.
    pub(crate) fn added(
        &mut self,
        name: Name,
        held: Option<u8>,
        now: u64,
    ) -> Option<(Deviation, Frame)> {
        for failing in self.all.iter_mut() {
            if let Some(frame) = failing.added(name, held, now) {
                return Some((failing.deviation(), frame));
            }
        }
        None
    }

    /// What becomes of a frame that the unit writes at this time: what the first fault that it meets makes of it. While 64 frames
    /// wait no fault is made.
    pub(crate) fn carry(&mut self, frame: &Frame, now: u64) -> Carry
        ensures without { self.old.all.items ≡ [] → (result.frame ≡ Some frame.now) × (result.deviation ≡ None) }
        ensures kept { result.deviation ≡ None → (result.frame ≡ Some frame.now) × (self.new.later.items ≡ self.old.later.items) }
        ensures changed { (d : AnyDeviation) → result.deviation ≡ Some d → (goes result.frame result.later ≡ carried d frame.now)
            × (self.new.later.items ≡ with_later now result.later self.old.later.items) }
        ensures met { (d : AnyDeviation) → result.deviation ≡ Some d → Meets self.old.all.items d now frame.now }
    {
        if self.later.len() >= MOST_LATER {
            return as_it_is(frame);
        }
        match taken(self.all.as_mut_slice(), frame, now) {
            Some(deviation) => self.change(&deviation, frame, now),
            None => as_it_is(frame),
        }
    }

    /// What becomes of a frame that meets a fault which does this.
    fn change(&mut self, deviation: &Deviation, frame: &Frame, now: u64) -> Carry
        ensures kept { result.deviation ≡ None → (result.frame ≡ Some frame.now) × (self.new.later.items ≡ self.old.later.items) }
        ensures changed { (d : AnyDeviation) → result.deviation ≡ Some d → (d ≡ deviation.now)
            × (goes result.frame result.later ≡ carried d frame.now)
            × (self.new.later.items ≡ with_later now result.later self.old.later.items) }
        ensures same { self.new.all ≡ self.old.all }
    {
        let Carried { at_once, later } = changes(deviation, frame);
        if self.keep(&later, now).is_err() {
            return as_it_is(frame);
        }
        Carry {
            frame: at_once,
            later,
            deviation: Some(*deviation),
        }
    }

    /// Keeps a frame that waits from now on, if there is one.
    fn keep(&mut self, later: &Option<Delayed>, now: u64) -> Result<(), AllocError>
        ensures kept { OnOk result (self.new.later.items ≡ with_later now later.now self.old.later.items) }
        ensures err { OnErr result (self.new.later.items ≡ self.old.later.items) }
        ensures same { self.new.all ≡ self.old.all }
    {
        if let Some(delayed) = *later {
            self.later.push(later_at(now, delayed))?;
        }
        Ok(())
    }

    /// When the first frame goes that waits, or that a fault adds, from this time on.
    pub(crate) fn next(&self, held: Option<u8>, now: u64) -> u64 {
        let mut next = u64::MAX;
        for one in self.later.iter() {
            next = next.min(one.at);
        }
        for failing in self.all.iter() {
            next = next.min(failing.next(held, now));
        }
        next
    }
}

/// A frame that no fault changes.
fn as_it_is(frame: &Frame) -> Carry
    ensures { (result.frame ≡ Some frame.now) × (result.deviation ≡ None) }
{
    Carry {
        frame: Some(*frame),
        later: None,
        deviation: None,
    }
}

/// When a frame goes that waits from now on.
fn later_at(now: u64, delayed: Delayed) -> Later
    ensures { result ≡ waits_from now delayed }
{
    let Delayed { wait, frame } = delayed;
    Later {
        at: now.saturating_add(wait),
        frame,
    }
}

/// What the first of these that a frame meets does. Those up to it have seen the frame then.
fn taken(all: &mut [Failing], frame: &Frame, now: u64) -> Option<Deviation>
    ensures none { result ≡ None → All (λ x. hits now frame.now x ≡ false) all.old }
    ensures met { IfSome result (λ d. Meets all.old d now frame.now) }
{
    let Some((first, deviation)) = first_met(all, frame, now) else {
        see(all, usize::MAX, frame, now);
        return None;
    };
    see(all, first, frame, now);
    Some(deviation)
}

/// The place of the first that a frame meets, and what that does.
#[tactic(auto, using(crate::proofs::FaultLemmas::met_there))]
fn first_met(all: &[Failing], frame: &Frame, now: u64) -> Option<(usize, Deviation)>
    ensures none { result ≡ None → All (λ x. hits now frame.now x ≡ false) all.now }
    ensures met { IfSome result (λ r. Meets all.now r.1 now frame.now) }
{
    let place = all.iter().position(|failing| failing.hits(frame, now))?;
    Some((place, all[place].deviation()))
}

/// Has those up to this place see a frame.
fn see(all: &mut [Failing], last: usize, frame: &Frame, now: u64) {
    for (place, failing) in all.iter_mut().enumerate() {
        if place <= last {
            failing.see(frame, now);
        }
    }
}

/// Tells of a fault: of which unit, which, and the frame that it changed or added.
pub(crate) fn write_note<N: Write>(
    notes: &mut N,
    place: usize,
    deviation: &Deviation,
    frame: &Frame,
) -> io::Result<()> {
    let word = word_of(deviation);
    write!(notes, "unit {place} fails: {word} ")?;
    write_frame(notes, frame)
}

/// Tells that a unit claims its address again, and the frame of another from that.
pub(crate) fn write_violation<N: Write>(
    notes: &mut N,
    place: usize,
    frame: &Frame,
) -> io::Result<()> {
    write!(notes, "unit {place} claims again: not its own ")?;
    write_frame(notes, frame)
}

fn write_frame<N: Write>(notes: &mut N, frame: &Frame) -> io::Result<()> {
    let id = frame.id().number();
    write!(notes, "{id:08X}#")?;
    for byte in frame.bytes() {
        write!(notes, "{byte:02X}")?;
    }
    writeln!(notes)
}
