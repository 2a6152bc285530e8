ghost use Rattle.std.specs.Prelude.{IfSome, length, ◌≡◌, ◌<◌, ◌≤◌, ◌||◌, None, Some, false, true};
ghost use Rattle.can_frame.specs.declared.address.TheConstants.{GREATEST_ADDRESS};
ghost use Rattle.live_lines.specs.Hearing.{AreFaultless, HaveBeenTold, IsFromOne};
ghost use Rattle.log_lines.specs.declared.fault.LogFault.TheVariants.{Memory};

use crate::faults::write_violation;
use crate::member::{Groups, Member, Taken};
use can_frame::Frame;
use dm_messages::Kind;
use fault_memory::{FaultChange, FaultError};
use live_unit::{LiveError, QueueCounts, UnitSettings};
use log_lines::{LinesEnd, LogFault};
use node_core::Acceptance;
use std::alloc::{AllocError, Global};
use std::io;
use std::io::Write;
use unit_trait::Unit;
use vehicle::FailLine;

/// Units that take part in one bus, in the order in which they came.
#[derive(Drop)]
pub struct Fleet {
    members: Vec<Member>,
    /// Whose frame is asked for first.
    turn: usize,
    /// Whether a unit was refused memory for what it heard or did.
    is_short: bool,
    /// Before this time no unit has anything to do, where none hears more than a frame that it passes over.
    idle_until: u64,
}

impl Fleet {
    /// No unit yet. Takes no memory.
    pub fn new(alloc: Global) -> Fleet {
        Fleet {
            members: Vec::new(alloc),
            turn: 0,
            is_short: false,
            idle_until: 0,
        }
    }

    /// A unit more, which wants this address, 0 to 253, and has these groups. Its claim waits to be written.
    ///
    /// Where memory is refused no unit is added.
    pub fn add(
        &mut self,
        alloc: Global,
        unit: Box<dyn Unit>,
        address: u8,
        settings: UnitSettings,
        groups: Groups,
    ) -> Result<(), AllocError>
        requires { address ≤ GREATEST_ADDRESS }
    {
        let member = Member::new(alloc, unit, address, settings, groups)?;
        self.members.push(member)?;
        self.idle_until = 0;
        Ok(())
    }

    /// Has each unit on the bus hear a frame. One that cannot, for want of room or of memory, is as it was, and counts it as unheard.
    /// One that claims its address again for it is told.
    pub fn hear<N: Write>(&mut self, alloc: Global, frame: &Frame, now: u64, notes: &mut N)
        requires { Unit {0} }
        ensures each { HaveBeenTold frame.now self.old.members.items self.new.members.items (λ m. (⟦<dyn Unit as Unit>⟧ m.unit.unit.vtable).memory_of m.unit.unit.value) }
    {
        let taken = hear_all(self.members.as_mut_slice(), alloc, frame, now, notes);
        if taken.is_woken {
            self.idle_until = 0;
        }
        self.note_short(taken.is_refused);
    }

    /// The frame that goes at this time, if one does: that of the first unit, from the one whose turn it is on, that has one. Units
    /// do first of their own accord what is due; one that is refused memory for it tries again later. Each fault on purpose is told.
    pub fn step<N: Write>(&mut self, alloc: Global, now: u64, notes: &mut N) -> Option<Frame>
        requires { Unit {0} }
        ensures source { AreFaultless self.old.members.items → IfSome result (λ f. IsFromOne f self.new.members.items) }
    {
        if now < self.idle_until {
            return None;
        }
        let members = self.members.as_mut_slice();
        let stepped = step_from(members, alloc, self.turn, now, notes);
        self.turn = stepped.turn;
        self.note_short(stepped.is_refused);
        self.idle_until = match stepped.frame {
            None => self.soonest(now),
            Some(_) => 0,
        };
        stepped.frame
    }

    /// Keeps that a unit was refused memory, where one was.
    fn note_short(&mut self, refused: bool)
        ensures { self.new ≡ record self.old { is_short = self.old.is_short || refused } }
    {
        self.is_short = self.is_short || refused;
    }

    /// When to look again, at this time or later.
    pub fn next(&self, now: u64) -> u64
        ensures { now < self.now.idle_until → result ≡ self.now.idle_until }
    {
        if now < self.idle_until {
            return self.idle_until;
        }
        self.soonest(now)
    }

    /// When the first unit has something to do.
    fn soonest(&self, now: u64) -> u64 {
        let mut next = u64::MAX;
        for member in self.members.iter() {
            next = next.min(member.next(now));
        }
        next
    }

    /// How many units there are, those that have left among them.
    pub fn len(&self) -> usize {
        self.members.len()
    }

    /// Whether there is no unit.
    pub fn is_empty(&self) -> bool {
        self.members.is_empty()
    }

    /// The unit at a place, from 0 on, that is on the bus, for an order to it.
    fn unit_at(&mut self, place: u32) -> Option<&mut Member>
        requires { Unit {0} }
    {
        self.idle_until = 0;
        match self.members.get_mut(place as usize) {
            Some(member) if member.is_here() => Some(member),
            _ => None,
        }
    }

    /// Tells a unit of a change of its fault memory. None where no unit at that place is on the bus.
    pub(crate) fn change(
        &mut self,
        place: u32,
        change: FaultChange,
    ) -> Option<Result<(), FaultError>>
        requires { Unit {0} }
    {
        let member = self.unit_at(place)?;
        Some(member.change(change))
    }

    /// Has a unit begin a message of this kind to all. None where no unit at that place is on the bus.
    pub(crate) fn begin(
        &mut self,
        alloc: Global,
        place: u32,
        kind: Kind,
    ) -> Option<Result<bool, LiveError>>
        requires { Unit {0} }
    {
        let member = self.unit_at(place)?;
        Some(member.begin(alloc, kind))
    }

    /// Has a unit do something wrong from now on. None where no unit at that place is on the bus.
    pub(crate) fn fail(&mut self, place: u32, line: &FailLine) -> Option<Result<(), AllocError>>
        requires { Unit {0} }
    {
        let member = self.unit_at(place)?;
        Some(member.fail(line))
    }

    /// Takes a unit off the bus: it hears nothing more, and writes nothing. None where no unit at that place is on it.
    pub(crate) fn leave(&mut self, place: u32) -> Option<()>
        requires { Unit {0} }
    {
        let member = self.unit_at(place)?;
        member.leave();
        Some(())
    }

    /// What became of the frames of a unit, one that has left too.
    pub(crate) fn counts(&self, place: u32) -> Option<QueueCounts> {
        Some(self.members.get(place as usize)?.unit().counts())
    }

    /// How a run of these units ended whose lines ended so. Tells a line for each unit: its place, its NAME, the address that it holds,
    /// and counts. Where a unit was refused memory for what it heard or did, the run failed for want of memory.
    pub fn ended<E: Write>(&self, errors: &mut E, lines: LinesEnd) -> LinesEnd {
        let _ = self.write_summary(errors);
        ended_short(lines, self.is_short)
    }

    fn write_summary<W: Write>(&self, writer: &mut W) -> io::Result<()> {
        for (place, member) in self.members.iter().enumerate() {
            member.write_line(writer, place)?;
        }
        Ok(())
    }
}

/// Tells each unit of a frame, and what came of it for all of them; of each that claims its address again it is told.
fn hear_all<N: Write>(
    members: &mut [Member],
    alloc: Global,
    frame: &Frame,
    now: u64,
    notes: &mut N,
) -> Taken
    requires { Unit {0} }
    ensures { HaveBeenTold frame.now members.old members.new (λ m. (⟦<dyn Unit as Unit>⟧ m.unit.unit.vtable).memory_of m.unit.unit.value) }
{
    let acceptance = Acceptance::of(frame);
    let mut all = Taken {
        defends: false,
        is_woken: false,
        is_refused: false,
    };
    for (place, member) in members.iter_mut().enumerate() {
        let taken = member.take(alloc, frame, &acceptance, now);
        if taken.defends {
            let _ = write_violation(notes, place, frame);
        }
        all.is_woken = all.is_woken || taken.is_woken;
        all.is_refused = all.is_refused || taken.is_refused;
    }
    all
}

/// What came of a step.
#[derive(Clone, Copy)]
struct Stepped {
    /// The frame that goes, if one does.
    frame: Option<Frame>,
    /// Whose frame is asked for next.
    turn: usize,
    /// Whether memory was refused for one.
    is_refused: bool,
}

/// The frame that goes at this time, if one does: of the first unit, from the one whose turn it is on, that has one.
fn step_from<N: Write>(
    members: &mut [Member],
    alloc: Global,
    turn: usize,
    now: u64,
    notes: &mut N,
) -> Stepped
    requires { Unit {0} }
    ensures many { length members.new ≡ length members.old }
    ensures source { AreFaultless members.old → IfSome result.frame (λ f. IsFromOne f members.new) }
{
    let mut is_refused = false;
    let count = members.len();
    for offset in 0..count {
        let place = place_after(turn, offset, count);
        let (short, frame) = members[place].step(alloc, place, now, notes);
        is_refused = is_refused || short;
        if frame.is_some() {
            return Stepped {
                frame,
                turn: place_after(place, 1, count),
                is_refused,
            };
        }
    }
    Stepped {
        frame: None,
        turn,
        is_refused,
    }
}

/// How a run ended whose lines ended so, and in which memory was refused or not.
pub fn ended_short(lines: LinesEnd, is_short: bool) -> LinesEnd
    ensures short { is_short ≡ true → lines.fault ≡ None → result.fault ≡ Some Memory }
    ensures same { is_short ≡ false → result ≡ lines }
{
    match lines.fault {
        None if is_short => LinesEnd {
            fault: Some(LogFault::Memory),
            ..lines
        },
        _ => lines,
    }
}

/// The place so many after another, in a ring of `count`.
fn place_after(place: usize, offset: usize, count: usize) -> usize
    ensures { 0 < count → result < count }
{
    if count == 0 {
        return 0;
    }
    place.saturating_add(offset) % count
}
