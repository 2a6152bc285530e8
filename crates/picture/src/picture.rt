ghost use Rattle.std.specs.Prelude.{◌≡◌, ◌++◌, ◌∷◌, [], IfOk, OnOk, OnErr, option_map};
ghost use Rattle.picture.specs.Lanes.{lane_in, lane_place};

use crate::brief::Brief;
use crate::handover::Handover;
use crate::history::{FIRST, Happened, History, LAST, Occurrence};
use crate::lane::{ADDRESS_SPANS, DM1_SPANS, OTHER_SPANS, RunEnd, UnitLane};
use crate::span::{Shows, Span};
use crate::track::Track;
use crate::unit::DrawnUnit;
use candump_line::Time;
use dm_messages::Kind;
use std::alloc::{AllocError, Global};
use std::marker::Model;

/// How many units have a lane, at most.
pub const LANES: usize = 64;

/// How many gaps are kept, at most.
pub const GAPS: usize = 1024;

/// How many changes of an address from one unit to another are kept, at most.
pub const HANDOVERS: usize = 256;

/// The most bytes that are kept of a log, whatever it is.
pub const MOST_BYTES: usize = 8_000_000;

// (a vector has room for a power of two, as most of these numbers are)
const _: () = prove!(
    LANES
        * (size_of::<UnitLane>()
            + (ADDRESS_SPANS + DM1_SPANS + 2 * OTHER_SPANS) * size_of::<Span>())
        + GAPS * size_of::<Span>()
        + HANDOVERS * size_of::<Handover>()
        + (2 * FIRST + LAST) * size_of::<Happened>()
        < MOST_BYTES
);

/// What moments are.
#[derive(Clone, Copy, Debug, PartialEq, Eq)]
pub enum Axis {
    /// Microseconds, as the lines of the log tell.
    Times,
    /// Lines of a log that has no times.
    Lines,
}

/// What is kept of a log for its picture.
#[derive(Drop)]
pub struct Picture {
    alloc: Global,
    lanes: Vec<UnitLane>,
    gaps: Track,
    handovers: Vec<Handover>,
    handovers_left_out: u64,
    history: History,
    undrawn: u64,
    axis: Option<Axis>,
    line: u64,
    start: Option<u64>,
    newest: u64,
}

impl Model for Picture {
    ghost use Rattle.picture.specs.Pictures.{PictureValue};

    ghost Value = { PictureValue };

    ghost view = { λ p. record {
      lanes = p.lanes.items;
      gaps = p.gaps;
      handovers = p.handovers.items;
      handovers_left_out = p.handovers_left_out;
      history = p.history;
      undrawn = p.undrawn;
      axis = p.axis;
      line = p.line;
      start = p.start;
      newest = p.newest;
    } };
}

impl Picture {
    /// The picture of a log of which nothing was read.
    ///
    /// # Errors
    /// Memory was refused.
    pub fn new(alloc: Global) -> Result<Picture, AllocError> {
        Ok(Picture {
            alloc,
            lanes: Vec::new(alloc),
            gaps: Track::new(alloc, GAPS),
            handovers: Vec::new(alloc),
            handovers_left_out: 0,
            history: History::new(alloc)?,
            undrawn: 0,
            axis: None,
            line: 0,
            start: None,
            newest: 0,
        })
    }

    /// A line is read: the number of it, and its time, where it has one that counts. A time before that of another line counts as
    /// that one.
    pub fn pass(&mut self, line: u64, time: Option<Time>) {
        self.line = line;
        if let Some(time) = time {
            let micros = time.micros();
            if self.start.is_none() {
                self.start = Some(micros);
                self.newest = micros;
            }
            self.newest = self.newest.max(micros);
        }
    }

    /// What moments are: lines where something was told before any line had a time.
    pub fn axis(&self) -> Axis {
        match (self.axis, self.start) {
            (Some(axis), _) => axis,
            (None, Some(_)) => Axis::Times,
            (None, None) => Axis::Lines,
        }
    }

    /// The first moment of the log.
    pub fn start(&self) -> u64 {
        match self.axis() {
            Axis::Times => self.start.unwrap_or(0),
            Axis::Lines => 0,
        }
    }

    /// The last moment that was read.
    pub fn end(&self) -> u64 {
        match self.axis() {
            Axis::Times => self.newest,
            Axis::Lines => self.line,
        }
    }

    /// How many lines were read.
    pub fn lines(&self) -> u64
        ensures { result ≡ self.now.line }
    {
        self.line
    }

    /// The lanes, in the order in which their units were first told of.
    pub fn lanes(&self) -> &[UnitLane]
        ensures { result.now ≡ self.now.lanes }
    {
        self.lanes.as_slice()
    }

    /// The lane of a unit.
    pub fn lane_of(&self, unit: &DrawnUnit) -> Option<&UnitLane>
        ensures { option_map (λ lane. lane.now) result ≡ lane_in self.now.lanes unit.now }
    {
        match self.place_of(unit) {
            Some(place) => self.lanes.get(place),
            None => None,
        }
    }

    /// Where frames were missed.
    pub fn gaps(&self) -> &[Span]
        ensures { result.now ≡ self.now.gaps.spans }
    {
        self.gaps.spans()
    }

    /// Which addresses changed hands, oldest first; of very many the first.
    pub fn handovers(&self) -> &[Handover]
        ensures { result.now ≡ self.now.handovers }
    {
        self.handovers.as_slice()
    }

    /// How many further times an address changed hands.
    pub fn handovers_left_out(&self) -> u64
        ensures { result ≡ self.now.handovers_left_out }
    {
        self.handovers_left_out
    }

    /// The changes.
    pub fn history(&self) -> &History
        ensures { result.now ≡ self.now.history }
    {
        &self.history
    }

    /// How many changes were told of units that have no lane.
    pub fn undrawn(&self) -> u64
        ensures { result ≡ self.now.undrawn }
    {
        self.undrawn
    }

    /// The line that is read changed this. Where it is a message, how the equal messages before it ended is said, where there were
    /// any.
    ///
    /// # Errors
    /// Memory was refused: the change may be kept in part.
    pub fn tell(&mut self, told: &Occurrence, before: Option<RunEnd>) -> Result<(), AllocError> {
        if self.axis.is_none() {
            self.axis = Some(self.axis());
        }
        let moment = self.end();
        let change = Happened {
            line: self.line,
            moment,
            told: *told,
        };
        self.history.add(&change)?;
        match told {
            Occurrence::At {
                unit,
                address,
                lost_by,
            } => self.hand_over(unit, *address, lost_by, moment),
            Occurrence::NoAddress { unit } => self.lose(unit, moment),
            Occurrence::Message { unit, kind, brief } => self.begin(
                unit, *kind, brief, moment, before,
            ),
            Occurrence::Missed { bus, count } => self.miss(*bus, *count, moment),
            Occurrence::Unowned { .. }
            | Occurrence::Acknowledged { .. }
            | Occurrence::Unread { .. } => Ok(()),
        }
    }

    /// The lanes as they are, which `finish` and `end_messages` change: for a picture that goes on once it was drawn.
    ///
    /// # Errors
    /// Memory was refused.
    pub fn copy_lanes(&self) -> Result<Vec<UnitLane>, AllocError>
        ensures { IfOk result (λ lanes. lanes.items ≡ self.now.lanes) }
    {
        copied(self.alloc, self.lanes.as_slice())
    }

    /// The lanes are these again; all else stays as it is.
    pub fn put_lanes(&mut self, lanes: Vec<UnitLane>)
        ensures { self.new ≡ record self.old { lanes = lanes.items } }
    {
        self.lanes = lanes;
    }

    /// The log has ended: addresses that are held were held until now. How the newest messages of each lane ended is said by
    /// `end_messages`.
    ///
    /// # Errors
    /// Memory was refused.
    pub fn finish(&mut self) -> Result<(), AllocError> {
        let end = self.end();
        for place in 0..self.lanes.len() {
            if let Some(lane) = self.lanes.get_mut(place) {
                lane.part(end)?;
            }
        }
        Ok(())
    }

    /// The newest messages of this kind of the unit ended so.
    ///
    /// # Errors
    /// Memory was refused.
    pub fn end_messages(
        &mut self,
        unit: &DrawnUnit,
        kind: Kind,
        end: Option<RunEnd>,
    ) -> Result<(), AllocError> {
        let moment = self.end();
        match self.place_of(unit) {
            Some(place) => match self.lanes.get_mut(place) {
                Some(lane) => lane.end(kind, moment, end),
                None => Ok(()),
            },
            None => Ok(()),
        }
    }

    /// The unit holds the address, which another one lost by that, if one did.
    fn hand_over(
        &mut self,
        unit: &DrawnUnit,
        address: u8,
        lost_by: &Option<DrawnUnit>,
        moment: u64,
    ) -> Result<(), AllocError> {
        self.pass_claim(unit.bus, address);
        if let Some(from) = lost_by {
            self.lose(from, moment)?;
            let handover = Handover {
                moment,
                address,
                from: *from,
                to: *unit,
            };
            self.note_handover(&handover)?;
        }
        match self.lane_for(unit)? {
            Some(place) => match self.lanes.get_mut(place) {
                Some(lane) => lane.hold(address, moment),
                None => Ok(()),
            },
            None => Ok(()),
        }
    }

    /// Who sent from this address without a claim does not any more.
    fn pass_claim(&mut self, bus: u16, address: u8) {
        for place in 0..self.lanes.len() {
            if let Some(lane) = self.lanes.get_mut(place) {
                lane.pass_claim(bus, address);
            }
        }
    }

    fn note_handover(&mut self, handover: &Handover) -> Result<(), AllocError> {
        if self.handovers.len() >= HANDOVERS {
            self.handovers_left_out = self.handovers_left_out.saturating_add(1);
            return Ok(());
        }
        put(&mut self.handovers, handover)
    }

    fn lose(&mut self, unit: &DrawnUnit, moment: u64) -> Result<(), AllocError> {
        match self.lane_for(unit)? {
            Some(place) => match self.lanes.get_mut(place) {
                Some(lane) => lane.lose(moment),
                None => Ok(()),
            },
            None => Ok(()),
        }
    }

    fn begin(
        &mut self,
        unit: &DrawnUnit,
        kind: Kind,
        brief: &Brief,
        moment: u64,
        before: Option<RunEnd>,
    ) -> Result<(), AllocError> {
        match self.lane_for(unit)? {
            Some(place) => match self.lanes.get_mut(place) {
                Some(lane) => lane.tell(kind, *brief, moment, before),
                None => Ok(()),
            },
            None => Ok(()),
        }
    }

    /// Frames of a bus were missed: which unit holds which address there is not known any more.
    fn miss(&mut self, bus: u16, count: u64, moment: u64) -> Result<(), AllocError> {
        let gap = Span::new(moment, moment, Shows::Missed { bus, count });
        self.gaps.add(&gap)?;
        for place in 0..self.lanes.len() {
            if let Some(lane) = self.lanes.get_mut(place) {
                lane.pass_gap(bus);
                if lane.is_on(bus) {
                    lane.forget(moment)?;
                }
            }
        }
        Ok(())
    }

    /// The place of the lane of a unit.
    fn place_of(&self, unit: &DrawnUnit) -> Option<usize>
        ensures { result ≡ lane_place unit.now self.now.lanes }
    {
        place_among(self.lanes.as_slice(), unit)
    }

    /// The place of the lane of a unit, which gets one where there is room; else the change is counted.
    fn lane_for(&mut self, unit: &DrawnUnit) -> Result<Option<usize>, AllocError> {
        if let Some(place) = self.place_of(unit) {
            return Ok(Some(place));
        }
        if self.lanes.len() >= LANES {
            self.undrawn = self.undrawn.saturating_add(1);
            return Ok(None);
        }
        let place = self.lanes.len();
        self.lanes.reserve(1)?;
        let lane = UnitLane::new(self.alloc, unit);
        self.lanes.push_reserved(lane);
        Ok(Some(place))
    }
}

/// The place of the lane of a unit.
fn place_among(lanes: &[UnitLane], unit: &DrawnUnit) -> Option<usize>
    ensures { result ≡ lane_place unit.now lanes.now }
{
    lanes.iter().position(|lane| lane.is_of(unit))
}

/// The same lanes once more.
fn copied(alloc: Global, lanes: &[UnitLane]) -> Result<Vec<UnitLane>, AllocError>
    ensures { IfOk result (λ copies. copies.items ≡ lanes.now) }
{
    let mut copies = Vec::new(alloc);
    for lane in lanes {
        copies.push(lane.copy(alloc)?)?;
    }
    Ok(copies)
}

/// Puts a handover behind all others. Where memory is refused, nothing changes.
fn put(handovers: &mut Vec<Handover>, handover: &Handover) -> Result<(), AllocError>
    ensures ok { OnOk result (handovers.new.items ≡ handovers.old.items ++ handover.now ∷ []) }
    ensures err { OnErr result (handovers.new.items ≡ handovers.old.items) }
{
    handovers.push(*handover)?;
    Ok(())
}
