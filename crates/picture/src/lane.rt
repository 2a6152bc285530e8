ghost use Rattle.std.specs.Prelude.{◌≡◌, ◌≤◌, IfOk};
ghost use Rattle.picture.specs.Units.{same_unit};

use crate::brief::Brief;
use crate::severity::Severity;
use crate::span::{Shows, Span};
use crate::track::Track;
use crate::unit::{DrawnUnit, Sender};
use dm_messages::Kind;
use std::alloc::{AllocError, Global};
use std::marker::Model;

/// How many spans of held addresses a lane keeps, at most.
pub const ADDRESS_SPANS: usize = 128;

/// How many spans of DM1 messages a lane keeps, at most.
pub const DM1_SPANS: usize = 1024;

/// How many spans of DM2 messages a lane keeps, at most, and as many of DM6 messages.
pub const OTHER_SPANS: usize = 64;

/// How equal messages in a row ended.
#[derive(Clone, Copy)]
pub struct RunEnd {
    /// When the last of them was told, where lines have times.
    pub micros: Option<u64>,
    /// How many they were.
    pub times: u64,
}

/// A lane of the picture: what one unit held and told.
#[derive(Drop)]
pub struct UnitLane {
    unit: DrawnUnit,
    addresses: Track,
    holding: Holding,
    is_past: bool,
    dm1: MessageMarks,
    dm2: MessageMarks,
    dm6: MessageMarks,
}

impl Model for UnitLane {
    ghost use Rattle.picture.specs.Lanes.{DrawnLane};

    ghost Value = { DrawnLane };

    ghost view = { λ l. record {
      unit = l.unit;
      addresses = l.addresses;
      holding = l.holding;
      is_past = l.is_past;
      dm1 = l.dm1;
      dm2 = l.dm2;
      dm6 = l.dm6;
    } };
}

/// Which address a unit holds, as far as was read.
#[derive(Clone, Copy, Debug, PartialEq, Eq)]
pub enum Holding {
    /// It was not told that it holds one.
    Never,
    /// It holds this one since a moment.
    Since { address: u8, moment: u64 },
    /// It held one, and lost it.
    Lost,
    /// It held one, and frames were missed since.
    Unknown,
}

/// Messages of a kind: those that ended, and those that may go on.
#[derive(Drop)]
struct MessageMarks {
    ended: Track,
    newest: Option<NewestSeen>,
}

/// The newest message, and when the first equal to it was told.
#[derive(Clone, Copy)]
struct NewestSeen {
    brief: Brief,
    since: u64,
}

impl MessageMarks {
    fn new(alloc: Global, most: usize) -> MessageMarks
        requires { 2 ≤ most }
    {
        MessageMarks {
            ended: Track::new(alloc, most),
            newest: None,
        }
    }

    fn copy(&self, alloc: Global) -> Result<MessageMarks, AllocError>
        ensures { IfOk result (λ marks. marks ≡ self.now) }
    {
        Ok(MessageMarks {
            ended: self.ended.copy(alloc)?,
            newest: self.newest,
        })
    }

    /// The newest messages end, and others begin at this moment.
    fn begin(&mut self, brief: Brief, moment: u64, end: Option<RunEnd>) -> Result<(), AllocError> {
        self.end(moment, end)?;
        self.newest = Some(NewestSeen {
            brief,
            since: moment,
        });
        Ok(())
    }

    /// The newest messages end, at this moment at the latest.
    fn end(&mut self, moment: u64, end: Option<RunEnd>) -> Result<(), AllocError> {
        let Some(newest) = self.newest.take() else {
            return Ok(());
        };
        let span = newest.ended(moment, end);
        self.ended.add(&span)
    }
}

impl NewestSeen {
    /// The span of messages that ended.
    fn ended(self, moment: u64, end: Option<RunEnd>) -> Span {
        let (to, times) = match end {
            Some(end) => (end.micros.unwrap_or(moment), end.times),
            None => (moment, 1),
        };
        let shows = Shows::Message {
            brief: self.brief,
            severity: self.brief.severity(),
            times,
        };
        Span::new(self.since, to.min(moment).max(self.since), shows)
    }
}

impl UnitLane {
    /// A lane of a unit of which nothing was told.
    pub(crate) fn new(alloc: Global, unit: &DrawnUnit) -> UnitLane {
        UnitLane {
            unit: *unit,
            addresses: Track::new(alloc, ADDRESS_SPANS),
            holding: Holding::Never,
            is_past: false,
            dm1: MessageMarks::new(alloc, DM1_SPANS),
            dm2: MessageMarks::new(alloc, OTHER_SPANS),
            dm6: MessageMarks::new(alloc, OTHER_SPANS),
        }
    }

    /// The same lane once more.
    pub(crate) fn copy(&self, alloc: Global) -> Result<UnitLane, AllocError>
        ensures { IfOk result (λ lane. lane ≡ self.now) }
    {
        Ok(UnitLane {
            unit: self.unit,
            addresses: self.addresses.copy(alloc)?,
            holding: self.holding,
            is_past: self.is_past,
            dm1: self.dm1.copy(alloc)?,
            dm2: self.dm2.copy(alloc)?,
            dm6: self.dm6.copy(alloc)?,
        })
    }

    /// Whose it is.
    pub fn unit(&self) -> &DrawnUnit
        ensures { result.now ≡ self.now.unit }
    {
        &self.unit
    }

    /// Whether it is of this unit.
    pub(crate) fn is_of(&self, unit: &DrawnUnit) -> bool
        ensures { result ≡ same_unit self.now.unit unit.now }
    {
        self.unit == *unit
    }

    /// Whether it is of an address that nobody has claimed, and frames were missed since, or somebody claimed it: who sends from
    /// there now is another lane's.
    pub fn is_past(&self) -> bool
        ensures { result ≡ self.now.is_past }
    {
        self.is_past
    }

    /// Frames were missed on this bus: who sent without a claim may be another one now.
    pub(crate) fn pass_gap(&mut self, bus: u16) {
        if let Sender::Unclaimed { .. } = self.unit.sender {
            if self.unit.bus == bus {
                self.is_past = true;
            }
        }
    }

    /// Somebody claimed this address of this bus.
    pub(crate) fn pass_claim(&mut self, bus: u16, claimed: u8) {
        if let Sender::Unclaimed { address, .. } = self.unit.sender {
            if self.unit.bus == bus && address == claimed {
                self.is_past = true;
            }
        }
    }

    /// Whether its unit is on this bus.
    pub(crate) fn is_on(&self, bus: u16) -> bool {
        self.unit.bus == bus
    }

    /// The worst that it told by a DM1 that ended.
    pub fn worst(&self) -> Severity {
        let mut worst = Severity::Fine;
        for span in self.dm1.ended.spans() {
            worst = worst.worse(span.shows.severity());
        }
        worst
    }

    /// When it held which address.
    pub fn addresses(&self) -> &[Span]
        ensures { result.now ≡ self.now.addresses.spans }
    {
        self.addresses.spans()
    }

    /// Which address it holds.
    pub fn holding(&self) -> Holding
        ensures { result ≡ self.now.holding }
    {
        self.holding
    }

    /// When it told what by messages of this kind.
    pub fn messages(&self, kind: Kind) -> &[Span] {
        match kind {
            Kind::Dm1 => self.dm1.ended.spans(),
            Kind::Dm2 => self.dm2.ended.spans(),
            Kind::Dm6 => self.dm6.ended.spans(),
        }
    }

    /// It holds this address from this moment on.
    pub(crate) fn hold(&mut self, address: u8, moment: u64) -> Result<(), AllocError> {
        if let Holding::Since { address: held, .. } = self.holding {
            if held == address {
                return Ok(());
            }
        }
        self.part(moment)?;
        self.holding = Holding::Since { address, moment };
        Ok(())
    }

    /// It holds no address from this moment on.
    pub(crate) fn lose(&mut self, moment: u64) -> Result<(), AllocError> {
        self.part(moment)?;
        if self.holding != Holding::Never {
            self.holding = Holding::Lost;
        }
        Ok(())
    }

    /// Frames were missed at this moment: which address it holds is not known from then on.
    pub(crate) fn forget(&mut self, moment: u64) -> Result<(), AllocError> {
        self.part(moment)?;
        if let Holding::Since { .. } = self.holding {
            self.holding = Holding::Unknown;
        }
        Ok(())
    }

    /// Keeps until when an address was held, where one was.
    pub(crate) fn part(&mut self, moment: u64) -> Result<(), AllocError> {
        match self.holding {
            Holding::Since {
                address,
                moment: since,
            } => {
                let span = Span::new(since, moment, Shows::Address(address));
                self.addresses.add(&span)
            }
            _ => Ok(()),
        }
    }

    /// It tells something else by messages of this kind. How those before it ended is said, where there were any.
    pub(crate) fn tell(
        &mut self,
        kind: Kind,
        brief: Brief,
        moment: u64,
        before: Option<RunEnd>,
    ) -> Result<(), AllocError> {
        self.messages_mut(kind).begin(brief, moment, before)
    }

    /// The newest messages of this kind ended so.
    pub(crate) fn end(
        &mut self,
        kind: Kind,
        moment: u64,
        end: Option<RunEnd>,
    ) -> Result<(), AllocError> {
        self.messages_mut(kind).end(moment, end)
    }

    fn messages_mut(&mut self, kind: Kind) -> &mut MessageMarks {
        match kind {
            Kind::Dm1 => &mut self.dm1,
            Kind::Dm2 => &mut self.dm2,
            Kind::Dm6 => &mut self.dm6,
        }
    }
}
