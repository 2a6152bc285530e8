ghost use Rattle.parameter_group.specs.Said.{IsLawfulGroup};

use crate::halves::PairHalves;
use crate::joined::Joined;
use can_frame::Frame;
use candump_line::{Line, Time};
use parameter_group::ParameterGroup;
use reassembly::{Fate, PairedPaces, Silence, announces};
use std::alloc::{AllocError, Global};

/// The most buses of which packets are joined: as many as a computer has by far. The packets of further ones stay apart.
const MOST_BUSES: usize = 16;

/// Messages half joined from the packets of a log, for each of its buses.
#[derive(Drop)]
pub(crate) struct Joining {
    alloc: Global,
    buses: Vec<BusJoining>,
}

/// A bus that lines name.
#[derive(Drop)]
struct BusJoining {
    /// Its name; empty for lines that name none.
    name: String,
    halves: PairHalves,
    paces: PairedPaces,
}

impl Joining {
    /// Nothing is half joined.
    pub(crate) fn new(alloc: Global) -> Joining {
        Joining {
            alloc,
            buses: Vec::new(alloc),
        }
    }

    /// Takes what a line says, and answers the message that it makes whole. A line that is bad, or tells of frames that were lost,
    /// ends what is half joined on every bus: what it stands for may have ended any of it.
    pub(crate) fn take(&mut self, line: &Line<'_>) -> Result<Option<Joined>, AllocError> {
        match line {
            Line::Frame { time, bus, frame } => self.take_frame(*time, bus.unwrap_or(""), frame),
            Line::Dropped { .. } | Line::Overflow { .. } | Line::Bad(_) => {
                self.clear();
                Ok(None)
            }
            Line::Foreign { .. } | Line::Note => Ok(None),
        }
    }

    /// Takes a frame of a bus.
    fn take_frame(
        &mut self,
        time: Option<Time>,
        bus: &str,
        frame: &Frame,
    ) -> Result<Option<Joined>, AllocError> {
        let group = ParameterGroup::read(frame);
        if !is_of_transport(&group) {
            return Ok(None);
        }
        match self.place_of(bus)? {
            Some(place) => match self.buses.get_mut(place) {
                Some(bus) => bus.take(micros(time), &group),
                None => Ok(None),
            },
            None => Ok(None),
        }
    }

    /// Where a bus stands; a new one gets a place as long as there is one.
    fn place_of(&mut self, name: &str) -> Result<Option<usize>, AllocError> {
        for (place, bus) in self.buses.iter().enumerate() {
            if bus.name.as_str() == name {
                return Ok(Some(place));
            }
        }
        let place = self.buses.len();
        if place >= MOST_BUSES {
            return Ok(None);
        }
        let bus = BusJoining {
            name: String::from_str(self.alloc, name)?,
            halves: PairHalves::new(self.alloc)?,
            paces: PairedPaces::new(self.alloc)?,
        };
        self.buses.push(bus)?;
        Ok(Some(place))
    }

    /// Ends what is half joined.
    fn clear(&mut self) {
        self.buses.clear();
    }
}

impl BusJoining {
    /// Takes what a frame says that comes now, in microseconds. A packet that is late or comes again, as it was asked for, is no part.
    fn take(
        &mut self,
        now: Option<u64>,
        group: &ParameterGroup<'_>,
    ) -> Result<Option<Joined>, AllocError>
        requires { IsLawfulGroup group.now }
    {
        let fate = self.fate(now, group);
        self.follow(now, group)?;
        if fate == Fate::Read {
            self.halves.take(group)
        } else {
            Ok(None)
        }
    }

    /// What is to be done with a frame.
    fn fate(&self, now: Option<u64>, group: &ParameterGroup<'_>) -> Fate {
        let ParameterGroup::DataTransfer {
            source,
            dest,
            bytes,
        } = *group
        else {
            return Fate::Read;
        };
        let half = self.halves.half(source, dest);
        self.paces
            .fate(Silence::Standard, now, source, dest, bytes, half)
    }

    /// Takes note of when a frame came.
    fn follow(&mut self, now: Option<u64>, group: &ParameterGroup<'_>) -> Result<(), AllocError> {
        match *group {
            ParameterGroup::ConnectionManagement {
                source,
                dest,
                control,
            } if announces(dest, control) => self.paces.announce(now, source, dest)?,
            ParameterGroup::ConnectionManagement {
                source,
                dest,
                control,
            } => self
                .paces
                .note(Silence::Standard, now, source, dest, control),
            ParameterGroup::DataTransfer {
                source,
                dest,
                bytes,
            } => self.paces.pass(Silence::Standard, now, source, dest, bytes),
            _ => {}
        }
        Ok(())
    }
}

/// A time in microseconds.
fn micros(time: Option<Time>) -> Option<u64> {
    match time {
        Some(time) => Some(time.micros()),
        None => None,
    }
}

/// Whether a frame is one of the transport protocol (SAE J1939-21, 5.10).
fn is_of_transport(group: &ParameterGroup<'_>) -> bool {
    match group {
        ParameterGroup::ConnectionManagement { .. } | ParameterGroup::DataTransfer { .. } => true,
        _ => false,
    }
}
