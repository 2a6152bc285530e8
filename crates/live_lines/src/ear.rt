//! The lines of a bus, of whose frames those who take part in it hear.
ghost use Rattle.std.specs.Prelude.{◌≡◌, ◌≢◌, ℕ, IfOk, IsTrue, MatchOption, List, None, Some, OnOk, option_map, string_bytes, ◌↔◌, true};
ghost use Rattle.can_frame.specs.FrameValue.{FrameValue};
ghost use Rattle.candump_line.specs.Logged.{frame_read};
ghost use Rattle.live_lines.specs.Reading.{line_behind, IsReadSo};

use crate::on_bus::OnBus;
use can_frame::Frame;
use candump_line::{Line, Time, read_line};
use log_lines::{LinesEnd, LogFault, Notices};
use std::alloc::{AllocError, Global};
use std::io::Write;

/// Who reads the lines of a bus for those who take part in it.
#[derive(Drop)]
pub struct Ear {
    bus: String,
    number: u64,
    notices: Notices,
}

/// A frame of the bus, with the number of its line, from 1, and its time where it has one.
#[derive(Clone, Copy)]
pub struct HeardFrame {
    pub frame: Frame,
    pub line: u64,
    pub time: Option<Time>,
}

/// What a line is to who takes part in the bus.
#[derive(Clone, Copy)]
pub(crate) struct Heard {
    /// A frame of the bus.
    pub(crate) frame: Option<HeardFrame>,
    /// How many frames of the bus were not read.
    pub(crate) missed: u32,
    /// Whether the line is bad.
    pub(crate) is_bad: bool,
}

impl Ear {
    /// One who reads the lines of this bus, and those that name none.
    pub fn new(alloc: Global, bus: &str) -> Result<Ear, AllocError> {
        Ok(Ear {
            bus: String::from_str(alloc, bus)?,
            number: 0,
            notices: Notices::new(),
        })
    }

    /// Takes a line, with its end: its frame is heard at this time, where it has one of this bus. A bad line is told on `errors`, and
    /// is a frame that was not read. Answers whether the line is bad.
    ///
    /// # Errors
    /// `Write`: it could not be told.
    pub fn take<B: OnBus, E: Write>(
        &mut self,
        alloc: Global,
        on_bus: &mut B,
        line: &[u8],
        now: u64,
        errors: &mut E,
    ) -> Result<bool, LogFault>
        requires { Unit {0} }
    {
        let Heard {
            frame,
            missed,
            is_bad,
        } = self.read(line, errors)?;
        if missed > 0 {
            on_bus.miss(alloc, missed, now, errors);
        }
        let Some(frame) = frame else {
            return Ok(is_bad);
        };
        on_bus.hear(alloc, &frame, now, errors);
        Ok(is_bad)
    }

    /// Reads a line. A bad one is told on `errors`.
    pub(crate) fn read<E: Write>(&mut self, line: &[u8], errors: &mut E) -> Result<Heard, LogFault>
        ensures read { IfOk result (λ heard. IsReadSo (string_bytes self.old.bus) self.old.number line.now heard) }
        ensures bus { string_bytes self.new.bus ≡ string_bytes self.old.bus }
        ensures number { self.new.number ≡ line_behind self.old.number }
    {
        self.number = self.number.saturating_add(1);
        let said = read_line(line);
        let is_bad = self.notices.take(errors, self.number, line, &said)?;
        Ok(self.heard(&said, is_bad))
    }

    /// What the latest line is to them, which says this and is bad or not.
    fn heard(&self, said: &Line<'_>, is_bad: bool) -> Heard
        ensures own { (time : ℕ) (f : FrameValue) → frame_read said.now ≡ Some (time, string_bytes self.now.bus, f)
            → (result.missed ≡ 0) × (result.frame ≡ Some (record { frame = f; line = self.now.number; time = Some time })) }
        ensures other { (time : ℕ) (named : List ℕ) (f : FrameValue) → frame_read said.now ≡ Some (time, named, f)
            → named ≢ string_bytes self.now.bus → (result.missed ≡ 0) × (result.frame ≡ None) }
    {
        let (frame, missed) = match *said {
            Line::Frame { time, bus, frame } if self.is_of_bus(bus) => (
                Some(HeardFrame {
                    frame,
                    line: self.number,
                    time,
                }),
                0,
            ),
            Line::Dropped { bus, count } if self.is_of_bus(bus) => (None, count),
            Line::Overflow { bus, .. } if self.is_of_bus(bus) => (None, 1),
            Line::Bad(_) => (None, 1),
            _ => (None, 0),
        };
        Heard {
            frame,
            missed,
            is_bad,
        }
    }

    /// A frame that was written behind the latest line.
    pub(crate) fn written(&self, frame: Frame, time: Option<Time>) -> HeardFrame
        ensures { result ≡ record { frame = frame; line = self.now.number; time = time } }
    {
        HeardFrame {
            frame,
            line: self.number,
            time,
        }
    }

    /// The bus whose lines are read.
    pub(crate) fn bus(&self) -> &str
        ensures { result.now ≡ string_bytes self.now.bus }
    {
        self.bus.as_str()
    }

    /// How the lines ended, at the end of the input or not.
    pub fn ended<E: Write>(&self, errors: &mut E, end: Result<bool, LogFault>) -> LinesEnd {
        self.notices.ended(errors, end)
    }

    fn is_of_bus(&self, bus: Option<&str>) -> bool
        ensures { MatchOption (option_map (λ b. b.now) bus.entry) (result ≡ true) (λ named. IsTrue result ↔ (named ≡ string_bytes self.now.bus)) }
    {
        match bus {
            Some(bus) => bus == self.bus.as_str(),
            None => true,
        }
    }
}
