ghost use Rattle.std.specs.Prelude.{◌≡◌, None};
ghost use Rattle.candump_line.specs.Content.{time_of, untimed};
ghost use Rattle.candump_line.specs.Content as content;

use crate::reason::Reason;
use crate::time::Time;
use can_frame::Frame;

/// A frame that is none of SAE J1939, which has 29-bit data frames of at most eight bytes alone.
#[derive(Clone, Copy, PartialEq, Eq)]
pub enum Foreign {
    /// Its identifier has 11 bits: three digits.
    StandardId,
    /// It is a remote frame.
    Remote,
    /// It is a CAN FD frame.
    Fd,
    /// It tells of an error on the bus.
    Error,
}

/// What a line says.
#[derive(Clone, Copy, PartialEq, Eq)]
pub enum Line<'a> {
    /// A data frame with a 29-bit identifier, with the time and the bus where the line has them.
    Frame {
        time: Option<Time>,
        bus: Option<&'a str>,
        frame: Frame,
    },
    /// So many frames of a bus were dropped before they were logged, as candump tells.
    Dropped {
        bus: Option<&'a str>,
        count: u32,
    },
    /// An error frame tells that the controller lost a frame, at least one.
    Overflow {
        time: Option<Time>,
        bus: Option<&'a str>,
    },
    /// A frame that is none of SAE J1939.
    Foreign {
        bus: Option<&'a str>,
        what: Foreign,
    },
    /// An empty line, a comment, or other text.
    Note,
    /// It begins as a line of a log, and is none.
    Bad(Reason),
}

impl<'a> Line<'a> {
    /// Its time, where it has one.
    pub fn time(&self) -> Option<Time>
        ensures { result ≡ time_of self.now }
    {
        match self {
            Line::Frame { time, .. } => *time,
            Line::Overflow { time, .. } => *time,
            _ => None,
        }
    }

    /// The line without its time.
    pub fn untimed(&self) -> Line<'a>
        ensures same { result ≡ untimed self.now }
        ensures time { time_of result ≡ None }
    {
        match self {
            Line::Frame { bus, frame, .. } => Line::Frame {
                time: None,
                bus: *bus,
                frame: *frame,
            },
            Line::Overflow { bus, .. } => Line::Overflow {
                time: None,
                bus: *bus,
            },
            Line::Dropped { bus, count } => Line::Dropped {
                bus: *bus,
                count: *count,
            },
            Line::Foreign { bus, what } => Line::Foreign {
                bus: *bus,
                what: *what,
            },
            Line::Note => Line::Note,
            Line::Bad(reason) => Line::Bad(*reason),
        }
    }

    /// Whether it tells of a frame: one of J1939, another one, or one that was lost.
    pub fn is_of_frames(&self) -> bool
        ensures { result ≡ content.is_of_frames self.now }
    {
        match self {
            Line::Note | Line::Bad(_) => false,
            _ => true,
        }
    }
}
