//! What a line of a log tells a station.
ghost use Rattle.std.specs.Prelude.{◌≡◌, ◌↔◌, IsTrue};
ghost use Rattle.station_c.specs.Lines.{IsOf, LineTells, MayBeOf, micros_told, why_told};

use can_frame::Frame;
use candump_line::{Line, Reason, Time};

/// The time of a line that has none.
pub(crate) const NO_TIME: u64 = u64::MAX;

/// What a line of a log tells a station of a bus.
#[derive(Clone, Copy, PartialEq, Eq)]
pub(crate) enum LineContent {
    /// Nothing: it is no frame of SAE J1939, or is of another bus.
    Nothing,
    /// A frame, and when it was seen: in microseconds, or `NO_TIME`.
    Frame { time: u64, frame: Frame },
    /// So many frames were missed.
    Missed { count: u32 },
    /// It begins as a line of a log, and is none: the number of the reason, 1 to 13.
    Bad { why: u8 },
}

impl LineContent {
    /// What a line tells of this bus; of every bus where that is empty. A line that names no bus is of none, but frames that it tells of
    /// as dropped may be of any.
    pub(crate) fn of(line: &Line<'_>, wanted: &[u8]) -> LineContent
        ensures { LineTells wanted.now line.now result }
    {
        match line {
            Line::Frame { time, bus, frame } => {
                let told = LineContent::Frame {
                    time: micros_of(*time),
                    frame: *frame,
                };
                told.where_of(*bus, wanted)
            }
            Line::Dropped { bus, count } => LineContent::Missed { count: *count }.where_may_be_of(
                *bus, wanted,
            ),
            Line::Overflow { bus, .. } => LineContent::Missed { count: 1 }.where_of(*bus, wanted),
            Line::Foreign { .. } => LineContent::Nothing,
            Line::Note => LineContent::Nothing,
            Line::Bad(reason) => LineContent::Bad {
                why: why_of(*reason),
            },
        }
    }

    /// The same where the line is of a bus that is wanted, else nothing.
    fn where_of(self, bus: Option<&str>, wanted: &[u8]) -> LineContent
        ensures wanted { IsOf wanted.now bus.entry → result ≡ self }
        ensures other { ¬ IsOf wanted.now bus.entry → result ≡ LineContent.Nothing }
    {
        if is_of(bus, wanted) {
            self
        } else {
            LineContent::Nothing
        }
    }

    /// The same where the line may be of a bus that is wanted, else nothing.
    fn where_may_be_of(self, bus: Option<&str>, wanted: &[u8]) -> LineContent
        ensures wanted { MayBeOf wanted.now bus.entry → result ≡ self }
        ensures other { ¬ MayBeOf wanted.now bus.entry → result ≡ LineContent.Nothing }
    {
        match bus {
            Some(_) => self.where_of(bus, wanted),
            None => self,
        }
    }
}

/// Whether a line that names this bus is of the one that is wanted.
fn is_of(bus: Option<&str>, wanted: &[u8]) -> bool
    ensures { IsTrue result ↔ IsOf wanted.now bus.entry }
{
    match bus {
        Some(bus) => wanted.is_empty() || bus.as_bytes() == wanted,
        None => wanted.is_empty(),
    }
}

/// The microseconds of a time.
fn micros_of(time: Option<Time>) -> u64
    ensures { result ≡ micros_told time }
{
    match time {
        Some(time) => time.micros(),
        None => NO_TIME,
    }
}

/// The number of the reason why a line is bad.
fn why_of(reason: Reason) -> u8
    ensures { result ≡ why_told reason }
{
    match reason {
        Reason::TooLong => 1,
        Reason::NotText => 2,
        Reason::NoTime => 3,
        Reason::NoBus => 4,
        Reason::NoFrame => 5,
        Reason::NoHash => 6,
        Reason::IdDigits(_) => 7,
        Reason::IdTooLarge => 8,
        Reason::TooManyBytes => 9,
        Reason::ByteCount { .. } => 10,
        Reason::OddDigits => 11,
        Reason::NoDigit(_) => 12,
        Reason::ControlCharacter(_) => 12,
        Reason::WordsBehind => 13,
    }
}
