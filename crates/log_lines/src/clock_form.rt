ghost use Rattle.std.specs.Prelude.{◌<◌};

use crate::civil::{date_time, offset_seconds};
use crate::offset::offset_of;
use crate::zone::LocalZone;
use candump_line::Time;
use jiff::tz::TimeZone;
use std::fmt;

/// How times are told to people. `Display` says it in words.
#[derive(Clone, Copy, PartialEq, Eq)]
pub enum ClockForm<'a> {
    /// As the log has them: seconds.
    Log,
    /// As a date and a time of day at UTC, for times that count from the start of the year 1970.
    Utc,
    /// The same in a zone.
    Zone(TimeZone<'a>),
    /// As hours, minutes and seconds since the first of them, behind a sign.
    Relative,
}

impl<'a> ClockForm<'a> {
    /// The clock that a word says: `log`, `utc`, `relative`, `local` for the zone of this machine, or how far it is ahead of UTC, as
    /// `+02:00` or `UTC-05:00`. None for any other word.
    pub fn of_word(word: &str, local: &'a LocalZone) -> Option<ClockForm<'a>> {
        match word {
            "log" => Some(ClockForm::Log),
            "utc" => Some(ClockForm::Utc),
            "relative" => Some(ClockForm::Relative),
            "local" => Some(ClockForm::Zone(local.zone())),
            _ => match offset_of(word) {
                Some(offset) => Some(ClockForm::Zone(TimeZone::fixed(offset))),
                None => None,
            },
        }
    }

    /// Whether it tells dates.
    pub fn has_dates(self) -> bool {
        match self {
            ClockForm::Utc | ClockForm::Zone(_) => true,
            ClockForm::Log | ClockForm::Relative => false,
        }
    }

    /// The zone of its dates; UTC where it tells none.
    fn zone(self) -> TimeZone<'a> {
        match self {
            ClockForm::Zone(zone) => zone,
            ClockForm::Utc | ClockForm::Log | ClockForm::Relative => TimeZone::UTC,
        }
    }

    /// The time of a date, `YYYY-MM-DD`, or of a date and a time of day, `YYYY-MM-DD HH:MM:SS` and a fraction, with a blank or `T`
    /// between them, as this clock tells it; at UTC where it tells no dates. How far another clock is ahead of UTC may stand behind
    /// it, as `Z` or `+02:00`. None for any other word, and for a time before 1970 or behind the year 2286.
    ///
    /// What the clock tells twice is taken for the first time, and what it leaves out is counted on from before.
    pub fn read_date(self, word: &str) -> Option<Time> {
        date_time(word, self.zone())
    }

    /// How many microseconds of a day its dates are ahead of those at UTC.
    pub fn ahead(self, time: Time) -> u64
        ensures { result < 86_400_000_000 }
    {
        let seconds = offset_seconds(time, self.zone());
        seconds.rem_euclid(86_400) as u64 * 1_000_000
    }
}

impl fmt::Display for ClockForm<'_> {
    fn fmt<W: fmt::Write>(&self, f: &mut fmt::Formatter<W>) -> fmt::Result {
        match self {
            ClockForm::Log => write!(f, "by the clock of the log"),
            ClockForm::Utc => write!(f, "UTC"),
            ClockForm::Zone(zone) => write_zone(f, *zone),
            ClockForm::Relative => write!(f, "since the first line"),
        }
    }
}

/// How far a zone is ahead of UTC, where that is always the same.
fn write_zone<W: fmt::Write>(f: &mut fmt::Formatter<W>, zone: TimeZone<'_>) -> fmt::Result {
    let Ok(offset) = zone.to_fixed_offset() else {
        return write!(f, "local time");
    };
    let sign = if offset.is_negative() { "-" } else { "+" };
    let minutes = offset.seconds().unsigned_abs() / 60;
    let (hours, minutes) = (minutes / 60, minutes % 60);
    write!(f, "UTC{sign}{hours:02}:{minutes:02}")
}
