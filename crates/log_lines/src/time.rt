use crate::civil::civil_of;
use crate::clock_form::ClockForm;
use candump_line::Time;
use jiff::tz::TimeZone;
use std::fmt;

/// How much of a second is told.
#[derive(Clone, Copy, PartialEq, Eq)]
pub enum Fraction {
    /// Whole seconds.
    Seconds,
    /// Three digits.
    Millis,
    /// Six digits.
    Micros,
}

/// A time of a log in words.
///
/// By the log's own clock `1761379205.123456`; by UTC, or in a zone, `2026-10-25 08:00:05.123456`, as `candump -tA` writes it, or without the date
/// `08:00:05.123456`; since the first `+0:00:05.123456`, or, of a time before it, `-0:00:05.123456`.
#[derive(Clone, Copy)]
pub struct TimeWords<'a> {
    pub clock: ClockForm<'a>,
    /// The time of the first line that has one.
    pub start: Time,
    pub time: Time,
    pub fraction: Fraction,
    /// Whether a time of day stands with its date.
    pub with_date: bool,
}

impl fmt::Display for TimeWords<'_> {
    fn fmt<W: fmt::Write>(&self, f: &mut fmt::Formatter<W>) -> fmt::Result {
        match self.clock {
            ClockForm::Log => write_log(f, self.time, self.fraction),
            ClockForm::Utc => {
                write_civil(f, TimeZone::UTC, self.time, self.fraction, self.with_date)
            }
            ClockForm::Zone(zone) => {
                write_civil(f, zone, self.time, self.fraction, self.with_date)
            }
            ClockForm::Relative => write_relative(f, self.start, self.time, self.fraction),
        }
    }
}

fn write_log<W: fmt::Write>(
    f: &mut fmt::Formatter<W>,
    time: Time,
    fraction: Fraction,
) -> fmt::Result {
    let seconds = time.micros() / MICROS;
    write!(f, "{seconds}")?;
    write_fraction(f, time.micros() % MICROS, fraction)
}

/// Writes what the clock of a zone shows.
fn write_civil<W: fmt::Write>(
    f: &mut fmt::Formatter<W>,
    zone: TimeZone<'_>,
    time: Time,
    fraction: Fraction,
    with_date: bool,
) -> fmt::Result {
    let shown = civil_of(time, zone);
    if with_date {
        let (year, month, day) = (shown.year(), shown.month(), shown.day());
        write!(f, "{year:04}-{month:02}-{day:02} ")?;
    }
    let (hour, minute, second) = (shown.hour(), shown.minute(), shown.second());
    write!(f, "{hour:02}:{minute:02}:{second:02}")?;
    write_fraction(f, time.micros() % MICROS, fraction)
}

fn write_relative<W: fmt::Write>(
    f: &mut fmt::Formatter<W>,
    start: Time,
    time: Time,
    fraction: Fraction,
) -> fmt::Result {
    let sign = if time < start { "-" } else { "+" };
    let passed = time.micros().abs_diff(start.micros());
    let seconds = passed / MICROS;
    let (hours, minutes, seconds) = (seconds / 3600, seconds / 60 % 60, seconds % 60);
    write!(f, "{sign}{hours}:{minutes:02}:{seconds:02}")?;
    write_fraction(f, passed % MICROS, fraction)
}

/// The microseconds of a second.
const MICROS: u64 = 1_000_000;

/// Writes a point and what is told of a second's microseconds.
fn write_fraction<W: fmt::Write>(
    f: &mut fmt::Formatter<W>,
    micros: u64,
    fraction: Fraction,
) -> fmt::Result {
    match fraction {
        Fraction::Seconds => Ok(()),
        Fraction::Millis => {
            let millis = micros / 1_000;
            write!(f, ".{millis:03}")
        }
        Fraction::Micros => write!(f, ".{micros:06}"),
    }
}
