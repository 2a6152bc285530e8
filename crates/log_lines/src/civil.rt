//! What the clock of a zone shows at a time, and when it shows a date.
ghost use Rattle.std.specs.Prelude.{◌≡◌, ◌*◌, ◌+ℤ◌, pos};
ghost use Rattle.jiff.specs.Words.{civil_nanos, nanos_of_seconds, offset_at, plain_zone};

use candump_line::Time;
use jiff::Timestamp;
use jiff::civil::DateTime;
use jiff::tz::TimeZone;

/// The point in time of a time that counts from the start of the year 1970.
///
/// A time is before the year 2287, so there is one.
fn timestamp_of(time: Time) -> Timestamp
    ensures { result.nanosecond ≡ pos (time * 1_000) }
{
    let Ok(timestamp) = Timestamp::from_microsecond(time.micros() as i64) else {
        unreachable!()
    };
    timestamp
}

/// What a clock of a zone shows at a time.
pub(crate) fn civil_of(time: Time, zone: TimeZone<'_>) -> DateTime
    ensures { civil_nanos result ≡ pos (time * 1_000) +ℤ nanos_of_seconds (offset_at (plain_zone zone.entry) (pos (time * 1_000))) }
{
    zone.to_datetime(timestamp_of(time))
}

/// How many seconds the clock of a zone is ahead of UTC at a time.
pub(crate) fn offset_seconds(time: Time, zone: TimeZone<'_>) -> i32
    ensures { result ≡ offset_at (plain_zone zone.entry) (pos (time * 1_000)) }
{
    zone.to_offset(timestamp_of(time)).seconds()
}

/// The time at which the clock of a zone shows what a word says: a date, or a date and a time of day; of a word that says how far its
/// clock is ahead of UTC, its time whatever the zone is. None for any other word, and for a time before 1970 or behind the year 2286.
pub(crate) fn date_time(word: &str, zone: TimeZone<'_>) -> Option<Time> {
    // (what reads a date passes over the name of a zone in brackets)
    if word.contains('[') {
        return None;
    }
    let timestamp = match word.parse::<Timestamp>() {
        Ok(timestamp) => timestamp,
        Err(_) => shown_at(word, zone)?,
    };
    match u64::try_from(timestamp.as_microsecond()) {
        Ok(micros) => Time::from_micros(micros),
        Err(_) => None,
    }
}

/// When the clock of a zone shows a date, or a date and a time of day. What it shows twice is taken for the first time, and what it
/// leaves out is counted on from before.
fn shown_at(word: &str, zone: TimeZone<'_>) -> Option<Timestamp> {
    let Ok(date) = word.parse::<DateTime>() else {
        return None;
    };
    zone.to_timestamp(date).ok()
}
