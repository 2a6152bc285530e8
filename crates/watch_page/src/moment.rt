use crate::pieces::write_count;
use crate::words::PageWords;
use candump_line::Time;
use log_lines::{Fraction, TimeWords};
use picture::Axis;
use safe_text::Page;
use std::io::Write;

/// Writes when a moment is: its time by the clock of the page, or its line.
pub(crate) fn write_moment<W: Write>(
    page: &mut Page<W>,
    words: &PageWords<'_>,
    moment: u64,
    fraction: Fraction,
) {
    match words.axis {
        Axis::Times => write_time(page, words, moment, fraction, false),
        Axis::Lines => write_count(page, "line ", moment, ""),
    }
}

/// Writes a time by the clock of the page.
pub(crate) fn write_time<W: Write>(
    page: &mut Page<W>,
    words: &PageWords<'_>,
    micros: u64,
    fraction: Fraction,
    with_date: bool,
) {
    let start = Time::from_micros(words.start);
    let time = Time::from_micros(micros);
    if let (Some(start), Some(time)) = (start, time) {
        write_clock(page, words, start, time, fraction, with_date);
    }
}

fn write_clock<W: Write>(
    page: &mut Page<W>,
    words: &PageWords<'_>,
    start: Time,
    time: Time,
    fraction: Fraction,
    with_date: bool,
) {
    let told = TimeWords {
        clock: words.clock,
        start,
        time,
        fraction,
        with_date,
    };
    page.made_text(told.to_string(words.alloc));
}

/// Writes from when to when something was.
pub(crate) fn write_range<W: Write>(page: &mut Page<W>, words: &PageWords<'_>, from: u64, to: u64) {
    write_moment(page, words, from, Fraction::Seconds);
    if to > from {
        page.markup(" to ");
        write_moment(page, words, to, Fraction::Seconds);
    }
}
