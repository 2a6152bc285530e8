ghost use Rattle.std.specs.Prelude.{◌≤◌};

use crate::moment::{write_moment, write_time};
use crate::words::PageWords;
use candump_line::Time;
use log_lines::{ClockForm, Fraction};
use picture::{Axis, Picture};
use safe_text::Page;
use std::io::Write;

/// The whole width in hundredths of a percent.
pub(crate) const FULL: u64 = 10_000;

/// A span that can be multiplied by `FULL`: three years of microseconds.
const SMALL: u64 = 100_000_000_000_000;

/// A second and a day in microseconds.
const SECOND: u64 = 1_000_000;

const DAY: u64 = 86_400 * SECOND;

/// How far marks of time may be apart.
const TIME_STEPS: [u64; 30] = [
    1_000,
    2_000,
    5_000,
    10_000,
    20_000,
    50_000,
    100_000,
    200_000,
    500_000,
    SECOND,
    2 * SECOND,
    5 * SECOND,
    10 * SECOND,
    15 * SECOND,
    30 * SECOND,
    60 * SECOND,
    120 * SECOND,
    300 * SECOND,
    600 * SECOND,
    900 * SECOND,
    1_800 * SECOND,
    3_600 * SECOND,
    7_200 * SECOND,
    14_400 * SECOND,
    21_600 * SECOND,
    43_200 * SECOND,
    DAY,
    7 * DAY,
    30 * DAY,
    365 * DAY,
];

/// Where moments stand on the page.
#[derive(Clone, Copy)]
pub(crate) struct Scale {
    start: u64,
    span: u64,
}

impl Scale {
    /// The scale of a picture, from its first moment to its last.
    pub(crate) fn of(picture: &Picture) -> Scale {
        let start = picture.start();
        Scale {
            start,
            span: picture.end().saturating_sub(start),
        }
    }

    /// The place of a moment in hundredths of a percent of the width.
    pub(crate) fn place(self, moment: u64) -> u64
        ensures { result ≤ FULL }
    {
        let passed = moment.saturating_sub(self.start).min(self.span);
        let place = if self.span < SMALL {
            passed * FULL / self.span.max(1)
        } else {
            passed / (self.span / FULL)
        };
        place.min(FULL)
    }

    /// The last moment.
    pub(crate) fn end(self) -> u64 {
        self.start.saturating_add(self.span)
    }
}

/// The marks of an axis: the first, and how far they are apart.
#[derive(Clone, Copy)]
pub(crate) struct Marks {
    first: u64,
    step: u64,
    end: u64,
    with_date: bool,
}

/// The most marks of an axis.
const MOST: u64 = 10;

impl Marks {
    /// The marks of the axis of a picture: at round times of the clock, or at round lines.
    pub(crate) fn of(words: &PageWords<'_>, scale: Scale) -> Marks {
        let with_date = scale.span > DAY && words.clock.has_dates();
        let most = if with_date { 4 } else { 8 };
        let step = match words.axis {
            Axis::Times => time_step(scale.span, most),
            Axis::Lines => line_step(scale.span),
        };
        Marks {
            first: first_mark(scale.start, step, words.clock),
            step,
            end: scale.end(),
            with_date,
        }
    }

    /// The mark of this number, from 0; none behind the end.
    pub(crate) fn at(self, number: u64) -> Option<u64> {
        let moment = self.first.saturating_add(self.step.saturating_mul(number));
        if moment > self.end || number >= MOST {
            return None;
        }
        Some(moment)
    }

    /// How much of a second a mark tells.
    fn fraction(self) -> Fraction {
        if self.step < SECOND {
            Fraction::Millis
        } else {
            Fraction::Seconds
        }
    }
}

/// The first mark from the start on.
fn first_mark(start: u64, step: u64, clock: ClockForm<'_>) -> u64 {
    if clock == ClockForm::Relative || step == 0 {
        return start;
    }
    let ahead = match Time::from_micros(start) {
        Some(time) => clock.ahead(time),
        None => 0,
    };
    let shown = start.saturating_add(ahead);
    let before = shown / step * step;
    let mark = if before < shown {
        before.saturating_add(step)
    } else {
        before
    };
    mark.saturating_sub(ahead)
}

fn time_step(span: u64, most: u64) -> u64
    requires { 1 ≤ most }
{
    for step in TIME_STEPS {
        if span / step.max(1) <= most {
            return step;
        }
    }
    span / most
}

fn line_step(span: u64) -> u64 {
    let mut step = 1u64;
    for _ in 0..19 {
        if span / step.max(1) <= 8 {
            return step;
        }
        step = step.saturating_mul(10);
    }
    step
}

/// Writes an attribute whose value is a part of the width. The name stands with the mark that begins the value.
pub(crate) fn write_part<W: Write>(page: &mut Page<W>, name: &'static str, place: u64) {
    page.markup(name);
    page.number(place / 100);
    page.markup(if place % 100 < 10 { ".0" } else { "." });
    page.number(place % 100);
    page.markup("%\"");
}

/// Writes the axis: its marks in words.
pub(crate) fn write_axis<W: Write>(page: &mut Page<W>, words: &PageWords<'_>, scale: Scale) {
    let marks = Marks::of(words, scale);
    page.markup(axis_begin());
    for number in 0..MOST {
        if let Some(moment) = marks.at(number) {
            write_mark(page, words, scale.place(moment), number, moment, marks);
        }
    }
    page.markup("</svg>\n");
}

fn axis_begin() -> &'static str {
    "<svg xmlns=\"http://www.w3.org/2000/svg\" class=\"axis\" width=\"100%\" height=\"20\" aria-hidden=\"true\">"
}

/// Writes a mark in words. Each second one is left out of a narrow page.
fn write_mark<W: Write>(
    page: &mut Page<W>,
    words: &PageWords<'_>,
    place: u64,
    number: u64,
    moment: u64,
    marks: Marks,
) {
    begin_mark(page, place, number);
    match words.axis {
        Axis::Times => write_time(page, words, moment, marks.fraction(), marks.with_date),
        Axis::Lines => write_moment(page, words, moment, Fraction::Seconds),
    }
    page.markup("</text>");
}

fn begin_mark<W: Write>(page: &mut Page<W>, place: u64, number: u64) {
    write_part(page, "<text x=\"", place);
    page.markup(" y=\"14\" class=\"mark");
    page.markup(if number % 2 == 1 { " odd" } else { "" });
    page.markup(side_of(place));
}

/// On which side of its place a mark's words stand, so that they are on the page.
fn side_of(place: u64) -> &'static str {
    if place < 500 {
        " left\">"
    } else if place > 9_500 {
        " right\">"
    } else {
        "\">"
    }
}

/// Writes the lines of the marks through a lane.
pub(crate) fn write_lines<W: Write>(page: &mut Page<W>, words: &PageWords<'_>, scale: Scale) {
    let marks = Marks::of(words, scale);
    for number in 0..MOST {
        if let Some(moment) = marks.at(number) {
            write_line(page, scale.place(moment));
        }
    }
}

fn write_line<W: Write>(page: &mut Page<W>, place: u64) {
    write_part(page, "<line x1=\"", place);
    write_part(page, " x2=\"", place);
    page.markup(" y1=\"0\" y2=\"100%\" class=\"mark\"/>");
}
