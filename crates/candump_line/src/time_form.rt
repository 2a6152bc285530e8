//! How the time of a line is written, by which a reader tells relative times.
ghost use Rattle.std.specs.Prelude.{◌≡◌};
ghost use Rattle.candump_line.specs.TimeForms.{is_dated, is_relative, is_timed};

use crate::digits::{is_at, is_digit_at};

/// How the time of a line is written.
#[derive(Clone, Copy, Debug, PartialEq, Eq)]
pub enum TimeForm {
    /// Seconds: since the start of 1970 (`candump -L`, `-ta`), or since the start of a run.
    Seconds,
    /// A date and a time of day (`candump -tA`).
    Date,
    /// Three digits of seconds of which the first is 0: since the first line (`candump -tz`), or since the line before (`candump
    /// -td`).
    Relative,
}

impl TimeForm {
    ghost use Rattle.candump_line.specs.TimeForms.{form_of, time_form};

    /// The form of the time that a line begins with, one blank before it left out; none where it begins with no time.
    ///
    /// The first line with a time tells how all of a log are written: with `-tz` and with `-td` it has `000.000000`. Of `-tz` no
    /// time is less than the one before it; where one is, each is since the line before.
    pub fn of(line: &[u8]) -> Option<TimeForm>
        ensures { result ≡ time_form line.now }
    {
        if is_at(line, 0, b' ') {
            TimeForm::of_text(&line[1..])
        } else {
            TimeForm::of_text(line)
        }
    }

    /// The form of the time that a text begins with.
    fn of_text(text: &[u8]) -> Option<TimeForm>
        ensures { result ≡ form_of text.now }
    {
        if is_relative(text) {
            return Some(TimeForm::Relative);
        }
        if is_dated(text) {
            return Some(TimeForm::Date);
        }
        if is_timed(text) {
            Some(TimeForm::Seconds)
        } else {
            None
        }
    }
}

/// Whether a text begins with a relative time.
fn is_relative(text: &[u8]) -> bool
    ensures { result ≡ is_relative text.now }
{
    is_at(text, 0, b'(')
        && is_at(text, 1, b'0')
        && is_digit_at(text, 2)
        && is_digit_at(text, 3)
        && is_at(text, 4, b'.')
}

/// Whether a text begins with a date.
fn is_dated(text: &[u8]) -> bool
    ensures { result ≡ is_dated text.now }
{
    is_at(text, 0, b'(')
        && is_digit_at(text, 1)
        && is_digit_at(text, 2)
        && is_digit_at(text, 3)
        && is_digit_at(text, 4)
        && is_at(text, 5, b'-')
}

/// Whether a text begins with a time.
fn is_timed(text: &[u8]) -> bool
    ensures { result ≡ is_timed text.now }
{
    is_at(text, 0, b'(') && is_digit_at(text, 1)
}
